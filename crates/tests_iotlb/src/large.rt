//! Ranges past 2^31, 2^32 and 2^40 bytes.

use crate::worlds::{Host, mapped};
use std::alloc::Global;
use std::test::Fail;
use test_text::expect_text;
use vhost_iotlb::{DeviceTable, IotlbMessage, MemoryRegion, MemoryRegions};
use vm_memory_base::{GuestAddress, Permissions};
use vm_memory_guest::TlbId;

// What is announced: so many bytes, which are guest memory from here on.
const SIZE: u64 = 1 << 62;

const GUEST: u64 = 0x1000;

const USER: u64 = 1 << 62;

// A message: `u` maps I/O addresses from the first number on, as many as the second, to the third in the announced
// memory; `i` invalidates; `m` and `f` are those of a back end.
type Asked = (char, u64, u64, u64);

// The messages to a table, each with what comes of it, and then I/O addresses and where each leads.
type Case = (
    &'static [(Asked, &'static str)],
    &'static [(u64, Option<u64>)],
);

const MAX: u64 = u64::MAX;

const NO_ADDRESSES: &str = "Malformed(EmptyRange)";

static CASES: [Case; 14] = [
    // Ranges of 2^31, 2^32 and 8 GiB, with one byte more or less, and the largest.
    (
        &[(('u', 0, 0x8000_0000, 0), "ok")],
        &[
            (0, Some(GUEST)),
            (0x7fff_ffff, Some(0x8000_0fff)),
            (0x8000_0000, None),
        ],
    ),
    (
        &[(('u', 0, 0xffff_ffff, 1), "ok")],
        &[(0xffff_fffe, Some(0x1_0000_0fff)), (0xffff_ffff, None)],
    ),
    (
        &[(('u', 5, 0x1_0000_0000, 1), "ok")],
        &[
            (4, None),
            (5, Some(0x1001)),
            (0x1_0000_0004, Some(0x1_0000_1000)),
            (0x1_0000_0005, None),
        ],
    ),
    (
        &[(('u', 0, 0x1_0000_0001, 0), "ok")],
        &[(0x1_0000_0000, Some(0x1_0000_1000)), (0x1_0000_0001, None)],
    ),
    (
        &[(('u', 0x10_0000, 0x2_0000_0000, 0), "ok")],
        &[
            (0xf_ffff, None),
            (0x10_0000, Some(GUEST)),
            (0x1_0010_0000, Some(0x1_0000_1000)),
            (0x2_000f_ffff, Some(0x2_0000_0fff)),
            (0x2_0010_0000, None),
        ],
    ),
    (
        &[(('u', MAX - SIZE, SIZE, 0), "ok")],
        &[
            (MAX - SIZE, Some(GUEST)),
            (MAX - 1, Some(SIZE + GUEST - 1)),
            (MAX, None),
        ],
    ),
    // A part of 8 GiB is taken back, and all of it.
    (
        &[
            (('u', 0, 0x2_0000_0000, 0), "ok"),
            (('i', 0x8000_0000, 0x1_0000_0000, 0), "ok"),
        ],
        &[
            (0x7fff_ffff, Some(0x8000_0fff)),
            (0x8000_0000, None),
            (0x1_7fff_ffff, None),
            (0x1_8000_0000, Some(0x1_8000_1000)),
        ],
    ),
    (
        &[
            (('u', 0, 0x2_0000_0000, 0), "ok"),
            (('i', 0, 0x2_0000_0000, 0), "ok"),
        ],
        &[(0, None), (0x1_0000_0000, None), (0x1_ffff_ffff, None)],
    ),
    // More than 4 GiB of 12 GiB are taken back, and no more.
    (
        &[
            (('u', 0, 0x3_0000_0000, 0), "ok"),
            (('i', 0x8000_0000, 0x1_8000_0000, 0), "ok"),
        ],
        &[
            (0x7fff_ffff, Some(0x8000_0fff)),
            (0x8000_0000, None),
            (0x1_ffff_ffff, None),
            (0x2_0000_0000, Some(0x2_0000_1000)),
            (0x2_ffff_ffff, Some(0x3_0000_0fff)),
        ],
    ),
    // All addresses.
    (
        &[(('u', 0, SIZE, 0), "ok"), (('i', 0, 0, 0), "ok")],
        &[(0, None), (SIZE - 1, None)],
    ),
    // What is refused, with what was mapped before.
    (
        &[
            (('u', 0, 0x2000, 0), "ok"),
            (('u', 0, SIZE + 1, 0), "UserAddress"),
            (('u', 0, 2, SIZE - 1), "UserAddress"),
            (('u', MAX, 1, 0), "Malformed(Range)"),
            (('u', MAX - 1, 2, 0), "Malformed(Range)"),
            (('m', 0, 0, 0), "Malformed(Kind)"),
            (('f', 0, 0, 0), "Malformed(Kind)"),
        ],
        &[(0, Some(GUEST)), (0x1fff, Some(0x2fff)), (MAX - 1, None)],
    ),
    // A malformed INVALIDATE takes back everything.
    (
        &[(('u', 0, 0x2000, 0), "ok"), (('i', 5, 0, 0), NO_ADDRESSES)],
        &[(0, None), (0x1fff, None)],
    ),
    (
        &[
            (('u', 0, 0x2000, 0), "ok"),
            (('i', MAX, 2, 0), "Malformed(Range)"),
        ],
        &[(0, None), (0x1fff, None)],
    ),
    // One that ends at the last address is none.
    (
        &[
            (('u', 0, 0x2000, 0), "ok"),
            (('i', 0x1000, MAX - 0xfff, 0), "ok"),
        ],
        &[
            (0, Some(GUEST)),
            (0xfff, Some(0x1fff)),
            (0x1000, None),
            (0x1fff, None),
        ],
    ),
];

fn message_of((kind, iova, size, offset): Asked) -> IotlbMessage {
    let access = Permissions::Read;
    match kind {
        'u' => IotlbMessage::Update {
            iova,
            size,
            user_address: USER.wrapping_add(offset),
            permissions: Permissions::ReadWrite,
        },
        'i' => IotlbMessage::Invalidate { iova, size },
        'm' => IotlbMessage::Miss { iova, access },
        _ => IotlbMessage::AccessFail { iova, access },
    }
}

fn announced(alloc: Global) -> Result<MemoryRegions, Fail> {
    let mut regions = Vec::new(alloc);
    regions.push(MemoryRegion {
        guest_address: GuestAddress(GUEST),
        size: SIZE,
        user_address: USER,
        mmap_offset: 0,
    })?;
    Ok(MemoryRegions::new(regions))
}

// A host with a table, and the table as a front end fills it.
fn host_of(alloc: Global) -> Result<(Host, DeviceTable), Fail> {
    let mut host = Host::new(alloc);
    let table = DeviceTable::new(alloc, &mut host, 8, announced(alloc)?)?;
    Ok((host, table))
}

// Fails where a message does not come to what it should.
fn expect_applied(
    alloc: Global,
    host: &mut Host,
    table: &DeviceTable,
    case: usize,
    messages: &[(Asked, &str)],
) -> Result<(), Fail> {
    for (asked, wanted) in messages {
        let told = match table.apply(host, &message_of(*asked)) {
            Ok(()) => String::from_str(alloc, "ok")?,
            Err(refusal) => format!(in alloc; "{refusal:?}")?,
        };
        expect_text(case, told.as_str(), wanted)?;
    }
    Ok(())
}

// Fails where an I/O address does not lead to where it should.
fn expect_mapped(
    alloc: Global,
    host: &Host,
    table: TlbId,
    case: usize,
    places: &[(u64, Option<u64>)],
) -> Result<(), Fail> {
    for (iova, wanted) in places {
        let to = mapped(host, table, *iova);
        let told = format!(in alloc; "{iova:#x} {to:?}")?;
        let wanted = format!(in alloc; "{iova:#x} {wanted:?}")?;
        expect_text(case, told.as_str(), wanted.as_str())?;
    }
    Ok(())
}

#[test]
fn ranges_of_many_bytes(rt: HostRuntime) -> Result<(), Fail> {
    let alloc = rt.alloc();
    for (case, (messages, places)) in CASES.iter().enumerate() {
        let (mut host, table) = host_of(alloc)?;
        expect_applied(alloc, &mut host, &table, case, messages)?;
        expect_mapped(alloc, &host, table.table, case, places)?;
    }
    Ok(())
}

// A table that the host does not have.
#[test]
fn a_table_that_is_not_there(rt: HostRuntime) -> Result<(), Fail> {
    let alloc = rt.alloc();
    let (mut host, _) = host_of(alloc)?;
    let table = DeviceTable {
        table: TlbId(1),
        memory: announced(alloc)?,
    };
    for kind in ['u', 'i', 'm'] {
        expect_applied(alloc, &mut host, &table, 0, &[((kind, 0, 1, 0), "NoTable")])?;
    }
    Ok(())
}

// Tables keep at most as many ranges as is asked for, any number of them.
#[test]
fn tables_of_any_limit(rt: HostRuntime) -> Result<(), Fail> {
    let alloc = rt.alloc();
    let mut host = Host::new(alloc);
    for (number, limit) in [1, 65, 513, 0x1_0001, 0x8000_0001, 0x1_0000_0001, usize::MAX]
        .iter()
        .enumerate()
    {
        if *limit == 0 {
            return Err(Fail::new("no table keeps 0 ranges"));
        }
        let table = DeviceTable::new(alloc, &mut host, *limit, announced(alloc)?)?;
        assert!(rt; table.table == TlbId(number), "limit {limit}");
    }
    Ok(())
}
