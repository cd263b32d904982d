//! Access to guest memory by guest address that ends before all bytes are moved.

use std::alloc::Global;
use std::fmt;
use std::test::Fail;
use test_regions::{AROUND_A_HOLE, BEFORE_A_BARE_REGION, Place, TestRegion, memory_of};
use test_text::expect_text;
use vm_memory_base::{GuestAddress, MemoryRegionAddress};
use vm_memory_guest::{Bytes, HostMemory};

/// An address, a count, and what an access returns, and one that is to move all.
pub type Access<A> = (A, usize, &'static str, &'static str);

/// Tries a write, a read, a write of all and a read of all, of each address and count, and fails if they do not
/// answer so.
pub fn expect_accesses<A: Copy, M: Bytes<A>>(
    alloc: Global,
    host: &mut HostMemory<()>,
    place: &M,
    accesses: &[Access<A>],
) -> Result<(), Fail>
where
    M::E: fmt::Debug + Drop,
{
    for (case, (at, count, any, all)) in accesses.iter().enumerate() {
        if !host.holds(place) {
            return Err(Fail::new("the host does not hold the place"));
        }
        let bytes = vec![in alloc; 5u8; *count]?;
        let mut buffer = vec![in alloc; 0u8; *count]?;
        let wrote = place.write(host, bytes.as_slice(), *at);
        let wrote_all = place.write_slice(host, bytes.as_slice(), *at);
        let had = place.read(host, buffer.as_mut_slice(), *at);
        let had_all = place.read_slice(host, buffer.as_mut_slice(), *at);
        let told = format!(in alloc; "{wrote:?} {had:?} {wrote_all:?} {had_all:?}")?;
        let wanted = format!(in alloc; "{any} {any} {all} {all}")?;
        expect_text(case, told.as_str(), wanted.as_str())?;
    }
    Ok(())
}

// Layouts, and accesses to each.
const LAYOUTS: [(&[Place], &[Access<GuestAddress>]); 2] = [
    (
        &AROUND_A_HOLE,
        &[
            (GuestAddress(0x3fc), 4, "Ok(4)", "Ok(())"),
            (
                GuestAddress(0x3fc),
                8,
                "Ok(4)",
                "Err(PartialBuffer { expected: 8, completed: 4 })",
            ),
            (
                GuestAddress(0x400),
                1,
                "Err(InvalidGuestAddress(GuestAddress(1024)))",
                "Err(InvalidGuestAddress(GuestAddress(1024)))",
            ),
            (
                GuestAddress(0xfff),
                2,
                "Err(InvalidGuestAddress(GuestAddress(4095)))",
                "Err(InvalidGuestAddress(GuestAddress(4095)))",
            ),
            (GuestAddress(0x400), 0, "Ok(0)", "Ok(())"),
            (GuestAddress(0xffff_ffff_ffff_ffff), 0, "Ok(0)", "Ok(())"),
            (GuestAddress(0x1000), 0x400, "Ok(1024)", "Ok(())"),
            (
                GuestAddress(0x1000),
                0x401,
                "Ok(1024)",
                "Err(PartialBuffer { expected: 1025, completed: 1024 })",
            ),
        ],
    ),
    (
        &BEFORE_A_BARE_REGION,
        &[
            (
                GuestAddress(0xffe),
                4,
                "Ok(2)",
                "Err(PartialBuffer { expected: 4, completed: 2 })",
            ),
            (
                GuestAddress(0x1000),
                1,
                "Err(HostAddressNotAvailable)",
                "Err(HostAddressNotAvailable)",
            ),
            (GuestAddress(0x1800), 0, "Ok(0)", "Ok(())"),
            (
                GuestAddress(0x2000),
                1,
                "Err(InvalidGuestAddress(GuestAddress(8192)))",
                "Err(InvalidGuestAddress(GuestAddress(8192)))",
            ),
        ],
    ),
];

// A region without bytes refuses the empty access too.
const BARE: [Access<MemoryRegionAddress>; 4] = [
    (MemoryRegionAddress(0), 0, REFUSED, REFUSED),
    (MemoryRegionAddress(8), 0, REFUSED, REFUSED),
    (MemoryRegionAddress(u64::MAX), 0, REFUSED, REFUSED),
    (MemoryRegionAddress(0), 1, REFUSED, REFUSED),
];

const REFUSED: &str = "Err(HostAddressNotAvailable)";

#[test]
fn an_access_ends_where_no_byte_is(rt: HostRuntime) -> Result<(), Fail> {
    let alloc = rt.alloc();
    for (places, accesses) in &LAYOUTS {
        let mut host = HostMemory::new(alloc);
        let memory = memory_of(alloc, &mut host, places)?;
        expect_accesses(alloc, &mut host, &memory, accesses)?;
    }
    let mut host = HostMemory::new(alloc);
    let region = TestRegion::bare(GuestAddress(0x1000), 8).ok_or("the region does not fit")?;
    expect_accesses(alloc, &mut host, &region, &BARE)
}
