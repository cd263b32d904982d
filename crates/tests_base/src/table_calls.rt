//! I/O tables: calls, and what they return.

use crate::lookups::expect_look_up;
use std::alloc::Global;
use std::test::Fail;
use test_text::next_number;
use vm_memory_base::{GuestAddress, Iotlb, Permissions};

// Changes of a table, and what it tells then: how many ranges it has, and a look-up.
#[derive(Clone, Copy)]
enum Call {
    Set(u64, u64, usize, Permissions),
    Invalidate(u64, usize),
    Lookup(u64, usize, Permissions),
}

const CALLS: [(Call, usize, &str); 12] = [
    (
        Call::Lookup(0xffff_ffff_ffff_ffff, 1, Permissions::No),
        0,
        "misses 0xffffffffffffffff+0x1 access",
    ),
    (Call::Lookup(5, 0, Permissions::Write), 0, ""),
    (Call::Set(0, 0x10000, 0x1000, Permissions::Read), 1, ""),
    (Call::Set(0x1000, 0x11000, 0x1000, Permissions::Read), 1, ""),
    (
        Call::Lookup(0xff0, 0x20, Permissions::Read),
        1,
        " 0x10ff0+0x20",
    ),
    (
        Call::Lookup(0, 0x1000, Permissions::Write),
        1,
        "misses access 0x0+0x1000",
    ),
    (Call::Invalidate(0x800, 0), 1, ""),
    (Call::Invalidate(0x800, 0x100), 2, ""),
    (
        Call::Lookup(0, 0x1000, Permissions::Read),
        2,
        "misses 0x800+0x100 access",
    ),
    (Call::Set(0x1000, 0, 0x1000, Permissions::Read), 3, ""),
    (
        Call::Lookup(0x1800, 0x10, Permissions::Read),
        3,
        " 0x800+0x10",
    ),
    (
        Call::Lookup(0x1ff0, 0xffff_ffff_ffff_ffff, Permissions::No),
        3,
        "misses 0x1ff0+0xffffffffffffffff access",
    ),
];

// Of a table of at most two ranges. The first is evicted, but for the one that has the first address that was set.
const CALLS_WITHIN_TWO: [(Call, usize, &str); 7] = [
    (Call::Set(0, 0x10000, 0x1000, Permissions::Read), 1, ""),
    (Call::Set(0x2000, 0x20000, 0x1000, Permissions::Read), 2, ""),
    (Call::Set(0x4000, 0x30000, 0x1000, Permissions::Read), 2, ""),
    (
        Call::Lookup(0, 0x5000, Permissions::Read),
        2,
        "misses 0x0+0x2000 0x3000+0x1000 access",
    ),
    (
        Call::Lookup(0, 1, Permissions::Read),
        2,
        "misses 0x0+0x1 access",
    ),
    (Call::Set(0, 0x10000, 0x1000, Permissions::Read), 2, ""),
    (
        Call::Lookup(0, 0x5000, Permissions::Read),
        2,
        "misses 0x1000+0x3000 access",
    ),
];

// Of a table of at most one.
const CALLS_WITHIN_ONE: [(Call, usize, &str); 7] = [
    (Call::Set(0, 0x10000, 0x3000, Permissions::Read), 1, ""),
    (Call::Invalidate(0x1000, 0x1000), 1, ""),
    (
        Call::Lookup(0x2000, 0x1000, Permissions::Read),
        1,
        " 0x12000+0x1000",
    ),
    (
        Call::Lookup(0, 0x3000, Permissions::Read),
        1,
        "misses 0x0+0x2000 access",
    ),
    (Call::Set(0, 0x10000, 0x3000, Permissions::Read), 1, ""),
    (
        Call::Set(0x1000, 0x50000, 0x1000, Permissions::ReadWrite),
        1,
        "",
    ),
    (
        Call::Lookup(0, 0x3000, Permissions::Read),
        1,
        "misses 0x0+0x1000 0x2000+0x1000 access",
    ),
];

// Of ranges of more than 2^40 addresses.
const FAR_CALLS: [(Call, usize, &str); 10] = [
    (
        Call::Set(0x1000, 0, 0x200_0000_0000, Permissions::Read),
        1,
        "",
    ),
    (
        Call::Lookup(0x1000, 0x200_0000_0000, Permissions::Read),
        1,
        " 0x0+0x20000000000",
    ),
    (
        Call::Lookup(0, 0x400_0000_0000_0000, Permissions::Read),
        1,
        "misses 0x0+0x1000 0x20000001000+0x3fffdfffffff000 access",
    ),
    (
        Call::Set(
            0x8000_0000_0000_0000,
            0x1000,
            0x4000_0000_0000_0000,
            Permissions::ReadWrite,
        ),
        2,
        "",
    ),
    (
        Call::Lookup(
            0x8000_0000_0000_0000,
            0x4000_0000_0000_0000,
            Permissions::Write,
        ),
        2,
        " 0x1000+0x4000000000000000",
    ),
    (
        Call::Invalidate(0x9000_0000_0000_0000, 0x1000_0000_0000_0000),
        3,
        "",
    ),
    (
        Call::Lookup(
            0x8000_0000_0000_0000,
            0x4000_0000_0000_0000,
            Permissions::Read,
        ),
        3,
        "misses 0x9000000000000000+0x1000000000000000 access",
    ),
    (
        Call::Lookup(
            0xa000_0000_0000_0000,
            0x2000_0000_0000_0000,
            Permissions::Read,
        ),
        3,
        " 0x2000000000001000+0x2000000000000000",
    ),
    (Call::Invalidate(0, 0xffff_ffff_ffff_ffff), 0, ""),
    (
        Call::Lookup(0, 0xffff_ffff_ffff_ffff, Permissions::No),
        0,
        "misses 0x0+0xffffffffffffffff access",
    ),
];

// Makes the calls, and compares what they tell, and the number of ranges then.
fn expect_calls(
    alloc: Global,
    table: &mut Iotlb,
    calls: &[(Call, usize, &str)],
) -> Result<(), Fail> {
    for (case, (call, ranges, wanted)) in calls.iter().enumerate() {
        match call {
            Call::Set(iova, map_to, len, perm) => {
                if iova.checked_add(*len as u64).is_none() {
                    return Err(Fail::new("the range ends past the last address"));
                }
                let set = table.set_mapping(
                    GuestAddress(*iova),
                    GuestAddress(*map_to),
                    *len,
                    *perm,
                );
                if set.is_err() {
                    return Err(Fail::new(format_args!("case {case}: {len:#x} is refused")));
                }
            }
            Call::Invalidate(iova, len) => {
                if iova.checked_add(*len as u64).is_none() {
                    return Err(Fail::new("the range ends past the last address"));
                }
                if table.invalidate_mapping(GuestAddress(*iova), *len).is_err() {
                    return Err(Fail::new(format_args!("case {case}: {len:#x} is refused")));
                }
            }
            Call::Lookup(iova, len, access) => {
                expect_look_up(alloc, case, table, (*iova, *len), *access, wanted)?;
            }
        }
        if table.num_ranges() != *ranges {
            return Err(Fail::new(format_args!("case {case}: {ranges} ranges")));
        }
    }
    Ok(())
}

#[test]
fn calls_of_tables(rt: HostRuntime) -> Result<(), Fail> {
    let mut table = Iotlb::new(rt.alloc());
    expect_calls(rt.alloc(), &mut table, &CALLS)?;
    table.invalidate_all();
    assert!(rt; table.num_ranges() == 0);
    expect_calls(rt.alloc(), &mut table, &FAR_CALLS)?;
    // Lengths of one or two bits, their neighbours, and others on from there.
    let mut state = 3;
    for shift in 1..61u32 {
        for top in [2u64, 3] {
            for more in [u64::MAX, 0, 1, next_number(&mut state)] {
                let len = (top << shift).wrapping_add(more) as usize;
                let one = format!(in rt.alloc(); " 0x5000+{len:#x}")?;
                let two = format!(in rt.alloc(); " 0x9000+0x1 0x5001+{:#x}", len.wrapping_sub(1))?;
                let calls = [
                    (Call::Set(0x1000, 0x5000, len, Permissions::Read), 1, ""),
                    (
                        Call::Lookup(0x1000, len, Permissions::Read),
                        1,
                        one.as_str(),
                    ),
                    (Call::Set(0x1000, 0x9000, 1, Permissions::ReadWrite), 2, ""),
                    (
                        Call::Lookup(0x1000, len, Permissions::Read),
                        2,
                        two.as_str(),
                    ),
                    (Call::Invalidate(0x1000, len), 0, ""),
                ];
                expect_calls(rt.alloc(), &mut table, &calls)?;
            }
        }
    }
    let mut two = Iotlb::with_limit(rt.alloc(), 2);
    expect_calls(rt.alloc(), &mut two, &CALLS_WITHIN_TWO)?;
    let mut one = Iotlb::with_limit(rt.alloc(), 1);
    expect_calls(rt.alloc(), &mut one, &CALLS_WITHIN_ONE)
}

// Of 70,000 pages each lies as far from the next as twice its size, and one of them is not mapped then.
#[test]
fn many_ranges(rt: HostRuntime) -> Result<(), Fail> {
    let mut table = Iotlb::new(rt.alloc());
    for number in 0..70_000u64 {
        let from = GuestAddress(number * 0x1000);
        let to = GuestAddress(number * 0x2000);
        table.set_mapping(from, to, 0x1000, Permissions::Read)?;
    }
    assert!(rt; table.num_ranges() == 70_000);
    let found = table.resolve(GuestAddress(0), 70_000 * 0x1000, Permissions::Read)?;
    assert!(rt; found.as_slice().len() == 70_000);
    for (number, piece) in found.as_slice().iter().enumerate() {
        assert!(rt; piece.base.0 == (number as u64).wrapping_mul(0x2000) && piece.length == 0x1000);
    }
    table.invalidate_mapping(GuestAddress(0x1000_0000), 0x1000)?;
    assert!(rt; table.num_ranges() == 69_999);
    let wanted = "misses 0x10000000+0x1000 access";
    let all = (0, 70_000 * 0x1000);
    expect_look_up(rt.alloc(), 0, &table, all, Permissions::Read, wanted)
}

// A full table takes each mapping, in place of one that it has.
#[test]
fn full_tables(rt: HostRuntime) -> Result<(), Fail> {
    for limit in [100usize, 4097] {
        let mut table = Iotlb::with_limit(rt.alloc(), limit);
        for number in 0..20_000u64 {
            let from = GuestAddress(number * 0x2000);
            let evicted = table.set_mapping_counted(from, from, 0x1000, Permissions::Read)?;
            assert!(rt; evicted == usize::from(number as usize >= limit));
            let found = table.resolve(from, 0x1000, Permissions::Read)?;
            assert!(rt; found.as_slice().len() == 1 && table.num_ranges() <= limit);
        }
        assert!(rt; table.num_ranges() == limit);
    }
    Ok(())
}
