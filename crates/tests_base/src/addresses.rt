//! Arithmetic on addresses and offsets.

use vm_memory_base::{
    Address, AddressValue, AddressWord, GuestAddress, IovaRange, MemoryRegionAddress,
};

#[test]
fn sums_and_differences(rt: HostRuntime) {
    // The sum and the difference modulo 2^64, and whether each is another than that of whole numbers.
    let cases = [
        (0x1000, 1, (0x1001, false), (0xfff, false)),
        (0x1000, 0x1000, (0x2000, false), (0, false)),
        (0x1000, 0x1001, (0x2001, false), (u64::MAX, true)),
        (u64::MAX - 1, 1, (u64::MAX, false), (u64::MAX - 2, false)),
        (u64::MAX, 1, (0, true), (u64::MAX - 1, false)),
        (0, 1, (1, false), (u64::MAX, true)),
        (5, u64::MAX, (4, true), (6, true)),
    ];
    for (address, offset, (sum, over), (difference, under)) in cases {
        let a = GuestAddress(address);
        let whole = GuestAddress(sum);
        let rest = GuestAddress(difference);
        assert!(rt; a.checked_add(offset) == (!over).then_some(whole));
        assert!(rt; a.checked_sub(offset) == (!under).then_some(rest));
        assert!(rt; a.overflowing_add(offset) == (whole, over));
        assert!(rt; a.overflowing_sub(offset) == (rest, under));
        assert!(rt; a.checked_offset_from(GuestAddress(offset)) == (!under).then_some(difference));
    }
    let a = GuestAddress(0x150);
    assert!(rt; a.unchecked_add(1) == GuestAddress(0x151));
    assert!(rt; a.unchecked_sub(0x150).raw_value() == GuestAddress::zero());
    assert!(rt; a.unchecked_offset_from(GuestAddress(0x100)) == 0x50);
}

#[test]
fn words_and_alignment(rt: HostRuntime) {
    let cases = [
        (0x0ff0, 0xf00f, 0, 0xffff),
        (0x5050, 0xff00, 0x5000, 0xff50),
        (0x5050, 5, 0, 0x5055),
    ];
    for (address, mask, both, either) in cases {
        let a = MemoryRegionAddress(address);
        assert!(rt; a.mask(mask) == both);
        assert!(rt; a & mask == MemoryRegionAddress(both));
        assert!(rt; a | mask == MemoryRegionAddress(either));
    }
    for (address, aligned) in [
        (0x128, 0x130),
        (0x130, 0x130),
        (0x131, 0x140),
        (0x150, 0x150),
    ] {
        let a = GuestAddress(address);
        assert!(rt; a.checked_align_up(16) == Some(GuestAddress(aligned)));
        assert!(rt; a.unchecked_align_up(16) == GuestAddress(aligned));
    }
    assert!(rt; GuestAddress(0x128).checked_align_up(8) == Some(GuestAddress(0x128)));
    assert!(rt; GuestAddress(0x128).unchecked_align_up(8) == GuestAddress(0x128));
    let high = MemoryRegionAddress(u64::MAX - 0x3fff);
    assert!(rt; high.checked_align_up(0x10000).is_none());
    assert!(rt; GuestAddress::new(1).raw_value() == GuestAddress::one());
    assert!(rt; GuestAddress::default() == GuestAddress(0));
    assert!(rt; MemoryRegionAddress::default() == MemoryRegionAddress(0));
    for number in [0, 0x300, u64::MAX] {
        let a = GuestAddress::new(number);
        let next = GuestAddress(number ^ 1);
        assert!(rt; a == GuestAddress(number) && a.raw_value() == number);
        assert!(rt; a != next && next != a);
        assert!(rt; (a < next) == (number % 2 == 0));
    }
    for (start, length) in [(0x1000, 0x234), (5, 0), (0, 0xffff_ffff)] {
        let range = IovaRange::from_range(start..start + length);
        assert!(rt; range.base == GuestAddress(start) && range.length == length as usize);
    }
}
