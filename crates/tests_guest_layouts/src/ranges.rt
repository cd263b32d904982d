//! Blocks of a host, and regions and memories over new ones, by ranges of addresses.

use std::alloc::{AllocError, Global};
use std::sync::Arc;
use std::test::Fail;
use test_text::expect_text;
use vm_memory_base::GuestAddress;
use vm_memory_guest::{
    BlockId, GuestMemoryBackend, GuestMemoryMmap, GuestMemoryRegion, GuestRegionMmap, HostMemory,
    MmapRegion,
};

// A size, and the error of a block of it.
const SIZES: [(usize, &str); 5] = [
    (0, "Some(InvalidSize)"),
    (0x8000_0000_0000_0000, "Some(InvalidSize)"),
    (usize::MAX, "Some(InvalidSize)"),
    (1, "None"),
    (0x10_0000, "None"),
];

#[test]
fn a_block_has_a_size_and_a_number(rt: HostRuntime) -> Result<(), Fail> {
    for (case, (size, wanted)) in SIZES.iter().enumerate() {
        let mut host: HostMemory<()> = HostMemory::new(rt.alloc());
        let block = host.new_block(*size).err();
        let with_bitmap = host.new_block_with(*size, ()).err();
        let mapping = MmapRegion::new(&mut host, *size).err();
        let told = format!(in rt.alloc(); "{block:?} {with_bitmap:?} {mapping:?}")?;
        let wanted = format!(in rt.alloc(); "{wanted} {wanted} {wanted}")?;
        expect_text(case, told.as_str(), wanted.as_str())?;
    }
    // Spaces and tables have numbers of their own.
    let mut host: HostMemory<()> = HostMemory::new(rt.alloc());
    for number in 0..1000usize {
        let blocks = [host.new_block(3)?, host.new_block_with(5, ())?];
        let space = host.new_space(())?;
        let table = host.new_table()?;
        assert!(rt; [blocks[0].0, blocks[1].0] == [2 * number, 2 * number + 1]);
        assert!(rt; [space.0, table.0] == [number, number]);
    }
    assert!(rt; MmapRegion::new(&mut host, 7)?.size() == 7);
    Ok(())
}

// The sizes of the blocks of a host, as the host and its shape tell them. Where these differ it is 0.
fn sizes_of(alloc: Global, host: &HostMemory<()>) -> Result<Vec<usize>, AllocError> {
    let mut sizes = Vec::new(alloc);
    for number in 0..1000usize {
        let Some(told) = host.shape().block_len(BlockId(number)) else {
            break;
        };
        let len = host.block_len(BlockId(number));
        sizes.push(if len == told { len } else { 0 })?;
    }
    Ok(sizes)
}

// An address and a size: the last address of a region there, or the error, and the sizes of the host's blocks then.
const SINGLE: [(u64, usize, &str); 13] = [
    (0x1000, 0x400, "Ok(5119) [1024]"),
    (0, 0x10_0000, "Ok(1048575) [1048576]"),
    (0, 0x1000, "Ok(4095) [4096]"),
    (0xffff_ffff_ffff_fffe, 1, "Ok(18446744073709551614) [1]"),
    (0xffff_ffff_ffff_fffb, 4, "Ok(18446744073709551614) [4]"),
    (0xffff_ffff_ffff_fffc, 4, "Err(InvalidGuestRegion) []"),
    (0xffff_ffff_ffff_f000, 0x1000, "Err(InvalidGuestRegion) []"),
    (
        0xffff_ffff_ffff_efff,
        0x1000,
        "Ok(18446744073709551614) [4096]",
    ),
    (0xffff_ffff_ffff_ffff, 1, "Err(InvalidGuestRegion) []"),
    (0xffff_ffff_ffff_ffff, 0, "Err(MmapRegion(InvalidSize)) []"),
    // The size is tested first.
    (
        0xffff_ffff_ffff_ffff,
        0x8000_0000_0000_0000,
        "Err(MmapRegion(InvalidSize)) []",
    ),
    (0, 0x8000_0000_0000_0000, "Err(MmapRegion(InvalidSize)) []"),
    (0, usize::MAX, "Err(MmapRegion(InvalidSize)) []"),
];

#[test]
fn a_range_makes_a_region_or_an_error(rt: HostRuntime) -> Result<(), Fail> {
    for (case, (start, size, wanted)) in SINGLE.iter().enumerate() {
        let mut host: HostMemory<()> = HostMemory::new(rt.alloc());
        let region = GuestRegionMmap::from_range(&mut host, GuestAddress(*start), *size);
        let last = region.map(|region| region.last_addr().0);
        let sizes = sizes_of(rt.alloc(), &host)?;
        let text = format!(in rt.alloc(); "{last:?} {:?}", sizes.as_slice())?;
        expect_text(case, text.as_str(), wanted)?;
        // So it is of a block that is there.
        let Ok(mapping) = MmapRegion::new(&mut host, *size) else {
            continue;
        };
        let owned = GuestRegionMmap::new(mapping, GuestAddress(*start));
        let shared = Arc::new(rt.alloc(), mapping)?;
        let shared = GuestRegionMmap::with_arc(shared, GuestAddress(*start));
        for region in [owned, shared] {
            assert!(rt; region.map(|region| region.last_addr().0) == last.as_ref().ok().copied());
        }
    }
    Ok(())
}

// Ranges of addresses, the error, or none where each makes a region, and the sizes of the host's blocks then.
type Ranges = (&'static [(u64, usize)], &'static str, &'static [usize]);

const RANGES: [Ranges; 10] = [
    (&[(0, 0x400), (0x1000, 0x200)], "", &[0x400, 0x200]),
    (&[(7, 1)], "", &[1]),
    (&[], "Collection(NoMemoryRegion)", &[]),
    (
        &[(0x1000, 4), (0, 4)],
        "Collection(UnsortedMemoryRegions)",
        &[4, 4],
    ),
    (
        &[(0, 4), (3, 5), (9, 2)],
        "Collection(MemoryRegionOverlap)",
        &[4, 5, 2],
    ),
    (&[(0, 4), (8, 0)], "MmapRegion(InvalidSize)", &[4]),
    (
        &[(0xffff_ffff_ffff_ffff, 0x8000_0000_0000_0000)],
        "MmapRegion(InvalidSize)",
        &[],
    ),
    (
        &[(0, 4), (0xffff_ffff_ffff_fffc, 4), (0, 0)],
        "InvalidGuestRegion",
        &[4],
    ),
    (&[(0xffff_ffff_ffff_fffb, 4)], "", &[4]),
    (
        &[(0, 0x10_0000), (0x10_0000, 0x20_0000)],
        "",
        &[0x10_0000, 0x20_0000],
    ),
];

// Fails where ranges do not make a memory of just these, or do not make this error, and other blocks.
fn expect_ranges(
    alloc: Global,
    ranges: &[(u64, usize)],
    wanted: &str,
    sizes: &[usize],
) -> Result<(), Fail> {
    let mut host: HostMemory<()> = HostMemory::new(alloc);
    let all = ranges
        .iter()
        .map(|(start, size)| (GuestAddress(*start), *size))
        .collect(alloc)?;
    let all: Vec<(GuestAddress, usize)> = all;
    match GuestMemoryMmap::from_ranges(alloc, &mut host, all.as_slice()) {
        Ok(memory) => {
            let regions = memory
                .iter()
                .map(|region| (region.start_addr(), region.get_mmap().size()));
            let regions: Vec<(GuestAddress, usize)> = regions.collect(alloc)?;
            if regions.as_slice() != all.as_slice() || !host.holds(&memory) {
                return Err(Fail::new("the memory has other ranges, or the host does not hold it"));
            }
            expect_text(0, "", wanted)?;
        }
        Err(refused) => {
            let text = format!(in alloc; "{refused:?}")?;
            expect_text(0, text.as_str(), wanted)?;
        }
    }
    if sizes_of(alloc, &host)?.as_slice() != sizes {
        return Err(Fail::new(format_args!("{ranges:?} leave other blocks")));
    }
    Ok(())
}

#[test]
fn ranges_make_a_memory_or_an_error(rt: HostRuntime) -> Result<(), Fail> {
    for (ranges, error, sizes) in RANGES.iter() {
        expect_ranges(rt.alloc(), ranges, error, sizes)?;
    }
    let many: Vec<(u64, usize)> = (0..500u64)
        .map(|number| (number.wrapping_mul(0x20), 0x10))
        .collect(rt.alloc())?;
    let sizes = vec![in rt.alloc(); 0x10usize; 500]?;
    expect_ranges(rt.alloc(), many.as_slice(), "", sizes.as_slice())
}
