//! Snapshots of memory that is replaced by a layout of no region, of one and of many.

use std::alloc::Global;
use std::sync::Wait;
use std::test::Fail;
use vm_memory_base::GuestAddress;
use vm_memory_guest::{
    GuestAddressSpace, GuestMemoryAtomic, GuestMemoryBackend, GuestMemoryMmap, GuestMemoryRegion,
    GuestRegionCollection, HostMemory,
};

// So many regions of 0x10 bytes, one after the other: one of them is taken out again where none are asked for.
fn layout_of(
    alloc: Global,
    host: &mut HostMemory<()>,
    count: u64,
) -> Result<GuestMemoryMmap, Fail> {
    let mut ranges = Vec::new(alloc);
    for number in 0..count.max(1) {
        ranges.push((GuestAddress(number.saturating_mul(0x10)), 0x10))?;
    }
    let layout = GuestMemoryMmap::from_ranges(alloc, host, ranges.as_slice())?;
    if count == 0 {
        let (empty, _) = layout.remove_region(GuestAddress(0), 0x10)?;
        return Ok(empty);
    }
    Ok(layout.clone()?)
}

// Replaces the memory, and tells how many regions a snapshot has then, and its last address.
fn tell_next<W: Wait, R: GuestMemoryRegion>(
    rt: &W,
    alloc: Global,
    space: &GuestMemoryAtomic<GuestRegionCollection<R>>,
    layout: GuestRegionCollection<R>,
    text: &mut String,
) -> Result<(), Fail> {
    space.lock(rt).replace(rt, alloc, layout)?;
    let next = space.memory(rt, alloc)?;
    writeln!(text, "{} {:#x}", next.num_regions(), next.last_addr().0)?;
    Ok(())
}

// How many regions each layout has, and its last address.
const TOLD: &str = "70000 0x1116ff\n1 0xf\n0 0x0\n70000 0x1116ff\n";

#[test]
fn a_snapshot_is_of_the_last_layout(rt: HostRuntime) -> Result<(), Fail> {
    let mut host = HostMemory::new(rt.alloc());
    let first = layout_of(rt.alloc(), &mut host, 2)?;
    let space = GuestMemoryAtomic::new(rt.alloc(), first)?;
    let mut text = String::new(rt.alloc());
    for count in [70_000, 1, 0, 70_000] {
        let layout = layout_of(rt.alloc(), &mut host, count)?;
        tell_next(&rt, rt.alloc(), &space, layout, &mut text)?;
    }
    assert!(rt; text.as_str() == TOLD);
    Ok(())
}

// A memory that so many snapshots and readers have at once, and an address space as many owners.
fn expect_owners<W: Wait, R: GuestMemoryRegion>(
    rt: &W,
    alloc: Global,
    space: &GuestMemoryAtomic<GuestRegionCollection<R>>,
    count: usize,
) -> Result<(), Fail> {
    let mut snapshots = Vec::new(alloc);
    let mut readers = Vec::new(alloc);
    let mut owners = Vec::new(alloc);
    for _ in 0..count {
        let snapshot = space.memory(rt, alloc)?;
        snapshots.push(snapshot.clone()?)?;
        snapshots.push(snapshot)?;
        readers.push(space.reader(rt)?)?;
        owners.push(space.clone()?)?;
    }
    let is_each = snapshots.iter().all(|snapshot| snapshot.num_regions() == 2);
    if !is_each || snapshots.len() / 2 != owners.len() {
        return Err(Fail::new("a snapshot is of another memory"));
    }
    for mut reader in readers {
        if reader.memory(rt)?.num_regions() != 2 {
            return Err(Fail::new("a reader lends another memory"));
        }
    }
    Ok(())
}

#[test]
fn a_memory_has_many_owners(rt: HostRuntime) -> Result<(), Fail> {
    let mut host = HostMemory::new(rt.alloc());
    let layout = layout_of(rt.alloc(), &mut host, 2)?;
    let space = GuestMemoryAtomic::new(rt.alloc(), layout)?;
    expect_owners(&rt, rt.alloc(), &space, 70_000)
}
