//! Snapshots of memory that is replaced.

use std::alloc::Global;
use std::rc::Rc;
use std::sync::{Arc, Wait};
use std::test::Fail;
use std::thread;
use vm_memory_base::{GuestAddress, Lends};
use vm_memory_guest::{
    GuestAddressSpace, GuestMemoryAtomic, GuestMemoryBackend, GuestMemoryLoadGuard,
    GuestMemoryMmap, GuestMemoryRegion, GuestRegionCollection, GuestRegionCollectionError,
    GuestRegionMmap, HostMemory,
};

// Two pages, at guest addresses 0 and 0x100000.
fn two_pages(alloc: Global, host: &mut HostMemory<()>) -> Result<GuestMemoryMmap, Fail> {
    let ranges = [(GuestAddress(0), 0x1000), (GuestAddress(0x10_0000), 0x1000)];
    Ok(GuestMemoryMmap::from_ranges(alloc, host, &ranges)?)
}

// A page at each of these addresses.
fn pages_at(
    alloc: Global,
    host: &mut HostMemory<()>,
    starts: &[u64],
) -> Result<Vec<Arc<GuestRegionMmap>>, Fail> {
    let mut pages = Vec::new(alloc);
    for start in starts {
        let page = GuestRegionMmap::from_range(host, GuestAddress(*start), 0x1000)?;
        pages.push(Arc::new(alloc, page)?)?;
    }
    Ok(pages)
}

// Replaces the memory by one that has a region more.
fn plug_in<W: Wait, R: GuestMemoryRegion>(
    rt: &W,
    alloc: Global,
    space: &GuestMemoryAtomic<GuestRegionCollection<R>>,
    region: Arc<R>,
) -> Result<(), Fail> {
    let turn = space.lock(rt);
    let layout = space.memory(rt, alloc)?.lend().insert_region(region)?;
    Ok(turn.replace(rt, alloc, layout)?)
}

// Fails where these are not the numbers of regions that are due.
fn expect_counts(counts: &[usize], wanted: &[usize]) -> Result<(), Fail> {
    if counts != wanted {
        return Err(Fail::new(format_args!("{counts:?} regions, not {wanted:?}")));
    }
    Ok(())
}

#[test]
fn a_device_keeps_its_snapshot_while_a_region_is_plugged_in(rt: HostRuntime) -> Result<(), Fail> {
    let alloc = rt.alloc();
    let mut host = HostMemory::new(alloc);
    let space = GuestMemoryAtomic::new(alloc, two_pages(alloc, &mut host)?)?;
    let page = pages_at(alloc, &mut host, &[0x8000])?
        .pop()
        .ok_or("there is no page")?;
    let kept = space.memory(&rt, alloc)?;
    let (seen, plugged) = thread::join(
        &rt,
        || kept.num_regions(),
        || plug_in(&rt, alloc, &space, page),
    );
    plugged?;
    let new = space.memory(&rt, alloc)?;
    expect_counts(&[seen, kept.num_regions(), new.num_regions()], &[2, 2, 3])
}

// Plugs pages in by another owner of an address space.
fn plug_all<W: Wait, R: GuestMemoryRegion>(
    rt: &W,
    alloc: Global,
    space: &GuestMemoryAtomic<GuestRegionCollection<R>>,
    pages: Vec<Arc<R>>,
) -> Result<(), Fail> {
    let other = space.clone()?;
    for page in pages {
        plug_in(rt, alloc, &other, page)?;
    }
    Ok(())
}

// Fails where a snapshot, or a clone of it, has not so many regions.
fn expect_snapshot<R: GuestMemoryRegion>(
    snapshot: &GuestMemoryLoadGuard<GuestRegionCollection<R>>,
    count: usize,
) -> Result<(), Fail> {
    let lent = snapshot.lend().num_regions();
    let cloned = snapshot.clone()?.num_regions();
    expect_counts(&[snapshot.num_regions(), lent, cloned], &[count; 3])
}

// Fails where a layout takes a region in that overlaps another.
fn expect_overlap<R: GuestMemoryRegion>(
    layout: &GuestRegionCollection<R>,
    region: Arc<R>,
) -> Result<(), Fail> {
    match layout.insert_region(region) {
        Err(GuestRegionCollectionError::MemoryRegionOverlap) => Ok(()),
        _ => Err(Fail::new("a page that overlaps another was taken")),
    }
}

// Plugs three pages in, and then fails where a snapshot of before has another memory, or one of after, or a fourth is
// taken that overlaps the first.
fn expect_snapshots<W: Wait, R: GuestMemoryRegion>(
    rt: &W,
    alloc: Global,
    space: &GuestMemoryAtomic<GuestRegionCollection<R>>,
    pages: Vec<Arc<R>>,
    over: Arc<R>,
) -> Result<(), Fail> {
    let old = space.memory(rt, alloc)?;
    plug_all(rt, alloc, space, pages)?;
    expect_snapshot(&old, 2)?;
    let new = space.memory(rt, alloc)?;
    expect_snapshot(&new, 5)?;
    expect_overlap(new.lend(), over)?;
    let owner = GuestMemoryAtomic::from_arc(alloc, new.into_inner())?;
    expect_counts(&[owner.memory(rt, alloc)?.num_regions()], &[5])
}

#[test]
fn a_snapshot_stays_when_its_memory_is_replaced(rt: HostRuntime) -> Result<(), Fail> {
    let alloc = rt.alloc();
    let mut host = HostMemory::new(alloc);
    let space = GuestMemoryAtomic::new(alloc, two_pages(alloc, &mut host)?)?;
    let pages = pages_at(alloc, &mut host, &[0x8000, 0x4000, 0xc000])?;
    let over = pages_at(alloc, &mut host, &[0x8000])?
        .pop()
        .ok_or("there is no page")?;
    expect_snapshots(&rt, alloc, &space, pages, over)
}

// Plugs pages in, and fails where a reader lends another memory than the last, or its first snapshot changes.
fn expect_readers<W: Wait, R: GuestMemoryRegion>(
    rt: &W,
    alloc: Global,
    space: GuestMemoryAtomic<GuestRegionCollection<R>>,
    pages: Vec<Arc<R>>,
) -> Result<(), Fail> {
    let other = space.clone()?;
    let mut reader = space.reader(rt)?;
    let old = reader.memory(rt)?.clone()?;
    let mut count = 2usize;
    expect_counts(&[reader.memory(rt)?.num_regions()], &[count])?;
    for page in pages {
        plug_in(rt, alloc, &other, page)?;
        count = count.saturating_add(1);
        // Between two looks it is replaced once, and then twice.
        if count == 4 {
            continue;
        }
        let (first, second) = (
            reader.memory(rt)?.num_regions(),
            reader.memory(rt)?.num_regions(),
        );
        expect_counts(&[first, second], &[count, count])?;
    }
    let mut late = other.reader(rt)?;
    drop(space);
    drop(other);
    let (early, late) = (
        reader.memory(rt)?.num_regions(),
        late.memory(rt)?.num_regions(),
    );
    expect_counts(&[early, late, old.num_regions()], &[5, 5, 2])
}

#[test]
fn a_reader_lends_the_last_memory(rt: HostRuntime) -> Result<(), Fail> {
    let alloc = rt.alloc();
    let mut host = HostMemory::new(alloc);
    let space = GuestMemoryAtomic::new(alloc, two_pages(alloc, &mut host)?)?;
    let pages = pages_at(alloc, &mut host, &[0x8000, 0x4000, 0xc000])?;
    expect_readers(&rt, alloc, space, pages)
}

// How many regions a snapshot has.
fn regions_of<R: GuestMemoryRegion, L: Lends<Target = GuestRegionCollection<R>>>(
    snapshot: &L,
) -> usize {
    snapshot.lend().num_regions()
}

// Fails where an address space of this memory does not give it.
fn expect_spaces<W: Wait, R: GuestMemoryRegion>(
    rt: &W,
    alloc: Global,
    memory: &GuestRegionCollection<R>,
) -> Result<(), Fail> {
    let counted = Rc::new(alloc, memory.clone()?)?;
    let shared = Arc::new(alloc, memory.clone()?)?;
    let lent = regions_of(&GuestAddressSpace::memory(&memory, rt, alloc)?);
    let owned = regions_of(&GuestAddressSpace::memory(&counted, rt, alloc)?);
    let both = regions_of(&GuestAddressSpace::memory(&shared, rt, alloc)?);
    let atomic = GuestMemoryAtomic::from_arc(alloc, shared)?;
    let guard = regions_of(&GuestAddressSpace::memory(&atomic, rt, alloc)?);
    expect_counts(&[lent, owned, both, guard], &[2; 4])
}

#[test]
fn each_address_space_gives_its_memory(rt: HostRuntime) -> Result<(), Fail> {
    let mut host = HostMemory::new(rt.alloc());
    let memory = two_pages(rt.alloc(), &mut host)?;
    expect_spaces(&rt, rt.alloc(), &memory)
}
