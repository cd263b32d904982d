//! A layout that is exchanged while another thread reads.

use std::alloc::{AllocError, Global};
use std::sync::{Arc, Wait};
use std::thread::{self, Threads};
use vm_memory::{
    GuestAddress, GuestAddressSpace, GuestMemoryAtomic, GuestMemoryBackend, GuestMemoryMmap,
    GuestMemoryReader, GuestRegionMmap, HostMemory, Lends,
};

type Space = GuestMemoryAtomic<GuestMemoryMmap>;

// Exchanges the memory for one that has a region more. No other thread may do so meanwhile.
fn plug_in<R: Wait>(
    rt: &R,
    alloc: Global,
    space: &Space,
    region: Arc<GuestRegionMmap>,
) -> anyhow::Result<()> {
    let turn = space.lock(rt);
    let layout = space.memory(rt, alloc)?.lend().insert_region(region)?;
    Ok(turn.replace(rt, alloc, layout)?)
}

// A device thread asks its reader for the memory at each request. This one has no requests: it asks until there is a
// second region.
fn run_device<R: Wait>(
    rt: &R,
    mut reader: GuestMemoryReader<GuestMemoryMmap>,
) -> Result<usize, AllocError> {
    for _ in rt.forever() {
        let memory = reader.memory(rt)?;
        if memory.num_regions() > 1 {
            return Ok(memory.num_regions());
        }
        thread::yield_now();
    }
    unreachable!()
}

/// A region is added while a device thread runs, which has it from then on. A snapshot that was kept does not have it.
pub fn add_while_reading(
    rt: &(impl Print + Threads + Wait + Sync),
    alloc: Global,
) -> anyhow::Result<()> {
    let mut host = HostMemory::<()>::new(alloc);
    let ranges = [(GuestAddress(0), 0x1000)];
    let memory = GuestMemoryMmap::from_ranges(alloc, &mut host, &ranges)?;
    let region = GuestRegionMmap::from_range(&mut host, GuestAddress(0x8000), 0x1000)?;
    let region = Arc::new(alloc, region)?;
    let space = GuestMemoryAtomic::new(alloc, memory)?;
    let mut reader = space.reader(rt)?;
    let kept = reader.memory(rt)?.clone()?;
    let (plugged, seen) = thread::join(
        rt,
        || plug_in(rt, alloc, &space, region),
        || run_device(rt, reader),
    );
    plugged?;
    let seen = seen?;
    println!(rt; "kept {}, then {seen}", kept.num_regions())?;
    Ok(())
}
