//! Values at guest addresses.

use std::alloc::Global;
use std::sync::atomic::Ordering;
use vm_memory::{Bytes, GuestAddress, GuestMemoryMmap, HostMemory};

/// Writes a number and reads half of it; stores a number in one access and loads it.
pub fn typed_values(rt: &impl Print, alloc: Global) -> anyhow::Result<()> {
    let mut host = HostMemory::<()>::new(alloc);
    let ranges = [(GuestAddress(0), 0x1000)];
    let memory = GuestMemoryMmap::from_ranges(alloc, &mut host, &ranges)?;
    memory.write_obj(&mut host, 0x0403_0201u32, GuestAddress(0x11))?;
    let half = memory.read_obj::<u16, _>(&host, GuestAddress(0x13))?;
    // A load or a store is one access: aligned, and in one region.
    memory.store(&mut host, 7u64, GuestAddress(0x18), Ordering::SeqCst)?;
    let word = memory.load::<u64, _>(&host, GuestAddress(0x18), Ordering::SeqCst)?;
    println!(rt; "half {half:#x}, word {word}")?;
    Ok(())
}
