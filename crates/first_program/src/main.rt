//! A memory of two regions that touch.
#![tactic(auto)]

use vm_memory::{Bytes, GuestAddress, GuestMemoryMmap, HostMemory};

fn main(rt: HostRuntime) -> anyhow::Result<()> {
    // The host has all bytes. `()` is its kind of bitmaps: none that tracks dirty pages.
    let mut host = HostMemory::<()>::new(rt.alloc());
    let ranges = [(GuestAddress(0), 0x1000), (GuestAddress(0x1000), 0x1000)];
    let memory = GuestMemoryMmap::from_ranges(rt.alloc(), &mut host, &ranges)?;
    // Two of these bytes lie in each region.
    memory.write_slice(&mut host, &[1, 2, 3, 4], GuestAddress(0xffe))?;
    let mut back = [0; 4];
    memory.read_slice(&host, &mut back, GuestAddress(0xffe))?;
    println!(rt; "read {back:?}")?;
    // No region holds this address.
    if let Err(error) = memory.write(&mut host, &[5], GuestAddress(0x2000)) {
        println!(rt; "refused: {error}")?;
    }
    Ok(())
}
