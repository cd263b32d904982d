//! How the premise of an access is met: the host holds what the memory names.
ghost use Rattle.std.specs.Prelude.{◌≡◌};
ghost use Rattle.vm_memory_guest.specs.Host.{shape_of, Holds};

use anyhow::bail;
use std::alloc::Global;
use vm_memory::{
    Bitmap, Bytes, GuestAddress, GuestMemory, GuestMemoryMmap, GuestMemoryResult, HostMemory,
};

/// Adds one to a counter of the guest. Its caller vouches that the host holds the memory, and may go on using it.
pub fn count_up<M: GuestMemory, B: Bitmap>(
    memory: &M,
    host: &mut HostMemory<B>,
    counter: GuestAddress,
) -> GuestMemoryResult<()>
    requires { Holds (shape_of host.old) (M.names memory.now) }
    ensures { shape_of host.new ≡ shape_of host.old }
{
    let count = memory.read_obj::<u32, B>(host, counter)?;
    memory.write_obj(host, count.wrapping_add(1), counter)
}

/// Counts up twice in a host that came from elsewhere, which it tests first.
pub fn count_twice(host: &mut HostMemory<()>, memory: &GuestMemoryMmap) -> anyhow::Result<u32> {
    if !host.holds(memory) {
        bail!("the memory is of another host");
    }
    count_up(memory, host, GuestAddress(8))?;
    count_up(memory, host, GuestAddress(8))?;
    Ok(memory.read_obj::<u32, _>(host, GuestAddress(8))?)
}

/// Counts up in the right host, and is refused in another.
pub fn with_a_test(rt: &impl Print, alloc: Global) -> anyhow::Result<()> {
    let mut host = HostMemory::new(alloc);
    let ranges = [(GuestAddress(0), 0x1000)];
    let memory = GuestMemoryMmap::from_ranges(alloc, &mut host, &ranges)?;
    let count = count_twice(&mut host, &memory)?;
    let mut other = HostMemory::new(alloc);
    let refused = count_twice(&mut other, &memory).is_err();
    println!(rt; "count {count}, refused {refused}")?;
    Ok(())
}
