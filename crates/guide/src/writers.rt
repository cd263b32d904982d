//! Two threads that write to one guest memory.

use std::alloc::Global;
use std::sync::{Mutex, Wait};
use std::thread::{self, Threads};
use vm_memory::{Bytes, GuestAddress, GuestMemoryMmap, HostMemory};

// Writes under the lock of the host. Under a lock, what the host holds has to be tested again.
fn write_one<R: Wait>(
    rt: &R,
    host: &Mutex<HostMemory<()>>,
    memory: &GuestMemoryMmap,
    at: u64,
) -> bool {
    let mut host = host.lock(rt);
    host.holds(memory) && memory.write_obj(&mut *host, 7u8, GuestAddress(at)).is_ok()
}

/// Each of two threads writes a byte.
pub fn two_writers(rt: &(impl Print + Threads + Wait + Sync), alloc: Global) -> anyhow::Result<()> {
    let mut host = HostMemory::new(alloc);
    let ranges = [(GuestAddress(0), 0x1000)];
    let memory = GuestMemoryMmap::from_ranges(alloc, &mut host, &ranges)?;
    let host = Mutex::new(host);
    let (one, other) = thread::join(
        rt,
        || write_one(rt, &host, &memory, 0x10),
        || write_one(rt, &host, &memory, 0x11),
    );
    println!(rt; "wrote {one} {other}")?;
    Ok(())
}
