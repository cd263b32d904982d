//! Bytes that come from a file.

use std::fs::{self, File};
use vm_memory::{Bytes, GuestAddress, GuestMemoryMmap, HostMemory};

/// Puts an image from a file at an address: all of the bytes that are asked for, or an error.
pub fn from_a_file(rt: &HostRuntime) -> anyhow::Result<()> {
    fs::write(rt, "guide-image", &[0x7f, 0x45, 0x4c, 0x46])?;
    let mut image = File::open(rt, "guide-image")?;
    fs::remove_file(rt, "guide-image")?;
    let mut host = HostMemory::<()>::new(rt.alloc());
    let start = GuestAddress(0x10_0000);
    let memory = GuestMemoryMmap::from_ranges(rt.alloc(), &mut host, &[(start, 0x1000)])?;
    memory.read_exact_volatile_from(&mut host, start, &mut image, 4)?;
    let magic = memory.read_obj::<u32, _>(&host, start)?;
    // The file has no byte more.
    let more = memory.read_exact_volatile_from(&mut host, start, &mut image, 1);
    println!(rt; "magic {magic:#x}, more {}", more.is_ok())?;
    Ok(())
}
