//! Dirty pages.

use anyhow::{Context, bail};
use std::alloc::Global;
use std::num::NonZeroUsize;
use std::sync::Arc;
use std::thread::{self, Threads};
use vm_memory::{
    AtomicBitmap, Bitmap, Bytes, ExactBitmap, ExclusiveBitmap, GuestAddress, GuestMemoryBackend,
    GuestMemoryMmap, HostMemory, TrackedBitmap,
};

/// Writes, asks for one page through a window, and harvests: `ExclusiveBitmap`, with one owner.
pub fn pages_of_a_window(rt: &impl Print, alloc: Global) -> anyhow::Result<()> {
    let mut host = HostMemory::<ExclusiveBitmap>::new(alloc);
    let ranges = [(GuestAddress(0), 0x4000)];
    let memory = GuestMemoryMmap::from_ranges(alloc, &mut host, &ranges)?;
    memory.write_slice(&mut host, &[1; 0x1001], GuestAddress(0x1fff))?;
    // The bitmap that writes through a window mark, and where the window's first byte lies in it.
    let view = memory.get_slice(GuestAddress(0x2000), 0x10)?.bitmap();
    if !host.shape().has_bitmap(view.id) {
        bail!("the host has no such bitmap");
    }
    let dirty = host.bitmap(view.id).dirty_at(view.base);
    let pages = host.bitmap_mut(view.id).harvest(alloc)?;
    println!(rt; "dirty {dirty}, pages {:?}", pages.as_slice())?;
    Ok(())
}

/// Two threads mark one `AtomicBitmap`. What it has then is not proved: any thread may change it.
pub fn marks_of_threads(rt: &(impl Print + Threads), alloc: Global) -> anyhow::Result<()> {
    let size = NonZeroUsize::new(0x1000).context("pages have bytes")?;
    let bitmap = AtomicBitmap::new(alloc, 0x10_0000, size)?;
    thread::join(
        rt,
        || bitmap.set_addr_range(0x1fff, 2),
        || bitmap.set_addr_range(0x8000, 1),
    );
    let words = bitmap.get_and_reset(alloc)?;
    let first = words.first().context("there are pages")?;
    println!(rt; "first word {first:#x}")?;
    Ok(())
}
