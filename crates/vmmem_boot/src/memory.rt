//! Guest memory of a machine, and what lies in it.

use anyhow::{Result, bail};
use sha2::{Digest, Sha256};
use std::alloc::Global;
use vm_memory_base::{ExactBitmap, ExclusiveBitmap, GuestAddress};
use vm_memory_guest::{Bytes, GuestMemoryBackend, GuestMemoryMmap, GuestMemoryRegion, HostMemory};

pub type Host = HostMemory<ExclusiveBitmap>;

const MIB: u64 = 0x10_0000;

// How many bytes are read at once.
const CHUNK: u64 = 0x1_0000;

// Where devices have their addresses: memory past 3 GiB lies from 4 GiB on.
const HOLE: u64 = 0xc000_0000;

/// Where memory past 3 GiB begins.
pub const AFTER_HOLE: u64 = 0x1_0000_0000;

// How many bytes of memory lie after the hole.
fn size_after_hole(mib: u64) -> u64 {
    mib.saturating_mul(MIB).saturating_sub(HOLE)
}

/// The last address of the memory below the hole, of a machine with this many MiB.
pub fn last_low_address(mib: u64) -> u64 {
    mib.saturating_mul(MIB).min(HOLE).saturating_sub(1)
}

/// The last address of all memory, of a machine with this many MiB.
pub fn last_address(mib: u64) -> u64 {
    match size_after_hole(mib) {
        0 => last_low_address(mib),
        size => AFTER_HOLE.saturating_add(size).saturating_sub(1),
    }
}

/// Whether a machine with this many MiB has memory at each address from one up to another.
pub fn fits(mib: u64, start: u64, end: u64) -> bool {
    let low = last_low_address(mib).saturating_add(1);
    let rest = size_after_hole(mib);
    end <= low || (start >= AFTER_HOLE && end <= AFTER_HOLE.saturating_add(rest))
}

/// Memory of this many MiB: the first of them, the others up to the hole, and the rest after it.
pub fn memory_of(alloc: Global, host: &mut Host, mib: u64) -> Result<GuestMemoryMmap> {
    let low = last_low_address(mib).saturating_add(1);
    let all = [
        (GuestAddress(0), low.min(MIB)),
        (GuestAddress(MIB), low.saturating_sub(MIB)),
        (GuestAddress(AFTER_HOLE), size_after_hole(mib)),
    ];
    let mut ranges = Vec::new(alloc);
    for (start, size) in all {
        if size > 0 {
            ranges.push((start, size as usize))?;
        }
    }
    Ok(GuestMemoryMmap::from_ranges(alloc, host, ranges.as_slice())?)
}

/// The SHA-256 of this many bytes at an address, in hexadecimal digits.
pub fn digest_of(
    alloc: Global,
    host: &Host,
    memory: &GuestMemoryMmap,
    addr: u64,
    size: u64,
) -> Result<String> {
    if !host.holds(memory) {
        bail!("the host does not hold the memory");
    }
    let mut hasher = Sha256::new();
    let mut buffer = vec![in alloc; 0u8; CHUNK as usize]?;
    for number in 0..size.div_ceil(CHUNK) {
        let done = number.saturating_mul(CHUNK);
        let left = size.saturating_sub(done) as usize;
        let count = left.min(buffer.len());
        let part = &mut buffer.as_mut_slice()[..count];
        memory.read_slice(host, part, GuestAddress(addr.wrapping_add(done)))?;
        hasher.update(&*part);
    }
    let digest = hasher.finalize();
    Ok(hex::encode(alloc, &digest)?)
}

/// How many pages of the memory are dirty.
pub fn dirty_pages(alloc: Global, host: &Host, memory: &GuestMemoryMmap) -> Result<usize> {
    let mut count = 0usize;
    for region in memory.iter() {
        let id = region.get_mmap().bitmap().id;
        if !host.shape().has_bitmap(id) {
            bail!("the host has no such bitmap");
        }
        let pages = host.bitmap(id).dirty_pages(alloc)?;
        count = count.saturating_add(pages.len());
    }
    Ok(count)
}
