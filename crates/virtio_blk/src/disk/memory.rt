//! Disks in memory.
ghost use Rattle.std.specs.Prelude.{◌≡◌, ◌+◌, ◌*◌, ◌/◌, ◌≤◌, true, length, take, Some};
ghost use Rattle.virtio_blk.specs.Disk.{patched};
ghost use Rattle.virtio_blk.specs.MemoryDisk.{bytes_of};
ghost use Rattle.virtio_blk.specs.lemmas.DiskFacts.{told_whole};

use super::{Disk, DiskError};

/// A disk whose bytes lie in memory. Its calls do not fail.
#[derive(Drop)]
pub struct MemoryDisk {
    bytes: Vec<u8>,
}

impl MemoryDisk {
    /// A disk of these bytes. Those after the last whole sector are no part of it.
    pub fn new(bytes: Vec<u8>) -> MemoryDisk
        ensures { bytes_of result ≡ bytes.items }
    {
        MemoryDisk { bytes }
    }

    /// The bytes that the disk was made of, as they are now.
    pub fn bytes(&self) -> &[u8]
        ensures { result.now ≡ bytes_of self.now }
    {
        self.bytes.as_slice()
    }
}

// Puts bytes over others, from one on.
fn put(bytes: &mut [u8], at: usize, content: &[u8])
    requires { at + length content.now ≤ length bytes.old }
    ensures { bytes.new ≡ patched at content.now bytes.old }
{
    bytes[at..at + content.len()].copy_from_slice(content);
}

impl Disk for MemoryDisk {
    ghost bytes = { λ d. Some (take (512 * (length d.bytes.items / 512)) d.bytes.items) };

    ghost sectors = { λ d. length d.bytes.items / 512 };

    ghost calls = { λ d call done later. done ≡ true };

    fn sectors(&self) -> u64 {
        (self.bytes.len() / 512) as u64
    }

    fn read(&mut self, sector: u64, buf: &mut [u8]) -> Result<(), DiskError> {
        let at = sector as usize * 512;
        buf.copy_from_slice(&self.bytes.as_slice()[at..at + buf.len()]);
        Ok(())
    }

    #[inline]
    fn lend(&self, sector: u64, len: usize) -> Option<&[u8]> {
        let at = sector as usize * 512;
        Some(&self.bytes.as_slice()[at..at + len])
    }

    #[inline]
    fn takes_guest_memory(&self) -> bool {
        true
    }

    fn write(&mut self, sector: u64, data: &[u8]) -> Result<(), DiskError> {
        put(self.bytes.as_mut_slice(), sector as usize * 512, data);
        Ok(())
    }

    fn flush(&mut self) -> Result<(), DiskError> {
        Ok(())
    }

    ghost whole = { λ d all e. told_whole d.bytes.items all e };
}
