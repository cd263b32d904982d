//! Disks of whole sectors.
ghost use Rattle.std.specs.Prelude.{◌≡◌, ◌+◌, ◌*◌, ◌%◌, ◌^◌, ◌<◌, ◌≤◌, ℕ, Bool, true, List, length, Option, Some, OnOk};
ghost use Rattle.std.specs.Prelude.{MatchOption, MatchResult, is_ok};
ghost use Rattle.virtio_blk.specs.Disk.{Call, reads, writes, flushes, LieAt, after_write};

pub(crate) mod file;
pub(crate) mod memory;

use std::io;
use thiserror::Error;

/// How many bytes a sector has.
pub const SECTOR_SIZE: usize = 512;

/// Why a disk did not do what was asked for.
#[derive(Debug, Drop, Error)]
pub enum DiskError {
    /// The system refused it.
    #[error("{0}")]
    Io(#[from] io::Error),
    /// A disk of this kind refuses it, always or now.
    #[error("the disk refused it")]
    Refused,
}

/// A disk: a number of sectors of 512 bytes each. Its calls move whole sectors, all or none.
///
/// Ghost members say what contracts know of it. `bytes` are the bytes of its sectors, if they are known: a disk in
/// memory knows them. A file does not, since other programs may write it; then nothing is promised of bytes.
pub trait Disk: Drop {
    /// The bytes of its sectors, if they are known.
    ghost bytes: { Self → Option (List ℕ) };

    /// How many sectors it has.
    ghost sectors: { Self → ℕ };

    /// What its calls may do: the disk, what was asked for, whether that was done, and the disk afterwards. So a
    /// contract can say of any disk that a call was made, and what it returned.
    ghost calls: { Self → Call → Bool → Self → Type 0 };

    /// How many sectors it has.
    fn sectors(&self) -> u64
        ensures count { result ≡ sectors self.now }
        ensures fits { result < 2 ^ 55 };

    /// Reads whole sectors from one on. After an error the buffer may hold anything. The disk stays as it is.
    fn read(&mut self, sector: u64, buf: &mut [u8]) -> Result<(), DiskError>
        requires whole { length buf.old % 512 ≡ 0 }
        requires inside { 512 * sector + length buf.old ≤ 512 * sectors self.old }
        ensures lie { OnOk result (LieAt (512 * sector) buf.new (bytes self.old)) }
        ensures calls { calls self.old (reads sector buf.new) (is_ok result) self.new }
        ensures bytes { bytes self.new ≡ bytes self.old }
        ensures sectors { sectors self.new ≡ sectors self.old };

    /// Lends `len` bytes of whole sectors from one on, if it has them in memory. That counts as a read that was done. A
    /// disk that has none in memory returns `None`, as this does, and is read.
    fn lend(&self, sector: u64, len: usize) -> Option<&[u8]>
        requires whole { len % 512 ≡ 0 }
        requires inside { 512 * sector + len ≤ 512 * sectors self.now }
        ensures { MatchOption result (Unit {0}) (λ lent. (length lent.now ≡ len)
            × LieAt (512 * sector) lent.now (bytes self.now) × calls self.now (reads sector lent.now) true self.now) }
    {
        None
    }

    /// Whether `write` takes guest memory where it lies. A guest may write that memory while the call reads it, so a
    /// byte that comes to the disk may be any that lies there during the call. A disk that takes it has to read each
    /// byte once and decide nothing by it, as one that only moves bytes. For any other one `write` gets a copy, which
    /// no guest writes: it returns false, as this does.
    fn takes_guest_memory(&self) -> bool {
        false
    }

    /// Writes whole sectors from one on. After an error no byte of the disk has changed.
    fn write(&mut self, sector: u64, content: &[u8]) -> Result<(), DiskError>
        requires whole { length content.now % 512 ≡ 0 }
        requires inside { 512 * sector + length content.now ≤ 512 * sectors self.old }
        ensures bytes { MatchResult result
            (λ _. bytes self.new ≡ after_write (512 * sector) content.now (bytes self.old))
            (λ _. bytes self.new ≡ bytes self.old) }
        ensures calls { calls self.old (writes sector content.now) (is_ok result) self.new }
        ensures sectors { sectors self.new ≡ sectors self.old };

    /// Flushes what was written to stable storage. The disk's bytes stay as they are.
    fn flush(&mut self) -> Result<(), DiskError>
        ensures calls { calls self.old flushes (is_ok result) self.new }
        ensures bytes { bytes self.new ≡ bytes self.old }
        ensures sectors { sectors self.new ≡ sectors self.old };

    /// The bytes that are known are those of all sectors.
    ghost whole: { (d : Self) (all : List ℕ) → bytes d ≡ Some all → length all ≡ 512 * sectors d };
}
