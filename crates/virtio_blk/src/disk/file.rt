//! Disks in files.
ghost use Rattle.std.specs.Prelude.{None, ◌≡◌, ◌*◌, ◌<◌, ◌^◌};
ghost use Rattle.virtio_blk.specs.lemmas.DiskFacts.{told_none};

use super::{Disk, DiskError};
use std::fs::File;
use std::io::{self, Read, Seek, SeekFrom, Write};

/// A disk whose bytes lie in a file.
///
/// It has as many sectors as the file has whole ones when the disk is made; bytes after them are not part of it. If
/// the file was opened only for reading, writes fail.
///
/// Leaves open: that a call fails at any time, or is done and does nothing, and how many sectors there are.
#[derive(Drop)]
pub struct FileDisk {
    file: File,
    sectors: u64,
    ghost fits: { sectors < 2 ^ 55 },
}

impl FileDisk {
    /// A disk in this file. An error means that the system did not give the file's length.
    pub fn new(file: File) -> io::Result<FileDisk> {
        let sectors = file.metadata()?.len() / 512;
        Ok(FileDisk { file, sectors })
    }

    // Goes to where a sector begins.
    fn go_to(&mut self, sector: u64) -> io::Result<()>
        requires { sector < 2 ^ 55 }
        ensures { self.new.sectors ≡ self.old.sectors }
    {
        self.file.seek(SeekFrom::Start(sector * 512))?;
        Ok(())
    }
}

impl Disk for FileDisk {
    ghost bytes = { λ d. None };

    ghost sectors = { λ d. d.sectors };

    ghost calls = { λ d call done later. Unit {0} };

    fn sectors(&self) -> u64 {
        self.sectors
    }

    fn read(&mut self, sector: u64, buf: &mut [u8]) -> Result<(), DiskError> {
        self.go_to(sector)?;
        self.file.read_exact(buf)?;
        Ok(())
    }

    #[inline]
    fn takes_guest_memory(&self) -> bool {
        true
    }

    fn write(&mut self, sector: u64, data: &[u8]) -> Result<(), DiskError> {
        self.go_to(sector)?;
        self.file.write_all(data)?;
        Ok(())
    }

    fn flush(&mut self) -> Result<(), DiskError> {
        self.file.sync_all()?;
        Ok(())
    }

    ghost whole = { λ d all e. told_none all (512 * d.sectors) e };
}
