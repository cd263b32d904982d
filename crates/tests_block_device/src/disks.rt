//! Disks that fail, and disks in files.
ghost use Rattle.std.specs.Prelude.{◌≡◌, ℕ, List, Option, Some};

use crate::bench::{Bench, DATA, HEADER, STATUS, Scene, header_of, make_bench, told_of};
use crate::requests::numbered;
use std::alloc::Global;
use std::fs::{self, File};
use std::io::Write;
use std::test::Fail;
use test_text::expect_text;
use virtio_blk::{Disk, DiskError, FileDisk, MemoryDisk};
use vm_memory_base::Bitmap;
use vm_memory_guest::GuestMemory;

// A disk that refuses what comes after so many calls.
#[derive(Drop)]
struct FailingDisk<D> {
    disk: D,
    left: u64,
}

impl<D: Disk> FailingDisk<D> {
    fn take_turn(&mut self) -> Result<(), DiskError>
        ensures { self.new.disk ≡ self.old.disk }
    {
        if self.left == 0 {
            return Err(DiskError::Refused);
        }
        self.left -= 1;
        Ok(())
    }
}

impl<D: Disk> Disk for FailingDisk<D> {
    ghost bytes = { λ d. D.bytes d.disk };

    ghost sectors = { λ d. D.sectors d.disk };

    ghost calls = { λ d call done later. Unit {0} };

    fn sectors(&self) -> u64 {
        self.disk.sectors()
    }

    fn read(&mut self, sector: u64, buf: &mut [u8]) -> Result<(), DiskError> {
        self.take_turn()?;
        self.disk.read(sector, buf)
    }

    fn write(&mut self, sector: u64, data: &[u8]) -> Result<(), DiskError> {
        self.take_turn()?;
        self.disk.write(sector, data)
    }

    fn flush(&mut self) -> Result<(), DiskError> {
        self.take_turn()?;
        self.disk.flush()
    }

    ghost whole = { λ d all e. D.whole d.disk all e };
}

// How many bytes of a slice from its start on are this one.
fn run_of(bytes: &[u8], byte: u8) -> usize {
    bytes.iter().take_while(|b| **b == byte).count()
}

const LEN: u32 = 4 * 65536;

type Failing = FailingDisk<MemoryDisk>;

// A disk of 7s that fails at its third piece.
fn failing(alloc: Global) -> Result<Failing, Fail> {
    Ok(FailingDisk {
        disk: MemoryDisk::new(vec![in alloc; 7u8; LEN as usize]?),
        left: 2,
    })
}

// Tells the length and the status of a request to write or to read that fails at its third piece.
fn tell_failure<M: GuestMemory, B: Bitmap>(
    alloc: Global,
    bench: &mut Bench<M, B, Failing>,
    writes: bool,
    told: &mut String,
) -> Result<(), Fail> {
    bench.put(DATA, vec![in alloc; 9u8; LEN as usize]?.as_slice())?;
    let parts = [(HEADER, 16, false), (DATA, LEN, !writes), (STATUS, 1, true)];
    let len = bench.ask(header_of(u32::from(writes), 0), &parts)?;
    let status = bench.get(alloc, STATUS, 1)?;
    write!(told, "{len} {:?}", status.as_slice())?;
    Ok(())
}

// How many bytes of the disk are 9, and how many after them are 7.
fn tell_disk<M: GuestMemory, B: Bitmap>(
    bench: &Bench<M, B, Failing>,
    told: &mut String,
) -> Result<(), Fail> {
    let bytes = bench.device.disk().disk.bytes();
    let moved = run_of(bytes, 9);
    let rest = run_of(bytes.get(moved..).unwrap_or(&[]), 7);
    write!(told, " {moved} {rest}")?;
    Ok(())
}

// How many bytes of the data are 7, and what a flush tells.
fn tell_data<M: GuestMemory, B: Bitmap>(
    alloc: Global,
    bench: &mut Bench<M, B, Failing>,
    told: &mut String,
) -> Result<(), Fail> {
    let moved = run_of(bench.get(alloc, DATA, LEN as usize)?.as_slice(), 7);
    let flushed = bench.ask(header_of(4, 0), &[(HEADER, 16, false), (STATUS, 1, true)])?;
    let after = bench.get(alloc, STATUS, 1)?;
    write!(told, " {moved} {flushed} {:?}", after.as_slice())?;
    Ok(())
}

// Asks to write or to read, with a disk that fails then. Two pieces are moved.
fn told_of_failure(alloc: Global, scattered: bool, writes: bool) -> Result<String, Fail> {
    let mut told = String::new(alloc);
    let mut bench = make_bench(alloc, scattered, failing(alloc)?, false)?;
    tell_failure(alloc, &mut bench, writes, &mut told)?;
    if writes {
        tell_disk(&bench, &mut told)?;
    } else {
        tell_data(alloc, &mut bench, &mut told)?;
    }
    Ok(told)
}

fn expect_failure(alloc: Global, writes: bool, wanted: &str) -> Result<(), Fail> {
    for scattered in [false, true] {
        let told = told_of_failure(alloc, scattered, writes)?;
        expect_text(0, told.as_str(), wanted)?;
    }
    Ok(())
}

#[test]
fn failures_in_the_middle(rt: HostRuntime) -> Result<(), Fail> {
    expect_failure(rt.alloc(), true, "1 [1] 131072 131072")
}

// A flush fails after that.
#[test]
fn failures_in_the_middle_of_reads(rt: HostRuntime) -> Result<(), Fail> {
    expect_failure(rt.alloc(), false, "131072 [1] 131072 1 [1]")
}

// Asks for a sector of 170 to be written, and for the same to be read to where 170 lay, and for a flush. Writes each
// status, and the byte that was read.
fn tell_sector<M: GuestMemory, B: Bitmap, D: Disk>(
    alloc: Global,
    bench: &mut Bench<M, B, D>,
    sector: u64,
    told: &mut String,
) -> Result<(), Fail> {
    for (kind, writable, len) in [(1, false, 512), (0, true, 512), (4, true, 0)] {
        let parts = [
            (HEADER, 16, false),
            (DATA, len, writable),
            (STATUS, 1, true),
        ];
        bench.ask(header_of(kind, sector), &parts)?;
        let status = bench.get(alloc, STATUS, 1)?;
        write!(told, "{:?} ", status.as_slice())?;
        bench.put(STATUS, &[255])?;
    }
    let data = bench.get(alloc, DATA, 1)?;
    write!(told, "{:?}; ", data.as_slice())?;
    Ok(())
}

// Writes the length and the status of a request that reads two sectors.
fn tell_both<M: GuestMemory, B: Bitmap, D: Disk>(
    alloc: Global,
    bench: &mut Bench<M, B, D>,
    told: &mut String,
) -> Result<(), Fail> {
    let parts = [(HEADER, 16, false), (DATA, 1024, true), (STATUS, 1, true)];
    let len = bench.ask(header_of(0, 0), &parts)?;
    let status = bench.get(alloc, STATUS, 1)?;
    write!(told, "{len} {:?}; ", status.as_slice())?;
    Ok(())
}

// The capacity is written, and then each of two sectors is asked for.
#[derive(Clone, Copy)]
struct Whole;

impl<D: Disk> Scene<D> for Whole {
    fn tell<M: GuestMemory, B: Bitmap>(
        &self,
        alloc: Global,
        bench: &mut Bench<M, B, D>,
        told: &mut String,
    ) -> Result<(), Fail> {
        write!(told, "{:?} ", bench.device.config())?;
        tell_sector(alloc, bench, 1, told)?;
        tell_sector(alloc, bench, 2, told)
    }
}

/// A file that is read and written.
pub(crate) fn open(rt: &HostRuntime, name: &str) -> Result<File, Fail> {
    let file = File::options().read(true).write(true).open(rt, name)?;
    Ok(file)
}

// A file of two sectors of 5 and some bytes more, which are no sector: the capacity is two.
#[test]
fn disks_in_files(rt: HostRuntime) -> Result<(), Fail> {
    fs::write(&rt, "blk-disk", [5u8; 1100].as_slice())?;
    let disk = FileDisk::new(open(&rt, "blk-disk")?)?;
    let told = told_of(rt.alloc(), false, disk, false, &Whole)?;
    let wanted = "[2, 0, 0, 0, 0, 0, 0, 0] [0] [0] [0] [170]; [1] [1] [0] [170]; ";
    expect_text(0, told.as_str(), wanted)?;
    let bytes = fs::read(&rt, "blk-disk")?;
    let (front, back) = (bytes.get(..512), bytes.get(1024..));
    if front != Some([5; 512].as_slice()) || back != Some([5; 76].as_slice()) {
        return Err(Fail::new("other bytes changed"));
    }
    if bytes.get(512..1024) != Some([170; 512].as_slice()) {
        return Err(Fail::new("the sector is not in the file"));
    }
    Ok(())
}

// A file that loses its last sector while it is served.
#[derive(Drop)]
struct Shrinking {
    file: File,
}

impl<D: Disk> Scene<D> for Shrinking {
    fn tell<M: GuestMemory, B: Bitmap>(
        &self,
        alloc: Global,
        bench: &mut Bench<M, B, D>,
        told: &mut String,
    ) -> Result<(), Fail> {
        self.file.set_len(700)?;
        tell_both(alloc, bench, told)?;
        tell_sector(alloc, bench, 1, told)
    }
}

// The last sector is not there to be read, and can be written.
#[test]
fn disks_in_files_that_shrink(rt: HostRuntime) -> Result<(), Fail> {
    fs::write(&rt, "blk-short", [5u8; 1024].as_slice())?;
    let file = open(&rt, "blk-short")?;
    let disk = FileDisk::new(file.try_clone()?)?;
    let told = told_of(rt.alloc(), false, disk, false, &Shrinking { file })?;
    expect_text(0, told.as_str(), "0 [1]; [0] [0] [0] [170]; ")
}

// One sector is asked for.
#[derive(Clone, Copy)]
struct OneSector;

impl<D: Disk> Scene<D> for OneSector {
    fn tell<M: GuestMemory, B: Bitmap>(
        &self,
        alloc: Global,
        bench: &mut Bench<M, B, D>,
        told: &mut String,
    ) -> Result<(), Fail> {
        tell_sector(alloc, bench, 1, told)
    }
}

// A file that was opened for reading alone.
#[test]
fn disks_in_files_to_be_read(rt: HostRuntime) -> Result<(), Fail> {
    fs::write(&rt, "blk-read", [5u8; 1024].as_slice())?;
    let disk = FileDisk::new(File::open(&rt, "blk-read")?)?;
    let told = told_of(rt.alloc(), false, disk, false, &OneSector)?;
    expect_text(0, told.as_str(), "[1] [0] [0] [5]; ")?;
    let bytes = fs::read(&rt, "blk-read")?;
    if bytes.as_slice() != [5; 1024].as_slice() {
        return Err(Fail::new("the file changed"));
    }
    Ok(())
}
