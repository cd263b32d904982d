//! Disks in files past 2^31, 2^32 and 2^40 bytes, most of which are holes, and in a file that cannot be flushed.

use crate::bench::{Bench, DATA, HEADER, STATUS, Scene, header_of, told_of};
use crate::disks::open;
use std::alloc::Global;
use std::fs;
use std::io::{Read, Seek, SeekFrom};
use std::test::Fail;
use test_text::expect_text;
use virtio_blk::{Disk, FileDisk};
use vm_memory_base::Bitmap;
use vm_memory_guest::GuestMemory;

// The sectors of a file of 2 TiB that are written: the first, those around 2^31, 2^32 and 2^40 bytes, and the last.
const SECTORS: [u64; 9] = [
    0,
    0x3f_ffff,
    0x40_0000,
    0x7f_ffff,
    0x80_0000,
    0x7fff_ffff,
    0x8000_0000,
    0x8000_0001,
    LAST,
];

const LAST: u64 = 0xffff_ffff;

// The byte of which a sector is full.
fn byte_of(number: usize) -> u8 {
    (number % 100) as u8 + 1
}

// Asks for a sector, and returns the status.
fn ask<M: GuestMemory, B: Bitmap, D: Disk>(
    alloc: Global,
    bench: &mut Bench<M, B, D>,
    kind: u32,
    sector: u64,
) -> Result<u8, Fail> {
    bench.put(STATUS, &[255])?;
    let len = if kind == 4 { 0 } else { 512 };
    let parts = [
        (HEADER, 16, false),
        (DATA, len, kind == 0),
        (STATUS, 1, true),
    ];
    bench.ask(header_of(kind, sector), &parts)?;
    let status = bench.get(alloc, STATUS, 1)?;
    Ok(status.first().copied().unwrap_or(255))
}

// Each sector is written, and then each is read. The capacity is told, and what one past the last comes to.
#[derive(Clone, Copy)]
struct Large;

impl<D: Disk> Scene<D> for Large {
    fn tell<M: GuestMemory, B: Bitmap>(
        &self,
        alloc: Global,
        bench: &mut Bench<M, B, D>,
        told: &mut String,
    ) -> Result<(), Fail> {
        write!(told, "{:?}", bench.device.config())?;
        for (number, sector) in SECTORS.iter().enumerate() {
            bench.put(DATA, &[byte_of(number); 512])?;
            write!(told, " {}", ask(alloc, bench, 1, *sector)?)?;
        }
        for (number, sector) in SECTORS.iter().enumerate() {
            bench.put(DATA, &[0; 512])?;
            write!(told, " {}", ask(alloc, bench, 0, *sector)?)?;
            if bench.get(alloc, DATA, 512)?.as_slice() != [byte_of(number); 512].as_slice() {
                return Err(Fail::new(format_args!("sector {sector:#x} has other bytes")));
            }
        }
        for kind in [0, 1] {
            write!(told, " {}", ask(alloc, bench, kind, LAST.wrapping_add(1))?)?;
        }
        Ok(())
    }
}

#[test]
fn disks_in_large_files(rt: HostRuntime) -> Result<(), Fail> {
    fs::write(&rt, "blk-large", [].as_slice())?;
    let mut file = open(&rt, "blk-large")?;
    file.set_len(0x200_0000_0000)?;
    let disk = FileDisk::new(file.try_clone()?)?;
    let told = told_of(rt.alloc(), false, disk, false, &Large)?;
    let wanted = "[0, 0, 0, 0, 1, 0, 0, 0] 0 0 0 0 0 0 0 0 0 0 0 0 0 0 0 0 0 0 1 1";
    expect_text(0, told.as_str(), wanted)?;
    for (number, sector) in SECTORS.iter().enumerate() {
        let mut bytes = [0; 512];
        file.seek(SeekFrom::Start(sector.wrapping_mul(512)))?;
        file.read_exact(&mut bytes)?;
        assert!(rt;
            bytes == [byte_of(number); 512],
            "sector {sector:#x} of the file"
        );
    }
    // The second sector is a hole.
    let mut bytes = [1; 512];
    file.seek(SeekFrom::Start(512))?;
    file.read_exact(&mut bytes)?;
    assert!(rt; bytes == [0; 512] && file.metadata()?.len() == 0x200_0000_0000);
    Ok(())
}

// Sectors of more bytes than the device moves at once.
const LONG: usize = 3 * 65536 + 4096 + 512;

fn long_bytes(alloc: Global) -> Result<Vec<u8>, Fail> {
    let mut bytes = Vec::new(alloc);
    for place in 0..LONG {
        bytes.push((place / 7 % 251) as u8)?;
    }
    Ok(bytes)
}

// They are written from the second sector on, and read.
#[derive(Clone, Copy)]
struct Long;

impl<D: Disk> Scene<D> for Long {
    fn tell<M: GuestMemory, B: Bitmap>(
        &self,
        alloc: Global,
        bench: &mut Bench<M, B, D>,
        told: &mut String,
    ) -> Result<(), Fail> {
        let bytes = long_bytes(alloc)?;
        bench.put(DATA, bytes.as_slice())?;
        for (kind, writable) in [(1, false), (0, true)] {
            let parts = [
                (HEADER, 16, false),
                (DATA, LONG as u32, writable),
                (STATUS, 1, true),
            ];
            let len = bench.ask(header_of(kind, 1), &parts)?;
            let status = bench.get(alloc, STATUS, 1)?;
            write!(told, "{len} {:?}; ", status.as_slice())?;
            if bench.get(alloc, DATA, LONG)?.as_slice() != bytes.as_slice() {
                return Err(Fail::new("other bytes were read"));
            }
            bench.put(DATA, vec![in alloc; 0u8; LONG]?.as_slice())?;
        }
        Ok(())
    }
}

#[test]
fn long_requests_of_disks_in_files(rt: HostRuntime) -> Result<(), Fail> {
    let len = LONG.saturating_add(1024);
    fs::write(&rt, "blk-long", vec![in rt.alloc(); 5u8; len]?.as_slice())?;
    for scattered in [false, true] {
        let disk = FileDisk::new(open(&rt, "blk-long")?)?;
        let told = told_of(rt.alloc(), scattered, disk, false, &Long)?;
        expect_text(0, told.as_str(), "1 [0]; 201217 [0]; ")?;
        let file = fs::read(&rt, "blk-long")?;
        let bytes = long_bytes(rt.alloc())?;
        let (end, back) = (LONG.saturating_add(512), [5; 512].as_slice());
        assert!(rt;
            file.get(..512) == Some(back)
                && file.get(512..end) == Some(bytes.as_slice())
                && file.get(end..) == Some(back)
        );
    }
    Ok(())
}

// A flush.
#[derive(Clone, Copy)]
struct Flush;

impl<D: Disk> Scene<D> for Flush {
    fn tell<M: GuestMemory, B: Bitmap>(
        &self,
        alloc: Global,
        bench: &mut Bench<M, B, D>,
        told: &mut String,
    ) -> Result<(), Fail> {
        write!(told, "{}", ask(alloc, bench, 4, 0)?)?;
        Ok(())
    }
}

// A device that stores nothing refuses to be synchronized, as the system does a pipe.
#[test]
fn flushes_of_files_that_fail(rt: HostRuntime) -> Result<(), Fail> {
    fs::write(&rt, "blk-flush", [5u8; 512].as_slice())?;
    for (name, wanted) in [("blk-flush", "0"), ("/dev/null", "1")] {
        let disk = FileDisk::new(open(&rt, name)?)?;
        let told = told_of(rt.alloc(), false, disk, false, &Flush)?;
        expect_text(0, told.as_str(), wanted)?;
    }
    Ok(())
}
