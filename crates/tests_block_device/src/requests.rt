//! Single requests.

use crate::bench::{BEGIN, Bench, DATA, END, HEADER, Part, STATUS, Scene, header_of, told_of};
use std::alloc::Global;
use std::test::Fail;
use test_text::expect_text;
use virtio_blk::MemoryDisk;
use vm_memory_base::Bitmap;
use vm_memory_guest::GuestMemory;

// A header, a sector of data and a status, in the order of a chain.
const H: Part = (HEADER, 16, false);

const S: Part = (STATUS, 1, true);

// An address of which there is no byte.
const HOLE: u64 = 0x8000;

// How many bytes are looked at, from the header on.
const SEEN: usize = 0x3000;

const MORE: u64 = DATA + 0x800;

/// Whether the device only reads, the kind, the sector, the chain, and what is written: the length of the result, the
/// status, the first byte of each sector of the disk afterwards, and how many bytes of guest memory changed besides
/// those of the ring.
type Case = (bool, u32, u64, &'static [Part], &'static str);

// The disk has four sectors, of 1, 2, 3 and 4. Data in memory is 170, and the status 255.
static CASES: [Case; 44] = [
    // Each kind of request.
    (
        false,
        0,
        1,
        &[H, (DATA, 512, true), S],
        "513 0 [1, 2, 3, 4] 513",
    ),
    (
        false,
        0,
        0,
        &[H, (DATA, 2048, true), S],
        "2049 0 [1, 2, 3, 4] 2049",
    ),
    (
        false,
        1,
        2,
        &[H, (DATA, 1024, false), S],
        "1 0 [1, 2, 170, 170] 1",
    ),
    (false, 4, 0, &[H, S], "1 0 [1, 2, 3, 4] 1"),
    (false, 4, 99, &[H, S], "1 0 [1, 2, 3, 4] 1"),
    (
        false,
        8,
        0,
        &[H, (DATA, 20, true), S],
        "21 0 [1, 2, 3, 4] 21",
    ),
    (false, 8, 0, &[H, (DATA, 7, true), S], "8 0 [1, 2, 3, 4] 8"),
    (
        false,
        8,
        0,
        &[H, (DATA, 30, true), S],
        "20 0 [1, 2, 3, 4] 21",
    ),
    (false, 8, 0, &[H, S], "1 0 [1, 2, 3, 4] 1"),
    (false, 7, 0, &[H, S], "1 2 [1, 2, 3, 4] 1"),
    (
        false,
        7,
        0,
        &[H, (DATA, 512, true), S],
        "0 2 [1, 2, 3, 4] 1",
    ),
    (
        false,
        0x100,
        0,
        &[H, (DATA, 512, true), S],
        "0 2 [1, 2, 3, 4] 1",
    ),
    // No sectors.
    (false, 0, 4, &[H, S], "1 0 [1, 2, 3, 4] 1"),
    (false, 1, 4, &[H, S], "1 0 [1, 2, 3, 4] 1"),
    (false, 0, 5, &[H, S], "1 1 [1, 2, 3, 4] 1"),
    // Past the end of the disk.
    (
        false,
        0,
        3,
        &[H, (DATA, 1024, true), S],
        "0 1 [1, 2, 3, 4] 1",
    ),
    (
        false,
        0,
        4,
        &[H, (DATA, 512, true), S],
        "0 1 [1, 2, 3, 4] 1",
    ),
    (
        false,
        1,
        3,
        &[H, (DATA, 1024, false), S],
        "1 1 [1, 2, 3, 4] 1",
    ),
    (
        false,
        1,
        4,
        &[H, (DATA, 512, false), S],
        "1 1 [1, 2, 3, 4] 1",
    ),
    (
        false,
        1,
        0xffff_ffff_ffff_ffff,
        &[H, (DATA, 512, false), S],
        "1 1 [1, 2, 3, 4] 1",
    ),
    (
        false,
        1,
        0x80_0000_0000_0000,
        &[H, (DATA, 512, false), S],
        "1 1 [1, 2, 3, 4] 1",
    ),
    // No whole number of sectors.
    (
        false,
        0,
        0,
        &[H, (DATA, 511, true), S],
        "0 1 [1, 2, 3, 4] 1",
    ),
    (
        false,
        0,
        0,
        &[H, (DATA, 513, true), S],
        "0 1 [1, 2, 3, 4] 1",
    ),
    (
        false,
        1,
        0,
        &[H, (DATA, 511, false), S],
        "1 1 [1, 2, 3, 4] 1",
    ),
    (
        false,
        1,
        0,
        &[H, (DATA, 513, false), S],
        "1 1 [1, 2, 3, 4] 1",
    ),
    // A header that is short, or lies nowhere, or in part.
    (false, 1, 0, &[(HEADER, 15, false), S], "1 1 [1, 2, 3, 4] 1"),
    (
        false,
        0,
        0,
        &[(HEADER, 15, false), (DATA, 512, true), S],
        "0 1 [1, 2, 3, 4] 1",
    ),
    (false, 0, 0, &[S], "1 1 [1, 2, 3, 4] 1"),
    (
        false,
        1,
        0,
        &[(HOLE, 16, false), (DATA, 512, false), S],
        "1 1 [1, 2, 3, 4] 1",
    ),
    (
        false,
        1,
        0,
        &[(HEADER, 8, false), (END - 4, 8, false), S],
        "1 1 [1, 2, 3, 4] 1",
    ),
    // A device that only reads.
    (
        true,
        1,
        0,
        &[H, (DATA, 512, false), S],
        "1 1 [1, 2, 3, 4] 1",
    ),
    (
        true,
        0,
        3,
        &[H, (DATA, 512, true), S],
        "513 0 [1, 2, 3, 4] 513",
    ),
    (true, 4, 0, &[H, S], "1 0 [1, 2, 3, 4] 1"),
    // No byte for the status, and one that cannot be written.
    (
        false,
        1,
        0,
        &[H, (DATA, 512, false)],
        "0 255 [1, 2, 3, 4] 0",
    ),
    (
        false,
        1,
        0,
        &[H, (DATA, 512, false), (HOLE, 1, true)],
        "0 255 [170, 2, 3, 4] 0",
    ),
    (
        false,
        0,
        0,
        &[H, (DATA, 512, true), (HOLE, 1, true)],
        "512 255 [1, 2, 3, 4] 512",
    ),
    // The status is the last byte of a longer segment, and of a segment of its own after an empty one.
    (
        false,
        0,
        1,
        &[H, (STATUS - 512, 513, true)],
        "513 0 [1, 2, 3, 4] 513",
    ),
    (
        false,
        0,
        1,
        &[H, (DATA, 512, true), S, (HOLE, 0, true)],
        "513 0 [1, 2, 3, 4] 513",
    ),
    // Bytes that a request does not use.
    (
        false,
        0,
        1,
        &[H, (DATA, 9, false), (MORE, 512, true), S],
        "513 0 [1, 2, 3, 4] 513",
    ),
    (
        false,
        1,
        0,
        &[H, (DATA, 512, false), (MORE, 8, true), S],
        "0 0 [170, 2, 3, 4] 1",
    ),
    (
        false,
        4,
        0,
        &[H, (DATA, 9, false), (MORE, 8, true), S],
        "0 0 [1, 2, 3, 4] 1",
    ),
    // Data of which one segment lies nowhere: the piece in front of it is the first, so nothing goes to the disk.
    (
        false,
        1,
        0,
        &[H, (DATA, 512, false), (HOLE, 512, false), S],
        "1 1 [1, 2, 3, 4] 1",
    ),
    (
        false,
        0,
        1,
        &[H, (DATA, 512, true), (HOLE, 512, true), S],
        "512 1 [1, 2, 3, 4] 513",
    ),
    (
        false,
        8,
        0,
        &[H, (DATA, 5, true), (HOLE, 15, true), S],
        "5 1 [1, 2, 3, 4] 6",
    ),
];

/// A disk of this many sectors, each of its number and one.
pub fn numbered(alloc: Global, sectors: u8) -> Result<MemoryDisk, Fail> {
    let mut bytes = Vec::new(alloc);
    for sector in 0..sectors {
        for _ in 0..512 {
            bytes.push(sector.wrapping_add(1))?;
        }
    }
    Ok(MemoryDisk::new(bytes))
}

/// The first byte of each of four sectors.
pub fn first_bytes(disk: &MemoryDisk) -> [u8; 4] {
    let mut first = [0; 4];
    for (i, byte) in first.iter_mut().enumerate() {
        *byte = disk.bytes().get(i * 512).copied().unwrap_or(0);
    }
    first
}

// How many bytes differ.
fn differing(now: &[u8], before: &[u8]) -> usize {
    now.iter()
        .zip(before.iter())
        .filter(|(a, b)| **a != **b)
        .count()
}

// How many bytes of guest memory changed, of which the end was 0.
fn changed<M: GuestMemory, B: Bitmap>(
    alloc: Global,
    bench: &Bench<M, B, MemoryDisk>,
    before: &[u8],
) -> Result<usize, Fail> {
    let after = bench.get(alloc, HEADER, SEEN)?;
    let end = bench.get(alloc, END - 0x1000, 0x1000)?;
    let at_end = differing(end.as_slice(), &[0; 0x1000]);
    Ok(differing(after.as_slice(), before).wrapping_add(at_end))
}

fn status_of<M: GuestMemory, B: Bitmap>(
    alloc: Global,
    bench: &Bench<M, B, MemoryDisk>,
) -> Result<u8, Fail> {
    let status = bench.get(alloc, STATUS, 1)?;
    Ok(status.first().copied().unwrap_or(0))
}

impl Scene<MemoryDisk> for Case {
    fn tell<M: GuestMemory, B: Bitmap>(
        &self,
        alloc: Global,
        bench: &mut Bench<M, B, MemoryDisk>,
        told: &mut String,
    ) -> Result<(), Fail> {
        let (_, kind, sector, parts, _) = *self;
        let header = header_of(kind, sector);
        bench.put(HEADER, &header)?;
        let before = bench.get(alloc, HEADER, SEEN)?;
        let len = bench.ask(header, parts)?;
        let changed = changed(alloc, bench, before.as_slice())?;
        let status = status_of(alloc, bench)?;
        let first = first_bytes(bench.device.disk());
        write!(told, "{len} {status} {first:?} {changed}")?;
        Ok(())
    }
}

fn told(alloc: Global, case: &Case, scattered: bool) -> Result<String, Fail> {
    told_of(alloc, scattered, numbered(alloc, 4)?, case.0, case)
}

#[test]
fn requests_are_served_or_refused(rt: HostRuntime) -> Result<(), Fail> {
    for (number, case) in CASES.iter().enumerate() {
        for scattered in [false, true] {
            let told = told(rt.alloc(), case, scattered)?;
            expect_text(number, told.as_str(), case.4)?;
        }
    }
    Ok(())
}

// Data that a memory without an IOMMU has in part. A hole ends an access in the middle, where an IOMMU refuses it
// whole.
const PARTLY: [(u32, &[Part], &str, &str); 2] = [
    (
        0,
        &[H, (END - 256, 512, true), S],
        "256 1 [1, 2, 3, 4] 257",
        "0 1 [1, 2, 3, 4] 1",
    ),
    (
        1,
        &[H, (END - 256, 512, false), S],
        "1 1 [1, 2, 3, 4] 1",
        "1 1 [1, 2, 3, 4] 1",
    ),
];

#[test]
fn accesses_end_where_memory_does(rt: HostRuntime) -> Result<(), Fail> {
    for (number, (kind, parts, plain, translated)) in PARTLY.iter().enumerate() {
        let case = (false, *kind, 1, *parts, "");
        let text = told(rt.alloc(), &case, false)?;
        expect_text(number, text.as_str(), plain)?;
        let text = told(rt.alloc(), &case, true)?;
        expect_text(number, text.as_str(), translated)?;
    }
    Ok(())
}

// Writes two sectors from memory, cut after so many bytes, and reads them back to another place, cut there too.
fn cut_at<M: GuestMemory, B: Bitmap>(
    alloc: Global,
    bench: &mut Bench<M, B, MemoryDisk>,
    cut: u32,
) -> Result<(), Fail> {
    let data: Vec<u8> = (0..1024).map(|i| (i * 7 % 251) as u8).collect(alloc)?;
    bench.put(DATA, data.as_slice())?;
    let rest = 1024u32.saturating_sub(cut);
    let second = DATA + 0x4000 + cut as u64;
    let from = [H, (DATA, cut, false), (DATA + cut as u64, rest, false), S];
    let wrote = bench.ask(header_of(1, 2), &from)?;
    let to = [H, (DATA + 0x8000, cut, true), (second, rest, true), S];
    let read = bench.ask(header_of(0, 2), &to)?;
    let front = bench.get(alloc, DATA + 0x8000, cut as usize)?;
    let back = bench.get(alloc, second, rest as usize)?;
    let disk = bench.device.disk().bytes();
    let same = Some(front.as_slice()) == data.as_slice().get(..cut as usize)
        && Some(back.as_slice()) == data.as_slice().get(cut as usize..);
    if wrote != 1 || read != 1025 || !same || disk.get(1024..2048) != Some(data.as_slice()) {
        return Err(Fail::new(format_args!("cut at {cut}")));
    }
    Ok(())
}

fn cut_anywhere<M: GuestMemory, B: Bitmap>(
    alloc: Global,
    bench: &mut Bench<M, B, MemoryDisk>,
) -> Result<(), Fail> {
    for cut in 0..1025 {
        cut_at(alloc, bench, cut)?;
    }
    Ok(())
}

// Cuts a header after so many bytes, and before the status. Fails where its request is not served then.
fn header_cut_at<M: GuestMemory, B: Bitmap>(
    bench: &mut Bench<M, B, MemoryDisk>,
    cut: u32,
) -> Result<(), Fail> {
    let rest = 16u32.saturating_sub(cut);
    let parts = [
        (HEADER, cut, false),
        (HEADER + cut as u64, rest, false),
        (DATA, 512, false),
        S,
    ];
    let len = bench.ask(header_of(1, (cut % 4) as u64), &parts)?;
    let mut wanted = [1, 2, 3, 4];
    wanted[(cut % 4) as usize] = 170;
    if len != 1 || first_bytes(bench.device.disk()) != wanted {
        return Err(Fail::new(format_args!("header cut at {cut}")));
    }
    Ok(())
}

// How many bytes go in one request: 1 MiB, and a sector more.
const LONG: usize = 0x10_0200;

// Writes so many bytes in one request, from an address that is no multiple of a page, and reads them back.
fn move_long<M: GuestMemory, B: Bitmap>(
    alloc: Global,
    bench: &mut Bench<M, B, MemoryDisk>,
    bytes: &[u8],
) -> Result<bool, Fail> {
    bench.put(DATA + 5, bytes)?;
    let wrote = bench.ask(header_of(1, 1), &[H, (DATA + 5, LONG as u32, false), S])?;
    bench.put(DATA + 5, vec![in alloc; 1u8; LONG]?.as_slice())?;
    let read = bench.ask(header_of(0, 1), &[H, (DATA + 5, LONG as u32, true), S])?;
    let back = bench.get(alloc, DATA + 5, LONG)?;
    let disk = bench.device.disk().bytes();
    Ok(
        wrote == 1
            && read as usize == LONG + 1
            && back.as_slice() == bytes
            && disk.get(512..512 + LONG) == Some(bytes)
            && disk.first() == Some(&0),
    )
}

// Whether all was moved, and no more.
fn tell_long<M: GuestMemory, B: Bitmap>(
    alloc: Global,
    bench: &mut Bench<M, B, MemoryDisk>,
    told: &mut String,
) -> Result<(), Fail> {
    let bytes: Vec<u8> = (0..LONG).map(|i| (i * 7 % 251) as u8).collect(alloc)?;
    let moved = move_long(alloc, bench, bytes.as_slice())?;
    write!(told, "{moved}")?;
    Ok(())
}

// A request over its own ring and table: they are overwritten while it is served, and the entry is returned. It tells
// the first bytes of the table, the status and what the call answers.
fn overwrite<M: GuestMemory, B: Bitmap>(
    alloc: Global,
    bench: &mut Bench<M, B, MemoryDisk>,
    told: &mut String,
) -> Result<(), Fail> {
    bench.put(HEADER, &header_of(0, 0))?;
    bench.publish(0, &[H, (BEGIN, 512, true), S])?;
    let served = bench.kick()?;
    let table = bench.get(alloc, BEGIN, 4)?;
    let status = bench.get(alloc, STATUS, 1)?;
    let (table, status) = (table.as_slice(), status.as_slice());
    let (count, interrupt) = (served.count, served.interrupt);
    write!(
        told,
        "{table:?} {status:?} {count} {interrupt} {:?}",
        served.failed
    )?;
    Ok(())
}

// What is done with a guest, beside single requests.
#[derive(Clone, Copy)]
enum Act {
    CutData,
    CutHeader(u32),
    MoveLong,
    OverwriteRing,
}

impl Scene<MemoryDisk> for Act {
    fn tell<M: GuestMemory, B: Bitmap>(
        &self,
        alloc: Global,
        bench: &mut Bench<M, B, MemoryDisk>,
        told: &mut String,
    ) -> Result<(), Fail> {
        match *self {
            Act::CutData => cut_anywhere(alloc, bench),
            Act::CutHeader(cut) => header_cut_at(bench, cut),
            Act::MoveLong => tell_long(alloc, bench, told),
            Act::OverwriteRing => overwrite(alloc, bench, told),
        }
    }
}

fn expect(alloc: Global, act: Act, scattered: bool, wanted: &str) -> Result<(), Fail> {
    let told = told_of(alloc, scattered, numbered(alloc, 4)?, false, &act)?;
    expect_text(0, told.as_str(), wanted)
}

#[test]
fn data_is_cut_anywhere(rt: HostRuntime) -> Result<(), Fail> {
    for scattered in [false, true] {
        expect(rt.alloc(), Act::CutData, scattered, "")?;
    }
    Ok(())
}

#[test]
fn headers_are_cut_anywhere(rt: HostRuntime) -> Result<(), Fail> {
    for cut in 0..17 {
        expect(rt.alloc(), Act::CutHeader(cut), false, "")?;
    }
    Ok(())
}

#[test]
fn requests_of_many_pieces(rt: HostRuntime) -> Result<(), Fail> {
    for scattered in [false, true] {
        let disk = MemoryDisk::new(vec![in rt.alloc(); 0u8; LONG + 1024]?);
        let told = told_of(rt.alloc(), scattered, disk, false, &Act::MoveLong)?;
        expect_text(0, told.as_str(), "true")?;
    }
    Ok(())
}

#[test]
fn requests_over_their_ring(rt: HostRuntime) -> Result<(), Fail> {
    for scattered in [false, true] {
        // The driver's index is 257 then, which is more than 16 ahead.
        let wanted = "[1, 1, 1, 1] [0] 1 false Some(InvalidAvailRingIndex)";
        expect(rt.alloc(), Act::OverwriteRing, scattered, wanted)?;
    }
    Ok(())
}
