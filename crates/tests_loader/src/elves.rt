//! ELF files: edits of a small one, and each bit of its headers flipped.

use crate::images::{BEFORE, ELF, ELF_SIZE, Edit, bytes_of, fill, image_of, memory_of, put, told};
use crate::slow::{self, Slow};
use linux_loader::{Elf, ImageBytes, KernelLoaderResult, LoaderError};
use std::alloc::Global;
use std::test::Fail;
use test_text::expect_text;
use vm_memory_base::{Bitmap, GuestAddress};
use vm_memory_guest::{GuestMemory, HostMemory};

// How many bytes of the file there are, edits of it, the offset of the kernel, where high memory begins, and what is
// told.
type Case = (
    usize,
    &'static [Edit],
    Option<u64>,
    Option<u64>,
    &'static str,
);

const ALL: usize = ELF_SIZE;

// How many bytes the headers have.
const HEADERS: usize = 0x120;

const DONE: &str = "load 0x1100 end 0x1340 pvh 0x1308";

static CASES: [Case; 74] = [
    (ALL, &[], None, None, DONE),
    (ALL, &[(16, 2, 3)], None, None, DONE),
    // Images that end too early.
    (0, &[], None, None, "ReadElfHeader"),
    (1, &[], None, None, "ReadElfHeader"),
    (63, &[], None, None, "ReadElfHeader"),
    (64, &[], None, None, "ReadProgramHeader"),
    (64, &[(56, 2, 0)], None, None, "NoLoadSegment"),
    (287, &[], None, None, "ReadProgramHeader"),
    (288, &[], None, None, "ReadKernelImage"),
    (0x16f, &[], None, None, "ReadKernelImage"),
    (0x170, &[], None, None, "ReadNoteHeader"),
    (0x187, &[], None, None, "ReadNoteHeader"),
    // The header.
    (ALL, &[(0, 1, 0x7e)], None, None, "InvalidElfMagicNumber"),
    (ALL, &[(3, 1, 0x47)], None, None, "InvalidElfMagicNumber"),
    (ALL, &[(4, 1, 1)], None, None, "InvalidElfClass"),
    (ALL, &[(5, 1, 2)], None, None, "BigEndianElfOnLittle"),
    (ALL, &[(16, 2, 1)], None, None, "InvalidElfType"),
    (ALL, &[(16, 2, 4)], None, None, "InvalidElfType"),
    (ALL, &[(16, 2, 0x102)], None, None, "InvalidElfType"),
    (ALL, &[(18, 2, 3)], None, None, "InvalidElfMachine"),
    (ALL, &[(54, 2, 55)], None, None, "InvalidProgramHeaderSize"),
    (ALL, &[(54, 2, 57)], None, None, "InvalidProgramHeaderSize"),
    (ALL, &[(56, 2, 0xffff)], None, None, "TooManyProgramHeaders"),
    (ALL, &[(56, 2, 0xfffe)], None, None, "ReadProgramHeader"),
    (ALL, &[(56, 2, 6)], None, None, "ReadProgramHeader"),
    (
        ALL,
        &[(32, 8, 63)],
        None,
        None,
        "InvalidProgramHeaderOffset",
    ),
    (ALL, &[(32, 8, 0x189)], None, None, "ReadProgramHeader"),
    (ALL, &[(32, 8, u64::MAX)], None, None, "ReadProgramHeader"),
    // The entry, which is compared before the offset is added.
    (ALL, &[], None, Some(0x1100), DONE),
    (ALL, &[], None, Some(0x1101), "InvalidEntryAddress"),
    (ALL, &[], Some(0x10), Some(0x1101), "InvalidEntryAddress"),
    (
        ALL,
        &[],
        Some(0x10),
        Some(0x1100),
        "load 0x1110 end 0x1350 pvh 0x1308",
    ),
    (ALL, &[(24, 8, u64::MAX)], Some(1), None, "EntryOverflow"),
    // Sums that are no numbers of 64 bits.
    (
        ALL,
        &[],
        Some(0xffff_ffff_ffff_ef00),
        None,
        "InvalidProgramHeaderAddress",
    ),
    (
        ALL,
        &[(88, 8, 0xffff_ffff_ffff_ffe0)],
        None,
        None,
        "MemoryOverflow",
    ),
    (ALL, &[(104, 8, u64::MAX)], None, None, "MemoryOverflow"),
    (ALL, &[(72, 8, u64::MAX)], None, None, "ReadKernelImage"),
    (ALL, &[(240, 8, u64::MAX)], None, None, "ReadNoteHeader"),
    // Sizes of segments.
    (ALL, &[(104, 8, 0x1f)], None, None, "InvalidSegmentSize"),
    (ALL, &[(72, 8, 0x168)], None, None, DONE),
    (ALL, &[(72, 8, 0x169)], None, None, "ReadKernelImage"),
    (ALL, &[(96, 8, 0), (104, 8, 0)], None, None, DONE),
    (ALL, &[(72, 8, u64::MAX), (96, 8, 0)], None, None, DONE),
    (
        ALL,
        &[(64, 4, 0), (120, 4, 2), (176, 4, 3)],
        None,
        None,
        "NoLoadSegment",
    ),
    (ALL, &[(72, 8, 0), (64, 4, 6)], None, None, DONE),
    // Segments that meet, and that touch.
    (ALL, &[(144, 8, 0x111f)], None, None, "SegmentsOverlap"),
    (ALL, &[(144, 8, 0x1120)], None, None, DONE),
    (ALL, &[(144, 8, 0x10e1)], None, None, "SegmentsOverlap"),
    (ALL, &[(144, 8, 0x10e0)], None, None, DONE),
    (ALL, &[(144, 8, 0x133f)], None, None, "SegmentsOverlap"),
    (
        ALL,
        &[(144, 8, 0x1340)],
        None,
        None,
        "load 0x1100 end 0x1360 pvh 0x1308",
    ),
    (ALL, &[(144, 8, 0x1100)], None, None, "SegmentsOverlap"),
    (
        ALL,
        &[(144, 8, 0x1108), (152, 8, 0), (160, 8, 0)],
        None,
        None,
        DONE,
    ),
    // The ends of memory.
    (
        ALL,
        &[(88, 8, 0x13e0)],
        None,
        None,
        "load 0x1100 end 0x1400 pvh 0x1308",
    ),
    (
        ALL,
        &[(88, 8, 0x13e1)],
        None,
        None,
        "GuestMemory(PartialBuffer { expected: 32, completed: 31 })",
    ),
    (
        ALL,
        &[(88, 8, 0x1400)],
        None,
        None,
        "GuestMemory(InvalidGuestAddress(GuestAddress(5120)))",
    ),
    (ALL, &[(88, 8, 0x1000)], None, None, DONE),
    (
        ALL,
        &[(88, 8, 0xfff)],
        None,
        None,
        "GuestMemory(InvalidGuestAddress(GuestAddress(4095)))",
    ),
    (
        ALL,
        &[(216, 8, 0x100)],
        None,
        None,
        "load 0x1100 end 0x1400 pvh 0x1308",
    ),
    (
        ALL,
        &[(216, 8, 0x101)],
        None,
        None,
        "GuestMemory(PartialBuffer { expected: 241, completed: 240 })",
    ),
    // Notes.
    (ALL, &[(280, 8, 0)], None, None, DONE),
    (ALL, &[(280, 8, 1)], None, None, DONE),
    (ALL, &[(280, 8, 8)], None, None, DONE),
    (ALL, &[(280, 8, 2)], None, None, "InvalidNoteAlign"),
    (ALL, &[(264, 8, 0)], None, None, "load 0x1100 end 0x1340"),
    (ALL, &[(264, 8, 11)], None, None, "load 0x1100 end 0x1340"),
    (ALL, &[(264, 8, 0x10001)], None, None, "NotesTooLong"),
    (ALL, &[(0x174, 4, 4)], None, None, DONE),
    (ALL, &[(0x174, 4, 5)], None, None, "InvalidPvhNote"),
    (ALL, &[(0x174, 4, 9)], None, None, "InvalidNote"),
    (ALL, &[(0x178, 4, 19)], None, None, "load 0x1100 end 0x1340"),
    (
        ALL,
        &[(0x17c, 4, 0x006e_6559)],
        None,
        None,
        "load 0x1100 end 0x1340",
    ),
    (ALL, &[(0x170, 4, 5)], None, None, "InvalidNote"),
    // A note of another kind comes first.
    (
        ALL,
        &[
            (240, 8, 0x160),
            (264, 8, 0x28),
            (0x160, 8, 0x0000_0000_0000_0004),
            (0x168, 8, 0x0055_4e47_0000_0003),
        ],
        None,
        None,
        DONE,
    ),
];

fn loaded<M: GuestMemory, B: Bitmap>(
    alloc: Global,
    host: &mut HostMemory<B>,
    memory: &M,
    image: &[u8],
    case: &Case,
) -> Result<Result<KernelLoaderResult, LoaderError>, Fail> {
    if !host.holds(memory) {
        return Err(Fail::new("the host does not hold the memory"));
    }
    let offset = case.2.map(GuestAddress);
    let lowest = case.3.map(GuestAddress);
    let mut image = ImageBytes::new(image);
    Ok(Elf::load(alloc, memory, host, offset, &mut image, lowest))
}

#[test]
fn edits_of_a_small_elf_file(rt: HostRuntime) -> Result<(), Fail> {
    let mut host = HostMemory::new(rt.alloc());
    let memory = memory_of(rt.alloc(), &mut host)?;
    for (number, case) in CASES.iter().enumerate() {
        let mut image = image_of(rt.alloc(), case.0, &ELF)?;
        for edit in case.1 {
            put(&mut image, *edit);
        }
        let answer = loaded(rt.alloc(), &mut host, &memory, image.as_slice(), case)?;
        expect_text(number, told(rt.alloc(), &answer)?.as_str(), case.4)?;
    }
    Ok(())
}

// The name of an error, without what it tells more.
fn name_of(text: &str) -> &str {
    text.split('(').next().unwrap_or(text)
}

// What a slow loader tells.
fn wanted(alloc: Global, slow: &Slow) -> Result<String, Fail> {
    let load = slow.load;
    let end = slow.end;
    match (slow.wrong, slow.pvh) {
        (Some(name), _) => Ok(String::from_str(alloc, name)?),
        (None, Some(pvh)) => Ok(format!(in alloc; "load {load:#x} end {end:#x} pvh {pvh:#x}")?),
        (None, None) => Ok(format!(in alloc; "load {load:#x} end {end:#x}")?),
    }
}

/// Fails if an answer is not what a slow loader says, or a byte of memory is not what it leaves. If a load was
/// refused, only the bytes that no segment names have to be as they were.
pub fn expect_slow(
    alloc: Global,
    case: usize,
    answer: &Result<KernelLoaderResult, LoaderError>,
    slow: &Slow,
    bytes: &[u8],
) -> Result<(), Fail> {
    let text = told(alloc, answer)?;
    expect_text(case, name_of(text.as_str()), wanted(alloc, slow)?.as_str())?;
    for ((at, byte), (then, named)) in bytes.iter().enumerate().zip(slow.memory.iter()) {
        let right = if slow.wrong.is_none() {
            byte == then
        } else {
            *named || *byte == BEFORE
        };
        if !right {
            return Err(Fail::new(format_args!("case {case}: {byte} at {at}")));
        }
    }
    Ok(())
}

// One bit is flipped.
fn flipped<M: GuestMemory, B: Bitmap>(
    alloc: Global,
    host: &mut HostMemory<B>,
    memory: &M,
    image: &mut Vec<u8>,
    bit: usize,
) -> Result<(), Fail> {
    if let Some(byte) = image.get_mut(bit / 8) {
        *byte ^= 1 << (bit % 8);
    }
    fill(alloc, host, memory)?;
    let case = (0, &[] as &[Edit], None, None, "");
    let answer = loaded(alloc, host, memory, image.as_slice(), &case)?;
    let slow = slow::elf(alloc, image.as_slice())?;
    let bytes = bytes_of(alloc, host, memory)?;
    expect_slow(alloc, bit, &answer, &slow, bytes.as_slice())?;
    if let Some(byte) = image.get_mut(bit / 8) {
        *byte ^= 1 << (bit % 8);
    }
    Ok(())
}

#[test]
fn each_bit_of_the_headers_of_an_elf_file(rt: HostRuntime) -> Result<(), Fail> {
    let mut host = HostMemory::new(rt.alloc());
    let memory = memory_of(rt.alloc(), &mut host)?;
    let mut image = image_of(rt.alloc(), ELF_SIZE, &ELF)?;
    for bit in 0..8 * HEADERS {
        flipped(rt.alloc(), &mut host, &memory, &mut image, bit)?;
    }
    Ok(())
}
