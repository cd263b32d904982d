//! bzImages: edits of a small one, each bit of its header flipped, and sources that fail.

use crate::elves::expect_slow;
use crate::images::{
    BZ, BZ_SIZE, ELF, ELF_SIZE, Edit, bytes_of, fill, image_of, memory_of, put, told,
};
use crate::slow;
use linux_loader::{BzImage, Elf, ImageBytes, KernelImage, KernelLoaderResult, LoaderError};
use std::alloc::Global;
use std::io::ErrorKind;
use std::test::Fail;
use test_text::expect_text;
use vm_memory_base::{
    Bitmap, GuestAddress, IoError, ReadVolatile, VolatileMemoryError, VolatileMemoryResult,
};
use vm_memory_guest::{GuestMemory, HostMemory};

// How many bytes of the image there are, edits of it, the offset of the kernel, where high memory begins, and what is
// told: the answer, how many bytes the header has, and its `code32_start`.
type Case = (
    usize,
    &'static [Edit],
    Option<u64>,
    Option<u64>,
    &'static str,
);

const ALL: usize = BZ_SIZE;

const DONE: &str = "load 0x11f8 end 0x1208 header 119 code32_start 0x11f8";

static CASES: [Case; 38] = [
    (ALL, &[], None, None, DONE),
    (0, &[], None, None, "ReadBzImageHeader"),
    (0x217, &[], None, None, "ReadBzImageHeader"),
    (0x218, &[], None, None, "ReadBzImageHeader"),
    (0x267, &[], None, None, "ReadBzImageHeader"),
    (0x268, &[], None, None, "ReadBzImageCompressedKernel"),
    (0x400, &[], None, None, "ReadBzImageCompressedKernel"),
    (
        0x401,
        &[],
        None,
        None,
        "load 0x11f8 end 0x11f9 header 119 code32_start 0x11f8",
    ),
    (ALL, &[(0x202, 1, 0x49)], None, None, "InvalidBzImage"),
    (ALL, &[(0x205, 1, 0x54)], None, None, "InvalidBzImage"),
    (ALL, &[(0x206, 2, 0x1ff)], None, None, "InvalidBzImage"),
    (ALL, &[(0x206, 2, 0x200)], None, None, DONE),
    (ALL, &[(0x211, 1, 0xfe)], None, None, "InvalidBzImage"),
    (ALL, &[(0x211, 1, 0x81)], None, None, DONE),
    (
        ALL,
        &[(0x201, 1, 0x15)],
        None,
        None,
        "InvalidSetupHeaderSize",
    ),
    (
        ALL,
        &[(0x201, 1, 0x16)],
        None,
        None,
        "load 0x11f8 end 0x1208 header 39 code32_start 0x11f8",
    ),
    (
        ALL,
        &[(0x201, 1, 0xff)],
        None,
        None,
        "load 0x11f8 end 0x1208 header 272 code32_start 0x11f8",
    ),
    // No sectors of setup code are 4.
    (
        ALL,
        &[(0x1f1, 1, 0)],
        None,
        None,
        "ReadBzImageCompressedKernel",
    ),
    (
        0xa01,
        &[(0x1f1, 1, 0)],
        None,
        None,
        "load 0x11f8 end 0x11f9 header 119 code32_start 0x11f8",
    ),
    (
        0xa01,
        &[(0x1f1, 1, 4)],
        None,
        None,
        "load 0x11f8 end 0x11f9 header 119 code32_start 0x11f8",
    ),
    (
        ALL,
        &[(0x1f1, 1, 2)],
        None,
        None,
        "ReadBzImageCompressedKernel",
    ),
    (
        ALL,
        &[(0x1f1, 1, 0xff)],
        None,
        None,
        "ReadBzImageCompressedKernel",
    ),
    // Where the kernel is loaded.
    (ALL, &[], None, Some(0x11f8), DONE),
    (ALL, &[], None, Some(0x11f9), "InvalidKernelStartAddress"),
    (
        ALL,
        &[],
        Some(0x1200),
        Some(0x11f9),
        "InvalidKernelStartAddress",
    ),
    (
        ALL,
        &[],
        Some(0x1300),
        Some(0x11f8),
        "load 0x1300 end 0x1310 header 119 code32_start 0x1300",
    ),
    (
        ALL,
        &[],
        Some(0x13f0),
        None,
        "load 0x13f0 end 0x1400 header 119 code32_start 0x13f0",
    ),
    (
        ALL,
        &[],
        Some(0x13f1),
        None,
        "GuestMemory(PartialBuffer { expected: 16, completed: 15 })",
    ),
    (
        ALL,
        &[],
        Some(0x1400),
        None,
        "GuestMemory(InvalidGuestAddress(GuestAddress(5120)))",
    ),
    (
        ALL,
        &[],
        Some(0xffff_ffff),
        None,
        "GuestMemory(InvalidGuestAddress(GuestAddress(4294967295)))",
    ),
    (
        ALL,
        &[],
        Some(0x1_0000_0000),
        None,
        "InvalidKernelStartAddress",
    ),
    (ALL, &[], Some(u64::MAX), None, "InvalidKernelStartAddress"),
    // Where the kernel runs: memory ends at 0x1400.
    (ALL, &[(0x260, 4, 0x300)], None, None, DONE),
    (
        ALL,
        &[(0x260, 4, 0x301)],
        None,
        None,
        "RuntimeAreaNotInMemory",
    ),
    (
        ALL,
        &[(0x258, 8, 0xfff)],
        None,
        None,
        "RuntimeAreaNotInMemory",
    ),
    (
        ALL,
        &[(0x260, 4, 0x301), (0x206, 2, 0x209)],
        None,
        None,
        DONE,
    ),
    (ALL, &[(0x234, 1, 1), (0x260, 4, 0x200)], None, None, DONE),
    (
        ALL,
        &[(0x234, 1, 1), (0x260, 4, 0x201)],
        None,
        None,
        "RuntimeAreaNotInMemory",
    ),
];

fn loaded<M: GuestMemory, B: Bitmap, F: KernelImage>(
    alloc: Global,
    host: &mut HostMemory<B>,
    memory: &M,
    image: &mut F,
    case: &Case,
) -> Result<Result<KernelLoaderResult, LoaderError>, Fail> {
    if !host.holds(memory) {
        return Err(Fail::new("the host does not hold the memory"));
    }
    let offset = case.2.map(GuestAddress);
    let lowest = case.3.map(GuestAddress);
    Ok(BzImage::load(alloc, memory, host, offset, image, lowest))
}

// The field of a header where the kernel is to be entered, as it is told.
fn code32_start(header: &[u8]) -> u64 {
    let mut start = 0u64;
    for i in 0..4 {
        let byte = header.get(0x26usize.wrapping_sub(i)).copied().unwrap_or(0);
        start = start.wrapping_mul(256).wrapping_add(u64::from(byte));
    }
    start
}

// What a loader answers, with what it tells of the header.
fn told_with_header(
    alloc: Global,
    answer: &Result<KernelLoaderResult, LoaderError>,
) -> Result<String, Fail> {
    let mut text = told(alloc, answer)?;
    if let Ok(result) = answer {
        if let Some(header) = &result.setup_header {
            let bytes = header.as_slice();
            let (count, start) = (bytes.len(), code32_start(bytes));
            write!(text, " header {count} code32_start {start:#x}")?;
        }
    }
    Ok(text)
}

#[test]
fn edits_of_a_small_bzimage(rt: HostRuntime) -> Result<(), Fail> {
    let mut host = HostMemory::new(rt.alloc());
    let memory = memory_of(rt.alloc(), &mut host)?;
    for (number, case) in CASES.iter().enumerate() {
        let mut bytes = image_of(rt.alloc(), case.0, &BZ)?;
        for edit in case.1 {
            put(&mut bytes, *edit);
        }
        let mut image = ImageBytes::new(bytes.as_slice());
        let answer = loaded(rt.alloc(), &mut host, &memory, &mut image, case)?;
        expect_text(
            number,
            told_with_header(rt.alloc(), &answer)?.as_str(),
            case.4,
        )?;
    }
    Ok(())
}

// One bit is flipped.
fn flipped<M: GuestMemory, B: Bitmap>(
    alloc: Global,
    host: &mut HostMemory<B>,
    memory: &M,
    bytes: &mut Vec<u8>,
    bit: usize,
) -> Result<(), Fail> {
    if let Some(byte) = bytes.get_mut(bit / 8) {
        *byte ^= 1 << (bit % 8);
    }
    fill(alloc, host, memory)?;
    let case = (0, &[] as &[Edit], None, None, "");
    let mut image = ImageBytes::new(bytes.as_slice());
    let answer = loaded(alloc, host, memory, &mut image, &case)?;
    let slow = slow::bzimage(alloc, bytes.as_slice())?;
    let now = bytes_of(alloc, host, memory)?;
    expect_slow(alloc, bit, &answer, &slow, now.as_slice())?;
    if let Some(byte) = bytes.get_mut(bit / 8) {
        *byte ^= 1 << (bit % 8);
    }
    Ok(())
}

#[test]
fn each_bit_of_the_header_of_a_bzimage(rt: HostRuntime) -> Result<(), Fail> {
    let mut host = HostMemory::new(rt.alloc());
    let memory = memory_of(rt.alloc(), &mut host)?;
    let mut bytes = image_of(rt.alloc(), BZ_SIZE, &BZ)?;
    for bit in 8 * 0x1f1..8 * 0x301 {
        flipped(rt.alloc(), &mut host, &memory, &mut bytes, bit)?;
    }
    Ok(())
}

// An image whose calls fail from one on: of its size, of its place, or of its bytes.
#[derive(Drop)]
struct Failing<'a> {
    image: ImageBytes<'a>,
    left: usize,
}

impl Failing<'_> {
    fn step(&mut self) -> VolatileMemoryResult<()> {
        if self.left == 0 {
            return Err(VolatileMemoryError::IOError(IoError::of_kind(ErrorKind::Other)));
        }
        self.left -= 1;
        Ok(())
    }
}

impl ReadVolatile for Failing<'_> {
    ghost use Rattle.std.specs.Prelude.{None};

    ghost source = { λ s. None };

    ghost known_left = { λ s. None };

    fn read_volatile(&mut self, buf: &mut [u8]) -> VolatileMemoryResult<usize> {
        self.step()?;
        self.image.read_volatile(buf)
    }

    fn known_left(&self) -> Option<usize> {
        None
    }
}

impl KernelImage for Failing<'_> {
    ghost use Rattle.std.specs.Prelude.{None, refl};

    ghost bytes = { λ s. None };

    fn size(&mut self) -> VolatileMemoryResult<u64> {
        self.step()?;
        self.image.size()
    }

    fn seek_to(&mut self, offset: u64) -> VolatileMemoryResult<()> {
        self.step()?;
        self.image.seek_to(offset)
    }

    fn read_at(&mut self, offset: u64, buf: &mut [u8]) -> VolatileMemoryResult<()> {
        self.step()?;
        self.image.read_at(offset, buf)
    }

    ghost reads_keep = { λ s t old new answer h. refl };
}

// A load of the small ELF file, of whose calls so many succeed.
fn load_failing<M: GuestMemory, B: Bitmap>(
    alloc: Global,
    host: &mut HostMemory<B>,
    memory: &M,
    bytes: &[u8],
    left: usize,
) -> Result<String, Fail> {
    if !host.holds(memory) {
        return Err(Fail::new("the host does not hold the memory"));
    }
    let mut image = Failing {
        image: ImageBytes::new(bytes),
        left,
    };
    let answer = Elf::load(alloc, memory, host, None, &mut image, None);
    told(alloc, &answer)
}

// The size, two reads of headers, one of notes, and of each segment its place and its bytes, of which one is cut.
const STEPS: [&str; 12] = [
    "Image(IOError(Kind(Other)))",
    "Image(IOError(Kind(Other)))",
    "Image(IOError(Kind(Other)))",
    "Image(IOError(Kind(Other)))",
    "Image(IOError(Kind(Other)))",
    "GuestMemory(IOError(Kind(Other)))",
    "Image(IOError(Kind(Other)))",
    "GuestMemory(IOError(Kind(Other)))",
    "GuestMemory(IOError(Kind(Other)))",
    "Image(IOError(Kind(Other)))",
    "GuestMemory(IOError(Kind(Other)))",
    "load 0x1100 end 0x1340 pvh 0x1308",
];

#[test]
fn sources_that_fail(rt: HostRuntime) -> Result<(), Fail> {
    let mut host = HostMemory::new(rt.alloc());
    let memory = memory_of(rt.alloc(), &mut host)?;
    let bytes = image_of(rt.alloc(), ELF_SIZE, &ELF)?;
    for (left, wanted) in STEPS.iter().enumerate() {
        let told = load_failing(rt.alloc(), &mut host, &memory, bytes.as_slice(), left)?;
        expect_text(left, told.as_str(), wanted)?;
    }
    Ok(())
}
