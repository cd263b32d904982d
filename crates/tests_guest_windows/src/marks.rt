//! Which pages the writes of a host mark, in blocks and in spaces.

use std::alloc::Global;
use std::fmt;
use std::num::NonZeroUsize;
use std::sync::Arc;
use std::sync::atomic::Ordering;
use std::test::Fail;
use test_text::expect_text;
use vm_memory_base::{
    AtomicBitmap, Bitmap, BitmapId, ExclusiveBitmap, GuestAddress, MappedRange, MappedRangeList,
    NewBitmap,
};
use vm_memory_guest::{
    BlockId, Bytes, GuestMemoryBackend, GuestMemoryMmap, GuestRegionMmap, HostMemory,
    IommuMemorySliceIterator, MmapRegion, SpaceId, VolatileMemory, VolatileSlice,
};

// A write of so many bytes.
#[derive(Clone, Copy)]
enum Write {
    // At a guest address.
    At(u64, usize),
    // To the end of a window at an I/O address, which leads to a guest address and so many bytes, from an offset on.
    Mapped(u64, u64, usize, usize),
    // A store of four bytes at an I/O address, which leads to a guest address.
    Stored(u64, u64),
    // In a part of a window from 2 on, at an offset.
    Part(usize, usize),
    // Of elements of two bytes in that window, at an offset.
    Array(usize, usize),
    // In a part of that window, at an offset and of so many bytes, of so many values of two bytes.
    Front(usize, usize, usize),
    // Of single values in that window.
    Values,
}

use Write::{Array, At, Front, Mapped, Part, Stored, Values};

fn write_bytes<A: Copy, M: Bytes<A>, B: Bitmap>(
    alloc: Global,
    host: &mut HostMemory<B>,
    place: &M,
    at: A,
    count: usize,
) -> Result<String, Fail>
where
    M::E: fmt::Debug + Drop,
{
    if !host.holds(place) {
        return Err(Fail::new("the host does not hold the place"));
    }
    let bytes = vec![in alloc; 7u8; count]?;
    let answer = place.write(host, bytes.as_slice(), at);
    Ok(format!(in alloc; "{answer:?} ")?)
}

// A store that is refused, one that is not, a value, elements of an array and a copy of them, each at a place of its
// own.
fn write_values<B: Bitmap>(
    alloc: Global,
    host: &mut HostMemory<B>,
    window: VolatileSlice,
) -> Result<String, Fail> {
    let value = window.get_ref::<u32>(4)?;
    let array = window.get_array_ref::<u16>(0xa, 3)?;
    let three = window.subslice(0x14, 3)?;
    if !(host.holds(&window) && host.holds(&value) && host.holds(&array) && host.holds(&three)) {
        return Err(Fail::new("the host does not hold the window and its parts"));
    }
    let refused = window.store(host, 7u32, 8, Ordering::SeqCst);
    let stored = window.store(host, 7u32, 0x1a, Ordering::SeqCst);
    window.write_obj(host, 7u16, 0)?;
    value.store(host, 7);
    array.store(host, 1, 9);
    array.copy_from(host, &[8]);
    array.copy_to_volatile_slice(host, three);
    let mut bytes = [1; 10];
    window.read_slice(host, &mut bytes, 0x14)?;
    Ok(format!(in alloc; "{refused:?} {stored:?} {bytes:?} ")?)
}

// What a store answers in each window of four bytes at an I/O address, which leads to a guest address.
fn store_mapped<M: GuestMemoryBackend, B: Bitmap>(
    alloc: Global,
    host: &mut HostMemory<B>,
    memory: &M,
    iova: u64,
    base: u64,
) -> Result<String, Fail> {
    let (at, base) = (GuestAddress(iova), GuestAddress(base));
    let pieces = MappedRangeList::from_vec(vec![in alloc; MappedRange { base, length: 4 }]?);
    let mut text = String::new(alloc);
    for window in IommuMemorySliceIterator::of_pieces(memory, pieces, at, SpaceId(0)) {
        let window = window?;
        if !host.holds(&window) {
            return Err(Fail::new("the host does not hold the window"));
        }
        let answer = window.store(host, 7u32, 0, Ordering::SeqCst);
        write!(text, "{answer:?} ")?;
    }
    Ok(text)
}

// Writes, and tells what that answers.
fn written<M: GuestMemoryBackend, B: Bitmap>(
    alloc: Global,
    host: &mut HostMemory<B>,
    memory: &M,
    write: Write,
) -> Result<String, Fail> {
    let window = memory.get_slice(GuestAddress(2), 0x2ffe)?;
    match write {
        At(addr, count) => write_bytes(alloc, host, memory, GuestAddress(addr), count),
        Mapped(iova, base, length, offset) => {
            let (at, base) = (GuestAddress(iova), GuestAddress(base));
            let pieces = MappedRangeList::from_vec(vec![in alloc; MappedRange { base, length }]?);
            let mut text = String::new(alloc);
            for window in IommuMemorySliceIterator::of_pieces(memory, pieces, at, SpaceId(0)) {
                let window = window?;
                let count = window.len().saturating_sub(offset);
                let told = write_bytes(alloc, host, &window, offset, count)?;
                text.push_str(told.as_str())?;
            }
            Ok(text)
        }
        Stored(iova, base) => store_mapped(alloc, host, memory, iova, base),
        Part(offset, count) => {
            write_bytes(alloc, host, &window.subslice(offset, count)?, 0, count)
        }
        Array(offset, count) => {
            let array = window.get_array_ref::<u16>(offset, count)?;
            let values = vec![in alloc; 7u16; count]?;
            if !host.holds(&array) {
                return Err(Fail::new("the host does not hold the array"));
            }
            array.copy_from(host, values.as_slice());
            Ok(String::new(alloc))
        }
        Front(offset, size, count) => {
            let part = window.subslice(offset, size)?;
            let values = vec![in alloc; 7u16; count]?;
            if !host.holds(&part) {
                return Err(Fail::new("the host does not hold the part"));
            }
            part.copy_from(host, values.as_slice());
            Ok(String::new(alloc))
        }
        Values => write_values(alloc, host, window.subslice(0, 0x1e)?),
    }
}

// The first and the last of each row of neighbouring pages that a bitmap tells to be dirty, of so many pages.
fn dirty_rows<B: Bitmap>(
    host: &HostMemory<B>,
    bitmap: BitmapId,
    page_size: usize,
    text: &mut String,
) -> Result<(), Fail> {
    if !host.shape().has_bitmap(bitmap) {
        return Err(Fail::new("the host has no such bitmap"));
    }
    let mut first = None;
    for page in 0..0x3001usize {
        let is_dirty = page < 0x3000
            && host.bitmap(bitmap).dirty_at(page.saturating_mul(page_size));
        match first {
            None if is_dirty => first = Some(page),
            Some(start) if !is_dirty => {
                write!(text, "{start}-{} ", page.saturating_sub(1))?;
                first = None;
            }
            _ => {}
        }
    }
    Ok(())
}

// Writes at pages of 0x1000 bytes of two blocks and of a space.
const WRITES: [Write; 6] = [
    At(0xfff, 2),
    At(0x2fff, 1),
    At(0x5fff, 2),
    At(0x3000, 1),
    Mapped(0x8fff, 0xfff, 2, 0),
    Mapped(0x9fff, 0x1fff, 0x10, 0),
];

const MARKED: &str = "Ok(2) Ok(1) Ok(2) Err(InvalidGuestAddress(GuestAddress(12288))) Ok(2) Ok(16) \
                      blocks 0-2 and 0-1 space 8-10 ";

// What the writes answer, and which pages are dirty then, of a host with such bitmaps.
fn expect_pages<B: NewBitmap + Drop>(alloc: Global, case: usize) -> Result<(), Fail> {
    let mut host: HostMemory<B> = HostMemory::new(alloc);
    let ranges = [(GuestAddress(0), 0x3000), (GuestAddress(0x5000), 0x2000)];
    let memory = GuestMemoryMmap::from_ranges(alloc, &mut host, &ranges)?;
    host.new_space(B::with_len(alloc, 0x10000)?)?;
    expect_marks(alloc, &mut host, &memory, case)
}

fn expect_marks<M: GuestMemoryBackend, B: Bitmap>(
    alloc: Global,
    host: &mut HostMemory<B>,
    memory: &M,
    case: usize,
) -> Result<(), Fail> {
    let mut text = String::new(alloc);
    for write in WRITES {
        let told = written(alloc, host, memory, write)?;
        text.push_str(told.as_str())?;
    }
    text.push_str("blocks ")?;
    dirty_rows(host, BitmapId::Block(0), 0x1000, &mut text)?;
    text.push_str("and ")?;
    dirty_rows(host, BitmapId::Block(1), 0x1000, &mut text)?;
    text.push_str("space ")?;
    dirty_rows(host, BitmapId::Space(0), 0x1000, &mut text)?;
    expect_text(case, text.as_str(), MARKED)
}

// A write in a block whose bytes, and those of a space, each have a page of their own, what it answers, and which pages
// are dirty then.
const LONG: [(Write, &str); 18] = [
    (At(0x10, 0x1800), "Ok(6144) block 16-6159 space "),
    (At(0xffe, 0x1003), "Ok(4099) block 4094-8192 space "),
    (At(0x2fff, 0x1001), "Ok(1) block 12287-12287 space "),
    (Part(0x20, 0x1805), "Ok(6149) block 34-6182 space "),
    (Part(0x20, 0), "Ok(0) block space "),
    (Array(1, 0x900), "block 3-4610 space "),
    (Front(0x20, 0x2000, 0x900), "block 34-4641 space "),
    // Only whole values are written.
    (Front(5, 7, 9), "block 7-12 space "),
    (Front(5, 1, 9), "block space "),
    (
        Mapped(0x10, 0x100, 0x1801, 0),
        "Ok(6145) block space 16-6160 ",
    ),
    (
        Mapped(0x10, 0x100, 0x1801, 0x7f0),
        "Ok(4113) block space 2048-6160 ",
    ),
    // A mark ends at the greatest offset, and after that offset comes 0.
    (
        Mapped(u64::MAX - 0x7ff, 0x100, 0x1900, 0),
        "Ok(6400) block space ",
    ),
    (
        Mapped(u64::MAX - 0x7ff, 0x100, 0x1900, 0x7ff),
        "Ok(4353) block space ",
    ),
    (
        Mapped(u64::MAX - 0x7ff, 0x100, 0x1900, 0x800),
        "Ok(4352) block space 0-4351 ",
    ),
    (
        Mapped(u64::MAX, 0, 0x1002, 1),
        "Ok(4097) block space 0-4096 ",
    ),
    // The place in the block is aligned or not, whatever is marked.
    (
        Stored(0x10, 0x102),
        "Err(Misaligned { addr: 258, alignment: 4 }) block space ",
    ),
    (Stored(0x12, 0x104), "Ok(()) block space 18-21 "),
    (
        Values,
        "Err(Misaligned { addr: 10, alignment: 4 }) Ok(()) [8, 0, 9, 0, 0, 0, 7, 0, 0, 0] \
         block 2-3 6-9 12-15 22-24 28-31 space ",
    ),
];

fn expect_rows<B: Bitmap + Drop>(
    alloc: Global,
    case: usize,
    block: B,
    space: B,
) -> Result<(), Fail> {
    let mut host: HostMemory<B> = HostMemory::new(alloc);
    host.new_block_with(0x3000, block)?;
    host.new_space(space)?;
    let mapping = MmapRegion::of_block(&host, BlockId(0)).ok_or("the host has no such block")?;
    let region = GuestRegionMmap::new(mapping, GuestAddress(0)).ok_or("the region does not fit")?;
    let regions = vec![in alloc; Arc::new(alloc, region)?]?;
    let memory = GuestMemoryMmap::from_arc_regions(regions)?;
    expect_row(alloc, &mut host, &memory, case)
}

fn expect_row<M: GuestMemoryBackend, B: Bitmap>(
    alloc: Global,
    host: &mut HostMemory<B>,
    memory: &M,
    case: usize,
) -> Result<(), Fail> {
    let (write, wanted) = LONG.get(case).ok_or("there is no such case")?;
    let mut text = written(alloc, host, memory, *write)?;
    text.push_str("block ")?;
    dirty_rows(host, BitmapId::Block(0), 1, &mut text)?;
    text.push_str("space ")?;
    dirty_rows(host, BitmapId::Space(0), 1, &mut text)?;
    expect_text(case, text.as_str(), wanted)
}

#[test]
fn a_host_marks_the_pages_of_its_writes(rt: HostRuntime) -> Result<(), Fail> {
    let alloc = rt.alloc();
    expect_pages::<ExclusiveBitmap>(alloc, 0)?;
    expect_pages::<AtomicBitmap>(alloc, 1)?;
    let size = NonZeroUsize::MIN;
    for case in 0..LONG.len() {
        let block = ExclusiveBitmap::new(alloc, 0x3000, size)?;
        let space = ExclusiveBitmap::new(alloc, 0x3000, size)?;
        expect_rows(alloc, case, block, space)?;
        let block = AtomicBitmap::new(alloc, 0x3000, size)?;
        let space = AtomicBitmap::new(alloc, 0x3000, size)?;
        expect_rows(alloc, case, block, space)?;
    }
    Ok(())
}
