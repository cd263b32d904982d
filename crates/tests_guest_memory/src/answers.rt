//! Questions about addresses and ranges, walks without their error, and accesses by a callback or by the
//! offsets of one region.

use std::alloc::{AllocError, Global};
use std::sync::atomic::Ordering;
use std::test::Fail;
use test_regions::{AROUND_A_HOLE, BEFORE_A_BARE_REGION, Place, TestRegion, memory_of};
use test_text::expect_text;
use vm_memory_base::{
    GuestAddress, MappedRange, MappedRangeList, MemoryRegionAddress, Permissions,
};
use vm_memory_guest::{
    Bytes, GuestMemory, GuestMemoryBackend, GuestMemoryError, GuestMemoryRegion,
    GuestMemorySliceIterator, GuestRegionCollection, HostMemory, IommuMemorySliceIterator, SpaceId,
};

type Layout = GuestRegionCollection<TestRegion>;

// What is asked of a layout.
#[derive(Clone, Copy)]
enum Question {
    // An address, and a window of so many bytes.
    At(u64, usize),
    // An address, and so many bytes from there on.
    Range(u64, usize),
    // Pieces, and an I/O address.
    Pieces(&'static [(u64, usize)], u64),
    // A count, an address, and what the callback answers in place of the length that it gets.
    Callback(usize, u64, Option<usize>),
    Listed,
    // An offset into the first region, and a count.
    Offset(u64, usize),
    // An address.
    Window(u64),
}

use Question::{At, Callback, Listed, Offset, Pieces, Range, Window};

// Regions, a question and its answer.
type Row = (&'static [Place], Question, &'static str);

const ONE: [Place; 1] = [Place::Block(0, 0x1000)];

const TWO_PAGES: [Place; 2] = [Place::Block(0, 0x1000), Place::Block(0x1000, 0x1000)];

const WITH_TWO_THAT_TOUCH: [Place; 3] = [
    Place::Block(0, 0x400),
    Place::Block(0x800, 0x400),
    Place::Block(0xc00, 0x400),
];

const AT_BOTH_ENDS: [Place; 2] = [
    Place::Block(0, 0x1000),
    Place::Block(0xffff_ffff_ffff_f000, 0x1000),
];

const BELOW_THE_GREATEST: [Place; 1] = [Place::Block(0xffff_ffff_ffff_efff, 0x1000)];

const EIGHT_BYTES: [Place; 1] = [Place::Block(0x1000, 8)];

const EIGHT_BARE: [Place; 1] = [Place::Bare(0x1000, 8)];

// Regions, an address and a count, and what the address and a window from it on are answered.
const AT_ADDRESSES: [Row; 8] = [
    (
        &ONE,
        At(0xfff, 1),
        "true Some(4095) Ok(HostAddress { block: BlockId(0), offset: 4095 }) Ok(1)",
    ),
    (
        &ONE,
        At(0xfff, 2),
        "true Some(4095) Ok(HostAddress { block: BlockId(0), offset: 4095 }) Err(InvalidBackendAddress)",
    ),
    (
        &ONE,
        At(0x1000, 1),
        "false None Err(InvalidGuestAddress(GuestAddress(4096))) Err(InvalidGuestAddress(GuestAddress(4096)))",
    ),
    (
        &AROUND_A_HOLE,
        At(0x1010, 0x3f0),
        "true Some(16) Ok(HostAddress { block: BlockId(1), offset: 16 }) Ok(1008)",
    ),
    (
        &AROUND_A_HOLE,
        At(0xfff, 0),
        "false None Err(InvalidGuestAddress(GuestAddress(4095))) Err(InvalidGuestAddress(GuestAddress(4095)))",
    ),
    (
        &BEFORE_A_BARE_REGION,
        At(0x1000, 1),
        "true Some(0) Err(HostAddressNotAvailable) Err(HostAddressNotAvailable)",
    ),
    (
        &AT_BOTH_ENDS,
        At(0xffff_ffff_ffff_ffff, 1),
        "true Some(4095) Ok(HostAddress { block: BlockId(1), offset: 4095 }) Ok(1)",
    ),
    // A window lies in one region.
    (
        &AT_BOTH_ENDS,
        At(0xffff_ffff_ffff_ffff, 2),
        "true Some(4095) Ok(HostAddress { block: BlockId(1), offset: 4095 }) Err(InvalidBackendAddress)",
    ),
];

fn text_at(
    alloc: Global,
    layout: &Layout,
    addr: GuestAddress,
    count: usize,
) -> Result<String, AllocError> {
    let offset = match layout.to_region_addr(addr) {
        Some((_, offset)) => Some(offset.0),
        None => None,
    };
    let held = layout.check_address(addr) == Some(addr);
    if held != layout.address_in_range(addr) {
        return format!(in alloc; "both tell whether a region holds the address");
    }
    let host = layout.get_host_address(addr);
    let len = layout.get_slice(addr, count).map(|window| window.len());
    format!(in alloc; "{held} {offset:?} {host:?} {len:?}")
}

// Regions, an address and a count: the address so far above, whether the range is whole, and the lengths of the
// windows of a walk whose error is told where it comes first.
const AT_RANGES: [Row; 15] = [
    (
        &TWO_PAGES,
        Range(0xffc, 5),
        "Some(GuestAddress(4097)) true Ok 4 1",
    ),
    (
        &ONE,
        Range(0, 0xfff),
        "Some(GuestAddress(4095)) true Ok 4095",
    ),
    (&ONE, Range(0, 0x1000), "None true Ok 4096"),
    (&ONE, Range(1, 0x1000), "None false Ok 4095"),
    (&AROUND_A_HOLE, Range(0x3fc, 8), "None false Ok 4"),
    (
        &AROUND_A_HOLE,
        Range(0x400, 0xc00),
        "Some(GuestAddress(4096)) false Err(InvalidGuestAddress(GuestAddress(1024)))",
    ),
    (&AROUND_A_HOLE, Range(0x400, 0), "None true Ok"),
    (
        &BEFORE_A_BARE_REGION,
        Range(0xffe, 4),
        "Some(GuestAddress(4098)) false Ok 2",
    ),
    (
        &BEFORE_A_BARE_REGION,
        Range(0x1000, 1),
        "Some(GuestAddress(4097)) false Err(HostAddressNotAvailable)",
    ),
    (
        &WITH_TWO_THAT_TOUCH,
        Range(0, 0xa00),
        "Some(GuestAddress(2560)) false Ok 1024",
    ),
    (
        &WITH_TWO_THAT_TOUCH,
        Range(0x800, 0x7ff),
        "Some(GuestAddress(4095)) true Ok 1024 1023",
    ),
    (
        &WITH_TWO_THAT_TOUCH,
        Range(0x800, 0x801),
        "None false Ok 1024 1024",
    ),
    (
        &WITH_TWO_THAT_TOUCH,
        Range(0, 0xffff_ffff_ffff_ffff),
        "None false Ok 1024",
    ),
    (
        &AT_BOTH_ENDS,
        Range(0xffff_ffff_ffff_ffff, 2),
        "None true Ok 1 1",
    ),
    (
        &AT_BOTH_ENDS,
        Range(0xffff_ffff_ffff_fff0, 0x1010),
        "None true Ok 16 4096",
    ),
];

fn range_text(
    alloc: Global,
    host: &HostMemory<()>,
    layout: &Layout,
    addr: GuestAddress,
    count: usize,
) -> Result<String, Fail> {
    if !host.holds(layout) {
        return Err(Fail::new("the host does not hold the memory"));
    }
    let above = layout.checked_offset(addr, count);
    let whole = GuestMemoryBackend::check_range(layout, addr, count);
    let allowed = GuestMemory::check_range(layout, host, addr, count, Permissions::Write)?;
    if allowed != whole {
        return Err(Fail::new("the memory answers other than its backend"));
    }
    let mut text = format!(in alloc; "{above:?} {whole} ")?;
    match GuestMemoryBackend::get_slices(layout, addr, count).stop_on_error() {
        Ok(windows) => {
            write!(text, "Ok")?;
            for window in windows {
                write!(text, " {}", window.len())?;
            }
        }
        Err(error) => write!(text, "Err({error:?})")?,
    }
    Ok(text)
}

// Regions, pieces of them and an I/O address: the length of each window, the space and the address that it marks,
// and the error.
const AT_PIECES: [Row; 6] = [
    (&AROUND_A_HOLE, Pieces(&[], 7), ""),
    (
        &AROUND_A_HOLE,
        Pieces(&[(0x1000, 4), (0x3fe, 2), (0, 0), (0x3fe, 1)], 0x10),
        "4 Space(3)+0x10;2 Space(3)+0x14;1 Space(3)+0x16;",
    ),
    // A piece that goes past its region is the last.
    (
        &AROUND_A_HOLE,
        Pieces(&[(0x3fe, 4), (0, 1)], 0x10),
        "2 Space(3)+0x10;InvalidGuestAddress(GuestAddress(1024))",
    ),
    (
        &BEFORE_A_BARE_REGION,
        Pieces(&[(0xfff, 1), (0x1000, 1)], 0),
        "1 Space(3)+0x0;HostAddressNotAvailable",
    ),
    // One piece may lie in two regions, and 0 is marked after the greatest address.
    (
        &WITH_TWO_THAT_TOUCH,
        Pieces(&[(0xbff, 2)], u64::MAX),
        "1 Space(3)+0xffffffffffffffff;1 Space(3)+0x0;",
    ),
    // After the greatest address of a piece comes 0.
    (
        &AT_BOTH_ENDS,
        Pieces(&[(u64::MAX, 3), (5, 1)], 8),
        "1 Space(3)+0x8;2 Space(3)+0x9;1 Space(3)+0xb;",
    ),
];

fn pieces_text(
    alloc: Global,
    layout: &Layout,
    pieces: &[(u64, usize)],
    iova: u64,
) -> Result<String, AllocError> {
    let mut text = String::new(alloc);
    let ranges = pieces.iter().map(|(base, length)| MappedRange {
        base: GuestAddress(*base),
        length: *length,
    });
    let ranges = MappedRangeList::from_vec(ranges.collect(alloc)?);
    for window in IommuMemorySliceIterator::of_pieces(
        layout,
        ranges,
        GuestAddress(iova),
        SpaceId(3),
    ) {
        match window {
            Ok(window) => {
                let marked = window.bitmap();
                write!(text, "{} {:?}+{:#x};", window.len(), marked.id, marked.base)?;
            }
            Err(error) => write!(text, "{error:?}")?,
        }
    }
    Ok(text)
}

// Regions, a count, an address and a number that the callback answers in place of the length that it gets: the
// total, the length, the offset and the region's start of each call, and the answer.
const BY_CALLBACK: [Row; 9] = [
    (
        &AROUND_A_HOLE,
        Callback(8, 0x3fc, None),
        "(0 4 1020 0) Ok(4)",
    ),
    (
        &AROUND_A_HOLE,
        Callback(8, 0x3fc, Some(9)),
        "(0 4 1020 0) Err(CallbackOutOfRange)",
    ),
    (
        &AROUND_A_HOLE,
        Callback(0, 0x10, Some(0)),
        "(0 0 16 0) Ok(0)",
    ),
    (
        &AROUND_A_HOLE,
        Callback(0, 0x10, Some(1)),
        "(0 0 16 0) Err(CallbackOutOfRange)",
    ),
    (
        &AROUND_A_HOLE,
        Callback(0, 0x400, Some(0)),
        " Err(InvalidGuestAddress(GuestAddress(1024)))",
    ),
    // The callback handles a part at a time, and may leave a part of a region.
    (
        &AROUND_A_HOLE,
        Callback(3, 0x3fd, Some(1)),
        "(0 3 1021 0)(1 2 1022 0)(2 1 1023 0) Ok(3)",
    ),
    // It may go over a hole, where it says so.
    (
        &AROUND_A_HOLE,
        Callback(0xc08, 0x3fc, Some(0xc04)),
        "(0 4 1020 0)(3076 4 0 4096) Err(CallbackOutOfRange)",
    ),
    (
        &AT_BOTH_ENDS,
        Callback(2, 0xffff_ffff_ffff_ffff, None),
        "(0 1 4095 18446744073709547520)(1 1 0 0) Ok(2)",
    ),
    (
        &BELOW_THE_GREATEST,
        Callback(0x2000, 0xffff_ffff_ffff_fff0, Some(0x20)),
        "(0 15 4081 18446744073709547519) Err(GuestAddressOverflow)",
    ),
];

fn callback_text(
    alloc: Global,
    layout: &Layout,
    count: usize,
    addr: GuestAddress,
    number: Option<usize>,
) -> Result<String, Fail> {
    let mut text = String::new(alloc);
    let answer = layout.try_access(count, addr, |total, len, offset, region| {
        let start = region.start_addr().0;
        match write!(text, "({total} {len} {} {start})", offset.0) {
            Ok(()) => Ok(number.unwrap_or(len)),
            Err(_) => Err(GuestMemoryError::Memory),
        }
    });
    Ok(format!(in alloc; "{text} {answer:?}")?)
}

// Regions, and their number, starts and last address, and the lengths of the first three.
const LISTED: [Row; 4] = [
    (&ONE, Listed, "1 0; 4095 Some(4096) None None"),
    (
        &AROUND_A_HOLE,
        Listed,
        "2 0; 4096; 5119 Some(1024) Some(1024) None",
    ),
    (
        &WITH_TWO_THAT_TOUCH,
        Listed,
        "3 0; 2048; 3072; 4095 Some(1024) Some(1024) Some(1024)",
    ),
    (
        &AT_BOTH_ENDS,
        Listed,
        "2 0; 18446744073709547520; 18446744073709551615 Some(4096) Some(4096) None",
    ),
];

fn listed(alloc: Global, layout: &Layout) -> Result<String, Fail> {
    let mut text = format!(in alloc; "{} ", layout.num_regions())?;
    for region in layout.iter() {
        write!(text, "{}; ", region.start_addr().0)?;
    }
    write!(text, "{}", layout.last_addr().0)?;
    for number in 0..3 {
        let region = GuestMemoryBackend::region_at(layout, number);
        let len = region.map(|region| region.len());
        write!(text, " {len:?}")?;
    }
    Ok(text)
}

// A region, an offset and a count: whether there is an address, the offset `count` above, the offset of the
// guest address 0x1000 + offset, and what a write, a read and a load of two bytes answer.
const BY_OFFSET: [Row; 7] = [
    (
        &EIGHT_BYTES,
        Offset(6, 2),
        "true None Some(6) Ok(2) Ok(2) [7, 7] Ok(1799)",
    ),
    (
        &EIGHT_BYTES,
        Offset(7, 2),
        "true None Some(7) Ok(1) Ok(1) [7, 0] Err(InvalidBackendAddress)",
    ),
    (
        &EIGHT_BYTES,
        Offset(8, 1),
        "false None None Err(InvalidBackendAddress) Err(InvalidBackendAddress) [0] Err(InvalidBackendAddress)",
    ),
    (
        &EIGHT_BYTES,
        Offset(9, 0),
        "false None None Ok(0) Ok(0) [] Err(InvalidBackendAddress)",
    ),
    (
        &EIGHT_BYTES,
        Offset(1, 3),
        "true Some(4) Some(1) Ok(3) Ok(3) [7, 7, 7] Err(InvalidBackendAddress)",
    ),
    (
        &EIGHT_BARE,
        Offset(0, 1),
        "true Some(1) Some(0) Err(HostAddressNotAvailable) Err(HostAddressNotAvailable) [0] \
         Err(HostAddressNotAvailable)",
    ),
    (
        &EIGHT_BARE,
        Offset(8, 0),
        "false None None Err(HostAddressNotAvailable) Err(HostAddressNotAvailable) [] \
         Err(HostAddressNotAvailable)",
    ),
];

fn offset_text(
    alloc: Global,
    host: &mut HostMemory<()>,
    layout: &Layout,
    offset: u64,
    count: usize,
) -> Result<String, Fail> {
    let region = layout.region_at(0).ok_or("there is no region")?;
    if !host.holds(region) {
        return Err(Fail::new("the host does not hold the region"));
    }
    let addr = MemoryRegionAddress(offset);
    let held = region.address_in_range(addr);
    let above = region.checked_offset(addr, count).map(|addr| addr.0);
    let inside = region
        .to_region_addr(GuestAddress(offset.wrapping_add(0x1000)))
        .map(|addr| addr.0);
    let bytes = vec![in alloc; 7u8; count]?;
    let mut buffer = vec![in alloc; 0u8; count]?;
    let wrote = region.write(host, bytes.as_slice(), addr);
    let had = region.read(host, buffer.as_mut_slice(), addr);
    let value: Result<u16, GuestMemoryError> = region.load(host, addr, Ordering::SeqCst);
    Ok(format!(in alloc;
        "{held} {above:?} {inside:?} {wrote:?} {had:?} {:?} {value:?}",
        buffer.as_slice()
    )?)
}

// Regions and an address: what a write of five bytes there answers, and the window of its region.
const WHOLE_REGIONS: [Row; 3] = [
    (
        &AROUND_A_HOLE,
        Window(0x1000),
        "Ok(5) 1024 Ok(5) [1, 2, 3, 4, 5]",
    ),
    (
        &AROUND_A_HOLE,
        Window(2),
        "Ok(5) 1024 Ok(5) [0, 0, 1, 2, 3]",
    ),
    (
        &BEFORE_A_BARE_REGION,
        Window(0x1000),
        "Err(HostAddressNotAvailable) HostAddressNotAvailable",
    ),
];

// The first bytes of the region of an address, once five were written there.
fn region_text(
    alloc: Global,
    host: &mut HostMemory<()>,
    memory: &Layout,
    at: GuestAddress,
) -> Result<String, Fail> {
    if !host.holds(memory) {
        return Err(Fail::new("the host does not hold the memory"));
    }
    let wrote = memory.write(host, &[1, 2, 3, 4, 5], at);
    let region = memory.find_region(at).ok_or("no region has the address")?;
    let window = match region.as_volatile_slice() {
        Ok(window) => window,
        Err(error) => return Ok(format!(in alloc; "{wrote:?} {error:?}")?),
    };
    if !host.holds(&window) {
        return Err(Fail::new("the host does not hold the window"));
    }
    let mut bytes = [0; 5];
    let had = window.read(host, &mut bytes, 0);
    Ok(format!(in alloc; "{wrote:?} {} {had:?} {bytes:?}", window.len())?)
}

fn answer(
    alloc: Global,
    host: &mut HostMemory<()>,
    layout: &Layout,
    question: Question,
) -> Result<String, Fail> {
    match question {
        At(addr, count) => Ok(text_at(alloc, layout, GuestAddress(addr), count)?),
        Range(addr, count) => range_text(alloc, host, layout, GuestAddress(addr), count),
        Pieces(pieces, iova) => Ok(pieces_text(alloc, layout, pieces, iova)?),
        Callback(count, addr, number) => {
            callback_text(alloc, layout, count, GuestAddress(addr), number)
        }
        Listed => listed(alloc, layout),
        Offset(offset, count) => offset_text(alloc, host, layout, offset, count),
        Window(addr) => region_text(alloc, host, layout, GuestAddress(addr)),
    }
}

const ROWS: [&[Row]; 7] = [
    &AT_ADDRESSES,
    &AT_RANGES,
    &AT_PIECES,
    &BY_CALLBACK,
    &LISTED,
    &BY_OFFSET,
    &WHOLE_REGIONS,
];

#[test]
fn questions_are_answered(rt: HostRuntime) -> Result<(), Fail> {
    for rows in ROWS {
        for (case, (places, question, wanted)) in rows.iter().enumerate() {
            let mut host = HostMemory::new(rt.alloc());
            let layout = memory_of(rt.alloc(), &mut host, places)?;
            let text = answer(rt.alloc(), &mut host, &layout, *question)?;
            expect_text(case, text.as_str(), wanted)?;
        }
    }
    Ok(())
}
