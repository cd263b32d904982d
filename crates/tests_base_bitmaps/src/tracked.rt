//! A bitmap that several threads mark while one harvests.
ghost use Rattle.std.specs.Prelude.{◌≤◌, IfOk, IfSome};
ghost use Rattle.tests_base_bitmaps.specs.Markers.{IsMarkerOf, IsHarvesterOf, AreNewOf, IsNewOf, HaveNoPage};

use std::alloc::Global;
use std::num::NonZeroUsize;
use std::sync::Arc;
use std::test::Fail;
use vm_memory_base::{Bitmap, Harvester, Marker, MarkerBitmap, TrackedBitmap};

// Takes one of the markers.
fn next_marker(bitmap: &TrackedBitmap, markers: &mut Vec<Marker>) -> Option<Marker>
    requires { AreNewOf markers.old.items bitmap.now }
    ensures marker { IfSome result (λ m. IsMarkerOf m bitmap.now) }
    ensures others { AreNewOf markers.new.items bitmap.now }
{
    markers.pop()
}

// Fails where a byte is not told as it should be, to the marker and at a glance.
fn expect_told(
    bitmap: &TrackedBitmap,
    marker: &mut Marker,
    addr: usize,
    wanted: bool,
) -> Result<(), Fail>
    requires { IsMarkerOf marker.old bitmap.now }
    ensures { IsMarkerOf marker.new bitmap.now }
{
    if bitmap.is_addr_set(marker, addr) == wanted && bitmap.glance(addr) == wanted {
        Ok(())
    } else {
        Err(Fail::new(format_args!("byte {addr} is not told {wanted}")))
    }
}

// Fails where words are not so many, of which these have these numbers and all others are 0.
fn expect_words(words: &[u32], count: usize, wanted: &[(usize, u32)]) -> Result<(), Fail> {
    if words.len() != count {
        return Err(Fail::new("the number of words is another one"));
    }
    for (number, word) in words.iter().enumerate() {
        let found = wanted.iter().find(|place| place.0 == number);
        if *word != found.map_or(0, |place| place.1) {
            return Err(Fail::new(format_args!("word {number} is {word:#x}")));
        }
    }
    Ok(())
}

// Harvests, and fails where these are not the words.
fn expect_taken(
    alloc: Global,
    bitmap: &TrackedBitmap,
    harvester: &mut Harvester,
    count: usize,
    wanted: &[(usize, u32)],
) -> Result<(), Fail>
    requires { IsHarvesterOf harvester.old bitmap.now }
    ensures { IsHarvesterOf harvester.new bitmap.now }
{
    match bitmap.get_and_reset(harvester, alloc) {
        Ok(words) => expect_words(words.as_slice(), count, wanted),
        Err(error) => Err(Fail::from(error)),
    }
}

// Ends the bitmap, and fails where these are not the words left.
fn expect_left(
    alloc: Global,
    bitmap: TrackedBitmap,
    harvester: Harvester,
    count: usize,
    wanted: &[(usize, u32)],
) -> Result<(), Fail>
    requires { IsHarvesterOf harvester bitmap }
{
    match bitmap.close(harvester, alloc) {
        Ok(words) => expect_words(words.as_slice(), count, wanted),
        Err(_) => Err(Fail::new("allocation failed")),
    }
}

// Marks, looks and harvests of one marker, at pages of this size.
fn expect_rounds(
    alloc: Global,
    bitmap: &TrackedBitmap,
    harvester: &mut Harvester,
    marker: &mut Marker,
    unit: usize,
) -> Result<(), Fail>
    requires unit { unit ≤ 0x40000000 }
    requires marker { IsMarkerOf marker.old bitmap.now }
    requires harvester { IsHarvesterOf harvester.old bitmap.now }
    ensures marker { IsMarkerOf marker.new bitmap.now }
    ensures harvester { IsHarvesterOf harvester.new bitmap.now }
{
    bitmap.mark(marker, 60 * unit, 10 * unit);
    expect_told(bitmap, marker, 59 * unit, false)?;
    expect_told(bitmap, marker, 60 * unit, true)?;
    expect_told(bitmap, marker, 64 * unit, false)?;
    expect_taken(alloc, bitmap, harvester, 2, &[(1, 0xf000_0000)])?;
    bitmap.mark(marker, 60 * unit, unit);
    bitmap.mark(marker, 45 * unit, 0);
    expect_told(bitmap, marker, 60 * unit, true)?;
    expect_told(bitmap, marker, 61 * unit, false)?;
    bitmap.mark(marker, 31 * unit, 2 * unit);
    expect_told(bitmap, marker, 31 * unit, true)?;
    expect_told(bitmap, marker, 32 * unit, true)?;
    expect_told(bitmap, marker, 33 * unit, false)?;
    expect_told(bitmap, marker, usize::MAX, false)
}

#[test]
fn rounds_of_one_marker(rt: HostRuntime) -> Result<(), Fail> {
    for unit in [1usize, 0x4000_0000] {
        let (bitmap, mut harvester, mut markers) = TrackedBitmap::new(
            rt.alloc(),
            64 * unit,
            NonZeroUsize::new(unit).ok_or("a page has no bytes")?,
            1,
        )?;
        let Some(mut marker) = next_marker(&bitmap, &mut markers) else {
            return Err(Fail::new("there is no marker"));
        };
        expect_rounds(rt.alloc(), &bitmap, &mut harvester, &mut marker, unit)?;
        bitmap.join(&mut harvester, marker);
        let wanted = [(0, 0x8000_0000), (1, 0x1000_0001)];
        expect_left(rt.alloc(), bitmap, harvester, 2, &wanted)?;
    }
    Ok(())
}

#[test]
fn a_marker_sees_the_mark_of_another(rt: HostRuntime) -> Result<(), Fail> {
    let (bitmap, mut harvester, mut markers) = TrackedBitmap::new(
        rt.alloc(),
        64,
        NonZeroUsize::MIN,
        2,
    )?;
    let Some(mut one) = next_marker(&bitmap, &mut markers) else {
        return Err(Fail::new("there is no marker"));
    };
    let Some(mut other) = next_marker(&bitmap, &mut markers) else {
        return Err(Fail::new("there is no other marker"));
    };
    bitmap.mark(&mut one, 3, 1);
    expect_told(&bitmap, &mut other, 3, true)?;
    bitmap.meet(&mut one, &mut harvester);
    expect_taken(rt.alloc(), &bitmap, &mut harvester, 2, &[(0, 8)])?;
    expect_told(&bitmap, &mut other, 3, false)
}

// Takes the last of the markers, before it marked anything.
fn new_marker_of(bitmap: &TrackedBitmap, markers: &mut Vec<Marker>) -> Option<Marker>
    requires { AreNewOf markers.old.items bitmap.now }
    ensures { IfSome result (λ m. IsNewOf m bitmap.now) }
{
    markers.pop()
}

// What is left of a bitmap whose one marker marked nothing. That no page is follows from the contracts of its calls.
fn left_unmarked(alloc: Global, pages: usize) -> Result<Vec<u32>, Fail>
    ensures { IfOk result (λ words. HaveNoPage words.items) }
{
    let (bitmap, mut harvester, mut markers) = TrackedBitmap::new(
        alloc,
        pages,
        NonZeroUsize::MIN,
        1,
    )?;
    let Some(marker) = new_marker_of(&bitmap, &mut markers) else {
        return Err(Fail::new("there is no marker"));
    };
    bitmap.join(&mut harvester, marker);
    match bitmap.close(harvester, alloc) {
        Ok(words) => Ok(words),
        Err(_) => Err(Fail::new("allocation failed")),
    }
}

#[test]
fn no_page_is_left_that_nobody_marked(rt: HostRuntime) -> Result<(), Fail> {
    let words = left_unmarked(rt.alloc(), 65)?;
    expect_words(words.as_slice(), 3, &[])
}

// Marks and harvests of many pages, the last of which, of this number, is the first of its word.
fn expect_many(
    alloc: Global,
    bitmap: &TrackedBitmap,
    harvester: &mut Harvester,
    one: &mut Marker,
    other: &mut Marker,
    last: usize,
) -> Result<(), Fail>
    requires one { IsMarkerOf one.old bitmap.now }
    requires other { IsMarkerOf other.old bitmap.now }
    requires harvester { IsHarvesterOf harvester.old bitmap.now }
    ensures harvester { IsHarvesterOf harvester.new bitmap.now }
{
    let words = last.div_ceil(32).saturating_add(1);
    bitmap.mark(one, 0xffff, 2);
    bitmap.mark(other, 0x1_0000, 1);
    expect_told(bitmap, one, 0x1_0000, true)?;
    expect_taken(
        alloc,
        bitmap,
        harvester,
        words,
        &[(0x7ff, 0x8000_0000), (0x800, 1)],
    )?;
    bitmap.mark(other, last, usize::MAX);
    bitmap.mark(one, 0x3_0021, 0);
    expect_told(bitmap, one, last, true)?;
    expect_taken(alloc, bitmap, harvester, words, &[(last / 32, 1)])?;
    bitmap.mark(other, last, 1);
    expect_told(bitmap, one, 0x1_0000, false)?;
    expect_told(bitmap, one, last.saturating_add(1), false)
}

// Of 2^20 + 1 pages, and of more than 2^22 words have.
#[test]
fn many_pages_of_many_markers(rt: HostRuntime) -> Result<(), Fail> {
    for last in [0x10_0000usize, 0x801_0020] {
        let count = last.saturating_add(1);
        let (bitmap, mut harvester, mut markers) = TrackedBitmap::new(
            rt.alloc(),
            count,
            NonZeroUsize::MIN,
            5001,
        )?;
        assert!(rt; markers.len() == 5001 && bitmap.len() == count);
        let Some(mut one) = next_marker(&bitmap, &mut markers) else {
            return Err(Fail::new("there is no marker"));
        };
        let Some(mut other) = next_marker(&bitmap, &mut markers) else {
            return Err(Fail::new("there is no other marker"));
        };
        expect_many(
            rt.alloc(),
            &bitmap,
            &mut harvester,
            &mut one,
            &mut other,
            last,
        )?;
        expect_left(
            rt.alloc(),
            bitmap,
            harvester,
            (last / 32).saturating_add(1),
            &[(last / 32, 1)],
        )?;
    }
    Ok(())
}

// Of 64 pages of a size: what is marked, which bytes are told to be dirty, and the words left.
const MARKS: [(usize, (usize, usize), &[(usize, bool)], &[(usize, u32)]); 5] = [
    (
        10,
        (319, 2),
        &[(309, false), (310, true), (329, true), (330, false)],
        &[(0, 0x8000_0000), (1, 1)],
    ),
    (10, (500, 0), &[(499, false), (500, false)], &[]),
    (
        0x4000_0000,
        (0x7_ffff_ffff, 2),
        &[
            (0x7_bfff_ffff, false),
            (0x7_c000_0000, true),
            (0x8_3fff_ffff, true),
            (0x8_4000_0000, false),
        ],
        &[(0, 0x8000_0000), (1, 1)],
    ),
    (
        0x4000_0000,
        (0xa_0000_0000, 0x2_0000_0000),
        &[
            (0x9_ffff_ffff, false),
            (0xa_0000_0000, true),
            (0xb_ffff_ffff, true),
            (0xc_0000_0000, false),
        ],
        &[(1, 0xff00)],
    ),
    (
        0x4000_0000,
        (0xc_8000_0000, 0),
        &[(0xc_7fff_ffff, false), (0xc_8000_0000, false)],
        &[],
    ),
];

// Fails where a byte is told otherwise.
fn expect_marked(marked: &MarkerBitmap, told: &[(usize, bool)]) -> Result<(), Fail> {
    for (addr, wanted) in told {
        if marked.dirty_at(*addr) != *wanted {
            return Err(Fail::new(format_args!("byte {addr:#x} is not {wanted}")));
        }
    }
    Ok(())
}

// Marks until the marker is handed back.
#[test]
fn a_marker_marks_for_a_bitmap_until_it_retires(rt: HostRuntime) -> Result<(), Fail> {
    for (page_size, (offset, len), told, left) in MARKS {
        let (bitmap, mut harvester, mut markers) = TrackedBitmap::new(
            rt.alloc(),
            page_size.saturating_mul(64),
            NonZeroUsize::new(page_size).ok_or("a page has no bytes")?,
            1,
        )?;
        let marker = next_marker(&bitmap, &mut markers).ok_or("there is no marker")?;
        let shared = Arc::new(rt.alloc(), bitmap)?;
        let mut marked = MarkerBitmap::new(shared, marker);
        marked.mark_dirty(offset, len);
        expect_marked(&marked, told)?;
        marked.meet(&mut harvester);
        let (shared, marker) = marked.retire().ok_or("there is no marker")?;
        assert!(rt; marked.retire().is_none());
        marked.mark_dirty(0, 1);
        assert!(rt; !marked.dirty_at(offset));
        let bitmap = Arc::into_inner(shared).ok_or("somebody else has the bitmap")?;
        bitmap.join(&mut harvester, marker);
        expect_left(rt.alloc(), bitmap, harvester, 2, left)?;
    }
    Ok(())
}
