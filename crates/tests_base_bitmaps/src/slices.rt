//! Slices of bitmaps, and bitmaps in options.

use std::num::NonZeroUsize;
use std::sync::Arc;
use std::test::Fail;
use test_text::expect_text;
use vm_memory_base::{ArcSlice, AtomicBitmap, BaseSlice, Bitmap, RefSlice, SharedBitmap};

// How many pages the bitmaps have.
const PAGES: usize = 0x3000;

// Fails where a bitmap tells other pages to be dirty than those of a range: its start and its length.
fn expect_range<B: Bitmap>(
    case: usize,
    bitmap: &B,
    page_size: usize,
    (start, len): (usize, usize),
) -> Result<(), Fail> {
    for page in 0..PAGES + 8 {
        let wanted = start <= page && page - start < len;
        let first = page.saturating_mul(page_size);
        let last = first.saturating_add(page_size.saturating_sub(1));
        if bitmap.dirty_at(first) != wanted || bitmap.dirty_at(last) != wanted {
            return Err(Fail::new(format_args!("case {case}: page {page:#x}")));
        }
    }
    Ok(())
}

// Marks by the one way or the other.
fn mark<B: SharedBitmap>(bitmap: &mut B, is_shared: bool, (offset, len): (usize, usize)) {
    if is_shared {
        bitmap.mark_shared(offset, len);
    } else {
        bitmap.mark_dirty(offset, len);
    }
}

// The size of large pages, of which few lie below 2^32.
const LARGE: usize = 0x4000_0000;

// The size of pages, where a slice begins, what it marks, and which pages are dirty then.
const MARKS: [(usize, usize, (usize, usize), (usize, usize)); 20] = [
    (1, 0x400, (0, 0x100), (0x400, 0x100)),
    (1, 0x400, (0, 0), (0, 0)),
    (1, 0x400, (0x10, 0x1001), (0x410, 0x1001)),
    (1, 0, (0x2, 0x1800), (0x2, 0x1800)),
    (1, 0x400, (0x2bff, 1), (0x2fff, 1)),
    (1, 0x400, (0x2c00, 1), (0, 0)),
    (1, 0x400, (0x1000, usize::MAX), (0x1400, 0x1c00)),
    (1, usize::MAX, (1, 1), (0, 1)),
    (1, usize::MAX, (0, 1), (0, 0)),
    (1, usize::MAX, (0, 0x1800), (0, 0)),
    (1, usize::MAX, (0x11, 0x1800), (0x10, 0x1800)),
    (1, usize::MAX - 3, (4, usize::MAX), (0, PAGES)),
    (1, usize::MAX - 3, (3, usize::MAX), (0, 0)),
    (1, 0x10, (usize::MAX - 0xf, 0x1234), (0, 0x1234)),
    (1, 0x10, (usize::MAX - 0x10, 0x1234), (0, 0)),
    (
        LARGE,
        0x8_0000_0000,
        (0x2_0000_0000, 0x1_0000_0001),
        (40, 5),
    ),
    (LARGE, 0x7_ffff_ffff, (0x1_0000_0000, 2), (35, 2)),
    (LARGE, 0, (0x1_0000_0000, 0x30_0000_0000), (4, 0xc0)),
    (
        LARGE,
        0xffff_fff0_0000_0000,
        (0x14_0000_0000, 0x2_0000_0000),
        (16, 8),
    ),
    (LARGE, 0x8_0000_0000, (0x2_0000_0000, 0), (0, 0)),
];

// Makes each mark by a slice, and fails where the bitmap tells other pages, or the slice others on from its start.
#[test]
fn slices_mark_further_on(rt: HostRuntime) -> Result<(), Fail> {
    for (case, (page_size, base, range, wanted)) in MARKS.iter().enumerate() {
        let size = NonZeroUsize::new(*page_size).ok_or("a page has no bytes")?;
        let bitmap = AtomicBitmap::new(rt.alloc(), page_size.saturating_mul(PAGES), size)?;
        for is_shared in [false, true] {
            let mut slice = RefSlice::new(&bitmap, *base);
            mark(&mut slice, is_shared, *range);
            expect_range(case, &bitmap, *page_size, *wanted)?;
            expect_range(case, &RefSlice::new(&bitmap, 0), *page_size, *wanted)?;
            for page in 0..PAGES {
                let offset = page.saturating_mul(*page_size);
                if slice.dirty_at(offset) != bitmap.dirty_at(base.wrapping_add(offset)) {
                    return Err(Fail::new(format_args!("case {case}: slice {offset:#x}")));
                }
            }
            let words = bitmap.get_and_reset(rt.alloc())?;
            let count = words.iter().fold(
                0u32,
                |count, word| count.saturating_add(word.count_ones()),
            );
            if count as usize != wanted.1 {
                return Err(Fail::new(format_args!("case {case}: these are not all")));
            }
        }
    }
    Ok(())
}

// Marks without a slice: of a bitmap that may be missing, and of the bitmap.
#[test]
fn options_mark_what_they_hold(rt: HostRuntime) -> Result<(), Fail> {
    for (case, (page_size, base, (offset, len), wanted)) in MARKS.iter().enumerate() {
        let size = NonZeroUsize::new(*page_size).ok_or("a page has no bytes")?;
        let bytes = page_size.saturating_mul(PAGES);
        let range = (base.wrapping_add(*offset), *len);
        for is_shared in [false, true] {
            let mut bitmap = AtomicBitmap::new(rt.alloc(), bytes, size)?;
            mark(&mut bitmap, is_shared, range);
            expect_range(case, &bitmap, *page_size, *wanted)?;
            bitmap.reset();
            let mut held = Some(bitmap);
            mark(&mut held, is_shared, range);
            expect_range(case, &held, *page_size, *wanted)?;
        }
    }
    for is_shared in [false, true] {
        let mut none: Option<AtomicBitmap> = None;
        mark(&mut none, is_shared, (0, usize::MAX));
        expect_range(0, &none, 1, (0, 0))?;
        mark(&mut (), is_shared, (0, usize::MAX));
        expect_range(1, &(), 1, (0, 0))?;
    }
    Ok(())
}

// Slices tell what the bitmap and other slices of it marked.
#[test]
fn slices_tell_further_on(rt: HostRuntime) -> Result<(), Fail> {
    let mut bitmap = AtomicBitmap::new(rt.alloc(), 0x800, NonZeroUsize::MIN)?;
    bitmap.mark_dirty(0x400, 0x100);
    let whole = RefSlice::new(&bitmap, 0);
    expect_range(0, &whole, 1, (0x400, 0x100))?;
    expect_range(1, &whole.slice_at(0x400)?, 1, (0, 0x100))?;
    bitmap.reset();
    let mut half = whole.slice_at(0x400)?;
    let same = whole;
    half.mark_dirty(0, 0x100);
    expect_range(2, &same, 1, (0x400, 0x100))?;
    expect_range(3, &half, 1, (0, 0x100))?;
    expect_range(4, &whole.slice_at(0x3f0)?.slice_at(8)?, 1, (8, 0x100))?;
    bitmap.reset();
    let bitmap = Arc::new(rt.alloc(), bitmap)?;
    let mut last: ArcSlice<AtomicBitmap> = BaseSlice::new(bitmap.clone()?, usize::MAX);
    last.mark_dirty(1, 1);
    expect_range(0, &*bitmap, 1, (0, 1))?;
    last.mark_dirty(0, 1);
    expect_range(1, &*bitmap, 1, (0, 1))?;
    let first = last.slice_at(2)?;
    first.mark_shared(0, 1);
    expect_range(2, &*bitmap, 1, (0, 2))?;
    expect_range(3, &first.slice_at(usize::MAX)?, 1, (0, 2))?;
    let text = format!(in rt.alloc(); "{first:?}")?;
    expect_text(4, text.as_str(), "(bitmap slice)")?;
    let none: BaseSlice<u8> = BaseSlice::default();
    let text = format!(in rt.alloc(); "{none:?}")?;
    expect_text(5, text.as_str(), "(bitmap slice)")
}
