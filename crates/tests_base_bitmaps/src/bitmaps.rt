//! Bitmaps with one owner.

use std::alloc::{AllocError, Global};
use std::num::NonZeroUsize;
use std::process::Abort;
use std::test::Fail;
use vm_memory_base::{Bitmap, BitmapId, BitmapRef, ExactBitmap, ExclusiveBitmap, NewBitmap};

// Makes marks of a clean bitmap of this page size and number of pages, and takes the dirty pages: the first ones, so
// many. The bytes before and after their end are told as they are.
fn harvests_first<B: ExactBitmap>(
    rt: &impl Abort,
    bitmap: &mut B,
    alloc: Global,
    shape: (usize, usize),
    (marks, count): (&[(usize, usize)], usize),
) -> Result<(), AllocError> {
    for (offset, len) in marks {
        bitmap.mark_dirty(*offset, *len);
    }
    assert!(rt; bitmap.shape() == Some(shape));
    let end = shape.0.saturating_mul(count);
    assert!(rt;
        bitmap.dirty_at(end.saturating_sub(1)) && !bitmap.dirty_at(end),
        "{count} pages"
    );
    let told = bitmap.dirty_pages(alloc)?;
    let taken = bitmap.harvest(alloc)?;
    assert!(rt;
        told.len() == count && taken.as_slice() == told.as_slice(),
        "{count} pages"
    );
    assert!(rt;
        taken
            .iter()
            .enumerate()
            .all(|(number, page)| *page == number)
    );
    let left = bitmap.harvest(alloc)?;
    assert!(rt; left.len() == 0, "{count} pages");
    Ok(())
}

// What is marked beside the last page, what is cleared then, and how many words are whole. The last page stays dirty.
const TAKEN: [((usize, usize), [(usize, usize); 2], usize); 3] = [
    ((0, 0x1_0000), [(0, 0), (0x10, 0)], 0x400),
    (
        (0, usize::MAX),
        [(0x1_0000, 0x8_0000), (0x9_0000, 0x7_0000)],
        0x400,
    ),
    ((0, usize::MAX), [(0, 0), (0x10, 0)], 0x4000),
];

#[test]
fn many_pages_are_harvested(rt: HostRuntime) -> Result<(), Fail> {
    for count in [0x1_0000, 0x10_0001] {
        let mut bitmap = ExclusiveBitmap::new(rt.alloc(), count, NonZeroUsize::MIN)?;
        let whole = [(0, count)];
        harvests_first(&rt, &mut bitmap, rt.alloc(), (1, count), (&whole, count))?;
        for ((offset, len), resets, low) in TAKEN {
            bitmap.mark_dirty(offset, len);
            bitmap.mark_dirty(count - 1, usize::MAX);
            for (offset, len) in resets {
                bitmap.reset_addr_range(offset, len);
            }
            let words = bitmap.get_and_reset(rt.alloc())?;
            for (number, word) in words.iter().enumerate() {
                let last = if number == 0x4000 { 1 } else { 0 };
                let wanted = if number < low { u64::MAX } else { last };
                assert!(rt; *word == wanted, "word {number} beside {low:#x}");
            }
            assert!(rt; words.len() == count.div_ceil(64));
        }
        harvests_first(
            &rt,
            &mut Some(bitmap),
            rt.alloc(),
            (1, count),
            (&whole, count),
        )?;
    }
    for (bytes, pages) in [(0x4000_0000, 0x4_0000), (0x1_0000_1000, 0x10_0001)] {
        let large = ExclusiveBitmap::with_len(rt.alloc(), bytes)?;
        assert!(rt;
            large.len() == pages && large.byte_size() == bytes,
            "{pages} pages"
        );
    }
    Ok(())
}

/// So many pages have more words than 2^22.
pub const MANY_WORDS: usize = 0x1001_0041;

/// Whether words are those of `MANY_WORDS` pages, of which page 2^28 and the last are dirty.
pub fn has_two_pages(words: &[u64]) -> bool {
    words.len() == 0x40_0402
        && words.iter().enumerate().all(|(number, word)| {
            *word
                == if number == 0x40_0000 || number == 0x40_0401 {
                    1
                } else {
                    0
                }
        })
}

#[test]
fn many_words_are_taken(rt: HostRuntime) -> Result<(), Fail> {
    let mut bitmap = ExclusiveBitmap::new(rt.alloc(), MANY_WORDS, NonZeroUsize::MIN)?;
    for page in [0x1000_0000, MANY_WORDS - 1] {
        bitmap.mark_dirty(page, 1);
    }
    let pages = [0x1000_0000, MANY_WORDS - 1];
    assert!(rt; bitmap.dirty_pages(rt.alloc())?.as_slice() == pages.as_slice());
    let words = bitmap.get_and_reset(rt.alloc())?;
    assert!(rt; has_two_pages(words.as_slice()));
    bitmap.mark_dirty(0x1000_0000, 1);
    bitmap.mark_dirty(MANY_WORDS - 1, usize::MAX);
    assert!(rt; bitmap.harvest(rt.alloc())?.as_slice() == pages.as_slice());
    let words = bitmap.get_and_reset(rt.alloc())?;
    assert!(rt; words.iter().all(|word| *word == 0));
    Ok(())
}

// A size of pages, a mark of a clean bitmap of 200 of them, and its words then.
const MARKS: [(usize, (usize, usize), [u64; 4]); 9] = [
    (1, (60, 10), [0xf000_0000_0000_0000, 0x3f, 0, 0]),
    (1, (190, usize::MAX), [0, 0, 0xc000_0000_0000_0000, 0xff]),
    (1, (0, 0), [0; 4]),
    (1, (200, 1), [0; 4]),
    (0x4000_0000, (0x7_ffff_ffff, 2), [0x1_8000_0000, 0, 0, 0]),
    (
        0x4000_0000,
        (0x10_0000_0000, 0x2_0000_0000),
        [0, 0xff, 0, 0],
    ),
    (
        0x4000_0000,
        (0x20_0000_0000, 0x1_0000_0001),
        [0, 0, 0x1f, 0],
    ),
    (0x4000_0000, (0x31_ffff_ffff, usize::MAX), [0, 0, 0, 0x80]),
    (0x4000_0000, (0x20_0000_0000, 0), [0; 4]),
];

// Whether the bit of a page is set.
fn is_set(words: &[u64], page: usize) -> bool {
    match words.get(page / 64) {
        Some(word) => *word & (1 << (page % 64)) != 0,
        None => false,
    }
}

// What a mark makes dirty a reset of the same bytes makes clean, and each byte is told as its page is.
#[test]
fn words_of_marks(rt: HostRuntime) -> Result<(), Fail> {
    for (page_size, (offset, len), wanted) in MARKS {
        let size = NonZeroUsize::new(page_size).ok_or("a page has no bytes")?;
        let bytes = page_size.saturating_mul(200);
        let mut bitmap = ExclusiveBitmap::new(rt.alloc(), bytes, size)?;
        assert!(rt; bitmap.len() == 200 && bitmap.byte_size() == bytes);
        bitmap.mark_dirty(offset, len);
        for page in 0..0x100usize {
            let dirty = is_set(wanted.as_slice(), page);
            let first = page_size.saturating_mul(page);
            let last = first.saturating_add(page_size.saturating_sub(1));
            let is_told = bitmap.dirty_at(first) == dirty && bitmap.dirty_at(last) == dirty;
            assert!(rt; is_told, "page {page} of {wanted:?}");
        }
        let words = bitmap.get_and_reset(rt.alloc())?;
        assert!(rt;
            words.as_slice() == wanted.as_slice(),
            "{words:?}, not {wanted:?}"
        );
        bitmap.mark_dirty(0, usize::MAX);
        bitmap.reset_addr_range(offset, len);
        let words = bitmap.get_and_reset(rt.alloc())?;
        let [one, two, three, four] = wanted;
        let left = [!one, !two, !three, 0xff & !four];
        assert!(rt;
            words.as_slice() == left.as_slice(),
            "{words:?}, not {left:?}"
        );
    }
    Ok(())
}

// A bitmap of 200 pages of one byte, one of three pages, as their numbers, and none.
#[test]
fn numbers_of_marks(rt: HostRuntime) -> Result<(), Fail> {
    let mut bitmap = ExclusiveBitmap::new(rt.alloc(), 200, NonZeroUsize::MIN)?;
    bitmap.mark_dirty(0, 130);
    bitmap.reset_addr_range(64, 64);
    let words = bitmap.get_and_reset(rt.alloc())?;
    assert!(rt; words.as_slice() == [u64::MAX, 0, 3, 0].as_slice());
    bitmap.mark_dirty(5, 1);
    assert!(rt; bitmap.dirty_at(5));
    bitmap.reset();
    assert!(rt; !bitmap.dirty_at(5));
    let mut bitmap = ExclusiveBitmap::with_len(rt.alloc(), 0x2001)?;
    let marks = [(0xfff, 2), (0x2000, 0)];
    harvests_first(&rt, &mut bitmap, rt.alloc(), (0x1000, 3), (&marks, 2))?;
    harvests_first(&rt, &mut Some(bitmap), rt.alloc(), (0x1000, 3), (&marks, 2))?;
    let mut none: Option<ExclusiveBitmap> = None;
    none.mark_dirty(0, 1);
    assert!(rt; !none.dirty_at(0));
    assert!(rt; none.shape().is_none());
    assert!(rt; none.dirty_pages(rt.alloc())?.len() == 0);
    assert!(rt; none.harvest(rt.alloc())?.len() == 0);
    assert!(rt; ().dirty_pages(rt.alloc())?.len() == 0);
    assert!(rt; ().harvest(rt.alloc())?.len() == 0);
    let id = BitmapId::Block(1);
    for (offset, more, base) in [(0, 0, 0), (0x10, 3, 0x13), (usize::MAX, 2, 1)] {
        let whole = BitmapRef { id, base: 0 };
        assert!(rt; whole.slice_at(offset).slice_at(more) == BitmapRef { id, base });
    }
    Ok(())
}
