//! Bitmaps that are marked through shared references.

use crate::bitmaps::{MANY_WORDS, has_two_pages};
use std::num::NonZeroUsize;
use std::test::Fail;
use vm_memory_base::{AtomicBitmap, Bitmap, NewBitmap, SharedBitmap, event_law};

// What is done to a bitmap.
#[derive(Clone, Copy)]
enum Step {
    SetRange(usize, usize),
    ResetRange(usize, usize),
    Mark(usize, usize),
    MarkShared(usize, usize),
    Set(usize),
    Reset(usize),
    ResetAll,
    Enlarge(usize),
}

// A bitmap of so many bytes in pages of this size, what is done to it, its length and size then, and its words.
struct Case {
    bytes: usize,
    page_size: usize,
    steps: &'static [Step],
    told: (usize, usize),
    words: &'static [u64],
}

const CASES: [Case; 26] = [
    Case {
        bytes: 1025,
        page_size: 128,
        steps: &[Step::SetRange(0, usize::MAX), Step::Set(9), Step::Set(64)],
        told: (9, 1025),
        words: &[0x1ff],
    },
    Case {
        bytes: 1024,
        page_size: 128,
        steps: &[Step::SetRange(128, 129)],
        told: (8, 1024),
        words: &[0b110],
    },
    Case {
        bytes: 1024,
        page_size: 128,
        steps: &[Step::SetRange(128, 129), Step::ResetRange(128, 129)],
        told: (8, 1024),
        words: &[0],
    },
    Case {
        bytes: 1024,
        page_size: 128,
        steps: &[
            Step::SetRange(0, 1024),
            Step::ResetRange(255, 2),
            Step::Reset(7),
            Step::Reset(8),
        ],
        told: (8, 1024),
        words: &[0b111_1001],
    },
    Case {
        bytes: 1024,
        page_size: 128,
        steps: &[
            Step::SetRange(128, 129),
            Step::ResetAll,
            Step::SetRange(0, 0),
        ],
        told: (8, 1024),
        words: &[0],
    },
    // A mark goes no further than the last page.
    Case {
        bytes: 1024,
        page_size: 1,
        steps: &[Step::SetRange(768, 512)],
        told: (1024, 1024),
        words: &[
            0,
            0,
            0,
            0,
            0,
            0,
            0,
            0,
            0,
            0,
            0,
            0,
            u64::MAX,
            u64::MAX,
            u64::MAX,
            u64::MAX,
        ],
    },
    Case {
        bytes: 200,
        page_size: 1,
        steps: &[
            Step::SetRange(60, 10),
            Step::SetRange(190, usize::MAX),
            Step::SetRange(200, 1),
        ],
        told: (200, 200),
        words: &[0xf000_0000_0000_0000, 0x3f, 0xc000_0000_0000_0000, 0xff],
    },
    Case {
        bytes: 200,
        page_size: 1,
        steps: &[
            Step::SetRange(0, 200),
            Step::ResetRange(64, 64),
            Step::ResetRange(199, usize::MAX),
        ],
        told: (200, 200),
        words: &[u64::MAX, 0, u64::MAX, 0x7f],
    },
    // More pages are clean, and those that were there stay as they are.
    Case {
        bytes: 0x2000,
        page_size: 128,
        steps: &[
            Step::SetRange(128, 129),
            Step::Set(64),
            Step::Enlarge(0x2000),
        ],
        told: (128, 0x4000),
        words: &[0b110, 0],
    },
    Case {
        bytes: 0x2000,
        page_size: 128,
        steps: &[
            Step::Enlarge(0x2000),
            Step::Set(55),
            Step::SetRange(65 * 128, 0x4000),
        ],
        told: (128, 0x4000),
        words: &[1 << 55, u64::MAX - 1],
    },
    Case {
        bytes: 0x2000,
        page_size: 128,
        steps: &[
            Step::Enlarge(0x2000),
            Step::SetRange(0, 0x4000),
            Step::ResetRange(0, 0x4000),
        ],
        told: (128, 0x4000),
        words: &[0, 0],
    },
    // The last page has room for 127 bytes more.
    Case {
        bytes: 1025,
        page_size: 128,
        steps: &[
            Step::SetRange(1024, 1),
            Step::Enlarge(127),
            Step::Enlarge(0),
        ],
        told: (9, 1152),
        words: &[0x100],
    },
    Case {
        bytes: 130,
        page_size: 1,
        steps: &[Step::SetRange(0, 200), Step::Enlarge(3), Step::Set(131)],
        told: (133, 133),
        words: &[u64::MAX, u64::MAX, 0b1011],
    },
    Case {
        bytes: 0,
        page_size: 1,
        steps: &[Step::SetRange(0, 1), Step::Set(0), Step::ResetRange(0, 1)],
        told: (0, 0),
        words: &[],
    },
    // Pages that there are not yet are not marked, and none of them shows later.
    Case {
        bytes: 130,
        page_size: 1,
        steps: &[
            Step::Set(129),
            Step::Set(130),
            Step::Set(131),
            Step::SetRange(130, 9),
            Step::Enlarge(9),
        ],
        told: (139, 139),
        words: &[0, 0, 0b10],
    },
    // A page that is marked twice is dirty, and a clean one that is cleared is clean.
    Case {
        bytes: 130,
        page_size: 1,
        steps: &[
            Step::SetRange(60, 10),
            Step::SetRange(65, 10),
            Step::Set(66),
            Step::Set(66),
            Step::Set(67),
            Step::Reset(3),
            Step::ResetRange(80, 4),
            Step::ResetRange(63, 2),
        ],
        told: (130, 130),
        words: &[0x7000_0000_0000_0000, 0x7fe, 0],
    },
    // What lies beside pages that are cleared stays, within a word and across words.
    Case {
        bytes: 200,
        page_size: 1,
        steps: &[
            Step::SetRange(0, 200),
            Step::ResetRange(10, 33),
            Step::ResetRange(64, 63),
            Step::ResetRange(190, 5),
        ],
        told: (200, 200),
        words: &[
            0xffff_f800_0000_03ff,
            0x8000_0000_0000_0000,
            0x3fff_ffff_ffff_ffff,
            0xf8,
        ],
    },
    // Marks and resets of no byte.
    Case {
        bytes: 200,
        page_size: 3,
        steps: &[
            Step::SetRange(0, 0),
            Step::SetRange(100, 0),
            Step::Set(20),
            Step::ResetRange(60, 0),
            Step::SetRange(199, 0),
        ],
        told: (67, 200),
        words: &[1 << 20, 0],
    },
    // A mark whose end is no offset goes on to the last page.
    Case {
        bytes: 200,
        page_size: 100,
        steps: &[
            Step::MarkShared(199, usize::MAX),
            Step::MarkShared(usize::MAX, 3),
        ],
        told: (2, 200),
        words: &[0b10],
    },
    Case {
        bytes: 200,
        page_size: 100,
        steps: &[
            Step::Mark(99, 1),
            Step::MarkShared(0, 0),
            Step::Mark(100, 0),
        ],
        told: (2, 200),
        words: &[0b1],
    },
    // Pages that fill a word are dirty when there is one more, and when a second word is full.
    Case {
        bytes: 64,
        page_size: 1,
        steps: &[Step::SetRange(62, 2), Step::Enlarge(1)],
        told: (65, 65),
        words: &[0xc000_0000_0000_0000, 0],
    },
    Case {
        bytes: 1,
        page_size: 1,
        steps: &[
            Step::Set(0),
            Step::Enlarge(62),
            Step::Set(62),
            Step::Enlarge(1),
            Step::Set(63),
            Step::Enlarge(1),
            Step::Set(64),
            Step::Enlarge(63),
            Step::Set(127),
            Step::Enlarge(1),
        ],
        told: (129, 129),
        words: &[0xc000_0000_0000_0001, 0x8000_0000_0000_0001, 0],
    },
    // Bytes far past the last page have no page, whichever of their bits are set.
    Case {
        bytes: 200,
        page_size: 1,
        steps: &[
            Step::SetRange(0x1_0000, 3),
            Step::SetRange(0x1_0000_0001, 3),
            Step::Mark(0x100_0000_0002, 3),
            Step::MarkShared(0x1_0000_0000_0003, 3),
            Step::SetRange(0x8000_0000_0000_0004, 3),
            Step::SetRange(0xffff_ffff_ffff_ff00, usize::MAX),
            Step::Set(0x1_0000_0005),
            Step::Set(0x8000_0000_0000_0006),
        ],
        told: (200, 200),
        words: &[0, 0, 0, 0],
    },
    Case {
        bytes: 200,
        page_size: 1,
        steps: &[
            Step::SetRange(0, usize::MAX),
            Step::ResetRange(0x1_0000, 3),
            Step::ResetRange(0x1_0000_0001, 3),
            Step::ResetRange(0x100_0000_0002, 3),
            Step::ResetRange(0x1_0000_0000_0003, 3),
            Step::ResetRange(0x8000_0000_0000_0004, 3),
            Step::Reset(0x1_0000_0005),
            Step::Reset(0x8000_0000_0000_0006),
        ],
        told: (200, 200),
        words: &[u64::MAX, u64::MAX, u64::MAX, 0xff],
    },
    // Pages of 2^48 bytes.
    Case {
        bytes: 0xc8_0000_0000_0000,
        page_size: 0x1_0000_0000_0000,
        steps: &[
            Step::SetRange(0x4_ffff_ffff_ffff, 2),
            Step::Mark(0xc7_0000_0000_0000, 1),
            Step::MarkShared(0x40_8000_0000_0000, 0x1_0000_0000_0000),
            Step::ResetRange(0x5_8000_0000_0000, 1),
        ],
        told: (200, 0xc8_0000_0000_0000),
        words: &[0x10, 0b11, 0, 0x80],
    },
    // Offsets and lengths past 2^32.
    Case {
        bytes: 0x30_0000_0000,
        page_size: 0x4000_0000,
        steps: &[
            Step::SetRange(0x7_ffff_ffff, 2),
            Step::MarkShared(0x10_0000_0000, 0x2_0000_0000),
            Step::Mark(0x20_0000_0000, 0x1_0000_0000),
            Step::ResetRange(0x20_4000_0000, 0x1_0000_0000),
        ],
        told: (192, 0x30_0000_0000),
        words: &[0x1_8000_0000, 0xff, 0x1],
    },
];

fn make(bitmap: &mut AtomicBitmap, step: Step) -> Result<(), Fail> {
    match step {
        Step::SetRange(start, len) => bitmap.set_addr_range(start, len),
        Step::ResetRange(start, len) => bitmap.reset_addr_range(start, len),
        Step::Mark(start, len) => bitmap.mark_dirty(start, len),
        Step::MarkShared(start, len) => bitmap.mark_shared(start, len),
        Step::Set(index) => bitmap.set_bit(index),
        Step::Reset(index) => bitmap.reset_bit(index),
        Step::ResetAll => bitmap.reset(),
        Step::Enlarge(more) => {
            if bitmap.byte_size().checked_add(more).is_none() {
                return Err(Fail::new("the size has more than 64 bits"));
            }
            bitmap.enlarge(more)?;
        }
    }
    Ok(())
}

// Fails where a bit is not that of the words, up to a place well past them, or a byte's is not that of its page.
fn expect_bits(
    case: usize,
    bitmap: &AtomicBitmap,
    page_size: NonZeroUsize,
    words: &[u64],
) -> Result<(), Fail> {
    for page in 0..0x500usize {
        let word = words.get(page / 64);
        let told = word.is_some_and(|word| *word & (1 << (page % 64)) != 0);
        if bitmap.is_bit_set(page) != told {
            return Err(Fail::new(format_args!("case {case}: bit {page}")));
        }
        let first = page.saturating_mul(page_size.get());
        for addr in [first, first.saturating_add(page_size.get() - 1)] {
            if bitmap.is_addr_set(addr) != told || bitmap.dirty_at(addr) != told {
                return Err(Fail::new(format_args!("case {case}: byte {addr}")));
            }
        }
    }
    Ok(())
}

#[test]
fn bits_of_ranges(rt: HostRuntime) -> Result<(), Fail> {
    event_law();
    for (number, case) in CASES.iter().enumerate() {
        let page_size = NonZeroUsize::new(case.page_size).ok_or("a page has no bytes")?;
        let mut bitmap = AtomicBitmap::new(rt.alloc(), case.bytes, page_size)?;
        for step in case.steps {
            make(&mut bitmap, *step)?;
        }
        let told = (bitmap.len(), bitmap.byte_size());
        assert!(rt; told == case.told, "case {number}: {told:?}");
        let copy = bitmap.clone()?;
        expect_bits(number, &bitmap, page_size, case.words)?;
        for one in [&bitmap, &copy] {
            let words = one.get_and_reset(rt.alloc())?;
            let left = one.get_and_reset(rt.alloc())?;
            assert!(rt; words.as_slice() == case.words, "case {number}: {words:?}");
            assert!(rt; left.len() == words.len(), "case {number}: {left:?}");
            assert!(rt;
                left.iter().all(|word| *word == 0),
                "case {number}: {left:?}"
            );
        }
    }
    let bitmap = AtomicBitmap::with_len(rt.alloc(), 0x2001)?;
    assert!(rt; bitmap.len() == 3);
    let mut bitmap = AtomicBitmap::new(
        rt.alloc(),
        0x2000,
        NonZeroUsize::new(128).ok_or("the page size is zero")?,
    )?;
    assert!(rt; bitmap.len() == 64);
    bitmap.set_addr_range(0, usize::MAX);
    assert!(rt; bitmap.byte_size() == 0x2000);
    bitmap.enlarge(0x2000)?;
    assert!(rt; bitmap.len() == 128 && bitmap.byte_size() == 0x4000);
    for page in 0..200usize {
        assert!(rt; bitmap.is_bit_set(page) == (page < 64));
    }
    Ok(())
}

// Of so many pages those from one up to another. The last ones are not there.
const PAGES: [(usize, usize, usize); 3] = [
    (133, 0, 140),
    (0x10_0001, 0xfffe, 0x1_0003),
    (0x10_0001, 0xf_ffff, 0x10_0003),
];

// One page of one byte by each call. Before it is cleared the pages of its word are dirty.
#[test]
fn single_pages(rt: HostRuntime) -> Result<(), Fail> {
    for (count, first, end) in PAGES {
        let mut bitmap = AtomicBitmap::new(rt.alloc(), count, NonZeroUsize::MIN)?;
        for page in first..end {
            let bit = if page < count { 1 << (page % 64) } else { 0 };
            let start = page.saturating_sub(page % 64);
            let left = count.saturating_sub(start);
            let all = if left < 64 {
                (1u64 << left).wrapping_sub(1)
            } else {
                u64::MAX
            };
            let steps = [
                (Step::Set(page), bit),
                (Step::SetRange(page, 1), bit),
                (Step::Mark(page, 1), bit),
                (Step::MarkShared(page, 1), bit),
                (Step::Reset(page), all & !bit),
                (Step::ResetRange(page, 1), all & !bit),
            ];
            for (number, (step, wanted)) in steps.iter().enumerate() {
                if 4 <= number {
                    bitmap.set_addr_range(start, 64);
                }
                make(&mut bitmap, *step)?;
                let dirty = page < count && number < 4;
                let is_told = bitmap.is_bit_set(page) == dirty
                    && bitmap.is_addr_set(page) == dirty
                    && bitmap.dirty_at(page) == dirty;
                assert!(rt; is_told, "step {number} of page {page}");
                let words = bitmap.get_and_reset(rt.alloc())?;
                for (k, word) in words.iter().enumerate() {
                    let wanted = if k == page / 64 { *wanted } else { 0 };
                    assert!(rt; *word == wanted, "step {number} of page {page}: {word:#x}");
                }
            }
        }
    }
    Ok(())
}

// Marks and takes so many pages of one byte, of which the last is left out once and taken once.
#[test]
fn many_pages(rt: HostRuntime) -> Result<(), Fail> {
    let count = 0x10_0001;
    let bitmap = AtomicBitmap::new(rt.alloc(), count, NonZeroUsize::MIN)?;
    bitmap.set_addr_range(0, count - 1);
    let words = bitmap.get_and_reset(rt.alloc())?;
    assert!(rt; words.len() == 0x4001 && words.last() == Some(&0));
    assert!(rt; words.iter().take(0x4000).all(|word| *word == u64::MAX));
    bitmap.set_addr_range(0x1_0001, usize::MAX);
    bitmap.reset_addr_range(0x1_0041, 0xe_ffbf);
    bitmap.set_bit(count);
    assert!(rt; bitmap.is_addr_set(0x1_0001) && bitmap.is_bit_set(count - 1));
    let copy = bitmap.clone()?;
    for one in [&copy, &bitmap] {
        let words = one.get_and_reset(rt.alloc())?;
        for (number, word) in words.iter().enumerate() {
            let wanted = match number {
                0x400 => u64::MAX - 1,
                0x401 | 0x4000 => 1,
                _ => 0,
            };
            assert!(rt; *word == wanted, "word {number}");
        }
    }
    copy.set_addr_range(0, usize::MAX);
    copy.reset();
    let words = copy.get_and_reset(rt.alloc())?;
    assert!(rt; words.iter().all(|word| *word == 0));
    let mut large = AtomicBitmap::with_len(rt.alloc(), 0x1_0000_1000)?;
    assert!(rt; large.len() == count && large.byte_size() == 0x1_0000_1000);
    large.set_addr_range(0xffff_ffff, 2);
    large.enlarge(0x1000)?;
    assert!(rt; large.len() == 0x10_0002 && large.byte_size() == 0x1_0000_2000);
    assert!(rt; large.is_bit_set(count - 2) && large.is_bit_set(count - 1));
    assert!(rt; !large.is_bit_set(count));
    Ok(())
}

// More words than 2^22, two of which have a page.
#[test]
fn many_words(rt: HostRuntime) -> Result<(), Fail> {
    let bitmap = AtomicBitmap::new(rt.alloc(), MANY_WORDS, NonZeroUsize::MIN)?;
    bitmap.set_addr_range(0x1000_0000, 1);
    bitmap.set_bit(MANY_WORDS - 1);
    let copy = bitmap.clone()?;
    for one in [&copy, &bitmap] {
        let words = one.get_and_reset(rt.alloc())?;
        assert!(rt; has_two_pages(words.as_slice()));
        let left = one.get_and_reset(rt.alloc())?;
        assert!(rt; left.iter().all(|word| *word == 0));
    }
    Ok(())
}
