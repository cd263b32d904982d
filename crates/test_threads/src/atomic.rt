//! An `AtomicBitmap` of which four threads change pages, while one harvests or none.

use crate::marks::{DONE, HARVESTS, MET, Marks, Tally, Work, meet};
use std::alloc::Global;
use std::num::NonZeroUsize;
use std::sync::atomic::{AtomicUsize, Ordering};
use std::test::Fail;
use std::thread::{self, Threads};
use vm_memory::AtomicBitmap;

// How a thread changes its pages: it sets them or clears them, by lots or one by one.
#[derive(Clone, Copy)]
enum Change {
    SetLots,
    SetEach,
    ClearLots,
    ClearEach,
}

use Change::{ClearEach, ClearLots, SetEach, SetLots};

// Changes pages, so many from one on.
fn change_run(bitmap: &AtomicBitmap, change: Change, start: usize, len: usize) {
    let end = start.saturating_add(len);
    match change {
        SetLots => bitmap.set_addr_range(start, len),
        ClearLots => bitmap.reset_addr_range(start, len),
        SetEach => (start..end).for_each(|page| bitmap.set_bit(page)),
        ClearEach => (start..end).for_each(|page| bitmap.reset_bit(page)),
    }
}

// Changes the pages of a thread.
fn change_pages(bitmap: &AtomicBitmap, change: Change, thread: usize, work: &Work) {
    meet(&work.gate, MET);
    for number in 0..work.marks.count(thread) {
        let (start, len) = work.marks.run_of(thread, number);
        change_run(bitmap, change, start, len);
    }
    work.gate.fetch_add(1, Ordering::SeqCst);
}

// Changes the pages of the four threads.
fn change_all<R: Sync + Threads>(rt: &R, bitmap: &AtomicBitmap, changes: [Change; 4], work: &Work) {
    let [first, second, third, fourth] = changes;
    thread::join(
        rt,
        || {
            thread::join(
                rt,
                || change_pages(bitmap, first, 0, work),
                || change_pages(bitmap, second, 1, work),
            )
        },
        || {
            thread::join(
                rt,
                || change_pages(bitmap, third, 2, work),
                || change_pages(bitmap, fourth, 3, work),
            )
        },
    );
}

// Harvests until all threads have marked their pages.
fn harvested(alloc: Global, bitmap: &AtomicBitmap, mut tally: Tally, gate: &AtomicUsize) -> Tally {
    meet(gate, MET);
    for _ in 0..HARVESTS {
        if gate.load(Ordering::SeqCst) >= DONE {
            break;
        }
        match bitmap.get_and_reset(alloc) {
            Ok(words) => tally.add(64, words.as_slice(), gate.load(Ordering::SeqCst) < DONE),
            Err(_) => tally.failed = true,
        }
    }
    tally
}

/// How many harvests took pages while threads marked. Fails if an `AtomicBitmap`, marked by four threads while one
/// harvests, loses or invents a page, or gives one too often.
pub fn expect_atomic<R: Sync + Threads>(
    rt: &R,
    alloc: Global,
    marks: &Marks,
) -> Result<usize, Fail> {
    let bitmap = AtomicBitmap::new(alloc, marks.pages, NonZeroUsize::MIN)?;
    let tally = Tally::new(alloc, marks.pages)?;
    let work = Work {
        marks: *marks,
        gate: AtomicUsize::new(0),
    };
    let changes = [SetLots, SetEach, SetLots, SetEach];
    let (_, mut tally) = thread::join(
        rt,
        || change_all(rt, &bitmap, changes, &work),
        || harvested(alloc, &bitmap, tally, &work.gate),
    );
    tally.add(64, bitmap.get_and_reset(alloc)?.as_slice(), false);
    tally.expect(marks, false)?;
    Ok(tally.taken)
}

/// Fails if an `AtomicBitmap`, of which two threads clear pages while two set others, loses or invents a page. All
/// pages that neither sets are set before, also those right before and after the cleared ones.
pub fn expect_cleared<R: Sync + Threads>(rt: &R, alloc: Global, marks: &Marks) -> Result<(), Fail> {
    let bitmap = AtomicBitmap::new(alloc, marks.pages, NonZeroUsize::MIN)?;
    for page in 0..marks.pages {
        if marks.owners(page, 2, 4) == 0 {
            bitmap.set_bit(page);
        }
    }
    let work = Work {
        marks: *marks,
        gate: AtomicUsize::new(1),
    };
    let changes = [ClearLots, ClearEach, SetLots, SetEach];
    change_all(rt, &bitmap, changes, &work);
    let mut tally = Tally::new(alloc, marks.pages)?;
    tally.add(64, bitmap.get_and_reset(alloc)?.as_slice(), false);
    tally.expect(marks, true)
}

// What a thread changes in each word: pages from one on, so many.
type Part = (Change, usize, usize);

// What two threads change in each word, how many of its first pages are dirty before, and the word after both.
const PAIRS: [([Part; 2], usize, u64); 8] = [
    ([(SetLots, 0, 64), (SetLots, 0, 64)], 0, u64::MAX),
    ([(SetLots, 0, 32), (SetLots, 32, 32)], 0, u64::MAX),
    ([(SetLots, 0, 64), (SetEach, 16, 32)], 0, u64::MAX),
    ([(SetEach, 0, 32), (SetEach, 32, 32)], 0, u64::MAX),
    ([(SetLots, 32, 32), (ClearLots, 0, 32)], 32, !0xffff_ffff),
    ([(SetEach, 32, 32), (ClearEach, 0, 32)], 32, !0xffff_ffff),
    ([(SetLots, 32, 32), (ClearEach, 0, 32)], 32, !0xffff_ffff),
    ([(ClearLots, 0, 32), (ClearEach, 32, 32)], 64, 0),
];

// How many words two threads change.
const WORDS: usize = 200;

// Changes the pages of a thread in each word, once the other has come.
fn change_words(bitmap: &AtomicBitmap, part: Part, gate: &AtomicUsize) {
    let (change, first, len) = part;
    meet(gate, 2);
    for number in 0..WORDS {
        change_run(
            bitmap,
            change,
            number.wrapping_mul(64).wrapping_add(first),
            len,
        );
    }
}

/// Fails if an `AtomicBitmap`, of which two threads change pages of the same words, so often, loses or invents a page.
/// Both go from word to word at once, so that each changes a word between two steps of the other.
pub fn expect_shared_words<R: Sync + Threads>(
    rt: &R,
    alloc: Global,
    times: usize,
) -> Result<(), Fail> {
    for number in 0..times {
        for ([one, other], before, wanted) in PAIRS {
            let bitmap = AtomicBitmap::new(alloc, 64 * WORDS, NonZeroUsize::MIN)?;
            for word in 0..WORDS {
                bitmap.set_addr_range(word.wrapping_mul(64), before);
            }
            let gate = AtomicUsize::new(0);
            thread::join(
                rt,
                || change_words(&bitmap, one, &gate),
                || change_words(&bitmap, other, &gate),
            );
            for word in bitmap.get_and_reset(alloc)? {
                if word != wanted {
                    return Err(Fail::new(format_args!(
                        "time {number}: a word is {word:#x}, not {wanted:#x}"
                    )));
                }
            }
        }
    }
    Ok(())
}
