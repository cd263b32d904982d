//! The pages that each of several threads changes, where the threads meet, and how often each page was harvested.

use std::alloc::{AllocError, Global};
use std::sync::atomic::{AtomicUsize, Ordering};
use std::test::Fail;
use std::thread;

/// Pages that up to four threads change, by lots: of 13 lots in a row thread `k` has `width`, from the lot `2k` on.
///
/// With a width of 1 no two threads have a page in common, and between two threads' lots lies one that none has. With
/// 3 neighbours share a lot, and with 4 two. If a lot is short, all threads share each word. As 13 is odd, runs of
/// lots with an odd number of pages begin at each place in a word, and end at each.
#[derive(Clone, Copy)]
pub struct Marks {
    /// The number of pages.
    pub pages: usize,
    /// The number of pages of a lot. None counts as one.
    pub lot: usize,
    /// The number of lots that a thread changes at once, up to 5.
    pub width: usize,
    /// The number of threads that change pages.
    pub threads: usize,
}

// How many lots in a row are dealt out.
const LOTS: usize = 13;

impl Marks {
    /// How many of these threads change a page.
    pub fn owners(&self, page: usize, from: usize, to: usize) -> usize {
        let lot = page / self.lot.max(1) % LOTS;
        let mut owners = 0usize;
        for thread in from..to.min(self.threads) {
            let first = thread.saturating_mul(2);
            if first <= lot && lot < first.saturating_add(self.width) {
                owners = owners.saturating_add(1);
            }
        }
        owners
    }

    /// How often a thread changes pages.
    pub fn count(&self, thread: usize) -> usize {
        if thread < self.threads {
            self.pages / self.lot.max(1) / LOTS + 1
        } else {
            0
        }
    }

    /// The first of the pages that a thread changes at this time, which may be past the last, and how many they are.
    pub fn run_of(&self, thread: usize, number: usize) -> (usize, usize) {
        let lots = number
            .saturating_mul(LOTS)
            .saturating_add(thread.saturating_mul(2));
        let lot = self.lot.max(1);
        (lots.saturating_mul(lot), self.width.saturating_mul(lot))
    }
}

/// What several threads change, and the gate where they meet: before they begin, and when they are done.
#[derive(Drop)]
pub struct Work {
    pub marks: Marks,
    pub gate: AtomicUsize,
}

/// Four threads and a harvester meet.
pub const MET: usize = 5;

/// The harvester goes on until the four have come to the gate again, or this many times.
pub const DONE: usize = 9;

pub const HARVESTS: usize = 10_000;

/// Comes to a gate and waits until this many have come, but not for one that does not come in this many turns.
pub fn meet(gate: &AtomicUsize, count: usize) {
    gate.fetch_add(1, Ordering::SeqCst);
    for _ in 0..100_000 {
        if gate.load(Ordering::SeqCst) >= count {
            break;
        }
        thread::yield_now();
    }
}

/// How often each page was harvested, and what is known of the harvests.
#[derive(Drop)]
pub struct Tally {
    counts: Vec<usize>,
    /// How many harvests took pages while the threads marked.
    pub taken: usize,
    /// Whether a harvest failed.
    pub failed: bool,
}

impl Tally {
    /// A tally of this many pages, none of which was harvested. It has places after them for those that are not pages.
    pub fn new(alloc: Global, pages: usize) -> Result<Tally, AllocError> {
        Ok(Tally {
            counts: vec![in alloc; 0usize; pages.saturating_add(0x40)]?,
            taken: 0,
            failed: false,
        })
    }

    /// Counts the pages of a harvest, this many a word, which ended while threads marked or not.
    pub fn add(&mut self, width: u32, words: &[u64], while_marked: bool) {
        let last = self.counts.len().saturating_sub(1);
        let mut some = false;
        for number in 0..words.len() {
            let word = words[number];
            if word == 0 {
                continue;
            }
            some = true;
            let first = number.saturating_mul(width as usize);
            for bit in 0..width {
                let page = first.saturating_add(bit as usize);
                if let Some(count) = self.counts.get_mut(page.min(last)) {
                    *count = count.saturating_add((word.wrapping_shr(bit) & 1) as usize);
                }
            }
        }
        self.taken = self.taken.saturating_add(usize::from(some && while_marked));
    }

    /// The same of halves of words.
    pub fn add_halves(&mut self, alloc: Global, halves: &[u32], while_marked: bool) {
        let words: Result<Vec<u64>, AllocError> = halves
            .iter()
            .map(|half| u64::from(*half))
            .collect(alloc);
        match words {
            Ok(words) => self.add(32, words.as_slice(), while_marked),
            Err(_) => self.failed = true,
        }
    }

    /// Fails if a harvest failed, or a page was lost, invented or harvested too often, if each thread changes its
    /// pages once. A page that two mark is taken once or twice. If the first two threads clear theirs, one that
    /// another sets too may stay either way.
    pub fn expect(&self, marks: &Marks, clears: bool) -> Result<(), Fail> {
        if self.failed {
            return Err(Fail::new("a harvest failed"));
        }
        for (page, count) in self.counts.iter().enumerate() {
            let (least, most) = if page >= marks.pages {
                (0, 0)
            } else if clears {
                let is_cleared = marks.owners(page, 0, 2) > 0;
                let may_be_set = !is_cleared || marks.owners(page, 2, 4) > 0;
                (usize::from(!is_cleared), usize::from(may_be_set))
            } else {
                let owners = marks.owners(page, 0, 4);
                (owners.min(1), owners)
            };
            if *count < least || *count > most {
                return Err(Fail::new(format_args!(
                    "page {page} was harvested {count} times, not {least} to {most}"
                )));
            }
        }
        Ok(())
    }
}
