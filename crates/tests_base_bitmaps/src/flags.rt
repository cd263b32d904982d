//! A bitmap of one truth value a page, which does one thing after the other.

use std::alloc::{AllocError, Global};
use std::num::NonZeroUsize;

/// Whether each page is dirty.
#[derive(Drop)]
pub struct Flags {
    pub flags: Vec<bool>,
    pub page_size: NonZeroUsize,
}

impl Flags {
    /// Gives each page that has one of the bytes this flag. Whether one was another before.
    pub fn set(&mut self, offset: usize, len: usize, dirty: bool) -> bool {
        if len == 0 {
            return false;
        }
        let first = offset / self.page_size.get();
        let last = offset.saturating_add(len - 1) / self.page_size.get();
        let mut changed = false;
        for (page, flag) in self.flags.iter_mut().enumerate() {
            if first <= page && page <= last {
                changed = changed || *flag != dirty;
                *flag = dirty;
            }
        }
        changed
    }

    /// The dirty pages, ascending.
    pub fn pages(&self, alloc: Global) -> Result<Vec<usize>, AllocError> {
        let mut pages = Vec::new(alloc);
        for (page, flag) in self.flags.iter().enumerate() {
            if *flag {
                pages.push(page)?;
            }
        }
        Ok(pages)
    }

    /// The dirty pages as bits of words: page `n` is bit `n % 64` of word `n / 64`.
    pub fn words(&self, alloc: Global) -> Result<Vec<u64>, AllocError> {
        let mut words = vec![in alloc; 0u64; self.flags.len().div_ceil(64)]?;
        for (page, flag) in self.flags.iter().enumerate() {
            if *flag && let Some(word) = words.get_mut(page / 64) {
                *word |= 1 << (page % 64);
            }
        }
        Ok(words)
    }
}

/// The bytes that a number stands for: some begin past the last page, and one in sixteen goes on to the last offset.
pub fn bytes_of(x: u64) -> (usize, usize) {
    let offset = (x >> 20) as usize % 8000;
    let len = if x >> 60 == 0 {
        usize::MAX
    } else {
        (x >> 40) as usize % 1200
    };
    (offset, len)
}
