//! Hints: which regions the accesses of a queue ask first.
ghost use Rattle.std.specs.Prelude.{◌≡◌};

use std::cell::Cell;
use vm_memory_guest::{GuestMemory, Hinted};

// The region of the last access of an area, by its number. No answer depends on it.
#[derive(Drop)]
pub(crate) struct Hint {
    region: Cell<usize>,
}

impl Hint {
    #[inline(always)]
    pub(crate) fn new() -> Hint {
        Hint {
            region: Cell::new(0),
        }
    }

    // The same hint, for a call.
    #[inline(always)]
    pub(crate) fn copied(&self) -> Hint {
        Hint {
            region: Cell::new(self.region.get()),
        }
    }

    // Keeps what a call made of it.
    #[inline(always)]
    pub(crate) fn set(&self, other: &Hint) {
        self.region.set(other.region.get());
    }

    // A memory that asks the region first.
    #[inline(always)]
    pub(crate) fn near<'a, M: GuestMemory>(&self, mem: &'a M) -> Hinted<'a, M>
        ensures { result ≡ mem.now }
    {
        Hinted::after(mem, self.region.get())
    }

    // Keeps the region that such a memory found.
    #[inline(always)]
    pub(crate) fn keep<M: GuestMemory>(&self, near: &Hinted<'_, M>) {
        self.region.set(near.hint());
    }
}

// The hints of a queue: one for each area, and one for the indirect tables.
#[derive(Drop)]
pub(crate) struct Hints {
    pub(crate) descriptors: Hint,
    pub(crate) driver: Hint,
    pub(crate) device: Hint,
    pub(crate) tables: Hint,
}

impl Hints {
    #[inline]
    pub(crate) fn new() -> Hints {
        Hints {
            descriptors: Hint::new(),
            driver: Hint::new(),
            device: Hint::new(),
            tables: Hint::new(),
        }
    }

    // Those of a call that pops a chain of a split queue, whose table lies at this address.
    #[inline(always)]
    pub(crate) fn of_split_pop(&self, table: u64) -> Near {
        Near {
            words: self.driver.copied(),
            rows: self.descriptors.copied(),
            tables: self.tables.copied(),
            table,
        }
    }

    // Keeps what such a call made of them.
    #[inline(always)]
    pub(crate) fn keep_split_pop(&self, near: &Near) {
        self.driver.set(&near.words);
        self.descriptors.set(&near.rows);
        self.tables.set(&near.tables);
    }

    // Those of a call that pops a chain of a packed queue, whose ring lies at this address.
    #[inline(always)]
    pub(crate) fn of_packed_pop(&self, ring: u64) -> Near {
        Near {
            words: self.descriptors.copied(),
            rows: self.descriptors.copied(),
            tables: self.tables.copied(),
            table: ring,
        }
    }

    // Keeps what such a call made of them.
    #[inline(always)]
    pub(crate) fn keep_packed_pop(&self, near: &Near) {
        self.descriptors.set(&near.rows);
        self.tables.set(&near.tables);
    }
}

// The hints of the looks of a call: at words, at rows of the ring's table, whose address this is, and at other rows.
#[derive(Drop)]
pub(crate) struct Near {
    pub(crate) words: Hint,
    rows: Hint,
    tables: Hint,
    table: u64,
}

impl Near {
    // Those of a call that looks at words of one area alone.
    #[inline(always)]
    pub(crate) fn of_words(words: &Hint) -> Near {
        Near {
            words: words.copied(),
            rows: Hint::new(),
            tables: Hint::new(),
            table: 0,
        }
    }

    // The hint of the rows of a table.
    #[inline(always)]
    pub(crate) fn of_row(&self, table: u64) -> &Hint {
        if table == self.table {
            &self.rows
        } else {
            &self.tables
        }
    }
}
