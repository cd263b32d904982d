//! Barriers between accesses of guest memory.

use std::sync::atomic::{AtomicU64, Ordering};

// A word that only its queue writes. Loads and stores of guest memory are plain moves, which a compiler reorders, and
// the library's `fence` does nothing: a step on an atomic word keeps them apart. An x86-64 processor, for which this is
// built, keeps loads in order, and stores in order, and a load before a later store. It lets a load pass an earlier
// store alone.
#[derive(Drop)]
pub(crate) struct BarrierWord {
    passed: AtomicU64,
}

impl BarrierWord {
    #[inline]
    pub(crate) fn new() -> BarrierWord {
        BarrierWord {
            passed: AtomicU64::new(0),
        }
    }

    // Each access of memory that comes before it is done, for every processor, before one that comes after it. It
    // writes another number each time, so that no compiler may make it a load, or nothing.
    #[inline]
    pub(crate) fn full_barrier(&self) {
        self.passed.fetch_add(1, Ordering::SeqCst);
    }

    // The same of all accesses but a store before it and a load after it. No compiler moves an access of memory past an
    // ordered load, and the processor keeps the rest by itself: so this is one move.
    #[inline(always)]
    pub(crate) fn acquire_release_barrier(&self) {
        let _ = self.passed.load(Ordering::SeqCst);
    }
}
