//! The atomic integers under one trait.

use crate::bytes::ByteValued;
use std::sync::atomic::{
    AtomicI8, AtomicI16, AtomicI32, AtomicI64, AtomicIsize, AtomicU8, AtomicU16, AtomicU32,
    AtomicU64, AtomicUsize, Ordering,
};

/// An integer that threads read and write in single steps.
///
/// Other threads may write it between two steps, so a load says nothing of what a store left.
///
/// Leaves open: every value, since other threads may store between two calls.
pub trait AtomicInteger: Send + Sync {
    /// The integer that it holds.
    type V: ByteValued;

    /// The atomic integer that holds `v`.
    fn new(v: Self::V) -> Self;

    /// Reads the integer. Each step is sequentially consistent, whatever order is asked for.
    fn load(&self, order: Ordering) -> Self::V;

    /// Writes the integer. Each step is sequentially consistent, whatever order is asked for.
    fn store(&self, val: Self::V, order: Ordering);
}

impl AtomicInteger for AtomicI8 {
    type V = i8;

    #[inline]
    fn new(v: i8) -> AtomicI8 {
        AtomicI8::new(v)
    }

    #[inline]
    fn load(&self, order: Ordering) -> i8 {
        self.load(order)
    }

    #[inline]
    fn store(&self, val: i8, order: Ordering) {
        self.store(val, order);
    }
}

impl AtomicInteger for AtomicI16 {
    type V = i16;

    #[inline]
    fn new(v: i16) -> AtomicI16 {
        AtomicI16::new(v)
    }

    #[inline]
    fn load(&self, order: Ordering) -> i16 {
        self.load(order)
    }

    #[inline]
    fn store(&self, val: i16, order: Ordering) {
        self.store(val, order);
    }
}

impl AtomicInteger for AtomicI32 {
    type V = i32;

    #[inline]
    fn new(v: i32) -> AtomicI32 {
        AtomicI32::new(v)
    }

    #[inline]
    fn load(&self, order: Ordering) -> i32 {
        self.load(order)
    }

    #[inline]
    fn store(&self, val: i32, order: Ordering) {
        self.store(val, order);
    }
}

impl AtomicInteger for AtomicI64 {
    type V = i64;

    #[inline]
    fn new(v: i64) -> AtomicI64 {
        AtomicI64::new(v)
    }

    #[inline]
    fn load(&self, order: Ordering) -> i64 {
        self.load(order)
    }

    #[inline]
    fn store(&self, val: i64, order: Ordering) {
        self.store(val, order);
    }
}

impl AtomicInteger for AtomicU8 {
    type V = u8;

    #[inline]
    fn new(v: u8) -> AtomicU8 {
        AtomicU8::new(v)
    }

    #[inline]
    fn load(&self, order: Ordering) -> u8 {
        self.load(order)
    }

    #[inline]
    fn store(&self, val: u8, order: Ordering) {
        self.store(val, order);
    }
}

impl AtomicInteger for AtomicU16 {
    type V = u16;

    #[inline]
    fn new(v: u16) -> AtomicU16 {
        AtomicU16::new(v)
    }

    #[inline]
    fn load(&self, order: Ordering) -> u16 {
        self.load(order)
    }

    #[inline]
    fn store(&self, val: u16, order: Ordering) {
        self.store(val, order);
    }
}

impl AtomicInteger for AtomicU32 {
    type V = u32;

    #[inline]
    fn new(v: u32) -> AtomicU32 {
        AtomicU32::new(v)
    }

    #[inline]
    fn load(&self, order: Ordering) -> u32 {
        self.load(order)
    }

    #[inline]
    fn store(&self, val: u32, order: Ordering) {
        self.store(val, order);
    }
}

impl AtomicInteger for AtomicU64 {
    type V = u64;

    #[inline]
    fn new(v: u64) -> AtomicU64 {
        AtomicU64::new(v)
    }

    #[inline]
    fn load(&self, order: Ordering) -> u64 {
        self.load(order)
    }

    #[inline]
    fn store(&self, val: u64, order: Ordering) {
        self.store(val, order);
    }
}

impl AtomicInteger for AtomicIsize {
    type V = isize;

    #[inline]
    fn new(v: isize) -> AtomicIsize {
        AtomicIsize::new(v)
    }

    #[inline]
    fn load(&self, order: Ordering) -> isize {
        self.load(order)
    }

    #[inline]
    fn store(&self, val: isize, order: Ordering) {
        self.store(val, order);
    }
}

impl AtomicInteger for AtomicUsize {
    type V = usize;

    #[inline]
    fn new(v: usize) -> AtomicUsize {
        AtomicUsize::new(v)
    }

    #[inline]
    fn load(&self, order: Ordering) -> usize {
        self.load(order)
    }

    #[inline]
    fn store(&self, val: usize, order: Ordering) {
        self.store(val, order);
    }
}
