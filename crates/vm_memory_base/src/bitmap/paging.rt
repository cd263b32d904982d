//! The pages of a number of bytes.
ghost use Rattle.std.specs.Prelude.{◌≡◌, ◌/◌, ◌^◌, ◌<◌, ◌≤◌};
ghost use Rattle.std.specs.Option.{ForSome};
ghost use Rattle.std.specs.NonZero.{non_zero_usize_get};
ghost use Rattle.std.specs.Int.{div_ceil};
ghost use Rattle.vm_memory_base.specs.Pages as page_set;

use std::num::NonZeroUsize;

/// A number of bytes, from offset 0 on, in pages of one size, the last of which may be cut.
#[derive(Clone, Copy, Debug)]
pub struct Paging {
    byte_size: usize,
    page_size: NonZeroUsize,
    // Kept, so that no mark has to divide for it.
    count: usize,
    // The binary logarithm of a page size that is a power of two: a shift is quicker than a division.
    shift: Option<u32>,
    ghost fits: { byte_size < 2 ^ 64 },
    ghost whole: { count ≡ div_ceil byte_size (non_zero_usize_get page_size) },
    ghost shifts: { ForSome shift (λ k. (k < 64) × (2 ^ k ≡ non_zero_usize_get page_size)) },
}

impl Paging {
    ghost use Rattle.vm_memory_base.specs.Paging.{bytes_of, page_size_of, count_of, pages_in};

    /// This number of bytes in pages of `page_size` bytes.
    pub fn new(byte_size: usize, page_size: NonZeroUsize) -> Paging
        ensures bytes { bytes_of result ≡ byte_size }
        ensures page_size { page_size_of result ≡ non_zero_usize_get page_size }
    {
        let count = byte_size.div_ceil(page_size.get());
        let shift = exact_log(page_size.get());
        Paging {
            byte_size,
            page_size,
            count,
            shift,
        }
    }

    /// The number of bytes.
    #[inline(always)]
    pub fn byte_size(&self) -> usize
        ensures { result ≡ bytes_of self.now }
    {
        self.byte_size
    }

    /// The number of bytes of a page.
    #[inline(always)]
    pub fn page_size(&self) -> NonZeroUsize
        ensures { non_zero_usize_get result ≡ page_size_of self.now }
    {
        self.page_size
    }

    /// The number of pages.
    #[inline(always)]
    pub fn count(&self) -> usize
        ensures { result ≡ count_of self.now }
    {
        self.count
    }

    /// The page of the byte at `offset`. If there is no such byte, there may be no such page.
    #[inline(always)]
    pub fn page_of(&self, offset: usize) -> usize
        ensures { result ≡ offset / page_size_of self.now }
    {
        match self.shift {
            Some(shift) => offset >> shift,
            None => offset / self.page_size.get(),
        }
    }

    // The page of the first of `len` bytes from `start` on, and that of the last.
    #[inline(always)]
    fn between(&self, start: usize, len: usize) -> (usize, usize)
        requires { 0 < len }
        ensures first { result.0 ≡ start / page_size_of self.now }
        ensures last { result.1 ≡ page_set.last_byte start len / page_size_of self.now }
    {
        let first = self.page_of(start);
        (first, self.last_page(first, start, len))
    }

    // The page of the last of `len` bytes from `start` on, given that of the first. Few bytes mostly end in the page in
    // which they begin, and then there is no second division.
    #[inline(always)]
    fn last_page(&self, first: usize, start: usize, len: usize) -> usize
        requires some { 0 < len }
        requires first { first ≡ start / page_size_of self.now }
        ensures { result ≡ page_set.last_byte start len / page_size_of self.now }
    {
        let size = self.page_size.get();
        if self.shift.is_none() && len <= size && start - first * size <= size - len {
            return first;
        }
        self.page_of(start.saturating_add(len - 1))
    }

    /// The pages of `len` bytes from `start` on, among those that there are: from one up to another, and none if
    /// `len` is 0. A range that passes 2^64 - 1 ends there.
    #[inline(always)]
    pub fn pages_in(&self, start: usize, len: usize) -> (usize, usize)
        ensures pages { result ≡ pages_in self.now start len }
        ensures inside { result.1 ≤ count_of self.now }
    {
        if len == 0 {
            return (0, 0);
        }
        let (first, last) = self.between(start, len);
        let count = self.count;
        (first, if last < count { last + 1 } else { count })
    }
}

// The binary logarithm of a number that is a power of two, and otherwise `None`.
fn exact_log(number: usize) -> Option<u32>
    requires { 0 < number }
    ensures { ForSome result (λ k. (k < 64) × (2 ^ k ≡ number)) }
{
    let log = number.ilog2();
    if 1 << log != number {
        return None;
    }
    Some(log)
}
