//! A bitmap that one owner marks and harvests.
ghost use Rattle.std.specs.Prelude.{◌≡◌, ◌≢◌, [], ℕ, Bool, false, ◌+◌, ◌-◌, ◌*◌, ◌/◌, ◌^◌, ◌<◌, ◌≤◌, ◌&&◌};
ghost use Rattle.std.specs.Prelude.{if◌then◌else◌, nat_le, nat_lt, ◌++◌, length, slice_index, take, drop, replicate};
ghost use Rattle.std.specs.Prelude.{Some, IfOk, OnOk, OnErr};
ghost use Rattle.std.specs.NonZero.{non_zero_usize_get};
ghost use Rattle.std.specs.Int.{div_ceil, bit_at};
ghost use Rattle.vm_memory_base.specs.Flags.{flag, dirty_among, Gets};
ghost use Rattle.vm_memory_base.specs.Pages as page_set;
ghost use Rattle.vm_memory_base.specs.Paging.{bytes_of, count_of};

use super::paging::Paging;
use super::{Bitmap, ExactBitmap, NewBitmap};
use std::alloc::{AllocError, Global};
use std::mem;
use std::num::NonZeroUsize;

/// Tracks the pages of a number of bytes, from offset 0 on, one bit each.
///
/// ```rust
/// use std::num::NonZeroUsize;
/// use vm_memory_base::{Bitmap, ExactBitmap, ExclusiveBitmap};
///
/// let page_size = NonZeroUsize::new(0x1000).unwrap();
/// let mut bitmap = ExclusiveBitmap::new(rt.alloc(), 0x2001, page_size)?;
/// bitmap.mark_dirty(0xfff, 2);
/// assert!(rt; bitmap.harvest(rt.alloc())?.as_slice() == [0, 1].as_slice());
/// assert!(rt; !bitmap.dirty_at(0));
/// ```
#[derive(Debug, Drop)]
pub struct ExclusiveBitmap {
    words: Vec<u64>,
    paging: Paging,
    ghost whole: { length words.items ≡ div_ceil (count_of paging) 64 },
    ghost clear: { (page : ℕ) → count_of paging ≤ page → flag words.items page ≡ false },
}

impl ExclusiveBitmap {
    ghost use Rattle.vm_memory_base.specs.Exclusive.{paging_of, pages_of};

    /// A clean bitmap for `byte_size` bytes in pages of `page_size` bytes, the last of which may be cut.
    /// `AllocError` if its allocation fails.
    pub fn new(alloc: Global, byte_size: usize, page_size: NonZeroUsize) -> Result<Self, AllocError>
        ensures pages { IfOk result (λ b. Some (pages_of b)
            ≡ page_set.new_pages (non_zero_usize_get page_size) byte_size) }
        ensures bytes { IfOk result (λ b. bytes_of (paging_of b) ≡ byte_size) }
    {
        let paging = Paging::new(byte_size, page_size);
        let words = vec![in alloc; 0u64; paging.count().div_ceil(64)]?;
        Ok(ExclusiveBitmap { words, paging })
    }

    /// The number of pages.
    #[inline]
    pub fn len(&self) -> usize
        ensures { result ≡ length (pages_of self.now).flags }
    {
        self.paging.count()
    }

    /// The number of bytes that it was made for.
    #[inline]
    pub fn byte_size(&self) -> usize
        ensures { result ≡ bytes_of (paging_of self.now) }
    {
        self.paging.byte_size()
    }

    /// Makes clean the pages that a mark of `len` bytes from `start` on would make dirty: none if `len` is 0,
    /// and none past the last page.
    pub fn reset_addr_range(&mut self, start: usize, len: usize)
        ensures pages { Some (pages_of self.new) ≡ page_set.unmarked start len (Some (pages_of self.old)) }
        ensures bytes { bytes_of (paging_of self.new) ≡ bytes_of (paging_of self.old) }
    {
        self.set_range(start, len, false);
    }

    // Gives the pages of `len` bytes from `start` on this flag.
    #[inline(always)]
    fn set_range(&mut self, start: usize, len: usize, dirty: bool)
        ensures pages { pages_of self.new ≡ record (pages_of self.old) {
          flags = page_set.flags_set dirty (page_set.takes (pages_of self.old).page_size start len) 0
              (pages_of self.old).flags;
        } }
        ensures paging { paging_of self.new ≡ paging_of self.old }
    {
        let (first, end) = self.paging.pages_in(start, len);
        set_flags(&mut self.words, first, end, dirty);
    }

    /// Makes every page clean.
    pub fn reset(&mut self)
        ensures pages { Some (pages_of self.new) ≡ page_set.cleaned (Some (pages_of self.old)) }
        ensures bytes { bytes_of (paging_of self.new) ≡ bytes_of (paging_of self.old) }
    {
        self.words.fill(0);
    }

    /// Takes the dirty pages as bits of words, page `n` as bit `n % 64` of word `n / 64`, and makes them clean.
    /// `AllocError` if the allocation of the words fails, and then nothing changes.
    pub fn get_and_reset(&mut self, alloc: Global) -> Result<Vec<u64>, AllocError>
        ensures words { IfOk result (λ words. words.items ≡ page_set.dirty_words (Some (pages_of self.old))) }
        ensures clean { OnOk result (Some (pages_of self.new) ≡ page_set.cleaned (Some (pages_of self.old))) }
        ensures refused { OnErr result (pages_of self.new ≡ pages_of self.old) }
        ensures bytes { bytes_of (paging_of self.new) ≡ bytes_of (paging_of self.old) }
    {
        let clean = vec![in alloc; 0u64; self.words.len()]?;
        fit(&self.words);
        Ok(mem::replace(&mut self.words, clean))
    }
}

// Words are numbers of 64 bits.
#[inline(always)]
fn fit(_words: &[u64])
    ensures { (k : ℕ) → slice_index _words.now k < 2 ^ 64 }
{}

// The bits of a word from one up to another.
#[inline(always)]
fn mask(first: usize, end: usize) -> u64
    requires ordered { first < end }
    requires inside { end ≤ 64 }
    ensures { (bit : ℕ) → bit < 64 → bit_at result bit ≡ (if nat_le first bit && nat_lt bit end then 1 else 0) }
{
    (u64::MAX << first) & (u64::MAX >> (64 - end))
}

// Gives the bits of word k from one up to another this value.
#[inline(always)]
fn set_in_word(words: &mut [u64], k: usize, first: usize, end: usize, dirty: bool)
    requires here { k < length words.old }
    requires ordered { first < end }
    requires inside { end ≤ 64 }
    ensures len { length words.new ≡ length words.old }
    ensures flags { Gets words.old words.new (64 * k + first) (64 * k + end) dirty }
{
    let mask = mask(first, end);
    if dirty {
        words[k] |= mask;
    } else {
        words[k] &= !mask;
    }
}

// Gives all bits of the words from one up to another this value.
#[inline(always)]
fn set_words(words: &mut [u64], first: usize, end: usize, dirty: bool)
    requires ordered { first ≤ end }
    requires inside { end ≤ length words.old }
    ensures len { length words.new ≡ length words.old }
    ensures flags { Gets words.old words.new (64 * first) (64 * end) dirty }
{
    fill_words(words, first, end, if dirty { u64::MAX } else { 0 });
}

// Makes the words from one up to another this number.
#[inline(always)]
fn fill_words(words: &mut [u64], first: usize, end: usize, all: u64)
    requires ordered { first ≤ end }
    requires inside { end ≤ length words.old }
    ensures { words.new ≡ take first words.old ++ (replicate (end - first) all ++ drop end words.old) }
{
    words[first..end].fill(all);
}

// Gives the pages from one up to another this flag, where they lie in several words. It is called, so that a mark of
// pages of one word needs few registers.
#[inline(never)]
fn set_across(words: &mut [u64], first: usize, end: usize, dirty: bool)
    requires across { first / 64 < (end - 1) / 64 }
    requires inside { end ≤ 64 * length words.old }
    ensures len { length words.new ≡ length words.old }
    ensures flags { Gets words.old words.new first end dirty }
{
    let (low, high) = (first / 64, (end - 1) / 64);
    set_in_word(words, low, first % 64, 64, dirty);
    set_words(words, low + 1, high, dirty);
    set_in_word(words, high, 0, (end - 1) % 64 + 1, dirty);
}

// Gives the pages from one up to another this flag.
#[inline]
fn set_flags(words: &mut [u64], first: usize, end: usize, dirty: bool)
    requires { end ≤ 64 * length words.old }
    ensures len { length words.new ≡ length words.old }
    ensures flags { Gets words.old words.new first end dirty }
{
    if first >= end {
        return;
    }
    let (low, high) = (first / 64, (end - 1) / 64);
    if low == high {
        set_in_word(words, low, first % 64, (end - 1) % 64 + 1, dirty);
    } else {
        set_across(words, first, end, dirty);
    }
}

// Adds the numbers of the pages of a word, the lowest bit of which is that of page `first`, where all are dirty. They
// are written aside, several at once, since a push tests the room each time.
#[inline(never)]
fn add_all(pages: &mut Vec<usize>, first: usize) -> Result<(), AllocError>
    requires { first + 64 ≤ 2 ^ 64 }
    ensures { OnOk result (pages.new.items ≡ pages.old.items ++ dirty_among (2 ^ 64 - 1) first) }
{
    let mut numbers = [0usize; 64];
    for bit in 0..64 {
        numbers[bit] = first + bit;
    }
    pages.extend_from_slice(numbers.as_slice())
}

// Adds the numbers of the dirty pages of a word, whose lowest bit is that of page `first`.
#[inline]
fn add_pages(pages: &mut Vec<usize>, first: usize, word: u64) -> Result<(), AllocError>
    requires { first + 64 ≤ 2 ^ 64 }
    ensures added { OnOk result (pages.new.items ≡ pages.old.items ++ dirty_among word first) }
    ensures refused { OnErr result (dirty_among word first ≢ []) }
{
    if word == u64::MAX {
        return add_all(pages, first);
    }
    let mut left = word;
    'bits: while left != 0 {
        let bit = left.trailing_zeros();
        pages.push(first + bit as usize)?;
        left &= !(1u64 << bit);
    }
    Ok(())
}

impl Bitmap for ExclusiveBitmap {
    ghost use Rattle.vm_memory_base.specs.Exclusive.{paging_of, pages_of};

    ghost marks = { λ old offset len new.
        (Some (pages_of new) ≡ page_set.marked offset len (Some (pages_of old)))
        × (bytes_of (paging_of new) ≡ bytes_of (paging_of old)) };

    ghost tells = { λ b offset told. told ≡ page_set.is_dirty_at (Some (pages_of b)) offset };

    ghost made = { λ len b. (Some (pages_of b) ≡ page_set.new_pages 0x1000 len) × (bytes_of (paging_of b) ≡ len) };

    #[inline]
    fn mark_dirty(&mut self, offset: usize, len: usize) {
        self.set_range(offset, len, true);
    }

    #[inline]
    fn dirty_at(&self, offset: usize) -> bool {
        let page = self.paging.page_of(offset);
        page < self.paging.count() && (self.words[page / 64] >> (page % 64)) & 1 == 1
    }
}

impl ExactBitmap for ExclusiveBitmap {
    ghost use Rattle.std.proofs.Common.{subst, sym, arith};
    ghost use Rattle.vm_memory_base.specs.Pages.{IsCleanFor};
    ghost use Rattle.vm_memory_base.specs.lemmas.NewPages.{new_pages_are_clean, flags_fit};
    ghost use Rattle.vm_memory_base.specs.Exclusive.{paging_of, pages_of};

    ghost pages = { λ b. Some (pages_of b) };

    ghost fits = { λ b. flags_fit b.words.items b.paging };

    ghost marks_pages = { λ old new offset len h. h.0 };

    ghost tells_pages = { λ b offset told h. h };

    ghost made_clean = { λ len b h.
        subst (IsCleanFor len) (sym h.0) (new_pages_are_clean 0x1000 len (omega arith)) };

    #[inline]
    fn shape(&self) -> Option<(usize, usize)> {
        Some((self.paging.page_size().get(), self.paging.count()))
    }

    // It is called, so that its loop has registers of its own.
    #[inline(never)]
    fn dirty_pages(&self, alloc: Global) -> Result<Vec<usize>, AllocError> {
        let words = self.words.as_slice();
        let mut pages = Vec::new(alloc);
        for k in 0..words.len() {
            let word = words[k];
            if word != 0 {
                add_pages(&mut pages, 64 * k, word)?;
            }
        }
        Ok(pages)
    }

    fn harvest(&mut self, alloc: Global) -> Result<Vec<usize>, AllocError>
        ensures dirty { IfOk result (λ dirty. dirty.items ≡ page_set.dirty_pages (Some (pages_of self.old))) }
        ensures clean { OnOk result (Some (pages_of self.new) ≡ page_set.cleaned (Some (pages_of self.old))) }
        ensures refused { OnErr result ((self.new ≡ self.old)
            × (page_set.dirty_pages (Some (pages_of self.old)) ≢ [])) }
        ensures bytes { bytes_of (paging_of self.new) ≡ bytes_of (paging_of self.old) }
    {
        let dirty = self.dirty_pages(alloc)?;
        self.reset();
        Ok(dirty)
    }
}

/// Its pages have 0x1000 bytes.
impl NewBitmap for ExclusiveBitmap {
    fn with_len(alloc: Global, len: usize) -> Result<Self, AllocError> {
        ExclusiveBitmap::new(alloc, len, NonZeroUsize::new(0x1000).unwrap())
    }
}
