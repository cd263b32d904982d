//! A bitmap that is marked through a shared reference, by any number of threads.
ghost use Rattle.std.specs.Prelude.{◌≡◌, ℕ, ◌+◌, ◌*◌, ◌/◌, ◌^◌, ◌<◌, ◌≤◌, false, length, IfOk, OnOk, OnErr, IsOk};
ghost use Rattle.std.specs.NonZero.{non_zero_usize_get};
ghost use Rattle.std.specs.Int.{div_ceil};
ghost use Rattle.vm_memory_base.specs.Paging.{bytes_of, page_size_of, count_of};
ghost use Rattle.vm_memory_base.specs.Words.{IsWithin, AreWithin};

use super::paging::Paging;
use super::{Bitmap, NewBitmap};
use std::alloc::{AllocError, Global};
use std::num::NonZeroUsize;
use std::sync::atomic::{AtomicU64, Ordering};

/// A bitmap that can be marked through a shared reference.
pub trait SharedBitmap: Bitmap {
    /// Marks `len` bytes from `offset` on as written, as `mark_dirty` does.
    fn mark_shared(&self, offset: usize, len: usize)
        ensures { Self.marks self.now offset len self.now };
}

/// Tracks the pages of a number of bytes, from offset 0 on, one bit each: page `n` is bit `n % 64` of word `n / 64`.
/// Threads share it by reference. A mark sets each of its pages in one step, and a reset of a range clears each in
/// one, so that nothing of other pages is lost.
///
/// ```rust
/// use std::num::NonZeroUsize;
/// use vm_memory_base::AtomicBitmap;
///
/// let page_size = NonZeroUsize::new(128).unwrap();
/// let bitmap = AtomicBitmap::new(rt.alloc(), 1024, page_size)?;
/// bitmap.set_addr_range(128, 129);
/// assert!(rt; bitmap.get_and_reset(rt.alloc())?.as_slice() == [0b110].as_slice());
/// assert!(rt; !bitmap.is_addr_set(128));
/// ```
///
/// Leaves open: which bits a call sets or clears, which pages it lists up to the last, and a failed allocation each
/// time.
#[derive(Drop)]
pub struct AtomicBitmap {
    map: Vec<AtomicU64>,
    paging: Paging,
    ghost words: { length map.items ≡ div_ceil (count_of paging) 64 },
}

impl AtomicBitmap {
    ghost use Rattle.vm_memory_base.specs.Shared.{paging_of};

    /// A clean bitmap for `byte_size` bytes in pages of `page_size` bytes, the last of which may be cut.
    /// `AllocError` if its allocation fails.
    pub fn new(alloc: Global, byte_size: usize, page_size: NonZeroUsize) -> Result<Self, AllocError>
        ensures bytes { IfOk result (λ b. bytes_of (paging_of b) ≡ byte_size) }
        ensures page_size { IfOk result (λ b. page_size_of (paging_of b) ≡ non_zero_usize_get page_size) }
    {
        let paging = Paging::new(byte_size, page_size);
        let mut map = Vec::new(alloc);
        map.resize_with(paging.count().div_ceil(64), || AtomicU64::new(0))?;
        Ok(AtomicBitmap { map, paging })
    }

    /// Tracks `additional_size` bytes more. They fill the last page first, and then new pages, which are clean. The
    /// sizes together have to fit 64 bits. `AllocError` if the allocation of the pages fails, and then nothing
    /// changes.
    pub fn enlarge(&mut self, additional_size: usize) -> Result<(), AllocError>
        requires { bytes_of (paging_of self.old) + additional_size < 2 ^ 64 }
        ensures bytes { OnOk result (bytes_of (paging_of self.new)
            ≡ bytes_of (paging_of self.old) + additional_size) }
        ensures refused { OnErr result (bytes_of (paging_of self.new) ≡ bytes_of (paging_of self.old)) }
        ensures page_size { page_size_of (paging_of self.new) ≡ page_size_of (paging_of self.old) }
    {
        let byte_size = self.byte_size() + additional_size;
        let paging = Paging::new(byte_size, self.paging.page_size());
        self.map
            .resize_with(paging.count().div_ceil(64), || AtomicU64::new(0))?;
        self.paging = paging;
        Ok(())
    }

    /// The number of pages.
    #[inline]
    pub fn len(&self) -> usize
        ensures { result ≡ count_of (paging_of self.now) }
    {
        self.paging.count()
    }

    /// The number of bytes that it tracks.
    #[inline]
    pub fn byte_size(&self) -> usize
        ensures { result ≡ bytes_of (paging_of self.now) }
    {
        self.paging.byte_size()
    }

    /// Whether page `index` is dirty. It is false from the number of pages on.
    #[inline]
    pub fn is_bit_set(&self, index: usize) -> bool
        ensures { count_of (paging_of self.now) ≤ index → result ≡ false }
    {
        index < self.len() && self.map[index / 64].load(Ordering::SeqCst) & (1 << (index % 64)) != 0
    }

    /// Whether the page of the byte at `addr` is dirty. It is false past the last page.
    #[inline]
    pub fn is_addr_set(&self, addr: usize) -> bool
        ensures { count_of (paging_of self.now) ≤ addr / page_size_of (paging_of self.now)
            → result ≡ false }
    {
        self.is_bit_set(self.paging.page_of(addr))
    }

    /// Makes the pages of `len` bytes from `start` on dirty, one after another, and none if `len` is 0. A range that
    /// passes 2^64 - 1 ends there, and what lies past the last page is left out.
    pub fn set_addr_range(&self, start: usize, len: usize) {
        let (first, end) = self.paging.pages_in(start, len);
        let map = self.map.as_slice();
        let mut left = None;
        for page in first..end {
            left = Some(set_in(&map[page / 64], 1 << (page % 64), left));
            if page % 64 == 63 {
                left = None;
            }
        }
    }

    /// Makes clean, one after another, the pages that `set_addr_range` would make dirty.
    pub fn reset_addr_range(&self, start: usize, len: usize) {
        let (first, end) = self.paging.pages_in(start, len);
        for page in first..end {
            self.map[page / 64].fetch_and(!(1 << (page % 64)), Ordering::SeqCst);
        }
    }

    /// Makes page `index` dirty, if there is one.
    #[inline]
    pub fn set_bit(&self, index: usize) {
        if index < self.len() {
            self.map[index / 64].fetch_or(1 << (index % 64), Ordering::SeqCst);
        }
    }

    /// Makes page `index` clean, if there is one.
    #[inline]
    pub fn reset_bit(&self, index: usize) {
        if index < self.len() {
            self.map[index / 64].fetch_and(!(1 << (index % 64)), Ordering::SeqCst);
        }
    }

    // What a word, which has this number, says of the pages that there are.
    #[inline]
    fn within(&self, k: usize, word: u64) -> u64
        requires { k < div_ceil (count_of (paging_of self.now)) 64 }
        ensures { IsWithin (count_of (paging_of self.now)) k result }
    {
        let pages = self.len() - 64 * k;
        if pages < 64 {
            word & ((1 << pages) - 1)
        } else {
            word
        }
    }

    /// Takes the dirty pages as words, and makes them clean: each word in one step, in order. No word has a bit at
    /// or past the number of pages. `AllocError` if the allocation of the words fails, and then nothing changes.
    pub fn get_and_reset(&self, alloc: Global) -> Result<Vec<u64>, AllocError>
        ensures words { IfOk result (λ words. length words.items ≡ div_ceil (count_of (paging_of self.now)) 64) }
        ensures within { IfOk result (λ words. AreWithin (count_of (paging_of self.now)) words.items) }
    {
        let mut words = Vec::with_capacity(alloc, self.map.len())?;
        let map = self.map.as_slice();
        for k in 0..map.len() {
            // What a `fetch_and` with 0 does, in one instruction.
            let word = map[k].swap(0, Ordering::SeqCst);
            words.push_reserved(self.within(k, word));
        }
        Ok(words)
    }

    /// Makes every page clean, a word at a time.
    pub fn reset(&self) {
        for word in self.map.iter() {
            word.store(0, Ordering::SeqCst);
        }
    }
}

// Sets a bit of a word in one step, and gives what the word is then. A `fetch_or` looks at the word before its step,
// and such a look waits for the step before. So where it is known what that step left, this is tried first.
#[inline]
fn set_in(word: &AtomicU64, bit: u64, left: Option<u64>) -> u64 {
    if let Some(left) = left
        && word
            .compare_exchange(left, left | bit, Ordering::SeqCst, Ordering::SeqCst)
            .is_ok()
    {
        return left | bit;
    }
    word.fetch_or(bit, Ordering::SeqCst) | bit
}

/// A clone tracks the same number of bytes in pages of the same size. Those pages are dirty that were found dirty.
/// `AllocError` if its allocation fails.
impl Clone for AtomicBitmap {
    ghost use Rattle.vm_memory_base.specs.Shared.{paging_of};

    ghost is_clone = { λ b c. paging_of c ≡ paging_of b };

    fn clone(&self) -> Result<Self, AllocError> {
        let mut map = Vec::with_capacity(*self.map.allocator(), self.map.len())?;
        for k in 0..self.map.len() {
            map.push_reserved(AtomicU64::new(self.map[k].load(Ordering::SeqCst)));
        }
        Ok(AtomicBitmap {
            map,
            paging: self.paging,
        })
    }
}

/// Nothing is said about which pages are dirty, since any thread may change them. Pages past the end never are.
impl Bitmap for AtomicBitmap {
    ghost use Rattle.vm_memory_base.specs.Shared.{paging_of};

    ghost marks = { λ old offset len new. new ≡ old };

    ghost tells = { λ b offset told. count_of (paging_of b) ≤ offset / page_size_of (paging_of b)
        → told ≡ false };

    ghost made = { λ len b. (bytes_of (paging_of b) ≡ len) × (page_size_of (paging_of b) ≡ 0x1000) };

    #[inline]
    fn mark_dirty(&mut self, offset: usize, len: usize) {
        self.set_addr_range(offset, len);
    }

    #[inline]
    fn dirty_at(&self, offset: usize) -> bool {
        self.is_addr_set(offset)
    }
}

/// Tracks nothing.
impl SharedBitmap for () {
    fn mark_shared(&self, _offset: usize, _len: usize) {}
}

/// Tracks what the bitmap that it holds tracks, and nothing if it holds none.
impl<B: SharedBitmap> SharedBitmap for Option<B> {
    #[inline]
    fn mark_shared(&self, offset: usize, len: usize) {
        if let Some(bitmap) = self {
            bitmap.mark_shared(offset, len);
        }
    }
}

impl SharedBitmap for AtomicBitmap {
    #[inline]
    fn mark_shared(&self, offset: usize, len: usize) {
        self.set_addr_range(offset, len);
    }
}

/// Its pages have 0x1000 bytes.
impl NewBitmap for AtomicBitmap {
    fn with_len(alloc: Global, len: usize) -> Result<Self, AllocError> {
        AtomicBitmap::new(alloc, len, NonZeroUsize::new(0x1000).unwrap())
    }
}
