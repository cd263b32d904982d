//! Dirty tracking: which pages of a block or a space were written.
ghost use Rattle.std.specs.Prelude.{◌≡◌, ◌≢◌, [], ℕ, Bool, IfOk, OnOk, OnErr};
ghost use Rattle.vm_memory_base.specs.Pages.{PageSet, IsPageSet, IsCleanFor, in_view};
ghost use Rattle.vm_memory_base.specs.Pages as page_set;

mod atomic;
mod exclusive;
mod paging;
mod slice;
mod tracked;

pub use self::atomic::{AtomicBitmap, SharedBitmap};
pub use self::exclusive::ExclusiveBitmap;
pub use self::slice::{ArcSlice, BaseSlice, RefSlice};
pub use self::tracked::{HarvestError, Harvester, Marker, MarkerBitmap, TrackedBitmap};
use std::alloc::{AllocError, Global};

/// Tracks which parts of a range of bytes were written.
///
/// ```text
/// bitmap.mark_dirty(offset, len);
/// let written = bitmap.dirty_at(offset);
/// ```
pub trait Bitmap {
    /// What a mark of some bytes from an offset on may leave of a bitmap: the type's own relation, which an
    /// `ExactBitmap` ties to pages.
    ghost marks: { Self → ℕ → ℕ → Self → Type 0 };

    /// What may be reported of the byte at an offset.
    ghost tells: { Self → ℕ → Bool → Type 0 };

    /// What `NewBitmap` may make for a length in bytes: the type's own relation, too. A bitmap that is not made for a
    /// length leaves it empty.
    ghost made: { ℕ → Self → Type 0 } = { λ _ _. ⊥ };

    /// Marks `len` bytes from `offset` on as written, and none if `len` is 0. An exact bitmap makes the pages of
    /// these bytes dirty. What lies past its last page, or past 2^64 - 1, is left out: the crate's README.md,
    /// "Page sets".
    fn mark_dirty(&mut self, offset: usize, len: usize)
        ensures { marks self.old offset len self.new };

    /// Whether the byte at `offset` is reported as written. An exact bitmap reports whether the byte's page is dirty.
    /// It is false past its last page.
    fn dirty_at(&self, offset: usize) -> bool
        ensures { tells self.now offset result };
}

/// A bitmap that tracks a set of pages, exactly: the crate's README.md, "Page sets".
pub trait ExactBitmap: Bitmap {
    /// The pages that it tracks.
    ghost pages: { Self → PageSet };

    /// The page size in bytes and the number of pages, or nothing if nothing is tracked.
    fn shape(&self) -> Option<(usize, usize)>
        ensures { result ≡ page_set.shape (pages self.now) };

    /// The numbers of the dirty pages, ascending. `AllocError` if the allocation of the list fails. If no page
    /// is dirty, it allocates nothing.
    ///
    /// Leaves open: a failed allocation each time that a page is dirty. Then nothing changed.
    fn dirty_pages(&self, alloc: Global) -> Result<Vec<usize>, AllocError>
        ensures dirty { IfOk result (λ dirty. dirty.items ≡ page_set.dirty_pages (pages self.now)) }
        ensures refused { OnErr result (page_set.dirty_pages (pages self.now) ≢ []) }
    {
        let mut dirty = Vec::new(alloc);
        if let Some((page_size, count)) = self.shape() {
            for page in 0..count {
                if self.dirty_at(page * page_size) {
                    dirty.push(page)?;
                }
            }
        }
        Ok(dirty)
    }

    /// Takes the dirty pages: gives their numbers, ascending, and makes them clean. `AllocError` if the allocation
    /// of the list fails, and then nothing changes. If no page is dirty, it allocates nothing.
    ///
    /// Leaves open: a failed allocation each time that a page is dirty. Then nothing changed.
    fn harvest(&mut self, alloc: Global) -> Result<Vec<usize>, AllocError>
        ensures dirty { IfOk result (λ dirty. dirty.items ≡ page_set.dirty_pages (pages self.old)) }
        ensures clean { OnOk result (pages self.new ≡ page_set.cleaned (pages self.old)) }
        ensures refused { OnErr result ((self.new ≡ self.old) × (page_set.dirty_pages (pages self.old) ≢ [])) };

    /// Pages have a size, and every page begins at an offset of 64 bits.
    ghost fits: { (b : Self) → IsPageSet (pages b) };

    /// A mark makes the pages of its bytes dirty, and no other.
    ghost marks_pages: { (old new : Self) (offset len : ℕ) → Self.marks old offset len new
        → pages new ≡ page_set.marked offset len (pages old) };

    /// A byte is reported dirty if its page is dirty.
    ghost tells_pages: { (b : Self) (offset : ℕ) (told : Bool) → Self.tells b offset told
        → told ≡ page_set.is_dirty_at (pages b) offset };

    /// What is made for a length tracks all of its bytes, if it tracks any, and none is dirty.
    ghost made_clean: { (len : ℕ) (b : Self) → Self.made len b → IsCleanFor len (pages b) };
}

/// A bitmap that can be made for a length in bytes.
pub trait NewBitmap: Bitmap {
    /// A clean bitmap for `len` bytes, which may be 0. `AllocError` if its allocation fails.
    ///
    /// Leaves open: a failed allocation each time.
    fn with_len(alloc: Global, len: usize) -> Result<Self, AllocError>
        ensures { IfOk result (Self.made len) };
}

/// Tracks nothing.
impl Bitmap for () {
    ghost use Rattle.std.specs.Prelude.{◌≡◌, false};

    ghost marks = { λ old offset len new. new ≡ old };

    ghost tells = { λ b offset told. told ≡ false };

    ghost made = { λ len b. Unit {0} };

    fn mark_dirty(&mut self, _offset: usize, _len: usize) {}

    fn dirty_at(&self, _offset: usize) -> bool {
        false
    }
}

impl ExactBitmap for () {
    ghost use Rattle.std.specs.Prelude.{None, refl};

    ghost pages = { λ _. None };

    ghost fits = { λ _. tt };

    ghost marks_pages = { λ old new offset len h. refl };

    ghost tells_pages = { λ b offset told h. h };

    ghost made_clean = { λ len b h. tt };

    fn shape(&self) -> Option<(usize, usize)> {
        None
    }

    fn harvest(&mut self, alloc: Global) -> Result<Vec<usize>, AllocError> {
        Ok(Vec::new(alloc))
    }
}

impl NewBitmap for () {
    fn with_len(_alloc: Global, _len: usize) -> Result<(), AllocError> {
        Ok(())
    }
}

/// Tracks what the bitmap that it holds tracks, and nothing if it holds none.
impl<B: Bitmap> Bitmap for Option<B> {
    ghost use Rattle.vm_memory_base.specs.OptionalBitmap.{MarksOption, TellsOption};

    ghost marks = { MarksOption B.marks };

    ghost tells = { TellsOption B.tells };

    #[inline]
    fn mark_dirty(&mut self, offset: usize, len: usize) {
        if let Some(bitmap) = self {
            bitmap.mark_dirty(offset, len);
        }
    }

    #[inline]
    fn dirty_at(&self, offset: usize) -> bool {
        match self {
            Some(bitmap) => bitmap.dirty_at(offset),
            None => false,
        }
    }
}

impl<B: ExactBitmap> ExactBitmap for Option<B> {
    ghost use Rattle.std.specs.Prelude.{Some, None, option_and_then};
    ghost use Rattle.vm_memory_base.specs.lemmas.OptionalPages.{pages_after_marks, told_of_pages};

    ghost pages = { option_and_then B.pages };

    ghost fits = { elim [ None ↦ tt | Some b ↦ B.fits b ] };

    ghost marks_pages = { pages_after_marks B.marks B.pages B.marks_pages };

    ghost tells_pages = { told_of_pages B.tells B.pages B.tells_pages };

    ghost made_clean = { λ len b none. absurd none };

    #[inline]
    fn shape(&self) -> Option<(usize, usize)> {
        match self {
            Some(bitmap) => bitmap.shape(),
            None => None,
        }
    }

    fn dirty_pages(&self, alloc: Global) -> Result<Vec<usize>, AllocError> {
        match self {
            Some(bitmap) => bitmap.dirty_pages(alloc),
            None => Ok(Vec::new(alloc)),
        }
    }

    fn harvest(&mut self, alloc: Global) -> Result<Vec<usize>, AllocError> {
        match self {
            Some(bitmap) => bitmap.harvest(alloc),
            None => Ok(Vec::new(alloc)),
        }
    }
}

/// Names a bitmap of a host: that of a block, or a space, by its number.
#[derive(Clone, Copy, Debug, PartialEq, Eq)]
pub enum BitmapId {
    Block(usize),
    Space(usize),
}

/// A view of a named bitmap, whose offset 0 is the bitmap's offset `base`.
#[derive(Clone, Copy, Debug, PartialEq, Eq)]
pub struct BitmapRef {
    pub id: BitmapId,
    pub base: usize,
}

/// The view of a bitmap, whatever its type.
pub type BS = BitmapRef;

/// The view of the bitmap of a memory's region, whatever the memory.
pub type MS = BitmapRef;

impl BitmapRef {
    /// The view that begins `offset` bytes further on, modulo 2^64.
    pub fn slice_at(&self, offset: usize) -> BitmapRef
        ensures { result ≡ record self.now { base = in_view self.now.base offset } }
    {
        BitmapRef {
            id: self.id,
            base: self.base.wrapping_add(offset),
        }
    }
}
