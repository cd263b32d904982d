//! A slice of a bitmap that is shared.
ghost use Rattle.std.specs.Prelude.{◌≡◌, IfOk, IsOk};
ghost use Rattle.vm_memory_base.specs.Pages.{in_view};

use super::Bitmap;
use super::atomic::SharedBitmap;
use crate::lends::Lends;
use std::alloc::AllocError;
use std::fmt;
use std::sync::Arc;

/// A slice of the bitmap that `P` lends, whose offset 0 is the bitmap's offset `base`.
///
/// ```rust
/// use std::num::NonZeroUsize;
/// use vm_memory_base::{AtomicBitmap, Bitmap, RefSlice};
///
/// let bitmap = AtomicBitmap::new(rt.alloc(), 0x800, NonZeroUsize::MIN)?;
/// let mut slice = RefSlice::new(&bitmap, 0x400);
/// slice.mark_dirty(0, 0x100);
/// assert!(rt; bitmap.is_addr_set(0x4ff));
/// assert!(rt; !slice.dirty_at(0x100));
/// ```
#[derive(Clone, Copy, Drop)]
pub struct BaseSlice<P> {
    inner: P,
    base: usize,
}

/// A slice of a bitmap that is borrowed.
pub type RefSlice<'a, B> = BaseSlice<&'a B>;

/// A slice of a bitmap that several own.
pub type ArcSlice<B> = BaseSlice<Arc<B>>;

impl<P> BaseSlice<P> {
    ghost use Rattle.vm_memory_base.specs.Slices.{inner_of, base_of};

    /// The slice that begins at `offset`.
    #[inline]
    pub fn new(inner: P, offset: usize) -> BaseSlice<P>
        ensures inner { inner_of result ≡ inner }
        ensures base { base_of result ≡ offset }
    {
        BaseSlice {
            inner,
            base: offset,
        }
    }
}

impl<P: Clone> BaseSlice<P> {
    ghost use Rattle.vm_memory_base.specs.Slices.{inner_of, base_of};

    /// The slice of the same bitmap that begins `offset` bytes further on, modulo 2^64. `AllocError` if what
    /// lends the bitmap cannot be cloned. A reference always can.
    pub fn slice_at(&self, offset: usize) -> Result<BaseSlice<P>, AllocError>
        ensures inner { IfOk result (λ s. P.is_clone (inner_of self.now) (inner_of s)) }
        ensures base { IfOk result (λ s. base_of s ≡ in_view (base_of self.now) offset) }
        ensures succeeds { P.is_infallible (inner_of self.now) → IsOk result }
    {
        let inner = self.inner.clone()?;
        Ok(BaseSlice {
            inner,
            base: self.base.wrapping_add(offset),
        })
    }
}

/// Forwards to the bitmap, adding the slice's base to each offset, modulo 2^64.
impl<P: Lends> Bitmap for BaseSlice<P>
where
    P::Target: SharedBitmap,
{
    ghost use Rattle.vm_memory_base.specs.Slices.{inner_of, base_of};

    ghost marks = { λ old offset len new. (new ≡ old)
        × P.Target.marks (P.lent (inner_of old)) (in_view (base_of old) offset) len (P.lent (inner_of old)) };

    ghost tells = { λ s offset told. P.Target.tells (P.lent (inner_of s)) (in_view (base_of s) offset) told };

    #[inline]
    fn mark_dirty(&mut self, offset: usize, len: usize) {
        self.mark_shared(offset, len);
    }

    #[inline]
    fn dirty_at(&self, offset: usize) -> bool {
        self.inner.lend().dirty_at(self.base.wrapping_add(offset))
    }
}

impl<P: Lends> SharedBitmap for BaseSlice<P>
where
    P::Target: SharedBitmap,
{
    #[inline]
    fn mark_shared(&self, offset: usize, len: usize) {
        self.inner
            .lend()
            .mark_shared(self.base.wrapping_add(offset), len);
    }
}

/// Writes `(bitmap slice)`.
impl<P> fmt::Debug for BaseSlice<P> {
    ghost use Rattle.std.specs.Prelude.{Some, codes};

    ghost debug_output = { λ _. Some (codes "(bitmap slice)") };

    fn fmt<W: fmt::Write>(&self, f: &mut fmt::Formatter<W>) -> fmt::Result {
        write!(f, "(bitmap slice)")
    }
}

/// Begins at offset 0.
impl<P: Default> Default for BaseSlice<P> {
    ghost use Rattle.vm_memory_base.specs.Slices.{inner_of, base_of};

    ghost is_default = { λ s. P.is_default (inner_of s) × (base_of s ≡ 0) };

    fn default() -> BaseSlice<P> {
        BaseSlice {
            inner: P::default(),
            base: 0,
        }
    }
}
