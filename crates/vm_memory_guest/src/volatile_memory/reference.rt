//! References to values in host memory.
ghost use Rattle.std.specs.Prelude.{◌≡◌, ◌^◌, ◌<◌, [], ◌∷◌};
ghost use Rattle.vm_memory_guest.specs.Host.{shape_of, bytes_at, Holds};
ghost use Rattle.vm_memory_guest.specs.Typed.{size_of};
ghost use Rattle.vm_memory_guest.specs.Window.{window_names, cells_of, Writes};

use super::slice::VolatileSlice;
use crate::host::{HostMemory, HostShape, Named};
use std::marker::{Model, PhantomData};
use vm_memory_base::{Bitmap, BitmapRef, ByteSized, ByteValued};

/// A value in host memory: a window of its bytes.
///
/// ```text
/// let word = window.get_ref::<u32>(8)?;
/// word.store(&mut host, 7);
/// assert_eq!(word.load(&host), 7);
/// ```
#[derive(Clone, Copy, Debug)]
pub struct VolatileRef<T: ByteSized> {
    slice: VolatileSlice,
    of: PhantomData<T>,
}

impl<T: ByteSized> Model for VolatileRef<T> {
    ghost use Rattle.std.specs.Prelude.{◌≡◌};
    ghost use Rattle.vm_memory_guest.specs.Typed.{size_of};
    ghost use Rattle.vm_memory_guest.specs.Window.{Window};

    ghost Value = { Window };

    ghost view = { λ r. r.slice };

    ghost invariant = { λ r. r.slice.size ≡ size_of T.width };

    ghost inverse = { λ w. record { slice = w; of = record {} } };
}

impl<T: ByteValued> VolatileRef<T> {
    // The value in a window of as many bytes as it has.
    #[inline]
    pub(super) fn new(slice: VolatileSlice) -> Self
        requires { slice.size ≡ size_of T.width }
        ensures { result ≡ slice }
    {
        VolatileRef {
            slice,
            of: PhantomData,
        }
    }

    /// The number of bytes of the value.
    #[inline]
    pub fn len(&self) -> usize
        ensures { result ≡ size_of T.width }
    {
        T::size()
    }

    /// The view of a bitmap that a store marks.
    #[inline]
    pub fn bitmap(&self) -> BitmapRef
        ensures { result ≡ self.now.bitmap }
    {
        self.slice.bitmap()
    }

    /// The window of the value's bytes.
    #[inline]
    pub fn to_slice(&self) -> VolatileSlice
        ensures { result ≡ self.now }
    {
        self.slice
    }

    /// Writes the bytes of a value, and marks them, unless there are none. The host has to hold the
    /// window.
    #[inline]
    pub fn store<B: Bitmap>(&self, host: &mut HostMemory<B>, v: T)
        requires { Holds (shape_of host.old) (window_names self.now) }
        ensures bytes { Writes B.marks (self.now ∷ []) (T.bytes v) host.old host.new }
        ensures shape { shape_of host.new ≡ shape_of host.old }
    {
        host.write_value(&self.slice, &v, 0);
    }

    /// Reads the value of the bytes. The host has to hold the window.
    #[inline]
    pub fn load<B: Bitmap>(&self, host: &HostMemory<B>) -> T
        requires { Holds (shape_of host.now) (window_names self.now) }
        ensures { T.width < 2 ^ 64 → result ≡ T.value_of (bytes_at host.now.blocks (cells_of self.now)) }
    {
        host.value(&self.slice)
    }
}

impl<T: ByteValued> Named for VolatileRef<T> {
    ghost names = { window_names };

    fn held_by(&self, shape: &HostShape) -> bool {
        self.slice.held_by(shape)
    }
}
