//! Values of one type in host memory, one after the other.
ghost use Rattle.std.specs.Prelude.{◌≡◌, ◌+◌, ◌*◌, ◌^◌, ◌<◌, ◌≤◌, ◌↔◌, min, [], ◌∷◌, ◌++◌, take, drop, length, IsTrue};
ghost use Rattle.std.specs.List.{flat_map};
ghost use Rattle.vm_memory_base.specs.Bytes.{values_of};
ghost use Rattle.vm_memory_guest.specs.Copy.{front, Copies};
ghost use Rattle.vm_memory_guest.specs.Host.{shape_of, bytes_at, Holds};
ghost use Rattle.vm_memory_guest.specs.Typed.{size_of};
ghost use Rattle.vm_memory_guest.specs.Volatile.{element_at};
ghost use Rattle.vm_memory_guest.specs.Window.{window_names, cells_of, Writes};

use super::reference::VolatileRef;
use super::slice::VolatileSlice;
use crate::host::{HostMemory, HostShape, Named};
use std::marker::{Model, PhantomData};
use vm_memory_base::{Bitmap, BitmapRef, ByteSized, ByteValued};

/// Values of one type in host memory, one after the other: a window of their bytes.
///
/// ```text
/// let words = window.get_array_ref::<u32>(8, 4)?;
/// words.store(&mut host, 3, 7);
/// assert_eq!(words.load(&host, 3), 7);
/// ```
#[derive(Clone, Copy, Debug)]
pub struct VolatileArrayRef<T: ByteSized> {
    slice: VolatileSlice,
    nelem: usize,
    of: PhantomData<T>,
}

impl<T: ByteSized> Model for VolatileArrayRef<T> {
    ghost use Rattle.std.specs.Prelude.{◌≡◌, ◌*◌, ◌^◌, ◌<◌};
    ghost use Rattle.vm_memory_guest.specs.Typed.{size_of};
    ghost use Rattle.vm_memory_guest.specs.Volatile.{Elements};

    ghost Value = { Elements };

    ghost view = { λ r. record { window = r.slice; count = r.nelem } };

    ghost invariant = { λ r. (r.slice.size ≡ r.nelem * size_of T.width) × (r.slice.size < 2 ^ 64) };

    ghost inverse = { λ v. record { slice = v.window; nelem = v.count; of = record {} } };
}

impl<T: ByteValued> VolatileArrayRef<T> {
    // So many values in a window of as many bytes as they have.
    #[inline]
    pub(super) fn new(slice: VolatileSlice, nelem: usize) -> Self
        requires size { slice.size ≡ nelem * size_of T.width }
        requires short { slice.size < 2 ^ 64 }
        ensures { result ≡ record { window = slice; count = nelem } }
    {
        VolatileArrayRef {
            slice,
            nelem,
            of: PhantomData,
        }
    }

    /// Whether there are no values.
    #[inline]
    pub fn is_empty(&self) -> bool
        ensures { IsTrue result ↔ (self.now.count ≡ 0) }
    {
        self.nelem == 0
    }

    /// The number of values.
    #[inline]
    pub fn len(&self) -> usize
        ensures { result ≡ self.now.count }
    {
        self.nelem
    }

    /// The number of bytes of each value.
    #[inline]
    pub fn element_size(&self) -> usize
        ensures { result ≡ size_of T.width }
    {
        T::size()
    }

    /// The view of a bitmap that writes mark.
    #[inline]
    pub fn bitmap(&self) -> BitmapRef
        ensures { result ≡ self.now.window.bitmap }
    {
        self.slice.bitmap()
    }

    /// The window of all bytes.
    #[inline]
    pub fn to_slice(&self) -> VolatileSlice
        ensures { result ≡ self.now.window }
    {
        self.slice
    }

    /// The value of this number, counted from 0. It has to be below the length.
    #[inline]
    pub fn ref_at(&self, index: usize) -> VolatileRef<T>
        requires { index < self.now.count }
        ensures value { result ≡ element_at self.now (size_of T.width) index }
        ensures inside { index * size_of T.width + size_of T.width ≤ self.now.window.size }
    {
        let size = T::size();
        VolatileRef::new(self.slice.part(index * size, size))
    }

    /// Reads the value of this number, which has to be below the length. The host has to hold the window.
    #[inline]
    pub fn load<B: Bitmap>(&self, host: &HostMemory<B>, index: usize) -> T
        requires inside { index < self.now.count }
        requires held { Holds (shape_of host.now) (window_names self.now.window) }
        ensures { T.width < 2 ^ 64
            → result ≡ T.value_of (bytes_at host.now.blocks (cells_of (element_at self.now T.width index))) }
    {
        self.ref_at(index).load(host)
    }

    /// Writes the value of this number, which has to be below the length, and marks its bytes, unless there are none.
    /// The host has to hold the window.
    #[inline]
    pub fn store<B: Bitmap>(&self, host: &mut HostMemory<B>, index: usize, value: T)
        requires inside { index < self.now.count }
        requires held { Holds (shape_of host.old) (window_names self.now.window) }
        ensures bytes { Writes B.marks (element_at self.now (size_of T.width) index ∷ []) (T.bytes value)
            host.old host.new }
        ensures shape { shape_of host.new ≡ shape_of host.old }
    {
        self.ref_at(index).store(host, value);
    }

    /// Copies values out, from the first on, as many as the buffer has room for, and returns how many. A value has to
    /// have a byte or more, and the host to hold the window.
    #[inline]
    pub fn copy_to<B: Bitmap>(&self, host: &HostMemory<B>, buf: &mut [T]) -> usize
        requires held { Holds (shape_of host.now) (window_names self.now.window) }
        requires some { 0 < T.width }
        ensures count { result ≡ min (length buf.old) self.now.count }
        ensures values { T.width < 2 ^ 64 → let bytes = bytes_at host.now.blocks (cells_of self.now.window) in
            buf.new ≡ values_of T.value_of T.width result bytes ++ drop result buf.old }
    {
        let count = buf.len().min(self.nelem);
        host.read_values(&self.slice, &mut buf[..count]);
        count
    }

    /// Copies values in, from the first on, as many as there is room for, and marks their bytes. A value has to have
    /// a byte or more, and the host to hold the window.
    #[inline]
    pub fn copy_from<B: Bitmap>(&self, host: &mut HostMemory<B>, buf: &[T])
        requires held { Holds (shape_of host.old) (window_names self.now.window) }
        requires some { 0 < T.width }
        ensures bytes { T.width < 2 ^ 64 → let count = min (length buf.now) self.now.count in
            let bytes = flat_map T.bytes (take count buf.now) in
            Writes B.marks (front self.now.window (count * T.width) ∷ []) bytes host.old host.new }
        ensures shape { shape_of host.new ≡ shape_of host.old }
    {
        let count = buf.len().min(self.nelem);
        host.write_values(&self.slice.front(count * T::size()), &buf[..count]);
    }

    /// Copies its first bytes to the front of a window, as `VolatileSlice::copy_to_volatile_slice` does. The host has
    /// to hold both.
    #[inline]
    pub fn copy_to_volatile_slice<B: Bitmap>(&self, host: &mut HostMemory<B>, slice: VolatileSlice)
        requires from { Holds (shape_of host.old) (window_names self.now.window) }
        requires to { Holds (shape_of host.old) (window_names slice) }
        ensures bytes { Copies B.marks self.now.window slice host.old host.new }
        ensures shape { shape_of host.new ≡ shape_of host.old }
    {
        self.slice.copy_to_volatile_slice(host, slice);
    }
}

impl<T: ByteValued> Named for VolatileArrayRef<T> {
    ghost names = { λ r. window_names r.window };

    fn held_by(&self, shape: &HostShape) -> bool {
        self.slice.held_by(shape)
    }
}

/// The bytes of a window.
impl From<VolatileSlice> for VolatileArrayRef<u8> {
    ghost from_gives = { λ w r. r ≡ record { window = w; count = w.size } };

    #[inline]
    fn from(slice: VolatileSlice) -> VolatileArrayRef<u8> {
        VolatileArrayRef::new(slice, slice.len())
    }
}
