//! Windows of host memory.
ghost use Rattle.std.specs.Prelude.{◌≡◌, ◌+◌, ◌-◌, ◌*◌, ◌/◌, ◌%◌, ◌^◌, ◌++◌, min, length, take, drop, ◌<◌, ◌≤◌, ◌↔◌};
ghost use Rattle.std.specs.Prelude.{◌∷◌, [], ◌==◌, if◌then◌else◌, IsTrue, IfOk, MatchResult};
ghost use Rattle.std.specs.List.{flat_map};
ghost use Rattle.vm_memory_base.specs.Bytes.{values_of};
ghost use Rattle.vm_memory_guest.specs.Host.{shape_of, bytes_at, Holds};
ghost use Rattle.vm_memory_guest.specs.Window.{block_window, window_names, cells_of, part, window_from, subslice_of};
ghost use Rattle.vm_memory_guest.specs.Window.{Writes};
ghost use Rattle.vm_memory_guest.specs.Answer.{window_reach};
ghost use Rattle.vm_memory_guest.specs.Copy.{front, Copies};
ghost use Rattle.vm_memory_guest.specs.Transfer.{Alone, Once, cut_of, exact_of, only};
ghost use Rattle.vm_memory_guest.specs.Typed.{aligned_of, answered, size_of};
ghost use Rattle.vm_memory_guest.specs.lemmas.TypedFacts.{aligned-sized};
ghost use Rattle.vm_memory_base.specs.declared.io.VolatileMemoryError.TheVariants.{PartialBuffer, Memory};

use crate::bytes::Bytes;
use crate::host::address::{HostAddress, Place};
use crate::host::{BlockId, HostMemory, HostShape, Named};
use std::marker::Model;
use std::sync::atomic::Ordering;
use vm_memory_base::{
    AtomicAccess, Bitmap, BitmapId, BitmapRef, ByteValued, ReadVolatile, VolatileMemoryError,
    VolatileMemoryResult, WriteVolatile, offer_again,
};

/// A window: some bytes of a block from an offset on, and the view of a bitmap that writes mark.
///
/// It is a plain value, which names its block and its bitmap by number.
#[derive(Clone, Copy, Debug)]
pub struct VolatileSlice {
    pub(crate) block: BlockId,
    pub(crate) offset: usize,
    pub(crate) size: usize,
    pub(crate) bitmap: BitmapRef,
}

impl Model for VolatileSlice {
    ghost use Rattle.std.specs.Prelude.{◌+◌, ◌<◌, ◌^◌};
    ghost use Rattle.vm_memory_guest.specs.Window.{Window};

    ghost Value = { Window };

    ghost view = { λ w. record { block = w.block; offset = w.offset; size = w.size; bitmap = w.bitmap } };

    ghost invariant = { λ w. w.offset + w.size < 2 ^ 64 };

    ghost inverse = { λ w. record { block = w.block; offset = w.offset; size = w.size; bitmap = w.bitmap } };
}

impl VolatileSlice {
    // `size` bytes of a block from an offset on, of which writes mark the block's bitmap.
    #[inline]
    pub(crate) fn of_block(block: BlockId, offset: usize, size: usize) -> VolatileSlice
        requires { offset + size < 2 ^ 64 }
        ensures { result ≡ block_window block.0 offset size }
    {
        let bitmap = BitmapRef {
            id: BitmapId::Block(block.0),
            base: offset,
        };
        VolatileSlice {
            block,
            offset,
            size,
            bitmap,
        }
    }

    /// The number of bytes.
    #[inline]
    pub fn len(&self) -> usize
        ensures { result ≡ self.now.size }
    {
        self.size
    }

    /// Whether there are no bytes.
    #[inline]
    pub fn is_empty(&self) -> bool
        ensures { IsTrue result ↔ (self.now.size ≡ 0) }
    {
        self.size == 0
    }

    /// The view of a bitmap that writes mark.
    #[inline]
    pub fn bitmap(&self) -> BitmapRef
        ensures { result ≡ self.now.bitmap }
    {
        self.bitmap
    }

    // Where its first byte is.
    #[inline]
    pub(crate) fn host_address(&self) -> HostAddress
        ensures { result ≡ record { block = self.now.block; offset = self.now.offset } }
    {
        HostAddress {
            block: self.block,
            offset: self.offset,
        }
    }

    // Where its bytes are.
    #[inline]
    pub(crate) fn place(&self) -> Place
        ensures { result ≡ record { block = self.now.block.0; offset = self.now.offset; len = self.now.size } }
    {
        Place {
            block: self.block.0,
            offset: self.offset,
            len: self.size,
        }
    }

    /// `count` bytes from `offset` on. `Overflow` if their sum is not a 64-bit number, `OutOfBounds` at the
    /// sum if it passes the length.
    #[inline]
    pub fn subslice(&self, offset: usize, count: usize) -> VolatileMemoryResult<Self>
        ensures { result ≡ subslice_of self.now offset count }
    {
        let Some(end) = offset.checked_add(count) else {
            return Err(VolatileMemoryError::Overflow {
                base: offset,
                offset: count,
            });
        };
        if end > self.size {
            return Err(VolatileMemoryError::OutOfBounds { addr: end });
        }
        Ok(self.part(offset, count))
    }

    /// The bytes from `count` on. `Overflow` if the place in the block plus `count` is not a 64-bit number,
    /// `OutOfBounds` at that sum if `count` passes the length.
    #[inline]
    pub fn offset(&self, count: usize) -> VolatileMemoryResult<Self>
        ensures { result ≡ window_from self.now count }
    {
        let Some(start) = self.offset.checked_add(count) else {
            return Err(VolatileMemoryError::Overflow {
                base: self.offset,
                offset: count,
            });
        };
        if count > self.size {
            return Err(VolatileMemoryError::OutOfBounds { addr: start });
        }
        Ok(self.part(count, self.size - count))
    }

    /// The first `mid` bytes, and the bytes from there on. It is refused as `offset` is.
    #[inline]
    pub fn split_at(&self, mid: usize) -> VolatileMemoryResult<(Self, Self)>
        ensures { result ≡ answered (λ end. (front self.now mid, end)) (window_from self.now mid) }
    {
        let end = self.offset(mid)?;
        Ok((self.front(mid), end))
    }

    // The first `size` bytes.
    #[inline]
    pub(crate) fn front(&self, size: usize) -> Self
        requires { size ≤ self.now.size }
        ensures { result ≡ front self.now size }
    {
        VolatileSlice { size, ..*self }
    }

    #[inline]
    pub(crate) fn part(&self, offset: usize, size: usize) -> Self
        requires { offset + size ≤ self.now.size }
        ensures { result ≡ part self.now offset size }
    {
        VolatileSlice {
            block: self.block,
            offset: self.offset + offset,
            size,
            bitmap: self.bitmap.slice_at(offset),
        }
    }

    // The same bytes, of which writes mark another view of a bitmap.
    #[inline]
    pub(crate) fn marking(&self, bitmap: BitmapRef) -> Self
        ensures { result ≡ record self.now { bitmap = bitmap } }
    {
        VolatileSlice { bitmap, ..*self }
    }

    // The part of a window that an access of so many bytes at an offset reaches.
    #[inline]
    fn reached(&self, offset: usize, count: usize) -> VolatileMemoryResult<VolatileSlice>
        requires { 0 < count }
        ensures reach { let reach = window_reach self.now offset count in
            MatchResult result (λ w. reach ≡ record { windows = w ∷ []; fault = None })
            (λ e. reach ≡ record { windows = []; fault = Some e }) }
        ensures at_most { IfOk result (λ w. w.size ≤ count) }
    {
        if offset >= self.size {
            return Err(VolatileMemoryError::OutOfBounds { addr: offset });
        }
        Ok(self.part(offset, count.min(self.size - offset)))
    }

    // At most `count` of the bytes from an offset on.
    fn cut(&self, offset: usize, count: usize) -> VolatileMemoryResult<VolatileSlice>
        ensures cut { only result ≡ cut_of self.now offset count }
        ensures at_most { IfOk result (λ w. w.size ≤ count) }
    {
        let window = self.offset(offset)?;
        Ok(window.front(count.min(window.len())))
    }

    // Whether the place in the block is a multiple of `size`.
    #[inline]
    pub(crate) fn is_aligned(&self, size: usize) -> bool
        requires { 0 < size }
        ensures { result ≡ (self.now.offset % size == 0) }
    {
        self.offset % size == 0
    }

    // `size` bytes from an offset on, whose place in the block is a multiple of `size`.
    #[inline]
    fn aligned(&self, offset: usize, size: usize) -> VolatileMemoryResult<VolatileSlice>
        requires { 0 < size }
        ensures { result ≡ aligned_of self.now offset size }
    {
        let window = self.subslice(offset, size)?;
        if !window.is_aligned(size) {
            return Err(VolatileMemoryError::Misaligned {
                addr: window.offset,
                alignment: size,
            });
        }
        Ok(window)
    }

    /// Copies its first bytes to the front of another window, up to the length of the shorter. The bytes are copied as
    /// they were, even if the two overlap, and marked in the other. The host has to hold both.
    #[inline]
    pub fn copy_to_volatile_slice<B: Bitmap>(&self, host: &mut HostMemory<B>, slice: VolatileSlice)
        requires from { Holds (shape_of host.old) (window_names self.now) }
        requires to { Holds (shape_of host.old) (window_names slice) }
        ensures bytes { Copies B.marks self.now slice host.old host.new }
        ensures shape { shape_of host.new ≡ shape_of host.old }
    {
        let count = self.size.min(slice.size);
        host.copy(&self.front(count), &slice.front(count));
    }

    /// Copies values out of its first bytes: those that it has whole and that the buffer has room for. It returns how
    /// many. A value has to have a byte or more, and the host to hold the window.
    #[inline]
    pub fn copy_to<T: ByteValued, B: Bitmap>(&self, host: &HostMemory<B>, buf: &mut [T]) -> usize
        requires held { Holds (shape_of host.now) (window_names self.now) }
        requires some { 0 < T.width }
        ensures count { result ≡ min (length buf.old) (self.now.size / size_of T.width) }
        ensures values { T.width < 2 ^ 64 → buf.new
            ≡ values_of T.value_of T.width result (bytes_at host.now.blocks (cells_of self.now))
            ++ drop result buf.old }
    {
        let count = buf.len().min(self.size / T::size());
        host.read_values(self, &mut buf[..count]);
        count
    }

    /// Copies the bytes of values to its front, as many values as fit whole, and marks these bytes. A value has to
    /// have a byte or more, and the host to hold the window.
    #[inline]
    pub fn copy_from<T: ByteValued, B: Bitmap>(&self, host: &mut HostMemory<B>, buf: &[T])
        requires held { Holds (shape_of host.old) (window_names self.now) }
        requires some { 0 < T.width }
        ensures bytes { T.width < 2 ^ 64 → let count = min (length buf.now) (self.now.size / T.width) in
            let bytes = flat_map T.bytes (take count buf.now) in
            Writes B.marks (front self.now (count * T.width) ∷ []) bytes host.old host.new }
        ensures shape { shape_of host.new ≡ shape_of host.old }
    {
        let size = T::size();
        let count = buf.len().min(self.size / size);
        host.write_values(&self.front(count * size), &buf[..count]);
    }
}

impl Named for VolatileSlice {
    ghost names = { window_names };

    fn held_by(&self, shape: &HostShape) -> bool {
        shape.has_place(self.block, self.offset, self.size) && shape.has_bitmap(self.bitmap.id)
    }
}

impl Bytes<usize> for VolatileSlice {
    type E = VolatileMemoryError;

    ghost reach = { λ w tables offset count access. window_reach w offset count };

    ghost place = { λ w tables offset size access. aligned_of w offset size };

    ghost partial = { PartialBuffer };

    ghost no_memory = { Memory };

    ghost may_want = { λ w tables offset n access. ⊥ };

    ghost moved = { λ w tables offset count access. cut_of w offset count };

    ghost moved_whole = { λ w tables offset count access. exact_of w offset count };

    ghost filling = { Alone };

    ghost sending = { Once };

    ghost failure = { λ e. e };

    #[inline]
    fn write<B: Bitmap>(
        &self,
        host: &mut HostMemory<B>,
        buf: &[u8],
        addr: usize,
    ) -> VolatileMemoryResult<usize> {
        if buf.is_empty() {
            return Ok(0);
        }
        let window = self.reached(addr, buf.len())?;
        let count = window.len();
        host.write(&window, &buf[..count]);
        Ok(count)
    }

    #[inline]
    fn read<B: Bitmap>(
        &self,
        host: &HostMemory<B>,
        buf: &mut [u8],
        addr: usize,
    ) -> VolatileMemoryResult<usize> {
        if buf.is_empty() {
            return Ok(0);
        }
        let window = self.reached(addr, buf.len())?;
        let count = window.len();
        buf[..count].copy_from_slice(host.bytes(&window));
        Ok(count)
    }

    #[inline]
    fn write_slice<B: Bitmap>(
        &self,
        host: &mut HostMemory<B>,
        buf: &[u8],
        addr: usize,
    ) -> VolatileMemoryResult<()> {
        let completed = self.write(host, buf, addr)?;
        whole(buf.len(), completed)
    }

    #[inline]
    fn read_slice<B: Bitmap>(
        &self,
        host: &HostMemory<B>,
        buf: &mut [u8],
        addr: usize,
    ) -> VolatileMemoryResult<()> {
        let expected = buf.len();
        let completed = self.read(host, buf, addr)?;
        whole(expected, completed)
    }

    #[inline]
    fn write_obj<T: ByteValued, B: Bitmap>(
        &self,
        host: &mut HostMemory<B>,
        val: T,
        addr: usize,
    ) -> VolatileMemoryResult<()> {
        let expected = T::size();
        if expected == 0 {
            return Ok(());
        }
        let window = self.reached(addr, expected)?;
        host.write_value(&window, &val, 0);
        whole(expected, window.len())
    }

    #[inline]
    fn read_obj<T: ByteValued, B: Bitmap>(
        &self,
        host: &HostMemory<B>,
        addr: usize,
    ) -> VolatileMemoryResult<T> {
        let expected = T::size();
        if expected == 0 {
            let value = T::zeroed();
            value.recall_law();
            return Ok(value);
        }
        let window = self.reached(addr, expected)?;
        whole(expected, window.len())?;
        Ok(host.value(&window))
    }

    #[inline(always)]
    fn store<T: AtomicAccess, B: Bitmap>(
        &self,
        host: &mut HostMemory<B>,
        val: T,
        addr: usize,
        _order: Ordering,
    ) -> VolatileMemoryResult<()> {
        let window = self.aligned(addr, T::size())?;
        host.write_value(&window, &val, 0);
        Ok(())
    }

    #[inline(always)]
    fn load<T: AtomicAccess, B: Bitmap>(
        &self,
        host: &HostMemory<B>,
        addr: usize,
        _order: Ordering,
    ) -> VolatileMemoryResult<T> {
        let window = self.aligned(addr, T::size())?;
        Ok(host.value(&window))
    }

    fn read_volatile_from<F: ReadVolatile, B: Bitmap>(
        &self,
        host: &mut HostMemory<B>,
        addr: usize,
        src: &mut F,
        count: usize,
    ) -> VolatileMemoryResult<usize> {
        let window = self.cut(addr, count)?;
        host.read_from(&window, src)
    }

    fn read_exact_volatile_from<F: ReadVolatile, B: Bitmap>(
        &self,
        host: &mut HostMemory<B>,
        addr: usize,
        src: &mut F,
        count: usize,
    ) -> VolatileMemoryResult<()> {
        let window = self.subslice(addr, count)?;
        host.fill_whole(&window, src)?;
        Ok(())
    }

    fn write_volatile_to<F: WriteVolatile, B: Bitmap>(
        &self,
        host: &HostMemory<B>,
        addr: usize,
        dst: &mut F,
        count: usize,
    ) -> VolatileMemoryResult<usize> {
        let window = self.cut(addr, count)?;
        offer_again(dst, host.bytes(&window))
    }

    fn write_all_volatile_to<F: WriteVolatile, B: Bitmap>(
        &self,
        host: &HostMemory<B>,
        addr: usize,
        dst: &mut F,
        count: usize,
    ) -> VolatileMemoryResult<()> {
        let window = self.subslice(addr, count)?;
        dst.write_all_volatile(host.bytes(&window))
    }

    ghost place_has_all = { λ w tables offset size access. aligned-sized w offset size };
}

// Whether all that was expected was completed.
#[inline]
pub(crate) fn whole(expected: usize, completed: usize) -> VolatileMemoryResult<()>
    ensures { let short = VolatileMemoryError.PartialBuffer expected completed in
        result ≡ (if completed == expected then Ok tt else Err short) }
{
    if completed != expected {
        return Err(VolatileMemoryError::PartialBuffer {
            expected,
            completed,
        });
    }
    Ok(())
}
