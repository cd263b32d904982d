//! Windows of a host, whose bytes are read, written and marked.
ghost use Rattle.std.specs.List.{flat_map};
ghost use Rattle.std.specs.Prelude.{◌≡◌, ◌+◌, ◌*◌, ◌^◌, ◌<◌, ◌≤◌, [], ◌∷◌, length, take, drop};
ghost use Rattle.vm_memory_base.specs.Bytes.{values_of};
ghost use Rattle.vm_memory_guest.specs.Host as names;
ghost use Rattle.vm_memory_guest.specs.Host.{shape_of, Holds, bytes_at, cells_from, written};
ghost use Rattle.vm_memory_guest.specs.Typed.{size_of};
ghost use Rattle.vm_memory_guest.specs.Window.{block_window, window_names, bitmap_name, cells_of, Marks, MarksWindow};
ghost use Rattle.vm_memory_guest.specs.Window.{Writes};

use super::block::{copy_in, part_of, put_in, put_value_in, put_values_in, value_in};
use super::{BlockId, HostMemory};
use crate::volatile_memory::slice::VolatileSlice;
use vm_memory_base::{Bitmap, BitmapId, BitmapRef, ByteValued};

impl<B> HostMemory<B> {
    /// The window of `len` bytes of a block from `offset` on, which the host has to hold. Its writes mark the block's
    /// bitmap at their own offsets.
    #[inline]
    pub fn window(&self, block: BlockId, offset: usize, len: usize) -> VolatileSlice
        requires { Holds (shape_of self.now) (names.Place block.0 offset len ∷ []) }
        ensures value { result ≡ block_window block.0 offset len }
        ensures held { Holds (shape_of self.now) (window_names result) }
        ensures short { offset + len < 2 ^ 63 }
    {
        self.recall_law();
        VolatileSlice::of_block(block, offset, len)
    }

    /// Lends the bytes of a window, which the host has to hold.
    #[inline]
    pub fn bytes(&self, window: &VolatileSlice) -> &[u8]
        requires { Holds (shape_of self.now) (window_names window.now) }
        ensures { result.now ≡ bytes_at self.now.blocks (cells_of window.now) }
    {
        part_of(&self.blocks, window.place())
    }

    // Moves bytes to a place of a block.
    #[tactic(auto, using(crate::proofs::WrittenLaws::written_lengths))]
    #[inline]
    fn put(&mut self, block: usize, offset: usize, bytes: &[u8])
        requires { Holds (shape_of self.old) (names.Place block offset (length bytes.now) ∷ []) }
        ensures put { let cells = cells_from block offset (length bytes.now) in
            self.new ≡ record self.old { blocks = written cells bytes.now self.old.blocks } }
        ensures shape { shape_of self.new ≡ shape_of self.old }
    {
        put_in(&mut self.blocks, block, offset, bytes);
    }

    // Marks `len` bytes of a view of a bitmap, from its base on.
    #[inline]
    fn mark(&mut self, at: BitmapRef, len: usize)
    where
        B: Bitmap,
        requires { Holds (shape_of self.old) (bitmap_name at.id ∷ []) }
        ensures { Marks B.marks at.id at.base len self.old self.new }
    {
        match at.id {
            BitmapId::Block(block) => {
                let bitmap = &mut self.bitmaps[block];
                bitmap.mark_dirty(at.base, len);
            }
            BitmapId::Space(space) => {
                let bitmap = &mut self.spaces[space];
                bitmap.mark_dirty(at.base, len);
            }
        }
    }

    /// Marks the bytes of a window as a write of them would, unless there are none. It reads and writes no byte.
    #[inline]
    pub fn mark_window(&mut self, window: &VolatileSlice)
    where
        B: Bitmap,
        requires { Holds (shape_of self.old) (bitmap_name window.now.bitmap.id ∷ []) }
        ensures marks { MarksWindow B.marks window.now self.old self.new }
        ensures shape { shape_of self.new ≡ shape_of self.old }
    {
        if window.size > 0 {
            self.mark(window.bitmap, window.size);
        }
    }

    /// Moves bytes into a window of the same length, which the host has to hold, and marks them, unless there
    /// are none.
    #[inline]
    pub fn write(&mut self, window: &VolatileSlice, bytes: &[u8])
    where
        B: Bitmap,
        requires held { Holds (shape_of self.old) (window_names window.now) }
        requires size { length bytes.now ≡ window.now.size }
        ensures bytes { Writes B.marks (window.now ∷ []) bytes.now self.old self.new }
        ensures shape { shape_of self.new ≡ shape_of self.old }
    {
        self.put(window.block.0, window.offset, bytes);
        self.mark_window(window);
    }

    // Moves the bytes of a value, from byte `from` on, to a place of a block.
    #[tactic(auto, using(crate::proofs::WrittenLaws::written_lengths))]
    #[inline]
    fn put_value<T: ByteValued>(&mut self, window: &VolatileSlice, value: &T, from: usize)
        requires held { let w = window.now in
            Holds (shape_of self.old) (names.Place w.block.0 w.offset w.size ∷ []) }
        requires inside { from + window.now.size ≤ T.width }
        requires fits { from + window.now.size < 2 ^ 64 }
        ensures put { let bytes = take window.now.size (drop from (T.bytes value.now)) in
            self.new ≡ record self.old { blocks = written (cells_of window.now) bytes self.old.blocks } }
        ensures shape { shape_of self.new ≡ shape_of self.old }
    {
        put_value_in(&mut self.blocks, window.place(), value, from);
    }

    /// Moves the bytes of a value, from byte `from` on, into a window, and marks them, unless there are none.
    #[inline]
    pub(crate) fn write_value<T: ByteValued>(
        &mut self,
        window: &VolatileSlice,
        value: &T,
        from: usize,
    )
    where
        B: Bitmap,
        requires held { Holds (shape_of self.old) (window_names window.now) }
        requires inside { from + window.now.size ≤ T.width }
        requires fits { from + window.now.size < 2 ^ 64 }
        ensures bytes { Writes B.marks (window.now ∷ []) (drop from (T.bytes value.now)) self.old self.new }
        ensures shape { shape_of self.new ≡ shape_of self.old }
    {
        self.put_value(window, value, from);
        self.mark_window(window);
    }

    // Moves the bytes of values, one after the other, to a place of a block.
    #[tactic(auto, using(crate::proofs::WrittenLaws::written_lengths))]
    fn put_values<T: ByteValued>(&mut self, window: &VolatileSlice, values: &[T])
        requires held { let w = window.now in
            Holds (shape_of self.old) (names.Place w.block.0 w.offset w.size ∷ []) }
        requires size { window.now.size ≡ length values.now * size_of T.width }
        ensures put { T.width < 2 ^ 64 → self.new ≡ record self.old {
          blocks = written (cells_of window.now) (flat_map T.bytes values.now) self.old.blocks;
        } }
        ensures shape { shape_of self.new ≡ shape_of self.old }
    {
        put_values_in(&mut self.blocks, window.place(), values);
    }

    /// Moves the bytes of values, one after the other, into a window of the same length, and marks them, unless there
    /// are none.
    pub(crate) fn write_values<T: ByteValued>(&mut self, window: &VolatileSlice, values: &[T])
    where
        B: Bitmap,
        requires held { Holds (shape_of self.old) (window_names window.now) }
        requires size { window.now.size ≡ length values.now * size_of T.width }
        ensures bytes { T.width < 2 ^ 64
            → Writes B.marks (window.now ∷ []) (flat_map T.bytes values.now) self.old self.new }
        ensures shape { shape_of self.new ≡ shape_of self.old }
    {
        self.put_values(window, values);
        self.mark_window(window);
    }

    /// Replaces values by those whose bytes a window has at its front, one after the other.
    pub(crate) fn read_values<T: ByteValued>(&self, window: &VolatileSlice, values: &mut [T])
        requires held { Holds (shape_of self.now) (window_names window.now) }
        requires size { length values.old * size_of T.width ≤ window.now.size }
        ensures { T.width < 2 ^ 64 → let bytes = bytes_at self.now.blocks (cells_of window.now) in
            values.new ≡ values_of T.value_of T.width (length values.old) bytes }
    {
        let bytes = self.bytes(window);
        for k in 0..values.len() {
            values[k] = value_in(bytes, k);
        }
    }

    // Moves the bytes of a window to another of as many, as they were.
    #[tactic(auto, using(crate::proofs::WrittenLaws::written_lengths))]
    fn move_bytes(&mut self, from: &VolatileSlice, to: &VolatileSlice)
        requires from { let w = from.now in
            Holds (shape_of self.old) (names.Place w.block.0 w.offset w.size ∷ []) }
        requires to { Holds (shape_of self.old) (names.Place to.now.block.0 to.now.offset to.now.size ∷ []) }
        requires size { from.now.size ≡ to.now.size }
        ensures put { self.new ≡ record self.old {
          blocks = written (cells_of to.now) (bytes_at self.old.blocks (cells_of from.now)) self.old.blocks;
        } }
        ensures shape { shape_of self.new ≡ shape_of self.old }
    {
        copy_in(&mut self.blocks, from.host_address(), to.place());
    }

    /// Moves the bytes of a window to another of the same length, as they were, even if they overlap, and marks
    /// the other's, unless there are none.
    pub(crate) fn copy(&mut self, from: &VolatileSlice, to: &VolatileSlice)
    where
        B: Bitmap,
        requires from { Holds (shape_of self.old) (window_names from.now) }
        requires to { Holds (shape_of self.old) (window_names to.now) }
        requires size { from.now.size ≡ to.now.size }
        ensures bytes { let bytes = bytes_at self.old.blocks (cells_of from.now) in
            Writes B.marks (to.now ∷ []) bytes self.old self.new }
        ensures shape { shape_of self.new ≡ shape_of self.old }
    {
        self.move_bytes(from, to);
        self.mark_window(to);
    }

    /// The value whose bytes a window has.
    #[inline]
    pub(crate) fn value<T: ByteValued>(&self, window: &VolatileSlice) -> T
        requires held { Holds (shape_of self.now) (window_names window.now) }
        requires size { window.now.size ≤ T.width }
        ensures { window.now.size ≡ T.width
            → result ≡ T.value_of (bytes_at self.now.blocks (cells_of window.now)) }
    {
        let mut value = T::zeroed();
        value.set_bytes(0, self.bytes(window));
        value.recall_law();
        value
    }
}
