//! Host memory: every block, bitmap, space and table, which each access is lent.
ghost use Rattle.std.specs.Prelude.{◌≡◌, ◌+◌, ◌*◌, ◌^◌, ◌<◌, ◌≤◌, ◌↔◌, ◌⊎◌, [], ◌∷◌, ◌++◌, ℕ, List, length, slice_get};
ghost use Rattle.std.specs.Prelude.{slice_set, nat_lt, All, IsTrue, Some, IfOk, OnOk, OnErr, IfErr, IsErrOf};
ghost use Rattle.vm_memory_guest.specs.Host as names;
ghost use Rattle.vm_memory_guest.specs.Host.{Host, Shape, with_block, with_bytes_block, with_space, with_table};
ghost use Rattle.vm_memory_guest.specs.Host.{with_given_table, with_table_at, without_block, shape_of, Name, IsHeld};
ghost use Rattle.vm_memory_guest.specs.Host.{Holds, block_at};
ghost use Rattle.vm_memory_guest.specs.BlockBytes.{bytes_of};
ghost use Rattle.vm_memory_guest.specs.Inside.{blocks_of};

pub mod address;
mod block;
pub mod block_bytes;
mod transfer;
mod windows;

use block_bytes::BlockBytes;
use std::alloc::{AllocError, Global};
use std::marker::Model;
use std::mem;
use thiserror::Error;
use vm_memory_base::{BitmapId, Iotlb, NewBitmap};

/// The number of a block of a host, from 0 in the order of making.
#[derive(Clone, Copy, Debug, PartialEq, Eq)]
pub struct BlockId(pub usize);

/// The number of a space of a host: a bitmap that belongs to no block.
#[derive(Clone, Copy, Debug, PartialEq, Eq)]
pub struct SpaceId(pub usize);

/// The number of an I/O table of a host.
#[derive(Clone, Copy, Debug, PartialEq, Eq)]
pub struct TlbId(pub usize);

// The length of the longest block in bytes.
const MAX_BLOCK: usize = 0x7fff_ffff_ffff_ffff;

/// Why a block could not be made.
#[derive(Debug, Drop, Error)]
pub enum MmapRegionError {
    /// A block has 1 to 2^63 - 1 bytes.
    #[error("invalid block size")]
    InvalidSize,
    /// An allocation failed.
    #[error("out of memory")]
    Memory,
}

/// What a host holds. Its calls take any number: how long a block is, and which spaces and tables there are.
#[derive(Drop)]
pub struct HostShape {
    blocks: Vec<usize>,
    spaces: usize,
    tables: usize,
}

impl Model for HostShape {
    ghost use Rattle.vm_memory_guest.specs.Host.{Shape};

    ghost Value = { Shape };

    ghost view = { λ s. record { blocks = s.blocks.items; spaces = s.spaces; tables = s.tables } };
}

impl HostShape {
    ghost use Rattle.vm_memory_guest.specs.Window.{bitmap_name};

    fn new(alloc: Global) -> HostShape
        ensures { result ≡ record { blocks = []; spaces = 0; tables = 0 } }
    {
        HostShape {
            blocks: Vec::new(alloc),
            spaces: 0,
            tables: 0,
        }
    }

    /// Whether a block may have this many bytes: 1 to 2^63 - 1.
    pub fn is_block_size(size: usize) -> bool
        ensures { IsTrue result ↔ ((0 < size) × (size < 2 ^ 63)) }
    {
        0 < size && size <= MAX_BLOCK
    }

    fn push_block(&mut self, size: usize) -> Result<(), AllocError>
        ensures ok { OnOk result (self.new ≡ record self.old { blocks = self.old.blocks ++ size ∷ [] }) }
        ensures err { OnErr result (self.new ≡ self.old) }
    {
        self.blocks.push(size)?;
        Ok(())
    }

    fn empty_block(&mut self, block: BlockId)
        requires { block.0 < length self.old.blocks }
        ensures { self.new ≡ record self.old { blocks = slice_set self.old.blocks block.0 0 } }
    {
        self.blocks[block.0] = 0;
    }

    /// The length of a block in bytes, if there is one of this number: 0 if it was given back.
    pub fn block_len(&self, block: BlockId) -> Option<usize>
        ensures { result ≡ slice_get self.now.blocks block.0 }
    {
        self.blocks.get(block.0).copied()
    }

    /// Whether there is a space of this number.
    pub fn has_space(&self, space: SpaceId) -> bool
        ensures { result ≡ nat_lt space.0 self.now.spaces }
    {
        space.0 < self.spaces
    }

    /// Whether there is a table of this number.
    pub fn has_table(&self, table: TlbId) -> bool
        ensures { result ≡ nat_lt table.0 self.now.tables }
    {
        table.0 < self.tables
    }

    /// Whether a block has `len` bytes from `offset` on.
    pub fn has_place(&self, block: BlockId, offset: usize, len: usize) -> bool
        ensures { IsTrue result ↔ IsHeld self.now (names.Place block.0 offset len) }
    {
        match self.block_len(block) {
            Some(all) => offset <= all && len <= all - offset,
            None => false,
        }
    }

    /// Whether there is the block or the space of this bitmap.
    pub fn has_bitmap(&self, bitmap: BitmapId) -> bool
        ensures { IsTrue result ↔ IsHeld self.now (bitmap_name bitmap) }
    {
        match bitmap {
            BitmapId::Block(block) => block < self.blocks.len(),
            BitmapId::Space(space) => space < self.spaces,
        }
    }
}

/// A value that names parts of a host: blocks, places in them, spaces and tables.
pub trait Named {
    /// The parts of a host that the value names.
    ghost names: { Self → List Name };

    /// Whether a host of this shape has everything that the value names.
    fn held_by(&self, shape: &HostShape) -> bool
        ensures { IsTrue result ↔ Holds shape.now (names self.now) };
}

/// Host memory: all bytes, bitmaps, spaces and tables. Each kind is numbered from 0. A number always names the same
/// thing, and a block keeps its length until it is given back.
#[derive(Drop)]
pub struct HostMemory<B> {
    alloc: Global,
    blocks: Vec<BlockBytes>,
    bitmaps: Vec<B>,
    spaces: Vec<B>,
    tables: Vec<Iotlb>,
    shape: HostShape,
}

impl<B> Model for HostMemory<B> {
    ghost use Rattle.std.specs.Prelude.{[]};
    ghost use Rattle.vm_memory_guest.specs.Host.{Host};

    ghost Value = { Host B };

    ghost use Rattle.vm_memory_guest.specs.Inside.{IsSound, blocks_of};

    ghost view = { λ h. record {
      blocks = blocks_of h.blocks;
      bitmaps = h.bitmaps.items;
      spaces = h.spaces.items;
      tables = h.tables.items;
    } };

    ghost invariant = { λ h. IsSound h.shape (blocks_of h.blocks) h.bitmaps.items h.spaces.items
        h.tables.items };
}

impl<B> HostMemory<B> {
    /// A host that holds nothing.
    pub fn new(alloc: Global) -> Self
        ensures { result ≡ record { blocks = []; bitmaps = []; spaces = []; tables = [] } }
    {
        HostMemory {
            alloc,
            blocks: Vec::new(alloc),
            bitmaps: Vec::new(alloc),
            spaces: Vec::new(alloc),
            tables: Vec::new(alloc),
            shape: HostShape::new(alloc),
        }
    }

    /// What the host holds. Each block has a bitmap, and 1 to 2^63 - 1 bytes, or none if it was given back.
    pub fn shape(&self) -> &HostShape
        ensures value { result.now ≡ shape_of self.now }
        ensures tracked { length self.now.bitmaps ≡ length self.now.blocks }
        ensures sized { All (λ len. len < 2 ^ 63) (shape_of self.now).blocks }
    {
        &self.shape
    }

    /// Does nothing: each block is shorter than 2^63 bytes.
    #[inline]
    pub fn recall_law(&self)
        ensures { (block : ℕ) → length (block_at self.now.blocks block) < 2 ^ 63 }
    {
        let _shape = self.shape();
    }

    /// Whether the host holds everything that a value names.
    pub fn holds<N: Named>(&self, named: &N) -> bool
        ensures { IsTrue result ↔ Holds (shape_of self.now) (N.names named.now) }
    {
        named.held_by(self.shape())
    }

    /// The length of a block that the host holds, in bytes: 1 to 2^63 - 1, or 0 if it was given back.
    pub fn block_len(&self, block: BlockId) -> usize
        requires { Holds (shape_of self.now) (names.Block block.0 ∷ []) }
        ensures value { result ≡ length (block_at self.now.blocks block.0) }
        ensures bound { result < 2 ^ 63 }
    {
        self.blocks[block.0].len()
    }

    /// Makes a block of `size` zeroed bytes, tracked by a bitmap, and returns its number. `InvalidSize` for a size of
    /// 0 or above 2^63 - 1, `Memory` if an allocation fails. Then nothing changes.
    pub fn new_block_with(&mut self, size: usize, bitmap: B) -> Result<BlockId, MmapRegionError>
    where
        B: Drop,
        ensures number { IfOk result (λ block. block.0 ≡ length self.old.blocks) }
        ensures ok { OnOk result (self.new ≡ with_block self.old size bitmap) }
        ensures invalid { IsErrOf result MmapRegionError.InvalidSize ↔ ((size ≡ 0) ⊎ (2 ^ 63 ≤ size)) }
        ensures sized { OnOk result ((0 < size) × (size < 2 ^ 63)) }
        ensures err { OnErr result (self.new ≡ self.old) }
        ensures kept { (names : List Name) → Holds (shape_of self.old) names
            → Holds (shape_of self.new) names }
    {
        if !HostShape::is_block_size(size) {
            return Err(MmapRegionError::InvalidSize);
        }
        self.add_block(size, bitmap)
            .map_err(|_| MmapRegionError::Memory)
    }

    fn add_block(&mut self, size: usize, bitmap: B) -> Result<BlockId, AllocError>
    where
        B: Drop,
        requires some { 0 < size }
        requires bound { size < 2 ^ 63 }
        ensures number { IfOk result (λ block. block.0 ≡ length self.old.blocks) }
        ensures ok { OnOk result (self.new ≡ with_block self.old size bitmap) }
        ensures err { OnErr result (self.new ≡ self.old) }
    {
        let bytes = vec![in self.alloc; 0u8; size]?;
        self.add_bytes(BlockBytes::Owned(bytes), bitmap)
            .map_err(|_| AllocError)
    }

    /// Makes a block that has these bytes, as they are, tracked by a bitmap, and returns its number. If an allocation
    /// fails, nothing changes, and the bytes come back.
    pub fn new_block_of(&mut self, bytes: BlockBytes, bitmap: B) -> Result<BlockId, BlockBytes>
    where
        B: Drop,
        requires some { 0 < length (bytes_of bytes) }
        requires bound { length (bytes_of bytes) < 2 ^ 63 }
        ensures number { IfOk result (λ block. block.0 ≡ length self.old.blocks) }
        ensures ok { OnOk result (self.new ≡ with_bytes_block self.old (bytes_of bytes) bitmap) }
        ensures err { OnErr result (self.new ≡ self.old) }
        ensures back { IfErr result (λ back. back ≡ bytes) }
        ensures kept { (names : List Name) → Holds (shape_of self.old) names
            → Holds (shape_of self.new) names }
    {
        self.add_bytes(bytes, bitmap)
    }

    // There is room before anything is pushed, so that a refusal leaves everything.
    fn add_bytes(&mut self, bytes: BlockBytes, bitmap: B) -> Result<BlockId, BlockBytes>
    where
        B: Drop,
        requires some { 0 < length (bytes_of bytes) }
        requires bound { length (bytes_of bytes) < 2 ^ 63 }
        ensures number { IfOk result (λ block. block.0 ≡ length self.old.blocks) }
        ensures ok { OnOk result (self.new ≡ with_bytes_block self.old (bytes_of bytes) bitmap) }
        ensures err { OnErr result (self.new ≡ self.old) }
        ensures back { IfErr result (λ back. back ≡ bytes) }
    {
        let size = bytes.len();
        let block = BlockId(self.blocks.len());
        if self.blocks.reserve(1).is_err() || self.bitmaps.reserve(1).is_err() {
            return Err(bytes);
        }
        if self.shape.push_block(size).is_err() {
            return Err(bytes);
        }
        self.blocks.push_reserved(bytes);
        self.bitmaps.push_reserved(bitmap);
        Ok(block)
    }

    /// Gives back the bytes and the bitmap of a block, which the host has to hold. Its number stays, with no bytes and
    /// this bitmap: the host no longer holds what names bytes of it.
    pub fn give_back(&mut self, block: BlockId, bitmap: B) -> (BlockBytes, B)
    where
        B: Drop,
        requires { Holds (shape_of self.old) (names.Block block.0 ∷ []) }
        ensures bytes { bytes_of result.0 ≡ block_at self.old.blocks block.0 }
        ensures bitmap { slice_get self.old.bitmaps block.0 ≡ Some result.1 }
        ensures left { self.new ≡ without_block self.old block.0 bitmap }
    {
        let none = BlockBytes::Owned(Vec::new(self.alloc));
        self.shape.empty_block(block);
        let bytes = exchange(&mut self.blocks, block.0, none);
        let bitmap = exchange(&mut self.bitmaps, block.0, bitmap);
        (bytes, bitmap)
    }

    /// Makes a space whose pages `bitmap` tracks, and returns its number. `AllocError` if an allocation
    /// fails, and then nothing changes.
    ///
    /// Leaves open: a failed allocation each time, as `new_table` and `new_block` do. Then the host is as before.
    pub fn new_space(&mut self, bitmap: B) -> Result<SpaceId, AllocError>
    where
        B: Drop,
        ensures number { IfOk result (λ space. space.0 ≡ length self.old.spaces) }
        ensures ok { OnOk result (self.new ≡ with_space self.old bitmap) }
        ensures err { OnErr result (self.new ≡ self.old) }
        ensures kept { (names : List Name) → Holds (shape_of self.old) names
            → Holds (shape_of self.new) names }
    {
        self.add_space(bitmap)
    }

    fn add_space(&mut self, bitmap: B) -> Result<SpaceId, AllocError>
    where
        B: Drop,
        ensures number { IfOk result (λ space. space.0 ≡ length self.old.spaces) }
        ensures ok { OnOk result (self.new ≡ with_space self.old bitmap) }
        ensures err { OnErr result (self.new ≡ self.old) }
    {
        let space = SpaceId(self.spaces.len());
        self.spaces.push(bitmap)?;
        self.shape.spaces += 1;
        Ok(space)
    }

    /// Makes a table that maps no address, and returns its number. `AllocError` if an allocation fails, and then
    /// nothing changes.
    pub fn new_table(&mut self) -> Result<TlbId, AllocError>
        ensures number { IfOk result (λ table. table.0 ≡ length self.old.tables) }
        ensures ok { OnOk result (self.new ≡ with_table self.old) }
        ensures err { OnErr result (self.new ≡ self.old) }
        ensures kept { (names : List Name) → Holds (shape_of self.old) names
            → Holds (shape_of self.new) names }
    {
        let table = Iotlb::new(self.alloc);
        self.new_table_with(table)
    }

    /// Adds a table, which may have a limit or mappings, and returns its number. `AllocError` if an allocation
    /// fails, and then nothing changes.
    pub fn new_table_with(&mut self, table: Iotlb) -> Result<TlbId, AllocError>
        ensures number { IfOk result (λ number. number.0 ≡ length self.old.tables) }
        ensures ok { OnOk result (self.new ≡ with_given_table self.old table) }
        ensures err { OnErr result (self.new ≡ self.old) }
        ensures kept { (names : List Name) → Holds (shape_of self.old) names
            → Holds (shape_of self.new) names }
    {
        self.add_table(table)
    }

    fn add_table(&mut self, table: Iotlb) -> Result<TlbId, AllocError>
        ensures number { IfOk result (λ number. number.0 ≡ length self.old.tables) }
        ensures ok { OnOk result (self.new ≡ with_given_table self.old table) }
        ensures err { OnErr result (self.new ≡ self.old) }
    {
        let number = TlbId(self.tables.len());
        self.tables.push(table)?;
        self.shape.tables += 1;
        Ok(number)
    }
}

// Puts another element in place of one, and returns that one.
fn exchange<T: Drop>(list: &mut Vec<T>, place: usize, one: T) -> T
    requires { place < length list.old.items }
    ensures list { list.new.items ≡ slice_set list.old.items place one }
    ensures value { slice_get list.old.items place ≡ Some result }
{
    mem::replace(&mut list[place], one)
}

impl<B> HostMemory<B> {
    ghost use Rattle.std.specs.Borrow.{Lends, sem};
    ghost use Rattle.vm_memory_guest.specs.contracts.host.HostMemory.{the_row};
    ghost use Rattle.vm_memory_base.specs.contracts.iotlb.table.Iotlb.{the_row as table_row};
    ghost use Rattle.vm_memory_guest.specs.Window.{with_bitmap, bitmap_name, bitmap_of};

    /// Lends the bitmap of a block or of a space, which the host has to hold.
    pub fn bitmap(&self, bitmap: BitmapId) -> &B
        requires { Holds (shape_of self.now) (bitmap_name bitmap ∷ []) }
        ensures { bitmap_of self.now bitmap ≡ Some result.now }
    {
        match bitmap {
            BitmapId::Block(block) => &self.bitmaps[block],
            BitmapId::Space(space) => &self.spaces[space],
        }
    }

    /// Lends the bitmap of a block or of a space, which the host has to hold, to be changed.
    pub fn bitmap_mut(&mut self, bitmap: BitmapId) -> &mut B
        requires { Holds (shape_of self.old) (bitmap_name bitmap ∷ []) }
        ensures* lends { sem 𝓛 (Lends (the_row B.row) B.row self.entry result (with_bitmap self.old bitmap)) }
        ensures value { bitmap_of self.old bitmap ≡ Some result.now }
    {
        match bitmap {
            BitmapId::Block(block) => &mut self.bitmaps[block],
            BitmapId::Space(space) => &mut self.spaces[space],
        }
    }

    /// Lends the table of this number, which the host has to hold.
    pub fn table(&self, table: TlbId) -> &Iotlb
        requires { Holds (shape_of self.now) (names.Tlb table.0 ∷ []) }
        ensures { slice_get self.now.tables table.0 ≡ Some result.now }
    {
        &self.tables[table.0]
    }

    /// Lends the table of this number, which the host has to hold, to be changed.
    pub fn table_mut(&mut self, table: TlbId) -> &mut Iotlb
        requires { Holds (shape_of self.old) (names.Tlb table.0 ∷ []) }
        ensures* lends { sem 𝓛
            (Lends (the_row B.row) table_row self.entry result (with_table_at self.old table.0)) }
        ensures value { slice_get self.old.tables table.0 ≡ Some result.now }
    {
        &mut self.tables[table.0]
    }
}

impl<B: NewBitmap + Drop> HostMemory<B> {
    /// Makes a block of `size` zeroed bytes, tracked by a new bitmap for them, as `new_block_with` does.
    pub fn new_block(&mut self, size: usize) -> Result<BlockId, MmapRegionError>
        ensures number { IfOk result (λ block. block.0 ≡ length self.old.blocks) }
        ensures ok { OnOk result ((bitmap : B) × B.made size bitmap × (self.new ≡ with_block self.old size bitmap)) }
        ensures invalid { IsErrOf result MmapRegionError.InvalidSize ↔ ((size ≡ 0) ⊎ (2 ^ 63 ≤ size)) }
        ensures sized { OnOk result ((0 < size) × (size < 2 ^ 63)) }
        ensures err { OnErr result (self.new ≡ self.old) }
        ensures kept { (names : List Name) → Holds (shape_of self.old) names
            → Holds (shape_of self.new) names }
    {
        if !HostShape::is_block_size(size) {
            return Err(MmapRegionError::InvalidSize);
        }
        let bitmap = B::with_len(self.alloc, size).map_err(|_| MmapRegionError::Memory)?;
        self.new_block_with(size, bitmap)
    }
}
