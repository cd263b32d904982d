//! What can be made for a machine at any time: blocks, spaces and tables of its host, and regions and translators.
ghost use Rattle.std.specs.Prelude.{◌≡◌, ◌==◌, ◌&&◌, ◌++◌, ◌∷◌, [], length, OnOk, OnErr};
ghost use Rattle.vm_memory_guest.specs.Collection.{regions_of};
ghost use Rattle.std.specs.Int.NonZero.{non_zero_usize_get};
ghost use Rattle.vm_memory.specs.Setup.{GivesBack, MakesBlockAt, SetsUp};
ghost use Rattle.vm_memory.specs.ScriptMachine.{no_parts, state_made};

use super::Machine;
use super::copies::has_block;
use std::alloc::{AllocError, Global};
use std::num::NonZeroUsize;
use std::sync::Arc;
use thiserror::Error;
use vm_memory_base::{ExclusiveBitmap, GuestAddress, Iotlb};
use vm_memory_device::{Iommu, TableIommu};
use vm_memory_guest::{
    BlockBytes, BlockId, GuestMemoryRegion, GuestRegionMmap, HostMemory, HostPlace, HostShape,
    MmapRegion, MmapRegionError, TlbId,
};

/// What can be made for a machine.
#[derive(Drop)]
pub enum Setup {
    /// A block of `size` bytes, tracked in pages of `page_size`.
    Block {
        size: usize,
        page_size: NonZeroUsize,
    },
    /// A space of `size` addresses, tracked in pages of `page_size`.
    Space {
        size: usize,
        page_size: NonZeroUsize,
    },
    /// An empty table, with a limit on its ranges or without.
    Table(Option<NonZeroUsize>),
    /// A region of a whole block at an address.
    Region {
        block: BlockId,
        addr: GuestAddress,
    },
    /// A translator over a table.
    Translator(TlbId),
}

/// The reply to a setup. Everything but a number means that nothing changed.
#[derive(Drop)]
pub enum SetupReply {
    /// The number of the block that was made.
    BlockMade(usize),
    /// The number of the space that was made.
    SpaceMade(usize),
    /// The number of the table that was made.
    TableMade(usize),
    /// The number of the region that was made.
    RegionMade(usize),
    /// The number of the translator that was made.
    TranslatorMade(usize),
    /// A block has 1 to 2^63 - 1 bytes.
    InvalidSize,
    /// The region's address plus its size passes 2^64 - 1.
    InvalidRegion,
    /// A number names nothing.
    NoSuch,
    /// An allocation failed.
    Memory,
}

/// Why a block could not be given back. Then nothing changed.
#[derive(Clone, Copy, Debug, PartialEq, Eq, Error)]
pub enum GiveBackError {
    /// There is no such block, or it was given back before.
    #[error("no such block")]
    NoSuch,
    /// The machine has regions, layouts or memories, which may name the block.
    #[error("the machine has regions, layouts or memories")]
    InUse,
    /// An allocation failed.
    #[error("out of memory")]
    Memory,
}

/// The machine of scripts and of sessions.
pub type ScriptMachine = Machine<GuestRegionMmap, TableIommu, ExclusiveBitmap>;

impl Machine<GuestRegionMmap, TableIommu, ExclusiveBitmap> {
    /// An empty machine. It allocates nothing.
    pub fn empty(alloc: Global) -> ScriptMachine
        ensures { result ≡ no_parts }
    {
        Machine::new(
            alloc,
            HostMemory::new(alloc),
            Vec::new(alloc),
            Vec::new(alloc),
        )
    }

    /// Makes what a setup asks for, or changes nothing and returns why.
    ///
    /// Leaves open: the reply `Memory` each time that something is to be made. Then nothing changed.
    pub fn make(&mut self, setup: Setup) -> SetupReply
        ensures { SetsUp (state_made self.old) setup result (state_made self.new) }
    {
        match setup {
            Setup::Block { size, page_size } => self.make_block(size, page_size),
            Setup::Space { size, page_size } => self.make_space(size, page_size),
            Setup::Table(limit) => self.make_table(limit),
            Setup::Region { block, addr } => self.make_region(block, addr),
            Setup::Translator(table) => self.make_translator(table),
        }
    }

    // The size is tested before the bitmap is made, which may fail to allocate.
    fn make_block(&mut self, size: usize, page_size: NonZeroUsize) -> SetupReply
        ensures { SetsUp (state_made self.old) (Setup.Block size page_size) result (state_made self.new) }
    {
        if !HostShape::is_block_size(size) {
            return SetupReply::InvalidSize;
        }
        let Ok(bitmap) = ExclusiveBitmap::new(self.alloc, size, page_size) else {
            return SetupReply::Memory;
        };
        match self.host.new_block_with(size, bitmap) {
            Ok(block) => SetupReply::BlockMade(block.0),
            Err(MmapRegionError::InvalidSize) => SetupReply::InvalidSize,
            Err(MmapRegionError::Memory) => SetupReply::Memory,
        }
    }

    /// Makes a block of the bytes that lie at a place, tracked in pages of `page_size` that are all clean. If an
    /// allocation fails, nothing changes, and the place is forgotten.
    pub fn make_block_at(&mut self, place: HostPlace, page_size: NonZeroUsize) -> SetupReply
        ensures { MakesBlockAt (state_made self.old) place.bytes (non_zero_usize_get page_size) result
            (state_made self.new) }
    {
        let bytes = BlockBytes::at(place);
        let Ok(bitmap) = ExclusiveBitmap::new(self.alloc, bytes.len(), page_size) else {
            return SetupReply::Memory;
        };
        match self.host.new_block_of(bytes, bitmap) {
            Ok(block) => SetupReply::BlockMade(block.0),
            Err(_) => SetupReply::Memory,
        }
    }

    fn make_space(&mut self, size: usize, page_size: NonZeroUsize) -> SetupReply
        ensures { SetsUp (state_made self.old) (Setup.Space size page_size) result (state_made self.new) }
    {
        let Ok(bitmap) = ExclusiveBitmap::new(self.alloc, size, page_size) else {
            return SetupReply::Memory;
        };
        match self.host.new_space(bitmap) {
            Ok(space) => SetupReply::SpaceMade(space.0),
            Err(_) => SetupReply::Memory,
        }
    }

    fn make_table(&mut self, limit: Option<NonZeroUsize>) -> SetupReply
        ensures { SetsUp (state_made self.old) (Setup.Table limit) result (state_made self.new) }
    {
        let table = match limit {
            Some(limit) => Iotlb::with_limit(self.alloc, limit.get()),
            None => Iotlb::new(self.alloc),
        };
        match self.host.new_table_with(table) {
            Ok(table) => SetupReply::TableMade(table.0),
            Err(_) => SetupReply::Memory,
        }
    }

    fn make_region(&mut self, block: BlockId, addr: GuestAddress) -> SetupReply
        ensures { SetsUp (state_made self.old) (Setup.Region block addr) result (state_made self.new) }
    {
        let Some(mapping) = MmapRegion::of_block(&self.host, block) else {
            return SetupReply::NoSuch;
        };
        let Some(region) = GuestRegionMmap::new(mapping, addr) else {
            return SetupReply::InvalidRegion;
        };
        let number = self.regions.len();
        match add(self.alloc, &mut self.regions, region) {
            Ok(()) => SetupReply::RegionMade(number),
            Err(_) => SetupReply::Memory,
        }
    }

    fn make_translator(&mut self, table: TlbId) -> SetupReply
        ensures { SetsUp (state_made self.old) (Setup.Translator table) result (state_made self.new) }
    {
        if !self.host.shape().has_table(table) {
            return SetupReply::NoSuch;
        }
        let number = self.translators.len();
        match add(self.alloc, &mut self.translators, TableIommu::new(table)) {
            Ok(()) => SetupReply::TranslatorMade(number),
            Err(_) => SetupReply::Memory,
        }
    }
}

impl Machine<GuestRegionMmap, TableIommu, ExclusiveBitmap> {
    /// Gives a block back: the machine forgets its bytes and its bitmap. Its number stays, and each later call that
    /// names it is refused with `NoSuch`. A block whose bytes lie at a place of the caller's is the caller's again.
    ///
    /// Nothing of the machine may name a block then: `forget_regions` comes first. What stays can be made again:
    /// regions and memories of the other blocks have no bytes of their own.
    pub fn give_back(&mut self, block: BlockId) -> Result<(), GiveBackError>
        ensures { GivesBack (state_made self.old) block.0 result (state_made self.new) }
    {
        if !has_block(&self.host, block.0) {
            return Err(GiveBackError::NoSuch);
        }
        if !self.names_no_block() {
            return Err(GiveBackError::InUse);
        }
        let Ok(bitmap) = ExclusiveBitmap::new(self.alloc, 0, NonZeroUsize::MIN) else {
            return Err(GiveBackError::Memory);
        };
        let _ = self.host.give_back(block, bitmap);
        Ok(())
    }
}

impl<R: GuestMemoryRegion, I: Iommu, B> Machine<R, I, B> {
    /// Forgets all regions, layouts and memories, whose numbers begin at 0 again. Everything else stays.
    pub fn forget_regions(&mut self)
        ensures { self.new ≡ record self.old { regions = []; layouts = []; memories = [] } }
    {
        self.regions = Vec::new(self.alloc);
        self.layouts = Vec::new(self.alloc);
        self.memories = Vec::new(self.alloc);
    }

    // Whether nothing of the machine names a block.
    fn names_no_block(&self) -> bool
        ensures { result ≡ (length self.now.regions == 0 && length self.now.layouts == 0
            && length self.now.memories == 0) }
    {
        self.regions.is_empty() && self.layouts.is_empty() && self.memories.is_empty()
    }
}

fn add<T: Drop>(alloc: Global, pool: &mut Vec<Arc<T>>, one: T) -> Result<(), AllocError>
    ensures ok { OnOk result (regions_of pool.new ≡ regions_of pool.old ++ one ∷ []) }
    ensures err { OnErr result (regions_of pool.new ≡ regions_of pool.old) }
{
    pool.push(Arc::new(alloc, one)?)?;
    Ok(())
}
