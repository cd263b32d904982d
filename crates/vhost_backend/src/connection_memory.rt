//! The guest memory of a connection: regions over blocks at places of the program's.
ghost use Rattle.std.specs.Prelude.{◌≡◌, ◌<◌, ◌≤◌, ◌^◌, ◌&&◌, List, [], length, slice_get};
ghost use Rattle.std.specs.Prelude.{Some, is_some, IfOk, IfSome};
ghost use Rattle.std.specs.Prelude.{MatchBool, MatchOption, false, true};
ghost use Rattle.vm_memory_guest.specs.Host.{Holds, Name, shape_of};
ghost use Rattle.vm_memory_guest.specs.Memory.{memory_names};
ghost use Rattle.vm_memory_guest.specs.BlockBytes.{bytes_of};
ghost use Rattle.vm_memory_guest.specs.Layout.{inserted};
ghost use Rattle.vm_memory_guest.specs.Mmap.{PlacedBlock, mmap_region};
ghost use Rattle.vhost_backend.specs.BlockBackend.{Looks, Steps};
ghost use Rattle.vhost_backend.specs.ConnectionMemory.{IsBlockAt, Joins, LiesOver, Maps, block_of, forgotten};
ghost use Rattle.vhost_backend.specs.ConnectionMemory.{io_memory_in, io_view, memory_step, no_memory, place_of};
ghost use Rattle.vhost_backend.specs.ConnectionMemory.{table_step};
ghost use Rattle.vhost_backend.specs.ConnectionMemory.{with_behind, with_first_table, with_pages, with_tracked};
ghost use Rattle.vhost_backend.specs.BlockTable.{ChangesTable};
ghost use Rattle.vhost_backend.specs.ConnectionMemory.{emptied, first_emptied, way_of};
ghost use Rattle.vhost_backend.specs.PageList.{TakesPages};
ghost use Rattle.vhost_backend.specs.TableCounts.{evicted_by};

use crate::block_backend::BlockBackend;
use crate::block_queue::Way;
use crate::deeds::Made;
use crate::page_list::{PageList, PageRange};
use crate::pieces::Piece;
use crate::region::Region;
use crate::ring_memory::{Lent, Logged};
use std::alloc::{AllocError, Global};
use std::marker::Model;
use std::sync::Arc;
use vhost_message::MemoryRegion;
use vm_memory_base::{BitmapId, GuestAddress, Iotlb};
use vm_memory_device::{IommuMemory, TableIommu};
use vm_memory_guest::{
    BlockBytes, BlockId, Bytes, GuestMemoryBackend, GuestMemoryMmap, GuestMemoryRegion,
    GuestMemoryResult, GuestRegionMmap, HostMemory, MmapRegion, SpaceId, TlbId,
};

// The table that translates the addresses of rings.
const RING_TABLE: TlbId = TlbId(0);

// Guest memory as it lies at I/O addresses.
type IoMemory = IommuMemory<GuestMemoryMmap, TableIommu>;

/// Bytes of a region that lie together.
#[derive(Clone, Copy, Debug, PartialEq, Eq)]
pub struct RegionPiece {
    /// The number of the region, in the order of the table.
    pub region: usize,
    /// How far after the region's first byte they begin.
    pub offset: u64,
    /// How many there are.
    pub len: u64,
}

// The number of the block that a bitmap belongs to.
fn block_of(id: BitmapId) -> usize
    ensures { result ≡ block_of id }
{
    match id {
        BitmapId::Block(block) | BitmapId::Space(block) => block,
    }
}

// Guest memory with a region more: the block of this number, at an address.
fn with_region(
    alloc: Global,
    host: &HostMemory<()>,
    layout: &GuestMemoryMmap,
    number: usize,
    base: GuestAddress,
) -> Option<GuestMemoryMmap>
    ensures { IfSome result (λ new. (r : PlacedBlock) × IsBlockAt host.now number base.0 r
        × (new ≡ inserted mmap_region layout.now r)) }
{
    let mapping = MmapRegion::of_block(host, BlockId(number))?;
    let region = GuestRegionMmap::new(mapping, base)?;
    match Arc::new(alloc, region) {
        Ok(region) => match layout.insert_region(region) {
            Ok(layout) => Some(layout),
            Err(_) => None,
        },
        Err(_) => None,
    }
}

// Guest memory of these regions, each over the block of its number.
fn layout_of(
    alloc: Global,
    host: &HostMemory<()>,
    regions: &[MemoryRegion],
) -> Option<GuestMemoryMmap>
    ensures { IfSome result (λ new. LiesOver host.now 0 [] regions.now new) }
{
    let mut layout = GuestMemoryMmap::new(alloc);
    for number in 0..regions.len() {
        layout = with_region(alloc, host, &layout, number, regions[number].guest_address)?;
    }
    Some(layout)
}

// Guest memory behind the host's first table, which it gets for that. `None` if it has one, or an allocation fails.
fn io_memory(
    alloc: Global,
    host: &mut HostMemory<()>,
    layout: &GuestMemoryMmap,
    is_behind: bool,
) -> Option<IoMemory>
    ensures made { IfSome result (λ m. (host.old.tables ≡ []) × (m ≡ io_view layout.now is_behind)
        × (host.new ≡ with_first_table host.old)
        × Holds (shape_of host.new) (memory_names (io_memory_in layout.now is_behind))) }
    ensures kept { (names : List Name) → Holds (shape_of host.old) names → Holds (shape_of host.new) names }
{
    let Ok(backend) = layout.clone() else {
        return None;
    };
    let Ok(iommu) = Arc::new(alloc, TableIommu::new(RING_TABLE)) else {
        return None;
    };
    let Ok(SpaceId(0)) = host.new_space(()) else {
        return None;
    };
    let Ok(TlbId(0)) = host.new_table() else {
        return None;
    };
    let memory = IommuMemory::new(alloc, backend, iommu, is_behind, SpaceId(0));
    if host.holds(&memory) {
        Some(memory)
    } else {
        None
    }
}

// Guest memory at I/O addresses, if rings lie there.
fn io_memory_if(memory: &Option<IoMemory>, is_behind: bool) -> Option<&IoMemory>
    ensures { MatchOption result ((is_some memory.now && is_behind) ≡ false)
        (λ ring. (memory.now ≡ Some ring.now) × (is_behind ≡ true)) }
{
    if is_behind { memory.as_ref() } else { None }
}

// Has the first table of a host say nothing, if there is one.
fn empty_first(host: &mut HostMemory<()>)
    ensures emptied { host.new ≡ first_emptied host.old (slice_get host.old.tables 0) }
    ensures shape { shape_of host.new ≡ shape_of host.old }
{
    if host.shape().has_table(RING_TABLE) {
        host.table_mut(RING_TABLE).invalidate_all();
    }
}

/// The guest memory of a connection, what its front end says of I/O addresses, and the pages of it that are to be
/// marked in the log.
#[derive(Drop)]
pub struct ConnectionMemory {
    alloc: Global,
    layout: GuestMemoryMmap,
    logged: Logged<()>,
    table: Iotlb,
    // Guest memory behind an IOMMU, which is on if rings lie at I/O addresses.
    behind: Option<IoMemory>,
    is_behind: bool,
}

impl Model for ConnectionMemory {
    ghost use Rattle.std.specs.Prelude.{is_some};
    ghost use Rattle.vhost_backend.specs.ConnectionMemory.{IsHeldBy, IsIoMemory, MemoryState};

    ghost Value = { MemoryState };

    ghost view = { λ m. record {
      layout = m.layout;
      logged = m.logged;
      table = m.table;
      is_joined = is_some m.behind;
      is_behind = m.is_behind;
    } };

    ghost invariant = { λ m. IsHeldBy m.layout m.logged.host
        × IsIoMemory m.layout m.logged.host m.is_behind m.behind };
}

impl ConnectionMemory {
    /// No memory. The front end's messages say something of at most so many ranges of I/O addresses, or of one.
    pub fn new(alloc: Global, table_limit: usize) -> Result<ConnectionMemory, AllocError>
        ensures { IfOk result (λ m. m ≡ no_memory table_limit) }
    {
        Ok(ConnectionMemory {
            alloc,
            layout: GuestMemoryMmap::new(alloc),
            logged: Logged {
                host: HostMemory::new(alloc),
                pages: PageList::new(alloc)?,
                region: Region::none(),
            },
            table: Iotlb::with_limit(alloc, table_limit.max(1)),
            behind: None,
            is_behind: false,
        })
    }

    /// The layout.
    pub fn layout(&self) -> &GuestMemoryMmap
        ensures { result.now ≡ self.now.layout }
    {
        &self.layout
    }

    /// Writes bytes from an address on, as a driver does.
    pub fn write(&mut self, bytes: &[u8], address: GuestAddress) -> GuestMemoryResult<()>
        ensures pages { self.new.logged.pages ≡ self.old.logged.pages }
        ensures others { self.new ≡ record self.old { logged = self.new.logged } }
    {
        self.layout
            .write_slice(&mut self.logged.host, bytes, address)
    }

    /// Fills bytes from an address on, as a driver does.
    pub fn read(&self, bytes: &mut [u8], address: GuestAddress) -> GuestMemoryResult<()> {
        self.layout.read_slice(&self.logged.host, bytes, address)
    }

    /// Forgets all regions, the bytes that they have, and what was said of I/O addresses.
    pub fn forget(&mut self)
        ensures { self.new ≡ forgotten self.old }
    {
        self.behind = None;
        self.layout = GuestMemoryMmap::new(self.alloc);
        self.logged.host = HostMemory::new(self.alloc);
        self.table.invalidate_all();
    }

    /// Forgets what was said of I/O addresses.
    pub fn empty_table(&mut self)
        ensures { self.new ≡ emptied self.old }
    {
        self.table.invalidate_all();
        empty_first(&mut self.logged.host);
    }

    /// Takes the bytes of the next region. Returns whether they are as many.
    pub fn map(&mut self, region: &MemoryRegion, bytes: BlockBytes) -> bool
        requires some { 0 < length (bytes_of bytes) }
        requires small { length (bytes_of bytes) < 2 ^ 63 }
        ensures layout { self.new.layout ≡ self.old.layout }
        ensures pages { self.new.logged.pages ≡ self.old.logged.pages }
        ensures maps { Maps self.old (bytes_of bytes) result self.new }
    {
        if bytes.len() as u64 != region.size {
            return false;
        }
        match self.logged.host.new_block_of(bytes, ()) {
            Ok(_) => true,
            Err(_) => false,
        }
    }

    /// Takes the bytes of the region of requests in flight, in place of those before.
    pub fn track(&mut self, bytes: BlockBytes)
        ensures { self.new ≡ with_tracked self.old (bytes_of bytes) }
    {
        self.logged.region.set(bytes);
    }

    /// Makes guest memory of these regions, each of the bytes that came with its number, and a table for rings. Returns
    /// whether that could be done. If not, it forgets all.
    pub fn join(&mut self, regions: &[MemoryRegion]) -> bool
        ensures { Joins self.old regions.now result self.new }
    {
        let is_done = self.try_join(regions);
        if !is_done {
            self.forget();
        }
        is_done
    }

    // The same, without forgetting all.
    fn try_join(&mut self, regions: &[MemoryRegion]) -> bool
        ensures { MatchBool result (Joins self.old regions.now true self.new)
            (forgotten self.new ≡ forgotten self.old) }
    {
        let Some(layout) = layout_of(self.alloc, &self.logged.host, regions) else {
            return false;
        };
        let host = &mut self.logged.host;
        if !host.holds(&layout) {
            return false;
        }
        let Some(memory) = io_memory(self.alloc, host, &layout, self.is_behind) else {
            return false;
        };
        self.layout = layout;
        self.behind = Some(memory);
        true
    }

    /// Sets whether rings lie at I/O addresses.
    pub fn set_behind(&mut self, is_behind: bool)
        ensures { self.new ≡ with_behind self.old is_behind }
    {
        self.is_behind = is_behind;
        if let Some(memory) = &mut self.behind {
            memory.set_iommu_enabled(is_behind);
        }
    }

    /// Sets how many pages have a bit in the log.
    pub fn set_pages(&mut self, pages: u64)
        ensures { self.new ≡ with_pages self.old (record self.old.logged.pages { pages = pages }) }
    {
        self.logged.pages.set_pages(pages);
    }

    /// Takes pages that are to be marked, if there are any.
    pub fn take_pages(&mut self) -> Option<PageRange>
        ensures pages { TakesPages self.old.logged.pages result self.new.logged.pages }
        ensures others { self.new ≡ with_pages self.old self.new.logged.pages }
    {
        self.logged.pages.take()
    }

    /// The first bytes of a piece, as far as they lie in one region. `None` if its first byte lies in none.
    pub fn place_of(&self, piece: Piece) -> Option<RegionPiece>
        ensures { result ≡ place_of self.now piece }
    {
        let address = piece.base.checked_add(piece.offset)?;
        let (region, at) = self.layout.to_region_addr(GuestAddress(address))?;
        Some(RegionPiece {
            region: block_of(region.get_mmap().bitmap().id),
            offset: at.0,
            len: piece.len.min(region.len().saturating_sub(at.0)),
        })
    }

    /// Takes a step of a back end on this memory.
    pub fn step(&mut self, backend: &mut BlockBackend) -> Made
        ensures steps { Steps (memory_step self.old) backend.old self.old.logged result backend.new self.new.logged }
        ensures others { self.new ≡ record self.old { logged = self.new.logged } }
    {
        let (guest, kept, logged) = (&self.layout, &self.behind, &mut self.logged);
        let Some(ring) = io_memory_if(kept, self.is_behind) else {
            let (ring, table) = (guest, None);
            return backend.step(
                &Lent {
                    ring,
                    guest,
                    table,
                    kept,
                },
                logged,
            );
        };
        let table = Some(RING_TABLE);
        backend.step(
            &Lent {
                ring,
                guest,
                table,
                kept,
            },
            logged,
        )
    }

    /// Has a back end look at a ring on this memory.
    pub fn look(&mut self, backend: &mut BlockBackend) -> bool
        ensures looks { Looks (memory_step self.old) (way_of self.old backend.old) backend.old self.old.logged result
            backend.new self.new.logged }
        ensures others { self.new ≡ record self.old { logged = self.new.logged } }
    {
        let (guest, kept, logged) = (&self.layout, &self.behind, &mut self.logged);
        let Some(ring) = io_memory_if(kept, self.is_behind) else {
            let (ring, table) = (guest, None);
            return backend.look(
                &Lent {
                    ring,
                    guest,
                    table,
                    kept,
                },
                logged,
                None,
            );
        };
        let way = Way {
            table: &self.table,
            can_ask: backend.can_ask(),
        };
        let table = Some(RING_TABLE);
        backend.look(
            &Lent {
                ring,
                guest,
                table,
                kept,
            },
            logged,
            Some(&way),
        )
    }

    /// Changes what is said of I/O addresses as a message has it, and what rings have of that. Returns how many ranges
    /// the table evicted, and `None` if nothing was done.
    pub fn change(&mut self, backend: &mut BlockBackend) -> Option<usize>
        ensures changes { ChangesTable (table_step self.old) backend.old self.old.table self.old.logged
            (is_some result) backend.new self.new.table self.new.logged }
        ensures evicts { IfSome result (λ n. n ≡ evicted_by backend.old.change self.old.table) }
        ensures others { self.new ≡ record self.old { logged = self.new.logged; table = self.new.table } }
    {
        let (guest, kept, logged) = (&self.layout, &self.behind, &mut self.logged);
        let Some(ring) = kept else {
            let (ring, table) = (guest, None);
            return backend.change_table(
                &Lent {
                    ring,
                    guest,
                    table,
                    kept,
                },
                logged,
                &mut self.table,
            );
        };
        let table = Some(RING_TABLE);
        backend.change_table(
            &Lent {
                ring,
                guest,
                table,
                kept,
            },
            logged,
            &mut self.table,
        )
    }
}
