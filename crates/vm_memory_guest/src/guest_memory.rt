//! Guest memory: backends, which are collections of regions, the walk through them, and access by guest
//! address.
ghost use Rattle.std.specs.Prelude.{◌≡◌, ◌⊎◌, ◌∷◌, [], map, All, None, IfSome, MatchOption, MatchResult};
ghost use Rattle.std.specs.Iterator.{YieldsFirst, item_count};
ghost use Rattle.vm_memory_guest.specs.Access.{access_of};
ghost use Rattle.vm_memory_guest.specs.Host.{shape_of, Holds};
ghost use Rattle.vm_memory_guest.specs.Region.{IsRegion, IsLayout};
ghost use Rattle.vm_memory_guest.specs.Memory.{Memory, IsOn, behind_of, memory_names, route};
ghost use Rattle.vm_memory_guest.specs.Pieces.{marking, walk_of_pieces};
ghost use Rattle.vm_memory_guest.specs.Queries.{is_whole};
ghost use Rattle.vm_memory_guest.specs.Walk.{alone, items_of, GivesAccess, RefusesAccess, WantsMemory};

pub mod access;
pub mod backend;
pub mod hinted;
pub mod iter;
mod pieces;
pub mod stop_on_error;
mod transfer;

use self::backend::{GuestMemoryBackend, GuestMemoryBackendSliceIterator};
use self::pieces::{LaterPieces, next_of_pieces};
use self::stop_on_error::{GuestMemorySliceIterator, ends_well};
use crate::host::{HostMemory, Named, SpaceId};
use crate::region::error::{GuestMemoryError, GuestMemoryResult};
use crate::volatile_memory::slice::VolatileSlice;
use std::marker::Model;
use vm_memory_base::{
    Bitmap, BitmapId, BitmapRef, GuestAddress, MappedRange, MappedRangeList, Permissions,
};

/// The windows of an access, translated or not, and then the error that stopped it. After its end or an error
/// it stays ended.
#[derive(Drop)]
pub struct IommuMemorySliceIterator<'a, M: GuestMemoryBackend> {
    walk: GuestMemoryBackendSliceIterator<'a, M>,
    // If addresses are translated: what comes after the piece of the walk.
    later: Option<LaterPieces<'a, M>>,
}

impl<'a, M: GuestMemoryBackend> Model for IommuMemorySliceIterator<'a, M> {
    ghost use Rattle.vm_memory_guest.specs.Access.{AccessFault};
    ghost use Rattle.vm_memory_guest.specs.Answer.{Reach};

    ghost Value = { Reach AccessFault };

    ghost use Rattle.vm_memory_guest.specs.Pieces.{left_of};

    ghost view = { λ it. left_of it.walk it.later };
}

impl<'a, M: GuestMemoryBackend> IommuMemorySliceIterator<'a, M> {
    /// The windows of pieces of physical addresses, one piece after the other, up to the first fault. They mark
    /// the space, from the address `iova` on: after the greatest address comes 0.
    #[inline(always)]
    pub fn of_pieces(
        backend: &'a M,
        pieces: MappedRangeList,
        iova: GuestAddress,
        space: SpaceId,
    ) -> IommuMemorySliceIterator<'a, M>
        ensures { let regions = map M.R.region (M.regions backend.now) in
            result ≡ marking space.0 iova.0 (walk_of_pieces regions pieces) }
    {
        let mut later = LaterPieces::new(backend, pieces, iova, space);
        if let Some(walk) = later.next_walk() {
            return IommuMemorySliceIterator {
                walk,
                later: Some(later),
            };
        }
        IommuMemorySliceIterator {
            walk: GuestMemoryBackend::get_slices(backend, iova, 0),
            later: None,
        }
    }

    /// The window of one such piece, if it lies in one that is found at once, and a number for the next call, as from
    /// `find_window`.
    ///
    /// Leaves open: `None` for each piece.
    #[inline(always)]
    pub fn window_of_piece(
        backend: &M,
        piece: MappedRange,
        iova: GuestAddress,
        space: SpaceId,
        hint: usize,
    ) -> (Option<VolatileSlice>, usize)
        ensures { let regions = map M.R.region (M.regions backend.now) in IfSome result.0
            (λ w. alone w ≡ marking space.0 iova.0 (walk_of_pieces regions (piece ∷ []))) }
    {
        let (found, next) = backend.window_near(piece.base, piece.length, hint);
        let Some(window) = found else {
            return (None, next);
        };
        let bitmap = BitmapRef {
            id: BitmapId::Space(space.0),
            base: iova.0 as usize,
        };
        (Some(window.marking(bitmap)), next)
    }
}

impl<'a, M: GuestMemoryBackend> GuestMemorySliceIterator for IommuMemorySliceIterator<'a, M> {
    ghost left = { λ it. it };

    ghost can = { λ it. tt };

    ghost ends = { λ it. tt };

    ghost gives = { λ s r t h. h };
}

impl<'a, M: GuestMemoryBackend> Iterator for IommuMemorySliceIterator<'a, M> {
    type Item = GuestMemoryResult<VolatileSlice>;

    ghost next_gives = { YieldsFirst items_of };

    ghost remaining = { item_count items_of };

    #[inline(always)]
    fn next(&mut self) -> Option<GuestMemoryResult<VolatileSlice>> {
        match &mut self.later {
            None => self.walk.next(),
            Some(later) => next_of_pieces(&mut self.walk, later),
        }
    }
}

/// Guest memory: a backend, alone or behind an IOMMU. Every type that implements it has `Bytes` by guest address. A
/// call that is lent the host requires that it holds what the memory names.
///
/// ```text
/// for window in memory.get_slices(&host, GuestAddress(0x1000), 8, Permissions::Read)? {
///     count += window?.len();
/// }
/// ```
pub trait GuestMemory: Named {
    /// The backend in which translated addresses lie.
    type PhysicalMemory: GuestMemoryBackend;

    /// Its regions, and its IOMMU, if it has one.
    ghost memory: { Self → Memory };

    /// The windows of `count` bytes from an address on, and then the error of the first that is not there. An
    /// access that the translation does not allow is refused at once with `IommuError`, even if its end passes
    /// 2^64 - 1. `Memory` comes only if an IOMMU is on and allows the access, which it leads to two pieces or more.
    fn get_slices<B: Bitmap>(
        &self,
        host: &HostMemory<B>,
        addr: GuestAddress,
        count: usize,
        access: Permissions,
    ) -> GuestMemoryResult<IommuMemorySliceIterator<'_, Self::PhysicalMemory>>
        requires { Holds (shape_of host.now) (Self.names self.now) }
        ensures answer { MatchResult result
            (GivesAccess (memory self.now) host.now.tables addr.0 count access)
            (λ e. WantsMemory (memory self.now) host.now.tables addr.0 count access e
            ⊎ RefusesAccess (memory self.now) host.now.tables addr.0 count access e) }
        ensures layout { IsLayout (memory self.now).regions };

    /// The window of `count` bytes from an address on, if they are allowed and lie in one that is found at once, and a
    /// number for the next call. The region of the number `hint` is asked first, so that a call for an address near the
    /// last one need not search. `None` says nothing of the access. It allocates nothing.
    ///
    /// Leaves open: `None` for each access.
    #[inline]
    fn find_window<B: Bitmap>(
        &self,
        _host: &HostMemory<B>,
        _addr: GuestAddress,
        _count: usize,
        _access: Permissions,
        hint: usize,
    ) -> (Option<VolatileSlice>, usize)
        requires { Holds (shape_of _host.now) (Self.names self.now) }
        ensures { IfSome result.0 (λ w.
            GivesAccess (memory self.now) _host.now.tables _addr.0 _count _access (alone w)) }
    {
        (None, hint)
    }

    /// Whether each of `count` bytes from an address on may be accessed so, and has a byte of the host. For no
    /// bytes it is true. The only error is `Memory`, as from `get_slices`.
    #[inline]
    fn check_range<B: Bitmap>(
        &self,
        host: &HostMemory<B>,
        addr: GuestAddress,
        count: usize,
        access: Permissions,
    ) -> GuestMemoryResult<bool>
        requires { Holds (shape_of host.now) (Self.names self.now) }
        ensures { let m = memory self.now in
            let reached = access_of m.regions (route m host.now.tables) addr.0 count access in
            MatchResult result (λ all. all ≡ is_whole reached.path count)
            (WantsMemory m host.now.tables addr.0 count access) }
    {
        if let (Some(_), _) = self.find_window(host, addr, count, access, 0) {
            return Ok(true);
        }
        match self.get_slices(host, addr, count, access) {
            Ok(walk) => Ok(ends_well(walk)),
            Err(GuestMemoryError::Memory) => Err(GuestMemoryError::Memory),
            Err(_) => Ok(false),
        }
    }

    /// The backend if no IOMMU is on, and its addresses are the memory's. Otherwise `None`.
    fn physical_memory(&self) -> Option<&Self::PhysicalMemory>
        ensures { let m = memory self.now in
            MatchOption result (IsOn m) (λ backend. (behind_of m.iommu ≡ None)
            × (m.regions ≡ map Self.PhysicalMemory.R.region (Self.PhysicalMemory.regions backend.now))) };

    /// Its regions' addresses and offsets fit 64 bits.
    ghost each_fits: { (m : Self) → All IsRegion (memory m).regions };

    /// It names the places of its regions' bytes, and its table and space, even if its IOMMU is off.
    ghost names_memory: { (m : Self) → Self.names m ≡ memory_names (memory m) };
}

impl<M: GuestMemoryBackend> GuestMemory for M {
    ghost use Rattle.std.proofs.Common.{append-nil, ◌∙◌, sym};
    ghost use Rattle.vm_memory_guest.specs.Collection.{each_is_region};

    type PhysicalMemory = M;

    ghost memory = { λ m. record { regions = map M.R.region (M.regions m); iommu = None } };

    ghost each_fits = { λ m. each_is_region M.R.region M.R.fits (M.regions m) };

    ghost names_memory = { λ m. M.names_regions m ∙ sym (append-nil _) };

    #[inline(always)]
    fn get_slices<B: Bitmap>(
        &self,
        _host: &HostMemory<B>,
        addr: GuestAddress,
        count: usize,
        _access: Permissions,
    ) -> GuestMemoryResult<IommuMemorySliceIterator<'_, M>> {
        self.recall_law();
        Ok(IommuMemorySliceIterator {
            walk: GuestMemoryBackend::get_slices(self, addr, count),
            later: None,
        })
    }

    #[inline(always)]
    fn find_window<B: Bitmap>(
        &self,
        _host: &HostMemory<B>,
        addr: GuestAddress,
        count: usize,
        _access: Permissions,
        hint: usize,
    ) -> (Option<VolatileSlice>, usize) {
        self.window_near(addr, count, hint)
    }

    #[inline]
    fn physical_memory(&self) -> Option<&M> {
        Some(self)
    }
}
