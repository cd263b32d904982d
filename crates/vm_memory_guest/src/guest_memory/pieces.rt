//! The pieces of physical addresses that a translation gives.
ghost use Rattle.std.specs.Prelude.{◌≡◌, ◌<◌, [], drop, length, map, MatchOption, None, Some};
ghost use Rattle.std.specs.Iterator.{YieldsFirst};
ghost use Rattle.vm_memory_base.specs.Address.{step};
ghost use Rattle.vm_memory_base.specs.declared.bitmap.BitmapId.TheVariants as bitmaps;
ghost use Rattle.vm_memory_guest.specs.Pieces.{PiecesLeft, followed_by, left_of, walk_of_pieces};
ghost use Rattle.vm_memory_guest.specs.Walk.{items_of};

use super::backend::{GuestMemoryBackend, GuestMemoryBackendSliceIterator};
use crate::host::SpaceId;
use crate::region::error::GuestMemoryResult;
use crate::volatile_memory::slice::VolatileSlice;
use std::marker::Model;
use vm_memory_base::{Address, BitmapId, BitmapRef, GuestAddress, MappedRangeList};

// The pieces that a walk has left after the one that it goes through, and the space that its windows mark,
// from an address on.
#[derive(Drop)]
pub(super) struct LaterPieces<'a, M: GuestMemoryBackend> {
    mem: &'a M,
    pieces: MappedRangeList,
    next: usize,
    space: SpaceId,
    iova: GuestAddress,
}

impl<'a, M: GuestMemoryBackend> Model for LaterPieces<'a, M> {
    ghost use Rattle.std.specs.Prelude.{drop, map};
    ghost use Rattle.vm_memory_guest.specs.Pieces.{PiecesLeft};

    ghost Value = { PiecesLeft };

    ghost view = { λ p. record {
      regions = map M.R.region (M.regions p.mem.now);
      pieces = drop p.next p.pieces;
      space = p.space.0;
      iova = p.iova.0;
    } };
}

impl<'a, M: GuestMemoryBackend> LaterPieces<'a, M> {
    // What a walk through these pieces has before it.
    #[inline(always)]
    pub(super) fn new(
        mem: &'a M,
        pieces: MappedRangeList,
        iova: GuestAddress,
        space: SpaceId,
    ) -> LaterPieces<'a, M>
        ensures { result ≡ record {
          regions = map M.R.region (M.regions mem.now);
          pieces = pieces;
          space = space.0;
          iova = iova.0;
        } }
    {
        LaterPieces {
            mem,
            pieces,
            next: 0,
            space,
            iova,
        }
    }

    // The walk through the next piece.
    #[inline(always)]
    pub(super) fn next_walk(&mut self) -> Option<GuestMemoryBackendSliceIterator<'a, M>>
        ensures walk { let before = walk_of_pieces self.old.regions self.old.pieces in
            let after = walk_of_pieces self.new.regions self.new.pieces in
            MatchOption result (before ≡ record { windows = []; fault = None })
            (λ walk. before ≡ followed_by walk after) }
        ensures left { MatchOption result ((self.new ≡ self.old) × (self.old.pieces ≡ []))
            (λ _. (self.new ≡ record self.old { pieces = self.new.pieces })
            × (length self.new.pieces < length self.old.pieces)) }
    {
        let piece = *self.pieces.as_slice().get(self.next)?;
        self.next += 1;
        Some(self.mem.get_slices(piece.base, piece.length))
    }

    // A window that comes next marks the space, and what is left marks it from the end of the window on.
    #[inline(always)]
    fn marked(&mut self, window: VolatileSlice) -> VolatileSlice
        ensures window { result ≡ record window {
          bitmap = record { id = bitmaps.Space self.old.space; base = self.old.iova };
        } }
        ensures later { self.new ≡ record self.old { iova = step self.old.iova window.size } }
    {
        let bitmap = BitmapRef {
            id: BitmapId::Space(self.space.0),
            base: self.iova.0 as usize,
        };
        self.iova = self.iova.overflowing_add(window.len() as u64).0;
        window.marking(bitmap)
    }

    // Leaves out all that is left.
    #[inline]
    fn end(&mut self)
        ensures { self.new ≡ record self.old { pieces = [] } }
    {
        self.next = self.pieces.as_slice().len();
    }
}

// What comes next, of the piece that a walk goes through or of those after it. It is inlined, so that a walk that
// has no pieces stays in registers.
#[inline(always)]
pub(super) fn next_of_pieces<'a, M: GuestMemoryBackend>(
    walk: &mut GuestMemoryBackendSliceIterator<'a, M>,
    later: &mut LaterPieces<'a, M>,
) -> Option<GuestMemoryResult<VolatileSlice>>
    ensures { YieldsFirst items_of (left_of walk.old (Some later.old)) result
        (left_of walk.new (Some later.new)) }
{
    'pieces: loop {
        match walk.next() {
            Some(Ok(window)) => return Some(Ok(later.marked(window))),
            Some(Err(error)) => {
                later.end();
                return Some(Err(error));
            }
            None => {
                *walk = later.next_walk()?;
            }
        }
    }
}
