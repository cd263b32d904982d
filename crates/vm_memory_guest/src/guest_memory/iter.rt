//! The regions of a backend, one after the other.
ghost use Rattle.std.specs.Prelude.{◌≡◌};
ghost use Rattle.std.specs.Iterator.{YieldsFirstRef, item_count};

use super::backend::GuestMemoryBackend;
use crate::region::GuestMemoryRegion;
use std::marker::{Model, PhantomData};

/// The regions of a backend that are left, ascending. After its end it stays ended.
#[derive(Drop)]
pub struct RegionIter<'a, M: GuestMemoryBackend<R = R>, R: GuestMemoryRegion> {
    mem: &'a M,
    next: usize,
    of: PhantomData<&'a R>,
}

impl<'a, M: GuestMemoryBackend<R = R>, R: GuestMemoryRegion> Model for RegionIter<'a, M, R> {
    ghost use Rattle.std.specs.Prelude.{List, drop};

    ghost Value = { List R };

    ghost view = { λ it. drop it.next (M.regions it.mem.now) };
}

impl<'a, M: GuestMemoryBackend<R = R>, R: GuestMemoryRegion> RegionIter<'a, M, R> {
    // All regions of a backend.
    #[inline]
    pub(super) fn new(mem: &'a M) -> RegionIter<'a, M, R>
        ensures { result ≡ M.regions mem.now }
    {
        RegionIter {
            mem,
            next: 0,
            of: PhantomData,
        }
    }
}

impl<'a, M: GuestMemoryBackend<R = R>, R: GuestMemoryRegion> Iterator for RegionIter<'a, M, R> {
    type Item = &'a R;

    ghost next_gives = { YieldsFirstRef (λ rest. rest) };

    ghost remaining = { item_count (λ rest. rest) };

    #[inline]
    fn next(&mut self) -> Option<&'a R> {
        if self.next >= self.mem.num_regions() {
            return None;
        }
        let region = self.mem.region_at(self.next)?;
        self.next += 1;
        Some(region)
    }
}
