//! Backends: layouts of regions, and the walk through them.
ghost use Rattle.std.specs.Prelude.{◌≡◌, ◌+◌, ◌-◌, ◌^◌, ◌<◌, ◌≤◌, ◌↔◌, List, length, map, flat_map, slice_get};
ghost use Rattle.std.specs.Prelude.{option_copied, MatchOption, MatchResult, None, Some, Ok, Err, IfSome, IsSome};
ghost use Rattle.std.specs.Prelude.{IsTrue};
ghost use Rattle.std.specs.Iterator.{YieldsFirst, item_count};
ghost use Rattle.vm_memory_guest.specs.Access.{meets, path};
ghost use Rattle.vm_memory_guest.specs.Memory.{Direct};
ghost use Rattle.vm_memory_guest.specs.Queries.{address_above, address_in, greatest_last};
ghost use Rattle.vm_memory_guest.specs.Queries.{host_address_at, is_whole, slice_at};
ghost use Rattle.vm_memory_guest.specs.Region.{IsLayout, containing_in, region_names};
ghost use Rattle.vm_memory_guest.specs.TryAccess.{CallsAt, Ends, GoesOn, after_call, TryAccess};
ghost use Rattle.vm_memory_base.specs.Address.{step};
ghost use Rattle.vm_memory_guest.specs.Walk.{alone, items_of, walk_of};

use super::iter::RegionIter;
use super::stop_on_error::{GuestMemorySliceIterator, ends_well};
use crate::host::Named;
use crate::host::address::HostAddress;
use crate::region::GuestMemoryRegion;
use crate::region::error::{GuestMemoryError, GuestMemoryResult};
use crate::volatile_memory::slice::VolatileSlice;
use std::marker::Model;
use vm_memory_base::{Address, GuestAddress, MemoryRegionAddress};

/// A layout of regions that holds guest memory.
///
/// ```text
/// for window in layout.get_slices(GuestAddress(0xffe), 4) {
///     count += window?.len();
/// }
/// ```
pub trait GuestMemoryBackend: Named + Drop {
    /// The type of its regions.
    type R: GuestMemoryRegion;

    /// Its regions, ascending.
    ghost regions: { Self → List Self.R };

    /// The number of regions.
    fn num_regions(&self) -> usize
        ensures count { result ≡ length (regions self.now) }
        ensures layout { IsLayout (map Self.R.region (regions self.now)) };

    /// Does nothing. A proof learns from it that the regions are a layout.
    #[inline]
    fn recall_law(&self)
        ensures { IsLayout (map Self.R.region (regions self.now)) }
    {
        self.num_regions();
    }

    /// The region that holds an address. Regions are disjoint, so it is the only one.
    fn find_region(&self, addr: GuestAddress) -> Option<&Self::R>
        ensures found { option_copied result ≡ containing_in Self.R.region (regions self.now) addr.0 }
        ensures layout { IsLayout (map Self.R.region (regions self.now)) };

    /// The region of this number, in the order of addresses, counted from 0.
    fn region_at(&self, index: usize) -> Option<&Self::R>
        ensures { option_copied result ≡ slice_get (regions self.now) index };

    /// The regions, ascending.
    #[inline]
    final fn iter(&self) -> RegionIter<'_, Self, Self::R>
        ensures { result ≡ regions self.now }
    {
        RegionIter::new(self)
    }

    /// The greatest address that a region holds, or 0 if there is no region.
    #[inline]
    final fn last_addr(&self) -> GuestAddress
        ensures { result.0 ≡ greatest_last (map Self.R.region (regions self.now)) }
    {
        // Regions ascend, so that none ends above the last of them.
        match self.region_at(self.num_regions().saturating_sub(1)) {
            Some(region) => region.last_addr(),
            None => GuestAddress(0),
        }
    }

    /// The region that holds an address, and the address's offset there.
    #[inline]
    fn to_region_addr(&self, addr: GuestAddress) -> Option<(&Self::R, MemoryRegionAddress)>
        ensures found { let home = containing_in Self.R.region (regions self.now) addr.0 in
            MatchOption result (home ≡ None)
            (λ p. (home ≡ Some p.0.now) × (p.1.0 ≡ addr.0 - (Self.R.region p.0.now).start)) }
        ensures layout { IsLayout (map Self.R.region (regions self.now)) }
    {
        let region = self.find_region(addr)?;
        let offset = MemoryRegionAddress(addr.0 - region.start_addr().0);
        Some((region, offset))
    }

    /// What `to_region_addr` returns, and a number for the next call. The region of the number `hint` is asked first,
    /// so that a call for an address near the last one need not search. The answer is the same for each hint.
    #[inline]
    fn find_near(
        &self,
        addr: GuestAddress,
        hint: usize,
    ) -> (Option<(&Self::R, MemoryRegionAddress)>, usize)
        ensures found { let home = containing_in Self.R.region (regions self.now) addr.0 in
            MatchOption result.0 (home ≡ None)
            (λ p. (home ≡ Some p.0.now) × (p.1.0 ≡ addr.0 - (Self.R.region p.0.now).start)) }
        ensures layout { IsLayout (map Self.R.region (regions self.now)) }
    {
        (self.to_region_addr(addr), hint)
    }

    /// The window of `count` bytes from an address on, if there are some and they lie in one region that has host
    /// bytes, and a number for the next call. The region of the number `hint` is asked first.
    #[inline(always)]
    final fn window_near(
        &self,
        addr: GuestAddress,
        count: usize,
        hint: usize,
    ) -> (Option<VolatileSlice>, usize)
        ensures { IfSome result.0 (λ w.
            walk_of (map Self.R.region (regions self.now)) addr.0 count ≡ alone w) }
    {
        known_address(addr);
        let (found, next) = self.find_near(addr, hint);
        let Some((region, offset)) = found else {
            return (None, next);
        };
        if count == 0 || region.len() - offset.0 < count as u64 {
            return (None, next);
        }
        match region.get_slice(offset, count) {
            Ok(window) => (Some(window), next),
            Err(_) => (None, next),
        }
    }

    /// Whether a region holds an address.
    #[inline]
    final fn address_in_range(&self, addr: GuestAddress) -> bool
        ensures { IsTrue result ↔ IsSome (containing_in Self.R.region (regions self.now) addr.0) }
    {
        self.find_region(addr).is_some()
    }

    /// The address, if a region holds it, and otherwise `None`.
    #[inline]
    final fn check_address(&self, addr: GuestAddress) -> Option<GuestAddress>
        ensures { result ≡ address_in Self.R.region (regions self.now) addr.0 }
    {
        self.find_region(addr)?;
        Some(addr)
    }

    /// The address that lies `offset` above `base`, if that is an address and a region holds it, and
    /// otherwise `None`.
    #[inline]
    final fn checked_offset(&self, base: GuestAddress, offset: usize) -> Option<GuestAddress>
        ensures { result ≡ address_above Self.R.region (regions self.now) base.0 offset }
    {
        let sum = base.0.checked_add(offset as u64)?;
        self.check_address(GuestAddress(sum))
    }

    /// Whether each of `len` bytes from an address on has a byte of the host. After the greatest address comes
    /// 0. For no bytes it is true.
    #[inline]
    final fn check_range(&self, base: GuestAddress, len: usize) -> bool
    where
        Self: Sized,
        ensures { let regions = map Self.R.region (regions self.now) in
            result ≡ is_whole (path (meets regions Direct base.0) 0 len) len }
    {
        ends_well(self.get_slices(base, len))
    }

    /// Handles `count` bytes from an address on by a callback, which has to be one that may always be called.
    ///
    /// The callback is given the bytes handled so far, how many of the rest lie in the region of the next
    /// address, the offset there and the region. It returns how many it handled. The call returns the number of bytes
    /// handled if the callback returns 0, if all are handled, and if no region holds the next address.
    /// An error of the callback is returned. `CallbackOutOfRange` if it handled more than `count` bytes in
    /// all, `GuestAddressOverflow` if the next address is above 2^64, which is 0 again, and
    /// `InvalidGuestAddress` if no region holds the first address.
    final fn try_access<F>(
        &self,
        count: usize,
        addr: GuestAddress,
        mut f: F,
    ) -> GuestMemoryResult<usize>
    where
        F: FnMut(usize, usize, MemoryRegionAddress, &Self::R) -> GuestMemoryResult<usize>,
        requires { F.IsAlwaysCallable f }
        ensures { (last : F) × TryAccess Self.R.region (regions self.now) (CallsAt F.FnMut) addr.0 count
            f 0 addr.0 result last }
    {
        let mut total = 0;
        let mut current = addr;
        while let Some(region) = self.find_region(current) {
            let offset = current.0 - region.start_addr().0;
            let len = (region.len() - offset).min((count - total) as u64);
            let handled = f(total, len as usize, MemoryRegionAddress(offset), region)?;
            let next = next_address(count, total, current, handled)?;
            total += handled;
            let Some(next) = next else {
                return Ok(total);
            };
            current = next;
        }
        if total == 0 {
            return Err(GuestMemoryError::InvalidGuestAddress(addr));
        }
        Ok(total)
    }

    /// Where the byte at an address is in the host: `InvalidGuestAddress` if no region holds it, and
    /// otherwise what its region returns.
    #[inline]
    final fn get_host_address(&self, addr: GuestAddress) -> GuestMemoryResult<HostAddress>
        ensures { result ≡ host_address_at Self.R.region (regions self.now) addr.0 }
    {
        let Some((region, offset)) = self.to_region_addr(addr) else {
            return Err(GuestMemoryError::InvalidGuestAddress(addr));
        };
        region.get_host_address(offset)
    }

    /// The window of `count` bytes from an address on, all in one region: `InvalidGuestAddress` if no region
    /// holds the address, and otherwise what its region returns.
    #[inline]
    final fn get_slice(&self, addr: GuestAddress, count: usize) -> GuestMemoryResult<VolatileSlice>
        ensures { result ≡ slice_at Self.R.region (regions self.now) addr.0 count }
    {
        let Some((region, offset)) = self.to_region_addr(addr) else {
            return Err(GuestMemoryError::InvalidGuestAddress(addr));
        };
        region.get_slice(offset, count)
    }

    /// The windows of `count` bytes from an address on, and then the error of the first address that has no
    /// byte: `InvalidGuestAddress` if no region holds it, `HostAddressNotAvailable` if its region has no
    /// host bytes. After the greatest address comes 0.
    #[inline]
    final fn get_slices(
        &self,
        addr: GuestAddress,
        count: usize,
    ) -> GuestMemoryBackendSliceIterator<'_, Self>
        ensures { result ≡ walk_of (map Self.R.region (regions self.now)) addr.0 count }
    {
        GuestMemoryBackendSliceIterator {
            mem: self,
            addr,
            count,
        }
    }

    /// It names the places of its regions' bytes.
    ghost names_regions: { (m : Self) → Self.names m ≡ flat_map region_names (map Self.R.region (regions m)) };
}

/// The walk through a backend: the crate's README.md, "Accesses". After its end or an error it stays ended.
#[derive(Debug, Drop)]
pub struct GuestMemoryBackendSliceIterator<'a, M: GuestMemoryBackend> {
    mem: &'a M,
    addr: GuestAddress,
    count: usize,
}

impl<'a, M: GuestMemoryBackend> Model for GuestMemoryBackendSliceIterator<'a, M> {
    ghost use Rattle.std.specs.Prelude.{map};
    ghost use Rattle.vm_memory_guest.specs.Access.{AccessFault};
    ghost use Rattle.vm_memory_guest.specs.Answer.{Reach};
    ghost use Rattle.vm_memory_guest.specs.Walk.{walk_of};

    ghost Value = { Reach AccessFault };

    ghost view = { λ it. walk_of (map M.R.region (M.regions it.mem.now)) it.addr.0 it.count };
}

impl<'a, M: GuestMemoryBackend> GuestMemorySliceIterator
    for GuestMemoryBackendSliceIterator<'a, M> {
    ghost left = { λ it. it };

    ghost can = { λ it. tt };

    ghost ends = { λ it. tt };

    ghost gives = { λ s r t h. h };
}

impl<'a, M: GuestMemoryBackend> Iterator for GuestMemoryBackendSliceIterator<'a, M> {
    type Item = GuestMemoryResult<VolatileSlice>;

    ghost next_gives = { YieldsFirst items_of };

    ghost remaining = { item_count items_of };

    #[inline]
    fn next(&mut self) -> Option<GuestMemoryResult<VolatileSlice>> {
        if self.count == 0 {
            return None;
        }
        known_address(self.addr);
        let Some((region, offset)) = self.mem.to_region_addr(self.addr) else {
            self.count = 0;
            return Some(Err(GuestMemoryError::InvalidGuestAddress(self.addr)));
        };
        let len = (region.len() - offset.0).min(self.count as u64);
        match region.get_slice(offset, len as usize) {
            Ok(window) => {
                self.count -= len as usize;
                self.addr = self.addr.overflowing_add(len).0;
                Some(Ok(window))
            }
            Err(error) => {
                self.count = 0;
                Some(Err(error))
            }
        }
    }
}

// Does nothing: an address has 64 bits.
#[inline(always)]
fn known_address(addr: GuestAddress)
    ensures { addr.0 < 2 ^ 64 }
{
    let _bits = addr.0;
}

// The address after what a callback handled of an access of `count` bytes, or `None` where that was nothing or
// all that was left.
#[inline]
fn next_address(
    count: usize,
    total: usize,
    addr: GuestAddress,
    handled: usize,
) -> GuestMemoryResult<Option<GuestAddress>>
    requires { total ≤ count }
    ensures { let then = after_call count total addr.0 (Ok handled) in
        MatchResult result
        (λ after_call. (total + handled ≤ count) × MatchOption after_call (then ≡ Ends (Ok (total + handled)))
        (λ a. (then ≡ GoesOn) × (0 < handled) × (total + handled < count) × (a.0 ≡ step addr.0 handled)))
        (λ e. then ≡ Ends (Err e)) }
{
    if handled == 0 {
        return Ok(None);
    }
    if handled > count - total {
        return Err(GuestMemoryError::CallbackOutOfRange);
    }
    if handled == count - total {
        return Ok(None);
    }
    let (next, past) = addr.overflowing_add(handled as u64);
    if past && next.0 != 0 {
        return Err(GuestMemoryError::GuestAddressOverflow);
    }
    Ok(Some(next))
}
