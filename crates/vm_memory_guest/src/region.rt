//! Regions of guest physical memory.
ghost use Rattle.std.specs.Prelude.{◌≡◌, ◌+◌, nat_lt, IfSome};
ghost use Rattle.vm_memory_guest.specs.Region.{Region, IsRegion, last, region_names, slice_of};
ghost use Rattle.vm_memory_guest.specs.Queries.{bitmap_from, offset_in, offset_of, host_address_of};

pub mod bytes;
pub mod error;

use self::error::GuestMemoryResult;
use crate::host::Named;
use crate::host::address::HostAddress;
use crate::volatile_memory::slice::VolatileSlice;
use vm_memory_base::{BitmapRef, GuestAddress, GuestUsize, MemoryRegionAddress};

/// A range of guest physical addresses, with or without host bytes: the crate's README.md, "Regions".
///
/// A region with host bytes lies at one place of one block, and its windows mark that block's bitmap at
/// the block's offsets. One without always returns `HostAddressNotAvailable`.
///
/// ```text
/// let window = region.get_slice(MemoryRegionAddress(0x10), 4)?;
/// ```
pub trait GuestMemoryRegion: Named + Drop {
    /// Its start, its length, and the place of its first byte.
    ghost region: { Self → Region };

    /// The number of addresses, above 0.
    fn len(&self) -> GuestUsize
        ensures { result ≡ (region self.now).len };

    /// The first address.
    fn start_addr(&self) -> GuestAddress
        ensures { result.0 ≡ (region self.now).start };

    /// The last address.
    fn last_addr(&self) -> GuestAddress
        ensures { result.0 ≡ last (region self.now) };

    /// The view of a bitmap that writes mark, from the region's first byte on: that of its block. A region without host
    /// bytes returns any view, and nothing of it is ever marked.
    fn bitmap(&self) -> BitmapRef
        ensures { IfSome (region self.now).place (λ first. result ≡ bitmap_from first) };

    /// Whether there is an address at this offset.
    #[inline]
    final fn address_in_range(&self, addr: MemoryRegionAddress) -> bool
        ensures { result ≡ nat_lt addr.0 (region self.now).len }
    {
        addr.0 < self.len()
    }

    /// The offset, if there is an address at it, and otherwise `None`.
    #[inline]
    final fn check_address(&self, addr: MemoryRegionAddress) -> Option<MemoryRegionAddress>
        ensures { result ≡ offset_in (region self.now) addr.0 }
    {
        self.address_in_range(addr).then_some(addr)
    }

    /// The offset that lies `offset` bytes above `base`, if there is an address at it, and otherwise `None`.
    #[inline]
    final fn checked_offset(
        &self,
        base: MemoryRegionAddress,
        offset: usize,
    ) -> Option<MemoryRegionAddress>
        ensures { result ≡ offset_in (region self.now) (base.0 + offset) }
    {
        let sum = base.0.checked_add(offset as u64)?;
        self.check_address(MemoryRegionAddress(sum))
    }

    /// The offset of an address, if the region holds it, and otherwise `None`.
    #[inline]
    final fn to_region_addr(&self, addr: GuestAddress) -> Option<MemoryRegionAddress>
        ensures { result ≡ offset_of (region self.now) addr.0 }
    {
        let offset = addr.0.checked_sub(self.start_addr().0)?;
        self.check_address(MemoryRegionAddress(offset))
    }

    /// Where the byte at an offset is in the host. `HostAddressNotAvailable` if the region has no host bytes,
    /// otherwise `InvalidBackendAddress` if there is no address at the offset.
    #[inline]
    final fn get_host_address(&self, addr: MemoryRegionAddress) -> GuestMemoryResult<HostAddress>
        ensures { result ≡ host_address_of (region self.now) addr.0 }
    {
        let window = self.get_slice(addr, 1)?;
        Ok(window.host_address())
    }

    /// The window of all bytes, or `HostAddressNotAvailable` if the region has no host bytes.
    #[inline]
    final fn as_volatile_slice(&self) -> GuestMemoryResult<VolatileSlice>
        ensures { result ≡ slice_of (region self.now) 0 (region self.now).len }
    {
        self.get_slice(MemoryRegionAddress(0), self.len() as usize)
    }

    /// The window of `count` bytes from `offset` on. `HostAddressNotAvailable` if the region has no host bytes,
    /// otherwise `InvalidBackendAddress` if it passes the region's end.
    fn get_slice(
        &self,
        offset: MemoryRegionAddress,
        count: usize,
    ) -> GuestMemoryResult<VolatileSlice>
        ensures { result ≡ slice_of (region self.now) offset.0 count };

    /// Its addresses and its bytes' offsets fit 64 bits.
    ghost fits: { (r : Self) → IsRegion (region r) };

    /// It names the place of its bytes.
    ghost names_place: { (r : Self) → Self.names r ≡ region_names (region r) };
}
