//! Access to the bytes of one region.
ghost use Rattle.std.specs.Prelude.{◌≡◌};
ghost use Rattle.vm_memory_guest.specs.Region.{slice_of};
ghost use Rattle.vm_memory_guest.specs.RegionBytes.{as_guest, moved_in, region_place, region_reach};
ghost use Rattle.vm_memory_guest.specs.Error.{of_window};
ghost use Rattle.vm_memory_guest.specs.Transfer.{Alone, Once, cut_of, exact_of};
ghost use Rattle.vm_memory_guest.specs.lemmas.TypedFacts.{place-sized};
ghost use Rattle.vm_memory_guest.specs.declared.region.error.GuestMemoryError.TheVariants as errors;

use super::GuestMemoryRegion;
use super::error::{GuestMemoryError, GuestMemoryResult};
use crate::bytes::Bytes;
use crate::host::HostMemory;
use std::sync::atomic::Ordering;
use vm_memory_base::{
    AtomicAccess, Bitmap, ByteValued, MemoryRegionAddress, ReadVolatile, VolatileMemoryResult,
    WriteVolatile,
};

/// A region whose bytes are accessed by their offsets, as those of the window of all its bytes:
/// the crate's README.md, "Accesses". A region without host bytes returns `HostAddressNotAvailable`, even if no
/// byte is asked for.
///
/// ```text
/// region.write_slice(&mut host, &[1, 2, 3], MemoryRegionAddress(0x10))?;
/// ```
pub trait GuestMemoryRegionBytes: GuestMemoryRegion {}

impl<R: GuestMemoryRegionBytes> Bytes<MemoryRegionAddress> for R {
    type E = GuestMemoryError;

    ghost reach = { λ r tables addr n access. region_reach (R.region r) addr.0 n };

    ghost place = { λ r tables addr size access. region_place (R.region r) addr.0 size };

    ghost partial = { errors.PartialBuffer };

    ghost no_memory = { errors.Memory };

    ghost may_want = { λ r tables addr n access. ⊥ };

    ghost moved = { λ r tables addr n access. moved_in (slice_of (R.region r) 0 (R.region r).len)
        (λ w. cut_of w addr.0 n) };

    ghost moved_whole = { λ r tables addr n access. moved_in (slice_of (R.region r) 0 (R.region r).len)
        (λ w. exact_of w addr.0 n) };

    ghost filling = { Alone };

    ghost sending = { Once };

    ghost failure = { of_window };

    #[inline]
    fn write<B: Bitmap>(
        &self,
        host: &mut HostMemory<B>,
        buf: &[u8],
        addr: MemoryRegionAddress,
    ) -> GuestMemoryResult<usize> {
        let window = self.as_volatile_slice()?;
        told(window.write(host, buf, addr.0 as usize))
    }

    #[inline]
    fn read<B: Bitmap>(
        &self,
        host: &HostMemory<B>,
        buf: &mut [u8],
        addr: MemoryRegionAddress,
    ) -> GuestMemoryResult<usize> {
        let window = self.as_volatile_slice()?;
        told(window.read(host, buf, addr.0 as usize))
    }

    #[inline]
    fn write_slice<B: Bitmap>(
        &self,
        host: &mut HostMemory<B>,
        buf: &[u8],
        addr: MemoryRegionAddress,
    ) -> GuestMemoryResult<()> {
        let window = self.as_volatile_slice()?;
        told(window.write_slice(host, buf, addr.0 as usize))
    }

    #[inline]
    fn read_slice<B: Bitmap>(
        &self,
        host: &HostMemory<B>,
        buf: &mut [u8],
        addr: MemoryRegionAddress,
    ) -> GuestMemoryResult<()> {
        let window = self.as_volatile_slice()?;
        told(window.read_slice(host, buf, addr.0 as usize))
    }

    #[inline]
    fn write_obj<T: ByteValued, B: Bitmap>(
        &self,
        host: &mut HostMemory<B>,
        val: T,
        addr: MemoryRegionAddress,
    ) -> GuestMemoryResult<()> {
        let window = self.as_volatile_slice()?;
        told(window.write_obj(host, val, addr.0 as usize))
    }

    #[inline]
    fn read_obj<T: ByteValued, B: Bitmap>(
        &self,
        host: &HostMemory<B>,
        addr: MemoryRegionAddress,
    ) -> GuestMemoryResult<T> {
        let window = self.as_volatile_slice()?;
        told(window.read_obj(host, addr.0 as usize))
    }

    #[inline]
    fn store<T: AtomicAccess, B: Bitmap>(
        &self,
        host: &mut HostMemory<B>,
        val: T,
        addr: MemoryRegionAddress,
        order: Ordering,
    ) -> GuestMemoryResult<()> {
        let window = self.as_volatile_slice()?;
        told(window.store(host, val, addr.0 as usize, order))
    }

    #[inline]
    fn load<T: AtomicAccess, B: Bitmap>(
        &self,
        host: &HostMemory<B>,
        addr: MemoryRegionAddress,
        order: Ordering,
    ) -> GuestMemoryResult<T> {
        let window = self.as_volatile_slice()?;
        told(window.load(host, addr.0 as usize, order))
    }

    fn read_volatile_from<F: ReadVolatile, B: Bitmap>(
        &self,
        host: &mut HostMemory<B>,
        addr: MemoryRegionAddress,
        src: &mut F,
        count: usize,
    ) -> GuestMemoryResult<usize> {
        let window = self.as_volatile_slice()?;
        told(window.read_volatile_from(host, addr.0 as usize, src, count))
    }

    fn read_exact_volatile_from<F: ReadVolatile, B: Bitmap>(
        &self,
        host: &mut HostMemory<B>,
        addr: MemoryRegionAddress,
        src: &mut F,
        count: usize,
    ) -> GuestMemoryResult<()> {
        let window = self.as_volatile_slice()?;
        told(window.read_exact_volatile_from(host, addr.0 as usize, src, count))
    }

    fn write_volatile_to<F: WriteVolatile, B: Bitmap>(
        &self,
        host: &HostMemory<B>,
        addr: MemoryRegionAddress,
        dst: &mut F,
        count: usize,
    ) -> GuestMemoryResult<usize> {
        let window = self.as_volatile_slice()?;
        told(window.write_volatile_to(host, addr.0 as usize, dst, count))
    }

    fn write_all_volatile_to<F: WriteVolatile, B: Bitmap>(
        &self,
        host: &HostMemory<B>,
        addr: MemoryRegionAddress,
        dst: &mut F,
        count: usize,
    ) -> GuestMemoryResult<()> {
        let window = self.as_volatile_slice()?;
        told(window.write_all_volatile_to(host, addr.0 as usize, dst, count))
    }

    ghost place_has_all = { λ r tables addr n access.
        place-sized (slice_of (R.region r) 0 (R.region r).len) addr.0 n };
}

// An answer of a window, as guest memory tells it.
#[inline]
fn told<T>(answer: VolatileMemoryResult<T>) -> GuestMemoryResult<T>
    ensures { result ≡ as_guest answer }
{
    Ok(answer?)
}
