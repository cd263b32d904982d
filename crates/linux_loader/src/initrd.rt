//! The initrd of a kernel.

ghost use Rattle.std.specs.Prelude.{◌≡◌, ◌≤◌, true, IfOk};
ghost use Rattle.vm_memory_guest.specs.Host.{shape_of, Holds};
ghost use Rattle.linux_loader.specs.Initrd.{LoadsInitrd, greatest, highest_page, initrd_address};
ghost use Rattle.linux_loader.specs.Runtime.{lies_outside};

use crate::error::LoaderError;
use crate::image::KernelImage;
use crate::plan::{KernelLoaderResult, load_segment};
use crate::runtime::{field_since, first_free};
use crate::segment::Segment;
use vm_memory_base::{Bitmap, GuestAddress};
use vm_memory_guest::{GuestMemory, HostMemory};

// The place of a field after the first byte of a setup header.
const INITRD_ADDR_MAX: usize = 0x3b;

// The greatest address of an initrd before a header tells it.
const INITRD_ADDR_MAX_BEFORE: u64 = 0x37ff_ffff;

const PAGE: u64 = 4096;

// The greatest address that an initrd of a kernel may have, which is at most a limit.
fn most_of(kernel: &KernelLoaderResult, limit: u64) -> u64
    ensures { result ≡ greatest limit kernel.now.setup_header }
{
    let Some(header) = &kernel.setup_header else {
        return limit;
    };
    match field_since(header.as_slice(), 0x203, INITRD_ADDR_MAX) {
        Some(most) => limit.min(u64::from(most)),
        None => limit.min(INITRD_ADDR_MAX_BEFORE),
    }
}

/// Where an initrd of `size` bytes lies: at the highest page that keeps its last byte at or below the limit, above all
/// segments of the kernel and above its run time area. The limit is the greatest address that the initrd may have; for
/// a bzImage `initrd_addr_max` is a limit, too. `EmptyInitrd` if it has no byte, or `NoRoomForInitrd` if there is no
/// such page.
pub fn initrd_address(
    kernel: &KernelLoaderResult,
    size: u64,
    limit: GuestAddress,
) -> Result<GuestAddress, LoaderError>
    ensures is { result ≡ initrd_address kernel.now size limit.0 }
    ensures outside { IfOk result (λ a. lies_outside a.0 size kernel.now.runtime_area ≡ true) }
{
    let end = first_free(kernel.kernel_end, kernel.runtime_area);
    highest_page(end, most_of(kernel, limit.0), size)
}

// The highest page at which `size` bytes do not pass `most`, if it lies at or after an end.
fn highest_page(end: u64, most: u64, size: u64) -> Result<GuestAddress, LoaderError>
    ensures is { result ≡ highest_page end most size }
    ensures above { IfOk result (λ a. end ≤ a.0) }
{
    if size == 0 {
        return Err(LoaderError::EmptyInitrd);
    }
    if size - 1 > most {
        return Err(LoaderError::NoRoomForInitrd);
    }
    let last = most - (size - 1);
    let start = last - last % PAGE;
    if start < end {
        return Err(LoaderError::NoRoomForInitrd);
    }
    Ok(GuestAddress(start))
}

/// Loads an initrd at the address that `initrd_address` gives, and returns its segment. Its errors are those of
/// `initrd_address` and of the load of a segment.
///
/// Leaves open: `Memory` for an access as in `KernelPlan::load`. If no clause says which bytes an image has, as of a
/// `File`: any size, and any error at any time.
pub fn load_initrd<M: GuestMemory, F: KernelImage, B: Bitmap>(
    mem: &M,
    host: &mut HostMemory<B>,
    kernel: &KernelLoaderResult,
    initrd: &mut F,
    limit: GuestAddress,
) -> Result<Segment, LoaderError>
    requires { Holds (shape_of host.old) (M.names mem.now) }
    ensures loads { LoadsInitrd F.bytes F.source F.reads F.known_left B.marks (M.memory mem.now) kernel.now limit.0
        (initrd.old, host.old) result (initrd.new, host.new) }
    ensures shape { shape_of host.new ≡ shape_of host.old }
{
    let size = initrd.size()?;
    let addr = initrd_address(kernel, size, limit)?;
    let segment = Segment {
        file_offset: 0,
        addr,
        file_size: size,
        size,
    };
    load_segment(mem, host, initrd, &segment)?;
    Ok(segment)
}
