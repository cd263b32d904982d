//! Where the kernel of a bzImage runs.
ghost use Rattle.std.specs.Prelude.{◌≡◌, ◌+◌, ◌≤◌, ◌<◌, ◌^◌, length};
ghost use Rattle.vm_memory_guest.specs.Host.{shape_of, Holds};
ghost use Rattle.linux_loader.specs.Runtime.{FindsArea, area_at, check_outside, field_since, first_free, lies_outside};
ghost use Rattle.linux_loader.specs.Runtime.{runtime_area, runtime_start};

use crate::error::LoaderError;
use crate::numbers::{u16_at, u32_at, u64_at};
use vm_memory_base::{Bitmap, GuestAddress, GuestUsize, Permissions};
use vm_memory_guest::{GuestMemory, HostMemory};

// The places of fields after the first byte of a setup header.
const VERSION: usize = 0x15;

const KERNEL_ALIGNMENT: usize = 0x3f;

const RELOCATABLE_KERNEL: usize = 0x43;

const PREF_ADDRESS: usize = 0x67;

const INIT_SIZE: usize = 0x6f;

// The version of the protocol that has `init_size`.
const HAS_INIT_SIZE: u16 = 0x20a;

/// Where a kernel runs: the memory that it uses before it can read its memory map. An initrd, a command line and boot
/// parameters have to lie outside.
#[derive(Clone, Copy, Debug, PartialEq, Eq)]
pub struct RuntimeArea {
    /// The address of its first byte.
    pub start: GuestAddress,
    /// The address after its last byte.
    pub end: GuestUsize,
}

// The number of 32 bits at a place of a setup header, if it is of this version or above, and has it.
pub(crate) fn field_since(header: &[u8], version: u16, at: usize) -> Option<u32>
    requires low { 0x15 < at }
    requires high { at < 2 ^ 32 }
    ensures { result ≡ field_since header.now version at }
{
    if header.len() < at + 4 || u16_at(header, VERSION) < version {
        return None;
    }
    Some(u32_at(header, at))
}

// Where a kernel that is loaded at an address runs.
fn runtime_start(header: &[u8], load: u64) -> Result<u64, LoaderError>
    requires { 0x73 ≤ length header.now }
    ensures { result ≡ runtime_start header.now load }
{
    let preferred = u64_at(header, PREF_ADDRESS);
    if header[RELOCATABLE_KERNEL] == 0 {
        return Ok(preferred);
    }
    let alignment = u32_at(header, KERNEL_ALIGNMENT);
    if !alignment.is_power_of_two() {
        return Err(LoaderError::InvalidKernelAlignment);
    }
    match load
        .max(preferred)
        .checked_next_multiple_of(u64::from(alignment))
    {
        Some(start) => Ok(start),
        None => Err(LoaderError::RuntimeAreaOverflow),
    }
}

// The area of `size` bytes from an address on.
fn area_at(start: u64, size: u32) -> Result<Option<RuntimeArea>, LoaderError>
    ensures { result ≡ area_at start size }
{
    match start.checked_add(u64::from(size)) {
        Some(end) => Ok(Some(RuntimeArea {
            start: GuestAddress(start),
            end,
        })),
        None => Err(LoaderError::RuntimeAreaOverflow),
    }
}

// The run time area of a kernel with this setup header that is loaded at an address.
pub(crate) fn runtime_area(header: &[u8], load: u64) -> Result<Option<RuntimeArea>, LoaderError>
    ensures { result ≡ runtime_area header.now load }
{
    let Some(size) = field_since(header, HAS_INIT_SIZE, INIT_SIZE) else {
        return Ok(None);
    };
    let start = runtime_start(header, load)?;
    area_at(start, size)
}

// Whether `size` bytes at an address share none with an area.
fn lies_outside(addr: u64, size: u64, area: Option<RuntimeArea>) -> bool
    ensures { result ≡ lies_outside addr size area }
{
    match area {
        Some(area) => addr.max(area.start.0) >= addr.saturating_add(size).min(area.end),
        None => true,
    }
}

// Refuses `size` bytes at an address that share one with an area.
pub(crate) fn check_outside(
    addr: u64,
    size: u64,
    area: Option<RuntimeArea>,
) -> Result<(), LoaderError>
    ensures { result ≡ check_outside addr size area }
{
    if !lies_outside(addr, size, area) {
        return Err(LoaderError::RuntimeAreaOverlap);
    }
    Ok(())
}

// The first address above all that a kernel uses, of one whose highest segment ends here.
pub(crate) fn first_free(kernel_end: u64, area: Option<RuntimeArea>) -> u64
    ensures { result ≡ first_free kernel_end area }
{
    match area {
        Some(area) => kernel_end.max(area.end),
        None => kernel_end,
    }
}

// Refuses an area that has an address without memory.
pub(crate) fn check_in_memory<M: GuestMemory, B: Bitmap>(
    mem: &M,
    host: &HostMemory<B>,
    area: Option<RuntimeArea>,
) -> Result<(), LoaderError>
    requires { Holds (shape_of host.now) (M.names mem.now) }
    ensures { FindsArea (M.memory mem.now) host.now.tables area result }
{
    let Some(area) = area else {
        return Ok(());
    };
    let size = area.end.saturating_sub(area.start.0) as usize;
    match mem.check_range(host, area.start, size, Permissions::ReadWrite) {
        Ok(true) => Ok(()),
        Ok(false) => Err(LoaderError::RuntimeAreaNotInMemory),
        Err(error) => Err(LoaderError::of_access(error)),
    }
}
