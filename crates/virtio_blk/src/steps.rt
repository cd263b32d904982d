//! A request in two steps, for a device whose disk is its own: the crate's README.md, "A disk of your own".
ghost use Rattle.std.specs.Prelude.{◌≡◌, nat_lt, IfOk};
ghost use Rattle.std.specs.List.{list_any};
ghost use Rattle.vm_memory_device.specs.Chain.{readable, text, writable};
ghost use Rattle.vm_memory_guest.specs.Host.{shape_of, Holds};
ghost use Rattle.virtio_blk.specs.Looks.{BeginsBy, FinishesBy, failed};
ghost use Rattle.virtio_blk.specs.Steps.{Begins, Finishes, FitsOn, breaks_limits, has_longer, is_over};

use crate::looks::{Fetches, Lent, LentMut, Puts, fetch_all};
use crate::request::{DeviceLimits, Request, VIRTIO_BLK_S_IOERR, request_of};
use vm_memory_base::Bitmap;
use vm_memory_device::{Chain, Segment};
use vm_memory_guest::{GuestMemory, GuestMemoryError, GuestMemoryResult, HostMemory};

// What a step returns whose access failed: the error, if the step may succeed later, and else what it returns without
// the access.
fn failed<T: Drop>(error: GuestMemoryError, without: T) -> GuestMemoryResult<T>
    ensures { result ≡ failed error without }
{
    match error {
        GuestMemoryError::IommuError(error) => Err(GuestMemoryError::IommuError(error)),
        GuestMemoryError::Memory => Err(GuestMemoryError::Memory),
        _ => Ok(without),
    }
}

// Whether a number is above a limit, if there is one.
#[inline]
fn is_over(limit: Option<usize>, count: usize) -> bool
    ensures { result ≡ is_over limit count }
{
    match limit {
        Some(most) => count > most,
        None => false,
    }
}

// Whether a segment has more bytes than a limit.
#[inline]
fn is_longer(most: usize, segment: &Segment) -> bool
    ensures { result ≡ nat_lt most segment.now.len }
{
    segment.len as usize > most
}

// Whether one of these segments has more bytes than a limit.
#[inline]
fn any_longer(most: usize, segments: &[Segment]) -> bool
    ensures { result ≡ list_any (λ s. nat_lt most s.len) segments.now }
{
    segments.iter().any(|segment| is_longer(most, segment))
}

// The same, if there is a limit.
#[inline]
fn has_longer(limit: Option<usize>, segments: &[Segment]) -> bool
    ensures { result ≡ has_longer limit segments.now }
{
    match limit {
        Some(most) => any_longer(most, segments),
        None => false,
    }
}

// Whether the segments of a chain break a limit that the driver keeps.
#[inline]
fn breaks_limits(limits: DeviceLimits, segments: &[Segment]) -> bool
    ensures { result ≡ breaks_limits limits segments.now }
{
    is_over(limits.seg_max, segments.len().saturating_sub(2))
        || has_longer(limits.size_max, segments)
}

/// Reads the header of a request and says what the device has to do, before it does any of it. Nothing changes.
///
/// A request that is wrong is not an error, but `Refused`. One that breaks one of the limits is refused before its
/// header is read, with `VIRTIO_BLK_S_IOERR`. An error means that nothing is decided:
/// [`GuestMemoryError::IommuError`] if the IOMMU refuses an access to the header, and [`GuestMemoryError::Memory`] if
/// its translation fails to allocate. A device whose mappings come later makes the call again then.
///
/// Leaves open: `Memory` each time behind an IOMMU that is on, if there is a header to read. Then nothing changed.
#[inline(always)]
pub fn begin<M: GuestMemory, B: Bitmap>(
    limits: DeviceLimits,
    mem: &M,
    host: &HostMemory<B>,
    chain: &Chain,
) -> GuestMemoryResult<Request>
    requires { Holds (shape_of host.now) (M.names mem.now) }
    ensures begun { Begins (M.memory mem.now) host.now limits (breaks_limits limits chain.now)
        (text (readable chain.now)) (text (writable chain.now)) result }
    ensures fits { IfOk result (λ request. FitsOn limits.sectors request) }
{
    let mut lent = Lent { mem, host };
    begin_from(limits, &mut lent, chain)
}

/// As `begin`, from memory that a driver may write meanwhile.
#[inline(always)]
pub fn begin_from<F: Fetches>(
    limits: DeviceLimits,
    guest: &mut F,
    chain: &Chain,
) -> GuestMemoryResult<Request>
    ensures begun { BeginsBy F.fetches limits (breaks_limits limits chain.now) (text (readable chain.now))
        (text (writable chain.now)) guest.old result guest.new }
    ensures fits { IfOk result (λ request. FitsOn limits.sectors request) }
{
    let room = chain.writer().left();
    let len = chain.reader().left();
    if room == 0 {
        return Ok(Request::Unserved);
    }
    let refused = Request::Refused {
        status: VIRTIO_BLK_S_IOERR,
    };
    if breaks_limits(limits, chain.segments()) || len < 16 {
        return Ok(refused);
    }
    let mut reader = chain.reader();
    let mut header = [0; 16];
    match fetch_all(guest, &mut reader, &mut header) {
        Ok(()) => Ok(request_of(limits, &header, len - 16, room - 1)),
        Err(error) => failed(error, refused),
    }
}

/// Writes the status of a request to the last writable byte of its chain, and returns the length that `add_used` takes:
/// the number of bytes that were written without a gap, from the first writable one on. The caller has written `moved`
/// bytes there. A larger number than there is room for before the status counts as that room. The status counts if it
/// is the next byte.
///
/// If the address of the status has no memory, nothing is written, and only the bytes before it count. If the chain has
/// no writable byte, the length is 0.
///
/// An error means that nothing changed: [`GuestMemoryError::IommuError`] if the IOMMU refuses the access, and
/// [`GuestMemoryError::Memory`] if its translation fails to allocate. A device whose mappings come later makes the
/// call again then.
///
/// Leaves open: `Memory` each time behind an IOMMU that is on, if there is a status to write. Then nothing changed.
#[inline(always)]
pub fn finish<M: GuestMemory, B: Bitmap>(
    mem: &M,
    host: &mut HostMemory<B>,
    chain: &Chain,
    status: u8,
    moved: usize,
) -> GuestMemoryResult<u32>
    requires { Holds (shape_of host.old) (M.names mem.now) }
    ensures finished { Finishes B.marks (M.memory mem.now) (text (writable chain.now)) status moved host.old result
        host.new }
    ensures shape { shape_of host.new ≡ shape_of host.old }
{
    let mut lent = LentMut { mem, host };
    finish_from(&mut lent, chain, status, moved)
}

/// As `finish`, to memory that a driver may write meanwhile.
#[inline(always)]
pub fn finish_from<P: Puts>(
    guest: &mut P,
    chain: &Chain,
    status: u8,
    moved: usize,
) -> GuestMemoryResult<u32>
    ensures { FinishesBy P.puts (text (writable chain.now)) status moved guest.old result guest.new }
{
    let mut writer = chain.writer();
    let len = writer.left();
    if len == 0 {
        return Ok(0);
    }
    writer.skip(len - 1);
    let moved = moved.min(len - 1);
    match guest.put(&mut writer, &[status]) {
        Ok(_) if moved + 1 == len => Ok(len as u32),
        Ok(_) => Ok(moved as u32),
        Err(error) => failed(error, moved as u32),
    }
}
