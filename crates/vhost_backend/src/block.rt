//! Requests of a block device, part by part: what each asks of the disk, and what they are answered.
ghost use Rattle.std.specs.Prelude.{◌≡◌, ◌+◌, ◌<◌, ◌≤◌, ℕ, true, false};
ghost use Rattle.virtio_blk.specs.Steps.{FitsOn};
ghost use Rattle.virtio_blk.specs.declared.request.Request.{Request};
ghost use Rattle.virtio_blk.specs.declared.request.Request.TheVariants as request;
ghost use Rattle.vhost_backend.specs.Block.{LiesOn, Short, block_parts, block_step, len_of, status_of, written_of};
ghost use Rattle.vhost_backend.specs.declared.block.BlockStep.TheVariants as step;

use crate::parts::{next_part, parts_of};
use virtio_blk::{Request, VIRTIO_BLK_S_IOERR, VIRTIO_BLK_S_OK};

/// What a part of a request asks of the disk. Lengths and places are in bytes.
#[derive(Clone, Copy, Debug)]
pub enum BlockStep {
    /// Bytes of the disk, from a place on, go to the chain's writable bytes, from an offset on.
    Read { place: u64, offset: u32, len: u32 },
    /// The chain's readable bytes after the header, from an offset on, go to the disk, from a place on.
    Write { place: u64, offset: u32, len: u32 },
    /// What was written before is made stable.
    Flush,
    /// So many bytes of the device's name go to the front of the chain's writable bytes.
    Name { len: u32 },
}

/// How many bytes of data a request has.
pub fn len_of(request: Request) -> usize
    ensures { result ≡ len_of request }
{
    match request {
        Request::Read { len, .. } | Request::Write { len, .. } | Request::GetId { len } => len,
        Request::Flush | Request::Refused { .. } | Request::Unserved => 0,
    }
}

/// How many parts a request has. One without parts is answered at once. A write that has to be stable ends with a part
/// that flushes.
pub fn block_parts(request: Request) -> u32
    requires { Short request }
    ensures { result ≡ block_parts request }
{
    match request {
        Request::Read { len, .. } => parts_of(len as u32),
        Request::Write { len, flush, .. } => parts_of(len as u32) + u32::from(flush),
        Request::Flush | Request::GetId { .. } => 1,
        Request::Refused { .. } | Request::Unserved => 0,
    }
}

/// The part of a request that is served when so many are left, itself among them.
#[inline(always)]
pub fn block_step(request: Request, left: u32) -> BlockStep
    requires short { Short request }
    requires some { 0 < left }
    requires there { left ≤ block_parts request }
    ensures { result ≡ block_step request left }
{
    match request {
        Request::Read { sector, len } => {
            let part = next_part(len as u32, left);
            BlockStep::Read {
                place: 512 * sector + u64::from(part.offset),
                offset: part.offset,
                len: part.len,
            }
        }
        Request::Write { flush: true, .. } if left == 1 => BlockStep::Flush,
        Request::Write { sector, len, flush } => {
            let part = next_part(len as u32, left - u32::from(flush));
            BlockStep::Write {
                place: 512 * sector + u64::from(part.offset),
                offset: part.offset,
                len: part.len,
            }
        }
        Request::GetId { len } => BlockStep::Name { len: len as u32 },
        Request::Flush | Request::Refused { .. } | Request::Unserved => BlockStep::Flush,
    }
}

/// The status of a request whose parts were done, or of which one failed.
pub fn status_of(request: Request, failed: bool) -> u8
    ensures { result ≡ status_of request failed }
{
    match request {
        Request::Refused { status } => status,
        Request::Unserved => VIRTIO_BLK_S_IOERR,
        _ if failed => VIRTIO_BLK_S_IOERR,
        _ => VIRTIO_BLK_S_OK,
    }
}

/// How many bytes were written to a chain by parts that moved so many.
pub fn written_of(request: Request, moved: u64) -> u64
    ensures { result ≡ written_of request moved }
{
    match request {
        Request::Read { .. } | Request::GetId { .. } => moved,
        _ => 0,
    }
}

/// What a part of a request asks lies on the disk that the request was held against. A write that has to be stable asks
/// for all its data first, as it would otherwise, and then for a flush. This function is a theorem, and does nothing.
pub fn parts_lie_on_the_disk()
    ensures inside { (sectors : ℕ) (r : Request) (left : ℕ) → FitsOn sectors r → 0 < left → left ≤ block_parts r
        → LiesOn sectors (block_step r left) }
    ensures last { (sector len : ℕ) → block_step (request.Write sector len true) 1 ≡ step.Flush }
    ensures before { (sector len left : ℕ) → 0 < left
        → block_step (request.Write sector len true) (left + 1) ≡ block_step (request.Write sector len false) left }
{}
