//! Requests: what their headers ask for.
ghost use Rattle.std.specs.Prelude.{◌≡◌, length};
ghost use Rattle.virtio_blk.specs.Config.{must_stay};
ghost use Rattle.virtio_blk.specs.Request.{fits, request_of};

use crate::features::VIRTIO_BLK_F_FLUSH;
use vm_memory_base::ByteValued;

/// How many bytes the name of a device has.
pub const ID_LEN: usize = 20;

/// The kind of a request that reads from the disk.
pub const VIRTIO_BLK_T_IN: u32 = 0;

/// The kind of a request that writes to the disk.
pub const VIRTIO_BLK_T_OUT: u32 = 1;

/// The kind of a request that flushes what was written to stable storage.
pub const VIRTIO_BLK_T_FLUSH: u32 = 4;

/// The kind of a request for the name of the device.
pub const VIRTIO_BLK_T_GET_ID: u32 = 8;

/// The status of a request that was done.
pub const VIRTIO_BLK_S_OK: u8 = 0;

/// The status of a request that failed.
pub const VIRTIO_BLK_S_IOERR: u8 = 1;

/// The status of a request of a kind that the device does not know.
pub const VIRTIO_BLK_S_UNSUPP: u8 = 2;

/// What a request is checked against: the disk, and what the driver accepted.
#[derive(Clone, Copy, Debug, PartialEq, Eq)]
pub struct DeviceLimits {
    /// The number of sectors of the disk, each of 512 bytes.
    pub sectors: u64,
    /// Whether the disk is read-only.
    pub read_only: bool,
    /// The features that the driver accepted, each as its bit, and 0 if it accepted none. `VIRTIO_BLK_F_FLUSH` is the
    /// one that counts.
    pub acked: u64,
    /// The greatest number of data segments, if the driver accepted SEG_MAX. A chain has two more at most: those with
    /// the header and with the status.
    pub seg_max: Option<usize>,
    /// The greatest length of a segment, in bytes, if the driver accepted SIZE_MAX. Every segment of a chain counts,
    /// since one with a header or a status is shorter than any limit that is of use.
    pub size_max: Option<usize>,
}

/// What a device has to do for a request. Lengths are in bytes, and sectors have 512 of them. The sectors of a `Read`
/// or a `Write` are whole, and lie on the disk.
#[derive(Clone, Copy, Debug, PartialEq, Eq)]
pub enum Request {
    /// `len` bytes of the disk, from a sector on, go to the front of the chain's writable bytes.
    Read {
        sector: u64,
        len: usize,
    },
    /// The chain's readable bytes after the first 16, which are `len`, go to the disk, from a sector on. If `flush` is
    /// true, the driver did not accept FLUSH, and the device makes them stable before it writes the status.
    Write {
        sector: u64,
        len: usize,
        flush: bool,
    },
    /// What was written before is made stable.
    Flush,
    /// The first `len` bytes of the device's name of 20 bytes go to the front of the chain's writable bytes.
    GetId {
        len: usize,
    },
    /// Nothing is done, and this is the status: `VIRTIO_BLK_S_IOERR` for a request that is wrong,
    /// `VIRTIO_BLK_S_UNSUPP` for a kind that the device does not know.
    Refused {
        status: u8,
    },
    /// Nothing is done: the chain has no byte for the status.
    Unserved,
}

// Whether so many bytes from a sector on are whole sectors of a disk of so many.
#[inline]
fn fits(sectors: u64, sector: u64, len: usize) -> bool
    ensures { result ≡ fits sectors sector len }
{
    let count = (len / 512) as u64;
    len % 512 == 0 && sector <= sectors && count <= sectors - sector
}

// Whether a write of so many bytes has to be stable when its status is written, if these features were accepted.
#[inline]
fn must_stay(acked: u64, len: usize) -> bool
    ensures { result ≡ must_stay acked len }
{
    acked & (1 << VIRTIO_BLK_F_FLUSH) == 0 && len > 0
}

const IOERR: Request = Request::Refused {
    status: VIRTIO_BLK_S_IOERR,
};

const UNSUPP: Request = Request::Refused {
    status: VIRTIO_BLK_S_UNSUPP,
};

// What a request asks for, by its header, the number of readable bytes that follow it, and that of the writable ones
// before the status.
pub(crate) fn request_of(
    limits: DeviceLimits,
    header: &[u8; 16],
    given: usize,
    room: usize,
) -> Request
    ensures { result ≡ request_of limits header.now given room }
{
    let (Some(kind), Some(sector)) = (u32::from_slice(&header[..4]), u64::from_slice(&header[8..]))
    else {
        return IOERR;
    };
    match kind {
        VIRTIO_BLK_T_IN if fits(limits.sectors, sector, room) => Request::Read {
            sector,
            len: room,
        },
        VIRTIO_BLK_T_OUT if !limits.read_only && fits(limits.sectors, sector, given) => {
            Request::Write {
                sector,
                len: given,
                flush: must_stay(limits.acked, given),
            }
        }
        VIRTIO_BLK_T_IN | VIRTIO_BLK_T_OUT => IOERR,
        VIRTIO_BLK_T_FLUSH => Request::Flush,
        VIRTIO_BLK_T_GET_ID => Request::GetId {
            len: room.min(ID_LEN),
        },
        _ => UNSUPP,
    }
}
