//! A disk that is not a `Disk` of the library: bytes in memory.
ghost use Rattle.std.specs.Prelude.{◌≡◌, ◌/◌, length};
ghost use Rattle.virtio_blk.specs.Steps.{FitsOn};
ghost use Rattle.vm_memory_guest.specs.Host.{shape_of, Holds};

use crate::bench::NAME;
use virtio_blk::{DeviceLimits, Request, VIRTIO_BLK_S_IOERR, VIRTIO_BLK_S_OK, begin, finish};
use vm_memory_base::Bitmap;
use vm_memory_device::Chain;
use vm_memory_guest::{GuestMemory, GuestMemoryResult, HostMemory};

/// Does what a request asks for, and returns its status and how many bytes it moved to the front of the chain's
/// writable ones.
pub fn perform<M: GuestMemory, B: Bitmap>(
    disk: &mut [u8],
    request: Request,
    memory: &M,
    host: &mut HostMemory<B>,
    chain: &Chain,
) -> (u8, usize)
    requires held { Holds (shape_of host.old) (M.names memory.now) }
    requires fits { FitsOn (length disk.old / 512) request }
    ensures { shape_of host.new ≡ shape_of host.old }
{
    let (wanted, done, moved) = match request {
        Request::Read { sector, len } => {
            let start = 512 * sector as usize;
            let data = &disk[start..start + len];
            let moved = chain.writer().write(memory, host, data).unwrap_or(0);
            (len, moved, moved)
        }
        Request::Write { sector, len, .. } => {
            let start = 512 * sector as usize;
            let data = &mut disk[start..start + len];
            let mut reader = chain.reader();
            reader.skip(16);
            (len, reader.read(memory, host, data).unwrap_or(0), 0)
        }
        Request::GetId { len } => {
            let data = &NAME[..len];
            let moved = chain.writer().write(memory, host, data).unwrap_or(0);
            (len, moved, moved)
        }
        // These bytes are where they stay.
        Request::Flush => (0, 0, 0),
        Request::Refused { status } => return (status, 0),
        Request::Unserved => return (VIRTIO_BLK_S_IOERR, 0),
    };
    if done < wanted {
        return (VIRTIO_BLK_S_IOERR, moved);
    }
    (VIRTIO_BLK_S_OK, moved)
}

/// Serves a request on a disk of bytes, of a driver that accepted these features, and returns the length for
/// `add_used`. After an error the caller makes the call again when the mapping came.
pub fn serve<M: GuestMemory, B: Bitmap>(
    disk: &mut [u8],
    acked: u64,
    memory: &M,
    host: &mut HostMemory<B>,
    chain: &Chain,
) -> GuestMemoryResult<u32>
    requires { Holds (shape_of host.old) (M.names memory.now) }
    ensures { shape_of host.new ≡ shape_of host.old }
{
    let limits = DeviceLimits {
        sectors: (disk.len() / 512) as u64,
        read_only: false,
        acked,
        seg_max: None,
        size_max: None,
    };
    let request = begin(limits, memory, host, chain)?;
    let (status, moved) = perform(disk, request, memory, host, chain);
    finish(memory, host, chain, status, moved)
}
