//! A block device that serves requests from a queue.
ghost use Rattle.std.specs.Prelude.{◌≡◌};
ghost use Rattle.vm_memory_guest.specs.Host.{shape_of, Holds};

use virtio_blk::{BlockDevice, Disk};
use virtio_queue::{AnyQueue, QueueError};
use vm_memory::{Bitmap, GuestMemory, HostMemory};

/// Serves what a driver has published, if the driver notified the device. `interrupt` is set if the driver is to be
/// interrupted. If it returns true, there may be more: the VMM serves its other devices, and then calls this
/// once more without a notification. After an error the device has to be reset.
pub fn kicked<D: Disk, M: GuestMemory, B: Bitmap>(
    device: &mut BlockDevice<D>,
    queue: &mut AnyQueue,
    memory: &M,
    host: &mut HostMemory<B>,
    interrupt: &mut bool,
) -> Result<bool, QueueError>
    requires { Holds (shape_of host.old) (M.names memory.now) }
    ensures { shape_of host.new ≡ shape_of host.old }
{
    let served = device.process(queue, memory, host, 64);
    *interrupt = *interrupt || served.interrupt;
    match served.failed {
        Some(error) => Err(error),
        None => Ok(served.more),
    }
}
