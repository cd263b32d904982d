//! The flags of a slot of a packed ring.
ghost use Rattle.vm_memory_guest.specs.Host.{shape_of, Holds};
ghost use Rattle.virtio_queue.specs.Fields.{Answers};
ghost use Rattle.virtio_queue.specs.Looks.{Follows, MayWantAny, answer};
ghost use Rattle.virtio_queue.specs.PackedCopies.{flags_in};

use super::PackedQueue;
use crate::error::QueueError;
use crate::looks::{Lent, Looks};
use vm_memory_base::Bitmap;
use vm_memory_guest::{GuestMemory, HostMemory};

impl PackedQueue {
    /// The flags that lie in a slot of the ring.
    pub fn flags_at<M: GuestMemory, B: Bitmap>(
        &self,
        mem: &M,
        host: &HostMemory<B>,
        slot: u16,
    ) -> Result<u16, QueueError>
        requires { Holds (shape_of host.now) (M.names mem.now) }
        ensures { let m = M.memory mem.now in let t = flags_in self.now.state slot in
            Answers (MayWantAny m host.now t) (answer m host.now t) result }
    {
        let near = self.hints.of_packed_pop(self.state.desc_ring);
        let mut lent = Lent {
            mem,
            host,
            near: &near,
        };
        self.flags_at_from(&mut lent, slot)
    }

    /// As `flags_at`, from memory that a driver may write meanwhile.
    pub fn flags_at_from<L: Looks>(&self, looks: &mut L, slot: u16) -> Result<u16, QueueError>
        ensures { Follows L.looks (flags_in self.now.state slot) looks.old result looks.new }
    {
        if !self.state.ready {
            return Err(QueueError::QueueNotReady);
        }
        match looks.word(self.state.desc_ring, 16 * u64::from(slot) + 14) {
            Ok(flags) => {
                self.barrier.acquire_release_barrier();
                Ok(flags)
            }
            Err(error) => Err(error),
        }
    }
}
