//! Chains of heads that were popped before the device was started again.
ghost use Rattle.std.specs.Prelude.{◌≡◌};
ghost use Rattle.vm_memory_guest.specs.Host.{shape_of, Holds};
ghost use Rattle.virtio_queue.specs.Again.{chain_of_head};
ghost use Rattle.virtio_queue.specs.Fields.{Answers};
ghost use Rattle.virtio_queue.specs.Looks.{Follows, MayWantAny, answer};

use super::Queue;
use crate::chain::chain_at;
use crate::error::QueueError;
use crate::looks::{Lent, Looks};
use std::alloc::Global;
use vm_memory_base::Bitmap;
use vm_memory_device::{Chain, Segment};
use vm_memory_guest::{GuestMemory, HostMemory};

impl Queue {
    /// The chain of a head that was popped before the device was started again, and not returned. Its place stays. It
    /// takes the list, and leaves an empty one.
    pub fn chain_of_head<M: GuestMemory, B: Bitmap>(
        &self,
        alloc: Global,
        list: &mut Vec<Segment>,
        mem: &M,
        host: &HostMemory<B>,
        head: u16,
    ) -> Result<Chain, QueueError>
        requires { Holds (shape_of host.now) (M.names mem.now) }
        ensures { let m = M.memory mem.now in let t = chain_of_head self.now.state head in
            Answers (MayWantAny m host.now t) (answer m host.now t) result }
    {
        let near = self.hints.of_split_pop(self.state.desc_table);
        let mut lent = Lent {
            mem,
            host,
            near: &near,
        };
        self.chain_of_head_from(alloc, list, &mut lent, head)
    }

    /// As `chain_of_head`, from memory that a driver may write meanwhile.
    pub fn chain_of_head_from<L: Looks>(
        &self,
        alloc: Global,
        list: &mut Vec<Segment>,
        looks: &mut L,
        head: u16,
    ) -> Result<Chain, QueueError>
        ensures { Follows L.looks (chain_of_head self.now.state head) looks.old result looks.new }
    {
        if !self.state.ready {
            return Err(QueueError::QueueNotReady);
        }
        chain_at(alloc, list, looks, &self.state, head)
    }
}
