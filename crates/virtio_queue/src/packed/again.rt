//! Chains of descriptors that were popped before the device was started again, and whether a slot is available.
ghost use Rattle.std.specs.Prelude.{◌≡◌, ◌++◌, map, MatchResult, Ok};
ghost use Rattle.vm_memory_guest.specs.Host.{shape_of, Holds};
ghost use Rattle.virtio_queue.specs.Again.{chain_of_copies, segments_of};
ghost use Rattle.virtio_queue.specs.Fields.{Answers};
ghost use Rattle.virtio_queue.specs.Looks.{Follows, MayWantAny, answer};
ghost use Rattle.virtio_queue.specs.PackedRing.{segment_of};
ghost use Rattle.virtio_queue.specs.Rings.{and_then};
ghost use Rattle.virtio_queue.specs.declared.error.QueueError.TheVariants.{Memory};

use super::PackedQueue;
use super::chain::add_last;
use super::descriptor::PackedDescriptor;
use crate::error::QueueError;
use crate::looks::{Lent, Looks};
use std::alloc::Global;
use std::mem;
use vm_memory_base::Bitmap;
use vm_memory_device::{Chain, Segment};
use vm_memory_guest::{GuestMemory, HostMemory};

// Appends the segments of descriptors.
fn add_all(descriptors: &[PackedDescriptor], segments: &mut Vec<Segment>) -> Result<(), QueueError>
    ensures { MatchResult result
        (λ _. segments.new.items ≡ segments.old.items ++ map segment_of descriptors.now) (λ e. e ≡ Memory) }
{
    for descriptor in descriptors {
        if segments.push(descriptor.segment()).is_err() {
            return Err(QueueError::Memory);
        }
    }
    Ok(())
}

// Puts the segments of descriptors in place of those of a list: those of all but the last one, and then what that leads
// to.
fn put_all<L: Looks>(
    looks: &mut L,
    descriptors: &[PackedDescriptor],
    segments: &mut Vec<Segment>,
) -> Result<(), QueueError>
    ensures { Follows L.looks (segments_of descriptors.now) looks.old
        (and_then result (λ _. Ok segments.new.items)) looks.new }
{
    let count = descriptors.len();
    if count == 0 {
        return Err(QueueError::DescriptorLoop);
    }
    segments.clear();
    add_all(&descriptors[..count - 1], segments)?;
    add_last(looks, &descriptors[count - 1], segments)
}

impl PackedQueue {
    /// The chain of these descriptors, as they lay in the ring when it was popped, before the device was started again.
    /// The queue's place stays. It takes the list, and leaves an empty one.
    pub fn chain_of_copies<M: GuestMemory, B: Bitmap>(
        &self,
        alloc: Global,
        list: &mut Vec<Segment>,
        mem: &M,
        host: &HostMemory<B>,
        descriptors: &[PackedDescriptor],
    ) -> Result<Chain, QueueError>
        requires { Holds (shape_of host.now) (M.names mem.now) }
        ensures { let m = M.memory mem.now in let t = chain_of_copies self.now.state descriptors.now in
            Answers (MayWantAny m host.now t) (answer m host.now t) result }
    {
        let near = self.hints.of_packed_pop(self.state.desc_ring);
        let mut lent = Lent {
            mem,
            host,
            near: &near,
        };
        self.chain_of_copies_from(alloc, list, &mut lent, descriptors)
    }

    /// As `chain_of_copies`, from memory that a driver may write meanwhile.
    pub fn chain_of_copies_from<L: Looks>(
        &self,
        alloc: Global,
        list: &mut Vec<Segment>,
        looks: &mut L,
        descriptors: &[PackedDescriptor],
    ) -> Result<Chain, QueueError>
        ensures { Follows L.looks (chain_of_copies self.now.state descriptors.now) looks.old result looks.new }
    {
        if !self.state.ready {
            return Err(QueueError::QueueNotReady);
        }
        put_all(looks, descriptors, list)?;
        match Chain::new(mem::replace(list, Vec::new(alloc))) {
            Ok(chain) => Ok(chain),
            Err(fault) => Err(QueueError::InvalidChain(fault)),
        }
    }
}
