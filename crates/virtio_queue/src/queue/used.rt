//! What the device returns: the used ring.
ghost use Rattle.std.specs.Prelude.{◌≡◌};
ghost use Rattle.vm_memory_guest.specs.Host.{shape_of, Holds};
ghost use Rattle.virtio_queue.specs.Fields.{Answers};
ghost use Rattle.virtio_queue.specs.Looks.{Follows, index_of};
ghost use Rattle.virtio_queue.specs.Used.{AddsUsed, MayWantUsedIdx, MayWantValid, after_used, one_more, returning};
ghost use Rattle.virtio_queue.specs.Used.{used_idx, valid};

use super::Queue;
use crate::error::QueueError;
use crate::fields::lies_whole;
use crate::hints::Near;
use crate::looks::{Lent, Looks};
use crate::stores::{Stores, Whole};
use vm_memory_base::{Bitmap, Permissions};
use vm_memory_guest::{GuestMemory, HostMemory};

// One entry more is counted.
#[inline]
fn one_more(added: u32) -> u32
    ensures { result ≡ one_more added }
{
    added.saturating_add(1).min(0x1_0000)
}

impl Queue {
    /// Whether the table of descriptors and the rings lie whole in memory, and the device may read the first two and
    /// write the third. There is no memory past the greatest address.
    pub fn is_valid<M: GuestMemory, B: Bitmap>(
        &self,
        mem: &M,
        host: &HostMemory<B>,
    ) -> Result<bool, QueueError>
        requires { Holds (shape_of host.now) (M.names mem.now) }
        ensures { let m = M.memory mem.now in let q = self.now.state in
            Answers (MayWantValid m host.now q) (valid m host.now q) result }
    {
        if !self.state.ready {
            return Err(QueueError::QueueNotReady);
        }
        let state = &self.state;
        let n = u64::from(state.size);
        Ok(
            lies_whole(mem, host, state.desc_table, 16 * n, Permissions::Read)?
                && lies_whole(mem, host, state.avail_ring, 6 + 2 * n, Permissions::Read)?
                && lies_whole(mem, host, state.used_ring, 6 + 8 * n, Permissions::Write)?,
        )
    }

    /// The device's index as it lies in the used ring: how many entries were published, modulo 2^16. To read it the
    /// used ring has to be readable, too.
    pub fn used_idx<M: GuestMemory, B: Bitmap>(
        &self,
        mem: &M,
        host: &HostMemory<B>,
    ) -> Result<u16, QueueError>
        requires { Holds (shape_of host.now) (M.names mem.now) }
        ensures { let m = M.memory mem.now in let q = self.now.state in
            Answers (MayWantUsedIdx m host.now q) (used_idx m host.now q) result }
    {
        let near = Near::of_words(&self.hints.device);
        let mut lent = Lent {
            mem,
            host,
            near: &near,
        };
        let found = self.used_idx_from(&mut lent);
        self.hints.device.set(&near.words);
        found
    }

    /// As `used_idx`, from memory that a driver may write meanwhile.
    #[inline]
    pub fn used_idx_from<L: Looks>(&self, looks: &mut L) -> Result<u16, QueueError>
        ensures { let q = self.now.state in
            Follows L.looks (index_of q.ready q.used_ring) looks.old result looks.new }
    {
        if !self.state.ready {
            return Err(QueueError::QueueNotReady);
        }
        looks.word(self.state.used_ring, 2)
    }

    /// Returns the chain of this head, with the number of bytes written to it: the entry first, and then the index
    /// that publishes it. Both are looked up before one is written, so a call that is refused changes nothing.
    ///
    /// `InvalidDescriptorIndex` if the head is at or past the size, and `InvalidUsedEntry` if the entry does not lie
    /// whole in memory. A translation that is refused, and an index that cannot be stored, are `GuestMemory`.
    pub fn add_used<M: GuestMemory, B: Bitmap>(
        &mut self,
        mem: &M,
        host: &mut HostMemory<B>,
        head: u16,
        len: u32,
    ) -> Result<(), QueueError>
        requires { Holds (shape_of host.old) (M.names mem.now) }
        ensures added { AddsUsed B.marks (M.memory mem.now) self.old.state head len host.old result host.new }
        ensures moved { self.new ≡ after_used self.old result }
        ensures shape { shape_of host.new ≡ shape_of host.old }
    {
        let whole = Whole {
            mem,
            stores: self.hints.device.copied(),
            looks: self.hints.driver.copied(),
        };
        let done = self.add_used_in(&whole, host, head, len);
        self.hints.device.set(&whole.stores);
        done
    }

    /// As `add_used`, in memory that a driver may write meanwhile. Whatever it writes: this looks both places up,
    /// writes the entry, and stores the index last, each once.
    #[inline]
    pub fn add_used_in<H, S: Stores<H>>(
        &mut self,
        mem: &S,
        host: &mut H,
        head: u16,
        len: u32,
    ) -> Result<(), QueueError>
        requires { S.held mem.now host.old }
        ensures stores { Follows (S.steps mem.now) (returning self.old.state head len) host.old result host.new }
        ensures moved { self.new ≡ after_used self.old result }
        ensures held { S.held mem.now host.new }
    {
        if !self.state.ready {
            return Err(QueueError::QueueNotReady);
        }
        if head >= self.state.size {
            return Err(QueueError::InvalidDescriptorIndex);
        }
        let ring = self.state.used_ring;
        let slot = self.state.next_used % self.state.size;
        let offset = 4 + 8 * u64::from(slot);
        let entry = mem.room(host, ring, offset, 8)?;
        let index = mem.spot(host, Permissions::Write, ring, 2)?;
        mem.write_pair(host, ring, offset, entry, u32::from(head), len)?;
        let next = self.state.next_used.wrapping_add(1);
        self.barrier.acquire_release_barrier();
        mem.store(host, ring, 2, &index, next);
        self.state.next_used = next;
        self.added = self.added.map(one_more);
        Ok(())
    }
}
