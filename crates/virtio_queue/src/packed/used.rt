//! What the device returns.
ghost use Rattle.std.specs.Prelude.{◌≡◌, ◌+◌, ◌*◌, ◌<◌, ◌≤◌, ◌^◌, min, IsTrue};
ghost use Rattle.vm_memory_guest.specs.Host.{shape_of, Holds};
ghost use Rattle.virtio_queue.specs.Fields.{Answers};
ghost use Rattle.virtio_queue.specs.Looks.{Follows};
ghost use Rattle.virtio_queue.specs.Packed.{are_positions};
ghost use Rattle.virtio_queue.specs.PackedUsed.{AddsUsed, MayWantValid, after_used, is_out, returning, used_flags};
ghost use Rattle.virtio_queue.specs.PackedUsed.{valid};

use super::PackedQueue;
use super::descriptor::{VRING_PACKED_DESC_F_AVAIL, VRING_PACKED_DESC_F_USED};
use super::position::slots_out;
use super::state::{PackedBuffer, PackedState};
use crate::descriptor::VRING_DESC_F_WRITE;
use crate::error::QueueError;
use crate::fields::lies_whole;
use crate::stores::{Stores, Whole};
use vm_memory_base::{Bitmap, Permissions};
use vm_memory_guest::{GuestMemory, HostMemory};

// Whether a buffer can be returned: it took a slot, and no more than are out.
#[inline]
fn is_out(state: &PackedState, buffer: PackedBuffer) -> bool
    requires fits { state.now.size ≤ 2 ^ 15 }
    requires positions { let q = state.now in IsTrue (are_positions q.size q.next_avail q.next_used) }
    ensures { result ≡ is_out state.now buffer }
{
    let out = slots_out(state.size, state.next_avail, state.next_used);
    buffer.slots > 0 && buffer.slots <= out
}

// The flags of a used slot.
#[inline]
fn used_flags(wrap: bool, len: u32) -> u16
    ensures { result ≡ used_flags wrap len }
{
    let given = if wrap {
        VRING_PACKED_DESC_F_USED + VRING_PACKED_DESC_F_AVAIL
    } else {
        0
    };
    let written = if len > 0 { VRING_DESC_F_WRITE } else { 0 };
    given + written
}

// So many slots more are counted.
#[inline]
fn counted(added: u32, slots: u16) -> u32
    ensures { result ≡ min (added + slots) 65536 }
{
    added.saturating_add(u32::from(slots)).min(0x1_0000)
}

impl PackedQueue {
    /// Whether the ring and both areas lie whole in memory, and the device may read and write the first, read the
    /// driver's area and write its own. There is no memory past the greatest address.
    pub fn is_valid<M: GuestMemory, B: Bitmap>(
        &self,
        mem: &M,
        host: &HostMemory<B>,
    ) -> Result<bool, QueueError>
        requires { Holds (shape_of host.now) (M.names mem.now) }
        ensures { let m = M.memory mem.now in let q = self.now.state in
            Answers (MayWantValid m host.now q) (valid m host.now q) result }
    {
        if !self.state.ready {
            return Err(QueueError::QueueNotReady);
        }
        let state = &self.state;
        let len = 16 * u64::from(state.size);
        Ok(
            lies_whole(mem, host, state.desc_ring, len, Permissions::ReadWrite)?
                && lies_whole(mem, host, state.driver_area, 4, Permissions::Read)?
                && lies_whole(mem, host, state.device_area, 4, Permissions::Write)?,
        )
    }

    /// Returns a chain, with the number of bytes written to it: length and id first, and then the flags that give the
    /// slot to the driver. Both are looked up before one is written, so a call that is refused changes nothing. The
    /// place moves on over as many slots as the chain took.
    ///
    /// `InvalidDescriptorIndex` if the buffer took no slot, or more than are out, and `InvalidUsedEntry` if length and
    /// id do not lie whole in memory. A translation that is refused, and flags that cannot be stored, are
    /// `GuestMemory`.
    #[inline]
    pub fn add_used<M: GuestMemory, B: Bitmap>(
        &mut self,
        mem: &M,
        host: &mut HostMemory<B>,
        buffer: PackedBuffer,
        len: u32,
    ) -> Result<(), QueueError>
        requires { Holds (shape_of host.old) (M.names mem.now) }
        ensures added { AddsUsed B.marks (M.memory mem.now) self.old.state buffer len host.old result host.new }
        ensures moved { self.new ≡ after_used self.old buffer result }
        ensures shape { shape_of host.new ≡ shape_of host.old }
    {
        let whole = Whole {
            mem,
            stores: self.hints.descriptors.copied(),
            looks: self.hints.driver.copied(),
        };
        let done = self.add_used_in(&whole, host, buffer, len);
        self.hints.descriptors.set(&whole.stores);
        done
    }

    /// As `add_used`, in memory that a driver may write meanwhile. Whatever it writes: this looks both places up,
    /// writes length and id, and stores the flags last, each once.
    #[inline]
    pub fn add_used_in<H, S: Stores<H>>(
        &mut self,
        mem: &S,
        host: &mut H,
        buffer: PackedBuffer,
        len: u32,
    ) -> Result<(), QueueError>
        requires { S.held mem.now host.old }
        ensures stores { Follows (S.steps mem.now) (returning self.old.state buffer len) host.old result host.new }
        ensures moved { self.new ≡ after_used self.old buffer result }
        ensures held { S.held mem.now host.new }
    {
        if !self.state.ready {
            return Err(QueueError::QueueNotReady);
        }
        if !is_out(&self.state, buffer) {
            return Err(QueueError::InvalidDescriptorIndex);
        }
        let ring = self.state.desc_ring;
        let next = self.state.next_used;
        let offset = 16 * u64::from(next.slot) + 8;
        let last = 16 * u64::from(next.slot) + 14;
        let rest = mem.room(host, ring, offset, 6)?;
        let flags = mem.spot(host, Permissions::Write, ring, last)?;
        mem.write_rest(host, ring, offset, rest, len, buffer.id)?;
        self.barrier.acquire_release_barrier();
        mem.store(host, ring, last, &flags, used_flags(next.wrap, len));
        let size = self.state.size;
        self.state.next_used = next.moved(size, buffer.slots);
        self.added = self.added.map(|added| counted(added, buffer.slots));
        Ok(())
    }
}
