//! What holds of the queue of a block device's ring, whatever its guest writes: each function here is a theorem, and
//! does nothing.
ghost use Rattle.std.specs.Prelude.{◌≡◌, ◌⊎◌, ◌+◌, ◌/◌, ◌<◌, ◌≤◌, ℕ, List, [], Option, Some, IfSome, length};
ghost use Rattle.std.specs.Prelude.{true, false, slice_get};
ghost use Rattle.vm_memory_base.specs.Table.{is_allowed};
ghost use Rattle.vm_memory_base.specs.declared.iotlb.Permissions.TheVariants.{Write};
ghost use Rattle.vm_memory_guest.specs.Memory.{Memory, says_of};
ghost use Rattle.vm_memory_guest.specs.declared.host.TlbId.{TlbId};
ghost use Rattle.vm_memory_device.specs.Chain.{Entry, text, writable};
ghost use Rattle.vm_memory_device.specs.declared.chain.Segment.{Segment};
ghost use Rattle.virtio_queue.specs.Any.{enabling, returning};
ghost use Rattle.virtio_queue.specs.State.{Virtqueue};
ghost use Rattle.virtio_queue.specs.declared.any.AnyQueue.{AnyQueue};
ghost use Rattle.virtio_queue.specs.declared.any.AnyQueue.TheVariants.{Split};
ghost use Rattle.virtio_queue.specs.declared.packed.state.PackedBuffer.{PackedBuffer};
ghost use Rattle.virtio_blk.specs.declared.request.DeviceLimits.{DeviceLimits};
ghost use Rattle.vhost_iotlb.specs.Leads.{LeadsTo};
ghost use Rattle.vhost_backend.specs.Behind.{IsWaiting};
ghost use Rattle.vhost_backend.specs.BlockQueue.{Agrees, BlockQueueState, FindsAll, FoundNone};
ghost use Rattle.vhost_backend.specs.Fetch.{used_of};
ghost use Rattle.vhost_backend.specs.Flight.{HappensIn};
ghost use Rattle.vhost_backend.specs.Marks.{Covered, CoveredFrom, MarksRing, Stores, asking_marks, chain_marks};
ghost use Rattle.vhost_backend.specs.Marks.{return_marks};
ghost use Rattle.vhost_backend.specs.PageList.{IsToMark};
ghost use Rattle.vhost_backend.specs.Pieces.{piece_from, side};
ghost use Rattle.vhost_backend.specs.Ring.{RingState, may_run};
ghost use Rattle.vhost_backend.specs.RingMemory.{Logs};
ghost use Rattle.vhost_backend.specs.Story.{RingStep, On, stepped, taken};
ghost use Rattle.vhost_backend.specs.Sight.{Sight};
ghost use Rattle.vhost_backend.specs.declared.pieces.Piece.{Piece};
ghost use Rattle.vhost_backend.specs.declared.ring.RingEvent.{RingEvent};
ghost use Rattle.vhost_backend.specs.declared.ring.RingEvent.TheVariants.{Emptied};
ghost use Rattle.vhost_backend.specs.declared.ring_memory.Logged.{Logged};

use crate::ring_memory::RingMemory;
use vm_memory_base::Bitmap;

/// Each byte that a request may change lies in a mark that is made after its status was written: those of its data, as
/// pieces have them, and its status. Each byte that a return or a wait stores to a ring lies in a mark that is made
/// after it. So [`finish`](crate::BlockQueue::finish), [`give_back`](crate::BlockQueue::give_back) and
/// [`next_event`](crate::BlockQueue::next_event) lose no page.
pub fn no_page_is_lost()
    ensures requests { (segments : List Segment) (k : ℕ) (e : Entry) → slice_get (text (writable segments)) k ≡ Some e
        → Covered (chain_marks segments) e.address 1 }
    ensures pieces { (segments : List Segment) (offset n k : ℕ)
        → IfSome (piece_from (side true segments) offset n) (λ p. k < p.len
        → Covered (chain_marks segments) (p.base + p.offset + k) 1) }
    ensures returns { (q : AnyQueue) (log : Option ℕ) (buffer : PackedBuffer) (len : ℕ)
        → Stores (Covered (return_marks q log)) (returning q buffer len) }
    ensures waits { (q : AnyQueue) (log : Option ℕ) → Stores (Covered (asking_marks q log)) (enabling q) }
{}

/// If writes to a used ring are logged at an address, each byte that is stored so far after the start of the used ring
/// lies as far after that address in a mark that is made after it. Returns of a split ring store nowhere else, nor do
/// waits. Those of a packed ring, whose used ring is its device area, store nothing there.
pub fn log_addresses_are_marked()
    ensures returns { (q : Virtqueue) (log : ℕ) (buffer : PackedBuffer) (len : ℕ)
        → Stores (CoveredFrom (used_of (Split q)).iova log (return_marks (Split q) (Some log)))
        (returning (Split q) buffer len) }
    ensures waits { (q : AnyQueue) (log : ℕ)
        → Stores (CoveredFrom (used_of q).iova log (asking_marks q (Some log))) (enabling q) }
{}

/// If a ring's addresses go through a table, a mark of a range that the table lets be written is of guest pages: each
/// byte of the range lies, where the table leads, on a page that is to be marked after all marks of a call, if that has
/// a bit in the log. A range that it does not let be written was not stored to.
pub fn ring_marks_are_of_guest_pages<B: Bitmap>()
    ensures { (ring guest : Memory) (t : TlbId) (marks : List Piece) (i : ℕ) (m : Piece) (old new : Logged B) (x to : ℕ)
        → MarksRing (Logs B.marks ring guest (Some t)) marks old new → slice_get marks i ≡ Some m
        → is_allowed (says_of (slice_get old.host.tables t.0)) (m.base + m.offset) m.len Write ≡ true
        → m.base + m.offset ≤ x → x < m.base + m.offset + m.len
        → LeadsTo (says_of (slice_get old.host.tables t.0)) x to Write → to / 4096 < old.pages.pages
        → IsToMark (to / 4096) new.pages }
{}

/// A turn is over only if the driver was asked to notify and a look after that found no chain, or a mapping is waited
/// for. The queue is as it was then, but that its first turn reads where it returns its next chain.
pub fn turns_end_after_a_look<H, D: RingMemory<H>>()
    ensures looks { (mem : D) (way : Option Sight) (terms : DeviceLimits) (q new_q : BlockQueueState) (old new : H)
        → HappensIn (D.steps mem) terms way q old (Some Emptied) new_q new
        → FoundNone (D.steps mem) new_q new ⊎ IsWaiting new_q }
    ensures stays { (mem : D) (way : Option Sight) (terms : DeviceLimits) (q new_q : BlockQueueState) (old new : H)
        → HappensIn (D.steps mem) terms way q old (Some Emptied) new_q new → q.is_unread ≡ false
        → new_q.queue ≡ q.queue }
{}

/// The requests of a ring's queue are those that its state machine has under way: after a step of a turn, and after
/// whatever else happens to the ring, once the chains that are then to be returned were given back. So each return
/// finds its request.
pub fn each_return_finds_its_request<H, D: RingMemory<H>>()
    ensures turns { (mem : D) (way : Option Sight) (terms : DeviceLimits) (q new_q : BlockQueueState) (old new : H)
        (r : RingState) (e : RingEvent) → Agrees q r → length q.asked ≡ length r.requests → may_run r ≡ true
        → HappensIn (D.steps mem) terms way q old (Some e) new_q new → FindsAll new_q (stepped r (On e)) }
    ensures others { (q : BlockQueueState) (r : RingState) (s : RingStep) → Agrees q r → taken r s ≡ []
        → FindsAll q (stepped r s) }
{}
