//! What becomes of the heads and entries of a queue: each function here is a theorem, and does nothing.
ghost use Rattle.std.specs.Prelude.{◌≡◌, ◌⊎◌, ◌<◌, ◌≤◌, ◌^◌, ℕ, [], true, Bool, List, Option, All, length, take};
ghost use Rattle.std.specs.Prelude.{slice_get, IsTrue, Result, Ok, Err};
ghost use Rattle.std.specs.Int.{w16, to_le_bytes};
ghost use Rattle.vm_memory_base.specs.declared.iotlb.Permissions.TheVariants.{Write};
ghost use Rattle.vm_memory_guest.specs.Access.{Reached};
ghost use Rattle.vm_memory_guest.specs.Dirt.{after_write, with_pages};
ghost use Rattle.vm_memory_guest.specs.Host.{Host};
ghost use Rattle.vm_memory_guest.specs.Memory as guest;
ghost use Rattle.vm_memory_guest.specs.Region.{IsRegion};
ghost use Rattle.vm_memory_guest.specs.Typed.{typed_path};
ghost use Rattle.vm_memory_device.specs.declared.chain.Segment.{Segment};
ghost use Rattle.virtio_queue.specs.Any.{asking, popping};
ghost use Rattle.virtio_queue.specs.Available.{Followed, avail_idx, entry, followed, head_in, next_head};
ghost use Rattle.virtio_queue.specs.Fields.{StoresWord, place, reached_at};
ghost use Rattle.virtio_queue.specs.History.{Entry, Event, Return, Rings, Story, AllMay, after, beginning, empty_rings};
ghost use Rattle.virtio_queue.specs.History.{entry_to_take, head_to_pop, story};
ghost use Rattle.virtio_queue.specs.Linked.{AreLinked, LeadsTo, told_by};
ghost use Rattle.virtio_queue.specs.Looks.{Follows, Saw, Seen};
ghost use Rattle.virtio_queue.specs.Notification.{is_among};
ghost use Rattle.virtio_queue.specs.Rings.{ahead, slot};
ghost use Rattle.virtio_queue.specs.State.{Virtqueue, is_size};
ghost use Rattle.virtio_queue.specs.Used.{WritesEntry, after_used, entry_bytes, entry_place};
ghost use Rattle.virtio_queue.specs.declared.any.AnyQueue.{AnyQueue};
ghost use Rattle.virtio_queue.specs.declared.descriptor.Descriptor.{Descriptor};
ghost use Rattle.virtio_queue.specs.declared.error.QueueError.{QueueError};
ghost use Rattle.virtio_queue.specs.declared.error.QueueError.TheVariants.{DescriptorLoop, InvalidDescriptorIndex};
ghost use Rattle.virtio_queue.specs.declared.error.QueueError.TheVariants.{Memory};
ghost use Rattle.virtio_queue.specs.declared.packed.state.PackedBuffer.{PackedBuffer};
ghost use Rattle.virtio_queue.specs.declared.state.QueueState.{QueueState};

use crate::looks::Looks;
use vm_memory_base::{Bitmap, ExactBitmap};
use vm_memory_guest::laws::accesses::accesses_are_by_bytes;
use vm_memory_guest::laws::typed::loads_and_stores_are_by_bytes;

/// What following `next` from an index gives is what some linked descriptors describe, and no other: at most as many as
/// is allowed, which is the length of the table.
pub fn chains_are_linked_descriptors()
    ensures followed { (descriptor : ℕ → Result Descriptor QueueError) (len most i : ℕ) (f : Followed)
        → followed descriptor len most i ≡ Ok f
        → (ds : List Descriptor) × AreLinked descriptor len i ds × (length ds ≤ most) × (f ≡ told_by ds) }
    ensures linked { (descriptor : ℕ → Result Descriptor QueueError) (len most i : ℕ) (ds : List Descriptor)
        → AreLinked descriptor len i ds → length ds ≤ most → followed descriptor len most i ≡ Ok (told_by ds) }
{}

/// What is refused while `next` is followed. If as many descriptors as are allowed lead to one more index of the table,
/// and none of them is the last, it is a loop, whatever lies there. If they lead past the table, or fewer lead to an
/// index at which no descriptor can be read, the error is the one of that index. Nothing else is refused.
pub fn chains_are_refused_where_they_lead()
    ensures endless { (descriptor : ℕ → Result Descriptor QueueError) (len most i j : ℕ) (ds : List Descriptor)
        → LeadsTo descriptor len i ds j → length ds ≡ most → j < len
        → followed descriptor len most i ≡ Err DescriptorLoop }
    ensures failing { (descriptor : ℕ → Result Descriptor QueueError) (len most i j : ℕ) (ds : List Descriptor)
        (e : QueueError) → LeadsTo descriptor len i ds j → length ds < most → entry descriptor len j ≡ Err e
        → followed descriptor len most i ≡ Err e }
    ensures outside { (descriptor : ℕ → Result Descriptor QueueError) (len most i j : ℕ) (ds : List Descriptor)
        → LeadsTo descriptor len i ds j → length ds ≤ most → len ≤ j
        → followed descriptor len most i ≡ Err InvalidDescriptorIndex }
    ensures refused { (descriptor : ℕ → Result Descriptor QueueError) (len most i : ℕ) (e : QueueError)
        → followed descriptor len most i ≡ Err e
        → (ds : List Descriptor) × (j : ℕ) × LeadsTo descriptor len i ds j
        × (((length ds ≡ most) × (j < len) × (e ≡ DescriptorLoop))
        ⊎ ((length ds ≤ most) × (entry descriptor len j ≡ Err e))) }
{}

/// A store of a number of 16 bits, in a host with exact bitmaps, is the write of its bytes, one after the other, and so
/// is the write of a used entry: each byte takes its place, and leaves its dirt. Nothing else changes.
pub fn used_entries_are_written_by_bytes<B: ExactBitmap>()
    ensures stored { (m : guest.Memory) (base offset value : ℕ) (old new : Host B) → All IsRegion m.regions
        → StoresWord B.marks m base offset value old (Ok tt) new
        → (a : ℕ) × (xs : List Reached) × (place base offset 2 ≡ Ok a)
        × (typed_path 2 (reached_at m old a 2 Write) ≡ Ok xs)
        × (with_pages B.pages new ≡ after_write xs (to_le_bytes w16 value) (with_pages B.pages old)) }
    ensures entry { (m : guest.Memory) (q : QueueState) (head len : ℕ) (old new : Host B) → All IsRegion m.regions
        → WritesEntry B.marks m q head len old new
        → (a : ℕ) × (entry_place m old q head ≡ Ok a)
        × (with_pages B.pages new
        ≡ after_write (reached_at m old a 8 Write).path (entry_bytes head len) (with_pages B.pages old)) }
{
    accesses_are_by_bytes::<B>();
    loads_and_stores_are_by_bytes::<B>();
}

/// Whatever a driver writes while a call looks at memory, and whatever is known of these looks: what they found, one
/// after another, makes the answer. If the same is found again, it is the same answer, unless an allocation fails.
pub fn answers_are_made_of_what_looks_found<L: Looks>()
    ensures popped { (q : AnyQueue) (old new : L) (result : Result (Option (PackedBuffer × List Segment)) QueueError)
        → Follows L.looks (popping q) old result new
        → (seen : List Seen) × Follows Saw (popping q) seen result [] }
    ensures asked { (q : AnyQueue) (old new : L) (result : Result Bool QueueError)
        → Follows L.looks (asking q) old result new → (seen : List Seen) × Follows Saw (asking q) seen result [] }
    ensures once { (q : AnyQueue) (seen : List Seen)
        (one other : Result (Option (PackedBuffer × List Segment)) QueueError)
        → Follows Saw (popping q) seen one [] → Follows Saw (popping q) seen other []
        → (one ≡ other) ⊎ (one ≡ Err Memory) ⊎ (other ≡ Err Memory) }
{}

/// If the rings of a history say what lies in memory, the head that a queue pops next is the one that an event of
/// the history pops.
pub fn queues_pop_as_histories_do<B: Bitmap>()
    ensures { (m : guest.Memory) (host : Host B) (q : QueueState) (r : Rings) → q.next_avail ≡ r.next_avail
        → avail_idx m host q ≡ Ok r.avail_idx
        → ((i : ℕ) → i < q.size → head_in m host q i ≡ Ok (r.avail i)) → 0 < q.size
        → next_head m host q ≡ head_to_pop q.size r }
{}

/// The entry that a history's device returns goes into the slot whose place `add_used` writes, no other slot changes,
/// and the index goes where the queue's does.
///
/// Leaves open: what memory holds after `add_used`: this compares slots and indices, and no clause links memory with
/// the used ring of a history.
pub fn queues_return_as_histories_do()
    ensures { (q : Virtqueue) (s : Story) (entry : Entry) → s.rings.used_idx ≡ q.state.next_used
        → let t = after q.state.size (Return entry) s in let i = slot q.state.size q.state.next_used in
        (t.rings.used_idx ≡ (after_used q (Ok tt)).state.next_used) × (t.rings.used i ≡ entry)
        × ((j : ℕ) → (j ≡ i → ⊥) → t.rings.used j ≡ s.rings.used j) }
{}

/// A driver that notifies its device by the rule of event indices notifies one that waits. Its index goes on from the
/// one that the device asks for: then this head is among those that it publishes, however many, and also if its batch
/// counts heads that it published before.
pub fn waiting_devices_are_notified()
    ensures { (old new count : ℕ) → old < 2 ^ 16 → new < 2 ^ 16 → (new ≡ old → ⊥) → ahead new old ≤ count
        → is_among count new old ≡ true }
{}

/// After all events in which the driver has at most `size` heads out, and the device returns no more than it popped:
/// the heads that were popped are the first of those that were published, in order, and the next one is what is
/// popped next. So none is popped twice and none is lost. And the entries that the driver took are the first of those
/// that were returned, in order, and the next one is what it takes next. The indices begin anywhere.
pub fn heads_and_entries_keep_their_order()
    ensures { (size avail used : ℕ) (events : List Event) → IsTrue (is_size size) → avail < 2 ^ 16 → used < 2 ^ 16
        → AllMay size events (beginning (empty_rings avail used))
        → let s = story size events (beginning (empty_rings avail used)) in
        (s.popped ≡ take (length s.popped) s.published)
        × (head_to_pop size s.rings ≡ Ok (slice_get s.published (length s.popped)))
        × (s.taken ≡ take (length s.taken) s.returned)
        × (entry_to_take size s.rings ≡ slice_get s.returned (length s.taken)) }
{}
