//! What becomes of the chains of a packed queue: each function here is a theorem, and does nothing.
ghost use Rattle.std.specs.Prelude.{◌≡◌, ℕ, ◌<◌, ◌≤◌, ◌^◌, true, false, List, length, take, slice_get, IsTrue, Option};
ghost use Rattle.std.specs.Prelude.{Some, None, Result, Ok};
ghost use Rattle.vm_memory_device.specs.declared.chain.Segment.{Segment};
ghost use Rattle.vm_memory_guest.specs.Host.{Host};
ghost use Rattle.vm_memory_guest.specs.Memory.{Memory};
ghost use Rattle.virtio_queue.specs.Looks.{answer};
ghost use Rattle.virtio_queue.specs.Packed.{PackedVirtqueue, are_positions, at_base, base_of, moved, of_bits, to_bits};
ghost use Rattle.virtio_queue.specs.Packed.{with_positions};
ghost use Rattle.virtio_queue.specs.PackedEvents.{is_passed};
ghost use Rattle.virtio_queue.specs.PackedHistory.{Cell, Entry, Event, Pop, Return, Ring, Story, AllMay, after};
ghost use Rattle.virtio_queue.specs.PackedHistory.{chain_to_pop, entry_to_take, first, is_available_cell, is_used_cell};
ghost use Rattle.virtio_queue.specs.PackedHistory.{story, used_cell};
ghost use Rattle.virtio_queue.specs.PackedLaws.{AreInSlots, Marks, bare_tree, popping_copies};
ghost use Rattle.virtio_queue.specs.PackedPopping.{popping};
ghost use Rattle.virtio_queue.specs.PackedRing.{Listed, after_pop, buffer_of, is_available, is_last, is_used, listed};
ghost use Rattle.virtio_queue.specs.PackedRing.{next_chain, next_flags, next_listed, popped};
ghost use Rattle.virtio_queue.specs.PackedUsed.{after_used, used_flags};
ghost use Rattle.virtio_queue.specs.Rings.{and_then};
ghost use Rattle.virtio_queue.specs.declared.error.QueueError.{QueueError};
ghost use Rattle.virtio_queue.specs.declared.packed.descriptor.PackedDescriptor.{PackedDescriptor};
ghost use Rattle.virtio_queue.specs.declared.packed.position.RingPosition.{RingPosition};
ghost use Rattle.virtio_queue.specs.declared.packed.state.PackedBuffer.{PackedBuffer};
ghost use Rattle.virtio_queue.specs.declared.packed.state.PackedState.{PackedState};

use vm_memory_base::Bitmap;

/// A chain is what lies in slots that follow one another, across the end of the ring: descriptors that another follows,
/// and a last one. They are no more than the slots that are free.
pub fn packed_chains_lie_slot_by_slot()
    ensures listed { (descriptor : ℕ → Result PackedDescriptor QueueError) (size most i : ℕ) (l : Listed)
        → listed descriptor size most i ≡ Ok l
        → (j : ℕ) × AreInSlots descriptor size i l.front j × (descriptor j ≡ Ok l.last) × (is_last l.last ≡ true)
        × (length l.front < most) }
    ensures found { (descriptor : ℕ → Result PackedDescriptor QueueError) (size most i j : ℕ) (l : Listed)
        → AreInSlots descriptor size i l.front j → descriptor j ≡ Ok l.last → is_last l.last ≡ true
        → length l.front < most → listed descriptor size most i ≡ Ok l }
{}

/// A chain that is made of copies of its descriptors is the one that a pop takes, whatever a driver writes meanwhile:
/// both take the same looks in the same order, and make the same of what these find. Only where an allocation may fail
/// differs.
pub fn packed_chains_are_made_of_their_copies<B: Bitmap>()
    ensures looks { (q : PackedState) → bare_tree (popping_copies q) ≡ bare_tree (popping q) }
    ensures still { (m : Memory) (host : Host B) (q : PackedState)
        → answer m host (popping_copies q) ≡ answer m host (popping q) }
{}

/// A slot whose flags are those of a slot of a history is available, and used, as that one is.
pub fn packed_flags_are_those_of_histories()
    ensures available { (flags : ℕ) (c : Cell) → Marks flags c
        → is_available flags true ≡ is_available_cell c true }
    ensures later { (flags : ℕ) (c : Cell) → Marks flags c
        → is_available flags false ≡ is_available_cell c false }
    ensures used { (flags : ℕ) (c : Cell) → Marks flags c → is_used flags true ≡ is_used_cell c true }
    ensures used_later { (flags : ℕ) (c : Cell) → Marks flags c → is_used flags false ≡ is_used_cell c false }
{}

/// After all events in which a chain takes a slot or more, the driver has at most the ring's slots out, and the device
/// returns no more slots than it popped, in whatever order: the chains that were popped are the first of those that
/// were made available, in order, and the next one is what is popped next. So none is popped twice and none is lost.
/// And the entries that the driver took are the first of those that were returned, in order, and the next one is what
/// it takes next. The size need not be a power of two.
pub fn packed_chains_and_entries_keep_their_order()
    ensures { (size : ℕ) (events : List Event) → 0 < size → AllMay size events first
        → let s = story size events first in
        (s.popped ≡ take (length s.popped) s.published)
        × (chain_to_pop size s.ring ≡ slice_get s.published (length s.popped))
        × (s.taken ≡ take (length s.taken) s.returned)
        × (entry_to_take size s.ring ≡ slice_get s.returned (length s.taken)) }
{}

/// A driver that notifies its device by the rule of event suppression notifies one that waits. It goes on from the
/// position that the device asks for: then this slot is among those that it makes available, however many, and also if
/// its batch counts slots that it made available before.
pub fn packed_waiting_devices_are_notified()
    ensures { (size n count : ℕ) (p : RingPosition) → p.slot < size → 0 < n → n ≤ size → n ≤ count
        → is_passed size count (moved size p n) p ≡ true }
{}

/// A position that is taken from its 16 bits again is the same.
pub fn packed_positions_come_back()
    ensures { (p : RingPosition) → p.slot < 2 ^ 15 → of_bits (to_bits p) ≡ p }
{}

/// Both positions of a queue come back from the number that vhost's messages carry: another queue of the same size that
/// takes it stands where this one stood.
pub fn packed_bases_come_back()
    ensures { (p q : PackedVirtqueue) → p.state.size ≡ q.state.size → q.state.size ≤ 2 ^ 15
        → IsTrue (are_positions q.state.size q.state.next_avail q.state.next_used)
        → at_base p (base_of q.state) ≡ (Ok tt, with_positions p q.state.next_avail q.state.next_used) }
{}

/// If the flags in the slot at which a queue pops say what that slot of a history says, the queue pops a chain exactly
/// if an event of the history does. If the descriptors from there on are those of the history's chain, it is that one,
/// and both stand at the same slot after it.
pub fn packed_queues_pop_as_histories_do<B: Bitmap>()
    ensures none { (m : Memory) (host : Host B) (q : PackedState) (r : Ring) (flags : ℕ) → q.next_avail ≡ r.pops
        → next_flags m host q ≡ Ok flags → Marks flags (r.cells r.pops.slot)
        → chain_to_pop q.size r ≡ None → popped m host q ≡ Ok None }
    ensures some { (m : Memory) (host : Host B) (q : PackedState) (r : Ring) (flags : ℕ) (buffer : PackedBuffer)
        → q.next_avail ≡ r.pops → next_flags m host q ≡ Ok flags → Marks flags (r.cells r.pops.slot)
        → chain_to_pop q.size r ≡ Some buffer → popped m host q ≡ and_then (next_chain m host q) (λ p. Ok (Some p)) }
    ensures chain { (m : Memory) (host : Host B) (q : PackedState) (l : Listed) (buffer : PackedBuffer)
        (segments : List Segment) → next_listed m host q ≡ Ok l → next_chain m host q ≡ Ok (buffer, segments)
        → buffer ≡ buffer_of l }
    ensures moved { (q : PackedState) (s : Story) (buffer : PackedBuffer) (segments : List Segment)
        → q.next_avail ≡ s.ring.pops → chain_to_pop q.size s.ring ≡ Some buffer
        → (after_pop q (Ok (Some (buffer, segments)))).next_avail ≡ (after q.size Pop s).ring.pops }
{}

/// What a queue returns goes into the slot at which the device of a history returns it, with the flags that this slot
/// has then, and no other slot changes. Both stand at the same slot after it.
pub fn packed_queues_return_as_histories_do()
    ensures { (q : PackedVirtqueue) (s : Story) (entry : Entry) → s.ring.returns ≡ q.state.next_used
        → let t = after q.state.size (Return entry) s in let i = q.state.next_used.slot in
        (t.ring.returns ≡ (after_used q entry.buffer (Ok tt)).state.next_used)
        × (t.ring.cells i ≡ used_cell q.state.next_used.wrap entry)
        × Marks (used_flags q.state.next_used.wrap entry.len) (t.ring.cells i)
        × ((j : ℕ) → (j ≡ i → ⊥) → t.ring.cells j ≡ s.ring.cells j) }
{}
