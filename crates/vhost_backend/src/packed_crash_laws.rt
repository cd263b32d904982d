//! What a packed ring stores of its requests in flight is what the theorem on crashes speaks of: each function here is
//! a theorem, and does nothing.
ghost use Rattle.std.specs.Prelude.{◌≡◌, ◌^◌, ◌<◌, ◌≤◌, ℕ, List, None, Ok, Option, Some, length, true};
ghost use Rattle.virtio_blk.specs.declared.request.DeviceLimits.{DeviceLimits};
ghost use Rattle.virtio_queue.specs.Packed.{PackedVirtqueue};
ghost use Rattle.virtio_queue.specs.declared.packed.descriptor.PackedDescriptor.{PackedDescriptor};
ghost use Rattle.virtio_queue.specs.declared.any.AnyQueue.TheVariants.{Packed};
ghost use Rattle.vhost_inflight.specs.Packed.{PackedRegion, can_return, entry_offset};
ghost use Rattle.vhost_inflight.specs.PackedBytes.{old_slot, region_of};
ghost use Rattle.vhost_inflight.specs.PackedCrash.{Event, IsFresh, Return, Start, World, at_first, effect, id_of};
ghost use Rattle.vhost_inflight.specs.PackedCrash.{looked_at, position, run};
ghost use Rattle.vhost_inflight.specs.PackedStart.{chain_of};
ghost use Rattle.vhost_backend.specs.BlockQueue.{BlockQueueState, flight_started};
ghost use Rattle.vhost_backend.specs.Flight.{AfterOld, GivesIn, HappensIn, base_in};
ghost use Rattle.vhost_backend.specs.PackedCrash.{GoesOnPackedAs, PopsPackedBy, ReturnsPackedBy, packed_to};
ghost use Rattle.vhost_backend.specs.PackedFlight.{PackedFlightState, first_again, head_of, passed};
ghost use Rattle.vhost_backend.specs.Sight.{Sight};
ghost use Rattle.vhost_backend.specs.declared.block_queue.GiveBack.TheVariants.{Done};
ghost use Rattle.vhost_backend.specs.declared.flight.FlightPlace.{FlightPlace};
ghost use Rattle.vhost_backend.specs.declared.request.Chain.{Chain};
ghost use Rattle.vhost_backend.specs.declared.ring.RingEvent.{RingEvent};
ghost use Rattle.vhost_backend.specs.declared.ring.RingEvent.TheVariants.{Popped};

use crate::ring_memory::RingMemory;
use vhost_inflight::packed_laws::{every_crash_leaves_what_was_popped, one_list_is_served_again};

/// A packed ring whose requests in flight are stored in a region stores there at each pop the descriptors that its look
/// found, as the theorem has a pop of these, and at each return what the theorem has a return of the chain's entry
/// store, in that order, and keeps what it has them keep. What was in flight when it was started is popped again, and
/// nothing is stored for that.
pub fn packed_calls_store_what_the_theorem_has<H, D: RingMemory<H>>()
    ensures pops { (mem : D) (way : Option Sight) (terms : DeviceLimits) (q new_q : BlockQueueState) (old new : H)
        (chain : Chain) (parts bytes : ℕ) (p : FlightPlace) (k : PackedFlightState)
        → q.flight ≡ packed_to p k → first_again k ≡ None
        → HappensIn (D.steps mem) terms way q old (Some (Popped chain parts bytes)) new_q new
        → PopsPackedBy (D.steps mem) p k chain.id new_q new }
    ensures again { (mem : D) (way : Option Sight) (terms : DeviceLimits) (q new_q : BlockQueueState) (old new : H)
        (chain : Chain) (parts bytes : ℕ) (p : FlightPlace) (k : PackedFlightState) (ds : List PackedDescriptor)
        → q.flight ≡ packed_to p k → first_again k ≡ Some ds
        → HappensIn (D.steps mem) terms way q old (Some (Popped chain parts bytes)) new_q new
        → new_q.flight ≡ packed_to p (passed chain.id k) }
    ensures returns { (mem : D) (q new_q : BlockQueueState) (old new : H) (chain : Chain) (len : ℕ) (p : FlightPlace)
        (k : PackedFlightState) (u : PackedVirtqueue) (descriptors size began : ℕ) (w : World)
        → q.flight ≡ packed_to p k → base_in u.state ≡ k.kept.used → can_return k.kept (head_of k chain.id) ≡ true
        → id_of (chain_of k.kept.entries (head_of k chain.id)) ≡ chain.id
        → GivesIn (D.steps mem) q chain len old Done new_q new → ReturnsPackedBy (D.steps mem) p k
        (effect descriptors size began w (Some k.kept) (Return (head_of k chain.id))) (base_in u.state) q chain len old
        new_q new }
{}

/// A back end of a packed ring is cut off after any of its stores, and another one takes its place, time and again,
/// while the driver goes on in slots that were used. If the ring's part of the region and the flags of the slot that it
/// names are what that left, its start goes through, or finds no memory and is tried again. It stores what the theorem
/// has a start store, and then pops again the chains that the guest sees as popped and not returned, each of them with
/// its descriptors, in the order of their pops, and none else. It pops its next chain after all that were popped. Where
/// the front end lets the ring begin counts for a fresh region alone.
pub fn packed_rings_go_on_after_every_crash<H, D: RingMemory<H>>()
    ensures { (mem : D) (q new_q : BlockQueueState) (old new : H) (a : Option RingEvent) (p : FlightPlace)
        (u : PackedVirtqueue) (bytes : List ℕ) (flags began : ℕ) (r : PackedRegion) (ring : ℕ → ℕ) (events : List Event)
        (w : World)
        → IsFresh p.descriptors r → w ≡ run p.descriptors u.state.size began (at_first r ring began) events
        → w.popped < 2 ^ 63 → p.descriptors < 2 ^ 16 → 0 < u.state.size → u.state.size ≤ p.descriptors
        → u.state.size ≤ 2 ^ 15 → entry_offset p.descriptors ≤ length bytes
        → region_of p.descriptors bytes ≡ w.region
        → (w.region.header.version ≡ 0 → base_in u.state ≡ position u.state.size began)
        → ((slot : ℕ) → old_slot u.state.size bytes ≡ Some slot → flags ≡ looked_at w)
        → q.queue ≡ Packed u → q.flight ≡ flight_started (Some p)
        → AfterOld (D.steps mem) u.state.size (base_in u.state) q p bytes (Ok flags) old a new_q new
        → GoesOnPackedAs (D.steps mem) p (effect p.descriptors u.state.size began w None Start) w
        (position u.state.size w.popped) q old a new_q new }
{
    every_crash_leaves_what_was_popped();
    one_list_is_served_again();
}
