//! What a ring stores of its requests in flight is what the theorem on crashes speaks of: each function here is a
//! theorem, and does nothing.
ghost use Rattle.std.specs.Prelude.{◌≡◌, ◌∷◌, ◌^◌, ◌<◌, ◌≤◌, ℕ, List, [], Ok, Option, Some, None, false, length};
ghost use Rattle.std.specs.Prelude.{nat_lt, true};
ghost use Rattle.virtio_blk.specs.declared.request.DeviceLimits.{DeviceLimits};
ghost use Rattle.vhost_inflight.specs.Split.{SplitRegion, entry_offset};
ghost use Rattle.vhost_inflight.specs.SplitBytes.{region_of};
ghost use Rattle.vhost_inflight.specs.SplitCrash.{Event, IsFresh, Pop, Return, Start, World, at_first, effect};
ghost use Rattle.vhost_inflight.specs.SplitCrash.{in_view, run};
ghost use Rattle.vhost_inflight.specs.declared.split.SplitInFlight.{SplitInFlight};
ghost use Rattle.vhost_backend.specs.BlockQueue.{BlockQueueState};
ghost use Rattle.vhost_backend.specs.Crash.{GoesOnAs, PopsBy, ReturnsBy, stores_to};
ghost use Rattle.vhost_backend.specs.Flight.{AfterRegion, GivesIn, HappensIn, next_used_of, size_of};
ghost use Rattle.vhost_backend.specs.SetUp.{is_split};
ghost use Rattle.vhost_backend.specs.Sight.{Sight};
ghost use Rattle.vhost_backend.specs.declared.block_queue.GiveBack.TheVariants.{Done};
ghost use Rattle.vhost_backend.specs.declared.flight.FlightPlace.{FlightPlace};
ghost use Rattle.vhost_backend.specs.declared.request.Chain.{Chain};
ghost use Rattle.vhost_backend.specs.declared.ring.RingEvent.{RingEvent};
ghost use Rattle.vhost_backend.specs.declared.ring.RingEvent.TheVariants.{Popped};

use crate::ring_memory::RingMemory;
use vhost_inflight::split_laws::{every_crash_leaves_what_was_popped, one_list_is_served_again};

/// A ring whose requests in flight are stored in a region stores there at each pop and each return what the theorem has
/// these calls store, in that order, and keeps what it has them keep. What was in flight when it was started is popped
/// again, and nothing is stored for that.
pub fn calls_store_what_the_theorem_has<H, D: RingMemory<H>>()
    ensures pops { (mem : D) (way : Option Sight) (terms : DeviceLimits) (q new_q : BlockQueueState) (old new : H)
        (chain : Chain) (parts bytes : ℕ) (p : FlightPlace) (k : SplitInFlight) (descriptors size : ℕ) (w : World)
        → q.flight ≡ stores_to p k [] → nat_lt chain.id size ≡ true → in_view chain.id w.view ≡ false
        → HappensIn (D.steps mem) terms way q old (Some (Popped chain parts bytes)) new_q new
        → PopsBy (D.steps mem) p (effect descriptors size w (Some k) (Pop chain.id)) new_q new }
    ensures again { (mem : D) (way : Option Sight) (terms : DeviceLimits) (q new_q : BlockQueueState) (old new : H)
        (chain : Chain) (parts bytes : ℕ) (p : FlightPlace) (k : SplitInFlight) (head : ℕ) (rest : List ℕ)
        → q.flight ≡ stores_to p k (head ∷ rest)
        → HappensIn (D.steps mem) terms way q old (Some (Popped chain parts bytes)) new_q new
        → new_q.flight ≡ stores_to p k rest }
    ensures returns { (mem : D) (q new_q : BlockQueueState) (old new : H) (chain : Chain) (len : ℕ) (p : FlightPlace)
        (k : SplitInFlight) (again : List ℕ) (descriptors size : ℕ) (w : World)
        → q.flight ≡ stores_to p k again → is_split q.queue ≡ true → w.used ≡ next_used_of q.queue
        → in_view chain.id w.view ≡ true → GivesIn (D.steps mem) q chain len old Done new_q new
        → ReturnsBy (D.steps mem) p (effect descriptors size w (Some k) (Return chain.id)) q chain len old new_q new }
{}

/// A back end is cut off after any of its stores, and another one takes its place, time and again. If a ring's part of
/// the region and its used index are what that left, its start goes through, or finds no memory and is tried again. It
/// stores what the theorem has a start store, and then pops again the chains that the guest sees as popped and not
/// returned, each of them, in the order of their pops, and none else.
pub fn rings_go_on_after_every_crash<H, D: RingMemory<H>>()
    ensures { (mem : D) (q new_q : BlockQueueState) (old new : H) (a : Option RingEvent) (p : FlightPlace)
        (bytes : List ℕ) (r : SplitRegion) (used : ℕ) (events : List Event) (w : World)
        → IsFresh p.descriptors r → used < 2 ^ 16 → w ≡ run p.descriptors (size_of q.queue) (at_first r used) events
        → w.popped < 2 ^ 63 → p.descriptors < 2 ^ 16 → size_of q.queue ≤ p.descriptors
        → entry_offset p.descriptors ≤ length bytes → region_of p.descriptors bytes ≡ w.region
        → next_used_of q.queue ≡ w.used → is_split q.queue ≡ true → q.flight.place ≡ Some p
        → AfterRegion (D.steps mem) q p (Ok bytes) old a new_q new
        → GoesOnAs (D.steps mem) p (effect p.descriptors (size_of q.queue) w None Start) w q old a new_q new }
{
    every_crash_leaves_what_was_popped();
    one_list_is_served_again();
}
