//! What holds of the region of a split queue, whenever its back end is cut off: each function here is a theorem, and
//! does nothing.
ghost use Rattle.std.specs.Prelude.{◌≡◌, ◌^◌, ◌<◌, ◌≤◌, ℕ, List, All, None, length, take};
ghost use Rattle.vhost_inflight.specs.Split.{SplitRegion, entry_offset, place, put};
ghost use Rattle.vhost_inflight.specs.SplitAgain.{Remains, Settles, all_put};
ghost use Rattle.vhost_inflight.specs.SplitBytes.{IsWithin, region_of};
ghost use Rattle.vhost_inflight.specs.Store.{stored};
ghost use Rattle.vhost_inflight.specs.declared.split.SplitStore.{SplitStore};
ghost use Rattle.vhost_inflight.specs.SplitStart.{Flies, fault, start_stores};
ghost use Rattle.vhost_inflight.specs.SplitCrash.{Event, GoesOn, IsFresh, at_first, run};

/// After every history from a fresh region on, of calls that are made and of calls that a crash cuts after any of their
/// stores, starts among them: a start goes through. It serves again the chains that the guest sees as popped and not
/// returned, each of them, in the order of the pops, and none else; and the next available index is the one behind all
/// that were popped. No chain was popped twice, or returned without a pop or twice.
///
/// Witness: vhost_inflight::an_example_is_cut_off
pub fn every_crash_leaves_what_was_popped()
    ensures { (descriptors size used : ℕ) (r : SplitRegion) (events : List Event) → IsFresh descriptors r
        → size ≤ descriptors → descriptors < 2 ^ 16 → used < 2 ^ 16
        → (run descriptors size (at_first r used) events).popped < 2 ^ 63
        → GoesOn descriptors size used (run descriptors size (at_first r used) events) }
{}

/// What a start serves again has one order.
///
/// Witness: vhost_inflight::an_example_is_cut_off
pub fn one_list_is_served_again()
    ensures { (r : SplitRegion) (used : ℕ) (xs ys : List ℕ) → Flies r used xs → Flies r used ys → xs ≡ ys }
{}

/// Whatever a region says: no head that a start serves again is outside of the ring.
///
/// Witness: vhost_inflight::an_example_is_cut_off
pub fn no_head_is_outside_of_the_ring()
    ensures { (descriptors size used : ℕ) (r : SplitRegion) (heads : List ℕ)
        → fault descriptors size r used ≡ None → Flies r used heads → All (λ head. head < size) heads }
{}

/// A start that is cut off after any of its stores changes nothing for the next one, also if several heads were
/// returned at once.
///
/// Witness: vhost_inflight::a_start_is_cut_off
pub fn cut_starts_change_nothing()
    ensures { (descriptors size used stores : ℕ) (r : SplitRegion) → used < 2 ^ 16
        → fault descriptors size r used ≡ None
        → Remains descriptors size used r (all_put r (take stores (start_stores descriptors r used))) }
{}

/// After all stores of a start, the region has the ring's used index, and exactly what is served again is marked as in
/// flight. Another start goes through, serves the same heads again, goes on with the same count, and stores nothing.
///
/// Witness: vhost_inflight::a_start_is_whole
pub fn starts_settle_what_was_returned()
    ensures { (descriptors size used : ℕ) (r : SplitRegion) → used < 2 ^ 16
        → fault descriptors size r used ≡ None
        → Settles descriptors size used r (all_put r (start_stores descriptors r used)) }
{}

/// The bytes of a region after a store, read again, say what the region says after the store, and there are as many:
/// each store changes the field that it is for, and no other.
///
/// Witness: vhost_inflight::a_link_has_two_bytes
pub fn stores_change_their_field()
    ensures field { (descriptors : ℕ) (bytes : List ℕ) (store : SplitStore)
        → entry_offset descriptors ≤ length bytes → IsWithin descriptors store
        → region_of descriptors (stored bytes (place store)) ≡ put (region_of descriptors bytes) store }
    ensures len { (bytes : List ℕ) (store : SplitStore) → length (stored bytes (place store)) ≡ length bytes }
{}
