//! What holds of the region of a packed queue, whenever its back end is cut off: each function here is a theorem, and
//! does nothing.
ghost use Rattle.std.specs.Prelude.{◌≡◌, ◌^◌, ◌<◌, ◌≤◌, ℕ, List};
ghost use Rattle.vhost_inflight.specs.Packed.{PackedRegion};
ghost use Rattle.vhost_inflight.specs.PackedCrash.{Event, GoesOn, IsFresh, at_first, position, run};
ghost use Rattle.vhost_inflight.specs.PackedStart.{Flies};
ghost use Rattle.vhost_inflight.specs.declared.packed_region.PackedPosition.{PackedPosition};

/// After every history from a fresh region on, of calls that are made and of calls that a crash cuts after any of their
/// stores, starts among them, and of a driver that goes on in slots that were used: a start goes through. It serves
/// again the chains that the guest sees as popped and not returned, each of them with its descriptors, in the order of
/// the pops, and none else; and the next available position is the one behind all that were popped. No chain was popped
/// twice, or returned without a pop, twice or in another slot than the guest's next one, and no call was refused.
///
/// Witness: vhost_inflight::a_packed_example_is_cut_off
pub fn every_crash_leaves_what_was_popped()
    ensures { (descriptors size began : ℕ) (r : PackedRegion) (flags : ℕ → ℕ) (events : List Event)
        → IsFresh descriptors r → 0 < size → size ≤ descriptors → descriptors < 2 ^ 16
        → (run descriptors size began (at_first r flags began) events).popped < 2 ^ 63
        → GoesOn descriptors size began (run descriptors size began (at_first r flags began) events) }
{}

/// What a start serves again has one order.
///
/// Witness: vhost_inflight::a_packed_example_is_cut_off
pub fn one_list_is_served_again()
    ensures { (r : PackedRegion) (base : PackedPosition) (flags : ℕ) (xs ys : List ℕ)
        → Flies r base flags xs → Flies r base flags ys → xs ≡ ys }
{}
