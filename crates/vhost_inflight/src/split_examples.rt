//! Small cases of what the laws say: each function here is a theorem, and does nothing.
ghost use Rattle.std.specs.Prelude.{◌≡◌, ◌<◌, false, true, ℕ, All, List, [], ◌∷◌, None, Some, replicate, slice_index};
ghost use Rattle.vhost_inflight.specs.Split.{is_in_flight, place, put};
ghost use Rattle.vhost_inflight.specs.SplitAgain.{Remains, Settles, all_put};
ghost use Rattle.vhost_inflight.specs.SplitBytes.{region_of};
ghost use Rattle.vhost_inflight.specs.SplitCrash.{GoesOn};
ghost use Rattle.vhost_inflight.specs.SplitExamples.{cut_off, cut_off_again};
ghost use Rattle.vhost_inflight.specs.SplitStart.{Flies, start_stores};
ghost use Rattle.vhost_inflight.specs.Store.{stored};
ghost use Rattle.vhost_inflight.specs.declared.split.SplitStore.TheVariants.{InFlight, Next, UsedIdx};

use crate::split_laws::{
    cut_starts_change_nothing, every_crash_leaves_what_was_popped, no_head_is_outside_of_the_ring,
    one_list_is_served_again, starts_settle_what_was_returned, stores_change_their_field,
};

/// A ring of four begins at 65535. Its back end pops 3, 0 and 2 and returns 0, and is cut off after the store of the
/// ring's used index: 0 is still marked as in flight, and yet 3 and 2 are served again, and nothing else.
pub fn an_example_is_cut_off()
    ensures goes_on { GoesOn 4 4 65535 cut_off }
    ensures marked { is_in_flight cut_off.region.entries 0 ≡ true }
    ensures again { Flies cut_off.region cut_off.used (3 ∷ 2 ∷ []) }
    ensures alone { (heads : List ℕ) → Flies cut_off.region cut_off.used heads → heads ≡ 3 ∷ 2 ∷ [] }
    ensures inside { All (λ head. head < 4) (3 ∷ 2 ∷ []) }
{
    every_crash_leaves_what_was_popped();
    one_list_is_served_again();
    no_head_is_outside_of_the_ring();
}

/// The start after that is cut off as well, after it cleared the mark of 0. The next one serves the same heads again.
pub fn a_start_is_cut_off()
    ensures goes_on { GoesOn 4 4 65535 cut_off_again }
    ensures again { Flies cut_off_again.region cut_off_again.used (3 ∷ 2 ∷ []) }
    ensures remains { Remains 4 4 0 cut_off.region (put cut_off.region (InFlight 0 false)) }
{
    every_crash_leaves_what_was_popped();
    cut_starts_change_nothing();
}

/// A whole start after the first cut clears that mark, and takes over the ring's used index, which is 0.
pub fn a_start_is_whole()
    ensures stores { start_stores 4 cut_off.region 0 ≡ InFlight 0 false ∷ UsedIdx 0 ∷ [] }
    ensures settles { Settles 4 4 0 cut_off.region (all_put cut_off.region (InFlight 0 false ∷ UsedIdx 0 ∷ [])) }
{
    starts_settle_what_was_returned();
}

/// In a region of two descriptors the head that was returned before 1 has bytes 38 and 39.
pub fn a_link_has_two_bytes()
    ensures bytes { let new : List ℕ = stored (replicate 64 0) (place (Next 1 258)) in
        (slice_index new 38 ≡ 2) × (slice_index new 39 ≡ 1) }
    ensures field { region_of 2 (stored (replicate 64 0) (place (Next 1 258)))
        ≡ put (region_of 2 (replicate 64 0)) (Next 1 258) }
{
    stores_change_their_field();
}
