//! A small case of what the laws say: the function here is a theorem, and does nothing.
ghost use Rattle.std.specs.Prelude.{◌≡◌, ℕ, List, [], ◌∷◌, Some};
ghost use Rattle.vhost_inflight.specs.PackedCrash.{GoesOn, looked_at, position};
ghost use Rattle.vhost_inflight.specs.PackedExamples.{chain, cut_off};
ghost use Rattle.vhost_inflight.specs.PackedStart.{Flies};

use crate::packed_laws::{every_crash_leaves_what_was_popped, one_list_is_served_again};

/// The back end of a ring of two pops a chain with id 7 and one with id 5 and returns 7, and is cut off after the store
/// of the used descriptor's flags: 7 is still marked as in flight, and yet 5 alone is served again.
pub fn a_packed_example_is_cut_off()
    ensures goes_on { GoesOn 2 2 0 cut_off }
    ensures view { cut_off.view ≡ Some (chain 5 ∷ []) }
    ensures alone { (heads : List ℕ) → Flies cut_off.region (position 2 0) (looked_at cut_off) heads
        → heads ≡ 1 ∷ [] }
{
    every_crash_leaves_what_was_popped();
    one_list_is_served_again();
}
