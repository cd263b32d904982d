//! What holds of ranges that are taken from tables, whatever tables there were meanwhile: each function here is a
//! theorem, and does nothing.
ghost use Rattle.std.specs.Prelude.{◌≡◌, ◌⊎◌, ◌+◌, ◌^◌, ◌<◌, ◌∷◌, [], ℕ, true, false, List, flat_map};
ghost use Rattle.vm_memory_base.specs.Address.{is_within, numbers};
ghost use Rattle.vm_memory_base.specs.Table as table;
ghost use Rattle.vm_memory_base.specs.Table.{Says, Table, changed, says};
ghost use Rattle.vm_memory_base.specs.declared.iotlb.Permissions.{Permissions};
ghost use Rattle.vhost_iotlb.specs.Kept.{IsCurrent, IsReal, SaysNoMore, after_change, differs, event_of};
ghost use Rattle.vhost_iotlb.specs.Leads.{LeadOn, LeadsTo};
ghost use Rattle.vhost_iotlb.specs.Taking.{Covers, StopsAt, left};
ghost use Rattle.vhost_iotlb.specs.declared.kept.Change.{Change};
ghost use Rattle.vhost_iotlb.specs.declared.kept.Change.TheVariants.{Unmap};
ghost use Rattle.vhost_iotlb.specs.declared.kept.Kept.{Kept};
ghost use Rattle.vhost_iotlb.specs.declared.taking.Progress.{Progress};
ghost use Rattle.vhost_iotlb.specs.declared.taking.Progress.TheVariants.{TooMany, NoMemory};
ghost use Rattle.vhost_iotlb.specs.declared.taking.Want.{Want};

use vm_memory_base::laws::table::tables_keep_to_their_limits;

/// A kept range that does not differ by a change leads after it where it led before. One that leads anywhere after an
/// INVALIDATE has no address of it.
///
/// Witness: tests_iotlb::keep_over_change
pub fn kept_ranges_stay_current()
    ensures stays { (f : Says) (c : Change) (k : Kept) → IsReal k → IsCurrent f k → differs c k ≡ false
        → IsCurrent (after_change c f) k }
    ensures gone { (f : Says) (iova len i : ℕ) (k : Kept) → IsCurrent (after_change (Unmap iova len) f) k → i < k.len
        → is_within iova len (k.iova + i) ≡ true → ⊥ }
{}

/// A table to which each change of the front end is made, or which is emptied instead, never says anything else than
/// the front end's messages say, whatever it evicts. So what leads on by the table leads on by the messages.
///
/// Witness: tests_iotlb::lead_after_eviction
pub fn tables_say_what_messages_say()
    ensures goes_on { (t : Table) (f : Says) (c : Change) → SaysNoMore t f
        → SaysNoMore (changed (event_of c) t) (after_change c f) }
    ensures emptied { (t : Table) (f : Says) → SaysNoMore (changed table.InvalidateAll t) f }
    ensures leads { (t : Table) (f : Says) (a count to : ℕ) (access : Permissions) → SaysNoMore t f
        → a + count < 2 ^ 64 → LeadOn (says t) a count to access → LeadOn f a count to access }
{
    tables_keep_to_their_limits();
}

/// When nothing is left of wanted ranges, the kept ones have each of their bytes once, in order, from however many
/// tables they were taken.
///
/// Witness: tests_iotlb::take_range
pub fn what_is_taken_is_what_was_wanted()
    ensures { (ws : List Want) (ks : List Kept) → Covers ws 0 ks → (left ws 0 ks).0 ≡ []
        → flat_map (λ k. numbers k.iova k.len) ks ≡ flat_map (λ w. numbers w.iova w.len) ws }
{}

/// It never stops at an address that leads on for the access that is wanted, except at the limit or for want of memory:
/// once a mapping that was missed is there, it is taken.
///
/// Witness: tests_iotlb::take_what_came
pub fn a_mapping_that_comes_is_taken()
    ensures { (f : Says) (most count from to : ℕ) (w : Want) (ws : List Want) (t : Progress)
        → StopsAt f most count (w ∷ ws, from) t → LeadsTo f (w.iova + from) to w.access
        → (t ≡ TooMany) ⊎ (t ≡ NoMemory) }
{}
