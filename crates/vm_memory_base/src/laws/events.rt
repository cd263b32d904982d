//! What holds of a bitmap that any number of actors mark and clear.
ghost use Rattle.std.specs.Prelude.{◌≡◌, ◌↔◌, ◌⊎◌, ℕ, ◌<◌, Bool, false, true, List};
ghost use Rattle.vm_memory_base.specs.Events.{Event, is_left, marks_at, answers_at};

/// In every history of marks and clears, one word a step and whoever makes it, from the empty bitmap on, no page
/// is lost and none is invented. The pages that the clears returned, with those that are left, are the marked
/// ones. Each return of a page has a mark of it since the return before. And each mark of a page is followed by
/// a clear that returns it, or the page is left.
///
/// Witness: tests_base_bitmaps::bits_of_ranges
pub fn event_law()
    ensures told { (history : List Event) (page : ℕ)
        → (((i : ℕ) × (answers_at page false history i ≡ true)) ⊎ (is_left page false history ≡ true))
        ↔ ((j : ℕ) × (marks_at page history j ≡ true)) }
    ensures not_invented { (history : List Event) (page i : ℕ) → answers_at page false history i ≡ true
        → (j : ℕ) × (j < i) × (marks_at page history j ≡ true)
        × ((k : ℕ) → k < i → answers_at page false history k ≡ true → k < j) }
    ensures not_lost { (history : List Event) (page j : ℕ) → marks_at page history j ≡ true
        → ((i : ℕ) × (j < i) × (answers_at page false history i ≡ true)) ⊎ (is_left page false history ≡ true) }
{}
