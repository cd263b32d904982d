//! What holds of I/O tables and look-ups.
ghost use Rattle.std.specs.Prelude.{◌≡◌, ◌↔◌, ℕ, ◌+◌, ◌-◌, ◌^◌, ◌<◌, ◌≤◌, ◌⊎◌, Bool, true, false, not, List, [], ◌∷◌};
ghost use Rattle.std.specs.Prelude.{◌++◌, map, filter, flat_map, sum_by, Option, Some, None, is_some, All};
ghost use Rattle.vm_memory_base.specs.Address.{step, numbers, difference};
ghost use Rattle.vm_memory_base.specs.Runs.{AddressRun, TestsEquality, runs, IsCanonical, value_at, cut_to};
ghost use Rattle.vm_memory_base.specs.Table.{Mapping, same_mapping, target, Says, Table, says, range_count, TableEvent};
ghost use Rattle.vm_memory_base.specs.Table.{Set, Invalidate, InvalidateAll, covers, says_after, says_after_all};
ghost use Rattle.vm_memory_base.specs.Table.{events, changed, changed_by, events_of, new_table_after, canonical_list};
ghost use Rattle.vm_memory_base.specs.Table.{grants, each, overruns, is_allowed, reason, piece_of, pieces, addresses};
ghost use Rattle.vm_memory_base.specs.Table.{target_if_any, forbids, range_of, if_forbidden, misses, failures};
ghost use Rattle.vm_memory_base.specs.declared.iotlb.Permissions.{Permissions};
ghost use Rattle.vm_memory_base.specs.declared.iotlb.Reason.TheVariants.{MissingMapping, AccessNotAllowed};

use crate::iotlb::Iotlb;

/// A call changes what is said of the addresses that it covers, and of no other; one of length 0 covers none. So
/// the last call that covers an address decides what is said of it, and if none does, nothing is changed.
///
/// Witness: vm_memory_device::accesses_go_through_what_calls_left
pub fn last_call_decides()
    ensures elsewhere { (call : TableEvent) (x : ℕ) (old : Option Mapping) → covers call x ≡ false
        → says_after call x old ≡ old }
    ensures set { (iova to len x : ℕ) (permissions : Permissions) (old : Option Mapping)
        → covers (Set iova to len permissions) x ≡ true
        → says_after (Set iova to len permissions) x old
        ≡ Some (record { difference = difference iova to; permissions = permissions }) }
    ensures invalidated { (iova len x : ℕ) (old : Option Mapping)
        → covers (Invalidate iova len) x ≡ true → says_after (Invalidate iova len) x old ≡ None }
    ensures all_invalidated { (x : ℕ) (old : Option Mapping) → says_after InvalidateAll x old ≡ None }
    ensures set_nothing { (iova to x : ℕ) (permissions : Permissions) (old : Option Mapping)
        → says_after (Set iova to 0 permissions) x old ≡ old }
    ensures invalidated_nothing { (iova x : ℕ) (old : Option Mapping)
        → says_after (Invalidate iova 0) x old ≡ old }
    ensures one_more { (calls : List TableEvent) (call : TableEvent) (x : ℕ) (old : Option Mapping)
        → says_after_all (calls ++ call ∷ []) x old ≡ says_after call x (says_after_all calls x old) }
    ensures last { (earlier later : List TableEvent) (call : TableEvent) (x : ℕ) (old : Option Mapping)
        → covers call x ≡ true → All (λ other. covers other x ≡ false) later
        → says_after_all (earlier ++ call ∷ later) x old ≡ says_after call x None }
    ensures none { (calls : List TableEvent) (x : ℕ) (old : Option Mapping)
        → All (λ call. covers call x ≡ false) calls → says_after_all calls x old ≡ old }
{}

/// A range that is set leads, address by address, to the range from its target on, modulo 2 ^ 64. It is one range
/// with one after it whose targets follow its own, with the same permissions, and one run if the table was new.
///
/// Witness: vm_memory_device::accesses_go_through_what_calls_left
pub fn targets_follow_addresses()
    ensures set { (iova to x : ℕ) (permissions : Permissions) → iova < 2 ^ 64 → iova ≤ x
        → target x (record { difference = difference iova to; permissions = permissions })
        ≡ step to (x - iova) }
    ensures steps { (x i : ℕ) (m : Mapping) → target (x + i) m ≡ step (target x m) i }
    ensures neighbours { (iova to m n x : ℕ) (permissions : Permissions) (old : Option Mapping) → iova + m ≤ 2 ^ 64
        → says_after_all (Set iova to m permissions ∷ Set (iova + m) (step to m) n permissions ∷ []) x old
        ≡ says_after (Set iova to (m + n) permissions) x old }
    ensures alone { (iova to len : ℕ) (permissions : Permissions) → 0 < len → iova + len ≤ 2 ^ 64
        → let mapping : Mapping = record { difference = difference iova to; permissions = permissions } in
        canonical_list (new_table_after (Set iova to len permissions ∷ []))
        ≡ record { start = iova; len = len; value = mapping } ∷ [] }
{}

/// Tables have one canonical list exactly if they say the same of each address. `same_mapping` says whether two
/// mappings are equal.
///
/// Witness: tests_base::ranges_there
pub fn canonical_list_decides_the_table()
    ensures canonical { (f : Says) → IsCanonical same_mapping (canonical_list f) }
    ensures values { (f : Says) (x : ℕ) → x < 2 ^ 64 → value_at (canonical_list f) x ≡ f x }
    ensures same_list { (f g : Says) → ((x : ℕ) → x < 2 ^ 64 → f x ≡ g x)
        → canonical_list f ≡ canonical_list g }
    ensures same_values { (f g : Says) → canonical_list f ≡ canonical_list g → (x : ℕ) → x < 2 ^ 64
        → f x ≡ g x }
    ensures one_list { (rs ss : List (AddressRun Mapping)) → IsCanonical same_mapping rs
        → IsCanonical same_mapping ss → ((x : ℕ) → value_at rs x ≡ value_at ss x) → rs ≡ ss }
    ensures same_mapping { TestsEquality same_mapping }
{}

/// A kept list that is canonical, and says nothing past the last address, is the canonical list of
/// what it says.
///
/// Witness: tests_base::ranges_there
pub fn kept_list_is_the_canonical_list()
    ensures by_values { (rs : List (AddressRun Mapping)) → IsCanonical same_mapping rs
        → ((x : ℕ) → 2 ^ 64 ≤ x → value_at rs x ≡ None) → canonical_list (value_at rs) ≡ rs }
    ensures by_ends { (rs : List (AddressRun Mapping)) → IsCanonical same_mapping rs
        → All (λ r. r.start + r.len ≤ 2 ^ 64) rs → canonical_list (value_at rs) ≡ rs }
    ensures of_a_table { (table : Table) → IsCanonical same_mapping table.ranges
        → All (λ r. r.start + r.len ≤ 2 ^ 64) table.ranges
        → canonical_list (says table) ≡ table.ranges }
{}

/// An access is allowed if it takes no address, and if each address grants it and the end is an address, too.
pub fn allowed_where_each_address_grants()
    ensures { (f : Says) (a n : ℕ) (access : Permissions)
        → (is_allowed f a n access ≡ true)
        ↔ ((n ≡ 0) ⊎ ((a + n < 2 ^ 64) × ((x : ℕ) → a ≤ x → x < a + n → grants access (f x) ≡ true))) }
{}

/// An access is refused for a missing mapping if anything is missed, and otherwise for its permissions.
///
/// Witness: tests_base::refusal_of
pub fn reason_of_a_refusal()
    ensures missing { (f : Says) (a n : ℕ) → (misses f a n ≡ [] → ⊥) → reason f a n ≡ MissingMapping }
    ensures not_allowed { (f : Says) (a n : ℕ) → misses f a n ≡ [] → reason f a n ≡ AccessNotAllowed }
{}

/// The pieces of a look-up are the canonical list, cut to the addresses asked for, and the failures the runs of
/// these whose mapping forbids the access.
///
/// Witness: tests_base::ranges_there
pub fn pieces_are_cut()
    ensures runs { (f : Says) (a n : ℕ) → a + n ≤ 2 ^ 64
        → runs same_mapping f a n ≡ cut_to a n (canonical_list f) }
    ensures of_a_table { (f : Says) (a n : ℕ) → a + n ≤ 2 ^ 64
        → pieces f a n ≡ map piece_of (cut_to a n (canonical_list f)) }
    ensures of_a_kept_list { (rs : List (AddressRun Mapping)) (a n : ℕ) → IsCanonical same_mapping rs
        → pieces (value_at rs) a n ≡ map piece_of (cut_to a n rs) }
    ensures failures { (f : Says) (a n : ℕ) (access : Permissions) → overruns a n ≡ false
        → failures f a n access
        ≡ map range_of (filter (λ r. forbids access r.value) (runs same_mapping f a n)) }
{}

/// The pieces are, address by address, the targets of what is asked for, the misses the addresses with no
/// mapping, and the failures those whose mapping forbids the access. The pieces and the misses have, together, as
/// many addresses as are asked for. An access is allowed exactly if its look-up has no miss and no failure; an
/// empty range that begins past the last address is allowed though it is missed. A test passes at each address
/// exactly if it passes at the addresses one by one.
///
/// Witness: tests_base::grants
pub fn look_up_by_addresses()
    ensures targets { (f : Says) (a n : ℕ) → flat_map addresses (pieces f a n)
        ≡ flat_map (λ x. target_if_any x (f x)) (numbers a n) }
    ensures missed { (f : Says) (a n : ℕ) → overruns a n ≡ false
        → flat_map (λ r. numbers r.base r.len) (misses f a n)
        ≡ filter (λ x. not (is_some (f x))) (numbers a n) }
    ensures failed { (f : Says) (a n : ℕ) (access : Permissions) → overruns a n ≡ false
        → flat_map (λ r. numbers r.base r.len) (failures f a n access)
        ≡ filter (λ x. is_some (if_forbidden access (f x))) (numbers a n) }
    ensures together { (f : Says) (a n : ℕ) → overruns a n ≡ false
        → sum_by (λ r. r.len) (pieces f a n) + sum_by (λ r. r.len) (misses f a n) ≡ n }
    ensures mapped { (f : Says) (a n : ℕ) → each is_some f a n ≡ true
        → sum_by (λ r. r.len) (pieces f a n) ≡ n }
    ensures allowed { (f : Says) (a n : ℕ) (access : Permissions) → (n ≡ 0 → a < 2 ^ 64)
        → (is_allowed f a n access ≡ true) ↔ ((misses f a n ≡ []) × (failures f a n access ≡ [])) }
    ensures each { (test : Option Mapping → Bool) (f : Says) (a n : ℕ)
        → (each test f a n ≡ true) ↔ ((x : ℕ) → a ≤ x → x < a + n → test (f x) ≡ true) }
{}

/// A call of a table with a limit may lead to evictions, and one of a table without a limit leads to none. A table
/// never has more ranges than its limit. What is evicted is a miss, and never leads elsewhere than before. What a
/// call set stays. Calls and the evictions that they led to decide what a table says after them.
///
/// Witness: vm_memory_device::accesses_go_through_what_calls_left
pub fn tables_keep_to_their_limits()
    ensures unbounded { (call : TableEvent) (t : Table) → t.limit ≡ None → events call t ≡ call ∷ [] }
    ensures within { (call : TableEvent) (t : Table) (limit : ℕ) → t.limit ≡ Some limit → 0 < limit
        → range_count (changed call t) ≤ limit }
    ensures missed { (call : TableEvent) (t : Table) (x : ℕ) → x < 2 ^ 64
        → (says (changed call t) x ≡ None) ⊎ (says (changed call t) x ≡ says_after call x (says t x)) }
    ensures set { (iova to len x : ℕ) (permissions : Permissions) (t : Table) → iova + len < 2 ^ 64
        → covers (Set iova to len permissions) x ≡ true
        → says (changed (Set iova to len permissions) t) x ≡ says_after (Set iova to len permissions) x None }
    ensures events { (calls : List TableEvent) (t : Table) (x : ℕ) → x < 2 ^ 64
        → says (changed_by calls t) x ≡ says_after_all (events_of calls t) x (says t x) }
    ensures limit { (calls : List TableEvent) (t : Table) → (changed_by calls t).limit ≡ t.limit }
{}

/// Two tables of one limit that say the same of each address are equal: they keep the same ranges, and give every
/// look-up the same result.
///
/// Witness: tests_base::forgotten
pub fn tables_that_say_the_same(a: &Iotlb, b: &Iotlb)
    ensures same { a.now.limit ≡ b.now.limit → ((x : ℕ) → x < 2 ^ 64 → says a.now x ≡ says b.now x)
        → a.now ≡ b.now }
    ensures ranges { ((x : ℕ) → x < 2 ^ 64 → says a.now x ≡ says b.now x)
        → range_count a.now ≡ range_count b.now }
{
    let _first = a.num_ranges();
    let _second = b.num_ranges();
}
