//! What the definitions say in the cases that matter, by computation: a function a subject, and a clause a case.
ghost use Rattle.std.specs.Prelude.{◌≡◌, ◌-◌, ◌^◌, true, false, [], ◌∷◌};
ghost use Rattle.vm_memory_base.specs.Address.{next, step, difference, is_within, numbers};
ghost use Rattle.vm_memory_base.specs.Pages.{dirty_words, is_dirty_at, marked, unmarked, new_pages, in_view};
ghost use Rattle.vm_memory_base.specs.Pages.{pages_with, IsPageSet};
ghost use Rattle.vm_memory_base.specs.Runs.{runs};
ghost use Rattle.vm_memory_base.specs.Table.{same_mapping, Set, Invalidate, says_nothing, new_table_after, is_allowed};
ghost use Rattle.vm_memory_base.specs.Table.{reason, pieces, misses, failures};
ghost use Rattle.vm_memory_base.specs.declared.iotlb.Permissions.TheVariants.{No, Read, Write, ReadWrite};
ghost use Rattle.vm_memory_base.specs.declared.iotlb.Reason.TheVariants.{MissingMapping, AccessNotAllowed};

/// After the greatest address comes 0, and differences, steps and offsets in a view are taken modulo 2 ^ 64.
pub fn addresses_go_round()
    ensures after_the_greatest { next (2 ^ 64 - 1) ≡ 0 }
    ensures three_on { step (2 ^ 64 - 2) 3 ≡ 1 }
    ensures back { difference 16 8 ≡ 2 ^ 64 - 8 }
    ensures there_and_back { step 16 (difference 16 8) ≡ 8 }
    ensures last_within { is_within 4 3 6 ≡ true }
    ensures past { is_within 4 3 7 ≡ false }
    ensures listed { numbers 4 3 ≡ 4 ∷ 5 ∷ 6 ∷ [] }
    ensures in_a_view { in_view (2 ^ 64 - 1) 2 ≡ 1 }
{}

/// Neighbouring ranges with one difference and one set of permissions are one run, in which an invalidated
/// address leaves a gap. The last call that covers an address decides, and a target may lie before its address.
pub fn tables_after_calls()
    ensures one_run { runs same_mapping (new_table_after (Set 0 16 4 Read ∷ Set 4 20 4 Read ∷ [])) 0 12
        ≡ record { start = 0; len = 8; value = record { difference = 16; permissions = Read } } ∷ [] }
    ensures gap { runs same_mapping (new_table_after (Set 0 16 8 Read ∷ Invalidate 2 1 ∷ [])) 0 12
        ≡ record { start = 0; len = 2; value = record { difference = 16; permissions = Read } }
        ∷ record { start = 3; len = 5; value = record { difference = 16; permissions = Read } } ∷ [] }
    ensures last_decides { pieces (new_table_after (Set 0 16 8 ReadWrite ∷ Set 2 40 4 Read ∷ [])) 0 8
        ≡ record { base = 16; len = 2 } ∷ record { base = 40; len = 4 } ∷ record { base = 22; len = 2 }
        ∷ [] }
    ensures target_before { pieces (new_table_after (Set 16 0 16 Read ∷ [])) 24 4
        ≡ record { base = 8; len = 4 } ∷ [] }
{}

/// An empty look-up is allowed everywhere, and at an address without a mapping not even the access that asks
/// for nothing. A range whose end is not an address is missed as a whole. A look-up across a gap misses the gap, and
/// else it has a piece for each difference and each set of permissions, and fails if one forbids.
pub fn look_ups_of_tables()
    ensures empty { is_allowed says_nothing 5 0 Write ≡ true }
    ensures not_mapped { is_allowed says_nothing 5 1 No ≡ false }
    ensures end_is_no_address { misses (new_table_after (Set (2 ^ 64 - 2) 0 2 ReadWrite ∷ [])) (2 ^ 64 - 2) 2
        ≡ record { base = 2 ^ 64 - 2; len = 2 } ∷ [] }
    ensures end_is_the_greatest { misses (new_table_after (Set (2 ^ 64 - 2) 0 2 ReadWrite ∷ [])) (2 ^ 64 - 2) 1
        ≡ [] }
    ensures across_a_gap { let f = new_table_after (Set 0 16 8 Read ∷ Invalidate 2 1 ∷ []) in
        misses f 0 8 ≡ record { base = 2; len = 1 } ∷ [] }
    ensures pieces_around_it { let f = new_table_after (Set 0 16 8 Read ∷ Invalidate 2 1 ∷ []) in
        pieces f 0 8 ≡ record { base = 16; len = 2 } ∷ record { base = 19; len = 5 } ∷ [] }
    ensures why_missed { let f = new_table_after (Set 0 16 8 Read ∷ Invalidate 2 1 ∷ []) in
        reason f 0 8 ≡ MissingMapping }
    ensures forbidden { let f = new_table_after (Set 0 16 4 ReadWrite ∷ Set 4 20 4 Read ∷ []) in
        failures f 2 4 Write ≡ record { base = 4; len = 2 } ∷ [] }
    ensures why_forbidden { let f = new_table_after (Set 0 16 4 ReadWrite ∷ Set 4 20 4 Read ∷ []) in
        reason f 2 4 ≡ AccessNotAllowed }
    ensures two_permissions { let f = new_table_after (Set 0 16 4 ReadWrite ∷ Set 4 20 4 Read ∷ []) in
        pieces f 2 4 ≡ record { base = 18; len = 2 } ∷ record { base = 20; len = 2 } ∷ [] }
    ensures two_differences { let f = new_table_after (Set 0 16 4 Read ∷ Set 4 40 4 Read ∷ []) in
        pieces f 2 4 ≡ record { base = 18; len = 2 } ∷ record { base = 40; len = 2 } ∷ [] }
{}

/// A mark takes each page that one of its bytes lies in, up to the greatest offset and the last page, and one of
/// no bytes takes none. Undoing it makes these pages clean. The number of new pages is rounded up, and page k is bit k
/// of the words.
pub fn pages_and_marks()
    ensures empty { marked 6 0 (new_pages 4 12) ≡ new_pages 4 12 }
    ensures over_a_boundary { marked 3 2 (new_pages 4 12) ≡ pages_with 4 (true ∷ true ∷ false ∷ []) }
    ensures past_the_last_page { marked 10 100 (new_pages 4 12) ≡ pages_with 4 (false ∷ false ∷ true ∷ []) }
    ensures after_the_last_page { marked 12 4 (new_pages 4 12) ≡ new_pages 4 12 }
    ensures not_dirty { is_dirty_at (pages_with 4 (true ∷ true ∷ true ∷ [])) 12 ≡ false }
    ensures pages_of_all_offsets { IsPageSet (pages_with (2 ^ 62) (false ∷ false ∷ false ∷ false ∷ [])) }
    ensures to_the_greatest_offset { let clean = pages_with (2 ^ 62) (false ∷ false ∷ false ∷ false ∷ []) in
        marked (2 ^ 63) (2 ^ 64 - 1) clean ≡ pages_with (2 ^ 62) (false ∷ false ∷ true ∷ true ∷ []) }
    ensures undone { unmarked 3 2 (pages_with 4 (true ∷ true ∷ true ∷ []))
        ≡ pages_with 4 (false ∷ false ∷ true ∷ []) }
    ensures nothing_undone { unmarked 3 0 (pages_with 4 (true ∷ true ∷ true ∷ []))
        ≡ pages_with 4 (true ∷ true ∷ true ∷ []) }
    ensures rounded_up { new_pages 4 9 ≡ pages_with 4 (false ∷ false ∷ false ∷ []) }
    ensures no_page { new_pages 4 0 ≡ pages_with 4 [] }
    ensures words { dirty_words (pages_with 4 (true ∷ false ∷ true ∷ [])) ≡ 5 ∷ [] }
{}
