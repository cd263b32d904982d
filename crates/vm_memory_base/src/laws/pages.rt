//! What holds of page sets and the marks that they take.
ghost use Rattle.std.specs.Prelude.{◌≡◌, ◌↔◌, ℕ, ◌+◌, ◌-◌, ◌*◌, ◌/◌, ◌%◌, ◌^◌, ◌<◌, ◌≤◌, Bool, false, true, not, ◌||◌};
ghost use Rattle.std.specs.Prelude.{◌&&◌, nat_lt, if◌then◌else◌, List, [], ◌++◌, None, Some, length, slice_index};
ghost use Rattle.std.specs.Prelude.{slice_index_or, AllPairs, Contains};
ghost use Rattle.std.specs.Int.{div_ceil};
ghost use Rattle.vm_memory_base.specs.Address.{is_within, numbers};
ghost use Rattle.vm_memory_base.specs.Pages.{Pages, PageSet, shape, is_dirty_at, dirty_pages, takes, flags_set, marked};
ghost use Rattle.vm_memory_base.specs.Pages.{marked_each, unmarked, cleaned, new_pages, dirty_words, IsPageSet};
ghost use Rattle.vm_memory_base.specs.Pages.{IsCleanFor};

/// A mark of no bytes changes nothing, and any mark is a mark of each of its bytes, one after another. So marks
/// of neighbouring ranges are one mark.
///
/// Witness: vm_memory::mark_in
pub fn mark_is_by_bytes()
    ensures empty { (start : ℕ) (set : PageSet) → marked start 0 set ≡ set }
    ensures each { (start len : ℕ) (set : PageSet) → start + len ≤ 2 ^ 64
        → marked_each (numbers start len) set ≡ marked start len set }
    ensures neighbours { (start m n : ℕ) (set : PageSet) → start + (m + n) ≤ 2 ^ 64
        → marked (start + m) n (marked start m set) ≡ marked start (m + n) set }
{}

/// A mark keeps the page size and the number of pages. It goes no further than the greatest offset, and changes
/// nothing past the last page, and nothing at all if no pages are tracked.
///
/// Witness: live_migration::writes_mark_what_they_change
pub fn mark_keeps_shape()
    ensures shape { (start len : ℕ) (set : PageSet) → shape (marked start len set) ≡ shape set }
    ensures pages { (start len : ℕ) (p : Pages) → (q : Pages) × (marked start len (Some p) ≡ Some q)
        × (q.page_size ≡ p.page_size) × (length q.flags ≡ length p.flags) }
    ensures valid { (start len : ℕ) (set : PageSet) → IsPageSet set → IsPageSet (marked start len set) }
    ensures shape_of_many { (offsets : List ℕ) (set : PageSet) → shape (marked_each offsets set) ≡ shape set }
    ensures valid_of_many { (offsets : List ℕ) (set : PageSet) → IsPageSet set
        → IsPageSet (marked_each offsets set) }
    ensures to_the_greatest_offset { (start len : ℕ) (set : PageSet) → start < 2 ^ 64 → 2 ^ 64 ≤ start + len
        → marked start len set ≡ marked start (2 ^ 64 - start) set }
    ensures past_the_last_page { (start len : ℕ) (p : Pages) → length p.flags ≤ start / p.page_size
        → marked start len (Some p) ≡ Some p }
    ensures untracked { (start len : ℕ) → marked start len None ≡ None }
{}

/// A byte that is marked is dirty, if its page is one of the set's, and no mark cleans a byte. A mark takes a
/// page if one of its bytes lies in it, among the offsets of 64 bits, and makes no other page dirty.
///
/// Witness: live_migration::writes_mark_what_they_change
pub fn marked_bytes_are_dirty()
    ensures marked { (start len offset : ℕ) (p : Pages) → 0 < p.page_size
        → is_within start len offset ≡ true → offset < 2 ^ 64 → offset / p.page_size < length p.flags
        → is_dirty_at (marked start len (Some p)) offset ≡ true }
    ensures before { (start len offset : ℕ) (set : PageSet) → is_dirty_at set offset ≡ true
        → is_dirty_at (marked start len set) offset ≡ true }
    ensures own { (x offset : ℕ) (p : Pages) → x < 2 ^ 64 → x / p.page_size ≡ offset / p.page_size
        → offset / p.page_size < length p.flags → is_dirty_at (marked x 1 (Some p)) offset ≡ true }
    ensures other { (x offset : ℕ) (p : Pages) → (x / p.page_size ≡ offset / p.page_size → ⊥)
        → is_dirty_at (marked x 1 (Some p)) offset ≡ is_dirty_at (Some p) offset }
    ensures takes { (size start len page : ℕ) → 0 < size → start < 2 ^ 64
        → (takes size start len page ≡ true) ↔ ((offset : ℕ) × (is_within start len offset ≡ true)
        × (offset < 2 ^ 64) × (offset / size ≡ page)) }
    ensures pages { (test : ℕ → Bool) (page : ℕ) (flags : List Bool) (i : ℕ)
        → slice_index_or (flags_set true test page flags) i false
        ≡ (slice_index_or flags i false || (nat_lt i (length flags) && test (page + i))) }
    ensures bytes { (start len offset : ℕ) (p : Pages)
        → is_dirty_at (marked start len (Some p)) offset
        ≡ (is_dirty_at (Some p) offset || (nat_lt (offset / p.page_size) (length p.flags)
        && takes p.page_size start len (offset / p.page_size))) }
{}

/// Marks may be made in any order and more than once.
pub fn mark_order()
    ensures any_order { (a m b n : ℕ) (set : PageSet)
        → marked a m (marked b n set) ≡ marked b n (marked a m set) }
    ensures each_in_any_order { (xs ys : List ℕ) (set : PageSet)
        → marked_each (xs ++ ys) set ≡ marked_each (ys ++ xs) set }
    ensures twice { (start len : ℕ) (set : PageSet)
        → marked start len (marked start len set) ≡ marked start len set }
{}

/// New pages are clean and cover their bytes, and each of these lies in one of them.
///
/// Witness: tests_base::clean_bitmap
pub fn new_pages_cover()
    ensures clean { (size bytes : ℕ) → 0 < size → IsCleanFor bytes (new_pages size bytes) }
    ensures valid { (size bytes : ℕ) → 0 < size → bytes < 2 ^ 64 → IsPageSet (new_pages size bytes) }
    ensures no_byte_dirty { (len offset : ℕ) (set : PageSet) → IsCleanFor len set
        → is_dirty_at set offset ≡ false }
    ensures each_byte { (len offset : ℕ) (p : Pages) → IsCleanFor len (Some p) → offset < len
        → offset / p.page_size < length p.flags }
{}

/// Cleaning leaves the same pages, none of them dirty. Undoing a mark makes its pages clean, and no others.
///
/// Witness: vm_memory::runs_keep_images
pub fn cleaned_is_clean()
    ensures no_page { (set : PageSet) → dirty_pages (cleaned set) ≡ [] }
    ensures no_byte { (set : PageSet) (offset : ℕ) → is_dirty_at (cleaned set) offset ≡ false }
    ensures shape { (set : PageSet) → shape (cleaned set) ≡ shape set }
    ensures valid { (set : PageSet) → IsPageSet set → IsPageSet (cleaned set) }
    ensures undone_pages { (test : ℕ → Bool) (page : ℕ) (flags : List Bool) (i : ℕ)
        → slice_index_or (flags_set false test page flags) i false
        ≡ (slice_index_or flags i false && not (test (page + i))) }
    ensures undone_bytes { (start len offset : ℕ) (p : Pages) → is_dirty_at (unmarked start len (Some p)) offset
        ≡ (is_dirty_at (Some p) offset && not (takes p.page_size start len (offset / p.page_size))) }
    ensures undone_after_a_mark { (start len : ℕ) (set : PageSet)
        → unmarked start len (marked start len set) ≡ unmarked start len set }
    ensures undone_shape { (start len : ℕ) (set : PageSet) → shape (unmarked start len set) ≡ shape set }
    ensures undone_valid { (start len : ℕ) (set : PageSet) → IsPageSet set → IsPageSet (unmarked start len set) }
{}

/// Exactly the dirty pages are listed, in ascending order. Together with the shape they decide the page
/// set. Each page is a bit of the words, which have no other bits. If nothing is tracked, nothing is dirty.
///
/// Witness: vm_memory::runs_keep_images
pub fn dirty_pages_are_listed()
    ensures exactly { (p : Pages) (page : ℕ) → Contains (dirty_pages (Some p)) page
        ↔ (slice_index_or p.flags page false ≡ true) }
    ensures decide { (p q : Pages) → shape (Some p) ≡ shape (Some q)
        → dirty_pages (Some p) ≡ dirty_pages (Some q) → p ≡ q }
    ensures ascending { (set : PageSet) → AllPairs (λ page other. page < other) (dirty_pages set) }
    ensures bits { (p : Pages) (word bit : ℕ) → bit < 64
        → slice_index (dirty_words (Some p)) word / 2 ^ bit % 2
        ≡ (if slice_index_or p.flags (64 * word + bit) false then 1 else 0) }
    ensures words { (p : Pages) → length (dirty_words (Some p)) ≡ div_ceil (length p.flags) 64 }
    ensures words_fit { (p : Pages) (word : ℕ) → slice_index (dirty_words (Some p)) word < 2 ^ 64 }
    ensures untracked_clean { (offset : ℕ) → is_dirty_at None offset ≡ false }
    ensures untracked_no_page { dirty_pages None ≡ [] }
{}
