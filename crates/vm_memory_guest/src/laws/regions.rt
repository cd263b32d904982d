//! What holds of layouts of regions, whatever the code does: each function is a theorem, and does nothing.
ghost use Rattle.std.specs.Prelude.{◌≡◌, ◌↔◌, ℕ, ◌+◌, ◌^◌, ◌<◌, ◌≤◌, true, false, None, Some, Ok, Err};
ghost use Rattle.std.specs.Prelude.{List, All, length, slice_index_or, slice_get, insert, remove};
ghost use Rattle.vm_memory_guest.specs.declared.region.error.GuestRegionCollectionError.{GuestRegionCollectionError};
ghost use Rattle.vm_memory_guest.specs.Layout.{inserted, removed, binary_digits};
ghost use Rattle.vm_memory_guest.specs.Region.{Region, IsRegion, last, has_address, containing_region};
ghost use Rattle.vm_memory_guest.specs.Region.{neighbours_of, layout_error, IsLayout};

/// At most one region of a layout holds an address: two places that hold it are the same place.
///
/// Witness: vm_memory::runs_keep_layouts
pub fn one_region_holds_an_address()
    ensures { (rs : List Region) → All IsRegion rs → IsLayout rs →
        (i j a : ℕ) (d : Region) → i < length rs → j < length rs →
        has_address (slice_index_or rs i d) a ≡ true → has_address (slice_index_or rs j d) a ≡ true → i ≡ j }
{}

/// The regions that pass the tests are the layouts of at least one region, and a layout is ascending and
/// disjoint: each region ends below the start of every later one. The error of regions is the first one of neighbours.
///
/// Witness: vm_memory::runs_keep_layouts
pub fn layouts_pass_the_tests()
    ensures passes { (rs : List Region) → All IsRegion rs →
        (layout_error rs ≡ None) ↔ ((0 < length rs) × IsLayout rs) }
    ensures apart { (rs : List Region) → All IsRegion rs → IsLayout rs ↔ ((i j : ℕ) (d : Region) →
        i < j → j < length rs → last (slice_index_or rs i d) < (slice_index_or rs j d).start) }
    ensures first_fault { (rs : List Region) (i : ℕ) (e : GuestRegionCollectionError) (d : Region) → i + 1 < length rs →
        ((k : ℕ) → k < i → neighbours_of (slice_index_or rs k d) (slice_index_or rs (k + 1) d) ≡ Ok tt) →
        neighbours_of (slice_index_or rs i d) (slice_index_or rs (i + 1) d) ≡ Err e → layout_error rs ≡ Some e }
{}

/// The home of an address in a layout is the region that holds it, if one does.
pub fn home_holds_the_address()
    ensures held { (rs : List Region) → All IsRegion rs → IsLayout rs → (i a : ℕ) (d : Region) →
        i < length rs → has_address (slice_index_or rs i d) a ≡ true
        → containing_region rs a ≡ Some (slice_index_or rs i d) }
    ensures hole { (rs : List Region) (a : ℕ) (d : Region) →
        ((k : ℕ) → k < length rs → has_address (slice_index_or rs k d) a ≡ false) → containing_region rs a ≡ None }
{}

/// A region that is put into a layout stands after each that starts no higher and before each that starts
/// above it: where a stable sort by starts leaves one that was appended.
pub fn inserted_regions_stand_in_order()
    ensures { (rs : List Region) (new : Region) → All IsRegion rs → IsLayout rs →
        (n : ℕ) × (n ≤ length rs) × (inserted (λ r. r) rs new ≡ insert rs n new)
        × ((k : ℕ) (d : Region) → k < n → (slice_index_or rs k d).start ≤ new.start)
        × ((k : ℕ) (d : Region) → n ≤ k → k < length rs → new.start < (slice_index_or rs k d).start) }
{}

/// The region that is taken out is one with just these addresses, and the others stay in order. None is taken
/// out only if no region has just these addresses.
pub fn one_region_is_removed()
    ensures taken { (rs others : List Region) (base size : ℕ) (r : Region) →
        removed (λ r. r) rs base size ≡ Some (others, r) → (r.start ≡ base) × (r.len ≡ size)
        × ((n : ℕ) × (slice_get rs n ≡ Some r) × (others ≡ remove rs n)) }
    ensures none { (rs : List Region) (base size k : ℕ) (r : Region) → removed (λ r. r) rs base size ≡ None →
        slice_get rs k ≡ Some r → r.start ≡ base → r.len ≡ size → ⊥ }
{}

/// A number has as many binary digits as the least power of two above it has zeros.
pub fn digits_bound_a_number()
    ensures above { (n : ℕ) → n < 2 ^ binary_digits n }
    ensures least { (n d : ℕ) → n < 2 ^ d → binary_digits n ≤ d }
{}
