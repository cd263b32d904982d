//! What paths and their windows have in common, for every list of regions and every route: each function
//! here is a theorem, and does nothing.
ghost use Rattle.std.specs.Prelude.{◌≡◌, ℕ, ◌+◌, ◌-◌, ◌<◌, ◌≤◌, ◌↔◌, true, List, [], ◌∷◌, Some, length, flat_map, All};
ghost use Rattle.std.specs.Prelude.{MatchOption};
ghost use Rattle.vm_memory_base.specs.Lookup.{mapped_ranges};
ghost use Rattle.vm_memory_base.specs.Table.{Says, is_allowed, pieces};
ghost use Rattle.vm_memory_base.specs.declared.iotlb.Permissions.{Permissions};
ghost use Rattle.vm_memory_guest.specs.Access.{Reached, Reaches, allowed, meets, path, windows, access_of};
ghost use Rattle.vm_memory_guest.specs.Dirt.{path_cells, path_marks, window_marks};
ghost use Rattle.vm_memory_guest.specs.Host.{Cell, Shape, Space, Holds};
ghost use Rattle.vm_memory_guest.specs.Memory.{Route, Direct, Through};
ghost use Rattle.vm_memory_guest.specs.Pieces.{marking, walk_of_pieces};
ghost use Rattle.vm_memory_guest.specs.Queries.{is_whole};
ghost use Rattle.vm_memory_guest.specs.Region.{Region, IsRegion, IsLayout, containing_region, region_names, window_at};
ghost use Rattle.vm_memory_guest.specs.Walk.{reach_of};
ghost use Rattle.vm_memory_guest.specs.Window.{cells, span, window_names};

use vm_memory_base::laws::table::{
    allowed_where_each_address_grants, canonical_list_decides_the_table,
};

/// A path's windows cover exactly its bytes and marks. In one region they are one window, and a host that
/// holds the regions and the space holds them.
pub fn windows_are_the_path()
    ensures bytes { (regions : List Region) (route : Route) (a n : ℕ) → All IsRegion regions
        → let xs = path (meets regions route a) 0 n in cells (windows xs) ≡ path_cells xs }
    ensures marks { (regions : List Region) (route : Route) (a n : ℕ) → All IsRegion regions
        → let xs = path (meets regions route a) 0 n in flat_map window_marks (windows xs) ≡ path_marks xs }
    ensures span { (xs : List Reached) → span (windows xs) ≡ length xs }
    ensures one { (regions : List Region) (a n : ℕ) (r : Region) (first : Cell) → IsLayout regions
        → containing_region regions a ≡ Some r → r.place ≡ Some first → IsRegion r → 0 < n → a - r.start + n ≤ r.len
        → windows (path (meets regions Direct a) 0 n) ≡ window_at first (a - r.start) n ∷ [] }
    ensures held { (shape : Shape) (regions : List Region) (a n : ℕ) → All IsRegion regions
        → Holds shape (flat_map region_names regions)
        → All (λ w. Holds shape (window_names w)) (windows (path (meets regions Direct a) 0 n)) }
    ensures held_with_translation { (shape : Shape) (regions : List Region) (says : Says) (space a n : ℕ)
        → All IsRegion regions → Holds shape (flat_map region_names regions)
        → Holds shape (Space space ∷ [])
        → All (λ w. Holds shape (window_names w))
        (windows (path (meets regions (Through says space) a) 0 n)) }
{}

/// An access reaches at most what was asked, and all of it unless something stops it.
pub fn accesses_reach_all_unless_stopped()
    ensures at_most { (regions : List Region) (route : Route) (a n : ℕ) (access : Permissions)
        → length (access_of regions route a n access).path ≤ n }
    ensures all { (regions : List Region) (route : Route) (a n : ℕ) (access : Permissions)
        → let reached = access_of regions route a n access in
        MatchOption reached.fault (length reached.path ≡ n) (λ fault. length reached.path < n) }
{}

/// A range is whole exactly if it is allowed and each byte of it has a byte of the host.
pub fn ranges_are_whole_by_bytes()
    ensures { (regions : List Region) (route : Route) (a n : ℕ) (access : Permissions)
        → (is_whole (access_of regions route a n access).path n ≡ true)
        ↔ ((allowed route a n access ≡ true)
        × ((i : ℕ) → i < n → (x : Reached) × (meets regions route a i ≡ Reaches x))) }
{}

/// The pieces of a look-up that is allowed, walked one after the other, are the access: each window marks the
/// space at the address that was asked for.
pub fn pieces_are_the_access()
    ensures { (regions : List Region) (f : Says) (space a n : ℕ) (access : Permissions)
        → is_allowed f a n access ≡ true
        → marking space a (walk_of_pieces regions (mapped_ranges (pieces f a n)))
        ≡ reach_of (access_of regions (Through f space) a n access) }
{
    canonical_list_decides_the_table();
    allowed_where_each_address_grants();
}
