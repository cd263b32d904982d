//! What an access of guest memory is, byte by byte: each function here is a theorem, and does nothing. It
//! calls the theorems that it follows from.
ghost use Rattle.std.specs.Prelude.{◌≡◌, ℕ, ◌+◌, ◌^◌, ◌<◌, ◌≤◌, List, [], flat_map, length, take, true, Some, Err, All};
ghost use Rattle.vm_memory_base.specs.Pages.{PageSet};
ghost use Rattle.vm_memory_base.specs.declared.iotlb.Permissions.{Permissions};
ghost use Rattle.vm_memory_guest.specs.Access.{AccessFault, Reached, Stops, access_of, allowed, meets, windows};
ghost use Rattle.vm_memory_guest.specs.Answer.{filled_buffer};
ghost use Rattle.vm_memory_guest.specs.Dirt.{after_write, path_cells, path_marks, window_marks, with_pages};
ghost use Rattle.vm_memory_guest.specs.Host.{Host, bytes_at};
ghost use Rattle.vm_memory_guest.specs.Memory.{Route};
ghost use Rattle.vm_memory_guest.specs.Region.{Region, IsRegion};
ghost use Rattle.vm_memory_guest.specs.Transfer.{ended};
ghost use Rattle.vm_memory_guest.specs.Window.{Window, Writes, cells, span};

use vm_memory_base::ExactBitmap;
use vm_memory_base::laws::pages::mark_is_by_bytes;
use vm_memory_base::laws::table::allowed_where_each_address_grants;

/// The windows of an access cover exactly the bytes that it reaches. What they give to a buffer are the bytes of
/// its cells. A write to them of a host with exact bitmaps is the write of its bytes, one after the other.
pub fn accesses_are_by_bytes<B: ExactBitmap>()
    ensures count { (regions : List Region) (route : Route) (a n : ℕ) (access : Permissions)
        → let xs = (access_of regions route a n access).path in span (windows xs) ≡ length xs }
    ensures reads { (regions : List Region) (route : Route) (a n : ℕ) (access : Permissions)
        (blocks : List (List ℕ)) (buffer : List ℕ) → All IsRegion regions
        → let xs = (access_of regions route a n access).path in
        take (length xs) (filled_buffer blocks (cells (windows xs)) buffer) ≡ bytes_at blocks (path_cells xs) }
    ensures writes { (regions : List Region) (route : Route) (a n : ℕ) (access : Permissions)
        (bytes : List ℕ) (old new : Host B) → All IsRegion regions
        → let xs = (access_of regions route a n access).path in Writes B.marks (windows xs) bytes old new
        → with_pages B.pages new ≡ after_write xs bytes (with_pages B.pages old) }
{
    mark_is_by_bytes();
    allowed_where_each_address_grants();
}

/// The windows of an access, put together, are its path: they have its cells, and mark what its bytes mark, at
/// offsets of 64 bits.
pub fn windows_of_accesses_are_their_paths()
    ensures cells { (regions : List Region) (route : Route) (a n : ℕ) (access : Permissions) → All IsRegion regions
        → let xs = (access_of regions route a n access).path in cells (windows xs) ≡ path_cells xs }
    ensures marks { (regions : List Region) (route : Route) (a n : ℕ) (access : Permissions) → All IsRegion regions
        → let xs = (access_of regions route a n access).path in flat_map window_marks (windows xs) ≡ path_marks xs }
    ensures fit { (regions : List Region) (route : Route) (a n : ℕ) (access : Permissions) → All IsRegion regions
        → let xs = (access_of regions route a n access).path in
        All (λ w. w.bitmap.base + w.size ≤ 2 ^ 64) (windows xs) }
{
    allowed_where_each_address_grants();
}

/// A write of a host with exact bitmaps to windows that have the cells of a path, and mark what its bytes mark, is
/// the write of its bytes, one after the other.
pub fn writes_to_the_windows_of_a_path_are_by_bytes<B: ExactBitmap>()
    ensures { (xs : List Reached) (ws : List Window) (bytes : List ℕ) (old new : Host B)
        → cells ws ≡ path_cells xs → flat_map window_marks ws ≡ path_marks xs
        → All (λ w. w.bitmap.base + w.size ≤ 2 ^ 64) ws → Writes B.marks ws bytes old new
        → with_pages B.pages new ≡ after_write xs bytes (with_pages B.pages old) }
{
    mark_is_by_bytes();
}

/// An allowed access is stopped by what its first unreached byte meets. One that
/// reaches no byte leaves everything as it was, and returns what stopped it. Nothing stops an empty one.
pub fn accesses_stop_at_the_first_fault<E>()
    ensures first { (regions : List Region) (route : Route) (a n : ℕ) (access : Permissions) (fault : AccessFault)
        → allowed route a n access ≡ true → (access_of regions route a n access).fault ≡ Some fault
        → meets regions route a (length (access_of regions route a n access).path) ≡ Stops fault }
    ensures unchanged { (bytes : List ℕ) (host : Host PageSet) → after_write [] bytes host ≡ host }
    ensures error { (e : E) → ended 0 (Some e) ≡ Err e }
    ensures empty { (regions : List Region) (route : Route) (a : ℕ) (access : Permissions)
        → access_of regions route a 0 access ≡ record { path = []; fault = None } }
{}
