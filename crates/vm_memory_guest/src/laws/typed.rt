//! What loads, stores and copies are, byte by byte: each function here is a theorem, and does nothing.
ghost use Rattle.std.specs.Prelude.{◌≡◌, ℕ, ◌+◌, ◌^◌, ◌≤◌, min, List, All};
ghost use Rattle.vm_memory_base.specs.declared.iotlb.Permissions.{Permissions};
ghost use Rattle.vm_memory_base.specs.declared.bitmap.BitmapId.TheVariants.{Block};
ghost use Rattle.vm_memory_guest.specs.Access.{access_of};
ghost use Rattle.vm_memory_guest.specs.Copy.{front, after_copy, Copies};
ghost use Rattle.vm_memory_guest.specs.Dirt.{after_write, path_cells, with_pages};
ghost use Rattle.vm_memory_guest.specs.Host.{Host, bytes_at};
ghost use Rattle.vm_memory_guest.specs.Memory.{Route};
ghost use Rattle.vm_memory_guest.specs.Region.{Region, IsRegion};
ghost use Rattle.vm_memory_guest.specs.Typed.{answered, given, path_given, place_of, typed_path};
ghost use Rattle.vm_memory_guest.specs.Window.{Window, Writes, cells_of};

use crate::laws::accesses::accesses_are_by_bytes;
use vm_memory_base::ExactBitmap;
use vm_memory_base::laws::pages::mark_is_by_bytes;

/// A load or a store takes all bytes of its access, or is refused: the window that it takes has just these
/// bytes. A store to it of a host with exact bitmaps is the write of its bytes, one after the other.
pub fn loads_and_stores_are_by_bytes<B: ExactBitmap>()
    ensures answers { (regions : List Region) (route : Route) (a size : ℕ) (access : Permissions)
        → let x = access_of regions route a size access in
        answered (λ w. tt {0}) (place_of size x) ≡ answered (λ xs. tt {0}) (typed_path size x) }
    ensures loads { (regions : List Region) (route : Route) (a size : ℕ) (access : Permissions)
        (blocks : List (List ℕ)) → All IsRegion regions → let x = access_of regions route a size access in
        answered (λ w. bytes_at blocks (cells_of w)) (place_of size x)
        ≡ answered (λ xs. bytes_at blocks (path_cells xs)) (typed_path size x) }
    ensures stores { (regions : List Region) (route : Route) (a size : ℕ) (access : Permissions)
        (bytes : List ℕ) (old new : Host B) → All IsRegion regions
        → let x = access_of regions route a size access in
        Writes B.marks (given (place_of size x)) bytes old new
        → with_pages B.pages new
        ≡ after_write (path_given (typed_path size x)) bytes (with_pages B.pages old) }
{
    accesses_are_by_bytes::<B>();
}

/// A copy to a window that marks its own block's bitmap at its own place, in a host with exact bitmaps, is
/// the copy of its bytes: each takes what the other had before, and its dirt.
///
/// Witness: vm_memory::copy_in
pub fn copies_are_by_bytes<B: ExactBitmap>()
    ensures { (from to : Window) (old new : Host B)
        → to.bitmap ≡ record { id = Block to.block.0; base = to.offset } → to.offset + to.size ≤ 2 ^ 64
        → Copies B.marks from to old new → let n = min from.size to.size in
        with_pages B.pages new
        ≡ after_copy (cells_of (front from n)) (cells_of (front to n)) (with_pages B.pages old) }
{
    mark_is_by_bytes();
}
