//! What calls over the text of a chain do, address by address: each function here is a theorem and does nothing. It
//! calls the theorems that it follows from.
ghost use Rattle.std.specs.Prelude.{◌≡◌, ◌⊎◌, ◌<◌, ◌++◌, ℕ, Bool, List, [], Some, length, map, flat_map, slice_get};
ghost use Rattle.vm_memory_base.specs.Address.{numbers};
ghost use Rattle.vm_memory_base.specs.declared.iotlb.Permissions.{Permissions};
ghost use Rattle.vm_memory_guest.specs.Access.{Reached, Reaches, meets, windows};
ghost use Rattle.vm_memory_guest.specs.Dirt.{after_write, with_pages};
ghost use Rattle.vm_memory_guest.specs.Host.{Host};
ghost use Rattle.vm_memory_guest.specs.Memory.{Route};
ghost use Rattle.vm_memory_guest.specs.Region.{Region};
ghost use Rattle.vm_memory_guest.specs.Window.{Window, Writes};
ghost use Rattle.vm_memory_device.specs.Chain.{AreWindowsOf, Entry, entries_from, text, text_path, text_windows};
ghost use Rattle.vm_memory_device.specs.declared.chain.Segment.{Segment};

use vm_memory_base::ExactBitmap;
use vm_memory_guest::laws::accesses::writes_to_the_windows_of_a_path_are_by_bytes;

/// The text of segments has their addresses, in order. Each byte that a call reaches is the one that the address at the
/// same index of the text leads to. The bytes of a segment have the windows of one access, which is a partial access if
/// no later segment is reached. And a write to a host with exact bitmaps is the write of these bytes, one after the
/// other.
pub fn calls_move_the_next_addresses<B: ExactBitmap>()
    ensures text { (segments : List Segment)
        → map (λ e. e.address) (text segments) ≡ flat_map (λ s. numbers s.addr.0 s.len) segments }
    ensures next { (regions : List Region) (route : Route) (access : Permissions) (begins : Bool) (es : List Entry)
        (i : ℕ) (x : Reached) → slice_get (text_path regions route access begins es) i ≡ Some x
        → (e : Entry) × (slice_get es i ≡ Some e) × (meets regions route e.address 0 ≡ Reaches x) }
    ensures windows { (s : Segment) (es : List Entry) (xs ys : List Reached)
        → (length xs ≡ s.len) ⊎ ((length xs < s.len) × (ys ≡ []))
        → text_windows (entries_from s.addr.0 s.len ++ es) (xs ++ ys) ≡ windows xs ++ text_windows es ys }
    ensures written { (xs : List Reached) (ws : List Window) (bytes : List ℕ) (old new : Host B)
        → AreWindowsOf xs ws → Writes B.marks ws bytes old new
        → with_pages B.pages new ≡ after_write xs bytes (with_pages B.pages old) }
{
    writes_to_the_windows_of_a_path_are_by_bytes::<B>();
}
