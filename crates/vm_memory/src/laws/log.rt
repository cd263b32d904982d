//! What holds of every write of a back end: the function here is a theorem, and does nothing. It calls the theorems
//! that it follows from.
ghost use Rattle.std.specs.Prelude.{◌≡◌, ◌≢◌, ◌^◌, ◌<◌, ◌/◌, ℕ, List, length, Some, true};
ghost use Rattle.vm_memory_base.specs.Pages.{Pages, PageSet, is_dirty_at};
ghost use Rattle.vm_memory_base.specs.declared.bitmap.BitmapId.TheVariants.{Block};
ghost use Rattle.vm_memory_guest.specs.Access.{Reached};
ghost use Rattle.vm_memory_guest.specs.Copy.{dirtied_cells};
ghost use Rattle.vm_memory_guest.specs.Dirt.{after_write, pages_at, path_cells};
ghost use Rattle.vm_memory_guest.specs.Host.{Cell, Host, byte_at};

use crate::laws::machine::marks_change_bitmaps_alone;
use vm_memory_guest::laws::effects::dirt_stays;

/// A write goes through an I/O table or not, and then the pages that it reached are marked in the bitmaps of their
/// blocks, as `Machine::mark_reached` does it. Then each byte that the write changed lies on a dirty page, if its
/// bitmap has the page.
pub fn changed_bytes_are_marked()
    ensures { (xs : List Reached) (bytes : List ℕ) (host : Host PageSet) (c : Cell) (p : Pages)
        → byte_at (after_write xs bytes host).blocks c ≢ byte_at host.blocks c → c.offset < 2 ^ 64
        → pages_at (Block c.block) (after_write xs bytes host) ≡ Some p → c.offset / p.page_size < length p.flags
        → is_dirty_at (pages_at (Block c.block) (dirtied_cells (path_cells xs) (after_write xs bytes host))) c.offset
        ≡ true }
{
    dirt_stays();
    marks_change_bitmaps_alone();
}
