//! What holds of bytes in cells, of writes and of dirt, whatever the code does: each function here is a
//! theorem, and does nothing. It calls the theorems that it follows from.
ghost use Rattle.std.specs.Prelude.{◌≡◌, ◌≢◌, ℕ, ◌/◌, ◌^◌, ◌<◌, ◌≤◌, false, true, List, ◌∷◌, ◌++◌, Some, map, length};
ghost use Rattle.std.specs.Prelude.{take, All, AllPairs, Contains};
ghost use Rattle.vm_memory_base.specs.Pages as page_set;
ghost use Rattle.vm_memory_base.specs.Pages.{Pages, PageSet, is_dirty_at};
ghost use Rattle.vm_memory_base.specs.declared.bitmap.BitmapId.{BitmapId};
ghost use Rattle.vm_memory_guest.specs.Access.{Reached};
ghost use Rattle.vm_memory_guest.specs.Dirt.{after_write, bytes_read, pages_at, path_cells, same_page};
ghost use Rattle.vm_memory_guest.specs.Host.{Cell, Host, block_at, byte_at, bytes_at, shape_of, written};
ghost use Rattle.vm_memory_guest.specs.Window.{Window, Writes, span};

use vm_memory_base::Bitmap;
use vm_memory_base::laws::pages::{mark_keeps_shape, marked_bytes_are_dirty};

/// What was written is read back, if each cell is met once.
pub fn written_is_read_back()
    ensures { (cells : List Cell) (bytes : List ℕ) (blocks : List (List ℕ))
        → AllPairs (λ (c d : Cell). c ≢ d) cells
        → All (λ (c : Cell). c.offset < length (block_at blocks c.block)) cells
        → length bytes ≡ length cells → bytes_at (written cells bytes blocks) cells ≡ bytes }
{}

/// Bytes that no cell names stay, and so does the length of each block.
///
/// Witness: vm_memory::runs_keep_images
pub fn other_bytes_stay()
    ensures bytes { (cells : List Cell) (bytes : List ℕ) (blocks : List (List ℕ)) (cell : Cell)
        → (Contains cells cell → ⊥) → byte_at (written cells bytes blocks) cell ≡ byte_at blocks cell }
    ensures lengths { (cells : List Cell) (bytes : List ℕ) (blocks : List (List ℕ))
        → map length (written cells bytes blocks) ≡ map length blocks }
{}

/// The last write to a cell wins.
pub fn last_write_wins()
    ensures { (before after : List Cell) (bytes more : List ℕ) (cell : Cell) (byte : ℕ)
        (blocks : List (List ℕ)) → length before ≡ length bytes → (Contains after cell → ⊥)
        → cell.offset < length (block_at blocks cell.block)
        → byte_at (written (before ++ (cell ∷ after)) (bytes ++ (byte ∷ more)) blocks) cell ≡ byte }
{}

/// A write keeps the tables, how long each block is, and how many bitmaps there are. Writes one after the other
/// are one write.
pub fn writes_keep_shapes<B: Bitmap>()
    ensures tables { (ws : List Window) (bytes : List ℕ) (old new : Host B)
        → Writes B.marks ws bytes old new → new.tables ≡ old.tables }
    ensures shape { (ws : List Window) (bytes : List ℕ) (old new : Host B)
        → Writes B.marks ws bytes old new → shape_of new ≡ shape_of old }
    ensures bitmaps { (ws : List Window) (bytes : List ℕ) (old new : Host B)
        → Writes B.marks ws bytes old new → length new.bitmaps ≡ length old.bitmaps }
    ensures joined { (ws vs : List Window) (bytes more : List ℕ) (old mid new : Host B)
        → length bytes ≡ span ws → Writes B.marks ws bytes old mid → Writes B.marks vs more mid new
        → Writes B.marks (ws ++ vs) (bytes ++ more) old new }
{}

/// What is written to a path is read back over the same path, in a host with exact bitmaps: if the path
/// meets each cell once, each of its cells is a byte of its block, and there is a byte for each of them.
/// Bytes past the path are ignored.
pub fn path_writes_are_read_back()
    ensures { (xs : List Reached) (bytes : List ℕ) (host : Host PageSet)
        → AllPairs (λ (c d : Cell). c ≢ d) (path_cells xs)
        → All (λ (c : Cell). c.offset < length (block_at host.blocks c.block)) (path_cells xs)
        → length xs ≤ length bytes → bytes_read xs (after_write xs bytes host) ≡ take (length xs) bytes }
{}

/// Pages that no byte of the path names stay.
pub fn other_pages_stay()
    ensures { (xs : List Reached) (bytes : List ℕ) (id : BitmapId) (offset : ℕ) (host : Host PageSet)
        → All (λ (x : Reached). x.bitmap ≡ id → same_page (pages_at id host) x.mark offset ≡ false) xs
        → is_dirty_at (pages_at id (after_write xs bytes host)) offset
        ≡ is_dirty_at (pages_at id host) offset }
{
    marked_bytes_are_dirty();
}

/// The page of each byte of the path is dirty after a write, if there is one.
///
/// Witness: vm_memory::runs_keep_images
pub fn named_pages_are_dirty()
    ensures { (xs : List Reached) (bytes : List ℕ) (x : Reached) (host : Host PageSet) (p : Pages)
        → Contains xs x → x.mark < 2 ^ 64 → pages_at x.bitmap host ≡ Some p
        → x.mark / p.page_size < length p.flags
        → is_dirty_at (pages_at x.bitmap (after_write xs bytes host)) x.mark ≡ true }
{
    mark_keeps_shape();
    marked_bytes_are_dirty();
}

/// A write to a path leaves its bytes, whatever it marks, and no write makes a page clean.
///
/// Witness: vm_memory::runs_keep_images
pub fn dirt_stays()
    ensures bytes { (xs : List Reached) (bytes : List ℕ) (host : Host PageSet)
        → (after_write xs bytes host).blocks ≡ written (path_cells xs) bytes host.blocks }
    ensures pages { (xs : List Reached) (bytes : List ℕ) (id : BitmapId) (offset : ℕ) (host : Host PageSet)
        → is_dirty_at (pages_at id host) offset ≡ true
        → is_dirty_at (pages_at id (after_write xs bytes host)) offset ≡ true }
{
    marked_bytes_are_dirty();
}

/// A write to a path keeps the tables, and the page size and the number of pages of each bitmap.
pub fn path_writes_keep_shapes()
    ensures tables { (xs : List Reached) (bytes : List ℕ) (host : Host PageSet)
        → (after_write xs bytes host).tables ≡ host.tables }
    ensures shape { (xs : List Reached) (bytes : List ℕ) (host : Host PageSet)
        → shape_of (after_write xs bytes host) ≡ shape_of host }
    ensures bitmaps { (xs : List Reached) (bytes : List ℕ) (host : Host PageSet)
        → map page_set.shape (after_write xs bytes host).bitmaps ≡ map page_set.shape host.bitmaps }
    ensures spaces { (xs : List Reached) (bytes : List ℕ) (host : Host PageSet)
        → map page_set.shape (after_write xs bytes host).spaces ≡ map page_set.shape host.spaces }
{
    mark_keeps_shape();
}
