//! What loads leave of a host, from any image: each function here is a theorem, and does nothing.
ghost use Rattle.std.specs.Prelude.{◌≡◌, ℕ, List, ◌-◌, ◌≤◌, Contains, Result, Ok, Some, length};
ghost use Rattle.vm_memory_guest.specs.Dirt.{with_pages};
ghost use Rattle.vm_memory_guest.specs.Host.{Host, Cell};
ghost use Rattle.vm_memory_guest.specs.Memory.{Memory};
ghost use Rattle.linux_loader.specs.Load.{LoadsAll};
ghost use Rattle.linux_loader.specs.Loaded.{IsDirtySegment, IsUnnamed, Keeps, blocks_after};
ghost use Rattle.linux_loader.specs.declared.error.LoaderError.{LoaderError};
ghost use Rattle.linux_loader.specs.declared.segment.Segment.{Segment};

use crate::image::KernelImage;
use vm_memory_base::laws::pages::{mark_is_by_bytes, mark_keeps_shape, marked_bytes_are_dirty};
use vm_memory_base::{Bitmap, ExactBitmap};

/// However a load of segments ends, a byte that none of them names is as it was, and so are the tables of the host.
pub fn loads_keep_what_no_segment_names<F: KernelImage, B: Bitmap>()
    ensures { (m : Memory) (segments : List Segment) (image after : F) (old new : Host B)
        (answer : Result (Unit {0}) LoaderError) (c : Cell)
        → LoadsAll F.bytes F.source F.reads F.known_left B.marks m segments (image, old) answer (after, new)
        → ((s : Segment) → Contains segments s → IsUnnamed m old c s) → Keeps c old new }
{}

/// After a successful load each byte of each segment is dirty, if the bitmaps are exact.
pub fn loaded_segments_are_dirty<F: KernelImage, B: ExactBitmap>()
    ensures { (m : Memory) (segments : List Segment) (image after : F) (old new : Host B)
        → LoadsAll F.bytes F.source F.reads F.known_left B.marks m segments (image, old) (Ok tt) (after, new)
        → (s : Segment) → Contains segments s → IsDirtySegment m old s (with_pages B.pages new) }
{
    mark_is_by_bytes();
    mark_keeps_shape();
    marked_bytes_are_dirty();
}

/// After a successful load of an image whose bytes are known, and which has those of each segment, memory has them:
/// for each segment, one after the other, those of the image, and zeros after them. No other byte has changed.
pub fn loaded_bytes_are_the_images<F: KernelImage, B: Bitmap>()
    ensures { (m : Memory) (segments : List Segment) (all : List ℕ) (image after : F) (old new : Host B)
        → LoadsAll F.bytes F.source F.reads F.known_left B.marks m segments (image, old) (Ok tt) (after, new)
        → F.bytes image ≡ Some all
        → ((s : Segment) → Contains segments s → s.file_size ≤ length all - s.file_offset)
        → new.blocks ≡ blocks_after m old all segments old.blocks }
{}
