//! Marks of a `TrackedBitmap`, of which it is proved that each is in a harvest or left.
ghost use Rattle.std.specs.Prelude.{◌≡◌, ◌⊎◌, ◌+◌, ◌*◌, ◌<◌, ℕ, Contains, length, IfOk};
ghost use Rattle.vm_memory_base.specs.Notes.{IsNoted};
ghost use Rattle.vm_memory_base.specs.Paging.{bytes_of, count_of};
ghost use Rattle.vm_memory_base.specs.Tracked.{MarksRange};
ghost use Rattle.vm_memory_base.specs.declared.bitmap.paging.Paging.{Paging};
ghost use Rattle.vm_memory_base.specs.declared.bitmap.tracked.view.View.{View};
ghost use Rattle.live_migration.specs.Words.{pages_set};

use live_migration::laws::marks_are_harvested_or_left;
use std::alloc::Global;
use std::num::NonZeroUsize;
use std::test::Fail;
use test_regions::next_marker;
use vm_memory_base::TrackedBitmap;

// Marks a byte before a harvest and one after it, and closes the bitmap. Answers the words of the harvest, and those
// that are left.
fn harvest_and_close(
    alloc: Global,
    len: usize,
    first: usize,
    second: usize,
) -> Result<(Vec<u32>, Vec<u32>), Fail>
    ensures { IfOk result (λ r. (p : Paging) × (bytes_of p ≡ len) × (start mid marked : View)
        × MarksRange p first 1 start mid × MarksRange p second 1 mid marked
        × ((word round page : ℕ) → IsNoted word round page marked.marks → word < length r.1.items → page < 32
        → 32 * word + page < count_of p → Contains (pages_set (count_of p) r.0.items) (32 * word + page)
        ⊎ Contains (pages_set (count_of p) r.1.items) (32 * word + page))) }
{
    marks_are_harvested_or_left();
    let size = NonZeroUsize::new(0x10).ok_or("a page has no bytes")?;
    let (bitmap, mut harvester, mut markers) = TrackedBitmap::new(alloc, len, size, 1)?;
    let mut marker = next_marker(&bitmap, &mut markers).ok_or("there is no marker")?;
    bitmap.mark(&mut marker, first, 1);
    let words = bitmap.get_and_reset(&mut harvester, alloc)?;
    bitmap.mark(&mut marker, second, 1);
    bitmap.join(&mut harvester, marker);
    match bitmap.close(harvester, alloc) {
        Ok(left) => Ok((words, left)),
        Err(_) => Err(Fail::new("no memory is left")),
    }
}

#[test]
fn marks_are_harvested_or_left_over(rt: HostRuntime) -> Result<(), Fail> {
    // Page 2 of the first word before the harvest, and page 3 of the second word after it.
    let (words, left) = harvest_and_close(rt.alloc(), 0x400, 0x2f, 0x230)?;
    assert!(rt; words.as_slice() == [4, 0].as_slice());
    assert!(rt; left.as_slice() == [0, 8].as_slice());
    Ok(())
}
