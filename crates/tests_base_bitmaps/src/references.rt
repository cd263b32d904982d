//! A bitmap of words with one owner against one truth value a page.

use crate::flags::{Flags, bytes_of};
use std::alloc::{AllocError, Global};
use std::num::NonZeroUsize;
use std::test::Fail;
use test_text::next_number;
use vm_memory_base::{Bitmap, ExactBitmap, ExclusiveBitmap};

// One mark, reset or harvest on both: whether anything changed, and whether both told the same, and have the same dirty
// pages then.
fn step(
    alloc: Global,
    fast: &mut ExclusiveBitmap,
    slow: &mut Flags,
    (kind, offset, len): (u64, usize, usize),
) -> Result<(bool, bool), AllocError> {
    let pages = slow.pages(alloc)?;
    let words = slow.words(alloc)?;
    let is_same = match kind {
        0..=2 => {
            let taken = fast.harvest(alloc)?;
            taken.as_slice() == pages.as_slice()
        }
        3..=5 => {
            let taken = fast.get_and_reset(alloc)?;
            taken.as_slice() == words.as_slice()
        }
        6 => {
            fast.reset();
            true
        }
        7..=39 => {
            fast.mark_dirty(offset, len);
            true
        }
        _ => {
            fast.reset_addr_range(offset, len);
            true
        }
    };
    let changed = match kind {
        0..=6 => slow.set(0, usize::MAX, false),
        7..=39 => slow.set(offset, len, true),
        _ => slow.set(offset, len, false),
    };
    let told = fast.dirty_pages(alloc)?;
    let wanted = slow.pages(alloc)?;
    let dirty = slow.flags.get(offset / slow.page_size.get()) == Some(&true);
    let agree = told.as_slice() == wanted.as_slice() && fast.dirty_at(offset) == dirty;
    Ok((changed, is_same && agree))
}

#[test]
fn words_have_the_pages_of_truth_values(rt: HostRuntime) -> Result<(), Fail> {
    let alloc = rt.alloc();
    let page_size = NonZeroUsize::new(7).ok_or("a page has no bytes")?;
    let mut fast = ExclusiveBitmap::new(alloc, 7 * 1000 - 3, page_size)?;
    let flags = vec![in alloc; false; 1000]?;
    let mut slow = Flags { flags, page_size };
    let mut state = 1;
    let mut changes = 0u32;
    // Steps that change nothing come on top.
    for number in 0..20_000 {
        if changes == 10_000 {
            break;
        }
        let kind = next_number(&mut state) % 64;
        let (offset, len) = bytes_of(state);
        let (changed, is_same) = step(alloc, &mut fast, &mut slow, (kind, offset, len))?;
        assert!(rt; is_same, "step {number}");
        changes = changes.saturating_add(changed as u32);
    }
    assert!(rt; changes == 10_000, "{changes} changes");
    Ok(())
}
