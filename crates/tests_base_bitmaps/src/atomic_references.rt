//! A bitmap that is marked through a shared reference against one truth value a page.

use crate::flags::{Flags, bytes_of};
use std::alloc::Global;
use std::num::NonZeroUsize;
use std::test::Fail;
use test_text::next_number;
use vm_memory_base::{AtomicBitmap, Bitmap, SharedBitmap};

// One call on both: what the bitmap took, if it is one that takes. A page by its number may lie after the last.
fn step(
    alloc: Global,
    fast: &mut AtomicBitmap,
    slow: &mut Flags,
    (kind, offset, len): (u64, usize, usize),
) -> Result<Option<Vec<u64>>, Fail> {
    let page = offset % 1200;
    let start = page.saturating_mul(slow.page_size.get());
    match kind {
        0 => {
            slow.set(0, usize::MAX, false);
            return Ok(Some(fast.get_and_reset(alloc)?));
        }
        1 => {
            slow.set(0, usize::MAX, false);
            fast.reset();
        }
        2..=9 => {
            slow.set(start, 1, true);
            fast.set_bit(page);
        }
        10..=19 => {
            slow.set(start, 1, false);
            fast.reset_bit(page);
        }
        20..=29 => {
            slow.set(offset, len, true);
            fast.set_addr_range(offset, len);
        }
        30..=34 => {
            slow.set(offset, len, true);
            fast.mark_shared(offset, len);
        }
        35..=39 => {
            slow.set(offset, len, true);
            fast.mark_dirty(offset, len);
        }
        _ => {
            slow.set(offset, len, false);
            fast.reset_addr_range(offset, len);
        }
    }
    Ok(None)
}

// Makes a step, and fails where other pages are taken, or where both do not have the same dirty pages then, or tell
// other things of a page and of a byte.
fn expect_step(
    alloc: Global,
    fast: &mut AtomicBitmap,
    slow: &mut Flags,
    number: usize,
    call: (u64, usize, usize),
) -> Result<(), Fail> {
    let wanted = slow.words(alloc)?;
    if let Some(taken) = step(alloc, fast, slow, call)?
        && taken.as_slice() != wanted.as_slice()
    {
        return Err(Fail::new(format_args!("step {number} takes {taken:?}")));
    }
    let more = number % 67;
    if number % 400 == 399 && fast.byte_size().checked_add(more).is_some() {
        fast.enlarge(more)?;
        let pages = fast.byte_size().div_ceil(slow.page_size.get());
        slow.flags.resize(pages, false)?;
    }
    let copy = fast.clone()?;
    let told = copy.get_and_reset(alloc)?;
    let wanted = slow.words(alloc)?;
    let page = call.1 / slow.page_size.get();
    let dirty = slow.flags.get(page) == Some(&true);
    let is_told = fast.is_addr_set(call.1) == dirty
        && fast.dirty_at(call.1) == dirty
        && fast.is_bit_set(page) == dirty;
    if told.as_slice() != wanted.as_slice() || !is_told || fast.len() != slow.flags.len() {
        return Err(Fail::new(format_args!("step {number}")));
    }
    Ok(())
}

#[test]
fn calls_have_the_pages_of_truth_values(rt: HostRuntime) -> Result<(), Fail> {
    let alloc = rt.alloc();
    let page_size = NonZeroUsize::new(7).ok_or("a page has no bytes")?;
    let mut fast = AtomicBitmap::new(alloc, 7 * 1000 - 3, page_size)?;
    let flags = vec![in alloc; false; 1000]?;
    let mut slow = Flags { flags, page_size };
    let mut state = 1;
    for number in 0..10_000 {
        let kind = next_number(&mut state) % 64;
        let (offset, len) = bytes_of(state);
        expect_step(alloc, &mut fast, &mut slow, number, (kind, offset, len))?;
    }
    Ok(())
}
