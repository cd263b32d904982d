//! How much one call copies: at most 2^20 bytes of pages, zeros among them.

use crate::guests::{guest_of, hear_ready, put};
use live_migration::{Options, Sender};
use std::alloc::Global;
use std::test::Fail;
use vm_memory_base::{ExactBitmap, GuestAddress};
use vm_memory_guest::{BlockId, HostMemory};

// The length of a block and of its pages, of how many pages one has a byte that is not zero, or 0 if none has, and how
// many pages the first call copies, and how many bytes are sent then.
const CASES: [(usize, usize, usize, usize, usize); 5] = [
    // 2^20 bytes of zeros.
    (0x14_0000, 0x1000, 0, 0x100, 0x100 * 20),
    // As many pages that follow one another go in one frame.
    (0x14_0000, 0x1000, 1, 0x100, 0x10_0000 + 20),
    // Pages that do not follow one another have a frame each: here of 36 bytes, and of 20 for one of zeros between two.
    // Before the last one 2^20 - 32 bytes wait, and then there is no room for 16 more.
    // The block has more than 2^16 pages.
    (0x10_0010, 0x10, 2, 2 * 18_724 + 1, 18_724 * 56 + 36),
    // Two pages have more than 2^20 bytes.
    (0x18_0000, 0x8_0001, 0, 1, 20),
    // One page of the greatest size.
    (0x10_0001, 0x10_0000, 1, 1, 0x10_0000 + 20),
];

// Writes one of so many pages. The pages that the first call copies then, and the bytes that are sent.
fn first_batch<B: ExactBitmap>(
    alloc: Global,
    host: &mut HostMemory<B>,
    places: &[(BlockId, GuestAddress)],
    one_of: usize,
    page_size: usize,
) -> Result<(usize, usize), Fail> {
    let step = one_of.saturating_mul(page_size);
    let mut at = 0usize;
    for _ in 0..u64::MAX {
        if step == 0 || !put(host, BlockId(0), at, 1) {
            break;
        }
        at = at.saturating_add(step);
    }
    let mut header = Vec::new(alloc);
    let mut sender = Sender::begin(alloc, host, places, Options::default(), &mut header)?;
    hear_ready(&mut sender)?;
    sender.harvest(alloc, host)?;
    let count = sender.copy_batch(host)?;
    let mut stream = Vec::new(alloc);
    sender.send_batch(&mut stream)?;
    Ok((count, stream.len()))
}

#[test]
fn batches_are_bounded(rt: HostRuntime) -> Result<(), Fail> {
    for (case, (len, page_size, one_of, pages, bytes)) in CASES.iter().enumerate() {
        let (mut host, places) = guest_of(rt.alloc(), &[(*len, *page_size)])?;
        let (count, sent) = first_batch(rt.alloc(), &mut host, &places, *one_of, *page_size)?;
        assert!(rt;
            count == *pages && sent == *bytes,
            "case {case}: {count} pages, {sent} bytes"
        );
    }
    Ok(())
}
