//! A guest: the blocks of its memory, what they begin with, and how its pages are written.
ghost use Rattle.std.specs.Prelude.{◌≡◌, ◌+◌, ◌<◌, ◌≤◌, IfSome};

use crate::options::Load;
use anyhow::{Context, Result};
use rand_core::{Rng, SeedableRng};
use rand_xoshiro::Xoshiro256PlusPlus;
use sha2::{Digest, Sha256};
use std::alloc::{AllocError, Global};
use std::num::NonZeroUsize;
use vm_memory_base::{BitmapId, ExactBitmap, ExclusiveBitmap, GuestAddress};
use vm_memory_guest::{BlockId, HostMemory};

pub type Host = HostMemory<ExclusiveBitmap>;

// Memory lies as on a PC: the first MiB by itself, the rest up to 3 GiB, and what is left from 4 GiB on.
const LOW: usize = 0x10_0000;

const HOLE: usize = 0xc000_0000;

const AFTER_HOLE: u64 = 0x1_0000_0000;

/// Where the blocks of a guest lie, and how many pages they have, which are numbered from 0 through all blocks.
#[derive(Drop)]
pub struct Layout {
    pub places: Vec<(BlockId, GuestAddress)>,
    pub page_size: NonZeroUsize,
    pub pages: usize,
}

// A page, as a place in its block.
#[derive(Clone, Copy)]
struct Spot {
    block: BlockId,
    start: usize,
    len: usize,
}

// Makes a block of zeros after the others.
fn add_block(
    alloc: Global,
    host: &mut Host,
    layout: &mut Layout,
    address: u64,
    len: usize,
) -> Result<()> {
    if len == 0 {
        return Ok(());
    }
    let bitmap = ExclusiveBitmap::new(alloc, len, layout.page_size)?;
    let block = host.new_block_with(len, bitmap)?;
    layout.places.push((block, GuestAddress(address)))?;
    let pages = len.div_ceil(layout.page_size.get());
    layout.pages = layout.pages.saturating_add(pages);
    Ok(())
}

/// A guest of zeros, none of whose pages is dirty.
pub fn guest_of(alloc: Global, load: &Load) -> Result<(Host, Layout)> {
    let page_size = NonZeroUsize::new(load.page_size).context("a page has no bytes")?;
    let mut host = Host::new(alloc);
    let mut layout = Layout {
        places: Vec::new(alloc),
        page_size,
        pages: 0,
    };
    let low = load.size.min(HOLE);
    let high = load.size.saturating_sub(HOLE);
    add_block(alloc, &mut host, &mut layout, 0, low.min(LOW))?;
    let rest = low.saturating_sub(LOW);
    add_block(alloc, &mut host, &mut layout, LOW as u64, rest)?;
    add_block(alloc, &mut host, &mut layout, AFTER_HOLE, high)?;
    Ok((host, layout))
}

// Where the page of this number lies, if there is one.
fn spot_of(host: &Host, layout: &Layout, page: usize) -> Option<Spot> {
    let page_size = layout.page_size.get();
    let mut left = page;
    for (block, _) in layout.places.as_slice() {
        let len = host.shape().block_len(*block)?;
        let pages = len.div_ceil(page_size);
        if left < pages {
            let start = left.saturating_mul(page_size);
            return Some(Spot {
                block: *block,
                start,
                len: page_size.min(len.saturating_sub(start)),
            });
        }
        left = left.saturating_sub(pages);
    }
    None
}

// Writes bytes into a block, if it has the place, and marks them.
fn put(host: &mut Host, block: BlockId, start: usize, bytes: &[u8]) {
    if host.shape().has_place(block, start, bytes.len()) {
        let window = host.window(block, start, bytes.len());
        host.write(&window, bytes);
    }
}

// Adds 2 to a byte of a block, if it has it. What several threads add does not depend on their order, and a byte that
// is odd stays so.
fn add_two(host: &mut Host, block: BlockId, at: usize) {
    if host.shape().has_place(block, at, 1) {
        let window = host.window(block, at, 1);
        let byte = host.bytes(&window).first().copied().unwrap_or(0);
        host.write(&window, &[byte.wrapping_add(2)]);
    }
}

// The last page before one that is not among the zeros, or that page: of each eight the last `zeros` stay zero.
fn written_page(page: usize, zeros: u64) -> usize {
    let last = 7usize.saturating_sub(zeros as usize);
    let past = (page % 8).saturating_sub(last);
    page.saturating_sub(past)
}

// Fills a page with random bytes, of which the first is odd.
fn fill_page(host: &mut Host, spot: &Spot, rng: &mut Xoshiro256PlusPlus, bytes: &mut [u8]) {
    rng.fill_bytes(bytes);
    if let Some(first) = bytes.first_mut() {
        *first |= 1;
    }
    let count = spot.len.min(bytes.len());
    put(host, spot.block, spot.start, &bytes[..count]);
}

/// Fills the pages of a guest with random bytes, except those that stay zero.
pub fn fill(
    alloc: Global,
    host: &mut Host,
    layout: &Layout,
    load: &Load,
) -> Result<(), AllocError> {
    let mut rng = Xoshiro256PlusPlus::seed_from_u64(load.seed);
    let mut bytes = vec![in alloc; 0u8; layout.page_size.get()]?;
    for page in 0..layout.pages {
        if written_page(page, load.zeros) != page {
            continue;
        }
        if let Some(spot) = spot_of(host, layout, page) {
            fill_page(host, &spot, &mut rng, bytes.as_mut_slice());
        }
    }
    Ok(())
}

// A number below another, or 0.
fn below(rng: &mut Xoshiro256PlusPlus, limit: usize) -> usize {
    if limit == 0 {
        return 0;
    }
    (rng.next_u64() % limit as u64) as usize
}

/// Writes a byte of a random page that is not one of zeros.
pub fn write_page(host: &mut Host, layout: &Layout, rng: &mut Xoshiro256PlusPlus, zeros: u64) {
    let page = written_page(below(rng, layout.pages), zeros);
    if let Some(spot) = spot_of(host, layout, page) {
        let at = below(rng, spot.len);
        add_two(host, spot.block, spot.start.saturating_add(at));
    }
}

/// How many pages of a guest are dirty.
pub fn dirty_pages(alloc: Global, host: &Host, layout: &Layout) -> Result<usize, AllocError> {
    let mut count = 0usize;
    for (block, _) in layout.places.as_slice() {
        let id = BitmapId::Block(block.0);
        if host.shape().has_bitmap(id) {
            let dirty = host.bitmap(id).dirty_pages(alloc)?.len();
            count = count.saturating_add(dirty);
        }
    }
    Ok(count)
}

// The SHA-256 of a block, or of no bytes where there is none.
fn digest_of(host: &Host, block: BlockId) -> [u8; 32] {
    let mut hasher = Sha256::new();
    let len = host.shape().block_len(block).unwrap_or(0);
    if host.shape().has_place(block, 0, len) {
        let window = host.window(block, 0, len);
        hasher.update(host.bytes(&window));
    }
    hasher.finalize()
}

/// The SHA-256 of each of a number of blocks, from the one of number `base` on.
pub fn digests_of(
    alloc: Global,
    host: &Host,
    base: usize,
    count: usize,
) -> Result<Vec<[u8; 32]>, AllocError> {
    let mut digests = Vec::new(alloc);
    for k in 0..count {
        digests.push(digest_of(host, BlockId(base.saturating_add(k))))?;
    }
    Ok(digests)
}
