//! Pages of a block that are taken and copied.
ghost use Rattle.std.specs.Prelude.{◌≡◌, ◌≢◌, true, false, ℕ, ◌+◌, ◌*◌, ◌^◌, ◌<◌, ◌≤◌, ◌↔◌, IsTrue, [], ◌∷◌, ◌⊎◌};
ghost use Rattle.std.specs.Prelude.{length, take, Some, IfErr, IfOk, OnOk, OnErr, slice_index};
ghost use Rattle.std.specs.Int.{div_ceil};
ghost use Rattle.vm_memory_base.specs.Address.{numbers};
ghost use Rattle.vm_memory_guest.specs.Host as names;
ghost use Rattle.vm_memory_guest.specs.Host.{Holds, block_at, shape_of};
ghost use Rattle.live_migration.specs.Sending.{AreMarkedAgain, CopiesRuns, Harvests, IsAsItWas, IsMarkedAgain, IsRun};
ghost use Rattle.live_migration.specs.Sending.{IsTracked, IsWrittenPage, MarksBlock, TakesPages};

use crate::frame::{Frame, MOST_PAGE_BYTES};
use crate::header::BlockEntry;
use crate::refusal::Refusal;
use crate::zeros::are_zero;
use std::alloc::{AllocError, Global};
use thiserror::Error;
use vm_memory_base::{Bitmap, BitmapId, ExactBitmap};
use vm_memory_guest::laws::host::parts_of_a_block_are_held;
use vm_memory_guest::{BlockId, HostMemory};

/// Why a call of a sender was refused.
#[derive(Debug, Drop, Error)]
pub enum SendError {
    /// The blocks do not make a header.
    #[error("{0}")]
    Header(Refusal),
    /// A block has no bitmap, or one whose pages do not cover it.
    #[error("block is not tracked")]
    Untracked,
    /// The host has no such block, or it has another length or page size than at the beginning.
    #[error("another block than at the beginning")]
    Changed,
    /// A block comes twice.
    #[error("block comes twice")]
    Twice,
    /// The name or the state of a section is too long.
    #[error("section is too long")]
    Section,
    /// The call is out of order: pages or bytes still wait, or the round has no more blocks, or has some.
    #[error("call out of order")]
    Order,
    /// The receiver refused.
    #[error("refused: {0}")]
    Refused(Refusal),
    /// The receiver answered with what is not a reply.
    #[error("unknown reply")]
    Reply,
    /// Writing to the stream, or reading the reply, failed.
    #[error("stream failed")]
    Failed,
    /// An allocation failed.
    #[error("out of memory")]
    Memory,
}

/// A block of a sender's host, and what the header says of it.
#[derive(Clone, Copy, Debug)]
pub struct Target {
    pub block: BlockId,
    pub entry: BlockEntry,
}

// The bytes of a block.
pub(super) fn whole_block<B>(host: &HostMemory<B>, block: BlockId) -> &[u8]
    requires { Holds (shape_of host.now) (names.Block block.0 ∷ []) }
    ensures { result.now ≡ block_at host.now.blocks block.0 }
{
    parts_of_a_block_are_held::<B>();
    let window = host.window(block, 0, host.block_len(block));
    host.bytes(&window)
}

// Whether a block has a page of this number, and a byte of it that is not zero.
fn is_written(page_size: usize, bytes: &[u8], page: usize) -> bool
    ensures { IsTrue result ↔ IsWrittenPage page_size bytes.now page }
{
    let start = page.saturating_mul(page_size);
    if start >= bytes.len() {
        return false;
    }
    let end = start.saturating_add(page_size).min(bytes.len());
    !are_zero(&bytes[start..end])
}

// Whether a page is this many after another, and has a byte that is not zero.
fn follows(page_size: usize, bytes: &[u8], first: usize, count: usize, page: usize) -> bool
    ensures at { result ≡ true → page ≡ first + count }
    ensures written { result ≡ true → IsWrittenPage page_size bytes.now page }
{
    first.checked_add(count) == Some(page) && is_written(page_size, bytes, page)
}

// How many of these pages follow a page, one after the other, and have bytes that are not zero.
fn pages_in_a_row(page_size: usize, bytes: &[u8], first: usize, pages: &[usize]) -> usize
    ensures count { result ≤ length pages.now }
    ensures run { IsRun page_size bytes.now (first + 1) (take result pages.now) }
{
    for (i, page) in pages.iter().enumerate() {
        if !follows(page_size, bytes, first, i + 1, *page) {
            return i;
        }
    }
    pages.len()
}

// Copies a page of zeros after what waits to be sent, and nothing for a page past the end of the block.
fn copy_zero(
    batch: &mut Vec<u8>,
    number: u32,
    page_size: usize,
    bytes: &[u8],
    page: usize,
) -> Result<(), AllocError>
    requires { IsWrittenPage page_size bytes.now page → ⊥ }
    ensures ok { OnOk result (CopiesRuns page_size number bytes.now (page ∷ []) batch.old.items batch.new.items) }
    ensures len { length batch.new.items ≤ length batch.old.items + 20 }
    ensures err { OnErr result (batch.new.items ≡ batch.old.items) }
{
    if page.saturating_mul(page_size) >= bytes.len() {
        return Ok(());
    }
    let frame = Frame::ZeroPage {
        block: number,
        page: page as u64,
    };
    frame.encode(batch)
}

// Copies the bytes of pages that follow one another after what waits to be sent, as one frame.
fn copy_run(
    batch: &mut Vec<u8>,
    number: u32,
    page_size: usize,
    bytes: &[u8],
    run: &[usize],
) -> Result<(), AllocError>
    requires page { 0 < page_size }
    requires some { 0 < length run.now }
    requires most { length run.now * page_size ≤ 2 ^ 20 }
    requires run { IsRun page_size bytes.now (slice_index run.now 0) run.now }
    ensures ok { OnOk result (CopiesRuns page_size number bytes.now run.now batch.old.items batch.new.items) }
    ensures len { length batch.new.items ≤ length batch.old.items + (20 + length run.now * page_size) }
    ensures err { OnErr result (batch.new.items ≡ batch.old.items) }
{
    let first = run[0];
    let start = first.saturating_mul(page_size).min(bytes.len());
    let rest = &bytes[start..];
    let part = &rest[..rest.len().min(run.len() * page_size)];
    let frame = Frame::Pages {
        block: number,
        first: first as u64,
        bytes: part,
    };
    frame.encode(batch)
}

// Copies the first of these pages after what waits to be sent, and those that follow it in one frame with it. It
// returns how many were copied.
fn copy_first(
    batch: &mut Vec<u8>,
    number: u32,
    page_size: usize,
    bytes: &[u8],
    pages: &[usize],
) -> Result<usize, AllocError>
    requires page { 0 < page_size }
    requires some { 0 < length pages.now }
    requires most { length pages.now * page_size ≤ 2 ^ 20 }
    ensures count { IfOk result (λ count. count ≤ length pages.now) }
    ensures copied { IfOk result (λ count. CopiesRuns page_size number bytes.now (take count pages.now) batch.old.items
        batch.new.items) }
    ensures len { length batch.new.items ≤ length batch.old.items + (20 + length pages.now * page_size) }
    ensures err { OnErr result (batch.new.items ≡ batch.old.items) }
{
    let first = pages[0];
    if !is_written(page_size, bytes, first) {
        copy_zero(batch, number, page_size, bytes, first)?;
        return Ok(1);
    }
    let count = 1 + pages_in_a_row(page_size, bytes, first, &pages[1..]);
    copy_run(batch, number, page_size, bytes, &pages[..count])?;
    Ok(count)
}

// The numbers of all pages of so many bytes.
pub(super) fn all_pages(
    alloc: Global,
    len: usize,
    page_size: usize,
) -> Result<Vec<usize>, AllocError>
    requires { 0 < page_size }
    ensures { IfOk result (λ pages. pages.items ≡ numbers 0 (div_ceil len page_size)) }
{
    let count = len.div_ceil(page_size);
    let mut pages = Vec::with_capacity(alloc, count)?;
    for page in 0..count {
        pages.push(page)?;
    }
    Ok(pages)
}

// Whether a host has a block as it was at the beginning.
pub(super) fn has_target<B: Bitmap>(host: &HostMemory<B>, target: &Target) -> bool
    ensures held { result ≡ true → Holds (shape_of host.now) (names.Block target.now.block.0 ∷ []) }
    ensures len { result ≡ true → length (block_at host.now.blocks target.now.block.0) ≡ target.now.entry.len }
    ensures other { result ≡ false → IsAsItWas target.now host.now → ⊥ }
{
    match host.shape().block_len(target.block) {
        Some(len) => len as u64 == target.entry.len,
        None => false,
    }
}

// Whether so many pages of this size cover so many bytes.
fn covers(page_size: usize, count: usize, len: u64) -> bool
    ensures { result ≡ true → len ≤ count * page_size }
{
    match count.checked_mul(page_size) {
        Some(bytes) => len <= bytes as u64,
        None => true,
    }
}

// Whether a block's bitmap tracks all of it, in pages of the size that the header says.
fn check_pages<B: ExactBitmap>(host: &HostMemory<B>, target: &Target) -> Result<(), SendError>
    requires held { Holds (shape_of host.now) (names.Block target.now.block.0 ∷ []) }
    requires len { length (block_at host.now.blocks target.now.block.0) ≡ target.now.entry.len }
    ensures tracked { OnOk result (IsTracked B.pages target.now host.now) }
    ensures error { IfErr result (λ e. (e ≡ SendError.Untracked) ⊎ (e ≡ SendError.Changed)) }
{
    match host.bitmap(BitmapId::Block(target.block.0)).shape() {
        None => Err(SendError::Untracked),
        Some((page_size, count)) => {
            if page_size == 0 || page_size as u64 != target.entry.page_size {
                return Err(SendError::Changed);
            }
            if !covers(page_size, count, target.entry.len) {
                return Err(SendError::Untracked);
            }
            Ok(())
        }
    }
}

// Takes the dirty pages of a block's bitmap, so that none is dirty.
fn harvest_block<B: ExactBitmap>(
    alloc: Global,
    host: &mut HostMemory<B>,
    block: BlockId,
) -> Result<Vec<usize>, AllocError>
    requires { Holds (shape_of host.old) (names.Block block.0 ∷ []) }
    ensures ok { IfOk result (λ pages. Harvests B.pages block.0 pages.items host.old host.new) }
    ensures err { OnErr result (host.new ≡ host.old) }
{
    host.bitmap_mut(BitmapId::Block(block.0)).harvest(alloc)
}

// Takes the dirty pages of a block's bitmap, or in the first round all pages, so that none is dirty.
pub(super) fn take_pages<B: ExactBitmap>(
    alloc: Global,
    host: &mut HostMemory<B>,
    target: &Target,
    round: u32,
) -> Result<Vec<usize>, SendError>
    ensures taken { IfOk result (λ pages. TakesPages B.pages target.now round pages.items host.old host.new) }
    ensures err { OnErr result (host.new ≡ host.old) }
    ensures error { IfErr result (λ e. (e ≡ SendError.Untracked) ⊎ (e ≡ SendError.Changed) ⊎ (e ≡ SendError.Memory)) }
{
    if !has_target(host, target) {
        return Err(SendError::Changed);
    }
    check_pages(host, target)?;
    if round == 0 {
        let len = host.block_len(target.block);
        return take_all(alloc, host, target, len);
    }
    match harvest_block(alloc, host, target.block) {
        Ok(pages) => Ok(pages),
        Err(_) => Err(SendError::Memory),
    }
}

// Takes all pages of a block.
fn take_all<B: ExactBitmap>(
    alloc: Global,
    host: &mut HostMemory<B>,
    target: &Target,
    len: usize,
) -> Result<Vec<usize>, SendError>
    requires held { Holds (shape_of host.old) (names.Block target.now.block.0 ∷ []) }
    requires tracked { IsTracked B.pages target.now host.old }
    requires len { len ≡ length (block_at host.old.blocks target.now.block.0) }
    ensures taken { IfOk result (λ pages. TakesPages B.pages target.now 0 pages.items host.old host.new) }
    ensures err { OnErr result (host.new ≡ host.old) }
    ensures error { IfErr result (λ e. e ≡ SendError.Memory) }
{
    let Ok(all) = all_pages(alloc, len, target.entry.page_size as usize) else {
        return Err(SendError::Memory);
    };
    match harvest_block(alloc, host, target.block) {
        Ok(_) => Ok(all),
        Err(_) => Err(SendError::Memory),
    }
}

// Copies pages of a block after what waits to be sent, as long as there is room, and returns how many: at most 2^20
// bytes of pages, zeros among them.
pub(super) fn copy_pages(
    batch: &mut Vec<u8>,
    number: u32,
    page_size: usize,
    bytes: &[u8],
    pages: &[usize],
) -> usize
    requires { 0 < page_size }
    ensures count { result ≤ length pages.now }
    ensures most { result * page_size ≤ 2 ^ 20 }
    ensures short { length batch.old.items ≤ 2 ^ 20 + 20 → length batch.new.items ≤ 2 ^ 20 + 20 }
    ensures copied { CopiesRuns page_size number bytes.now (take result pages.now) batch.old.items batch.new.items }
{
    let mut at = 0;
    for _ in 0..pages.len() {
        let room = room_for(at, batch.len(), page_size);
        let rest = &pages[at..];
        let some = &rest[..room.min(rest.len())];
        if some.is_empty() {
            return at;
        }
        match copy_first(batch, number, page_size, bytes, some) {
            Ok(count) => at += count,
            Err(_) => return at,
        }
    }
    at
}

// How many pages of this size may be copied after so many pages, and after so many bytes that wait to be sent.
fn room_for(count: usize, len: usize, page_size: usize) -> usize
    requires some { 0 < page_size }
    requires most { count * page_size ≤ 2 ^ 20 }
    ensures pages { (count + result) * page_size ≤ 2 ^ 20 }
    ensures bytes { (result ≡ 0) ⊎ ((len ≡ 0) ⊎ (len + result * page_size ≤ 2 ^ 20)) }
{
    let pages = (MOST_PAGE_BYTES / page_size).saturating_sub(count);
    if len == 0 {
        return pages;
    }
    pages.min(MOST_PAGE_BYTES.saturating_sub(len) / page_size)
}

// Makes all pages of a block dirty, if the host has it as it was at the beginning.
fn mark_again<B: ExactBitmap>(host: &mut HostMemory<B>, target: &Target)
    ensures { IsMarkedAgain B.pages target.now host.old host.new }
{
    if has_target(host, target) {
        let len = host.block_len(target.block);
        mark_block(host, target.block, len);
    }
}

fn mark_block<B: ExactBitmap>(host: &mut HostMemory<B>, block: BlockId, len: usize)
    requires { Holds (shape_of host.old) (names.Block block.0 ∷ []) }
    ensures { MarksBlock B.pages block.0 len host.old host.new }
{
    host.bitmap_mut(BitmapId::Block(block.0)).mark_dirty(0, len);
}

// A block as the header says it, with the page size of its bitmap.
pub(super) fn target_of<B: ExactBitmap>(
    host: &HostMemory<B>,
    block: BlockId,
    address: u64,
) -> Result<Target, SendError>
    ensures block { IfOk result (λ t. (t.block ≡ block) × (t.entry.address ≡ address)) }
    ensures there { IfOk result (λ t. IsAsItWas t host.now) }
    ensures tracked { IfOk result (λ t. IsTracked B.pages t host.now) }
{
    let Some(len) = host.shape().block_len(block) else {
        return Err(SendError::Changed);
    };
    let Some((page_size, count)) = host.bitmap(BitmapId::Block(block.0)).shape() else {
        return Err(SendError::Untracked);
    };
    if page_size == 0 || !covers(page_size, count, len as u64) {
        return Err(SendError::Untracked);
    }
    Ok(Target {
        block,
        entry: BlockEntry {
            len: len as u64,
            page_size: page_size as u64,
            address,
        },
    })
}

// Makes all pages of blocks dirty, one block after the other.
pub(super) fn mark_targets<B: ExactBitmap>(host: &mut HostMemory<B>, targets: &[Target])
    ensures { AreMarkedAgain B.pages targets.now host.old host.new }
{
    for target in targets {
        mark_again(host, target);
    }
}
