//! What the tests share: guests with blocks of pages, writers that mark, and a sender to its end.

use live_migration::{Receiver, Refusal, Reply, SendError, Sender, Stage};
use std::alloc::Global;
use std::io::Write;
use std::num::NonZeroUsize;
use std::test::Fail;
use vm_memory_base::{Bitmap, BitmapId, ExactBitmap, ExclusiveBitmap, GuestAddress};
use vm_memory_guest::{BlockId, HostMemory};

pub(crate) type Host = HostMemory<ExclusiveBitmap>;

/// A host with blocks of these lengths and page sizes, of zeros, and where each lies.
pub(crate) fn guest_of(
    alloc: Global,
    blocks: &[(usize, usize)],
) -> Result<(Host, Vec<(BlockId, GuestAddress)>), Fail> {
    let mut host = Host::new(alloc);
    let mut places = Vec::new(alloc);
    let mut address: u64 = 0x1000;
    for (len, page_size) in blocks {
        let size = NonZeroUsize::new(*page_size).ok_or("a page has no bytes")?;
        let bitmap = ExclusiveBitmap::new(alloc, *len, size)?;
        let block = host.new_block_with(*len, bitmap)?;
        places.push((block, GuestAddress(address)))?;
        address = address.saturating_add(*len as u64).saturating_add(0x10);
    }
    Ok((host, places))
}

/// Writes a byte into a block, if the host has it there, and marks it.
pub(crate) fn put<B: Bitmap>(
    host: &mut HostMemory<B>,
    block: BlockId,
    at: usize,
    byte: u8,
) -> bool {
    if !host.shape().has_place(block, at, 1) {
        return false;
    }
    let window = host.window(block, at, 1);
    host.write(&window, &[byte]);
    true
}

/// How long a block is, or 0.
pub(crate) fn len_of<B: Bitmap>(host: &HostMemory<B>, block: BlockId) -> usize {
    host.shape().block_len(block).unwrap_or(0)
}

/// The bytes of a block, or none.
pub(crate) fn bytes_of<B: Bitmap>(host: &HostMemory<B>, block: BlockId) -> &[u8] {
    let len = len_of(host, block);
    if !host.shape().has_place(block, 0, len) {
        return &[];
    }
    let window = host.window(block, 0, len);
    host.bytes(&window)
}

/// Whether blocks of two hosts are equal: those of the second are numbered from `base` on.
pub(crate) fn are_equal<A: Bitmap, B: Bitmap>(
    from: &HostMemory<A>,
    places: &[(BlockId, GuestAddress)],
    to: &HostMemory<B>,
    base: usize,
) -> bool {
    places.iter().enumerate().all(|(i, (block, _))| bytes_of(from, *block)
        == bytes_of(to, BlockId(base.saturating_add(i))))
}

/// The number of dirty pages of a block.
pub(crate) fn dirty_count<B: ExactBitmap>(
    host: &HostMemory<B>,
    alloc: Global,
    block: BlockId,
) -> Result<usize, Fail> {
    let id = BitmapId::Block(block.0);
    if !host.shape().has_bitmap(id) {
        return Ok(0);
    }
    Ok(host.bitmap(id).dirty_pages(alloc)?.len())
}

/// The receiver's word that it is ready comes.
pub(crate) fn hear_ready(sender: &mut Sender) -> Result<(), SendError> {
    sender.ready(&mut Reply::Ready.encode().as_slice())
}

/// The pages of one round: each block is harvested, and its pages are copied and sent.
pub(crate) fn send_pages<B: ExactBitmap, W: Write>(
    alloc: Global,
    sender: &mut Sender,
    host: &mut HostMemory<B>,
    blocks: usize,
    writer: &mut W,
) -> Result<(), SendError> {
    for _ in 0..blocks {
        let mut left = sender.harvest(alloc, host)?;
        for _ in 0..u64::MAX {
            if left == 0 {
                break;
            }
            left = left.saturating_sub(sender.copy_batch(host)?);
            sender.send_batch(writer)?;
        }
    }
    Ok(())
}

/// Takes frames up to a stage.
pub(crate) fn take_until<B: Bitmap>(
    receiver: &mut Receiver,
    stream: &[u8],
    host: &mut HostMemory<B>,
    stage: Stage,
) -> Result<(), Refusal> {
    let mut input = stream;
    for _ in 0..u64::MAX {
        if receiver.take(&mut input, host)? == stage {
            return Ok(());
        }
    }
    Ok(())
}
