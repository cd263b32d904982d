//! A migration that is aborted after a harvest, of which it is proved that it loses no page.
ghost use Rattle.std.specs.Prelude.{◌≡◌, ◌<◌, ℕ, length, OnOk};
ghost use Rattle.vm_memory_base.specs.declared.bitmap.BitmapId.{BitmapId};
ghost use Rattle.vm_memory_guest.specs.Dirt.{with_pages};
ghost use Rattle.vm_memory_guest.specs.Host.{block_at};
ghost use Rattle.vm_memory_guest.specs.Lent.{IsDirty};

use crate::guests::{dirty_count, guest_of};
use live_migration::laws::aborted_rounds_lose_no_page;
use live_migration::{Options, Reply, SendError, Sender};
use std::alloc::Global;
use std::io::{Read, Write};
use std::test::Fail;
use vm_memory_base::{ExactBitmap, GuestAddress};
use vm_memory_guest::{BlockId, HostMemory};

// Begins to send a block, takes its pages, and aborts.
fn abort_early<B: ExactBitmap, R: Read, W: Write>(
    alloc: Global,
    host: &mut HostMemory<B>,
    block: BlockId,
    replies: &mut R,
    writer: &mut W,
) -> Result<(), SendError>
    ensures bytes { OnOk result (host.new.blocks ≡ host.old.blocks) }
    ensures dirty { OnOk result ((k : ℕ) → k < length (block_at host.old.blocks block.0)
        → IsDirty (BitmapId.Block block.0) k (with_pages B.pages host.new)) }
{
    aborted_rounds_lose_no_page::<B>();
    let places = [(block, GuestAddress(0))];
    let mut sender = Sender::begin(alloc, host, &places, Options::default(), writer)?;
    sender.ready(replies)?;
    sender.harvest(alloc, host)?;
    sender.abort(host);
    Ok(())
}

#[test]
fn an_early_abort_leaves_each_page_dirty(rt: HostRuntime) -> Result<(), Fail> {
    let alloc = rt.alloc();
    let (mut host, places) = guest_of(alloc, &[(0x2345, 0x100)])?;
    let block = places.first().ok_or("there is no block")?.0;
    let ready = Reply::Ready.encode();
    abort_early(
        alloc,
        &mut host,
        block,
        &mut ready.as_slice(),
        &mut Vec::new(alloc),
    )?;
    assert!(rt; dirty_count(&host, alloc, block)? == 0x24);
    Ok(())
}
