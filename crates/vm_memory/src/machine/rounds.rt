//! The image of a block that is brought up to date in rounds.
ghost use Rattle.std.specs.Prelude.{◌≡◌, ◌≢◌, ◌-◌, ◌<◌, ◌≤◌, [], ◌∷◌, ◌++◌, take, drop, length, OnOk, OnErr};
ghost use Rattle.vm_memory_base.specs.Pages.{cleaned, dirty_pages};
ghost use Rattle.vm_memory_base.specs.declared.bitmap.BitmapId.TheVariants.{Block};
ghost use Rattle.vm_memory_guest.specs.Dirt.{with_pages};
ghost use Rattle.vm_memory_guest.specs.Host as names;
ghost use Rattle.vm_memory_guest.specs.Host.{Holds, block_at, shape_of};
ghost use Rattle.vm_memory_guest.specs.Window.{with_bitmap};
ghost use Rattle.vm_memory.specs.Parts.{state_of};
ghost use Rattle.vm_memory_guest.specs.Patch.{patched};
ghost use Rattle.vm_memory.specs.Rounds.{image_now, pages_of_block, IsSynced};

use super::Machine;
use std::alloc::{AllocError, Global};
use vm_memory_base::{BitmapId, ExactBitmap};
use vm_memory_device::Iommu;
use vm_memory_guest::laws::host::parts_of_a_block_are_held;
use vm_memory_guest::{BlockId, GuestMemoryRegion, HostMemory};

impl<R: GuestMemoryRegion, I: Iommu, B: ExactBitmap> Machine<R, I, B> {
    /// Brings an image of a block up to date: takes the dirty pages of the block's bitmap, so that none is
    /// dirty, and copies the bytes of these pages from the block. The host has to hold the block, and the
    /// image to be as long. `AllocError` if the allocation of the list of pages fails, and then nothing
    /// changes. If no page is dirty, it allocates nothing.
    ///
    /// An image that was a copy of the block at some time, and was patched with the pages of each harvest
    /// since, is the block then. The premises: the crate's README.md, "Images kept in rounds".
    ///
    /// Leaves open: a failed allocation each time that a page of the block is dirty.
    pub fn sync(&mut self, block: BlockId, image: &mut [u8]) -> Result<(), AllocError>
        requires there { Holds (shape_of self.old.host) (names.Block block.0 ∷ []) }
        requires len { length image.old ≡ length (block_at self.old.host.blocks block.0) }
        ensures synced { let state = state_of R.region I.number B.pages in
            OnOk result (IsSynced block.0 (state self.old) image.old (state self.new) image.new) }
        ensures clean { let before = with_pages B.pages self.old.host in
            OnOk result ((after : B) × (B.pages after ≡ cleaned (pages_of_block block.0 before))
            × (self.new ≡ record self.old { host = with_bitmap self.old.host (Block block.0) after })) }
        ensures refused { let before = with_pages B.pages self.old.host in
            OnErr result ((self.new ≡ self.old) × (image.new ≡ image.old)
            × (dirty_pages (pages_of_block block.0 before) ≢ [])) }
    {
        sync_in(self.alloc, &mut self.host, block, image)
    }
}

// Copies the dirty pages of a block of a host into an image of it, and makes them clean.
fn sync_in<B: ExactBitmap>(
    alloc: Global,
    host: &mut HostMemory<B>,
    block: BlockId,
    image: &mut [u8],
) -> Result<(), AllocError>
    requires there { Holds (shape_of host.old) (names.Block block.0 ∷ []) }
    requires len { length image.old ≡ length (block_at host.old.blocks block.0) }
    ensures image { let before = with_pages B.pages host.old in
        OnOk result (image.new ≡ image_now block.0 before image.old) }
    ensures clean { let before = with_pages B.pages host.old in
        OnOk result ((after : B) × (B.pages after ≡ cleaned (pages_of_block block.0 before))
        × (host.new ≡ with_bitmap host.old (Block block.0) after)) }
    ensures refused { let before = with_pages B.pages host.old in
        OnErr result ((host.new ≡ host.old) × (image.new ≡ image.old)
        × (dirty_pages (pages_of_block block.0 before) ≢ [])) }
{
    let bitmap = host.bitmap_mut(BitmapId::Block(block.0));
    let Some((page_size, _)) = bitmap.shape() else {
        return Ok(());
    };
    let pages = bitmap.harvest(alloc)?;
    copy_pages(whole_block(host, block), pages.as_slice(), page_size, image);
    Ok(())
}

// The bytes of a block.
fn whole_block<B>(host: &HostMemory<B>, block: BlockId) -> &[u8]
    requires { Holds (shape_of host.now) (names.Block block.0 ∷ []) }
    ensures { result.now ≡ block_at host.now.blocks block.0 }
{
    parts_of_a_block_are_held::<B>();
    let window = host.window(block, 0, host.block_len(block));
    host.bytes(&window)
}

// Copies pages of this size from a block to an image of it.
fn copy_pages(block: &[u8], pages: &[usize], page_size: usize, image: &mut [u8])
    requires some { 0 < page_size }
    requires len { length image.old ≡ length block.now }
    ensures { image.new ≡ patched page_size pages.now block.now image.old }
{
    for page in pages {
        copy_page(block, *page, page_size, image);
    }
}

// The last page may be cut by the block's end, and a page past it has no bytes.
fn copy_page(block: &[u8], page: usize, page_size: usize, image: &mut [u8])
    requires some { 0 < page_size }
    requires len { length image.old ≡ length block.now }
    ensures { image.new ≡ patched page_size (page ∷ []) block.now image.old }
{
    let start = page.saturating_mul(page_size).min(block.len());
    let end = start.saturating_add(page_size).min(block.len());
    copy_part(block, start, end, image);
}

fn copy_part(block: &[u8], start: usize, end: usize, image: &mut [u8])
    requires ordered { start ≤ end }
    requires within { end ≤ length block.now }
    requires len { length image.old ≡ length block.now }
    ensures { image.new ≡ take start image.old
        ++ (take (end - start) (drop start block.now) ++ drop end image.old) }
{
    image[start..end].copy_from_slice(&block[start..end]);
}
