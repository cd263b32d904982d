//! Pages that come into the blocks of a host.
ghost use Rattle.std.specs.Prelude.{◌≡◌, ◌+◌, ◌-◌, ◌*◌, ◌<◌, ◌≤◌, ◌⊎◌, ◌%◌, ℕ, [], ◌∷◌, length, take, drop, replicate};
ghost use Rattle.std.specs.Prelude.{min, true, IsTrue, ◌↔◌, Some, IfSome, IfNone, IfOk, OnOk, OnErr, slice_get};
ghost use Rattle.std.specs.Prelude.{slice_index};
ghost use Rattle.live_migration.specs.Bare.{AreBare};
ghost use Rattle.live_migration.specs.Image.{are_zero, page_bytes, placed};
ghost use Rattle.live_migration.specs.Placing.{Applies, HasPlaced, IsInside, LieIn, MarksChanged};
ghost use Rattle.live_migration.specs.Frame.{message_of};
ghost use Rattle.vm_memory_guest.specs.Host as names;
ghost use Rattle.vm_memory_guest.specs.Host.{Holds, block_at, shape_of};
ghost use Rattle.vm_memory_guest.specs.Window.{MarksOne};

use crate::frame::Frame;
use crate::header::BlockEntry;
use crate::refusal::Refusal;
use crate::zeros::are_zero;
use vm_memory_base::Bitmap;
use vm_memory_guest::{BlockId, HostMemory};

// The offset of a page of a block, if the block has such a page.
pub(crate) fn start_of(entry: &BlockEntry, page: u64) -> Option<u64>
    ensures some { IfSome result (λ start. (start ≡ page * entry.now.page_size) × (start < entry.now.len)) }
    ensures none { IfNone result (entry.now.len ≤ page * entry.now.page_size) }
{
    let len = entry.len;
    match page.checked_mul(entry.page_size) {
        Some(start) if start < len => Some(start),
        _ => None,
    }
}

// Puts bytes into a block, if the host has the place.
pub(crate) fn put_bytes<B: Bitmap>(
    host: &mut HostMemory<B>,
    block: BlockId,
    start: usize,
    bytes: &[u8],
) -> Result<(), Refusal>
    ensures ok { OnOk result (HasPlaced host.old host.new block.0 start bytes.now) }
    ensures marked { OnOk result (0 < length bytes.now
        → MarksOne B.marks block.0 start (length bytes.now) host.old.bitmaps host.new.bitmaps) }
    ensures err { OnErr result (host.new ≡ host.old) }
{
    if !host.shape().has_place(block, start, bytes.len()) {
        return Err(Refusal::Block);
    }
    let window = host.window(block, start, bytes.len());
    host.write(&window, bytes);
    Ok(())
}

// Puts pages into a block that begins with the page `first`, and returns where they end.
fn put_pages<B: Bitmap>(
    host: &mut HostMemory<B>,
    block: BlockId,
    entry: &BlockEntry,
    first: u64,
    bytes: &[u8],
) -> Result<u64, Refusal>
    ensures ok { OnOk result (HasPlaced host.old host.new block.0 (first * entry.now.page_size) bytes.now) }
    ensures marked { OnOk result (MarksOne B.marks block.0 (first * entry.now.page_size) (length bytes.now)
        host.old.bitmaps host.new.bitmaps) }
    ensures end { IfOk result (λ end. end ≡ first * entry.now.page_size + length bytes.now) }
    ensures inside { OnOk result (LieIn entry.now first (length bytes.now)) }
    ensures err { OnErr result (host.new ≡ host.old) }
{
    let Some(start) = start_of(entry, first) else {
        return Err(Refusal::Page);
    };
    let count = bytes.len() as u64;
    if count > entry.len - start {
        return Err(Refusal::Page);
    }
    if count == 0 || (count != entry.len - start && !is_whole(count, entry.page_size)) {
        return Err(Refusal::CutPage);
    }
    put_bytes(host, block, start as usize, bytes)?;
    Ok(start + count)
}

// Whether so many bytes are whole pages of this size.
fn is_whole(count: u64, page_size: u64) -> bool
    ensures { result ≡ true → count % page_size ≡ 0 }
{
    page_size != 0 && count % page_size == 0
}

// Whether so many bytes of a block are zero, from a place on.
fn has_zeros<B: Bitmap>(host: &HostMemory<B>, block: BlockId, start: usize, len: usize) -> bool
    requires { Holds (shape_of host.now) (names.Place block.0 start len ∷ []) }
    ensures { result ≡ are_zero (take len (drop start (block_at host.now.blocks block.0))) }
{
    let window = host.window(block, start, len);
    are_zero(host.bytes(&window))
}

// Puts zeros into a block, if the host has the place. If they are there already, nothing changes: such a page is only
// read, and not marked.
fn put_new_zeros<B: Bitmap>(
    host: &mut HostMemory<B>,
    block: BlockId,
    start: usize,
    zeros: &[u8],
) -> Result<(), Refusal>
    requires { zeros.now ≡ replicate (length zeros.now) 0 }
    ensures ok { OnOk result (HasPlaced host.old host.new block.0 start zeros.now) }
    ensures marked { OnOk result (
        (are_zero (take (length zeros.now) (drop start (block_at host.old.blocks block.0))) ≡ true)
        ⊎ MarksOne B.marks block.0 start (length zeros.now) host.old.bitmaps host.new.bitmaps) }
    ensures same { are_zero (take (length zeros.now) (drop start (block_at host.old.blocks block.0))) ≡ true
        → host.new ≡ host.old }
    ensures err { OnErr result (host.new ≡ host.old) }
{
    if !host.shape().has_place(block, start, zeros.len()) {
        return Err(Refusal::Block);
    }
    if has_zeros(host, block, start, zeros.len()) {
        return Ok(());
    }
    put_bytes(host, block, start, zeros)
}

// Puts zeros into a page of a block.
fn put_zeros<B: Bitmap>(
    host: &mut HostMemory<B>,
    block: BlockId,
    entry: &BlockEntry,
    page: u64,
    zeros: &[u8],
) -> Result<(), Refusal>
    requires { zeros.now ≡ replicate (length zeros.now) 0 }
    ensures ok { OnOk result (HasPlaced host.old host.new block.0 (page * entry.now.page_size)
        (replicate (min entry.now.page_size (entry.now.len - page * entry.now.page_size)) 0)) }
    ensures inside { OnOk result (page * entry.now.page_size < entry.now.len) }
    ensures marked { OnOk result (length (block_at host.old.blocks block.0) ≡ entry.now.len
        → (are_zero (page_bytes entry.now.page_size page (block_at host.old.blocks block.0)) ≡ true)
        ⊎ MarksOne B.marks block.0 (page * entry.now.page_size)
        (min entry.now.page_size (entry.now.len - page * entry.now.page_size)) host.old.bitmaps host.new.bitmaps) }
    ensures same { length (block_at host.old.blocks block.0) ≡ entry.now.len
        → are_zero (page_bytes entry.now.page_size page (block_at host.old.blocks block.0)) ≡ true
        → host.new ≡ host.old }
    ensures err { OnErr result (host.new ≡ host.old) }
{
    let Some(start) = start_of(entry, page) else {
        return Err(Refusal::Page);
    };
    let count = entry.page_size.min(entry.len - start) as usize;
    if count > zeros.len() {
        return Err(Refusal::PageSize);
    }
    put_new_zeros(host, block, start as usize, &zeros[..count])
}

// Whether a page of a block lies where the block has only zeros.
fn is_bare(bare: &[u64], block: u32, entry: &BlockEntry, page: u64) -> bool
    ensures block { result ≡ true → block < length bare.now }
    ensures zeros { result ≡ true → slice_index bare.now block ≤ page * entry.now.page_size }
    ensures inside { result ≡ true → page * entry.now.page_size < entry.now.len }
{
    match (bare.get(block as usize), start_of(entry, page)) {
        (Some(offset), Some(start)) => *offset <= start,
        _ => false,
    }
}

// Notes that bytes came into a block, up to this one.
fn note_written(bare: &mut [u64], block: u32, end: u64)
    ensures others { (j : ℕ) → (j ≡ block → ⊥) → slice_index bare.new j ≡ slice_index bare.old j }
    ensures kept { slice_index bare.old block ≤ slice_index bare.new block }
    ensures end { block < length bare.old → end ≤ slice_index bare.new block }
{
    let at = block as usize;
    if at < bare.len() {
        bare[at] = bare[at].max(end);
    }
}

// The block of this number, with its entry, if the host has it as the header says.
fn find<B>(
    host: &HostMemory<B>,
    base: usize,
    entries: &[BlockEntry],
    block: u32,
) -> Result<(BlockId, BlockEntry), Refusal>
    ensures entry { IfOk result (λ x. slice_get entries.now block ≡ Some x.1) }
    ensures number { IfOk result (λ x. x.0.0 ≡ base + block) }
    ensures len { IfOk result (λ x. length (block_at host.now.blocks (base + block)) ≡ x.1.len) }
{
    let Some(entry) = entries.get(block as usize).copied() else {
        return Err(Refusal::Block);
    };
    let Some(number) = base.checked_add(block as usize) else {
        return Err(Refusal::Block);
    };
    match host.shape().block_len(BlockId(number)) {
        Some(len) if len as u64 == entry.len => Ok((BlockId(number), entry)),
        _ => Err(Refusal::Block),
    }
}

// Does with a host what a frame says of its pages: the frame's block is that of this number from `base` on. `bare` says
// from where on a block has only zeros: there a page of zeros is not looked at.
pub(crate) fn apply<B: Bitmap>(
    host: &mut HostMemory<B>,
    base: usize,
    entries: &[BlockEntry],
    zeros: &[u8],
    bare: &mut [u64],
    frame: &Frame<'_>,
) -> Result<(), Refusal>
    requires zeros { zeros.now ≡ replicate (length zeros.now) 0 }
    requires bare { AreBare base bare.old host.old }
    requires bare_blocks { length bare.old ≤ length entries.now }
    ensures ok { OnOk result (Applies base entries.now (message_of frame.now) host.old host.new) }
    ensures marked { OnOk result (MarksChanged B.marks base entries.now (message_of frame.now) host.old host.new) }
    ensures inside { OnOk result (IsInside entries.now (message_of frame.now)) }
    ensures bare { AreBare base bare.new host.new }
    ensures err { OnErr result (host.new ≡ host.old) }
{
    match *frame {
        Frame::Pages {
            block,
            first,
            bytes,
        } => {
            let (id, entry) = find(host, base, entries, block)?;
            let end = put_pages(host, id, &entry, first, bytes)?;
            note_written(bare, block, end);
            Ok(())
        }
        Frame::ZeroPage { block, page } => {
            let (id, entry) = find(host, base, entries, block)?;
            if is_bare(bare, block, &entry, page) {
                return Ok(());
            }
            put_zeros(host, id, &entry, page, zeros)?;
            Ok(())
        }
        Frame::RoundEnd { .. } | Frame::Section { .. } | Frame::Done | Frame::Go => Ok(()),
    }
}
