//! The command that copies between windows of blocks.
ghost use Rattle.std.specs.Prelude.{◌≡◌, ◌+◌, ◌^◌, ◌<◌, ◌≤◌, length, if◌then◌else◌, Some, None, IfSome};
ghost use Rattle.vm_memory_guest.specs.Dirt.{with_pages};
ghost use Rattle.vm_memory_guest.specs.Host.{shape_of, Holds, has_bytes};
ghost use Rattle.std.specs.Bool.{OnTrue};
ghost use Rattle.vm_memory_guest.specs.Window.{window_names};
ghost use Rattle.vm_memory.specs.Copy.{copies, ends_inside};
ghost use Rattle.vm_memory.specs.Machine.{Step};
ghost use Rattle.vm_memory.specs.Parts.{range_window, state_of};
ghost use Rattle.vm_memory.specs.Reply.{as_done, replied};
ghost use Rattle.vm_memory.specs.declared.machine.command.Command.TheVariants as command;

use super::Machine;
use super::command::BlockRange;
use super::refusal::Refusal;
use vm_memory_base::ExactBitmap;
use vm_memory_device::Iommu;
use vm_memory_guest::laws::host::parts_of_a_block_are_held;
use vm_memory_guest::laws::typed::copies_are_by_bytes;
use vm_memory_guest::{BlockId, GuestMemoryRegion, HostMemory, MmapRegion, VolatileSlice};

impl<R: GuestMemoryRegion, I: Iommu, B: ExactBitmap> Machine<R, I, B> {
    /// Copies the first bytes of a range of a block to the front of another, up to the length of the shorter. `NoSuch`
    /// if there is no such block or it was given back, `BadRange` if a range passes its block.
    pub fn copy(&mut self, from: BlockRange, to: BlockRange) -> Result<(), Refusal>
        ensures { let before = state_of R.region I.number B.pages self.old in
            Step before (command.Copy from to) (replied as_done result)
            (state_of R.region I.number B.pages self.new) }
    {
        copy_in(&mut self.host, from, to)
    }
}

// Copies a window of a host to another.
fn copy_in<B: ExactBitmap>(
    host: &mut HostMemory<B>,
    from: BlockRange,
    to: BlockRange,
) -> Result<(), Refusal>
    ensures copied { (replied as_done result, with_pages B.pages host.new)
        ≡ copies (with_pages B.pages host.old) from to }
    ensures shape { shape_of host.new ≡ shape_of host.old }
{
    if !has_block(host, from.block) || !has_block(host, to.block) {
        return Err(Refusal::NoSuch);
    }
    let (Some(from), Some(to)) = (window(host, from), window(host, to)) else {
        return Err(Refusal::BadRange);
    };
    copies_are_by_bytes::<B>();
    from.copy_to_volatile_slice(host, to);
    Ok(())
}

// Whether there is a block of this number that was not given back.
pub(super) fn has_block<B>(host: &HostMemory<B>, block: usize) -> bool
    ensures value { result ≡ has_bytes (shape_of host.now) block }
    ensures there { OnTrue result (block < length host.now.blocks) }
{
    MmapRegion::of_block(host, BlockId(block)).is_some()
}

// A window of a block, if it ends in its block.
pub(super) fn window<B>(host: &HostMemory<B>, range: BlockRange) -> Option<VolatileSlice>
    requires { range.block < length host.now.blocks }
    ensures value { result ≡ (if ends_inside host.now range then Some (range_window range) else None) }
    ensures held { IfSome result (λ w. Holds (shape_of host.now) (window_names w)) }
    ensures short { IfSome result (λ w. w.offset + w.size ≤ 2 ^ 64) }
{
    parts_of_a_block_are_held::<B>();
    let block = BlockId(range.block);
    let all = host.block_len(block);
    if range.offset > all || range.len > all - range.offset {
        return None;
    }
    Some(host.window(block, range.offset, range.len))
}
