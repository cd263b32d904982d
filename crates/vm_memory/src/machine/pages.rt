//! The commands that ask for dirty pages.
ghost use Rattle.std.specs.Prelude.{◌≡◌, [], ◌∷◌, None, OnErr};
ghost use Rattle.std.specs.Bool.{OnTrue, OnFalse};
ghost use Rattle.vm_memory_guest.specs.Host.{Holds, shape_of};
ghost use Rattle.vm_memory_guest.specs.Window.{bitmap_name, bitmap_of};
ghost use Rattle.vm_memory.specs.Commands.{bitmap_in};
ghost use Rattle.vm_memory.specs.Machine.{Step};
ghost use Rattle.vm_memory.specs.Parts.{state_of};
ghost use Rattle.vm_memory.specs.Reply.{replied};
ghost use Rattle.vm_memory.specs.declared.machine.command.Command.TheVariants as command;
ghost use Rattle.vm_memory.specs.declared.machine.command.Reply.TheVariants as reply;

use super::Machine;
use super::copies::has_block;
use super::refusal::Refusal;
use vm_memory_base::{BitmapId, ExactBitmap};
use vm_memory_device::Iommu;
use vm_memory_guest::{GuestMemoryRegion, HostMemory, SpaceId};

impl<R: GuestMemoryRegion, I: Iommu, B: ExactBitmap> Machine<R, I, B> {
    /// Puts the numbers of the dirty pages of a block's bitmap or of a space into `pages`, ascending, and replaces what
    /// it had. `NoSuch` if there is no such bitmap, or its block was given back. If the call is refused, `pages`
    /// stays.
    pub fn dirty(&self, bitmap: BitmapId, pages: &mut Vec<usize>) -> Result<(), Refusal>
        ensures answer { let now = state_of R.region I.number B.pages self.now in
            Step now (command.Dirty bitmap) (replied (λ (done : Unit {0}). reply.Pages pages.new.items) result) now }
        ensures refused { OnErr result (pages.new ≡ pages.old) }
    {
        if !has_bitmap(&self.host, bitmap) {
            return Err(Refusal::NoSuch);
        }
        match self.host.bitmap(bitmap).dirty_pages(self.alloc) {
            Ok(dirty) => {
                *pages = dirty;
                Ok(())
            }
            Err(_) => Err(Refusal::Memory),
        }
    }

    /// Takes the dirty pages of a block's bitmap or of a space, so that none of them is dirty then, and puts their
    /// numbers into `pages`, ascending, and replaces what it had. `NoSuch` if there is no such bitmap, or its block was
    /// given back. If it is refused, `pages` and the bitmap stay.
    pub fn harvest(&mut self, bitmap: BitmapId, pages: &mut Vec<usize>) -> Result<(), Refusal>
        ensures answer { let before = state_of R.region I.number B.pages self.old in
            Step before (command.Harvest bitmap) (replied (λ (done : Unit {0}). reply.Pages pages.new.items) result)
            (state_of R.region I.number B.pages self.new) }
        ensures refused { OnErr result (pages.new ≡ pages.old) }
    {
        if !has_bitmap(&self.host, bitmap) {
            return Err(Refusal::NoSuch);
        }
        let taken = self.host.bitmap_mut(bitmap).harvest(self.alloc);
        match taken {
            Ok(dirty) => {
                *pages = dirty;
                Ok(())
            }
            Err(_) => Err(Refusal::Memory),
        }
    }
}

fn has_bitmap<B>(host: &HostMemory<B>, bitmap: BitmapId) -> bool
    ensures held { OnTrue result (Holds (shape_of host.now) (bitmap_name bitmap ∷ [])) }
    ensures found { OnTrue result (bitmap_in host.now bitmap ≡ bitmap_of host.now bitmap) }
    ensures missing { OnFalse result (bitmap_in host.now bitmap ≡ None) }
{
    match bitmap {
        BitmapId::Block(block) => has_block(host, block),
        BitmapId::Space(space) => host.shape().has_space(SpaceId(space)),
    }
}
