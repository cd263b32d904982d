//! The commands that make memories and turn their IOMMUs on and off.
ghost use Rattle.std.specs.Prelude.{◌≡◌, ◌⊎◌, ◌++◌, ◌∷◌, [], length, slice_get, Ok, Err};
ghost use Rattle.vm_memory.specs.Machine.{Step};
ghost use Rattle.vm_memory.specs.Memories.{table_told};
ghost use Rattle.vm_memory.specs.Parts.{HoldsMemory, state_of};
ghost use Rattle.vm_memory.specs.Reply.{as_done, replied};
ghost use Rattle.vm_memory.specs.declared.machine.command.Command.TheVariants as command;
ghost use Rattle.vm_memory.specs.declared.machine.command.Reply.TheVariants as reply;
ghost use Rattle.vm_memory.specs.declared.machine.refusal.Refusal.TheVariants as refusal;

use super::Machine;
use super::kept::KeptMemory;
use super::refusal::Refusal;
use std::cell::Cell;
use vm_memory_base::ExactBitmap;
use vm_memory_device::{Iommu, IommuMemory, MachineMemory};
use vm_memory_guest::{GuestMemoryRegion, SpaceId};

impl<R: GuestMemoryRegion, I: Iommu, B: ExactBitmap> Machine<R, I, B> {
    /// Makes a memory of a layout, without an IOMMU, and returns its number. `NoSuch` if there is no such layout.
    pub fn plain(&mut self, layout: usize) -> Result<usize, Refusal>
        ensures { let before = state_of R.region I.number B.pages self.old in
            Step before (command.Plain layout) (replied reply.MemoryMade result)
            (state_of R.region I.number B.pages self.new) }
    {
        let Some(layout) = self.layout_at(layout) else {
            return Err(Refusal::NoSuch);
        };
        let Ok(layout) = layout.clone() else {
            return Err(Refusal::Memory);
        };
        self.add_memory(MachineMemory::Plain(layout))
    }

    /// Makes a memory of a layout behind an IOMMU, which is on or off: with a translator of the pool, and a space that
    /// its writes mark. Returns its number. `NoSuch` if there is no such layout, translator or space.
    pub fn new_memory(
        &mut self,
        layout: usize,
        translator: usize,
        space: usize,
        on: bool,
    ) -> Result<usize, Refusal>
        ensures { let before = state_of R.region I.number B.pages self.old in
            Step before (command.NewMemory layout translator space on) (replied reply.MemoryMade result)
            (state_of R.region I.number B.pages self.new) }
    {
        let (Some(layout), Some(translator)) = (
            self.layout_at(layout),
            self.translator_at(translator),
        ) else {
            return Err(Refusal::NoSuch);
        };
        if !self.has_space(space) {
            return Err(Refusal::NoSuch);
        }
        let Ok(layout) = layout.clone() else {
            return Err(Refusal::Memory);
        };
        let Ok(translator) = translator.clone() else {
            return Err(Refusal::Memory);
        };
        let memory = IommuMemory::new(self.alloc, layout, translator, on, SpaceId(space));
        self.add_memory(MachineMemory::Translated(memory))
    }

    /// Makes a memory of a layout behind the IOMMU of another memory: with its translator, its space and its switch.
    /// Returns its number. `NoSuch` if there is no such layout, or no such memory with an IOMMU.
    pub fn replace_backend(&mut self, memory: usize, layout: usize) -> Result<usize, Refusal>
        ensures { let before = state_of R.region I.number B.pages self.old in
            Step before (command.ReplaceBackend memory layout) (replied reply.MemoryMade result)
            (state_of R.region I.number B.pages self.new) }
    {
        let (Some(memory), Some(layout)) = (self.memory_at(memory), self.layout_at(layout)) else {
            return Err(Refusal::NoSuch);
        };
        let Some(memory) = memory.translated() else {
            return Err(Refusal::NoSuch);
        };
        let Ok(layout) = layout.clone() else {
            return Err(Refusal::Memory);
        };
        match memory.with_replaced_backend(layout) {
            Ok(memory) => self.add_memory(MachineMemory::Translated(memory)),
            Err(_) => Err(Refusal::Memory),
        }
    }

    /// Turns the IOMMU of a memory on or off. `NoSuch` if there is no such memory, or it has no IOMMU.
    pub fn enable(&mut self, memory: usize, on: bool) -> Result<(), Refusal>
        ensures { let before = state_of R.region I.number B.pages self.old in
            Step before (command.Enable memory on) (replied as_done result)
            (state_of R.region I.number B.pages self.new) }
    {
        let Some(memory) = self.memories.get_mut(memory) else {
            return Err(Refusal::NoSuch);
        };
        memory.turn(on)
    }

    /// The number of the table that translates the addresses of a memory, if its IOMMU is on. `NoSuch` if there is no
    /// such memory.
    pub fn table_of(&self, memory: usize) -> Result<Option<usize>, Refusal>
        ensures { let now = state_of R.region I.number B.pages self.now in
            result ≡ table_told (slice_get now.memories memory) }
    {
        let Some(memory) = self.memories.get(memory) else {
            return Err(Refusal::NoSuch);
        };
        match memory.kind() {
            MachineMemory::Translated(memory) if memory.get_iommu_enabled() => {
                Ok(Some(memory.iommu().table().0))
            }
            _ => Ok(None),
        }
    }

    // Makes a memory the next, where the host holds it.
    fn add_memory(&mut self, memory: MachineMemory<R, I>) -> Result<usize, Refusal>
        requires { HoldsMemory R.region I.number self.old.host memory }
        ensures { ((result ≡ Ok (length self.old.memories))
            × (self.new ≡ record self.old { memories = self.old.memories ++ memory ∷ [] }))
            ⊎ ((result ≡ Err refusal.Memory) × (self.new ≡ self.old)) }
    {
        memory.recall_law();
        let number = self.memories.len();
        let hint = Cell::new(0);
        if self.memories.push(KeptMemory { memory, hint }).is_err() {
            return Err(Refusal::Memory);
        }
        Ok(number)
    }
}
