//! A step on a memory of a machine and its host.
ghost use Rattle.std.specs.Prelude.{◌≡◌};
ghost use Rattle.vm_memory_guest.specs.Host.{Host, shape_of, Holds};
ghost use Rattle.vm_memory_guest.specs.Memory.{Memory};
ghost use Rattle.vm_memory.specs.WithMemory.{StepsOn};

use super::Machine;
use super::refusal::Refusal;
use vm_memory_base::Bitmap;
use vm_memory_device::{Iommu, MachineMemory};
use vm_memory_guest::{GuestMemory, GuestMemoryRegion, HostMemory};

/// A step of a device on guest memory and its host.
///
/// A machine keeps what its memories name in its host, so it does not lend both by references. It takes a step that it
/// is handed.
pub trait DeviceStep<B> {
    /// What the step does: itself, a memory and the host before, and itself and the host after. A step that has
    /// references has to say that it keeps each of them (`ghost_name`): then its caller finds there what it wrote.
    ghost does: { Self → Memory → Host B → Self → Host B → Type 0 };

    /// Takes the step. It adds no block, space or table, and removes none.
    fn step<M: GuestMemory>(&mut self, mem: &M, host: &mut HostMemory<B>)
        requires { Holds (shape_of host.old) (M.names mem.now) }
        ensures does { does self.old (M.memory mem.now) host.old self.new host.new }
        ensures shape { shape_of host.new ≡ shape_of host.old };
}

impl<R: GuestMemoryRegion, I: Iommu, B: Bitmap> Machine<R, I, B> {
    /// Takes a step on a memory and the host. `NoSuch` if there is no such memory, and then nothing changes.
    #[inline]
    pub fn with_memory<S: DeviceStep<B>>(
        &mut self,
        memory: usize,
        step: &mut S,
    ) -> Result<(), Refusal>
        ensures { StepsOn R.region I.number S.does self.old memory step.old result step.new self.new }
    {
        let Some(memory) = self.memories.get(memory) else {
            return Err(Refusal::NoSuch);
        };
        match memory.kind() {
            MachineMemory::Plain(layout) => step.step(layout, &mut self.host),
            MachineMemory::Translated(memory) => step.step(memory, &mut self.host),
        }
        Ok(())
    }
}
