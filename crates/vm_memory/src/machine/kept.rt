//! A memory of a machine, which asks the region of its last access first.
ghost use Rattle.std.specs.Prelude.{◌≡◌, None, MatchOption};
ghost use Rattle.vm_memory_device.specs.Memories.{memory_meant};
ghost use Rattle.vm_memory_device.specs.declared.machine_memory.MachineMemory.TheVariants.{Translated};
ghost use Rattle.vm_memory.specs.Memories.{turned_memory};
ghost use Rattle.vm_memory.specs.Reply.{as_done, replied};

use super::refusal::Refusal;
use std::cell::Cell;
use std::marker::Model;
use vm_memory_base::{Bitmap, GuestAddress, Permissions};
use vm_memory_device::{Iommu, IommuMemory, MachineMemory};
use vm_memory_guest::{
    GuestMemory, GuestMemoryRegion, GuestMemoryResult, GuestRegionCollection, HostMemory,
    HostShape, IommuMemorySliceIterator, Named, VolatileSlice,
};

// A memory with the number of the region of its last access, which an access asks first.
#[derive(Drop)]
pub(super) struct KeptMemory<R: GuestMemoryRegion, I: Iommu> {
    pub(super) memory: MachineMemory<R, I>,
    pub(super) hint: Cell<usize>,
}

impl<R: GuestMemoryRegion, I: Iommu> Model for KeptMemory<R, I> {
    ghost use Rattle.vm_memory_device.specs.declared.machine_memory.MachineMemory.{MachineMemory};

    ghost Value = { MachineMemory R I };

    ghost view = { λ k. k.memory };
}

impl<R: GuestMemoryRegion, I: Iommu> KeptMemory<R, I> {
    // The memory of either kind.
    #[inline(always)]
    pub(super) fn kind(&self) -> &MachineMemory<R, I>
        ensures { result.now ≡ self.now }
    {
        &self.memory
    }

    // The memory behind an IOMMU, if it has one.
    pub(super) fn translated(&self) -> Option<&IommuMemory<GuestRegionCollection<R>, I>>
        ensures { MatchOption result ((memory_meant R.region I.number self.now).iommu ≡ None)
            (λ memory. self.now ≡ Translated memory.now) }
    {
        self.memory.translated()
    }

    // Turns its IOMMU on or off, if it has one.
    pub(super) fn turn(&mut self, on: bool) -> Result<(), Refusal>
        ensures { (replied as_done result, self.new) ≡ turned_memory self.old on }
    {
        match &mut self.memory {
            MachineMemory::Plain(_) => Err(Refusal::NoSuch),
            MachineMemory::Translated(memory) => {
                memory.set_iommu_enabled(on);
                Ok(())
            }
        }
    }
}

impl<R: GuestMemoryRegion, I: Iommu> Named for KeptMemory<R, I> {
    ghost use Rattle.vm_memory_guest.specs.Memory.{memory_names};

    ghost names = { λ m. memory_names (memory_meant R.region I.number m) };

    fn held_by(&self, shape: &HostShape) -> bool {
        self.memory.held_by(shape)
    }
}

impl<R: GuestMemoryRegion, I: Iommu> GuestMemory for KeptMemory<R, I> {
    ghost use Rattle.std.specs.Prelude.{refl};
    ghost use Rattle.vm_memory_device.specs.Memories.{each_fits};

    type PhysicalMemory = GuestRegionCollection<R>;

    ghost memory = { memory_meant R.region I.number };

    ghost each_fits = { each_fits R.region R.fits I.number };

    ghost names_memory = { λ m. refl };

    #[inline]
    fn get_slices<B: Bitmap>(
        &self,
        host: &HostMemory<B>,
        addr: GuestAddress,
        count: usize,
        access: Permissions,
    ) -> GuestMemoryResult<IommuMemorySliceIterator<'_, GuestRegionCollection<R>>> {
        self.memory.get_slices(host, addr, count, access)
    }

    #[inline(always)]
    fn find_window<B: Bitmap>(
        &self,
        host: &HostMemory<B>,
        addr: GuestAddress,
        count: usize,
        access: Permissions,
        _hint: usize,
    ) -> (Option<VolatileSlice>, usize) {
        let hint = self.hint.get();
        let (found, next) = self.memory.find_window(host, addr, count, access, hint);
        self.hint.set(next);
        (found, next)
    }

    #[inline]
    fn physical_memory(&self) -> Option<&GuestRegionCollection<R>> {
        self.memory.physical_memory()
    }
}
