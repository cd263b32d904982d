//! Guest memory with or without an IOMMU.
ghost use Rattle.std.specs.Prelude.{◌≡◌, None, MatchOption};
ghost use Rattle.vm_memory_device.specs.Memories.{memory_meant};
ghost use Rattle.vm_memory_device.specs.declared.machine_memory.MachineMemory.TheVariants.{Translated};
ghost use Rattle.vm_memory_guest.specs.Memory.{memory_names};
ghost use Rattle.vm_memory_guest.specs.Region.{IsLayout};

use crate::iommu::{Iommu, IommuMemory};
use vm_memory_base::{Bitmap, GuestAddress, Permissions};
use vm_memory_guest::laws::host::names_are_held_one_by_one;
use vm_memory_guest::{
    GuestMemory, GuestMemoryBackend, GuestMemoryRegion, GuestMemoryResult, GuestRegionCollection,
    HostMemory, HostShape, IommuMemorySliceIterator, Named, VolatileSlice,
};

/// A memory of a machine: guest memory with or without an IOMMU. Each access of a machine is one of either kind.
#[derive(Drop)]
pub enum MachineMemory<R: GuestMemoryRegion, I: Iommu> {
    /// A layout whose addresses are physical.
    Plain(GuestRegionCollection<R>),
    /// A layout behind an IOMMU, which may be off.
    Translated(IommuMemory<GuestRegionCollection<R>, I>),
}

impl<R: GuestMemoryRegion, I: Iommu> MachineMemory<R, I> {
    /// The memory behind an IOMMU, if it has one.
    pub fn translated(&self) -> Option<&IommuMemory<GuestRegionCollection<R>, I>>
        ensures { MatchOption result ((memory_meant R.region I.number self.now).iommu ≡ None)
            (λ memory. self.now ≡ Translated memory.now) }
    {
        match self {
            MachineMemory::Plain(_) => None,
            MachineMemory::Translated(memory) => Some(memory),
        }
    }

    /// Does nothing: its regions are a layout.
    pub fn recall_law(&self)
        ensures { IsLayout (memory_meant R.region I.number self.now).regions }
    {
        match self {
            MachineMemory::Plain(layout) => layout.recall_law(),
            MachineMemory::Translated(memory) => memory.get_backend().recall_law(),
        }
    }
}

impl<R: GuestMemoryRegion, I: Iommu> Named for MachineMemory<R, I> {
    ghost names = { λ m. memory_names (memory_meant R.region I.number m) };

    fn held_by(&self, shape: &HostShape) -> bool {
        names_are_held_one_by_one();
        match self {
            MachineMemory::Plain(layout) => layout.held_by(shape),
            MachineMemory::Translated(memory) => memory.held_by(shape),
        }
    }
}

impl<R: GuestMemoryRegion, I: Iommu> GuestMemory for MachineMemory<R, I> {
    ghost use Rattle.std.specs.Prelude.{refl};
    ghost use Rattle.vm_memory_device.specs.Memories.{each_fits};

    type PhysicalMemory = GuestRegionCollection<R>;

    ghost memory = { memory_meant R.region I.number };

    ghost each_fits = { each_fits R.region R.fits I.number };

    ghost names_memory = { λ m. refl };

    #[inline]
    fn get_slices<B: Bitmap>(
        &self,
        host: &HostMemory<B>,
        addr: GuestAddress,
        count: usize,
        access: Permissions,
    ) -> GuestMemoryResult<IommuMemorySliceIterator<'_, GuestRegionCollection<R>>> {
        match self {
            MachineMemory::Plain(layout) => {
                GuestMemory::get_slices(layout, host, addr, count, access)
            }
            MachineMemory::Translated(memory) => memory.get_slices(host, addr, count, access),
        }
    }

    #[inline(always)]
    fn find_window<B: Bitmap>(
        &self,
        host: &HostMemory<B>,
        addr: GuestAddress,
        count: usize,
        access: Permissions,
        hint: usize,
    ) -> (Option<VolatileSlice>, usize) {
        match self {
            MachineMemory::Plain(layout) => {
                GuestMemory::find_window(layout, host, addr, count, access, hint)
            }
            MachineMemory::Translated(memory) => {
                memory.find_window(host, addr, count, access, hint)
            }
        }
    }

    #[inline]
    fn physical_memory(&self) -> Option<&GuestRegionCollection<R>> {
        match self {
            MachineMemory::Plain(layout) => Some(layout),
            MachineMemory::Translated(memory) => memory.physical_memory(),
        }
    }
}
