//! Looks up the regions, layouts and memories that a command numbers.
ghost use Rattle.std.specs.Prelude.{◌≡◌, ◌↔◌, ◌<◌, IfSome, IsTrue, length, option_map, slice_get};
ghost use Rattle.vm_memory_guest.specs.Host.{Holds, IsHeld, Tlb, shape_of};
ghost use Rattle.vm_memory_guest.specs.Region.{region_names};
ghost use Rattle.vm_memory.specs.Parts.{HoldsMemory, HoldsRegions};

use super::Machine;
use super::kept::KeptMemory;
use std::sync::Arc;
use vm_memory_device::Iommu;
use vm_memory_guest::{GuestMemoryRegion, GuestRegionCollection, SpaceId};

impl<R: GuestMemoryRegion, I: Iommu, B> Machine<R, I, B> {
    // A region of the pool. The host holds its bytes.
    pub(super) fn region_at(&self, number: usize) -> Option<&Arc<R>>
        ensures found { option_map (λ r. r.now.value) result ≡ slice_get self.now.regions number }
        ensures held { IfSome result (λ r. Holds (shape_of self.now.host) (region_names (R.region r.now.value))) }
    {
        self.regions.get(number)
    }

    // A translator of the pool. The host holds its table.
    pub(super) fn translator_at(&self, number: usize) -> Option<&Arc<I>>
        ensures found { option_map (λ i. i.now.value) result ≡ slice_get self.now.translators number }
        ensures held { IfSome result (λ i. IsHeld (shape_of self.now.host) (Tlb (I.number i.now.value))) }
    {
        self.translators.get(number)
    }

    // A layout. The host holds the bytes of its regions.
    pub(super) fn layout_at(&self, number: usize) -> Option<&GuestRegionCollection<R>>
        ensures found { option_map (λ rs. rs.now) result ≡ slice_get self.now.layouts number }
        ensures held { IfSome result (λ rs. HoldsRegions R.region self.now.host rs.now) }
    {
        self.layouts.get(number)
    }

    // A memory. The host holds what it names.
    pub(super) fn memory_at(&self, number: usize) -> Option<&KeptMemory<R, I>>
        ensures found { option_map (λ m. m.now) result ≡ slice_get self.now.memories number }
        ensures held { IfSome result (λ m. HoldsMemory R.region I.number self.now.host m.now) }
    {
        self.memories.get(number)
    }

    // Whether the host has this space.
    pub(super) fn has_space(&self, number: usize) -> bool
        ensures { IsTrue result ↔ number < length self.now.host.spaces }
    {
        self.host.shape().has_space(SpaceId(number))
    }
}
