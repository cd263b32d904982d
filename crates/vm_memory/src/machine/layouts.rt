//! The commands that make layouts and memories.
ghost use Rattle.std.specs.Prelude.{◌≡◌, ◌↔◌, ◌<◌, ◌⊎◌, ◌++◌, ◌∷◌, [], length, All, IsTrue, IsSome, IfOk, Ok, Err};
ghost use Rattle.std.specs.Prelude.{Some, map};
ghost use Rattle.vm_memory_guest.specs.Collection.{regions_of};
ghost use Rattle.vm_memory.specs.Machine.{Step};
ghost use Rattle.vm_memory.specs.Parts.{HoldsRegions, state_of};
ghost use Rattle.vm_memory.specs.Reply.{replied};
ghost use Rattle.vm_memory.specs.State.{named};
ghost use Rattle.vm_memory.specs.declared.machine.command.Command.TheVariants as command;
ghost use Rattle.vm_memory.specs.declared.machine.command.Reply.TheVariants as reply;
ghost use Rattle.vm_memory.specs.declared.machine.refusal.Refusal.TheVariants as refusal;

use super::Machine;
use super::refusal::Refusal;
use std::alloc::{AllocError, Global};
use std::sync::Arc;
use vm_memory_base::{ExactBitmap, GuestAddress, GuestUsize};
use vm_memory_device::Iommu;
use vm_memory_guest::{GuestMemoryBackend, GuestMemoryRegion, GuestRegionCollection};

impl<R: GuestMemoryRegion, I: Iommu, B: ExactBitmap> Machine<R, I, B> {
    /// Makes the layout of these regions of the pool, and returns its number. `NoSuch` if a number names no region.
    /// Each error of `GuestRegionCollection::from_arc_regions` becomes the fault of its name, except `Memory`.
    pub fn from_regions(&mut self, numbers: &[usize]) -> Result<usize, Refusal>
        ensures { let before = state_of R.region I.number B.pages self.old in
            Step before (command.FromRegions numbers.now) (replied reply.Layout result)
            (state_of R.region I.number B.pages self.new) }
    {
        if !are_there(&self.regions, numbers) {
            return Err(Refusal::NoSuch);
        }
        let Ok(regions) = shared(self.alloc, &self.regions, numbers) else {
            return Err(Refusal::Memory);
        };
        match GuestRegionCollection::from_arc_regions(regions) {
            Ok(layout) => self.add_layout(layout),
            Err(error) => Err(Refusal::from(error)),
        }
    }

    /// Makes a layout with one more region of the pool, and returns its number. `NoSuch` if there is no such
    /// layout or region. Each error of `GuestRegionCollection::insert_region` becomes the fault of its name, except
    /// `Memory`.
    pub fn insert(&mut self, layout: usize, region: usize) -> Result<usize, Refusal>
        ensures { let before = state_of R.region I.number B.pages self.old in
            Step before (command.Insert layout region) (replied reply.Layout result)
            (state_of R.region I.number B.pages self.new) }
    {
        let (Some(layout), Some(region)) = (self.layout_at(layout), self.region_at(region)) else {
            return Err(Refusal::NoSuch);
        };
        let Ok(region) = region.clone() else {
            return Err(Refusal::Memory);
        };
        match layout.insert_region(region) {
            Ok(layout) => self.add_layout(layout),
            Err(error) => Err(Refusal::from(error)),
        }
    }

    /// Makes a layout without the region of exactly these addresses, `size` of them from `base` on, and returns
    /// its number. `NoSuch` if there is no such layout. Each error of `GuestRegionCollection::remove_region` becomes
    /// the fault of its name, except `Memory`.
    pub fn remove(
        &mut self,
        layout: usize,
        base: GuestAddress,
        size: GuestUsize,
    ) -> Result<usize, Refusal>
        ensures { let before = state_of R.region I.number B.pages self.old in
            Step before (command.Remove layout base size) (replied reply.Layout result)
            (state_of R.region I.number B.pages self.new) }
    {
        let Some(old) = self.layout_at(layout) else {
            return Err(Refusal::NoSuch);
        };
        match old.remove_region(base, size) {
            Ok((layout, _)) => self.add_layout(layout),
            Err(error) => Err(Refusal::from(error)),
        }
    }

    // Makes a layout the next, where its regions are held.
    fn add_layout(&mut self, layout: GuestRegionCollection<R>) -> Result<usize, Refusal>
        requires { HoldsRegions R.region self.old.host layout }
        ensures { ((result ≡ Ok (length self.old.layouts))
            × (self.new ≡ record self.old { layouts = self.old.layouts ++ layout ∷ [] }))
            ⊎ ((result ≡ Err refusal.Memory) × (self.new ≡ self.old)) }
    {
        layout.recall_law();
        let number = self.layouts.len();
        if self.layouts.push(layout).is_err() {
            return Err(Refusal::Memory);
        }
        Ok(number)
    }
}

// Whether each number names a region of the pool.
fn are_there<R: GuestMemoryRegion>(pool: &Vec<Arc<R>>, numbers: &[usize]) -> bool
    ensures { IsTrue result ↔ IsSome (named (map R.region (regions_of pool.now)) numbers.now) }
{
    all_below(numbers, pool.len())
}

fn all_below(numbers: &[usize], bound: usize) -> bool
    ensures { IsTrue result ↔ All (λ number. number < bound) numbers.now }
{
    numbers.iter().all(|number| *number < bound)
}

// The regions of these numbers, each shared once more.
fn shared<R: GuestMemoryRegion>(
    alloc: Global,
    pool: &Vec<Arc<R>>,
    numbers: &[usize],
) -> Result<Vec<Arc<R>>, AllocError>
    requires { IsSome (named (map R.region (regions_of pool.now)) numbers.now) }
    ensures { IfOk result (λ regions. named (map R.region (regions_of pool.now)) numbers.now
        ≡ Some (map R.region (regions_of regions))) }
{
    let mut regions = Vec::with_capacity(alloc, numbers.len())?;
    for number in numbers {
        regions.push(pool[*number].clone()?)?;
    }
    Ok(regions)
}
