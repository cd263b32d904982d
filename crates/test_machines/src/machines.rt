//! Machines of test regions.
ghost use Rattle.std.specs.Prelude.{IsTrue, map, flat_map};
ghost use Rattle.vm_memory_guest.specs.Collection.{regions_of};
ghost use Rattle.vm_memory_guest.specs.Host.{Holds, shape_of};
ghost use Rattle.vm_memory_guest.specs.Region.{region_names};
ghost use Rattle.test_regions.specs.Regions.{test_region};

use std::alloc::{AllocError, Global};
use std::sync::Arc;
use std::test::Fail;
use test_regions::{Place, TestRegion, regions_of};
use vm_memory::{Command, HostMemory, Journal, Machine, Reply, SharedMachine, TableIommu, run};
use vm_memory_guest::laws::host::regions_are_held_one_by_one;

/// A machine of such regions.
pub type TestMachine = Machine<TestRegion, TableIommu, ()>;

/// Its journal.
pub type TestJournal = Journal<TestRegion, TableIommu, ()>;

/// Such a machine, shared.
pub type TestShared = SharedMachine<TestRegion, TableIommu, ()>;

// Whether a host holds each region.
fn are_held(host: &HostMemory<()>, regions: &Vec<Arc<TestRegion>>) -> bool
    ensures { IsTrue result → Holds (shape_of host.now)
        (flat_map region_names (map test_region (regions_of regions.now))) }
{
    regions_are_held_one_by_one();
    regions.iter().all(|region| host.holds(&**region))
}

/// A machine of these regions, and nothing made yet.
pub fn machine_of(alloc: Global, places: &[Place]) -> Result<TestMachine, Fail> {
    let mut host = HostMemory::new(alloc);
    let regions = regions_of(alloc, &mut host, places)?;
    if !are_held(&host, &regions) {
        return Err(Fail::new("the host does not hold the regions"));
    }
    Ok(Machine::new(alloc, host, regions, Vec::new(alloc)))
}

/// Runs commands, and adds their replies. It promises its caller less than `run`, and so keeps the proof there short.
pub fn run_on(
    machine: &mut TestMachine,
    commands: &[Command],
    replies: &mut Vec<Reply>,
) -> Result<(), AllocError> {
    run(machine, commands, replies)
}
