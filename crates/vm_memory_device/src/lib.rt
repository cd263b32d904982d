//! What a device uses of guest memory: accesses through an IOMMU, and chains of descriptors.
#![tactic(auto)]

mod chain;
mod iommu;
pub mod laws;
mod machine_memory;

pub use chain::{Chain, ChainFault, ChainReader, ChainWriter, Segment};
pub use iommu::{Iommu, IommuMemory, TableIommu};
pub use machine_memory::MachineMemory;
