//! Tests of machines, and of memory behind an IOMMU.
#![tactic(auto)]

#[cfg(test)]
mod iommu;
#[cfg(test)]
mod machines;
#[cfg(test)]
mod rounds;
#[cfg(test)]
mod texts;
