//! Tests of the block device, and of what rows of text in bindings/rust/tests do not reach of queues and chains.
#![tactic(auto)]

#[cfg(test)]
mod bench;
#[cfg(test)]
mod copies;
#[cfg(test)]
mod disks;
#[cfg(test)]
mod files;
#[cfg(test)]
mod flushes;
#[cfg(test)]
mod kicks;
#[cfg(test)]
mod own_disk;
#[cfg(test)]
mod packed;
#[cfg(test)]
mod queues;
#[cfg(test)]
mod racing;
#[cfg(test)]
mod random;
#[cfg(test)]
mod requests;
#[cfg(test)]
mod states;
#[cfg(test)]
mod steps;
