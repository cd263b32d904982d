//! What holds of every chain, and of every table that calls changed: each function here is a theorem, and does nothing.

pub mod chains;
pub mod tables;
