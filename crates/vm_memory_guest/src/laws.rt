//! What holds of the definitions of hosts, layouts, paths, writes, accesses, loads, stores, copies and transfers,
//! whatever the code does: each function here is a theorem, and does nothing.

pub mod accesses;
pub mod effects;
pub mod host;
pub mod paths;
pub mod regions;
pub mod transfers;
pub mod typed;
