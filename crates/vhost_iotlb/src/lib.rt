//! A vhost back end's part of a device's I/O table: what the front end's messages make of a bounded table, and ranges
//! that are taken from it piece by piece. The crate's README.md has the rules.
#![tactic(auto)]

mod kept;
pub mod laws;
mod leads;
mod table;
mod taking;
pub mod taking_laws;

pub use kept::{Change, Kept, any_differs, differs};
pub use leads::{Lead, lead_of};
pub use table::{DeviceTable, Refusal, change_of, take_back};
pub use taking::{Progress, Taking, Want};
pub use vhost_message::{IotlbMessage, Malformed, MemoryRegion, MemoryRegions};
