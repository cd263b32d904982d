//! What holds of the definitions of bytes, events, permissions, page sets, runs, tables and transfers,
//! whatever the code does: each function here is a theorem, and does nothing.

pub mod bytes;
pub mod events;
pub mod examples;
pub mod pages;
pub mod permissions;
pub mod runs;
pub mod table;
pub mod transfers;
