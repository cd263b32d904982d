//! What the definitions say in small cases, by computation: each function here is a theorem, and does nothing.

pub mod accesses;
pub mod layouts;
pub mod queries;
pub mod transfers;
pub mod typed;
