#![tactic(auto)]

pub mod commands;
pub mod machines;

pub use commands::{layout_of, read_of, write_of};
pub use machines::{TestJournal, TestMachine, TestShared, machine_of, run_on};
