//! What holds of every step and every run of a machine, and of every script, whatever the code does: each function here
//! is a theorem, and does nothing.

pub mod log;
pub mod machine;
pub mod scripts;
