//! Tests of sizes well past small ones, where memory is ample: none of these calls fails to allocate; and of scripts:
//! how they end, and long ones. Rows of text have other scripts, in bindings/rust/tests/rows/scripts.
#![tactic(auto)]

#[cfg(test)]
mod calls;
#[cfg(test)]
mod ends;
#[cfg(test)]
mod interruptions;
#[cfg(test)]
mod long;
#[cfg(test)]
mod moved;
#[cfg(test)]
mod runs;
