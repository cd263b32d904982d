//! Tests of windows, of accesses and values of a type in them, and of the pages that the writes of a host mark, with
//! their expected values as data.
#![tactic(auto)]

#[cfg(test)]
mod accesses;
pub mod cells;
#[cfg(test)]
mod marks;
#[cfg(test)]
mod typed;
#[cfg(test)]
mod windows;
