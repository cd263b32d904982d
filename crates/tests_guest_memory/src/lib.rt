//! Tests of values in guest memory, of questions about ranges and accesses by a callback, of snapshots of memory that
//! is replaced, and of the texts of errors.
#![tactic(auto)]

#[cfg(test)]
mod answers;
#[cfg(test)]
mod atomic;
#[cfg(test)]
mod moved;
#[cfg(test)]
mod snapshots;
#[cfg(test)]
mod texts;
#[cfg(test)]
mod values;
