//! Tests of transfers of guest memory, with their expected values as data.
#![tactic(auto)]

#[cfg(test)]
mod torn;
#[cfg(test)]
mod tracked;
#[cfg(test)]
mod transfers;
