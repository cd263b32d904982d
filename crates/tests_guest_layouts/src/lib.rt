//! Tests of blocks, ranges and layouts, with their expected values as data.
#![tactic(auto)]

#[cfg(test)]
mod changes;
#[cfg(test)]
mod layouts;
#[cfg(test)]
mod ranges;
#[cfg(test)]
mod thousands;
