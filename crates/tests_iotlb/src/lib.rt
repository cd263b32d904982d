//! Tests of tables that a front end fills: messages as bytes, ranges and limits, and ranges that are taken piece by
//! piece.
#![tactic(auto)]

#[cfg(test)]
mod invalidations;
#[cfg(test)]
mod large;
#[cfg(test)]
mod limits;
#[cfg(test)]
mod messages;
#[cfg(test)]
mod payloads;
#[cfg(test)]
mod streams;
#[cfg(test)]
mod taking;
#[cfg(test)]
mod witnesses;
#[cfg(test)]
mod worlds;
