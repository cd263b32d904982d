//! Tests of the vhost-user protocol: what front ends send, and what a back end makes of it.
#![tactic(auto)]

#[cfg(test)]
mod connections;
#[cfg(test)]
mod inflight_rows;
#[cfg(test)]
mod rows;
#[cfg(test)]
mod witnesses;
