//! Tests of live migrations: streams that a receiver takes or refuses, and whole migrations in rounds.
#![tactic(auto)]

#[cfg(test)]
mod aborts;
#[cfg(test)]
mod accesses;
#[cfg(test)]
mod bounds;
#[cfg(test)]
mod cuts;
#[cfg(test)]
mod frames;
#[cfg(test)]
mod guests;
#[cfg(test)]
mod harvests;
#[cfg(test)]
mod lengths;
#[cfg(test)]
mod moves;
#[cfg(test)]
mod receiving;
#[cfg(test)]
mod refusals;
#[cfg(test)]
mod replies;
#[cfg(test)]
mod sections;
#[cfg(test)]
mod steps;
#[cfg(test)]
mod streams;
#[cfg(test)]
mod tracked;
#[cfg(test)]
mod trials;
#[cfg(test)]
mod whole;
#[cfg(test)]
mod zeros;
