//! Tests of bitmaps and of references to them, with their expected values as data.
#![tactic(auto)]

#[cfg(test)]
mod atomic_bitmaps;
#[cfg(test)]
mod atomic_references;
#[cfg(test)]
mod bitmaps;
#[cfg(test)]
mod flags;
#[cfg(test)]
mod references;
#[cfg(test)]
mod slices;
#[cfg(test)]
mod tracked;
