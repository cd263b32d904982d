//! Kinds of regions for tests: whole blocks up to the greatest address, and addresses without host bytes; and hosts
//! that are marked by a marker.
#![tactic(auto)]

pub mod marked;
pub mod places;
pub mod regions;

pub use marked::{MarkedHost, marked_host, memory_of_block, next_marker};
pub use places::{AROUND_A_HOLE, BEFORE_A_BARE_REGION, Place, memory_of, regions_of, window_of};
pub use regions::TestRegion;
