//! What a vhost back end writes down of the requests that it has in flight, in a region that outlives it: the stores of
//! each call in their order, and where a queue goes on after a crash at any of them. The crate's README.md has the
//! rules.
#![tactic(auto)]

mod packed;
mod packed_error;
pub mod packed_examples;
pub mod packed_laws;
mod packed_region;
mod packed_start;
mod split;
pub mod split_examples;
pub mod split_laws;
mod split_region;
mod split_start;
mod store;

pub use packed::{PackedInFlight, PackedReturn, PackedStore};
pub use packed_error::PackedStartError;
pub use packed_region::{
    PackedCopy, PackedEntry, PackedHeader, PackedPosition, packed_old_slot, packed_region_len,
};
pub use packed_start::{PackedAgain, PackedStart, start_packed};
pub use split::{SplitInFlight, SplitStore};
pub use split_region::{SplitEntry, SplitHeader, split_region_len};
pub use split_start::{SplitStart, StartError, start_split};
pub use store::{Store, Value};
