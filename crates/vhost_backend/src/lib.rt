//! A vhost-user back end as a state machine: events come in, actions go out, and no system call is made. The crate's
//! README.md has the rules.
#![tactic(auto)]

mod backend;
mod block;
mod block_backend;
mod block_connection;
pub mod block_laws;
mod block_queue;
mod block_queues;
mod connection_memory;
pub mod crash_laws;
pub mod current_laws;
mod deeds;
pub mod examples;
mod fetch;
pub mod fetch_laws;
mod flight;
mod given;
pub mod goes_on_laws;
mod kept_ranges;
mod kicks;
pub mod laws;
mod mapping;
pub mod messages_laws;
pub mod packed_crash_laws;
mod packed_flight;
mod page_list;
mod parts;
mod pieces;
mod questions;
mod reach;
mod region;
mod request;
mod ring;
mod ring_memory;
mod rings;
pub mod rows;
pub mod run_laws;
mod set_up;
mod table_change;
mod table_counts;
mod turn;
mod wanted;
pub mod whole_laws;

pub use backend::{Backend, Finish, Next, Outcome, Place, Todo};
pub use block::{BlockStep, block_parts, block_step, len_of, status_of, written_of};
pub use block_backend::{BlockBackend, Returning};
pub use block_connection::{BlockConnection, BlockDisk, open};
pub use block_queue::{Asked, BlockQueue, Finished, GiveBack, Origin, Pop, Way};
pub use block_queues::{BlockQueues, Reached};
pub use connection_memory::{ConnectionMemory, RegionPiece};
pub use deeds::{Ask, Deed, Limits, Made, Why};
pub use fetch::{
    Fetch, Found, Goal, State, chain_wants, drop_changed, guest_chain, has_gap, resume, ring_wants,
    status_want,
};
pub use flight::{Flight, FlightPlace};
pub use kept_ranges::{forget_all, keep_all};
pub use kicks::Kicks;
pub use mapping::Mapping;
pub use page_list::{PageList, PageRange};
pub use parts::{PART, Part, next_part, parts_are_the_data_in_order, parts_of};
pub use pieces::{Piece, piece_from};
pub use questions::{Miss, Questions, SentMiss};
pub use reach::{KeptList, Reach};
pub use region::{Region, RegionBytes};
pub use request::{Chain, PartEnd};
pub use ring::{RingAction, RingActions, RingEvent};
pub use ring_memory::{Lent, Logged, Looked, Marks, RingMemory};
pub use rings::{Actions, Event, Rings, TURN, TURN_BYTES};
pub use table_change::TableChange;
pub use table_counts::TableCounts;
pub use turn::take_step;
pub use wanted::{Purpose, Wanted};
