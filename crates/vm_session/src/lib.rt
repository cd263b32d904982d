//! A session: a machine that is made and runs by calls of plain numbers, for callers that are not Rattle.
#![tactic(auto)]

mod answer;
mod call;
mod code;
mod commands;
mod device_memory;
pub mod laws;
mod lists;
mod marks;
mod messages;
mod miss;
mod packed_answer;
mod parts;
mod queue;
mod queue_answer;
mod requests;
mod retry;
mod session;
mod setup;
mod steps;
mod transfers;
mod words;
mod work;

pub use call::{Answer, Call, Kind, Miss, QueuePart};
pub use session::Session;
