//! Live migration: a guest's memory moves over a stream in rounds while it is written.
#![tactic(auto)]

mod digest;
mod fields;
mod frame;
mod header;
pub mod laws;
mod placing;
mod policy;
mod receiver;
mod refusal;
mod reply;
mod sender;
mod stream;
mod zeros;

pub use frame::{Frame, MOST_PAGE_BYTES};
pub use header::{BlockEntry, Header, MOST_BLOCKS, Options, decode_header, encode_header};
pub use policy::{Left, Policy, Rate, Stop};
pub use receiver::{Destination, Guest, Progress, Receiver, SECTION_COST, Section, Stage};
pub use refusal::Refusal;
pub use reply::Reply;
pub use sender::{Rounds, SendError, SendStage, Sender, Target};
