//! The sending end.

mod pages;
mod replies;
mod rounds;
mod stream;
mod tracked;

pub use pages::{SendError, Target};
pub use rounds::Rounds;
pub use stream::{SendStage, Sender};
