//! Channels, from which the bytes of messages come, and to which they go.
ghost use Rattle.std.specs.Prelude.{ℕ, ◌<◌, ◌≤◌, List, length, Result, IfOk};
ghost use Rattle.vhost_message.specs.Channel.{GivenOf, given};
ghost use Rattle.vhost_message.specs.declared.channel.ChannelError.{ChannelError};

use crate::refusal::Refusal;
use std::io::{ErrorKind, Read};
use thiserror::Error;

/// Why a channel is of no more use.
#[derive(Clone, Copy, Debug, PartialEq, Eq, Error)]
pub enum ChannelError {
    /// The other end closed it.
    #[error("channel ended")]
    Ended,
    /// Reading or writing failed.
    #[error("channel failed")]
    Failed,
    /// What came does not begin a message that is due, for this reason. So where the next one begins is not known.
    #[error("{0}")]
    Refused(Refusal),
}

/// Where the bytes of a channel come from. Each reader of the standard library is one: there `WouldBlock`, `TimedOut`
/// and `Interrupted` say that nothing is there yet.
///
/// Its ghost member names what a read gave. So a contract can say of any channel which message its bytes are, and that
/// a read found nothing.
///
/// Leaves open: for a reader of the standard library, that a read finds nothing, or fails, at any time. Then it took no
/// byte, and if its bytes are known, `Ended` comes only at their end.
pub trait Receive {
    /// What a read may give: the channel, the bytes that it gave or why no more comes, and the channel afterwards.
    ghost gives: { Self → Result (List ℕ) ChannelError → Self → Type 0 };

    /// Reads once, and returns how many bytes came, to the front of the buffer: 0 if none are there yet. `Ended` if the
    /// other end closed the channel, and `Failed` if it cannot be read.
    fn receive(&mut self, buf: &mut [u8]) -> Result<usize, ChannelError>
        requires room { 0 < length buf.old }
        ensures most { IfOk result (λ count. count ≤ length buf.old) }
        ensures gives { gives self.old (given result buf.new) self.new };
}

impl<R: Read> Receive for R {
    ghost gives = { λ old g new. GivenOf (R.remaining old) g (R.remaining new) };

    fn receive(&mut self, buf: &mut [u8]) -> Result<usize, ChannelError> {
        match self.read(buf) {
            Ok(0) => Err(ChannelError::Ended),
            Ok(count) => Ok(count),
            Err(error) => match error.kind() {
                ErrorKind::WouldBlock | ErrorKind::TimedOut | ErrorKind::Interrupted => Ok(0),
                _ => Err(ChannelError::Failed),
            },
        }
    }
}
