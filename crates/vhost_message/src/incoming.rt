//! Messages as they come over a channel.
ghost use Rattle.std.specs.Prelude.{◌≡◌, ◌+◌, ◌≤◌, [], length, Ok, IfOk, IfSome};
ghost use Rattle.vhost_message.specs.Channel.{Looks, ReadsOn};
ghost use Rattle.vhost_message.specs.Stream.{Feeds, Takes, wanted};

use crate::channel::{ChannelError, Receive};
use crate::message::{HEADER_LEN, MAX_MESSAGE, Message};
use crate::refusal::Refusal;
use crate::requests::expects;
use std::marker::Model;
use std::mem;

/// What has come of the next message. Contracts see its bytes.
#[derive(Debug, Drop)]
pub struct Incoming {
    message: Message,
}

impl Model for Incoming {
    ghost use Rattle.std.specs.Prelude.{List, ℕ};

    ghost Value = { List ℕ };

    ghost view = { λ i. i.message };
}

impl Incoming {
    /// Nothing has come yet.
    pub fn new() -> Incoming
        ensures { result ≡ [] }
    {
        Incoming {
            message: Message::new(),
        }
    }

    /// How many bytes are still needed: of the header, and if that is there, of the payload. 0 if the message is whole.
    /// The errors are those of `expects`: what follows is not a message.
    pub fn wanted(&self) -> Result<usize, Refusal>
        ensures exact { result ≡ wanted self.now }
        ensures room { IfOk result (λ count. length self.now + count ≤ 280) }
    {
        let len = self.message.len();
        if len < HEADER_LEN {
            return Ok(HEADER_LEN - len);
        }
        let expected = expects(&self.message.header())?;
        Ok((HEADER_LEN + expected.payload).saturating_sub(len))
    }

    /// Takes the bytes that are still needed, from the front of what came, and returns how many. It is called again
    /// with the others: of the header first, and then of the payload.
    pub fn feed(&mut self, bytes: &[u8]) -> Result<usize, Refusal>
        ensures { Feeds self.old bytes.now result self.new }
    {
        let count = self.wanted()?.min(bytes.len());
        self.message.extend(&bytes[..count]);
        Ok(count)
    }

    /// The message, if it is whole. Then nothing is kept.
    pub fn take(&mut self) -> Option<Message>
        ensures takes { Takes self.old result self.new }
        ensures header { IfSome result (λ message. 12 ≤ length message) }
    {
        match self.wanted() {
            Ok(0) => Some(mem::replace(&mut self.message, Message::new())),
            _ => None,
        }
    }

    // Reads once, of a message that is not whole, as many bytes as are wanted at most. It returns whether some came.
    fn read_on<R: Receive>(&mut self, reader: &mut R) -> Result<bool, ChannelError>
        requires { wanted self.old ≡ Ok 0 → ⊥ }
        ensures { ReadsOn R.gives self.old reader.old result self.new reader.new }
    {
        let wanted = match self.wanted() {
            Ok(wanted) => wanted,
            Err(refusal) => return Err(ChannelError::Refused(refusal)),
        };
        let mut bytes = [0; MAX_MESSAGE];
        let count = reader.receive(&mut bytes[..wanted])?;
        self.message.extend(&bytes[..count]);
        Ok(count > 0)
    }

    /// The next message, if all of it has come: the one that is spelled by the bytes that are kept and those that the
    /// channel gives now. What it gives of a message that is not whole is kept for later calls.
    ///
    /// It reads at most twice, no byte past the message, and waits no longer than the channel does. `Refused` with the
    /// errors of `expects` if what came is not a message: so it is at each later call, which then reads nothing.
    pub fn look<R: Receive>(&mut self, reader: &mut R) -> Result<Option<Message>, ChannelError>
        ensures looks { Looks R.gives self.old reader.old result self.new reader.new }
        ensures header { IfOk result (λ o. IfSome o (λ message. 12 ≤ length message)) }
    {
        for _read in 0..2u32 {
            if let Some(message) = self.take() {
                return Ok(Some(message));
            }
            if !self.read_on(reader)? {
                return Ok(None);
            }
        }
        Ok(self.take())
    }
}
