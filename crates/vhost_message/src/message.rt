//! The bytes of a message.
ghost use Rattle.std.specs.Prelude.{◌≡◌, ◌+◌, ◌≤◌, [], ◌++◌, ◌==◌, length};
ghost use Rattle.vhost_message.specs.Channel.{Sends};
ghost use Rattle.vhost_message.specs.Header.{header_in};

use crate::channel::ChannelError;
use crate::header::Header;
use std::io::{ErrorKind, Write};
use std::marker::Model;

/// How many bytes a header has.
pub const HEADER_LEN: usize = 12;

/// How many bytes of configuration a message has at most.
pub const MAX_CONFIG: usize = 256;

/// How many bytes a message has at most: the header, three numbers, and configuration.
pub const MAX_MESSAGE: usize = 280;

/// The bytes of a message, or the first of them.
#[derive(Debug, Drop)]
pub struct Message {
    bytes: [u8; MAX_MESSAGE],
    len: usize,
}

impl Model for Message {
    ghost use Rattle.std.specs.Prelude.{List, ℕ, ◌≤◌, take};

    ghost Value = { List ℕ };

    ghost view = { λ m. take m.len m.bytes };

    ghost invariant = { λ m. m.len ≤ 280 };
}

// Writes bytes, all of them or a beginning.
fn send<W: Write>(bytes: &[u8], writer: &mut W) -> Result<(), ChannelError>
    ensures { Sends W.contents bytes.now writer.old result writer.new }
{
    if bytes.is_empty() {
        return Ok(());
    }
    let mut at = 0;
    for _ in 0..u64::MAX {
        if at == bytes.len() {
            return Ok(());
        }
        match writer.write(&bytes[at..]) {
            Ok(0) => return Err(ChannelError::Failed),
            Ok(count) => at += count,
            Err(error) if error.kind() == ErrorKind::Interrupted => {}
            Err(_) => return Err(ChannelError::Failed),
        }
    }
    Err(ChannelError::Failed)
}

impl Message {
    /// No bytes.
    pub fn new() -> Message
        ensures { result ≡ [] }
    {
        Message {
            bytes: [0; MAX_MESSAGE],
            len: 0,
        }
    }

    /// The number of bytes.
    pub fn len(&self) -> usize
        ensures count { result ≡ length self.now }
        ensures most { result ≤ 280 }
    {
        self.len
    }

    /// Whether there are no bytes.
    pub fn is_empty(&self) -> bool
        ensures { result ≡ (length self.now == 0) }
    {
        self.len == 0
    }

    /// The bytes.
    pub fn as_slice(&self) -> &[u8]
        ensures { result.now ≡ self.now }
    {
        &self.bytes[..self.len]
    }

    /// Adds bytes at the end, for which there has to be room.
    pub fn extend(&mut self, bytes: &[u8])
        requires { length self.old + length bytes.now ≤ 280 }
        ensures { self.new ≡ self.old ++ bytes.now }
    {
        let from = self.len;
        self.len = from + bytes.len();
        self.bytes[from..self.len].copy_from_slice(bytes);
    }

    /// The header, which has to be there.
    pub fn header(&self) -> Header
        requires { 12 ≤ length self.now }
        ensures { result ≡ header_in self.now }
    {
        Header::at_front(self.as_slice())
    }

    /// Writes the bytes to a channel. `Failed` if the writer fails: then it has a beginning of them.
    ///
    /// Leaves open: that a message of at least one byte is not sent, at any time. Then the writer has a beginning of
    /// it.
    pub fn send<W: Write>(&self, writer: &mut W) -> Result<(), ChannelError>
        ensures { Sends W.contents self.now writer.old result writer.new }
    {
        send(self.as_slice(), writer)
    }
}
