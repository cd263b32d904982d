//! The header of a message.
ghost use Rattle.std.specs.Prelude.{◌≡◌, ◌≤◌, length};
ghost use Rattle.vhost_message.specs.Header.{IsHeader, header_bytes, header_in, is_reply, needs_reply, version_of};
ghost use Rattle.vhost_message.specs.declared.header.Header.{Header};

use crate::numbers::word;

/// The version of the messages, in the two lowest bits of the flags.
pub const VERSION: u32 = 1;

/// The flag of a reply.
pub const VHOST_USER_REPLY: u32 = 4;

/// The flag of a message that asks for a reply.
pub const VHOST_USER_NEED_REPLY: u32 = 8;

/// The header of a message, of 12 bytes: any three numbers are a header.
#[derive(Clone, Copy, Debug, PartialEq, Eq)]
pub struct Header {
    /// What the message is.
    pub request: u32,
    /// The version, and whether it is a reply or asks for one. Other bits mean nothing.
    pub flags: u32,
    /// How many bytes follow.
    pub size: u32,
}

fn header_in(bytes: &[u8; 12]) -> Header
    ensures spelled { header_bytes result ≡ bytes.now }
    ensures fields { result ≡ header_in bytes.now }
{
    Header {
        request: u32::from_le_bytes([bytes[0], bytes[1], bytes[2], bytes[3]]),
        flags: u32::from_le_bytes([bytes[4], bytes[5], bytes[6], bytes[7]]),
        size: u32::from_le_bytes([bytes[8], bytes[9], bytes[10], bytes[11]]),
    }
}

impl Header {
    /// The header as it goes over a channel.
    pub fn encode(self) -> [u8; 12]
        ensures { result ≡ header_bytes self }
    {
        let [a, b, c, d] = self.request.to_le_bytes();
        let [e, f, g, h] = self.flags.to_le_bytes();
        let [i, j, k, l] = self.size.to_le_bytes();
        [a, b, c, d, e, f, g, h, i, j, k, l]
    }

    /// The header that these bytes are: each header has its own bytes.
    pub fn decode(bytes: &[u8; 12]) -> Header
        ensures spelled { header_bytes result ≡ bytes.now }
        ensures only { (h : Header) → IsHeader h → header_bytes h ≡ bytes.now → result ≡ h }
        ensures fields { result ≡ header_in bytes.now }
    {
        header_in(bytes)
    }

    /// The header at the front of these bytes.
    pub fn at_front(bytes: &[u8]) -> Header
        requires { 12 ≤ length bytes.now }
        ensures { result ≡ header_in bytes.now }
    {
        Header {
            request: word(bytes, 0),
            flags: word(bytes, 4),
            size: word(bytes, 8),
        }
    }

    /// The version: a message of a version other than `VERSION` is malformed.
    pub fn version(&self) -> u32
        ensures { result ≡ version_of self.now }
    {
        self.flags % 4
    }

    /// Whether it is a reply.
    pub fn is_reply(&self) -> bool
        ensures { result ≡ is_reply self.now }
    {
        self.flags / VHOST_USER_REPLY % 2 == 1
    }

    /// Whether a reply is asked for.
    pub fn needs_reply(&self) -> bool
        ensures { result ≡ needs_reply self.now }
    {
        self.flags / VHOST_USER_NEED_REPLY % 2 == 1
    }
}
