//! The front end's ends of the two channels: messages go out, and messages come in.

use anyhow::bail;
use std::io::{Read, Write};
use vhost_message::{HEADER_LEN, Header, PAYLOAD_LEN};

/// A message as it came: its header, and its payload with zeros after a shorter one.
#[derive(Clone, Copy)]
pub struct Frame {
    pub header: Header,
    pub payload: [u8; PAYLOAD_LEN],
}

impl Frame {
    /// The number at the front of the payload.
    pub fn number(&self) -> u64 {
        let [a, b, c, d, e, f, g, h, ..] = self.payload;
        u64::from_le_bytes([a, b, c, d, e, f, g, h])
    }
}

/// One end of a channel.
#[derive(Drop)]
pub struct End<C> {
    pub stream: C,
}

impl<C: Read + Write> End<C> {
    /// The next message.
    pub fn next(&mut self) -> anyhow::Result<Frame> {
        let mut bytes = [0; HEADER_LEN];
        self.stream.read_exact(&mut bytes)?;
        let header = Header::decode(&bytes);
        let len = header.size as usize;
        let mut payload = [0; PAYLOAD_LEN];
        if len > PAYLOAD_LEN {
            bail!("a payload of {len} bytes");
        }
        self.stream.read_exact(&mut payload[..len])?;
        Ok(Frame { header, payload })
    }

    /// Sends a message.
    pub fn send(&mut self, header: Header, payload: &[u8]) -> anyhow::Result<()> {
        self.stream.write_all(&header.encode())?;
        self.stream.write_all(payload)?;
        Ok(())
    }

    /// Sends a message whose payload is numbers of 64 bits, which come one by one.
    pub fn send_numbers(&mut self, header: Header, numbers: &[u64]) -> anyhow::Result<()> {
        self.stream.write_all(&header.encode())?;
        for number in numbers {
            self.stream.write_all(&number.to_le_bytes())?;
        }
        Ok(())
    }

    /// Reads until the other end closes the channel. Nothing may come before but a reply that a request was refused.
    pub fn expect_end(&mut self, request: u32) -> anyhow::Result<()> {
        let mut bytes = [0; 64];
        let mut len = 0usize;
        for _ in 0..bytes.len() {
            let Some(rest) = bytes.get_mut(len..) else {
                break;
            };
            match self.stream.read(rest) {
                Ok(count) if count > 0 => len = len.saturating_add(count),
                _ => break,
            }
        }
        if len == 0 {
            return Ok(());
        }
        let [a, b, c, d, e, f, g, h, i, j, k, l, value, ..] = bytes;
        let header = Header::decode(&[a, b, c, d, e, f, g, h, i, j, k, l]);
        if len != 20 || header.request != request || !header.is_reply() || value == 0 {
            bail!("a malformed message was not refused");
        }
        Ok(())
    }
}
