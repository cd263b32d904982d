//! Frames from a reader, and bytes to a writer.
ghost use Rattle.std.specs.Prelude.{◌≡◌, ℕ, ◌+◌, ◌^◌, ◌<◌, ◌≤◌, List, ◌++◌, length, take, IfOk, OnOk, OnErr};
ghost use Rattle.std.specs.Io.KnownBytes.{Appends, Consumes};
ghost use Rattle.live_migration.specs.Frame.{head};

use crate::frame::most_bytes;
use crate::refusal::Refusal;
use std::io::{self, ErrorKind, Read, Write};

// Fills all of a buffer.
pub(crate) fn fill<R: Read>(reader: &mut R, buf: &mut [u8]) -> Result<(), Refusal>
    ensures { OnOk result (Consumes (R.remaining reader.old) (R.remaining reader.new) buf.new) }
{
    match reader.read_exact(buf) {
        Ok(()) => Ok(()),
        Err(error) if error.kind() == ErrorKind::UnexpectedEof => Err(Refusal::Ended),
        Err(_) => Err(Refusal::Failed),
    }
}

// The kind and the length that a head says.
fn parts_of(bytes: &[u8; 8]) -> (u32, u32)
    ensures { head result.0 result.1 ≡ bytes.now }
{
    let kind = u32::from_le_bytes([bytes[0], bytes[1], bytes[2], bytes[3]]);
    let len = u32::from_le_bytes([bytes[4], bytes[5], bytes[6], bytes[7]]);
    (kind, len)
}

fn read_head<R: Read>(reader: &mut R) -> Result<(u32, u32), Refusal>
    ensures { IfOk result (λ h. Consumes (R.remaining reader.old) (R.remaining reader.new) (head h.0 h.1)) }
{
    let mut bytes = [0; 8];
    fill(reader, &mut bytes)?;
    Ok(parts_of(&bytes))
}

// Reads so many bytes in place of those of a list.
pub(crate) fn read_bytes<R: Read>(
    reader: &mut R,
    bytes: &mut Vec<u8>,
    len: usize,
) -> Result<(), Refusal>
    ensures consumed { OnOk result (Consumes (R.remaining reader.old) (R.remaining reader.new) bytes.new.items) }
    ensures len { OnOk result (length bytes.new.items ≡ len) }
{
    if bytes.resize(len, 0).is_err() {
        return Err(Refusal::Memory);
    }
    fill(reader, bytes.as_mut_slice())
}

// Reads a frame, and returns its kind. `FrameLength` where it is longer than its kind may be, where pages have at most
// `longest` bytes: then nothing of it is taken.
#[tactic(auto, using(crate::proofs::StreamLemmas::consumes_consumes))]
pub(crate) fn read_frame<R: Read>(
    reader: &mut R,
    payload: &mut Vec<u8>,
    longest: u32,
) -> Result<u32, Refusal>
    requires { longest ≤ 2 ^ 20 }
    ensures consumed { IfOk result (λ kind. Consumes (R.remaining reader.old) (R.remaining reader.new)
        (head kind (length payload.new.items) ++ payload.new.items)) }
    ensures short { OnOk result (length payload.new.items < 2 ^ 32) }
{
    let (kind, len) = read_head(reader)?;
    if len > most_bytes(kind, longest)? {
        return Err(Refusal::FrameLength);
    }
    read_bytes(reader, payload, len as usize)?;
    Ok(kind)
}

// Writes all bytes, or a beginning of them if the stream fails.
pub(crate) fn write_bytes<W: Write>(writer: &mut W, bytes: &[u8]) -> io::Result<()>
    ensures all { OnOk result (Appends (W.contents writer.old) (W.contents writer.new) bytes.now) }
    ensures some { OnErr result ((count : ℕ)
        × Appends (W.contents writer.old) (W.contents writer.new) (take count bytes.now)) }
{
    let mut at = 0;
    for _ in 0..u64::MAX {
        if at == bytes.len() {
            return Ok(());
        }
        match writer.write(&bytes[at..]) {
            Ok(0) => return Err(io::Error::from(ErrorKind::WriteZero)),
            Ok(count) => at += count,
            Err(error) if error.kind() == ErrorKind::Interrupted => {}
            Err(error) => return Err(error),
        }
    }
    Err(io::Error::from(ErrorKind::Other))
}
