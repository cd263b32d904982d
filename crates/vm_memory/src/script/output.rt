//! What a script writes: texts, which are buffered until many of them are written at once.
ghost use Rattle.std.specs.Prelude.{◌≡◌, ◌≤◌, ◌++◌, [], length, take, drop, IsTrue, MatchOption};
ghost use Rattle.std.specs.Io.KnownBytes.{Appends, Keeps};
ghost use Rattle.vm_memory.specs.Told.{Puts};

use std::io::{ErrorKind, Write};

// At most this many bytes of texts wait.
pub(super) const ROOM: usize = 0x2000;

/// Takes a text, and buffers it after those before it, or writes them. Returns false if the output fails.
pub(super) fn put<W: Write>(output: &mut W, waiting: &mut Vec<u8>, text: &[u8]) -> bool
    ensures { Puts (W.contents output.old) waiting.old.items text.now result (W.contents output.new) waiting.new.items }
{
    if text.len() > ROOM.saturating_sub(waiting.len()) {
        return write_and_put(output, waiting, text);
    }
    waiting.extend_from_slice(text).is_ok()
}

// Writes what waits, and then takes a text, or writes a long one.
fn write_and_put<W: Write>(output: &mut W, waiting: &mut Vec<u8>, text: &[u8]) -> bool
    ensures { Puts (W.contents output.old) waiting.old.items text.now result (W.contents output.new) waiting.new.items }
{
    if !write_all(output, waiting.as_slice()) {
        return false;
    }
    waiting.clear();
    if text.len() < ROOM {
        return waiting.extend_from_slice(text).is_ok();
    }
    write_all(output, text)
}

/// Writes bytes. Returns false if the output fails; then it may have taken the first of them.
pub(super) fn write_all<W: Write>(output: &mut W, bytes: &[u8]) -> bool
    ensures { Puts (W.contents output.old) [] bytes.now result (W.contents output.new) [] }
{
    write_out(output, bytes) == bytes.len()
}

// Writes bytes until the output fails, and returns how many it took.
#[tactic(auto, using(crate::proofs::ToldLemmas::one_after_other))]
fn write_out<W: Write>(output: &mut W, bytes: &[u8]) -> usize
    ensures bound { result ≤ length bytes.now }
    ensures wrote { Appends (W.contents output.old) (W.contents output.new) (take result bytes.now) }
{
    let mut written = 0;
    while written < bytes.len() {
        match write_again(output, &bytes[written..]) {
            Some(count) if count > 0 => written += count,
            _ => return written,
        }
    }
    written
}

// Writes the first of these bytes, and tries again if it is interrupted. `None` if the output fails.
#[tactic(auto, using(crate::proofs::ToldLemmas::one_after_other))]
fn write_again<W: Write>(output: &mut W, bytes: &[u8]) -> Option<usize>
    ensures { MatchOption result (Keeps (W.contents output.old) (W.contents output.new))
        (λ count. (count ≤ length bytes.now)
        × Appends (W.contents output.old) (W.contents output.new) (take count bytes.now)) }
{
    for _ in 0..u64::MAX {
        match output.write(bytes) {
            Ok(count) => return Some(count),
            Err(error) if error.kind() == ErrorKind::Interrupted => {}
            Err(_) => return None,
        }
    }
    None
}
