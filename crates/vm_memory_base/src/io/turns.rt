//! Retries after interruptions.
ghost use Rattle.std.specs.Prelude.{◌≡◌, ◌≤◌, length, IfOk};
ghost use Rattle.vm_memory_base.specs.Transfer.{is_interrupted, Reads, Again, TakesOnce};

use super::{ReadVolatile, VolatileMemoryError, VolatileMemoryResult, WriteVolatile};
use std::io::ErrorKind;

/// How many times in a row a try is made again after an interruption.
pub const RETRIES: usize = 64;

/// Whether a try was interrupted.
pub fn is_interrupted<T>(answer: &VolatileMemoryResult<T>) -> bool
    ensures { result ≡ is_interrupted answer.now }
{
    match answer {
        Err(VolatileMemoryError::IOError(error)) => error.kind() == ErrorKind::Interrupted,
        _ => false,
    }
}

// Reads once. An interruption sets the flag.
fn read_once<S: ReadVolatile>(
    source: &mut S,
    buf: &mut [u8],
    interrupted: &mut bool,
) -> VolatileMemoryResult<usize>
    ensures count { IfOk result (λ count. count ≤ length buf.old) }
    ensures reads { Reads S.source S.reads (source.old, buf.old, interrupted.old) result
        (source.new, buf.new, interrupted.new) }
{
    let answer = source.read_volatile(buf);
    if is_interrupted(&answer) {
        *interrupted = true;
    }
    answer
}

// Reads, and again after each interruption, at most 64 times.
pub(super) fn read_again<S: ReadVolatile>(
    source: &mut S,
    buf: &mut [u8],
    interrupted: &mut bool,
) -> VolatileMemoryResult<usize>
    ensures count { IfOk result (λ count. count ≤ length buf.old) }
    ensures reads { Again (Reads S.source S.reads) (source.old, buf.old, interrupted.old) result
        (source.new, buf.new, interrupted.new) }
{
    let mut left = RETRIES;
    while left > 0 {
        let answer = read_once(source, buf, interrupted);
        if !is_interrupted(&answer) {
            return answer;
        }
        left -= 1;
    }
    read_once(source, buf, interrupted)
}

/// Writes once, and again after each interruption, at most 64 times in a row. The 65th interruption
/// is returned, and any other error at once.
pub fn offer_again<S: WriteVolatile>(sink: &mut S, buf: &[u8]) -> VolatileMemoryResult<usize>
    ensures count { IfOk result (λ count. count ≤ length buf.now) }
    ensures writes { Again (TakesOnce S.sink S.taken S.may_want S.writes buf.now) sink.old result sink.new }
{
    let mut left = RETRIES;
    while left > 0 {
        let answer = sink.write_volatile(buf);
        if !is_interrupted(&answer) {
            return answer;
        }
        left -= 1;
    }
    sink.write_volatile(buf)
}
