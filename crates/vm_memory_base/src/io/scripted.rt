//! Sources and sinks that follow a script.
ghost use Rattle.std.specs.Prelude.{◌≡◌, map, length, take, Some, None, [], ◌++◌, ◌-◌, min, IfOk, IsOk};
ghost use Rattle.vm_memory_base.specs.Script.{next_of, taking_of};

use super::in_memory::copy_front;
use super::{ReadVolatile, VolatileMemoryResult, WriteVolatile, refused};
use crate::list::ByteList;
use std::alloc::{AllocError, Global};
use std::io::ErrorKind;
use std::marker::Model;

/// What a source does at its next tries.
#[derive(Debug, Drop)]
pub enum SourceStep {
    /// Gives these bytes, over as many tries as they take.
    Give(ByteList),
    /// Writes these bytes over the beginning of what it was lent, and returns that it was interrupted.
    Interrupted(ByteList),
    /// Writes these bytes over the beginning of what it was lent, and returns an error of the kind `Other`.
    Fail(ByteList),
}

/// A source that follows a script. After its last step it is at its end.
#[derive(Drop)]
pub struct ScriptSource<'a> {
    // What is left of a step that gives bytes.
    part: &'a [u8],
    steps: &'a [SourceStep],
}

impl<'a> Model for ScriptSource<'a> {
    ghost use Rattle.std.specs.Prelude.{List, map};
    ghost use Rattle.vm_memory_base.specs.Transfer.{Next, giving};
    ghost use Rattle.vm_memory_base.specs.Script.{next_of};

    ghost Value = { List Next };

    ghost view = { λ s. giving s.part.now (map next_of s.steps.now) };
}

impl<'a> ScriptSource<'a> {
    /// A source that follows these steps. It allocates nothing.
    pub fn new(steps: &'a [SourceStep]) -> ScriptSource<'a>
        ensures { result ≡ map next_of steps.now }
    {
        ScriptSource { part: &[], steps }
    }
}

impl ReadVolatile for ScriptSource<'_> {
    ghost source = { λ s. Some s };

    ghost known_left = { λ s. None };

    fn read_volatile(&mut self, buf: &mut [u8]) -> VolatileMemoryResult<usize> {
        if buf.is_empty() {
            return Ok(0);
        }
        if !self.part.is_empty() {
            let part: &[u8] = self.part;
            let count = copy_front(part, buf);
            self.part = &part[count..];
            return Ok(count);
        }
        let Some((step, rest)) = self.steps.split_first() else {
            return Ok(0);
        };
        self.steps = rest;
        match step {
            SourceStep::Give(bytes) => {
                let all = bytes.as_slice();
                let count = copy_front(all, buf);
                self.part = &all[count..];
                Ok(count)
            }
            SourceStep::Interrupted(bytes) => {
                copy_front(bytes.as_slice(), buf);
                Err(refused(ErrorKind::Interrupted))
            }
            SourceStep::Fail(bytes) => {
                copy_front(bytes.as_slice(), buf);
                Err(refused(ErrorKind::Other))
            }
        }
    }

    fn known_left(&self) -> Option<usize> {
        None
    }
}

/// What a sink does at its next tries.
#[derive(Clone, Copy, Debug, PartialEq, Eq)]
pub enum SinkStep {
    /// Takes at most this many bytes.
    Take(usize),
    /// Takes none, and returns that it was interrupted.
    Interrupted,
    /// Takes none, and returns an error of the kind `Other`.
    Fail,
}

/// A sink that follows a script, and keeps what it took, as far as it has room. After its last step it takes
/// what it has room for.
#[derive(Drop)]
pub struct ScriptSink<'a> {
    steps: &'a [SinkStep],
    taken: Vec<u8>,
    room: usize,
}

impl<'a> Model for ScriptSink<'a> {
    ghost use Rattle.std.specs.Prelude.{◌+◌, ◌≤◌, map, vec_len, vec_capacity};
    ghost use Rattle.vm_memory_base.specs.Script.{TakenSoFar, taking_of};

    ghost Value = { TakenSoFar };

    ghost view = { λ s. record {
      next = map taking_of s.steps.now;
      taken = s.taken.items;
      room = s.room;
    } };

    ghost invariant = { λ s. vec_len s.taken + s.room ≤ vec_capacity s.taken };
}

impl<'a> ScriptSink<'a> {
    /// A sink that follows these steps, with room for `room` bytes, which it reserves. `AllocError` if that
    /// fails. It allocates nothing if `room` is 0.
    pub fn new(
        alloc: Global,
        steps: &'a [SinkStep],
        room: usize,
    ) -> Result<ScriptSink<'a>, AllocError>
        ensures made { IfOk result (λ s. s ≡ record { next = map taking_of steps.now; taken = []; room = room }) }
        ensures empty { room ≡ 0 → IsOk result }
    {
        let taken = Vec::with_capacity(alloc, room)?;
        Ok(ScriptSink { steps, taken, room })
    }

    /// The bytes that it took, in order.
    pub fn taken(&self) -> &[u8]
        ensures { result.now ≡ self.now.taken }
    {
        self.taken.as_slice()
    }

    /// The bytes that it took, in order.
    pub fn into_taken(self) -> Vec<u8>
        ensures { result.items ≡ self.entry.taken }
    {
        let ScriptSink { taken, .. } = self;
        taken
    }

    // Takes the first bytes of a buffer, for which it has room.
    fn take(&mut self, buf: &[u8], most: usize) -> usize
        ensures count { result ≡ min most (min (length buf.now) self.old.room) }
        ensures taken { self.new ≡ record self.old {
          taken = self.old.taken ++ take result buf.now;
          room = self.old.room - result;
        } }
    {
        let count = most.min(buf.len().min(self.room));
        match self.taken.extend_from_slice(&buf[..count]) {
            Ok(()) => {
                self.room -= count;
                count
            }
            // It does not come to this: the vector has room for these bytes.
            Err(_) => 0,
        }
    }
}

impl WriteVolatile for ScriptSink<'_> {
    ghost sink = { λ s. Some (record { next = s.next; room = Some s.room }) };

    ghost taken = { λ s. Some s.taken };

    ghost may_want = { λ s. ⊥ };

    fn write_volatile(&mut self, buf: &[u8]) -> VolatileMemoryResult<usize> {
        let Some((step, rest)) = self.steps.split_first() else {
            return Ok(self.take(buf, buf.len()));
        };
        self.steps = rest;
        match *step {
            SinkStep::Take(most) => Ok(self.take(buf, most)),
            SinkStep::Interrupted => Err(refused(ErrorKind::Interrupted)),
            SinkStep::Fail => Err(refused(ErrorKind::Other)),
        }
    }
}
