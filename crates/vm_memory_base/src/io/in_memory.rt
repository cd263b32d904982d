//! Bytes in memory as sources and sinks.
ghost use Rattle.std.specs.Prelude.{◌≡◌, ◌+◌, ◌-◌, ◌≤◌, min, length, take, drop, [], Some, None, IfOk, ⊤};
ghost use Rattle.std.specs.Io.Cursor.{cursor_inner, cursor_position};
ghost use Rattle.vm_memory_base.specs.InMemory.{giving_from, room_from, put_from, WritesWhole};
ghost use Rattle.vm_memory_base.specs.Transfer.{giving, over_front, ReadsAs, TakesAs, Keeps, count_of};

use super::{ReadVolatile, VolatileMemoryError, VolatileMemoryResult, WriteVolatile};
use std::io::{Cursor, Write};

// Copies as many bytes as both have to the beginning of a buffer, and answers how many.
pub(super) fn copy_front(bytes: &[u8], buf: &mut [u8]) -> usize
    ensures count { result ≡ min (length buf.old) (length bytes.now) }
    ensures copied { buf.new ≡ over_front (take (length buf.old) bytes.now) buf.old }
{
    let count = buf.len().min(bytes.len());
    buf[..count].copy_from_slice(&bytes[..count]);
    count
}

// Bytes give themselves in order. They refuse at once to fill a buffer that is longer.
impl ReadVolatile for &[u8] {
    ghost source = { λ s. Some (giving s.now []) };

    ghost known_left = { λ s. Some (length s.now) };

    fn read_volatile(&mut self, buf: &mut [u8]) -> VolatileMemoryResult<usize> {
        let all: &[u8] = *self;
        let count = copy_front(all, buf);
        *self = &all[count..];
        Ok(count)
    }

    fn known_left(&self) -> Option<usize> {
        Some(self.len())
    }
}

// A cursor gives the bytes from its position on.
impl ReadVolatile for Cursor<&[u8]> {
    ghost source = { λ c. giving_from (cursor_inner c).now (cursor_position c) };

    ghost known_left = { λ c. Some (length (cursor_inner c).now - cursor_position c) };

    fn read_volatile(&mut self, buf: &mut [u8]) -> VolatileMemoryResult<usize>
        ensures count { IfOk result (λ count. count ≤ length buf.old) }
        ensures tells { ReadsAs (giving_from (cursor_inner self.old).now (cursor_position self.old)) buf.old
            result buf.new (giving_from (cursor_inner self.new).now (cursor_position self.new)) }
        ensures bytes { cursor_inner self.new ≡ cursor_inner self.old }
        ensures position { cursor_position self.new ≡ cursor_position self.old + count_of result }
    {
        let all: &[u8] = *self.get_ref();
        let at = self.position() as usize;
        let start = at.min(all.len());
        let count = copy_front(&all[start..], buf);
        self.set_position((at + count) as u64);
        Ok(count)
    }

    fn known_left(&self) -> Option<usize> {
        let all: &[u8] = *self.get_ref();
        Some(all.len().saturating_sub(self.position() as usize))
    }
}

// The same of bytes that a cursor may change.
impl ReadVolatile for Cursor<&mut [u8]> {
    ghost source = { λ c. giving_from (cursor_inner c).now (cursor_position c) };

    ghost known_left = { λ c. Some (length (cursor_inner c).now - cursor_position c) };

    fn read_volatile(&mut self, buf: &mut [u8]) -> VolatileMemoryResult<usize>
        ensures count { IfOk result (λ count. count ≤ length buf.old) }
        ensures tells { ReadsAs (giving_from (cursor_inner self.old).now (cursor_position self.old)) buf.old
            result buf.new (giving_from (cursor_inner self.new).now (cursor_position self.new)) }
        ensures bytes { (cursor_inner self.new).now ≡ (cursor_inner self.old).now }
        ensures position { cursor_position self.new ≡ cursor_position self.old + count_of result }
    {
        let all: &[u8] = &**self.get_ref();
        let mut source = Cursor::new(all);
        source.set_position(self.position());
        let answer = source.read_volatile(buf);
        let position = source.position();
        self.set_position(position);
        answer
    }

    fn known_left(&self) -> Option<usize> {
        let all: &[u8] = &**self.get_ref();
        Some(all.len().saturating_sub(self.position() as usize))
    }
}

// Bytes take as many as they have, and what is left of them takes the next. Those that were taken lie outside what is
// left, where no clause here sees them. A cursor over the same bytes shows them.
impl WriteVolatile for &mut [u8] {
    ghost sink = { λ s. room_from s.now 0 };

    ghost taken = { λ s. None };

    ghost may_want = { λ s. ⊥ };

    fn write_volatile(&mut self, buf: &[u8]) -> VolatileMemoryResult<usize>
        ensures count { IfOk result (λ count. count ≤ length buf.now) }
        ensures tells { TakesAs ⊥ (room_from self.old.now 0) (length buf.now) result (room_from self.new.now 0) }
        ensures keeps { Keeps None buf.now (count_of result) None }
        ensures wants { ⊥ → ⊥ }
        ensures left { self.new.now ≡ drop (count_of result) self.old.now }
    {
        let all = std::mem::take(self);
        let count = copy_front(buf, all);
        *self = &mut all[count..];
        Ok(count)
    }
}

// A vector takes all bytes, or none where their allocation fails.
impl WriteVolatile for Vec<u8> {
    ghost sink = { λ v. Some (record { next = []; room = None }) };

    ghost taken = { λ v. Some v.items };

    ghost may_want = { λ v. ⊤ };

    ghost writes = { λ v bytes answer t. WritesWhole v.items bytes answer t.items };

    fn write_volatile(&mut self, buf: &[u8]) -> VolatileMemoryResult<usize> {
        match self.extend_from_slice(buf) {
            Ok(()) => Ok(buf.len()),
            Err(_) => Err(VolatileMemoryError::Memory),
        }
    }
}

// A cursor takes bytes from its position on. Those before it are what it took.
impl WriteVolatile for Cursor<&mut [u8]> {
    ghost sink = { λ c. room_from (cursor_inner c).now (cursor_position c) };

    ghost taken = { λ c. Some (take (cursor_position c) (cursor_inner c).now) };

    ghost may_want = { λ c. ⊥ };

    fn write_volatile(&mut self, buf: &[u8]) -> VolatileMemoryResult<usize>
        ensures count { IfOk result (λ count. count ≤ length buf.now) }
        ensures tells { TakesAs ⊥ (room_from (cursor_inner self.old).now (cursor_position self.old))
            (length buf.now) result (room_from (cursor_inner self.new).now (cursor_position self.new)) }
        ensures keeps { Keeps (Some (take (cursor_position self.old) (cursor_inner self.old).now)) buf.now
            (count_of result) (Some (take (cursor_position self.new) (cursor_inner self.new).now)) }
        ensures wants { ⊥ → ⊥ }
        ensures bytes { (cursor_inner self.new).now
            ≡ put_from (cursor_position self.old) (take (count_of result) buf.now) (cursor_inner self.old).now }
        ensures position { cursor_position self.new ≡ cursor_position self.old + count_of result }
    {
        let len = self.get_ref().len();
        if self.position() as usize > len {
            return Ok(0);
        }
        match self.write(buf) {
            Ok(count) => Ok(count),
            Err(_) => Ok(0),
        }
    }
}
