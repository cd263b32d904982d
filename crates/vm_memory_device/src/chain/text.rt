//! The text of segments: their bytes in order, and calls over them.
ghost use Rattle.std.specs.Prelude.{◌≡◌, ◌+◌, ◌<◌, ◌≤◌, ◌^◌, [], length, min, take, drop, None, Some, All, IfOk};
ghost use Rattle.std.specs.Prelude.{MatchOption, MatchResult};
ghost use Rattle.vm_memory_guest.specs.Host.{shape_of, Holds};
ghost use Rattle.vm_memory_device.specs.Chain.{ReadsText, WritesText, access_len, chain_fault, fault_past, text};
ghost use Rattle.vm_memory_device.specs.ChainText.{Divides, Fits, GoesOn, IsNext, IsPlace, entries};

use super::{ChainFault, Segment};
use std::marker::Model;
use vm_memory_base::{Bitmap, GuestAddress};
use vm_memory_guest::{Bytes, GuestMemory, GuestMemoryResult, HostMemory};

// How a chain is divided: the number of readable segments, and the number of bytes of each kind.
#[derive(Clone, Copy)]
pub(super) struct Division {
    pub(super) readable: usize,
    pub(super) readable_len: u32,
    pub(super) writable_len: u32,
}

// The division of segments, or why they are not a chain.
#[inline(always)]
pub(super) fn divided(segments: &[Segment]) -> Result<Division, ChainFault>
    ensures { MatchResult result (λ d. (chain_fault segments.now ≡ None)
        × Divides segments.now d.readable d.readable_len d.writable_len)
        (λ fault. chain_fault segments.now ≡ Some fault) }
{
    let mut readable = 0;
    let mut readable_len = 0;
    let mut total = 0;
    let mut writes = false;
    for segment in segments {
        total = total_with(segment, writes, total)?;
        if segment.writable {
            writes = true;
        } else {
            readable += 1;
            readable_len = total;
        }
    }
    Ok(Division {
        readable,
        readable_len,
        writable_len: total - readable_len,
    })
}

// The number of bytes of segments of `total` bytes and one more, which is writable or not.
#[inline(always)]
fn total_with(segment: &Segment, writes: bool, total: u32) -> Result<u32, ChainFault>
    ensures { MatchResult result
        (λ sum. (fault_past writes total segment.now ≡ None) × Fits segment.now × (sum ≡ total + segment.now.len))
        (λ fault. fault_past writes total segment.now ≡ Some fault) }
{
    if segment.addr.0.checked_add(u64::from(segment.len)).is_none() {
        return Err(ChainFault::Range);
    }
    if writes && !segment.writable {
        return Err(ChainFault::Order);
    }
    total.checked_add(segment.len).ok_or(ChainFault::TooLong)
}

// A position in a text: the address of the next byte, the number of bytes that are left of its segment, and the
// segments that follow. If no byte is left of the segment, none is left at all. `left` is the number of bytes left.
#[derive(Drop)]
pub(super) struct Text<'c> {
    addr: u64,
    rest: u32,
    later: &'c [Segment],
    left: usize,
}

impl<'c> Model for Text<'c> {
    ghost use Rattle.std.specs.Prelude.{◌≡◌, List, length};
    ghost use Rattle.vm_memory_device.specs.Chain.{Entry};
    ghost use Rattle.vm_memory_device.specs.ChainText.{IsPlace, entries};

    ghost Value = { List Entry };

    ghost view = { λ t. entries t.addr t.rest t.later.now };

    ghost invariant = { λ t.
        IsPlace t.addr t.rest t.later.now × (t.left ≡ length (entries t.addr t.rest t.later.now)) };
}

impl<'c> Text<'c> {
    // The text of these segments, which have `left` bytes.
    #[inline(always)]
    pub(super) fn new(segments: &'c [Segment], len: usize) -> Text<'c>
        requires fit { All Fits segments.now }
        requires len { len ≡ length (text segments.now) }
        ensures { result ≡ text segments.now }
    {
        let (addr, rest, later) = beginning(segments);
        Text {
            addr,
            rest,
            later,
            left: len,
        }
    }

    // The number of bytes that are left.
    #[inline(always)]
    pub(super) fn left(&self) -> usize
        ensures { result ≡ length self.now }
    {
        self.left
    }

    // The next access of at most `room` bytes: its address and its length.
    #[inline(always)]
    fn next_access(&self, room: usize) -> Option<(GuestAddress, usize)>
        ensures { MatchOption result (take room self.now ≡ []) (λ r. IsNext r.0.0 r.1 room self.now) }
    {
        let most = room.min(self.rest as usize);
        if most == 0 {
            return None;
        }
        Some((GuestAddress(self.addr), most))
    }

    // Advances by a number of bytes, at most to the end of the segment.
    #[inline(always)]
    fn pass(&mut self, count: usize)
        requires { count ≤ access_len self.old }
        ensures { self.new ≡ drop count self.old }
    {
        self.left -= count;
        if count < self.rest as usize {
            self.addr += count as u64;
            self.rest -= count as u32;
            return;
        }
        let (addr, rest, later) = beginning(self.later);
        self.addr = addr;
        self.rest = rest;
        self.later = later;
    }

    // Skips `count` bytes, or all that are left if these are fewer, and returns how many it skipped.
    pub(super) fn skip(&mut self, count: usize) -> usize
        ensures passed { result ≡ min count (length self.old) }
        ensures place { self.new ≡ drop result self.old }
    {
        let total = count.min(self.left);
        let mut passed = 0;
        while let Some((_, most)) = self.next_access(total - passed) {
            self.pass(most);
            passed += most;
        }
        passed
    }

    // Advances after an access that was to move `most` bytes, in a call that moved `total` bytes before it. If the
    // access ends the call, this is the result of the call.
    #[inline(always)]
    fn go_on(
        &mut self,
        total: &mut usize,
        most: usize,
        moved: GuestMemoryResult<usize>,
    ) -> Option<GuestMemoryResult<usize>>
        requires inside { most ≤ access_len self.old }
        requires at_most { IfOk moved (λ count. count ≤ most) }
        requires fits { total.old + most < 2 ^ 64 }
        ensures { GoesOn most moved total.old self.old result total.new self.new }
    {
        match moved {
            Ok(count) => {
                self.pass(count);
                *total += count;
                if count < most { Some(Ok(*total)) } else { None }
            }
            Err(error) if *total == 0 => Some(Err(error)),
            Err(_) => Some(Ok(*total)),
        }
    }

    // Fills the beginning of the buffer, with one access for each segment.
    #[inline(always)]
    pub(super) fn read<M: GuestMemory, B: Bitmap>(
        &mut self,
        mem: &M,
        host: &HostMemory<B>,
        buf: &mut [u8],
    ) -> GuestMemoryResult<usize>
        requires { Holds (shape_of host.now) (M.names mem.now) }
        ensures { ReadsText (M.memory mem.now) host.now self.old buf.old result self.new buf.new }
    {
        let mut total = 0;
        while let Some((addr, most)) = self.next_access(buf.len() - total) {
            let read = mem.read(host, &mut buf[total..total + most], addr);
            if let Some(answer) = self.go_on(&mut total, most, read) {
                return answer;
            }
        }
        Ok(total)
    }

    // Writes the beginning of the buffer, with one access for each segment.
    #[inline(always)]
    pub(super) fn write<M: GuestMemory, B: Bitmap>(
        &mut self,
        mem: &M,
        host: &mut HostMemory<B>,
        buf: &[u8],
    ) -> GuestMemoryResult<usize>
        requires { Holds (shape_of host.old) (M.names mem.now) }
        ensures wrote { WritesText B.marks (M.memory mem.now) self.old buf.now host.old result self.new host.new }
        ensures shape { shape_of host.new ≡ shape_of host.old }
    {
        let mut total = 0;
        while let Some((addr, most)) = self.next_access(buf.len() - total) {
            let written = mem.write(host, &buf[total..total + most], addr);
            if let Some(answer) = self.go_on(&mut total, most, written) {
                return answer;
            }
        }
        Ok(total)
    }
}

// Where the text of segments begins: the address of the first byte, the number of bytes of its segment, and the
// segments that follow. If the segments have no byte, all of them are skipped.
#[inline(always)]
fn beginning(segments: &[Segment]) -> (u64, u32, &[Segment])
    requires { All Fits segments.now }
    ensures text { entries result.0 result.1 result.2.now ≡ text segments.now }
    ensures place { IsPlace result.0 result.1 result.2.now }
{
    let mut later = segments;
    while let Some((first, others)) = later.split_first() {
        later = others;
        if first.len != 0 {
            return (first.addr.0, first.len, later);
        }
    }
    (0, 0, later)
}
