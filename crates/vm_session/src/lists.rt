//! The calls whose replies are lists: dirty pages, where addresses of a table lead, and the segments of a chain.
ghost use Rattle.std.specs.Prelude.{◌≡◌, ◌*◌, Some, length};
ghost use Rattle.vm_memory_device.specs.Chain.{readable};
ghost use Rattle.vm_memory.specs.ScriptMachine.{state_made};
ghost use Rattle.vm_memory.specs.declared.machine.command.Command.TheVariants as command;
ghost use Rattle.vm_memory.specs.declared.machine.command.Reply.TheVariants as reply;
ghost use Rattle.vm_session.specs.Lists.{ListsIf};
ghost use Rattle.vm_session.specs.Queues.{ListsChain};
ghost use Rattle.vm_session.specs.Requests.{address};
ghost use Rattle.vm_session.specs.Session.{Does};

use crate::answer::refused;
use crate::call::{Answer, Call};
use crate::code;
use crate::words::{put_rows, put_words};
use std::alloc::Global;
use vm_memory::ScriptMachine;
use vm_memory_base::{BitmapId, GuestAddress, IotlbFails, MappedRange, Permissions};
use vm_memory_device::Segment;

// The dirty pages of a bitmap.
pub(crate) fn dirty(
    alloc: Global,
    machine: &ScriptMachine,
    bitmap: BitmapId,
    output: &mut [u8],
) -> Answer
    ensures { let now = state_made machine.now in
        Does now (Some (command.Dirty bitmap)) output.old result output.new now }
{
    let mut pages = Vec::new(alloc);
    match machine.dirty(bitmap, &mut pages) {
        Ok(()) => list_pages(pages.as_slice(), output),
        Err(refusal) => refused(refusal),
    }
}

// The dirty pages of a bitmap, which are clean then. They are counted before they are taken.
pub(crate) fn harvest(
    alloc: Global,
    machine: &mut ScriptMachine,
    bitmap: BitmapId,
    output: &mut [u8],
) -> Answer
    ensures { Does (state_made machine.old) (Some (command.Harvest bitmap)) output.old result output.new
        (state_made machine.new) }
{
    let mut pages = Vec::new(alloc);
    if let Err(refusal) = machine.dirty(bitmap, &mut pages) {
        return refused(refusal);
    }
    let needed = bytes_for(pages.as_slice());
    if output.len() < needed {
        return Answer::short(needed);
    }
    let mut taken = Vec::new(alloc);
    match machine.harvest(bitmap, &mut taken) {
        Ok(()) => list_pages(pages.as_slice(), output),
        Err(refusal) => refused(refusal),
    }
}

// Where addresses of a table lead.
pub(crate) fn lookup(
    machine: &ScriptMachine,
    call: &Call,
    access: Permissions,
    output: &mut [u8],
) -> Answer
    ensures { let now = state_made machine.now in
        Does now (Some (command.Lookup call.now.first (address call.now.address) call.now.length access))
        output.old result output.new now }
{
    match machine.lookup(call.first, GuestAddress(call.address), call.length, access) {
        Ok(Ok(pieces)) => list_pieces(pieces.as_slice(), output),
        Ok(Err(fails)) => list_fails(&fails, output),
        Err(refusal) => refused(refusal),
    }
}

// How many bytes list these pages.
fn bytes_for(pages: &[usize]) -> usize
    ensures { result ≡ length pages.now * 8 }
{
    pages.len() * 8
}

// Lists pages, if there is room for them.
fn list_pages(pages: &[usize], output: &mut [u8]) -> Answer
    ensures { ListsIf (reply.Pages pages.now) output.old result output.new }
{
    let needed = bytes_for(pages);
    if output.len() < needed {
        return Answer::short(needed);
    }
    put_words(pages, output);
    Answer::of_count(pages.len())
}

// Lists where addresses lead.
fn list_pieces(pieces: &[MappedRange], output: &mut [u8]) -> Answer
    ensures { ListsIf (reply.Pieces pieces.now) output.old result output.new }
{
    let needed = pieces.len() * 16;
    if output.len() < needed {
        return Answer::short(needed);
    }
    put_rows(pieces, output);
    Answer::of_count(pieces.len())
}

// Lists what is missed, and then what is not allowed.
fn list_fails(fails: &IotlbFails, output: &mut [u8]) -> Answer
    ensures { ListsIf (reply.Fails fails.now) output.old result output.new }
{
    let misses = fails.misses.as_slice();
    let access_fails = fails.access_fails.as_slice();
    let front = misses.len() * 16;
    let needed = front + access_fails.len() * 16;
    if output.len() < needed {
        return Answer::short(needed);
    }
    let (head, tail) = output.split_at_mut(front);
    put_rows(misses, head);
    put_rows(access_fails, tail);
    Answer {
        code: code::FAILS,
        count: misses.len(),
        value: access_fails.len() as u64,
        address: 0,
    }
}

// How many of these segments the device reads.
fn readable_count(segments: &[Segment]) -> usize
    ensures { result ≡ length (readable segments.now) }
{
    segments.iter().filter(|segment| !segment.writable).count()
}

// Lists the segments of a chain, if there is room for them.
pub(crate) fn list_segments(segments: &[Segment], output: &mut [u8]) -> Answer
    ensures { ListsChain segments.now output.old result output.new }
{
    let needed = segments.len() * 16;
    if output.len() < needed {
        return Answer::short(needed);
    }
    put_rows(segments, output);
    Answer {
        code: code::DONE,
        count: segments.len(),
        value: readable_count(segments) as u64,
        address: 0,
    }
}
