//! The calls of a machine, by their kinds.
ghost use Rattle.std.specs.Prelude.{◌≡◌, List, [], ℕ, false, IsTrue, is_some, option_map, slice_get};
ghost use Rattle.vm_memory.specs.Calls.{IsInteger};
ghost use Rattle.vm_memory.specs.ScriptMachine.{state_made};
ghost use Rattle.vm_memory.specs.Typed.{fits_width, integer_of};
ghost use Rattle.vm_memory.specs.declared.machine.command.Command.TheVariants as command;
ghost use Rattle.vm_memory.specs.declared.machine.command.Width as widths;
ghost use Rattle.vm_session.specs.Kinds.{is_listing, is_making, is_moving};
ghost use Rattle.vm_session.specs.Requests.{command_at};
ghost use Rattle.vm_session.specs.Session.{Does, DoesListed, Loads, Served, Stores};
ghost use Rattle.vm_session.specs.Words.{numbers_in};

use crate::answer::{checked, done, loaded, made, moved, refused};
use crate::call::{Answer, Call, Kind, access_of, switch_of, width_of};
use crate::code;
use crate::lists::{dirty, harvest, lookup};
use crate::transfers::{receive, receive_whole, send, send_whole};
use crate::words::numbers_of;
use std::alloc::Global;
use vm_memory::{BlockRange, ScriptMachine, Width};
use vm_memory_base::{AtomicAccess, BitmapId, GuestAddress, Permissions};

// The calls whose replies go to the output.
#[inline(never)]
pub(crate) fn serve_listing(
    alloc: Global,
    machine: &mut ScriptMachine,
    kind: Kind,
    call: &Call,
    input: &[u8],
    output: &mut [u8],
) -> Answer
    requires { IsTrue (is_listing kind) }
    ensures { Served (state_made machine.old) kind call.now input.now output.old result output.new
        (state_made machine.new) }
{
    match kind {
        Kind::WriteTo => send(alloc, machine, call, input, output),
        Kind::WriteAllTo => send_whole(alloc, machine, call, input, output),
        Kind::Lookup => match access_of(call.access) {
            Some(access) => lookup(machine, call, access, output),
            None => Answer::of_code(code::BAD_CALL),
        },
        Kind::DirtyBlock => dirty(alloc, machine, BitmapId::Block(call.first), output),
        Kind::DirtySpace => dirty(alloc, machine, BitmapId::Space(call.first), output),
        Kind::HarvestBlock => harvest(alloc, machine, BitmapId::Block(call.first), output),
        Kind::HarvestSpace => harvest(alloc, machine, BitmapId::Space(call.first), output),
        _ => unreachable!(),
    }
}

// The calls that make layouts and memories.
#[inline(never)]
pub(crate) fn serve_making(
    alloc: Global,
    machine: &mut ScriptMachine,
    kind: Kind,
    call: &Call,
    input: &[u8],
    answer: &mut Answer,
)
    requires { IsTrue (is_making kind) }
    ensures { (out : List ℕ) → Served (state_made machine.old) kind call.now input.now out answer.new out
        (state_made machine.new) }
{
    match kind {
        Kind::Layout => make_layout(alloc, machine, input, answer),
        Kind::Insert => made(machine.insert(call.first, call.second), answer),
        Kind::Remove => {
            let base = GuestAddress(call.address);
            made(machine.remove(call.first, base, call.length as u64), answer);
        }
        Kind::Plain => made(machine.plain(call.first), answer),
        Kind::Memory => match switch_of(call.value) {
            Some(on) => made(
                machine.new_memory(call.first, call.second, call.third, on),
                answer,
            ),
            None => *answer = Answer::of_code(code::BAD_CALL),
        },
        Kind::Replace => made(machine.replace_backend(call.first, call.second), answer),
        Kind::Enable => match switch_of(call.value) {
            Some(on) => done(machine.enable(call.first, on), answer),
            None => *answer = Answer::of_code(code::BAD_CALL),
        },
        _ => unreachable!(),
    }
}

// The calls that receive, ask and copy, and those on tables.
#[inline(never)]
pub(crate) fn serve_moving(
    alloc: Global,
    machine: &mut ScriptMachine,
    kind: Kind,
    call: &Call,
    input: &[u8],
    answer: &mut Answer,
)
    requires { IsTrue (is_moving kind) }
    ensures { (out : List ℕ) → Served (state_made machine.old) kind call.now input.now out answer.new out
        (state_made machine.new) }
{
    let addr = GuestAddress(call.address);
    match kind {
        Kind::ReadFrom => *answer = receive(alloc, machine, call, input),
        Kind::ReadExactFrom => *answer = receive_whole(alloc, machine, call, input),
        Kind::CheckRange => match access_of(call.access) {
            Some(access) => {
                checked(
                    machine.check_range(call.first, addr, call.length, access),
                    answer,
                );
            }
            None => *answer = Answer::of_code(code::BAD_CALL),
        },
        Kind::Copy => copy(machine, call, answer),
        Kind::Set => match access_of(call.access) {
            Some(access) => {
                let target = GuestAddress(call.target);
                done(
                    machine.set_mapping(call.first, addr, target, call.length, access),
                    answer,
                );
            }
            None => *answer = Answer::of_code(code::BAD_CALL),
        },
        Kind::Invalidate => done(
            machine.invalidate_mapping(call.first, addr, call.length),
            answer,
        ),
        Kind::InvalidateAll => done(machine.invalidate_all(call.first), answer),
        _ => unreachable!(),
    }
}

// Makes the layout of the regions that the input lists.
fn make_layout(alloc: Global, machine: &mut ScriptMachine, input: &[u8], answer: &mut Answer)
    ensures { (out : List ℕ) → DoesListed (state_made machine.old)
        (option_map command.FromRegions (numbers_in input.now)) out answer.new out (state_made machine.new) }
{
    match numbers_of(alloc, input) {
        Ok(Some(numbers)) => made(machine.from_regions(numbers.as_slice()), answer),
        Ok(None) => *answer = Answer::of_code(code::BAD_CALL),
        Err(_) => *answer = Answer::of_code(code::MEMORY),
    }
}

// Copies between blocks.
fn copy(machine: &mut ScriptMachine, call: &Call, answer: &mut Answer)
    ensures { (out : List ℕ) → Does (state_made machine.old) (command_at Kind.Copy call.now []) out answer.new out
        (state_made machine.new) }
{
    let from = BlockRange {
        block: call.first,
        offset: call.address as usize,
        len: call.length,
    };
    let to = BlockRange {
        block: call.second,
        offset: call.target as usize,
        len: call.other_length,
    };
    done(machine.copy(from, to), answer);
}

// Reads at most `length` bytes of a memory into the front of the output.
#[inline(never)]
pub(crate) fn read(machine: &ScriptMachine, call: &Call, output: &mut [u8], answer: &mut Answer)
    ensures { let now = state_made machine.now in
        Does now (command_at Kind.Read call.now []) output.old answer.new output.new now }
{
    if output.len() < call.length {
        *answer = Answer::short(call.length);
        return;
    }
    let addr = GuestAddress(call.address);
    moved(
        machine.read(call.first, addr, &mut output[..call.length]),
        answer,
    );
}

// Reads exactly `length` bytes of a memory into the front of the output.
#[inline(never)]
pub(crate) fn read_slice(
    machine: &ScriptMachine,
    call: &Call,
    output: &mut [u8],
    answer: &mut Answer,
)
    ensures { let now = state_made machine.now in
        Does now (command_at Kind.ReadSlice call.now []) output.old answer.new output.new now }
{
    if output.len() < call.length {
        *answer = Answer::short(call.length);
        return;
    }
    let addr = GuestAddress(call.address);
    match machine.read_slice(call.first, addr, &mut output[..call.length]) {
        Ok(()) => *answer = Answer::of_count(call.length),
        Err(refusal) => *answer = refused(refusal),
    }
}

// Writes the bytes of the input that fit.
#[inline(never)]
pub(crate) fn write(machine: &mut ScriptMachine, call: &Call, input: &[u8], answer: &mut Answer)
    ensures { (out : List ℕ) → Does (state_made machine.old) (command_at Kind.Write call.now input.now) out answer.new
        out (state_made machine.new) }
{
    moved(
        machine.write(call.first, GuestAddress(call.address), input),
        answer,
    );
}

// Writes all bytes of the input.
#[inline(never)]
pub(crate) fn write_slice(
    machine: &mut ScriptMachine,
    call: &Call,
    input: &[u8],
    answer: &mut Answer,
)
    ensures { (out : List ℕ) → Does (state_made machine.old) (command_at Kind.WriteSlice call.now input.now) out
        answer.new out (state_made machine.new) }
{
    done(
        machine.write_slice(call.first, GuestAddress(call.address), input),
        answer,
    );
}

// Loads an integer of this width.
#[inline(never)]
pub(crate) fn load(machine: &ScriptMachine, call: &Call, width: Width, answer: &mut Answer)
    ensures { Loads (state_made machine.now) call.now width answer.new }
{
    let addr = GuestAddress(call.address);
    loaded(machine.load_word(call.first, width, addr), answer);
}

// Stores a number as an integer of this width, if it is one.
#[inline(always)]
pub(crate) fn store(machine: &mut ScriptMachine, call: &Call, width: Width, answer: &mut Answer)
    ensures { Stores (state_made machine.old) call.now width answer.new (state_made machine.new) }
{
    if !width.fits(call.value) {
        too_wide(machine, call, width, answer);
        return;
    }
    match width {
        Width::One => store_as(machine, call, call.value as u8, answer),
        Width::Two => store_as(machine, call, call.value as u16, answer),
        Width::Four => store_as(machine, call, call.value as u32, answer),
        Width::Eight => store_as(machine, call, call.value, answer),
    }
}

// Stores a value. Each type has a function of its own, into which all of the access is inlined.
#[inline(never)]
fn store_as<T: AtomicAccess>(
    machine: &mut ScriptMachine,
    call: &Call,
    value: T,
    answer: &mut Answer,
)
    ensures { (width : widths.Width) → IsInteger (T.bytes value) width call.now.value
        → Stores (state_made machine.old) call.now width answer.new (state_made machine.new) }
{
    done(
        machine.store(call.first, GuestAddress(call.address), value),
        answer,
    );
}

// Refuses a value that has too many bytes, where the memory is there.
#[inline(never)]
fn too_wide(machine: &ScriptMachine, call: &Call, width: Width, answer: &mut Answer)
    requires { fits_width (integer_of width) call.now.value ≡ false }
    ensures { let now = state_made machine.now in Stores now call.now width answer.new now }
{
    if has_memory(machine, call.first) {
        *answer = Answer::of_code(code::BAD_RANGE);
    } else {
        *answer = Answer::of_code(code::NO_SUCH);
    }
}

// Whether there is a memory of this number: a check of no bytes is refused only where there is none.
fn has_memory(machine: &ScriptMachine, memory: usize) -> bool
    ensures { result ≡ is_some (slice_get (state_made machine.now).memories memory) }
{
    machine
        .check_range(memory, GuestAddress(0), 0, Permissions::No)
        .is_ok()
}
