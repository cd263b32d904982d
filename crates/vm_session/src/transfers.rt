//! The calls that transfer between memories and sources or sinks, which follow the steps that an input lists.
ghost use Rattle.std.specs.Prelude.{◌≡◌, List, ℕ, IfOk};
ghost use Rattle.vm_memory.specs.ScriptMachine.{state_made};
ghost use Rattle.vm_memory.specs.Reply.{as_done, replied};
ghost use Rattle.vm_memory.specs.Transfers.{beside_taken};
ghost use Rattle.vm_session.specs.Answers.{answer_of, bytes_of};
ghost use Rattle.vm_session.specs.Requests.{command_at, sink_steps, source_steps};
ghost use Rattle.vm_session.specs.Session.{DoesListed, begins_with};

use crate::answer::{done, faulted, moved, refused};
use crate::call::{Answer, Call, Kind};
use crate::code;
use crate::steps::{sinks_of, sources_of};
use crate::words::numbers_of;
use std::alloc::{AllocError, Global};
use vm_memory::{Refusal, ScriptMachine, SinkList, SourceList};
use vm_memory_base::{GuestAddress, ScriptSink, ScriptSource};

// Receives at most `length` bytes of a memory.
pub(crate) fn receive(
    alloc: Global,
    machine: &mut ScriptMachine,
    call: &Call,
    input: &[u8],
) -> Answer
    ensures { (out : List ℕ) → DoesListed (state_made machine.old) (command_at Kind.ReadFrom call.now input.now)
        out result out (state_made machine.new) }
{
    let steps = match source(alloc, input) {
        Ok(Some(steps)) => steps,
        Ok(None) => return Answer::of_code(code::BAD_CALL),
        Err(_) => return Answer::of_code(code::MEMORY),
    };
    let mut source = ScriptSource::new(steps.as_slice());
    let addr = GuestAddress(call.address);
    let outcome = machine.read_volatile_from(call.first, addr, &mut source, call.length);
    let mut answer = Answer::of_code(code::DONE);
    moved(outcome, &mut answer);
    answer
}

// Receives exactly `length` bytes of a memory.
pub(crate) fn receive_whole(
    alloc: Global,
    machine: &mut ScriptMachine,
    call: &Call,
    input: &[u8],
) -> Answer
    ensures { (out : List ℕ) → DoesListed (state_made machine.old) (command_at Kind.ReadExactFrom call.now input.now)
        out result out (state_made machine.new) }
{
    let steps = match source(alloc, input) {
        Ok(Some(steps)) => steps,
        Ok(None) => return Answer::of_code(code::BAD_CALL),
        Err(_) => return Answer::of_code(code::MEMORY),
    };
    let mut source = ScriptSource::new(steps.as_slice());
    let addr = GuestAddress(call.address);
    let outcome = machine.read_exact_volatile_from(call.first, addr, &mut source, call.length);
    let mut answer = Answer::of_code(code::DONE);
    done(outcome, &mut answer);
    answer
}

// Sends at most `length` bytes of a memory. What the sink takes goes to the front of the output.
pub(crate) fn send(
    alloc: Global,
    machine: &ScriptMachine,
    call: &Call,
    input: &[u8],
    output: &mut [u8],
) -> Answer
    ensures { let now = state_made machine.now in
        DoesListed now (command_at Kind.WriteTo call.now input.now) output.old result output.new now }
{
    let steps = match sink(alloc, input) {
        Ok(Some(steps)) => steps,
        Ok(None) => return Answer::of_code(code::BAD_CALL),
        Err(_) => return Answer::of_code(code::MEMORY),
    };
    if output.len() < call.length {
        return Answer::short(call.length);
    }
    let Ok(mut sink) = ScriptSink::new(alloc, steps.as_slice(), call.length) else {
        return Answer::of_code(code::MEMORY);
    };
    let addr = GuestAddress(call.address);
    let answer = match machine.write_volatile_to(call.first, addr, &mut sink, call.length) {
        Ok(_) => Ok(()),
        Err(refusal) => Err(refusal),
    };
    sent(answer, sink.into_taken().as_slice(), output)
}

// Sends exactly `length` bytes of a memory.
pub(crate) fn send_whole(
    alloc: Global,
    machine: &ScriptMachine,
    call: &Call,
    input: &[u8],
    output: &mut [u8],
) -> Answer
    ensures { let now = state_made machine.now in
        DoesListed now (command_at Kind.WriteAllTo call.now input.now) output.old result output.new now }
{
    let steps = match sink(alloc, input) {
        Ok(Some(steps)) => steps,
        Ok(None) => return Answer::of_code(code::BAD_CALL),
        Err(_) => return Answer::of_code(code::MEMORY),
    };
    if output.len() < call.length {
        return Answer::short(call.length);
    }
    let Ok(mut sink) = ScriptSink::new(alloc, steps.as_slice(), call.length) else {
        return Answer::of_code(code::MEMORY);
    };
    let addr = GuestAddress(call.address);
    let answer = machine.write_all_volatile_to(call.first, addr, &mut sink, call.length);
    sent(answer, sink.into_taken().as_slice(), output)
}

// The answer to a transfer out, with what its sink took at the front of the output.
fn sent(answer: Result<(), Refusal>, taken: &[u8], output: &mut [u8]) -> Answer
    ensures { let r = beside_taken taken.now (replied as_done answer) in
        (result ≡ answer_of r) × (output.new ≡ begins_with (bytes_of r) output.old) }
{
    match answer {
        Ok(()) => {
            put_front(taken, output);
            Answer::of_count(taken.len())
        }
        Err(Refusal::Fault(fault)) => {
            put_front(taken, output);
            let told = faulted(fault);
            Answer {
                code: told.code,
                count: taken.len(),
                value: told.value,
                address: told.address,
            }
        }
        Err(refusal) => refused(refusal),
    }
}

// Puts bytes at the front of an output, as many as it has room for.
fn put_front(bytes: &[u8], output: &mut [u8])
    ensures { output.new ≡ begins_with bytes.now output.old }
{
    let count = bytes.len().min(output.len());
    output[..count].copy_from_slice(&bytes[..count]);
}

// The steps of the source that an input lists.
fn source(alloc: Global, input: &[u8]) -> Result<Option<SourceList>, AllocError>
    ensures { IfOk result (λ steps. steps ≡ source_steps input.now) }
{
    match numbers_of(alloc, input)? {
        Some(numbers) => sources_of(alloc, numbers.as_slice()),
        None => Ok(None),
    }
}

// The steps of the sink that an input lists.
fn sink(alloc: Global, input: &[u8]) -> Result<Option<SinkList>, AllocError>
    ensures { IfOk result (λ steps. steps ≡ sink_steps input.now) }
{
    match numbers_of(alloc, input)? {
        Some(numbers) => sinks_of(alloc, numbers.as_slice()),
        None => Ok(None),
    }
}
