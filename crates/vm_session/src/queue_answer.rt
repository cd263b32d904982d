//! The answers of calls on queues.
ghost use Rattle.std.specs.Prelude.{◌≡◌, Some, Err};
ghost use Rattle.vm_session.specs.QueueCodes.{answer_of_begun, answer_of_bytes, answer_of_done, answer_of_length};
ghost use Rattle.vm_session.specs.QueueCodes.{answer_of_number, answer_of_queue, answer_of_request, answer_of_truth};
ghost use Rattle.vm_session.specs.QueueCodes.{code_of_chain, popped_as};
ghost use Rattle.vm_session.specs.Answers.{number_of_truth};
ghost use Rattle.vm_session.specs.Queues.{ListsNine, SetsPart, state_numbers, word};

use crate::answer::refused;
use crate::call::{Answer, QueuePart, switch_of};
use crate::code;
use crate::words::put_words;
use virtio_blk::Request;
use virtio_queue::{Queue, QueueError, QueueState};
use vm_memory::Refusal;
use vm_memory_base::GuestAddress;
use vm_memory_device::{Chain, ChainFault};
use vm_memory_guest::{GuestMemoryError, GuestMemoryResult};

fn code_of_chain(fault: ChainFault) -> u32
    ensures { result ≡ code_of_chain fault }
{
    match fault {
        ChainFault::Order => code::CHAIN_ORDER,
        ChainFault::TooLong => code::CHAIN_TOO_LONG,
        ChainFault::Range => code::CHAIN_RANGE,
    }
}

// The answer to a call that a queue refused.
#[cold]
#[inline(never)]
pub(crate) fn queue_refused(error: QueueError) -> Answer
    ensures { result ≡ answer_of_queue error }
{
    Answer::of_code(match error {
        QueueError::InvalidMaxSize => code::INVALID_MAX_SIZE,
        QueueError::InvalidSize => code::INVALID_QUEUE_SIZE,
        QueueError::InvalidDescTableAlign => code::INVALID_DESC_TABLE_ALIGN,
        QueueError::InvalidAvailRingAlign => code::INVALID_AVAIL_RING_ALIGN,
        QueueError::InvalidUsedRingAlign => code::INVALID_USED_RING_ALIGN,
        QueueError::QueueNotReady => code::QUEUE_NOT_READY,
        QueueError::AddressOverflow => code::ADDRESS_OVERFLOW,
        QueueError::InvalidAvailRingIndex => code::INVALID_AVAIL_RING_INDEX,
        QueueError::InvalidDescriptorIndex => code::INVALID_DESCRIPTOR_INDEX,
        QueueError::DescriptorLoop => code::DESCRIPTOR_LOOP,
        QueueError::IndirectWithNext => code::INDIRECT_WITH_NEXT,
        QueueError::NestedIndirect => code::NESTED_INDIRECT,
        QueueError::InvalidIndirectTable => code::INVALID_INDIRECT_TABLE,
        QueueError::InvalidChain(fault) => code_of_chain(fault),
        QueueError::InvalidUsedEntry => code::INVALID_USED_ENTRY,
        QueueError::GuestMemory(error) => return refused(Refusal::from(error)),
        QueueError::Memory => code::MEMORY,
    })
}

// The answer to a call that gives nothing back.
#[inline]
pub(crate) fn queue_done(outcome: Result<(), QueueError>) -> Answer
    ensures { result ≡ answer_of_done outcome }
{
    match outcome {
        Ok(()) => Answer::of_code(code::DONE),
        Err(error) => queue_refused(error),
    }
}

// The answer to a call that gives an index.
pub(crate) fn number_told(outcome: Result<u16, QueueError>) -> Answer
    ensures { result ≡ answer_of_number outcome }
{
    match outcome {
        Ok(number) => Answer::of_value(u64::from(number)),
        Err(error) => queue_refused(error),
    }
}

// The answer to a call that asks whether something is so.
#[inline]
pub(crate) fn asked(outcome: Result<bool, QueueError>) -> Answer
    ensures { result ≡ answer_of_truth outcome }
{
    match outcome {
        Ok(true) => Answer::of_value(1),
        Ok(false) => Answer::of_value(0),
        Err(error) => queue_refused(error),
    }
}

// The answer to a call that moved bytes of a chain.
#[inline(always)]
pub(crate) fn bytes_moved(outcome: GuestMemoryResult<usize>, answer: &mut Answer)
    ensures { answer.new ≡ answer_of_bytes outcome }
{
    match outcome {
        Ok(count) => *answer = Answer::of_count(count),
        Err(error) => *answer = memory_refused(error),
    }
}

// The answer to a call that memory refused.
#[cold]
#[inline(never)]
fn memory_refused(error: GuestMemoryError) -> Answer
    ensures { result ≡ answer_of_bytes (Err error) }
{
    refused(Refusal::from(error))
}

// The answer that says what a block request asks for.
fn asked_for(request: Request) -> Answer
    ensures { result ≡ answer_of_request request }
{
    let (value, count, address) = match request {
        Request::Read { sector, len } => (0, len, sector),
        Request::Write { sector, len, flush } => (if flush { 2 } else { 1 }, len, sector),
        Request::Flush => (4, 0, 0),
        Request::GetId { len } => (8, len, 0),
        Request::Refused { status } => (16, usize::from(status), 0),
        Request::Unserved => (17, 0, 0),
    };
    Answer {
        code: code::DONE,
        count,
        value,
        address,
    }
}

// The answer to the beginning of a block request.
pub(crate) fn begun(outcome: GuestMemoryResult<Request>) -> Answer
    ensures { result ≡ answer_of_begun outcome }
{
    match outcome {
        Ok(request) => asked_for(request),
        Err(error) => refused(Refusal::from(error)),
    }
}

// The answer to the end of a block request.
pub(crate) fn length_told(outcome: GuestMemoryResult<u32>) -> Answer
    ensures { result ≡ answer_of_length outcome }
{
    match outcome {
        Ok(len) => Answer::of_value(u64::from(len)),
        Err(error) => refused(Refusal::from(error)),
    }
}

// The answer to a pop of a chain.
#[inline]
pub(crate) fn popped(head: usize, chain: &Chain) -> Answer
    ensures { result ≡ popped_as head chain.now }
{
    Answer {
        code: code::DONE,
        count: chain.reader().left(),
        value: head as u64,
        address: chain.writer().left() as u64,
    }
}

// A number of 16 bits, if it is one.
pub(crate) fn word_of(number: u64) -> Option<u16>
    ensures { result ≡ word number }
{
    u16::try_from(number).ok()
}

fn set_size(queue: &mut Queue, value: u64) -> Answer
    ensures { SetsPart (Some QueuePart.Size) value queue.old result queue.new }
{
    match word_of(value) {
        Some(size) => queue_done(queue.set_size(size)),
        None => Answer::of_code(code::BAD_CALL),
    }
}

fn set_ready(queue: &mut Queue, value: u64) -> Answer
    ensures { SetsPart (Some QueuePart.Ready) value queue.old result queue.new }
{
    match switch_of(value) {
        Some(ready) => {
            queue.set_ready(ready);
            Answer::of_code(code::DONE)
        }
        None => Answer::of_code(code::BAD_CALL),
    }
}

fn set_event_idx(queue: &mut Queue, value: u64) -> Answer
    ensures { SetsPart (Some QueuePart.EventIdx) value queue.old result queue.new }
{
    match switch_of(value) {
        Some(enabled) => {
            queue.set_event_idx(enabled);
            Answer::of_code(code::DONE)
        }
        None => Answer::of_code(code::BAD_CALL),
    }
}

fn set_next_avail(queue: &mut Queue, value: u64) -> Answer
    ensures { SetsPart (Some QueuePart.NextAvail) value queue.old result queue.new }
{
    match word_of(value) {
        Some(next) => {
            queue.set_next_avail(next);
            Answer::of_code(code::DONE)
        }
        None => Answer::of_code(code::BAD_CALL),
    }
}

fn set_next_used(queue: &mut Queue, value: u64) -> Answer
    ensures { SetsPart (Some QueuePart.NextUsed) value queue.old result queue.new }
{
    match word_of(value) {
        Some(next) => {
            queue.set_next_used(next);
            Answer::of_code(code::DONE)
        }
        None => Answer::of_code(code::BAD_CALL),
    }
}

// Sets a part of a split queue, if there is one and the value can be that of the part.
pub(crate) fn part_set(queue: &mut Queue, part: Option<QueuePart>, value: u64) -> Answer
    ensures { SetsPart part value queue.old result queue.new }
{
    match part {
        Some(QueuePart::Size) => set_size(queue, value),
        Some(QueuePart::DescTable) => {
            queue_done(queue.try_set_desc_table_address(GuestAddress(value)))
        }
        Some(QueuePart::AvailRing) => {
            queue_done(queue.try_set_avail_ring_address(GuestAddress(value)))
        }
        Some(QueuePart::UsedRing) => {
            queue_done(queue.try_set_used_ring_address(GuestAddress(value)))
        }
        Some(QueuePart::Ready) => set_ready(queue, value),
        Some(QueuePart::EventIdx) => set_event_idx(queue, value),
        Some(QueuePart::NextAvail) => set_next_avail(queue, value),
        Some(QueuePart::NextUsed) => set_next_used(queue, value),
        Some(QueuePart::VringBase) | None => Answer::of_code(code::BAD_CALL),
    }
}

pub(crate) fn number_of_truth(truth: bool) -> usize
    ensures { result ≡ number_of_truth truth }
{
    if truth { 1 } else { 0 }
}

// Lists the numbers of a state, if there is room for them.
pub(crate) fn put_state(state: &QueueState, output: &mut [u8]) -> Answer
    ensures { ListsNine (state_numbers state.now) output.old result output.new }
{
    if output.len() < 72 {
        return Answer::short(72);
    }
    let numbers = [
        usize::from(state.max_size),
        usize::from(state.size),
        number_of_truth(state.ready),
        state.desc_table as usize,
        state.avail_ring as usize,
        state.used_ring as usize,
        usize::from(state.next_avail),
        usize::from(state.next_used),
        number_of_truth(state.event_idx_enabled),
    ];
    put_words(&numbers, output);
    Answer::of_count(9)
}
