//! The answers of calls that set and list the parts of packed queues, and of queues of either kind.
ghost use Rattle.std.specs.Prelude.{◌≡◌, ◌^◌, nat_lt, if◌then◌else◌, None, Some};
ghost use Rattle.vm_session.specs.Queues.{ListsNine, ListsState, SetsAnyPart, SetsPackedPart, packed_numbers};

use crate::call::{Answer, QueuePart, switch_of};
use crate::code;
use crate::queue_answer::{number_of_truth, part_set, put_state, queue_done, word_of};
use crate::words::put_words;
use virtio_queue::{AnyQueue, PackedQueue, PackedState};
use vm_memory_base::GuestAddress;

// A number of 32 bits, if it is one.
fn long_of(number: u64) -> Option<u32>
    ensures { result ≡ if nat_lt number (2 ^ 32) then Some number else None }
{
    u32::try_from(number).ok()
}

fn set_size(queue: &mut PackedQueue, value: u64) -> Answer
    ensures { SetsPackedPart (Some QueuePart.Size) value queue.old result queue.new }
{
    match word_of(value) {
        Some(size) => queue_done(queue.set_size(size)),
        None => Answer::of_code(code::BAD_CALL),
    }
}

fn set_ready(queue: &mut PackedQueue, value: u64) -> Answer
    ensures { SetsPackedPart (Some QueuePart.Ready) value queue.old result queue.new }
{
    match switch_of(value) {
        Some(ready) => {
            queue.set_ready(ready);
            Answer::of_code(code::DONE)
        }
        None => Answer::of_code(code::BAD_CALL),
    }
}

fn set_event_idx(queue: &mut PackedQueue, value: u64) -> Answer
    ensures { SetsPackedPart (Some QueuePart.EventIdx) value queue.old result queue.new }
{
    match switch_of(value) {
        Some(enabled) => {
            queue.set_event_idx(enabled);
            Answer::of_code(code::DONE)
        }
        None => Answer::of_code(code::BAD_CALL),
    }
}

fn set_vring_base(queue: &mut PackedQueue, value: u64) -> Answer
    ensures { SetsPackedPart (Some QueuePart.VringBase) value queue.old result queue.new }
{
    match long_of(value) {
        Some(base) => queue_done(queue.set_vring_base(base)),
        None => Answer::of_code(code::BAD_CALL),
    }
}

// Sets a part of a packed queue, if there is one and the value can be that of the part.
fn packed_part_set(queue: &mut PackedQueue, part: Option<QueuePart>, value: u64) -> Answer
    ensures { SetsPackedPart part value queue.old result queue.new }
{
    match part {
        Some(QueuePart::Size) => set_size(queue, value),
        Some(QueuePart::DescTable) => {
            queue_done(queue.try_set_desc_ring_address(GuestAddress(value)))
        }
        Some(QueuePart::AvailRing) => {
            queue_done(queue.try_set_driver_area_address(GuestAddress(value)))
        }
        Some(QueuePart::UsedRing) => {
            queue_done(queue.try_set_device_area_address(GuestAddress(value)))
        }
        Some(QueuePart::Ready) => set_ready(queue, value),
        Some(QueuePart::EventIdx) => set_event_idx(queue, value),
        Some(QueuePart::VringBase) => set_vring_base(queue, value),
        Some(QueuePart::NextAvail | QueuePart::NextUsed) | None => {
            Answer::of_code(code::BAD_CALL)
        }
    }
}

// Sets a part of a queue of either kind.
pub(crate) fn any_part_set(queue: &mut AnyQueue, part: Option<QueuePart>, value: u64) -> Answer
    ensures { SetsAnyPart part value queue.old result queue.new }
{
    match queue {
        AnyQueue::Split(queue) => part_set(queue, part, value),
        AnyQueue::Packed(queue) => packed_part_set(queue, part, value),
    }
}

// Lists the numbers of the state of a packed queue, if there is room for them.
fn put_packed_state(state: &PackedState, output: &mut [u8]) -> Answer
    ensures { ListsNine (packed_numbers state.now) output.old result output.new }
{
    if output.len() < 72 {
        return Answer::short(72);
    }
    let numbers = [
        usize::from(state.max_size),
        usize::from(state.size),
        number_of_truth(state.ready),
        state.desc_ring as usize,
        state.driver_area as usize,
        state.device_area as usize,
        usize::from(state.next_avail.to_bits()),
        usize::from(state.next_used.to_bits()),
        number_of_truth(state.event_idx_enabled),
    ];
    put_words(&numbers, output);
    Answer::of_count(9)
}

// Lists the numbers of the state of a queue of either kind.
pub(crate) fn put_any_state(queue: &AnyQueue, output: &mut [u8]) -> Answer
    ensures { ListsState queue.now output.old result output.new }
{
    match queue {
        AnyQueue::Split(queue) => put_state(&queue.state(), output),
        AnyQueue::Packed(queue) => put_packed_state(&queue.state(), output),
    }
}
