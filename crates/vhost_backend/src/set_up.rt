//! Queues of rings, as the protocol's state has them.
ghost use Rattle.std.specs.Prelude.{◌≡◌};
ghost use Rattle.vhost_backend.specs.SetUp.{any_split, base_of, fresh_queue, is_set_up, is_split, lies_at, log_of};
ghost use Rattle.vhost_backend.specs.SetUp.{moved_queue, packed_queue, part_for, split_queue, unset_queue};

use crate::flight::FlightPlace;
use vhost_message::VhostUserInflight;
use vhost_user::{
    RunningVring, VIRTIO_F_ACCESS_PLATFORM, VIRTIO_F_RING_EVENT_IDX, VIRTIO_F_RING_PACKED,
    inflight_queue_len,
};
use virtio_queue::{
    AnyQueue, PackedQueue, PackedState, Queue, QueueError, QueueState, RingPosition,
};

// A queue that nobody has set up.
pub(crate) fn unset_queue(max_size: u16) -> Result<AnyQueue, QueueError>
    ensures { result ≡ unset_queue max_size }
{
    match PackedQueue::new(max_size) {
        Ok(queue) => Ok(AnyQueue::Packed(queue)),
        Err(error) => Err(error),
    }
}

// Whether a queue was set up.
pub(crate) fn is_set_up(queue: &AnyQueue) -> bool
    ensures { result ≡ is_set_up queue.now }
{
    match queue {
        AnyQueue::Split(queue) => queue.ready(),
        AnyQueue::Packed(queue) => queue.ready(),
    }
}

// Whether a queue is split.
pub(crate) fn is_split(queue: &AnyQueue) -> bool
    ensures { result ≡ is_split queue.now }
{
    matches!(queue, AnyQueue::Split(_))
}

// The base of a ring, as its queue stands.
pub(crate) fn base_of(queue: &AnyQueue) -> u32
    ensures { result ≡ base_of queue.now }
{
    match queue {
        AnyQueue::Split(queue) => u32::from(queue.next_avail()),
        AnyQueue::Packed(queue) => queue.vring_base(),
    }
}

// A split queue that begins at a ring's base. Where it returns its next chain is not known.
fn split_queue(max_size: u16, vring: &RunningVring, features: u64) -> Result<Queue, QueueError>
    ensures { result ≡ split_queue max_size vring.now features }
{
    if vring.num > 0xffff {
        return Err(QueueError::InvalidSize);
    }
    if vring.base > 0xffff {
        return Err(QueueError::InvalidAvailRingIndex);
    }
    Queue::from_state(QueueState {
        max_size,
        size: vring.num as u16,
        ready: true,
        desc_table: vring.descriptor,
        avail_ring: vring.available,
        used_ring: vring.used,
        next_avail: vring.base as u16,
        next_used: 0,
        event_idx_enabled: features & VIRTIO_F_RING_EVENT_IDX != 0,
    })
}

fn any_split(made: Result<Queue, QueueError>) -> Result<AnyQueue, QueueError>
    ensures { result ≡ any_split made }
{
    match made {
        Ok(queue) => Ok(AnyQueue::Split(queue)),
        Err(error) => Err(error),
    }
}

// A packed queue that begins at a ring's base.
fn packed_queue(max_size: u16, vring: &RunningVring, features: u64) -> Result<AnyQueue, QueueError>
    ensures { result ≡ packed_queue max_size vring.now features }
{
    if vring.num > 0xffff {
        return Err(QueueError::InvalidSize);
    }
    let made = PackedQueue::from_state(PackedState {
        max_size,
        size: vring.num as u16,
        ready: true,
        desc_ring: vring.descriptor,
        driver_area: vring.available,
        device_area: vring.used,
        next_avail: RingPosition::from_bits((vring.base % 0x1_0000) as u16),
        next_used: RingPosition::from_bits((vring.base / 0x1_0000) as u16),
        event_idx_enabled: features & VIRTIO_F_RING_EVENT_IDX != 0,
    });
    match made {
        Ok(queue) => Ok(AnyQueue::Packed(queue)),
        Err(error) => Err(error),
    }
}

// The queue of a ring that was started: it begins at the ring's base.
pub(crate) fn fresh_queue(
    max_size: u16,
    vring: &RunningVring,
    features: u64,
) -> Result<AnyQueue, QueueError>
    ensures { result ≡ fresh_queue max_size vring.now features }
{
    if features & VIRTIO_F_RING_PACKED != 0 {
        return packed_queue(max_size, vring, features);
    }
    any_split(split_queue(max_size, vring, features))
}

// The queue of a ring that lies elsewhere now, and goes on where it is.
pub(crate) fn moved_queue(queue: &AnyQueue, vring: &RunningVring) -> Result<AnyQueue, QueueError>
    ensures { result ≡ moved_queue queue.now vring.now }
{
    match queue {
        AnyQueue::Split(queue) => {
            let state = QueueState {
                desc_table: vring.descriptor,
                avail_ring: vring.available,
                used_ring: vring.used,
                ..queue.state()
            };
            any_split(Queue::from_state(state))
        }
        AnyQueue::Packed(queue) => {
            let state = PackedState {
                desc_ring: vring.descriptor,
                driver_area: vring.available,
                device_area: vring.used,
                ..queue.state()
            };
            match PackedQueue::from_state(state) {
                Ok(queue) => Ok(AnyQueue::Packed(queue)),
                Err(error) => Err(error),
            }
        }
    }
}

// Whether a queue lies where the protocol's state says.
pub(crate) fn lies_at(queue: &AnyQueue, vring: &RunningVring) -> bool
    ensures { result ≡ lies_at queue.now vring.now }
{
    match queue {
        AnyQueue::Split(queue) => {
            let state = queue.state();
            state.desc_table == vring.descriptor
                && state.avail_ring == vring.available
                && state.used_ring == vring.used
        }
        AnyQueue::Packed(queue) => {
            let state = queue.state();
            state.desc_ring == vring.descriptor
                && state.driver_area == vring.available
                && state.device_area == vring.used
        }
    }
}

// Where writes to its used ring are logged, if a table translates its addresses. If not, they are where they are made.
pub(crate) fn log_of(vring: &RunningVring, features: u64) -> Option<u64>
    ensures { result ≡ log_of vring.now features }
{
    if features & VIRTIO_F_ACCESS_PLATFORM != 0 {
        vring.log
    } else {
        None
    }
}

// The part of a ring of the region of requests in flight: as many parts of one length as the region has rings.
pub(crate) fn part_for(
    features: u64,
    ring: usize,
    region: Option<VhostUserInflight>,
) -> Option<FlightPlace>
    ensures { result ≡ part_for features ring region }
{
    let region = region?;
    if ring >= usize::from(region.num_queues) {
        return None;
    }
    let len = inflight_queue_len(features, region.queue_size) as usize;
    Some(FlightPlace {
        base: ring * len,
        len,
        descriptors: region.queue_size,
    })
}
