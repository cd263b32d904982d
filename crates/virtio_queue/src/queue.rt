//! Queues: their setup, and their state.
ghost use Rattle.std.specs.Prelude.{◌≡◌, ◌%◌, ◌&&◌, ◌==◌, nat_le, if◌then◌else◌, None, Some, Ok, Err, IsTrue};
ghost use Rattle.std.specs.Prelude.{MatchResult};
ghost use Rattle.virtio_queue.specs.Rings.{before};
ghost use Rattle.virtio_queue.specs.State.{is_size, new_queue, new_state, set_if, state_error, with_state};

mod again;
mod available;
mod barrier;
mod notification;
mod used;

pub(crate) use self::barrier::BarrierWord;
pub use self::notification::{VRING_AVAIL_F_NO_INTERRUPT, VRING_USED_F_NO_NOTIFY};
use crate::error::QueueError;
use crate::hints::Hints;
use crate::state::QueueState;
use std::marker::Model;
use vm_memory_base::GuestAddress;

/// A split virtqueue, as the device sees it: the crate's README.md.
///
/// It is set up by the transport, as the driver asks, and then pops the chains that the driver publishes, and returns
/// them. A call that reaches guest memory is refused while the queue is not ready.
///
/// ```text
/// loop {
///     while let Some((head, chain)) = queue.pop_descriptor_chain(alloc, &memory, &host)? {
///         let len = serve(&memory, &mut host, &chain)?;
///         queue.add_used(&memory, &mut host, head, len)?;
///     }
///     if !queue.enable_notification(&memory, &mut host)? {
///         break;
///     }
/// }
/// ```
///
/// Leaves open: `Memory` for each access of either half through an IOMMU that is on and allows it by two pieces or
/// more. A refused call of a device changed nothing.
#[derive(Drop)]
pub struct Queue {
    state: QueueState,
    // How many entries were added since `needs_notification` was last asked, if it is known, and 65536 if more.
    added: Option<u32>,
    // What keeps its accesses of guest memory in order: the crate's README.md, "Order".
    barrier: BarrierWord,
    // Which regions its accesses ask first: the crate's README.md, "Hints".
    hints: Hints,
}

impl Model for Queue {
    ghost use Rattle.virtio_queue.specs.State.{Virtqueue, IsState};

    ghost Value = { Virtqueue };

    ghost view = { λ q. record { state = q.state; added = q.added } };

    ghost invariant = { λ q. IsState q.state };
}

// Whether a size is a power of two, from 1 to 32768.
#[inline]
pub(crate) fn is_size(size: u16) -> bool
    ensures { result ≡ is_size size }
{
    size > 0 && 0x8000 % size == 0
}

// The state of a queue that nobody has set up.
#[inline]
fn new_state(max_size: u16) -> QueueState
    ensures { result ≡ new_state max_size }
{
    QueueState {
        max_size,
        size: max_size,
        ready: false,
        desc_table: 0,
        avail_ring: 0,
        used_ring: 0,
        next_avail: 0,
        next_used: 0,
        event_idx_enabled: false,
    }
}

// Why no queue can have this state, if that is so.
fn state_error(state: &QueueState) -> Option<QueueError>
    ensures { result ≡ state_error state.now }
{
    if !is_size(state.max_size) {
        Some(QueueError::InvalidMaxSize)
    } else if !is_size(state.size) || state.size > state.max_size {
        Some(QueueError::InvalidSize)
    } else if state.desc_table % 16 != 0 {
        Some(QueueError::InvalidDescTableAlign)
    } else if state.avail_ring % 2 != 0 {
        Some(QueueError::InvalidAvailRingAlign)
    } else if state.used_ring % 4 != 0 {
        Some(QueueError::InvalidUsedRingAlign)
    } else {
        None
    }
}

impl Queue {
    /// A queue in its reset state, with the maximum size. `InvalidMaxSize` if that is not a power of two
    /// from 1 to 32768.
    pub fn new(max_size: u16) -> Result<Queue, QueueError>
        ensures { result ≡ if is_size max_size then Ok (new_queue max_size) else Err QueueError.InvalidMaxSize }
    {
        if !is_size(max_size) {
            return Err(QueueError::InvalidMaxSize);
        }
        Ok(Queue {
            state: new_state(max_size),
            added: Some(0),
            barrier: BarrierWord::new(),
            hints: Hints::new(),
        })
    }

    /// A queue of this state. The first part that a queue cannot have is refused: `InvalidMaxSize`, `InvalidSize`,
    /// `InvalidDescTableAlign`, `InvalidAvailRingAlign`, `InvalidUsedRingAlign`, in this order. Which entries the
    /// driver was notified of is not part of a state, so the queue's first `needs_notification` is true.
    pub fn from_state(state: QueueState) -> Result<Queue, QueueError>
        ensures { MatchResult result
            (λ queue. (queue ≡ record { state = state; added = None }) × (state_error state ≡ None))
            (λ e. state_error state ≡ Some e) }
    {
        if let Some(error) = state_error(&state) {
            return Err(error);
        }
        Ok(Queue {
            state,
            added: None,
            barrier: BarrierWord::new(),
            hints: Hints::new(),
        })
    }

    /// Its state, from which a queue can be made again.
    #[inline]
    pub fn state(&self) -> QueueState
        ensures state { result ≡ self.now.state }
        ensures possible { state_error result ≡ None }
    {
        self.state
    }

    /// Resets it to what `new` gave: not ready, with the maximum size, and all else 0.
    pub fn reset(&mut self)
        ensures { self.new ≡ new_queue self.old.state.max_size }
    {
        self.state = new_state(self.state.max_size);
        self.added = Some(0);
    }

    /// The greatest size that the device allows.
    #[inline]
    pub fn max_size(&self) -> u16
        ensures { result ≡ self.now.state.max_size }
    {
        self.state.max_size
    }

    /// How many descriptors the table has, and how many entries each ring has.
    #[inline]
    pub fn size(&self) -> u16
        ensures size { result ≡ self.now.state.size }
        ensures power { IsTrue (is_size result) }
    {
        self.state.size
    }

    /// Sets the size. `InvalidSize` if it is not a power of two from 1 to the greatest size.
    pub fn set_size(&mut self, size: u16) -> Result<(), QueueError>
        ensures { (result, self.new) ≡ set_if (is_size size && nat_le size self.old.state.max_size)
            QueueError.InvalidSize self.old (record self.old.state { size = size }) }
    {
        if !is_size(size) || size > self.state.max_size {
            return Err(QueueError::InvalidSize);
        }
        self.state.size = size;
        Ok(())
    }

    /// Whether the driver has enabled the queue.
    #[inline]
    pub fn ready(&self) -> bool
        ensures { result ≡ self.now.state.ready }
    {
        self.state.ready
    }

    /// Sets whether the driver has enabled the queue.
    pub fn set_ready(&mut self, ready: bool)
        ensures { self.new ≡ with_state self.old (record self.old.state { ready = ready }) }
    {
        self.state.ready = ready;
    }

    /// The guest address of the table of descriptors.
    #[inline]
    pub fn desc_table(&self) -> GuestAddress
        ensures { result.0 ≡ self.now.state.desc_table }
    {
        GuestAddress(self.state.desc_table)
    }

    /// Sets the address of the table of descriptors. `InvalidDescTableAlign` if it is not a multiple of 16.
    pub fn try_set_desc_table_address(&mut self, addr: GuestAddress) -> Result<(), QueueError>
        ensures { (result, self.new) ≡ set_if (addr.0 % 16 == 0)
            QueueError.InvalidDescTableAlign self.old (record self.old.state { desc_table = addr.0 }) }
    {
        if addr.0 % 16 != 0 {
            return Err(QueueError::InvalidDescTableAlign);
        }
        self.state.desc_table = addr.0;
        Ok(())
    }

    /// The guest address of the available ring.
    #[inline]
    pub fn avail_ring(&self) -> GuestAddress
        ensures { result.0 ≡ self.now.state.avail_ring }
    {
        GuestAddress(self.state.avail_ring)
    }

    /// Sets the address of the available ring. `InvalidAvailRingAlign` if it is not a multiple of 2.
    pub fn try_set_avail_ring_address(&mut self, addr: GuestAddress) -> Result<(), QueueError>
        ensures { (result, self.new) ≡ set_if (addr.0 % 2 == 0)
            QueueError.InvalidAvailRingAlign self.old (record self.old.state { avail_ring = addr.0 }) }
    {
        if addr.0 % 2 != 0 {
            return Err(QueueError::InvalidAvailRingAlign);
        }
        self.state.avail_ring = addr.0;
        Ok(())
    }

    /// The guest address of the used ring.
    #[inline]
    pub fn used_ring(&self) -> GuestAddress
        ensures { result.0 ≡ self.now.state.used_ring }
    {
        GuestAddress(self.state.used_ring)
    }

    /// Sets the address of the used ring. `InvalidUsedRingAlign` if it is not a multiple of 4.
    pub fn try_set_used_ring_address(&mut self, addr: GuestAddress) -> Result<(), QueueError>
        ensures { (result, self.new) ≡ set_if (addr.0 % 4 == 0)
            QueueError.InvalidUsedRingAlign self.old (record self.old.state { used_ring = addr.0 }) }
    {
        if addr.0 % 4 != 0 {
            return Err(QueueError::InvalidUsedRingAlign);
        }
        self.state.used_ring = addr.0;
        Ok(())
    }

    /// Whether notifications go by event indices rather than flags.
    #[inline]
    pub fn event_idx_enabled(&self) -> bool
        ensures { result ≡ self.now.state.event_idx_enabled }
    {
        self.state.event_idx_enabled
    }

    /// Sets whether notifications go by event indices rather than flags.
    pub fn set_event_idx(&mut self, enabled: bool)
        ensures { self.new ≡ with_state self.old (record self.old.state { event_idx_enabled = enabled }) }
    {
        self.state.event_idx_enabled = enabled;
    }

    /// The index of the entry of the available ring that is popped next, modulo 2^16.
    #[inline]
    pub fn next_avail(&self) -> u16
        ensures { result ≡ self.now.state.next_avail }
    {
        self.state.next_avail
    }

    /// Sets which entry of the available ring is popped next.
    pub fn set_next_avail(&mut self, next_avail: u16)
        ensures { self.new ≡ with_state self.old (record self.old.state { next_avail = next_avail }) }
    {
        self.state.next_avail = next_avail;
    }

    /// Makes the chain that was popped last the next to be popped.
    pub fn go_to_previous_position(&mut self)
        ensures { self.new ≡ with_state self.old
            (record self.old.state { next_avail = before self.old.state.next_avail }) }
    {
        self.state.next_avail = self.state.next_avail.wrapping_sub(1);
    }

    /// The index of the entry of the used ring that is written next, modulo 2^16.
    #[inline]
    pub fn next_used(&self) -> u16
        ensures { result ≡ self.now.state.next_used }
    {
        self.state.next_used
    }

    /// Sets which entry of the used ring is written next. Which entries the driver was notified of is not known then,
    /// so the next `needs_notification` is true.
    pub fn set_next_used(&mut self, next_used: u16)
        ensures { self.new ≡ record { state = record self.old.state { next_used = next_used }; added = None } }
    {
        self.state.next_used = next_used;
        self.added = None;
    }
}
