//! Queues of a session, and their chains in flight.
ghost use Rattle.std.specs.Prelude.{◌≡◌, ◌==◌, ◌+◌, ◌^◌, ◌<◌, ◌≤◌, true, false, IfOk, replicate, length, Some, None};
ghost use Rattle.std.specs.Prelude.{is_some, option_copied};
ghost use Rattle.vm_memory_guest.specs.Host.{shape_of, Holds};
ghost use Rattle.vm_session.specs.Queues.{AsksNotToNotify, AsksToNotify, BeginsRequest, FinishesRequest, Forgets};
ghost use Rattle.vm_session.specs.Queues.{KeepsQueue, ListsSegments, ListsState, MakesQueue, NeedsNotification, Pops};
ghost use Rattle.vm_session.specs.Queues.{ReadsChain, Returns, SetsAnyPart, TellsAvail, TellsUsed, TellsValid};
ghost use Rattle.vm_session.specs.Queues.{WritesChain, cleared, forgotten, is_past, refusal_of_chain, with_chain};
ghost use Rattle.vm_session.specs.Queues.{with_none};
ghost use Rattle.vm_session.specs.Misses.{next_word};
ghost use Rattle.vm_session.specs.SessionState.{buffer_of, chain_of, descriptors_in};

use crate::answer::refuse;
use crate::call::{Answer, Call, QueuePart};
use crate::code;
use crate::device_memory::DeviceMemory;
use crate::lists::list_segments;
use crate::packed_answer::{any_part_set, put_any_state};
use crate::queue_answer::{
    asked, begun, bytes_moved, length_told, number_told, popped, queue_done, queue_refused,
};
use std::alloc::{AllocError, Global};
use std::marker::Model;
use virtio_blk::DeviceLimits;
use virtio_queue::{AnyQueue, PackedBuffer, PackedQueue, Queue, QueueError, SpareLists};
use vm_memory_base::Bitmap;
use vm_memory_device::Chain;
use vm_memory_guest::{GuestMemory, HostMemory};

/// A queue of either kind with its chains in flight, each under its head. That of a chain of a packed queue is its id.
#[derive(Drop)]
pub(crate) struct SessionQueue {
    queue: AnyQueue,
    most: usize,
    flight: Vec<Option<Chain>>,
    // How many slots of the ring the chain of each head took.
    slots: Vec<u16>,
    // How many descriptors are in flight.
    count: usize,
    spare: SpareLists,
}

impl Model for SessionQueue {
    ghost use Rattle.std.specs.Prelude.{◌≡◌, ◌<◌, ◌≤◌, ◌^◌, length};
    ghost use Rattle.vm_session.specs.SessionState.{DeviceQueue, descriptors_in};

    ghost Value = { DeviceQueue };

    ghost view = { λ q. record { queue = q.queue; most = q.most; flight = q.flight.items; slots = q.slots.items } };

    ghost invariant = { λ q. (length q.flight.items < 2 ^ 16) × (q.count ≡ descriptors_in q.flight.items)
        × (q.count ≤ q.most) };
}

// No chain in flight, for each head of a queue of this size.
fn none_in_flight(alloc: Global, size: u16) -> Result<Vec<Option<Chain>>, AllocError>
    ensures { IfOk result (λ flight. flight.items ≡ replicate size None) }
{
    let mut flight = Vec::with_capacity(alloc, usize::from(size))?;
    for _made in 0..size {
        flight.push(None)?;
    }
    Ok(flight)
}

// Drops all chains.
fn clear(flight: &mut [Option<Chain>])
    ensures { flight.new ≡ replicate (length flight.old) None }
{
    for slot in flight.iter_mut() {
        *slot = None;
    }
}

// Keeps a queue that nobody has set up, of which at most `most` descriptors may be in flight.
fn keep_queue(alloc: Global, queues: &mut Vec<SessionQueue>, queue: AnyQueue, most: usize) -> Answer
    ensures { KeepsQueue (with_none queue most) queues.old.items result queues.new.items }
{
    let number = queues.len();
    let Ok(queue) = SessionQueue::new(alloc, queue, most) else {
        return Answer::of_code(code::MEMORY);
    };
    match queues.push(queue) {
        Ok(()) => Answer::of_value(number as u64),
        Err(_) => Answer::of_code(code::MEMORY),
    }
}

// Makes a split queue, if it can have this greatest size.
pub(crate) fn make_queue(alloc: Global, queues: &mut Vec<SessionQueue>, call: &Call) -> Answer
    ensures { MakesQueue false queues.old.items call.now result queues.new.items }
{
    let Ok(max_size) = u16::try_from(call.length) else {
        return queue_refused(QueueError::InvalidMaxSize);
    };
    match Queue::new(max_size) {
        Ok(queue) => keep_queue(alloc, queues, AnyQueue::Split(queue), call.other_length),
        Err(error) => queue_refused(error),
    }
}

// Makes a packed queue, if it can have this greatest size.
pub(crate) fn make_packed_queue(
    alloc: Global,
    queues: &mut Vec<SessionQueue>,
    call: &Call,
) -> Answer
    ensures { MakesQueue true queues.old.items call.now result queues.new.items }
{
    let Ok(max_size) = u16::try_from(call.length) else {
        return queue_refused(QueueError::InvalidMaxSize);
    };
    match PackedQueue::new(max_size) {
        Ok(queue) => keep_queue(alloc, queues, AnyQueue::Packed(queue), call.other_length),
        Err(error) => queue_refused(error),
    }
}

impl SessionQueue {
    // A queue that nobody has set up, of this greatest size, with this bound on descriptors in flight.
    pub(crate) fn new(
        alloc: Global,
        queue: AnyQueue,
        most: usize,
    ) -> Result<SessionQueue, AllocError>
        ensures { IfOk result (λ q. q ≡ with_none queue most) }
    {
        let size = queue.max_size();
        let flight = none_in_flight(alloc, size)?;
        let slots = vec![in alloc; 0u16; usize::from(size)]?;
        Ok(SessionQueue {
            queue,
            most,
            flight,
            slots,
            count: 0,
            spare: SpareLists::new(alloc, most),
        })
    }

    // Resets to the state after creation.
    pub(crate) fn reset(&mut self)
        ensures { self.new ≡ cleared self.old }
    {
        self.queue.reset();
        clear(self.flight.as_mut_slice());
        self.count = 0;
        self.spare.reset();
    }

    // Sets a part.
    pub(crate) fn set(&mut self, part: Option<QueuePart>, value: u64) -> Answer
        ensures queue { SetsAnyPart part value self.old.queue result self.new.queue }
        ensures others { self.new ≡ record self.old { queue = self.new.queue } }
    {
        any_part_set(&mut self.queue, part, value)
    }

    // Its state, as a list of numbers.
    pub(crate) fn list_state(&self, output: &mut [u8]) -> Answer
        ensures { ListsState self.now.queue output.old result output.new }
    {
        put_any_state(&self.queue, output)
    }

    // The chain of a head that is in flight.
    #[inline(always)]
    fn chain(&self, head: usize) -> Option<&Chain>
        ensures { option_copied result ≡ chain_of self.now head }
    {
        match self.flight.get(head) {
            Some(slot) => slot.as_ref(),
            None => None,
        }
    }

    // Whether the chain of a head is in flight.
    #[inline(always)]
    fn has(&self, head: usize) -> bool
        ensures { result ≡ is_some (chain_of self.now head) }
    {
        self.chain(head).is_some()
    }

    // What the chain of a head is returned by.
    #[inline(always)]
    fn buffer(&self, head: usize) -> PackedBuffer
        requires { head < 2 ^ 16 }
        ensures { result ≡ buffer_of self.now head }
    {
        let slots = match self.slots.get(head) {
            Some(slots) => *slots,
            None => 0,
        };
        PackedBuffer {
            id: head as u16,
            slots,
        }
    }

    // Puts a chain in flight for which there is room.
    #[inline(always)]
    fn put(&mut self, buffer: PackedBuffer, chain: Chain)
        requires none { chain_of self.old buffer.id ≡ None }
        requires room { descriptors_in self.old.flight + length chain ≤ self.old.most }
        ensures { self.new ≡ with_chain self.old buffer chain }
    {
        let head = usize::from(buffer.id);
        let count = chain.segments().len();
        if let Some(slots) = self.slots.get_mut(head) {
            *slots = buffer.slots;
        }
        if let Some(slot) = self.flight.get_mut(head) {
            self.spare.take(&chain);
            *slot = Some(chain);
            self.count += count;
        }
    }

    // Whether a packed queue has no place for a chain of this id.
    #[inline(always)]
    fn is_past(&self, head: usize) -> bool
        ensures { result ≡ is_past self.now head }
    {
        match self.queue {
            AnyQueue::Split(_) => false,
            AnyQueue::Packed(_) => head >= self.flight.len(),
        }
    }

    // Takes the chain of a head out of flight, if it is there, and keeps its list.
    #[inline(always)]
    fn take(&mut self, head: usize)
        ensures { self.new ≡ forgotten self.old head }
    {
        if let Some(slot) = self.flight.get_mut(head) {
            if let Some(chain) = slot.take() {
                self.count -= chain.segments().len();
                self.spare.give(chain);
            }
        }
    }

    // Why a chain that was popped cannot be in flight, if that is so.
    #[inline(always)]
    fn refusal_of(&self, head: usize, chain: &Chain) -> Option<Answer>
        ensures { result ≡ refusal_of_chain self.now head chain.now }
    {
        if self.is_past(head) {
            return Some(queue_refused(QueueError::InvalidDescriptorIndex));
        }
        if self.has(head) {
            return Some(Answer::of_code(code::IN_FLIGHT));
        }
        if chain.segments().len() > self.most - self.count {
            return Some(Answer::of_code(code::TOO_MANY));
        }
        None
    }

    // Pops the next chain. An answer is put where it is wanted, so that it is not copied.
    #[inline(always)]
    pub(crate) fn pop<H, D: DeviceMemory<H>>(
        &mut self,
        alloc: Global,
        mem: &D,
        host: &mut H,
        answer: &mut Answer,
    )
        requires { D.held mem.now host.old }
        ensures pops { Pops (D.steps mem.now) self.old host.old answer.new self.new host.new }
        ensures shape { D.shape mem.now host.new ≡ D.shape mem.now host.old }
    {
        let next = self.queue.next_avail();
        match mem.pop(host, alloc, &mut self.spare.next, &mut self.queue) {
            Ok(Some((buffer, chain))) => {
                let head = usize::from(buffer.id);
                if let Some(refusal) = self.refusal_of(head, &chain) {
                    self.queue.go_back(next);
                    self.spare.put_back(chain);
                    *answer = refusal;
                } else {
                    *answer = popped(head, &chain);
                    self.put(buffer, chain);
                }
            }
            Ok(None) => *answer = Answer::of_code(code::NO_CHAIN),
            Err(error) => *answer = queue_refused(error),
        }
    }

    // Drops the chain of a head that is in flight.
    pub(crate) fn forget(&mut self, head: usize) -> Answer
        ensures { Forgets self.old head result self.new }
    {
        if !self.has(head) {
            return Answer::of_code(code::NOT_IN_FLIGHT);
        }
        self.take(head);
        Answer::of_code(code::DONE)
    }

    // The segments of a chain in flight, as a list of numbers.
    pub(crate) fn list_segments(&self, head: usize, output: &mut [u8]) -> Answer
        ensures { ListsSegments self.now head output.old result output.new }
    {
        match self.chain(head) {
            Some(chain) => list_segments(chain.segments(), output),
            None => Answer::of_code(code::NOT_IN_FLIGHT),
        }
    }

    // Reads the readable bytes of a chain in flight from an offset on.
    #[inline(always)]
    pub(crate) fn read<M: GuestMemory, B: Bitmap>(
        &self,
        mem: &M,
        host: &HostMemory<B>,
        head: usize,
        offset: usize,
        buf: &mut [u8],
        answer: &mut Answer,
    )
        requires { Holds (shape_of host.now) (M.names mem.now) }
        ensures { ReadsChain (M.memory mem.now) host.now self.now head offset buf.old answer.new buf.new }
    {
        let Some(chain) = self.chain(head) else {
            refuse(code::NOT_IN_FLIGHT, answer);
            return;
        };
        let mut reader = chain.reader();
        reader.skip(offset);
        bytes_moved(reader.read(mem, host, buf), answer);
    }

    // Writes to the writable bytes of a chain in flight from an offset on.
    #[inline(always)]
    pub(crate) fn write<M: GuestMemory, B: Bitmap>(
        &self,
        mem: &M,
        host: &mut HostMemory<B>,
        head: usize,
        offset: usize,
        bytes: &[u8],
        answer: &mut Answer,
    )
        requires { Holds (shape_of host.old) (M.names mem.now) }
        ensures written { WritesChain B.marks (M.memory mem.now) self.now head offset bytes.now host.old
            answer.new host.new }
        ensures shape { shape_of host.new ≡ shape_of host.old }
    {
        let Some(chain) = self.chain(head) else {
            refuse(code::NOT_IN_FLIGHT, answer);
            return;
        };
        let mut writer = chain.writer();
        writer.skip(offset);
        bytes_moved(writer.write(mem, host, bytes), answer);
    }

    // Returns a chain in flight. It is called, so that the calls of both kinds of memory need few registers.
    #[inline(never)]
    pub(crate) fn add_used<H, D: DeviceMemory<H>>(
        &mut self,
        mem: &D,
        host: &mut H,
        head: usize,
        len: u32,
        answer: &mut Answer,
    )
        requires { D.held mem.now host.old }
        ensures returned { Returns (D.steps mem.now) self.old head len host.old answer.new self.new host.new }
        ensures shape { D.shape mem.now host.new ≡ D.shape mem.now host.old }
    {
        if !self.has(head) || head >= self.flight.len() {
            refuse(code::NOT_IN_FLIGHT, answer);
            return;
        }
        let buffer = self.buffer(head);
        match mem.add_used(host, &mut self.queue, buffer, len) {
            Ok(()) => {
                self.take(head);
                *answer = Answer::of_code(code::DONE);
            }
            Err(error) => *answer = queue_refused(error),
        }
    }

    // Whether the driver has to be notified.
    #[inline(always)]
    pub(crate) fn needs_notification<H, D: DeviceMemory<H>>(
        &mut self,
        mem: &D,
        host: &mut H,
        answer: &mut Answer,
    )
        requires { D.held mem.now host.old }
        ensures needs { NeedsNotification (D.steps mem.now) self.old host.old answer.new self.new host.new }
        ensures shape { D.shape mem.now host.new ≡ D.shape mem.now host.old }
    {
        *answer = asked(mem.needs_notification(host, &mut self.queue));
    }

    // Asks the driver to notify the device.
    pub(crate) fn enable_notification<H, D: DeviceMemory<H>>(&self, mem: &D, host: &mut H) -> Answer
        requires { D.held mem.now host.old }
        ensures asks { AsksToNotify (D.steps mem.now) self.now host.old result host.new }
        ensures shape { D.shape mem.now host.new ≡ D.shape mem.now host.old }
    {
        asked(mem.enable_notification(host, &self.queue))
    }

    // Asks the driver not to notify the device.
    pub(crate) fn disable_notification<H, D: DeviceMemory<H>>(
        &self,
        mem: &D,
        host: &mut H,
    ) -> Answer
        requires { D.held mem.now host.old }
        ensures asks { AsksNotToNotify (D.steps mem.now) self.now host.old result host.new }
        ensures shape { D.shape mem.now host.new ≡ D.shape mem.now host.old }
    {
        queue_done(mem.disable_notification(host, &self.queue))
    }

    // Whether what says whether there is a next chain lies at an address.
    pub(crate) fn reads_next_at(&self, address: u64) -> bool
        ensures { result ≡ (address == next_word self.now.queue) }
    {
        let place = match &self.queue {
            AnyQueue::Split(queue) => queue.state().avail_ring.checked_add(2),
            AnyQueue::Packed(queue) => {
                let state = queue.state();
                let offset = 16 * u64::from(state.next_avail.slot) + 14;
                state.desc_ring.checked_add(offset)
            }
        };
        place == Some(address)
    }

    // Whether its areas lie whole in memory.
    pub(crate) fn is_valid<M: GuestMemory, B: Bitmap>(
        &self,
        mem: &M,
        host: &HostMemory<B>,
    ) -> Answer
        requires { Holds (shape_of host.now) (M.names mem.now) }
        ensures { TellsValid (M.memory mem.now) host.now self.now result }
    {
        asked(self.queue.is_valid(mem, host))
    }

    // The driver's index, which a packed queue does not have.
    pub(crate) fn avail_idx<H, D: DeviceMemory<H>>(&self, mem: &D, host: &mut H) -> Answer
        requires { D.held mem.now host.old }
        ensures tells { TellsAvail (D.steps mem.now) self.now.queue host.old result host.new }
        ensures shape { D.shape mem.now host.new ≡ D.shape mem.now host.old }
    {
        match &self.queue {
            AnyQueue::Split(queue) => number_told(mem.avail_idx(host, queue)),
            AnyQueue::Packed(_) => Answer::of_code(code::BAD_CALL),
        }
    }

    // The device's index, as it lies in the ring, which a packed queue does not have.
    pub(crate) fn used_idx<H, D: DeviceMemory<H>>(&self, mem: &D, host: &mut H) -> Answer
        requires { D.held mem.now host.old }
        ensures tells { TellsUsed (D.steps mem.now) self.now.queue host.old result host.new }
        ensures shape { D.shape mem.now host.new ≡ D.shape mem.now host.old }
    {
        match &self.queue {
            AnyQueue::Split(queue) => number_told(mem.used_idx(host, queue)),
            AnyQueue::Packed(_) => Answer::of_code(code::BAD_CALL),
        }
    }

    // What a chain in flight asks a block device for.
    pub(crate) fn begin<H, D: DeviceMemory<H>>(
        &self,
        mem: &D,
        host: &mut H,
        head: usize,
        limits: DeviceLimits,
    ) -> Answer
        requires { D.held mem.now host.old }
        ensures begins { BeginsRequest (D.steps mem.now) self.now head (Some limits) host.old result host.new }
        ensures shape { D.shape mem.now host.new ≡ D.shape mem.now host.old }
    {
        match self.chain(head) {
            Some(chain) => begun(mem.begin(host, limits, chain)),
            None => Answer::of_code(code::NOT_IN_FLIGHT),
        }
    }

    // Finishes the block request of a chain in flight.
    pub(crate) fn finish<H, D: DeviceMemory<H>>(
        &self,
        mem: &D,
        host: &mut H,
        head: usize,
        status: u8,
        moved: usize,
    ) -> Answer
        requires { D.held mem.now host.old }
        ensures finished { FinishesRequest (D.steps mem.now) self.now head status moved host.old result host.new }
        ensures shape { D.shape mem.now host.new ≡ D.shape mem.now host.old }
    {
        match self.chain(head) {
            Some(chain) => length_told(mem.finish(host, chain, status, moved)),
            None => Answer::of_code(code::NOT_IN_FLIGHT),
        }
    }
}
