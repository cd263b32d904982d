//! The parts of a session: a machine, what is made for it, its commands, and queues on its memories, by calls.
ghost use Rattle.std.specs.Prelude.{◌≡◌, ◌≤◌, true, List, ℕ, IsSome, IsTrue, length, slice_get};
ghost use Rattle.std.specs.Option.{option_and_then};
ghost use Rattle.vm_memory.specs.Memories.{table_of};
ghost use Rattle.vm_memory.specs.Setup.{without_regions};
ghost use Rattle.vm_session.specs.Kinds.{is_access, is_on_queue, is_queue, is_work, keeps_queue, kinds, sets_up};
ghost use Rattle.vm_session.specs.Misses.{Misses, MissesFor, access_of, memory_of, notified};
ghost use Rattle.vm_session.specs.Queues.{AnswersQueue, OnBoth, OneQueue};
ghost use Rattle.vm_session.specs.Retries.{Clears, is_sent, message_at, table_at};
ghost use Rattle.vm_session.specs.Session.{Answers, AnswersKind, IsGivenBack, IsLent, Served};
ghost use Rattle.vm_session.specs.SessionState.{no_session, with_machine};

use crate::answer::refuse;
use crate::call::{Answer, Call, Kind, Miss, kind_of, part_of, width_of};
use crate::code;
use crate::commands::{
    load, read, read_slice, serve_listing, serve_making, serve_moving, store, write, write_slice,
};
use crate::marks::mark;
use crate::messages::{message_in, take_message};
use crate::miss::look_up;
use crate::queue::{SessionQueue, make_packed_queue, make_queue};
use crate::requests::{add_used, complete_chain, needs_notification, pop, read_chain, write_chain};
use crate::setup::{give_back, lend_block, set_up};
use crate::work::work_on;
use std::alloc::Global;
use std::marker::Model;
use vhost_message::IotlbMessage;
use vm_memory::ScriptMachine;
use vm_memory_base::Permissions;
use vm_memory_guest::HostPlace;

/// A machine, with what is made for it at any time, and queues.
#[derive(Drop)]
pub(crate) struct MachineAndQueues {
    alloc: Global,
    machine: ScriptMachine,
    queues: Vec<SessionQueue>,
}

impl Model for MachineAndQueues {
    ghost use Rattle.vm_memory.specs.ScriptMachine.{state_made};
    ghost use Rattle.vm_session.specs.SessionState.{SessionState};

    ghost Value = { SessionState };

    ghost view = { λ s. record { machine = state_made s.machine; queues = s.queues.items } };
}

impl MachineAndQueues {
    // Those of a session that made nothing. It allocates nothing.
    pub(crate) fn new(alloc: Global) -> MachineAndQueues
        ensures { result ≡ no_session }
    {
        MachineAndQueues {
            alloc,
            machine: ScriptMachine::empty(alloc),
            queues: Vec::new(alloc),
        }
    }

    // What a call missed that a table refused.
    #[inline(never)]
    pub(crate) fn missed(&self, call: &Call, answer: &Answer) -> Miss
        ensures { Misses self.now call.now answer.now result }
    {
        match kind_of(call.kind) {
            Some(kind) => self.missed_by(kind, call, answer),
            None => Miss::none(),
        }
    }

    fn missed_by(&self, kind: Kind, call: &Call, answer: &Answer) -> Miss
        ensures { MissesFor self.now call.now answer.now kind result }
    {
        let Some(access) = self.accessed(kind, call, answer.address) else {
            return Miss::none();
        };
        match self.machine.table_of(memory_of(kind, call)) {
            Ok(Some(table)) => look_up(&self.machine, answer, access, table),
            Ok(None) | Err(_) => Miss::none(),
        }
    }

    // The table that the addresses of a call's memory go through.
    pub(crate) fn table_at(&self, call: &Call) -> Option<usize>
        ensures { result ≡ table_at self.now call.now }
    {
        let kind = kind_of(call.kind)?;
        self.table_of(memory_of(kind, call))
    }

    // The table of a memory, if it has one.
    fn table_of(&self, memory: usize) -> Option<usize>
        ensures { result ≡ option_and_then table_of (slice_get self.now.machine.memories memory) }
    {
        match self.machine.table_of(memory) {
            Ok(table) => table,
            Err(_) => None,
        }
    }

    // The message of a call of that kind, and the table that it is to, if there are both.
    pub(crate) fn message_at(&self, call: &Call, input: &[u8]) -> Option<(usize, IotlbMessage)>
        requires { is_sent (slice_get kinds call.now.kind) ≡ true }
        ensures message { result ≡ message_at self.now.machine call.now input.now }
        ensures whole { IsSome result → 32 ≤ length input.now }
    {
        let message = message_in(input)?;
        let table = self.table_of(call.first)?;
        Some((table, message))
    }

    // Takes back all mappings of a table.
    pub(crate) fn clear(&mut self, table: usize)
        ensures { Clears table self.old self.new }
    {
        // One that is not there has none.
        let _ = self.machine.invalidate_all(table);
    }

    // How a call of a kind accesses an address.
    fn accessed(&self, kind: Kind, call: &Call, address: u64) -> Option<Permissions>
        ensures { result ≡ access_of self.now kind call.now address }
    {
        match kind {
            Kind::Read
            | Kind::ReadSlice
            | Kind::Load
            | Kind::WriteTo
            | Kind::WriteAllTo
            | Kind::QueueIsValid
            | Kind::AvailIdx
            | Kind::UsedIdx
            | Kind::Pop
            | Kind::ReadChain
            | Kind::NeedsNotification
            | Kind::BeginRequest => Some(Permissions::Read),
            Kind::Write
            | Kind::WriteSlice
            | Kind::Store
            | Kind::ReadFrom
            | Kind::ReadExactFrom
            | Kind::MarkReached
            | Kind::WriteChain
            | Kind::AddUsed
            | Kind::DisableNotification
            | Kind::FinishRequest
            | Kind::CompleteChain => Some(Permissions::Write),
            Kind::EnableNotification => self.notified(call.first, address),
            _ => None,
        }
    }

    // How an address is accessed to be notified: what says whether there is a next chain is read, and the rest is
    // written.
    fn notified(&self, queue: usize, address: u64) -> Option<Permissions>
        ensures { result ≡ notified self.now queue address }
    {
        let queue = self.queues.get(queue)?;
        if queue.reads_next_at(address) {
            Some(Permissions::Read)
        } else {
            Some(Permissions::Write)
        }
    }

    #[inline(never)]
    pub(crate) fn call_any(
        &mut self,
        call: &Call,
        input: &[u8],
        output: &mut [u8],
        answer: &mut Answer,
    )
        ensures { Answers self.old call.now input.now output.old answer.new output.new self.new }
    {
        match kind_of(call.kind) {
            None => *answer = Answer::of_code(code::BAD_CALL),
            Some(kind) => {
                if kind.is_work() {
                    self.work(kind, call, input, output, answer);
                } else if kind.is_queue() {
                    self.call_queue(kind, call, output, answer);
                } else {
                    self.call_machine(kind, call, input, output, answer);
                }
            }
        }
    }

    // Makes a block of the bytes that lie at a place.
    #[inline(never)]
    pub(crate) fn block_at(&mut self, place: HostPlace, page_size: usize) -> Answer
        ensures lent { IsLent self.old.machine place.bytes page_size result self.new.machine }
        ensures queues { self.new.queues ≡ self.old.queues }
    {
        lend_block(&mut self.machine, place, page_size)
    }

    // Gives a block back.
    #[inline(never)]
    pub(crate) fn give_back(&mut self, block: usize) -> Answer
        ensures given { IsGivenBack self.old.machine block result self.new.machine }
        ensures queues { self.new.queues ≡ self.old.queues }
    {
        give_back(&mut self.machine, block)
    }

    // Forgets all regions, layouts and memories.
    pub(crate) fn forget_regions(&mut self)
        ensures { self.new ≡ with_machine self.old (without_regions self.old.machine) }
    {
        self.machine.forget_regions();
    }

    // Serves a call on queues alone.
    fn call_queue(&mut self, kind: Kind, call: &Call, output: &mut [u8], answer: &mut Answer)
        requires { IsTrue (is_queue kind) }
        ensures { (input : List ℕ) → AnswersQueue kind self.old call.now input output.old
            answer.new self.new output.new }
    {
        if let Kind::Queue = kind {
            *answer = make_queue(self.alloc, &mut self.queues, call);
            return;
        }
        if let Kind::PackedQueue = kind {
            *answer = make_packed_queue(self.alloc, &mut self.queues, call);
            return;
        }
        match self.queues.get_mut(call.first) {
            Some(queue) => *answer = on_queue(queue, kind, call, output),
            None => *answer = Answer::of_code(code::NO_SUCH),
        }
    }

    // Serves a call on a queue and a memory. Each kind that is made often has a function of its own, since Rattle
    // zeroes all locals of a function at entry.
    #[inline(always)]
    pub(crate) fn work(
        &mut self,
        kind: Kind,
        call: &Call,
        input: &[u8],
        output: &mut [u8],
        answer: &mut Answer,
    )
        requires { IsTrue (is_work kind) }
        ensures { OnBoth kind self.old call.now input.now output.old answer.new self.new output.new }
    {
        match kind {
            Kind::Pop => self.pop(call, answer),
            Kind::ReadChain => self.read_chain(call, output, answer),
            Kind::WriteChain => self.write_chain(call, input, answer),
            Kind::AddUsed => self.add_used(call, answer),
            Kind::CompleteChain => self.complete_chain(call, input, answer),
            Kind::NeedsNotification => self.needs_notification(call, answer),
            _ => self.work_on(kind, call, answer),
        }
    }

    // Pops the next chain of a queue.
    #[inline(never)]
    fn pop(&mut self, call: &Call, answer: &mut Answer)
        ensures { (input out : List ℕ) → OnBoth Kind.Pop self.old call.now input out answer.new self.new out }
    {
        match self.queues.get_mut(call.first) {
            Some(queue) => pop(self.alloc, &mut self.machine, queue, call, answer),
            None => refuse(code::NO_SUCH, answer),
        }
    }

    // Reads a chain in flight.
    #[inline(never)]
    fn read_chain(&mut self, call: &Call, output: &mut [u8], answer: &mut Answer)
        ensures { (input : List ℕ) → OnBoth Kind.ReadChain self.old call.now input output.old
            answer.new self.new output.new }
    {
        match self.queues.get_mut(call.first) {
            Some(queue) => read_chain(&mut self.machine, queue, call, output, answer),
            None => refuse(code::NO_SUCH, answer),
        }
    }

    // Writes to a chain in flight.
    #[inline(never)]
    fn write_chain(&mut self, call: &Call, input: &[u8], answer: &mut Answer)
        ensures { (out : List ℕ) → OnBoth Kind.WriteChain self.old call.now input.now out answer.new self.new out }
    {
        match self.queues.get_mut(call.first) {
            Some(queue) => write_chain(&mut self.machine, queue, call, input, answer),
            None => refuse(code::NO_SUCH, answer),
        }
    }

    // Returns a chain in flight.
    #[inline(never)]
    fn add_used(&mut self, call: &Call, answer: &mut Answer)
        ensures { (input out : List ℕ) → OnBoth Kind.AddUsed self.old call.now input out answer.new self.new out }
    {
        match self.queues.get_mut(call.first) {
            Some(queue) => add_used(&mut self.machine, queue, call, answer),
            None => refuse(code::NO_SUCH, answer),
        }
    }

    // Writes to a chain in flight, and returns it.
    #[inline(never)]
    fn complete_chain(&mut self, call: &Call, input: &[u8], answer: &mut Answer)
        ensures { (out : List ℕ) → OnBoth Kind.CompleteChain self.old call.now input.now out answer.new self.new out }
    {
        match self.queues.get_mut(call.first) {
            Some(queue) => complete_chain(&mut self.machine, queue, call, input, answer),
            None => refuse(code::NO_SUCH, answer),
        }
    }

    // Whether the driver of a queue has to be notified.
    #[inline(never)]
    fn needs_notification(&mut self, call: &Call, answer: &mut Answer)
        ensures { (input out : List ℕ) → OnBoth Kind.NeedsNotification self.old call.now input out
            answer.new self.new out }
    {
        match self.queues.get_mut(call.first) {
            Some(queue) => needs_notification(&mut self.machine, queue, call, answer),
            None => refuse(code::NO_SUCH, answer),
        }
    }

    // Serves the other calls on a queue and a memory.
    #[inline(never)]
    fn work_on(&mut self, kind: Kind, call: &Call, answer: &mut Answer)
        requires { IsTrue (keeps_queue kind) }
        ensures { (input out : List ℕ) → OnBoth kind self.old call.now input out answer.new self.new out }
    {
        match self.queues.get_mut(call.first) {
            Some(queue) => work_on(&mut self.machine, queue, kind, call, answer),
            None => refuse(code::NO_SUCH, answer),
        }
    }

    // Serves a call of the machine.
    fn call_machine(
        &mut self,
        kind: Kind,
        call: &Call,
        input: &[u8],
        output: &mut [u8],
        answer: &mut Answer,
    )
        ensures answers { AnswersKind (sets_up kind) kind self.old.machine call.now input.now output.old answer.new
            output.new self.new.machine }
        ensures queues { self.new.queues ≡ self.old.queues }
    {
        if kind.sets_up() {
            *answer = set_up(&mut self.machine, kind, call);
        } else if kind.marks() {
            mark(&mut self.machine, kind, call, answer);
        } else if kind.is_message() {
            *answer = take_message(self.alloc, &mut self.machine, call, input);
        } else {
            self.serve(kind, call, input, output, answer);
        }
    }

    // Serves a call of a kind that is none of setup.
    fn serve(
        &mut self,
        kind: Kind,
        call: &Call,
        input: &[u8],
        output: &mut [u8],
        answer: &mut Answer,
    )
        ensures served { Served self.old.machine kind call.now input.now output.old answer.new output.new
            self.new.machine }
        ensures queues { self.new.queues ≡ self.old.queues }
    {
        let (alloc, machine) = (self.alloc, &mut self.machine);
        match kind {
            Kind::Read
            | Kind::Write
            | Kind::ReadSlice
            | Kind::WriteSlice
            | Kind::Store
            | Kind::Load => self.access(kind, call, input, output, answer),
            Kind::Layout
            | Kind::Insert
            | Kind::Remove
            | Kind::Plain
            | Kind::Memory
            | Kind::Replace
            | Kind::Enable => serve_making(alloc, machine, kind, call, input, answer),
            Kind::ReadFrom
            | Kind::ReadExactFrom
            | Kind::CheckRange
            | Kind::Copy
            | Kind::Set
            | Kind::Invalidate
            | Kind::InvalidateAll => serve_moving(alloc, machine, kind, call, input, answer),
            Kind::WriteTo
            | Kind::WriteAllTo
            | Kind::Lookup
            | Kind::DirtyBlock
            | Kind::DirtySpace
            | Kind::HarvestBlock
            | Kind::HarvestSpace => *answer = serve_listing(
                alloc, machine, kind, call, input, output,
            ),
            Kind::Block
            | Kind::Space
            | Kind::Table
            | Kind::LimitedTable
            | Kind::Region
            | Kind::Translator
            | Kind::MarkBlock
            | Kind::MarkReached
            | Kind::Queue
            | Kind::SetQueue
            | Kind::ResetQueue
            | Kind::QueueState
            | Kind::Forget
            | Kind::QueueIsValid
            | Kind::AvailIdx
            | Kind::UsedIdx
            | Kind::Pop
            | Kind::ReadChain
            | Kind::WriteChain
            | Kind::AddUsed
            | Kind::NeedsNotification
            | Kind::EnableNotification
            | Kind::DisableNotification
            | Kind::BeginRequest
            | Kind::FinishRequest
            | Kind::IotlbMessage
            | Kind::CompleteChain
            | Kind::PackedQueue
            | Kind::ListSegments => *answer = Answer::of_code(code::BAD_CALL),
        }
    }

    // The calls that are made most often: those that access bytes of a memory. Each has a function of its own, since
    // Rattle zeroes all locals of a function at entry.
    #[inline(always)]
    pub(crate) fn access(
        &mut self,
        kind: Kind,
        call: &Call,
        input: &[u8],
        output: &mut [u8],
        answer: &mut Answer,
    )
        requires { IsTrue (is_access kind) }
        ensures served { Served self.old.machine kind call.now input.now output.old answer.new output.new
            self.new.machine }
        ensures queues { self.new.queues ≡ self.old.queues }
    {
        match kind {
            Kind::Read => read(&self.machine, call, output, answer),
            Kind::Write => write(&mut self.machine, call, input, answer),
            Kind::ReadSlice => read_slice(&self.machine, call, output, answer),
            Kind::WriteSlice => write_slice(&mut self.machine, call, input, answer),
            Kind::Store => match width_of(call.width) {
                Some(width) => store(&mut self.machine, call, width, answer),
                None => *answer = Answer::of_code(code::BAD_CALL),
            },
            Kind::Load => match width_of(call.width) {
                Some(width) => load(&self.machine, call, width, answer),
                None => *answer = Answer::of_code(code::BAD_CALL),
            },
            _ => unreachable!(),
        }
    }
}

// The memory of a call.
fn memory_of(kind: Kind, call: &Call) -> usize
    ensures { result ≡ memory_of kind call.now }
{
    if kind.is_work() {
        call.second
    } else {
        call.first
    }
}

// Serves a call on one queue alone.
fn on_queue(queue: &mut SessionQueue, kind: Kind, call: &Call, output: &mut [u8]) -> Answer
    requires { IsTrue (is_on_queue kind) }
    ensures { OneQueue kind call.now queue.old output.old result queue.new output.new }
{
    match kind {
        Kind::SetQueue => queue.set(part_of(call.second), call.value),
        Kind::ResetQueue => {
            queue.reset();
            Answer::of_code(code::DONE)
        }
        Kind::QueueState => queue.list_state(output),
        Kind::Forget => queue.forget(call.third),
        Kind::ListSegments => queue.list_segments(call.third, output),
        _ => unreachable!(),
    }
}
