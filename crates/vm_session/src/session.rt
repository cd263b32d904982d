//! A session: its parts, and what it remembers of the call that misses a mapping and is made again.
ghost use Rattle.std.specs.Prelude.{◌≡◌, ◌≤◌, IsTrue, Some, drop, length, slice_get};
ghost use Rattle.vm_session.specs.Kinds.{is_table, kinds};
ghost use Rattle.vm_session.specs.declared.call.Kind.TheVariants as kind;
ghost use Rattle.vm_session.specs.Messages.{regions_in};
ghost use Rattle.vm_session.specs.Misses.{MissesIf};
ghost use Rattle.vm_session.specs.Retries.{AnswersCall, AnswersGivenBack, AnswersLent, IsServed, Readies, bound_of};
ghost use Rattle.vm_session.specs.Retries.{after_call, new_session, without_memories};

use crate::call::{Answer, Call, Kind, Miss, access_kind, kind_of, work_kind};
use crate::code;
use crate::messages::is_announced;
use crate::parts::MachineAndQueues;
use crate::retry::{Retry, after_message, forgotten, missed, must_empty_table};
use crate::setup::{limit_made, no_room};
use std::alloc::Global;
use std::marker::Model;
use vhost_message::IotlbMessage;
use vm_memory_guest::HostPlace;

/// A machine, with what is made for it at any time, and queues.
///
/// Its calls are a run of the model: docs/BINDINGS.md, "What is proved".
#[derive(Drop)]
pub struct Session {
    parts: MachineAndQueues,
    // The limit of each table, if it has one: no table tells it.
    limits: Vec<Option<usize>>,
    retry: Option<Retry>,
}

impl Model for Session {
    ghost use Rattle.vm_session.specs.Retries.{WholeSession};

    ghost Value = { WholeSession };

    ghost view = { λ s. record { parts = s.parts; limits = s.limits.items; retry = s.retry } };
}

impl Session {
    /// A session that has made nothing yet. It allocates nothing.
    pub fn new(alloc: Global) -> Session
        ensures { result ≡ new_session }
    {
        Session {
            parts: MachineAndQueues::new(alloc),
            limits: Vec::new(alloc),
            retry: None,
        }
    }

    /// Answers a call. `Kind` says what each call takes and does, and docs/BINDINGS.md lists the codes of answers.
    ///
    /// Bytes to write, and lists, come in the input; bytes that were read, and lists, go to the front of the output,
    /// whose other bytes stay. If the output is too short, the answer says how many bytes it has to have, and nothing
    /// changed.
    ///
    /// A call that is refused with `IOMMU_MISSING` is made again after the mapping came by a call of the kind
    /// `IotlbMessage`. The session remembers it, so that it is done or refused with `IOTLB_TOO_SMALL` in the end,
    /// unless another call misses in between: behind a table with a limit, two calls that take turns may replace each
    /// other's mappings for ever. docs/BINDINGS.md, "A device's I/O table", has the rule.
    ///
    /// Leaves open: `MEMORY` for each call whose input is a list, for each UPDATE, and for each queue of a size that is
    /// allowed; then nothing changed. No miss beside a refusal, if the look-up of an address finds no memory. And of
    /// calls on queues what `virtio_queue`, chains and the steps of `virtio_blk` leave open.
    pub fn call(&mut self, call: &Call, input: &[u8], output: &mut [u8]) -> Answer
        ensures { AnswersCall self.old call.now input.now output.old result output.new self.new }
    {
        let mut answer = Answer::of_code(code::DONE);
        self.call_into(call, input, output, &mut answer);
        answer
    }

    /// Answers a call as `call` does, and puts the answer into `answer`, so that it is not copied.
    #[inline]
    pub fn call_into(&mut self, call: &Call, input: &[u8], output: &mut [u8], answer: &mut Answer)
        ensures { AnswersCall self.old call.now input.now output.old answer.new output.new self.new }
    {
        self.serve(call, input, output, answer);
        if answer.may_be_untranslated() || self.retry.is_some() {
            self.note(call, input.len(), answer);
        }
    }

    /// Answers a call as `call_into` does. If a table refused it, `IOMMU_MISSING`, `IOMMU_NOT_ALLOWED` or
    /// `IOTLB_TOO_SMALL`, what it missed first is put into `miss`, which otherwise stays. If looking that up fails to
    /// allocate, it is `Miss::none()`.
    #[inline]
    pub fn call_telling(
        &mut self,
        call: &Call,
        input: &[u8],
        output: &mut [u8],
        answer: &mut Answer,
        miss: &mut Miss,
    )
        ensures answers { AnswersCall self.old call.now input.now output.old answer.new output.new self.new }
        ensures misses { MissesIf self.new.parts call.now answer.new miss.old miss.new }
    {
        self.serve(call, input, output, answer);
        if answer.may_be_untranslated() || self.retry.is_some() {
            self.note_telling(call, input.len(), answer, miss);
        }
    }

    /// Makes a block of the bytes that lie at a place, as they are, tracked in pages of `page_size` that are all clean,
    /// and answers its number. If it is refused, `BAD_CALL` for a page of 0 or `MEMORY`, nothing changed, and the place
    /// is forgotten.
    pub fn block_at(&mut self, place: HostPlace, page_size: usize) -> Answer
        ensures { AnswersLent self.old place.bytes page_size result self.new }
    {
        self.parts.block_at(place, page_size)
    }

    /// Gives a block back: the session forgets its bytes and its bitmap. Its number stays, and each later call that
    /// names it is refused with `NO_SUCH`. A block whose bytes lie at a place of the caller's is the caller's again. It
    /// is refused with `NO_SUCH`, with `IN_USE` unless `forget_regions` came after the last region, layout or memory,
    /// or with `MEMORY`, and nothing changed then.
    pub fn give_back(&mut self, block: usize) -> Answer
        ensures { AnswersGivenBack self.old block result self.new }
    {
        self.parts.give_back(block)
    }

    /// Forgets all regions, layouts and memories, whose numbers begin at 0 again. Everything else stays.
    pub fn forget_regions(&mut self)
        ensures { self.new ≡ without_memories self.old }
    {
        self.parts.forget_regions();
        self.retry = None;
    }

    // Has the parts answer a call.
    #[inline(always)]
    fn serve(&mut self, call: &Call, input: &[u8], output: &mut [u8], answer: &mut Answer)
        ensures { IsServed self.old call.now input.now output.old answer.new output.new self.new }
    {
        if let Some(kind) = access_kind(call.kind) {
            self.parts.access(kind, call, input, output, answer);
            return;
        }
        if let Some(kind) = work_kind(call.kind) {
            self.parts.work(kind, call, input, output, answer);
            return;
        }
        self.serve_any(call, input, output, answer);
    }

    #[inline(never)]
    fn serve_any(&mut self, call: &Call, input: &[u8], output: &mut [u8], answer: &mut Answer)
        ensures { IsServed self.old call.now input.now output.old answer.new output.new self.new }
    {
        match kind_of(call.kind) {
            Some(Kind::IotlbMessage) => self.take_message(call, input, output, answer),
            Some(kind) if kind.is_table() => self.make_table(kind, call, input, output, answer),
            Some(_) | None => self.parts.call_any(call, input, output, answer),
        }
    }

    // Makes a table, if there is room for its limit.
    fn make_table(
        &mut self,
        kind: Kind,
        call: &Call,
        input: &[u8],
        output: &mut [u8],
        answer: &mut Answer,
    )
        requires is { slice_get kinds call.now.kind ≡ Some kind }
        requires table { IsTrue (is_table kind) }
        ensures { IsServed self.old call.now input.now output.old answer.new output.new self.new }
    {
        if self.limits.reserve(1).is_err() {
            *answer = no_room(kind, call);
            return;
        }
        let limit = limit_made(kind, call);
        self.parts.call_any(call, input, output, answer);
        if answer.code != code::DONE {
            return;
        }
        if self.limits.push(limit).is_err() {
            unreachable!();
        }
    }

    // Takes a message.
    fn take_message(&mut self, call: &Call, input: &[u8], output: &mut [u8], answer: &mut Answer)
        requires { slice_get kinds call.now.kind ≡ Some kind.IotlbMessage }
        ensures { IsServed self.old call.now input.now output.old answer.new output.new self.new }
    {
        let Some((table, message)) = self.parts.message_at(call, input) else {
            self.parts.call_any(call, input, output, answer);
            return;
        };
        self.ready(table, &message, input);
        self.parts.call_any(call, input, output, answer);
        self.retry = after_message(self.retry, table, &message, answer);
    }

    // Empties the table of a call that missed again before it takes an UPDATE.
    fn ready(&mut self, table: usize, message: &IotlbMessage, input: &[u8])
        requires { 32 ≤ length input.now }
        ensures ready { Readies self.old.retry (regions_in (drop 32 input.now)) (Some (table, message.now))
            self.old.parts self.new.parts }
        ensures rest { self.new ≡ record self.old { parts = self.new.parts } }
    {
        if must_empty_table(self.retry, table) && is_announced(message, input) {
            self.parts.clear(table);
        }
    }

    // Notes whether a call missed a mapping, and refuses one for which its table has no room.
    #[inline(never)]
    fn note(&mut self, call: &Call, input_len: usize, answer: &mut Answer)
        ensures answer { (answer.new, self.new.retry) ≡ after_call self.old call.now input_len answer.old }
        ensures rest { self.new ≡ record self.old { retry = self.new.retry } }
    {
        if answer.code != code::IOMMU_MISSING {
            self.retry = forgotten(self.retry, call, input_len);
            return;
        }
        let Some((table, limit)) = self.bound_of(call) else {
            return;
        };
        let retry = missed(self.retry, call, input_len, table, limit);
        if retry.left == 0 {
            answer.code = code::IOTLB_TOO_SMALL;
            self.retry = None;
        } else {
            self.retry = Some(retry);
        }
    }

    // The table that the addresses of a call's memory go through, and its limit, if it has one.
    fn bound_of(&self, call: &Call) -> Option<(usize, usize)>
        ensures { result ≡ bound_of self.now call.now }
    {
        let table = self.parts.table_at(call)?;
        match self.limits.get(table) {
            Some(Some(limit)) => Some((table, *limit)),
            Some(None) | None => None,
        }
    }

    // Notes it, and tells what the call missed.
    #[inline(never)]
    fn note_telling(&mut self, call: &Call, input_len: usize, answer: &mut Answer, miss: &mut Miss)
        ensures answer { (answer.new, self.new.retry) ≡ after_call self.old call.now input_len answer.old }
        ensures rest { self.new ≡ record self.old { retry = self.new.retry } }
        ensures misses { MissesIf self.new.parts call.now answer.new miss.old miss.new }
    {
        self.note(call, input_len, answer);
        if answer.is_untranslated() {
            *miss = self.parts.missed(call, answer);
        }
    }
}
