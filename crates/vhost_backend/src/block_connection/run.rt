//! What a run of a connection does, and what it gives: one move after another.
ghost use Rattle.std.specs.Prelude.{◌≡◌, ◌+◌, ◌<◌, ◌≤◌, ◌||◌, [], None, Some, MatchOption, drop, length};
ghost use Rattle.vhost_backend.specs.Given.{Puts};
ghost use Rattle.vhost_backend.specs.PageList.{NoneToMark};
ghost use Rattle.vhost_backend.specs.Rows.{flag_of};
ghost use Rattle.vhost_backend.specs.BlockTable.{memory_lost};
ghost use Rattle.vhost_backend.specs.ConnectionMemory.{forgotten};
ghost use Rattle.vhost_backend.specs.Run.{Applies, BeginsPart, Fills, Follows, GivesMarks, JoinsAt};
ghost use Rattle.vhost_backend.specs.Run.{LooksBy, MayStep, RunsBy};
ghost use Rattle.vhost_backend.specs.Run.{StepsTo, after_sent, after_stop, course_of, end_taken, output_of, part_ended};
ghost use Rattle.vhost_backend.specs.Run.{sent_by};
ghost use Rattle.vhost_backend.specs.Run.{state_of, takes_messages};
ghost use Rattle.vhost_backend.specs.RunSteps.{EndBy, EventOr, GivesDeed, GivesNext, GivesPartRow, GoesOn};
ghost use Rattle.vhost_backend.specs.RunSteps.{LostBy, PutsPartAt, StepGives, TurnBy};
ghost use Rattle.vhost_backend.specs.Whole.{Leads};

use crate::block::BlockStep;
use crate::block_connection::BlockConnection;
use crate::deeds::{Deed, Made};
use crate::given::{
    Given, OpenPart, is_left, lies_in_memory, no_counts, part_action, put_action, put_bytes,
    put_pieces, rest_of,
};
use crate::page_list::PageRange;
use crate::request::PartEnd;
use crate::rows::{ActionRow, Counts, EndRow, PieceRow, mark_row, row_of};
use crate::table_counts::{counted_if, missed};

// Whether another run may give more at once: there was no room, or ends are left, or a ring gets a turn.
fn more_of(is_full: bool, is_left: bool, has_next: bool) -> u32
    ensures { result ≡ flag_of (is_full || (is_left || has_next)) }
{
    u32::from(is_full || is_left || has_next)
}

impl BlockConnection {
    // ---- parts

    // A part is to be given, if all its bytes lie in memory.
    fn begin_part(&mut self, ring: usize, id: u16, step: BlockStep, left: u32)
        ensures { BeginsPart self.old ring id step left self.new }
    {
        let is_there = match self.backend.queues().chain(ring, id) {
            Some(chain) => lies_in_memory(&self.memory, chain, step),
            None => false,
        };
        if is_there {
            self.part = Some(OpenPart {
                ring,
                id,
                step,
                left,
                given: 0,
            });
        } else {
            self.lost = Some((ring, id));
        }
    }

    // Puts the next pieces of a part, as far as there is room. Returns how many bytes of it were given by then.
    fn put_part(&self, part: OpenPart, pieces: &mut [PieceRow], count: &mut usize) -> u32
        ensures { PutsPartAt self.now part pieces.old count.old result pieces.new count.new }
    {
        match self.backend.queues().chain(part.ring, part.id) {
            Some(chain) => put_pieces(&self.memory, chain, part, pieces, count),
            None => part.given,
        }
    }

    // Gives a part as far as there is room for its pieces. `None` if there is none.
    fn give_part(
        &mut self,
        part: OpenPart,
        pieces: &mut [PieceRow],
        count: &mut usize,
    ) -> Option<ActionRow>
        ensures { GivesPartRow self.old part pieces.old count.old result self.new pieces.new count.new }
    {
        let before = *count;
        let given = self.put_part(part, pieces, count);
        if given == part.given && is_left(part, given) {
            return None;
        }
        self.part = rest_of(part, given);
        Some(part_action(part, given, count.saturating_sub(before)))
    }

    // ---- steps

    // Takes a step.
    fn step(&mut self) -> Made
        ensures { StepsTo self.old result self.new }
    {
        self.memory.step(&mut self.backend)
    }

    // Makes the regions guest memory.
    fn join(&mut self)
        ensures { JoinsAt self.old self.new }
    {
        let regions = self.backend.backend().connection().memory().regions();
        let is_done = self.memory.join(regions);
        self.backend.answer(is_done);
    }

    // Changes the table as the message has it.
    fn apply(&mut self)
        ensures { Applies self.old self.new }
    {
        let change = self.backend.change();
        let evicted = self.memory.change(&mut self.backend);
        self.table_counts = counted_if(self.table_counts, change, evicted);
        self.backend.answer(evicted.is_some());
    }

    // Forgets the regions, and what rings have of them.
    fn unmap_all(&mut self)
        ensures { self.new ≡ record self.old {
          memory = forgotten self.old.memory;
          backend = memory_lost self.old.backend;
        } }
    {
        self.memory.forget();
        self.backend.lose_memory();
    }

    // After the last ring was stopped nothing is said of I/O addresses: the front end does not tell what changes
    // meanwhile.
    fn after_stop(&mut self)
        ensures { self.new ≡ after_stop self.old }
    {
        if self.backend.backend().rings().all_stopped() {
            self.memory.empty_table();
            self.backend.lose_memory();
        }
    }

    // Does what follows from a deed.
    fn follow(&mut self, deed: Deed)
        ensures { Follows self.old deed self.new }
    {
        match deed {
            Deed::UnmapAll => self.unmap_all(),
            Deed::Join => self.join(),
            Deed::Table => self.apply(),
            Deed::Stopped(_) => self.after_stop(),
            Deed::Ask(_) => self.table_counts = missed(self.table_counts),
            Deed::Part(ring, id, step, left) => self.begin_part(ring, id, step, left),
            _ => {}
        }
    }

    // Puts the bytes of the reply, if a deed sends them.
    fn send(&mut self, deed: Deed, output: &mut [u8], count: &mut usize)
        requires { count.old + length self.old.backend.reply ≤ length output.old }
        ensures sent { self.new ≡ after_sent deed self.old }
        ensures bytes { Puts output.old count.old (sent_by deed self.old.backend.reply) output.new count.new }
    {
        if let Deed::Send = deed {
            put_bytes(output, count, self.backend.reply().as_slice());
            self.backend.forget_reply();
        }
    }

    // Gives what a deed asks for, and does what follows from it.
    fn give(
        &mut self,
        deed: Deed,
        actions: &mut [ActionRow],
        output: &mut [u8],
        counts: &mut Counts,
    )
        requires room { counts.old.actions < length actions.old }
        requires reply { counts.old.bytes + length self.old.backend.reply ≤ length output.old }
        ensures { GivesDeed self.old deed (output_of counts.old actions.old [] output.old) self.new
            (output_of counts.new actions.new [] output.new) }
    {
        if let Some(row) = row_of(deed, self.backend.reply().len()) {
            put_action(actions, &mut counts.actions, row);
        }
        self.send(deed, output, &mut counts.bytes);
        self.follow(deed);
    }

    // Takes a step, if one is left, and gives what it asks for.
    #[inline(always)]
    fn give_step(
        &mut self,
        actions: &mut [ActionRow],
        output: &mut [u8],
        counts: &mut Counts,
    ) -> Given
        requires step { MayStep self.old }
        requires part { self.old.part ≡ None }
        requires room { counts.old.actions < length actions.old }
        requires reply { counts.old.bytes + length self.old.backend.reply ≤ length output.old }
        ensures gives { StepGives self.old (output_of counts.old actions.old [] output.old) result self.new
            (output_of counts.new actions.new [] output.new) }
        ensures ends { counts.new.ends ≡ counts.old.ends }
    {
        if self.backend.is_done() {
            return Given::Nothing;
        }
        self.give_made(actions, output, counts)
    }

    // Takes a step, and gives what it asks for.
    fn give_made(
        &mut self,
        actions: &mut [ActionRow],
        output: &mut [u8],
        counts: &mut Counts,
    ) -> Given
        requires step { MayStep self.old }
        requires part { self.old.part ≡ None }
        requires room { counts.old.actions < length actions.old }
        requires reply { counts.old.bytes + length self.old.backend.reply ≤ length output.old }
        ensures gives { StepGives self.old (output_of counts.old actions.old [] output.old) result self.new
            (output_of counts.new actions.new [] output.new) }
        ensures ends { counts.new.ends ≡ counts.old.ends }
    {
        match self.step() {
            Made::Deed(deed) => {
                self.give(deed, actions, output, counts);
                Given::Something
            }
            Made::Again => Given::Something,
            Made::Idle => Given::Nothing,
        }
    }

    // ---- what comes next

    // Takes pages that are to be marked, if there are any.
    fn take_marks(&mut self) -> Option<PageRange>
        ensures { MatchOption result (NoneToMark self.old.memory.logged.pages × (self.new ≡ self.old))
            (λ range. GivesMarks self.old range self.new) }
    {
        let range = self.memory.take_pages();
        if range.is_some() {
            self.marks = true;
        }
        range
    }

    // Gives the rest of a part, or what a step asks for, if no page waits to be marked. A chain is returned after the
    // marks before it were made: in the next run.
    fn give_more(
        &mut self,
        actions: &mut [ActionRow],
        pieces: &mut [PieceRow],
        output: &mut [u8],
        counts: &mut Counts,
    ) -> Given
        requires marked { NoneToMark self.old.memory.logged.pages }
        requires room { counts.old.actions < length actions.old }
        ensures gives { GivesNext self.old (output_of counts.old actions.old pieces.old output.old) result self.new
            (output_of counts.new actions.new pieces.new output.new) }
        ensures ends { counts.new.ends ≡ counts.old.ends }
    {
        if self.marks && self.backend.is_returning() {
            return Given::Full;
        }
        if let Some(part) = self.part {
            let Some(row) = self.give_part(part, pieces, &mut counts.pieces) else {
                return Given::Full;
            };
            put_action(actions, &mut counts.actions, row);
            return Given::Something;
        }
        let bytes = counts.bytes;
        if bytes > output.len() || self.backend.reply().len() > output.len() - bytes {
            return Given::Full;
        }
        self.give_step(actions, output, counts)
    }

    // Gives what comes next: marks, the rest of a part, or what a step asks for.
    fn give_next(
        &mut self,
        actions: &mut [ActionRow],
        pieces: &mut [PieceRow],
        output: &mut [u8],
        counts: &mut Counts,
    ) -> Given
        ensures gives { GivesNext self.old (output_of counts.old actions.old pieces.old output.old) result self.new
            (output_of counts.new actions.new pieces.new output.new) }
        ensures ends { counts.new.ends ≡ counts.old.ends }
    {
        if counts.actions >= actions.len() {
            return Given::Full;
        }
        if let Some(range) = self.take_marks() {
            put_action(actions, &mut counts.actions, mark_row(range));
            return Given::Something;
        }
        self.give_more(actions, pieces, output, counts)
    }

    // ---- events

    // A part of a request ended.
    fn ended(&mut self, ring: usize, id: u16, end: PartEnd)
        ensures { self.new ≡ part_ended self.old ring id end }
    {
        self.backend.ended(ring, id, end);
    }

    // Takes note of the end of a part.
    fn end(&mut self, end: EndRow)
        ensures { self.new ≡ end_taken self.old end }
    {
        let Ok(id) = u16::try_from(end.id) else {
            return;
        };
        let how = if end.failed == 0 {
            PartEnd::Moved(end.bytes)
        } else {
            PartEnd::Failed
        };
        self.ended(end.ring as usize, id, how);
    }

    // Gives a ring its turn, if one wants it, and there may be one more.
    fn take_turn(&mut self, turns: &mut u32) -> bool
        ensures { TurnBy self.old turns.old result self.new turns.new }
    {
        if *turns == 0 || !self.backend.has_next() {
            return false;
        }
        *turns -= 1;
        self.backend.go_on();
        true
    }

    // Looks at a ring that was kicked, or has one take a step of its turn.
    fn look(&mut self) -> bool
        ensures { LooksBy self.old result self.new }
    {
        self.memory.look(&mut self.backend)
    }

    // A part that has no memory has failed, if there is one.
    fn take_lost(&mut self) -> bool
        ensures { LostBy self.old self.old.lost result self.new }
    {
        let Some((ring, id)) = self.lost else {
            return false;
        };
        self.lost = None;
        self.ended(ring, id, PartEnd::Failed);
        true
    }

    // Takes the next end, if there is one.
    fn take_end(&mut self, ends: &[EndRow], taken: &mut usize) -> bool
        requires { taken.old ≤ length ends.now }
        ensures ends { EndBy self.old (drop taken.old ends.now) result self.new (drop taken.new ends.now) }
        ensures taken { taken.new ≤ length ends.now }
    {
        let Some(end) = ends.get(*taken) else {
            return false;
        };
        *taken += 1;
        self.end(*end);
        true
    }

    // Takes the next event, if there is one: a part that has no memory, an end, a kick, a step of a turn, or a turn.
    fn next_event(&mut self, ends: &[EndRow], taken: &mut usize, turns: &mut u32) -> bool
        requires { taken.old ≤ length ends.now }
        ensures event { EventOr (course_of self.old (drop taken.old ends.now) turns.old) result
            (course_of self.new (drop taken.new ends.now) turns.new) }
        ensures taken { taken.new ≤ length ends.now }
    {
        if self.take_lost() {
            return true;
        }
        self.next_end(ends, taken, turns)
    }

    // The same, if no part was lost.
    fn next_end(&mut self, ends: &[EndRow], taken: &mut usize, turns: &mut u32) -> bool
        requires lost { self.old.lost ≡ None }
        requires taken { taken.old ≤ length ends.now }
        ensures event { EventOr (course_of self.old (drop taken.old ends.now) turns.old) result
            (course_of self.new (drop taken.new ends.now) turns.new) }
        ensures taken { taken.new ≤ length ends.now }
    {
        if self.take_end(ends, taken) {
            return true;
        }
        self.next_look(turns)
    }

    // The same, if no part ended.
    fn next_look(&mut self, turns: &mut u32) -> bool
        requires { self.old.lost ≡ None }
        ensures { EventOr (course_of self.old [] turns.old) result (course_of self.new [] turns.new) }
    {
        if self.look() {
            return true;
        }
        self.take_turn(turns)
    }

    // ---- runs

    // Gives what comes next, or else takes the next event. `Nothing` if there is none.
    #[inline(always)]
    fn go_on(
        &mut self,
        ends: &[EndRow],
        actions: &mut [ActionRow],
        pieces: &mut [PieceRow],
        output: &mut [u8],
        counts: &mut Counts,
        turns: &mut u32,
    ) -> Given
        requires { counts.old.ends ≤ length ends.now }
        ensures goes { GoesOn (course_of self.old (drop counts.old.ends ends.now) turns.old)
            (output_of counts.old actions.old pieces.old output.old) result
            (course_of self.new (drop counts.new.ends ends.now) turns.new)
            (output_of counts.new actions.new pieces.new output.new) }
        ensures taken { counts.new.ends ≤ length ends.now }
    {
        let given = self.give_next(actions, pieces, output, counts);
        self.after_message();
        match given {
            Given::Something => Given::Something,
            Given::Nothing => {
                if self.next_event(ends, &mut counts.ends, turns) {
                    Given::Something
                } else {
                    Given::Nothing
                }
            }
            Given::Full => Given::Full,
        }
    }

    // Goes on until nothing is left, or there is no room for it: then it returns true.
    fn fill(
        &mut self,
        ends: &[EndRow],
        turns: &mut u32,
        actions: &mut [ActionRow],
        pieces: &mut [PieceRow],
        output: &mut [u8],
        counts: &mut Counts,
    ) -> bool
        requires { counts.old.ends ≤ length ends.now }
        ensures fills { Fills (course_of self.old (drop counts.old.ends ends.now) turns.old)
            (output_of counts.old actions.old pieces.old output.old) result
            (course_of self.new (drop counts.new.ends ends.now) turns.new)
            (output_of counts.new actions.new pieces.new output.new) }
        ensures taken { counts.new.ends ≤ length ends.now }
    {
        for _ in 0..u64::MAX {
            match self.go_on(ends, actions, pieces, output, counts, turns) {
                Given::Something => {}
                Given::Nothing => return false,
                Given::Full => return true,
            }
        }
        true
    }

    // Whether a message would be taken.
    fn takes_messages(&self) -> bool
        ensures { result ≡ takes_messages self.now }
    {
        self.part.is_none()
            && self.lost.is_none()
            && self.backend.is_done()
            && self.backend.backend().is_free()
    }

    fn state(&self) -> u32
        ensures { result ≡ state_of self.now }
    {
        let backend = self.backend.backend();
        if backend.is_at_rest() && self.backend.is_done() {
            3
        } else if backend.is_over() {
            2
        } else if self.takes_messages() {
            0
        } else {
            1
        }
    }

    /// Takes ends of parts, and gives what is to be done, as far as there is room: what the run before it gave was
    /// done. If nothing else is left, rings have so many turns.
    pub fn run(
        &mut self,
        ends: &[EndRow],
        turns: u32,
        actions: &mut [ActionRow],
        pieces: &mut [PieceRow],
        output: &mut [u8],
    ) -> Counts
        ensures runs { RunsBy self.old ends.now turns actions.new pieces.new output.new result self.new }
        ensures leads { Leads self.old.backend.backend self.new.backend.backend }
    {
        let mut counts = no_counts();
        let mut turns = turns;
        self.marks = false;
        let is_full = self.fill(ends, &mut turns, actions, pieces, output, &mut counts);
        counts.more = more_of(is_full, counts.ends < ends.len(), self.backend.has_next());
        counts.state = self.state();
        counts
    }
}
