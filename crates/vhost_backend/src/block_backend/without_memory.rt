//! What is to be done without guest memory: what becomes of a message, what it asks for, and what is said at last.
ghost use Rattle.std.specs.Prelude.{◌≡◌};
ghost use Rattle.vhost_backend.specs.BlockBackend.{asked_first, asked_last, asked_more, broke_if, messaged, replied};
ghost use Rattle.vhost_backend.specs.BlockBackend.{said_last, stepped_on};

use crate::backend::{Finish, Outcome};
use crate::block_backend::BlockBackend;
use crate::deeds::{Ask, Deed, Made, Why, is_quiet};
use crate::mapping::Mapping;
use crate::ring::RingEvent;
use crate::rings::Event;
use crate::wanted::Wanted;
use std::mem;
use vhost_message::Message;

impl BlockBackend {
    // After all was done for a ring: its message, whether it breaks, and what is asked for.
    pub(super) fn step_on(&mut self) -> Made
        ensures { (self.new, result) ≡ stepped_on self.old }
    {
        if is_quiet(&self.todo.message) {
            return self.go_further();
        }
        let outcome = mem::replace(&mut self.todo.message, Outcome::Stays);
        self.message(outcome);
        Made::Again
    }

    // What becomes of the message.
    fn message(&mut self, outcome: Outcome)
        ensures { self.new ≡ messaged self.old outcome }
    {
        match outcome {
            Outcome::Stays => {}
            Outcome::Begins => self.ask = Ask::First,
            Outcome::Refused(refusal, header) => {
                self.reply = self.backend.connection().refuse(&header);
                self.hang_up(Why::Refused(refusal));
            }
        }
    }

    fn go_further(&mut self) -> Made
        ensures { (self.new, result) ≡ broke_if self.old self.old.broken }
    {
        if self.broken {
            self.broken = false;
            let ring = self.todo.ring;
            let event = Event::Ring(ring, RingEvent::Break);
            self.backend.handle(event, &mut self.todo);
            return Made::Again;
        }
        match self.ask {
            Ask::First => self.ask_first(),
            Ask::Mapped(number) => self.ask_more(number),
            _ => self.say_last(),
        }
    }

    // The last thing that a message asks for. It is told whether that was done.
    fn ask_last(&mut self, deed: Deed) -> Made
        ensures { (self.new, result) ≡ asked_last self.old deed }
    {
        self.ask = Ask::Answer;
        Made::Deed(deed)
    }

    // What a message that took effect asks for first.
    fn ask_first(&mut self) -> Made
        ensures { (self.new, result) ≡ asked_first self.old }
    {
        match self.backend.wanted() {
            Wanted::Nothing => {
                self.ask = Ask::Nothing;
                Made::Again
            }
            Wanted::Memory => {
                self.ask = Ask::Mapped(1);
                Made::Deed(Deed::UnmapAll)
            }
            Wanted::Log { size, offset } => self.ask_last(Deed::Log { size, offset }),
            Wanted::File(asked) => {
                let size = self.backend.connection().inflight_for(&asked).mmap_size;
                self.ask_last(Deed::File { size })
            }
            Wanted::Region { size, offset } => self.ask_last(Deed::Region { size, offset }),
            Wanted::Descriptor(purpose, is_there) => self.ask_last(Deed::Keep(purpose, is_there)),
            Wanted::Base(ring) => {
                let end = self.queues.base(ring as usize);
                self.questions.stale(ring as usize);
                self.finish(end);
                Made::Again
            }
            Wanted::Table => self.ask_last(Deed::Table),
            Wanted::Finish => {
                self.finish(Finish::Done);
                Made::Again
            }
        }
    }

    fn ask_more(&mut self, number: usize) -> Made
        ensures { (self.new, result) ≡ asked_more self.old number }
    {
        match self.backend.mapping(number) {
            Some(Mapping::Map(region, descriptor)) => {
                self.ask = Ask::Region(number);
                Made::Deed(Deed::Map(region, descriptor))
            }
            _ => {
                self.ask = Ask::Answer;
                Made::Deed(Deed::Join)
            }
        }
    }

    // What is said to the front end at last.
    fn say_last(&mut self) -> Made
        ensures { (self.new, result) ≡ said_last self.old }
    {
        if !self.reply.is_empty() {
            return self.send();
        }
        if let Some(ring) = self.called {
            self.called = None;
            return Made::Deed(Deed::Interrupt(ring));
        }
        if let Some(why) = self.end {
            self.end = None;
            return Made::Deed(Deed::End(why));
        }
        self.say_on_channel()
    }

    // The bytes of the reply are sent.
    fn send(&mut self) -> Made
        ensures { (self.new, result) ≡ replied self.old }
    {
        self.unread = self.unread.saturating_add(self.reply.len());
        if self.unread > self.limits.unread {
            self.hang_up(Why::Unread);
        }
        Made::Deed(Deed::Send)
    }
}
