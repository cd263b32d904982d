//! The back end's own channel: what the front end is asked there, and its replies.
ghost use Rattle.std.specs.Prelude.{◌≡◌};
ghost use Rattle.vhost_backend.specs.BlockBackend.{asked_next, channel_lost, may_ask, replied_to, reply_for};
ghost use Rattle.vhost_backend.specs.BlockBackend.{reply_taken};
ghost use Rattle.vhost_backend.specs.BlockBackend.{said_on_channel, with_channel};

use crate::block_backend::BlockBackend;
use crate::deeds::{Deed, Made, Why};
use crate::questions::SentMiss;
use crate::wanted::{Purpose, Wanted};
use vhost_message::{BackendReply, Refusal, VHOST_USER_BACKEND_IOTLB_MSG};

impl BlockBackend {
    // Nothing is without a reply on a new channel.
    pub(super) fn keep_channel(&mut self, wanted: Wanted)
        ensures { self.new ≡ with_channel self.old wanted }
    {
        if let Wanted::Descriptor(Purpose::Channel, is_there) = wanted {
            self.channel = is_there;
            self.questions.lose();
            self.queues.kick_waiting(&mut self.kicks);
        }
    }

    /// The channel is lost: no reply comes any more, what waits for a mapping gives up, and nothing is asked until
    /// there is another one.
    pub fn channel_lost(&mut self)
        ensures { self.new ≡ channel_lost self.old }
    {
        self.channel = false;
        self.questions.lose();
        self.queues.kick_waiting(&mut self.kicks);
    }

    // What comes of a reply to the MISS of a ring.
    fn reply_for(&mut self, one: SentMiss, value: u64)
        ensures { self.new ≡ reply_for self.old one value }
    {
        if one.is_awaited && value != 0 {
            self.queues.refuse(one.ring);
        }
        self.kicks.add(one.ring);
    }

    // Takes a reply, if one is due.
    fn take_reply(&mut self, reply: BackendReply) -> bool
        ensures { (self.new, result) ≡ reply_taken self.old reply }
    {
        if reply.request == VHOST_USER_BACKEND_IOTLB_MSG {
            if let Some(one) = self.questions.replied() {
                self.reply_for(one, reply.value);
                return true;
            }
        }
        self.hang_up(Why::Refused(Refusal::Direction));
        false
    }

    /// Takes a reply that came on the channel. Returns whether one was due: if not, the connection ends.
    pub fn replied(&mut self, reply: Result<BackendReply, Refusal>) -> bool
        ensures { (self.new, result) ≡ replied_to self.old reply }
    {
        match reply {
            Ok(reply) => self.take_reply(reply),
            Err(refusal) => {
                self.hang_up(Why::Refused(refusal));
                false
            }
        }
    }

    // Whether the front end is asked something now: not between a message and its reply.
    pub(super) fn may_ask(&self) -> bool
        ensures { result ≡ may_ask self.now }
    {
        self.backend.is_free() && self.questions.has_next()
    }

    fn ask_next(&mut self) -> Made
        ensures { (self.new, result) ≡ asked_next self.old }
    {
        match self.questions.take_due() {
            Some(miss) => Made::Deed(Deed::Ask(miss)),
            None => Made::Again,
        }
    }

    // What the front end is asked on the channel.
    pub(super) fn say_on_channel(&mut self) -> Made
        ensures { (self.new, result) ≡ said_on_channel self.old }
    {
        if self.may_ask() {
            self.ask_next()
        } else {
            Made::Idle
        }
    }
}
