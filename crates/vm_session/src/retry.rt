//! The call that misses a mapping of a table with a limit, and is made again after the mapping came.
ghost use Rattle.std.specs.Prelude.{◌≡◌};
ghost use Rattle.vm_session.specs.Retries.{after_message, after_update, first_miss, forgotten, is_of, missed};
ghost use Rattle.vm_session.specs.Retries.{missed_again, must_empty_table, same_call};

use crate::call::{Answer, Call};
use crate::code;
use vhost_message::IotlbMessage;

/// How far it has come.
#[derive(Clone, Copy)]
pub(crate) enum Stage {
    /// It missed.
    Missed,
    /// It missed again, after an UPDATE. The next UPDATE empties the table first.
    Again,
    /// The table was emptied for it.
    Alone,
}

/// A call that missed a mapping of a table with a limit.
#[derive(Clone, Copy)]
pub(crate) struct Retry {
    pub(crate) call: Call,
    pub(crate) input_len: usize,
    /// The table.
    pub(crate) table: usize,
    /// How many ranges more the table has room for, once it was emptied.
    pub(crate) left: usize,
    pub(crate) stage: Stage,
    /// Whether an UPDATE was applied since it missed last.
    pub(crate) is_updated: bool,
}

// Whether two calls are the same.
fn same_call(a: &Call, b: &Call) -> bool
    ensures { result ≡ same_call a.now b.now }
{
    let kinds = a.kind == b.kind && (a.width == b.width && a.access == b.access);
    let numbers = a.first == b.first && (a.second == b.second && a.third == b.third);
    let places = a.address == b.address && (a.target == b.target && a.value == b.value);
    let lengths = a.length == b.length && a.other_length == b.other_length;
    kinds && (numbers && (places && lengths))
}

impl Retry {
    // A call that missed for the first time, in a table with this limit.
    fn first(call: &Call, input_len: usize, table: usize, limit: usize) -> Retry
        ensures { result ≡ first_miss call.now input_len table limit }
    {
        Retry {
            call: *call,
            input_len,
            table,
            left: limit,
            stage: Stage::Missed,
            is_updated: false,
        }
    }

    // Whether it is this call, with an input of this length.
    fn is_of(&self, call: &Call, input_len: usize) -> bool
        ensures { result ≡ is_of self.now call.now input_len }
    {
        same_call(&self.call, call) && self.input_len == input_len
    }

    // It missed once more, which counts after an UPDATE.
    fn missed_again(self) -> Retry
        ensures { result ≡ missed_again self }
    {
        if !self.is_updated {
            return self;
        }
        let (stage, left) = match self.stage {
            Stage::Missed => (Stage::Again, self.left),
            Stage::Again => (Stage::Again, self.left),
            Stage::Alone => (Stage::Alone, self.left.saturating_sub(1)),
        };
        Retry {
            call: self.call,
            input_len: self.input_len,
            table: self.table,
            left,
            stage,
            is_updated: false,
        }
    }

    // What an UPDATE of its table leaves, which was answered so: one that was applied counts.
    fn after_update(self, answer: &Answer) -> Retry
        ensures { result ≡ after_update self answer.now }
    {
        if answer.code != code::DONE {
            return self;
        }
        let stage = match self.stage {
            Stage::Missed => Stage::Missed,
            Stage::Again => Stage::Alone,
            Stage::Alone => Stage::Alone,
        };
        Retry {
            call: self.call,
            input_len: self.input_len,
            table: self.table,
            left: self.left,
            stage,
            is_updated: true,
        }
    }
}

/// What is remembered of a call that missed a mapping of a table with this limit.
pub(crate) fn missed(
    retry: Option<Retry>,
    call: &Call,
    input_len: usize,
    table: usize,
    limit: usize,
) -> Retry
    ensures { result ≡ missed retry call.now input_len table limit }
{
    match retry {
        Some(retry) if retry.is_of(call, input_len) && retry.table == table => retry.missed_again(),
        Some(_) | None => Retry::first(call, input_len, table, limit),
    }
}

/// A call that missed nothing is no longer remembered.
pub(crate) fn forgotten(retry: Option<Retry>, call: &Call, input_len: usize) -> Option<Retry>
    ensures { result ≡ forgotten retry call.now input_len }
{
    match retry {
        Some(retry) if !retry.is_of(call, input_len) => Some(retry),
        Some(_) | None => None,
    }
}

/// Whether this is the table of a call that missed again.
pub(crate) fn must_empty_table(retry: Option<Retry>, table: usize) -> bool
    ensures { result ≡ must_empty_table retry table }
{
    match retry {
        Some(retry) => retry.table == table && matches!(retry.stage, Stage::Again),
        None => false,
    }
}

/// What is remembered after a message to a table, which was answered so.
pub(crate) fn after_message(
    retry: Option<Retry>,
    table: usize,
    message: &IotlbMessage,
    answer: &Answer,
) -> Option<Retry>
    ensures { result ≡ after_message retry table message.now answer.now }
{
    let retry = retry?;
    if retry.table != table {
        return Some(retry);
    }
    match message {
        IotlbMessage::Update { .. } => Some(retry.after_update(answer)),
        IotlbMessage::Invalidate { .. } => None,
        IotlbMessage::Miss { .. } | IotlbMessage::AccessFail { .. } => Some(retry),
    }
}
