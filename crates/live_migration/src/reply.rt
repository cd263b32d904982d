//! What a receiver sends back.
ghost use Rattle.std.specs.Prelude.{◌≡◌, IfSome, Some};
ghost use Rattle.live_migration.specs.Replies.{code_of, reply_bytes};
ghost use Rattle.live_migration.specs.declared.reply.Reply.{Reply};
ghost use Rattle.live_migration.specs.declared.refusal.Refusal.{Refusal};

use crate::refusal::Refusal;

/// A receiver's reply.
#[derive(Clone, Copy, Debug, PartialEq, Eq)]
pub enum Reply {
    /// The header was accepted, and frames may come.
    Ready,
    /// Everything came, and the guest waits for permission to run.
    Accepted,
    /// Something was refused, and the receiver gave up.
    Refused(Refusal),
}

const READY: u8 = 128;

const ACCEPTED: u8 = 129;

const REFUSED: u8 = 130;

fn code_of(refusal: Refusal) -> u8
    ensures { result ≡ code_of refusal }
{
    match refusal {
        Refusal::Magic => 1,
        Refusal::Version => 2,
        Refusal::BlockCount => 3,
        Refusal::BlockLength => 4,
        Refusal::PageSize => 5,
        Refusal::Place => 6,
        Refusal::TooMuchMemory => 7,
        Refusal::FrameKind => 8,
        Refusal::FrameLength => 9,
        Refusal::Block => 10,
        Refusal::Page => 11,
        Refusal::CutPage => 12,
        Refusal::Order => 13,
        Refusal::Digest => 14,
        Refusal::Ended => 15,
        Refusal::Failed => 16,
        Refusal::Memory => 17,
        Refusal::Options => 18,
    }
}

fn refusal_of(code: u8) -> Option<Refusal>
    ensures found { IfSome result (λ refusal. code_of refusal ≡ code) }
    ensures only { (r : Refusal) → code_of r ≡ code → result ≡ Some r }
{
    match code {
        1 => Some(Refusal::Magic),
        2 => Some(Refusal::Version),
        3 => Some(Refusal::BlockCount),
        4 => Some(Refusal::BlockLength),
        5 => Some(Refusal::PageSize),
        6 => Some(Refusal::Place),
        7 => Some(Refusal::TooMuchMemory),
        8 => Some(Refusal::FrameKind),
        9 => Some(Refusal::FrameLength),
        10 => Some(Refusal::Block),
        11 => Some(Refusal::Page),
        12 => Some(Refusal::CutPage),
        13 => Some(Refusal::Order),
        14 => Some(Refusal::Digest),
        15 => Some(Refusal::Ended),
        16 => Some(Refusal::Failed),
        17 => Some(Refusal::Memory),
        18 => Some(Refusal::Options),
        _ => None,
    }
}

impl Reply {
    /// The reply as bytes.
    pub fn encode(self) -> [u8; 8]
        ensures { result ≡ reply_bytes self }
    {
        match self {
            Reply::Ready => [READY, 0, 0, 0, 0, 0, 0, 0],
            Reply::Accepted => [ACCEPTED, 0, 0, 0, 0, 0, 0, 0],
            Reply::Refused(refusal) => [REFUSED, 0, 0, 0, code_of(refusal), 0, 0, 0],
        }
    }

    /// The reply that these bytes are, if they are one: no other reply has them.
    pub fn decode(bytes: [u8; 8]) -> Option<Reply>
        ensures found { IfSome result (λ reply. bytes ≡ reply_bytes reply) }
        ensures only { (reply : Reply) → bytes ≡ reply_bytes reply → result ≡ Some reply }
    {
        match bytes {
            [READY, 0, 0, 0, 0, 0, 0, 0] => Some(Reply::Ready),
            [ACCEPTED, 0, 0, 0, 0, 0, 0, 0] => Some(Reply::Accepted),
            [REFUSED, 0, 0, 0, code, 0, 0, 0] => match refusal_of(code) {
                Some(refusal) => Some(Reply::Refused(refusal)),
                None => None,
            },
            _ => None,
        }
    }
}
