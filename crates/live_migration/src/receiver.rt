//! The receiving end.
ghost use Rattle.std.specs.Prelude.{◌≡◌, ℕ, ◌+◌, ◌^◌, ◌<◌, ◌≤◌, List, ◌++◌, length, replicate, IfOk, OnOk, OnErr, IsOk};
ghost use Rattle.std.specs.Prelude.{Ok};
ghost use Rattle.live_migration.specs.Frame.{message_of};
ghost use Rattle.live_migration.specs.Stages.{stage_after};

mod begin;
mod destination;
mod end;
mod progress;

use crate::frame::Frame;
use crate::refusal::Refusal;
pub use destination::Destination;
pub use end::Guest;
pub use progress::{Progress, Receiver, SECTION_COST, Section};

/// What a receiver waits for.
#[derive(Clone, Copy, Debug, PartialEq, Eq)]
pub enum Stage {
    /// The next frame of a round.
    Round,
    /// The next frame of another round, or done.
    RoundEnded,
    /// Permission to run the guest.
    Done,
    /// Nothing: it may run the guest.
    Gone,
    /// Nothing: something was refused.
    Failed,
}

// The stage after a frame.
pub(crate) fn stage_after(stage: Stage, frame: &Frame<'_>) -> Result<Stage, Refusal>
    ensures { result ≡ stage_after stage (message_of frame.now) }
{
    match stage {
        Stage::Round => in_round(frame),
        Stage::RoundEnded => after_round_end(frame),
        Stage::Done => after_done(frame),
        Stage::Gone | Stage::Failed => Err(Refusal::Order),
    }
}

fn in_round(frame: &Frame<'_>) -> Result<Stage, Refusal>
    ensures { result ≡ stage_after Stage.Round (message_of frame.now) }
{
    match frame {
        Frame::Pages { .. } | Frame::ZeroPage { .. } | Frame::Section { .. } => Ok(Stage::Round),
        Frame::RoundEnd { .. } => Ok(Stage::RoundEnded),
        Frame::Done | Frame::Go => Err(Refusal::Order),
    }
}

fn after_round_end(frame: &Frame<'_>) -> Result<Stage, Refusal>
    ensures { result ≡ stage_after Stage.RoundEnded (message_of frame.now) }
{
    match frame {
        Frame::Done => Ok(Stage::Done),
        Frame::Pages { .. } | Frame::ZeroPage { .. } | Frame::Section { .. } => Ok(Stage::Round),
        Frame::RoundEnd { .. } => Ok(Stage::RoundEnded),
        Frame::Go => Err(Refusal::Order),
    }
}

fn after_done(frame: &Frame<'_>) -> Result<Stage, Refusal>
    ensures { result ≡ stage_after Stage.Done (message_of frame.now) }
{
    match frame {
        Frame::Go => Ok(Stage::Gone),
        _ => Err(Refusal::Order),
    }
}
