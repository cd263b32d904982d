//! The replies that a sender awaits.
ghost use Rattle.std.specs.Prelude.{◌≡◌, ◌≢◌, ℕ, ◌<◌, List, length, IfSome, IfNone, OnOk, OnErr, Err};
ghost use Rattle.std.specs.Io.KnownBytes.{Consumes};
ghost use Rattle.live_migration.specs.Replies.{Awaits};
ghost use Rattle.live_migration.specs.declared.reply.Reply.TheVariants as replies;
ghost use Rattle.live_migration.specs.declared.sender.pages.SendError.TheVariants as errors;
ghost use Rattle.live_migration.specs.declared.sender.stream.SendStage.TheVariants as stages;

use super::pages::SendError;
use super::stream::{SendStage, Sender};
use crate::reply::Reply;
use std::io::{ErrorKind, Read};

// Reads the eight bytes of a reply, or none where the stream ends before them or fails.
fn read_eight<R: Read>(reader: &mut R) -> Option<[u8; 8]>
    ensures some { IfSome result (λ bytes. (length bytes ≡ 8)
        × Consumes (R.remaining reader.old) (R.remaining reader.new) bytes) }
    ensures none { IfNone result ((bytes : List ℕ) × (length bytes < 8)
        × Consumes (R.remaining reader.old) (R.remaining reader.new) bytes) }
{
    let mut bytes = [0; 8];
    let mut at = 0;
    for _ in 0..u64::MAX {
        match reader.read(&mut bytes[at..]) {
            Ok(0) => return None,
            Ok(count) => {
                at += count;
                if at == 8 {
                    return Some(bytes);
                }
            }
            Err(error) if error.kind() == ErrorKind::Interrupted => {}
            Err(_) => return None,
        }
    }
    None
}

// Reads a reply, which has to be this one.
fn await_reply<R: Read>(reader: &mut R, wanted: Reply) -> Result<(), SendError>
    ensures { Awaits wanted (R.remaining reader.old) (R.remaining reader.new) result }
{
    let Some(bytes) = read_eight(reader) else {
        return Err(SendError::Failed);
    };
    let Some(reply) = Reply::decode(bytes) else {
        return Err(SendError::Reply);
    };
    if reply == wanted {
        return Ok(());
    }
    match reply {
        Reply::Refused(refusal) => Err(SendError::Refused(refusal)),
        Reply::Ready | Reply::Accepted => Err(SendError::Reply),
    }
}

impl Sender {
    /// Waits for the receiver to say that it made the memory, right after `begin`. Otherwise `Order`, and nothing is
    /// read. On success exactly the bytes of `Reply::Ready` were read, and rounds may be sent. `Refused` with what the
    /// receiver refused, `Reply` if eight other bytes came, and `Failed` if fewer came before the stream ended or
    /// failed: then nothing more is sent.
    ///
    /// Leaves open: `Failed` at any time, after fewer than 8 bytes, as `accepted` does. Then the stage is `Failed`.
    pub fn ready<R: Read>(&mut self, reader: &mut R) -> Result<(), SendError>
        ensures heard { self.old.stage ≡ stages.Begun
            → Awaits replies.Ready (R.remaining reader.old) (R.remaining reader.new) result }
        ensures ok { OnOk result ((self.old.stage ≡ stages.Begun) × (self.new.stage ≡ stages.Sending)) }
        ensures err { self.old.stage ≡ stages.Begun → OnErr result (self.new.stage ≡ stages.Failed) }
        ensures order { self.old.stage ≢ stages.Begun
            → (result ≡ Err errors.Order) × (self.new ≡ self.old) × (reader.new ≡ reader.old) }
        ensures same { (self.new.rounds ≡ self.old.rounds) × (self.new.hasher ≡ self.old.hasher) }
    {
        if self.stage != SendStage::Begun {
            return Err(SendError::Order);
        }
        self.stage = SendStage::Failed;
        await_reply(reader, Reply::Ready)?;
        self.stage = SendStage::Sending;
        Ok(())
    }

    /// Waits for the receiver to say that it has everything, after `done`. Otherwise `Order`, and nothing is read. On
    /// success exactly the bytes of `Reply::Accepted` were read, and the guest may be given up. The errors are those of
    /// `ready`.
    pub fn accepted<R: Read>(&mut self, reader: &mut R) -> Result<(), SendError>
        ensures heard { self.old.stage ≡ stages.Done
            → Awaits replies.Accepted (R.remaining reader.old) (R.remaining reader.new) result }
        ensures ok { OnOk result ((self.old.stage ≡ stages.Done) × (self.new.stage ≡ stages.Accepted)) }
        ensures err { self.old.stage ≡ stages.Done → OnErr result (self.new.stage ≡ stages.Failed) }
        ensures order { self.old.stage ≢ stages.Done
            → (result ≡ Err errors.Order) × (self.new ≡ self.old) × (reader.new ≡ reader.old) }
        ensures same { (self.new.rounds ≡ self.old.rounds) × (self.new.hasher ≡ self.old.hasher) }
    {
        if self.stage != SendStage::Done {
            return Err(SendError::Order);
        }
        self.stage = SendStage::Failed;
        await_reply(reader, Reply::Accepted)?;
        self.stage = SendStage::Accepted;
        Ok(())
    }
}
