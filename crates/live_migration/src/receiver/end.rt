//! A receiver to its end.
ghost use Rattle.std.specs.Prelude.{◌≡◌, ◌-◌, ◌^◌, ℕ, min, take, OnOk, OnErr, MatchResult};
ghost use Rattle.std.specs.Io.KnownBytes.{Appends};
ghost use Rattle.live_migration.specs.Receiving.{memory_of};
ghost use Rattle.live_migration.specs.Replies.{reply_after};

use super::{Progress, Receiver, Section, Stage};
use crate::header::BlockEntry;
use crate::refusal::Refusal;
use crate::reply::Reply;
use crate::stream::write_bytes;
use std::io::{Read, Write};
use vm_memory_base::Bitmap;
use vm_memory_guest::HostMemory;

/// A guest that a receiver hands over: its blocks are those of the host from `base` on.
#[derive(Drop)]
pub struct Guest {
    /// The number of its first block in the host.
    pub base: usize,
    /// Its blocks, with their places.
    pub entries: Vec<BlockEntry>,
    /// The states of its devices and queues, in the order in which they came.
    pub sections: Vec<Section>,
}

// Says that all came, after done. Nothing is said at another stage.
fn reply_after<W: Write>(stage: Stage, writer: &mut W) -> Result<(), Refusal>
    ensures ok { OnOk result (Appends (W.contents writer.old) (W.contents writer.new) (reply_after stage)) }
    ensures err { OnErr result ((count : ℕ)
        × Appends (W.contents writer.old) (W.contents writer.new) (take count (reply_after stage))) }
{
    if stage != Stage::Done {
        return Ok(());
    }
    if write_bytes(writer, &Reply::Accepted.encode()).is_err() {
        return Err(Refusal::Failed);
    }
    Ok(())
}

// How many bytes blocks have.
fn bytes_in(entries: &[BlockEntry]) -> u64
    ensures { result ≡ min (2 ^ 64 - 1) (memory_of entries.now) }
{
    let mut bytes = 0u64;
    for entry in entries {
        bytes = bytes.saturating_add(entry.len);
    }
    bytes
}

impl Receiver {
    ghost use Rattle.live_migration.specs.Receiving.{BreaksReceiving, GivesOut, Receives, ReceivesAll};
    ghost use Rattle.live_migration.specs.declared.receiver.Stage.TheVariants as stage;

    /// Takes all frames up to the permission to run the guest. After done it says that it has all, and no more: the
    /// caller reports to the sender what is refused. However it ends, blocks outside the header's stay as they were. If
    /// a frame is refused, those before it stay in effect. `Failed` also if the reply cannot be written.
    ///
    /// Leaves open: any error at any time, and then which sections it has and which beginning of the replies that are
    /// due was written. The frames before it took effect whole, and no other block changed.
    pub fn receive<R: Read, W: Write, B: Bitmap>(
        &mut self,
        reader: &mut R,
        writer: &mut W,
        host: &mut HostMemory<B>,
    ) -> Result<(), Refusal>
        ensures received { OnOk result (ReceivesAll B.marks (R.remaining reader.old) (R.remaining reader.new)
            self.old.seen.base self.old.seen.entries.items host.old host.new) }
        ensures kept { OnOk result (Receives B.marks (R.remaining reader.old) self.old.seen host.old host.new
            (W.contents writer.old) (W.contents writer.new) (R.remaining reader.new) self.new.seen) }
        ensures gone { OnOk result (self.new.seen.stage ≡ stage.Gone) }
        ensures refused { OnErr result (BreaksReceiving B.marks (R.remaining reader.old) self.old.seen host.old host.new
            (W.contents writer.old) (W.contents writer.new)) }
    {
        for _ in 0..u64::MAX {
            let stage = self.take(reader, host)?;
            if stage == Stage::Gone {
                return Ok(());
            }
            reply_after(stage, writer)?;
        }
        Err(Refusal::Order)
    }

    /// How many bytes of memory the header's blocks have.
    pub fn memory(&self) -> u64
        ensures { result ≡ min (2 ^ 64 - 1) (memory_of self.now.seen.entries.items) }
    {
        bytes_in(self.seen.entries.as_slice())
    }

    /// Hands the guest over if the sender has permitted to run it, and otherwise returns the receiver.
    pub fn into_guest(self) -> Result<Guest, Receiver>
        ensures { MatchResult result (λ guest. GivesOut self.seen guest)
            (λ receiver. (receiver ≡ self) × (self.seen.stage ≡ stage.Gone → ⊥)) }
    {
        if self.seen.stage != Stage::Gone {
            return Err(self);
        }
        let Receiver { seen, payload: _ } = self;
        Ok(guest_of(seen))
    }
}

fn guest_of(seen: Progress) -> Guest
    ensures base { result.base ≡ seen.base }
    ensures entries { result.entries ≡ seen.entries }
    ensures sections { result.sections ≡ seen.sections }
{
    Guest {
        base: seen.base,
        entries: seen.entries,
        sections: seen.sections,
    }
}
