//! How far a receiver has come.
ghost use Rattle.std.specs.Prelude.{◌≡◌, ℕ, Bool, ◌+◌, ◌^◌, ◌<◌, ◌≤◌, List, [], ◌∷◌, ◌++◌, length, replicate, sum_by};
ghost use Rattle.std.specs.Prelude.{IfOk, OnOk, OnErr, Ok, Err};
ghost use Rattle.live_migration.specs.Digests.{HasNoted, digest_of};

use super::{Stage, stage_after};
use crate::digest::{StreamHasher, bytes_of};
use crate::frame::{Frame, head_bytes};
use crate::header::BlockEntry;
use crate::placing::apply;
use crate::refusal::Refusal;
use crate::stream::read_frame;
use std::alloc::{AllocError, Global};
use std::io::Read;
use vm_memory_base::Bitmap;
use vm_memory_guest::HostMemory;

/// The state of a device or a queue, as it came.
#[derive(Debug, Drop)]
pub struct Section {
    /// Its name: at most 255 bytes.
    pub name: Vec<u8>,
    /// Its bytes: at most 2^20.
    pub bytes: Vec<u8>,
}

/// What a section costs of a receiver's limit besides its name and its bytes: at least what its entry in the list of
/// sections takes, with the overhead of allocations.
pub const SECTION_COST: u64 = 256;

/// What a receiver has of a migration.
#[derive(Drop)]
pub struct Progress {
    pub(crate) base: usize,
    pub(crate) entries: Vec<BlockEntry>,
    pub(crate) stage: Stage,
    pub(crate) round: u32,
    pub(crate) hasher: StreamHasher,
    pub(crate) left: u64,
    pub(crate) longest: u32,
    pub(crate) zeros: Vec<u8>,
    pub(crate) sections: Vec<Section>,
    ghost zeros_are: { zeros.items ≡ replicate (length zeros.items) 0 },
    ghost longest_is: { longest ≤ 2 ^ 20 },
}

/// The receiving end of a migration, whose blocks are those of a host from a number on.
#[derive(Drop)]
pub struct Receiver {
    pub(crate) seen: Progress,
    pub(crate) payload: Vec<u8>,
}

impl Progress {
    ghost use Rattle.std.specs.Prelude.{⊤};
    ghost use Rattle.vm_memory_guest.specs.Host.{Host};
    ghost use Rattle.live_migration.specs.Frame.{Message, RoundEnd, message_of, head};
    ghost use Rattle.live_migration.specs.Bare.{AreBare};
    ghost use Rattle.live_migration.specs.Placing.{Applies, IsInside, MarksChanged};
    ghost use Rattle.live_migration.specs.Receiving.{IsRightEnd, IsSectionKept, cost_of, round_after, section_in};
    ghost use Rattle.live_migration.specs.Receiving.{sections_told};
    ghost use Rattle.live_migration.specs.Stages.{stage_after};
    ghost use Rattle.live_migration.specs.declared.refusal.Refusal.TheVariants as refusals;

    // Ends a round, if its number is the next and the digest is that of what came before, or none if none is asked for.
    fn end_round(&mut self, round: u32, digest: &[u8]) -> Result<(), Refusal>
        ensures ok { OnOk result (self.new ≡ record self.old { round = self.old.round + 1 }) }
        ensures right { OnOk result ((digests : Bool) (sent : List ℕ) → HasNoted digests self.old.hasher sent
            → (round ≡ self.old.round) × (digest.now ≡ digest_of digests sent)) }
        ensures err { OnErr result (self.new ≡ self.old) }
    {
        if round != self.round {
            return Err(Refusal::Order);
        }
        let Some(next) = round.checked_add(1) else {
            return Err(Refusal::Order);
        };
        let Ok(ours) = self.hasher.digest() else {
            return Err(Refusal::Memory);
        };
        if digest != bytes_of(&ours) {
            return Err(Refusal::Digest);
        }
        self.round = next;
        Ok(())
    }

    // Keeps a section, if its cost is left of the limit: else `TooMuchMemory`.
    fn keep_section(&mut self, name: &[u8], bytes: &[u8]) -> Result<(), Refusal>
        ensures kept { IsSectionKept self.old self.new }
        ensures added { OnOk result (sections_told self.new ≡ sections_told self.old ++ (name.now, bytes.now) ∷ []) }
        ensures paid { OnOk result (self.new.left + cost_of (name.now, bytes.now) ≡ self.old.left) }
        ensures full { self.old.left < cost_of (name.now, bytes.now)
            → (result ≡ Err refusals.TooMuchMemory) × (self.new ≡ self.old) }
    {
        let len = name.len() as u64 + bytes.len() as u64;
        if self.left < SECTION_COST || self.left - SECTION_COST < len {
            return Err(Refusal::TooMuchMemory);
        }
        let alloc = *self.sections.allocator();
        let section = section_of(alloc, name, bytes).map_err(|_| Refusal::Memory)?;
        if self.sections.push(section).is_err() {
            return Err(Refusal::Memory);
        }
        self.left -= SECTION_COST + len;
        Ok(())
    }

    // Does what a frame says, at the stage at which it comes.
    fn accept<B: Bitmap>(
        &mut self,
        host: &mut HostMemory<B>,
        bare: &mut [u64],
        frame: &Frame<'_>,
    ) -> Result<(), Refusal>
        requires bare { AreBare self.old.base bare.old host.old }
        requires bare_blocks { length bare.old ≤ length self.old.entries.items }
        ensures inside { OnOk result (IsInside self.old.entries.items (message_of frame.now)) }
        ensures applied { OnOk result (Applies self.old.base self.old.entries.items (message_of frame.now) host.old
            host.new) }
        ensures marked { OnOk result (MarksChanged B.marks self.old.base self.old.entries.items (message_of frame.now)
            host.old host.new) }
        ensures stage { OnOk result (stage_after self.old.stage (message_of frame.now) ≡ Ok self.new.stage) }
        ensures round { OnOk result (self.new.round ≡ round_after self.old.round (message_of frame.now)) }
        ensures right { OnOk result ((digests : Bool) (sent : List ℕ) → HasNoted digests self.old.hasher sent
            → IsRightEnd digests self.old.round sent (message_of frame.now)) }
        ensures kept { IsSectionKept self.old record self.new { round = self.old.round; stage = self.old.stage } }
        ensures sections { OnOk result (sections_told self.new
            ≡ sections_told self.old ++ section_in (message_of frame.now)) }
        ensures left { OnOk result (self.new.left + sum_by cost_of (section_in (message_of frame.now))
            ≡ self.old.left) }
        ensures bare { AreBare self.old.base bare.new host.new }
        ensures err { OnErr result (host.new ≡ host.old) }
    {
        let stage = stage_after(self.stage, frame)?;
        match *frame {
            Frame::RoundEnd { round, digest } => self.end_round(round, digest)?,
            Frame::Section { name, bytes } => self.keep_section(name, bytes)?,
            Frame::Pages { .. } | Frame::ZeroPage { .. } | Frame::Done | Frame::Go => {
                apply(host, self.base, &self.entries, &self.zeros, bare, frame)?
            }
        }
        self.stage = stage;
        Ok(())
    }

    // Notes the bytes of a frame that was accepted.
    fn note(&mut self, kind: u32, payload: &[u8])
        requires { length payload.now < 2 ^ 32 }
        ensures hashed { (digests : Bool) (sent : List ℕ) → HasNoted digests self.old.hasher sent
            → HasNoted digests self.new.hasher (sent ++ (head kind (length payload.now) ++ payload.now)) }
        ensures same { self.new ≡ record self.old { hasher = self.new.hasher } }
    {
        self.hasher
            .note(head_bytes(kind, payload.len() as u32).as_slice());
        self.hasher.note(payload);
    }
}

fn section_of(alloc: Global, name: &[u8], bytes: &[u8]) -> Result<Section, AllocError>
    ensures { IfOk result (λ s. (s.name.items ≡ name.now) × (s.bytes.items ≡ bytes.now)) }
{
    Ok(Section {
        name: Vec::from_slice(alloc, name)?,
        bytes: Vec::from_slice(alloc, bytes)?,
    })
}

impl Receiver {
    ghost use Rattle.live_migration.specs.Bare.{AreBare};
    ghost use Rattle.live_migration.specs.Receiving.{TakesFrame};

    fn take_next<R: Read, B: Bitmap>(
        &mut self,
        reader: &mut R,
        host: &mut HostMemory<B>,
        bare: &mut [u64],
    ) -> Result<Stage, Refusal>
        requires bare { AreBare self.old.seen.base bare.old host.old }
        requires bare_blocks { length bare.old ≤ length self.old.seen.entries.items }
        ensures taken { IfOk result (λ stage. (stage ≡ self.new.seen.stage)
            × TakesFrame B.marks (R.remaining reader.old) (R.remaining reader.new) self.old.seen self.new.seen
            host.old host.new) }
        ensures bare { AreBare self.old.seen.base bare.new host.new }
        ensures base { self.new.seen.base ≡ self.old.seen.base }
        ensures entries { self.new.seen.entries.items ≡ self.old.seen.entries.items }
        ensures refused { OnErr result (host.new ≡ host.old) }
    {
        let kind = read_frame(reader, &mut self.payload, self.seen.longest)?;
        let frame = Frame::decode(kind, self.payload.as_slice())?;
        self.seen.accept(host, bare, &frame)?;
        self.seen.note(kind, self.payload.as_slice());
        Ok(self.seen.stage)
    }

    /// Takes the next frame, and returns what is waited for then. What is refused changes nothing of the host, and from
    /// then on everything is refused, as `Order`.
    pub fn take<R: Read, B: Bitmap>(
        &mut self,
        reader: &mut R,
        host: &mut HostMemory<B>,
    ) -> Result<Stage, Refusal>
        ensures taken { IfOk result (λ stage. (stage ≡ self.new.seen.stage)
            × TakesFrame B.marks (R.remaining reader.old) (R.remaining reader.new) self.old.seen self.new.seen
            host.old host.new) }
        ensures refused { OnErr result ((host.new ≡ host.old) × (self.new.seen.stage ≡ Stage.Failed)) }
    {
        self.take_from(reader, host, &mut [])
    }

    // As `take`, over blocks that have only zeros, each from an offset on, as far as there are offsets.
    pub(super) fn take_from<R: Read, B: Bitmap>(
        &mut self,
        reader: &mut R,
        host: &mut HostMemory<B>,
        bare: &mut [u64],
    ) -> Result<Stage, Refusal>
        requires bare { AreBare self.old.seen.base bare.old host.old }
        requires bare_blocks { length bare.old ≤ length self.old.seen.entries.items }
        ensures taken { IfOk result (λ stage. (stage ≡ self.new.seen.stage)
            × TakesFrame B.marks (R.remaining reader.old) (R.remaining reader.new) self.old.seen self.new.seen
            host.old host.new) }
        ensures bare { AreBare self.new.seen.base bare.new host.new }
        ensures base { self.new.seen.base ≡ self.old.seen.base }
        ensures entries { self.new.seen.entries.items ≡ self.old.seen.entries.items }
        ensures refused { OnErr result ((host.new ≡ host.old) × (self.new.seen.stage ≡ Stage.Failed)) }
    {
        let taken = self.take_next(reader, host, bare);
        if taken.is_err() {
            self.seen.stage = Stage::Failed;
        }
        taken
    }
}
