//! A sender with its stream: what was copied is sent, rounds end, and the guest is given up.
ghost use Rattle.std.specs.Prelude.{◌≡◌, ◌≢◌, true, ℕ, Bool, ◌+◌, ◌-◌, ◌^◌, ◌<◌, ◌≤◌, List, [], ◌++◌, length, map};
ghost use Rattle.std.specs.Prelude.{take, Some, IfErr, IfOk, IsOk, IsOkUnless, OnOk, OnErr, IsErr, IsErrOf, IsTrue};
ghost use Rattle.std.specs.Prelude.{◌↔◌, ◌⊎◌};
ghost use Rattle.std.specs.Io.KnownBytes.{Appends, Keeps};
ghost use Rattle.live_migration.specs.Digests.{HasNoted, digest_of};
ghost use Rattle.live_migration.specs.Frame.{Done, Go, IsMessage, RoundEnd, Section, message_of, spelling};
ghost use Rattle.live_migration.specs.Header.{IsHeader, header_bytes};
ghost use Rattle.live_migration.specs.declared.sender.stream.SendStage.TheVariants as stages;
ghost use Rattle.live_migration.specs.Targets.{AreTargets, IsOther, asked, place_of};
ghost use Rattle.live_migration.specs.Leave.{BeginsToSend, BreaksOff, IsFirst, IsInRounds, Sends};

use super::pages::{SendError, Target, target_of};
use super::rounds::Rounds;
use crate::digest::{StreamHasher, bytes_of};
use crate::frame::{Frame, GO, MOST_PAGE_BYTES, head_bytes};
use crate::header::{BlockEntry, Options, check_header, encode_header};
use crate::stream::write_bytes;
use std::alloc::{AllocError, Global};
use std::io::Write;
use std::mem;
use vm_memory_base::{Bitmap, ExactBitmap, GuestAddress};
use vm_memory_guest::{BlockId, HostMemory};

/// How far a sender has come.
#[derive(Clone, Copy, Debug, PartialEq, Eq)]
pub enum SendStage {
    /// The header was sent, and the receiver has not yet said that it is ready.
    Begun,
    /// A round is sent.
    Sending,
    /// A round has ended, and nothing was sent since.
    RoundEnded,
    /// Everything was sent, and the reply is awaited.
    Done,
    /// The receiver has it all. The guest is given up with `go`, or kept by ending the connection.
    Accepted,
    /// The guest was given up.
    Gone,
    /// The stream failed, or the receiver refused.
    Failed,
}

/// The sending end of a migration.
#[derive(Drop)]
pub struct Sender {
    pub(crate) rounds: Rounds,
    pub(crate) hasher: StreamHasher,
    pub(crate) stage: SendStage,
}

// Whether rounds are sent.
fn in_rounds(stage: SendStage) -> bool
    ensures { IsTrue result ↔ IsInRounds stage }
{
    matches!(&stage, SendStage::Sending | SendStage::RoundEnded)
}

// Writes bytes, and notes them for the digest.
fn send<W: Write>(writer: &mut W, hasher: &mut StreamHasher, bytes: &[u8]) -> Result<(), SendError>
    ensures ok { OnOk result (Sends bytes.now (W.contents writer.old) (W.contents writer.new) hasher.old hasher.new) }
    ensures err { OnErr result ((count : ℕ)
        × Appends (W.contents writer.old) (W.contents writer.new) (take count bytes.now)) }
    ensures error { IfErr result (λ e. e ≡ SendError.Failed) }
{
    if write_bytes(writer, bytes).is_err() {
        return Err(SendError::Failed);
    }
    hasher.note(bytes);
    Ok(())
}

// Writes a frame.
fn send_frame<W: Write>(
    alloc: Global,
    writer: &mut W,
    hasher: &mut StreamHasher,
    frame: &Frame<'_>,
) -> Result<(), SendError>
    requires { IsMessage (message_of frame.now) }
    ensures ok { OnOk result (Sends (spelling (message_of frame.now)) (W.contents writer.old) (W.contents writer.new)
        hasher.old hasher.new) }
    ensures err { OnErr result ((count : ℕ)
        × Appends (W.contents writer.old) (W.contents writer.new) (take count (spelling (message_of frame.now)))) }
    ensures error { IfErr result (λ e. (e ≡ SendError.Failed) ⊎ (e ≡ SendError.Memory)) }
{
    let mut bytes = Vec::new(alloc);
    if frame.encode(&mut bytes).is_err() {
        return Err(SendError::Memory);
    }
    send(writer, hasher, bytes.as_slice())
}

// A frame that ends a round, with the digest of what was sent if digests are asked for.
fn send_round_end<W: Write>(
    alloc: Global,
    writer: &mut W,
    hasher: &mut StreamHasher,
    round: u32,
) -> Result<(), SendError>
    ensures sent { (digests : Bool) (sent : List ℕ) → HasNoted digests hasher.old sent
        → OnOk result (Sends (spelling (RoundEnd round (digest_of digests sent))) (W.contents writer.old)
        (W.contents writer.new) hasher.old hasher.new) }
    ensures err { (digests : Bool) (sent : List ℕ) → HasNoted digests hasher.old sent → OnErr result ((count : ℕ)
        × Appends (W.contents writer.old) (W.contents writer.new)
        (take count (spelling (RoundEnd round (digest_of digests sent))))) }
    ensures fits { (digests : Bool) (sent : List ℕ) → HasNoted digests hasher.old sent
        → OnOk result (IsMessage (RoundEnd round (digest_of digests sent))) }
    ensures error { IfErr result (λ e. (e ≡ SendError.Failed) ⊎ (e ≡ SendError.Memory)) }
{
    let Ok(digest) = hasher.digest() else {
        return Err(SendError::Memory);
    };
    let frame = Frame::RoundEnd {
        round,
        digest: bytes_of(&digest),
    };
    send_frame(alloc, writer, hasher, &frame)
}

// Blocks of a host as a header says them, each once.
fn targets_of<B: ExactBitmap>(
    alloc: Global,
    host: &HostMemory<B>,
    blocks: &[(BlockId, GuestAddress)],
) -> Result<Vec<Target>, SendError>
    ensures are { IfOk result (λ targets. AreTargets B.pages host.now targets.items) }
    ensures asked { IfOk result (λ targets. map place_of targets.items ≡ map asked blocks.now) }
{
    let mut targets = Vec::new(alloc);
    for (block, address) in blocks {
        let target = target_of(host, *block, address.0)?;
        if !is_new(targets.as_slice(), &target) {
            return Err(SendError::Twice);
        }
        if targets.push(target).is_err() {
            return Err(SendError::Memory);
        }
    }
    Ok(targets)
}

// Whether no other target has this block.
pub(super) fn is_new(targets: &[Target], target: &Target) -> bool
    ensures { result ≡ true → IsOther targets.now target.now }
{
    for other in targets {
        if other.block.0 == target.block.0 {
            return false;
        }
    }
    true
}

// The header of blocks, if a receiver accepts it: else `Header`, with the fault that the receiver would find.
fn header_of(alloc: Global, options: Options, targets: &[Target]) -> Result<Vec<u8>, SendError>
    ensures accepted { IfOk result (λ v. IsHeader (2 ^ 64 - 1) (map (λ t. t.entry) targets.now)
        × (v.items ≡ header_bytes options.digests (map (λ t. t.entry) targets.now))) }
    ensures only { IsHeader (2 ^ 64 - 1) (map (λ t. t.entry) targets.now) → IsOkUnless result SendError.Memory }
{
    let Ok(entries) = entries_of(alloc, targets) else {
        return Err(SendError::Memory);
    };
    if let Err(refusal) = check_header(u64::MAX, entries.as_slice()) {
        return Err(SendError::Header(refusal));
    }
    let Ok(header) = encode_header(alloc, options, entries.as_slice()) else {
        return Err(SendError::Memory);
    };
    Ok(header)
}

fn entries_of(alloc: Global, targets: &[Target]) -> Result<Vec<BlockEntry>, AllocError>
    ensures { IfOk result (λ v. v.items ≡ map (λ t. t.entry) targets.now) }
{
    targets.iter().map(|t| t.entry).collect(alloc)
}

fn first_sender(alloc: Global, targets: Vec<Target>, hasher: StreamHasher) -> Sender
    ensures targets { result.rounds.targets.items ≡ targets.items }
    ensures hasher { result.hasher ≡ hasher }
    ensures first { IsFirst result }
{
    Sender {
        rounds: Rounds {
            targets,
            round: 0,
            turn: 0,
            last: 0,
            waiting: Vec::new(alloc),
            next: 0,
            batch: Vec::new(alloc),
        },
        hasher,
        stage: SendStage::Begun,
    }
}

// Writes the header of these blocks.
pub(super) fn begin_with<W: Write>(
    alloc: Global,
    targets: Vec<Target>,
    options: Options,
    writer: &mut W,
) -> Result<Sender, SendError>
    ensures begun { IfOk result (λ s. BeginsToSend options.digests (W.contents writer.old) (W.contents writer.new) s) }
    ensures targets { IfOk result (λ s. s.rounds.targets.items ≡ targets.items) }
{
    let header = header_of(alloc, options, targets.as_slice())?;
    let mut hasher = StreamHasher::new(options.digests);
    send(writer, &mut hasher, header.as_slice())?;
    Ok(first_sender(alloc, targets, hasher))
}

impl Rounds {
    ghost use Rattle.live_migration.specs.Sending.{IsIdle};

    // Whether nothing waits.
    fn is_idle(&self) -> bool
        ensures { IsTrue result ↔ IsIdle self.now }
    {
        self.next >= self.waiting.len() && self.batch.is_empty()
    }
}

impl Sender {
    ghost use Rattle.live_migration.specs.Following.{StaysAsItWas};
    ghost use Rattle.live_migration.specs.Sending.{AreMarkedAgain, HarvestsNext, CopiesPages, IsBusy, IsIdle};
    ghost use Rattle.live_migration.specs.Sending.{IsThrough, NoneHarvested, harvested};

    /// Writes the header of these options and blocks of a host, each with its address. The first round is sent after
    /// `ready`. The
    /// blocks ascend by their addresses and do not meet, each is tracked as a whole by a bitmap whose pages have at
    /// most 2^20 bytes, and none comes twice: else `Header`, `Untracked` or `Twice`, and `Changed` if the host has no
    /// such block.
    ///
    /// Leaves open: any error at any time, and then what was written.
    pub fn begin<B: ExactBitmap, W: Write>(
        alloc: Global,
        host: &HostMemory<B>,
        blocks: &[(BlockId, GuestAddress)],
        options: Options,
        writer: &mut W,
    ) -> Result<Sender, SendError>
        ensures begun { IfOk result (λ s. BeginsToSend options.digests (W.contents writer.old) (W.contents writer.new)
            s) }
        ensures targets { IfOk result (λ s. AreTargets B.pages host.now s.rounds.targets.items) }
        ensures asked { IfOk result (λ s. map place_of s.rounds.targets.items ≡ map asked blocks.now) }
    {
        let targets = targets_of(alloc, host, blocks)?;
        begin_with(alloc, targets, options, writer)
    }

    /// Ends a migration before the guest was given up: marks each harvested page again, so that another may
    /// begin anew.
    pub fn abort<B: ExactBitmap>(self, host: &mut HostMemory<B>)
        ensures { AreMarkedAgain B.pages (harvested self.rounds) host.old host.new }
    {
        self.rounds.mark_again(host);
    }

    /// As `Rounds::harvest`.
    ///
    /// Leaves open: `Memory`, `Changed` or `Untracked` at any time, as `copy_batch` and `harvest_words` do. No page is
    /// lost then.
    pub fn harvest<B: ExactBitmap>(
        &mut self,
        alloc: Global,
        host: &mut HostMemory<B>,
    ) -> Result<usize, SendError>
        ensures taken { OnOk result (HarvestsNext B.pages self.old.rounds self.new.rounds host.old host.new) }
        ensures count { IfOk result (λ count. count ≡ length self.new.rounds.waiting.items) }
        ensures order { IsErrOf result SendError.Order → IsBusy self.old.rounds }
        ensures error { IfErr result (λ e. (e ≡ SendError.Order) ⊎ (e ≡ SendError.Untracked) ⊎ (e ≡ SendError.Changed)
            ⊎ (e ≡ SendError.Memory)) }
        ensures err { OnErr result ((self.new ≡ self.old) × (host.new ≡ host.old)) }
        ensures same { (self.new.hasher ≡ self.old.hasher) × (self.new.stage ≡ self.old.stage) }
    {
        self.rounds.harvest(alloc, host)
    }

    /// As `Rounds::copy_batch`.
    ///
    /// Leaves open: how many pages are copied, also none, and which of them share a message. A round ends only if none
    /// waits.
    pub fn copy_batch<B: Bitmap>(&mut self, host: &HostMemory<B>) -> Result<usize, SendError>
        ensures copied { IfOk result (λ count. CopiesPages count self.old.rounds self.new.rounds host.now) }
        ensures order { IsErrOf result SendError.Order → NoneHarvested self.old.rounds }
        ensures error { IfErr result (λ e. (e ≡ SendError.Order) ⊎ (e ≡ SendError.Changed) ⊎ (e ≡ SendError.Memory)) }
        ensures short { length self.new.rounds.batch.items ≤ 2 ^ 20 + 20 }
        ensures err { OnErr result (StaysAsItWas self.old.rounds self.new.rounds) }
        ensures same { (self.new.hasher ≡ self.old.hasher) × (self.new.stage ≡ self.old.stage) }
    {
        self.rounds.copy_batch(host)
    }

    /// Sends what was copied. `Order` before `ready` and after the rounds, and `Failed` if the stream fails: then
    /// nothing more is sent, and what waited still waits.
    ///
    /// Leaves open: `Failed` or `Memory` at any time, as each call that sends does. The stream has a beginning of what
    /// was to be sent, or nothing, and after `Failed` or `Memory` of a call but `go` the stage is `Failed`.
    pub fn send_batch<W: Write>(&mut self, writer: &mut W) -> Result<(), SendError>
        ensures sent { OnOk result (Sends self.old.rounds.batch.items (W.contents writer.old) (W.contents writer.new)
            self.old.hasher self.new.hasher) }
        ensures ok { OnOk result (self.new.rounds.batch.items ≡ []) }
        ensures stage { OnOk result (IsInRounds self.old.stage × (self.new.stage ≡ stages.Sending)) }
        ensures order { IsErrOf result SendError.Order → IsInRounds self.old.stage → ⊥ }
        ensures error { IfErr result (λ e. (e ≡ SendError.Order)
            ⊎ ((e ≡ SendError.Failed) × (self.new.stage ≡ stages.Failed))) }
        ensures err { OnErr result (self.new.rounds.batch ≡ self.old.rounds.batch) }
        ensures unsent { OnErr result (((self.new ≡ self.old) × (writer.new ≡ writer.old))
            ⊎ BreaksOff self.old.rounds.batch.items (W.contents writer.old) (W.contents writer.new) self.old.stage
            self.new.stage) }
        ensures same { (self.new.rounds.targets ≡ self.old.rounds.targets)
            × (self.new.rounds.round ≡ self.old.rounds.round)
            × (self.new.rounds.waiting ≡ self.old.rounds.waiting) × (self.new.rounds.next ≡ self.old.rounds.next)
            × (self.new.rounds.turn ≡ self.old.rounds.turn) × (self.new.rounds.last ≡ self.old.rounds.last) }
    {
        if !in_rounds(self.stage) {
            return Err(SendError::Order);
        }
        let sent = send(writer, &mut self.hasher, self.rounds.batch.as_slice());
        match sent {
            Ok(()) => {
                self.rounds.batch.clear();
                self.stage = SendStage::Sending;
                Ok(())
            }
            Err(error) => {
                self.stage = SendStage::Failed;
                Err(error)
            }
        }
    }

    /// As `send_batch` to a list, for a caller who writes it to the stream. If the list is empty, it becomes the batch,
    /// and no byte is copied.
    pub fn take_batch(&mut self, bytes: &mut Vec<u8>) -> Result<(), SendError>
        ensures sent { OnOk result (Sends self.old.rounds.batch.items (Some bytes.old.items) (Some bytes.new.items)
            self.old.hasher self.new.hasher) }
        ensures ok { OnOk result (self.new.rounds.batch.items ≡ []) }
        ensures stage { OnOk result (IsInRounds self.old.stage × (self.new.stage ≡ stages.Sending)) }
        ensures order { IsErrOf result SendError.Order → IsInRounds self.old.stage → ⊥ }
        ensures error { IfErr result (λ e. (e ≡ SendError.Order)
            ⊎ ((e ≡ SendError.Failed) × (self.new.stage ≡ stages.Failed))) }
        ensures err { OnErr result (self.new.rounds.batch ≡ self.old.rounds.batch) }
        ensures unsent { OnErr result (((self.new ≡ self.old) × (bytes.new ≡ bytes.old))
            ⊎ BreaksOff self.old.rounds.batch.items (Some bytes.old.items) (Some bytes.new.items) self.old.stage
            self.new.stage) }
        ensures same { (self.new.rounds.targets ≡ self.old.rounds.targets)
            × (self.new.rounds.round ≡ self.old.rounds.round)
            × (self.new.rounds.waiting ≡ self.old.rounds.waiting) × (self.new.rounds.next ≡ self.old.rounds.next)
            × (self.new.rounds.turn ≡ self.old.rounds.turn) × (self.new.rounds.last ≡ self.old.rounds.last) }
    {
        if !bytes.is_empty() {
            return self.send_batch(bytes);
        }
        if !in_rounds(self.stage) {
            return Err(SendError::Order);
        }
        self.hasher.note(self.rounds.batch.as_slice());
        mem::swap(&mut self.rounds.batch, bytes);
        self.stage = SendStage::Sending;
        Ok(())
    }

    /// Sends the state of a device or a queue, in a round: its name has at most 255 bytes, and the state at most 2^20,
    /// else `Section`. `Order` before `ready` and after the rounds. `Memory` if an allocation fails, and `Failed` if
    /// the stream does: then nothing more is sent.
    pub fn send_section<W: Write>(
        &mut self,
        alloc: Global,
        writer: &mut W,
        name: &[u8],
        bytes: &[u8],
    ) -> Result<(), SendError>
        ensures sent { OnOk result (Sends (spelling (Section name.now bytes.now)) (W.contents writer.old)
            (W.contents writer.new) self.old.hasher self.new.hasher) }
        ensures fits { OnOk result ((length name.now < 256) × (length bytes.now ≤ 2 ^ 20)) }
        ensures section { IsErrOf result SendError.Section → (256 ≤ length name.now) ⊎ (2 ^ 20 < length bytes.now) }
        ensures stage { OnOk result (IsInRounds self.old.stage × (self.new.stage ≡ stages.Sending)) }
        ensures order { IsErrOf result SendError.Order → IsInRounds self.old.stage → ⊥ }
        ensures error { IfErr result (λ e. (e ≡ SendError.Section) ⊎ (e ≡ SendError.Order)
            ⊎ (((e ≡ SendError.Failed) ⊎ (e ≡ SendError.Memory)) × (self.new.stage ≡ stages.Failed))) }
        ensures unsent { OnErr result (((self.new ≡ self.old) × (writer.new ≡ writer.old))
            ⊎ BreaksOff (spelling (Section name.now bytes.now)) (W.contents writer.old) (W.contents writer.new)
            self.old.stage self.new.stage) }
        ensures same { self.new.rounds ≡ self.old.rounds }
    {
        if name.len() > 255 || bytes.len() > MOST_PAGE_BYTES {
            return Err(SendError::Section);
        }
        if !in_rounds(self.stage) {
            return Err(SendError::Order);
        }
        let frame = Frame::Section { name, bytes };
        match send_frame(alloc, writer, &mut self.hasher, &frame) {
            Ok(()) => {
                self.stage = SendStage::Sending;
                Ok(())
            }
            Err(error) => {
                self.stage = SendStage::Failed;
                Err(error)
            }
        }
    }

    /// Ends a round in which each block was harvested and nothing waits: otherwise `Order`, as before `ready`. `Memory`
    /// if an allocation fails, and `Failed` if the stream does: then nothing more is sent.
    ///
    /// Leaves open: what was written, and what a refused call left, if the digest is not of known bytes, as it is from
    /// `begin` on until a write fails.
    pub fn end_round<W: Write>(&mut self, alloc: Global, writer: &mut W) -> Result<(), SendError>
        ensures sent { (digests : Bool) (sent : List ℕ) → HasNoted digests self.old.hasher sent
            → OnOk result (Sends (spelling (RoundEnd self.old.rounds.round (digest_of digests sent)))
            (W.contents writer.old) (W.contents writer.new) self.old.hasher self.new.hasher) }
        ensures fits { (digests : Bool) (sent : List ℕ) → HasNoted digests self.old.hasher sent
            → OnOk result (IsMessage (RoundEnd self.old.rounds.round (digest_of digests sent))) }
        ensures through { OnOk result (IsIdle self.old.rounds
            × (self.old.rounds.turn ≡ length self.old.rounds.targets.items)) }
        ensures next { OnOk result ((self.new.rounds.round ≡ self.old.rounds.round + 1) × (self.new.rounds.turn ≡ 0)) }
        ensures stage { OnOk result (IsInRounds self.old.stage × (self.new.stage ≡ stages.RoundEnded)) }
        ensures order { IsErrOf result SendError.Order → IsInRounds self.old.stage × IsThrough self.old.rounds → ⊥ }
        ensures error { IfErr result (λ e. (e ≡ SendError.Order)
            ⊎ (((e ≡ SendError.Failed) ⊎ (e ≡ SendError.Memory)) × (self.new.stage ≡ stages.Failed))) }
        ensures err { OnErr result (self.new.rounds ≡ self.old.rounds) }
        ensures unsent { (digests : Bool) (sent : List ℕ) → HasNoted digests self.old.hasher sent
            → OnErr result (((self.new ≡ self.old) × (writer.new ≡ writer.old))
            ⊎ BreaksOff (spelling (RoundEnd self.old.rounds.round (digest_of digests sent))) (W.contents writer.old)
            (W.contents writer.new) self.old.stage self.new.stage) }
        ensures same { (self.new.rounds.targets ≡ self.old.rounds.targets)
            × (self.new.rounds.waiting ≡ self.old.rounds.waiting) × (self.new.rounds.next ≡ self.old.rounds.next)
            × (self.new.rounds.batch ≡ self.old.rounds.batch) × (self.new.rounds.last ≡ self.old.rounds.last) }
    {
        if !in_rounds(self.stage)
            || !self.rounds.is_idle()
            || self.rounds.turn != self.rounds.targets.len()
        {
            return Err(SendError::Order);
        }
        let Some(next) = self.rounds.round.checked_add(1) else {
            return Err(SendError::Order);
        };
        match send_round_end(alloc, writer, &mut self.hasher, self.rounds.round) {
            Ok(()) => {
                self.rounds.round = next;
                self.rounds.turn = 0;
                self.stage = SendStage::RoundEnded;
                Ok(())
            }
            Err(error) => {
                self.stage = SendStage::Failed;
                Err(error)
            }
        }
    }

    /// Says that everything was sent, right after the end of a round: otherwise `Order`. The other errors are those of
    /// `end_round`.
    pub fn done<W: Write>(&mut self, alloc: Global, writer: &mut W) -> Result<(), SendError>
        ensures sent { OnOk result (Sends (spelling Done) (W.contents writer.old) (W.contents writer.new)
            self.old.hasher self.new.hasher) }
        ensures ok { OnOk result ((self.new.stage ≡ stages.Done) × (self.old.stage ≡ stages.RoundEnded)
            × (self.old.rounds.turn ≡ 0)) }
        ensures order { IsErrOf result SendError.Order
            → (self.old.stage ≡ stages.RoundEnded) × (self.old.rounds.turn ≡ 0) → ⊥ }
        ensures error { IfErr result (λ e. (e ≡ SendError.Order)
            ⊎ (((e ≡ SendError.Failed) ⊎ (e ≡ SendError.Memory)) × (self.new.stage ≡ stages.Failed))) }
        ensures unsent { OnErr result (((self.new ≡ self.old) × (writer.new ≡ writer.old))
            ⊎ BreaksOff (spelling Done) (W.contents writer.old) (W.contents writer.new) self.old.stage self.new.stage) }
        ensures same { self.new.rounds ≡ self.old.rounds }
    {
        if self.stage != SendStage::RoundEnded || self.rounds.turn != 0 {
            return Err(SendError::Order);
        }
        match send_frame(alloc, writer, &mut self.hasher, &Frame::Done) {
            Ok(()) => {
                self.stage = SendStage::Done;
                Ok(())
            }
            Err(error) => {
                self.stage = SendStage::Failed;
                Err(error)
            }
        }
    }

    /// Gives the guest up: the receiver may run it. Only after the receiver has said that it has everything, otherwise
    /// `Order`, and then nothing is sent. From then on the guest never runs here, even if the stream fails.
    #[tactic(auto, unfolding(crate::specs::Frame::spelling))]
    pub fn go<W: Write>(&mut self, writer: &mut W) -> Result<(), SendError>
        ensures sent { OnOk result (Appends (W.contents writer.old) (W.contents writer.new) (spelling Go)) }
        ensures unsent { OnErr result ((count : ℕ)
            × Appends (W.contents writer.old) (W.contents writer.new) (take count (spelling Go))) }
        ensures early { self.old.stage ≢ stages.Accepted
            → IsErr result × (writer.new ≡ writer.old) × (self.new ≡ self.old) }
        ensures gone { self.old.stage ≡ stages.Accepted → self.new.stage ≡ stages.Gone }
        ensures order { IsErrOf result SendError.Order → self.old.stage ≢ stages.Accepted }
        ensures error { IfErr result (λ e. (e ≡ SendError.Order) ⊎ (e ≡ SendError.Failed)) }
        ensures same { self.new.rounds ≡ self.old.rounds }
    {
        if self.stage != SendStage::Accepted {
            return Err(SendError::Order);
        }
        self.stage = SendStage::Gone;
        if write_bytes(writer, &head_bytes(GO, 0)).is_err() {
            return Err(SendError::Failed);
        }
        Ok(())
    }
}
