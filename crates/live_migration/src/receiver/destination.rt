//! A receiver that has its host.
ghost use Rattle.std.specs.Prelude.{◌≡◌, ℕ, ◌+◌, ◌<◌, ◌≤◌, List, [], ◌⊎◌, length, replicate, IfOk, IfErr, OnOk, OnErr};
ghost use Rattle.live_migration.specs.Bare.{AreBare};

use super::{Receiver, Stage};
use crate::refusal::Refusal;
use std::alloc::{AllocError, Global};
use std::io::Read;
use vm_memory_base::{Bitmap, NewBitmap};
use vm_memory_guest::HostMemory;

/// A receiver, and the host that has its blocks. Nothing else writes the host meanwhile, so that what a block has after
/// the last byte that came is known to be zero, and a page there that comes as zeros is not looked at.
#[derive(Drop)]
pub struct Destination<B> {
    pub(crate) receiver: Receiver,
    pub(crate) host: HostMemory<B>,
    pub(crate) bare: Vec<u64>,
    ghost bare_blocks: { length bare.items ≤ length receiver.seen.entries.items },
    ghost bare_is: { AreBare receiver.seen.base bare.items host },
}

// Offsets that are all 0.
fn offsets_of(alloc: Global, count: usize) -> Result<Vec<u64>, AllocError>
    ensures { IfOk result (λ offsets. offsets.items ≡ replicate count 0) }
{
    Ok(vec![in alloc; 0u64; count]?)
}

// An offset of 0 for each block, or none if there is no memory for that: then more is looked at.
fn first_offsets(alloc: Global, count: usize) -> Vec<u64>
    ensures { (result.items ≡ replicate count 0) ⊎ (result.items ≡ []) }
{
    match offsets_of(alloc, count) {
        Ok(offsets) => offsets,
        Err(_) => Vec::new(alloc),
    }
}

impl<B> Destination<B> {
    ghost use Rattle.live_migration.specs.declared.receiver.Stage.TheVariants as stages;
    ghost use Rattle.live_migration.specs.Receiving.{Begins, BreaksMaking, TakesFrame};

    /// As `Receiver::begin`. If it is refused, the host comes back with the refusal.
    ///
    /// Leaves open: the same as `begin` of a `Receiver`.
    pub fn begin<R: Read>(
        alloc: Global,
        reader: &mut R,
        host: HostMemory<B>,
        limit: u64,
    ) -> Result<Destination<B>, (Refusal, HostMemory<B>)>
    where
        B: NewBitmap + Drop,
        ensures begun { IfOk result (λ d. Begins B.made limit (R.remaining reader.old) (R.remaining reader.new)
            d.receiver.seen host d.host) }
        ensures refused { IfErr result (λ e. (e.1 ≡ host) ⊎ BreaksMaking B.made limit (R.remaining reader.old)
            (R.remaining reader.new) e.0 host e.1) }
    {
        let mut host = host;
        match Receiver::begin(alloc, reader, &mut host, limit) {
            Ok(receiver) => {
                let bare = first_offsets(alloc, receiver.seen.entries.len());
                Ok(Destination {
                    receiver,
                    host,
                    bare,
                })
            }
            Err(refusal) => Err((refusal, host)),
        }
    }

    /// As `Receiver::take`.
    pub fn take<R: Read>(&mut self, reader: &mut R) -> Result<Stage, Refusal>
    where
        B: Bitmap,
        ensures taken { IfOk result (λ stage. (stage ≡ self.new.receiver.seen.stage)
            × TakesFrame B.marks (R.remaining reader.old) (R.remaining reader.new) self.old.receiver.seen
            self.new.receiver.seen self.old.host self.new.host) }
        ensures refused { OnErr result ((self.new.host ≡ self.old.host)
            × (self.new.receiver.seen.stage ≡ stages.Failed)) }
    {
        self.receiver
            .take_from(reader, &mut self.host, self.bare.as_mut_slice())
    }

    /// The receiver.
    pub fn receiver(&self) -> &Receiver
        ensures { result.now ≡ self.now.receiver }
    {
        &self.receiver
    }

    /// The host.
    pub fn host(&self) -> &HostMemory<B>
        ensures { result.now ≡ self.now.host }
    {
        &self.host
    }

    /// Gives both back.
    pub fn into_parts(self) -> (Receiver, HostMemory<B>)
        ensures receiver { result.0 ≡ self.receiver }
        ensures host { result.1 ≡ self.host }
    {
        let Destination {
            receiver,
            host,
            bare: _,
        } = self;
        (receiver, host)
    }
}
