//! Blocks whose pages a `TrackedBitmap` tracks, which threads mark and which is harvested without the lock of a host.
ghost use Rattle.std.specs.Prelude.{◌≡◌, ◌/◌, ◌<◌, ◌⊎◌, length, map, IfErr, IfOk, IsErrOf, OnOk, OnErr};
ghost use Rattle.std.specs.Int.{div_ceil};
ghost use Rattle.live_migration.specs.Leave.{BeginsToSend};
ghost use Rattle.live_migration.specs.Targets.{AreBlocks, sized_asked, sized_place_of};
ghost use Rattle.live_migration.specs.Sending.{IsAsItWas, IsBusy};
ghost use Rattle.live_migration.specs.Words as spec;
ghost use Rattle.live_migration.specs.Words.{TakesWords};

use super::pages::{SendError, Target, all_pages};
use super::rounds::Rounds;
use super::stream::{Sender, begin_with, is_new};
use crate::header::{BlockEntry, Options};
use std::alloc::{AllocError, Global};
use std::io::Write;
use std::num::NonZeroUsize;
use vm_memory_base::{Bitmap, GuestAddress};
use vm_memory_guest::{BlockId, HostMemory};

// Whether the bit of a page is set.
fn is_set(words: &[u32], page: usize) -> bool
    requires { page / 32 < length words.now }
    ensures { result ≡ spec.is_set words.now page }
{
    (words[page / 32] >> (page % 32)) % 2 == 1
}

// The pages whose bits are set.
fn pages_set(alloc: Global, words: &[u32], count: usize) -> Result<Vec<usize>, AllocError>
    requires { length words.now ≡ div_ceil count 32 }
    ensures { IfOk result (λ pages. pages.items ≡ spec.pages_set count words.now) }
{
    let mut pages = Vec::new(alloc);
    for page in 0..count {
        if is_set(words, page) {
            pages.push(page)?;
        }
    }
    Ok(pages)
}

// The pages of a block that a harvest takes.
fn taken_by(
    alloc: Global,
    entry: &BlockEntry,
    round: u32,
    words: &[u32],
) -> Result<Vec<usize>, SendError>
    ensures count { OnOk result (length words.now ≡ div_ceil (spec.pages_in entry.now) 32) }
    ensures pages { IfOk result (λ pages. pages.items ≡ spec.taken_by entry.now round words.now) }
    ensures error { IfErr result (λ e. (e ≡ SendError.Changed) ⊎ (e ≡ SendError.Memory)) }
{
    if entry.page_size == 0 {
        return Err(SendError::Changed);
    }
    let count = entry.len.div_ceil(entry.page_size) as usize;
    if words.len() != count.div_ceil(32) {
        return Err(SendError::Changed);
    }
    let pages = if round == 0 {
        all_pages(alloc, entry.len as usize, entry.page_size as usize)
    } else {
        pages_set(alloc, words, count)
    };
    match pages {
        Ok(pages) => Ok(pages),
        Err(_) => Err(SendError::Memory),
    }
}

// A block as the header says it, with pages of this size.
fn block_of<B: Bitmap>(
    host: &HostMemory<B>,
    place: &(BlockId, GuestAddress, NonZeroUsize),
) -> Result<Target, SendError>
    ensures there { IfOk result (λ t. IsAsItWas t host.now) }
    ensures asked { IfOk result (λ t. sized_place_of t ≡ sized_asked place.now) }
{
    let (block, address, page_size) = *place;
    let Some(len) = host.shape().block_len(block) else {
        return Err(SendError::Changed);
    };
    Ok(Target {
        block,
        entry: BlockEntry {
            len: len as u64,
            page_size: page_size.get() as u64,
            address: address.0,
        },
    })
}

// Blocks of a host as a header says them, each once.
fn blocks_of<B: Bitmap>(
    alloc: Global,
    host: &HostMemory<B>,
    blocks: &[(BlockId, GuestAddress, NonZeroUsize)],
) -> Result<Vec<Target>, SendError>
    ensures are { IfOk result (λ targets. AreBlocks host.now targets.items) }
    ensures asked { IfOk result (λ targets. map sized_place_of targets.items ≡ map sized_asked blocks.now) }
{
    let mut targets = Vec::new(alloc);
    for place in blocks {
        let target = block_of(host, place)?;
        if !is_new(targets.as_slice(), &target) {
            return Err(SendError::Twice);
        }
        if targets.push(target).is_err() {
            return Err(SendError::Memory);
        }
    }
    Ok(targets)
}

impl Rounds {
    /// As `harvest`, for a block that a `TrackedBitmap` tracks in pages of the size in the header. `words` are what its
    /// `get_and_reset` gave, or `close` in the last round. If the call is refused, they are still the caller's, who
    /// makes it again.
    ///
    /// `Order` if pages of a block still wait, or the round has no more blocks. `Changed` if these are not the
    /// words of that number of pages, and `Memory` if an allocation fails. Then nothing changes.
    pub fn harvest_words(&mut self, alloc: Global, words: &[u32]) -> Result<usize, SendError>
        ensures taken { OnOk result (TakesWords words.now self.old self.new) }
        ensures count { IfOk result (λ count. count ≡ length self.new.waiting.items) }
        ensures order { IsErrOf result SendError.Order → IsBusy self.old }
        ensures error { IfErr result (λ e. (e ≡ SendError.Order) ⊎ (e ≡ SendError.Changed) ⊎ (e ≡ SendError.Memory)) }
        ensures err { OnErr result (self.new ≡ self.old) }
    {
        if self.next < self.waiting.len() {
            return Err(SendError::Order);
        }
        let Some(target) = self.targets.get(self.turn).copied() else {
            return Err(SendError::Order);
        };
        let pages = taken_by(alloc, &target.entry, self.round, words)?;
        let count = pages.len();
        self.start(pages);
        Ok(count)
    }
}

impl Sender {
    /// As `begin`, for blocks that `TrackedBitmap`s track, each with its address and the size of its pages. The bitmaps
    /// of the host are not looked at.
    ///
    /// Leaves open: any error at any time, and then what was written.
    pub fn begin_tracked<B: Bitmap, W: Write>(
        alloc: Global,
        host: &HostMemory<B>,
        blocks: &[(BlockId, GuestAddress, NonZeroUsize)],
        options: Options,
        writer: &mut W,
    ) -> Result<Sender, SendError>
        ensures begun { IfOk result (λ s. BeginsToSend options.digests (W.contents writer.old) (W.contents writer.new)
            s) }
        ensures blocks { IfOk result (λ s. AreBlocks host.now s.rounds.targets.items) }
        ensures asked { IfOk result (λ s. map sized_place_of s.rounds.targets.items ≡ map sized_asked blocks.now) }
    {
        let targets = blocks_of(alloc, host, blocks)?;
        begin_with(alloc, targets, options, writer)
    }

    /// As `Rounds::harvest_words`.
    pub fn harvest_words(&mut self, alloc: Global, words: &[u32]) -> Result<usize, SendError>
        ensures taken { OnOk result (TakesWords words.now self.old.rounds self.new.rounds) }
        ensures count { IfOk result (λ count. count ≡ length self.new.rounds.waiting.items) }
        ensures order { IsErrOf result SendError.Order → IsBusy self.old.rounds }
        ensures error { IfErr result (λ e. (e ≡ SendError.Order) ⊎ (e ≡ SendError.Changed) ⊎ (e ≡ SendError.Memory)) }
        ensures err { OnErr result (self.new ≡ self.old) }
        ensures same { (self.new.hasher ≡ self.old.hasher) × (self.new.stage ≡ self.old.stage) }
    {
        self.rounds.harvest_words(alloc, words)
    }
}
