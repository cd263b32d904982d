//! Looks at guest memory, which a driver may write at any moment.
ghost use Rattle.std.specs.Prelude.{◌≡◌, ◌+◌, ◌^◌, ◌<◌, Result};
ghost use Rattle.vm_memory_guest.specs.Host.{shape_of, Holds};
ghost use Rattle.virtio_queue.specs.Holding.{holds_prop};
ghost use Rattle.virtio_queue.specs.Looks.{Finds, Given, Step, row, word};
ghost use Rattle.virtio_queue.specs.declared.error.QueueError.{QueueError};

use crate::descriptor::Descriptor;
use crate::error::QueueError;
use crate::fields::{descriptor_at, load_word};
use crate::hints::Near;
use vm_memory_base::Bitmap;
use vm_memory_guest::{GuestMemory, HostMemory};

/// Guest memory at which a call looks, while a driver may write it. Two looks at one place may find two things.
///
/// A ghost member says what is known of a look. A call that is generic over this trait knows no more of memory than
/// what its looks found, and the fact that they were made.
pub trait Looks {
    /// A look: what looked before it, the step, what was found or why nothing, and what looks after it.
    ghost looks: { Self → (s : Step) → Result (Given s) QueueError → Self → Type 0 };

    /// The number of 16 bits at `base + offset`, by one load.
    fn word(&mut self, base: u64, offset: u64) -> Result<u16, QueueError>
        requires { offset + 2 < 2 ^ 32 }
        ensures { looks self.old (word base offset) result self.new };

    /// The descriptor of this index in a table, each byte of which is read once.
    fn row(&mut self, table: u64, index: u16) -> Result<Descriptor, QueueError>
        ensures { looks self.old (row table index) result self.new };
}

// Guest memory that is lent for a call, of which a contract says what it holds all the while.
#[derive(Drop)]
pub(crate) struct Lent<'m, 'h, 'n, M: GuestMemory, B: Bitmap> {
    pub(crate) mem: &'m M,
    pub(crate) host: &'h HostMemory<B>,
    pub(crate) near: &'n Near,
    pub(crate) ghost held: { Holds (shape_of host.now) (M.names mem.now) } by { holds_prop (shape_of host.now) (M.names mem.now) },
}

impl<M: GuestMemory, B: Bitmap> Looks for Lent<'_, '_, '_, M, B> {
    ghost looks = { λ lent s given after. Finds (M.memory lent.mem.now) lent.host.now s given × (after ≡ lent) };

    #[inline(always)]
    fn word(&mut self, base: u64, offset: u64) -> Result<u16, QueueError> {
        let near = self.near;
        let hinted = near.words.near(self.mem);
        let found = load_word(&hinted, self.host, base, offset);
        near.words.keep(&hinted);
        found
    }

    #[inline(always)]
    fn row(&mut self, table: u64, index: u16) -> Result<Descriptor, QueueError> {
        let hint = self.near.of_row(table);
        let hinted = hint.near(self.mem);
        let found = descriptor_at(&hinted, self.host, table, index);
        hint.keep(&hinted);
        found
    }
}
