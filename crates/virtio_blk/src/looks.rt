//! Looks at the bytes of chains, which a driver may write at any moment, and stores to them.
ghost use Rattle.std.specs.Prelude.{◌≡◌, ◌<◌, ◌≤◌, ℕ, List, Result, Ok, Err, IfOk, MatchResult, length, drop};
ghost use Rattle.vm_memory_device.specs.Chain.{Entry};
ghost use Rattle.vm_memory_guest.specs.Host.{shape_of, Holds};
ghost use Rattle.vm_memory_guest.specs.declared.region.error.GuestMemoryError.{GuestMemoryError};
ghost use Rattle.virtio_queue.specs.Holding.{holds_prop};
ghost use Rattle.virtio_blk.specs.Looks.{FindsAll, FoundBy, PutBy, found_in};

use vm_memory_base::Bitmap;
use vm_memory_device::{ChainReader, ChainWriter};
use vm_memory_guest::{GuestMemory, GuestMemoryError, GuestMemoryResult, HostMemory};

/// Guest memory at whose texts a call looks, while a driver may write it. Two looks at one byte may find two things.
///
/// A ghost member says what is known of a look. A call that is generic over this trait knows no more of the bytes than
/// what its looks found, and the fact that they were made.
pub trait Fetches {
    /// A look: what looked before it, the text, at how many of its first bytes, the bytes that it found from the first
    /// on, or why none, and what looks after it.
    ghost fetches: { Self → List Entry → ℕ → Result (List ℕ) GuestMemoryError → Self → Type 0 };

    /// Fills the front of the buffer with the next bytes of a text, each of which is read once, and returns how many.
    fn fetch(&mut self, reader: &mut ChainReader<'_>, buf: &mut [u8]) -> GuestMemoryResult<usize>
        requires some { 0 < length buf.old }
        requires enough { length buf.old ≤ length reader.old }
        ensures fetched { fetches self.old reader.old (length buf.old) (found_in buf.new result) self.new }
        ensures count { IfOk result (λ n. (0 < n) × (n ≤ length buf.old) × (reader.new ≡ drop n reader.old)) }
        ensures size { length buf.new ≡ length buf.old };
}

/// Guest memory to whose texts a call stores, while a driver may write it.
pub trait Puts {
    /// A store: what stored before it, the text, the bytes, how many of them went to its front, or why none, and what
    /// stores after it.
    ghost puts: { Self → List Entry → List ℕ → Result ℕ GuestMemoryError → Self → Type 0 };

    /// Writes the front of the buffer to the next bytes of a text, and returns how many.
    fn put(&mut self, writer: &mut ChainWriter<'_>, buf: &[u8]) -> GuestMemoryResult<usize>
        requires some { 0 < length buf.now }
        requires enough { length buf.now ≤ length writer.old }
        ensures { puts self.old writer.old buf.now result self.new };
}

// Guest memory that is lent for a call, of which a contract says what it holds all the while.
#[derive(Drop)]
pub(crate) struct Lent<'a, M: GuestMemory, B: Bitmap> {
    pub(crate) mem: &'a M,
    pub(crate) host: &'a HostMemory<B>,
    pub(crate) ghost held: { Holds (shape_of host.now) (M.names mem.now) } by { holds_prop (shape_of host.now) (M.names mem.now) },
}

impl<M: GuestMemory, B: Bitmap> Fetches for Lent<'_, M, B> {
    ghost fetches = { λ s es n found after. FoundBy (M.memory s.mem.now) s.host.now es n found × (after ≡ s) };

    #[inline(always)]
    fn fetch(&mut self, reader: &mut ChainReader<'_>, buf: &mut [u8]) -> GuestMemoryResult<usize> {
        reader.read(self.mem, self.host, buf)
    }
}

// The same, to which a call also stores.
#[derive(Drop)]
pub(crate) struct LentMut<'m, 'h, M: GuestMemory, B: Bitmap> {
    pub(crate) mem: &'m M,
    pub(crate) host: &'h mut HostMemory<B>,
    pub(crate) ghost held: { Holds (shape_of host.now) (M.names mem.now) } by { holds_prop (shape_of host.now) (M.names mem.now) },
}

impl<M: GuestMemory, B: Bitmap> Puts for LentMut<'_, '_, M, B> {
    // It keeps its reference: what that points to is what the caller finds then.
    ghost puts = { λ s es bytes stored after. (after.host.ghost_name ≡ s.host.ghost_name)
        × PutBy B.marks (M.memory s.mem.now) es bytes s.host.now stored after.host.now };

    #[inline(always)]
    fn put(&mut self, writer: &mut ChainWriter<'_>, buf: &[u8]) -> GuestMemoryResult<usize> {
        writer.write(self.mem, self.host, buf)
    }
}

// Fills the buffer with the next bytes of a text.
#[inline(always)]
pub(crate) fn fetch_all<F: Fetches>(
    guest: &mut F,
    reader: &mut ChainReader<'_>,
    buf: &mut [u8],
) -> GuestMemoryResult<()>
    requires { length buf.old ≤ length reader.old }
    ensures { MatchResult result (λ _. FindsAll F.fetches reader.old (length buf.old) guest.old (Ok buf.new) guest.new)
        (λ e. FindsAll F.fetches reader.old (length buf.old) guest.old (Err e) guest.new) }
{
    let len = buf.len();
    let mut filled = 0;
    while filled < len {
        match guest.fetch(reader, &mut buf[filled..]) {
            Ok(count) => filled += count,
            Err(error) => return Err(error),
        }
    }
    Ok(())
}
