//! Calls over the texts of chains.
ghost use Rattle.std.specs.Prelude.{◌≡◌, ◌<◌, ◌≤◌, false, length, take, drop, MatchResult};
ghost use Rattle.vm_memory_base.specs.declared.iotlb.Permissions.TheVariants.{Read, Write};
ghost use Rattle.vm_memory_guest.specs.Host.{shape_of, Holds};
ghost use Rattle.virtio_blk.specs.Inside.{is_memory};
ghost use Rattle.virtio_blk.specs.Texts.{Accessed, StopsAt, StopsWithin, WritesAt, reached, text_bytes};

use vm_memory_base::Bitmap;
use vm_memory_device::{ChainReader, ChainWriter};
use vm_memory_guest::{GuestMemory, GuestMemoryError, HostMemory};

// Whether an error says that an allocation failed.
#[inline]
pub(crate) fn is_memory(error: &GuestMemoryError) -> bool
    ensures { result ≡ is_memory error.now }
{
    matches!(error, GuestMemoryError::Memory)
}

// Something stopped data on their way: no memory for the translation of an access, if that was wanted.
#[derive(Drop)]
pub(crate) struct Stop {
    pub(crate) wanted: bool,
}

// How many bytes were written, and whether an allocation failed for the next one.
#[derive(Clone, Copy)]
pub(crate) struct Written {
    pub(crate) count: usize,
    pub(crate) wanted: bool,
}

// Fills the buffer with the next bytes of a text. A call ends before an access that fails, so the next one begins with
// that access, and its error says whether an allocation failed.
#[inline]
pub(crate) fn read_all<M: GuestMemory, B: Bitmap>(
    reader: &mut ChainReader<'_>,
    mem: &M,
    host: &HostMemory<B>,
    buf: &mut [u8],
) -> Result<(), Stop>
    requires held { Holds (shape_of host.now) (M.names mem.now) }
    requires enough { length buf.old ≤ length reader.old }
    ensures { let m = M.memory mem.now in let n = length buf.old in MatchResult result
        (λ _. (n ≤ length (reached m host.now.tables reader.old)) × Accessed m host.now.tables Read reader.old n
        × (buf.new ≡ text_bytes m host.now reader.old n)
        × (reader.new ≡ drop n reader.old))
        (λ stop. StopsWithin m host.now.tables Read reader.old n stop.wanted) }
{
    let len = buf.len();
    let mut filled = 0;
    while filled < len {
        match reader.read(mem, host, &mut buf[filled..]) {
            Ok(count) => filled += count,
            Err(error) => {
                return Err(Stop {
                    wanted: is_memory(&error),
                });
            }
        }
    }
    Ok(())
}

// Writes the buffer to the next bytes of a text. Where fewer are written than the buffer has, the next one cannot be.
#[inline(always)]
pub(crate) fn write_front<M: GuestMemory, B: Bitmap>(
    writer: &mut ChainWriter<'_>,
    mem: &M,
    host: &mut HostMemory<B>,
    buf: &[u8],
) -> Written
    requires held { Holds (shape_of host.old) (M.names mem.now) }
    requires enough { length buf.now ≤ length writer.old }
    ensures most { result.count ≤ length buf.now }
    ensures written { WritesAt B.marks (M.memory mem.now) writer.old (take result.count buf.now) host.old host.new }
    ensures stopped { result.count < length buf.now
        → StopsAt (M.memory mem.now) host.old.tables Write writer.old (length buf.now) result.wanted result.count }
    ensures all { result.count ≡ length buf.now → result.wanted ≡ false }
    ensures place { writer.new ≡ drop result.count writer.old }
    ensures tables { host.new.tables ≡ host.old.tables }
    ensures shape { shape_of host.new ≡ shape_of host.old }
{
    let len = buf.len();
    let mut done = 0;
    while done < len {
        match writer.write(mem, host, &buf[done..]) {
            Ok(count) => done += count,
            Err(error) => {
                return Written {
                    count: done,
                    wanted: is_memory(&error),
                };
            }
        }
    }
    Written {
        count: done,
        wanted: false,
    }
}
