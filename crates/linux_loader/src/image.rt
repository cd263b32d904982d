//! Images of kernels: sources of bytes that can be read from any offset on.
ghost use Rattle.std.specs.Prelude.{◌≡◌, ◌+◌, ◌≤◌, ℕ, List, length, take, drop, None, Some, Ok, Option, refl};
ghost use Rattle.vm_memory_base.specs.InMemory.{giving_from};
ghost use Rattle.vm_memory_base.specs.Transfer.{Answer};
ghost use Rattle.linux_loader.specs.Image.{ReadsFrom, Tells, StandsAt};

use std::fs::File;
use std::io::{self, Cursor, ErrorKind, Seek, SeekFrom};
use vm_memory_base::{IoError, ReadVolatile, VolatileMemoryError, VolatileMemoryResult};

/// An image of a kernel: bytes that can be read from any offset on. Its size and its bytes are those of one moment:
/// an image that changes while it is loaded may give a mix of old and new bytes.
///
/// ```text
/// let mut file = File::open(&rt, "vmlinux")?;
/// let loaded = Elf::load(alloc, &memory, &mut host, None, &mut file, None)?;
/// ```
pub trait KernelImage: ReadVolatile {
    /// All its bytes, if they are known.
    ghost bytes: { Self → Option (List ℕ) };

    /// How many bytes it has.
    fn size(&mut self) -> VolatileMemoryResult<u64>
        ensures { Tells bytes self.old (λ all. length all) result self.new };

    /// Makes the byte at this offset the one that is read next.
    fn seek_to(&mut self, offset: u64) -> VolatileMemoryResult<()>
        ensures { StandsAt bytes Self.source self.old offset result self.new };

    /// Fills a buffer with the bytes from an offset on. After an error the buffer may hold anything.
    fn read_at(&mut self, offset: u64, buf: &mut [u8]) -> VolatileMemoryResult<()>
        ensures { ReadsFrom bytes self.old offset (length buf.old) result buf.new self.new };

    /// A read leaves the image's bytes as they are.
    ghost reads_keep: { (s t : Self) (old new : List ℕ) (answer : Answer)
        → Self.reads s old answer new t → bytes t ≡ bytes s };
}

// A failure of the system.
fn failed(error: io::Error) -> VolatileMemoryError {
    VolatileMemoryError::IOError(IoError::from(error))
}

// Fills a buffer with the bytes from a place on.
fn copy_from(all: &[u8], offset: u64, buf: &mut [u8]) -> VolatileMemoryResult<()>
    ensures { offset + length buf.old ≤ length all.now
        → (result ≡ Ok tt) × (buf.new ≡ take (length buf.old) (drop offset all.now)) }
{
    let len = all.len() as u64;
    if offset > len || len - offset < buf.len() as u64 {
        let error = IoError::of_kind(ErrorKind::UnexpectedEof);
        return Err(VolatileMemoryError::IOError(error));
    }
    let start = offset as usize;
    buf.copy_from_slice(&all[start..start + buf.len()]);
    Ok(())
}

/// Bytes in memory as an image.
#[derive(Drop)]
pub struct ImageBytes<'a> {
    cursor: Cursor<&'a [u8]>,
}

impl<'a> ImageBytes<'a> {
    ghost use Rattle.std.specs.Prelude.{◌≡◌, Some};
    ghost use Rattle.linux_loader.specs.ImageBytes.{bytes_of};

    /// The image of these bytes.
    pub fn new(bytes: &'a [u8]) -> ImageBytes<'a>
        ensures { bytes_of result ≡ bytes.now }
    {
        ImageBytes {
            cursor: Cursor::new(bytes),
        }
    }
}

impl ReadVolatile for ImageBytes<'_> {
    ghost use Rattle.linux_loader.specs.ImageBytes.{bytes_of, place_of};

    ghost source = { λ s. giving_from (bytes_of s) (place_of s) };

    ghost known_left = { λ s. None };

    ghost reads = { λ s old answer new t. bytes_of t ≡ bytes_of s };

    fn read_volatile(&mut self, buf: &mut [u8]) -> VolatileMemoryResult<usize> {
        self.cursor.read_volatile(buf)
    }

    fn known_left(&self) -> Option<usize> {
        None
    }
}

impl KernelImage for ImageBytes<'_> {
    ghost use Rattle.std.proofs.Common.{ap};
    ghost use Rattle.linux_loader.specs.ImageBytes.{bytes_of};

    ghost bytes = { λ s. Some (bytes_of s) };

    fn size(&mut self) -> VolatileMemoryResult<u64> {
        let all: &[u8] = *self.cursor.get_ref();
        Ok(all.len() as u64)
    }

    fn seek_to(&mut self, offset: u64) -> VolatileMemoryResult<()> {
        self.cursor.set_position(offset);
        Ok(())
    }

    fn read_at(&mut self, offset: u64, buf: &mut [u8]) -> VolatileMemoryResult<()> {
        let all: &[u8] = *self.cursor.get_ref();
        copy_from(all, offset, buf)
    }

    ghost reads_keep = { λ s t old new answer h. ap (λ (all : List ℕ). Some all) h };
}

impl KernelImage for File {
    ghost bytes = { λ s. None };

    fn size(&mut self) -> VolatileMemoryResult<u64> {
        Ok(self.seek(SeekFrom::End(0)).map_err(failed)?)
    }

    fn seek_to(&mut self, offset: u64) -> VolatileMemoryResult<()> {
        self.seek(SeekFrom::Start(offset)).map_err(failed)?;
        Ok(())
    }

    fn read_at(&mut self, offset: u64, buf: &mut [u8]) -> VolatileMemoryResult<()> {
        self.seek_to(offset)?;
        match self.read_exact_volatile(buf) {
            Ok(()) => Ok(()),
            Err(fault) => Err(fault.error),
        }
    }

    ghost reads_keep = { λ s t old new answer h. refl };
}
