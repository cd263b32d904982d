//! Why an image is not loaded.

use std::alloc::AllocError;
use thiserror::Error;
use vm_memory_base::VolatileMemoryError;
use vm_memory_guest::GuestMemoryError;

/// Why an image, a command line or an initrd is not placed in guest memory.
#[derive(Debug, Drop, Error)]
pub enum LoaderError {
    /// The image has fewer than the 64 bytes of an ELF header.
    #[error("image ends inside its ELF header")]
    ReadElfHeader,
    /// The image does not begin with the four bytes of every ELF file.
    #[error("invalid ELF magic number")]
    InvalidElfMagicNumber,
    /// The class is not 64 bits.
    #[error("ELF file is not of 64 bits")]
    InvalidElfClass,
    /// The lowest byte of numbers does not come first.
    #[error("ELF file is not little endian")]
    BigEndianElfOnLittle,
    /// The kind is neither an executable nor a shared object.
    #[error("ELF file is neither an executable nor a shared object")]
    InvalidElfType,
    /// The machine is not x86-64.
    #[error("ELF file is not for x86-64")]
    InvalidElfMachine,
    /// The program headers do not have 56 bytes each, as those of 64 bits do.
    #[error("invalid size of program headers")]
    InvalidProgramHeaderSize,
    /// The number of program headers is 65,535, which says that it stands elsewhere.
    #[error("too many program headers")]
    TooManyProgramHeaders,
    /// The program headers lie over the ELF header.
    #[error("program headers lie over the ELF header")]
    InvalidProgramHeaderOffset,
    /// The entry lies below high memory.
    #[error("entry lies below high memory")]
    InvalidEntryAddress,
    /// The image ends before the end of its program headers.
    #[error("image ends before the end of its program headers")]
    ReadProgramHeader,
    /// A segment has fewer bytes in memory than in the image.
    #[error("segment has fewer bytes in memory than in the image")]
    InvalidSegmentSize,
    /// The image ends before the end of a segment.
    #[error("image ends before the end of a segment")]
    ReadKernelImage,
    /// The address of a segment, with the offset of the kernel, is not a 64-bit number.
    #[error("address of a segment would overflow")]
    InvalidProgramHeaderAddress,
    /// The end of a segment in memory is not a 64-bit number.
    #[error("end of a segment would overflow")]
    MemoryOverflow,
    /// No segment with a byte is to be loaded.
    #[error("image has no segment to load")]
    NoLoadSegment,
    /// The entry, with the offset of the kernel, is not a 64-bit number.
    #[error("entry would overflow")]
    EntryOverflow,
    /// The alignment of notes is not one of 0, 1, 4 and 8.
    #[error("invalid alignment of notes")]
    InvalidNoteAlign,
    /// The notes of one segment have more than 65,536 bytes.
    #[error("notes of more than 65536 bytes")]
    NotesTooLong,
    /// The image ends before the end of its notes.
    #[error("image ends before the end of its notes")]
    ReadNoteHeader,
    /// A note passes the end of its segment.
    #[error("note passes the end of its segment")]
    InvalidNote,
    /// The descriptor of the PVH entry has neither 4 nor 8 bytes.
    #[error("invalid size of the PVH entry")]
    InvalidPvhNote,
    /// Two segments share an address.
    #[error("segments overlap")]
    SegmentsOverlap,
    /// The image ends inside its setup header.
    #[error("image ends inside its setup header")]
    ReadBzImageHeader,
    /// The magic number is not that of a setup header, its version is below 2.00, or the kernel is not loaded high.
    #[error("image is no bzImage")]
    InvalidBzImage,
    /// The setup header ends before its field `code32_start` does.
    #[error("invalid size of the setup header")]
    InvalidSetupHeaderSize,
    /// The image has no byte after its setup sectors.
    #[error("image ends before its protected mode kernel")]
    ReadBzImageCompressedKernel,
    /// The kernel lies below high memory, or is to be loaded at an address that is not a 32-bit number.
    #[error("invalid start address of the kernel")]
    InvalidKernelStartAddress,
    /// A relocatable kernel is to be aligned to a number that is not a power of two.
    #[error("alignment of the kernel is no power of two")]
    InvalidKernelAlignment,
    /// The kernel's run time area, or its end, is not a 64-bit number.
    #[error("run time area of the kernel would overflow")]
    RuntimeAreaOverflow,
    /// Memory does not have each address of the kernel's run time area.
    #[error("run time area of the kernel does not lie in memory")]
    RuntimeAreaNotInMemory,
    /// A command line, or another place that was asked for, lies over the kernel's run time area.
    #[error("lies over the run time area of the kernel")]
    RuntimeAreaOverlap,
    /// The initrd has no byte.
    #[error("initrd is empty")]
    EmptyInitrd,
    /// There is no room for the initrd between the kernel, with its run time area, and the limit.
    #[error("no room for the initrd")]
    NoRoomForInitrd,
    /// The command line passes the greatest address.
    #[error("command line passes the greatest address")]
    CommandLineOverflow,
    /// The source of the image failed.
    #[error("image: {0}")]
    Image(VolatileMemoryError),
    /// An access of guest memory was refused.
    #[error("guest memory: {0}")]
    GuestMemory(GuestMemoryError),
    /// An allocation failed.
    #[error("out of memory")]
    Memory,
}

impl LoaderError {
    ghost use Rattle.std.specs.Prelude.{◌≡◌};
    ghost use Rattle.linux_loader.specs.Error.{of_access};

    // The error of a loader for one of an access.
    pub(crate) fn of_access(error: GuestMemoryError) -> LoaderError
        ensures { result ≡ of_access error }
    {
        match error {
            GuestMemoryError::Memory => LoaderError::Memory,
            error => LoaderError::GuestMemory(error),
        }
    }
}

impl From<AllocError> for LoaderError {
    ghost use Rattle.std.specs.Prelude.{◌≡◌};
    ghost use Rattle.linux_loader.specs.declared.error.LoaderError.TheVariants as errors;

    ghost from_gives = { λ e r. r ≡ errors.Memory };

    fn from(_error: AllocError) -> LoaderError {
        LoaderError::Memory
    }
}

impl From<VolatileMemoryError> for LoaderError {
    ghost use Rattle.std.specs.Prelude.{◌≡◌};
    ghost use Rattle.linux_loader.specs.declared.error.LoaderError.TheVariants as errors;

    ghost from_gives = { λ e r. r ≡ errors.Image e };

    fn from(error: VolatileMemoryError) -> LoaderError {
        LoaderError::Image(error)
    }
}
