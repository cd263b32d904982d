//! Why a machine refuses a call, and the replies to calls.
ghost use Rattle.std.specs.Prelude.{◌≡◌};
ghost use Rattle.vm_memory.specs.Reply.{as_done, reply_of_refusal, replied};
ghost use Rattle.vm_memory.specs.Tables.{looked_up};

use super::command::{Fault, Reply};
use super::list::PieceList;
use thiserror::Error;
use vm_memory_base::IotlbFails;
use vm_memory_guest::{GuestMemoryError, GuestRegionCollectionError};

/// Why a machine refused a call. `NoSuch` and `BadRange` changed nothing, and neither did `Memory`, unless a source or
/// a sink of the call failed to allocate after bytes had moved: these stay moved.
#[derive(Clone, Copy, Debug, PartialEq, Eq, Error)]
pub enum Refusal {
    /// A number of the call names nothing.
    #[error("a number names nothing")]
    NoSuch,
    /// A range of the call passes its block, or the greatest address; or its value has too many bytes.
    #[error("a range passes its end")]
    BadRange,
    /// An allocation failed.
    #[error("out of memory")]
    Memory,
    /// The error of the call, by its name.
    #[error("{0:?}")]
    Fault(Fault),
}

/// A failed allocation stays what it is, and every other error is the fault of its name.
impl From<GuestMemoryError> for Refusal {
    ghost use Rattle.std.specs.Prelude.{◌≡◌};
    ghost use Rattle.vm_memory.specs.Reply.{refusal_of};

    ghost from_gives = { λ e r. r ≡ refusal_of e };

    #[inline(always)]
    fn from(error: GuestMemoryError) -> Refusal {
        Refusal::Fault(match error {
            GuestMemoryError::InvalidGuestAddress(addr) => Fault::InvalidGuestAddress(addr),
            GuestMemoryError::IOError(error) => Fault::IOError(error.kind()),
            GuestMemoryError::PartialBuffer {
                expected,
                completed,
            } => Fault::PartialBuffer {
                expected,
                completed,
            },
            GuestMemoryError::InvalidBackendAddress => Fault::InvalidBackendAddress,
            GuestMemoryError::HostAddressNotAvailable => Fault::HostAddressNotAvailable,
            GuestMemoryError::CallbackOutOfRange => Fault::CallbackOutOfRange,
            GuestMemoryError::GuestAddressOverflow => Fault::GuestAddressOverflow,
            GuestMemoryError::IommuError(error) => Fault::IommuError(error),
            GuestMemoryError::Memory => return Refusal::Memory,
        })
    }
}

/// Likewise for regions that do not make a layout.
impl From<GuestRegionCollectionError> for Refusal {
    ghost use Rattle.std.specs.Prelude.{◌≡◌};
    ghost use Rattle.vm_memory.specs.Reply.{refusal_of_layout};

    ghost from_gives = { λ e r. r ≡ refusal_of_layout e };

    fn from(error: GuestRegionCollectionError) -> Refusal {
        match error {
            GuestRegionCollectionError::NoMemoryRegion => Refusal::Fault(Fault::NoMemoryRegion),
            GuestRegionCollectionError::MemoryRegionOverlap => {
                Refusal::Fault(Fault::MemoryRegionOverlap)
            }
            GuestRegionCollectionError::UnsortedMemoryRegions => {
                Refusal::Fault(Fault::UnsortedMemoryRegions)
            }
            GuestRegionCollectionError::Memory => Refusal::Memory,
        }
    }
}

// The reply to a call that was refused.
pub(super) fn refused(refusal: Refusal) -> Reply
    ensures { result ≡ reply_of_refusal refusal }
{
    match refusal {
        Refusal::NoSuch => Reply::NoSuch,
        Refusal::BadRange => Reply::BadRange,
        Refusal::Memory => Reply::Memory,
        Refusal::Fault(fault) => Reply::Fault(fault),
    }
}

// The reply to a call that gives nothing back.
pub(super) fn done(answer: Result<(), Refusal>) -> Reply
    ensures { result ≡ replied as_done answer }
{
    match answer {
        Ok(()) => Reply::Done,
        Err(refusal) => refused(refusal),
    }
}

// The reply to a call that made a layout.
pub(super) fn laid_out(answer: Result<usize, Refusal>) -> Reply
    ensures { result ≡ replied Reply.Layout answer }
{
    match answer {
        Ok(number) => Reply::Layout(number),
        Err(refusal) => refused(refusal),
    }
}

// The reply to a call that made a memory.
pub(super) fn memory_made(answer: Result<usize, Refusal>) -> Reply
    ensures { result ≡ replied Reply.MemoryMade answer }
{
    match answer {
        Ok(number) => Reply::MemoryMade(number),
        Err(refusal) => refused(refusal),
    }
}

// The reply to a call that moved bytes.
pub(super) fn counted(answer: Result<usize, Refusal>) -> Reply
    ensures { result ≡ replied Reply.Count answer }
{
    match answer {
        Ok(count) => Reply::Count(count),
        Err(refusal) => refused(refusal),
    }
}

// The reply to a check.
pub(super) fn checked(answer: Result<bool, Refusal>) -> Reply
    ensures { result ≡ replied Reply.Truth answer }
{
    match answer {
        Ok(truth) => Reply::Truth(truth),
        Err(refusal) => refused(refusal),
    }
}

// The reply to a look-up.
pub(super) fn told(answer: Result<Result<PieceList, IotlbFails>, Refusal>) -> Reply
    ensures { result ≡ replied looked_up answer }
{
    match answer {
        Ok(Ok(pieces)) => Reply::Pieces(pieces),
        Ok(Err(fails)) => Reply::Fails(fails),
        Err(refusal) => refused(refusal),
    }
}
