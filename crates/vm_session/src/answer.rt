//! The answers to calls of a machine, and to setup calls.
ghost use Rattle.std.specs.Prelude.{◌≡◌};
ghost use Rattle.vm_memory.specs.Reply.{as_done, replied, reply_of_refusal};
ghost use Rattle.vm_memory.specs.declared.machine.command.Reply.TheVariants as reply;
ghost use Rattle.vm_session.specs.Answers.{answer_of, answer_of_error, answer_of_fault, code_of_fault, code_of_kind};
ghost use Rattle.vm_session.specs.Answers.{code_of_reason, counted, valued};
ghost use Rattle.vm_session.specs.Codes.{coded, short_of};

use crate::call::Answer;
use crate::code;
use std::io::ErrorKind;
use vm_memory::{Fault, Refusal};
use vm_memory_base::{IommuError, Reason};

impl Answer {
    // An answer that is no more than a code.
    #[inline(always)]
    pub(crate) fn of_code(code: u32) -> Answer
        ensures { result ≡ coded code }
    {
        Answer {
            code,
            count: 0,
            value: 0,
            address: 0,
        }
    }

    // How many bytes moved, or how many items are listed.
    #[inline(always)]
    pub(crate) fn of_count(count: usize) -> Answer
        ensures { result ≡ counted count }
    {
        Answer {
            code: code::DONE,
            count,
            value: 0,
            address: 0,
        }
    }

    // The number of what was made, or a value that was loaded.
    #[inline(always)]
    pub(crate) fn of_value(value: u64) -> Answer
        ensures { result ≡ valued value }
    {
        Answer {
            code: code::DONE,
            count: 0,
            value,
            address: 0,
        }
    }

    // An output that is too short.
    pub(crate) fn short(needed: usize) -> Answer
        ensures { result ≡ short_of needed }
    {
        Answer {
            code: code::SHORT,
            count: needed,
            value: 0,
            address: 0,
        }
    }
}

// The answer to a call that was refused.
#[inline(never)]
pub(crate) fn refused(refusal: Refusal) -> Answer
    ensures { result ≡ answer_of (reply_of_refusal refusal) }
{
    match refusal {
        Refusal::NoSuch => Answer::of_code(code::NO_SUCH),
        Refusal::BadRange => Answer::of_code(code::BAD_RANGE),
        Refusal::Memory => Answer::of_code(code::MEMORY),
        Refusal::Fault(fault) => faulted(fault),
    }
}

// Refuses a call by a code alone. It is cold, as what refuses is: so the code of a call is laid out for what is served,
// and what that calls is inlined.
#[cold]
#[inline(never)]
pub(crate) fn refuse(code: u32, answer: &mut Answer)
    ensures { answer.new ≡ coded code }
{
    *answer = Answer::of_code(code);
}

// Answers a call that gives nothing back. An answer is put where it is wanted, so that it is not copied.
#[inline(always)]
pub(crate) fn done(outcome: Result<(), Refusal>, answer: &mut Answer)
    ensures { answer.new ≡ answer_of (replied as_done outcome) }
{
    match outcome {
        Ok(()) => *answer = Answer::of_code(code::DONE),
        Err(refusal) => *answer = refused(refusal),
    }
}

// Answers a call that made a layout or a memory.
pub(crate) fn made(outcome: Result<usize, Refusal>, answer: &mut Answer)
    ensures layout { answer.new ≡ answer_of (replied reply.Layout outcome) }
    ensures memory { answer.new ≡ answer_of (replied reply.MemoryMade outcome) }
{
    match outcome {
        Ok(number) => *answer = Answer::of_value(number as u64),
        Err(refusal) => *answer = refused(refusal),
    }
}

// Answers a call that moved bytes.
#[inline(always)]
pub(crate) fn moved(outcome: Result<usize, Refusal>, answer: &mut Answer)
    ensures { answer.new ≡ answer_of (replied reply.Count outcome) }
{
    match outcome {
        Ok(count) => *answer = Answer::of_count(count),
        Err(refusal) => *answer = refused(refusal),
    }
}

// Answers a load.
#[inline(always)]
pub(crate) fn loaded(outcome: Result<u64, Refusal>, answer: &mut Answer)
    ensures { answer.new ≡ answer_of (replied reply.Value outcome) }
{
    match outcome {
        Ok(value) => *answer = Answer::of_value(value),
        Err(refusal) => *answer = refused(refusal),
    }
}

// Answers a check.
pub(crate) fn checked(outcome: Result<bool, Refusal>, answer: &mut Answer)
    ensures { answer.new ≡ answer_of (replied reply.Truth outcome) }
{
    match outcome {
        Ok(true) => *answer = Answer::of_value(1),
        Ok(false) => *answer = Answer::of_value(0),
        Err(refusal) => *answer = refused(refusal),
    }
}

// The answer that tells a fault.
pub(crate) fn faulted(fault: Fault) -> Answer
    ensures { result ≡ answer_of_fault fault }
{
    match fault {
        Fault::InvalidGuestAddress(addr) => Answer {
            code: code::INVALID_GUEST_ADDRESS,
            count: 0,
            value: 0,
            address: addr.0,
        },
        Fault::IOError(kind) => Answer::of_code(code_of_kind(kind)),
        Fault::PartialBuffer {
            expected,
            completed,
        } => Answer {
            code: code::PARTIAL_BUFFER,
            count: completed,
            value: expected as u64,
            address: 0,
        },
        Fault::InvalidBackendAddress => Answer::of_code(code::INVALID_BACKEND_ADDRESS),
        Fault::HostAddressNotAvailable => Answer::of_code(code::HOST_ADDRESS_NOT_AVAILABLE),
        Fault::CallbackOutOfRange => Answer::of_code(code::CALLBACK_OUT_OF_RANGE),
        Fault::GuestAddressOverflow => Answer::of_code(code::GUEST_ADDRESS_OVERFLOW),
        Fault::IommuError(error) => untranslated(error),
        Fault::NoMemoryRegion => Answer::of_code(code::NO_MEMORY_REGION),
        Fault::MemoryRegionOverlap => Answer::of_code(code::MEMORY_REGION_OVERLAP),
        Fault::UnsortedMemoryRegions => Answer::of_code(code::UNSORTED_MEMORY_REGIONS),
    }
}

// The answer that tells why a translation was refused.
fn untranslated(error: IommuError) -> Answer
    ensures { result ≡ answer_of_error error }
{
    match error {
        IommuError::CannotResolve { iova_range, reason } => Answer {
            code: code_of_reason(reason),
            count: 0,
            value: iova_range.length as u64,
            address: iova_range.base.0,
        },
        IommuError::Fragmented {
            iova_range,
            continuous_length,
        } => Answer {
            code: code::IOMMU_FRAGMENTED,
            count: continuous_length,
            value: iova_range.length as u64,
            address: iova_range.base.0,
        },
        IommuError::IommuMisconfigured { reason } => Answer::of_code(code_of_fault(reason)),
        IommuError::Memory => Answer::of_code(code::IOMMU_MEMORY),
    }
}

fn code_of_kind(kind: ErrorKind) -> u32
    ensures { result ≡ code_of_kind kind }
{
    match kind {
        ErrorKind::Interrupted => code::IO_INTERRUPTED,
        ErrorKind::WriteZero => code::IO_WRITE_ZERO,
        ErrorKind::UnexpectedEof => code::IO_UNEXPECTED_EOF,
        _ => code::IO_OTHER,
    }
}

fn code_of_reason(reason: Reason) -> u32
    ensures { result ≡ code_of_reason reason }
{
    match reason {
        Reason::MissingMapping => code::IOMMU_MISSING,
        Reason::AccessNotAllowed => code::IOMMU_NOT_ALLOWED,
        Reason::NotConfigured => code::IOMMU_NOT_CONFIGURED,
    }
}

fn code_of_fault(reason: Reason) -> u32
    ensures { result ≡ code_of_fault reason }
{
    match reason {
        Reason::MissingMapping => code::MISCONFIGURED_MISSING,
        Reason::AccessNotAllowed => code::MISCONFIGURED_NOT_ALLOWED,
        Reason::NotConfigured => code::MISCONFIGURED_NOT_CONFIGURED,
    }
}
