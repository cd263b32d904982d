//! Refusals as codes.
ghost use Rattle.std.specs.Prelude.{◌≡◌};
ghost use Rattle.vhost_calls.specs.Codes.{code_of_malformed, code_of_not_running, code_of_offer, code_of_refusal};
ghost use Rattle.vhost_calls.specs.Codes.{code_of_step};

use crate::code;
use vhost_user::{Malformed, NotRunning, OfferError, Refusal};

/// The code of an offer that was refused.
pub fn code_of_offer(error: OfferError) -> u32
    ensures { result ≡ code_of_offer error }
{
    match error {
        OfferError::Invalid => code::VHOST_OFFER,
        OfferError::Memory => code::MEMORY,
    }
}

fn code_of_malformed(malformed: Malformed) -> u32
    ensures { result ≡ code_of_malformed malformed }
{
    match malformed {
        Malformed::Kind => code::MESSAGE_KIND,
        Malformed::EmptyRange => code::MESSAGE_EMPTY_RANGE,
        Malformed::Range => code::MESSAGE_RANGE,
        Malformed::Permissions => code::MESSAGE_PERMISSIONS,
    }
}

/// The code of a refusal.
pub fn code_of_refusal(refusal: Refusal) -> u32
    ensures { result ≡ code_of_refusal refusal }
{
    match refusal {
        Refusal::Version => code::VHOST_VERSION,
        Refusal::Direction => code::VHOST_DIRECTION,
        Refusal::Request => code::VHOST_REQUEST,
        Refusal::PayloadSize => code::VHOST_PAYLOAD_SIZE,
        Refusal::Descriptors => code::VHOST_DESCRIPTORS,
        Refusal::NotNegotiated => code::VHOST_NOT_NEGOTIATED,
        Refusal::Features => code::VHOST_FEATURES,
        Refusal::Index => code::VHOST_INDEX,
        Refusal::QueueSize => code::VHOST_QUEUE_SIZE,
        Refusal::Base => code::VHOST_BASE,
        Refusal::Flags => code::VHOST_FLAGS,
        Refusal::Alignment => code::VHOST_ALIGNMENT,
        Refusal::Started => code::VHOST_STARTED,
        Refusal::RegionRange => code::VHOST_REGION_RANGE,
        Refusal::RegionOverlap => code::VHOST_REGION_OVERLAP,
        Refusal::ConfigRange => code::VHOST_CONFIG_RANGE,
        Refusal::ConfigReadOnly => code::VHOST_CONFIG_READ_ONLY,
        Refusal::Iotlb(malformed) => code_of_malformed(malformed),
    }
}

pub(crate) fn code_of_step(step: Result<(), Refusal>) -> u32
    ensures { result ≡ code_of_step step }
{
    match step {
        Ok(()) => code::DONE,
        Err(refusal) => code_of_refusal(refusal),
    }
}

pub(crate) fn code_of_not_running(reason: NotRunning) -> u32
    ensures { result ≡ code_of_not_running reason }
{
    match reason {
        NotRunning::Index => code::VHOST_INDEX,
        NotRunning::Stopped => code::VHOST_STOPPED,
        NotRunning::Disabled => code::VHOST_DISABLED,
        NotRunning::NoSize => code::VHOST_NO_SIZE,
        NotRunning::NoAddress => code::VHOST_NO_ADDRESS,
        NotRunning::UserAddress => code::VHOST_USER_ADDRESS,
    }
}
