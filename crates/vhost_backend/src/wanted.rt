//! What a message that took effect asks for beyond the protocol's state.
ghost use Rattle.std.specs.Prelude.{◌≡◌};
ghost use Rattle.vhost_backend.specs.Wanted.{wanted_of};

use vhost_message::{FrontendReq, VhostUserInflight};

/// What a descriptor that comes with a message is for.
#[derive(Clone, Copy, Debug, PartialEq, Eq)]
pub enum Purpose {
    /// The driver notifies by it.
    Kick(u32),
    /// The driver is interrupted by it.
    Call(u32),
    /// The front end is told by it that a ring broke.
    Error(u32),
    /// It is the back end's own channel.
    Channel,
    /// The front end is told by it that the log was written.
    LogCall,
}

/// What a message that took effect asks for.
#[derive(Clone, Copy, Debug, PartialEq, Eq)]
pub enum Wanted {
    /// No message took effect, or it was finished.
    Nothing,
    /// What was mapped goes, and each region of the memory is mapped.
    Memory,
    /// The log is mapped: so many bytes of a file, from an offset on.
    Log { size: u64, offset: u64 },
    /// A file is made for a region of requests in flight, which goes with the reply.
    File(VhostUserInflight),
    /// The region of requests in flight is mapped: so many bytes of a file, from an offset on.
    Region { size: u64, offset: u64 },
    /// A descriptor is kept for a use in place of the one before, or none is.
    Descriptor(Purpose, bool),
    /// The base of a ring is replied.
    Base(u32),
    /// The table is changed.
    Table,
    /// It asks for nothing more.
    Finish,
}

pub(crate) fn wanted_of(request: &FrontendReq) -> Wanted
    ensures { result ≡ wanted_of request.now }
{
    match request {
        FrontendReq::SetMemTable(_) => Wanted::Memory,
        FrontendReq::SetLogBase { size, offset } => Wanted::Log {
            size: *size,
            offset: *offset,
        },
        FrontendReq::GetInflightFd(asked) => Wanted::File(*asked),
        FrontendReq::SetInflightFd(region) => Wanted::Region {
            size: region.mmap_size,
            offset: region.mmap_offset,
        },
        FrontendReq::SetVringKick { index, descriptor } => {
            Wanted::Descriptor(Purpose::Kick(*index), *descriptor)
        }
        FrontendReq::SetVringCall { index, descriptor } => {
            Wanted::Descriptor(Purpose::Call(*index), *descriptor)
        }
        FrontendReq::SetVringErr { index, descriptor } => {
            Wanted::Descriptor(Purpose::Error(*index), *descriptor)
        }
        FrontendReq::SetBackendReqFd => Wanted::Descriptor(Purpose::Channel, true),
        FrontendReq::SetLogFd => Wanted::Descriptor(Purpose::LogCall, true),
        FrontendReq::GetVringBase { index } => Wanted::Base(*index),
        FrontendReq::IotlbMsg(_) => Wanted::Table,
        _ => Wanted::Finish,
    }
}
