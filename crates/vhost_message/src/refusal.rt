//! Why messages are refused.

use thiserror::Error;

/// Why a message on a device's I/O table is malformed.
#[derive(Clone, Copy, Debug, PartialEq, Eq, Error)]
pub enum Malformed {
    /// No kind of messages has this number, or the other end is the one to send it.
    #[error("unknown kind of message")]
    Kind,
    /// A range that is mapped or invalidated has addresses.
    #[error("empty range")]
    EmptyRange,
    /// A range that is mapped ends past 2^64 - 1, or one that is invalidated past 2^64.
    #[error("range past the last address")]
    Range,
    /// The permissions are empty or invalid.
    #[error("no permissions")]
    Permissions,
}

/// Why a message is refused. It changes nothing.
#[derive(Clone, Copy, Debug, PartialEq, Eq, Error)]
pub enum Refusal {
    /// The two lowest bits of the flags are not 1.
    #[error("unknown version")]
    Version,
    /// It is a reply, and a request is due, or the other way round.
    #[error("a reply for a request, or a request for a reply")]
    Direction,
    /// No request that a back end serves has this number.
    #[error("unknown request")]
    Request,
    /// The payload is not as long as the request has it.
    #[error("invalid size of the payload")]
    PayloadSize,
    /// The request does not come with this number of descriptors.
    #[error("invalid number of descriptors")]
    Descriptors,
    /// The feature that the request belongs to was not negotiated.
    #[error("feature not negotiated")]
    NotNegotiated,
    /// Features that were not offered.
    #[error("features not offered")]
    Features,
    /// There is no ring of this number, or there are not so many.
    #[error("no such ring")]
    Index,
    /// A ring has one descriptor or more, and at most as many as were offered.
    #[error("invalid size of a ring")]
    QueueSize,
    /// A split ring cannot have this index.
    #[error("invalid index of a ring")]
    Base,
    /// A flag or a switch without a meaning.
    #[error("invalid flags")]
    Flags,
    /// A part of a ring is not aligned: to 16 bytes the descriptor table, to 2 the available ring, to 4 the used ring.
    #[error("misaligned ring")]
    Alignment,
    /// This must not change while a ring is started.
    #[error("ring is started")]
    Started,
    /// A region has no bytes or too few, or passes the last address.
    #[error("invalid region")]
    RegionRange,
    /// Two regions have guest addresses in common.
    #[error("regions overlap")]
    RegionOverlap,
    /// The configuration does not have these bytes.
    #[error("range past the configuration")]
    ConfigRange,
    /// A front end must not write these bytes of the configuration.
    #[error("configuration is read only")]
    ConfigReadOnly,
    /// A message on the device's I/O table is malformed.
    #[error("malformed message on the table: {0}")]
    Iotlb(Malformed),
}
