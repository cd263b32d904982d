//! Why what came was refused.

use thiserror::Error;

/// Why a receiver refused what came. The sender gets it as a number of 32 bits, the place in this list from 1.
#[derive(Clone, Copy, Debug, PartialEq, Eq, Error)]
pub enum Refusal {
    /// The stream does not begin with the magic word.
    #[error("no migration stream")]
    Magic,
    /// The version is not supported.
    #[error("unknown version")]
    Version,
    /// There are more blocks than a header may list.
    #[error("too many blocks")]
    BlockCount,
    /// A block has 1 to 2^63 - 1 bytes.
    #[error("invalid length of a block")]
    BlockLength,
    /// A page has 1 to 2^20 bytes.
    #[error("invalid page size")]
    PageSize,
    /// A block begins before the end of the block before it, or ends past the last address.
    #[error("invalid place of a block")]
    Place,
    /// The blocks, or they and the sections, cost more than the receiver's limit.
    #[error("more memory than is allowed")]
    TooMuchMemory,
    /// No kind of frames has this number.
    #[error("unknown kind of frame")]
    FrameKind,
    /// A frame is longer or shorter than its kind and the header let it be.
    #[error("invalid length of a frame")]
    FrameLength,
    /// The header lists no such block.
    #[error("no such block")]
    Block,
    /// A page lies past the end of its block.
    #[error("no such page")]
    Page,
    /// The bytes of a frame are not whole pages, and do not end where their block does.
    #[error("cut page")]
    CutPage,
    /// The frame is out of order.
    #[error("frame out of order")]
    Order,
    /// The digest is not that of the stream so far.
    #[error("wrong digest")]
    Digest,
    /// The stream ended too early.
    #[error("stream ended")]
    Ended,
    /// Reading the stream failed.
    #[error("stream failed")]
    Failed,
    /// An allocation failed.
    #[error("out of memory")]
    Memory,
    /// The header asks for what this version has not.
    #[error("unknown options")]
    Options,
}
