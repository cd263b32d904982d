//! Lists that clauses see as lists, whatever the capacity of their vectors.

pub use vm_memory_base::{ByteList, Items};
use vm_memory_base::{MappedRange, SinkStep, SourceStep};

/// Numbers of a pool or of a list of a machine.
pub type NumberList = Items<usize>;

/// What a source does at its tries.
pub type SourceList = Items<SourceStep>;

/// What a sink does at its tries.
pub type SinkList = Items<SinkStep>;

/// Ranges that I/O addresses lead to, in order.
pub type PieceList = Items<MappedRange>;
