//! Stores to the region of a queue.

/// A number, with its lowest byte first.
#[derive(Clone, Copy, Debug, PartialEq, Eq)]
pub enum Value {
    Byte(u8),
    Word(u16),
    Quad(u64),
}

/// A store to the region of a queue: one aligned store of a number.
#[derive(Clone, Copy, Debug, PartialEq, Eq)]
pub struct Store {
    /// Where it begins, in bytes.
    pub offset: usize,
    /// What is stored.
    pub value: Value,
}
