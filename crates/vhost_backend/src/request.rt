//! Requests that are under way.

/// What a chain of descriptors is returned by.
#[derive(Clone, Copy, Debug)]
pub struct Chain {
    /// Its head, or the id of its buffer in a packed ring.
    pub id: u16,
    /// How many slots of the ring it took.
    pub slots: u16,
}

/// How a part of a request ended.
#[derive(Clone, Copy, Debug)]
pub enum PartEnd {
    /// The number of bytes that were moved.
    Moved(u32),
    /// It could not be done.
    Failed,
}

/// A request whose parts are served one after another.
#[derive(Clone, Copy, Debug)]
pub struct Request {
    /// How many slots of the ring its chain took.
    pub slots: u16,
    /// How many parts have not ended. One of them is being served.
    pub left: u32,
    /// How many bytes the parts that ended have moved.
    pub moved: u64,
}
