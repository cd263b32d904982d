//! The codes of calls.

/// The call did what it asks for.
pub const DONE: u32 = 0;

/// No region has this number.
pub const NO_SUCH: u32 = 1;

/// An allocation failed.
pub const MEMORY: u32 = 3;

/// Why the message on an I/O table that a front end sent is malformed: its kind, an empty range, a range past the last
/// address, or its permissions.
pub const MESSAGE_KIND: u32 = 57;

pub const MESSAGE_EMPTY_RANGE: u32 = 58;

pub const MESSAGE_RANGE: u32 = 59;

pub const MESSAGE_PERMISSIONS: u32 = 60;

/// No back end offers this.
pub const VHOST_OFFER: u32 = 100;

/// The message ends in its header.
pub const VHOST_HEADER: u32 = 101;

/// Why a message is refused: the names are those of `vhost_message::Refusal`.
pub const VHOST_VERSION: u32 = 102;

pub const VHOST_DIRECTION: u32 = 103;

pub const VHOST_REQUEST: u32 = 104;

pub const VHOST_PAYLOAD_SIZE: u32 = 105;

pub const VHOST_DESCRIPTORS: u32 = 106;

pub const VHOST_NOT_NEGOTIATED: u32 = 107;

pub const VHOST_FEATURES: u32 = 108;

/// There is no ring of this number: a message is refused, or the ring is not to be served.
pub const VHOST_INDEX: u32 = 109;

pub const VHOST_QUEUE_SIZE: u32 = 110;

pub const VHOST_BASE: u32 = 111;

pub const VHOST_FLAGS: u32 = 112;

pub const VHOST_ALIGNMENT: u32 = 113;

pub const VHOST_STARTED: u32 = 114;

pub const VHOST_REGION_RANGE: u32 = 115;

pub const VHOST_REGION_OVERLAP: u32 = 116;

pub const VHOST_CONFIG_RANGE: u32 = 117;

pub const VHOST_CONFIG_READ_ONLY: u32 = 118;

/// Why a ring is not to be served: the names are those of `vhost_user::NotRunning`.
pub const VHOST_STOPPED: u32 = 120;

pub const VHOST_DISABLED: u32 = 121;

pub const VHOST_NO_SIZE: u32 = 122;

pub const VHOST_NO_ADDRESS: u32 = 123;

pub const VHOST_USER_ADDRESS: u32 = 124;

/// The log of dirty pages has no bit for a page.
pub const VHOST_LOG: u32 = 125;
