//! The features that the protocol itself uses, each as the number that has its bit.
ghost use Rattle.std.specs.Prelude.{◌≡◌};
ghost use Rattle.vhost_user.specs.Features.{has};

/// The feature of a log of writes to guest memory.
pub const VHOST_F_LOG_ALL: u64 = 1 << 26;

/// The feature of event indices.
pub const VIRTIO_F_RING_EVENT_IDX: u64 = 1 << 29;

/// The feature of protocol features, with which a ring is served only after it is enabled.
pub const VHOST_USER_F_PROTOCOL_FEATURES: u64 = 1 << 30;

/// The feature of I/O addresses for rings and buffers.
pub const VIRTIO_F_ACCESS_PLATFORM: u64 = 1 << 33;

/// The feature of packed rings.
pub const VIRTIO_F_RING_PACKED: u64 = 1 << 34;

/// The protocol feature of a back end that says how many rings it has.
pub const VHOST_USER_PROTOCOL_F_MQ: u64 = 1 << 0;

/// The protocol feature of a log in a file that the front end shares.
pub const VHOST_USER_PROTOCOL_F_LOG_SHMFD: u64 = 1 << 1;

/// The protocol feature of messages that ask for a reply.
pub const VHOST_USER_PROTOCOL_F_REPLY_ACK: u64 = 1 << 3;

/// The protocol feature of the back end's own channel.
pub const VHOST_USER_PROTOCOL_F_BACKEND_REQ: u64 = 1 << 5;

/// The protocol feature of the device's configuration over the channel.
pub const VHOST_USER_PROTOCOL_F_CONFIG: u64 = 1 << 9;

/// The protocol feature of a region in which a back end keeps what is in flight.
pub const VHOST_USER_PROTOCOL_F_INFLIGHT_SHMFD: u64 = 1 << 12;

/// The protocol features that a back end may offer.
pub const PROTOCOL_FEATURES: u64 = 0x122b;

// Whether a feature is among some.
#[inline]
pub(crate) fn has(features: u64, feature: u64) -> bool
    ensures { result ≡ has features feature }
{
    features & feature != 0
}
