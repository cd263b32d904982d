//! The state of a ring.
ghost use Rattle.std.specs.Prelude.{◌≡◌};
ghost use Rattle.vhost_user.specs.Vring.{available_len, event_len, is_aligned, is_placed_as, is_started, new_vring};
ghost use Rattle.vhost_user.specs.Vring.{notifier_of, table_len, used_len};

use crate::features::{VIRTIO_F_RING_EVENT_IDX, VIRTIO_F_RING_PACKED, has};
use vhost_message::VringAddr;

/// How one end of a ring notifies the other.
#[derive(Clone, Copy, Debug, PartialEq, Eq)]
pub enum Notifier {
    /// No message said so.
    Unset,
    /// Not at all: the other end has to poll.
    Polled,
    /// By the descriptor that came last.
    Descriptor,
}

// What a message with or without a descriptor says.
pub(crate) fn notifier_of(descriptor: bool) -> Notifier
    ensures { result ≡ notifier_of descriptor }
{
    if descriptor {
        Notifier::Descriptor
    } else {
        Notifier::Polled
    }
}

/// What a front end said of a ring.
#[derive(Clone, Copy, Debug)]
pub struct Vring {
    /// How many descriptors it has. 0: no message said so.
    pub num: u32,
    /// The index of the next available descriptor: of a packed ring also its wrap counter and those of the used ring.
    pub base: u32,
    /// Where it lies.
    pub address: Option<VringAddr>,
    /// How the driver notifies the back end. A ring is started while this is set.
    pub kick: Notifier,
    /// How the back end notifies the driver.
    pub call: Notifier,
    /// How the back end reports an error.
    pub err: Notifier,
    /// Whether it was enabled last.
    pub enabled: bool,
}

/// A ring that is to be served. Its addresses are those of guest memory, or I/O addresses if
/// `VIRTIO_F_ACCESS_PLATFORM` was negotiated.
#[derive(Clone, Copy, Debug, PartialEq, Eq)]
pub struct RunningVring {
    /// How many descriptors it has.
    pub num: u32,
    /// The index of the next available descriptor, from which it was started.
    pub base: u32,
    /// The address of the descriptor table.
    pub descriptor: u64,
    /// The address of the used ring.
    pub used: u64,
    /// How many bytes the used ring has.
    pub used_len: u64,
    /// The address of the available ring.
    pub available: u64,
    /// The address in the log of the used ring, if writes to it are marked.
    pub log: Option<u64>,
    /// How the driver notifies the back end.
    pub kick: Notifier,
    /// How the back end notifies the driver.
    pub call: Notifier,
}

/// Why a ring is not to be served.
#[derive(Clone, Copy, Debug, PartialEq, Eq)]
pub enum NotRunning {
    /// There is no ring of this number.
    Index,
    /// No kick came since the last GET_VRING_BASE.
    Stopped,
    /// It is not enabled.
    Disabled,
    /// It has no size.
    NoSize,
    /// It has no addresses.
    NoAddress,
    /// The memory that the front end shares does not have the ring.
    UserAddress,
}

impl Vring {
    pub(crate) fn new() -> Vring
        ensures { result ≡ new_vring }
    {
        Vring {
            num: 0,
            base: 0,
            address: None,
            kick: Notifier::Unset,
            call: Notifier::Unset,
            err: Notifier::Unset,
            enabled: false,
        }
    }

    /// Whether it is started.
    pub fn is_started(&self) -> bool
        ensures { result ≡ is_started self.now }
    {
        match self.kick {
            Notifier::Unset => false,
            Notifier::Polled | Notifier::Descriptor => true,
        }
    }

    // Whether these are addresses of the same ring: nothing but the log may differ.
    pub(crate) fn is_placed_as(&self, new: &VringAddr) -> bool
        ensures { result ≡ is_placed_as self.now.address new.now }
    {
        match &self.address {
            Some(old) => {
                old.descriptor == new.descriptor
                    && old.used == new.used
                    && old.available == new.available
            }
            None => true,
        }
    }
}

// Whether each part is aligned as the device has to be able to rely on.
pub(crate) fn is_aligned(address: &VringAddr) -> bool
    ensures { result ≡ is_aligned address.now }
{
    address.descriptor % 16 == 0 && address.available % 2 == 0 && address.used % 4 == 0
}

// How many bytes the descriptor table of a ring of so many descriptors has.
pub(crate) fn table_len(num: u32) -> u64
    ensures { result ≡ table_len num }
{
    16 * num as u64
}

// How many bytes follow the entries of a split ring if these features were accepted.
fn event_len(features: u64) -> u64
    ensures { result ≡ event_len features }
{
    if has(features, VIRTIO_F_RING_EVENT_IDX) {
        2
    } else {
        0
    }
}

// How many bytes the available ring has.
pub(crate) fn available_len(features: u64, num: u32) -> u64
    ensures { result ≡ available_len features num }
{
    if has(features, VIRTIO_F_RING_PACKED) {
        return 4;
    }
    4 + 2 * num as u64 + event_len(features)
}

// How many bytes the used ring has.
pub(crate) fn used_len(features: u64, num: u32) -> u64
    ensures { result ≡ used_len features num }
{
    if has(features, VIRTIO_F_RING_PACKED) {
        return 4;
    }
    4 + 8 * num as u64 + event_len(features)
}
