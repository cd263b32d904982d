//! How a message on the device's I/O table changes that.
ghost use Rattle.std.specs.Prelude.{◌≡◌};
ghost use Rattle.vhost_iotlb.specs.Changes.{call_of, guest_asked};
ghost use Rattle.vhost_backend.specs.TableChange.{change_by, change_in};

use std::marker::Model;
use vhost_iotlb::{Change, change_of};
use vhost_message::{FrontendReq, IotlbMessage, MemoryRegion, Refusal, guest_of};
use vm_memory_base::GuestAddress;

/// A change of the table, whose range ends at an address.
#[derive(Clone, Copy, Debug)]
pub struct TableChange {
    change: Change,
}

impl Model for TableChange {
    ghost use Rattle.vhost_iotlb.specs.Kept.{Fits};
    ghost use Rattle.vhost_iotlb.specs.declared.kept.Change.{Change};

    ghost Value = { Change };

    ghost view = { λ t. t.change };

    ghost invariant = { λ t. Fits t.change };

    ghost inverse = { λ c. record { change = c } };
}

impl TableChange {
    ghost use Rattle.vhost_iotlb.specs.Kept.{Fits};

    /// The change.
    pub fn get(&self) -> &Change
        ensures same { result.now ≡ self.now }
        ensures fits { Fits self.now }
    {
        &self.change
    }
}

// Where the range of an UPDATE lies in guest memory.
fn guest_asked(regions: &[MemoryRegion], message: &IotlbMessage) -> Option<GuestAddress>
    ensures { result ≡ guest_asked regions.now message.now }
{
    match message {
        IotlbMessage::Update {
            size,
            user_address,
            ..
        } => guest_of(regions, *user_address, *size),
        _ => None,
    }
}

// The change that a message of the front end asks for.
fn change_by(regions: &[MemoryRegion], message: &IotlbMessage) -> Option<TableChange>
    ensures { result ≡ change_by (call_of regions.now message.now) }
{
    match change_of(message, guest_asked(regions, message)) {
        Ok(change) => Some(TableChange { change }),
        Err(_) => None,
    }
}

// The change that a request asks for, if it is one on the table, and the announced memory has what it maps.
pub(crate) fn change_in(
    regions: &[MemoryRegion],
    asked: &Result<FrontendReq, Refusal>,
) -> Option<TableChange>
    ensures { result ≡ change_in regions.now asked.now }
{
    match asked {
        Ok(FrontendReq::IotlbMsg(message)) => change_by(regions, message),
        _ => None,
    }
}
