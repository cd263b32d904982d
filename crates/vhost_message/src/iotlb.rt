//! Messages on a device's I/O table, as payloads.
ghost use Rattle.std.specs.Prelude.{◌≡◌, ◌≤◌, length, take, drop, IfOk, Ok};
ghost use Rattle.std.specs.Int.{w64, from_le_bytes};
ghost use Rattle.vhost_message.specs.Iotlb.{IsMessage, Spells, fields_in, fields_of, message_in, number_of};
ghost use Rattle.vhost_message.specs.Iotlb.{payload_bytes, permissions_in, range_in};
ghost use Rattle.vhost_message.specs.declared.iotlb.IotlbMessage.{IotlbMessage};

use crate::numbers::number;
use crate::refusal::Malformed;
use vm_memory_base::Permissions;

/// How many bytes a payload has.
pub const PAYLOAD_LEN: usize = 32;

const MISS: u8 = 1;

const UPDATE: u8 = 2;

const INVALIDATE: u8 = 3;

const ACCESS_FAIL: u8 = 4;

/// A message on a device's I/O table.
#[derive(Clone, Copy, Debug, PartialEq, Eq)]
pub enum IotlbMessage {
    /// The back end has no mapping of an address for this access.
    Miss {
        iova: u64,
        access: Permissions,
    },
    /// The front end maps `size` addresses from `iova` on to those of its own memory from `user_address` on.
    Update {
        iova: u64,
        size: u64,
        user_address: u64,
        permissions: Permissions,
    },
    /// The front end invalidates the mappings of `size` addresses from `iova` on. The last may be 2^64 - 1, and both
    /// numbers are 0 for all addresses.
    Invalidate {
        iova: u64,
        size: u64,
    },
    /// The mapping of an address forbids this access of the back end.
    AccessFail {
        iova: u64,
        access: Permissions,
    },
}

// The fields of a payload.
#[derive(Clone, Copy)]
struct Fields {
    iova: u64,
    size: u64,
    user_address: u64,
    permissions: u8,
    kind: u8,
}

fn fields_in(bytes: &[u8; PAYLOAD_LEN]) -> Fields
    ensures { result ≡ fields_in bytes.now }
{
    Fields {
        iova: number(bytes, 0),
        size: number(bytes, 8),
        user_address: number(bytes, 16),
        permissions: bytes[24],
        kind: bytes[25],
    }
}

fn payload_bytes(fields: Fields) -> [u8; PAYLOAD_LEN]
    ensures { result ≡ payload_bytes fields }
{
    let [a, b, c, d, e, f, g, h] = fields.iova.to_le_bytes();
    let [i, j, k, l, m, n, o, p] = fields.size.to_le_bytes();
    let [q, r, s, t, u, v, w, x] = fields.user_address.to_le_bytes();
    let y = fields.permissions;
    let z = fields.kind;
    [
        a, b, c, d, e, f, g, h, i, j, k, l, m, n, o, p, q, r, s, t, u, v, w, x, y, z, 0, 0, 0, 0,
        0, 0,
    ]
}

fn number_of(permissions: Permissions) -> u8
    ensures { result ≡ number_of permissions }
{
    match permissions {
        Permissions::No => 0,
        Permissions::Read => 1,
        Permissions::Write => 2,
        Permissions::ReadWrite => 3,
    }
}

fn permissions_in(number: u8) -> Result<Permissions, Malformed>
    ensures { result ≡ permissions_in number }
{
    match number {
        1 => Ok(Permissions::Read),
        2 => Ok(Permissions::Write),
        3 => Ok(Permissions::ReadWrite),
        _ => Err(Malformed::Permissions),
    }
}

// Whether the range of an UPDATE has addresses, and its end is one.
fn range_in(iova: u64, size: u64) -> Result<(), Malformed>
    ensures { result ≡ range_in iova size }
{
    if size == 0 {
        return Err(Malformed::EmptyRange);
    }
    if iova.checked_add(size).is_none() {
        return Err(Malformed::Range);
    }
    Ok(())
}

#[tactic(auto, unfolding(crate::specs::Iotlb::message_in))]
fn message_in(fields: Fields) -> Result<IotlbMessage, Malformed>
    ensures { result ≡ message_in fields }
{
    let Fields {
        iova,
        size,
        user_address,
        permissions,
        kind,
    } = fields;
    match kind {
        MISS => {
            let access = permissions_in(permissions)?;
            Ok(IotlbMessage::Miss { iova, access })
        }
        UPDATE => {
            range_in(iova, size)?;
            let permissions = permissions_in(permissions)?;
            Ok(IotlbMessage::Update {
                iova,
                size,
                user_address,
                permissions,
            })
        }
        INVALIDATE => Ok(IotlbMessage::Invalidate { iova, size }),
        ACCESS_FAIL => {
            let access = permissions_in(permissions)?;
            Ok(IotlbMessage::AccessFail { iova, access })
        }
        _ => Err(Malformed::Kind),
    }
}

impl IotlbMessage {
    /// The message of this payload: each message has its own. `Kind` if no kind has its number, `EmptyRange` and
    /// `Range` for the range of an UPDATE, and `Permissions` if a message has none although it needs some. Any two
    /// numbers make an INVALIDATE, since the table has to hear of it: `DeviceTable::apply` tests its range.
    pub fn decode(payload: &[u8; PAYLOAD_LEN]) -> Result<IotlbMessage, Malformed>
        // What is decoded is spelled so.
        ensures found { IfOk result (λ m. Spells (fields_in payload.now) m) }
        // What is spelled so is decoded.
        ensures only { (m : IotlbMessage) → Spells (fields_in payload.now) m → result ≡ Ok m }
        // Which fault it is.
        ensures exact { result ≡ message_in (fields_in payload.now) }
    {
        message_in(fields_in(payload))
    }

    // The fields of its payload.
    fn fields(self) -> Fields
        ensures { result ≡ fields_of self }
    {
        match self {
            IotlbMessage::Miss { iova, access } => Fields {
                iova,
                size: 0,
                user_address: 0,
                permissions: number_of(access),
                kind: MISS,
            },
            IotlbMessage::Update {
                iova,
                size,
                user_address,
                permissions,
            } => Fields {
                iova,
                size,
                user_address,
                permissions: number_of(permissions),
                kind: UPDATE,
            },
            IotlbMessage::Invalidate { iova, size } => Fields {
                iova,
                size,
                user_address: 0,
                permissions: 0,
                kind: INVALIDATE,
            },
            IotlbMessage::AccessFail { iova, access } => Fields {
                iova,
                size: 0,
                user_address: 0,
                permissions: number_of(access),
                kind: ACCESS_FAIL,
            },
        }
    }

    /// Its payload: fields that mean nothing are 0. `decode` gives the message again, unless it is an UPDATE whose
    /// range is empty or passes the last address, or it has no permissions although it needs some.
    pub fn encode(self) -> [u8; PAYLOAD_LEN]
        ensures bytes { result ≡ payload_bytes (fields_of self) }
        ensures spelled { IsMessage self → Spells (fields_in result) self }
    {
        payload_bytes(self.fields())
    }
}
