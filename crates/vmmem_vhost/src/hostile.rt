//! Malformed messages.

use vhost_message::{
    Header, PAYLOAD_LEN, VERSION, VHOST_USER_IOTLB_MSG, VHOST_USER_NEED_REPLY, VHOST_USER_REPLY,
};

const MAX: u64 = u64::MAX;

// The fields of a payload: address, size, user address, permissions and kind.
type Fields = (u64, u64, u64, u8, u8);

// The fields of payloads. An address of 0 is that of the first page.
const CASES: [Fields; 14] = [
    (0, 0x1000, 0x7fff_4000_0000, 3, 0),
    (0, 0x1000, 0x7fff_4000_0000, 3, 1),
    (0, 0x1000, 0x7fff_4000_0000, 3, 4),
    (0, 0x1000, 0x7fff_4000_0000, 3, 5),
    (0, 0x1000, 0x7fff_4000_0000, 3, 255),
    (0, 0, 0x7fff_4000_0000, 3, 2),
    (0, 0, 0, 0, 3),
    (MAX, 1, 0x7fff_4000_0000, 3, 2),
    (MAX - 5, 0x1000, 0, 0, 3),
    (0, 0x1000, 0x7fff_4000_0000, 0, 2),
    (0, 0x1000, 0x7fff_4000_0000, 4, 2),
    (0, 0x1000, 0, 3, 2),
    (0, 0x1000, 0x7fff_4001_f001, 3, 2),
    (0, 0x1000, MAX, 3, 2),
];

// The fields of headers: request, flags and size, of a payload of an UPDATE.
const HEADERS: [(u32, u32, u32); 4] = [
    (99, VERSION, 32),
    (VHOST_USER_IOTLB_MSG, VERSION + 1, 32),
    (VHOST_USER_IOTLB_MSG, VERSION | VHOST_USER_REPLY, 32),
    (VHOST_USER_IOTLB_MSG, VERSION, 33),
];

// A payload of an UPDATE that the back end would apply.
const UPDATE: Fields = (0, 0x1000, 0x7fff_4000_0000, 3, 2);

// The bytes of a payload, of which the last six mean nothing.
fn payload_of(fields: Fields) -> [u8; PAYLOAD_LEN] {
    let (iova, len, user, y, z) = fields;
    let [a, b, c, d, e, f, g, h] = iova.to_le_bytes();
    let [i, j, k, l, m, n, o, p] = len.to_le_bytes();
    let [q, r, s, t, u, v, w, x] = user.to_le_bytes();
    [
        a, b, c, d, e, f, g, h, i, j, k, l, m, n, o, p, q, r, s, t, u, v, w, x, y, z, 1, 2, 3, 4,
        5, 6,
    ]
}

// The payload of these fields, where 0 is an address.
fn payload_at(fields: Fields, first: u64) -> [u8; PAYLOAD_LEN] {
    let (iova, len, user, permissions, kind) = fields;
    let address = if iova == 0 { first } else { iova };
    payload_of((address, len, user, permissions, kind))
}

/// The malformed message of a number, one after the other, with the I/O address of the first page.
pub fn malformed(number: u64, first: u64) -> (Header, [u8; PAYLOAD_LEN]) {
    let pick = (number % (CASES.len() + HEADERS.len()) as u64) as usize;
    if let Some(fields) = CASES.get(pick) {
        let header = Header {
            request: VHOST_USER_IOTLB_MSG,
            flags: VERSION | VHOST_USER_NEED_REPLY,
            size: PAYLOAD_LEN as u32,
        };
        return (header, payload_at(*fields, first));
    }
    let (request, flags, size) = HEADERS[pick.wrapping_sub(CASES.len()) % HEADERS.len()];
    let header = Header {
        request,
        flags: flags | VHOST_USER_NEED_REPLY,
        size,
    };
    (header, payload_at(UPDATE, first))
}
