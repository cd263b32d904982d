//! Each message, and each way in which one is malformed.

use crate::payloads::{Parts, payload_of};
use std::alloc::Global;
use std::test::Fail;
use test_text::expect_text;
use vhost_message::{BackendReply, Header, IotlbMessage, Malformed};
use vm_memory_base::Permissions;

const MAX: u64 = u64::MAX;

// The fields of a payload, and what it is.
static CASES: [((u64, u64, u64, u8, u8), &str); 27] = [
    (
        (0x1122_3344_5566_7788, 5, 6, 1, 1),
        "miss 1122334455667788 Read",
    ),
    ((0, 0, 0, 2, 1), "miss 0 Write"),
    ((MAX, MAX, MAX, 3, 1), "miss ffffffffffffffff ReadWrite"),
    ((1, 0, 0, 0, 1), "Permissions"),
    ((1, 0, 0, 4, 1), "Permissions"),
    (
        (0x1000, 0x2000, 0x7fff_0000_1000, 1, 2),
        "update 1000 2000 7fff00001000 Read",
    ),
    (
        (0, MAX, MAX, 2, 2),
        "update 0 ffffffffffffffff ffffffffffffffff Write",
    ),
    (
        (0x1_0000_0000, 0x1_0000_0001, 1, 3, 2),
        "update 100000000 100000001 1 ReadWrite",
    ),
    ((0x1000, 0, 1, 3, 2), "EmptyRange"),
    ((1, MAX, 1, 3, 2), "Range"),
    ((MAX, 1, 1, 3, 2), "Range"),
    ((MAX, 1, 1, 0, 2), "Range"),
    ((0x1000, 0x1000, 1, 0, 2), "Permissions"),
    ((0x1000, 0x1000, 1, 5, 2), "Permissions"),
    ((0x1000, 0x1000, 1, 255, 2), "Permissions"),
    ((0x1000, 0x1000, 1, 3, 3), "invalidate 1000 1000"),
    ((0x1000, 0x1000, MAX, 0, 3), "invalidate 1000 1000"),
    ((0x1000, 0x1000, MAX, 255, 3), "invalidate 1000 1000"),
    ((0, MAX, 0, 0, 3), "invalidate 0 ffffffffffffffff"),
    ((5, 0, 0, 0, 3), "invalidate 5 0"),
    ((2, MAX, 0, 0, 3), "invalidate 2 ffffffffffffffff"),
    ((7, 8, 9, 2, 4), "fail 7 Write"),
    ((7, 8, 9, 0, 4), "Permissions"),
    ((7, 8, 9, 1, 0), "Kind"),
    ((7, 8, 9, 1, 5), "Kind"),
    ((7, 8, 9, 1, 128), "Kind"),
    ((7, 8, 9, 1, 255), "Kind"),
];

fn told(alloc: Global, decoded: Result<IotlbMessage, Malformed>) -> Result<String, Fail> {
    let text = match decoded {
        Ok(IotlbMessage::Miss { iova, access }) => format!(in alloc; "miss {iova:x} {access:?}")?,
        Ok(
            IotlbMessage::Update {
                iova,
                size,
                user_address,
                permissions,
            },
        ) => format!(in alloc; "update {iova:x} {size:x} {user_address:x} {permissions:?}")?,
        Ok(IotlbMessage::Invalidate { iova, size }) => {
            format!(in alloc; "invalidate {iova:x} {size:x}")?
        }
        Ok(IotlbMessage::AccessFail { iova, access }) => {
            format!(in alloc; "fail {iova:x} {access:?}")?
        }
        Err(error) => format!(in alloc; "{error:?}")?,
    };
    Ok(text)
}

#[test]
fn payloads_are_decoded(rt: HostRuntime) -> Result<(), Fail> {
    let alloc = rt.alloc();
    for (case, ((iova, size, user, permissions, kind), wanted)) in CASES.iter().enumerate() {
        let parts = Parts {
            iova: *iova,
            size: *size,
            user: *user,
            permissions: *permissions,
            kind: *kind,
        };
        let payload = payload_of(alloc, parts)?;
        let decoded = IotlbMessage::decode(&payload);
        expect_text(case, told(alloc, decoded)?.as_str(), wanted)?;
        // What is encoded again is decoded again.
        if let Ok(message) = decoded {
            let again = IotlbMessage::decode(&message.encode());
            expect_text(case, told(alloc, again)?.as_str(), wanted)?;
        }
    }
    Ok(())
}

// Messages with their bytes, written by hand.
const BYTES: [(IotlbMessage, [u8; 32]); 4] = [
    (
        IotlbMessage::Miss {
            iova: 0x0102_0304_0506_0708,
            access: Permissions::Read,
        },
        [
            8, 7, 6, 5, 4, 3, 2, 1, 0, 0, 0, 0, 0, 0, 0, 0, 0, 0, 0, 0, 0, 0, 0, 0, 1, 1, 0, 0, 0,
            0, 0, 0,
        ],
    ),
    (
        IotlbMessage::Update {
            iova: 0x1000,
            size: 0x2_0000_0000,
            user_address: 0x7fff_1234_5678,
            permissions: Permissions::ReadWrite,
        },
        [
            0, 16, 0, 0, 0, 0, 0, 0, 0, 0, 0, 0, 2, 0, 0, 0, 0x78, 0x56, 0x34, 0x12, 0xff, 0x7f, 0,
            0, 3, 2, 0, 0, 0, 0, 0, 0,
        ],
    ),
    (
        IotlbMessage::Invalidate {
            iova: 1,
            size: 0xff00,
        },
        [
            1, 0, 0, 0, 0, 0, 0, 0, 0, 255, 0, 0, 0, 0, 0, 0, 0, 0, 0, 0, 0, 0, 0, 0, 0, 3, 0, 0,
            0, 0, 0, 0,
        ],
    ),
    (
        IotlbMessage::AccessFail {
            iova: 255,
            access: Permissions::Write,
        },
        [
            255, 0, 0, 0, 0, 0, 0, 0, 0, 0, 0, 0, 0, 0, 0, 0, 0, 0, 0, 0, 0, 0, 0, 0, 2, 4, 0, 0,
            0, 0, 0, 0,
        ],
    ),
];

#[test]
fn messages_have_these_bytes(rt: HostRuntime) -> Result<(), Fail> {
    for (message, wanted) in BYTES {
        assert_eq!(rt; message.encode().as_slice(), wanted.as_slice());
    }
    let header = Header {
        request: 22,
        flags: 0x0102_0309,
        size: 32,
    };
    let bytes = [22, 0, 0, 0, 9, 3, 2, 1, 32, 0, 0, 0];
    assert_eq!(rt; header.encode().as_slice(), bytes.as_slice());
    assert_eq!(rt; Header::decode(&bytes), header);
    assert_eq!(rt; header.version(), 1);
    assert!(rt; header.needs_reply() && !header.is_reply());
    let header = Header {
        request: 1,
        flags: 5,
        size: 8,
    };
    let reply = BackendReply::decode(&header, &[0, 2, 0, 0, 0, 0, 0, 128])?;
    assert_eq!(rt; reply.value, 0x8000_0000_0000_0200);
    Ok(())
}
