//! Connections, row by row: what each message asks for or why it is refused, and what the reply is.

use crate::inflight_rows::{self, PACKED, SPLIT};
use crate::rows::{BOOT, CONFIG, END, FEATURES, IOMMU, LOGGING, PROTOCOL_FEATURES, Part, REFUSED};
use std::alloc::Global;
use std::test::Fail;
use test_text::expect_text;
use vhost_message::{FrontendReq, Header, Incoming, MemoryRegion, Refusal, VhostUserInflight};
use vhost_user::{BackendReqHandler, Offer, VIRTIO_F_RING_PACKED};

// Where a ring that is stopped goes on.
const BASE: u32 = 5;

const OFFER: Offer = Offer {
    features: FEATURES,
    protocol_features: PROTOCOL_FEATURES,
    max_queue_size: 1024,
    writable_from: 32,
    writable_len: 1,
};

fn put_region(text: &mut String, alloc: Global, region: &MemoryRegion) -> Result<(), Fail> {
    let guest = region.guest_address.0;
    let part = format!(in alloc;
        " {guest:x}+{:x}@{:x}:{:x}",
        region.size, region.user_address, region.mmap_offset
    )?;
    text.push_str(part.as_str())?;
    Ok(())
}

// What a message asks for. The contracts of a ring that stops are kept: it is said where it goes on.
fn told(
    alloc: Global,
    handler: &mut BackendReqHandler,
    asked: &Result<FrontendReq, Refusal>,
) -> Result<String, Fail> {
    match asked {
        Ok(FrontendReq::SetMemTable(table)) => {
            let mut text = format!(in alloc; "SetMemTable")?;
            for region in table.regions() {
                put_region(&mut text, alloc, region)?;
            }
            Ok(text)
        }
        Ok(FrontendReq::GetVringBase { index }) => {
            handler.stop(*index, BASE)?;
            Ok(format!(in alloc; "GetVringBase {{ index: {index} }}")?)
        }
        Ok(request) => Ok(format!(in alloc; "{request:?}")?),
        Err(refusal) => Ok(format!(in alloc; "refused {refusal:?}")?),
    }
}

// What comes of a message: what it asks for, and the answer.
fn outcome(
    alloc: Global,
    handler: &mut BackendReqHandler,
    bytes: &[u8],
    descriptors: usize,
) -> Result<String, Fail> {
    let Some((_, payload)) = bytes.split_at_checked(12) else {
        return Err(Fail::new("no header"));
    };
    let header = Header::at_front(bytes);
    let asked = handler.handle(&header, payload, descriptors);
    let text = told(alloc, handler, &asked)?;
    let answer = match &asked {
        Ok(request) => handler.reply(&header, request),
        Err(_) => handler.refuse(&header),
    };
    let answer = hex::encode(alloc, answer.as_slice())?;
    Ok(format!(in alloc; "{text}|{answer}")?)
}

// How a ring stands.
fn standing(alloc: Global, handler: &BackendReqHandler, index: u32) -> Result<String, Fail> {
    match handler.running(index) {
        Ok(vring) => Ok(format!(in alloc; "{vring:?}")?),
        Err(reason) => Ok(format!(in alloc; "{reason:?}")?),
    }
}

fn expect_part(alloc: Global, handler: &mut BackendReqHandler, part: &Part) -> Result<(), Fail> {
    for (case, (message, descriptors, wanted, answer)) in part.rows.iter().enumerate() {
        let bytes = hex::decode(alloc, *message)?;
        let text = outcome(alloc, handler, bytes.as_slice(), *descriptors)?;
        let wanted = format!(in alloc; "{wanted}|{answer}")?;
        expect_text(case, text.as_str(), wanted.as_str())?;
    }
    for (index, wanted) in (0..3u32).zip(part.running) {
        let text = standing(alloc, handler, index)?;
        expect_text(index as usize, text.as_str(), wanted)?;
    }
    Ok(())
}

#[test]
fn messages_are_done_or_refused(rt: HostRuntime) -> Result<(), Fail> {
    let alloc = rt.alloc();
    let mut handler = BackendReqHandler::new(alloc, OFFER, 2, &CONFIG)?;
    for part in [&BOOT, &LOGGING, &REFUSED, &END] {
        expect_part(alloc, &mut handler, part)?;
    }
    let mut handler = BackendReqHandler::new(alloc, OFFER, 2, &CONFIG)?;
    expect_part(alloc, &mut handler, &IOMMU)
}

// The last accepted region is kept, whatever is refused after it.
#[test]
fn regions_of_what_is_in_flight_are_shared(rt: HostRuntime) -> Result<(), Fail> {
    let alloc = rt.alloc();
    let offer = Offer {
        features: FEATURES | VIRTIO_F_RING_PACKED,
        protocol_features: inflight_rows::PROTOCOL_FEATURES,
        ..OFFER
    };
    let mut handler = BackendReqHandler::new(alloc, offer, 2, &CONFIG)?;
    assert!(rt; handler.inflight().is_none());
    expect_part(alloc, &mut handler, &SPLIT)?;
    let mut region = VhostUserInflight {
        mmap_size: 8192,
        mmap_offset: 4096,
        num_queues: 2,
        queue_size: 128,
    };
    assert!(rt; handler.inflight() == Some(region));
    expect_part(alloc, &mut handler, &PACKED)?;
    region.mmap_size = 8320;
    region.mmap_offset = u64::MAX - 8320;
    assert!(rt; handler.inflight() == Some(region));
    Ok(())
}

// Feeds a piece, and adds each message that is whole, and a line break.
fn feed_piece(
    alloc: Global,
    incoming: &mut Incoming,
    piece: &[u8],
    text: &mut String,
) -> Result<(), Fail> {
    let mut rest = piece;
    for _ in 0..2 * piece.len() + 1 {
        let count = incoming.feed(rest)?;
        rest = rest.get(count..).unwrap_or(&[]);
        if let Some(message) = incoming.take() {
            text.push_str(hex::encode(alloc, message.as_slice())?.as_str())?;
            text.push_str("\n")?;
        }
    }
    Ok(())
}

#[test]
fn messages_come_in_any_pieces(rt: HostRuntime) -> Result<(), Fail> {
    let alloc = rt.alloc();
    let mut stream = Vec::new(alloc);
    let mut wanted = String::new(alloc);
    for (message, _, _, _) in BOOT.rows {
        stream.extend_from_slice(hex::decode(alloc, *message)?.as_slice())?;
        wanted.push_str(*message)?;
        wanted.push_str("\n")?;
    }
    for len in [1, 2, 3, 5, 11, 12, 13, 20, 21, 100, 281, 4096] {
        let mut incoming = Incoming::new();
        let mut text = String::new(alloc);
        for piece in stream.as_slice().chunks(len) {
            feed_piece(alloc, &mut incoming, piece, &mut text)?;
        }
        expect_text(len, text.as_str(), wanted.as_str())?;
    }
    Ok(())
}
