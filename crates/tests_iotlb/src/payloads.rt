//! The bytes of messages, written here by themselves.

use std::alloc::Global;
use std::test::Fail;

/// The fields of a payload.
#[derive(Clone, Copy)]
pub struct Parts {
    pub iova: u64,
    pub size: u64,
    pub user: u64,
    pub permissions: u8,
    pub kind: u8,
}

/// Appends a header to other bytes.
pub fn put_header(out: &mut Vec<u8>, request: u32, flags: u32, size: u32) -> Result<(), Fail> {
    out.extend_from_slice(&request.to_le_bytes())?;
    out.extend_from_slice(&flags.to_le_bytes())?;
    out.extend_from_slice(&size.to_le_bytes())?;
    Ok(())
}

// Appends a payload to other bytes. Its last six bytes mean nothing.
fn put_payload(out: &mut Vec<u8>, parts: Parts) -> Result<(), Fail> {
    out.extend_from_slice(&parts.iova.to_le_bytes())?;
    out.extend_from_slice(&parts.size.to_le_bytes())?;
    out.extend_from_slice(&parts.user.to_le_bytes())?;
    out.extend_from_slice(&[parts.permissions, parts.kind, 9, 8, 7, 6, 5, 4])?;
    Ok(())
}

/// Appends a message of the front end to other bytes.
pub fn put_message(out: &mut Vec<u8>, flags: u32, parts: Parts) -> Result<(), Fail> {
    put_header(out, 22, flags, 32)?;
    put_payload(out, parts)
}

/// The payload of these fields, if it has 32 bytes.
pub fn payload_of(alloc: Global, parts: Parts) -> Result<[u8; 32], Fail> {
    let mut bytes = Vec::new(alloc);
    put_payload(&mut bytes, parts)?;
    let mut payload = [0; 32];
    if bytes.len() != payload.len() {
        return Err(Fail::new("the payload does not have 32 bytes"));
    }
    payload.copy_from_slice(bytes.as_slice());
    Ok(payload)
}
