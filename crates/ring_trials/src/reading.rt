//! What the slow readings of both kinds share.

use crate::draws::Image;
use vm_memory_device::Segment;

/// The number of `count` bytes at an address, or why it cannot be read.
pub fn number(image: &Image, addr: u64, count: u64) -> Result<u64, &'static str> {
    let mut value = 0u64;
    for i in 0..count {
        let Some(place) = addr.checked_add(count - 1 - i) else {
            return Err("AddressOverflow");
        };
        let Some(byte) = image.byte(place) else {
            return Err("GuestMemory");
        };
        value = value.wrapping_mul(256).wrapping_add(u64::from(byte));
    }
    Ok(value)
}

/// Why segments make no chain.
pub fn fault_of(segments: &[Segment]) -> Option<&'static str> {
    let mut total = 0u64;
    let mut writes = false;
    for segment in segments {
        if segment.addr.0 > u64::MAX - u64::from(segment.len) {
            return Some("InvalidChain range");
        }
        if writes && !segment.writable {
            return Some("InvalidChain order");
        }
        writes = segment.writable;
        total = total.wrapping_add(u64::from(segment.len));
        if total > 0xffff_ffff {
            return Some("InvalidChain length");
        }
    }
    None
}
