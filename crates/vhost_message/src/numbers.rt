//! Numbers in payloads, each with its lowest byte first.
ghost use Rattle.std.specs.Prelude.{◌≡◌, ◌+◌, ◌≤◌, length};
ghost use Rattle.vhost_message.specs.Numbers.{half, number, word};

// The 8 bytes from a place on.
pub fn number(payload: &[u8], at: usize) -> u64
    requires { at + 8 ≤ length payload.now }
    ensures { result ≡ number payload.now at }
{
    let bytes = &payload[at..at + 8];
    u64::from_le_bytes([
        bytes[0], bytes[1], bytes[2], bytes[3], bytes[4], bytes[5], bytes[6], bytes[7],
    ])
}

// The 4 bytes from a place on.
pub fn word(payload: &[u8], at: usize) -> u32
    requires { at + 4 ≤ length payload.now }
    ensures { result ≡ word payload.now at }
{
    let bytes = &payload[at..at + 4];
    u32::from_le_bytes([bytes[0], bytes[1], bytes[2], bytes[3]])
}

// The 2 bytes from a place on.
pub fn half(payload: &[u8], at: usize) -> u16
    requires { at + 2 ≤ length payload.now }
    ensures { result ≡ half payload.now at }
{
    let bytes = &payload[at..at + 2];
    u16::from_le_bytes([bytes[0], bytes[1]])
}
