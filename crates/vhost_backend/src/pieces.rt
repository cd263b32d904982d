//! Pieces of guest memory: the bytes of a part, as they lie there.
ghost use Rattle.std.specs.Prelude.{◌≡◌, ◌+◌, ◌<◌, ◌≤◌, ℕ, List, None, Some, IfSome, length, slice_get};
ghost use Rattle.vm_memory_device.specs.Chain.{text};
ghost use Rattle.vm_memory_device.specs.declared.chain.Segment.{Segment};
ghost use Rattle.vhost_backend.specs.Pieces.{piece_of, piece_from, side};

use vm_memory_device::{Chain, Segment};

/// Bytes of guest memory that lie together.
#[derive(Clone, Copy, Debug)]
pub struct Piece {
    /// A guest address.
    pub base: u64,
    /// How far after it they begin.
    pub offset: u64,
    /// How many there are.
    pub len: u64,
}

// The piece of a segment that begins at an offset of its bytes.
fn piece_of(segment: Segment, offset: u64, len: u64) -> Piece
    requires { offset < segment.len }
    ensures { result ≡ piece_of segment offset len }
{
    Piece {
        base: segment.addr.0,
        offset,
        len: len.min(u64::from(segment.len) - offset),
    }
}

/// The first piece of at most `len` bytes of a chain, from an offset of its readable bytes on, or of its writable ones.
/// `None` if it has no such byte.
pub fn piece_from(chain: &Chain, writable: bool, offset: u64, len: u64) -> Option<Piece>
    ensures { result ≡ piece_from (side writable chain.now) offset len }
{
    let segments = chain.segments();
    let mut left = offset;
    for i in 0..segments.len() {
        let segment = segments[i];
        if segment.writable == writable {
            if left < u64::from(segment.len) {
                return Some(piece_of(segment, left, len));
            }
            left -= u64::from(segment.len);
        }
    }
    None
}

/// Pieces that are taken one after another are the bytes of a text, in order and each once: byte `k` of a piece is that
/// of the text at its offset and `k`, and there is no piece only past the end. This function is a theorem, and does
/// nothing.
pub fn pieces_are_the_bytes_in_order()
    ensures bytes { (segments : List Segment) (offset n k : ℕ) → IfSome (piece_from segments offset n)
        (λ p. k < p.len → IfSome (slice_get (text segments) (offset + k)) (λ e. e.address ≡ p.base + p.offset + k)
        × (offset + k < length (text segments))) }
    ensures some { (segments : List Segment) (offset n : ℕ) → 0 < n
        → IfSome (piece_from segments offset n) (λ p. (0 < p.len) × (p.len ≤ n)) }
    ensures none { (segments : List Segment) (offset n : ℕ) → piece_from segments offset n ≡ None
        → length (text segments) ≤ offset }
{}
