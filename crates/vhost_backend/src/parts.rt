//! The parts of a request's data, which are served one after another.
ghost use Rattle.std.specs.Prelude.{◌≡◌, ◌+◌, ◌<◌, ◌≤◌, ◌^◌, ℕ};
ghost use Rattle.vhost_backend.specs.Parts.{next_part, parts_of};

/// How many bytes a part has at most.
pub const PART: u32 = 1 << 20;

/// A part of the data of a request.
#[derive(Clone, Copy, Debug)]
pub struct Part {
    /// Where it begins, from the first byte of the data on.
    pub offset: u32,
    /// How many bytes it has.
    pub len: u32,
}

/// How many parts data of so many bytes have.
pub fn parts_of(len: u32) -> u32
    ensures { result ≡ parts_of len }
{
    let whole = len / PART;
    if len % PART > 0 { whole + 1 } else { whole }
}

/// The part that is served when so many are left, itself among them.
pub fn next_part(len: u32, left: u32) -> Part
    requires some { 0 < left }
    requires there { left ≤ parts_of len }
    ensures { result ≡ next_part len left }
{
    let offset = (parts_of(len) - left) * PART;
    Part {
        offset,
        len: PART.min(len - offset),
    }
}

/// Parts that are served one after another, from the first on, are the data in order: each begins where the one before
/// it ends, and the last one ends with the data. This function is a theorem, and does nothing.
pub fn parts_are_the_data_in_order()
    ensures first { (len : ℕ) → (next_part len (parts_of len)).offset ≡ 0 }
    ensures next { (len left : ℕ) → 0 < left → left < parts_of len
        → let before = next_part len (left + 1) in (next_part len left).offset ≡ before.offset + before.len }
    ensures last { (len : ℕ) → 0 < len → let last = next_part len 1 in last.offset + last.len ≡ len }
    ensures some { (len left : ℕ) → 0 < left → left ≤ parts_of len → (0 < (next_part len left).len)
        × ((next_part len left).len ≤ PART) }
{}
