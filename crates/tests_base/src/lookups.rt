//! What a look-up of an I/O table returns, as text.
ghost use Rattle.std.specs.Prelude.{◌<◌};

use std::alloc::Global;
use std::fmt::Write;
use std::test::Fail;
use test_text::{expect_text, next_number};
use vm_memory_base::{GuestAddress, Iotlb, LookupError, Permissions};

/// The set of the two bits of a number.
pub fn permissions(number: u64) -> Permissions {
    match number % 4 {
        0 => Permissions::No,
        1 => Permissions::Read,
        2 => Permissions::Write,
        _ => Permissions::ReadWrite,
    }
}

/// A range of the first addresses: its first address and its length, which is below a number.
pub fn next_range(state: &mut u64, addresses: u64, most: u64) -> (u64, usize)
    requires { (0 < addresses) × (0 < most) }
{
    let start = next_number(state) % addresses;
    let len = (next_number(state) % most).min(addresses.saturating_sub(start));
    (start, len as usize)
}

// Writes what is missed, and where the access fails.
fn write_refusal(
    text: &mut String,
    error: LookupError,
    case: usize,
    len: usize,
) -> Result<(), Fail> {
    let LookupError::Fails(fails) = error else {
        return Err(Fail::new(format_args!("case {case}: no memory for {len:#x}")));
    };
    write!(text, "misses")?;
    for range in fails.misses.as_slice() {
        write!(text, " {:#x}+{:#x}", range.base.0, range.length)?;
    }
    write!(text, " access")?;
    for range in fails.access_fails.as_slice() {
        write!(text, " {:#x}+{:#x}", range.base.0, range.length)?;
    }
    Ok(())
}

/// Fails if a look-up returns something else, or an access of the range gets other pieces or another error.
pub fn expect_look_up(
    alloc: Global,
    case: usize,
    table: &Iotlb,
    (first, len): (u64, usize),
    access: Permissions,
    wanted: &str,
) -> Result<(), Fail> {
    let mut text = String::new(alloc);
    match table.lookup(GuestAddress(first), len, access) {
        Ok(pieces) => {
            for piece in pieces {
                write!(text, " {:#x}+{:#x}", piece.base.0, piece.length)?;
            }
        }
        Err(error) => write_refusal(&mut text, error, case, len)?,
    }
    expect_text(case, text.as_str(), wanted)?;
    text.clear();
    match table.resolve(GuestAddress(first), len, access) {
        Ok(pieces) => {
            for piece in pieces.as_slice() {
                write!(text, " {:#x}+{:#x}", piece.base.0, piece.length)?;
            }
            expect_text(case, text.as_str(), wanted)
        }
        Err(error) => {
            write!(text, "{error}")?;
            expect_text(
                case,
                text.as_str(),
                refusal(alloc, (first, len), wanted)?.as_str(),
            )
        }
    }
}

// The error of an access that is refused, of which a look-up tells these misses and failures.
fn refusal(alloc: Global, (first, len): (u64, usize), wanted: &str) -> Result<String, Fail> {
    let reason = if wanted.starts_with("misses access") {
        "access not allowed"
    } else {
        "missing mapping"
    };
    let mut text = String::new(alloc);
    write!(
        text,
        "Cannot translate I/O virtual address range {first:#x}+{len}: {reason}"
    )?;
    Ok(text)
}
