//! The bytes of a value in pieces, through `std::io`.

ghost use Rattle.std.specs.Prelude.{◌≡◌, ◌+◌, ◌^◌, ◌<◌, ◌≤◌, ◌++◌, length, take, drop, OnOk};
ghost use Rattle.std.specs.Io.KnownBytes.{Appends, Consumes};

use super::ByteValued;
use std::io::{Read, Result, Write};

// How many bytes of a value go to a writer or come from a reader at once.
pub(super) const PIECE: usize = 64;

// Copies the bytes of a value from byte `from` on.
fn copy_bytes<T: ByteValued>(value: &T, from: usize, out: &mut [u8])
    requires inside { from + length out.old ≤ T.width }
    requires fits { from + length out.old < 2 ^ 64 }
    ensures { out.new ≡ take (length out.old) (drop from (T.bytes value.now)) }
{
    value.recall_law();
    for i in 0..out.len() {
        out[i] = value.byte(from + i);
    }
}

// Replaces the bytes of a value from byte `from` on.
fn put_bytes<T: ByteValued>(value: &mut T, from: usize, data: &[u8])
    requires inside { from + length «data».now ≤ T.width }
    requires fits { from + length «data».now < 2 ^ 64 }
    ensures before { take from (T.bytes value.new) ≡ take from (T.bytes value.old) }
    ensures put { take (length «data».now) (drop from (T.bytes value.new)) ≡ «data».now }
    ensures after { drop (from + length «data».now) (T.bytes value.new)
        ≡ drop (from + length «data».now) (T.bytes value.old) }
{
    value.recall_law();
    for i in 0..data.len() {
        value.set_byte(from + i, data[i]);
    }
}

// Copies the bytes of a value from byte `from` on, by way of all bytes of a short one.
pub(super) fn copy_part<T: ByteValued>(value: &T, from: usize, out: &mut [u8])
    requires inside { from + length out.old ≤ T.width }
    requires fits { from + length out.old < 2 ^ 64 }
    ensures { out.new ≡ take (length out.old) (drop from (T.bytes value.now)) }
{
    if T::size() > PIECE {
        copy_bytes(value, from, out);
        return;
    }
    value.recall_law();
    let mut piece = [0u8; PIECE];
    let all = &mut piece[..T::size()];
    value.to_slice(all);
    let end = from + out.len();
    out.copy_from_slice(&all[from..end]);
}

// Replaces the bytes of a value from byte `from` on, by way of all bytes of a short one.
pub(super) fn put_part<T: ByteValued>(value: &mut T, from: usize, data: &[u8])
    requires inside { from + length «data».now ≤ T.width }
    requires fits { from + length «data».now < 2 ^ 64 }
    ensures { T.bytes value.new ≡ take from (T.bytes value.old) ++ «data».now
        ++ drop (from + length «data».now) (T.bytes value.old) }
{
    value.recall_law();
    if T::size() > PIECE {
        put_bytes(value, from, data);
        return;
    }
    let mut piece = [0u8; PIECE];
    let all = &mut piece[..T::size()];
    value.to_slice(all);
    all[from..from + data.len()].copy_from_slice(data);
    if let Some(new) = T::from_slice(all) {
        *value = new;
    }
}

// Writes `count` bytes of a value from byte `from` on.
pub(super) fn write_piece<T: ByteValued, W: Write>(
    value: &T,
    writer: &mut W,
    from: usize,
    count: usize,
) -> Result<()>
    requires small { count ≤ PIECE }
    requires inside { from + count ≤ T.width }
    requires fits { from + count < 2 ^ 64 }
    ensures { OnOk result (Appends (W.contents writer.old) (W.contents writer.new)
        (take count (drop from (T.bytes value.now)))) }
{
    let mut piece = [0u8; PIECE];
    let part = &mut piece[..count];
    copy_bytes(value, from, part);
    writer.write_all(part)
}

// Reads `count` bytes of a value from byte `from` on.
pub(super) fn read_piece<T: ByteValued, R: Read>(
    value: &mut T,
    reader: &mut R,
    from: usize,
    count: usize,
) -> Result<()>
    requires small { count ≤ PIECE }
    requires inside { from + count ≤ T.width }
    requires fits { from + count < 2 ^ 64 }
    ensures before { OnOk result (take from (T.bytes value.new) ≡ take from (T.bytes value.old)) }
    ensures read { OnOk result (Consumes (R.remaining reader.old) (R.remaining reader.new)
        (take count (drop from (T.bytes value.new)))) }
{
    let mut piece = [0u8; PIECE];
    let part = &mut piece[..count];
    reader.read_exact(part)?;
    put_bytes(value, from, part);
    Ok(())
}
