//! Bytes of blocks, which are moved in, out, and from place to place.
ghost use Rattle.std.specs.List.{flat_map};
ghost use Rattle.std.specs.Prelude.{◌≡◌, ◌+◌, ◌*◌, ◌^◌, ◌<◌, ◌≤◌, ◌++◌, length, map, take, drop};
ghost use Rattle.vm_memory_guest.specs.Host.{block_at, bytes_at, cells_from, written};
ghost use Rattle.vm_memory_guest.specs.Inside.{blocks_of};
ghost use Rattle.vm_memory_guest.specs.Typed.{size_of};

use super::address::{HostAddress, Place};
use super::block_bytes::BlockBytes;
use vm_memory_base::ByteValued;

// The bytes of a place.
#[tactic(auto, using(crate::proofs::HostLemmas::block_lemmas))]
#[inline]
pub(super) fn part_of(blocks: &Vec<BlockBytes>, at: Place) -> &[u8]
    requires there { at.block < length blocks.now.items }
    requires within { at.offset + at.len ≤ length (block_at (blocks_of blocks.now) at.block) }
    ensures { result.now ≡ bytes_at (blocks_of blocks.now) (cells_from at.block at.offset at.len) }
{
    &blocks[at.block].as_slice()[at.offset..at.offset + at.len]
}

// Moves bytes into a block at once.
#[inline]
pub(super) fn put_in(blocks: &mut Vec<BlockBytes>, block: usize, offset: usize, bytes: &[u8])
    requires there { block < length blocks.old.items }
    requires within { offset + length bytes.now ≤ length (block_at (blocks_of blocks.old) block) }
    ensures { blocks_of blocks.new
        ≡ written (cells_from block offset (length bytes.now)) bytes.now (blocks_of blocks.old) }
{
    let all = &mut blocks[block];
    move_into(all.as_mut_slice(), offset, bytes);
}

// Moves bytes of a value, from byte `from` on, to a place: as many as it has.
#[inline]
pub(super) fn put_value_in<T: ByteValued>(
    blocks: &mut Vec<BlockBytes>,
    at: Place,
    value: &T,
    from: usize,
)
    requires there { at.block < length blocks.old.items }
    requires within { at.offset + at.len ≤ length (block_at (blocks_of blocks.old) at.block) }
    requires inside { from + at.len ≤ T.width }
    requires fits { from + at.len < 2 ^ 64 }
    ensures { let bytes = take at.len (drop from (T.bytes value.now)) in
        blocks_of blocks.new ≡ written (cells_from at.block at.offset at.len) bytes (blocks_of blocks.old) }
{
    let all = &mut blocks[at.block];
    let place = &mut all.as_mut_slice()[at.offset..at.offset + at.len];
    value.copy_bytes(from, place);
}

// Moves bytes into a block from an offset on.
#[inline]
fn move_into(block: &mut [u8], offset: usize, bytes: &[u8])
    requires { offset + length bytes.now ≤ length block.old }
    ensures { block.new ≡ take offset block.old ++ bytes.now ++ drop (offset + length bytes.now) block.old }
{
    block[offset..offset + bytes.len()].copy_from_slice(bytes);
}

// Copies bytes of a block over others of it, as they were, also where the two overlap.
fn copy_inside(block: &mut [u8], from: usize, to: usize, len: usize)
    requires source { from + len ≤ length block.old }
    requires target { to + len ≤ length block.old }
    ensures { block.new ≡ take to block.old ++ take len (drop from block.old) ++ drop (to + len) block.old }
{
    if from + len <= to {
        let (front, back) = block.split_at_mut(to);
        back[..len].copy_from_slice(&front[from..from + len]);
    } else if to + len <= from {
        let (front, back) = block.split_at_mut(from);
        front[to..to + len].copy_from_slice(&back[..len]);
    } else {
        block.copy_within(from..from + len, to);
    }
}

// Copies bytes of a block over a place of the same or of another block: as many as it has.
pub(super) fn copy_in(blocks: &mut Vec<BlockBytes>, from: HostAddress, to: Place)
    requires source { from.block.0 < length blocks.old.items }
    requires target { to.block < length blocks.old.items }
    requires readable { from.offset + to.len ≤ length (block_at (blocks_of blocks.old) from.block.0) }
    requires writable { to.offset + to.len ≤ length (block_at (blocks_of blocks.old) to.block) }
    ensures { let bytes = bytes_at (blocks_of blocks.old) (cells_from from.block.0 from.offset to.len) in
        blocks_of blocks.new ≡ written (cells_from to.block to.offset to.len) bytes (blocks_of blocks.old) }
{
    let source = from.block.0;
    let target = to.block;
    if source < target {
        let (low, high) = blocks.as_mut_slice().split_at_mut(target);
        let bytes = &low[source].as_slice()[from.offset..from.offset + to.len];
        move_into(high[0].as_mut_slice(), to.offset, bytes);
        return;
    }
    if target < source {
        let (low, high) = blocks.as_mut_slice().split_at_mut(source);
        let bytes = &high[0].as_slice()[from.offset..from.offset + to.len];
        move_into(low[target].as_mut_slice(), to.offset, bytes);
        return;
    }
    let all = &mut blocks[target];
    copy_inside(all.as_mut_slice(), from.offset, to.offset, to.len);
}

// Value `k` of those whose bytes stand one after the other in a slice.
#[inline]
pub(super) fn value_in<T: ByteValued>(bytes: &[u8], k: usize) -> T
    requires { k * size_of T.width + size_of T.width ≤ length bytes.now }
    ensures { T.width < 2 ^ 64 → result ≡ T.value_of (take T.width (drop (k * T.width) bytes.now)) }
{
    let size = T::size();
    let start = k * size;
    let mut value = T::zeroed();
    value.set_bytes(0, &bytes[start..start + size]);
    value.recall_law();
    value
}

// Moves the bytes of value `k` of a list to its place in a slice that has as many bytes as all of them.
#[inline]
fn put_value_at<T: ByteValued>(place: &mut [u8], value: &T, k: usize)
    requires { k * size_of T.width + size_of T.width ≤ length place.old }
    ensures { T.width < 2 ^ 64
        → take ((k + 1) * T.width) place.new ≡ take (k * T.width) place.old ++ T.bytes value.now }
{
    let size = T::size();
    value.recall_law();
    let start = k * size;
    value.copy_bytes(0, &mut place[start..start + size]);
}

// Moves the bytes of values, one after the other, into a slice of as many.
fn fill_place<T: ByteValued>(place: &mut [u8], values: &[T])
    requires { length place.old ≡ length values.now * size_of T.width }
    ensures { T.width < 2 ^ 64 → place.new ≡ flat_map T.bytes values.now }
{
    for k in 0..values.len() {
        put_value_at(place, &values[k], k);
    }
}

// Moves the bytes of values, one after the other, to a place of as many.
pub(super) fn put_values_in<T: ByteValued>(blocks: &mut Vec<BlockBytes>, at: Place, values: &[T])
    requires there { at.block < length blocks.old.items }
    requires within { at.offset + at.len ≤ length (block_at (blocks_of blocks.old) at.block) }
    requires size { at.len ≡ length values.now * size_of T.width }
    ensures put { T.width < 2 ^ 64 → blocks_of blocks.new
        ≡ written (cells_from at.block at.offset at.len) (flat_map T.bytes values.now) (blocks_of blocks.old) }
    ensures lengths { map length (blocks_of blocks.new) ≡ map length (blocks_of blocks.old) }
{
    let all = &mut blocks[at.block];
    let place = &mut all.as_mut_slice()[at.offset..at.offset + at.len];
    fill_place(place, values);
}
