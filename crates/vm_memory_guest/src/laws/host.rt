//! What holds of what a host holds, whatever the code does: each function here is a theorem, and does
//! nothing.
ghost use Rattle.std.specs.Prelude.{◌↔◌, ℕ, ◌+◌, ◌^◌, ◌<◌, ◌≤◌, List, ◌++◌, length, flat_map, All, Contains};
ghost use Rattle.vm_memory_guest.specs.Host as names;
ghost use Rattle.vm_memory_guest.specs.Host.{Host, Name, Shape, Holds, IsHeld, block_at, shape_of};
ghost use Rattle.vm_memory_guest.specs.Region.{Region, region_names};

use crate::host::HostMemory;

/// Each block of a host is shorter than 2^63 bytes.
pub fn blocks_are_short<B>(host: &HostMemory<B>)
    ensures { (block : ℕ) → length (block_at host.now.blocks block) < 2 ^ 63 }
{
    host.recall_law();
}

/// Names are held if each of them is, and two lists one after the other if both are.
pub fn names_are_held_one_by_one()
    ensures each { (shape : Shape) (xs : List Name) → Holds shape xs ↔ All (IsHeld shape) xs }
    ensures joined { (shape : Shape) (xs ys : List Name)
        → Holds shape (xs ++ ys) ↔ (Holds shape xs × Holds shape ys) }
{}

/// Regions are held if each of them is, and so are any of those that are held, in any order.
///
/// Witness: test_machines::are_held
pub fn regions_are_held_one_by_one()
    ensures each { (shape : Shape) (regions : List Region)
        → Holds shape (flat_map region_names regions) ↔ All (λ r. Holds shape (region_names r)) regions }
    ensures among { (shape : Shape) (regions some : List Region)
        → Holds shape (flat_map region_names regions) → All (Contains regions) some
        → Holds shape (flat_map region_names some) }
{}

/// If a block is held, all its bytes are; if a place of a block is held, so are all bytes that end no later.
pub fn parts_of_a_block_are_held<B>()
    ensures whole { (host : Host B) (block : ℕ) → IsHeld (shape_of host) (names.Block block)
        → IsHeld (shape_of host) (names.Place block 0 (length (block_at host.blocks block))) }
    ensures part { (shape : Shape) (block offset len start n : ℕ)
        → IsHeld shape (names.Place block offset len) → start + n ≤ offset + len
        → IsHeld shape (names.Place block start n) }
{}
