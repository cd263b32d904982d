//! What holds of permissions.
ghost use Rattle.std.specs.Prelude.{◌≡◌, ◌↔◌, true, ◌||◌, ◌&&◌};
ghost use Rattle.vm_memory_base.specs.declared.iotlb.Permissions.{Permissions};
ghost use Rattle.vm_memory_base.specs.declared.iotlb.Permissions.TheVariants.{No, Read, Write, ReadWrite};
ghost use Rattle.vm_memory_base.specs.Permissions.{has_read, has_write, union, intersection, allow, same};
ghost use Rattle.vm_memory_base.specs.Runs.{TestsEquality};

/// An access is allowed if each of its bits is permitted, which is an order on sets of permissions.
///
/// Witness: tests_base::allow_in_turn
pub fn allowed_by_bits()
    ensures bits { (a access : Permissions) → (allow a access ≡ true)
        ↔ ((has_read access ≡ true → has_read a ≡ true)
        × (has_write access ≡ true → has_write a ≡ true)) }
    ensures nothing_asked { (a : Permissions) → allow a No ≡ true }
    ensures all_permitted { (access : Permissions) → allow ReadWrite access ≡ true }
    ensures read_asked { (a : Permissions) → allow a Read ≡ has_read a }
    ensures write_asked { (a : Permissions) → allow a Write ≡ has_write a }
    ensures reflexive { (a : Permissions) → allow a a ≡ true }
    ensures transitive { (a b c : Permissions) → allow a b ≡ true → allow b c ≡ true → allow a c ≡ true }
    ensures antisymmetric { (a b : Permissions) → allow a b ≡ true → allow b a ≡ true → a ≡ b }
{}

/// A union has the bits of either set, and is allowed if both are. An intersection has the bits of both sets,
/// and allows what both allow. `same` says whether two sets are equal.
pub fn permissions_are_sets()
    ensures union_read { (a b : Permissions) → has_read (union a b) ≡ (has_read a || has_read b) }
    ensures union_write { (a b : Permissions) → has_write (union a b) ≡ (has_write a || has_write b) }
    ensures union_least { (a b c : Permissions) → allow c (union a b) ≡ (allow c a && allow c b) }
    ensures union_commutes { (a b : Permissions) → union a b ≡ union b a }
    ensures intersection_read { (a b : Permissions) → has_read (intersection a b) ≡ (has_read a && has_read b) }
    ensures intersection_write { (a b : Permissions) → has_write (intersection a b) ≡ (has_write a && has_write b) }
    ensures intersection_greatest { (a b c : Permissions) → allow (intersection a b) c ≡ (allow a c && allow b c) }
    ensures intersection_commutes { (a b : Permissions) → intersection a b ≡ intersection b a }
    ensures same { TestsEquality same }
{}
