//! What holds of the bytes of numbers.
ghost use Rattle.std.specs.Prelude.{◌≡◌, ℕ, reverse};
ghost use Rattle.std.specs.Int.{Width, to_le_bytes, to_be_bytes};

/// The bytes of a number, reversed, are its bytes in big endian order.
pub fn turned_bytes_are_big_endian()
    ensures { (w : Width) (n : ℕ) → reverse (to_le_bytes w n) ≡ to_be_bytes w n }
{}
