//! A source of a number of zeros.

use std::marker::Model;
use vm_memory_base::{ReadVolatile, VolatileMemoryResult};

// A source of zeros.
#[derive(Drop)]
pub(crate) struct Zeros {
    left: usize,
}

// It is seen as how many zeros it has left.
impl Model for Zeros {
    ghost use Rattle.std.specs.Prelude.{ℕ};

    ghost Value = { ℕ };

    ghost view = { λ z. z.left };
}

impl Zeros {
    ghost use Rattle.std.specs.Prelude.{◌≡◌};

    pub(crate) fn new(left: usize) -> Zeros
        ensures { result ≡ left }
    {
        Zeros { left }
    }
}

impl ReadVolatile for Zeros {
    ghost use Rattle.std.specs.Prelude.{None};
    ghost use Rattle.linux_loader.specs.Load.{zeros};

    ghost source = { λ left. zeros left };

    ghost known_left = { λ s. None };

    fn read_volatile(&mut self, buf: &mut [u8]) -> VolatileMemoryResult<usize> {
        let count = self.left.min(buf.len());
        buf[..count].fill(0);
        self.left -= count;
        Ok(count)
    }

    fn known_left(&self) -> Option<usize> {
        None
    }
}
