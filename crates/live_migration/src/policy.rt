//! When a guest that is migrated stops.
ghost use Rattle.std.specs.Prelude.{◌≡◌, ◌+◌, ◌*◌, ◌≤◌, ◌⊎◌, ◌↔◌, IsTrue};
ghost use Rattle.live_migration.specs.Stopping.{IsLittle};

/// What is left to be sent: the pages that are dirty, and their bytes.
#[derive(Clone, Copy, Debug)]
pub struct Left {
    pub pages: u64,
    pub bytes: u64,
}

/// What the last rounds sent, and how many microseconds they took.
#[derive(Clone, Copy, Debug)]
pub struct Rate {
    pub bytes: u64,
    pub micros: u64,
}

/// When little enough is left for the guest to stop.
#[derive(Clone, Copy, Debug)]
pub enum Stop {
    /// Fewer pages than these are dirty.
    Below(u64),
    /// What is left takes less than this many microseconds at the rate of the last rounds. Not before anything was
    /// sent.
    Within(u64),
}

/// When the guest stops.
#[derive(Clone, Copy, Debug)]
pub struct Policy {
    /// The maximum number of rounds, with the last one, in which the guest is stopped.
    pub max_rounds: u64,
    /// When it stops before that.
    pub stop: Stop,
}

fn product(a: u64, b: u64) -> u128
    ensures { result ≡ a * b }
{
    u128::from(a) * u128::from(b)
}

impl Stop {
    fn is_met(self, left: Left, rate: Rate) -> bool
        ensures { IsTrue result ↔ IsLittle self left rate }
    {
        match self {
            Stop::Below(pages) => left.pages < pages,
            Stop::Within(micros) => {
                product(left.bytes, rate.micros) < product(micros, rate.bytes)
            }
        }
    }
}

impl Policy {
    /// Whether the guest is stopped in the round of this number, from 0, if this is left, and the last rounds had this
    /// rate.
    pub fn is_last(&self, number: u64, left: Left, rate: Rate) -> bool
        ensures { IsTrue result ↔ ((self.now.max_rounds ≤ number + 1) ⊎ IsLittle self.now.stop left rate) }
    {
        number >= self.max_rounds.saturating_sub(1) || self.stop.is_met(left, rate)
    }
}
