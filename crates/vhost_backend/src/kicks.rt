//! The rings that were kicked, and were not looked at since.
ghost use Rattle.std.specs.Prelude.{◌≡◌, IfOk, replicate, slice_set, true, false};
ghost use Rattle.vhost_backend.specs.Kicks.{IsKicked, TakesKick};

use std::alloc::{AllocError, Global};
use std::marker::Model;

// The number of a ring that was kicked, if there is one.
fn kicked_ring(kicked: &[bool]) -> Option<usize>
    ensures { IsKicked kicked.now result }
{
    for ring in 0..kicked.len() {
        if kicked[ring] {
            return Some(ring);
        }
    }
    None
}

/// For each ring whether it was kicked since it was looked at.
#[derive(Drop)]
pub struct Kicks {
    kicked: Vec<bool>,
}

impl Model for Kicks {
    ghost use Rattle.std.specs.Prelude.{Bool, List};

    ghost Value = { List Bool };

    ghost view = { λ k. k.kicked.items };
}

impl Kicks {
    /// No kick, for so many rings.
    pub fn new(alloc: Global, count: usize) -> Result<Kicks, AllocError>
        ensures { IfOk result (λ k. k ≡ replicate count false) }
    {
        Ok(Kicks {
            kicked: vec![in alloc; false; count]?,
        })
    }

    /// Takes note of a kick.
    pub fn add(&mut self, ring: usize)
        ensures { self.new ≡ slice_set self.old ring true }
    {
        if let Some(kicked) = self.kicked.get_mut(ring) {
            *kicked = true;
        }
    }

    /// Takes a ring that was kicked, if there is one.
    pub fn take(&mut self) -> Option<usize>
        ensures { TakesKick self.old result self.new }
    {
        let ring = kicked_ring(&self.kicked)?;
        if let Some(kicked) = self.kicked.get_mut(ring) {
            *kicked = false;
        }
        Some(ring)
    }
}
