//! Ranges of a ring's addresses that are kept, or are forgotten, one after another.
ghost use Rattle.std.specs.Prelude.{All};
ghost use Rattle.vhost_iotlb.specs.Kept.{IsReal};
ghost use Rattle.vhost_backend.specs.KeptRanges.{ForgetsAll, KeepsAll};

use crate::ring_memory::RingMemory;
use std::alloc::AllocError;
use vhost_iotlb::Kept;

/// Has each of these ranges lead on, until an allocation fails.
pub fn keep_all<H, D: RingMemory<H>>(mem: &D, host: &mut H, kept: &[Kept]) -> Result<(), AllocError>
    requires held { D.held mem.now host.old }
    requires real { All IsReal kept.now }
    ensures keeps { KeepsAll (D.steps mem.now) kept.now host.old result host.new }
    ensures held { D.held mem.now host.new }
{
    for i in 0..kept.len() {
        if let Err(error) = mem.keep(host, kept[i]) {
            return Err(error);
        }
    }
    Ok(())
}

/// Has each of these ranges lead nowhere, until an allocation fails.
pub fn forget_all<H, D: RingMemory<H>>(
    mem: &D,
    host: &mut H,
    kept: &[Kept],
) -> Result<(), AllocError>
    requires held { D.held mem.now host.old }
    requires real { All IsReal kept.now }
    ensures forgets { ForgetsAll (D.steps mem.now) kept.now host.old result host.new }
    ensures held { D.held mem.now host.new }
{
    for i in 0..kept.len() {
        if let Err(error) = mem.forget(host, kept[i]) {
            return Err(error);
        }
    }
    Ok(())
}
