//! Where segments lie: whether they lie apart, and where the highest ends.

ghost use Rattle.std.specs.Prelude.{◌≡◌, ◌↔◌, All, AllPairs, IfOk, IsPermutation, IsTrue};
ghost use Rattle.std.specs.Ordering.{nat_cmp};
ghost use Rattle.std.specs.List.Sorted.{IsSortedByKey};
ghost use Rattle.linux_loader.specs.Plan.{Apart, HasBytes, highest_end};

use crate::segment::Segment;
use std::alloc::{AllocError, Global};

// The segments by their addresses.
fn sorted_copy(alloc: Global, segments: &[Segment]) -> Result<Vec<Segment>, AllocError>
    ensures permutation { IfOk result (λ sorted. IsPermutation segments.now sorted.items) }
    ensures sorted { IfOk result (λ sorted. IsSortedByKey (λ s. s.addr.0) nat_cmp sorted.items) }
{
    let mut sorted = segments.to_vec(alloc)?;
    sorted.sort_unstable_by_key(|segment| segment.addr.0);
    Ok(sorted)
}

// Whether no two of these segments, which are sorted by address, share an address.
fn sorted_lie_apart(sorted: &[Segment]) -> bool
    requires some { All HasBytes sorted.now }
    requires sorted { IsSortedByKey (λ s. s.addr.0) nat_cmp sorted.now }
    ensures { IsTrue result ↔ AllPairs Apart sorted.now }
{
    let mut end = 0;
    for segment in sorted {
        if segment.addr.0 < end {
            return false;
        }
        end = segment.addr.0 + segment.size;
    }
    true
}

// Whether no two segments share an address.
pub(crate) fn lie_apart(alloc: Global, segments: &[Segment]) -> Result<bool, AllocError>
    requires { All HasBytes segments.now }
    ensures { IfOk result (λ apart. IsTrue apart ↔ AllPairs Apart segments.now) }
{
    let sorted = sorted_copy(alloc, segments)?;
    Ok(sorted_lie_apart(sorted.as_slice()))
}

// The end of the highest segment, or 0 of none.
pub(crate) fn highest_end(segments: &[Segment]) -> u64
    requires { All HasBytes segments.now }
    ensures { result ≡ highest_end segments.now }
{
    let mut end = 0;
    for segment in segments {
        end = end.max(segment.addr.0 + segment.size);
    }
    end
}
