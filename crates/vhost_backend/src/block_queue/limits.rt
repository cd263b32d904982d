//! Limits of a device on the chains of its rings.
ghost use Rattle.std.specs.Prelude.{◌≡◌, nat_lt};
ghost use Rattle.std.specs.List.{list_any};
ghost use Rattle.virtio_blk.specs.Steps.{has_longer, is_over};
ghost use Rattle.vhost_backend.specs.Behind.{is_refused, open_terms};

use virtio_blk::DeviceLimits;
use vm_memory_device::Segment;

// Limits are of the driver's chain, and not of that of guest addresses.
pub(super) fn open_terms(terms: DeviceLimits) -> DeviceLimits
    ensures { result ≡ open_terms terms }
{
    DeviceLimits {
        seg_max: None,
        size_max: None,
        ..terms
    }
}

// Whether a number is above a limit, if there is one.
fn is_over(limit: Option<usize>, count: usize) -> bool
    ensures { result ≡ is_over limit count }
{
    match limit {
        Some(most) => count > most,
        None => false,
    }
}

fn is_longer(most: usize, segment: &Segment) -> bool
    ensures { result ≡ nat_lt most segment.now.len }
{
    segment.len as usize > most
}

fn any_longer(most: usize, segments: &[Segment]) -> bool
    ensures { result ≡ list_any (λ s. nat_lt most s.len) segments.now }
{
    segments.iter().any(|segment| is_longer(most, segment))
}

// Whether a segment has more bytes than a limit, if there is one.
fn has_longer(limit: Option<usize>, segments: &[Segment]) -> bool
    ensures { result ≡ has_longer limit segments.now }
{
    match limit {
        Some(most) => any_longer(most, segments),
        None => false,
    }
}

// Whether a chain breaks a limit, or has more segments than there may be.
pub(super) fn is_refused(terms: DeviceLimits, most: usize, segments: &[Segment]) -> bool
    ensures { result ≡ is_refused terms most segments.now }
{
    is_over(terms.seg_max, segments.len().saturating_sub(2))
        || has_longer(terms.size_max, segments)
        || segments.len() > most
}
