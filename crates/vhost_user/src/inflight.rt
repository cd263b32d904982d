//! The region in which a back end keeps what is in flight, in a file that the front end keeps too.
ghost use Rattle.std.specs.Prelude.{◌≡◌, ◌≤◌};
ghost use Rattle.vhost_user.specs.Inflight.{needed_len, queue_len, region_len};

use crate::features::{VIRTIO_F_RING_PACKED, has};
use vhost_message::VhostUserInflight;

// How many bytes a queue needs: a head, and an entry for each descriptor.
fn needed_len(features: u64, queue_size: u16) -> u64
    ensures exact { result ≡ needed_len features queue_size }
    ensures most { result ≤ 2097152 }
{
    if has(features, VIRTIO_F_RING_PACKED) {
        return 32 + 32 * queue_size as u64;
    }
    16 + 16 * queue_size as u64
}

/// How many bytes of the region a ring of so many descriptors has, by the features that were accepted: a multiple of
/// 64.
pub fn inflight_queue_len(features: u64, queue_size: u16) -> u64
    ensures exact { result ≡ queue_len features queue_size }
    ensures most { result ≤ 2097152 }
{
    (needed_len(features, queue_size) + 63) / 64 * 64
}

// How many bytes the region has that this describes.
pub(crate) fn region_len(features: u64, region: &VhostUserInflight) -> u64
    ensures { result ≡ region_len features region.now }
{
    region.num_queues as u64 * inflight_queue_len(features, region.queue_size)
}
