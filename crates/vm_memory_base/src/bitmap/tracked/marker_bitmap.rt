//! A marker with its bitmap, as the bitmap of a host.
ghost use Rattle.std.specs.Prelude.{◌≡◌, ⊤, Some, None, IfSome, MatchOption};
ghost use Rattle.vm_memory_base.specs.Markers.{table_of, marker_table, harvester_table};

use super::{Harvester, Marker, TrackedBitmap};
use crate::bitmap::Bitmap;
use std::sync::Arc;

#[derive(Drop)]
struct Held {
    bitmap: Arc<TrackedBitmap>,
    marker: Marker,
    ghost belongs: { marker_table marker ≡ table_of bitmap.value },
}

/// Marks a `TrackedBitmap` that others may mark too, until its marker is handed back.
#[derive(Drop)]
pub struct MarkerBitmap {
    held: Option<Held>,
}

impl MarkerBitmap {
    ghost use Rattle.vm_memory_base.specs.MarkerBitmap.{held_of, Meets};

    /// Marks `bitmap` with `marker`, which has to be one of its markers.
    pub fn new(bitmap: Arc<TrackedBitmap>, marker: Marker) -> MarkerBitmap
        requires own { marker_table marker ≡ table_of bitmap.value }
        ensures { held_of result ≡ Some (bitmap.value, marker) }
    {
        MarkerBitmap {
            held: Some(Held { bitmap, marker }),
        }
    }

    /// As `TrackedBitmap::meet`: the harvester has to be the bitmap's. If the marker was handed back, it does
    /// nothing.
    pub fn meet(&mut self, harvester: &mut Harvester)
        requires own { MatchOption (held_of self.old) ⊤ (λ h. harvester_table harvester.old ≡ table_of h.0) }
        ensures { Meets (held_of self.old) harvester.old (held_of self.new) harvester.new }
    {
        if let Some(held) = &mut self.held {
            held.bitmap.meet(&mut held.marker, harvester);
        }
    }

    /// Hands the bitmap and the marker back, once. From then on nothing is marked.
    pub fn retire(&mut self) -> Option<(Arc<TrackedBitmap>, Marker)>
        ensures gone { held_of self.new ≡ None }
        ensures handed { MatchOption result (held_of self.old ≡ None)
            (λ r. held_of self.old ≡ Some (r.0.value, r.1)) }
        ensures own { IfSome result (λ r. marker_table r.1 ≡ table_of r.0.value) }
    {
        match self.held.take() {
            Some(Held { bitmap, marker }) => Some((bitmap, marker)),
            None => None,
        }
    }
}

/// Not exact: others mark it too. A byte past the last page is reported clean, and nothing is promised of the others.
impl Bitmap for MarkerBitmap {
    ghost use Rattle.vm_memory_base.specs.MarkerBitmap.{held_of, MarksHeld, TellsHeld};

    ghost marks = { λ old offset len new. MarksHeld (held_of old) offset len (held_of new) };

    ghost tells = { λ b offset told. TellsHeld (held_of b) offset told };

    fn mark_dirty(&mut self, offset: usize, len: usize) {
        if let Some(held) = &mut self.held {
            held.bitmap.mark(&mut held.marker, offset, len);
        }
    }

    fn dirty_at(&self, offset: usize) -> bool {
        match &self.held {
            Some(held) => held.bitmap.glance(offset),
            None => false,
        }
    }
}
