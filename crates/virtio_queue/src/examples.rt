//! Small cases of rings, chains and events, by computation: each function here is a theorem, and does nothing.
ghost use Rattle.std.specs.Prelude.{◌≡◌, ℕ, ◌+◌, ◌^◌, true, false, [], ◌∷◌, Some, None, Ok, Err};
ghost use Rattle.virtio_queue.specs.Available.{followed, indirect_len};
ghost use Rattle.virtio_queue.specs.Descriptor.{segment_of};
ghost use Rattle.virtio_queue.specs.Looks.{Follows, Saw, row, saw, word};
ghost use Rattle.virtio_queue.specs.Notification.{is_among};
ghost use Rattle.virtio_queue.specs.Popping.{next_head, segments_from};
ghost use Rattle.virtio_queue.specs.Rings.{before, index_after, next_in};
ghost use Rattle.virtio_queue.specs.State.{is_size};
ghost use Rattle.virtio_queue.specs.declared.descriptor.Descriptor.{Descriptor};
ghost use Rattle.virtio_queue.specs.declared.error.QueueError.TheVariants.{DescriptorLoop, IndirectWithNext};
ghost use Rattle.virtio_queue.specs.declared.error.QueueError.TheVariants.{InvalidAvailRingIndex};
ghost use Rattle.virtio_queue.specs.declared.error.QueueError.TheVariants.{InvalidDescriptorIndex};
ghost use Rattle.virtio_queue.specs.declared.error.QueueError.TheVariants.{InvalidIndirectTable};
ghost use Rattle.virtio_queue.specs.declared.state.QueueState.{QueueState};

/// Sizes are powers of two. Indices go on from 65535 to 0. A ring of two heads, 7 and 8, gives the one at the next
/// index, even there; nothing if the driver has published no more; and no index that is three ahead.
pub fn rings_go_round()
    ensures sizes { (is_size 0 ≡ false) × (is_size 1 ≡ true) × (is_size 12 ≡ false) × (is_size (2 ^ 15) ≡ true) }
    ensures indices { (index_after 65535 ≡ 0) × (before 0 ≡ 65535) }
    ensures next { next_in 2 1 65535 (λ i. Ok (i + 7)) ≡ Ok (Some 8) }
    ensures none { next_in 2 1 1 (λ i. Ok (i + 7)) ≡ Ok None }
    ensures ahead { next_in 2 1 65534 (λ i. Ok (i + 7)) ≡ Err InvalidAvailRingIndex }
{}

/// The two entries before index 1 are those of 65535 and 0. Each index is among 65536 entries.
pub fn events_go_round()
    ensures two { (is_among 2 1 65535 ≡ true) × (is_among 2 1 0 ≡ true) × (is_among 2 1 1 ≡ false)
        × (is_among 2 1 65534 ≡ false) }
    ensures all { (is_among 65535 7 6 ≡ true) × (is_among 65535 7 7 ≡ false) × (is_among 65536 7 7 ≡ true) }
{}

/// In a table of two descriptors where 1 leads to 0, and 0 to none, following from 1 gives both, and 2 is not an index.
/// If each leads to 0, it is a loop. An indirect table of 48 bytes has three descriptors, one of 24 bytes is refused,
/// and none has a next one.
#[tactic(auto, unfolding(crate::specs::Available::followed))]
pub fn chains_are_followed()
    ensures both { let d : ℕ → Descriptor = λ i. record { addr = 64; len = i; flags = i; next = 0 } in
        followed (λ i. Ok (d i)) 2 2 1
        ≡ Ok (record { segments = segment_of (d 1) ∷ segment_of (d 0) ∷ []; indirect = None }) }
    ensures outside { followed (λ i. Ok (record { addr = 64; len = 1; flags = 0; next = 0 })) 2 2 2
        ≡ Err InvalidDescriptorIndex }
    ensures endless { followed (λ i. Ok (record { addr = 64; len = 1; flags = 1; next = 0 })) 2 2 1
        ≡ Err DescriptorLoop }
    ensures tables { (indirect_len (record { addr = 64; len = 48; flags = 4; next = 0 }) ≡ Ok 3)
        × (indirect_len (record { addr = 64; len = 24; flags = 4; next = 0 }) ≡ Err InvalidIndirectTable)
        × (indirect_len (record { addr = 64; len = 48; flags = 5; next = 0 }) ≡ Err IndirectWithNext) }
{}

/// A driver publishes a chain whose only descriptor leads to itself, and makes it the last one after the first look at
/// it. The next look finds that, and the segments of the chain are those that the two looks found.
pub fn pops_take_what_each_look_finds()
    ensures { (table avail used : ℕ) → let q : QueueState = record {
      max_size = 2;
      size = 2;
      ready = true;
      desc_table = table;
      avail_ring = avail;
      used_ring = used;
      next_avail = 0;
      next_used = 0;
      event_idx_enabled = false;
    } in
        let first : Descriptor = record { addr = 64; len = 7; flags = 1; next = 0 } in
        let later : Descriptor = record { addr = 64; len = 9; flags = 0; next = 0 } in
        Follows Saw (next_head q) (saw (word avail 2) (Ok 1) ∷ saw (word avail 4) (Ok 0) ∷ []) (Ok (Some 0)) []
        × Follows Saw (segments_from q 0) (saw (row table 0) (Ok first) ∷ saw (row table 0) (Ok later) ∷ [])
        (Ok (segment_of first ∷ segment_of later ∷ [])) [] }
{}
