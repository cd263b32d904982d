//! What holds of every connection, whatever happens: each function here is a theorem, and does nothing.
ghost use Rattle.std.specs.Prelude.{◌≡◌, ◌+◌, ◌++◌, ◌&&◌, ◌==◌, not, ℕ, Bool, List, [], length, true, false, Some};
ghost use Rattle.std.specs.Prelude.{None};
ghost use Rattle.std.specs.Prelude.{is_ok, option_map, slice_get};
ghost use Rattle.vhost_message.specs.declared.frontend_req.FrontendReq.{FrontendReq};
ghost use Rattle.vhost_message.specs.declared.frontend_req.FrontendReq.TheVariants.{GetVringBase, SetMemTable};
ghost use Rattle.vhost_message.specs.declared.header.Header.{Header};
ghost use Rattle.vhost_message.specs.declared.refusal.Refusal.{Refusal};
ghost use Rattle.vhost_message.specs.declared.regions.MemoryRegion.{MemoryRegion};
ghost use Rattle.vhost_user.specs.Connection.{Connection, connected};
ghost use Rattle.vhost_user.specs.Running.{running};
ghost use Rattle.vhost_user.specs.declared.backend_req_handler.Offer.{Offer};
ghost use Rattle.vhost_backend.specs.Backend.{BackendState, after_event, after_message, is_at_rest, is_free};
ghost use Rattle.vhost_backend.specs.Backend.{mapping_at, new_backend};
ghost use Rattle.vhost_backend.specs.Messages.{Happening, after, all_events, all_to_do, changes_all, over_count};
ghost use Rattle.vhost_backend.specs.Messages.{pending, ring_actions, taken_count, to_do, told_last};
ghost use Rattle.vhost_backend.specs.Ring.{RingState, is_broken, is_idle, may_run};
ghost use Rattle.vhost_backend.specs.Rings.{all_idle, happens};
ghost use Rattle.vhost_backend.specs.Turns.{actions_of, after_all, all_done, any_touches};
ghost use Rattle.vhost_backend.specs.Turns as turn;
ghost use Rattle.vhost_backend.specs.declared.backend.Outcome.TheVariants.{Refused};
ghost use Rattle.vhost_backend.specs.declared.backend.Taken.TheVariants as taken;
ghost use Rattle.vhost_backend.specs.declared.backend.Until.TheVariants as until;
ghost use Rattle.vhost_backend.specs.declared.mapping.Mapping.{Mapping};
ghost use Rattle.vhost_backend.specs.declared.mapping.Mapping.TheVariants.{Map, UnmapAll};
ghost use Rattle.vhost_backend.specs.declared.ring.Phase.TheVariants.{Stopped};
ghost use Rattle.vhost_backend.specs.declared.rings.Event.{Event};
ghost use Rattle.vhost_backend.specs.declared.rings.Hold.TheVariants.{Held};

/// Messages come to events of rings, and what is to be done for rings is done for these. So each law of rings holds
/// of those of a connection.
pub fn messages_are_events_of_rings()
    ensures becomes { (b : BackendState) (xs : List Happening)
        → (after xs b).rings ≡ after_all (all_events xs b) b.rings }
    ensures done { (b : BackendState) (xs : List Happening) (ring : ℕ)
        → ring_actions ring (all_to_do xs b) ≡ actions_of ring (all_done (all_events xs b) b.rings) }
{}

/// Each message that is taken is refused or finished, once, before the next one is taken.
pub fn each_message_is_answered_once()
    ensures { (b : BackendState) (xs : List Happening)
        → pending b + taken_count xs b ≡ over_count xs b + pending (after xs b) }
{}

/// After the connection ended, or a message could not be done, no message is taken, the protocol's state stays, and no
/// chain is popped. When nothing is under way any more, nothing has guest memory read or written.
pub fn nothing_comes_after_the_end()
    ensures stays { (b : BackendState) (later : List Happening) → b.taken ≡ taken.Over
        → ((after later b).taken ≡ taken.Over) × ((after later b).connection ≡ b.connection)
        × (taken_count later b ≡ 0) }
    ensures pops_nothing { (c : Connection) (ids : ℕ) (xs later : List Happening)
        → let b = after xs (new_backend c ids) in b.taken ≡ taken.Over
        → turn.popped (all_events later b) b.rings ≡ [] }
    ensures rests { (c : Connection) (ids : ℕ) (xs later : List Happening)
        → let b = after xs (new_backend c ids) in is_at_rest b ≡ true
        → (all_idle b.rings.rings ≡ true) × (any_touches (all_done (all_events later b) b.rings) ≡ false) }
{}

/// Between messages a ring runs exactly if the protocol's state has it run, except that one which broke runs after it
/// was stopped and started again.
pub fn rings_run_as_the_protocol_has_it()
    ensures { (offer : Offer) (queues ids : ℕ) (config : List ℕ) (xs : List Happening) (i : ℕ) (ring : RingState)
        → let b = after xs (new_backend (connected offer queues config) ids) in is_free b.taken ≡ true
        → slice_get b.rings.rings i ≡ Some ring
        → may_run ring ≡ (is_ok (running b.connection i) && not (is_broken ring.phase)) }
{}

/// Before something is done for a ring between messages, its queue was told that it lies where the protocol's state has
/// it.
pub fn queues_are_told_where_rings_lie()
    ensures { (c : Connection) (ids : ℕ) (xs : List Happening) (x : Happening) (i : ℕ) (ring : RingState)
        → let b = after xs (new_backend c ids) in is_free b.taken ≡ true → slice_get b.rings.rings i ≡ Some ring
        → (length (ring_actions i (to_do b x)) == 0) ≡ false
        → told_last i None (all_to_do xs (new_backend c ids) ++ to_do b x) ≡ Some (running b.connection i) }
{}

/// A message that changes memory, features or the log takes effect when nothing is under way, and until it is
/// finished nothing is begun. The base of a ring is replied when nothing of that is under way, and it is stopped.
pub fn what_a_message_changes_is_at_rest()
    ensures all { (c : Connection) (ids : ℕ) (xs : List Happening) (h : Header) (request : FrontendReq)
        → let b = after xs (new_backend c ids) in b.taken ≡ taken.Begun h request → changes_all request ≡ true
        → (b.rings.hold ≡ Held) × (all_idle b.rings.rings ≡ true) }
    ensures one { (c : Connection) (ids : ℕ) (xs : List Happening) (h : Header) (i : ℕ) (ring : RingState)
        → let b = after xs (new_backend c ids) in b.taken ≡ taken.Begun h (GetVringBase i)
        → slice_get b.rings.rings i ≡ Some ring → (ring.phase ≡ Stopped) × (is_idle ring ≡ true) }
{}

/// Guest memory is mapped and unmapped when nothing is under way, until the message is finished. The regions of a table
/// are mapped in order, each once and from its own descriptor, after what was mapped is gone.
pub fn memory_is_mapped_at_rest()
    ensures rest { (c : Connection) (ids : ℕ) (xs : List Happening) (number : ℕ) (mapping : Mapping)
        → let b = after xs (new_backend c ids) in mapping_at b.taken number ≡ Some mapping
        → (b.rings.hold ≡ Held) × (all_idle b.rings.rings ≡ true) }
    ensures first { (h : Header) (table : List MemoryRegion)
        → mapping_at (taken.Begun h (SetMemTable table)) 0 ≡ Some UnmapAll }
    ensures each { (h : Header) (table : List MemoryRegion) (k : ℕ)
        → mapping_at (taken.Begun h (SetMemTable table)) (k + 1)
        ≡ option_map (λ region. Map region k) (slice_get table k) }
{}

/// A message that waits does so for something that is under way, whose ends let it take effect.
pub fn messages_wait_for_what_is_under_way()
    ensures all { (c : Connection) (ids : ℕ) (xs : List Happening) (h : Header) (request : FrontendReq)
        → let b = after xs (new_backend c ids) in b.taken ≡ taken.Waits h request until.AllRings
        → all_idle b.rings.rings ≡ false }
    ensures one { (c : Connection) (ids : ℕ) (xs : List Happening) (h : Header) (request : FrontendReq) (i : ℕ)
        (ring : RingState) → let b = after xs (new_backend c ids) in b.taken ≡ taken.Waits h request (until.Ring i)
        → slice_get b.rings.rings i ≡ Some ring → is_idle ring ≡ false }
{}

/// A message that is refused changes neither the protocol's state, nor a ring, nor what is under way.
pub fn refused_messages_change_nothing()
    ensures comes { (c : Connection) (ids : ℕ) (xs : List Happening) (h : Header) (payload : List ℕ)
        (descriptors : ℕ)
        (in_use : Bool) (e : Refusal) (told : Header) → let b = after xs (new_backend c ids) in
        let t = after_message b h payload descriptors in_use in t.1.message ≡ Refused e told
        → (t.0.connection ≡ b.connection) × (t.0.rings.rings ≡ b.rings.rings) }

    // The same of one that waited, beside what happened to a ring meanwhile.
    ensures waited { (b : BackendState) (event : Event) (e : Refusal) (told : Header)
        → let t = after_event b event in t.1.message ≡ Refused e told
        → (t.0.connection ≡ b.connection) × (t.0.rings.rings ≡ (happens b.rings event).0.rings) }
{}
