//! What holds of all rings, whatever happens: each function here is a theorem, and does nothing.
ghost use Rattle.std.specs.Prelude.{◌≡◌, ◌⊎◌, ◌+◌, ◌^◌, ◌<◌, ◌≤◌, ◌==◌, ℕ, List, [], ◌∷◌, ◌++◌, true, false, Some};
ghost use Rattle.std.specs.Prelude.{count_by, length, slice_get, sum};
ghost use Rattle.std.specs.List.{list_all, list_any};
ghost use Rattle.vhost_backend.specs.Actions.{is_answer};
ghost use Rattle.vhost_backend.specs.Line.{stands_in};
ghost use Rattle.vhost_backend.specs.Ring.{RingState, after_end, after_stop, is_idle, is_on, is_stopping, may_run};
ghost use Rattle.vhost_backend.specs.Ring.{new_ring, request_at, wants};
ghost use Rattle.vhost_backend.specs.Rings.{RingsState, after_hold, all_idle, happens, has_next, has_turn, is_free};
ghost use Rattle.vhost_backend.specs.Rings.{is_waiting, left_of, may_pop, new_rings};
ghost use Rattle.vhost_backend.specs.Story.{RingStep, actions, after, all_returned_bytes, answers, busy, ends};
ghost use Rattle.vhost_backend.specs.Story.{failures, has_start, moved, notified, of_id, owing, parts_left, popped};
ghost use Rattle.vhost_backend.specs.Story.{returned, returned_failed, served, so_far, stepped, stops, taken};
ghost use Rattle.vhost_backend.specs.Story.{under_way, waiting};
ghost use Rattle.vhost_backend.specs.Turns.{Waits, actions_of, after_all, all_done, any_touches, before, held_count};
ghost use Rattle.vhost_backend.specs.Turns.{holds, is_go_on, is_release, own_actions, starts, story_of, turns};
ghost use Rattle.vhost_backend.specs.Turns.{waits_to_hold};
ghost use Rattle.vhost_backend.specs.Turns as turn;
ghost use Rattle.vhost_backend.specs.declared.request.Chain.{Chain};
ghost use Rattle.vhost_backend.specs.declared.request.PartEnd.{PartEnd};
ghost use Rattle.vhost_backend.specs.declared.request.Request.{Request};
ghost use Rattle.vhost_backend.specs.declared.ring.Phase.TheVariants.{Stopped};
ghost use Rattle.vhost_backend.specs.declared.ring.RingEvent.TheVariants.{Break, Emptied, Popped};
ghost use Rattle.vhost_backend.specs.declared.ring.actions.RingAction.{RingAction};
ghost use Rattle.vhost_backend.specs.declared.ring.actions.RingAction.TheVariants as action;
ghost use Rattle.vhost_backend.specs.declared.rings.Event.{Event};
ghost use Rattle.vhost_backend.specs.declared.rings.Event.TheVariants as event;
ghost use Rattle.vhost_backend.specs.declared.rings.Hold.TheVariants.{Held};

use crate::rings::{TURN, TURN_BYTES};

/// The chains of an id that were under way and that were popped are, in order, those that were returned and that are
/// under way. So each that is popped is returned once or is under way, by its own id and slots, whether the ring is
/// enabled, breaks or stops meanwhile; and none is returned twice, or was not popped.
pub fn each_chain_is_returned_once()
    ensures of_ring { (ring : RingState) (steps : List RingStep) (id : ℕ)
        → under_way ring id ++ of_id id (popped steps ring)
        ≡ of_id id (returned (actions steps ring)) ++ under_way (after steps ring) id }

    // The same of one of many rings, by the actions for it.
    ensures of_rings { (s : RingsState) (events : List Event) (i id : ℕ) (old new : RingState)
        → slice_get s.rings i ≡ Some old → slice_get (after_all events s).rings i ≡ Some new
        → under_way old id ++ of_id id (popped (story_of i events s) old)
        ≡ of_id id (returned (actions_of i (all_done events s))) ++ under_way new id }
{}

/// A chain that is popped when [`may_pop`](crate::Rings::may_pop) says so is not lost: it is under way, it is returned
/// at once since its request has no parts, or it breaks the ring since its id has no place, or one of it is under way.
pub fn no_popped_chain_is_lost()
    ensures { (s : RingsState) (i : ℕ) (chain : Chain) (parts bytes : ℕ) → may_pop s i ≡ true
        → let done = (happens s (event.Ring i (Popped chain parts bytes))).1 in
        (done.actions ≡ action.Serve chain.id parts ∷ []) ⊎ (done.actions ≡ action.Return chain 0 false ∷ [])
        ⊎ (done.actions ≡ action.Broke ∷ []) }
{}

/// A message that stops a ring is answered after all that was under way ended and was returned, and after the driver
/// was told of it. From the message until the ring is started again nothing is popped, and from the answer on nothing
/// is done for it, except that further such messages are answered. Each of these messages gets one answer, and while
/// one waits, something is under way.
pub fn stops_are_answered_after_all_that_is_under_way()
    ensures idle { (ring : RingState) (s : RingStep) → 0 < answers (stepped ring s).1
        → let new = (stepped ring s).0 in (new.phase ≡ Stopped) × (is_idle new ≡ true) × (new.owes ≡ false) }
    ensures last { (ring : RingState) (s : RingStep) → 0 < answers (stepped ring s).1
        → (before : List RingAction) × ((stepped ring s).1 ≡ before ++ action.Stopped ∷ []) × (answers before ≡ 0) }
    ensures pops_nothing { (ring : RingState) (steps : List RingStep) → has_start steps ≡ false
        → popped steps (after_stop ring).0 ≡ [] }
    ensures gone { (ring : RingState) (s : RingStep) (steps : List RingStep) → 0 < answers (stepped ring s).1
        → has_start steps ≡ false → list_all is_answer (actions steps (stepped ring s).0) ≡ true }
    ensures each { (ring : RingState) (steps : List RingStep)
        → waiting ring + stops steps ring ≡ answers (actions steps ring) + waiting (after steps ring) }
    ensures waits { (ids : ℕ) (steps : List RingStep) → let ring = after steps (new_ring ids) in
        is_stopping ring.phase ≡ true → is_idle ring ≡ false }

    // What is gone, of one of many rings.
    ensures gone_of_rings { (s : RingsState) (e : Event) (events : List Event) (i : ℕ) (ring : RingState)
        → slice_get s.rings i ≡ Some ring → 0 < answers (own_actions i (happens s e).1)
        → list_any (starts i) events ≡ false
        → list_all is_answer (actions_of i (all_done events (happens s e).0)) ≡ true }
{}

/// Whether a ring owes its driver a notification: chains were returned after it was told last.
pub fn no_return_is_silent()
    ensures { (ring : RingState) (steps : List RingStep)
        → (after steps ring).owes ≡ owing ring.owes (actions steps ring) }
{}

/// The parts of a request are served one after another: each is served once, and ends before the next one is served and
/// before the chain is returned. So of an id as many parts are served as end, and one more while it is under way.
pub fn parts_are_served_one_after_another()
    ensures { (ring : RingState) (steps : List RingStep) (id : ℕ)
        → served id (actions steps ring) + busy ring id ≡ ends id steps ring + busy (after steps ring) id }
{}

/// Chains are returned with what their parts did: the bytes that they moved, no matter in which order the ends of
/// different requests come, and as failed if a part failed.
pub fn chains_are_returned_with_what_their_parts_did()
    ensures bytes { (ring : RingState) (steps : List RingStep) (id : ℕ) → so_far ring id + moved id steps ring < 2 ^ 64
        → all_returned_bytes id (actions steps ring) + so_far (after steps ring) id
        ≡ so_far ring id + moved id steps ring }
    ensures failed { (ring : RingState) (steps : List RingStep) (id : ℕ)
        → returned_failed id (actions steps ring) ≡ failures id steps ring }
{}

/// Each part that ends leaves fewer that have not, and only a chain that is popped brings more. So after as many ends
/// nothing is under way, and a message that stops a ring is answered.
pub fn each_end_leaves_fewer_parts()
    ensures fewer { (ring : RingState) (id : ℕ) (end : PartEnd) (request : Request) → request_at ring id ≡ Some request
        → parts_left (after_end ring id end).0 < parts_left ring }
    ensures no_more { (ring : RingState) (s : RingStep) → taken ring s ≡ []
        → parts_left (stepped ring s).0 ≤ parts_left ring }
{}

/// What becomes of a ring, and what is done for it, follows from its own steps: its events that are admitted, and its
/// turns. So each law of a ring holds of each of these rings, and what one waits for keeps no other from going on.
pub fn each_ring_goes_its_own_way()
    ensures becomes { (s : RingsState) (events : List Event) (i : ℕ) (ring : RingState)
        → slice_get s.rings i ≡ Some ring
        → slice_get (after_all events s).rings i ≡ Some (after (story_of i events s) ring) }
    ensures done { (s : RingsState) (events : List Event) (i : ℕ) (ring : RingState) → slice_get s.rings i ≡ Some ring
        → actions_of i (all_done events s) ≡ actions (story_of i events s) ring }
{}

/// When no ring has a turn next, and none is held, each ring that runs was found empty after it was notified or started
/// last, and each driver was told of all that was returned.
pub fn no_notification_is_lost()
    ensures kicked { (ring : RingState) (steps : List RingStep)
        → (after steps ring).kicked ≡ notified ring.kicked steps ring }
    ensures rests { (count ids : ℕ) (events : List Event) (i : ℕ) (ring : RingState)
        → let s = after_all events (new_rings count ids) in is_free s.hold ≡ true → has_next s ≡ false
        → slice_get s.rings i ≡ Some ring → (ring.owes ≡ false) × (may_run ring ≡ true → ring.kicked ≡ false) }
{}

/// The rings that want a turn are those that stand in the line.
pub fn rings_that_want_a_turn_stand_in_line()
    ensures { (count ids : ℕ) (events : List Event) (i : ℕ) (ring : RingState)
        → let s = after_all events (new_rings count ids) in slice_get s.rings i ≡ Some ring
        → stands_in i s.line ≡ wants ring }
{}

/// While a ring stands in the line and has no turn, no other has two turns, and there are no more turns than rings
/// before it.
pub fn turns_are_fair()
    ensures fair { (s : RingsState) (events : List Event) (one other : ℕ) → stands_in one s.line ≡ true
        → Waits one events s → count_by (λ i. i == other) (turns events s) ≤ 1 }
    ensures soon { (s : RingsState) (events : List Event) (one : ℕ) → stands_in one s.line ≡ true
        → Waits one events s → length (turns events s) ≤ length (before one s.line) }
{}

/// While a ring may pop chains, each one that is popped shortens its turn, which is over if no chain is left or the
/// ring breaks. So a loop that pops chains of a ring while it may comes to an end.
pub fn turns_come_to_an_end()
    ensures popped { (s : RingsState) (i : ℕ) (chain : Chain) (parts bytes : ℕ) → may_pop s i ≡ true
        → left_of (happens s (event.Ring i (Popped chain parts bytes))).0.turn < left_of s.turn }
    ensures emptied { (s : RingsState) (i : ℕ) → may_pop s i ≡ true
        → may_pop (happens s (event.Ring i Emptied)).0 i ≡ false }
    ensures broken { (s : RingsState) (i : ℕ) → may_pop (happens s (event.Ring i Break)).0 i ≡ false }
{}

/// A ring that has a turn was started, and was not stopped since: a stop ends the turn of its ring. So a ring that is
/// started again pops nothing before its next turn.
pub fn a_stop_ends_the_turn()
    ensures { (count ids : ℕ) (events : List Event) (i : ℕ) (ring : RingState)
        → let s = after_all events (new_rings count ids) in has_turn s.turn i ≡ true
        → slice_get s.rings i ≡ Some ring → is_on ring.phase ≡ true }
{}

/// Until the next turn at most [`TURN`] chains are popped, and all but the last of them ask for fewer bytes than
/// [`TURN_BYTES`].
pub fn turns_are_bounded()
    ensures chains { (count ids : ℕ) (events later : List Event) → list_any is_go_on later ≡ false
        → length (turn.popped later (after_all events (new_rings count ids))) ≤ TURN }
    ensures bytes { (count ids : ℕ) (events later : List Event) (front : List ℕ) (last : ℕ)
        → list_any is_go_on later ≡ false
        → turn.popped later (after_all events (new_rings count ids)) ≡ front ++ last ∷ []
        → sum front < TURN_BYTES }
{}

/// A message that holds all rings is done when nothing is under way. From the message until it was done no chain is
/// popped, and from then on nothing has guest memory read or written, but that drivers may be interrupted before
/// further answers. Each of these messages is done once, and while one waits, something is under way.
pub fn held_rings_touch_nothing()
    ensures idle { (s : RingsState) (e : Event) → (happens s e).1.held ≡ true
        → (all_idle (happens s e).0.rings ≡ true) × ((happens s e).0.hold ≡ Held) }
    ensures pops_nothing { (s : RingsState) (events : List Event) → is_free s.hold ≡ true
        → list_any is_release events ≡ false → turn.popped events (after_hold s).0 ≡ [] }
    ensures gone { (count ids : ℕ) (events : List Event) (e : Event) (later : List Event)
        → let s = after_all events (new_rings count ids) in (happens s e).1.held ≡ true
        → list_any is_release later ≡ false → any_touches (all_done later (happens s e).0) ≡ false }
    ensures each { (s : RingsState) (events : List Event)
        → waits_to_hold s + holds events s ≡ held_count (all_done events s) + waits_to_hold (after_all events s) }
    ensures waits { (count ids : ℕ) (events : List Event) → let s = after_all events (new_rings count ids) in
        is_waiting s.hold ≡ true → all_idle s.rings ≡ false }
{}
