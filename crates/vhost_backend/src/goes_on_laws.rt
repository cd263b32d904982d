//! What makes a request go on that waits for a mapping: each function here is a theorem, and does nothing.
ghost use Rattle.std.specs.Prelude.{◌≡◌, ◌⊎◌, ◌+◌, ◌^◌, ◌<◌, ◌≤◌, ◌∷◌, ◌++◌, [], ℕ, List, Bool, Option, Some, None};
ghost use Rattle.std.specs.Prelude.{false, true, length, slice_get, slice_set, Ok, Result};
ghost use Rattle.std.specs.declared.alloc.Global.{Global};
ghost use Rattle.vm_memory_base.specs.Address.{is_within};
ghost use Rattle.vm_memory_base.specs.Permissions.{allow};
ghost use Rattle.vm_memory_base.specs.Table.{Says, Table, says};
ghost use Rattle.vm_memory_base.specs.declared.iotlb.Permissions.{Permissions};
ghost use Rattle.virtio_blk.specs.declared.request.DeviceLimits.{DeviceLimits};
ghost use Rattle.vhost_iotlb.specs.Leads.{LeadsTo};
ghost use Rattle.vhost_iotlb.specs.Taking.{AreReal, Covers};
ghost use Rattle.vhost_iotlb.specs.declared.kept.Change.{Change};
ghost use Rattle.vhost_iotlb.specs.declared.kept.Change.TheVariants.{Map};
ghost use Rattle.vhost_message.specs.declared.backend_req.BackendReply.{BackendReply};
ghost use Rattle.vhost_message.specs.declared.header.Header.{Header};
ghost use Rattle.vhost_message.specs.declared.refusal.Refusal.{Refusal};
ghost use Rattle.vhost_user.specs.declared.backend_req_handler.Offer.{Offer};
ghost use Rattle.vhost_backend.specs.Behind.{GivesUp, HappensBehind, with_fetch};
ghost use Rattle.vhost_backend.specs.BlockBackend.{Looks, Steps, answered, came, channel_lost, gone_on, hung_up};
ghost use Rattle.vhost_backend.specs.BlockBackend.{TakesTurn, asked_next, mapped, new_block_backend, replied_to};
ghost use Rattle.vhost_backend.specs.BlockBackend.{resized, told};
ghost use Rattle.vhost_backend.specs.BlockQueue.{BlockQueueState};
ghost use Rattle.vhost_backend.specs.BlockTable.{ChangesTable, memory_lost};
ghost use Rattle.vhost_backend.specs.Fetch.{FetchState, GoesOn, IsFound};
ghost use Rattle.vhost_backend.specs.GoesOn.{FindsByEach, IsServed, PopsOrNothing, Tends, bytes_left};
ghost use Rattle.vhost_backend.specs.GoesOn.{drops, fetch_at};
ghost use Rattle.vhost_backend.specs.Kicks.{IsKicked};
ghost use Rattle.vhost_backend.specs.Questions.{QuestionsState, after_reply, has_miss};
ghost use Rattle.vhost_backend.specs.Reach.{most_for, waited_for};
ghost use Rattle.vhost_backend.specs.Run.{Course, Move, Moves, RunsBy};
ghost use Rattle.vhost_backend.specs.Sight.{Sight};
ghost use Rattle.vhost_backend.specs.TableUse.{awaited};
ghost use Rattle.vhost_backend.specs.declared.block_backend.BlockBackend.{BlockBackend};
ghost use Rattle.vhost_backend.specs.declared.block_connection.BlockConnection.{BlockConnection};
ghost use Rattle.vhost_backend.specs.declared.deeds.Deed.TheVariants.{Ask};
ghost use Rattle.vhost_backend.specs.declared.deeds.Limits.{Limits};
ghost use Rattle.vhost_backend.specs.declared.deeds.Made.{Made};
ghost use Rattle.vhost_backend.specs.declared.deeds.Made.TheVariants.{Deed};
ghost use Rattle.vhost_backend.specs.declared.deeds.Why.{Why};
ghost use Rattle.vhost_backend.specs.declared.fetch.Found.{Found};
ghost use Rattle.vhost_backend.specs.declared.fetch.Goal.TheVariants.{Chain, Status};
ghost use Rattle.vhost_backend.specs.declared.fetch.State.TheVariants.{Stops, Waits, Whole};
ghost use Rattle.vhost_backend.specs.declared.questions.Miss.{Miss};
ghost use Rattle.vhost_backend.specs.declared.questions.SentMiss.{SentMiss};
ghost use Rattle.vhost_backend.specs.declared.request.PartEnd.{PartEnd};
ghost use Rattle.vhost_backend.specs.declared.ring.RingEvent.{RingEvent};
ghost use Rattle.vhost_backend.specs.declared.ring.RingEvent.TheVariants.{Ended};
ghost use Rattle.vhost_backend.specs.declared.rings.Event.TheVariants as event;
ghost use Rattle.vhost_backend.specs.declared.rows.ActionRow.{ActionRow};
ghost use Rattle.vhost_backend.specs.declared.rows.Counts.{Counts};
ghost use Rattle.vhost_backend.specs.declared.rows.EndRow.{EndRow};
ghost use Rattle.vhost_backend.specs.declared.rows.PieceRow.{PieceRow};

use crate::ring_memory::RingMemory;
use vm_memory_base::laws::table::tables_keep_to_their_limits;

/// An UPDATE serves a request that waits for it in the same change of the table, before anything can evict it: of what
/// the ring fetches, more is found by the table as it is then, unless as many ranges are kept as may be or an
/// allocation failed. A ring that waits no more is looked at. The mapping that the message sets serves each address
/// that it has, for an access that it permits, however small the table's limit. A ring of which the change drops
/// something fetches nothing then, and is looked at.
pub fn an_update_serves_before_it_evicts<H, D: RingMemory<H>>()
    ensures leads { (mem : D) (w new_w : BlockBackend) (t new_t : Table) (old new : H) (c : Change) (ring : ℕ)
        (q : BlockQueueState) (g : FetchState) (iova to : ℕ) (access : Permissions)
        → ChangesTable (D.steps mem) w t old true new_w new_t new → w.change ≡ Some c
        → slice_get w.queues ring ≡ Some q → q.reach.fetch ≡ Some g → g.state ≡ Waits iova access
        → drops c q.reach ≡ false → length w.kicks ≡ length w.queues → LeadsTo (says new_t) iova to access
        → IsServed (says new_t) (most_for q.reach (length q.asked) g.goal) g new_w ring }
    ensures sets { (mem : D) (w new_w : BlockBackend) (t new_t : Table) (old new : H) (ring : ℕ) (q : BlockQueueState)
        (g : FetchState) (iova base to len : ℕ) (access permissions : Permissions) → base + len < 2 ^ 64
        → is_within base len iova ≡ true → allow permissions access ≡ true
        → ChangesTable (D.steps mem) w t old true new_w new_t new → w.change ≡ Some (Map base to len permissions)
        → slice_get w.queues ring ≡ Some q → q.reach.fetch ≡ Some g → g.state ≡ Waits iova access
        → drops (Map base to len permissions) q.reach ≡ false → length w.kicks ≡ length w.queues
        → IsServed (says new_t) (most_for q.reach (length q.asked) g.goal) g new_w ring }
    ensures dropped { (mem : D) (w new_w : BlockBackend) (t new_t : Table) (old new : H) (c : Change) (ring : ℕ)
        (q : BlockQueueState) (g : FetchState) → ChangesTable (D.steps mem) w t old true new_w new_t new
        → w.change ≡ Some c → slice_get w.queues ring ≡ Some q → q.reach.fetch ≡ Some g → drops c q.reach ≡ true
        → length w.kicks ≡ length w.queues → (fetch_at new_w ring ≡ None) × IsKicked new_w.kicks (Some ring) }
{
    tables_keep_to_their_limits();
}

/// A MISS that the front end refuses fails the request that waits for it, and no other: what its ring fetches stops.
/// After each reply the ring is looked at, and neither the queue nor a kick of another ring changes. If the channel is
/// lost, no queue changes, and exactly the rings that wait are looked at. Without a channel a turn leaves no ring that
/// waits, and what stopped fails in the next turn of its ring.
pub fn a_refusal_fails_what_waits_for_it<H, D: RingMemory<H>>()
    ensures stops { (w : BlockBackend) (r : BackendReply) (questions : QuestionsState) (one : SentMiss) (g : FetchState)
        (iova : ℕ) (access : Permissions) → r.request ≡ 1 → after_reply w.questions ≡ (questions, Some one)
        → (r.value ≡ 0 → ⊥) → one.is_awaited ≡ true → fetch_at w one.ring ≡ Some g → g.state ≡ Waits iova access
        → length w.kicks ≡ length w.queues → let v = (replied_to w (Ok r)).0 in
        (fetch_at v one.ring ≡ Some (record g { state = Stops })) × IsKicked v.kicks (Some one.ring) }
    ensures looks_at { (w : BlockBackend) (r : BackendReply) (questions : QuestionsState) (one : SentMiss)
        → r.request ≡ 1 → after_reply w.questions ≡ (questions, Some one) → one.ring < length w.kicks
        → IsKicked (replied_to w (Ok r)).0.kicks (Some one.ring) }
    ensures others { (w : BlockBackend) (r : BackendReply) (questions : QuestionsState) (one : SentMiss) (ring : ℕ)
        → r.request ≡ 1 → after_reply w.questions ≡ (questions, Some one) → (ring ≡ one.ring → ⊥)
        → let v = (replied_to w (Ok r)).0 in (slice_get v.queues ring ≡ slice_get w.queues ring)
        × (slice_get v.kicks ring ≡ slice_get w.kicks ring) }
    ensures loses { (w : BlockBackend) → (channel_lost w).queues ≡ w.queues }
    ensures kicks { (w : BlockBackend) (ring iova : ℕ) (access : Permissions) → length w.kicks ≡ length w.queues
        → awaited (slice_get w.queues ring) ≡ Some (iova, access) → IsKicked (channel_lost w).kicks (Some ring) }
    ensures kicks_none { (w : BlockBackend) (ring : ℕ) → awaited (slice_get w.queues ring) ≡ None
        → slice_get (channel_lost w).kicks ring ≡ slice_get w.kicks ring }
    ensures waits { (mem : D) (f : Says) (terms : DeviceLimits) (q new_q : BlockQueueState) (old new : H)
        (e : Option RingEvent) → HappensBehind (D.steps mem) f false terms q old e new_q new
        → waited_for new_q.reach.fetch ≡ None }
    ensures fails { (mem : D) (f : Says) (can_ask : Bool) (terms : DeviceLimits) (q new_q : BlockQueueState)
        (g : FetchState) (old new : H) (e : Option RingEvent) → q.reach.fetch ≡ Some g → g.state ≡ Stops
        → HappensBehind (D.steps mem) f can_ask terms q old e new_q new
        → GivesUp (D.steps mem) terms (with_fetch q None) g.goal old e new_q new }
{}

/// Each range that is found brings a fetch nearer to its end: of the bytes that are wanted, those that are left never
/// become more, and become fewer with it. So a fetch of which `n` bytes are left is whole once it found more `n` times.
/// One that is whole has all of them, and its chain is popped in the next turn of its ring, unless an allocation fails
/// or its header cannot be read. Nothing is looked up for that: what happens then is the same whatever the table says.
pub fn each_mapping_brings_it_nearer<H, D: RingMemory<H>>()
    ensures nearer { (f : Says) (most : ℕ) (old new : FetchState) → Covers new.wants 0 new.kept → GoesOn f most old new
        → length new.kept + bytes_left new ≤ length old.kept + bytes_left old }
    ensures each { (most : ℕ) (fs : List Says) (old new : FetchState) → Covers new.wants 0 new.kept
        → FindsByEach most fs old new → length fs + bytes_left new ≤ bytes_left old }
    ensures whole { (most : ℕ) (fs : List Says) (old new : FetchState) → AreReal new.wants → Covers new.wants 0 new.kept
        → FindsByEach most fs old new → 0 < length fs → bytes_left old ≤ length fs → new.state ≡ Whole }
    ensures found { (f : Says) (most : ℕ) (old new : FetchState) → Covers new.wants 0 new.kept → GoesOn f most old new
        → new.state ≡ Whole → IsFound new.wants new.kept }
    ensures pops { (mem : D) (f : Says) (can_ask : Bool) (terms : DeviceLimits) (q new_q : BlockQueueState)
        (g : FetchState) (found : Found) (old new : H) (e : Option RingEvent) → q.reach.fetch ≡ Some g
        → g.state ≡ Whole → (g.goal ≡ Chain found) ⊎ (g.goal ≡ Status found)
        → HappensBehind (D.steps mem) f can_ask terms q old e new_q new → PopsOrNothing found.buffer e }
    ensures looks_up { (mem : D) (f g : Says) (can_ask may_ask : Bool) (terms : DeviceLimits)
        (q new_q : BlockQueueState) (fetch : FetchState) (old new : H) (e : Option RingEvent)
        → q.reach.fetch ≡ Some fetch → fetch.state ≡ Whole
        → HappensBehind (D.steps mem) f can_ask terms q old e new_q new
        → HappensBehind (D.steps mem) g may_ask terms q old e new_q new }
{}

/// Each ring that waits for a mapping is asked for or looked at. A MISS of it is to be sent, or is without a reply; or
/// the ring was kicked; or it has its turn as soon as it runs. A reply, whatever it says, has the ring looked at
/// ([`a_refusal_fails_what_waits_for_it`]), and if it still waits after its turn, it asks for what it waits for then
/// ([`a_turn_asks_for_what_its_ring_waits_for`]). A new back end is so, and so it stays by each step, look and call,
/// whatever a guest writes.
pub fn what_waits_is_asked_or_looked_at<H, D: RingMemory<H>>()
    ensures begins { (alloc : Global) (offer : Offer) (count : ℕ) (config : List ℕ) (limits : Limits)
        → Tends (new_block_backend alloc offer count config limits) }
    ensures steps { (mem : D) (w new_w : BlockBackend) (old new : H) (m : Made) → Steps (D.steps mem) w old m new_w new
        → Tends w → Tends new_w }
    ensures looks { (mem : D) (way : Option Sight) (w new_w : BlockBackend) (old new : H) (is : Bool)
        → Looks (D.steps mem) way w old is new_w new → Tends w → Tends new_w }
    ensures comes { (w : BlockBackend) (h : Header) (payload : List ℕ) (descriptors : ℕ) → Tends w
        → Tends (came w h payload descriptors).0 }
    ensures goes_on { (w : BlockBackend) → Tends w → Tends (gone_on w) }
    ensures parts { (w : BlockBackend) (ring id : ℕ) (end : PartEnd) → Tends w
        → Tends (told w (event.Ring ring (Ended id end))) }
    ensures ends { (w : BlockBackend) (y : Why) → Tends w → Tends (hung_up w y) }
    ensures maps { (w : BlockBackend) (is : Bool) → Tends w → Tends (mapped w is) }
    ensures answers { (w : BlockBackend) (is : Bool) → Tends w → Tends (answered w is) }
    ensures replies { (w : BlockBackend) (r : Result BackendReply Refusal) → Tends w → Tends (replied_to w r).0 }
    ensures loses { (w : BlockBackend) → Tends w → Tends (channel_lost w) }
    ensures changes { (mem : D) (w new_w : BlockBackend) (t new_t : Table) (old new : H) (is : Bool)
        → ChangesTable (D.steps mem) w t old is new_w new_t new → Tends w → Tends new_w }
    ensures forgets { (w : BlockBackend) → Tends w → Tends (memory_lost w) }
    ensures resizes { (w : BlockBackend) (sectors : ℕ) → Tends w → Tends (resized w sectors) }
    ensures kicks { (w : BlockBackend) (ring : ℕ) → Tends w
        → Tends (record w { kicks = slice_set w.kicks ring true }) }
    ensures others { (w : BlockBackend) (reply : List ℕ) (unread : ℕ) (finished : Bool) → Tends w
        → Tends (record w { reply = reply; unread = unread; finished = finished }) }
{}

/// A ring that waits for a mapping after its turn asks for that very address and access, unless a MISS of it is to be
/// sent or without a reply. What is to be sent is sent in order.
pub fn a_turn_asks_for_what_its_ring_waits_for<H, D: RingMemory<H>>()
    ensures asks { (mem : D) (way : Option Sight) (w new_w : BlockBackend) (old new : H) (iova : ℕ)
        (access : Permissions) → TakesTurn (D.steps mem) way w old true new_w new
        → awaited (slice_get new_w.queues w.turn) ≡ Some (iova, access) → w.turn < w.questions.rings
        → has_miss w.questions.sent w.questions.due w.turn ≡ false
        → new_w.questions.due ≡ w.questions.due ++ record { ring = w.turn; iova = iova; access = access } ∷ [] }
    ensures sends { (w : BlockBackend) (m : Miss) (rest : List Miss) → w.questions.due ≡ m ∷ rest
        → length w.questions.sent < 64 → (asked_next w).1 ≡ Deed (Ask m) }
{}

/// After each list of moves and each run, too, each ring that waits is asked for or looked at
/// ([`what_waits_is_asked_or_looked_at`]).
pub fn runs_ask_for_what_waits()
    ensures moves { (c d : Course) (ms : List Move) → Moves c ms d → Tends c.connection.backend
        → Tends d.connection.backend }
    ensures runs { (c new_c : BlockConnection) (ends : List EndRow) (turns : ℕ) (actions : List ActionRow)
        (pieces : List PieceRow) (bytes : List ℕ) (counts : Counts)
        → RunsBy c ends turns actions pieces bytes counts new_c → Tends c.backend → Tends new_c.backend }
{}
