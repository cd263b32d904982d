//! What holds of a back end as a whole: each function here is a theorem, and does nothing.
ghost use Rattle.std.specs.Prelude.{◌≡◌, ◌+◌, ◌<◌, ◌≤◌, ℕ, List, Bool, Option, Some, false, true, is_some, length};
ghost use Rattle.std.specs.Prelude.{slice_get, Result, Ok};
ghost use Rattle.std.specs.declared.alloc.Global.{Global};
ghost use Rattle.vm_memory_base.specs.Table.{Table};
ghost use Rattle.vhost_message.specs.FrontendReq.{request_of};
ghost use Rattle.vhost_message.specs.declared.backend_req.BackendReply.{BackendReply};
ghost use Rattle.vhost_message.specs.declared.frontend_req.FrontendReq.TheVariants.{IotlbMsg};
ghost use Rattle.vhost_message.specs.declared.header.Header.{Header};
ghost use Rattle.vhost_message.specs.declared.iotlb.IotlbMessage.{IotlbMessage};
ghost use Rattle.vhost_message.specs.declared.refusal.Refusal.{Refusal};
ghost use Rattle.vhost_user.specs.declared.backend_req_handler.Offer.{Offer};
ghost use Rattle.vhost_backend.specs.Backend.{BackendState, after_message, is_free};
ghost use Rattle.vhost_backend.specs.BlockBackend.{Looks, Steps, answered, came, channel_lost, gone_on, hung_up};
ghost use Rattle.vhost_backend.specs.BlockBackend.{is_done};
ghost use Rattle.vhost_backend.specs.BlockBackend.{is_quiet, mapped, new_block_backend, replied_to, resized, told};
ghost use Rattle.vhost_backend.specs.BlockQueue.{Agrees, BlockQueueState, asked_at, given};
ghost use Rattle.vhost_backend.specs.BlockTable.{ChangesTable, memory_lost};
ghost use Rattle.vhost_backend.specs.BlockQueues.{FinishesAt};
ghost use Rattle.vhost_backend.specs.PageList.{InRange, IsToMark, Pages, added};
ghost use Rattle.vhost_backend.specs.Questions.{QuestionsState, has_next};
ghost use Rattle.vhost_backend.specs.Ring.{RingState};
ghost use Rattle.vhost_backend.specs.Sound.{IsClear, Sound, pending};
ghost use Rattle.vhost_backend.specs.Story.{busy, of_id};
ghost use Rattle.vhost_backend.specs.Whole.{Leads};
ghost use Rattle.vhost_backend.specs.declared.block_backend.BlockBackend.{BlockBackend};
ghost use Rattle.vhost_backend.specs.declared.block_queue.Finished.{Finished};
ghost use Rattle.vhost_backend.specs.declared.block_queue.Finished.TheVariants.{NotUnderWay};
ghost use Rattle.vhost_backend.specs.Sight.{Sight};
ghost use Rattle.vhost_backend.specs.declared.deeds.Limits.{Limits};
ghost use Rattle.vhost_backend.specs.declared.deeds.Made.{Made};
ghost use Rattle.vhost_backend.specs.declared.deeds.Made.TheVariants.{Idle};
ghost use Rattle.vhost_backend.specs.declared.deeds.Why.{Why};
ghost use Rattle.vhost_backend.specs.declared.page_list.PageRange.{PageRange};
ghost use Rattle.vhost_backend.specs.declared.request.Chain.{Chain};
ghost use Rattle.vhost_backend.specs.declared.request.PartEnd.{PartEnd};
ghost use Rattle.vhost_backend.specs.declared.ring.RingEvent.TheVariants.{Ended};
ghost use Rattle.vhost_backend.specs.declared.ring.actions.RingAction.TheVariants.{Return};
ghost use Rattle.vhost_backend.specs.declared.rings.Event.{Event};
ghost use Rattle.vhost_backend.specs.declared.rings.Event.TheVariants as event;

use crate::ring_memory::RingMemory;

/// Each step on memory is something that happens to the connection, or nothing: a message, what came of one, an event
/// of a ring, or the end. So is each call, and nothing happens to it by a change of the table. So every law of
/// [messages](crate::messages_laws) and of [rings](crate::laws) holds of the connection of a back end as a whole,
/// whatever a guest writes.
pub fn each_step_happens_to_the_connection<H, D: RingMemory<H>>()
    ensures steps { (mem : D) (w new_w : BlockBackend) (old new : H) (m : Made) → Steps (D.steps mem) w old m new_w new
        → Leads w.backend new_w.backend }
    ensures looks { (mem : D) (way : Option Sight) (w new_w : BlockBackend) (old new : H) (is : Bool)
        → Looks (D.steps mem) way w old is new_w new → Leads w.backend new_w.backend }
    ensures comes { (w : BlockBackend) (h : Header) (payload : List ℕ) (descriptors : ℕ)
        → Leads w.backend (came w h payload descriptors).0.backend }
    ensures goes_on { (w : BlockBackend) → Leads w.backend (gone_on w).backend }
    ensures ends { (w : BlockBackend) (y : Why) → Leads w.backend (hung_up w y).backend }
    ensures tells { (w : BlockBackend) (e : Event) → Leads w.backend (told w e).backend }
    ensures maps { (w : BlockBackend) (is : Bool) → Leads w.backend (mapped w is).backend }
    ensures answers { (w : BlockBackend) (is : Bool) → Leads w.backend (answered w is).backend }
    ensures replies { (w : BlockBackend) (r : Result BackendReply Refusal)
        → Leads w.backend (replied_to w r).0.backend }
    ensures loses { (w : BlockBackend) → Leads w.backend (channel_lost w).backend }
    ensures changes { (mem : D) (w new_w : BlockBackend) (t new_t : Table) (old new : H) (is : Bool)
        → ChangesTable (D.steps mem) w t old is new_w new_t new → Leads w.backend new_w.backend }
    ensures forgets { (w : BlockBackend) → Leads w.backend (memory_lost w).backend }
{}

/// A look that finds nothing to do leaves no ring that was kicked and not looked at.
pub fn no_kick_is_left<H, D: RingMemory<H>>()
    ensures { (mem : D) (way : Option Sight) (w new_w : BlockBackend) (old new : H)
        → Looks (D.steps mem) way w old false new_w new
        → (k : ℕ) → slice_get w.kicks k ≡ Some true → ⊥ }
{}

/// A page that is to be marked stays so until it is taken, whatever is added, and so does each page that is added.
pub fn no_page_leaves_the_list()
    ensures added { (page : ℕ) (l : Pages) (range : PageRange) → InRange page range → IsToMark page (added l range) }
    ensures stays { (page : ℕ) (l : Pages) (range : PageRange) → IsToMark page l → IsToMark page (added l range) }
{}

/// The queues of a back end have the requests that its rings have under way, and those whose chains are to be returned.
/// A new one is so, and so it stays, whatever a guest writes. A part may end, a ring may have its turn and rings may be
/// looked at when nothing is left to be done for a ring.
pub fn queues_have_what_rings_have_under_way<H, D: RingMemory<H>>()
    ensures begins { (alloc : Global) (offer : Offer) (count : ℕ) (config : List ℕ) (limits : Limits)
        → Sound (new_block_backend alloc offer count config limits) }
    ensures steps { (mem : D) (w new_w : BlockBackend) (old new : H) (m : Made) → Steps (D.steps mem) w old m new_w new
        → Sound w → Sound new_w }
    ensures looks { (mem : D) (way : Option Sight) (w new_w : BlockBackend) (old new : H) (is : Bool)
        → Looks (D.steps mem) way w old is new_w new → IsClear w → Sound w → Sound new_w }
    ensures comes { (w : BlockBackend) (h : Header) (payload : List ℕ) (descriptors : ℕ) → Sound w
        → Sound (came w h payload descriptors).0 }
    ensures goes_on { (w : BlockBackend) → IsClear w → Sound w → Sound (gone_on w) }
    ensures parts { (w : BlockBackend) (ring id : ℕ) (end : PartEnd) → IsClear w → Sound w
        → Sound (told w (event.Ring ring (Ended id end))) }
    ensures ends { (w : BlockBackend) (y : Why) → Sound w → Sound (hung_up w y) }
    ensures maps { (w : BlockBackend) (is : Bool) → Sound w → Sound (mapped w is) }
    ensures answers { (w : BlockBackend) (is : Bool) → Sound w → Sound (answered w is) }
    ensures replies { (w : BlockBackend) (r : Result BackendReply Refusal) → Sound w → Sound (replied_to w r).0 }
    ensures loses { (w : BlockBackend) → Sound w → Sound (channel_lost w) }
    ensures changes { (mem : D) (w new_w : BlockBackend) (t new_t : Table) (old new : H) (is : Bool)
        → ChangesTable (D.steps mem) w t old is new_w new_t new → Sound w → Sound new_w }
    ensures forgets { (w : BlockBackend) → Sound w → Sound (memory_lost w) }
    ensures resizes { (w : BlockBackend) (sectors : ℕ) → Sound w → Sound (resized w sectors) }
    ensures others { (w : BlockBackend) (kicks : List Bool) (reply : List ℕ) (unread : ℕ) (finished : Bool) → Sound w
        → Sound (record w { kicks = kicks; reply = reply; unread = unread; finished = finished }) }
{}

/// A chain that is to be returned has its request, until it was given back: after that the requests of its queue are
/// those that the ring has under way. An id has one chain at most that is under way or is to be returned. So the end of
/// a request whose chain is to be returned never finds that it is not under way.
pub fn each_chain_to_be_returned_has_its_request<H, D: RingMemory<H>>()
    ensures found { (w : BlockBackend) (ring : ℕ) (q : BlockQueueState) (r : RingState) → Sound w
        → slice_get w.queues ring ≡ Some q → slice_get w.backend.rings.rings ring ≡ Some r
        → Agrees (given q (pending w ring)) r
        × ((id : ℕ) → 0 < length (of_id id (pending w ring)) → is_some (asked_at q id) ≡ true) }
    ensures once { (w : BlockBackend) (ring : ℕ) (q : BlockQueueState) (r : RingState) → Sound w
        → slice_get w.queues ring ≡ Some q → slice_get w.backend.rings.rings ring ≡ Some r
        → (id : ℕ) → length (of_id id (pending w ring)) + busy r id ≤ 1 }
    ensures ends { (mem : D) (w : BlockBackend) (chain : Chain) (moved : ℕ) (failed : Bool) (old new : H) (r : Finished)
        (queues : List BlockQueueState) → Sound w → slice_get w.todo.actions 0 ≡ Some (Return chain moved failed)
        → FinishesAt (D.steps mem) w.queues w.todo.ring chain moved failed old r queues new → r ≡ NotUnderWay → ⊥ }
{}

/// A step after which there is none leaves nothing to be done, and so nothing for a ring. The end of the connection
/// brings nothing for one, and no more does a look that finds nothing: so events may come after these.
pub fn an_idle_back_end_is_done<H, D: RingMemory<H>>()
    ensures idle { (mem : D) (w new_w : BlockBackend) (old new : H) → Steps (D.steps mem) w old Idle new_w new
        → is_done new_w ≡ true }
    ensures clear { (w : BlockBackend) → is_done w ≡ true → IsClear w }
    ensures ends { (w : BlockBackend) (y : Why) → IsClear w → IsClear (hung_up w y) }
    ensures looks { (mem : D) (way : Option Sight) (w new_w : BlockBackend) (old new : H)
        → Looks (D.steps mem) way w old false new_w new
        → IsClear w → IsClear new_w }
{}

/// No message waits for a mapping: what is asked on the channel, and is without a reply, makes no difference to whether
/// a message is taken and what becomes of it. One on the table takes effect or is refused at once if nothing is in use
/// that it changes, and otherwise waits [for what is under
/// way](crate::messages_laws::messages_wait_for_what_is_under_way) alone.
pub fn no_message_waits_for_a_mapping()
    ensures same { (w : BlockBackend) (q : QuestionsState) (h : Header) (payload : List ℕ) (descriptors : ℕ)
        → has_next q ≡ has_next w.questions → came (record w { questions = q }) h payload descriptors
        ≡ (record (came w h payload descriptors).0 { questions = q }, (came w h payload descriptors).1) }
    ensures at_once { (b : BackendState) (h : Header) (payload : List ℕ) (descriptors : ℕ) (message : IotlbMessage)
        → request_of h payload ≡ Ok (IotlbMsg message) → is_free b.taken ≡ true
        → is_quiet (after_message b h payload descriptors false).1.message ≡ false }
{}
