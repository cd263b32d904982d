//! What holds of I/O addresses over all runs of a connection: each function here is a theorem, and does nothing.
ghost use Rattle.std.specs.Prelude.{◌≡◌, ◌∷◌, ◌++◌, ◌<◌, ◌^◌, ℕ, All, Bool, Contains, List, Ok, Some, false, slice_get};
ghost use Rattle.std.specs.Prelude.{true};
ghost use Rattle.std.specs.declared.alloc.Global.{Global};
ghost use Rattle.vm_memory_base.specs.Address.{is_within};
ghost use Rattle.vm_memory_base.specs.Table.{Mapping, Says, Table, says, says_nothing, target};
ghost use Rattle.vm_memory_device.specs.declared.chain.Segment.{Segment};
ghost use Rattle.vhost_user.specs.declared.backend_req_handler.Offer.{Offer};
ghost use Rattle.vhost_iotlb.specs.Leads.{LeadOn, LeadsTo};
ghost use Rattle.vhost_iotlb.specs.declared.kept.Change.{Change};
ghost use Rattle.vhost_iotlb.specs.declared.kept.Change.TheVariants.{Unmap};
ghost use Rattle.vhost_iotlb.specs.declared.kept.Kept.{Kept};
ghost use Rattle.vhost_backend.specs.BlockBackend.{channel_lost, resized};
ghost use Rattle.vhost_backend.specs.BlockConnection.{Connects, Maps, done, ended, failed, kicked, reply_came, sent};
ghost use Rattle.vhost_backend.specs.BlockConnection.{taken, tracking, with_backend};
ghost use Rattle.vhost_backend.specs.BlockQueue.{BlockQueueState};
ghost use Rattle.vhost_backend.specs.Current.{Current, IsForgotten, LeadsNowhere, NoneUnderWay, after_changes};
ghost use Rattle.vhost_backend.specs.Current.{changes_of, maps, run_changes};
ghost use Rattle.vhost_backend.specs.Fetch.{IsFound, IsTranslated, chain_wants, guest_chain};
ghost use Rattle.vhost_backend.specs.Run.{Course, Move, MoveBy, Moves, RunsBy, after_stop, does};
ghost use Rattle.vhost_backend.specs.Rings.{all_idle, all_stopped};
ghost use Rattle.vhost_backend.specs.Sound.{IsClear, Sound};
ghost use Rattle.vhost_backend.specs.declared.block_backend.BlockBackend.{BlockBackend};
ghost use Rattle.vhost_backend.specs.declared.block_connection.BlockConnection.{BlockConnection};
ghost use Rattle.vhost_backend.specs.declared.block_queue.Asked.{Asked};
ghost use Rattle.vhost_backend.specs.declared.deeds.Deed.TheVariants as deed;
ghost use Rattle.vhost_backend.specs.declared.deeds.Limits.{Limits};
ghost use Rattle.vhost_backend.specs.declared.rows.ActionRow.{ActionRow};
ghost use Rattle.vhost_backend.specs.declared.rows.Counts.{Counts};
ghost use Rattle.vhost_backend.specs.declared.rows.EndRow.{EndRow};
ghost use Rattle.vhost_backend.specs.declared.rows.PieceRow.{PieceRow};

use crate::fetch_laws::guest_chain_is_the_drivers;
use vhost_iotlb::taking_laws::{kept_ranges_stay_current, tables_say_what_messages_say};
use vm_memory_base::laws::table::{tables_keep_to_their_limits, targets_follow_addresses};
use vm_memory_guest::laws::effects::writes_keep_shapes;

/// At each moment all that is kept for a ring, fetched for it or under way leads where the front end's messages say by
/// then, whatever a guest writes and whatever a table evicts. A new connection is so when nothing is said yet. What is
/// said changes by messages on the table that are applied, and by nothing else: by the moves of a run that apply one,
/// and by no call beside runs.
pub fn nothing_leads_elsewhere()
    ensures begins { (alloc : Global) (offer : Offer) (count : ℕ) (config : List ℕ) (limits : Limits)
        (c : BlockConnection) → Connects alloc offer count config limits (Ok c) → Current says_nothing c }
    ensures moves { (f : Says) (c : Course) (ms : List Move) (d : Course) (by : Moves c ms d) → Current f c.connection
        → Current (after_changes (changes_of c ms d by) f) d.connection }
    ensures runs { (f : Says) (c : BlockConnection) (ends : List EndRow) (turns : ℕ) (actions : List ActionRow)
        (pieces : List PieceRow) (bytes : List ℕ) (counts : Counts) (new_c : BlockConnection)
        (by : RunsBy c ends turns actions pieces bytes counts new_c) → Current f c
        → Current (after_changes (run_changes c ends turns actions pieces bytes counts new_c by) f) new_c }
    ensures comes { (f : Says) (c : BlockConnection) (message : List ℕ) (descriptors : ℕ) → Current f c
        → Current f (taken c message descriptors).0 }
    ensures replies { (f : Says) (c : BlockConnection) (message : List ℕ) → Current f c
        → Current f (reply_came c message).0 }
    ensures kicks { (f : Says) (c : BlockConnection) (ring : ℕ) → Current f c → Current f (kicked c ring) }
    ensures sends { (f : Says) (c : BlockConnection) (count : ℕ) → Current f c → Current f (sent c count) }
    ensures resizes { (f : Says) (c : BlockConnection) (sectors : ℕ) → Current f c
        → Current f (with_backend c (resized c.backend sectors)) }
    ensures loses { (f : Says) (c : BlockConnection) → Current f c
        → Current f (with_backend c (channel_lost c.backend)) }
    ensures maps { (f : Says) (c new_c : BlockConnection) (is : Bool) → Maps c is new_c → Current f c
        → Current f new_c }
    ensures tracks { (f : Says) (c : BlockConnection) (bytes : List ℕ) → Current f c → Current f (tracking c bytes) }
    ensures does { (f : Says) (c : BlockConnection) → Current f c → Current f (done c) }
    ensures fails { (f : Says) (c : BlockConnection) → Current f c → Current f (failed c) }
    ensures ends { (f : Says) (c : BlockConnection) → Current f c → Current f (ended c) }
{
    kept_ranges_stay_current();
    tables_say_what_messages_say();
    tables_keep_to_their_limits();
    writes_keep_shapes::<()>();
}

/// After an INVALIDATE was applied, nothing leads from an address of it until a message maps the address again: no
/// table says something of it, and no range has it that is kept for a ring, fetched for it or under way. What leads
/// somewhere leads where messages say by now: what the rings' table says of an address, and each byte of a request. So
/// the chain of a request whose bytes were found is still the driver's, byte by byte.
pub fn gone_is_gone()
    ensures gone { (f : Says) (before after : List Change) (iova len x : ℕ) (c : BlockConnection)
        → Current (after_changes (before ++ Unmap iova len ∷ after) f) c → is_within iova len x ≡ true → x < 2 ^ 64
        → All (λ change. maps change x ≡ false) after → LeadsNowhere x c }
    ensures rings { (f : Says) (c : BlockConnection) (t : Table) (x : ℕ) (m : Mapping) → Current f c
        → slice_get c.memory.logged.host.tables 0 ≡ Some t → x < 2 ^ 64 → says t x ≡ Some m
        → LeadsTo f x (target x m) m.permissions }
    ensures pieces { (f : Says) (c : BlockConnection) (ring id : ℕ) (q : BlockQueueState) (a : Asked) (k : Kept)
        → Current f c → slice_get c.backend.queues ring ≡ Some q → slice_get q.asked id ≡ Some (Some a)
        → Contains a.kept k → LeadOn f k.iova k.len k.base k.access }
    ensures chains { (f : Says) (c : BlockConnection) (ring id : ℕ) (q : BlockQueueState) (a : Asked)
        (driver : List Segment) → Current f c → slice_get c.backend.queues ring ≡ Some q
        → slice_get q.asked id ≡ Some (Some a) → IsFound (chain_wants driver) a.kept
        → guest_chain a.kept ≡ Some a.chain → IsTranslated f driver a.chain }
{
    targets_follow_addresses();
    guest_chain_is_the_drivers();
}

/// When memory goes, and after the last ring was stopped, all that was said, kept and fetched goes with it. [Nothing is
/// under way when memory goes](crate::messages_laws::memory_is_mapped_at_rest), so nothing leads anywhere until
/// messages map it again.
pub fn what_was_said_goes_with_memory()
    ensures forgets { (c : Course) (bytes : List ℕ) (d : Course) → MoveBy c (does deed.UnmapAll bytes) d
        → IsForgotten d.connection }
    ensures stops { (c : BlockConnection) → all_stopped c.backend.backend.rings ≡ true
        → IsForgotten (after_stop c) }
    ensures rests { (w : BlockBackend) → Sound w → IsClear w → all_idle w.backend.rings.rings ≡ true
        → NoneUnderWay w.queues }
    ensures anew { (f : Says) (c : BlockConnection) → Current f c → IsForgotten c → NoneUnderWay c.backend.queues
        → Current says_nothing c }
{
    tables_keep_to_their_limits();
}
