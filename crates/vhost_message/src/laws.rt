//! What holds of every message and every stream: each function here is a theorem, and does nothing.
ghost use Rattle.std.specs.Prelude.{◌≡◌, Bool, List, [], ℕ, Option, Result, Ok};
ghost use Rattle.vhost_message.specs.Channel.{AllLook, Given, Reads, bytes_given, found};
ghost use Rattle.vhost_message.specs.Iotlb.{IsMessage as IsOnTable, Spells, fields_in, fields_of, message_in};
ghost use Rattle.vhost_message.specs.Iotlb.{payload_bytes};
ghost use Rattle.vhost_message.specs.FrontendReq.{request_of};
ghost use Rattle.vhost_message.specs.Spelling.{IsRequest, header_of, payload_of};
ghost use Rattle.vhost_message.specs.declared.frontend_req.FrontendReq.{FrontendReq};
ghost use Rattle.vhost_message.specs.Stream.{AreMessages, Call, IsRest, Runs, bytes_of, messages_of, stream_of, wanted};
ghost use Rattle.vhost_message.specs.declared.channel.ChannelError.{ChannelError};
ghost use Rattle.vhost_message.specs.declared.iotlb.IotlbMessage.{IotlbMessage};

use crate::channel::Receive;

/// What is encoded is decoded to the same: the payload of a message on the table spells it, and what spells it is
/// decoded to it.
pub fn messages_come_back()
    ensures spelled { (m : IotlbMessage) → IsOnTable m → Spells (fields_in (payload_bytes (fields_of m))) m }
    ensures decoded { (m : IotlbMessage) → IsOnTable m
        → message_in (fields_in (payload_bytes (fields_of m))) ≡ Ok m }
    ensures one { (payload : List ℕ) (m n : IotlbMessage) → Spells (fields_in payload) m
        → Spells (fields_in payload) n → m ≡ n }
{}

/// What a front end spells is what it asks for: each request, in the words of the protocol's tables.
pub fn requests_come_back()
    ensures { (r : FrontendReq) (bytes : List ℕ) (need_reply : Bool) → IsRequest r bytes
        → request_of (header_of r bytes need_reply) (payload_of r bytes) ≡ Ok r }
{}

/// However the bytes of a channel are cut into pieces, and whenever a message is taken out: the messages that
/// were taken, and what is kept then, are the bytes that were kept, one after the other. While more is wanted, no
/// message stands at the front of what is kept.
pub fn feeding_cuts_streams()
    ensures stream { (calls : List Call) (kept : List ℕ) → Runs calls kept
        → bytes_of calls ≡ stream_of (messages_of calls) kept }
    ensures messages { (calls : List Call) (kept : List ℕ) → Runs calls kept → AreMessages (messages_of calls) }
    ensures rest { (calls : List Call) (kept : List ℕ) → Runs calls kept → (wanted kept ≡ Ok 0 → ⊥) → IsRest kept }
{}

/// However many looks are made at a channel, one after the other, and whatever the pieces in which it gives its bytes:
/// what they find are the messages of these bytes, all of them and in order, and what is kept is what is left of them.
pub fn looks_cut_streams<R: Receive>()
    ensures { (answers : List (Result (Option (List ℕ)) ChannelError)) (new : List ℕ) (before after : R)
        → AllLook R.gives [] before answers new after
        → (gave : List Given) × Reads R.gives gave before after × (bytes_given gave ≡ stream_of (found answers) new)
        × AreMessages (found answers) × IsRest new }
{}

/// There is one way to cut bytes into messages and what is left of them.
pub fn streams_are_cut_one_way()
    ensures { (ms ns : List (List ℕ)) (x y : List ℕ) → AreMessages ms → AreMessages ns → IsRest x → IsRest y
        → stream_of ms x ≡ stream_of ns y → (ms ≡ ns) × (x ≡ y) }
{}
