//! The back end's own channel: what it asks for, and the replies.
ghost use Rattle.std.specs.Prelude.{◌≡◌};
ghost use Rattle.vhost_message.specs.BackendReq.{backend_reply, backend_request, flags_of};

use crate::header::{Header, VERSION, VHOST_USER_NEED_REPLY};
use crate::iotlb::{IotlbMessage, PAYLOAD_LEN};
use crate::message::Message;
use crate::numbers::number;
use crate::refusal::Refusal;

/// The number of a message on a device's I/O table.
pub const VHOST_USER_BACKEND_IOTLB_MSG: u32 = 1;

/// The number of the message that the configuration changed.
pub const VHOST_USER_BACKEND_CONFIG_CHANGE_MSG: u32 = 2;

/// What a back end sends on its own channel.
#[derive(Clone, Copy, Debug, PartialEq, Eq)]
pub enum BackendReq {
    /// A MISS or an ACCESS_FAIL.
    IotlbMsg(IotlbMessage),
    /// The device's configuration changed.
    ConfigChange,
}

// The flags of a request.
fn flags_of(need_reply: bool) -> u32
    ensures { result ≡ flags_of need_reply }
{
    if need_reply {
        VERSION + VHOST_USER_NEED_REPLY
    } else {
        VERSION
    }
}

impl BackendReq {
    /// Its message: a reply comes if `need_reply` is true and `VHOST_USER_PROTOCOL_F_REPLY_ACK` was accepted.
    pub fn encode(self, need_reply: bool) -> Message
        ensures { result ≡ backend_request self need_reply }
    {
        let flags = flags_of(need_reply);
        let mut message = Message::new();
        match self {
            BackendReq::IotlbMsg(iotlb) => {
                let header = Header {
                    request: VHOST_USER_BACKEND_IOTLB_MSG,
                    flags,
                    size: PAYLOAD_LEN as u32,
                };
                message.extend(&header.encode());
                message.extend(&iotlb.encode());
                message
            }
            BackendReq::ConfigChange => {
                let header = Header {
                    request: VHOST_USER_BACKEND_CONFIG_CHANGE_MSG,
                    flags,
                    size: 0,
                };
                message.extend(&header.encode());
                message
            }
        }
    }
}

/// A reply that came on the back end's own channel.
#[derive(Clone, Copy, Debug, PartialEq, Eq)]
pub struct BackendReply {
    /// The number of the message that it answers.
    pub request: u32,
    /// 0 if that was done.
    pub value: u64,
}

impl BackendReply {
    /// The reply of this header and payload. `Version` and `Direction` by the flags, `Request` if a back end sends no
    /// such message, and `PayloadSize` if the payload is not one number.
    pub fn decode(header: &Header, payload: &[u8]) -> Result<BackendReply, Refusal>
        ensures { result ≡ backend_reply header.now payload.now }
    {
        if header.version() != VERSION {
            return Err(Refusal::Version);
        }
        if !header.is_reply() {
            return Err(Refusal::Direction);
        }
        let request = header.request;
        if request != VHOST_USER_BACKEND_IOTLB_MSG
            && request != VHOST_USER_BACKEND_CONFIG_CHANGE_MSG
        {
            return Err(Refusal::Request);
        }
        if header.size != 8 || payload.len() != 8 {
            return Err(Refusal::PayloadSize);
        }
        Ok(BackendReply {
            request,
            value: number(payload, 0),
        })
    }
}
