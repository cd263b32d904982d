//! What a back end replies.
ghost use Rattle.std.specs.Prelude.{◌≡◌, []};
ghost use Rattle.vhost_message.specs.Spelling.{inflight_bytes};
ghost use Rattle.vhost_user.specs.Reply.{acknowledgement, base_reply, config_reply, inflight_for, inflight_reply};
ghost use Rattle.vhost_user.specs.Reply.{number_reply, refused, reply, reply_to};

use crate::backend_req_handler::BackendReqHandler;
use crate::features::{VHOST_USER_PROTOCOL_F_REPLY_ACK, has};
use crate::inflight::region_len;
use vhost_message::{
    ConfigSpace, FrontendReq, Header, Message, VERSION, VHOST_USER_GET_CONFIG,
    VHOST_USER_GET_FEATURES, VHOST_USER_GET_INFLIGHT_FD, VHOST_USER_GET_PROTOCOL_FEATURES,
    VHOST_USER_GET_QUEUE_NUM, VHOST_USER_GET_VRING_BASE, VHOST_USER_REPLY, VHOST_USER_SET_LOG_BASE,
    VhostUserInflight,
};

// The header of a reply, with so many bytes after it.
fn reply(request: u32, size: u32) -> Message
    ensures { result ≡ reply request size [] }
{
    let header = Header {
        request,
        flags: VERSION + VHOST_USER_REPLY,
        size,
    };
    let mut message = Message::new();
    message.extend(&header.encode());
    message
}

fn number_reply(request: u32, value: u64) -> Message
    ensures { result ≡ number_reply request value }
{
    let mut message = reply(request, 8);
    message.extend(&value.to_le_bytes());
    message
}

// A reply of so many bytes with the description of a region at its front.
fn region_reply(request: u32, size: u32, region: &VhostUserInflight) -> Message
    ensures { result ≡ reply request size (inflight_bytes region.now) }
{
    let mut message = reply(request, size);
    message.extend(&region.mmap_size.to_le_bytes());
    message.extend(&region.mmap_offset.to_le_bytes());
    message.extend(&region.num_queues.to_le_bytes());
    message.extend(&region.queue_size.to_le_bytes());
    message
}

impl BackendReqHandler {
    // What a message without a reply of its own is answered, if it asks for that.
    fn acknowledgement(&self, header: &Header, value: u64) -> Message
        ensures { result ≡ acknowledgement self.now header.now value }
    {
        if header.needs_reply() && has(self.protocol_features(), VHOST_USER_PROTOCOL_F_REPLY_ACK) {
            return number_reply(header.request, value);
        }
        Message::new()
    }

    // The index of a ring, and where it goes on.
    fn base_reply(&self, request: u32, index: u32) -> Message
        ensures { result ≡ base_reply self.now request index }
    {
        let Ok(vring) = self.vring(index) else {
            return Message::new();
        };
        let mut message = reply(request, 8);
        message.extend(&index.to_le_bytes());
        message.extend(&vring.base.to_le_bytes());
        message
    }

    // A part of the configuration, or nothing of it if it does not have that.
    fn config_reply(&self, request: u32, space: &ConfigSpace) -> Message
        ensures { result ≡ config_reply self.now request space.now }
    {
        let from = space.offset as usize;
        let to = from + space.size as usize;
        let config = self.config();
        if to > config.len() {
            return reply(request, 0);
        }
        let mut message = reply(request, 12 + space.size);
        message.extend(&space.offset.to_le_bytes());
        message.extend(&space.size.to_le_bytes());
        message.extend(&space.flags.to_le_bytes());
        message.extend(&config[from..to]);
        message
    }

    /// The region that a GET_INFLIGHT_FD asks for by its numbers of rings and descriptors: its size, from the beginning
    /// of its file on.
    pub fn inflight_for(&self, asked: &VhostUserInflight) -> VhostUserInflight
        ensures { result ≡ inflight_for self.now asked.now }
    {
        VhostUserInflight {
            mmap_size: region_len(self.features(), asked),
            mmap_offset: 0,
            ..*asked
        }
    }

    // The region in as many bytes as it was asked for, which may be padded.
    fn inflight_reply(&self, header: &Header, asked: &VhostUserInflight) -> Message
        ensures { result ≡ inflight_reply self.now header.now asked.now }
    {
        let region = self.inflight_for(asked);
        if header.size == 24 {
            let mut message = region_reply(header.request, 24, &region);
            message.extend(&0u32.to_le_bytes());
            return message;
        }
        region_reply(header.request, 20, &region)
    }

    /// What is sent for a request that was done: the bytes of a message, or none if no reply is due.
    pub fn reply(&self, header: &Header, request: &FrontendReq) -> Message
        ensures { result ≡ reply_to self.now header.now request.now }
    {
        match request {
            FrontendReq::GetFeatures => number_reply(header.request, self.offer().features),
            FrontendReq::GetProtocolFeatures => {
                number_reply(header.request, self.offer().protocol_features)
            }
            FrontendReq::GetQueueNum => number_reply(header.request, self.queues() as u64),
            FrontendReq::GetVringBase { index } => self.base_reply(header.request, *index),
            FrontendReq::GetConfig(space) => self.config_reply(header.request, space),
            FrontendReq::GetInflightFd(asked) => self.inflight_reply(header, asked),
            FrontendReq::SetLogBase { .. } => reply(header.request, 0),
            _ => self.acknowledgement(header, 0),
        }
    }

    /// What is sent for a request that was refused or that failed: that it was not done, if the message asks for a
    /// reply. The reply to a GET_CONFIG has no payload then. Other requests with a reply of their own get no such
    /// reply.
    pub fn refuse(&self, header: &Header) -> Message
        ensures { result ≡ refused self.now header.now }
    {
        match header.request {
            VHOST_USER_GET_CONFIG => reply(header.request, 0),
            VHOST_USER_GET_FEATURES
            | VHOST_USER_SET_LOG_BASE
            | VHOST_USER_GET_VRING_BASE
            | VHOST_USER_GET_PROTOCOL_FEATURES
            | VHOST_USER_GET_QUEUE_NUM
            | VHOST_USER_GET_INFLIGHT_FD => Message::new(),
            _ => self.acknowledgement(header, 1),
        }
    }
}
