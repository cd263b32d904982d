//! The vhost-user protocol for a back end: bytes and numbers of descriptors come in, requests and bytes go out, and
//! nothing else is touched. The crate's README.md has the rules.
#![tactic(auto)]

mod backend_req_handler;
mod features;
mod inflight;
pub mod laws;
mod log;
mod reply;
mod vring;

pub use backend_req_handler::{BackendReqHandler, Offer, OfferError};
pub use features::{
    PROTOCOL_FEATURES, VHOST_F_LOG_ALL, VHOST_USER_F_PROTOCOL_FEATURES,
    VHOST_USER_PROTOCOL_F_BACKEND_REQ, VHOST_USER_PROTOCOL_F_CONFIG,
    VHOST_USER_PROTOCOL_F_INFLIGHT_SHMFD, VHOST_USER_PROTOCOL_F_LOG_SHMFD,
    VHOST_USER_PROTOCOL_F_MQ, VHOST_USER_PROTOCOL_F_REPLY_ACK, VIRTIO_F_ACCESS_PLATFORM,
    VIRTIO_F_RING_EVENT_IDX, VIRTIO_F_RING_PACKED,
};
pub use inflight::inflight_queue_len;
pub use log::{LOG_PAGE, LogPages};
pub use vhost_message::{
    BackendReply, BackendReq, ConfigSpace, FrontendReq, Header, Incoming, IotlbMessage, Malformed,
    MemoryRegion, MemoryTable, Message, Refusal, VhostUserInflight, VringAddr, expects,
};
pub use vring::{NotRunning, Notifier, RunningVring, Vring};
