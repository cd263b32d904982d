//! The messages of the vhost-user protocol, as bytes: headers, payloads, what a front end asks for by them, and what a
//! back end sends on its own channel. The crate's README.md has the rules.
#![tactic(auto)]

mod backend_req;
mod channel;
mod frontend_req;
mod header;
mod incoming;
mod iotlb;
pub mod laws;
mod message;
mod numbers;
mod refusal;
mod regions;
mod requests;

pub use backend_req::{
    BackendReply, BackendReq, VHOST_USER_BACKEND_CONFIG_CHANGE_MSG, VHOST_USER_BACKEND_IOTLB_MSG,
};
pub use channel::{ChannelError, Receive};
pub use frontend_req::{ConfigSpace, FrontendReq, VhostUserInflight, VringAddr};
pub use header::{Header, VERSION, VHOST_USER_NEED_REPLY, VHOST_USER_REPLY};
pub use incoming::Incoming;
pub use iotlb::{IotlbMessage, PAYLOAD_LEN};
pub use message::{HEADER_LEN, MAX_CONFIG, MAX_MESSAGE, Message};
pub use refusal::{Malformed, Refusal};
pub use regions::{MAX_REGIONS, MemoryRegion, MemoryRegions, MemoryTable, guest_of};
pub use requests::{
    Expected, VHOST_USER_GET_CONFIG, VHOST_USER_GET_FEATURES, VHOST_USER_GET_INFLIGHT_FD,
    VHOST_USER_GET_PROTOCOL_FEATURES, VHOST_USER_GET_QUEUE_NUM, VHOST_USER_GET_VRING_BASE,
    VHOST_USER_IOTLB_MSG, VHOST_USER_RESET_OWNER, VHOST_USER_SET_BACKEND_REQ_FD,
    VHOST_USER_SET_CONFIG, VHOST_USER_SET_FEATURES, VHOST_USER_SET_INFLIGHT_FD,
    VHOST_USER_SET_LOG_BASE, VHOST_USER_SET_LOG_FD, VHOST_USER_SET_MEM_TABLE, VHOST_USER_SET_OWNER,
    VHOST_USER_SET_PROTOCOL_FEATURES, VHOST_USER_SET_VRING_ADDR, VHOST_USER_SET_VRING_BASE,
    VHOST_USER_SET_VRING_CALL, VHOST_USER_SET_VRING_ENABLE, VHOST_USER_SET_VRING_ERR,
    VHOST_USER_SET_VRING_KICK, VHOST_USER_SET_VRING_NUM, expects,
};
