//! The numbers of the requests, and what belongs to each.
ghost use Rattle.std.specs.Prelude.{◌≡◌, ◌≤◌, IfSome, IfOk, OnOk, Some};
ghost use Rattle.vhost_message.specs.Requests.{expected, least_of, shape_of};

use crate::header::{Header, VERSION};
use crate::refusal::Refusal;

pub const VHOST_USER_GET_FEATURES: u32 = 1;

pub const VHOST_USER_SET_FEATURES: u32 = 2;

pub const VHOST_USER_SET_OWNER: u32 = 3;

pub const VHOST_USER_RESET_OWNER: u32 = 4;

pub const VHOST_USER_SET_MEM_TABLE: u32 = 5;

pub const VHOST_USER_SET_LOG_BASE: u32 = 6;

pub const VHOST_USER_SET_LOG_FD: u32 = 7;

pub const VHOST_USER_SET_VRING_NUM: u32 = 8;

pub const VHOST_USER_SET_VRING_ADDR: u32 = 9;

pub const VHOST_USER_SET_VRING_BASE: u32 = 10;

pub const VHOST_USER_GET_VRING_BASE: u32 = 11;

pub const VHOST_USER_SET_VRING_KICK: u32 = 12;

pub const VHOST_USER_SET_VRING_CALL: u32 = 13;

pub const VHOST_USER_SET_VRING_ERR: u32 = 14;

pub const VHOST_USER_GET_PROTOCOL_FEATURES: u32 = 15;

pub const VHOST_USER_SET_PROTOCOL_FEATURES: u32 = 16;

pub const VHOST_USER_GET_QUEUE_NUM: u32 = 17;

pub const VHOST_USER_SET_VRING_ENABLE: u32 = 18;

pub const VHOST_USER_SET_BACKEND_REQ_FD: u32 = 21;

pub const VHOST_USER_IOTLB_MSG: u32 = 22;

pub const VHOST_USER_GET_CONFIG: u32 = 24;

pub const VHOST_USER_SET_CONFIG: u32 = 25;

pub const VHOST_USER_GET_INFLIGHT_FD: u32 = 31;

pub const VHOST_USER_SET_INFLIGHT_FD: u32 = 32;

/// What a message of a request may be.
#[derive(Clone, Copy, Debug, PartialEq, Eq)]
pub struct Shape {
    /// How many bytes its payload has at least.
    pub least: u32,
    /// How many bytes its payload has at most.
    pub most: u32,
    /// How many descriptors come with it at most.
    pub descriptors: usize,
}

const fn sized(least: u32, most: u32, descriptors: usize) -> Option<Shape>
    ensures { result ≡ Some (record { least = least; most = most; descriptors = descriptors }) }
{
    Some(Shape {
        least,
        most,
        descriptors,
    })
}

// What a message of the request of this number may be.
fn shape_of(request: u32) -> Option<Shape>
    ensures shape { result ≡ shape_of request }
    ensures most { IfSome result (λ s. s.most ≤ 268) }
{
    match request {
        VHOST_USER_GET_FEATURES
        | VHOST_USER_SET_OWNER
        | VHOST_USER_RESET_OWNER
        | VHOST_USER_GET_PROTOCOL_FEATURES
        | VHOST_USER_GET_QUEUE_NUM => sized(0, 0, 0),
        VHOST_USER_SET_LOG_FD | VHOST_USER_SET_BACKEND_REQ_FD => sized(0, 0, 1),
        VHOST_USER_SET_FEATURES
        | VHOST_USER_SET_PROTOCOL_FEATURES
        | VHOST_USER_SET_VRING_NUM
        | VHOST_USER_SET_VRING_BASE
        | VHOST_USER_GET_VRING_BASE
        | VHOST_USER_SET_VRING_ENABLE => sized(8, 8, 0),
        VHOST_USER_SET_VRING_KICK | VHOST_USER_SET_VRING_CALL | VHOST_USER_SET_VRING_ERR => {
            sized(8, 8, 1)
        }
        VHOST_USER_SET_MEM_TABLE => sized(8, 264, 8),
        VHOST_USER_SET_LOG_BASE => sized(16, 16, 1),
        VHOST_USER_SET_VRING_ADDR => sized(40, 40, 0),
        VHOST_USER_IOTLB_MSG => sized(32, 32, 0),
        VHOST_USER_GET_CONFIG | VHOST_USER_SET_CONFIG => sized(12, 268, 0),
        VHOST_USER_GET_INFLIGHT_FD => sized(20, 24, 0),
        VHOST_USER_SET_INFLIGHT_FD => sized(20, 24, 1),
        _ => None,
    }
}

/// What follows a header: how many bytes of payload, and how many descriptors may have come with the message at most.
#[derive(Clone, Copy, Debug, PartialEq, Eq)]
pub struct Expected {
    /// How many bytes of payload follow.
    pub payload: usize,
    /// How many descriptors may come with the message at most.
    pub descriptors: usize,
}

/// What follows the header of a request. `Version` and `Direction` by its flags, `Request` if no request has its
/// number, and `PayloadSize` if the request has no such payload: then where the next message begins is not known.
pub fn expects(header: &Header) -> Result<Expected, Refusal>
    ensures exact { result ≡ expected header.now }
    ensures payload { IfOk result (λ e. e.payload ≡ header.now.size) }
    ensures least { OnOk result (least_of header.now.request ≤ header.now.size) }
    ensures most { IfOk result (λ e. e.payload ≤ 268) }
{
    if header.version() != VERSION {
        return Err(Refusal::Version);
    }
    if header.is_reply() {
        return Err(Refusal::Direction);
    }
    let Some(shape) = shape_of(header.request) else {
        return Err(Refusal::Request);
    };
    if header.size < shape.least || header.size > shape.most {
        return Err(Refusal::PayloadSize);
    }
    Ok(Expected {
        payload: header.size as usize,
        descriptors: shape.descriptors,
    })
}
