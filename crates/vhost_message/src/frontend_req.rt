//! What a front end asks for.
ghost use Rattle.std.specs.Prelude.{◌≡◌, ◌≤◌, length};
ghost use Rattle.vhost_message.specs.FrontendReq.{config_in, descriptors_of, enabling_in, has_descriptor, inflight_in};
ghost use Rattle.vhost_message.specs.FrontendReq.{iotlb_in, request_in, request_of, ring_in, vring_addr_in};
ghost use Rattle.vhost_message.specs.FrontendReq.{vring_request_in};
ghost use Rattle.vhost_message.specs.Requests.{least_of};

use crate::header::Header;
use crate::iotlb::{IotlbMessage, PAYLOAD_LEN};
use crate::numbers::{half, number, word};
use crate::refusal::{Malformed, Refusal};
use crate::regions::MemoryTable;
use crate::requests::*;

/// Where a ring lies: in the front end's own memory, or at I/O addresses if `VIRTIO_F_ACCESS_PLATFORM` was negotiated.
#[derive(Clone, Copy, Debug, PartialEq, Eq)]
pub struct VringAddr {
    /// The number of the ring.
    pub index: u32,
    /// Bit 0: writes to the used ring are marked in the log, from `log` on.
    pub flags: u32,
    /// The descriptor table.
    pub descriptor: u64,
    /// The used ring.
    pub used: u64,
    /// The available ring.
    pub available: u64,
    /// The address of the used ring in the log: one of guest memory, or an I/O address as the others.
    pub log: u64,
}

/// A part of the device's configuration, in bytes.
#[derive(Clone, Copy, Debug, PartialEq, Eq)]
pub struct ConfigSpace {
    /// Where it begins.
    pub offset: u32,
    /// How many bytes it has.
    pub size: u32,
    /// 0 for what the driver does, and 1 for a migration.
    pub flags: u32,
}

/// A region in which a back end keeps which requests of each ring are in flight, so that it can go on after it was
/// started anew.
#[derive(Clone, Copy, Debug, PartialEq, Eq)]
pub struct VhostUserInflight {
    /// How many bytes it has. A GET_INFLIGHT_FD does not say so.
    pub mmap_size: u64,
    /// Where it begins in its file. A GET_INFLIGHT_FD does not say so.
    pub mmap_offset: u64,
    /// How many rings it is for.
    pub num_queues: u16,
    /// How many descriptors each of them has at most.
    pub queue_size: u16,
}

/// What a front end asks for. `descriptor` says whether a file descriptor came.
#[derive(Debug, Drop)]
pub enum FrontendReq {
    GetFeatures,
    SetFeatures(u64),
    SetOwner,
    /// Nothing comes of it.
    ResetOwner,
    /// The memory is this from now on. A descriptor of a file comes for each region.
    SetMemTable(MemoryTable),
    /// The log of dirty pages has `size` bytes, from `offset` on in the file whose descriptor comes.
    SetLogBase { size: u64, offset: u64 },
    /// The descriptor that comes is signalled when the log is written.
    SetLogFd,
    SetVringNum { index: u32, num: u32 },
    SetVringAddr(VringAddr),
    SetVringBase { index: u32, base: u32 },
    /// The ring stops. Its base is the reply.
    GetVringBase { index: u32 },
    /// The ring starts. Without a descriptor the back end has to poll for what is available.
    SetVringKick { index: u32, descriptor: bool },
    SetVringCall { index: u32, descriptor: bool },
    SetVringErr { index: u32, descriptor: bool },
    GetProtocolFeatures,
    SetProtocolFeatures(u64),
    GetQueueNum,
    SetVringEnable { index: u32, enable: bool },
    /// The descriptor that comes is the back end's own channel.
    SetBackendReqFd,
    /// An UPDATE or an INVALIDATE.
    IotlbMsg(IotlbMessage),
    GetConfig(ConfigSpace),
    /// The bytes are those of the payload after the first 12.
    SetConfig(ConfigSpace),
    /// A region of this shape is the reply. A descriptor of its file goes with it.
    GetInflightFd(VhostUserInflight),
    /// What is in flight is in this region of the file whose descriptor comes.
    SetInflightFd(VhostUserInflight),
}

fn vring_addr_in(payload: &[u8]) -> VringAddr
    requires { 40 ≤ length payload.now }
    ensures { result ≡ vring_addr_in payload.now }
{
    VringAddr {
        index: word(payload, 0),
        flags: word(payload, 4),
        descriptor: number(payload, 8),
        used: number(payload, 16),
        available: number(payload, 24),
        log: number(payload, 32),
    }
}

// The part of the configuration: `PayloadSize` if the payload does not have as many bytes, and `Flags` if no such
// access is known.
#[tactic(auto, unfolding(crate::specs::FrontendReq::config_in))]
fn config_in(payload: &[u8]) -> Result<ConfigSpace, Refusal>
    requires { 12 ≤ length payload.now }
    ensures { result ≡ config_in payload.now }
{
    let size = word(payload, 4);
    let flags = word(payload, 8);
    if payload.len() != 12 + size as usize {
        return Err(Refusal::PayloadSize);
    }
    if flags > 1 {
        return Err(Refusal::Flags);
    }
    Ok(ConfigSpace {
        offset: word(payload, 0),
        size,
        flags,
    })
}

// A region of what is in flight: `PayloadSize` if the payload has neither 20 bytes nor 24, as a compiler pads them.
#[tactic(auto, unfolding(crate::specs::FrontendReq::inflight_in))]
fn inflight_in(payload: &[u8]) -> Result<VhostUserInflight, Refusal>
    requires { 20 ≤ length payload.now }
    ensures { result ≡ inflight_in payload.now }
{
    if payload.len() != 20 && payload.len() != 24 {
        return Err(Refusal::PayloadSize);
    }
    Ok(VhostUserInflight {
        mmap_size: number(payload, 0),
        mmap_offset: number(payload, 8),
        num_queues: half(payload, 16),
        queue_size: half(payload, 18),
    })
}

// A message on the device's I/O table that a front end may send.
#[tactic(auto, unfolding(crate::specs::FrontendReq::iotlb_in))]
fn iotlb_in(payload: &[u8]) -> Result<FrontendReq, Refusal>
    requires { 32 ≤ length payload.now }
    ensures { result ≡ iotlb_in payload.now }
{
    let mut bytes = [0; PAYLOAD_LEN];
    bytes.copy_from_slice(&payload[..PAYLOAD_LEN]);
    match IotlbMessage::decode(&bytes) {
        Ok(IotlbMessage::Miss { .. }) | Ok(IotlbMessage::AccessFail { .. }) => {
            Err(Refusal::Iotlb(Malformed::Kind))
        }
        Ok(message) => Ok(FrontendReq::IotlbMsg(message)),
        Err(malformed) => Err(Refusal::Iotlb(malformed)),
    }
}

#[tactic(auto, unfolding(crate::specs::FrontendReq::enabling_in))]
fn enabling_in(payload: &[u8]) -> Result<FrontendReq, Refusal>
    requires { 8 ≤ length payload.now }
    ensures { result ≡ enabling_in payload.now }
{
    let index = word(payload, 0);
    match word(payload, 4) {
        0 => Ok(FrontendReq::SetVringEnable {
            index,
            enable: false,
        }),
        1 => Ok(FrontendReq::SetVringEnable {
            index,
            enable: true,
        }),
        _ => Err(Refusal::Flags),
    }
}

// What a SET_VRING_KICK, CALL or ERR says: the ring in bits 0 to 7, and in bit 8 that no descriptor came.
fn notifier_in(payload: &[u8]) -> (u32, bool)
    requires { 8 ≤ length payload.now }
    ensures index { result.0 ≡ ring_in payload.now }
    ensures descriptor { result.1 ≡ has_descriptor payload.now }
{
    let value = number(payload, 0);
    ((value % 256) as u32, value / 256 % 2 == 0)
}

// What the payload of a request on rings asks for.
#[tactic(auto, unfolding(crate::specs::FrontendReq::vring_request_in))]
fn vring_request_in(request: u32, payload: &[u8]) -> Result<FrontendReq, Refusal>
    requires { least_of request ≤ length payload.now }
    ensures { result ≡ vring_request_in request payload.now }
{
    match request {
        VHOST_USER_SET_VRING_NUM => Ok(FrontendReq::SetVringNum {
            index: word(payload, 0),
            num: word(payload, 4),
        }),
        VHOST_USER_SET_VRING_ADDR => Ok(FrontendReq::SetVringAddr(vring_addr_in(payload))),
        VHOST_USER_SET_VRING_BASE => Ok(FrontendReq::SetVringBase {
            index: word(payload, 0),
            base: word(payload, 4),
        }),
        VHOST_USER_GET_VRING_BASE => Ok(FrontendReq::GetVringBase {
            index: word(payload, 0),
        }),
        VHOST_USER_SET_VRING_KICK => {
            let (index, descriptor) = notifier_in(payload);
            Ok(FrontendReq::SetVringKick { index, descriptor })
        }
        VHOST_USER_SET_VRING_CALL => {
            let (index, descriptor) = notifier_in(payload);
            Ok(FrontendReq::SetVringCall { index, descriptor })
        }
        VHOST_USER_SET_VRING_ERR => {
            let (index, descriptor) = notifier_in(payload);
            Ok(FrontendReq::SetVringErr { index, descriptor })
        }
        VHOST_USER_SET_VRING_ENABLE => enabling_in(payload),
        _ => Err(Refusal::Request),
    }
}

// What the payload of a request asks for.
fn request_in(request: u32, payload: &[u8]) -> Result<FrontendReq, Refusal>
    requires least { least_of request ≤ length payload.now }
    requires most { length payload.now ≤ 268 }
    ensures { result ≡ request_in request payload.now }
{
    match request {
        VHOST_USER_GET_FEATURES => Ok(FrontendReq::GetFeatures),
        VHOST_USER_SET_FEATURES => Ok(FrontendReq::SetFeatures(number(payload, 0))),
        VHOST_USER_SET_OWNER => Ok(FrontendReq::SetOwner),
        VHOST_USER_RESET_OWNER => Ok(FrontendReq::ResetOwner),
        VHOST_USER_SET_MEM_TABLE => Ok(FrontendReq::SetMemTable(MemoryTable::decode(payload)?)),
        VHOST_USER_SET_LOG_BASE => Ok(FrontendReq::SetLogBase {
            size: number(payload, 0),
            offset: number(payload, 8),
        }),
        VHOST_USER_SET_LOG_FD => Ok(FrontendReq::SetLogFd),
        VHOST_USER_GET_PROTOCOL_FEATURES => Ok(FrontendReq::GetProtocolFeatures),
        VHOST_USER_SET_PROTOCOL_FEATURES => {
            Ok(FrontendReq::SetProtocolFeatures(number(payload, 0)))
        }
        VHOST_USER_GET_QUEUE_NUM => Ok(FrontendReq::GetQueueNum),
        VHOST_USER_SET_BACKEND_REQ_FD => Ok(FrontendReq::SetBackendReqFd),
        VHOST_USER_IOTLB_MSG => iotlb_in(payload),
        VHOST_USER_GET_CONFIG => Ok(FrontendReq::GetConfig(config_in(payload)?)),
        VHOST_USER_SET_CONFIG => Ok(FrontendReq::SetConfig(config_in(payload)?)),
        VHOST_USER_GET_INFLIGHT_FD => Ok(FrontendReq::GetInflightFd(inflight_in(payload)?)),
        VHOST_USER_SET_INFLIGHT_FD => Ok(FrontendReq::SetInflightFd(inflight_in(payload)?)),
        _ => vring_request_in(request, payload),
    }
}

impl FrontendReq {
    /// What a message asks for: its header, and its whole payload. The errors of `expects`, `PayloadSize` if the
    /// payload is not as long as the header has it, or does not have the number of regions or bytes that it says,
    /// `Flags` for a switch or flags without a meaning, and `Iotlb`.
    pub fn decode(header: &Header, payload: &[u8]) -> Result<FrontendReq, Refusal>
        ensures { result ≡ request_of header.now payload.now }
    {
        expects(header)?;
        if payload.len() != header.size as usize {
            return Err(Refusal::PayloadSize);
        }
        request_in(header.request, payload)
    }

    /// How many descriptors come with it.
    pub fn descriptors(&self) -> usize
        ensures { result ≡ descriptors_of self.now }
    {
        match self {
            FrontendReq::SetMemTable(table) => table.regions().len(),
            FrontendReq::SetLogBase { .. }
            | FrontendReq::SetLogFd
            | FrontendReq::SetBackendReqFd
            | FrontendReq::SetInflightFd(_) => 1,
            FrontendReq::SetVringKick { descriptor, .. }
            | FrontendReq::SetVringCall { descriptor, .. }
            | FrontendReq::SetVringErr { descriptor, .. } => *descriptor as usize,
            _ => 0,
        }
    }
}
