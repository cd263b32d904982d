//! What crosses to C, as plain numbers.
ghost use Rattle.std.specs.Prelude.{◌≡◌};
ghost use Rattle.vhost_calls.specs.Values.{asked_by, connection_state, no_request, number_of_notifier, offer_of};
ghost use Rattle.vhost_calls.specs.Values.{on_config, on_inflight, on_ring, pages_row, region_row, switched, valued};
ghost use Rattle.vhost_calls.specs.Values.{vring_row};

use vhost_user::{
    BackendReqHandler, ConfigSpace, FrontendReq, LogPages, MemoryRegion, Notifier, Offer,
    RunningVring, VhostUserInflight,
};

/// What a back end offers.
#[repr(C)]
#[derive(Clone, Copy, Debug, PartialEq, Eq)]
pub struct VhostOffer {
    /// The features of the device, of its rings and of the back end, each as its bit.
    pub features: u64,
    /// The features of the protocol, each as its bit.
    pub protocol_features: u64,
    /// How many rings there are: 1 to 256.
    pub queues: u32,
    /// How many descriptors a ring has at most: 1 to 32,768.
    pub max_queue_size: u32,
    /// The first byte of the configuration that a driver may write.
    pub writable_from: u32,
    /// How many bytes it may write.
    pub writable_len: u32,
}

/// What is still to come of a message.
#[repr(C)]
#[derive(Clone, Copy, Debug, PartialEq, Eq)]
pub struct VhostWanted {
    /// How many bytes: of the header, and if that is there, of the payload. 0 if the message is whole.
    pub bytes: usize,
    /// How many descriptors come with the whole message at most.
    pub descriptors: usize,
}

/// What a message asks for. Fields that its request does not name are 0.
#[repr(C)]
#[derive(Clone, Copy, Debug, PartialEq, Eq)]
pub struct VhostRequest {
    /// The number of the request.
    pub request: u32,
    /// The ring that it names. Of a GET_INFLIGHT_FD or SET_INFLIGHT_FD how many rings there are in the region.
    pub index: u32,
    /// Of a KICK, CALL or ERR 1 if a descriptor came, of an ENABLE 1 if the ring is enabled, and of a GET_CONFIG or
    /// SET_CONFIG 1 if it is for a migration.
    pub flag: u32,
    /// Of a GET_INFLIGHT_FD or SET_INFLIGHT_FD how many descriptors a ring has at most.
    pub queue_size: u32,
    /// Of a SET_VRING_NUM or SET_VRING_BASE the number, of features the bits, of a configuration, a log or a region of
    /// what is in flight the place of the part's first byte.
    pub value: u64,
    /// How many bytes the part of the configuration, the log or the region has.
    pub size: u64,
}

/// A region of the memory that the front end shares.
#[repr(C)]
#[derive(Clone, Copy, Debug, PartialEq, Eq)]
pub struct VhostRegion {
    /// The first of its addresses in guest memory.
    pub guest_address: u64,
    /// How many bytes it has.
    pub size: u64,
    /// The first of its addresses in the front end's own memory.
    pub user_address: u64,
    /// The place of its first byte in its file.
    pub mmap_offset: u64,
}

/// A ring that is to be served. Its addresses are those of guest memory, or I/O addresses if ACCESS_PLATFORM was
/// accepted.
#[repr(C)]
#[derive(Clone, Copy, Debug, PartialEq, Eq)]
pub struct VhostVring {
    /// How many descriptors it has.
    pub size: u32,
    /// The index of the next available descriptor, from which it was started.
    pub base: u32,
    /// The address of the descriptor table.
    pub descriptor: u64,
    /// The address of the available ring.
    pub available: u64,
    /// The address of the used ring.
    pub used: u64,
    /// How many bytes the used ring has.
    pub used_len: u64,
    /// The address in the log of the used ring.
    pub log: u64,
    /// Whether writes to the used ring are marked in the log: 1 or 0.
    pub is_logged: u32,
    /// How the driver notifies the back end: 1 not at all, 2 by the descriptor that came last.
    pub kick: u32,
    /// How the back end notifies the driver: 0 no message said so, 1 not at all, 2 by the descriptor that came last.
    pub call: u32,
}

/// Pages of guest memory that are marked in the log of dirty pages. The bit of page `p` is bit `p % 8` of the byte `p /
/// 8` of the log.
#[repr(C)]
#[derive(Clone, Copy, Debug, PartialEq, Eq)]
pub struct VhostPages {
    /// The number of the first: its address by 4,096.
    pub first: u64,
    /// How many there are.
    pub count: u64,
}

/// What was negotiated, and how much there is of what other calls name by its number.
#[repr(C)]
#[derive(Clone, Copy, Debug, PartialEq, Eq)]
pub struct VhostState {
    /// The features that the front end accepted.
    pub features: u64,
    /// The features of the protocol that it accepted.
    pub protocol_features: u64,
    /// How many rings there are.
    pub queues: usize,
    /// How many regions the memory has.
    pub regions: usize,
    /// Whether a front end said that it owns the connection: 1 or 0.
    pub is_owned: u32,
}

/// What a back end offers, by its numbers.
pub fn offer_of(offer: &VhostOffer) -> Offer
    ensures { result ≡ offer_of offer.now }
{
    Offer {
        features: offer.features,
        protocol_features: offer.protocol_features,
        max_queue_size: offer.max_queue_size,
        writable_from: offer.writable_from,
        writable_len: offer.writable_len,
    }
}

// ---- requests

fn no_request(request: u32) -> VhostRequest
    ensures { result ≡ no_request request }
{
    VhostRequest {
        request,
        index: 0,
        flag: 0,
        queue_size: 0,
        value: 0,
        size: 0,
    }
}

// A request with one number.
fn valued(request: u32, value: u64) -> VhostRequest
    ensures { result ≡ valued request value }
{
    VhostRequest {
        value,
        ..no_request(request)
    }
}

// A request on a ring with one number.
fn on_ring(request: u32, index: u32, value: u32) -> VhostRequest
    ensures { result ≡ on_ring request index value }
{
    VhostRequest {
        index,
        value: value as u64,
        ..no_request(request)
    }
}

// A request on a ring that turns something on or off.
fn switched(request: u32, index: u32, on: bool) -> VhostRequest
    ensures { result ≡ switched request index on }
{
    VhostRequest {
        index,
        flag: on as u32,
        ..no_request(request)
    }
}

// A request on a part of the configuration.
fn on_config(request: u32, space: &ConfigSpace) -> VhostRequest
    ensures { result ≡ on_config request space.now }
{
    VhostRequest {
        flag: space.flags,
        value: space.offset as u64,
        size: space.size as u64,
        ..no_request(request)
    }
}

// A request on a region of what is in flight.
fn on_inflight(request: u32, region: &VhostUserInflight) -> VhostRequest
    ensures { result ≡ on_inflight request region.now }
{
    VhostRequest {
        index: region.num_queues as u32,
        queue_size: region.queue_size as u32,
        value: region.mmap_offset,
        size: region.mmap_size,
        ..no_request(request)
    }
}

// What a request of this number asks for.
pub(crate) fn asked_by(number: u32, request: &FrontendReq) -> VhostRequest
    ensures { result ≡ asked_by number request.now }
{
    match request {
        FrontendReq::SetFeatures(features) => valued(number, *features),
        FrontendReq::SetProtocolFeatures(features) => valued(number, *features),
        FrontendReq::SetLogBase { size, offset } => VhostRequest {
            value: *offset,
            size: *size,
            ..no_request(number)
        },
        FrontendReq::SetVringNum { index, num } => on_ring(number, *index, *num),
        FrontendReq::SetVringAddr(address) => on_ring(number, address.index, 0),
        FrontendReq::SetVringBase { index, base } => on_ring(number, *index, *base),
        FrontendReq::GetVringBase { index } => on_ring(number, *index, 0),
        FrontendReq::SetVringKick { index, descriptor } => switched(number, *index, *descriptor),
        FrontendReq::SetVringCall { index, descriptor } => switched(number, *index, *descriptor),
        FrontendReq::SetVringErr { index, descriptor } => switched(number, *index, *descriptor),
        FrontendReq::SetVringEnable { index, enable } => switched(number, *index, *enable),
        FrontendReq::GetConfig(space) => on_config(number, space),
        FrontendReq::SetConfig(space) => on_config(number, space),
        FrontendReq::GetInflightFd(region) => on_inflight(number, region),
        FrontendReq::SetInflightFd(region) => on_inflight(number, region),
        _ => no_request(number),
    }
}

// ---- memory and rings

pub(crate) fn region_row(region: &MemoryRegion) -> VhostRegion
    ensures { result ≡ region_row region.now }
{
    VhostRegion {
        guest_address: region.guest_address.0,
        size: region.size,
        user_address: region.user_address,
        mmap_offset: region.mmap_offset,
    }
}

fn number_of_notifier(notifier: Notifier) -> u32
    ensures { result ≡ number_of_notifier notifier }
{
    match notifier {
        Notifier::Unset => 0,
        Notifier::Polled => 1,
        Notifier::Descriptor => 2,
    }
}

pub(crate) fn vring_row(vring: &RunningVring) -> VhostVring
    ensures { result ≡ vring_row vring.now }
{
    VhostVring {
        size: vring.num,
        base: vring.base,
        descriptor: vring.descriptor,
        available: vring.available,
        used: vring.used,
        used_len: vring.used_len,
        log: vring.log.unwrap_or(0),
        is_logged: vring.log.is_some() as u32,
        kick: number_of_notifier(vring.kick),
        call: number_of_notifier(vring.call),
    }
}

// ---- the log

pub(crate) fn pages_row(pages: &LogPages) -> VhostPages
    ensures { result ≡ pages_row pages.now }
{
    VhostPages {
        first: pages.first,
        count: pages.count,
    }
}

pub(crate) fn connection_state(backend: &BackendReqHandler) -> VhostState
    ensures { result ≡ connection_state backend.now }
{
    VhostState {
        features: backend.features(),
        protocol_features: backend.protocol_features(),
        queues: backend.queues(),
        regions: backend.memory().regions().len(),
        is_owned: backend.is_owned() as u32,
    }
}
