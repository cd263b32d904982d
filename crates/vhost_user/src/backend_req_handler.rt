//! The state of a connection, and the requests that change it.
ghost use Rattle.std.specs.Prelude.{◌≡◌, ◌<◌, ◌≤◌, length, drop, OnOk, true};
ghost use Rattle.vhost_user.specs.Connection.{Handles, Steps, Connects, can_offer, in_config, is_any_started};
ghost use Rattle.vhost_user.specs.Connection.{is_writable, needed, served, stopped_at, vring_at, with_address};
ghost use Rattle.vhost_user.specs.Connection.{with_base, with_call, with_changed_config, with_config, with_enabled};
ghost use Rattle.vhost_user.specs.Connection.{with_err, with_features, with_inflight, with_kick, with_log};
ghost use Rattle.vhost_user.specs.Connection.{with_memory, with_num, with_protocol_features, in_offer, with_vring};
ghost use Rattle.vhost_user.specs.Connection.{without_kick, vring_served};
ghost use Rattle.vhost_user.specs.Features.{has};
ghost use Rattle.vhost_user.specs.Running.{is_disabled, log_of, place, placed_vring, running};

use crate::features::{
    PROTOCOL_FEATURES, VHOST_F_LOG_ALL, VHOST_USER_F_PROTOCOL_FEATURES,
    VHOST_USER_PROTOCOL_F_BACKEND_REQ, VHOST_USER_PROTOCOL_F_CONFIG,
    VHOST_USER_PROTOCOL_F_INFLIGHT_SHMFD, VHOST_USER_PROTOCOL_F_LOG_SHMFD,
    VHOST_USER_PROTOCOL_F_MQ, VIRTIO_F_ACCESS_PLATFORM, VIRTIO_F_RING_PACKED, has,
};
use crate::inflight::region_len;
use crate::vring::{
    NotRunning, Notifier, RunningVring, Vring, available_len, is_aligned, notifier_of, table_len,
    used_len,
};
use std::alloc::Global;
use std::marker::Model;
use thiserror::Error;
use vhost_message::{
    ConfigSpace, FrontendReq, Header, MAX_CONFIG, MemoryTable, Refusal, VhostUserInflight,
    VringAddr,
};

/// What a back end offers.
#[derive(Clone, Copy, Debug)]
pub struct Offer {
    /// The features of the device, of its rings and of the back end, each as its bit.
    pub features: u64,
    /// The features of the protocol, of `PROTOCOL_FEATURES`.
    pub protocol_features: u64,
    /// How many descriptors a ring has at most: 1 to 32,768.
    pub max_queue_size: u32,
    /// Where the bytes of the configuration begin that a driver may write.
    pub writable_from: u32,
    /// How many these are.
    pub writable_len: u32,
}

/// Why no connection can be made.
#[derive(Clone, Copy, Debug, PartialEq, Eq, Error)]
pub enum OfferError {
    /// No back end offers this.
    #[error("invalid offer")]
    Invalid,
    /// An allocation failed.
    #[error("out of memory")]
    Memory,
}

/// A connection with a front end: what was negotiated, and what the front end said of its memory and its rings.
/// Contracts see it as a `Connection`.
#[derive(Debug, Drop)]
pub struct BackendReqHandler {
    offer: Offer,
    config: Vec<u8>,
    owned: bool,
    features: u64,
    protocol_features: u64,
    memory: MemoryTable,
    // How many bytes the log of dirty pages has that was shared last.
    log: Option<u64>,
    // The region of what is in flight that was shared last.
    inflight: Option<VhostUserInflight>,
    vrings: Vec<Vring>,
}

impl Model for BackendReqHandler {
    ghost use Rattle.std.specs.Prelude.{◌≤◌, length};
    ghost use Rattle.vhost_user.specs.Connection.{Connection};

    ghost Value = { Connection };

    ghost view = { λ h. record {
      offer = h.offer;
      config = h.config.items;
      owned = h.owned;
      features = h.features;
      protocol_features = h.protocol_features;
      memory = h.memory;
      log = h.log;
      inflight = h.inflight;
      vrings = h.vrings.items;
    } };

    ghost invariant = { λ h. length h.config.items ≤ 256 };
}

// Nothing, if a feature was offered or accepted.
fn needs(features: u64, feature: u64) -> Result<(), Refusal>
    ensures { result ≡ needed features feature }
{
    if !has(features, feature) {
        return Err(Refusal::NotNegotiated);
    }
    Ok(())
}

// Whether a front end may write these bytes of the configuration.
fn is_writable(offer: &Offer, space: &ConfigSpace, len: usize) -> bool
    requires { len < 9223372036854775808 }
    ensures { result ≡ is_writable offer.now space.now.flags space.now.offset len }
{
    let offset = space.offset as usize;
    let end = offer.writable_from as usize + offer.writable_len as usize;
    space.flags == 1 || offer.writable_from as usize <= offset && offset + len <= end
}

// The address in the log of a used ring, if writes to it are marked.
fn log_of(address: &VringAddr) -> Option<u64>
    ensures { result ≡ log_of address.now }
{
    if address.flags == 1 {
        Some(address.log)
    } else {
        None
    }
}

// The bytes of configuration in a payload.
fn config_bytes(payload: &[u8]) -> &[u8]
    ensures { result.now ≡ drop 12 payload.now }
{
    if payload.len() < 12 {
        return &[];
    }
    &payload[12..]
}

impl BackendReqHandler {
    fn can_offer(offer: &Offer, queues: usize, config: &[u8]) -> bool
        ensures { result ≡ can_offer offer.now queues config.now }
    {
        offer.protocol_features & PROTOCOL_FEATURES == offer.protocol_features
            && offer.max_queue_size > 0
            && offer.max_queue_size <= 32768
            && queues > 0
            && queues <= 256
            && config.len() <= MAX_CONFIG
    }

    /// A new connection: nothing is negotiated, and memory and rings are not known. There are `queues` rings, 1 to
    /// 256, and at most `MAX_CONFIG` bytes of configuration. `Invalid` if a back end cannot offer this.
    ///
    /// Leaves open: `Memory` for each offer that can be made.
    pub fn new(
        alloc: Global,
        offer: Offer,
        queues: usize,
        config: &[u8],
    ) -> Result<BackendReqHandler, OfferError>
        ensures { Connects offer queues config.now result }
    {
        if !BackendReqHandler::can_offer(&offer, queues, config) {
            return Err(OfferError::Invalid);
        }
        let Ok(config) = config.to_vec(alloc) else {
            return Err(OfferError::Memory);
        };
        let Ok(vrings) = vec![in alloc; Vring::new(); queues] else {
            return Err(OfferError::Memory);
        };
        Ok(BackendReqHandler {
            offer,
            config,
            owned: false,
            features: 0,
            protocol_features: 0,
            memory: MemoryTable::new(),
            log: None,
            inflight: None,
            vrings,
        })
    }

    /// What was offered.
    pub fn offer(&self) -> &Offer
        ensures { result.now ≡ self.now.offer }
    {
        &self.offer
    }

    /// How many rings there are.
    pub fn queues(&self) -> usize
        ensures { result ≡ length self.now.vrings }
    {
        self.vrings.len()
    }

    /// The features that the front end accepted.
    pub fn features(&self) -> u64
        ensures { result ≡ self.now.features }
    {
        self.features
    }

    /// The features of the protocol that the front end accepted.
    pub fn protocol_features(&self) -> u64
        ensures { result ≡ self.now.protocol_features }
    {
        self.protocol_features
    }

    /// Whether a front end said that it owns the connection.
    pub fn is_owned(&self) -> bool
        ensures { result ≡ self.now.owned }
    {
        self.owned
    }

    /// The device's configuration.
    pub fn config(&self) -> &[u8]
        ensures bytes { result.now ≡ self.now.config }
        ensures most { length self.now.config ≤ 256 }
    {
        self.config.as_slice()
    }

    /// The memory that the front end shares.
    pub fn memory(&self) -> &MemoryTable
        ensures { result.now ≡ self.now.memory }
    {
        &self.memory
    }

    /// How many bytes the log of dirty pages has, if the front end shared one.
    pub fn log(&self) -> Option<u64>
        ensures { result ≡ self.now.log }
    {
        self.log
    }

    /// The region of what is in flight, if the front end shared one.
    pub fn inflight(&self) -> Option<VhostUserInflight>
        ensures { result ≡ self.now.inflight }
    {
        self.inflight
    }

    /// What was said of a ring. `Index` if there is none of this number.
    pub fn vring(&self, index: u32) -> Result<Vring, Refusal>
        ensures found { result ≡ vring_at self.now index }
        ensures inside { OnOk result (index < length self.now.vrings) }
    {
        match self.vrings.get(index as usize) {
            Some(vring) => Ok(*vring),
            None => Err(Refusal::Index),
        }
    }

    // What was said of a ring that is not started.
    fn stopped_vring(&self, index: u32) -> Result<Vring, Refusal>
        ensures found { result ≡ stopped_at self.now index }
        ensures inside { OnOk result (index < length self.now.vrings) }
    {
        let vring = self.vring(index)?;
        if vring.is_started() {
            return Err(Refusal::Started);
        }
        Ok(vring)
    }

    fn set_vring(&mut self, index: u32, vring: Vring)
        requires { index < length self.old.vrings }
        ensures { self.new ≡ with_vring self.old index vring }
    {
        self.vrings[index as usize] = vring;
    }

    // ---- features

    fn is_any_started(&self) -> bool
        ensures { result ≡ is_any_started self.now }
    {
        self.vrings.iter().any(|vring| vring.is_started())
    }

    fn set_features(&mut self, features: u64) -> Result<(), Refusal>
        ensures { Steps self.old (with_features self.old features) result self.new }
    {
        if features & self.offer.features != features {
            return Err(Refusal::Features);
        }
        if self.is_any_started() && features | VHOST_F_LOG_ALL != self.features | VHOST_F_LOG_ALL {
            return Err(Refusal::Started);
        }
        self.features = features;
        Ok(())
    }

    fn set_protocol_features(&mut self, features: u64) -> Result<(), Refusal>
        ensures { Steps self.old (with_protocol_features self.old features) result self.new }
    {
        needs(self.offer.features, VHOST_USER_F_PROTOCOL_FEATURES)?;
        if features & self.offer.protocol_features != features {
            return Err(Refusal::Features);
        }
        self.protocol_features = features;
        Ok(())
    }

    fn set_owner(&mut self)
        ensures { self.new ≡ record self.old { owned = true } }
    {
        self.owned = true;
    }

    // ---- memory

    fn set_mem_table(&mut self, table: &MemoryTable) -> Result<(), Refusal>
        ensures { Steps self.old (with_memory self.old table.now) result self.new }
    {
        table.test()?;
        self.memory = table.copy();
        Ok(())
    }

    fn set_log_base(&mut self, size: u64) -> Result<(), Refusal>
        ensures { Steps self.old (with_log self.old size) result self.new }
    {
        needs(self.protocol_features, VHOST_USER_PROTOCOL_F_LOG_SHMFD)?;
        self.log = Some(size);
        Ok(())
    }

    // ---- what is in flight

    // Whether a region is for rings that there are, and of a size that is offered.
    fn test_inflight(&self, region: &VhostUserInflight) -> Result<(), Refusal>
        ensures { result ≡ in_offer self.now region.now }
    {
        needs(self.protocol_features, VHOST_USER_PROTOCOL_F_INFLIGHT_SHMFD)?;
        if region.num_queues == 0 || region.num_queues as usize > self.vrings.len() {
            return Err(Refusal::Index);
        }
        if region.queue_size == 0 || region.queue_size as u32 > self.offer.max_queue_size {
            return Err(Refusal::QueueSize);
        }
        Ok(())
    }

    fn set_inflight_fd(&mut self, region: &VhostUserInflight) -> Result<(), Refusal>
        ensures { Steps self.old (with_inflight self.old region.now) result self.new }
    {
        self.test_inflight(region)?;
        if region.mmap_size < region_len(self.features, region)
            || region.mmap_offset.checked_add(region.mmap_size).is_none()
        {
            return Err(Refusal::RegionRange);
        }
        self.inflight = Some(*region);
        Ok(())
    }

    // ---- rings

    fn set_vring_num(&mut self, index: u32, num: u32) -> Result<(), Refusal>
        ensures { Steps self.old (with_num self.old index num) result self.new }
    {
        let vring = self.stopped_vring(index)?;
        if num == 0 || num > self.offer.max_queue_size {
            return Err(Refusal::QueueSize);
        }
        self.set_vring(index, Vring { num, ..vring });
        Ok(())
    }

    fn set_vring_base(&mut self, index: u32, base: u32) -> Result<(), Refusal>
        ensures { Steps self.old (with_base self.old index base) result self.new }
    {
        let vring = self.stopped_vring(index)?;
        if !has(self.features, VIRTIO_F_RING_PACKED) && base > 0xffff {
            return Err(Refusal::Base);
        }
        self.set_vring(index, Vring { base, ..vring });
        Ok(())
    }

    fn set_vring_addr(&mut self, address: &VringAddr) -> Result<(), Refusal>
        ensures { Steps self.old (with_address self.old address.now) result self.new }
    {
        let vring = self.vring(address.index)?;
        if address.flags > 1 {
            return Err(Refusal::Flags);
        }
        if !is_aligned(address) {
            return Err(Refusal::Alignment);
        }
        if vring.is_started() && !vring.is_placed_as(address) {
            return Err(Refusal::Started);
        }
        self.set_vring(
            address.index,
            Vring {
                address: Some(*address),
                ..vring
            },
        );
        Ok(())
    }

    fn get_vring_base(&mut self, index: u32) -> Result<(), Refusal>
        ensures { Steps self.old (without_kick self.old index) result self.new }
    {
        let vring = self.vring(index)?;
        self.set_vring(
            index,
            Vring {
                kick: Notifier::Unset,
                ..vring
            },
        );
        Ok(())
    }

    fn set_vring_kick(&mut self, index: u32, descriptor: bool) -> Result<(), Refusal>
        ensures { Steps self.old (with_kick self.old index descriptor) result self.new }
    {
        let vring = self.vring(index)?;
        let kick = notifier_of(descriptor);
        self.set_vring(index, Vring { kick, ..vring });
        Ok(())
    }

    fn set_vring_call(&mut self, index: u32, descriptor: bool) -> Result<(), Refusal>
        ensures { Steps self.old (with_call self.old index descriptor) result self.new }
    {
        let vring = self.vring(index)?;
        let call = notifier_of(descriptor);
        self.set_vring(index, Vring { call, ..vring });
        Ok(())
    }

    fn set_vring_err(&mut self, index: u32, descriptor: bool) -> Result<(), Refusal>
        ensures { Steps self.old (with_err self.old index descriptor) result self.new }
    {
        let vring = self.vring(index)?;
        let err = notifier_of(descriptor);
        self.set_vring(index, Vring { err, ..vring });
        Ok(())
    }

    fn set_vring_enable(&mut self, index: u32, enable: bool) -> Result<(), Refusal>
        ensures { Steps self.old (with_enabled self.old index enable) result self.new }
    {
        needs(self.features, VHOST_USER_F_PROTOCOL_FEATURES)?;
        let vring = self.vring(index)?;
        self.set_vring(
            index,
            Vring {
                enabled: enable,
                ..vring
            },
        );
        Ok(())
    }

    // ---- configuration

    // Whether the configuration has these bytes.
    fn test_config(&self, offset: u32, len: usize) -> Result<(), Refusal>
        requires { len < 9223372036854775808 }
        ensures { result ≡ in_config self.now offset len }
    {
        needs(self.protocol_features, VHOST_USER_PROTOCOL_F_CONFIG)?;
        if offset as usize + len > self.config.len() {
            return Err(Refusal::ConfigRange);
        }
        Ok(())
    }

    fn set_config(&mut self, space: &ConfigSpace, bytes: &[u8]) -> Result<(), Refusal>
        ensures { Steps self.old (with_config self.old space.now bytes.now) result self.new }
    {
        self.test_config(space.offset, bytes.len())?;
        if !is_writable(&self.offer, space, bytes.len()) {
            return Err(Refusal::ConfigReadOnly);
        }
        let from = space.offset as usize;
        self.config[from..from + bytes.len()].copy_from_slice(bytes);
        Ok(())
    }

    // ---- requests

    // Does what a request on a ring asks for.
    fn serve_vring(&mut self, request: &FrontendReq) -> Result<(), Refusal>
        ensures { Steps self.old (vring_served self.old request.now) result self.new }
    {
        match request {
            FrontendReq::SetVringNum { index, num } => self.set_vring_num(*index, *num),
            FrontendReq::SetVringAddr(address) => self.set_vring_addr(address),
            FrontendReq::SetVringBase { index, base } => self.set_vring_base(*index, *base),
            FrontendReq::GetVringBase { index } => self.get_vring_base(*index),
            FrontendReq::SetVringKick { index, descriptor } => {
                self.set_vring_kick(*index, *descriptor)
            }
            FrontendReq::SetVringCall { index, descriptor } => {
                self.set_vring_call(*index, *descriptor)
            }
            FrontendReq::SetVringErr { index, descriptor } => {
                self.set_vring_err(*index, *descriptor)
            }
            FrontendReq::SetVringEnable { index, enable } => {
                self.set_vring_enable(*index, *enable)
            }
            _ => Ok(()),
        }
    }

    /// Does what a request asks for that was taken from a message, as `handle` does it: for a back end that lets some
    /// wait. The payload counts for a SET_CONFIG alone. One that is refused changes nothing.
    pub fn serve(&mut self, request: &FrontendReq, payload: &[u8]) -> Result<(), Refusal>
        ensures { Steps self.old (served self.old request.now payload.now) result self.new }
    {
        match request {
            FrontendReq::SetFeatures(features) => self.set_features(*features),
            FrontendReq::SetProtocolFeatures(features) => self.set_protocol_features(*features),
            FrontendReq::SetOwner => {
                self.set_owner();
                Ok(())
            }
            FrontendReq::SetMemTable(table) => self.set_mem_table(table),
            FrontendReq::SetConfig(space) => self.set_config(space, config_bytes(payload)),
            FrontendReq::GetConfig(space) => self.test_config(space.offset, space.size as usize),
            FrontendReq::GetProtocolFeatures => {
                needs(self.offer.features, VHOST_USER_F_PROTOCOL_FEATURES)
            }
            FrontendReq::GetQueueNum => needs(self.protocol_features, VHOST_USER_PROTOCOL_F_MQ),
            FrontendReq::SetLogBase { size, .. } => self.set_log_base(*size),
            FrontendReq::GetInflightFd(region) => self.test_inflight(region),
            FrontendReq::SetInflightFd(region) => self.set_inflight_fd(region),
            FrontendReq::SetLogFd => needs(self.offer.features, VHOST_F_LOG_ALL),
            FrontendReq::SetBackendReqFd => {
                needs(self.protocol_features, VHOST_USER_PROTOCOL_F_BACKEND_REQ)
            }
            FrontendReq::IotlbMsg(_) => needs(self.features, VIRTIO_F_ACCESS_PLATFORM),
            _ => self.serve_vring(request),
        }
    }

    /// Takes a message: its header, its payload, and how many descriptors came with it. What it asks for is returned,
    /// and is part of the state from now on: the back end does the rest, as mapping memory, and sends `reply`.
    ///
    /// A ring that a GET_VRING_BASE names is stopped at once. What is in flight is finished, `stop` says where the ring
    /// goes on, and then the reply is sent.
    ///
    /// A message that is refused changes nothing. The errors of `FrontendReq::decode`; `Descriptors` if another number
    /// of descriptors belongs to it, `NotNegotiated` if its feature was not offered or not accepted, and those that its
    /// request has by its values.
    pub fn handle(
        &mut self,
        header: &Header,
        payload: &[u8],
        descriptors: usize,
    ) -> Result<FrontendReq, Refusal>
        ensures { Handles self.old header.now payload.now descriptors result self.new }
    {
        let request = FrontendReq::decode(header, payload)?;
        if descriptors != request.descriptors() {
            return Err(Refusal::Descriptors);
        }
        self.serve(&request, payload)?;
        Ok(request)
    }

    /// Replaces bytes of the configuration from an offset on, as a device does that changed. `ConfigRange`, and nothing
    /// changes, if the configuration does not have them.
    pub fn change_config(&mut self, offset: u32, bytes: &[u8]) -> Result<(), Refusal>
        ensures { Steps self.old (with_changed_config self.old offset bytes.now) result self.new }
    {
        let from = offset as usize;
        if bytes.len() > self.config.len() || from > self.config.len() - bytes.len() {
            return Err(Refusal::ConfigRange);
        }
        self.config[from..from + bytes.len()].copy_from_slice(bytes);
        Ok(())
    }

    /// Sets where a stopped ring goes on, as a front end does it by SET_VRING_BASE: so what is replied can come back.
    /// `Index` if there is no such ring, `Started` if it is started, and `Base` if it is a split one and this is no
    /// index of 16 bits.
    pub fn stop(&mut self, index: u32, base: u32) -> Result<(), Refusal>
        ensures { Steps self.old (with_base self.old index base) result self.new }
    {
        self.set_vring_base(index, base)
    }

    // ---- rings that are to be served

    // Where a part of a ring lies that the front end placed: in guest memory, or at the same I/O address.
    fn place(&self, address: u64, len: u64) -> Option<u64>
        ensures { result ≡ place self.now address len }
    {
        if has(self.features, VIRTIO_F_ACCESS_PLATFORM) {
            return Some(address);
        }
        match self.memory.guest_of(address, len) {
            Some(guest_address) => Some(guest_address.0),
            None => None,
        }
    }

    fn placed_vring(&self, vring: &Vring, address: &VringAddr) -> Result<RunningVring, NotRunning>
        ensures { result ≡ placed_vring self.now vring.now address.now }
    {
        let num = vring.num;
        let Some(descriptor) = self.place(address.descriptor, table_len(num)) else {
            return Err(NotRunning::UserAddress);
        };
        let used_len = used_len(self.features, num);
        let Some(used) = self.place(address.used, used_len) else {
            return Err(NotRunning::UserAddress);
        };
        let Some(available) = self.place(address.available, available_len(self.features, num))
        else {
            return Err(NotRunning::UserAddress);
        };
        Ok(RunningVring {
            num,
            base: vring.base,
            descriptor,
            used,
            used_len,
            available,
            log: log_of(address),
            kick: vring.kick,
            call: vring.call,
        })
    }

    // Whether a ring has to be enabled, and is not.
    fn is_disabled(&self, vring: &Vring) -> bool
        ensures { result ≡ is_disabled self.now vring.now }
    {
        has(self.features, VHOST_USER_F_PROTOCOL_FEATURES) && !vring.enabled
    }

    /// A ring as it is to be served. It is not served before a kick and after a GET_VRING_BASE (`Stopped`), not if
    /// `VHOST_USER_F_PROTOCOL_FEATURES` was accepted and it is not enabled (`Disabled`), and not if it has no size, no
    /// address, or one that the memory of the front end does not have (`NoSize`, `NoAddress`, `UserAddress`).
    pub fn running(&self, index: u32) -> Result<RunningVring, NotRunning>
        ensures { result ≡ running self.now index }
    {
        let Some(vring) = self.vrings.get(index as usize) else {
            return Err(NotRunning::Index);
        };
        if !vring.is_started() {
            return Err(NotRunning::Stopped);
        }
        if self.is_disabled(vring) {
            return Err(NotRunning::Disabled);
        }
        if vring.num == 0 {
            return Err(NotRunning::NoSize);
        }
        let Some(address) = vring.address else {
            return Err(NotRunning::NoAddress);
        };
        self.placed_vring(vring, &address)
    }
}
