//! A connection of a block device's back end, with its guest memory: plain numbers and bytes come in, and go out.
ghost use Rattle.std.specs.Prelude.{◌≡◌, ◌<◌, ◌≤◌, ◌^◌, length};
ghost use Rattle.vhost_backend.specs.BlockBackend.{channel_lost, resized};
ghost use Rattle.vhost_backend.specs.BlockConnection.{Connects, Maps, Opens, done, ended, failed, kicked};
ghost use Rattle.vhost_backend.specs.BlockConnection.{limits_of, looked_after, as_negotiated, sent, taken};
ghost use Rattle.vhost_backend.specs.BlockConnection.{taken_whole, with_backend, offered, reply_came, reply_in};
ghost use Rattle.vhost_backend.specs.BlockConnection.{tracking, whole_reply};
ghost use Rattle.vm_memory_guest.specs.BlockBytes.{bytes_of};

mod run;

use crate::block_backend::BlockBackend;
use crate::connection_memory::ConnectionMemory;
use crate::deeds::{Limits, Why};
use crate::given::{OpenPart, is_covered, log_kept, pages_in};
use crate::table_counts::{TableCounts, no_table_counts};
use std::alloc::Global;
use vhost_calls::{VhostOffer, code_of_offer, offer_of};
use vhost_message::{BackendReply, HEADER_LEN, Header, Refusal};
use vhost_user::{BackendReqHandler, Offer, OfferError, VIRTIO_F_ACCESS_PLATFORM};
use vm_memory_guest::BlockBytes;

/// The disk of a block device, and what its requests keep to.
#[repr(C)]
#[derive(Clone, Copy, Debug, PartialEq, Eq)]
pub struct BlockDisk {
    /// How many sectors of 512 bytes it has.
    pub sectors: u64,
    /// How many segments a request has beside header and status at most, if the driver accepted that.
    pub seg_max: u32,
    /// How many bytes a segment has at most, if the driver accepted that.
    pub size_max: u32,
    /// 1 if nothing is written to it, and otherwise 0.
    pub read_only: u32,
    /// How many bytes of replies may wait to be sent.
    pub unread: u32,
    /// How many ranges the device's I/O table keeps at most. With 0 ACCESS_PLATFORM is not offered.
    pub table_limit: u32,
}

// What the requests of a disk are held against.
fn limits_of(disk: &BlockDisk) -> Limits
    ensures { result ≡ limits_of disk.now }
{
    Limits {
        sectors: disk.sectors,
        read_only: disk.read_only != 0,
        seg_max: disk.seg_max as usize,
        size_max: disk.size_max as usize,
        unread: disk.unread as usize,
        table_limit: disk.table_limit as usize,
    }
}

// All features but the one by which rings and requests lie at I/O addresses.
const WITHOUT_TABLE: u64 = !VIRTIO_F_ACCESS_PLATFORM;

// What is offered by a device whose table keeps so many ranges.
fn offered(offer: Offer, table_limit: usize) -> Offer
    ensures { result ≡ offered offer table_limit }
{
    if table_limit > 0 {
        return offer;
    }
    Offer {
        features: offer.features & WITHOUT_TABLE,
        ..offer
    }
}

// The reply of a message that has a header.
fn whole_reply(message: &[u8]) -> Result<BackendReply, Refusal>
    requires { 12 ≤ length message.now }
    ensures { result ≡ whole_reply message.now }
{
    BackendReply::decode(&Header::at_front(message), &message[HEADER_LEN..])
}

// The reply of a message, or what is wrong with it.
fn reply_in(message: &[u8]) -> Result<BackendReply, Refusal>
    ensures { result ≡ reply_in message.now }
{
    if message.len() < HEADER_LEN {
        return Err(Refusal::PayloadSize);
    }
    whole_reply(message)
}

/// Opens a connection, with no memory. `VHOST_OFFER` if no back end offers this, and `MEMORY` if an allocation fails.
///
/// Leaves open: `MEMORY` for each offer that can be made.
pub fn open(
    alloc: Global,
    offer: &VhostOffer,
    config: &[u8],
    disk: &BlockDisk,
) -> Result<BlockConnection, u32>
    ensures { Opens alloc offer.now config.now disk.now result }
{
    match BlockConnection::new(
        alloc,
        offer_of(offer),
        offer.queues as usize,
        config,
        limits_of(disk),
    ) {
        Ok(connection) => Ok(connection),
        Err(error) => Err(code_of_offer(error)),
    }
}

/// A connection with its guest memory.
#[derive(Drop)]
pub struct BlockConnection {
    backend: BlockBackend,
    memory: ConnectionMemory,
    part: Option<OpenPart>,
    // A part of which bytes have no memory.
    lost: Option<(usize, u16)>,
    // This run gave marks, which the program has not made yet.
    marks: bool,
    table_counts: TableCounts,
}

impl BlockConnection {
    /// A new connection, with no memory. If the table has no ranges, ACCESS_PLATFORM is not offered.
    ///
    /// Leaves open: `Memory` for each offer that can be made.
    pub fn new(
        alloc: Global,
        offer: Offer,
        queues: usize,
        config: &[u8],
        limits: Limits,
    ) -> Result<BlockConnection, OfferError>
        ensures { Connects alloc offer queues config.now limits result }
    {
        let offer = offered(offer, limits.table_limit);
        let backend = BlockBackend::new(alloc, offer, queues, config, limits)?;
        let Ok(memory) = ConnectionMemory::new(alloc, limits.table_limit) else {
            return Err(OfferError::Memory);
        };
        Ok(BlockConnection {
            backend,
            memory,
            part: None,
            lost: None,
            marks: false,
            table_counts: no_table_counts(),
        })
    }

    /// The protocol's state.
    pub fn connection(&self) -> &BackendReqHandler
        ensures { result.now ≡ self.now.backend.backend.connection }
    {
        self.backend.backend().connection()
    }

    /// How often the device's I/O table was changed.
    pub fn table_counts(&self) -> TableCounts
        ensures { result ≡ self.now.table_counts }
    {
        self.table_counts
    }

    /// Takes note that the driver of a ring notified.
    pub fn kick(&mut self, ring: usize)
        ensures { self.new ≡ kicked self.old ring }
    {
        self.backend.kick(ring);
    }

    /// Takes note that so many bytes of replies were sent.
    pub fn sent(&mut self, count: usize)
        ensures { self.new ≡ sent self.old count }
    {
        self.backend.sent(count);
    }

    /// The disk has so many sectors from now on, and the configuration says so.
    pub fn resize(&mut self, sectors: u64)
        ensures { self.new ≡ with_backend self.old (resized self.old.backend sectors) }
    {
        self.backend.resize(sectors);
    }

    /// Takes a whole reply that came on the back end's own channel. Returns whether one was due: if not, the connection
    /// ends.
    pub fn answered(&mut self, message: &[u8]) -> bool
        ensures { (self.new, result) ≡ reply_came self.old message.now }
    {
        self.backend.replied(reply_in(message))
    }

    /// Takes note that the back end's own channel is lost.
    pub fn channel_lost(&mut self)
        ensures { self.new ≡ with_backend self.old (channel_lost self.old.backend) }
    {
        self.backend.channel_lost();
    }

    /// Ends the connection.
    pub fn hang_up(&mut self)
        ensures { self.new ≡ ended self.old }
    {
        self.backend.hang_up(Why::HungUp);
    }

    // Takes a message that has a header.
    fn take_whole(&mut self, message: &[u8], descriptors: usize) -> bool
        requires { 12 ≤ length message.now }
        ensures { (self.new, result) ≡ taken_whole self.old message.now descriptors }
    {
        let header = Header::at_front(message);
        self.backend
            .take_message(&header, &message[HEADER_LEN..], descriptors)
    }

    /// Takes a whole message, and how many descriptors came with it. Returns whether it was taken.
    pub fn take_message(&mut self, message: &[u8], descriptors: usize) -> bool
        ensures { (self.new, result) ≡ taken self.old message.now descriptors }
    {
        if message.len() < HEADER_LEN {
            return false;
        }
        if self.part.is_some() || self.lost.is_some() {
            return false;
        }
        self.take_whole(message, descriptors)
    }

    /// The guest memory.
    pub fn memory(&mut self) -> &mut ConnectionMemory {
        &mut self.memory
    }

    /// Takes the bytes of the region that is to be mapped. Returns whether that could be done.
    pub fn mapped(&mut self, bytes: BlockBytes) -> bool
        requires some { 0 < length (bytes_of bytes) }
        requires small { length (bytes_of bytes) < 2 ^ 63 }
        ensures { Maps self.old result self.new }
    {
        let Some(region) = self.backend.region_asked() else {
            return false;
        };
        let is_done = self.memory.map(&region, bytes);
        self.backend.mapped(is_done);
        is_done
    }

    /// Takes the bytes of the region of requests in flight that is to be mapped. It is reported as done after that.
    pub fn track(&mut self, bytes: BlockBytes)
        ensures { self.new ≡ tracking self.old (bytes_of bytes) }
    {
        self.memory.track(bytes);
    }

    /// Takes note that what was asked for was done.
    pub fn done(&mut self)
        ensures { self.new ≡ done self.old }
    {
        self.backend.answer(true);
        self.after_message();
    }

    /// Takes note that what was asked for could not be done.
    pub fn failed(&mut self)
        ensures { self.new ≡ failed self.old }
    {
        self.backend.mapped(false);
        self.backend.answer(false);
    }

    // Pages are marked, and rings lie at I/O addresses, as the connection has it from now on. If a page has no bit in
    // the log, the connection is over.
    fn refresh(&mut self)
        ensures { self.new ≡ as_negotiated self.old }
    {
        let connection = self.backend.backend().connection();
        let pages = pages_in(log_kept(connection));
        let is_covered = is_covered(connection);
        let is_behind = connection.features() & VIRTIO_F_ACCESS_PLATFORM != 0;
        self.memory.set_pages(pages);
        self.memory.set_behind(is_behind);
        if !is_covered {
            self.backend.hang_up(Why::Log);
        }
    }

    // The same after a message was finished.
    fn after_message(&mut self)
        ensures { self.new ≡ looked_after self.old }
    {
        if self.backend.take_finished() {
            self.refresh();
        }
    }
}
