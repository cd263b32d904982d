//! The front end: it sets a connection up, has the driver publish requests, answers what the back end misses, and moves
//! and takes back pages meanwhile.

ghost use Rattle.std.specs.Prelude.{◌<◌, length};

use crate::channel::End;
use crate::driver::{AVAILABLE, TABLE, USED};
use crate::guest::{Guest, Trouble};
use crate::hostile::malformed;
use crate::world::{
    CALL, IOVA, NO_DESCRIPTOR, PAGE, PAGES, QUEUE_SIZE, REGIONS, SLOTS, iova_of, user_of,
};
use anyhow::bail;
use std::io::{Read, Write};
use std::sync::{Mutex, Wait};
use vhost_backend::BlockConnection;
use vhost_message::{
    Header, IotlbMessage, PAYLOAD_LEN, VERSION, VHOST_USER_BACKEND_IOTLB_MSG,
    VHOST_USER_GET_FEATURES, VHOST_USER_GET_PROTOCOL_FEATURES, VHOST_USER_GET_VRING_BASE,
    VHOST_USER_IOTLB_MSG, VHOST_USER_NEED_REPLY, VHOST_USER_REPLY, VHOST_USER_SET_BACKEND_REQ_FD,
    VHOST_USER_SET_FEATURES, VHOST_USER_SET_MEM_TABLE, VHOST_USER_SET_OWNER,
    VHOST_USER_SET_PROTOCOL_FEATURES, VHOST_USER_SET_VRING_ADDR, VHOST_USER_SET_VRING_BASE,
    VHOST_USER_SET_VRING_CALL, VHOST_USER_SET_VRING_ENABLE, VHOST_USER_SET_VRING_KICK,
    VHOST_USER_SET_VRING_NUM,
};
use vhost_user::{
    VHOST_USER_F_PROTOCOL_FEATURES, VHOST_USER_PROTOCOL_F_BACKEND_REQ,
    VHOST_USER_PROTOCOL_F_REPLY_ACK, VIRTIO_F_ACCESS_PLATFORM, VIRTIO_F_RING_EVENT_IDX,
};
use vm_memory_base::Permissions;

/// The feature of devices since version 1 of the specification.
pub const VIRTIO_F_VERSION_1: u64 = 1 << 32;

/// The feature of indirect tables.
pub const VIRTIO_F_RING_INDIRECT_DESC: u64 = 1 << 28;

/// The protocol features that both ends have.
pub const PROTOCOL: u64 = VHOST_USER_PROTOCOL_F_REPLY_ACK | VHOST_USER_PROTOCOL_F_BACKEND_REQ;

/// The features that a guest wants whose driver notifies by event indices, or does not.
pub fn features(events: bool) -> u64 {
    let device = VIRTIO_F_VERSION_1 | VIRTIO_F_RING_INDIRECT_DESC | VIRTIO_F_ACCESS_PLATFORM;
    let usual = device | VHOST_USER_F_PROTOCOL_FEATURES;
    if events {
        usual | VIRTIO_F_RING_EVENT_IDX
    } else {
        usual
    }
}

// The header of a message whose payload is numbers of 64 bits.
fn header_of(request: u32, flags: u32, numbers: &[u64]) -> Header
    requires { length numbers.now < 16 }
{
    Header {
        request,
        flags: VERSION | flags,
        size: numbers.len() as u32 * 8,
    }
}

/// A front end on one connection.
#[derive(Drop)]
pub struct FrontEnd<C> {
    pub guest: Guest,
    pub front: End<C>,
    pub own: End<C>,
    /// A malformed message ended the connection.
    pub is_over: bool,
}

impl<C: Read + Write + Drop> FrontEnd<C> {
    // ---- messages

    // The number in the reply to a message.
    fn reply_to(&mut self, header: Header) -> anyhow::Result<u64> {
        let reply = self.front.next()?;
        if reply.header.request != header.request || !reply.header.is_reply() {
            bail!("another message in place of a reply");
        }
        Ok(reply.number())
    }

    // Asks for something that has a reply of its own.
    fn ask(&mut self, request: u32, numbers: &[u64]) -> anyhow::Result<u64>
        requires { length numbers.now < 16 }
    {
        let header = header_of(request, 0, numbers);
        self.front.send_numbers(header, numbers)?;
        self.reply_to(header)
    }

    // Sends a message whose payload is numbers, and waits until it was done, if that is told.
    fn say(&mut self, request: u32, numbers: &[u64], flags: u32) -> anyhow::Result<()>
        requires { length numbers.now < 16 }
    {
        let header = header_of(request, flags, numbers);
        self.front.send_numbers(header, numbers)?;
        if header.needs_reply() && self.reply_to(header)? != 0 {
            bail!("request {request} was refused");
        }
        Ok(())
    }

    // Sends a message on the table, and waits until it was done, if that is told.
    fn tell(&mut self, message: IotlbMessage, flags: u32) -> anyhow::Result<()> {
        let header = Header {
            request: VHOST_USER_IOTLB_MSG,
            flags: VERSION | flags,
            size: PAYLOAD_LEN as u32,
        };
        self.front.send(header, &message.encode())?;
        if header.needs_reply() && self.reply_to(header)? != 0 {
            bail!("a message on the table was refused");
        }
        Ok(())
    }

    // ---- the beginning and the end

    // Both ends agree on features, and the back end gets its own channel and guest memory.
    fn introduce(&mut self) -> anyhow::Result<()> {
        let wanted = features(self.guest.events);
        let offered = self.ask(VHOST_USER_GET_FEATURES, &[])?;
        let protocol = self.ask(VHOST_USER_GET_PROTOCOL_FEATURES, &[])?;
        if offered & wanted != wanted || protocol & PROTOCOL != PROTOCOL {
            bail!("the back end offers {offered:#x} and {protocol:#x}");
        }
        self.say(VHOST_USER_SET_PROTOCOL_FEATURES, &[PROTOCOL], 0)?;
        self.say(VHOST_USER_SET_OWNER, &[], VHOST_USER_NEED_REPLY)?;
        self.say(VHOST_USER_SET_BACKEND_REQ_FD, &[], VHOST_USER_NEED_REPLY)?;
        self.say(VHOST_USER_SET_FEATURES, &[wanted], VHOST_USER_NEED_REPLY)?;
        let [(a, b, c), (d, e, f)] = REGIONS;
        let table = [REGIONS.len() as u64, a, b, c, a, d, e, f, d];
        self.say(VHOST_USER_SET_MEM_TABLE, &table, VHOST_USER_NEED_REPLY)
    }

    // The ring starts. Its number is 0.
    fn start(&mut self) -> anyhow::Result<()> {
        let size = u64::from(QUEUE_SIZE) << 32;
        let address = [0, TABLE, USED, AVAILABLE, 0];
        let enabled = 1 << 32;
        self.say(VHOST_USER_SET_VRING_NUM, &[size], VHOST_USER_NEED_REPLY)?;
        self.say(VHOST_USER_SET_VRING_BASE, &[0], VHOST_USER_NEED_REPLY)?;
        self.say(VHOST_USER_SET_VRING_ADDR, &address, VHOST_USER_NEED_REPLY)?;
        self.say(VHOST_USER_SET_VRING_CALL, &[0], VHOST_USER_NEED_REPLY)?;
        self.say(VHOST_USER_SET_VRING_KICK, &[0], VHOST_USER_NEED_REPLY)?;
        self.say(
            VHOST_USER_SET_VRING_ENABLE,
            &[enabled],
            VHOST_USER_NEED_REPLY,
        )
    }

    // Requests that were under way when the last connection ended are published again.
    fn resume<W: Wait>(&mut self, rt: &W, lock: &Mutex<BlockConnection>) -> anyhow::Result<()> {
        let old = self.guest.driver.next_avail;
        for slot in 0..SLOTS {
            self.guest.publish(lock.lock(rt).memory(), slot)?;
        }
        self.kick(rt, lock, old)
    }

    // The ring stops, at the chain after the last one.
    fn stop(&mut self) -> anyhow::Result<()> {
        let base = self.ask(VHOST_USER_GET_VRING_BASE, &[0])?;
        if base != u64::from(self.guest.driver.next_avail) << 32 {
            bail!("the ring stops at {base:#x}");
        }
        Ok(())
    }

    // ---- the table

    // Tells the back end where a page leads.
    fn set_page(&mut self, page: u64, permissions: Permissions, flags: u32) -> anyhow::Result<()> {
        let update = IotlbMessage::Update {
            iova: iova_of(page),
            size: PAGE,
            user_address: user_of(self.guest.pages.frame_of(page)),
            permissions,
        };
        self.tell(update, flags)?;
        self.guest.pages.set_told(page, true);
        Ok(())
    }

    // Takes pages back: none of them is accessed from then on.
    fn take_back(&mut self, page: u64, count: u64) -> anyhow::Result<()> {
        let invalidate = IotlbMessage::Invalidate {
            iova: iova_of(page),
            size: count.wrapping_mul(PAGE),
        };
        self.tell(invalidate, VHOST_USER_NEED_REPLY)?;
        for taken in page..page.saturating_add(count) {
            self.guest.pages.set_told(taken, false);
        }
        self.count_invalidation();
        Ok(())
    }

    // Takes all pages back, by a range up to the last address, or by the one that stands for all.
    fn take_all_back(&mut self) -> anyhow::Result<()> {
        let iova = if self.guest.below(2) == 0 { IOVA } else { 0 };
        let invalidate = IotlbMessage::Invalidate {
            iova,
            size: iova.wrapping_neg(),
        };
        self.tell(invalidate, VHOST_USER_NEED_REPLY)?;
        self.guest.pages.forget_all();
        self.count_invalidation();
        Ok(())
    }

    fn count_invalidation(&mut self) {
        self.guest.seen.invalidations = self.guest.seen.invalidations.saturating_add(1);
    }

    // Moves a page to another frame.
    fn move_page<W: Wait>(
        &mut self,
        rt: &W,
        lock: &Mutex<BlockConnection>,
        page: u64,
    ) -> anyhow::Result<()> {
        self.take_back(page, 1)?;
        let alloc = self.guest.alloc;
        self.guest
            .pages
            .move_page(alloc, lock.lock(rt).memory(), page)
    }

    // Sends a malformed message, by which the connection ends, perhaps before all of it is sent.
    fn harass(&mut self) -> anyhow::Result<()> {
        let (header, payload) = malformed(self.guest.seen.refused, IOVA);
        let _sent = self.front.send(header, &payload);
        self.front.expect_end(header.request)?;
        self.guest.pages.forget_all();
        self.guest.attacks = self.guest.attacks.saturating_sub(1);
        self.guest.seen.refused = self.guest.seen.refused.saturating_add(1);
        self.is_over = true;
        Ok(())
    }

    // Moves and takes back pages at random, or sends a malformed message that is due.
    fn stir<W: Wait>(&mut self, rt: &W, lock: &Mutex<BlockConnection>) -> anyhow::Result<()> {
        let page = self.guest.below(PAGES);
        let act = self.guest.below(16);
        if self.guest.attacks > 0 && self.guest.below(4) == 0 {
            return self.harass();
        }
        match act {
            0..=3 => self.move_page(rt, lock, page),
            4 | 5 => self.take_back(page, 1),
            6 => {
                let count = 1 + self.guest.below(PAGES - page);
                self.take_back(page, count)
            }
            7 if self.guest.below(8) == 0 => self.take_all_back(),
            _ => Ok(()),
        }
    }

    // ---- what the back end asks

    // Replies to a message of the back end: 0 if it was done.
    fn answer(&mut self, value: u64) -> anyhow::Result<()> {
        let header = header_of(VHOST_USER_BACKEND_IOTLB_MSG, VHOST_USER_REPLY, &[value]);
        self.own.send_numbers(header, &[value])
    }

    // Whether a message is to be acknowledged, at random.
    fn any_flags(&mut self) -> u32 {
        if self.guest.below(2) == 0 {
            VHOST_USER_NEED_REPLY
        } else {
            0
        }
    }

    // Maps a page that was missed, for all accesses or for another one than the one that is wanted.
    fn map_missed(&mut self, page: u64, access: Permissions) -> anyhow::Result<()> {
        let permissions = match (self.guest.trouble_of(page), access) {
            (Trouble::Forbidden, Permissions::Read) => Permissions::Write,
            (Trouble::Forbidden, _) => Permissions::Read,
            _ => Permissions::ReadWrite,
        };
        let flags = self.any_flags();
        self.set_page(page, permissions, flags)?;
        self.answer(0)
    }

    // Answers a MISS: pages are moved and taken back first, and sometimes another request is published, or another page
    // is mapped alone.
    fn answer_miss<W: Wait>(
        &mut self,
        rt: &W,
        lock: &Mutex<BlockConnection>,
        iova: u64,
        access: Permissions,
    ) -> anyhow::Result<()> {
        let page = iova.wrapping_sub(IOVA) / PAGE;
        self.guest.seen.misses = self.guest.seen.misses.saturating_add(1);
        if page >= PAGES || self.guest.trouble_of(page) == Trouble::Refused {
            return self.answer(1);
        }
        if self.guest.pages.was_told(page) {
            self.guest.seen.evictions = self.guest.seen.evictions.saturating_add(1);
        }
        self.stir(rt, lock)?;
        if self.is_over {
            return Ok(());
        }
        if self.guest.below(8) == 0 {
            self.publish_some(rt, lock, 1)?;
        }
        if self.guest.below(16) == 0 {
            let other = self.guest.below(PAGES);
            if other != page && self.guest.trouble_of(other) == Trouble::None {
                let flags = self.any_flags();
                self.set_page(other, Permissions::ReadWrite, flags)?;
                return self.answer(0);
            }
        }
        self.map_missed(page, access)
    }

    // Serves a message of the back end.
    fn serve<W: Wait>(&mut self, rt: &W, lock: &Mutex<BlockConnection>) -> anyhow::Result<()> {
        let frame = self.own.next()?;
        if frame.header.request == CALL {
            return self.collect_all(rt, lock);
        }
        if frame.header.request != VHOST_USER_BACKEND_IOTLB_MSG {
            bail!("the back end sends another request");
        }
        match IotlbMessage::decode(&frame.payload) {
            Ok(IotlbMessage::Miss { iova, access }) => self.answer_miss(rt, lock, iova, access),
            Ok(IotlbMessage::AccessFail { .. }) => {
                self.guest.seen.forbidden = self.guest.seen.forbidden.saturating_add(1);
                Ok(())
            }
            _ => bail!("the back end sends another message"),
        }
    }

    // Serves messages of the back end until the device has returned all requests. What it returned is looked for at
    // each call.
    fn wait_for_all<W: Wait>(
        &mut self,
        rt: &W,
        lock: &Mutex<BlockConnection>,
    ) -> anyhow::Result<()> {
        for _ in 0..u64::MAX {
            if self.is_over || !self.guest.has_sent() {
                return Ok(());
            }
            self.serve(rt, lock)?;
        }
        bail!("no call")
    }

    // ---- requests

    // Takes all requests that the device returned. The page of one that failed has no mapping from then on.
    fn collect_all<W: Wait>(
        &mut self,
        rt: &W,
        lock: &Mutex<BlockConnection>,
    ) -> anyhow::Result<()> {
        for _ in 0..u64::MAX {
            let collected = self.guest.collect(lock.lock(rt).memory())?;
            let Some(asked) = collected else {
                break;
            };
            if asked.trouble != Trouble::None && !self.is_over {
                self.take_back(asked.page(), 1)?;
            }
        }
        Ok(())
    }

    // Makes a request, and publishes it. A page with which something goes wrong is taken back before.
    fn publish_one<W: Wait>(
        &mut self,
        rt: &W,
        lock: &Mutex<BlockConnection>,
        slot: usize,
    ) -> anyhow::Result<()> {
        let asked = self.guest.make(lock.lock(rt).memory(), slot)?;
        if asked.trouble != Trouble::None {
            self.take_back(asked.page(), 1)?;
        }
        self.guest.publish(lock.lock(rt).memory(), slot)
    }

    // Publishes so many requests, or fewer if there is no place for them, and kicks the device if it asked for that.
    fn publish_some<W: Wait>(
        &mut self,
        rt: &W,
        lock: &Mutex<BlockConnection>,
        count: u64,
    ) -> anyhow::Result<()> {
        let old = self.guest.driver.next_avail;
        for _ in 0..count {
            let Some(slot) = self.guest.free_slot() else {
                break;
            };
            self.publish_one(rt, lock, slot)?;
        }
        self.kick(rt, lock, old)
    }

    // Kicks the device, if it asked for that before heads were published after so many.
    fn kick<W: Wait>(
        &mut self,
        rt: &W,
        lock: &Mutex<BlockConnection>,
        old: u16,
    ) -> anyhow::Result<()> {
        let guest = &self.guest;
        let has_to = guest
            .driver
            .must_kick(&guest.pages, lock.lock(rt).memory(), guest.events, old)?;
        if has_to {
            self.guest.seen.kicks = self.guest.seen.kicks.saturating_add(1);
            self.say(VHOST_USER_SET_VRING_KICK, &[NO_DESCRIPTOR], 0)?;
        }
        Ok(())
    }

    // One burst of requests.
    fn burst<W: Wait>(&mut self, rt: &W, lock: &Mutex<BlockConnection>) -> anyhow::Result<()> {
        self.stir(rt, lock)?;
        if self.is_over {
            return Ok(());
        }
        let count = 1 + self.guest.below(SLOTS as u64);
        self.publish_some(rt, lock, count)?;
        self.wait_for_all(rt, lock)
    }

    /// Makes all requests, in bursts, and moves and takes back pages meanwhile, until none is left or a malformed
    /// message ended the connection. Returns the guest, and closes the channels.
    pub fn run<W: Wait>(mut self, rt: &W, lock: &Mutex<BlockConnection>) -> anyhow::Result<Guest> {
        self.introduce()?;
        self.guest.begin(lock.lock(rt).memory())?;
        self.start()?;
        self.resume(rt, lock)?;
        self.wait_for_all(rt, lock)?;
        for _ in 0..u64::MAX {
            if self.is_over || self.guest.is_done() {
                break;
            }
            self.burst(rt, lock)?;
        }
        if self.is_over {
            self.collect_all(rt, lock)?;
        } else {
            self.stop()?;
        }
        Ok(self.guest)
    }
}
