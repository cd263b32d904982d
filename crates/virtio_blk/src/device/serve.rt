//! How a chain is served.
ghost use Rattle.std.specs.Prelude.{◌≡◌, ◌-◌, ◌<◌, ◌≤◌, ◌^◌, ◌||◌, List, ℕ, length, drop};
ghost use Rattle.vm_memory_device.specs.Chain.{readable, text, writable};
ghost use Rattle.vm_memory_guest.specs.Host.{shape_of, Holds};
ghost use Rattle.virtio_blk.specs.Config.{counted};
ghost use Rattle.virtio_blk.specs.Inside.{CanDo, Did, asked_of, length_of};
ghost use Rattle.virtio_blk.specs.Served.{Names, Serves};
ghost use Rattle.virtio_blk.specs.Texts.{WritesAt};

use super::BlockDevice;
use super::pieces::{flush, load, store_data};
use crate::disk::Disk;
use crate::request::{ID_LEN, Request, VIRTIO_BLK_S_IOERR, VIRTIO_BLK_S_OK};
use crate::steps::{begin, finish};
use crate::text::{Written, is_memory, write_front};
use vm_memory_base::Bitmap;
use vm_memory_device::{Chain, ChainWriter};
use vm_memory_guest::{GuestMemory, GuestMemoryResult, HostMemory};

// What a chain asks for, and whether an allocation failed for that. If it cannot be found out, it is refused.
fn asked_of(answer: GuestMemoryResult<Request>) -> (Request, bool)
    ensures { result ≡ asked_of answer }
{
    match answer {
        Ok(request) => (request, false),
        Err(error) => {
            let refused = Request::Refused {
                status: VIRTIO_BLK_S_IOERR,
            };
            (refused, is_memory(&error))
        }
    }
}

// The length of a chain, and whether an allocation failed for its status. Without a status it is what was written
// before.
fn length_of(answer: GuestMemoryResult<u32>, moved: u32) -> (u32, bool)
    ensures { result ≡ length_of answer moved }
{
    match answer {
        Ok(len) => (len, false),
        Err(error) => (moved, is_memory(&error)),
    }
}

// Writes the first bytes of a name to the front of a text. It returns the status, how many bytes were written, and
// whether an allocation failed for the next one.
fn tell_id<M: GuestMemory, B: Bitmap>(
    id: &[u8; ID_LEN],
    len: usize,
    writer: &mut ChainWriter<'_>,
    mem: &M,
    host: &mut HostMemory<B>,
) -> (u8, Written)
    requires held { Holds (shape_of host.old) (M.names mem.now) }
    requires some { len ≤ 20 }
    requires room { len < length writer.old }
    ensures told { (sent : List ℕ) × (length sent ≡ result.1.count)
        × Names (M.memory mem.now) host.old writer.old id.now len result.0 result.1.wanted sent
        × WritesAt B.marks (M.memory mem.now) writer.old sent host.old host.new }
    ensures rest { result.1.count < length writer.old }
    ensures shape { shape_of host.new ≡ shape_of host.old }
{
    let told = write_front(writer, mem, host, &id[..len]);
    if told.count < len {
        return (VIRTIO_BLK_S_IOERR, told);
    }
    (VIRTIO_BLK_S_OK, told)
}

impl<D: Disk> BlockDevice<D> {
    // Counts one chain more if an allocation failed for it.
    fn count(&mut self, unread: bool, unmoved: bool, untold: bool)
        ensures { self.new ≡ record self.old { starved = counted (unread || unmoved || untold) self.old.starved } }
    {
        if unread || unmoved || untold {
            self.starved = self.starved.saturating_add(1);
        }
    }

    // Does what the request of a chain asks for. It returns the status, how many bytes went to the front of the chain's
    // writable ones, and whether an allocation failed for an access.
    fn act<M: GuestMemory, B: Bitmap>(
        &mut self,
        request: Request,
        mem: &M,
        host: &mut HostMemory<B>,
        chain: &Chain,
    ) -> (u8, Written)
        requires held { Holds (shape_of host.old) (M.names mem.now) }
        requires can { CanDo (D.sectors self.old.disk) request (length (drop 16 (text (readable chain.now))))
            (length (text (writable chain.now))) }
        ensures did { Did B.marks D.bytes D.sectors D.calls (M.memory mem.now) request
            (drop 16 (text (readable chain.now))) (text (writable chain.now))
            self.old host.old result.0 result.1.count result.1.wanted self.new host.new }
        ensures rest { result.1.count ≤ length (text (writable chain.now)) - 1 }
        ensures short { result.1.count < 2 ^ 32 }
        ensures shape { shape_of host.new ≡ shape_of host.old }
    {
        match request {
            Request::Read { sector, .. } => {
                let mut writer = chain.writer();
                let buffer = self.buffer.as_mut_slice();
                load(&mut self.disk, &mut writer, mem, host, sector, buffer)
            }
            Request::Write { sector, flush, .. } => {
                let buffer = self.buffer.as_mut_slice();
                let disk = &mut self.disk;
                let (status, wanted) = store_data(disk, mem, host, chain, sector, flush, buffer);
                (status, Written { count: 0, wanted })
            }
            Request::Flush => (
                flush(&mut self.disk),
                Written {
                    count: 0,
                    wanted: false,
                },
            ),
            Request::GetId { len } => {
                let mut writer = chain.writer();
                tell_id(&self.id, len, &mut writer, mem, host)
            }
            Request::Refused { status } => (
                status,
                Written {
                    count: 0,
                    wanted: false,
                },
            ),
            Request::Unserved => (
                VIRTIO_BLK_S_IOERR,
                Written {
                    count: 0,
                    wanted: false,
                },
            ),
        }
    }

    /// Serves a request: it does what the chain's header asks for, and writes the status to the chain's last writable
    /// byte. It returns how many bytes from the first writable one on it wrote without a gap, which `add_used` takes.
    ///
    /// Whatever the chain is, it returns: what is wrong with a request is told to the guest by the status.
    /// The crate's README.md has the rules. A chain with no byte for the status is not served, and the answer is 0. If
    /// no memory can be allocated for the translation of an access, the request fails, and `starved` counts one more.
    pub fn serve<M: GuestMemory, B: Bitmap>(
        &mut self,
        mem: &M,
        host: &mut HostMemory<B>,
        chain: &Chain,
    ) -> u32
        requires { Holds (shape_of host.old) (M.names mem.now) }
        ensures served { Serves B.marks D.bytes D.sectors D.calls (M.memory mem.now) chain.now self.old host.old
            result self.new host.new }
        ensures shape { shape_of host.new ≡ shape_of host.old }
    {
        let (request, unread) = asked_of(begin(self.limits(), mem, host, chain));
        let (status, written) = self.act(request, mem, host, chain);
        let moved = written.count;
        let finished = finish(mem, host, chain, status, moved);
        let (len, untold) = length_of(finished, moved as u32);
        self.count(unread, written.wanted, untold);
        len
    }
}
