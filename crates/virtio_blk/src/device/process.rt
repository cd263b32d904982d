//! How the chains of a queue are served.
ghost use Rattle.std.specs.Prelude.{◌≡◌, false, Ok};
ghost use Rattle.vm_memory_guest.specs.Host.{shape_of, Holds};
ghost use Rattle.virtio_queue.specs.Any.{HasNone, Waits};
ghost use Rattle.virtio_blk.specs.Process.{IsDone, NextTurn, Processes, Runs, State, Tries};

use super::BlockDevice;
use crate::disk::Disk;
use virtio_queue::{AnyQueue, QueueError};
use vm_memory_base::Bitmap;
use vm_memory_device::Chain;
use vm_memory_guest::{GuestMemory, HostMemory};

/// What a call of `BlockDevice::process` did.
#[derive(Debug, Drop)]
pub struct Served {
    /// How many chains were popped, served and returned.
    pub count: u32,
    /// Whether the bound of the call ended it, so that there may be more chains. Then its owner calls again, since the
    /// driver may not notify the device of them.
    pub more: bool,
    /// Whether the driver has to be interrupted.
    pub interrupt: bool,
    /// The first error of the queue, if there was one. The device needs a reset then.
    pub failed: Option<QueueError>,
}

impl<D: Disk> BlockDevice<D> {
    // Keeps the list of a chain that was served for the next one.
    #[inline]
    fn keep_list(&mut self, chain: Chain)
        ensures { self.new ≡ self.old }
    {
        self.list = chain.into_segments();
    }

    // Pops a chain, serves it and returns it, if there is one.
    fn serve_next<M: GuestMemory, B: Bitmap>(
        &mut self,
        queue: &mut AnyQueue,
        mem: &M,
        host: &mut HostMemory<B>,
    ) -> Result<bool, QueueError>
        requires { Holds (shape_of host.old) (M.names mem.now) }
        ensures turn { let m = M.memory mem.now in
            let old : State B D = record { device = self.old; queue = queue.old; host = host.old } in
            let new : State B D = record { device = self.new; queue = queue.new; host = host.new } in
            NextTurn B.marks D.bytes D.sectors D.calls m old result new }
        ensures none { result ≡ Ok false → HasNone (M.memory mem.now) host.new queue.new }
        ensures shape { shape_of host.new ≡ shape_of host.old }
    {
        let Some((buffer, chain)) = queue.pop_into(self.alloc, &mut self.list, mem, host)? else {
            return Ok(false);
        };
        let len = self.serve(mem, host, &chain);
        self.keep_list(chain);
        queue.add_used(mem, host, buffer, len)?;
        Ok(true)
    }

    // The same. Where there is no chain, it asks the driver to notify the device of the next one, and serves one that
    // the driver had published by then.
    fn serve_or_wait<M: GuestMemory, B: Bitmap>(
        &mut self,
        queue: &mut AnyQueue,
        mem: &M,
        host: &mut HostMemory<B>,
    ) -> Result<bool, QueueError>
        requires { Holds (shape_of host.old) (M.names mem.now) }
        ensures tries { let m = M.memory mem.now in
            let old : State B D = record { device = self.old; queue = queue.old; host = host.old } in
            let new : State B D = record { device = self.new; queue = queue.new; host = host.new } in
            Tries B.marks D.bytes D.sectors D.calls m old result new }
        ensures waits { result ≡ Ok false → Waits (M.memory mem.now) host.new queue.new }
        ensures shape { shape_of host.new ≡ shape_of host.old }
    {
        if self.serve_next(queue, mem, host)? {
            return Ok(true);
        }
        if !queue.enable_notification(mem, host)? {
            return Ok(false);
        }
        self.serve_next(queue, mem, host)
    }

    // Serves chains until there are no more, at most so many. It says how many, and whether that bound ended it.
    fn serve_all<M: GuestMemory, B: Bitmap>(
        &mut self,
        queue: &mut AnyQueue,
        mem: &M,
        host: &mut HostMemory<B>,
        most: u32,
    ) -> (u32, Result<bool, QueueError>)
        requires { Holds (shape_of host.old) (M.names mem.now) }
        ensures runs { let m = M.memory mem.now in
            let old : State B D = record { device = self.old; queue = queue.old; host = host.old } in
            let new : State B D = record { device = self.new; queue = queue.new; host = host.new } in
            Runs B.marks D.bytes D.sectors D.calls m most old result.0 result.1 new }
        ensures waits { result.1 ≡ Ok false → Waits (M.memory mem.now) host.new queue.new }
        ensures shape { shape_of host.new ≡ shape_of host.old }
    {
        let mut count = 0;
        while count < most {
            match self.serve_or_wait(queue, mem, host) {
                Ok(true) => count += 1,
                Ok(false) => return (count, Ok(false)),
                Err(error) => return (count, Err(error)),
            }
        }
        (count, Ok(true))
    }

    /// Serves the chains that the driver has made available in a queue of either kind and returns each, until there are
    /// no more, but at most `most` chains: the crate's README.md. When there are no more, it asks the driver to notify
    /// the device of the next one, and goes on with what came by then.
    ///
    /// The owner calls it when the driver notifies the device, and again whenever it returns that there is `more`.
    /// So no request waits without a notification. The bound is for a guest that keeps publishing, or whose requests
    /// overwrite the ring: the owner serves its other devices before it calls again.
    ///
    /// Leaves open: that a header, data or a status is given up for a failed allocation each time behind an IOMMU that
    /// is on, so that a request fails or has no status; `starved` counts it. And how much an IN has read of the disk
    /// that it does not send, up to the end of a piece of 65,536 bytes.
    pub fn process<M: GuestMemory, B: Bitmap>(
        &mut self,
        queue: &mut AnyQueue,
        mem: &M,
        host: &mut HostMemory<B>,
        most: u32,
    ) -> Served
        requires { Holds (shape_of host.old) (M.names mem.now) }
        ensures processed { let m = M.memory mem.now in
            let old : State B D = record { device = self.old; queue = queue.old; host = host.old } in
            let new : State B D = record { device = self.new; queue = queue.new; host = host.new } in
            Processes B.marks D.bytes D.sectors D.calls m most old result new }
        ensures waits { IsDone result → Waits (M.memory mem.now) host.new queue.new }
        ensures shape { shape_of host.new ≡ shape_of host.old }
    {
        let (count, more) = self.serve_all(queue, mem, host, most);
        let (more, mut failed) = match more {
            Ok(more) => (more, None),
            Err(error) => (false, Some(error)),
        };
        let interrupt = match queue.needs_notification(mem, host) {
            Ok(needs) => needs,
            Err(error) => {
                failed = failed.or(Some(error));
                count > 0
            }
        };
        Served {
            count,
            more,
            interrupt,
            failed,
        }
    }
}
