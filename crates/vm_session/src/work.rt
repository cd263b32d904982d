//! The calls on a queue and a memory that take and give no bytes and leave the queue as it is.
ghost use Rattle.std.specs.Prelude.{◌≡◌, ◌<◌, ◌^◌, IsTrue, List, ℕ};
ghost use Rattle.vm_memory_guest.specs.Host.{shape_of, Holds};
ghost use Rattle.vm_session.specs.Kinds.{keeps_queue};
ghost use Rattle.vm_memory.specs.Parts.{state_of};
ghost use Rattle.vm_session.specs.MemorySteps.{Still};
ghost use Rattle.vm_session.specs.Queues.{BeginsRequest, FinishesIf, Works, WorksOn, device_limits};

use crate::answer::refuse;
use crate::call::{Answer, Call, Kind, limit_of, read_only_of};
use crate::code;
use crate::device_memory::{DeviceMemory, Lent};
use crate::queue::SessionQueue;
use virtio_blk::DeviceLimits;
use vm_memory::{DeviceStep, Machine};
use vm_memory_base::{Bitmap, ExactBitmap};
use vm_memory_device::Iommu;
use vm_memory_guest::{GuestMemory, GuestMemoryRegion, HostMemory};

// A call of a kind, as a step on a memory.
#[derive(Drop)]
struct QueueStep<'a> {
    kind: Kind,
    call: &'a Call,
    queue: &'a SessionQueue,
    answer: &'a mut Answer,
    ghost is_one: { IsTrue (keeps_queue kind) },
}

// What a chain in flight asks for, if the call says what it is checked against.
fn begin_if<H, D: DeviceMemory<H>>(
    queue: &SessionQueue,
    mem: &D,
    host: &mut H,
    call: &Call,
) -> Answer
    requires { D.held mem.now host.old }
    ensures begins { BeginsRequest (D.steps mem.now) queue.now call.now.third (device_limits call.now) host.old result
        host.new }
    ensures shape { D.shape mem.now host.new ≡ D.shape mem.now host.old }
{
    let Some(read_only) = read_only_of(call.access) else {
        return Answer::of_code(code::BAD_CALL);
    };
    let limits = DeviceLimits {
        sectors: call.target,
        read_only,
        acked: call.value,
        seg_max: limit_of(call.length),
        size_max: limit_of(call.other_length),
    };
    queue.begin(mem, host, call.third, limits)
}

// Finishes the request of a chain in flight, if the status is a number of 8 bits.
fn finish_if<H, D: DeviceMemory<H>>(
    queue: &SessionQueue,
    mem: &D,
    host: &mut H,
    call: &Call,
) -> Answer
    requires { D.held mem.now host.old }
    ensures finished { FinishesIf (D.steps mem.now) call.now queue.now host.old result host.new }
    ensures shape { D.shape mem.now host.new ≡ D.shape mem.now host.old }
{
    match u8::try_from(call.value) {
        Ok(status) => queue.finish(mem, host, call.third, status, call.length),
        Err(_) => Answer::of_code(code::BAD_CALL),
    }
}

impl<B: Bitmap> DeviceStep<B> for QueueStep<'_> {
    ghost does = { λ w m host after host'. (after.answer.ghost_name ≡ w.answer.ghost_name)
        × ((input out : List ℕ) → Works B.marks m (Still B.marks m) w.kind w.call.now input w.queue.now host out
        after.answer.now w.queue.now host' out) };

    fn step<M: GuestMemory>(&mut self, mem: &M, host: &mut HostMemory<B>) {
        let (call, queue) = (self.call, self.queue);
        let lent = Lent { mem };
        *self.answer = match self.kind {
            Kind::QueueIsValid => queue.is_valid(mem, host),
            Kind::AvailIdx => queue.avail_idx(&lent, host),
            Kind::UsedIdx => queue.used_idx(&lent, host),
            Kind::EnableNotification => queue.enable_notification(&lent, host),
            Kind::DisableNotification => queue.disable_notification(&lent, host),
            Kind::BeginRequest => begin_if(queue, &lent, host, call),
            Kind::FinishRequest => finish_if(queue, &lent, host, call),
            _ => unreachable!(),
        };
    }
}

// Does what such a call asks for with its memory, if there is one.
#[inline(always)]
pub(crate) fn work_on<R: GuestMemoryRegion, I: Iommu, B: ExactBitmap>(
    machine: &mut Machine<R, I, B>,
    queue: &SessionQueue,
    kind: Kind,
    call: &Call,
    answer: &mut Answer,
)
    requires { IsTrue (keeps_queue kind) }
    ensures { (input out : List ℕ) → WorksOn kind call.now input
        (state_of R.region I.number B.pages machine.old) queue.now out answer.new
        (state_of R.region I.number B.pages machine.new) queue.now out }
{
    let mut step = QueueStep {
        kind,
        call,
        queue,
        answer,
    };
    match machine.with_memory(call.second, &mut step) {
        Ok(()) => (),
        Err(_) => refuse(code::NO_SUCH, step.answer),
    }
}
