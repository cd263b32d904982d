//! The calls on a queue and a memory that a device makes for each request. Each is a step of its own, with no more than
//! it needs, and puts its answer into `answer`, so that it is not copied.
ghost use Rattle.std.specs.Prelude.{◌≡◌, List, ℕ};
ghost use Rattle.vm_memory_guest.specs.Host.{shape_of, Holds};
ghost use Rattle.vm_memory.specs.Parts.{state_of};
ghost use Rattle.vm_session.specs.MemorySteps.{Still};
ghost use Rattle.vm_session.specs.Queues.{CompletesIf, NeedsNotification, Pops, ReadsInto, ReturnsIf, WorksOn};
ghost use Rattle.vm_session.specs.Queues.{WritesChain, unfinished};

use crate::answer::{faulted, refuse};
use crate::call::{Answer, Call, Kind};
use crate::code;
use crate::device_memory::{DeviceMemory, Lent};
use crate::queue::SessionQueue;
use std::alloc::Global;
use vm_memory::{DeviceStep, Fault, Machine};
use vm_memory_base::{Bitmap, ExactBitmap};
use vm_memory_device::Iommu;
use vm_memory_guest::{GuestMemory, GuestMemoryRegion, HostMemory};

// A pop.
#[derive(Drop)]
struct PopStep<'a> {
    alloc: Global,
    queue: &'a mut SessionQueue,
    answer: &'a mut Answer,
}

impl<B: Bitmap> DeviceStep<B> for PopStep<'_> {
    ghost does = { λ w m host after host'. (after.queue.ghost_name ≡ w.queue.ghost_name)
        × (after.answer.ghost_name ≡ w.answer.ghost_name)
        × Pops (Still B.marks m) w.queue.now host after.answer.now after.queue.now host' };

    #[inline(always)]
    fn step<M: GuestMemory>(&mut self, mem: &M, host: &mut HostMemory<B>) {
        self.queue.pop(self.alloc, &Lent { mem }, host, self.answer);
    }
}

// Pops the next chain.
#[inline(always)]
pub(crate) fn pop<R: GuestMemoryRegion, I: Iommu, B: ExactBitmap>(
    alloc: Global,
    machine: &mut Machine<R, I, B>,
    queue: &mut SessionQueue,
    call: &Call,
    answer: &mut Answer,
)
    ensures { (input out : List ℕ) → WorksOn Kind.Pop call.now input
        (state_of R.region I.number B.pages machine.old) queue.old out answer.new
        (state_of R.region I.number B.pages machine.new) queue.new out }
{
    let mut step = PopStep {
        alloc,
        queue,
        answer,
    };
    match machine.with_memory(call.second, &mut step) {
        Ok(()) => (),
        Err(_) => refuse(code::NO_SUCH, step.answer),
    }
}

// Reads a chain in flight into the front of an output that has room.
#[inline(always)]
fn read_into<M: GuestMemory, B: Bitmap>(
    queue: &SessionQueue,
    mem: &M,
    host: &HostMemory<B>,
    call: &Call,
    output: &mut [u8],
    answer: &mut Answer,
)
    requires { Holds (shape_of host.now) (M.names mem.now) }
    ensures { ReadsInto (M.memory mem.now) call.now queue.now host.now output.old answer.new output.new }
{
    if output.len() < call.length {
        *answer = Answer::short(call.length);
        return;
    }
    let buf = &mut output[..call.length];
    queue.read(mem, host, call.third, call.address as usize, buf, answer);
}

// A read of a chain.
#[derive(Drop)]
struct ReadStep<'a> {
    call: &'a Call,
    queue: &'a SessionQueue,
    output: &'a mut [u8],
    answer: &'a mut Answer,
}

impl<B: Bitmap> DeviceStep<B> for ReadStep<'_> {
    ghost does = { λ w m host after host'. (after.output.ghost_name ≡ w.output.ghost_name)
        × (after.answer.ghost_name ≡ w.answer.ghost_name)
        × ReadsInto m w.call.now w.queue.now host w.output.now after.answer.now after.output.now × (host' ≡ host) };

    #[inline(always)]
    fn step<M: GuestMemory>(&mut self, mem: &M, host: &mut HostMemory<B>) {
        read_into(self.queue, mem, host, self.call, self.output, self.answer);
    }
}

// Reads a chain in flight.
#[inline(always)]
pub(crate) fn read_chain<R: GuestMemoryRegion, I: Iommu, B: ExactBitmap>(
    machine: &mut Machine<R, I, B>,
    queue: &SessionQueue,
    call: &Call,
    output: &mut [u8],
    answer: &mut Answer,
)
    ensures { (input : List ℕ) → WorksOn Kind.ReadChain call.now input
        (state_of R.region I.number B.pages machine.old) queue.now output.old answer.new
        (state_of R.region I.number B.pages machine.new) queue.now output.new }
{
    let mut step = ReadStep {
        call,
        queue,
        output,
        answer,
    };
    match machine.with_memory(call.second, &mut step) {
        Ok(()) => (),
        Err(_) => refuse(code::NO_SUCH, step.answer),
    }
}

// A write to a chain.
#[derive(Drop)]
struct WriteStep<'a> {
    call: &'a Call,
    queue: &'a SessionQueue,
    input: &'a [u8],
    answer: &'a mut Answer,
}

impl<B: Bitmap> DeviceStep<B> for WriteStep<'_> {
    ghost does = { λ w m host after host'. (after.answer.ghost_name ≡ w.answer.ghost_name)
        × WritesChain B.marks m w.queue.now w.call.now.third w.call.now.address w.input.now host after.answer.now
        host' };

    #[inline(always)]
    fn step<M: GuestMemory>(&mut self, mem: &M, host: &mut HostMemory<B>) {
        let Call { third, address, .. } = *self.call;
        self.queue.write(mem, host, third, address as usize, self.input, self.answer);
    }
}

// Writes to a chain in flight.
#[inline(always)]
pub(crate) fn write_chain<R: GuestMemoryRegion, I: Iommu, B: ExactBitmap>(
    machine: &mut Machine<R, I, B>,
    queue: &SessionQueue,
    call: &Call,
    input: &[u8],
    answer: &mut Answer,
)
    ensures { (out : List ℕ) → WorksOn Kind.WriteChain call.now input.now
        (state_of R.region I.number B.pages machine.old) queue.now out answer.new
        (state_of R.region I.number B.pages machine.new) queue.now out }
{
    let mut step = WriteStep {
        call,
        queue,
        input,
        answer,
    };
    match machine.with_memory(call.second, &mut step) {
        Ok(()) => (),
        Err(_) => refuse(code::NO_SUCH, step.answer),
    }
}

// Returns a chain in flight, if how many bytes were written is a number of 32 bits.
#[inline(always)]
fn return_if<H, D: DeviceMemory<H>>(
    queue: &mut SessionQueue,
    mem: &D,
    host: &mut H,
    call: &Call,
    answer: &mut Answer,
)
    requires { D.held mem.now host.old }
    ensures returned { ReturnsIf (D.steps mem.now) call.now queue.old host.old answer.new queue.new host.new }
    ensures shape { D.shape mem.now host.new ≡ D.shape mem.now host.old }
{
    match u32::try_from(call.value) {
        Ok(len) => queue.add_used(mem, host, call.third, len, answer),
        Err(_) => refuse(code::BAD_CALL, answer),
    }
}

// A return of a chain.
#[derive(Drop)]
struct UsedStep<'a> {
    call: &'a Call,
    queue: &'a mut SessionQueue,
    answer: &'a mut Answer,
}

impl<B: Bitmap> DeviceStep<B> for UsedStep<'_> {
    ghost does = { λ w m host after host'. (after.queue.ghost_name ≡ w.queue.ghost_name)
        × (after.answer.ghost_name ≡ w.answer.ghost_name)
        × ReturnsIf (Still B.marks m) w.call.now w.queue.now host after.answer.now after.queue.now host' };

    #[inline(always)]
    fn step<M: GuestMemory>(&mut self, mem: &M, host: &mut HostMemory<B>) {
        return_if(self.queue, &Lent { mem }, host, self.call, self.answer);
    }
}

// Returns a chain in flight.
#[inline(always)]
pub(crate) fn add_used<R: GuestMemoryRegion, I: Iommu, B: ExactBitmap>(
    machine: &mut Machine<R, I, B>,
    queue: &mut SessionQueue,
    call: &Call,
    answer: &mut Answer,
)
    ensures { (input out : List ℕ) → WorksOn Kind.AddUsed call.now input
        (state_of R.region I.number B.pages machine.old) queue.old out answer.new
        (state_of R.region I.number B.pages machine.new) queue.new out }
{
    let mut step = UsedStep {
        call,
        queue,
        answer,
    };
    match machine.with_memory(call.second, &mut step) {
        Ok(()) => (),
        Err(_) => refuse(code::NO_SUCH, step.answer),
    }
}

// The answer to a write that a chain did not take whole.
#[cold]
#[inline(never)]
fn unfinished(asked: usize, answer: &mut Answer)
    ensures { answer.new ≡ unfinished asked answer.old }
{
    if answer.code == code::DONE {
        *answer = faulted(Fault::PartialBuffer {
            expected: asked,
            completed: answer.count,
        });
    }
}

// Writes to a chain in flight, and returns it if it took all bytes.
#[inline(always)]
fn complete_if<M: GuestMemory, B: Bitmap>(
    queue: &mut SessionQueue,
    mem: &M,
    host: &mut HostMemory<B>,
    call: &Call,
    input: &[u8],
    answer: &mut Answer,
)
    requires { Holds (shape_of host.old) (M.names mem.now) }
    ensures completed { let m = M.memory mem.now in CompletesIf B.marks m (Still B.marks m) call.now input.now queue.old
        host.old answer.new queue.new host.new }
    ensures shape { shape_of host.new ≡ shape_of host.old }
{
    let Ok(len) = u32::try_from(call.value) else {
        refuse(code::BAD_CALL, answer);
        return;
    };
    queue.write(mem, host, call.third, call.address as usize, input, answer);
    if answer.code == code::DONE && answer.count == input.len() {
        queue.add_used(&Lent { mem }, host, call.third, len, answer);
    } else {
        unfinished(input.len(), answer);
    }
}

// A write to a chain that is returned then.
#[derive(Drop)]
struct CompleteStep<'a> {
    call: &'a Call,
    queue: &'a mut SessionQueue,
    input: &'a [u8],
    answer: &'a mut Answer,
}

impl<B: Bitmap> DeviceStep<B> for CompleteStep<'_> {
    ghost does = { λ w m host after host'. (after.queue.ghost_name ≡ w.queue.ghost_name)
        × (after.answer.ghost_name ≡ w.answer.ghost_name)
        × CompletesIf B.marks m (Still B.marks m) w.call.now w.input.now w.queue.now host after.answer.now
        after.queue.now host' };

    #[inline(always)]
    fn step<M: GuestMemory>(&mut self, mem: &M, host: &mut HostMemory<B>) {
        complete_if(self.queue, mem, host, self.call, self.input, self.answer);
    }
}

// Writes to a chain in flight, and returns it.
#[inline(always)]
pub(crate) fn complete_chain<R: GuestMemoryRegion, I: Iommu, B: ExactBitmap>(
    machine: &mut Machine<R, I, B>,
    queue: &mut SessionQueue,
    call: &Call,
    input: &[u8],
    answer: &mut Answer,
)
    ensures { (out : List ℕ) → WorksOn Kind.CompleteChain call.now input.now
        (state_of R.region I.number B.pages machine.old) queue.old out answer.new
        (state_of R.region I.number B.pages machine.new) queue.new out }
{
    let mut step = CompleteStep {
        call,
        queue,
        input,
        answer,
    };
    match machine.with_memory(call.second, &mut step) {
        Ok(()) => (),
        Err(_) => refuse(code::NO_SUCH, step.answer),
    }
}

// A look whether the driver has to be notified.
#[derive(Drop)]
struct NotifyStep<'a> {
    queue: &'a mut SessionQueue,
    answer: &'a mut Answer,
}

impl<B: Bitmap> DeviceStep<B> for NotifyStep<'_> {
    ghost does = { λ w m host after host'. (after.queue.ghost_name ≡ w.queue.ghost_name)
        × (after.answer.ghost_name ≡ w.answer.ghost_name)
        × NeedsNotification (Still B.marks m) w.queue.now host after.answer.now after.queue.now host' };

    #[inline(always)]
    fn step<M: GuestMemory>(&mut self, mem: &M, host: &mut HostMemory<B>) {
        self.queue
            .needs_notification(&Lent { mem }, host, self.answer);
    }
}

// Whether the driver has to be notified.
#[inline(always)]
pub(crate) fn needs_notification<R: GuestMemoryRegion, I: Iommu, B: ExactBitmap>(
    machine: &mut Machine<R, I, B>,
    queue: &mut SessionQueue,
    call: &Call,
    answer: &mut Answer,
)
    ensures { (input out : List ℕ) → WorksOn Kind.NeedsNotification call.now input
        (state_of R.region I.number B.pages machine.old) queue.old out answer.new
        (state_of R.region I.number B.pages machine.new) queue.new out }
{
    let mut step = NotifyStep { queue, answer };
    match machine.with_memory(call.second, &mut step) {
        Ok(()) => (),
        Err(_) => refuse(code::NO_SUCH, step.answer),
    }
}
