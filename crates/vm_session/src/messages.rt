//! Messages of a front end on the I/O table of a memory.
ghost use Rattle.std.specs.Prelude.{◌≡◌, ◌⊎◌, ◌≤◌, ℕ, true, false, length, take, drop, IfOk, IsSome, IsTrue, is_some};
ghost use Rattle.std.specs.Prelude.{List, MatchOption, Result, slice_get};
ghost use Rattle.std.specs.Int.{w64, from_le_bytes};
ghost use Rattle.vm_memory_base.specs.Table.{TableEvent};
ghost use Rattle.vm_memory.specs.Parts.{state_of};
ghost use Rattle.vm_memory.specs.ScriptMachine.{state_made};
ghost use Rattle.vhost_iotlb.specs.Changes.{Applies, call_of, done_of, evicted_for};
ghost use Rattle.vhost_message.specs.Regions.{guest_of};
ghost use Rattle.vhost_iotlb.specs.declared.table.Refusal as refusals;
ghost use Rattle.vm_session.specs.Codes.{no_memory};
ghost use Rattle.vm_session.specs.Messages.{AnswersMessage, IsApplied, answer_of_applied, answer_of_refusal};
ghost use Rattle.vm_session.specs.Messages.{code_of_malformed, is_announced, is_update, is_whole, message_of};
ghost use Rattle.vm_session.specs.Messages.{region_in, regions_in};
ghost use Rattle.vm_session.specs.QueueCodes.{no_such};

use crate::answer::refused;
use crate::call::{Answer, Call};
use crate::code;
use std::alloc::{AllocError, Global};
use vhost_iotlb::{DeviceTable, Refusal};
use vhost_message::{IotlbMessage, Malformed, MemoryRegion, MemoryRegions, PAYLOAD_LEN};
use vm_memory::{DeviceStep, Machine, ScriptMachine};
use vm_memory_base::{Bitmap, ExactBitmap, GuestAddress};
use vm_memory_device::Iommu;
use vm_memory_guest::{GuestMemory, GuestMemoryRegion, HostMemory, TlbId};

// How many bytes a row has: three numbers.
const ROW_LEN: usize = 24;

// The number of 8 bytes at the front, and the bytes after it.
fn number_at(bytes: &[u8]) -> (u64, &[u8])
    requires { 8 ≤ length bytes.now }
    ensures number { result.0 ≡ from_le_bytes w64 (take 8 bytes.now) }
    ensures rest { result.1.now ≡ drop 8 bytes.now }
{
    match bytes.split_first_chunk::<8>() {
        Some((word, rest)) => (u64::from_le_bytes(*word), rest),
        None => unreachable!(),
    }
}

fn region_in(row: &[u8; ROW_LEN]) -> MemoryRegion
    ensures { result ≡ region_in row.now }
{
    let (user_address, rest) = number_at(row);
    let (guest_address, rest) = number_at(rest);
    let (size, _) = number_at(rest);
    MemoryRegion {
        guest_address: GuestAddress(guest_address),
        size,
        user_address,
        mmap_offset: 0,
    }
}

fn regions_in(alloc: Global, rows: &[u8]) -> Result<Vec<MemoryRegion>, AllocError>
    ensures { IfOk result (λ regions. regions.items ≡ regions_in rows.now) }
{
    let mut regions = Vec::with_capacity(alloc, rows.len() / ROW_LEN)?;
    let (chunks, _) = rows.as_chunks::<ROW_LEN>();
    for chunk in chunks {
        regions.push(region_in(chunk))?;
    }
    Ok(regions)
}

// A message and whole rows, if an input is both.
fn halves(input: &[u8]) -> Option<(&[u8; PAYLOAD_LEN], &[u8])>
    ensures { MatchOption result (is_whole input.now ≡ false) (λ p. (is_whole input.now ≡ true)
        × (p.0.now ≡ take 32 input.now) × (p.1.now ≡ drop 32 input.now) × (32 ≤ length input.now)) }
{
    let (payload, rows) = input.split_first_chunk::<PAYLOAD_LEN>()?;
    if rows.len() % ROW_LEN != 0 {
        return None;
    }
    Some((payload, rows))
}

fn code_of_malformed(malformed: Malformed) -> u32
    ensures { result ≡ code_of_malformed malformed }
{
    match malformed {
        Malformed::Kind => code::MESSAGE_KIND,
        Malformed::EmptyRange => code::MESSAGE_EMPTY_RANGE,
        Malformed::Range => code::MESSAGE_RANGE,
        Malformed::Permissions => code::MESSAGE_PERMISSIONS,
    }
}

// The answer to a message that was applied, with the number of ranges that the table evicted, or was not.
fn applied(outcome: Result<usize, Refusal>) -> Answer
    ensures { (evicted : ℕ) → IfOk outcome (λ n. n ≡ evicted) → result ≡ answer_of_applied evicted (done_of outcome) }
{
    match outcome {
        Ok(count) => Answer::of_value(count as u64),
        Err(Refusal::Malformed(malformed)) => Answer::of_code(code_of_malformed(malformed)),
        Err(Refusal::UserAddress) => Answer::of_code(code::MESSAGE_USER_ADDRESS),
        Err(Refusal::Memory) => Answer::of_code(code::MEMORY),
        Err(Refusal::NoTable) => Answer::of_code(code::NO_SUCH),
    }
}

// Whether some row has `size` bytes of the front end's memory from an address on. It allocates nothing.
fn any_has_range(rows: &[u8], user_address: u64, size: u64) -> bool
    ensures { result ≡ is_some (guest_of (regions_in rows.now) user_address size) }
{
    let (chunks, _) = rows.as_chunks::<ROW_LEN>();
    for chunk in chunks {
        if region_in(chunk).has_range(user_address, size) {
            return true;
        }
    }
    false
}

// Whether a message is an UPDATE of a range that the announced memory has, whose rows stand after the message.
pub(crate) fn is_announced(message: &IotlbMessage, input: &[u8]) -> bool
    requires { 32 ≤ length input.now }
    ensures { result ≡ is_announced (regions_in (drop 32 input.now)) message.now }
{
    match message {
        IotlbMessage::Update {
            user_address,
            size,
            ..
        } => {
            let (_, rows) = input.split_at(PAYLOAD_LEN);
            any_has_range(rows, *user_address, *size)
        }
        IotlbMessage::Invalidate { .. }
        | IotlbMessage::Miss { .. }
        | IotlbMessage::AccessFail { .. } => false,
    }
}

// A message to a table, as a step on the host that has it. Its answer is put into `answer`.
#[derive(Drop)]
struct MessageStep {
    device: DeviceTable,
    message: IotlbMessage,
    answer: Answer,
}

impl<B: Bitmap> DeviceStep<B> for MessageStep {
    ghost does = { λ w m host after host'. (r : Result (Unit {0}) refusals.Refusal) × (calls : List TableEvent)
        × Applies w.device.table.0 w.device.memory w.message r calls host host'
        × (after.answer
        ≡ answer_of_applied
        (evicted_for (call_of w.device.memory w.message) (slice_get host.tables w.device.table.0)) r) };

    fn step<M: GuestMemory>(&mut self, _mem: &M, host: &mut HostMemory<B>) {
        self.answer = applied(self.device.apply_counted(host, &self.message));
    }
}

// Applies a message to a table of a machine that has this memory.
fn apply_to<R: GuestMemoryRegion, I: Iommu, B: ExactBitmap>(
    machine: &mut Machine<R, I, B>,
    memory: usize,
    device: DeviceTable,
    message: IotlbMessage,
) -> Answer
    ensures { let before = state_of R.region I.number B.pages machine.old in
        let after = state_of R.region I.number B.pages machine.new in
        MatchOption (slice_get before.memories memory) ((result ≡ no_such) × (after ≡ before))
        (λ m. IsApplied device.table.0 device.memory message before result after) }
{
    let mut step = MessageStep {
        device,
        message,
        answer: Answer::of_code(code::DONE),
    };
    match machine.with_memory(memory, &mut step) {
        Ok(()) => step.answer,
        Err(refusal) => refused(refusal),
    }
}

// Applies a message to a table of a machine that has this memory. Rows are read for an UPDATE alone: what takes
// mappings back never wants memory.
fn apply_with(
    alloc: Global,
    machine: &mut ScriptMachine,
    memory: usize,
    table: usize,
    message: IotlbMessage,
    rows: &[u8],
) -> Answer
    ensures { let before = state_made machine.old in
        let after = state_made machine.new in
        MatchOption (slice_get before.memories memory) (after ≡ before)
        (λ m. IsApplied table (regions_in rows.now) message before result after
        ⊎ (IsTrue (is_update message) × (result ≡ no_memory) × (after ≡ before))) }
{
    let regions = match message {
        IotlbMessage::Update { .. } => match regions_in(alloc, rows) {
            Ok(regions) => regions,
            Err(_) => return Answer::of_code(code::MEMORY),
        },
        _ => Vec::new(alloc),
    };
    let device = DeviceTable {
        table: TlbId(table),
        memory: MemoryRegions::new(regions),
    };
    apply_to(machine, memory, device, message)
}

// The message of an input, if it has one and whole rows.
pub(crate) fn message_in(input: &[u8]) -> Option<IotlbMessage>
    ensures message { result ≡ message_of input.now }
    ensures whole { IsSome result → 32 ≤ length input.now }
{
    let (payload, _) = halves(input)?;
    match IotlbMessage::decode(payload) {
        Ok(message) => Some(message),
        Err(_) => None,
    }
}

// Takes the message of a call, with the memory that the front end announced.
pub(crate) fn take_message(
    alloc: Global,
    machine: &mut ScriptMachine,
    call: &Call,
    input: &[u8],
) -> Answer
    ensures { AnswersMessage (state_made machine.old) call.now input.now result (state_made machine.new) }
{
    let Some((payload, rows)) = halves(input) else {
        return Answer::of_code(code::BAD_CALL);
    };
    let memory = call.first;
    let table = match machine.table_of(memory) {
        Ok(Some(table)) => table,
        Ok(None) => return Answer::of_code(code::NO_IOTLB),
        Err(refusal) => return refused(refusal),
    };
    match IotlbMessage::decode(payload) {
        Ok(message) => apply_with(alloc, machine, memory, table, message, rows),
        Err(malformed) => Answer::of_code(code_of_malformed(malformed)),
    }
}
