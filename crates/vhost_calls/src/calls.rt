//! The calls.
ghost use Rattle.std.specs.Prelude.{◌≡◌, Ok};
ghost use Rattle.vhost_message.specs.Stream.{wanted};
ghost use Rattle.vhost_calls.specs.Calls.{ChangesConfig, Gives, Handles, Opens, Sends, Stops, Takes, answer_of};
ghost use Rattle.vhost_calls.specs.Calls.{pages_at, payload_reply, refusal_of, region_at, reply_if, reply_of, vring_at};
ghost use Rattle.vhost_calls.specs.Calls.{wanted_of};
ghost use Rattle.vhost_calls.specs.Values.{connection_state};

use crate::code;
use crate::refused::{code_of_not_running, code_of_offer, code_of_refusal, code_of_step};
use crate::values::*;
use std::alloc::Global;
use vhost_message::{HEADER_LEN, MAX_REGIONS};
use vhost_user::{BackendReqHandler, FrontendReq, Header, Message, Refusal, expects};

/// A connection with nothing negotiated, with this configuration of at most 256 bytes. `VHOST_OFFER` if no back end
/// offers this, and `MEMORY` if an allocation fails.
///
/// Leaves open: `MEMORY` for each offer that can be made.
pub fn open(alloc: Global, offer: &VhostOffer, config: &[u8]) -> Result<BackendReqHandler, u32>
    ensures { Opens offer.now config.now result }
{
    match BackendReqHandler::new(alloc, offer_of(offer), offer.queues as usize, config) {
        Ok(backend) => Ok(backend),
        Err(error) => Err(code_of_offer(error)),
    }
}

/// What is still to come of a message that begins with these bytes. A stream is cut by this into its messages.
/// Refused as the header is: then where the next message begins is not known.
pub fn wanted(start: &[u8], rest: &mut VhostWanted) -> u32
    ensures gives { Gives (wanted_of start.now) rest.old result rest.new }
    ensures cuts { result ≡ 0 → wanted start.now ≡ Ok rest.new.bytes }
{
    if start.len() < HEADER_LEN {
        *rest = VhostWanted {
            bytes: HEADER_LEN - start.len(),
            descriptors: MAX_REGIONS,
        };
        return code::DONE;
    }
    match expects(&Header::at_front(start)) {
        Ok(expected) => {
            *rest = VhostWanted {
                bytes: (HEADER_LEN + expected.payload).saturating_sub(start.len()),
                descriptors: expected.descriptors,
            };
            code::DONE
        }
        Err(refusal) => code_of_refusal(refusal),
    }
}

// Says what a message of this number asks for, or why it is refused.
fn answer(number: u32, asked: Result<FrontendReq, Refusal>, request: &mut VhostRequest) -> u32
    ensures { Gives (answer_of number asked) request.old result request.new }
{
    match asked {
        Ok(asked) => {
            *request = asked_by(number, &asked);
            code::DONE
        }
        Err(refusal) => code_of_refusal(refusal),
    }
}

// Takes a message, by its header and its payload.
#[tactic(auto, unfolding(crate::specs::Calls::Takes))]
fn take(
    backend: &mut BackendReqHandler,
    header: &Header,
    payload: &[u8],
    descriptors: usize,
    request: &mut VhostRequest,
) -> u32
    ensures { Takes backend.old header.now payload.now descriptors request.old result request.new backend.new }
{
    let asked = backend.handle(header, payload, descriptors);
    answer(header.request, asked, request)
}

/// Takes a message, and how many descriptors came with it. What it asks for is put into `request`, and is part of the
/// connection from now on. If it is refused, nothing changes. `VHOST_HEADER` if its header is not whole.
pub fn handle(
    backend: &mut BackendReqHandler,
    message: &[u8],
    descriptors: usize,
    request: &mut VhostRequest,
) -> u32
    ensures { Handles backend.old message.now descriptors request.old result request.new backend.new }
{
    if message.len() < HEADER_LEN {
        return code::VHOST_HEADER;
    }
    let header = Header::at_front(message);
    take(
        backend,
        &header,
        &message[HEADER_LEN..],
        descriptors,
        request,
    )
}

// Puts bytes to the front of an output if they fit, and says how many they are.
pub(crate) fn send(bytes: &[u8], output: &mut [u8]) -> usize
    ensures { Sends bytes.now output.old result output.new }
{
    if bytes.len() <= output.len() {
        output[..bytes.len()].copy_from_slice(bytes);
    }
    bytes.len()
}

// The reply to a message, if it asks for something.
fn reply_if(
    backend: &BackendReqHandler,
    header: &Header,
    asked: Result<FrontendReq, Refusal>,
) -> Message
    ensures { result ≡ reply_if backend.now header.now asked }
{
    match asked {
        Ok(request) => backend.reply(header, &request),
        Err(_) => Message::new(),
    }
}

// The reply to a message, by its header and its payload.
#[tactic(auto, unfolding(crate::specs::Calls::payload_reply))]
fn payload_reply(backend: &BackendReqHandler, header: &Header, payload: &[u8]) -> Message
    ensures { result ≡ payload_reply backend.now header.now payload.now }
{
    reply_if(backend, header, FrontendReq::decode(header, payload))
}

fn reply_of(backend: &BackendReqHandler, message: &[u8]) -> Message
    ensures { result ≡ reply_of backend.now message.now }
{
    if message.len() < HEADER_LEN {
        return Message::new();
    }
    payload_reply(backend, &Header::at_front(message), &message[HEADER_LEN..])
}

/// The reply to a message that was taken and done, to the front of the output, which has 280 bytes or has to be as long
/// as the reply; otherwise it stays. Returns how many bytes the reply has: 0 if none is due.
pub fn reply(backend: &BackendReqHandler, message: &[u8], output: &mut [u8]) -> usize
    ensures { Sends (reply_of backend.now message.now) output.old result output.new }
{
    send(reply_of(backend, message).as_slice(), output)
}

/// The reply to a message that was refused or could not be done, as `reply` gives it.
pub fn refuse(backend: &BackendReqHandler, message: &[u8], output: &mut [u8]) -> usize
    ensures { Sends (refusal_of backend.now message.now) output.old result output.new }
{
    if message.len() < HEADER_LEN {
        return 0;
    }
    let header = Header::at_front(message);
    send(backend.refuse(&header).as_slice(), output)
}

/// Sets where a stopped ring goes on. `VHOST_INDEX` if there is no such ring, `VHOST_STARTED` if it is started, and
/// `VHOST_BASE` if it is a split one and this is no index of 16 bits.
pub fn stop(backend: &mut BackendReqHandler, index: u32, base: u32) -> u32
    ensures { Stops backend.old index base result backend.new }
{
    code_of_step(backend.stop(index, base))
}

/// Replaces bytes of the configuration from an offset on, as a device does that changed. `VHOST_CONFIG_RANGE` if the
/// configuration does not have them.
pub fn change_config(backend: &mut BackendReqHandler, offset: u32, bytes: &[u8]) -> u32
    ensures { ChangesConfig backend.old offset bytes.now result backend.new }
{
    code_of_step(backend.change_config(offset, bytes))
}

/// A ring as it is to be served, or why it is not: `VHOST_INDEX` if no ring has this number, `VHOST_STOPPED`,
/// `VHOST_DISABLED`,
/// `VHOST_NO_SIZE`, `VHOST_NO_ADDRESS`, and `VHOST_USER_ADDRESS` if the memory does not have it.
pub fn running(backend: &BackendReqHandler, index: u32, vring: &mut VhostVring) -> u32
    ensures { Gives (vring_at backend.now index) vring.old result vring.new }
{
    match backend.running(index) {
        Ok(found) => {
            *vring = vring_row(&found);
            code::DONE
        }
        Err(reason) => code_of_not_running(reason),
    }
}

/// A region of the memory. `NO_SUCH` if no region has this number.
pub fn region(backend: &BackendReqHandler, number: usize, region: &mut VhostRegion) -> u32
    ensures { Gives (region_at backend.now number) region.old result region.new }
{
    match backend.memory().regions().get(number) {
        Some(found) => {
            *region = region_row(found);
            code::DONE
        }
        None => code::NO_SUCH,
    }
}

/// The pages that are marked in the log for `len` bytes of guest memory that were written, from `address` on: none if
/// writes are not logged. `VHOST_LOG` if the log has no bit for one of them.
pub fn logged(backend: &BackendReqHandler, address: u64, len: u64, pages: &mut VhostPages) -> u32
    ensures { Gives (pages_at backend.now address len) pages.old result pages.new }
{
    match backend.logged(address, len) {
        Some(found) => {
            *pages = pages_row(&found);
            code::DONE
        }
        None => code::VHOST_LOG,
    }
}

/// What was negotiated, and how much there is.
pub fn state(backend: &BackendReqHandler) -> VhostState
    ensures { result ≡ connection_state backend.now }
{
    connection_state(backend)
}

/// The configuration, which a front end may have written to, as `reply` gives its bytes.
pub fn config(backend: &BackendReqHandler, output: &mut [u8]) -> usize
    ensures { Sends backend.now.config output.old result output.new }
{
    send(backend.config(), output)
}
