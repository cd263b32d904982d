//! The back end's own channel.
ghost use Rattle.std.specs.Prelude.{◌≡◌};
ghost use Rattle.vhost_calls.specs.Calls.{Gives, Sends};
ghost use Rattle.vhost_calls.specs.Channel.{access_at, access_fail_of, answered, config_change, miss_of, payload_value};
ghost use Rattle.vhost_calls.specs.Channel.{value_of};

use crate::calls::send;
use crate::code;
use crate::refused::code_of_refusal;
use vhost_message::{BackendReply, BackendReq, HEADER_LEN, IotlbMessage};
use vhost_user::{Header, Message, Refusal};
use vm_memory_base::Permissions;

// An access by its number, if it is one.
fn access_of(number: u32) -> Option<Permissions>
    ensures { result ≡ access_at number }
{
    match number {
        1 => Some(Permissions::Read),
        2 => Some(Permissions::Write),
        3 => Some(Permissions::ReadWrite),
        _ => None,
    }
}

fn miss_of(iova: u64, access: Option<Permissions>) -> Message
    ensures { result ≡ miss_of iova access }
{
    match access {
        Some(access) => BackendReq::IotlbMsg(IotlbMessage::Miss { iova, access }).encode(true),
        None => Message::new(),
    }
}

fn access_fail_of(iova: u64, access: Option<Permissions>) -> Message
    ensures { result ≡ access_fail_of iova access }
{
    match access {
        Some(access) => {
            BackendReq::IotlbMsg(IotlbMessage::AccessFail { iova, access }).encode(false)
        }
        None => Message::new(),
    }
}

/// A MISS: it asks for the mapping of an address and for a reply. The access is 1 to read, 2 to write, 3 for both. Its
/// bytes go to the front of the output as those of a reply do, and it is told how many they are: 0 for no access.
pub fn miss(iova: u64, access: u32, output: &mut [u8]) -> usize
    ensures { Sends (miss_of iova (access_at access)) output.old result output.new }
{
    send(miss_of(iova, access_of(access)).as_slice(), output)
}

/// An ACCESS_FAIL: it says that a mapping forbids an access, and asks for no reply. Its bytes go as those of a MISS do.
pub fn access_fail(iova: u64, access: u32, output: &mut [u8]) -> usize
    ensures { Sends (access_fail_of iova (access_at access)) output.old result output.new }
{
    send(access_fail_of(iova, access_of(access)).as_slice(), output)
}

/// A CONFIG_CHANGE_MSG: the front end is to read the configuration again. It asks for no reply. Its bytes go as those
/// of a MISS do.
pub fn config_change(output: &mut [u8]) -> usize
    ensures { Sends config_change output.old result output.new }
{
    send(BackendReq::ConfigChange.encode(false).as_slice(), output)
}

// Says the number in a reply, or why it is none.
fn told(reply: Result<BackendReply, Refusal>, value: &mut u64) -> u32
    ensures { Gives (value_of reply) value.old result value.new }
{
    match reply {
        Ok(reply) => {
            *value = reply.value;
            code::DONE
        }
        Err(refusal) => code_of_refusal(refusal),
    }
}

// Says the number in a reply, by its header and its payload.
#[tactic(auto, unfolding(crate::specs::Channel::payload_value))]
fn payload_value(header: &Header, payload: &[u8], value: &mut u64) -> u32
    ensures { Gives (payload_value header.now payload.now) value.old result value.new }
{
    told(BackendReply::decode(header, payload), value)
}

/// The number in a reply that came on the channel: 0 if what the back end asked for was done. `VHOST_HEADER` if its
/// header is not whole, and the code of what is wrong with it.
pub fn answered(message: &[u8], value: &mut u64) -> u32
    ensures { Gives (answered message.now) value.old result value.new }
{
    if message.len() < HEADER_LEN {
        return code::VHOST_HEADER;
    }
    payload_value(&Header::at_front(message), &message[HEADER_LEN..], value)
}
