//! Streams that are made from a valid one by changes, beside a plain reading of the same bytes.

ghost use Rattle.std.specs.Prelude.{◌≤◌, length};

use crate::payloads::{Parts, put_header, put_message};
use crate::worlds::{FIRST, IOVA, PAGE, SECOND, World, invalidate, make_world, mapped, update};
use std::alloc::Global;
use std::io::{self, Read};
use std::test::Fail;
use test_text::next_number;
use vhost_iotlb::Refusal;
use vhost_message::{
    ChannelError, FrontendReq, HEADER_LEN, Incoming, Malformed, Message, Refusal as MessageRefusal,
};

// How many streams each of the four tests handles.
const STREAMS: usize = 25_000;

// What a message comes to, by its place in a count.
const NAMES: [&str; 12] = [
    "applied",
    "other",
    "Version",
    "PayloadSize",
    "Kind",
    "EmptyRange",
    "Range",
    "Permissions",
    "UserAddress",
    "Memory",
    "Direction",
    "Request",
];

type Counts = [u32; 12];

fn count(counts: &mut Counts, place: usize) {
    if place < counts.len() {
        counts[place] = counts[place].saturating_add(1);
    }
}

// A stream of messages, of which two want no reply and one is of another request.
fn valid(alloc: Global) -> Result<Vec<u8>, Fail> {
    let mut out = Vec::new(alloc);
    put_message(&mut out, 9, update(0, 3))?;
    put_message(&mut out, 1, update(1, 1))?;
    put_message(&mut out, 9, invalidate(0))?;
    put_header(&mut out, 2, 1, 8)?;
    out.extend_from_slice(&[7; 8])?;
    put_message(&mut out, 9, update(3, 2))?;
    let wide = Parts {
        iova: IOVA,
        size: 4 * PAGE,
        user: FIRST,
        permissions: 3,
        kind: 2,
    };
    put_message(&mut out, 9, wide)?;
    put_message(&mut out, 1, invalidate(2))?;
    put_message(&mut out, 9, update(2, 3))?;
    Ok(out)
}

// Changes some fields of a stream: any byte, or the flags, the size, the kind or a number of a message.
fn change(bytes: &mut [u8], state: &mut u64) {
    if bytes.is_empty() {
        return;
    }
    let len = bytes.len();
    let at = next_number(state) as usize % len;
    let value = (next_number(state) % 256) as u8;
    let message = next_number(state) as usize % 8 * 44;
    let field = [4, 8, 27, 36, 37, 37, 19, 20, 21, 33];
    let place = message + field[next_number(state) as usize % field.len()];
    match next_number(state) % 6 {
        0 => bytes[at] = value,
        1 => bytes[at] ^= 1,
        2 if place < len => bytes[place] = 0,
        3 if place < len => bytes[place] = 255,
        4 if place < len => bytes[place] = value % 8,
        _ if place < len => bytes[place] ^= 1 << (value % 8),
        _ => bytes[at] = 0,
    }
}

// The byte at a place, or 0 past the end.
fn byte_at(bytes: &[u8], at: usize) -> u8 {
    bytes.get(at).copied().unwrap_or(0)
}

// The number of 8 bytes from a place on, or 0 past the end.
fn number_at(bytes: &[u8], at: usize) -> u64 {
    let mut number = 0u64;
    for i in 0..8 {
        number |= u64::from(byte_at(bytes, at.saturating_add(i))) << (8 * i);
    }
    number
}

// The address of guest memory that so many bytes of the front end's are, if they were announced.
fn announced(user: u64, size: u64) -> Option<u64> {
    let end = u128::from(user) + u128::from(size);
    for (start, guest, len) in [(FIRST, 0u64, 0x8000u64), (SECOND, 0x8000, 0x8000)] {
        if user >= start && end <= u128::from(start) + u128::from(len) {
            return Some(guest.wrapping_add(user.wrapping_sub(start)));
        }
    }
    None
}

// What a plain reading makes of a stream.
#[derive(Clone, Copy)]
struct Told {
    counts: Counts,
    // Where the first page of I/O addresses, and each of the next ones, leads.
    pages: [Option<u64>; 8],
}

impl Told {
    // A range is mapped, or invalidated.
    fn set(&mut self, iova: u64, size: u64, to: Option<u64>) {
        for i in 0..8 {
            let page = IOVA.wrapping_add((i as u64).wrapping_mul(PAGE));
            if page >= iova && page - iova < size {
                self.pages[i] = to.map(|to| to.wrapping_add(page - iova));
            }
        }
    }

    // What a payload comes to.
    fn payload(&mut self, bytes: &[u8]) -> usize {
        let iova = number_at(bytes, 0);
        let size = number_at(bytes, 8);
        let user = number_at(bytes, 16);
        let permitted = matches!(byte_at(bytes, 24), 1..=3);
        let kind = byte_at(bytes, 25);
        let end = u128::from(iova) + u128::from(size);
        match kind {
            1 | 4 if !permitted => 7,
            2 if size == 0 => 5,
            2 if end >= 1 << 64 => 6,
            2 if !permitted => 7,
            2 => match announced(user, size) {
                Some(to) => {
                    self.set(iova, size, Some(to));
                    0
                }
                None => 8,
            },
            3 if end == 0 => {
                self.pages = [None; 8];
                0
            }
            3 if size == 0 => {
                self.pages = [None; 8];
                5
            }
            3 if end > 1 << 64 => {
                self.pages = [None; 8];
                6
            }
            3 => {
                self.set(iova, size, None);
                0
            }
            _ => 4,
        }
    }
}

// How long the payload of a request may be, by the tables of the protocol.
fn lengths(request: u64) -> Option<(u64, u64)> {
    match request {
        1 | 3 | 4 | 7 | 15 | 17 | 21 => Some((0, 0)),
        2 | 8 | 10..=14 | 16 | 18 => Some((8, 8)),
        5 => Some((8, 264)),
        6 => Some((16, 16)),
        9 => Some((40, 40)),
        22 => Some((32, 32)),
        24 | 25 => Some((12, 268)),
        31 | 32 => Some((20, 24)),
        _ => None,
    }
}

// Why a header begins no message.
fn fault(request: u64, flags: u8, size: u64) -> Option<usize> {
    if flags % 4 != 1 {
        return Some(2);
    }
    if flags / 4 % 2 == 1 {
        return Some(10);
    }
    match lengths(request) {
        Some((least, most)) if size >= least && size <= most => None,
        Some(_) => Some(3),
        None => Some(11),
    }
}

fn read_plainly(bytes: &[u8]) -> Told {
    let mut told = Told {
        counts: [0; 12],
        pages: [None; 8],
    };
    let mut at = 0usize;
    for _ in 0..bytes.len() {
        let head = bytes.get(at..).unwrap_or(&[]);
        let request = number_at(head, 0) % (1 << 32);
        let flags = byte_at(head, 4);
        let size = number_at(head, 8) % (1 << 32);
        if head.len() < 12 {
            break;
        }
        if let Some(place) = fault(request, flags, size) {
            count(&mut told.counts, place);
            break;
        }
        let len = 12usize.saturating_add(size as usize);
        if head.len() < len {
            break;
        }
        let place = if request == 22 {
            told.payload(head.get(12..).unwrap_or(&[]))
        } else {
            1
        };
        count(&mut told.counts, place);
        at = at.saturating_add(len);
    }
    told
}

// A channel that gives its bytes in pieces, and then ends.
#[derive(Drop)]
struct Given {
    input: Vec<u8>,
    at: usize,
    piece: usize,
}

impl Read for Given {
    fn read(&mut self, buf: &mut [u8]) -> io::Result<usize> {
        let rest = self.input.as_slice().get(self.at..).unwrap_or(&[]);
        let count = buf.len().min(self.piece).min(rest.len());
        buf[..count].copy_from_slice(&rest[..count]);
        self.at = self.at.saturating_add(count);
        Ok(count)
    }
}

fn place_of_malformed(malformed: Malformed) -> usize {
    match malformed {
        Malformed::Kind => 4,
        Malformed::EmptyRange => 5,
        Malformed::Range => 6,
        Malformed::Permissions => 7,
    }
}

fn place_of_fault(refusal: MessageRefusal) -> usize {
    match refusal {
        MessageRefusal::Version => 2,
        MessageRefusal::PayloadSize => 3,
        MessageRefusal::Direction => 10,
        MessageRefusal::Request => 11,
        _ => 9,
    }
}

// Applies a message, and returns what it came to.
fn place_of(world: &mut World, message: &Message) -> usize
    requires { 12 ≤ length message.now }
{
    let payload = &message.as_slice()[HEADER_LEN..];
    match FrontendReq::decode(&message.header(), payload) {
        Ok(FrontendReq::IotlbMsg(message)) => match world.table.apply(&mut world.host, &message) {
            Ok(()) => 0,
            Err(Refusal::Malformed(malformed)) => place_of_malformed(malformed),
            Err(Refusal::UserAddress) => 8,
            Err(_) => 9,
        },
        Err(MessageRefusal::Iotlb(malformed)) => place_of_malformed(malformed),
        _ => 1,
    }
}

// Applies all that comes, up to a header that begins no message, and counts it.
fn apply_all(world: &mut World, channel: &mut Given) -> Result<Counts, ChannelError> {
    let mut counts: Counts = [0; 12];
    let mut incoming = Incoming::new();
    for _ in 0..u64::MAX {
        match incoming.look(channel) {
            Ok(Some(message)) => count(&mut counts, place_of(world, &message)),
            Ok(None) => {}
            Err(ChannelError::Ended) => return Ok(counts),
            Err(ChannelError::Refused(refusal)) => {
                count(&mut counts, place_of_fault(refusal));
                return Ok(counts);
            }
            Err(error) => return Err(error),
        }
    }
    Ok(counts)
}

// Applies a stream in pieces, and fails where that is another than the plain reading.
fn run(world: &mut World, bytes: Vec<u8>, piece: usize, total: &mut Counts) -> Result<(), Fail> {
    let wanted = read_plainly(bytes.as_slice());
    if world.host.shape().has_table(world.table.table) {
        world.host.table_mut(world.table.table).invalidate_all();
    }
    let mut channel = Given {
        input: bytes,
        at: 0,
        piece,
    };
    let counts = apply_all(world, &mut channel)?;
    if counts != wanted.counts {
        return Err(Fail::new(format_args!("{counts:?}, not {:?}", wanted.counts)));
    }
    for (i, to) in wanted.pages.iter().enumerate() {
        let iova = IOVA.wrapping_add((i as u64).wrapping_mul(PAGE));
        if mapped(&world.host, world.table.table, iova) != *to {
            return Err(Fail::new(format_args!("page {i}")));
        }
    }
    for (sum, more) in total.iter_mut().zip(counts) {
        *sum = sum.saturating_add(more);
    }
    Ok(())
}

// Applies streams that are changed at random from this seed on, and fails where other counts come out.
fn expect_counts(alloc: Global, seed: u64, wanted: Counts) -> Result<(), Fail> {
    let mut state = seed;
    let mut total: Counts = [0; 12];
    let mut world = make_world(alloc, 1000)?;
    let stream = valid(alloc)?;
    for number in 0..STREAMS {
        let mut bytes = stream.clone()?;
        for _ in 0..number % 4 {
            change(bytes.as_mut_slice(), &mut state);
        }
        if number % 16 == 5 {
            bytes.truncate(next_number(&mut state) as usize % 340);
        }
        let piece = if number % 8 == 0 {
            1 + next_number(&mut state) as usize % 50
        } else {
            1000
        };
        run(&mut world, bytes, piece, &mut total)?;
    }
    if total != wanted {
        return Err(Fail::new(format_args!("{total:?} of {NAMES:?}")));
    }
    Ok(())
}

#[test]
fn changed_streams(rt: HostRuntime) -> Result<(), Fail> {
    // One of these messages is an INVALIDATE (0, 0).
    let counts = [
        137398, 21017, 1154, 2435, 1660, 298, 4, 730, 3667, 0, 87, 2440,
    ];
    expect_counts(rt.alloc(), 1, counts)
}

#[test]
fn more_changed_streams(rt: HostRuntime) -> Result<(), Fail> {
    let counts = [
        136719, 20901, 1185, 2516, 1609, 270, 6, 777, 3498, 0, 102, 2496,
    ];
    expect_counts(rt.alloc(), 2, counts)
}

#[test]
fn again_more_changed_streams(rt: HostRuntime) -> Result<(), Fail> {
    let counts = [
        136505, 20883, 1135, 2490, 1671, 304, 2, 739, 3615, 0, 100, 2512,
    ];
    expect_counts(rt.alloc(), 3, counts)
}

#[test]
fn the_last_changed_streams(rt: HostRuntime) -> Result<(), Fail> {
    let counts = [
        137061, 20924, 1138, 2531, 1626, 264, 5, 725, 3611, 0, 90, 2458,
    ];
    expect_counts(rt.alloc(), 4, counts)
}
