//! Transfers between guest memory, its regions and windows, and sources and sinks: bytes in memory, scripts, files
//! and sockets.

use std::alloc::Global;
use std::fmt;
use std::fs::{self, File};
use std::net::{TcpListener, TcpStream};
use std::os::unix::net::UnixStream;
use std::test::Fail;
use test_text::expect_text;
use vm_memory_base::{
    ByteList, GuestAddress, MemoryRegionAddress, ReadVolatile, ScriptSink, ScriptSource, SinkStep,
    SourceStep, WriteVolatile,
};
use vm_memory_guest::{Bytes, GuestMemoryBackend, GuestMemoryMmap, HostMemory};

/// What a transfer reaches, by an address in it.
#[derive(Clone, Copy)]
pub enum Place {
    /// Two regions of four bytes, the second right after the first.
    Memory(u64),
    /// The second region.
    Region(u64),
    /// Three bytes from the beginning of the second region on.
    Window(usize),
}

use Place::{Memory, Region, Window};

/// How many bytes a transfer moves.
#[derive(Clone, Copy)]
pub enum Amount {
    /// Up to this many.
    UpTo(usize),
    /// All of this many.
    All(usize),
}

use Amount::{All, UpTo};

const TWO: [(GuestAddress, usize); 2] = [(GuestAddress(0), 4), (GuestAddress(4), 4)];

// What a transfer of so many bytes, of all or of some, from a source answers.
fn come<A: Copy, M: Bytes<A>, S: ReadVolatile>(
    alloc: Global,
    host: &mut HostMemory<()>,
    place: &M,
    at: A,
    amount: Amount,
    source: &mut S,
) -> Result<String, Fail>
where
    M::E: fmt::Debug + Drop,
{
    if !host.holds(place) {
        return Err(Fail::new("the host does not hold the place"));
    }
    match amount {
        UpTo(count) => {
            let answer = place.read_volatile_from(host, at, source, count);
            Ok(format!(in alloc; "{answer:?}")?)
        }
        All(count) => {
            let answer = place.read_exact_volatile_from(host, at, source, count);
            Ok(format!(in alloc; "{answer:?}")?)
        }
    }
}

/// What a transfer from a source returns, and the bytes that the regions, which have 170 in each, have then.
pub fn comes_in<S: ReadVolatile>(
    alloc: Global,
    place: Place,
    amount: Amount,
    source: &mut S,
) -> Result<String, Fail> {
    let mut host = HostMemory::<()>::new(alloc);
    let memory = GuestMemoryMmap::from_ranges(alloc, &mut host, &TWO)?;
    if !host.holds(&memory) {
        return Err(Fail::new("the host does not hold the memory"));
    }
    memory.write_slice(&mut host, &[170; 8], GuestAddress(0))?;
    let told = match place {
        Memory(at) => come(alloc, &mut host, &memory, GuestAddress(at), amount, source)?,
        Region(at) => {
            let region = memory.region_at(1).ok_or("there is no second region")?;
            come(
                alloc,
                &mut host,
                region,
                MemoryRegionAddress(at),
                amount,
                source,
            )?
        }
        Window(at) => {
            let window = memory.get_slice(GuestAddress(4), 3)?;
            come(alloc, &mut host, &window, at, amount, source)?
        }
    };
    let mut all = [9u8; 8];
    if !host.holds(&memory) {
        return Err(Fail::new("the host does not hold the memory"));
    }
    memory.read_slice(&host, &mut all, GuestAddress(0))?;
    Ok(format!(in alloc; "{told} {all:?}")?)
}

// What a transfer of so many bytes, of all or of some, to a sink answers.
fn go<A: Copy, M: Bytes<A>, W: WriteVolatile>(
    alloc: Global,
    host: &HostMemory<()>,
    place: &M,
    at: A,
    amount: Amount,
    sink: &mut W,
) -> Result<String, Fail>
where
    M::E: fmt::Debug + Drop,
{
    if !host.holds(place) {
        return Err(Fail::new("the host does not hold the place"));
    }
    match amount {
        UpTo(count) => {
            let answer = place.write_volatile_to(host, at, sink, count);
            Ok(format!(in alloc; "{answer:?}")?)
        }
        All(count) => {
            let answer = place.write_all_volatile_to(host, at, sink, count);
            Ok(format!(in alloc; "{answer:?}")?)
        }
    }
}

/// What a transfer to a sink of the regions, which have 1 to 8, returns.
pub fn goes_out<W: WriteVolatile>(
    alloc: Global,
    place: Place,
    amount: Amount,
    sink: &mut W,
) -> Result<String, Fail> {
    let mut host = HostMemory::<()>::new(alloc);
    let memory = GuestMemoryMmap::from_ranges(alloc, &mut host, &TWO)?;
    if !host.holds(&memory) {
        return Err(Fail::new("the host does not hold the memory"));
    }
    memory.write_slice(&mut host, &[1, 2, 3, 4, 5, 6, 7, 8], GuestAddress(0))?;
    match place {
        Memory(at) => go(alloc, &host, &memory, GuestAddress(at), amount, sink),
        Region(at) => {
            let region = memory.region_at(1).ok_or("there is no second region")?;
            go(alloc, &host, region, MemoryRegionAddress(at), amount, sink)
        }
        Window(at) => {
            let window = memory.get_slice(GuestAddress(4), 3)?;
            go(alloc, &host, &window, at, amount, sink)
        }
    }
}

// What a source does at a try.
#[derive(Clone, Copy)]
enum Did {
    Give(&'static [u8]),
    Interrupted(&'static [u8]),
    Fail(&'static [u8]),
}

// What a source does, try by try, or the bytes that it has.
#[derive(Clone, Copy)]
enum Source {
    Script(&'static [Did]),
    List(&'static [u8]),
}

use Source::{List, Script};

// A place, how many bytes are to come, and from which source: the answer, and the bytes then.
const COME_IN: [(Place, Amount, Source, &str); 18] = [
    (
        Memory(0),
        UpTo(8),
        Script(&[Did::Give(&[1, 2]), Did::Give(&[3, 4, 5, 6])]),
        "Ok(2) [1, 2, 170, 170, 170, 170, 170, 170]",
    ),
    (
        Memory(0),
        All(8),
        Script(&[Did::Give(&[1, 2]), Did::Give(&[3, 4, 5, 6])]),
        "Err(PartialBuffer { expected: 8, completed: 6 }) [1, 2, 3, 4, 5, 6, 170, 170]",
    ),
    (
        Memory(0),
        UpTo(8),
        Script(&[Did::Give(&[1, 2, 3, 4]), Did::Fail(&[9])]),
        "Err(IOError(Kind(Other))) [1, 2, 3, 4, 9, 170, 170, 170]",
    ),
    (
        Memory(1),
        All(6),
        Script(&[
            Did::Give(&[1, 2, 3]),
            Did::Interrupted(&[]),
            Did::Give(&[4]),
            Did::Fail(&[7, 9]),
        ]),
        "Err(IOError(Kind(Other))) [170, 1, 2, 3, 4, 7, 9, 170]",
    ),
    (
        Memory(0),
        All(4),
        Script(&[
            Did::Give(&[1]),
            Did::Give(&[2]),
            Did::Give(&[3]),
            Did::Give(&[4]),
        ]),
        "Ok(()) [1, 2, 3, 4, 170, 170, 170, 170]",
    ),
    (
        Memory(0),
        UpTo(4),
        Script(&[Did::Interrupted(&[9, 9]), Did::Give(&[1])]),
        "Ok(1) [1, 9, 170, 170, 170, 170, 170, 170]",
    ),
    (
        Memory(2),
        All(4),
        List(&[1, 2, 3, 4, 5]),
        "Ok(()) [170, 170, 1, 2, 3, 4, 170, 170]",
    ),
    (
        Memory(2),
        All(4),
        List(&[1, 2, 3]),
        "Err(PartialBuffer { expected: 4, completed: 3 }) [170, 170, 1, 2, 3, 170, 170, 170]",
    ),
    (
        Memory(8),
        UpTo(0),
        List(&[1]),
        "Ok(0) [170, 170, 170, 170, 170, 170, 170, 170]",
    ),
    (
        Memory(8),
        UpTo(1),
        List(&[1]),
        "Err(InvalidGuestAddress(GuestAddress(8))) [170, 170, 170, 170, 170, 170, 170, 170]",
    ),
    (
        Region(2),
        UpTo(8),
        List(&[1, 2, 3]),
        "Ok(2) [170, 170, 170, 170, 170, 170, 1, 2]",
    ),
    (
        Region(0),
        All(2),
        List(&[7, 8, 9]),
        "Ok(()) [170, 170, 170, 170, 7, 8, 170, 170]",
    ),
    (
        Region(0),
        All(2),
        List(&[5]),
        "Err(IOError(Kind(UnexpectedEof))) [170, 170, 170, 170, 170, 170, 170, 170]",
    ),
    (
        Region(2),
        All(3),
        List(&[5]),
        "Err(InvalidBackendAddress) [170, 170, 170, 170, 170, 170, 170, 170]",
    ),
    (
        Region(1),
        All(3),
        Script(&[Did::Give(&[1]), Did::Fail(&[9])]),
        "Err(IOError(Kind(Other))) [170, 170, 170, 170, 170, 1, 9, 170]",
    ),
    (
        Window(1),
        UpTo(8),
        List(&[1, 2, 3]),
        "Ok(2) [170, 170, 170, 170, 170, 1, 2, 170]",
    ),
    (
        Window(1),
        All(3),
        List(&[1, 2, 3]),
        "Err(OutOfBounds { addr: 4 }) [170, 170, 170, 170, 170, 170, 170, 170]",
    ),
    (
        Window(0),
        All(3),
        Script(&[Did::Give(&[1]), Did::Interrupted(&[8]), Did::Fail(&[9])]),
        "Err(IOError(Kind(Other))) [170, 170, 170, 170, 1, 9, 170, 170]",
    ),
];

#[test]
fn transfers_come_in(rt: HostRuntime) -> Result<(), Fail> {
    let alloc = rt.alloc();
    for (case, (place, amount, source, wanted)) in COME_IN.iter().enumerate() {
        let told = match source {
            Script(tries) => {
                let mut steps = Vec::new(alloc);
                for did in *tries {
                    let (Did::Give(bytes) | Did::Interrupted(bytes) | Did::Fail(bytes)) = did;
                    let bytes = ByteList::from_vec(bytes.to_vec(alloc)?);
                    steps.push(match did {
                        Did::Give(_) => SourceStep::Give(bytes),
                        Did::Interrupted(_) => SourceStep::Interrupted(bytes),
                        Did::Fail(_) => SourceStep::Fail(bytes),
                    })?;
                }
                let mut source = ScriptSource::new(steps.as_slice());
                comes_in(alloc, *place, *amount, &mut source)?
            }
            List(bytes) => {
                let mut source = *bytes;
                comes_in(alloc, *place, *amount, &mut source)?
            }
        };
        expect_text(case, told.as_str(), wanted)?;
    }
    Ok(())
}

// A place, how many bytes are to go, and what the sink does: the answer, and the bytes that it took.
const GO_OUT: [(Place, Amount, &[SinkStep], &str); 15] = [
    (
        Memory(0),
        UpTo(8),
        &[SinkStep::Take(3)],
        "Ok(8) [1, 2, 3, 4, 5, 6, 7, 8]",
    ),
    (
        Memory(2),
        All(8),
        &[],
        "Err(PartialBuffer { expected: 8, completed: 6 }) [3, 4, 5, 6, 7, 8]",
    ),
    (
        Memory(0),
        UpTo(8),
        &[SinkStep::Take(3), SinkStep::Take(0)],
        "Err(IOError(Kind(WriteZero))) [1, 2, 3]",
    ),
    (
        Memory(0),
        All(8),
        &[
            SinkStep::Take(3),
            SinkStep::Interrupted,
            SinkStep::Take(2),
            SinkStep::Fail,
        ],
        "Err(IOError(Kind(Other))) [1, 2, 3, 4]",
    ),
    (Memory(1), All(5), &[], "Ok(()) [2, 3, 4, 5, 6]"),
    (
        Memory(8),
        UpTo(8),
        &[],
        "Err(InvalidGuestAddress(GuestAddress(8))) []",
    ),
    (
        Region(0),
        UpTo(8),
        &[SinkStep::Interrupted, SinkStep::Take(3)],
        "Ok(3) [5, 6, 7]",
    ),
    (Region(2), All(2), &[], "Ok(()) [7, 8]"),
    (Region(5), UpTo(0), &[], "Err(InvalidBackendAddress) []"),
    (Region(4), UpTo(1), &[], "Ok(0) []"),
    (
        Region(1),
        All(3),
        &[SinkStep::Take(2), SinkStep::Fail],
        "Err(IOError(Kind(Other))) [6, 7]",
    ),
    (
        Region(1),
        UpTo(3),
        &[SinkStep::Fail],
        "Err(IOError(Kind(Other))) []",
    ),
    (Window(1), UpTo(8), &[SinkStep::Take(1)], "Ok(1) [6]"),
    (
        Window(1),
        UpTo(2),
        &[SinkStep::Interrupted, SinkStep::Fail],
        "Err(IOError(Kind(Other))) []",
    ),
    (Window(1), All(3), &[], "Err(OutOfBounds { addr: 4 }) []"),
];

#[test]
fn transfers_go_out(rt: HostRuntime) -> Result<(), Fail> {
    let alloc = rt.alloc();
    for (case, (place, amount, steps, wanted)) in GO_OUT.iter().enumerate() {
        let mut sink = ScriptSink::new(alloc, steps, 8)?;
        let told = goes_out(alloc, *place, *amount, &mut sink)?;
        let text = format!(in alloc; "{told} {:?}", sink.taken())?;
        expect_text(case, text.as_str(), wanted)?;
    }
    Ok(())
}

// Fails where what one guest memory gives to a sink is not what another one gets from a source.
fn expect_carried<W: WriteVolatile, S: ReadVolatile>(
    alloc: Global,
    case: usize,
    sink: &mut W,
    source: &mut S,
) -> Result<(), Fail> {
    let went = goes_out(alloc, Memory(case as u64), All(5), sink)?;
    let came = comes_in(alloc, Memory(2), All(5), source)?;
    let text = format!(in alloc; "{went} {came}")?;
    let wanted = match case {
        0 => "Ok(()) Ok(()) [170, 170, 1, 2, 3, 4, 5, 170]",
        1 => "Ok(()) Ok(()) [170, 170, 2, 3, 4, 5, 6, 170]",
        2 => "Ok(()) Ok(()) [170, 170, 3, 4, 5, 6, 7, 170]",
        _ => "Ok(()) Ok(()) [170, 170, 4, 5, 6, 7, 8, 170]",
    };
    expect_text(case, text.as_str(), wanted)
}

#[test]
fn guest_memory_goes_through_sockets_and_a_file(rt: HostRuntime) -> Result<(), Fail> {
    let (mut one, mut other) = UnixStream::pair(&rt)?;
    expect_carried(rt.alloc(), 0, &mut one, &mut other)?;
    expect_carried(rt.alloc(), 1, &mut other, &mut one)?;
    let listener = TcpListener::bind(&rt, "127.0.0.1:0")?;
    let mut one = TcpStream::connect(&rt, listener.local_addr()?)?;
    let (mut other, _) = listener.accept()?;
    expect_carried(rt.alloc(), 2, &mut one, &mut other)?;
    expect_carried(rt.alloc(), 3, &mut other, &mut one)?;
    let path = "vmmem-guest-memory-test";
    let mut file = File::create(&rt, path)?;
    let mut back = File::open(&rt, path)?;
    fs::remove_file(&rt, path)?;
    expect_carried(rt.alloc(), 1, &mut file, &mut back)
}
