//! Machines of regions that no script makes: commands all at once and one by one.

use std::alloc::Global;
use std::test::Fail;
use test_machines::{layout_of, machine_of, read_of, write_of};
use test_regions::Place;
use test_text::expect_text;
use vm_memory::{Command, ExactBitmap, GuestMemoryRegion, Iommu, Machine, run};

// Runs commands on a machine, so many at a time, and compares the lines of all replies.
fn expect_replies<R: GuestMemoryRegion, I: Iommu, B: ExactBitmap + Drop>(
    alloc: Global,
    mut machine: Machine<R, I, B>,
    commands: &[Command],
    at_a_time: usize,
    wanted: &str,
) -> Result<(), Fail> {
    let mut replies = Vec::new(alloc);
    for part in commands.chunks(at_a_time.max(1)) {
        run(&mut machine, part, &mut replies)?;
    }
    let mut text = String::new(alloc);
    for reply in &replies {
        writeln!(text, "{reply}")?;
    }
    expect_text(at_a_time, text.as_str(), wanted)
}

// A command of a table.
#[derive(Clone, Copy)]
enum Line {
    Layout(&'static [usize]),
    Plain(usize),
    Read(usize, u64, usize),
    Write(usize, u64, &'static [u8]),
}

use Line::{Layout, Plain, Read, Write};

// Address 0 follows the greatest, and an access ends where the region at 0 ends.
const TO_THE_END: [Place; 2] = [
    Place::Block(0, 4),
    Place::Block(0xffff_ffff_ffff_f000, 0x1000),
];

const AROUND_THE_END: [(Line, &str); 6] = [
    (Layout(&[0, 1]), "layout 0"),
    (Plain(0), "memory 0"),
    (Write(0, 0xffff_ffff_ffff_ffff, &[7, 8]), "count 2"),
    (Read(0, 0xffff_ffff_ffff_ffff, 2), "bytes 0708"),
    (Read(0, 0, 1), "bytes 08"),
    (Write(0, 0xffff_ffff_ffff_fffe, &[1; 9]), "count 6"),
];

const BEFORE_A_BARE_REGION: [Place; 2] = [Place::Block(0, 4), Place::Bare(4, 4)];

const ON_A_BARE_REGION: [(Line, &str); 6] = [
    (Layout(&[0, 1]), "layout 0"),
    (Plain(0), "memory 0"),
    (Write(0, 2, &[1, 2, 3]), "count 2"),
    (Write(0, 4, &[1]), "error G5"),
    (Read(0, 7, 2), "error G5"),
    (Read(0, 8, 1), "error G1 0x8"),
];

const RUNS: [(&[Place], &[(Line, &str)]); 2] = [
    (&TO_THE_END, &AROUND_THE_END),
    (&BEFORE_A_BARE_REGION, &ON_A_BARE_REGION),
];

// All commands of a table are run at once, and one by one.
#[test]
fn each_command_has_its_reply(rt: HostRuntime) -> Result<(), Fail> {
    let alloc = rt.alloc();
    for (places, lines) in RUNS {
        let mut wanted = String::new(alloc);
        let mut commands = Vec::new(alloc);
        for (line, reply) in lines {
            commands.push(match *line {
                Layout(numbers) => layout_of(alloc, numbers)?,
                Plain(layout) => Command::Plain(layout),
                Read(memory, addr, count) => read_of(memory, addr, count),
                Write(memory, addr, bytes) => write_of(alloc, memory, addr, bytes)?,
            })?;
            writeln!(wanted, "{reply}")?;
        }
        for at_a_time in [lines.len(), 1] {
            expect_replies(
                alloc,
                machine_of(alloc, places)?,
                commands.as_slice(),
                at_a_time,
                wanted.as_str(),
            )?;
        }
    }
    Ok(())
}

// Ten regions of 0x10 bytes, one after the other.
const TEN: [Place; 10] = [
    Place::Block(0x1000, 0x10),
    Place::Block(0x1010, 0x10),
    Place::Block(0x1020, 0x10),
    Place::Block(0x1030, 0x10),
    Place::Block(0x1040, 0x10),
    Place::Block(0x1050, 0x10),
    Place::Block(0x1060, 0x10),
    Place::Block(0x1070, 0x10),
    Place::Block(0x1080, 0x10),
    Place::Block(0x1090, 0x10),
];

// Ten layouts, of the first region and of as many more as their number says, and a memory of each. Then forty
// writes of forty bytes to the last memory, each four bytes after the one before, and forty reads. An access ends
// where its memory ends. Of each write, the first four bytes are not overwritten.
#[test]
fn a_hundred_commands_run_at_once(rt: HostRuntime) -> Result<(), Fail> {
    let alloc = rt.alloc();
    let mut commands = Vec::new(alloc);
    let mut wanted = String::new(alloc);
    let mut numbers = Vec::new(alloc);
    for number in 0..10usize {
        numbers.push(number)?;
        commands.push(layout_of(alloc, numbers.as_slice())?)?;
        writeln!(wanted, "layout {number}")?;
    }
    for layout in 0..10usize {
        commands.push(Command::Plain(layout))?;
        writeln!(wanted, "memory {layout}")?;
    }
    for number in 0..40u8 {
        let addr = 0x1002 + 4 * u64::from(number);
        commands.push(write_of(alloc, 9, addr, &[number; 40])?)?;
        let room = 158u8.saturating_sub(number.saturating_mul(4));
        writeln!(wanted, "count {}", room.min(40))?;
    }
    for number in 0..40usize {
        commands.push(read_of(number / 4, 0x1000 + number as u64, 160))?;
        wanted.push_str("bytes ")?;
        for place in number..(number / 4 + 1) * 0x10 {
            write!(wanted, "{:02x}", place.saturating_sub(2) / 4)?;
        }
        wanted.push('\n')?;
    }
    expect_replies(
        alloc,
        machine_of(alloc, &TEN)?,
        commands.as_slice(),
        100,
        wanted.as_str(),
    )
}
