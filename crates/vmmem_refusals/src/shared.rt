//! The calls of what threads share.

use crate::calls::{Answer, Calls, keep};
use crate::machines::{answer_of, machine_of};
use std::alloc::{AllocError, Global};
use std::sync::{Arc, Wait};
use std::test::Fail;
use vm_memory::{
    CallError, Command, ExactBitmap, ExclusiveBitmap, GuestAddress, GuestAddressSpace,
    GuestMemoryAtomic, GuestMemoryLoadGuard, GuestMemoryMmap, GuestMemoryRegion, GuestRegionMmap,
    HostMemory, Iommu, Journal, Lends, Reply, SharedMachine, TableIommu,
};

type TestJournal = Journal<GuestRegionMmap, TableIommu, ExclusiveBitmap>;

// How many commands a machine served before: as many as its journal has room for.
const SERVED: usize = 32;

// Lets a journal serve so many commands.
fn serve_all<G: GuestMemoryRegion, I: Iommu, B: ExactBitmap>(
    journal: &mut Journal<G, I, B>,
) -> Result<(), AllocError> {
    for _ in 0..SERVED {
        if served(journal) != Answer::Done {
            return Err(AllocError);
        }
    }
    Ok(())
}

// Serves one command. It names no types of the machine, whose model would be dear to prove with.
fn served<G: GuestMemoryRegion, I: Iommu, B: ExactBitmap>(
    journal: &mut Journal<G, I, B>,
) -> Answer {
    match journal.serve(Command::InvalidateAll(0)) {
        Ok(_) => Answer::Done,
        Err(_) => Answer::NotRun,
    }
}

// All entries of a journal.
fn push_entries<G: GuestMemoryRegion, I: Iommu, B: ExactBitmap>(
    text: &mut String,
    journal: &Journal<G, I, B>,
) -> Result<(), AllocError> {
    for number in 0..journal.len() {
        let (command, reply) = (journal.command(number), journal.reply(number));
        writeln!(text, "{command:?} {reply:?}")?;
    }
    Ok(())
}

/// A journal, a machine and a memory that threads share, and what was made of them.
#[derive(Drop)]
pub struct Shared<'a, R: Wait> {
    rt: &'a R,
    alloc: Global,
    journal: TestJournal,
    machine: SharedMachine<GuestRegionMmap, TableIommu, ExclusiveBitmap>,
    // The last entry of the machine that was done.
    entry: usize,
    // How many entries of the machine tell want of memory.
    refused: usize,
    reply: Option<Reply>,
    // Whether a command ran whose reply found no memory.
    ran: bool,
    layout: GuestMemoryMmap,
    space: GuestMemoryAtomic<GuestMemoryMmap>,
    made: Option<GuestMemoryAtomic<GuestMemoryMmap>>,
    snapshot: Option<GuestMemoryLoadGuard<GuestMemoryMmap>>,
    copied: Option<GuestMemoryLoadGuard<GuestMemoryMmap>>,
}

// A layout of two blocks of a host that is gone: it is shared, and not accessed.
fn layout_of(alloc: Global) -> Result<GuestMemoryMmap, Fail> {
    let mut host = HostMemory::<()>::new(alloc);
    let ranges = [(GuestAddress(0), 0x400), (GuestAddress(0x1000), 0x400)];
    Ok(GuestMemoryMmap::from_ranges(alloc, &mut host, &ranges)?)
}

// A memory that threads share.
fn space_of(
    alloc: Global,
    layout: &GuestMemoryMmap,
) -> Result<GuestMemoryAtomic<GuestMemoryMmap>, AllocError> {
    GuestMemoryAtomic::new(alloc, layout.clone()?)
}

// A machine that threads share, whose journal has no room left.
fn full_machine(
    alloc: Global,
) -> Result<SharedMachine<GuestRegionMmap, TableIommu, ExclusiveBitmap>, Fail> {
    let mut journal = Journal::new(machine_of(alloc)?);
    serve_all(&mut journal)?;
    Ok(SharedMachine::new(journal))
}

impl<'a, R: Wait> Shared<'a, R> {
    pub fn new(rt: &'a R, alloc: Global) -> Result<Shared<'a, R>, Fail> {
        let layout = layout_of(alloc)?;
        let space = space_of(alloc, &layout)?;
        let machine = full_machine(alloc)?;
        let journal = Journal::new(machine_of(alloc)?);
        Ok(Shared {
            rt,
            alloc,
            journal,
            machine,
            entry: 0,
            refused: 0,
            reply: None,
            ran: false,
            layout,
            space,
            made: None,
            snapshot: None,
            copied: None,
        })
    }

    fn serve(&mut self) -> Answer {
        served(&mut self.journal)
    }

    // A command that ran is not called again: its reply is to be fetched.
    fn call(&mut self, command: Command) -> Answer {
        match self.machine.call(self.rt, command) {
            Ok((entry, reply)) => {
                let answer = answer_of(&reply);
                match answer {
                    Answer::Refused => self.refused = self.refused.saturating_add(1),
                    _ => self.entry = entry,
                }
                answer
            }
            Err(CallError::Ran(entry)) => {
                self.entry = entry;
                self.ran = true;
                Answer::Done
            }
            Err(CallError::Memory) => Answer::NotRun,
        }
    }

    fn fetch(&mut self) -> Answer {
        match self.machine.fetch(self.rt, self.entry) {
            Ok(Some(reply)) => {
                self.reply = Some(reply);
                Answer::Done
            }
            Ok(None) => Answer::Other,
            Err(_) => Answer::Refused,
        }
    }

    fn share(&mut self) -> Answer {
        match self.layout.clone() {
            Ok(layout) => keep(GuestMemoryAtomic::new(self.alloc, layout), &mut self.made),
            Err(_) => Answer::Refused,
        }
    }

    fn share_shared(&mut self) -> Answer {
        let Ok(layout) = self.layout.clone() else {
            return Answer::Refused;
        };
        match Arc::new(self.alloc, layout) {
            Ok(layout) => keep(
                GuestMemoryAtomic::from_arc(self.alloc, layout),
                &mut self.made,
            ),
            Err(_) => Answer::Refused,
        }
    }

    // The replies of all entries of the machine, and that there are no more. Those that tell want of memory are to be
    // as many as calls that did.
    fn push_replies(&self, text: &mut String) -> Result<(), Fail> {
        let mut refused = 0usize;
        for entry in 0..4 * SERVED {
            match self.machine.fetch(self.rt, entry)? {
                Some(Reply::Memory) => refused = refused.saturating_add(1),
                Some(reply) => writeln!(text, "{reply:?}")?,
                None => {}
            }
        }
        writeln!(text, "{}", refused == self.refused)?;
        Ok(())
    }

    // The regions that there are now, in the snapshots and in what was made.
    fn push_regions(&self, text: &mut String) -> Result<(), Fail> {
        push_layout(text, &self.space.memory(self.rt, self.alloc)?)?;
        for snapshot in [&self.snapshot, &self.copied] {
            match snapshot {
                Some(snapshot) => push_layout(text, snapshot)?,
                None => text.push('-')?,
            }
        }
        match &self.made {
            Some(made) => push_layout(text, &made.memory(self.rt, self.alloc)?)?,
            None => text.push('-')?,
        }
        Ok(())
    }

    fn copy_snapshot(&mut self) -> Answer {
        match &self.snapshot {
            Some(snapshot) => keep(snapshot.clone(), &mut self.copied),
            None => Answer::Other,
        }
    }

    fn replace(&mut self) -> Answer {
        let Ok((layout, _)) = self.layout.remove_region(GuestAddress(0), 0x400) else {
            return Answer::Refused;
        };
        match self
            .space
            .lock(self.rt)
            .replace(self.rt, self.alloc, layout)
        {
            Ok(()) => Answer::Done,
            Err(_) => Answer::Refused,
        }
    }
}

fn push_layout(
    text: &mut String,
    snapshot: &GuestMemoryLoadGuard<GuestMemoryMmap>,
) -> Result<(), Fail> {
    writeln!(text, "{:?}", snapshot.lend())?;
    Ok(())
}

impl<R: Wait> Calls for Shared<'_, R> {
    fn count(&self) -> usize {
        10
    }

    fn make(&mut self, number: usize) -> Answer {
        match number {
            0 => self.serve(),
            1 => self.call(Command::InvalidateAll(0)),
            2 => self.call(Command::Read {
                memory: 1,
                addr: GuestAddress(0),
                count: 0x40,
            }),
            3 => self.fetch(),
            4 => self.share(),
            5 => self.share_shared(),
            6 => keep(self.space.memory(self.rt, self.alloc), &mut self.snapshot),
            7 => self.replace(),
            8 => keep(self.space.clone(), &mut self.made),
            _ => self.copy_snapshot(),
        }
    }

    fn seen(&mut self, _number: usize) -> Result<String, Fail> {
        let mut text = format!(in self.alloc; "{:?}\n", self.reply)?;
        push_entries(&mut text, &self.journal)?;
        self.push_replies(&mut text)?;
        self.push_regions(&mut text)?;
        Ok(text)
    }

    fn expect_met(&self) -> Result<(), Fail> {
        if self.ran {
            return Ok(());
        }
        Err(Fail::new("no command ran whose reply found no memory"))
    }
}
