//! Hosts in memory that tell of which kind each call was, and command lines that are done on them.
ghost use Rattle.memory_host.specs.Host.{means, is_world_of};

use crate::outcomes::last_kept;
use crate::program::Program;
use command_line::Status;
use disk_model::{Disk, Failed, Host, Sink, Source, World};
use memory_host::MemoryHost;
use scenario_values::Asked;
use scenario_words::Mode;
use std::alloc::{AllocError, Global};

/// What a call asks of the outside.
#[derive(Clone, Copy, PartialEq, Eq)]
pub(crate) enum Kind {
    Read,
    Write,
    Sync,
    Take,
    Put,
}

impl Kind {
    /// All of them.
    pub(crate) const ALL: [Kind; 5] = [Kind::Read, Kind::Write, Kind::Sync, Kind::Take, Kind::Put];

    /// What stands before what came at a call of it.
    pub(crate) fn front(self) -> &'static [u8] {
        match self {
            Kind::Read => b"read: ",
            Kind::Write => b"write: ",
            Kind::Sync => b"sync: ",
            Kind::Take => b"take: ",
            Kind::Put => b"put: ",
        }
    }
}

/// A host in memory that notes of which kind its calls are.
#[derive(Drop)]
pub struct Watched {
    host: MemoryHost,
    kinds: Vec<Kind>,
}

// Notes a call, where there is memory for it.
fn note(kinds: &mut Vec<Kind>, kind: Kind) {
    let _noted = kinds.push(kind).is_ok();
}

impl World for Watched {
    ghost outside = { λ w. means w.host };

    ghost is_world = { λ w. is_world_of w.host };
}

impl Watched {
    /// The host that was watched.
    pub(crate) fn host(&self) -> &MemoryHost {
        &self.host
    }

    /// The kind of the call of that number, from 1 on; None where there was none.
    pub(crate) fn kind_of(&self, number: u64) -> Option<Kind> {
        let index = number.checked_sub(1)?;
        self.kinds.get(index as usize).copied()
    }

    /// Whether a stop after that call may leave another image than one before it.
    pub(crate) fn may_change(&self, number: u64) -> bool {
        match self.kind_of(number) {
            Some(kind) => matches!(kind, Kind::Write | Kind::Sync),
            None => true,
        }
    }

    /// Whether a stop right after that call leaves something open.
    pub(crate) fn is_pending(&self, call: u64) -> bool {
        let moment = call.min(self.host.calls());
        self.host.pending(moment) > 0
    }

    /// The last line that was sent up to that call and says that something is kept for good.
    pub(crate) fn kept_at(&self, alloc: Global, call: u64) -> Result<Vec<u8>, AllocError> {
        let moment = call.min(self.host.calls());
        let sent = self.host.sent_at(moment)?;
        last_kept(alloc, &sent)
    }
}

impl Disk for Watched {
    fn size(&self) -> u64 {
        self.host.size()
    }

    fn faults(&self) -> u64 {
        self.host.faults()
    }

    fn read(&mut self, at: u64, out: &mut [u8]) -> Result<(), Failed> {
        note(&mut self.kinds, Kind::Read);
        self.host.read(at, out)
    }

    fn write(&mut self, at: u64, bytes: &[u8]) -> Result<(), Failed> {
        note(&mut self.kinds, Kind::Write);
        self.host.write(at, bytes)
    }

    fn sync(&mut self) -> Result<(), Failed> {
        note(&mut self.kinds, Kind::Sync);
        self.host.sync()
    }
}

impl Source for Watched {
    fn take(&mut self, out: &mut [u8]) -> Result<usize, Failed> {
        note(&mut self.kinds, Kind::Take);
        self.host.take(out)
    }
}

impl Sink for Watched {
    fn put(&mut self, bytes: &[u8]) -> Result<usize, Failed> {
        note(&mut self.kinds, Kind::Put);
        self.host.put(bytes)
    }
}

impl Host for Watched {}

/// What becomes of the calls of a run.
#[derive(Clone, Copy)]
pub(crate) struct Plan {
    pub(crate) pieces: u32,
    pub(crate) fails: Option<u64>,
    pub(crate) lies: Option<u64>,
    pub(crate) stops: Option<u64>,
}

impl Plan {
    /// All calls work.
    pub(crate) fn whole(pieces: u32) -> Plan {
        Plan {
            pieces,
            fails: None,
            lies: None,
            stops: None,
        }
    }

    /// That call is the one that a loop is at.
    pub(crate) fn at(pieces: u32, mode: Mode, call: u64) -> Plan {
        let mut plan = Plan::whole(pieces);
        match mode {
            Mode::Fails => plan.fails = Some(call),
            Mode::Lies => plan.lies = Some(call),
            Mode::Stops => plan.stops = Some(call),
        }
        plan
    }
}

// The number, where there is one.
fn numbers_in(number: &Option<u64>) -> &[u64] {
    match number {
        Some(number) => std::slice::from_ref(number),
        None => &[],
    }
}

/// Runs a command line on a disk, and says how it ended.
pub(crate) fn run_on<P: Program>(
    program: &P,
    alloc: Global,
    asked: &Asked,
    disk: &[u8],
    plan: Plan,
) -> Result<(Status, Watched), AllocError> {
    let failing = numbers_in(&plan.fails);
    let lying = numbers_in(&plan.lies);
    let pieces = plan.pieces.max(1);
    let host = MemoryHost::make(
        alloc,
        disk,
        &asked.source,
        pieces,
        failing,
        lying,
        plan.stops,
    )?;
    let kinds = Vec::new(alloc);
    let mut watched = Watched { host, kinds };
    let status = program.on_host(alloc, &asked.words, &mut watched);
    Ok((status, watched))
}
