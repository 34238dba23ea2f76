//! A disk, a source and a sink in memory. It keeps all its calls, so it answers for every moment.
ghost use Rattle.std.specs.Prelude.{◌≡◌, ◌≢◌, ◌≤◌, ◌<◌, ◌+◌, ◌++◌, [], ◌∷◌, length, take, false, Some, None, All, Contains, IsTrue, ◌↔◌, IfOk, OnOk, if◌then◌else◌};
ghost use Rattle.disk_model.specs.Outside.{Rose, RestsOn, HasNoFaults};
ghost use Rattle.memory_host.specs.declared.host.Call.TheVariants.{Put};
ghost use Rattle.ex_base.specs.Bytes.{IsBytes, repl};
ghost use Rattle.memory_host.specs.Replay.{State, after_call, end_of, fresh, replayed};

mod calls;
mod images;

use std::alloc::{AllocError, Global};

/// What a call did.
#[derive(Drop)]
pub enum Call {
    /// A write, which changed the disk where it is `done`.
    Write {
        at: usize,
        bytes: Vec<u8>,
        done: bool,
    },
    /// A sync that was done.
    Sync,
    /// A put that sent these bytes.
    Put {
        bytes: Vec<u8>,
    },
    /// Any other call.
    Other,
}

/// What a crash leaves of each range that was written since the last sync.
#[derive(Clone, Copy, Debug, PartialEq, Eq)]
pub enum Choice {
    /// What stood there before.
    Before,
    /// What was written.
    After,
    /// This byte, throughout.
    Fill(u8),
}

/// A host in memory, whose calls may be made to fail or to lie. Its calls, but those of `size`, are numbered from 1. One that finds no memory
/// to be noted fails and has no number.
#[derive(Drop)]
pub struct MemoryHost {
    alloc: Global,
    start: Vec<u8>,
    disk: Vec<u8>,
    script: Vec<u8>,
    taken: usize,
    sent: Vec<u8>,
    piece: u32,
    failing: Vec<u64>,
    lying: Vec<u64>,
    stop: Option<u64>,
    calls: Vec<Call>,
    disk_faults: u64,
    read_faults: u64,
    write_faults: u64,
    ghost disk_is: { disk.items ≡ (replayed start.items calls.items).disk },
    ghost sent_is: { sent.items ≡ (replayed start.items calls.items).sent },
    ghost same_size: { length disk.items ≡ length start.items },
    ghost of_bytes: { IsBytes disk.items },
    ghost inside: { All (λ call. end_of call ≤ length start.items) calls.items },
    ghost within: { taken ≤ length script.items },
    ghost some: { 1 ≤ piece },
}

impl MemoryHost {
    ghost use Rattle.memory_host.specs.Host.{means, calls_of, plan_of, state_of, state_at, left_of, FailsNext};
    ghost use Rattle.memory_host.specs.Plan.{IsLying};

    /// A host over this image and this script. A take or put moves at most `piece` bytes. The calls in `failing` fail, and so does each after
    /// `stop`. A read in `lying` gives zero bytes, and a host with lies tells nothing of its disk. It starts with no call and no fault.
    pub fn make(
        alloc: Global,
        image: &[u8],
        script: &[u8],
        piece: u32,
        failing: &[u64],
        lying: &[u64],
        stop: Option<u64>,
    ) -> Result<MemoryHost, AllocError>
        requires { 1 ≤ piece }
        ensures disk { IfOk result (λ host. lying.now ≡ [] → RestsOn (means host) image.now) }
        ensures lies { IfOk result (λ host. lying.now ≢ [] → ((means host).disk ≡ None)
            × ((means host).honest ≡ false)) }
        ensures left { IfOk result (λ host. left_of host ≡ script.now) }
        ensures state { IfOk result (λ host. state_of host ≡ fresh image.now) }
        ensures calls { IfOk result (λ host. calls_of host ≡ 0) }
        ensures faults { IfOk result (λ host. HasNoFaults (means host)) }
        ensures plan { IfOk result (λ host. plan_of host
            ≡ record { failing = failing.now; lying = lying.now; stop = stop; piece = piece }) }
    {
        Ok(MemoryHost {
            alloc,
            start: image.to_vec(alloc)?,
            disk: image.to_vec(alloc)?,
            script: script.to_vec(alloc)?,
            taken: 0,
            sent: Vec::new(alloc),
            piece,
            failing: failing.to_vec(alloc)?,
            lying: lying.to_vec(alloc)?,
            stop,
            calls: Vec::new(alloc),
            disk_faults: 0,
            read_faults: 0,
            write_faults: 0,
        })
    }

    /// How many calls were made, but those of `size`.
    pub fn calls(&self) -> u64
        ensures { result ≡ calls_of self.now }
    {
        self.calls.len() as u64
    }

    /// What was sent.
    pub fn sent_bytes(&self) -> &[u8]
        ensures { result.now ≡ (state_of self.now).sent }
    {
        &self.sent
    }

    /// What had been sent after that call, and nothing after the call 0.
    pub fn sent_at(&self, moment: u64) -> Result<Vec<u8>, AllocError>
        requires { moment ≤ calls_of self.now }
        ensures { IfOk result (λ sent. sent.items ≡ (state_at self.now moment).sent) }
    {
        let mut sent = Vec::new(self.alloc);
        for call in &self.calls[..moment as usize] {
            add_sent(&mut sent, call)?;
        }
        Ok(sent)
    }

    // The number of the next call.
    fn next(&self) -> u64
        ensures { result ≡ calls_of self.now + 1 }
    {
        self.calls.len() as u64 + 1
    }

    // The next call is one of those that fail.
    fn fails(&self) -> bool
        ensures { IsTrue result ↔ FailsNext self.now }
    {
        has_number(&self.failing, self.next()) || self.stop.is_some_and(|last| last < self.next())
    }

    // The next call is one of those that lie.
    fn lies(&self) -> bool
        ensures { IsTrue result ↔ IsLying (plan_of self.now) (calls_of self.now + 1) }
    {
        has_number(&self.lying, self.next())
    }
}

fn has_number(numbers: &[u64], number: u64) -> bool
    ensures { IsTrue result ↔ Contains numbers.now number }
{
    numbers.contains(&number)
}

// Notes a call, and says whether there was memory for it.
fn note(calls: &mut Vec<Call>, call: Call) -> bool
    ensures { calls.new.items ≡ (if result then calls.old.items ++ call ∷ [] else calls.old.items) }
{
    calls.push(call).is_ok()
}

// Adds what a call sent.
fn add_sent(sent: &mut Vec<u8>, call: &Call) -> Result<(), AllocError>
    ensures { OnOk result ((m : State) → m.sent ≡ sent.old.items
        → (after_call m call.now).sent ≡ sent.new.items) }
{
    match call {
        Call::Put { bytes } => Ok(sent.extend_from_slice(bytes)?),
        Call::Write { .. } | Call::Sync | Call::Other => Ok(()),
    }
}

// Adds these bytes to what was sent, and notes the call, or does neither.
fn send(calls: &mut Vec<Call>, sent: &mut Vec<u8>, alloc: Global, bytes: &[u8]) -> bool
    ensures done { IsTrue result → (copy : _) × (copy.items ≡ bytes.now)
        × (calls.new.items ≡ calls.old.items ++ Put copy ∷ [])
        × (sent.new.items ≡ sent.old.items ++ bytes.now) }
    ensures calls { result ≡ false → calls.new.items ≡ calls.old.items }
    ensures sent { result ≡ false → sent.new.items ≡ sent.old.items }
{
    let Ok(copy) = bytes.to_vec(alloc) else {
        return false;
    };
    let before = sent.len();
    if sent.extend_from_slice(bytes).is_err() {
        return false;
    }
    if !note(calls, Call::Put { bytes: copy }) {
        sent.truncate(before);
        return false;
    }
    true
}

fn write_over(disk: &mut [u8], at: usize, bytes: &[u8])
    requires { at + length bytes.now ≤ length disk.old }
    ensures { disk.new ≡ repl disk.old at bytes.now }
{
    disk[at..at + bytes.len()].copy_from_slice(bytes);
}

fn count(faults: &mut u64)
    ensures rose { Rose faults.old faults.new }
    ensures later { faults.old ≤ faults.new }
{
    *faults = faults.saturating_add(1);
}
