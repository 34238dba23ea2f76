//! The images that a crash may leave on the disk of a host in memory.
ghost use Rattle.std.specs.Prelude.{◌≡◌, ◌≢◌, ◌↔◌, IsTrue, ◌≤◌, ◌<◌, ℕ, [], All, IfOk, length, take, drop, fold, replicate, count_by, ◌+◌};
ghost use Rattle.ex_base.specs.Bytes.{IsBytes, repl};
ghost use Rattle.memory_host.specs.Replay.{State, IsImage, IsSettled, after_call, end_of, image_of, image_by, is_write, laid_call, replayed};
ghost use Rattle.memory_host.specs.Host.{means, calls_of, state_at};
ghost use Rattle.memory_host.specs.declared.host.Call.{Call};
ghost use Rattle.memory_host.specs.declared.host.Call.TheVariants.{Sync};

use super::{Call, Choice, MemoryHost, write_over};
use std::alloc::AllocError;

impl MemoryHost {
    /// An image that a crash right after that call may leave, or before all calls at 0: outside of the ranges that were written since the
    /// last sync it is what the disk held, and each of these ranges is as `choice` says.
    pub fn image_at(&self, moment: u64, choice: Choice) -> Result<Vec<u8>, AllocError>
        requires { moment ≤ calls_of self.now }
        ensures chosen { IfOk result (λ image. image.items
            ≡ image_of choice (state_at self.now moment)) }
        ensures left { IfOk result (λ image. IsImage (state_at self.now moment) image.items) }
        ensures moment { IfOk result (λ image. (t : ℕ) → t ≤ moment
            → (means self.now).moments t (state_at self.now moment).sent image.items) }
    {
        let mut image = self.start.to_vec(self.alloc)?;
        lay_image(&mut image, &self.calls[..moment as usize], choice);
        Ok(image)
    }

    /// How many ranges are pending right after that call, or before all calls at 0: a crash then may leave any bytes in each.
    pub fn pending(&self, moment: u64) -> u64
        requires { moment ≤ calls_of self.now }
        ensures { result ≡ length (state_at self.now moment).pending }
    {
        let calls = &self.calls[..moment as usize];
        written_ranges(&calls[settled_calls(calls)..]) as u64
    }

    /// An image that a crash right after that call may leave, with a choice for each pending range, in the order in which they were written. Each
    /// is laid over those before it.
    pub fn image_with(&self, moment: u64, choices: &[Choice]) -> Result<Vec<u8>, AllocError>
        requires moment { moment ≤ calls_of self.now }
        requires choices { length choices.now ≡ length (state_at self.now moment).pending }
        ensures chosen { IfOk result (λ image. image.items
            ≡ image_by choices.now (state_at self.now moment)) }
        ensures left { IfOk result (λ image. IsImage (state_at self.now moment) image.items) }
        ensures moment { IfOk result (λ image. (t : ℕ) → t ≤ moment
            → (means self.now).moments t (state_at self.now moment).sent image.items) }
    {
        let mut image = self.start.to_vec(self.alloc)?;
        lay_choices(&mut image, &self.calls[..moment as usize], choices);
        Ok(image)
    }
}

impl Call {
    fn is_sync(&self) -> bool
        ensures { IsTrue result ↔ (self.now ≡ Sync) }
    {
        matches!(self, Call::Sync)
    }

    fn is_write(&self) -> bool
        ensures { result ≡ is_write self.now }
    {
        matches!(self, Call::Write { .. })
    }
}

// How many calls there are up to the last sync that was done.
fn settled_calls(calls: &[Call]) -> usize
    ensures within { result ≤ length calls.now }
    ensures settled { (m : State) → m.pending ≡ [] → m.settled ≡ m.disk
        → IsSettled (fold after_call m (take result calls.now)) }
    ensures pending { All (λ call. call ≢ Sync) (drop result calls.now) }
{
    let mut count = calls.len();
    while count > 0 && !calls[count - 1].is_sync() {
        count -= 1;
    }
    count
}

// Does again what these calls did to the disk.
fn replay(disk: &mut [u8], calls: &[Call])
    requires { All (λ call. end_of call ≤ length disk.old) calls.now }
    ensures { (m : State) → m.disk ≡ disk.old → disk.new ≡ (fold after_call m calls.now).disk }
{
    for call in calls {
        if let Call::Write {
            at,
            bytes,
            done: true,
        } = call
        {
            write_over(disk, *at, bytes);
        }
    }
}

// Lays what these calls wrote over the disk, as `choice` says.
fn lay_pending(image: &mut [u8], calls: &[Call], choice: Choice)
    requires inside { All (λ call. end_of call ≤ length image.old) calls.now }
    requires pending { All (λ call. call ≢ Sync) calls.now }
    ensures { (m : State) → image_of choice m ≡ image.old
        → image.new ≡ image_of choice (fold after_call m calls.now) }
{
    for call in calls {
        lay_call(image, call, choice);
    }
}

// Lays what these calls wrote over the disk, each range as its own choice says.
fn lay_each(image: &mut [u8], calls: &[Call], choices: &[Choice])
    requires inside { All (λ call. end_of call ≤ length image.old) calls.now }
    requires pending { All (λ call. call ≢ Sync) calls.now }
    requires choices { length choices.now ≡ count_by is_write calls.now }
    ensures { (m : State) → IsSettled m → m.disk ≡ image.old
        → image.new ≡ image_by choices.now (fold after_call m calls.now) }
{
    let mut at = 0;
    for call in calls {
        if call.is_write() {
            lay_call(image, call, choices[at]);
            at += 1;
        }
    }
}

fn lay_call(image: &mut [u8], call: &Call, choice: Choice)
    requires { end_of call.now ≤ length image.old }
    ensures { image.new ≡ laid_call choice call.now image.old }
{
    if let Call::Write { at, bytes, .. } = call {
        match choice {
            Choice::Before => {}
            Choice::After => write_over(image, *at, bytes),
            Choice::Fill(byte) => fill_over(image, *at, bytes.len(), byte),
        }
    }
}

// How many ranges these calls left pending.
fn written_ranges(calls: &[Call]) -> usize
    requires { All (λ call. call ≢ Sync) calls.now }
    ensures { (m : State) → m.pending ≡ [] → result ≡ length (fold after_call m calls.now).pending }
{
    let mut count = 0;
    for call in calls {
        if call.is_write() {
            count += 1;
        }
    }
    count
}

fn fill_over(disk: &mut [u8], at: usize, count: usize, byte: u8)
    requires { at + count ≤ length disk.old }
    ensures { disk.new ≡ repl disk.old at (replicate count byte) }
{
    disk[at..at + count].fill(byte);
}

// Makes of the first disk the image that a crash after these calls leaves.
fn lay_image(image: &mut [u8], calls: &[Call], choice: Choice)
    requires { All (λ call. end_of call ≤ length image.old) calls.now }
    ensures chosen { image.new ≡ image_of choice (replayed image.old calls.now) }
    ensures bytes { IsBytes image.new }
{
    let settled = settled_calls(calls);
    replay(image, &calls[..settled]);
    lay_pending(image, &calls[settled..], choice);
}

// The same with a choice for each pending range.
fn lay_choices(image: &mut [u8], calls: &[Call], choices: &[Choice])
    requires inside { All (λ call. end_of call ≤ length image.old) calls.now }
    requires choices { length choices.now ≡ length (replayed image.old calls.now).pending }
    ensures chosen { image.new ≡ image_by choices.now (replayed image.old calls.now) }
    ensures bytes { IsBytes image.new }
{
    let settled = settled_calls(calls);
    replay(image, &calls[..settled]);
    lay_each(image, &calls[settled..], choices);
}
