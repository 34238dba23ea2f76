//! A volume that is open over an image which its caller lends at each call.
ghost use Rattle.std.specs.Prelude.{◌≡◌, ℕ, List, [], Err, IfOk, IsOk, None, Ok, Some};
ghost use Rattle.lent_host.specs.Lent.{IsLent};
ghost use Rattle.session_views.specs.declared.stop.Stop.{Stop};
ghost use Rattle.table_model.specs.Requests.{request_of};
ghost use Rattle.table_model.specs.declared.reply.Refusal.{Refusal};
ghost use Rattle.table_model.specs.declared.reply.Reply.{Reply};
ghost use Rattle.table_model.specs.declared.reply.Reply.TheVariants.{No};
ghost use Rattle.volume_calls.specs.declared.volume.NotDone.TheVariants.{Misuse, Refused, Stopped, Untold};
ghost use Rattle.volume_calls.specs.Lines.{line_of};
ghost use Rattle.volume_calls.specs.declared.lines.Unanswered.TheVariants as unanswered;

use crate::forms::{is_formed, unformed};
use crate::lent::{line_lent, open_lent, step_lent};
use crate::lines::Unanswered;
use engines::Engine;
use lent_host::{Asked, FileBytes};
use session_views::{OpenFault, Stop};
use std::alloc::Global;
use table_model::{Command, Refusal, Reply};
use talks::Opener;

/// Why a call wasn't done.
#[derive(Clone, Copy, Debug, PartialEq, Eq)]
pub enum NotDone {
    /// The image isn't as long as the one that was opened.
    Misuse,
    /// The table refuses it: nothing changed.
    Refused(Refusal),
    /// The session stopped.
    Stopped(Stop),
    /// The line was done, and there was no memory for the text of its reply.
    Untold,
}

/// A volume that is open over an image which its caller lends at each call: its session, what its file held before the calls that are listed, those calls,
/// and the text that the last line was answered.
#[derive(Drop)]
pub struct LentVolume<E> {
    pub session: E,
    pub file: FileBytes,
    pub asked: Vec<Asked>,
    pub text: Vec<u8>,
    /// The bytes of the image.
    pub size: usize,
}

impl<E: Engine> LentVolume<E> {
    ghost use Rattle.session_views.specs.View.{ShowsNow, View};
    ghost use Rattle.volume_calls.specs.Volumes.{Called, IsLentTo, LineCalled, SameBeside, outside_at};

    /// Steps on a command that a caller made, where a line could ask for it: its names are of 1 to 32 bytes of `a-z`, `0-9` and `_`, what it gives are bytes
    /// and not a data word, and counts are within their limits. Another is refused, and nothing is done.
    pub fn step(
        &mut self,
        alloc: Global,
        image: &mut [u8],
        command: &Command<'_>,
    ) -> Result<Reply, NotDone>
        requires { IsLentTo E.fits self.old image.old }
        ensures called { Called E.meaning E.fits self.old self.new image.old image.new
            (request_of command.now) result }
        ensures beside { SameBeside self.old self.new }
    {
        if image.len() != self.size {
            return Err(NotDone::Misuse);
        }
        if !is_formed(command) {
            return Err(NotDone::Refused(unformed(command)));
        }
        turned(step_lent(
            &mut self.session,
            alloc,
            &self.file,
            image,
            &mut self.asked,
            command,
        ))
    }

    /// Steps on a line of a script. The text of its reply is left in `text`.
    pub fn step_line(&mut self, alloc: Global, image: &mut [u8], line: &[u8]) -> Result<(), NotDone>
        requires { IsLentTo E.fits self.old image.old }
        ensures called { LineCalled E.meaning E.fits self.old self.new image.new
            (line_of line.now) result }
    {
        if image.len() != self.size {
            return Err(NotDone::Misuse);
        }
        turned_line(line_lent(
            &mut self.session,
            alloc,
            &self.file,
            image,
            &mut self.asked,
            line,
            &mut self.text,
        ))
    }

    /// The listed calls were made on the file and settled: it holds the image, whatever happens to it.
    pub fn made(&mut self)
        ensures lent { (image : List ℕ) → IsLentTo E.fits self.old image
            → IsLentTo E.fits self.new image }
        ensures none { self.new.asked.items ≡ [] }
        ensures session { self.new.session ≡ self.old.session }
        ensures shows { (view : View E) → ShowsNow E.meaning (outside_at self.old) view
            → ShowsNow E.meaning (outside_at self.new) view }
        ensures beside { SameBeside self.old self.new }
    {
        self.file = FileBytes::after(&self.file, &self.asked);
        self.asked.clear();
    }
}

impl<E: Opener> LentVolume<E> {
    ghost use Rattle.lent_host.specs.Lent.{outside_of};
    ghost use Rattle.volume_calls.specs.Volumes.{IsLentTo, OpensVolume};

    /// Opens the volume on the image that the listed calls make of a file.
    pub fn open(
        alloc: Global,
        file: FileBytes,
        image: &mut [u8],
        mut asked: Vec<Asked>,
    ) -> Result<LentVolume<E>, OpenFault>
        requires { IsLent file.bytes asked.items image.old }
        ensures lent { IfOk result (λ volume. IsLentTo E.fits volume image.new) }
        ensures file { IfOk result (λ volume. volume.file.bytes ≡ file.bytes) }
        ensures opens { OpensVolume E.meaning E.fresh (outside_of file.bytes asked.items 0 0)
            result }
    {
        let size = image.len();
        match open_lent(alloc, &file, image, &mut asked) {
            Ok(session) => Ok(LentVolume {
                session,
                file,
                asked,
                text: Vec::new(alloc),
                size,
            }),
            Err(fault) => Err(fault),
        }
    }
}

// What came of a step: a refusal, told as a reply, is one of a call.
fn turned(told: Result<Reply, Stop>) -> Result<Reply, NotDone>
    ensures done { (reply : Reply) → result ≡ Ok reply → told ≡ Ok reply }
    ensures accepted { (why : Refusal) → result ≡ Ok (No why) → ⊥ }
    ensures refused { (why : Refusal) → result ≡ Err (Refused why) → told ≡ Ok (No why) }
    ensures stopped { (stop : Stop) → result ≡ Err (Stopped stop) → told ≡ Err stop }
    ensures untold { result ≡ Err Untold → ⊥ }
    ensures used { result ≡ Err Misuse → ⊥ }
{
    match told {
        Ok(Reply::No(why)) => Err(NotDone::Refused(why)),
        Ok(reply) => Ok(reply),
        Err(stop) => Err(NotDone::Stopped(stop)),
    }
}

// The same of a line.
fn turned_line(told: Result<Option<Refusal>, Unanswered>) -> Result<(), NotDone>
    ensures done { IsOk result → told ≡ Ok None }
    ensures refused { (why : Refusal) → result ≡ Err (Refused why) → told ≡ Ok (Some why) }
    ensures stopped { (stop : Stop) → result ≡ Err (Stopped stop) → told ≡ Err (unanswered.Stopped stop) }
    ensures untold { result ≡ Err Untold → told ≡ Err unanswered.Untold }
    ensures used { result ≡ Err Misuse → ⊥ }
{
    match told {
        Ok(None) => Ok(()),
        Ok(Some(why)) => Err(NotDone::Refused(why)),
        Err(Unanswered::Stopped(stop)) => Err(NotDone::Stopped(stop)),
        Err(Unanswered::Untold) => Err(NotDone::Untold),
    }
}
