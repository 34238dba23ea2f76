//! A step on a line.
ghost use Rattle.std.specs.Prelude.{◌≡◌, ◌≢◌, ◌⊎◌, Err, IfErr, IfOk, IfSome, IsTrue, OnOk, []};
ghost use Rattle.disk_model.specs.Outside.{DiskOnly, Leaves, Rose};
ghost use Rattle.ex_base.specs.declared.faults.Seen.{Seen};
ghost use Rattle.ex_base.specs.declared.names.PageNo.{PageNo};
ghost use Rattle.script_lang.specs.Parsed.{reading_of};
ghost use Rattle.script_lang.specs.Reading.{Reading, Reads};
ghost use Rattle.script_replies.specs.ReplyText.{text_of};
ghost use Rattle.session_views.specs.View.{View, ShowsNow};
ghost use Rattle.session_views.specs.declared.stop.Stop.{Stop};
ghost use Rattle.table_model.specs.Requests.{is_request, request_of};
ghost use Rattle.volume_calls.specs.Lines.{Answered, MayLeave, WasDone, line_of, refusal_in};
ghost use Rattle.volume_calls.specs.declared.lines.Unanswered.TheVariants.{Stopped, Untold};

use disk_model::Host;
use engines::Engine;
use script_lang::parse;
use script_lines::LINE_MOST;
use script_replies::push_reply;
use session_views::Stop;
use std::alloc::Global;
use table_model::{Command, Refusal, Reply};

/// Why a line wasn't answered.
#[derive(Clone, Copy, Debug, PartialEq, Eq)]
pub enum Unanswered {
    /// The step on what it asks for stopped.
    Stopped(Stop),
    /// It was done, and there was no memory for the text of its reply.
    Untold,
}

// What a line says.
fn read_line(line: &[u8]) -> Result<Option<Command<'_>>, Refusal>
    ensures says { Reads (line_of line.now) (reading_of result) }
    ensures one { (reading : Reading) → Reads (line_of line.now) reading
        → reading ≡ reading_of result }
    ensures form { IfOk result
        (λ told. IfSome told (λ command. IsTrue (is_request (request_of command)))) }
{
    if line.len() > LINE_MOST {
        return Err(Refusal::LineLong);
    }
    parse(line)
}

// Leaves the text of a reply, and tells why where it is a refusal.
fn tell(text: &mut Vec<u8>, told: &Reply) -> Result<Option<Refusal>, Unanswered>
    requires { text.old.items ≡ [] }
    ensures text { OnOk result (text.new.items ≡ text_of told.now) }
    ensures why { IfOk result (λ why. why ≡ refusal_in told.now) }
    ensures memory { IfErr result (λ why. why ≡ Untold) }
{
    if push_reply(text, told).is_err() {
        return Err(Unanswered::Untold);
    }
    match told {
        Reply::No(why) => Ok(Some(*why)),
        _ => Ok(None),
    }
}

/// Steps on a line as a session does on one of a script, and leaves the text of its reply in `text`: none where the line says nothing.
pub fn step_line<E: Engine, H: Host>(
    session: &mut E,
    alloc: Global,
    host: &mut H,
    line: &[u8],
    text: &mut Vec<u8>,
) -> Result<Option<Refusal>, Unanswered>
    requires room { E.fits session.old (H.outside host.old).size }
    ensures room { E.fits session.new (H.outside host.new).size }
    ensures only { DiskOnly (H.outside host.old) (H.outside host.new) }
    ensures disk { result ≡ Err (Stopped Stop.Disk)
        → Rose (H.outside host.old).disk_faults (H.outside host.new).disk_faults }
    ensures told { result ≢ Err (Stopped Stop.Disk)
        → (H.outside host.new).disk_faults ≡ (H.outside host.old).disk_faults }
    ensures damaged { (page : PageNo) (want got : Seen)
        → result ≡ Err (Stopped (Stop.Damaged page want got)) → want ≢ got }

    // From a view that shows to a view that shows, by what the line says, and the text is that of the machine's reply.
    ensures answered { (before : View E) (reading : Reading) → before.session ≡ session.old
        → ShowsNow E.meaning (H.outside host.old) before → Reads (line_of line.now) reading
        → IfOk result (λ why. Answered E.meaning before reading why text.new.items session.new
        (H.outside host.new)) }

    // Where it shows, nothing but a fault of the disk or want of memory stops it.
    ensures sound { (before : View E) (stop : Stop) → before.session ≡ session.old
        → ShowsNow E.meaning (H.outside host.old) before
        → result ≡ Err (Stopped stop) → (stop ≡ Stop.Disk) ⊎ (stop ≡ Stop.Memory) }

    // Where only its text found no memory, it was done.
    ensures untold { (before : View E) (reading : Reading) → before.session ≡ session.old
        → ShowsNow E.meaning (H.outside host.old) before → Reads (line_of line.now) reading
        → result ≡ Err Untold → WasDone E.meaning before reading session.new
        (H.outside host.new) }

    // A crash at any moment leaves the committed table before it, or in a commit that one or the next.
    ensures any_moment { (before : View E) (reading : Reading) → before.session ≡ session.old
        → ShowsNow E.meaning (H.outside host.old) before → Reads (line_of line.now) reading
        → Leaves (H.outside host.old) (H.outside host.new) (MayLeave E.meaning before.machine
        reading) }

    // Only a session that isn't up says that it is down, and one that replied to a command is up.
    ensures was_down { result ≡ Err (Stopped Stop.Down) → E.up session.old → ⊥ }
    ensures stays_up { OnOk result (E.up session.old → E.up session.new) }
{
    text.clear();
    match read_line(line) {
        Ok(None) => Ok(None),
        Err(why) => tell(text, &Reply::No(why)),
        Ok(Some(command)) => match session.step(alloc, host, &command) {
            Ok(told) => tell(text, &told),
            Err(stop) => Err(Unanswered::Stopped(stop)),
        },
    }
}
