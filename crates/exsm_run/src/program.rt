//! What a program does with the words that it was started with.
ghost use Rattle.std.specs.Prelude.{◌≡◌, ◌⊎◌, List, ℕ};
ghost use Rattle.std.specs.Process.{exit_status};
ghost use Rattle.command_line.specs.Status.{code_of};
ghost use Rattle.command_words.specs.Wishes.{texts, IsOutside};
ghost use Rattle.exsm_run.specs.Program.{EndsAs, EndsUnread, RanOn};

use crate::status::Status;
use crate::system::{RunEnding, System};
use crate::top_call::run;
use command_line::{Explanation, StatusLine};
use command_words::{NamedFile, file_of};
use std::io::Eprint;
use std::process::ExitCode;

/// Runs the command line on the host over the file that it names. Words outside of the grammar are refused, but for want of memory.
pub fn run_words<S: System>(system: &S, words: &[String], file: Option<NamedFile<'_>>) -> RunEnding
    ensures usage { result.status ≡ Status.Usage → IsOutside (texts words.now) }
    ensures outside { IsOutside (texts words.now)
        → (result.status ≡ Status.Usage) ⊎ (result.status ≡ Status.Memory) }

    // The status is the one that `run` answered on the host that was opened over the file.
    ensures ran { RanOn S.Over.outside (S.opened system.now file.entry) S.told (texts words.now)
        result }
{
    match system.open(file) {
        Ok(mut host) => {
            let status = run(system.alloc(), words, &mut host);
            system.ending(&host, status)
        }
        Err(_) => RunEnding::OF_NO_MEMORY,
    }
}

// Where not all was done, says so on the standard error: why, and the status in the last line. What that gives is the program's exit status.
fn tell<E: Eprint>(
    output: &E,
    words: &[String],
    volume: Option<&str>,
    ending: RunEnding,
) -> ExitCode
    ensures { exit_status result ≡ code_of ending.status }
{
    let RunEnding { status, cause } = ending;
    if let Some(line) = StatusLine::of(status) {
        let _ = output.eprintln(Explanation {
            words,
            volume,
            status,
            cause,
        });
        let _ = output.eprintln(line);
    }
    status.exit_code()
}

// Does what the words ask for, and says so where it did not do all.
fn obey<S: System>(system: &S, words: &[String]) -> ExitCode
    ensures ends { EndsAs S.Over.outside (S.opened system.now) S.told (texts words.now)
        (exit_status result) }
{
    match file_of(system.alloc(), words) {
        Ok(file) => {
            let ending = run_words(system, words, file);
            tell(system, words, file.map(|file| file.path), ending)
        }
        Err(_) => tell(system, words, None, RunEnding::OF_NO_MEMORY),
    }
}

/// Does what the words of the command line ask for on the volume file that they name, the standard input and the standard output. Where it did not do
/// all, it says so on the standard error. The exit status is the code of the status that `run` answered on that file, or of want of memory; where the words
/// couldn't be read, it is that of wrong words or of want of memory.
pub fn run_program<S: System>(system: &S) -> ExitCode
    ensures exit { ((words : List (List ℕ)) × S.started system.now words
        × EndsAs S.Over.outside (S.opened system.now) S.told words (exit_status result))
        ⊎ EndsUnread (exit_status result) }
{
    match system.words() {
        Ok(words) => obey(system, &words),
        Err(cause) => {
            let ending = RunEnding {
                status: Status::of_unread_words(cause.kind()),
                cause: Some(cause),
            };
            tell(system, &[], None, ending)
        }
    }
}
