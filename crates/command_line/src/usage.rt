//! How the program is called.
ghost use Rattle.std.specs.Prelude.{◌≡◌, Some};
ghost use Rattle.command_line.specs.UsageText.{grammar_text, usage_text};

use command_words::CommandWord;
use std::fmt;

/// How a command is called, or the program where no command is named.
#[derive(Clone, Copy, Debug)]
pub struct Usage(pub Option<CommandWord>);

/// How a command is called, on a line of its own below another.
#[derive(Clone, Copy)]
struct Below(CommandWord);

impl fmt::Display for Below {
    ghost use Rattle.command_line.specs.UsageText.{next_text};

    ghost output = { λ below. Some (next_text below.0) };

    fn fmt<W: fmt::Write>(&self, f: &mut fmt::Formatter<W>) -> fmt::Result {
        let grammar = grammar_of(self.0);
        write!(f, "\n       exsm {grammar}")
    }
}

impl fmt::Display for Usage {
    ghost output = { λ usage. Some (usage_text usage.0) };

    fn fmt<W: fmt::Write>(&self, f: &mut fmt::Formatter<W>) -> fmt::Result {
        match self.0 {
            Some(command) => {
                let grammar = grammar_of(command);
                write!(f, "usage: exsm {grammar}")
            }
            None => {
                let format = grammar_of(CommandWord::Format);
                let run = Below(CommandWord::Run);
                let check = Below(CommandWord::Check);
                let generate = Below(CommandWord::Gen);
                let clients = Below(CommandWord::Clients);
                let dump = Below(CommandWord::Dump);
                let load = Below(CommandWord::Load);
                let pack = Below(CommandWord::Pack);
                write!(
                    f,
                    "usage: exsm {format}{run}{check}{generate}{clients}{dump}{load}{pack}"
                )
            }
        }
    }
}

const FORMAT: &str =
    "format VOLUME [--page-size 512|1024|2048|4096|8192] [--pages 1..4000000] [--segs 0..4000000] [--seg-len 1..16] [--fan 2..(page size - 20) / 24]
           by default --page-size 4096 --pages 4096 --segs 16384 --seg-len 1 and the largest fan";

const RUN: &str = "run VOLUME [--max-bytes N] < SCRIPT
           by default --max-bytes 1099511627776";

const CHECK: &str = "check VOLUME";

const GEN: &str = "gen VOLUME --seed N --count 1..1000000";

const CLIENTS: &str = "clients VOLUME [--max-bytes N] < SCHEDULE
           by default --max-bytes 1099511627776";

const DUMP: &str = "dump VOLUME > STREAM";

const LOAD: &str = "load VOLUME < STREAM";

const PACK: &str = "pack VOLUME";

/// How a command is called, behind the program's name.
fn grammar_of(command: CommandWord) -> &'static str
    ensures { result.now ≡ grammar_text command }
{
    match command {
        CommandWord::Format => FORMAT,
        CommandWord::Run => RUN,
        CommandWord::Check => CHECK,
        CommandWord::Gen => GEN,
        CommandWord::Clients => CLIENTS,
        CommandWord::Dump => DUMP,
        CommandWord::Load => LOAD,
        CommandWord::Pack => PACK,
    }
}
