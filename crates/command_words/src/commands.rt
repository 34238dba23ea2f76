//! The commands and their options.
ghost use Rattle.std.specs.Prelude.{◌≡◌, map, MatchOption};
ghost use Rattle.command_words.specs.Commands.{text_of, option_names};

/// A command: what the first word of a command line names.
#[derive(Clone, Copy, Debug, PartialEq, Eq)]
pub enum CommandWord {
    /// Makes a volume.
    Format,
    /// Steps the lines of a script on a volume.
    Run,
    /// Opens a volume and counts what it holds.
    Check,
    /// Steps generated lines on a volume.
    Gen,
    /// Steps the lines of several clients on a volume, by a schedule.
    Clients,
    /// Opens a volume and writes its whole history as a stream.
    Dump,
    /// Opens a volume that is empty and reads a stream of a history into it.
    Load,
    /// Opens a volume and moves its trees to the lowest units of the segment area.
    Pack,
}

impl CommandWord {
    /// The command that a word names, or none.
    pub fn named(word: &str) -> Option<CommandWord>
        ensures { MatchOption result ((c : CommandWord) → text_of c ≡ word.now → ⊥)
            (λ c. text_of c ≡ word.now) }
    {
        match word {
            "format" => Some(CommandWord::Format),
            "run" => Some(CommandWord::Run),
            "check" => Some(CommandWord::Check),
            "gen" => Some(CommandWord::Gen),
            "clients" => Some(CommandWord::Clients),
            "dump" => Some(CommandWord::Dump),
            "load" => Some(CommandWord::Load),
            "pack" => Some(CommandWord::Pack),
            _ => None,
        }
    }

    /// The word that names it.
    pub fn as_str(&self) -> &'static str
        ensures { result.now ≡ text_of self.now }
    {
        match self {
            CommandWord::Format => "format",
            CommandWord::Run => "run",
            CommandWord::Check => "check",
            CommandWord::Gen => "gen",
            CommandWord::Clients => "clients",
            CommandWord::Dump => "dump",
            CommandWord::Load => "load",
            CommandWord::Pack => "pack",
        }
    }

    /// The names of its options, without the dashes.
    pub fn options<'a>(&self) -> &'a [&'a str]
        ensures { map (λ name. name.now) result.now ≡ option_names self.now }
    {
        match self {
            CommandWord::Format => &["page-size", "pages", "segs", "seg-len", "fan"],
            CommandWord::Run | CommandWord::Clients => &["max-bytes"],
            CommandWord::Check | CommandWord::Dump | CommandWord::Load | CommandWord::Pack => &[],
            CommandWord::Gen => &["seed", "count"],
        }
    }
}
