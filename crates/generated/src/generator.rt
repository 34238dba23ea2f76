//! The generator of the script.
ghost use Rattle.std.specs.Prelude.{◌≡◌, ◌<◌, ◌≤◌, ◌*◌, ◌^◌, ℕ, slice_index_or};
ghost use Rattle.generated.specs.Coming.{IsAtCommand};

use crate::draws::Draws;
use crate::line::{put_command, put_line};
use crate::stage::{LineNo, Stage};
use crate::turn::{OBJECTS, Turn};
use std::alloc::{AllocError, Global};

/// The lines of the generated script, one after the other: it holds the place that it came to and the line of that place, and no other one.
#[derive(Drop)]
pub struct Generator {
    draws: Draws,
    /// The bytes that each of the four objects has, where every line is accepted.
    sizes: [u64; OBJECTS],
    stage: Stage,
    /// The number of the next command, and of how many in all.
    index: u32,
    count: u32,
    line: Vec<u8>,
    ghost within: { index ≤ count },
    ghost room: { IsAtCommand stage → index < count },
    ghost small: { (k : ℕ) → slice_index_or sizes k 0 ≤ 3000 * index },
    ghost few: { count < 2 ^ 32 },
}

impl Generator {
    ghost use Rattle.std.specs.Prelude.{◌∷◌, [], OnOk, OnErr, true, false};
    ghost use Rattle.generated.specs.Lines.{line_taken, to_come};
    ghost use Rattle.generated.specs.Script.{generated};

    /// The lines of the script of that seed with so many commands.
    pub fn make(alloc: Global, seed: u64, count: u32) -> Generator
        ensures { to_come result ≡ generated seed count }
    {
        Generator {
            draws: Draws::seeded(seed),
            sizes: [0; OBJECTS],
            stage: Stage::Head(LineNo::first()),
            index: 0,
            count,
            line: Vec::new(alloc),
        }
    }

    // Makes the line of the next command.
    fn command(&mut self) -> Result<(), AllocError>
        requires { self.old.stage ≡ Stage.Command }
        ensures taken { OnOk result (to_come self.old ≡ line_taken self.new ∷ to_come self.new) }
        ensures kept { OnErr result (to_come self.new ≡ to_come self.old) }
    {
        let turn = Turn::of(self.draws, &self.sizes);
        put_command(&mut self.line, self.index, &turn)?;
        self.draws = turn.draws;
        self.sizes[turn.object] = turn.size;
        self.index += 1;
        self.stage = Stage::before(self.index, self.count);
        Ok(())
    }

    /// Makes the next line, which `line` then gives, and says whether there is one.
    pub fn advance(&mut self) -> Result<bool, AllocError>
        ensures taken { result ≡ Ok true → to_come self.old ≡ line_taken self.new ∷ to_come self.new }
        ensures over { result ≡ Ok false → to_come self.old ≡ [] }
        ensures still_over { result ≡ Ok false → to_come self.new ≡ [] }
        ensures kept { OnErr result (to_come self.new ≡ to_come self.old) }
    {
        match self.stage {
            Stage::Head(no) => {
                put_line(&mut self.line, no.head_line())?;
                self.stage = match no.next() {
                    Some(next) => Stage::Head(next),
                    None => Stage::before(self.index, self.count),
                };
                Ok(true)
            }
            Stage::Commit => {
                put_line(&mut self.line, b"commit")?;
                self.stage = Stage::Begin;
                Ok(true)
            }
            Stage::Begin => {
                put_line(&mut self.line, b"begin")?;
                self.stage = Stage::Command;
                Ok(true)
            }
            Stage::Command => {
                self.command()?;
                Ok(true)
            }
            Stage::Tail(no) => {
                put_line(&mut self.line, no.tail_line())?;
                self.stage = match no.next() {
                    Some(next) => Stage::Tail(next),
                    None => Stage::Over,
                };
                Ok(true)
            }
            Stage::Over => Ok(false),
        }
    }

    /// The line that was made last.
    pub fn line(&self) -> &[u8]
        ensures { result.now ≡ line_taken self.now }
    {
        &self.line
    }
}
