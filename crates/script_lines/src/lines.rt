//! The lines of a script.

ghost use Rattle.std.specs.Prelude.{◌≡◌, ◌<◌, ◌≤◌, ◌+◌, [], List, ℕ, None, IfOk, IfSome, OnOk, OnErr};
ghost use Rattle.std.specs.Borrow.{sem};
ghost use Rattle.disk_model.specs.Outside.{Rose, SourceOnly};
ghost use Rattle.script_lines.specs.Remains.{between, Draws, IfTold, Moves};
ghost use Rattle.script_lines.specs.Taking.{IsCut, Takes};

use crate::shown::{Kind, LineFault, LineRef, Shown};
use crate::window::Window;
use disk_model::Source;
use std::alloc::{AllocError, Global};

/// The bytes of a buffer from one place up to another, as far as it has them.
fn part(buffer: &[u8], from: usize, to: usize) -> &[u8]
    requires { from ≤ to }
    ensures { result.now ≡ between buffer.now from to }
{
    let end = to.min(buffer.len());
    &buffer[from.min(end)..end]
}

/// A reader of the lines of a script. Its source is handed to each call.
///
/// A line ends at a line feed, and one carriage return before that is dropped. What stands after the last line feed is a line where it has at least
/// one byte, and keeps its carriage return. A line of more than 1,048,576 bytes before its line feed is skipped.
#[derive(Drop)]
pub struct Lines {
    window: Window,
    shown: Shown,
}

impl Lines {
    ghost use Rattle.script_lines.specs.Reader.{ahead, counted, to_take, current, line_lent, ReaderRests};

    /// A reader that has taken nothing yet. Of the script `max_bytes` bytes count; of the source it takes that many and one more at most. This takes
    /// all the memory that a reader ever needs.
    pub fn make(alloc: Global, max_bytes: u64) -> Result<Lines, AllocError>
        ensures ahead { IfOk result (λ lines. ahead lines ≡ []) }
        ensures counted { IfOk result (λ lines. counted lines ≡ max_bytes) }
        ensures to_take { IfOk result (λ lines. to_take lines ≡ max_bytes + 1) }
        ensures current { IfOk result (λ lines. current lines ≡ None) }
    {
        Ok(Lines {
            window: Window::make(alloc, max_bytes)?,
            shown: Shown::end(),
        })
    }

    /// Takes the next line, which `line` then shows. After an `Err` it shows none, and nothing more is to be taken.
    pub fn advance<S: Source>(&mut self, source: &mut S) -> Result<(), LineFault>
        ensures only { SourceOnly (S.outside source.old) (S.outside source.new) }
        ensures read { result ≡ Err LineFault.Read
            → Rose (S.outside source.old).read_faults (S.outside source.new).read_faults }
        ensures too_much { result ≡ Err LineFault.TooMuch
            → IfTold (ahead self.old) (S.outside source.old).left (IsCut (counted self.old)) }
        ensures not_cut { OnOk result (IfTold (ahead self.old) (S.outside source.old).left
            (λ script. ¬ IsCut (counted self.old) script)) }
        ensures takes { OnOk result (Moves (ahead self.old) (S.outside source.old).left
            (ahead self.new) (S.outside source.new).left
            (λ script rest. Takes (counted self.old) script (current self.new)
            (counted self.new) rest)) }
        ensures drawn { Draws (to_take self.old) (S.outside source.old).left (to_take self.new)
            (S.outside source.new).left }
        ensures none { OnErr result (current self.new ≡ None) }
        ensures fewer { OnOk result (IfSome (current self.new) (λ line. counted self.new
            < counted self.old)) }
    {
        self.shown = Shown::end();
        self.shown = self.window.next(source)?;
        Ok(())
    }

    /// The line that was taken last.
    pub fn line(&self) -> LineRef<'_>
        ensures { line_lent result ≡ current self.now }
    {
        match self.shown.kind {
            Kind::Whole => LineRef::Line(part(&self.window.buffer, self.shown.from, self.shown.to)),
            Kind::Long => LineRef::Long,
            Kind::End => LineRef::End,
        }
    }

    /// Takes the next line and lends it. After an `Err` nothing more is to be taken.
    pub fn next_line<S: Source>(&mut self, source: &mut S) -> Result<LineRef<'_>, LineFault>
        ensures* takes { sem 𝓛 (ReaderRests self.entry (λ new.
            IfOk result (λ line. Moves (ahead self.old) (S.outside source.old).left (ahead new)
            (S.outside source.new).left
            (λ script rest. Takes (counted self.old) script (line_lent line) (counted new) rest))
            × Draws (to_take self.old) (S.outside source.old).left (to_take new)
            (S.outside source.new).left)) }
        ensures only { SourceOnly (S.outside source.old) (S.outside source.new) }
        ensures read { result ≡ Err LineFault.Read
            → Rose (S.outside source.old).read_faults (S.outside source.new).read_faults }
        ensures too_much { result ≡ Err LineFault.TooMuch
            → IfTold (ahead self.old) (S.outside source.old).left (IsCut (counted self.old)) }
        ensures not_cut { OnOk result (IfTold (ahead self.old) (S.outside source.old).left
            (λ script. ¬ IsCut (counted self.old) script)) }
    {
        self.advance(source)?;
        Ok(self.line())
    }
}
