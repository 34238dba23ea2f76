//! A buffer that takes a script from its source in large pieces.

ghost use Rattle.std.specs.Prelude.{◌≡◌, ◌≤◌, ◌<◌, ◌+◌, ◌-◌, ◌++◌, [], List, ℕ, Some, None, true, false, take, drop, length, vec_capacity, vec_len, IfOk, IfErr, IfSome, OnOk, OnErr, MatchOption, slice_index};
ghost use Rattle.disk_model.specs.Outside.{Rose, SourceOnly};
ghost use Rattle.script_lines.specs.Lines.{line_feed, without_return};
ghost use Rattle.script_lines.specs.Remains.{ClearTo, Draws, SameScript, AllHere, IsFront, IfTold, Moves};
ghost use Rattle.script_lines.specs.Taking.{Takes};
ghost use Rattle.script_lines.specs.Passing.{Finds, IsClear, Passes};

use crate::shown::{LineFault, Shown};
use disk_model::Source;
use memchr::memchr;
use std::alloc::{AllocError, Global};

/// The longest line, without its line feed.
pub const LINE_MOST: usize = 1_048_576;

/// How many bytes are asked of a source at once.
const PIECE: usize = 65_536;

/// How many bytes the buffer may have: a longest line and a piece behind it. It has only those that were needed so far.
const ROOM: usize = 1_114_112;

/// Takes at most `more` bytes to the place `at`.
fn take_at<S: Source>(
    source: &mut S,
    buffer: &mut Vec<u8>,
    at: usize,
    more: usize,
) -> Result<usize, LineFault>
    requires inside { at + more ≤ vec_len buffer.old }
    requires some { 0 < more }
    ensures only { SourceOnly (S.outside source.old) (S.outside source.new) }
    ensures cause { OnErr result (Rose (S.outside source.old).read_faults
        (S.outside source.new).read_faults) }
    ensures fault { IfErr result (λ e. e ≡ LineFault.Read) }
    ensures count { IfOk result (λ n. n ≤ more) }
    ensures len { vec_len buffer.new ≡ vec_len buffer.old }
    ensures room { vec_capacity buffer.new ≡ vec_capacity buffer.old }
    ensures front { take at buffer.new.items ≡ take at buffer.old.items }
    ensures bytes { IfOk result (λ n. (was : List ℕ) → (S.outside source.old).left ≡ Some was
        → (n ≤ length was) × (take n (drop at buffer.new.items) ≡ take n was)
        × ((S.outside source.new).left ≡ Some (drop n was))) }
    ensures end { IfOk result (λ n. n ≡ 0 → (was : List ℕ) → (S.outside source.old).left ≡ Some was
        → was ≡ []) }
    ensures failed { OnErr result ((S.outside source.new).left ≡ (S.outside source.old).left) }
{
    match source.take(&mut buffer[at..at + more]) {
        Ok(n) => Ok(n),
        Err(_) => Err(LineFault::Read),
    }
}

/// Moves what stands from `start` to `end` to the front.
fn shift(buffer: &mut [u8], start: usize, end: usize)
    requires ordered { start ≤ end }
    requires inside { end ≤ length buffer.old }
    ensures { take (end - start) buffer.new ≡ take (end - start) (drop start buffer.old) }
{
    buffer.copy_within(start..end, 0);
}

/// The first line feed.
fn feed_in(bytes: &[u8]) -> Option<usize>
    ensures { MatchOption result (ClearTo bytes.now (length bytes.now)) (λ k. (k < length bytes.now)
        × ClearTo bytes.now k × (line_feed (slice_index bytes.now k) ≡ true)) }
{
    memchr(b'\n', bytes)
}

/// How many bytes are left without a carriage return at the end.
fn trimmed(bytes: &[u8]) -> usize
    ensures value { take result bytes.now ≡ without_return bytes.now }
    ensures most { result ≤ length bytes.now }
{
    let Some(last) = bytes.last() else {
        return 0;
    };
    if *last == b'\r' {
        bytes.len() - 1
    } else {
        bytes.len()
    }
}

/// What ends the gathering of a line.
#[derive(Clone, Copy)]
pub(crate) enum Found {
    /// A line feed, at this place.
    Feed(usize),
    /// More bytes than count.
    TooMuch,
    /// More bytes than a line has.
    Full,
}

/// What ends the gathering, where the first `clear` bytes have no line feed.
fn look(bytes: &[u8], clear: usize, allowed: u64) -> Option<Found>
    requires searched { ClearTo bytes.now clear }
    requires inside { clear ≤ length bytes.now }
    requires within { clear ≤ allowed }
    ensures { MatchOption result (ClearTo bytes.now (length bytes.now)
        × (length bytes.now ≤ allowed) × (length bytes.now ≤ 1048576)) (Finds bytes.now allowed) }
{
    let counted = bytes.len().min(allowed as usize);
    if let Some(k) = feed_in(&bytes[clear..counted]) {
        return Some(Found::Feed(clear + k));
    }
    if bytes.len() > counted {
        return Some(Found::TooMuch);
    }
    if bytes.len() > LINE_MOST {
        return Some(Found::Full);
    }
    None
}

/// The bytes of a script that stand in no line yet, from `start` up to `end`. Of those and the ones to come `allowed` count.
#[derive(Drop)]
pub(crate) struct Window {
    pub(crate) buffer: Vec<u8>,
    start: usize,
    end: usize,
    allowed: u64,
    ghost room: { 1114112 ≤ vec_capacity buffer },
    ghost most: { vec_len buffer ≤ 1114112 },
    ghost ordered: { start ≤ end },
    ghost inside: { end ≤ vec_len buffer },
    ghost bounded: { end ≤ start + allowed + 1 },
}

impl Window {
    ghost use Rattle.script_lines.specs.Windows.{held, may_take, shown_in};

    /// Nothing is taken yet.
    pub(crate) fn make(alloc: Global, allowed: u64) -> Result<Window, AllocError>
        ensures held { IfOk result (λ w. held w ≡ []) }
        ensures allowed { IfOk result (λ w. w.allowed ≡ allowed) }
        ensures may { IfOk result (λ w. may_take w ≡ allowed + 1) }
    {
        Ok(Window {
            buffer: Vec::with_capacity(alloc, ROOM)?,
            start: 0,
            end: 0,
            allowed,
        })
    }

    /// Moves what is buffered to the front.
    fn move_front(&mut self)
        ensures bytes { held self.new ≡ held self.old }
        ensures start { self.new.start ≡ 0 }
        ensures end { self.new.end ≡ self.old.end - self.old.start }
        ensures allowed { self.new.allowed ≡ self.old.allowed }
    {
        let start = self.start;
        let end = self.end;
        shift(&mut self.buffer, start, end);
        self.start = 0;
        self.end = end - start;
    }

    /// Gives the buffer a piece behind what is buffered, of the memory that it has.
    fn lengthen(&mut self)
        requires { self.old.end + 65536 ≤ 1114112 }
        ensures bytes { held self.new ≡ held self.old }
        ensures room { self.new.end + 65536 ≤ vec_len self.new.buffer }
        ensures start { self.new.start ≡ self.old.start }
        ensures end { self.new.end ≡ self.old.end }
        ensures allowed { self.new.allowed ≡ self.old.allowed }
    {
        let len = self.end + PIECE;
        if self.buffer.len() < len && self.buffer.resize(len, 0).is_err() {
            unreachable!();
        }
    }

    /// Leaves room for a piece behind what is buffered.
    fn make_room(&mut self)
        requires { self.old.end ≤ self.old.start + 1048576 }
        ensures bytes { held self.new ≡ held self.old }
        ensures room { self.new.end + 65536 ≤ vec_len self.new.buffer }
        ensures len { self.new.end - self.new.start ≡ self.old.end - self.old.start }
        ensures allowed { self.new.allowed ≡ self.old.allowed }
    {
        if ROOM - self.end < PIECE {
            self.move_front();
        }
        self.lengthen();
    }

    /// Buffers more of the source, and says whether anything came.
    fn fill<S: Source>(&mut self, source: &mut S) -> Result<bool, LineFault>
        requires short { self.old.end ≤ self.old.start + 1048576 }
        requires within { self.old.end ≤ self.old.start + self.old.allowed }
        ensures only { SourceOnly (S.outside source.old) (S.outside source.new) }
        ensures cause { OnErr result (Rose (S.outside source.old).read_faults
            (S.outside source.new).read_faults) }
        ensures fault { IfErr result (λ e. e ≡ LineFault.Read) }
        ensures allowed { self.new.allowed ≡ self.old.allowed }
        ensures more { IfOk result (λ came. came ≡ true
            → self.old.end - self.old.start < self.new.end - self.new.start) }
        ensures len { OnOk result (self.old.end - self.old.start ≤ self.new.end - self.new.start) }
        ensures script { OnOk result (SameScript (held self.old) (S.outside source.old).left
            (held self.new) (S.outside source.new).left) }
        ensures front { OnOk result (IsFront (held self.old) (held self.new)) }
        ensures same { IfOk result (λ came. came ≡ false → held self.new ≡ held self.old) }
        ensures none { IfOk result (λ came. came ≡ false
            → AllHere (held self.old) (S.outside source.old).left (held self.new)) }
        ensures drawn { Draws (may_take self.old) (S.outside source.old).left (may_take self.new)
            (S.outside source.new).left }
    {
        self.make_room();
        let end = self.end;
        let left = self.allowed - (end - self.start) as u64;
        let more = left.min(PIECE as u64 - 1) as usize + 1;
        let n = take_at(source, &mut self.buffer, end, more)?;
        self.end = end + n;
        Ok(n > 0)
    }

    #[tactic(auto, using(crate::proofs::Buffers::draws_trans, crate::proofs::Buffers::all_here_after, crate::proofs::Buffers::same_script_trans))]
    /// Buffers the source up to a line feed, more bytes than count, or more than a line has. None is the end of the source.
    fn gather<S: Source>(&mut self, source: &mut S) -> Result<Option<Found>, LineFault>
        ensures only { SourceOnly (S.outside source.old) (S.outside source.new) }
        ensures cause { OnErr result (Rose (S.outside source.old).read_faults
            (S.outside source.new).read_faults) }
        ensures fault { IfErr result (λ e. e ≡ LineFault.Read) }
        ensures allowed { self.new.allowed ≡ self.old.allowed }
        ensures found { IfOk result (λ found. MatchOption found
            (ClearTo (held self.new) (length (held self.new))
            × (length (held self.new) ≤ self.new.allowed))
            (Finds (held self.new) self.new.allowed)) }
        ensures script { OnOk result (SameScript (held self.old) (S.outside source.old).left
            (held self.new) (S.outside source.new).left) }
        ensures rest { IfOk result (λ found. found ≡ None
            → AllHere (held self.old) (S.outside source.old).left (held self.new)) }
        ensures drawn { Draws (may_take self.old) (S.outside source.old).left (may_take self.new)
            (S.outside source.new).left }
    {
        let mut clear = 0;
        'gathered: loop {
            let bytes = &self.buffer[self.start..self.end];
            if let Some(found) = look(bytes, clear, self.allowed) {
                return Ok(Some(found));
            }
            clear = self.end - self.start;
            if !self.fill(source)? {
                return Ok(None);
            }
        }
    }

    /// Passes `n` bytes.
    fn pass(&mut self, n: usize)
        requires inside { self.old.start + n ≤ self.old.end }
        requires within { n ≤ self.old.allowed }
        ensures bytes { held self.new ≡ drop n (held self.old) }
        ensures buffer { self.new.buffer.items ≡ self.old.buffer.items }
        ensures allowed { self.new.allowed + n ≡ self.old.allowed }
        ensures may { may_take self.new ≡ may_take self.old }
    {
        self.start += n;
        self.allowed -= n as u64;
    }

    /// Passes a line that a line feed ends.
    fn pass_line(&mut self, at: usize) -> Shown
        requires { Finds (held self.old) self.old.allowed (Found.Feed at) }
        ensures takes { (behind : List ℕ)
            → Takes self.old.allowed (held self.old
            ++ behind) (shown_in self.new.buffer.items result) self.new.allowed (held self.new
            ++ behind) }
        ensures may { may_take self.new ≡ may_take self.old }
        ensures fewer { self.new.allowed < self.old.allowed }
    {
        let from = self.start;
        let to = from + trimmed(&self.buffer[from..from + at]);
        self.pass(at + 1);
        if at > LINE_MOST {
            Shown::long()
        } else {
            Shown::whole(from, to)
        }
    }

    /// Passes what stands after the last line feed.
    fn pass_rest(&mut self) -> Shown
        requires clear { ClearTo (held self.old) (length (held self.old)) }
        requires within { length (held self.old) ≤ self.old.allowed }
        ensures takes { Takes self.old.allowed (held self.old)
            (shown_in self.new.buffer.items result) self.new.allowed (held self.new) }
        ensures none { held self.new ≡ [] }
        ensures may { may_take self.new ≡ may_take self.old }
        ensures fewer { IfSome (shown_in self.new.buffer.items result) (λ line. self.new.allowed
            < self.old.allowed) }
    {
        let from = self.start;
        let to = self.end;
        self.pass(to - from);
        if from == to {
            Shown::end()
        } else if to - from > LINE_MOST {
            Shown::long()
        } else {
            Shown::whole(from, to)
        }
    }

    #[tactic(auto, using(crate::proofs::Buffers::draws_trans))]
    /// Passes the rest of a line that is too long.
    fn skip<S: Source>(&mut self, source: &mut S) -> Result<(), LineFault>
        ensures only { SourceOnly (S.outside source.old) (S.outside source.new) }
        ensures cause { result ≡ Err LineFault.Read
            → Rose (S.outside source.old).read_faults (S.outside source.new).read_faults }
        ensures passes { OnOk result (Moves (held self.old) (S.outside source.old).left
            (held self.new) (S.outside source.new).left
            (λ script rest. Passes self.old.allowed script self.new.allowed rest)) }
        ensures clear { result ≡ Err LineFault.TooMuch
            → IfTold (held self.old) (S.outside source.old).left (IsClear self.old.allowed) }
        ensures drawn { Draws (may_take self.old) (S.outside source.old).left (may_take self.new)
            (S.outside source.new).left }
        ensures no_more { OnOk result (self.new.allowed ≤ self.old.allowed) }
    {
        'skipped: loop {
            match self.gather(source)? {
                Some(Found::TooMuch) => return Err(LineFault::TooMuch),
                Some(Found::Feed(at)) => {
                    self.pass(at + 1);
                    return Ok(());
                }
                Some(Found::Full) => self.pass(self.end - self.start),
                None => {
                    self.pass(self.end - self.start);
                    return Ok(());
                }
            }
        }
    }

    /// Takes the next line.
    pub(crate) fn next<S: Source>(&mut self, source: &mut S) -> Result<Shown, LineFault>
        ensures only { SourceOnly (S.outside source.old) (S.outside source.new) }
        ensures cause { result ≡ Err LineFault.Read
            → Rose (S.outside source.old).read_faults (S.outside source.new).read_faults }
        ensures takes { IfOk result (λ shown. Moves (held self.old) (S.outside source.old).left
            (held self.new) (S.outside source.new).left
            (λ script rest. Takes self.old.allowed script
            (shown_in self.new.buffer.items shown) self.new.allowed rest)) }
        ensures clear { result ≡ Err LineFault.TooMuch
            → IfTold (held self.old) (S.outside source.old).left (IsClear self.old.allowed) }
        ensures drawn { Draws (may_take self.old) (S.outside source.old).left (may_take self.new)
            (S.outside source.new).left }
        ensures fewer { IfOk result (λ shown. IfSome (shown_in self.new.buffer.items shown)
            (λ line. self.new.allowed < self.old.allowed)) }
    {
        match self.gather(source)? {
            Some(Found::TooMuch) => Err(LineFault::TooMuch),
            Some(Found::Feed(at)) => Ok(self.pass_line(at)),
            Some(Found::Full) => {
                self.pass(self.end - self.start);
                self.skip(source)?;
                Ok(Shown::long())
            }
            None => Ok(self.pass_rest()),
        }
    }
}
