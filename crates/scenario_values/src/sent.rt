//! What was sent, as it is told: lines on one line.
use std::alloc::{AllocError, Global};

/// What is told where nothing was sent.
pub const NOTHING: &str = "nothing";

/// What parts lines.
const BETWEEN: &[u8] = b" / ";

/// What stands for lines that aren't told.
const MORE: &str = "..";

/// Which lines of an output are told.
#[derive(Clone, Copy)]
pub struct Telling {
    /// How many of the last ones; none where it is told how many there are.
    pub last: Option<usize>,
    /// Of neighbours with the same two words, the first and the last one alone.
    pub brief: bool,
}

impl Telling {
    /// All lines.
    pub const ALL: Telling = Telling {
        last: None,
        brief: false,
    };
}

/// The lines that were told so far.
#[derive(Clone, Copy)]
struct Told<'a> {
    brief: bool,
    begun: bool,
    /// The first two words of the last line that was told.
    front: (&'a str, &'a str),
    /// The last line behind it with the same two words, and whether there were others between them.
    held: Option<&'a str>,
    is_cut: bool,
}

// The first two words of a line.
fn front_of(line: &str) -> (&str, &str) {
    let mut words = line.split(' ');
    let first = words.next().unwrap_or("");
    let second = words.next().unwrap_or("");
    (first, second)
}

impl<'a> Told<'a> {
    // Adds a line behind those that were told.
    fn put(&mut self, out: &mut Vec<u8>, line: &str) -> Result<(), AllocError> {
        if self.begun {
            out.extend_from_slice(BETWEEN)?;
        }
        self.begun = true;
        out.extend_from_slice(line.as_bytes())
    }

    // Adds the line that was held back; `..` stands in the place of those before it.
    fn flush(&mut self, out: &mut Vec<u8>) -> Result<(), AllocError> {
        if self.is_cut {
            self.put(out, MORE)?;
        }
        if let Some(line) = self.held {
            self.put(out, line)?;
        }
        self.held = None;
        self.is_cut = false;
        Ok(())
    }

    // Takes in the next line.
    fn push(&mut self, out: &mut Vec<u8>, line: &'a str) -> Result<(), AllocError> {
        let front = front_of(line);
        if self.brief && self.begun && front == self.front {
            self.is_cut = self.is_cut || self.held.is_some();
            self.held = Some(line);
            return Ok(());
        }
        self.flush(out)?;
        self.front = front;
        self.put(out, line)
    }
}

// The letters and line feeds that bytes are; none where other bytes are among them.
fn text_of(sent: &[u8]) -> Option<&str> {
    let is_text = sent
        .iter()
        .all(|byte| *byte == b'\n' || (*byte >= b' ' && *byte <= b'~'));
    if is_text {
        std::str::from_utf8(sent).ok()
    } else {
        None
    }
}

// Adds a number of things.
fn push_count(
    alloc: Global,
    out: &mut Vec<u8>,
    count: usize,
    things: &str,
) -> Result<(), AllocError> {
    out.extend_from_slice(format!(in alloc; "{count} {things}")?.as_bytes())
}

// Adds the lines of a text behind the first ones, so many.
fn push_lines(out: &mut Vec<u8>, text: &str, passed: usize, brief: bool) -> Result<(), AllocError> {
    let mut told = Told {
        brief,
        begun: false,
        front: ("", ""),
        held: None,
        is_cut: false,
    };
    for line in text.split('\n').skip(passed) {
        told.push(out, line)?;
    }
    told.flush(out)
}

// Adds a text: lines with ` / ` between them, and a `~` behind a last one without a line feed.
fn push_text(
    alloc: Global,
    out: &mut Vec<u8>,
    text: &str,
    telling: Telling,
) -> Result<(), AllocError> {
    let (whole, end) = match text.strip_suffix('\n') {
        Some(whole) => (whole, ""),
        None => (text, "~"),
    };
    let count = whole.split('\n').count();
    let last = telling.last.unwrap_or(count);
    if last == 0 {
        return push_count(alloc, out, count, "lines");
    }
    push_lines(out, whole, count.saturating_sub(last), telling.brief)?;
    out.extend_from_slice(end.as_bytes())
}

/// Adds what was sent: lines with ` / ` between them, and a `~` behind a last one without a line feed; its length where it is no text.
pub fn push_sent(
    alloc: Global,
    out: &mut Vec<u8>,
    sent: &[u8],
    telling: Telling,
) -> Result<(), AllocError> {
    match text_of(sent) {
        Some("") => out.extend_from_slice(NOTHING.as_bytes()),
        Some(text) => push_text(alloc, out, text, telling),
        None => push_count(alloc, out, sent.len(), "bytes"),
    }
}
