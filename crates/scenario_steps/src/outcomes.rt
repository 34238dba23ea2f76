//! What came of a run, as it is told.
use command_line::Status;
use ex_base::{Area, Seen};
use memory_host::MemoryHost;
use scenario_values::{NOTHING, Telling, push_sent};
use sha2::{Digest, Sha256};
use std::alloc::{AllocError, Global};
use std::fmt::Write;

/// What a volume is told by that keeps what was done until then.
const KEPT: [&[u8]; 3] = [b"ok commit ", b"ok format ", b"ok load "];

// Adds a number behind its word.
fn push_number(text: &mut String, word: &str, number: u64) -> Result<(), AllocError> {
    write!(text, " {word} {number}")?;
    Ok(())
}

// Adds what of a page was wanted or found.
fn push_seen(text: &mut String, word: &str, seen: Seen) -> Result<(), AllocError> {
    let (kind, level, total) = (seen.kind, seen.level, seen.total);
    write!(text, " {word} {kind} {level} {total}")?;
    Ok(())
}

// Adds what was needed, and what was free.
fn push_need(text: &mut String, need: u64, free: u64) -> Result<(), AllocError> {
    push_number(text, "need", need)?;
    push_number(text, "free", free)
}

// Adds what a status says.
fn push_said(text: &mut String, status: Status) -> Result<(), AllocError> {
    match status {
        Status::Damaged { page, want, got } => {
            push_number(text, "page", u64::from(page.0))?;
            push_seen(text, "want", want)?;
            push_seen(text, "got", got)
        }
        Status::TooSmall { have, need } => {
            push_number(text, "have", have)?;
            push_number(text, "need", need)
        }
        Status::ScriptLong { max } => push_number(text, "max", max),
        Status::Misfit {
            field,
            dump,
            volume,
        } => {
            push_number(text, "field", u64::from(field))?;
            push_number(text, "dump", u64::from(dump))?;
            push_number(text, "volume", u64::from(volume))
        }
        Status::NoRoom { area, need, free } => {
            let units = match area {
                Area::Page => " pages",
                Area::Segment => " segs",
            };
            text.push_str(units)?;
            push_need(text, need, free)
        }
        Status::NoPages { need, free } => push_need(text, need, free),
        _ => Ok(()),
    }
}

/// A status: its code, its name, and what it says.
pub(crate) fn status_text(alloc: Global, status: Status) -> Result<String, AllocError> {
    let code = status.code();
    let mut text = format!(in alloc; "{code} {status}")?;
    push_said(&mut text, status)?;
    Ok(text)
}

/// Adds how a run ended, where it didn't do all.
pub(crate) fn push_status(
    alloc: Global,
    out: &mut Vec<u8>,
    status: Status,
) -> Result<(), AllocError> {
    if status == Status::Done {
        return Ok(());
    }
    out.extend_from_slice(b"; ")?;
    out.extend_from_slice(status_text(alloc, status)?.as_bytes())
}

/// How a run ended at that call, whether what it sent is a front of what the whole run sent, and whether it made no call more.
pub(crate) fn outcome_of(
    alloc: Global,
    whole: &MemoryHost,
    status: Status,
    host: &MemoryHost,
    call: u64,
) -> Result<Vec<u8>, AllocError> {
    let mut text = Vec::new(alloc);
    let sent = host.sent_bytes();
    if whole.sent_bytes().starts_with(sent) {
        text.extend_from_slice(b"a front; ")?;
    } else {
        push_sent(alloc, &mut text, sent, Telling::ALL)?;
        text.extend_from_slice(b"; ")?;
    }
    if host.calls() > call {
        text.extend_from_slice(b"goes on; ")?;
    }
    text.extend_from_slice(status_text(alloc, status)?.as_bytes())?;
    Ok(text)
}

// Whether a reply tells that, also behind the number of a client.
fn is_kept(line: &[u8]) -> bool {
    let reply = match line {
        [b'0'..=b'9', b' ', reply @ ..] => reply,
        [b'0'..=b'9', b'0'..=b'9', b' ', reply @ ..] => reply,
        _ => line,
    };
    for front in &KEPT {
        if reply.starts_with(front) {
            return true;
        }
    }
    false
}

/// The last whole line that was sent and says that something is kept for good.
pub(crate) fn last_kept(alloc: Global, sent: &[u8]) -> Result<Vec<u8>, AllocError> {
    let mut last = NOTHING.as_bytes();
    let mut before = NOTHING.as_bytes();
    for line in sent.split(|byte| *byte == b'\n') {
        // The piece behind the last line feed is no whole line.
        if is_kept(before) {
            last = before;
        }
        before = line;
    }
    last.to_vec(alloc)
}

/// The line by which `gen` sums up these replies.
pub(crate) fn tally_of(alloc: Global, replies: &[u8]) -> Result<String, AllocError> {
    let mut accepted: u64 = 0;
    let mut refused: u64 = 0;
    for line in replies.split(|byte| *byte == b'\n') {
        if line.starts_with(b"ok ") {
            accepted = accepted.saturating_add(1);
        } else if line.starts_with(b"no ") {
            refused = refused.saturating_add(1);
        }
    }
    let lines = accepted.saturating_add(refused);
    let digest = hex::encode(alloc, Sha256::digest(replies))?;
    format!(in alloc; "ok gen {lines} {accepted} {refused} {digest}\n")
}
