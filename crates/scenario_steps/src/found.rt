//! What came of a loop over calls, each once.
use crate::hosts::Kind;
use std::alloc::{AllocError, Global};

/// What came at a call of a kind.
#[derive(Drop)]
pub(crate) struct Outcome {
    kind: Option<Kind>,
    text: Vec<u8>,
}

/// An image, by its mark, and what it shows.
#[derive(Drop)]
pub(crate) struct Seen {
    mark: u64,
    shown: Vec<u8>,
}

/// What came of a loop so far, each once.
#[derive(Drop)]
pub(crate) struct Found {
    /// Images that the loop itself left, and that further runs left.
    pub(crate) met: Vec<Seen>,
    pub(crate) left: Vec<Seen>,
    /// At calls of the run itself.
    pub(crate) outcomes: Vec<Outcome>,
    /// What images show, behind what had been sent.
    pub(crate) shown: Vec<Vec<u8>>,
    /// What images show that a stop in an opening left, where that is something else.
    pub(crate) reopened: Vec<Vec<u8>>,
    /// At calls of runs on the images, and what those left, where that is something else.
    pub(crate) through: Vec<Outcome>,
    pub(crate) damaged: Vec<Vec<u8>>,
}

/// The first mark, and what it grows by.
const FIRST_MARK: u64 = 0xcbf2_9ce4_8422_2325;

const MARK_FACTOR: u64 = 0x0000_0100_0000_01b3;

/// A number that tells images apart: two that differ have hardly ever the same.
pub(crate) fn mark_of(image: &[u8]) -> u64 {
    let mut mark = FIRST_MARK;
    for byte in image {
        mark = (mark ^ u64::from(*byte)).wrapping_mul(MARK_FACTOR);
    }
    mark
}

/// Adds a row, where it isn't among them.
pub(crate) fn add_once(rows: &mut Vec<Vec<u8>>, row: Vec<u8>) -> Result<(), AllocError> {
    for other in rows.iter() {
        if *other == row {
            return Ok(());
        }
    }
    Ok(rows.push(row)?)
}

/// Adds an outcome, where it isn't among them.
pub(crate) fn add_outcome(
    outcomes: &mut Vec<Outcome>,
    kind: Option<Kind>,
    text: Vec<u8>,
) -> Result<(), AllocError> {
    for other in outcomes.iter() {
        if other.kind == kind && other.text == text {
            return Ok(());
        }
    }
    Ok(outcomes.push(Outcome { kind, text })?)
}

/// What the image of that mark shows, where it is among them.
pub(crate) fn shown_of(
    alloc: Global,
    images: &[Seen],
    mark: u64,
) -> Result<Option<Vec<u8>>, AllocError> {
    for seen in images {
        if seen.mark == mark {
            return Ok(Some(seen.shown.to_vec(alloc)?));
        }
    }
    Ok(None)
}

/// Whether an image of that mark is among them, with this that it shows.
pub(crate) fn is_among(images: &[Seen], mark: u64, shown: &[u8]) -> bool {
    for seen in images {
        if seen.mark == mark && seen.shown.as_slice() == shown {
            return true;
        }
    }
    false
}

/// Adds the image of that mark, and what it shows.
pub(crate) fn add_seen(
    alloc: Global,
    images: &mut Vec<Seen>,
    mark: u64,
    shown: &[u8],
) -> Result<(), AllocError> {
    let shown = shown.to_vec(alloc)?;
    Ok(images.push(Seen { mark, shown })?)
}

// Adds a line of three parts.
fn push_line(out: &mut Vec<u8>, front: &[u8], name: &[u8], row: &[u8]) -> Result<(), AllocError> {
    out.extend_from_slice(front)?;
    out.extend_from_slice(name)?;
    out.extend_from_slice(row)?;
    Ok(out.push(b'\n')?)
}

// Adds the outcomes of a kind, each as a line.
fn push_outcomes(
    out: &mut Vec<u8>,
    front: &[u8],
    name: &[u8],
    outcomes: &[Outcome],
    kind: Option<Kind>,
) -> Result<(), AllocError> {
    for outcome in outcomes {
        if outcome.kind == kind {
            push_line(out, front, name, &outcome.text)?;
        }
    }
    Ok(())
}

// Adds outcomes by kind, each as a line.
fn push_by_kind(out: &mut Vec<u8>, front: &[u8], outcomes: &[Outcome]) -> Result<(), AllocError> {
    for kind in &Kind::ALL {
        push_outcomes(out, front, kind.front(), outcomes, Some(*kind))?;
    }
    push_outcomes(out, front, b"no call: ", outcomes, None)
}

fn push_rows(out: &mut Vec<u8>, front: &[u8], rows: &[Vec<u8>]) -> Result<(), AllocError> {
    for row in rows {
        push_line(out, front, b"", row)?;
    }
    Ok(())
}

// Adds what images show that isn't what it was to be, and that there is none, where they were looked at.
fn push_others(
    out: &mut Vec<u8>,
    front: &[u8],
    were_looked_at: bool,
    rows: &[Vec<u8>],
) -> Result<(), AllocError> {
    if were_looked_at && rows.is_empty() {
        push_line(out, front, b"", b"the same")?;
    }
    push_rows(out, front, rows)
}

impl Found {
    pub(crate) fn new(alloc: Global) -> Found {
        Found {
            met: Vec::new(alloc),
            left: Vec::new(alloc),
            outcomes: Vec::new(alloc),
            shown: Vec::new(alloc),
            reopened: Vec::new(alloc),
            through: Vec::new(alloc),
            damaged: Vec::new(alloc),
        }
    }

    /// Adds it, line by line. Images were opened again, and gone through, where that is said.
    pub(crate) fn push(
        &self,
        out: &mut Vec<u8>,
        were_opened: bool,
        were_gone_through: bool,
    ) -> Result<(), AllocError> {
        push_by_kind(out, b"", &self.outcomes)?;
        push_rows(out, b"after ", &self.shown)?;
        push_others(out, b"reopened: ", were_opened, &self.reopened)?;
        push_by_kind(out, b"through ", &self.through)?;
        push_others(out, b"through: ", were_gone_through, &self.damaged)
    }
}
