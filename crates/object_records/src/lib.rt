//! The record of a version of an object, as it stands in a slot of a file page: its head, and the bytes of a small version or the root of a large one.
//! A record never grows when a small version becomes a large one.
#![tactic(auto)]

ghost use Rattle.std.specs.Prelude.{◌≡◌, ℕ, List};
ghost use Rattle.object_records.specs.Reads.{record_on};
ghost use Rattle.object_records.specs.Record.{Record, BodyOf};

mod reads;
mod view;
mod write;

use ex_base::{Place, Root};
pub use view::RecordView;
pub use write::{body_len, write_large, write_small};

/// Whether a version is its object's current one.
#[derive(Clone, Copy, Debug, PartialEq, Eq)]
pub enum State {
    Current,
    Frozen,
}

/// What every record has: its state, its unique number, where the version lies that it is derived from, and where the only one lies that is derived
/// from it.
#[derive(Clone, Copy, Debug, PartialEq, Eq)]
pub struct Head {
    pub state: State,
    pub unique: u64,
    pub older: Option<Place>,
    pub newer: Option<Place>,
}

/// The bytes of a small version, or the root of a large one.
#[derive(Clone, Copy)]
pub enum Payload<'a> {
    Small(&'a [u8]),
    Large(Root),
}

// The bytes of a record's fields. A large record ends behind its root page.
const FORM: usize = 0;

const STATE: usize = 1;

const UNIQUE: usize = 2;

const OLDER: usize = 10;

const NEWER: usize = 16;

const LENGTH: usize = 22;

const BYTES: usize = 24;

const SIZE: usize = 24;

const PAGE: usize = 32;

/// The bytes of the record of a large version.
pub const LARGE_LEN: usize = 36;

// What the form and the state are written as.
const SMALL: u8 = 1;

const LARGE: u8 = 2;

const CURRENT: u8 = 1;

const FROZEN: u8 = 2;

/// The most bytes of a small version that its record has room for in the place of a root.
const LEAST_PAYLOAD: usize = 12;

/// A record's bytes are those of the record that is read in them, and so of one record alone.
pub fn record_of_a_body()
    ensures { (bytes : List ℕ) (r : Record) → BodyOf bytes r → record_on bytes ≡ r }
{}
