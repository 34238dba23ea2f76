//! What C passes and gets filled, laid out as C does.
ghost use Rattle.std.specs.Prelude.{◌≡◌};
ghost use Rattle.exsm_c.specs.Codes.{number_of_part};
ghost use Rattle.exsm_c.specs.Most.{most_of};
ghost use Rattle.exsm_c.specs.Whys.{number_of_area};

use crate::codes::{MISUSE, NO_MEMORY, OK, code_of_stop, number_of};
use ex_base::{Area, Oid};
use session_views::{Part, Stop};
use table_model::{Refusal, Subject};
use transactions::Summary;
use volume_calls::NotDone;

/// The identifier of a version.
#[repr(C)]
#[derive(Clone, Copy)]
pub struct Identifier {
    pub page: u32,
    pub slot: u16,
    pub unique: u64,
}

impl Identifier {
    ghost use Rattle.std.specs.Prelude.{◌≡◌};
    ghost use Rattle.exsm_c.specs.Told.{identifier_of, no_identifier, numbered};
    ghost use Rattle.table_model.specs.Requests.{reference_of};

    /// That of no version.
    pub(crate) fn none() -> Identifier
        ensures { result ≡ no_identifier }
    {
        Identifier {
            page: 0,
            slot: 0,
            unique: 0,
        }
    }

    pub(crate) fn of(oid: Oid) -> Identifier
        ensures { result ≡ identifier_of oid }
    {
        Identifier {
            page: oid.page.0,
            slot: oid.slot,
            unique: oid.unique,
        }
    }

    /// The version that it names.
    pub(crate) fn subject(&self) -> Subject<'_>
        ensures { reference_of result ≡ numbered self.now }
    {
        Subject::Number {
            page: self.page as u64,
            slot: self.slot as u64,
            unique: self.unique,
        }
    }
}

/// The sizes that a volume is made with.
#[repr(C)]
#[derive(Clone, Copy)]
pub struct Sizes {
    pub page_size: u32,
    pub pages: u32,
    pub segs: u32,
    pub seg_len: u32,
    pub fan: u32,
}

/// The units in use, and all that there are.
#[repr(C)]
#[derive(Clone, Copy)]
pub struct Units {
    pub pages: u32,
    pub of_pages: u32,
    pub segs: u32,
    pub of_segs: u32,
}

/// How a version lies on the volume. `height` and `leaves` are 0 where it is one record.
#[repr(C)]
#[derive(Clone, Copy)]
pub struct Shape {
    pub size: u64,
    pub leaves: u64,
    pub is_large: bool,
    pub height: u8,
}

/// What a volume holds. A count that is over 64 bits is told as the largest.
#[repr(C)]
#[derive(Clone, Copy)]
pub struct Counts {
    pub last: u64,
    pub files: u64,
    pub objects: u64,
    pub versions: u64,
    pub pages: u64,
    pub segs: u64,
}

impl Counts {
    ghost use Rattle.std.specs.Prelude.{◌≡◌};
    ghost use Rattle.exsm_c.specs.Told.{counts_of};

    pub(crate) fn of(summary: &Summary) -> Counts
        ensures { result ≡ counts_of summary.now }
    {
        Counts {
            last: summary.last,
            files: u64::from(summary.files),
            objects: most_of(summary.objects),
            versions: most_of(summary.versions),
            pages: u64::from(summary.pages),
            segs: u64::from(summary.segs),
        }
    }
}

fn most_of(count: u128) -> u64
    ensures { result ≡ most_of count }
{
    if count < u64::MAX as u128 {
        count as u64
    } else {
        u64::MAX
    }
}

/// A call that is to be made on the file: a write of `len` bytes from `at` on, or a sync.
#[repr(C)]
#[derive(Clone, Copy)]
pub struct AskedCall {
    pub is_write: bool,
    pub at: u64,
    pub len: u64,
}

/// Why the last call that wasn't done wasn't: its code, and what is known besides. A number that the code doesn't speak of is 0.
#[repr(C)]
#[derive(Clone, Copy)]
pub struct Why {
    pub code: u32,
    /// Of too many: whether scans are, or groups.
    pub scans: bool,
    /// Of a full area: 1 for the segment area, 0 for the page area.
    pub area: u8,
    /// Of a long transaction: its updates, and the pages that it touches.
    pub updates: u32,
    pub touched: u32,
    /// Of a full area: the units that may be needed, and those that are free.
    pub need: u64,
    pub free: u64,
    /// Of branches: how many versions are derived.
    pub derived: u64,
    /// Of damage: the page, and the kind, the level and the total that were wanted of it and got.
    pub page: u32,
    pub want_kind: u8,
    pub want_level: u8,
    pub got_kind: u8,
    pub got_level: u8,
    pub want_total: u64,
    pub got_total: u64,
}

impl Why {
    ghost use Rattle.std.specs.Prelude.{◌≡◌};
    ghost use Rattle.exsm_c.specs.Whys.{code_alone, refusal_told, stop_told, why_told};

    // A code with nothing besides.
    fn code(code: u32) -> Why
        ensures { result ≡ code_alone code }
    {
        Why {
            code,
            scans: false,
            area: 0,
            updates: 0,
            touched: 0,
            need: 0,
            free: 0,
            derived: 0,
            page: 0,
            want_kind: 0,
            want_level: 0,
            got_kind: 0,
            got_level: 0,
            want_total: 0,
            got_total: 0,
        }
    }

    /// Why a call wasn't done: one that is none has the code 0.
    pub(crate) fn of(why: Option<NotDone>) -> Why
        ensures { result ≡ why_told why }
    {
        match why {
            None => Why::code(OK),
            Some(NotDone::Misuse) => Why::code(MISUSE),
            Some(NotDone::Refused(why)) => Why::refusal(why),
            Some(NotDone::Stopped(stop)) => Why::stop(stop),
            Some(NotDone::Untold) => Why::code(NO_MEMORY),
        }
    }

    // Why a call was refused.
    fn refusal(why: Refusal) -> Why
        ensures { result ≡ refusal_told why }
    {
        let told = Why::code(number_of(why));
        match why {
            Refusal::TooMany { scans } => Why { scans, ..told },
            Refusal::LongTxn { updates, touched } => Why {
                updates,
                touched,
                ..told
            },
            Refusal::Full { area, need, free } => Why {
                area: number_of_area(area),
                need,
                free,
                ..told
            },
            Refusal::Branches { derived } => Why { derived, ..told },
            _ => told,
        }
    }

    // Why the session stopped.
    fn stop(stop: Stop) -> Why
        ensures { result ≡ stop_told stop }
    {
        let told = Why::code(code_of_stop(stop));
        match stop {
            Stop::Damaged { page, want, got } => Why {
                page: page.0,
                want_kind: want.kind,
                want_level: want.level,
                got_kind: got.kind,
                got_level: got.level,
                want_total: want.total,
                got_total: got.total,
                ..told
            },
            _ => told,
        }
    }
}

// The number of an area.
fn number_of_area(area: Area) -> u8
    ensures { result ≡ number_of_area area }
{
    match area {
        Area::Page => 0,
        Area::Segment => 1,
    }
}

/// The number of a part of a volume, in the order in which an opening tests them.
pub(crate) fn number_of_part(part: Part) -> u8
    ensures { result ≡ number_of_part part }
{
    match part {
        Part::Super => 1,
        Part::Log => 2,
        Part::Catalog => 3,
        Part::File => 4,
        Part::Page => 5,
        Part::Body => 6,
        Part::Node => 7,
        Part::Balance => 8,
        Part::Unique => 9,
    }
}
