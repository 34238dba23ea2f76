//! The units that an update may take.

ghost use Rattle.std.specs.Prelude.{◌≡◌};
ghost use Rattle.table_model.specs.Needs.{edit_need};

use table_model::Pick;

/// The logged pages that an edit touches at most.
pub const EDIT_CHARGE: u32 = 1;

/// The logged pages that `file` and `unfile` touch at most.
pub const FILE_CHARGE: u32 = 2;

/// The pages that `file` takes at most.
pub const FILE_PAGES: u64 = 2;

/// The logged pages that the making or removing of a record touches at most.
pub const RECORD_CHARGE: u32 = 16;

/// The pages that the making of a record takes at most.
pub const RECORD_PAGES: u64 = 16;

/// An edit of no bytes needs nothing, nor does a small object that stays small.
pub fn edit_need(n: u64, pick: &Pick, most: u64) -> u64
    ensures { result ≡ edit_need n pick.now most }
{
    if n == 0 || pick.small { 0 } else { most }
}
