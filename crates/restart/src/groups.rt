//! The frames of a session that was just opened.
ghost use Rattle.std.specs.Prelude.{◌≡◌, List, [], ◌∷◌, IfOk};
ghost use Rattle.restart.specs.Opening.{empty_main};

use buffer_groups::{Group, Groups, Policy};
use ex_base::Geometry;
use std::alloc::{AllocError, Global};

/// The frames of the group `main`.
const MAIN_FRAMES: u32 = 64;

/// The group `main` alone, with no page in it.
pub fn make_groups(alloc: Global, geometry: &Geometry) -> Result<Groups, AllocError>
    ensures { IfOk result (λ groups. groups ≡ empty_main geometry.now ∷ []) }
{
    let main = Group::make(alloc, MAIN_FRAMES, geometry.page_size, Policy::Lru)?;
    Groups::make(alloc, main)
}
