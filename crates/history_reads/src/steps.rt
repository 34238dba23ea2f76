//! One step of gathering: bytes of a piece go to the item that isn't whole.
ghost use Rattle.std.specs.Prelude.{◌≡◌, ◌+◌, ◌<◌, ◌≤◌, ◌++◌, Some};
ghost use Rattle.history_items.specs.Gathering.{item_most};
ghost use Rattle.history_reads.specs.Steps.{Asking, IsFilled, FillIsRead};

use crate::progress::Progress;
use history_items::Gathered;

/// What a step of gathering came to.
#[derive(Clone, Copy, Debug, PartialEq, Eq)]
pub enum Filled {
    /// So many bytes of the piece were taken, and the item needs more.
    More(usize),
    /// So many bytes of the piece were taken, and a whole item is there.
    Whole(usize),
    /// No item begins so.
    Refused,
}

/// Takes of a piece as many bytes as the item that comes next is known to need. Nothing is taken only of an empty piece.
pub fn fill(progress: &Progress, gathered: &mut Gathered, piece: &[u8]) -> Filled
    requires asking { Asking progress.now gathered.old.held }
    requires room { gathered.old.room ≡ item_most progress.now.geometry }
    ensures filled { IsFilled progress.now gathered.old.held gathered.new.held piece.now result }
    ensures read { FillIsRead progress.now gathered.old.held gathered.new.held piece.now result }
    ensures room { gathered.new.room ≡ gathered.old.room }
{
    let Some(need) = progress.need(gathered.as_slice()) else {
        return Filled::Refused;
    };
    let taken = gathered.fill(piece, need);
    match progress.need(gathered.as_slice()) {
        None => Filled::Refused,
        Some(need) => {
            if need == gathered.as_slice().len() {
                Filled::Whole(taken)
            } else {
                Filled::More(taken)
            }
        }
    }
}
