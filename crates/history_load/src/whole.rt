//! Whether a stream was read to its end.
ghost use Rattle.std.specs.Prelude.{◌≡◌, ℕ, List, IsTrue, IsFalse};
ghost use Rattle.ex_base.specs.declared.geometry.Geometry.{Geometry};
ghost use Rattle.history_fronts.specs.Fronts.{history_of};
ghost use Rattle.history_items.specs.Heads.{stream_head};
ghost use Rattle.history_model.specs.Dumps.{IsNoDump};
ghost use Rattle.history_reads.specs.Reads.{IsRead};
ghost use Rattle.history_load.specs.Whole.{IsStreamOf};

use history_fronts::Turn;
use history_reads::Progress;

/// Whether what was read is a whole stream, where the source is at its end and these bytes came of an item. Where it isn't, it is no dump.
pub(crate) fn is_all_read(progress: &Progress, held: &[u8]) -> bool
    ensures all { IsTrue result → (g : Geometry) (joined : List ℕ)
        → (is : IsRead g joined progress.now held.now)
        → IsStreamOf g joined (stream_head progress.now.head) (history_of is.front) }
    ensures ended { IsTrue result → progress.now.missing ≡ 0 }
    ensures none { IsFalse result → (g : Geometry) (joined : List ℕ)
        → IsRead g joined progress.now held.now → IsNoDump joined g }
{
    if !held.is_empty() {
        return false;
    }
    match progress.turn() {
        Turn::End => progress.is_whole(held),
        _ => false,
    }
}
