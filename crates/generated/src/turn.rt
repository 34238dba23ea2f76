//! A command as it was drawn.
ghost use Rattle.std.specs.Prelude.{◌≡◌, ◌<◌, ◌≤◌, ◌+◌, ◌^◌, ℕ, slice_index_or};
ghost use Rattle.generated.specs.Commands.{byte_for, edit_for, object_for, size_after, size_for};
ghost use Rattle.generated.specs.Draws.{state_after};

use crate::draws::Draws;
use crate::edit::Edit;

/// How many kinds of commands are drawn.
const KINDS: u64 = 16;

/// How many objects there are.
pub(crate) const OBJECTS: usize = 4;

/// A command on one of the objects.
#[derive(Clone, Copy)]
pub(crate) struct Turn {
    pub(crate) object: usize,
    pub(crate) edit: Edit,
    /// The byte that it puts.
    pub(crate) byte: u8,
    /// The bytes of the object after it.
    pub(crate) size: u64,
    /// The draws behind it.
    pub(crate) draws: Draws,
}

impl Turn {
    /// The command that is drawn next, where the objects have so many bytes.
    pub(crate) fn of(mut draws: Draws, sizes: &[u64; OBJECTS]) -> Turn
        requires { (k : ℕ) → slice_index_or sizes.now k 0 < 2 ^ 60 }
        ensures object { result.object ≡ object_for (record { state = draws.state; sizes = sizes.now }) }
        ensures within { result.object < 4 }
        ensures edit { result.edit ≡ edit_for (record { state = draws.state; sizes = sizes.now }) }
        ensures byte { result.byte ≡ byte_for (record { state = draws.state; sizes = sizes.now }) }
        ensures size { result.size ≡ size_after result.edit (size_for (record { state = draws.state; sizes = sizes.now })) }
        ensures grown { result.size ≤ slice_index_or sizes.now result.object 0 + 3000 }
        ensures draws { result.draws.state ≡ state_after 4 draws.state }
    {
        let kind = draws.draw() % KINDS;
        let object = (draws.draw() % OBJECTS as u64) as usize;
        let size = sizes[object];
        let at = draws.draw() % (size + 1);
        let amount = draws.draw();
        let edit = Edit::of(kind, at, amount, size);
        Turn {
            object,
            edit,
            byte: (amount % 256) as u8,
            size: edit.size_after(size),
            draws,
        }
    }
}
