//! What a file held before the calls that are listed. Only proofs see it.
ghost use Rattle.std.specs.Prelude.{◌≡◌, ℕ, List};
ghost use Rattle.std.specs.Borrow.{ftrue};
ghost use Rattle.lent_host.specs.Lent.{state_after};

use crate::host::Asked;
use std::marker::Model;

/// The bytes that a file held before the calls that are listed. It takes no memory.
#[derive(Drop)]
pub struct FileBytes {
    pub ghost bytes: { List ℕ },
}

impl Model for FileBytes {
    ghost also_owns = { λ _. ftrue };
}

impl FileBytes {
    /// Those of a file that holds an image.
    pub fn of(image: &[u8]) -> FileBytes
        ensures { result.bytes ≡ image.now }
    {
        FileBytes {}
    }

    /// Those of the file once these calls were made on it.
    pub fn after(before: &FileBytes, asked: &[Asked]) -> FileBytes
        ensures { result.bytes ≡ (state_after before.now.bytes asked.now).disk }
    {
        FileBytes {}
    }
}
