//! The bytes of an entry.
ghost use Rattle.std.specs.Prelude.{◌≡◌, IfOk};

use std::alloc::{AllocError, Global};
use std::marker::Model;

/// The bytes of an entry behind its form.
#[derive(Drop)]
pub struct Fields {
    bytes: Vec<u8>,
}

impl Model for Fields {
    ghost use Rattle.std.specs.Prelude.{List, ℕ};

    ghost Value = { List ℕ };

    ghost view = { λ a. a.bytes.items };
}

impl Fields {
    /// A copy of bytes.
    pub fn of(alloc: Global, bytes: &[u8]) -> Result<Fields, AllocError>
        ensures { IfOk result (λ fields. fields ≡ bytes.now) }
    {
        Ok(Fields {
            bytes: bytes.to_vec(alloc)?,
        })
    }

    /// The same bytes, moved.
    pub fn from_vec(bytes: Vec<u8>) -> Fields
        ensures { result ≡ bytes.items }
    {
        Fields { bytes }
    }

    pub fn as_slice(&self) -> &[u8]
        ensures { result.now ≡ self.now }
    {
        self.bytes.as_slice()
    }
}
