//! The bytes of one page.
ghost use Rattle.std.specs.Prelude.{◌≡◌, IfOk};

use std::alloc::{AllocError, Global};
use std::marker::Model;

/// The bytes of one page.
#[derive(Drop)]
pub struct Image {
    bytes: Vec<u8>,
}

impl Model for Image {
    ghost use Rattle.std.specs.Prelude.{List, ℕ};

    ghost Value = { List ℕ };

    ghost view = { λ a. a.bytes.items };
}

impl Image {
    /// A copy of one page.
    pub fn of(alloc: Global, bytes: &[u8]) -> Result<Image, AllocError>
        ensures { IfOk result (λ image. image ≡ bytes.now) }
    {
        Ok(Image {
            bytes: bytes.to_vec(alloc)?,
        })
    }

    /// The same bytes, moved.
    pub fn from_vec(bytes: Vec<u8>) -> Image
        ensures { result ≡ bytes.items }
    {
        Image { bytes }
    }

    pub fn as_slice(&self) -> &[u8]
        ensures { result.now ≡ self.now }
    {
        self.bytes.as_slice()
    }
}
