//! A version of an object, and an object as the list of its versions.

ghost use Rattle.std.specs.Prelude.{◌≡◌};

use ex_base::{Items, Oid};
use std::alloc::AllocError;

/// A version of an object.
#[derive(Drop)]
pub struct Version {
    pub oid: Oid,
    /// Whether no command changes its bytes.
    pub frozen: bool,
    /// The unique number of the version that it is derived from. The first version of an object has none.
    pub older: Option<u64>,
    pub bytes: Items<u8>,
}

/// An object: a tree of versions, in order of their unique numbers.
#[derive(Drop)]
pub struct Object {
    pub versions: Items<Version>,
}

impl Clone for Version {
    ghost is_clone = { λ a b. b ≡ a };

    #[tactic(auto, using(crate::proofs::Copies::same_items))]
    fn clone(&self) -> Result<Self, AllocError> {
        Ok(Version {
            oid: self.oid,
            frozen: self.frozen,
            older: self.older,
            bytes: self.bytes.clone()?,
        })
    }
}

impl Clone for Object {
    ghost is_clone = { λ a b. b ≡ a };

    #[tactic(auto, using(crate::proofs::Copies::same_items))]
    fn clone(&self) -> Result<Self, AllocError> {
        Ok(Object {
            versions: self.versions.clone()?,
        })
    }
}
