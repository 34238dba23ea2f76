//! What a volume holds: files of objects, each object a tree of versions.

ghost use Rattle.std.specs.Prelude.{◌≡◌};

use ex_base::Items;
use std::alloc::AllocError;
use version_lists::Object;

/// The bytes of a name of a file, an object, a scan or a group.
pub type Name = Items<u8>;

/// The bytes of a version.
pub type Bytes = Items<u8>;

/// The objects of a file, in order of the least unique numbers of their versions.
pub type Objects = Items<Object>;

/// The files of a volume, in byte order of their names.
pub type TableFiles = Items<TableFile>;

/// A file of objects.
#[derive(Drop)]
pub struct TableFile {
    pub name: Name,
    pub objects: Objects,
}

/// All that a volume holds.
#[derive(Drop)]
pub struct Table {
    /// The unique number of the version that is made next.
    pub next_unique: u64,
    /// The number of the last committed transaction.
    pub last: u64,
    pub files: TableFiles,
}

impl Clone for TableFile {
    ghost is_clone = { λ a b. b ≡ a };

    #[tactic(auto, using(crate::proofs::Copies::same_items))]
    fn clone(&self) -> Result<Self, AllocError> {
        Ok(TableFile {
            name: self.name.clone()?,
            objects: self.objects.clone()?,
        })
    }
}

impl Clone for Table {
    ghost is_clone = { λ a b. b ≡ a };

    #[tactic(auto, using(crate::proofs::Copies::same_items))]
    fn clone(&self) -> Result<Self, AllocError> {
        Ok(Table {
            next_unique: self.next_unique,
            last: self.last,
            files: self.files.clone()?,
        })
    }
}
