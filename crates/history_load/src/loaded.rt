//! What a load wrote, and its commit.
ghost use Rattle.std.specs.Prelude.{◌≡◌, ◌≤◌, ◌⊎◌, ℕ, List, length, Err, OnOk};
ghost use Rattle.ex_base.specs.Sizes.{volume_bytes};
ghost use Rattle.disk_model.specs.Outside.{DiskOnly, Leaves, Rose};
ghost use Rattle.restart.specs.Opening.{AreOpened};
ghost use Rattle.table_model.specs.Tables.{empty_table};
ghost use Rattle.volume_model.specs.Parts.{StandsFor};
ghost use Rattle.volume_model.specs.Volume.{Decoded, table_of, units_of};
ghost use Rattle.volume_port.specs.State.{IsAtRest};
ghost use Rattle.history_load.specs.Loads.{HoldsDump, IsDumpImage, LoadsAs};

use commits::{CommitFault, commit};
use disk_model::Disk;
use std::alloc::Global;
use volume_port::VolumeState;

/// What a load wrote behind the catalog's page of a volume, for which that page is still to be committed.
#[derive(Drop)]
pub struct Loaded {
    /// The page that names the files: as many bytes as a page has.
    pub catalog: Vec<u8>,
    /// The number of the stream's last transaction.
    pub last: u64,
    /// How many versions came.
    pub versions: u64,
    /// How many leaves came, each a unit of the segment area.
    pub leaves: u32,
}

/// The catalog of what a load wrote becomes that of the volume, by one record with the number of the stream's last transaction and no note. The volume was
/// opened, and nothing was done on it but that free units were written. Its state is given up, since it tells no more what is in use.
pub fn commit_loaded<D: Disk>(
    alloc: Global,
    disk: &mut D,
    mut volume: VolumeState,
    loaded: &Loaded,
) -> Result<(), CommitFault>
    requires opened { AreOpened volume }
    requires room { volume_bytes volume.geometry ≤ (D.outside disk.old).size }
    requires whole { length loaded.now.catalog.items ≡ volume.geometry.page_size }
    ensures only { DiskOnly (D.outside disk.old) (D.outside disk.new) }
    ensures disk { result ≡ Err CommitFault.Disk
        → Rose (D.outside disk.old).disk_faults (D.outside disk.new).disk_faults }

    // Without memory nothing was called.
    ensures memory { result ≡ Err CommitFault.Memory → disk.new ≡ disk.old }

    // The disk holds a table of which the stream is a dump, whatever a crash leaves, in a volume of as many units of the segment area as leaves came.
    ensures done { OnOk result ((d : Decoded) (image stream : List ℕ)
        → IsAtRest (D.outside disk.old) volume d image
        → table_of (units_of d image) d.volume ≡ empty_table
        → LoadsAs volume.geometry image stream loaded.now.catalog.items loaded.now.last
        loaded.now.leaves
        → HoldsDump (D.outside disk.new) volume.geometry stream loaded.now.leaves) }

    // A crash at any moment leaves the empty table or such a one.
    ensures any_moment { (d : Decoded) (image stream : List ℕ)
        → IsAtRest (D.outside disk.old) volume d image
        → table_of (units_of d image) d.volume ≡ empty_table
        → LoadsAs volume.geometry image stream loaded.now.catalog.items loaded.now.last
        loaded.now.leaves
        → Leaves (D.outside disk.old) (D.outside disk.new)
        (λ left. StandsFor left empty_table ⊎ IsDumpImage volume.geometry stream left) }
{
    let Ok(()) = volume.meta.start(alloc, &loaded.catalog) else {
        return Err(CommitFault::Memory);
    };
    commit(
        alloc,
        &mut volume.log,
        &mut volume.meta,
        &mut volume.groups,
        disk,
        &[],
        loaded.last,
    )
}
