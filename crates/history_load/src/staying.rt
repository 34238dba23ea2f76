//! What the writing of a load leaves of an empty volume.
ghost use Rattle.disk_model.specs.Changes.{ChangesWithin};
ghost use Rattle.history_load.specs.Staying.{StaysEmpty};
ghost use Rattle.history_writes.specs.Places.{IsBehindCatalog};
ghost use Rattle.restart.specs.Opening.{AreOpened};

use disk_model::Disk;
use volume_port::VolumeState;

/// Where nothing but bytes of units behind the catalog's page was written since an empty volume was opened, that is at rest still, and a crash meanwhile leaves the
/// empty table. It does nothing: its contract is the law.
pub fn an_empty_volume_stays<D: Disk>(before: &D, after: &D, volume: &VolumeState)
    requires opened { AreOpened volume.now }
    ensures { ChangesWithin (IsBehindCatalog volume.now.geometry) (D.outside before.now)
        (D.outside after.now)
        → StaysEmpty (D.outside before.now) (D.outside after.now) volume.now }
{}
