//! What a handle has.

use exsm_run::VolumeSession;
use table_model::{Names, OidList};
use volume_calls::{LentVolume, NotDone};

/// The volume of a handle, the last lists of names and of identifiers that were told, and why the last call that wasn't done wasn't.
#[derive(Drop)]
pub struct Open {
    pub volume: LentVolume<VolumeSession>,
    pub names: Names,
    pub oids: OidList,
    pub why: Option<NotDone>,
}
