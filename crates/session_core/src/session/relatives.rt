//! The versions that a version is related to.
ghost use Rattle.std.specs.Prelude.{◌≡◌, ◌≤◌, IfOk, IfErr, OnOk};
ghost use Rattle.ex_base.specs.Ports.{Keeps, HasCause, IsDamage};
ghost use Rattle.ex_base.specs.Sizes.{volume_bytes};
ghost use Rattle.session_views.specs.View.{View};
ghost use Rattle.session_core.specs.Finding.{AreRelatives, oids_if, IfShown, IfVersion, PortShows};
ghost use Rattle.session_core.specs.Damage.{IsFaultIn, version_for};
ghost use Rattle.volume_edits.specs.Purposes.{ToRelate};
ghost use Rattle.session_core.specs.Sessions.{SessionState};
ghost use Rattle.session_core.specs.Ways.{HasReadRelatives};

use super::Session;
use super::objects::or_stop;
use disk_model::Disk;
use ex_base::{Oid, PortFault, ReadVolume};
use session_views::Stop;
use std::alloc::{AllocError, Global};
use version_tree::{derived, older, versions};
use volume_port::{MAIN, ReadingPort};

/// Which relatives of a version are asked for.
#[derive(Clone, Copy, Debug, PartialEq, Eq)]
pub enum Relation {
    /// All versions of its object, as they are listed.
    Object,
    /// Those that are derived from it, in order of their unique numbers.
    Derived,
    /// The one that it is derived from, if it is derived from one.
    Older,
}

/// The version as a list, if there is one.
fn listed(alloc: Global, oid: Option<Oid>) -> Result<Vec<Oid>, AllocError>
    ensures { IfOk result (λ oids. oids.items ≡ oids_if oid) }
{
    let mut oids = Vec::new(alloc);
    if let Some(oid) = oid {
        oids.push(oid)?;
    }
    Ok(oids)
}

// Lists relatives of a version of a volume.
fn relatives_in<V: ReadVolume>(
    volume: &mut V,
    alloc: Global,
    oid: &Oid,
    relation: Relation,
) -> Result<Vec<Oid>, PortFault>
    requires { V.ready volume.old }
    ensures oids { (before : View SessionState) → PortShows V.Ground volume.old before
        → IfVersion before oid.now (λ version. IfOk result (λ oids.
        AreRelatives before.machine version relation oids.items)) }
    ensures sound { (before : View SessionState) → PortShows V.Ground volume.old before
        → IfVersion before oid.now (λ version. IfErr result (λ fault. IsDamage fault → ⊥)) }
    ensures way { OnOk result (V.tells volume.old → HasReadRelatives relation
        (V.geometry volume.old) (V.image volume.old) oid.now) }
    ensures fault { IfErr result (IsFaultIn V.Ground volume.old
        (version_for oid.now ToRelate)) }
    ensures kept { Keeps V.Ground volume.old volume.new }
    ensures cause { HasCause (V.faults volume.old) (V.faults volume.new) result }
{
    match relation {
        Relation::Object => versions(volume, alloc, oid),
        Relation::Derived => derived(volume, alloc, oid),
        Relation::Older => Ok(listed(alloc, older(volume, alloc, oid)?)?),
    }
}

impl Session {
    ghost use Rattle.session_core.specs.Sessions.{IsSession};
    ghost use Rattle.session_core.specs.Steps.{OnlyFrames};
    ghost use Rattle.session_core.specs.Damage.{TellsFor, image_on};
    ghost use Rattle.volume_port.specs.Reading.{TellsBytes};
    ghost use Rattle.session_core.specs.Finding.{LineStops, IsOutside};

    /// Relatives of a version. It stops where the disk fails, where memory is wanted, and at a page that isn't what names it.
    pub fn relatives<D: Disk>(
        &mut self,
        alloc: Global,
        disk: &mut D,
        oid: &Oid,
        relation: Relation,
    ) -> Result<Vec<Oid>, Stop>
        requires room { volume_bytes self.old.geometry ≤ (D.outside disk.old).size }
        ensures session { IsSession self.old }
        ensures only { OnlyFrames (D.outside disk.old) (D.outside disk.new) self.old self.new }
        ensures oids { IfOk result (λ oids. IfShown (D.outside disk.old) self.old
            (λ before. IfVersion before oid.now (λ version.
            AreRelatives before.machine version relation oids.items))) }
        ensures way { OnOk result (TellsBytes (D.outside disk.old) self.old.groups
            → HasReadRelatives relation self.old.geometry
            (image_on (D.outside disk.old) self.old) oid.now) }
        ensures stops { IfErr result (LineStops (D.outside disk.old) (D.outside disk.new)) }
        ensures damage { IfErr result (TellsFor (D.outside disk.old) (D.outside disk.new)
            self.old (version_for oid.now ToRelate)) }
        ensures sound { IfErr result (λ why. IfShown (D.outside disk.old) self.old
            (λ before. IfVersion before oid.now (λ version. IsOutside why))) }
    {
        let mut port = ReadingPort {
            disk,
            groups: &mut self.volume.groups,
            room: &mut self.room,
            index: MAIN,
            keeps_leaves: false,
            geometry: self.volume.geometry,
            meta: &self.volume.meta,
            pages: &self.volume.pages,
        };
        or_stop(relatives_in(&mut port, alloc, oid, relation))
    }
}
