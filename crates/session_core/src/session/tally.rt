//! How many objects and versions a file has.
ghost use Rattle.std.specs.Prelude.{◌≡◌, ◌≤◌, IfOk, IfErr};
ghost use Rattle.std.specs.List.{count_by};
ghost use Rattle.ex_base.specs.Ports.{Keeps, HasCause, IsDamage};
ghost use Rattle.ex_base.specs.Sizes.{volume_bytes};
ghost use Rattle.session_core.specs.Damage.{IsFaultIn, no_version};
ghost use Rattle.volume_edits.specs.Purposes.{anyhow};
ghost use Rattle.session_core.specs.Finding.{IfFile, IfPortFile};
ghost use Rattle.session_core.specs.Tallies.{IsTally, is_first};

use super::Session;
use super::objects::or_stop;
use disk_model::Disk;
use ex_base::{PortFault, ReadVolume};
use session_views::Stop;
use std::alloc::Global;
use version_tree::{Member, collect};
use volume_port::{MAIN, ReadingPort};

/// How many objects and versions a file has.
#[derive(Clone, Copy)]
pub struct Tally {
    /// Its objects.
    pub objects: usize,
    /// The versions of all of them.
    pub versions: usize,
}

/// How many of the versions are derived from none.
fn count_firsts(members: &[Member]) -> usize
    ensures { result ≡ count_by is_first members.now }
{
    let mut firsts = 0;
    'members: for member in members {
        if member.older.is_none() {
            firsts += 1;
        }
    }
    firsts
}

// Counts the objects and versions of a file of a volume: each object has one version that is derived from none.
fn tally_in<V: ReadVolume>(volume: &mut V, alloc: Global, file_no: u32) -> Result<Tally, PortFault>
    requires { V.ready volume.old }
    ensures tally { IfOk result (λ tally. IfPortFile V.Ground volume.old file_no
        (λ before name. IsTally before.machine name tally)) }
    ensures sound { IfErr result (λ fault. IfPortFile V.Ground volume.old file_no
        (λ before name. IsDamage fault → ⊥)) }
    ensures fault { IfErr result (IsFaultIn V.Ground volume.old (anyhow no_version)) }
    ensures kept { Keeps V.Ground volume.old volume.new }
    ensures cause { HasCause (V.faults volume.old) (V.faults volume.new) result }
{
    match collect(volume, alloc, file_no) {
        Ok(members) => Ok(Tally {
            objects: count_firsts(&members),
            versions: members.len(),
        }),
        Err(fault) => Err(fault),
    }
}

impl Session {
    ghost use Rattle.session_core.specs.Sessions.{IsSession};
    ghost use Rattle.session_core.specs.Steps.{OnlyFrames};
    ghost use Rattle.session_core.specs.Damage.{TellsDamage};
    ghost use Rattle.session_core.specs.Finding.{LineStops, IsOutside};

    /// How many objects and versions the file with a number has. It stops where the disk fails, where memory is wanted, and at a page that isn't what
    /// names it.
    pub fn tally_of<D: Disk>(
        &mut self,
        alloc: Global,
        disk: &mut D,
        file_no: u32,
    ) -> Result<Tally, Stop>
        requires room { volume_bytes self.old.geometry ≤ (D.outside disk.old).size }
        ensures session { IsSession self.old }
        ensures only { OnlyFrames (D.outside disk.old) (D.outside disk.new) self.old self.new }
        ensures tally { IfOk result (λ tally. IfFile (D.outside disk.old) self.old file_no
            (λ before name. IsTally before.machine name tally)) }
        ensures stops { IfErr result (LineStops (D.outside disk.old) (D.outside disk.new)) }
        ensures damage { IfErr result (TellsDamage (D.outside disk.old) (D.outside disk.new)
            self.old no_version) }
        ensures sound { IfErr result (λ why. IfFile (D.outside disk.old) self.old file_no
            (λ before name. IsOutside why)) }
    {
        let mut port = ReadingPort {
            disk,
            groups: &mut self.volume.groups,
            room: &mut self.room,
            index: MAIN,
            keeps_leaves: false,
            geometry: self.volume.geometry,
            meta: &self.volume.meta,
            pages: &self.volume.pages,
        };
        or_stop(tally_in(&mut port, alloc, file_no))
    }
}
