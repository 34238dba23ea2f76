//! What is read of a version by its root: its shape, and its bytes.
ghost use Rattle.std.specs.Prelude.{◌≡◌, ◌≤◌, ◌+◌, IfOk, IfErr, OnOk, length};
ghost use Rattle.ex_base.specs.Bytes.{bytes_at};
ghost use Rattle.ex_base.specs.Sizes.{volume_bytes};
ghost use Rattle.trees.specs.Roots.{IsRootFor};
ghost use Rattle.session_core.specs.Finding.{IfLive, IfRoot, IfShown, TellsShape};

use super::Session;
use super::objects::or_stop;
use disk_model::Disk;
use ex_base::Root;
use session_views::Stop;
use std::alloc::Global;
use tree_insert::{leaf_lengths, read};
use volume_port::{MAIN, ReadingPort};

impl Session {
    ghost use Rattle.session_core.specs.Sessions.{IsSession};
    ghost use Rattle.session_core.specs.Steps.{OnlyFrames};
    ghost use Rattle.session_core.specs.Damage.{TellsOfTree, units_on};
    ghost use Rattle.session_core.specs.Ways.{IsSoundTree};
    ghost use Rattle.versions.specs.Damage.{HasSoundWay};
    ghost use Rattle.volume_port.specs.Reading.{TellsBytes};
    ghost use Rattle.session_core.specs.Finding.{LineStops, IsOutside};

    /// The number of leaves of a version's tree, and in `first` the bytes of the first ones, as many as it has room for. It stops where the disk fails,
    /// where memory is wanted, and at a page that isn't what names it; then `first` holds nothing that counts.
    pub fn shape<D: Disk>(
        &mut self,
        alloc: Global,
        disk: &mut D,
        root: &Root,
        first: &mut [u32],
    ) -> Result<u64, Stop>
        requires room { volume_bytes self.old.geometry ≤ (D.outside disk.old).size }
        requires root { IsRootFor self.old.geometry root.now }
        ensures session { IsSession self.old }
        ensures only { OnlyFrames (D.outside disk.old) (D.outside disk.new) self.old self.new }
        ensures shape { IfOk result (λ leaves. IfShown (D.outside disk.old) self.old
            (λ before. IfRoot before root.now
            (λ oid. TellsShape before oid leaves first.old first.new))) }
        ensures way { OnOk result (TellsBytes (D.outside disk.old) self.old.groups
            → IsSoundTree self.old.geometry (units_on (D.outside disk.old) self.old) root.now) }
        ensures stops { IfErr result (LineStops (D.outside disk.old) (D.outside disk.new)) }
        ensures damage { IfErr result (TellsOfTree (D.outside disk.old) self.old root.now) }
        ensures sound { IfErr result (λ why. IfShown (D.outside disk.old) self.old
            (λ before. IfRoot before root.now (λ oid. IsOutside why))) }
    {
        let mut port = ReadingPort {
            disk,
            groups: &mut self.volume.groups,
            room: &mut self.room,
            index: MAIN,
            keeps_leaves: false,
            geometry: self.volume.geometry,
            meta: &self.volume.meta,
            pages: &self.volume.pages,
        };
        or_stop(leaf_lengths(&mut port, alloc, root, first))
    }

    /// Reads bytes of a version by its root, from a position on, as many as `out` holds. It stops where the disk fails, where memory is wanted, and at a
    /// page that isn't what names it.
    pub fn read_tree<D: Disk>(
        &mut self,
        alloc: Global,
        disk: &mut D,
        root: &Root,
        pos: u64,
        out: &mut [u8],
    ) -> Result<(), Stop>
        requires room { volume_bytes self.old.geometry ≤ (D.outside disk.old).size }
        requires root { IsRootFor self.old.geometry root.now }
        requires range { pos + length out.old ≤ root.now.size }
        ensures session { IsSession self.old }
        ensures only { OnlyFrames (D.outside disk.old) (D.outside disk.new) self.old self.new }
        ensures bytes { OnOk result (IfShown (D.outside disk.old) self.old
            (λ before. IfRoot before root.now (λ oid. IfLive before oid
            (λ bytes. out.new ≡ bytes_at bytes pos (length out.old))))) }
        ensures way { OnOk result (TellsBytes (D.outside disk.old) self.old.groups
            → HasSoundWay self.old.geometry (units_on (D.outside disk.old) self.old) pos
            (length out.old) root.now) }
        ensures stops { IfErr result (LineStops (D.outside disk.old) (D.outside disk.new)) }
        ensures damage { IfErr result (TellsOfTree (D.outside disk.old) self.old root.now) }
        ensures sound { IfErr result (λ why. IfShown (D.outside disk.old) self.old
            (λ before. IfRoot before root.now (λ oid. IsOutside why))) }
    {
        let mut port = ReadingPort {
            disk,
            groups: &mut self.volume.groups,
            room: &mut self.room,
            index: MAIN,
            keeps_leaves: false,
            geometry: self.volume.geometry,
            meta: &self.volume.meta,
            pages: &self.volume.pages,
        };
        or_stop(read(&mut port, alloc, root, pos, out))
    }
}
