//! Open scans are read on.
ghost use Rattle.std.specs.Prelude.{◌≡◌, ◌≤◌, ◌<◌, length, IfOk, IfErr, IfSome, OnOk, OnErr, slice_set};
ghost use Rattle.ex_base.specs.Sizes.{volume_bytes};
ghost use Rattle.open_scans.specs.OpenScans.{AtRow, HasSoundRest, position_of, row_after};
ghost use Rattle.session_core.specs.Finding.{IfShown};
ghost use Rattle.session_core.specs.ScanRows.{AtScan, bytes_next, with_scans};
ghost use Rattle.volume_port.specs.Reading.{OthersStay};

use super::Session;
use super::objects::or_stop;
use disk_model::Disk;
use session_views::Stop;
use std::alloc::Global;
use volume_port::ReadingPort;

impl Session {
    ghost use Rattle.open_scans.specs.OpenScans.{scan_index};
    ghost use Rattle.session_core.specs.Damage.{TellsDamage, no_version, units_on};
    ghost use Rattle.volume_port.specs.Reading.{TellsBytes};
    ghost use Rattle.session_core.specs.Finding.{IsOutside, LineStops};
    ghost use Rattle.session_core.specs.Sessions.{IsSession};
    ghost use Rattle.session_core.specs.Steps.{OnlyFrames};
    ghost use Rattle.table_model.specs.Machines.{scans_most};

    /// The index of the open scan that has the name.
    pub fn scan_index(&self, name: &[u8]) -> Option<u32>
        ensures value { result ≡ scan_index self.now.scans name.now }
        ensures inside { IfSome result (λ index. index < length self.now.scans) }
        ensures session { IsSession self.now }
    {
        self.scans.index_of(name)
    }

    /// How many scans are open.
    pub fn scan_count(&self) -> u32
        ensures value { result ≡ length self.now.scans }
        ensures few { length self.now.scans ≤ scans_most }
    {
        self.scans.len()
    }

    /// Gives the next `len` bytes of the scan at an index, or all that are left where they are fewer, and moves it on behind them. It reads through the
    /// scan's group, and no other group changes. It stops where the disk fails, where memory is wanted, and at a page that isn't what names it; then no
    /// scan moves.
    pub fn next_piece<D: Disk>(
        &mut self,
        alloc: Global,
        disk: &mut D,
        index: u32,
        len: u32,
    ) -> Result<Vec<u8>, Stop>
        requires room { volume_bytes self.old.geometry ≤ (D.outside disk.old).size }
        requires there { index < length self.old.scans }
        ensures session { IsSession self.old }
        ensures only { OnlyFrames (D.outside disk.old) (D.outside disk.new)
            (with_scans self.old self.new.scans) self.new }
        ensures others { AtRow self.old.scans index
            (λ row. OthersStay row.group self.old.groups self.new.groups) }
        ensures moved { OnOk result (AtRow self.old.scans index
            (λ row. self.new.scans ≡ slice_set self.old.scans index (row_after len row))) }
        ensures stays { OnErr result (self.new.scans ≡ self.old.scans) }
        ensures bytes { IfOk result (λ given. IfShown (D.outside disk.old) self.old
            (λ before. AtScan before.machine index (λ row. given.items ≡ bytes_next len row))) }
        ensures way { OnOk result (TellsBytes (D.outside disk.old) self.old.groups
            → AtRow self.old.scans index (λ row. HasSoundRest self.old.geometry
            (units_on (D.outside disk.old) self.old) len (position_of row.scan))) }
        ensures stops { IfErr result (LineStops (D.outside disk.old) (D.outside disk.new)) }
        ensures damage { IfErr result (TellsDamage (D.outside disk.old) (D.outside disk.new)
            self.old no_version) }
        ensures sound { IfErr result (λ why. IfShown (D.outside disk.old) self.old
            (λ before. AtScan before.machine index (λ row. IsOutside why))) }
    {
        let group = self.scans.group_at(index);
        let mut port = ReadingPort {
            disk,
            groups: &mut self.volume.groups,
            room: &mut self.room,
            index: group,
            keeps_leaves: true,
            geometry: self.volume.geometry,
            meta: &self.volume.meta,
            pages: &self.volume.pages,
        };
        or_stop(self.scans.next(index, &mut port, alloc, len))
    }
}
