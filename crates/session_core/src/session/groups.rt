//! The names of a session, and its groups of frames.
ghost use Rattle.std.specs.Prelude.{◌≡◌, ◌≤◌, ◌<◌, length, OnOk, OnErr};
ghost use Rattle.table_model.specs.Machines.{groups_most};
ghost use Rattle.table_model.specs.Requests.{frames_most};

use super::Session;
use ex_base::Items;
use open_scans::{add_group, group_index};
use std::alloc::{AllocError, Global};
use table_model::GroupRow;

impl Session {
    ghost use Rattle.open_scans.specs.GroupRows.{group_index};
    ghost use Rattle.session_core.specs.ScanRows.{takes_name, grouped};

    /// Whether a version is bound to the name, or an open scan or a group has it.
    pub fn is_taken(&self, name: &[u8]) -> bool
        ensures { result ≡ takes_name self.now name.now }
    {
        self.names.is_bound(name)
            || self.scans.has(name)
            || group_index(self.group_rows.as_slice(), name).is_some()
    }

    /// The index of the group that has the name. That of `main` is 0.
    pub fn group_index(&self, name: &[u8]) -> Option<u32>
        ensures { result ≡ group_index self.now.group_rows name.now }
    {
        group_index(self.group_rows.as_slice(), name)
    }

    /// How many groups there are besides `main`.
    pub fn group_count(&self) -> u32
        ensures value { result ≡ length self.now.group_rows }
        ensures few { length self.now.group_rows ≤ groups_most }
    {
        self.group_rows.len() as u32
    }

    /// Puts a group with no page in it behind the others, of 1 to 1,024 frames: of a full one, by `mru`, the most recently used frame gives way, and else
    /// the least recently used one. Where there is no memory, nothing changes.
    pub fn add_group(
        &mut self,
        alloc: Global,
        name: &[u8],
        frames: u32,
        mru: bool,
    ) -> Result<(), AllocError>
        requires few { length self.old.group_rows < groups_most }
        requires some { 1 ≤ frames }
        requires most { frames ≤ frames_most }
        ensures ok { OnOk result (self.new
            ≡ grouped self.old (record { name = name.now; frames = frames; mru = mru })) }
        ensures err { OnErr result (self.new ≡ self.old) }
    {
        let row = GroupRow {
            name: Items::of_bytes(alloc, name)?,
            frames,
            mru,
        };
        let page_size = self.volume.geometry.page_size;
        add_group(
            alloc,
            &mut self.group_rows,
            &mut self.volume.groups,
            row,
            page_size,
        )
    }
}
