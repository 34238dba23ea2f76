//! The groups of a session.
ghost use Rattle.std.specs.Prelude.{◌≡◌, ◌<◌, ◌≤◌, ◌+◌, ◌*◌, ◌^◌, ◌++◌, [], ◌∷◌, length, slice_get, Some, IfOk, IsOk, OnOk, OnErr, IfSome, ℕ, List, Option};
ghost use Rattle.std.specs.Borrow.{sem};
ghost use Rattle.disk_model.specs.Outside.{Outside, ReadsOnly};
ghost use Rattle.disk_model.specs.Calls.{MakesCalls, MakesAtMost};

use crate::group::{FetchFault, Group};
use disk_model::Disk;
use ex_base::{Image, PageNo};
use std::alloc::{AllocError, Global};
use std::marker::Model;

/// The groups of frames of a session, `main` first. Contracts see the list of the groups.
#[derive(Drop)]
pub struct Groups {
    items: Vec<Group>,
}

impl Model for Groups {
    ghost use Rattle.std.specs.Prelude.{List, length, ◌<◌, ◌^◌};
    ghost use Rattle.buffer_groups.specs.Frames.{Frames};

    ghost Value = { List Frames };

    ghost view = { λ g. g.items.items };

    ghost invariant = { λ g. length g.items.items < 2 ^ 32 };
}

impl Groups {
    ghost use Rattle.buffer_groups.specs.Lending.{LendsGroup};
    ghost use Rattle.buffer_groups.specs.Frames.{Frames, IsHeld};
    ghost use Rattle.buffer_groups.specs.Groups.{GroupBrought, GroupNotBrought, GroupsKeep, HasFrame, LacksFrame, AreOfSize, forgotten_in_all};
    ghost use Rattle.buffer_groups.specs.Cause.{HasFetchCause};

    /// Groups that are `main` alone.
    pub fn make(alloc: Global, main: Group) -> Result<Groups, AllocError>
        ensures { IfOk result (λ g. g ≡ main ∷ []) }
    {
        let mut items = Vec::new(alloc);
        items.push(main)?;
        Ok(Groups { items })
    }

    /// Puts a group last. Where there is no memory, nothing changes.
    pub fn add(&mut self, group: Group) -> Result<(), AllocError>
        requires { length self.old + 1 < 2 ^ 32 }
        ensures ok { OnOk result (self.new ≡ self.old ++ group ∷ []) }
        ensures err { OnErr result (self.new ≡ self.old) }
    {
        self.items.push(group)?;
        Ok(())
    }

    /// How many groups there are.
    pub fn len(&self) -> u32
        ensures { result ≡ length self.now }
    {
        self.items.len() as u32
    }

    /// Lends the group at an index, to be changed.
    pub fn at(&mut self, index: u32) -> &mut Group
        requires { index < length self.old }
        ensures* lends { sem 𝓛 (LendsGroup self.entry index result) }
        ensures value { slice_get self.old index ≡ Some result.now }
    {
        &mut self.items[index as usize]
    }

    /// Lends the group at an index.
    pub fn get(&self, index: u32) -> &Group
        requires { index < length self.now }
        ensures { slice_get self.now index ≡ Some result.now }
    {
        &self.items[index as usize]
    }

    /// Takes a page out of the frames of every group.
    pub fn forget(&mut self, page: PageNo)
        ensures { self.new ≡ forgotten_in_all page.0 self.old }
    {
        for group in self.items.iter_mut() {
            group.forget(page);
        }
    }

    /// Brings a page into the first frame of the group at an index. `Disk` comes only where the disk's count of faults rose.
    pub fn bring<D: Disk>(
        &mut self,
        index: u32,
        alloc: Global,
        disk: &mut D,
        page: PageNo,
    ) -> Result<(), FetchFault>
        requires index { index < length self.old }
        requires range { IfSome (slice_get self.old index) (λ (f : Frames). (page.0
            + 1) * f.page_size ≤ (D.outside disk.old).size) }
        ensures ok { OnOk result
            (GroupBrought (D.outside disk.old).disk self.old self.new index page.0) }
        ensures err { OnErr result (GroupNotBrought self.old self.new index page.0) }
        ensures keeps { GroupsKeep (D.outside disk.old).disk self.old self.new }
        ensures no_memory { HasFrame self.old index page.0 → IsOk result }
        ensures hit { HasFrame self.old index page.0 → disk.new ≡ disk.old }
        ensures miss { LacksFrame self.old index page.0
            → OnOk result (MakesCalls 1 (D.outside disk.old) (D.outside disk.new)) }
        ensures at_most_once { MakesAtMost 1 (D.outside disk.old) (D.outside disk.new) }
        ensures only { ReadsOnly (D.outside disk.old) (D.outside disk.new) }
        ensures cause { HasFetchCause (D.outside disk.old).disk_faults
            (D.outside disk.new).disk_faults result }
    {
        self.at(index).bring(alloc, disk, page)
    }

    /// Puts the bytes of a page that was just written into the first frame of the group at an index, where the page is in none. A fetch of it there
    /// then makes no disk call. Where there is no memory, a frame may be gone.
    pub fn put(&mut self, index: u32, page: PageNo, image: Image) -> Result<(), AllocError>
        requires index { index < length self.old }
        requires absent { LacksFrame self.old index page.0 }
        requires whole { IfSome (slice_get self.old index) (λ (f : Frames). length image
            ≡ f.page_size) }
        ensures ok { OnOk result ((held : Option (List ℕ)) (size : ℕ) → AreOfSize size self.old
            → IsHeld held size page.0 image
            → GroupBrought held self.old self.new index page.0) }
        ensures err { OnErr result (GroupNotBrought self.old self.new index page.0) }
        ensures keeps { (held : Option (List ℕ)) (size : ℕ) → AreOfSize size self.old
            → IsHeld held size page.0 image → GroupsKeep held self.old self.new }
    {
        self.at(index).put(page, image)
    }
}
