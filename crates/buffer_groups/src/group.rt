//! One group of frames.
ghost use Rattle.std.specs.Prelude.{◌≡◌, ◌≤◌, ◌<◌, ◌+◌, ◌*◌, ◌^◌, ◌∷◌, [], length, All, IfOk, OnOk, OnErr, nat_eq, ℕ, List, Option, Some, IsSome, IsOk, MatchResult, slice_get, option_map};
ghost use Rattle.std.specs.Bool.{OnTrue, OnFalse};
ghost use Rattle.std.specs.Borrow.{sem};
ghost use Rattle.std.specs.Map.{lookup};
ghost use Rattle.disk_model.specs.Outside.{Outside, ReadsOnly, Rose};
ghost use Rattle.disk_model.specs.Calls.{MakesCalls, MakesAtMost};

use crate::policy::Policy;
use disk_model::{Disk, Failed};
use ex_base::{Image, PageNo, PortFault};
use lru::LruCache;
use std::alloc::{AllocError, AllocFailed, Global};
use std::marker::Model;
use std::num::NonZeroUsize;

/// Why a page is not in a frame.
#[derive(Clone, Copy, Debug, PartialEq, Eq)]
pub enum FetchFault {
    /// The disk failed: its count of faults rose.
    Disk,
    /// No memory was there.
    Memory,
}

/// A group of frames over a disk. Contracts see its pages with their bytes, the most recently fetched first.
#[derive(Drop)]
pub struct Group {
    alloc: Global,
    cache: LruCache<u32, Image>,
    page_size: u32,
    policy: Policy,
}

impl Model for Group {
    ghost use Rattle.std.specs.Prelude.{◌≡◌, length, All};
    ghost use Rattle.buffer_groups.specs.Frames.{Frames};

    ghost Value = { Frames };

    ghost view = { λ g. record { entries = g.cache.entries; cap = g.cache.cap; page_size = g.page_size; policy = g.policy } };

    ghost invariant = { λ g. All (λ e. length e.1 ≡ g.page_size) g.cache.entries };
}

impl Group {
    ghost use Rattle.buffer_groups.specs.Frames.{Brought, NotBrought, KeepsLending, Lends, IsAbsent, IsHeld, with_room, without, forgotten, page_of};
    ghost use Rattle.buffer_groups.specs.Cause.{HasFetchCause};
    ghost use Rattle.buffer_groups.specs.Lending.{GroupRests};

    /// A group of 1 to 1,024 frames for pages of `page_size` bytes, with no page in it.
    pub fn make(
        alloc: Global,
        frames: u32,
        page_size: u32,
        policy: Policy,
    ) -> Result<Group, AllocError>
        requires some { 0 < frames }
        requires few { frames ≤ 1024 }
        ensures { IfOk result
            (λ g. g ≡ record { entries = []; cap = frames; page_size = page_size; policy = policy }) }
    {
        let cap = NonZeroUsize::new(frames as usize).unwrap();
        Ok(Group {
            alloc,
            cache: LruCache::new(alloc, cap)?,
            page_size,
            policy,
        })
    }

    /// Lends the bytes of a page. A page in a frame goes to the front, with no disk call and no memory. Else, where all frames are used, one gives
    /// way by the group's policy, and then the page is read, by one call, and put in front. After a fault the page is in no frame. `Disk` comes only where the
    /// disk's count of faults rose.
    ///
    /// What is lent ends with the next call on the group. This is refused, since `first` is still in use when the group is borrowed again:
    ///
    /// ```text
    /// let first = group.fetch(alloc, disk, PageNo(258))?;
    /// let second = group.fetch(alloc, disk, PageNo(259))?;
    /// let both = first[0] ^ second[0];
    /// ```
    pub fn fetch<D: Disk>(
        &mut self,
        alloc: Global,
        disk: &mut D,
        page: PageNo,
    ) -> Result<&[u8], FetchFault>
        requires { (page.0 + 1) * self.old.page_size ≤ (D.outside disk.old).size }
        ensures* after { sem 𝓛 (GroupRests self.entry
            (λ new. KeepsLending (D.outside disk.old).disk self.old new × MatchResult result
            (λ s. Brought (D.outside disk.old).disk self.old new page.0 s.now)
            (λ _. NotBrought self.old new page.0))) }
        ensures bytes { IfOk result (λ s. (Lends (D.outside disk.old).disk self.old)
            → (held : List ℕ) → (D.outside disk.old).disk ≡ Some held
            → s.now ≡ page_of held self.old.page_size page.0) }
        ensures len { IfOk result (λ s. length s.now ≡ self.old.page_size) }
        ensures no_memory { IsSome (lookup (nat_eq page.0) self.old.entries) → IsOk result }
        ensures hit { IsSome (lookup (nat_eq page.0) self.old.entries) → disk.new ≡ disk.old }
        ensures miss { IsAbsent self.old page.0
            → OnOk result (MakesCalls 1 (D.outside disk.old) (D.outside disk.new)) }
        ensures at_most_once { MakesAtMost 1 (D.outside disk.old) (D.outside disk.new) }
        ensures only { ReadsOnly (D.outside disk.old) (D.outside disk.new) }
        ensures cause { HasFetchCause (D.outside disk.old).disk_faults
            (D.outside disk.new).disk_faults result }
    {
        self.bring(alloc, disk, page)?;
        Ok(self.frame(page))
    }

    /// Brings a page into the first frame, as `fetch` does, and lends nothing.
    pub fn bring<D: Disk>(
        &mut self,
        alloc: Global,
        disk: &mut D,
        page: PageNo,
    ) -> Result<(), FetchFault>
        requires { (page.0 + 1) * self.old.page_size ≤ (D.outside disk.old).size }
        ensures ok { OnOk result ((bytes : _)
            × Brought (D.outside disk.old).disk self.old self.new page.0 bytes) }
        ensures err { OnErr result (NotBrought self.old self.new page.0) }
        ensures keeps { KeepsLending (D.outside disk.old).disk self.old self.new }
        ensures no_memory { IsSome (lookup (nat_eq page.0) self.old.entries) → IsOk result }
        ensures hit { IsSome (lookup (nat_eq page.0) self.old.entries) → disk.new ≡ disk.old }
        ensures miss { IsAbsent self.old page.0
            → OnOk result (MakesCalls 1 (D.outside disk.old) (D.outside disk.new)) }
        ensures at_most_once { MakesAtMost 1 (D.outside disk.old) (D.outside disk.new) }
        ensures only { ReadsOnly (D.outside disk.old) (D.outside disk.new) }
        ensures cause { HasFetchCause (D.outside disk.old).disk_faults
            (D.outside disk.new).disk_faults result }
    {
        if self.touch(page) {
            Ok(())
        } else {
            self.fill(alloc, disk, page)
        }
    }

    /// Lends the bytes of a page that is in a frame. The rank stays.
    pub fn frame(&self, page: PageNo) -> &[u8]
        requires { IsSome (lookup (nat_eq page.0) self.now.entries) }
        ensures found { lookup (nat_eq page.0) self.now.entries ≡ Some result.now }
        ensures len { length result.now ≡ self.now.page_size }
    {
        self.cache.peek(&page.0).unwrap().as_slice()
    }

    /// Puts the bytes of a page that is in no frame into the first one, as a fetch that reads them does. Where there is no memory, a frame may be
    /// gone.
    pub fn put(&mut self, page: PageNo, image: Image) -> Result<(), AllocError>
        requires absent { IsAbsent self.old page.0 }
        requires whole { length image ≡ self.old.page_size }
        ensures ok { OnOk result ((held : Option (List ℕ))
            → IsHeld held self.old.page_size page.0 image
            → Brought held self.old self.new page.0 image) }
        ensures err { OnErr result (NotBrought self.old self.new page.0) }
        ensures keeps { (held : Option (List ℕ)) → IsHeld held self.old.page_size page.0 image
            → KeepsLending held self.old self.new }
    {
        self.make_room();
        self.put_first(page, image)
    }

    /// A copy of a page's bytes, which `put` takes.
    pub fn copy(&self, bytes: &[u8]) -> Result<Image, AllocError>
        ensures { IfOk result (λ image. image ≡ bytes.now) }
    {
        Image::of(self.alloc, bytes)
    }

    /// Takes a page out of its frame, where it has one. The other frames keep their rank.
    pub fn forget(&mut self, page: PageNo)
        ensures { self.new ≡ forgotten page.0 self.old }
    {
        let _frames = self.cache.len();
        self.cache.pop(&page.0);
    }

    /// The page at a place of the rank, counted from 0 at the most recent one. None past the used frames.
    pub fn frame_at(&self, rank: u32) -> Option<PageNo>
        ensures { result ≡ option_map (λ e. record { 0 = e.0 }) (slice_get self.now.entries rank) }
    {
        match self.cache.iter().nth(rank as usize) {
            Some((page, _)) => Some(PageNo(*page)),
            None => None,
        }
    }

    // Reads a page that is in no frame into one.
    fn fill<D: Disk>(&mut self, alloc: Global, disk: &mut D, page: PageNo) -> Result<(), FetchFault>
        requires range { (page.0 + 1) * self.old.page_size ≤ (D.outside disk.old).size }
        requires absent { IsAbsent self.old page.0 }
        ensures once { OnOk result (MakesCalls 1 (D.outside disk.old) (D.outside disk.new)) }
        ensures at_most_once { MakesAtMost 1 (D.outside disk.old) (D.outside disk.new) }
        ensures ok { OnOk result ((bytes : _)
            × ((self.new ≡ record self.old {
              entries = (page.0, bytes)
                  ∷ with_room self.old.policy self.old.cap self.old.entries;
            })
            × ((held : List ℕ) → (D.outside disk.old).disk ≡ Some held
            → bytes ≡ page_of held self.old.page_size page.0))) }
        ensures err { OnErr result (self.new
            ≡ record self.old { entries = with_room self.old.policy self.old.cap self.old.entries }) }
        ensures only { ReadsOnly (D.outside disk.old) (D.outside disk.new) }
        ensures cause { HasFetchCause (D.outside disk.old).disk_faults
            (D.outside disk.new).disk_faults result }
    {
        self.make_room();
        let size = self.page_size();
        let mut bytes = vec![in alloc; 0u8; size]?;
        disk.read(page.0 as u64 * size as u64, &mut bytes)?;
        Ok(self.put_first(page, Image::from_vec(bytes))?)
    }

    fn page_size(&self) -> usize
        ensures value { result ≡ self.now.page_size }
        ensures fits { result < 2 ^ 32 }
    {
        self.page_size as usize
    }

    // Moves a page to the front, and returns whether it has a frame.
    fn touch(&mut self, page: PageNo) -> bool
        ensures hit { OnTrue result ((bytes : _)
            × ((lookup (nat_eq page.0) self.old.entries ≡ Some bytes)
            × (self.new ≡ record self.old {
              entries = (page.0, bytes)
                  ∷ without page.0 self.old.entries;
            }))) }
        ensures absent { OnFalse result (IsAbsent self.old page.0) }
        ensures stays { OnFalse result (self.new ≡ self.old) }
    {
        let _frames = self.cache.len();
        self.cache.promote(&page.0)
    }

    // Puts a new page first.
    fn put_first(&mut self, page: PageNo, image: Image) -> Result<(), AllocError>
        requires absent { IsAbsent self.old page.0 }
        requires room { length self.old.entries < self.old.cap }
        requires whole { length image ≡ self.old.page_size }
        ensures ok { OnOk result (self.new ≡ record self.old {
          entries = (page.0, image)
              ∷ self.old.entries;
        }) }
        ensures err { OnErr result (self.new ≡ self.old) }
    {
        self.cache.put(page.0, image)?;
        Ok(())
    }

    // Drops a frame where all are used.
    fn make_room(&mut self)
        ensures frames { self.new ≡ record self.old { entries = with_room self.old.policy self.old.cap self.old.entries } }
        ensures room { length self.new.entries < self.new.cap }
    {
        if self.cache.len() == self.cache.cap().get() {
            match self.policy {
                Policy::Lru => drop(self.cache.pop_lru()),
                Policy::Mru => drop(self.cache.pop_mru()),
            }
        }
    }
}

impl From<AllocError> for FetchFault {
    ghost use Rattle.buffer_groups.specs.declared.group.FetchFault.TheVariants.{Memory};

    ghost from_gives = { λ _ e. e ≡ Memory };

    fn from(_: AllocError) -> Self {
        FetchFault::Memory
    }
}

impl<T: Drop> From<AllocFailed<T>> for FetchFault {
    ghost use Rattle.buffer_groups.specs.declared.group.FetchFault.TheVariants.{Memory};

    ghost from_gives = { λ _ e. e ≡ Memory };

    fn from(_: AllocFailed<T>) -> Self {
        FetchFault::Memory
    }
}

impl From<Failed> for FetchFault {
    ghost use Rattle.buffer_groups.specs.declared.group.FetchFault.TheVariants.{Disk};

    ghost from_gives = { λ _ e. e ≡ Disk };

    fn from(_: Failed) -> Self {
        FetchFault::Disk
    }
}

impl From<FetchFault> for PortFault {
    ghost use Rattle.buffer_groups.specs.Cause.{port_fault};

    ghost from_gives = { λ e f. f ≡ port_fault e };

    fn from(e: FetchFault) -> Self {
        match e {
            FetchFault::Disk => PortFault::Disk,
            FetchFault::Memory => PortFault::Memory,
        }
    }
}
