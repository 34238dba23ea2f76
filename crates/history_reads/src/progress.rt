//! How far a stream was read, and what each whole item does to that.
ghost use Rattle.std.specs.Prelude.{◌≡◌, ℕ, ◌+◌, ◌<◌, ◌≤◌, ◌^◌, List, [], ◌∷◌, ◌++◌, length, Some, None, IfOk, IfSome, OnOk, Err, IsTrue, IsFalse};
ghost use Rattle.ex_base.specs.declared.geometry.Geometry.{Geometry};
ghost use Rattle.ex_base.specs.Order.{Rising};
ghost use Rattle.history_items.specs.Heads.{stream_head};
ghost use Rattle.history_fronts.specs.Fronts.{IsDumpHead};
ghost use Rattle.history_counts.specs.Pages.{pages_by};
ghost use Rattle.history_reads.specs.Rising.{Rising-prop};

use crate::namings::name_leaf;
use ex_base::Geometry;
use history_counts::{FileNumbers, LastName, LeafLengths, PageNeeds, record_len};
use history_fronts::Turn;
use history_items::{
    FileHead, Head, LEAF_HEAD, NodeItem, VersionItem, read_file_head, read_version,
};
use std::alloc::{AllocError, Global};

/// Why bytes weren't taken.
#[derive(Debug, PartialEq, Eq)]
pub enum ReadFault {
    /// There is no memory.
    Memory,
    /// No dump begins so.
    Refused,
}

impl From<AllocError> for ReadFault {
    ghost use Rattle.history_reads.specs.declared.progress.ReadFault.TheVariants.{Memory};

    ghost from_gives = { λ _ fault. fault ≡ Memory };

    fn from(_: AllocError) -> ReadFault {
        ReadFault::Memory
    }
}

/// How far a stream was read: its head, how many leaves, nodes and files came, how many versions of the last file are still to come, and what the tests of items
/// need. Two numbers for each leaf are taken once, and two for a version of the file at hand.
#[derive(Drop)]
pub struct Progress {
    pub geometry: Geometry,
    pub head: Head,
    pub leaves: u32,
    pub nodes: u32,
    pub files: u32,
    pub missing: u32,
    pub lengths: LeafLengths,
    pub name: LastName,
    pub needs: PageNeeds,
    pub numbers: FileNumbers,
    pub ghost few_pages: { pages_by needs ≤ head.pages },
    pub ghost in_order: { Rising numbers.numbers } by { Rising-prop numbers.numbers },
    pub ghost all_lengths: { length lengths.lengths ≡ head.leaves },
    pub ghost all_longest: { length lengths.longest ≡ head.leaves },
}

impl Progress {
    ghost use Rattle.history_reads.specs.Reads.{need_now, turn_now, IsRead, HasItem, CantBeRead};
    ghost use Rattle.ex_base.specs.Bytes.{IsBytes};
    ghost use Rattle.history_model.specs.Stream.{head_bytes};
    ghost use Rattle.history_model.specs.Items.{IsChild, IsContentItem};
    ghost use Rattle.history_items.specs.Gathering.{item_most};
    ghost use Rattle.history_items.specs.Reads.{version_of};
    ghost use Rattle.object_records.specs.Reads.{content_of};
    ghost use Rattle.trees.specs.Node.{RiseFrom};
    ghost use Rattle.std.specs.List.{AllByRecursion};
    ghost use Rattle.history_fronts.specs.Fronts.{ALeaf, ANode, AVersion};
    ghost use Rattle.history_reads.specs.Kept.{AreOfOneStream, Takes, Refuses, file_item_of};
    ghost use Rattle.history_reads.specs.Steps.{Asking};
    ghost use Rattle.history_reads.specs.Ends.{IsWhole};
    ghost use Rattle.history_model.specs.Dumps.{IsNoDump};

    /// A stream of which the head came, which may be that of a dump for volumes of these sizes.
    pub fn begin(alloc: Global, geometry: &Geometry, head: &Head) -> Result<Progress, AllocError>
        requires { IsDumpHead geometry.now (stream_head head.now) }
        ensures read { IfOk result (λ p. (bytes : List ℕ) → IsBytes bytes
            → bytes ≡ head_bytes (stream_head head.now) → IsRead geometry.now bytes p []) }
        ensures geometry { IfOk result (λ p. p.geometry ≡ geometry.now) }
        ensures head { IfOk result (λ p. p.head ≡ head.now) }
        ensures asking { IfOk result (λ p. Asking p []) }
    {
        Ok(Progress {
            geometry: *geometry,
            head: *head,
            leaves: 0,
            nodes: 0,
            files: 0,
            missing: 0,
            lengths: LeafLengths::make(alloc, geometry, head.leaves)?,
            name: LastName::none(),
            needs: PageNeeds::none(),
            numbers: FileNumbers::make(alloc),
        })
    }

    /// The kind of the item that comes next.
    pub fn turn(&self) -> Turn
        ensures { result ≡ turn_now self.now }
    {
        Turn::behind(
            &self.head,
            self.leaves,
            self.nodes,
            self.files,
            self.missing,
        )
    }

    /// How many bytes the item that comes next needs that begins with these: no fewer than they are, and no more than the longest item has. None where no such item
    /// does.
    pub fn need(&self, bytes: &[u8]) -> Option<usize>
        ensures need { result ≡ need_now self.now bytes.now }
        ensures few { IfSome result (λ n. n ≤ item_most self.now.geometry) }
        ensures ahead { IfSome result (λ n. length bytes.now ≤ n) }
    {
        self.turn()
            .need(bytes, &self.geometry, self.head.leaves, self.nodes)
    }

    /// Notes that a leaf of so many bytes came.
    fn accept_leaf(&mut self, len: u32)
        requires { self.old.leaves < self.old.head.leaves }
        ensures takes { (leaf : List ℕ) → length leaf ≡ len
            → Takes self.old self.new (ALeaf leaf) }
        ensures stream { AreOfOneStream self.old self.new }
    {
        let _all = self.head.leaves;
        self.lengths.came(self.leaves, len);
        self.leaves += 1;
    }

    /// Notes that a node came.
    fn accept_node(&mut self, node: &NodeItem<'_>)
        requires turn { self.old.nodes < self.old.head.nodes }
        requires rising { RiseFrom 0 node.now.pairs }
        requires children { node.now.level ≡ 1
            → AllByRecursion (IsChild self.old.head.leaves) node.now.pairs }
        ensures takes { Takes self.old self.new (ANode node.now) }
        ensures stream { AreOfOneStream self.old self.new }
    {
        let _all = self.head.nodes;
        self.lengths.name_in_node(node);
        self.nodes += 1;
    }

    /// Begins a file, if its name comes behind the last one, and its pages are within what the head says.
    fn accept_file(&mut self, file: &FileHead<'_>) -> Result<(), ReadFault>
        requires turn { self.old.files < self.old.head.files }
        requires missing { self.old.missing ≡ 0 }
        requires some { 1 ≤ length file.now.name.now }
        requires name { length file.now.name.now ≤ 32 }
        ensures takes { OnOk result (Takes self.old self.new (file_item_of file.now)) }
        ensures refused { result ≡ Err ReadFault.Refused
            → Refuses self.old (file_item_of file.now) }
        ensures stream { AreOfOneStream self.old self.new }
    {
        let needs = self.needs.with_file();
        if !self.name.is_before(file.name) || needs.pages() > u64::from(self.head.pages) {
            return Err(ReadFault::Refused);
        }
        self.name.set(file.name);
        self.numbers.clear();
        self.needs = needs;
        self.files += 1;
        self.missing = file.versions;
        Ok(())
    }

    /// Notes a version of the last file, if its number comes behind the last one's, and the file's pages stay within what the head says; and where it is the file's
    /// last one, whether each version is there that one is derived from.
    fn accept_version(&mut self, version: &VersionItem<'_>) -> Result<(), ReadFault>
        requires turn { 0 < self.old.missing }
        requires content { IsContentItem self.old.geometry self.old.head.leaves self.old.nodes
            (content_of version.now.content) }
        ensures takes { OnOk result (Takes self.old self.new (AVersion (version_of version.now))) }
        ensures refused { result ≡ Err ReadFault.Refused
            → Refuses self.old (AVersion (version_of version.now)) }
        ensures stream { AreOfOneStream self.old self.new }
    {
        let _most = self.head.pages;
        let len = record_len(version.content);
        let needs = self.needs.with_record(self.geometry.page_size, len);
        if !self.numbers.rise_with(version.unique) || needs.pages() > u64::from(self.head.pages) {
            return Err(ReadFault::Refused);
        }
        self.numbers.push(version.unique, version.older)?;
        self.needs = needs;
        self.missing -= 1;
        name_leaf(&mut self.lengths, version.content);
        if self.missing == 0 && !self.numbers.are_olders_there() {
            return Err(ReadFault::Refused);
        }
        Ok(())
    }

    /// Takes a whole item, which is the one that comes next. Where the answer is that there is no memory, nothing more can be read.
    pub fn accept(&mut self, item: &[u8]) -> Result<(), ReadFault>
        requires { need_now self.old item.now ≡ Some (length item.now) }
        ensures read { OnOk result ((g : Geometry) (joined : List ℕ)
            → HasItem g joined self.old item.now → IsRead g joined self.new []) }
        ensures refused { result ≡ Err ReadFault.Refused → (g : Geometry) (joined : List ℕ)
            → HasItem g joined self.old item.now → CantBeRead g joined }
        ensures asking { OnOk result (Asking self.new []) }
        ensures stream { AreOfOneStream self.old self.new }
    {
        match self.turn() {
            Turn::Leaf => {
                self.accept_leaf((item.len() - LEAF_HEAD) as u32);
                Ok(())
            }
            Turn::Node => {
                self.accept_node(&NodeItem::over(item));
                Ok(())
            }
            Turn::Version => self.accept_version(&read_version(item)),
            Turn::File => self.accept_file(&read_file_head(item)),
            Turn::End => Err(ReadFault::Refused),
        }
    }

    /// Whether what was read is a whole stream, as far as its bytes tell, where the source is at its end and these bytes came of an item: none did, nothing is missing,
    /// each leaf is as long as its longest naming, and the files need as many pages as the head says.
    pub fn is_whole(&self, held: &[u8]) -> bool
        ensures whole { IsTrue result → (g : Geometry) (joined : List ℕ)
            → IsRead g joined self.now held.now → IsWhole g joined }
        ensures none { IsFalse result → (g : Geometry) (joined : List ℕ)
            → IsRead g joined self.now held.now → IsNoDump joined g }
    {
        let most = u64::from(self.head.pages);
        if !held.is_empty() {
            return false;
        }
        if !self.lengths.are_named() {
            return false;
        }
        match self.turn() {
            Turn::End => self.needs.pages() == most,
            _ => false,
        }
    }
}
