//! What the calls on files and versions make of the whole volume and of its table. It has definitions and their laws alone.
#![tactic(auto)]

ghost use Rattle.std.specs.Prelude.{◌≡◌, ◌<◌, ◌≤◌, ◌↔◌, ◌⊎◌, ◌+◌, ◌++◌, ℕ, true, false, List, Option, Some, None, Contains, IsPermutation, IsSome, option_map, length, map, ◌∷◌};
ghost use Rattle.std.specs.Option.{is_some};
ghost use Rattle.std.specs.List.{AllByRecursion, AllZip};
ghost use Rattle.ex_base.specs.declared.names.Oid.{Oid};
ghost use Rattle.ex_base.specs.declared.names.Root.{Root};
ghost use Rattle.ex_base.specs.Area.{catalog_no};
ghost use Rattle.ex_base.specs.Ports.{Keeps, GivesUnit, times};
ghost use Rattle.op_log.specs.declared.record.LogRecord.{LogRecord};
ghost use Rattle.file_bodies.specs.Files.{HasFile, HasFiles};
ghost use Rattle.ex_base.specs.declared.names.Index.{Index};
ghost use Rattle.file_index.specs.Taking.{OnlyTakes, OnlyGives};
ghost use Rattle.file_bodies.specs.Bodies.{bodies_of};
ghost use Rattle.object_files.specs.Catalog.{FileEntry, name_of};
ghost use Rattle.object_files.specs.Edits.{with_entries, entry_inserted, new_file, without_name};
ghost use Rattle.object_records.specs.Record.{Content, Record};
ghost use Rattle.object_records.specs.declared.Head.{Head};
ghost use Rattle.object_records.specs.declared.State.TheVariants.{Current, Frozen};
ghost use Rattle.table_model.specs.declared.table.TableFile.{TableFile};
ghost use Rattle.version_lists.specs.declared.version.Version.{Version};
ghost use Rattle.table_model.specs.Refusals.{branches_if, has_objects, is_only_one};
ghost use Rattle.table_model.specs.Steps.{current_if, oids, versions_if};
ghost use Rattle.table_model.specs.Tables.{version_at, versions_of, object_at, file_at, with_object, with_frozen, with_derived, without_version, with_file, without_file};
ghost use Rattle.version_lists.specs.Versions.{derived_from, listed, numbered_in};
ghost use Rattle.version_lists.specs.Versions.{unique_of as number_of};
ghost use Rattle.versions.specs.Listed.{oids_of, AreByNumber};
ghost use Rattle.versions.specs.Versions.{Stands, HasRecord, HasVersion, Change, EditsVersion, PutsVersion, AreInUse, place_of, root_of};
ghost use Rattle.trees.specs.Counted.{NamesPairs};
ghost use Rattle.trees.specs.Owners.{IsOwned, root_pages};
ghost use Rattle.volume_model.specs.OwnersMoved.{roots_most};
ghost use Rattle.volume_model.specs.Shown.{root_here};
ghost use Rattle.volume_model.specs.Volume.{Stored, Volume, file_pages, reach_of, roots_in, stored_in, table_of, unique_of};
ghost use Rattle.version_tree.specs.Copies.{Freezes, Derives};
ghost use Rattle.version_tree.specs.Lineage.{IsListing};
ghost use Rattle.version_tree.specs.Linked.{AreLinked, OidAt, oids_from};
ghost use Rattle.version_tree.specs.Removals.{Drops, IsBranch, TakesOut};
ghost use Rattle.volume_edits.specs.Ported.{ShowsVolume, IsVolume, IsApart, HasContent, KeepsReach, units_in};
ghost use Rattle.volume_edits.specs.Shown.{HasShown, ReadsVersion};
ghost use Rattle.volume_edits.specs.Edits.{ChangesVolume, MovesVolume, TurnsRoots, WritesCatalog, RecatalogsVolume, IsRootless, catalog_numbered, table_numbered};

use ex_base::Ground;

/// The files of a volume are whole in the port whose working state shows it: each has the pages and the records that the volume says.
pub fn files_of_a_volume<P: Ground>()
    ensures whole { (s : P) (records : List LogRecord) (v : Volume)
        → ShowsVolume P.Ground s records v → HasFiles P.Ground s }
    ensures each { (s : P) (records : List LogRecord) (v : Volume)
        → ShowsVolume P.Ground s records v
        → AllZip (HasContent P.Ground s) v.catalog.entries v.files }
{}

/// The versions of a volume's table are those that the port has the records of. Under an OID that no file has a record of there is none.
pub fn version_of_a_volume<P: Ground>()
    ensures read { (s : P) (records : List LogRecord) (v : Volume) (oid : Oid) (version : Version)
        → ShowsVolume P.Ground s records v
        → version_at (table_of (units_in P.Ground s) v) oid ≡ Some version
        → ReadsVersion P.Ground s oid version }
    ensures stands { (s : P) (records : List LogRecord) (v : Volume) (oid : Oid) (version : Version)
        → IsVolume P.Ground s records v
        → version_at (table_of (units_in P.Ground s) v) oid ≡ Some version
        → HasShown P.Ground s oid version }
    ensures absent { (s : P) (records : List LogRecord) (v : Volume) (oid : Oid)
        → ShowsVolume P.Ground s records v
        → (version_at (table_of (units_in P.Ground s) v) oid ≡ None) ↔ ¬ Stands P.Ground s oid }
{}

/// The records of a volume are linked, and the tree of a version in the volume's table is what the port's records say: whether it is the only one that is
/// derived from its older one, how many are derived from it, and in which order the versions of its object are listed.
pub fn tree_of_a_version<P: Ground>()
    ensures linked { (s : P) (records : List LogRecord) (v : Volume)
        → ShowsVolume P.Ground s records v → AreLinked P.Ground s }
    ensures only { (s : P) (records : List LogRecord) (v : Volume) (oid : Oid)
        (version : Version) (index : Index) (is : Record) → ShowsVolume P.Ground s records v
        → version_at (table_of (units_in P.Ground s) v) oid ≡ Some version
        → HasRecord P.Ground s index oid is
        → (is_only_one (versions_of (table_of (units_in P.Ground s) v)) (Some version) ≡ true)
        ↔ ¬ IsBranch (bodies_of (P.Ground.image s) index) is.head.older }
    ensures derived { (s : P) (records : List LogRecord) (v : Volume) (oid : Oid)
        (version : Version) (index : Index) (is : Record) → ShowsVolume P.Ground s records v
        → version_at (table_of (units_in P.Ground s) v) oid ≡ Some version
        → HasRecord P.Ground s index oid is
        → IsPermutation (oids (derived_from (number_of version)
        (versions_of (table_of (units_in P.Ground s) v))))
        (oids_from (place_of oid) (bodies_of (P.Ground.image s) index)) }
    ensures older { (s : P) (records : List LogRecord) (v : Volume) (oid : Oid)
        (version : Version) (index : Index) (is : Record) (found : Option Oid)
        → ShowsVolume P.Ground s records v
        → version_at (table_of (units_in P.Ground s) v) oid ≡ Some version
        → HasRecord P.Ground s index oid is
        → OidAt (bodies_of (P.Ground.image s) index) is.head.older found
        → found ≡ option_map (λ (w : Version). w.oid)
        (numbered_in (versions_of (table_of (units_in P.Ground s) v)) version.older) }
    ensures first { (s : P) (records : List LogRecord) (v : Volume) (oid : Oid)
        (version : Version) (index : Index) (is : Record) → ShowsVolume P.Ground s records v
        → version_at (table_of (units_in P.Ground s) v) oid ≡ Some version
        → HasRecord P.Ground s index oid is
        → (is.head.older ≡ None) ↔ (version.older ≡ None) }
    ensures newer { (s : P) (records : List LogRecord) (v : Volume) (oid : Oid)
        (version : Version) (index : Index) (is : Record) → ShowsVolume P.Ground s records v
        → version_at (table_of (units_in P.Ground s) v) oid ≡ Some version
        → HasRecord P.Ground s index oid is → version.frozen ≡ true
        → (branches_if (versions_of (table_of (units_in P.Ground s) v)) (Some version) ≡ 1)
        ↔ IsSome is.head.newer }
    ensures listed { (s : P) (records : List LogRecord) (v : Volume) (oid : Oid)
        (version : Version) (index : Index) (is : Record) (listing : List Oid)
        → ShowsVolume P.Ground s records v
        → version_at (table_of (units_in P.Ground s) v) oid ≡ Some version
        → HasRecord P.Ground s index oid is
        → IsListing (bodies_of (P.Ground.image s) index)
        (record { oid = oid; older = is.head.older }) listing
        → listing ≡ oids (listed (versions_if (object_at (table_of (units_in P.Ground s) v) oid))) }
{}

/// The files of a volume's table have the names of the catalog's entries. A file has objects where its entry has a root.
pub fn files_in_the_table<P: Ground>()
    ensures names { (s : P) (records : List LogRecord) (v : Volume)
        → ShowsVolume P.Ground s records v
        → map (λ (f : TableFile). f.name) (table_of (units_in P.Ground s) v).files
        ≡ map name_of v.catalog.entries }
    ensures there { (s : P) (records : List LogRecord) (v : Volume) (e : FileEntry)
        → ShowsVolume P.Ground s records v → Contains v.catalog.entries e
        → IsSome (file_at (table_of (units_in P.Ground s) v) e.name) }
    ensures absent { (s : P) (records : List LogRecord) (v : Volume) (name : List ℕ)
        → ShowsVolume P.Ground s records v → ¬ Contains (map name_of v.catalog.entries) name
        → file_at (table_of (units_in P.Ground s) v) name ≡ None }
    ensures objects { (s : P) (records : List LogRecord) (v : Volume) (e : FileEntry)
        → ShowsVolume P.Ground s records v → Contains v.catalog.entries e
        → has_objects (file_at (table_of (units_in P.Ground s) v) e.name) ≡ is_some e.root }
{}

/// The OIDs of the current records of a file, in order of their numbers, are those of the current versions of the file in the table.
pub fn a_listed_file<P: Ground>()
    ensures { (s : P) (records : List LogRecord) (v : Volume) (e : FileEntry) (index : Index)
        (oids : List Oid) → ShowsVolume P.Ground s records v → Contains v.catalog.entries e
        → HasFile P.Ground s index → index.file_no ≡ e.file_no
        → IsPermutation (oids_of (bodies_of (P.Ground.image s) index)) oids → AreByNumber oids
        → oids ≡ map (λ (version : Version). version.oid)
        (current_if (file_at (table_of (units_in P.Ground s) v) e.name)) }
{}

/// A volume stays, with its table and the units that it reaches, where nothing that it reaches changes and no logged page is taken or given back.
pub fn a_volume_that_stays<P: Ground>()
    ensures shown { (old new : P) (records : List LogRecord) (v : Volume)
        → ShowsVolume P.Ground old records v → KeepsReach P.Ground old new v
        → ShowsVolume P.Ground new records v }
    ensures whole { (old new : P) (records : List LogRecord) (v : Volume)
        → IsVolume P.Ground old records v → KeepsReach P.Ground old new v
        → ((unit : ℕ) → Contains (reach_of (units_in P.Ground old) v) unit
        → P.Ground.used new unit ≡ true) → IsVolume P.Ground new records v }
    ensures table { (old new : P) (records : List LogRecord) (v : Volume)
        → ShowsVolume P.Ground old records v → KeepsReach P.Ground old new v
        → table_of (units_in P.Ground new) v ≡ table_of (units_in P.Ground old) v }
    ensures reach { (old new : P) (records : List LogRecord) (v : Volume)
        → ShowsVolume P.Ground old records v → KeepsReach P.Ground old new v
        → reach_of (units_in P.Ground new) v ≡ reach_of (units_in P.Ground old) v }
{}

/// A call that changes nothing keeps what a volume reaches.
pub fn a_kept_volume<P: Ground>()
    ensures reach { (old new : P) (v : Volume) → Keeps P.Ground old new → IsApart P.Ground old
        → KeepsReach P.Ground old new v }
    ensures whole { (old new : P) (records : List LogRecord) (v : Volume)
        → IsVolume P.Ground old records v → Keeps P.Ground old new
        → IsVolume P.Ground new records v }
{}

/// A unit that the volume doesn't reach may be given back.
pub fn a_volume_without_a_unit<P: Ground>()
    ensures reach { (old new : P) (v : Volume) (unit : ℕ) → GivesUnit P.Ground old new unit
        → ¬ Contains (reach_of (units_in P.Ground old) v) unit → IsApart P.Ground new
        → KeepsReach P.Ground old new v }
    ensures whole { (old new : P) (records : List LogRecord) (v : Volume) (unit : ℕ)
        → IsVolume P.Ground old records v → GivesUnit P.Ground old new unit
        → ¬ Contains (reach_of (units_in P.Ground old) v) unit → IsApart P.Ground new
        → IsVolume P.Ground new records v }
{}

/// An edit of a current version makes a volume whose table has the new bytes in that version and is else the same. The volume has the same catalog and the
/// same pages, and each unit of its trees is one of before or was free.
pub fn an_edited_version<P: Ground>()
    ensures { (old new : P) (records : List LogRecord) (v : Volume) (index : Index) (oid : Oid)
        (head : Head) (content : Content) (change : Change) (before bytes : List ℕ)
        → IsVolume P.Ground old records v
        → P.Ground.geometry new ≡ P.Ground.geometry old → IsApart P.Ground new
        → HasVersion P.Ground old index oid head content before
        → (edit : EditsVersion P.Ground old new index oid head content change bytes)
        → ChangesVolume P.Ground old new records v oid bytes (root_of content) (root_of edit.now) }
{}

/// A current version whose record is taken out leaves a volume whose table has it no more, nor its object, if it was the only one, and is else the same.
pub fn a_removed_version<P: Ground>()
    ensures { (old new : P) (records : List LogRecord) (v : Volume) (index : Index) (oid : Oid)
        (is : Record) → IsVolume P.Ground old records v
        → P.Ground.geometry new ≡ P.Ground.geometry old → IsApart P.Ground new
        → AreInUse P.Ground new → OnlyGives P.Ground old new
        → HasRecord P.Ground old index oid is → is.head.state ≡ Current
        → IsBranch (bodies_of (P.Ground.image old) index) is.head.older
        → TakesOut P.Ground old new index (place_of oid) is
        → MovesVolume P.Ground old new records v (root_of is.content) None
        (without_version oid (table_of (units_in P.Ground old) v)) }
{}

/// A frozen version that is dropped, from which one is derived, leaves a volume whose table has it no more, where that one is derived from its older one
/// instead, and is else the same.
pub fn a_dropped_version<P: Ground>()
    ensures { (old new : P) (records : List LogRecord) (v : Volume) (index : Index) (oid : Oid)
        (is : Record) → IsVolume P.Ground old records v
        → P.Ground.geometry new ≡ P.Ground.geometry old → IsApart P.Ground new
        → AreInUse P.Ground new → OnlyGives P.Ground old new
        → HasRecord P.Ground old index oid is → is.head.state ≡ Frozen
        → Drops P.Ground old new index (place_of oid) is
        → MovesVolume P.Ground old new records v (root_of is.content) None
        (without_version oid (table_of (units_in P.Ground old) v)) }
{}

/// A version that is created under a number above all others, wherever its file has room for it, makes a volume whose table has a new object in its file
/// and is else the same. Each page of the volume is one of before or was free, and each unit of its trees is one of before.
pub fn a_created_version<P: Ground>()
    ensures { (old new : P) (records : List LogRecord) (v : Volume) (index : Index) (oid : Oid)
        (e : FileEntry) → IsVolume P.Ground old records v
        → P.Ground.geometry new ≡ P.Ground.geometry old → IsApart P.Ground new
        → AreInUse P.Ground new → OnlyTakes P.Ground old new
        → HasFile P.Ground old index → Contains v.catalog.entries e
        → e.file_no ≡ index.file_no
        → 1 ≤ oid.unique → oid.unique < v.catalog.next_unique
        → AllByRecursion (λ (s : Stored). unique_of s < oid.unique) (stored_in v)
        → PutsVersion P.Ground old new index oid
        → MovesVolume P.Ground old new records v None None
        (with_object oid e.name (table_of (units_in P.Ground old) v)) }
{}

/// A frozen copy of a current version, under a number above all others, makes a volume whose table has the copy between that version and its older one, and
/// is else the same. The copy shares the version's tree.
pub fn a_frozen_version<P: Ground>()
    ensures { (old new : P) (records : List LogRecord) (v : Volume) (index : Index)
        (oid made : Oid) (is : Record) → IsVolume P.Ground old records v
        → P.Ground.geometry new ≡ P.Ground.geometry old → IsApart P.Ground new
        → AreInUse P.Ground new → OnlyTakes P.Ground old new
        → HasRecord P.Ground old index oid is → is.head.state ≡ Current
        → 1 ≤ made.unique → made.unique < v.catalog.next_unique
        → AllByRecursion (λ (s : Stored). unique_of s < made.unique) (stored_in v)
        → Freezes P.Ground old new index (place_of oid) is made
        → MovesVolume P.Ground old new records v None (root_of is.content)
        (with_frozen oid made (table_of (units_in P.Ground old) v)) }
{}

/// A current copy of a frozen version, under a number above all others, makes a volume whose table has the copy derived from that version, and is else the
/// same. The copy shares the version's tree.
pub fn a_derived_version<P: Ground>()
    ensures { (old new : P) (records : List LogRecord) (v : Volume) (index : Index)
        (oid made : Oid) (is : Record) → IsVolume P.Ground old records v
        → P.Ground.geometry new ≡ P.Ground.geometry old → IsApart P.Ground new
        → AreInUse P.Ground new → OnlyTakes P.Ground old new
        → HasRecord P.Ground old index oid is → is.head.state ≡ Frozen
        → 1 ≤ made.unique → made.unique < v.catalog.next_unique
        → AllByRecursion (λ (s : Stored). unique_of s < made.unique) (stored_in v)
        → Derives P.Ground old new index (place_of oid) is made
        → MovesVolume P.Ground old new records v None (root_of is.content)
        (with_derived oid made (table_of (units_in P.Ground old) v)) }
{}

/// A volume whose catalog gets a next unique number that is no less has just that number changed in its table.
pub fn a_numbered_volume<P: Ground>()
    ensures { (old new : P) (records : List LogRecord) (v : Volume) (n : ℕ)
        → IsVolume P.Ground old records v → v.catalog.next_unique ≤ n
        → WritesCatalog P.Ground old new (catalog_numbered n v.catalog)
        → RecatalogsVolume P.Ground old new records v (catalog_numbered n v.catalog)
        (table_numbered n (table_of (units_in P.Ground old) v)) }
{}

/// A volume whose catalog gets an entry of a file without pages has that file in its table.
pub fn a_volume_with_a_file_more<P: Ground>()
    ensures { (old new : P) (records : List LogRecord) (v : Volume) (name : List ℕ) (file_no : ℕ)
        → IsVolume P.Ground old records v
        → WritesCatalog P.Ground old new
        (with_entries v.catalog (entry_inserted (new_file name file_no) v.catalog.entries))
        → RecatalogsVolume P.Ground old new records v
        (with_entries v.catalog (entry_inserted (new_file name file_no) v.catalog.entries))
        (with_file name (table_of (units_in P.Ground old) v)) }
{}

/// A volume whose catalog loses the entry of a file without pages has that file no more in its table.
pub fn a_volume_with_a_file_less<P: Ground>()
    ensures { (old new : P) (records : List LogRecord) (v : Volume) (name : List ℕ)
        → IsVolume P.Ground old records v
        → ((e : FileEntry) → Contains v.catalog.entries e → IsRootless name e)
        → WritesCatalog P.Ground old new
        (with_entries v.catalog (without_name name v.catalog.entries))
        → RecatalogsVolume P.Ground old new records v
        (with_entries v.catalog (without_name name v.catalog.entries))
        (without_file name (table_of (units_in P.Ground old) v)) }
{}

/// Where each unit of a tree has as many references as owners before an update, and each root of the volume is an owner, it has so after the update, with the root
/// that came counted and with the logged pages of before still in use.
pub fn owners_after_an_update<P: Ground>()
    ensures { (old new : P) (v now : Volume) (gone come : Option Root)
        → TurnsRoots P.Ground old new v now gone come → NamesPairs P.Ground
        → (logged roots : List ℕ) → IsOwned (P.Ground.geometry old) (P.Ground.unit old)
        (P.Ground.used old) (P.Ground.refs old) logged roots
        → P.Ground.geometry new ≡ P.Ground.geometry old
        → ((u : ℕ) → P.Ground.used old u ≡ true → P.Ground.unit new u ≡ P.Ground.unit old u)
        → ((u : ℕ) → P.Ground.used old u ≡ true → P.Ground.used new u ≡ true)
        → ((page : ℕ) → (P.Ground.held new page ≡ true)
        ↔ Contains (catalog_no ∷ file_pages now) page)
        → ((page : ℕ) → P.Ground.held new page ≡ true → P.Ground.used new page ≡ true)
        → 1 ≤ times catalog_no logged → ((page : ℕ) → Contains (file_pages now) page
        → (1 ≤ times page logged) ⊎ (P.Ground.used old page ≡ false))
        → ((p : ℕ) → 1 ≤ times p (root_pages (roots_in (stored_in v)))
        → 1 ≤ P.Ground.refs old p)
        → length (root_pages (root_here come) ++ roots) ≤ roots_most → (after : ℕ → ℕ)
        → ((u : ℕ) → after u ≡ P.Ground.refs new u + times u (root_pages (root_here come)))
        → IsOwned (P.Ground.geometry old) (P.Ground.unit new) (P.Ground.used new) after
        (logged ++ file_pages now) (root_pages (root_here come) ++ roots) }
{}
