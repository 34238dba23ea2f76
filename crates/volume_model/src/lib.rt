//! What a volume stands for: the table of an image or the first part of it that fails; when a running session shows a volume; and what a crash may
//! leave of it. It has definitions and their laws alone.
#![tactic(auto)]

ghost use Rattle.std.specs.Prelude.{◌≡◌, ◌≢◌, ◌↔◌, ◌++◌, ◌∷◌, ◌+◌, ◌≤◌, ◌<◌, ℕ, Bool, true, List, [], length, slice_index, Contains, Option};
ghost use Rattle.std.specs.List.{AllByRecursion, AllZip};
ghost use Rattle.ex_base.specs.Area.{InPageArea, catalog_no, page_at};
ghost use Rattle.ex_base.specs.Ports.{refs_most, times};
ghost use Rattle.ex_base.specs.declared.geometry.Geometry.{Geometry};
ghost use Rattle.ex_base.specs.declared.names.Root.{Root};
ghost use Rattle.object_files.specs.Catalog.{CatalogOf, fresh_catalog};
ghost use Rattle.session_views.specs.View.{View};
ghost use Rattle.session_views.specs.declared.Part.{Part};
ghost use Rattle.table_model.specs.declared.table.Table.{Table};
ghost use Rattle.table_model.specs.Tables.{empty_table, IsTable};
ghost use Rattle.volume_model.specs.Committed.{Committed, HomesStay, with_records};
ghost use Rattle.op_log.specs.State.{LogState};
ghost use Rattle.op_log.specs.declared.record.LogRecord.{LogRecord};
ghost use Rattle.trees.specs.Damage.{IsWhole};
ghost use Rattle.trees.specs.Owners.{IsOwned, all_named, root_pages};
ghost use Rattle.trees.specs.Trees.{Units};
ghost use Rattle.volume_model.specs.Durable.{Agrees};
ghost use Rattle.volume_model.specs.FreshView.{KnowsUnits, OpenedView, OwnsUnits};
ghost use Rattle.volume_model.specs.Homes.{home};
ghost use Rattle.volume_model.specs.OwnersMoved.{PagesGo, UnitsMade, roots_most, volume_roots_most};
ghost use Rattle.volume_model.specs.OwnersTurn.{OwnersTurn};
ghost use Rattle.volume_model.specs.OwnersShown.{OwnedStay, OwnersOf, OwnersShown, committed_roots, logged_pages, roots_held};
ghost use Rattle.volume_model.specs.Parts.{Decodes, FirstBad, HoldsOf, StandsFor, SuperOf, content_parts};
ghost use Rattle.volume_model.specs.Shown.{Held, OverlayShown, ScanShown, reach_of_view, root_here, trees_of_view};
ghost use Rattle.volume_model.specs.TreesShown.{TreesShown};
ghost use Rattle.volume_model.specs.Volume.{Volume, Decoded, file_pages, roots_in, stored_in, table_of, units_of};

pub use session_views::Part;

/// An image stands for at most one table.
pub fn one_table_of_an_image()
    ensures { (disk : List ℕ) (a b : Table) → StandsFor disk a → StandsFor disk b → a ≡ b }
{}

/// An image has at most one part that fails first.
pub fn one_first_bad_part()
    ensures { (disk : List ℕ) (a b : Part) → FirstBad disk a → FirstBad disk b → a ≡ b }
{}

/// An image that stands for a table has no part that fails.
pub fn a_table_has_no_bad_part()
    ensures { (disk : List ℕ) (table : Table) (part : Part) → StandsFor disk table
        → FirstBad disk part → ⊥ }
{}

/// An image without a part that fails stands for a table: there can't be none.
pub fn an_image_without_a_bad_part_stands_for_a_table()
    ensures { (disk : List ℕ) → ((part : Part) → FirstBad disk part → ⊥) → ((table : Table)
        → StandsFor disk table → ⊥) → ⊥ }
{}

/// An image that agrees with a disk on the bytes that no crash may change stands for the disk's table.
pub fn what_agrees_stands_for_the_table()
    ensures { (disk image : List ℕ) (decoded : Decoded) → Decodes disk decoded
        → Agrees decoded disk image
        → StandsFor image (table_of (units_of decoded disk) decoded.volume) }
{}

/// A volume as it is made, with a closed log and a catalog of no file, stands for the empty table.
pub fn a_fresh_volume_stands_for_the_empty_table()
    ensures { (g : Geometry) (disk : List ℕ) → SuperOf disk g → slice_index disk g.page_size ≢ 1
        → CatalogOf (page_at g disk catalog_no) fresh_catalog → StandsFor disk empty_table }
{}

/// The table that an image stands for keeps the rules of tables.
pub fn a_volume_stands_for_a_table_with_the_rules()
    ensures { (g : Geometry) (image : List ℕ) (table : Table) → SuperOf image g
        → StandsFor image table → IsTable g table }
{}

/// A session that was just opened shows the table that the volume stood for: no record counts any more and nothing is pending, the volume's table stayed
/// as it was, and the session knows which units and logged pages the volume has, and how many owners each unit has.
pub fn an_opened_volume_shows_its_table()
    ensures { (d : Decoded) (image disk : List ℕ) (log : LogState) (used : ℕ → Bool) (refs : ℕ
        → ℕ) (held : ℕ → Bool) (table : Table) → Decodes image d → StandsFor image table
        → Committed (λ left. left ≡ disk) (with_records d [] d.volume) disk log []
        → table_of (units_of (with_records d [] d.volume) disk) d.volume
        ≡ table_of (units_of d image) d.volume
        → KnowsUnits (with_records d [] d.volume) disk used held
        → OwnsUnits d.geometry (home d.geometry disk) d.volume used refs
        → OpenedView (λ left. left ≡ disk) (with_records d [] d.volume) disk log used refs held
        table }
{}

/// Where each unit of a tree has as many references as owners, just the units that a view reaches are used, and no page of a file lies in a tree.
pub fn owned_units_are_reached()
    ensures reached { (d : Decoded) (v : View Held) (working : Volume) → OwnersOf d v working
        → TreesShown d v working → (unit : ℕ) → (v.session.used unit ≡ true)
        ↔ Contains (reach_of_view d v working) unit }
    ensures apart { (d : Decoded) (v : View Held) (working : Volume) → OwnersOf d v working
        → TreesShown d v working → (page : ℕ)
        → Contains (file_pages d.volume ++ file_pages working) page
        → ¬ Contains (trees_of_view d v working) page }
{}

/// Where each unit of a tree has as many references as owners, of which open scans are some, a scan shows the same bytes on a later disk on which the
/// units that have an owner stand at home as they did. They do over a checkpoint and a commit.
pub fn open_scans_keep_their_bytes()
    ensures kept { (d : Decoded) (v : View Held) (working : Volume) → OwnersOf d v working
        → (later : List ℕ) → OwnedStay d v.session.refs v.disk later
        → AllZip (ScanShown d.geometry (home d.geometry v.disk)) v.machine.scans v.session.scans
        → AllZip (ScanShown d.geometry (home d.geometry later)) v.machine.scans v.session.scans }
    ensures committed { (d : Decoded) (v : View Held) (working : Volume) → OwnersOf d v working
        → OverlayShown d v → (later : List ℕ) → HomesStay d v.disk later
        → OwnedStay d v.session.refs v.disk later }
{}

/// Where each unit of a tree has as many references as owners, it has so after an update, with the tree that came counted, and after the pages that the
/// update gave back were freed. No count of references reaches its end.
pub fn an_update_keeps_owners()
    ensures made { (g : Geometry) (units : Units) (used : ℕ → Bool) (refs : ℕ → ℕ) (logged roots
        : List ℕ) → IsOwned g units used refs logged roots → (later : Units) (now : ℕ
        → Bool) (pages nodes : List ℕ) (come : Option Root)
        → UnitsMade g units later used now refs logged pages nodes come → (after : ℕ → ℕ)
        → ((u : ℕ) → after u
        ≡ refs u + times u (all_named later nodes) + times u (root_pages (root_here come)))
        → IsOwned g later now after pages (root_pages (root_here come) ++ roots) }
    ensures counted { (g : Geometry) (units : Units) (used : ℕ → Bool) (refs : ℕ
        → ℕ) (logged roots : List ℕ) → IsOwned g units used refs logged roots
        → (later : Units) (now : ℕ → Bool) (pages nodes : List ℕ) (come : Option Root)
        → UnitsMade g units later used now refs logged pages nodes come
        → length (root_pages (root_here come) ++ roots) ≤ roots_most → (u : ℕ)
        → refs u + times u (all_named later nodes) + times u (root_pages (root_here come))
        < refs_most }
    ensures swept { (d : Decoded) (working now : Volume) (units : Units) (used left : ℕ
        → Bool) (refs : ℕ → ℕ) (roots : List ℕ)
        → IsOwned d.geometry units used refs (logged_pages d working ++ file_pages now) roots
        → PagesGo used left refs (file_pages working) (logged_pages d now)
        → IsOwned d.geometry units left refs (logged_pages d now) roots }
{}

/// Where a session shows who owns each unit, it does so after an update, in which the root that came is gained: the one that went is given up at once where
/// it was gained, by its page, and is lost else. The pages of the working files that were given back are freed, but for committed ones.
pub fn roots_that_turn_keep_owners()
    ensures released { (d : Decoded) (used : ℕ → Bool) (refs : ℕ → ℕ) (gained lost scans : List
        Root) (disk : List ℕ) (working now : Volume) (gone come : Option Root) (later : List
        ℕ) (made : ℕ → Bool) (counts : ℕ → ℕ)
        → OwnersTurn d used refs gained lost scans disk working now gone come later made counts
        → (others : List Root) → ((u : ℕ) → times u (root_pages others)
        + times u (root_pages (root_here gone)) ≡ times u (root_pages gained))
        → AllByRecursion (IsWhole d.geometry (home d.geometry disk)) others
        → (left : ℕ → Bool) (fewer : ℕ → ℕ)
        → (IsOwned d.geometry (home d.geometry later) made counts
        (logged_pages d working ++ file_pages now) (root_pages (root_here gone)
        ++ root_pages (roots_held d (others ++ root_here come) scans))
        → IsOwned d.geometry (home d.geometry later) left fewer
        (logged_pages d working ++ file_pages now)
        (root_pages (roots_held d (others ++ root_here come) scans)))
        → (rest : ℕ → Bool) → PagesGo left rest fewer (file_pages working) (logged_pages d now)
        → OwnersShown d rest fewer (others ++ root_here come) lost scans later now }
    ensures lost { (d : Decoded) (used : ℕ → Bool) (refs : ℕ → ℕ) (gained lost scans : List
        Root) (disk : List ℕ) (working now : Volume) (gone come : Option Root) (later : List
        ℕ) (made : ℕ → Bool) (counts : ℕ → ℕ)
        → OwnersTurn d used refs gained lost scans disk working now gone come later made counts
        → ((u : ℕ) → 1 ≤ times u (root_pages (root_here gone))
        → times u (root_pages gained) ≡ 0)
        → AllByRecursion (IsWhole d.geometry (home d.geometry disk)) (root_here gone)
        → (rest : ℕ → Bool) → PagesGo made rest counts (file_pages working) (logged_pages d now)
        → OwnersShown d rest counts (gained ++ root_here come) (lost ++ root_here gone) scans
        later now }
{}

/// Where a session shows who owns each unit, it does so after a commit: each root that was lost is given up first, and then the pages of committed files
/// that the working ones lack are freed.
pub fn a_commit_keeps_owners()
    ensures lost { (d : Decoded) (scans : List Root) (working : Volume) (used : ℕ
        → Bool) (refs : ℕ → ℕ) (gained lost : List Root) (disk : List ℕ)
        → OwnersShown d used refs gained lost scans disk working
        → IsOwned d.geometry (home d.geometry disk) used refs (logged_pages d working)
        (root_pages lost ++ root_pages (roots_in (stored_in working) ++ scans)) }
    ensures committed { (d : Decoded) (scans : List Root) (working : Volume) (records : List
        LogRecord) (used left : ℕ → Bool) (refs : ℕ → ℕ) (disk later : List ℕ)
        → IsOwned d.geometry (home d.geometry disk) used refs (logged_pages d working)
        (root_pages (roots_in (stored_in working) ++ scans))
        → ((u : ℕ) → InPageArea d.geometry u → 1 ≤ refs u
        → home d.geometry later u ≡ home d.geometry disk u)
        → PagesGo used left refs (file_pages d.volume) (catalog_no ∷ file_pages working)
        → OwnersShown (with_records d records working) left refs [] [] scans later working }
{}

/// So it does after an abort: each root that was gained is given up first, and then the pages of the working files that the committed ones lack are freed.
pub fn an_abort_keeps_owners()
    ensures gained { (d : Decoded) (scans : List Root) (working : Volume) (used : ℕ
        → Bool) (refs : ℕ → ℕ) (gained lost : List Root) (disk : List ℕ)
        → OwnersShown d used refs gained lost scans disk working
        → IsOwned d.geometry (home d.geometry disk) used refs (logged_pages d working)
        (root_pages gained ++ root_pages (committed_roots d ++ scans)) }
    ensures aborted { (d : Decoded) (scans : List Root) (working : Volume) (used left : ℕ
        → Bool) (refs : ℕ → ℕ) (disk : List ℕ)
        → IsOwned d.geometry (home d.geometry disk) used refs (logged_pages d working)
        (root_pages (committed_roots d ++ scans))
        → PagesGo used left refs (file_pages working) (catalog_no ∷ file_pages d.volume)
        → OwnersShown d left refs [] [] scans disk d.volume }
{}

/// A volume has few roots, so that no count of references reaches its end.
pub fn a_volume_has_few_roots()
    ensures { (g : Geometry) (records : List LogRecord) (units : Units) (v : Volume)
        → AllByRecursion (HoldsOf g records units v) content_parts
        → length (roots_in (stored_in v)) ≤ volume_roots_most }
{}

/// Where a session shows who owns each unit, it does so once a scan of a version of the working volume is opened, whose root is counted; and once a scan is
/// closed, whose root is given up. No count of references reaches its end.
pub fn a_scan_keeps_owners()
    ensures opened { (d : Decoded) (used : ℕ → Bool) (refs : ℕ → ℕ) (gained lost scans : List
        Root) (disk : List ℕ) (working : Volume)
        → OwnersShown d used refs gained lost scans disk working → (root : Option Root) → ((u : ℕ)
        → 1 ≤ times u (root_pages (root_here root))
        → 1 ≤ times u (root_pages (roots_in (stored_in working)))) → (counts : ℕ → ℕ) → ((u : ℕ)
        → counts u ≡ refs u + times u (root_pages (root_here root)))
        → OwnersShown d used counts gained lost (scans ++ root_here root) disk working }
    ensures counted { (d : Decoded) (used : ℕ → Bool) (refs : ℕ → ℕ) (gained lost scans : List
        Root) (disk : List ℕ) (working : Volume)
        → OwnersShown d used refs gained lost scans disk working
        → length (root_pages (roots_held d gained scans)) ≤ roots_most
        → (u : ℕ) → refs u < refs_most }
    ensures closed { (d : Decoded) (used : ℕ → Bool) (refs : ℕ → ℕ) (gained lost scans : List
        Root) (disk : List ℕ) (working : Volume)
        → OwnersShown d used refs gained lost scans disk working → (root : Option Root)
        → (others : List Root) → ((u : ℕ) → times u (root_pages others)
        + times u (root_pages (root_here root)) ≡ times u (root_pages scans))
        → (left : ℕ → Bool) (fewer : ℕ → ℕ)
        → (IsOwned d.geometry (home d.geometry disk) used refs (logged_pages d working)
        (root_pages (root_here root) ++ root_pages (roots_held d gained others))
        → IsOwned d.geometry (home d.geometry disk) left fewer (logged_pages d working)
        (root_pages (roots_held d gained others)))
        → OwnersShown d left fewer gained lost others disk working }
{}
