//! Laws, each the contract of a function that does nothing: what it makes of a volume that a version's tree is moved, and when a volume is dense, and that copies are over no logged page.
ghost use Rattle.std.specs.Prelude.{◌≡◌, ◌≤◌, ◌<◌, ◌+◌, ℕ, Bool, false, List, ◌∷◌, Contains, Some};
ghost use Rattle.ex_base.specs.declared.geometry.Geometry.{Geometry};
ghost use Rattle.ex_base.specs.declared.names.Area.TheVariants.{Segment};
ghost use Rattle.ex_base.specs.Area.{unit_at, catalog_no};
ghost use Rattle.ex_base.specs.declared.names.Index.{Index};
ghost use Rattle.ex_base.specs.declared.names.Oid.{Oid};
ghost use Rattle.ex_base.specs.declared.names.Root.{Root};
ghost use Rattle.object_records.specs.Record.{Large};
ghost use Rattle.object_records.specs.declared.Head.{Head};
ghost use Rattle.op_log.specs.declared.record.LogRecord.{LogRecord};
ghost use Rattle.versions.specs.Versions.{HasVersion, place_of};
ghost use Rattle.compact.specs.Moved.{Copies};
ghost use Rattle.volume_model.specs.FreshView.{KnowsUnits};
ghost use Rattle.volume_model.specs.Parts.{Decodes};
ghost use Rattle.volume_model.specs.Shown.{used_below, used_in};
ghost use Rattle.volume_model.specs.Volume.{Decoded, Volume, file_pages};
ghost use Rattle.compact.specs.High.{free_below};
ghost use Rattle.volume_edits.specs.Ported.{IsApart, IsVolume, ShowsVolume};
ghost use Rattle.volume_moves.specs.Moves.{MovesTree};
ghost use Rattle.packing.specs.Dense.{IsDense};
ghost use Rattle.packing.specs.Moving.{CopiesAreOwn, VersionMoved, CopiesAreAway};
ghost use Rattle.trees.specs.Trees.{IsNamed, units_on};
ghost use Rattle.trees.specs.Made.{Has};
ghost use Rattle.ex_base.specs.declared.names.PageNo.{PageNo};
ghost use Rattle.std.specs.List.{AllByRecursion};

use ex_base::Ground;

/// A version whose tree was moved, with what was copied before for other versions of its object, makes a volume of the same table, on the same pages.
pub fn a_moved_tree<P: Ground>()
    ensures { (old new : P) (records : List LogRecord) (v : Volume) (index : Index) (oid : Oid)
        (head : Head) (dense : ℕ) (moves after : Copies) (root made : Root) (bytes : List ℕ)
        → IsVolume P.Ground old records v → P.Ground.geometry new ≡ P.Ground.geometry old
        → IsApart P.Ground new
        → HasVersion P.Ground old index oid head (Large root) bytes
        → CopiesAreOwn P.Ground old v (place_of oid) moves root
        → VersionMoved P.Ground old new index oid head dense moves after root made bytes
        → (made ≡ root → ⊥) → MovesTree P.Ground old new records v oid root made }
{}

/// A volume is dense where as many units of the segment area are in use as `dense`, and none of them is behind the lowest `dense` ones. Of these as many are
/// free at any time as aren't in use.
pub fn a_dense_volume()
    ensures dense { (d : Decoded) (disk : List ℕ) (used held : ℕ → Bool) (dense : ℕ)
        → Decodes disk d → KnowsUnits d disk used held → used_in d.geometry used Segment ≡ dense
        → ((j : ℕ) → dense ≤ j → j < d.geometry.segs
        → used (unit_at d.geometry Segment j) ≡ false) → IsDense disk dense }
    ensures room { (g : Geometry) (used : ℕ → Bool) (dense : ℕ)
        → free_below g used dense + used_below used (unit_at g Segment) dense ≡ dense }
{}

/// Where no copy of these units is over a page of the volume's files or its catalog, no unit of one is a logged page of a port that shows the volume.
pub fn copies_are_away<P: Ground>()
    ensures { (s : P) (records : List LogRecord) (v : Volume) → ShowsVolume P.Ground s records v
        → (moves : Copies) (units : List ℕ)
        → ((level page : ℕ) (copy : PageNo) → Has units page → moves page ≡ Some copy
        → IsNamed (P.Ground.geometry s) (P.Ground.unit s) level page
        → AllByRecursion (λ p. Contains (catalog_no ∷ file_pages v) p → ⊥)
        (units_on (P.Ground.unit s) level copy.0))
        → CopiesAreAway P.Ground s moves units }
{}
