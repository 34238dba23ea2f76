//! What it makes of a volume that a version gets another tree of the same bytes: the table stays, and each unit has as many references as owners. It has
//! definitions and their laws alone.
#![tactic(auto)]

ghost use Rattle.std.specs.Prelude.{◌≡◌, ◌+◌, ◌++◌, ◌∷◌, [], ℕ, List};
ghost use Rattle.std.specs.List.{AllByRecursion};
ghost use Rattle.ex_base.specs.Area.{catalog_no};
ghost use Rattle.ex_base.specs.Ports.{times};
ghost use Rattle.ex_base.specs.declared.names.Index.{Index};
ghost use Rattle.ex_base.specs.declared.names.Oid.{Oid};
ghost use Rattle.ex_base.specs.declared.names.Root.{Root};
ghost use Rattle.object_records.specs.Record.{Large};
ghost use Rattle.object_records.specs.declared.Head.{Head};
ghost use Rattle.op_log.specs.declared.record.LogRecord.{LogRecord};
ghost use Rattle.trees.specs.Counted.{NamesPairs};
ghost use Rattle.trees.specs.Owners.{IsOwned, root_pages};
ghost use Rattle.trees.specs.Trees.{root_units};
ghost use Rattle.versions.specs.Versions.{HasVersion, place_of};
ghost use Rattle.volume_model.specs.FreshView.{OwnsUnits};
ghost use Rattle.volume_model.specs.Volume.{Volume, file_pages, roots_in, stored_in};
ghost use Rattle.volume_edits.specs.Ported.{IsApart, IsVolume};
ghost use Rattle.volume_moves.specs.Moves.{InstallsRoot, IsObjectUnit, MovesTree};

use ex_base::Ground;

/// A version that gets the root of another tree of the same bytes makes a volume of the same table and the same pages. The units of that tree were free, are of
/// the version's own one, or are in no tree of another object. It may be a current version or a frozen one.
pub fn a_moved_version<P: Ground>()
    ensures { (old new : P) (records : List LogRecord) (v : Volume) (index : Index) (oid : Oid)
        (head : Head) (gone come : Root) (bytes : List ℕ) → IsVolume P.Ground old records v
        → P.Ground.geometry new ≡ P.Ground.geometry old → IsApart P.Ground new
        → HasVersion P.Ground old index oid head (Large gone) bytes
        → InstallsRoot P.Ground old new index oid head come bytes
        → AllByRecursion (IsObjectUnit P.Ground old v (place_of oid) gone)
        (root_units (P.Ground.unit new) come)
        → MovesTree P.Ground old new records v oid gone come }
{}

/// Where each unit of a volume's trees has as many references as owners, it has so once the tree of a version gave way to another one: with the new root
/// counted, the roots of the new volume and the one that went are the owners. So an owner less of that one leaves the new volume's.
pub fn owners_of_a_moved_volume<P: Ground>()
    ensures { (old new : P) (records : List LogRecord) (v : Volume) (index : Index) (oid : Oid)
        (head : Head) (gone come : Root) (bytes : List ℕ) → IsVolume P.Ground old records v
        → P.Ground.geometry new ≡ P.Ground.geometry old
        → InstallsRoot P.Ground old new index oid head come bytes
        → (moved : MovesTree P.Ground old new records v oid gone come) → NamesPairs P.Ground
        → OwnsUnits (P.Ground.geometry old) (P.Ground.unit old) v (P.Ground.used old)
        (P.Ground.refs old) → (after : ℕ → ℕ)
        → ((u : ℕ) → after u ≡ P.Ground.refs new u + times u (root_pages (come ∷ [])))
        → IsOwned (P.Ground.geometry old) (P.Ground.unit new) (P.Ground.used new) after
        (catalog_no ∷ file_pages moved.now)
        (root_pages (gone ∷ []) ++ root_pages (roots_in (stored_in moved.now))) }
{}
