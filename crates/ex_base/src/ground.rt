//! The meanings of the ports. This file imports nothing that names `Ground`, so that `specs/` may.
ghost use Rattle.std.specs.Prelude.{◌≡◌, ◌≤◌, ℕ, Bool, List, length};
ghost use Rattle.ex_base.specs.Area.{NamesLeaf};
ghost use Rattle.ex_base.specs.Sizes.{leaf_bytes};
ghost use Rattle.ex_base.specs.declared.geometry.Geometry.{Geometry};
ghost use Rattle.ex_base.specs.declared.names.Area.{Area};

/// What the ports are about: the units of a volume and its logged pages. It has no call.
pub trait Ground {
    /// The geometry of the volume.
    ghost geometry: { Self → Geometry };

    /// What each call asks of the object itself, as that its disk is large enough.
    ghost ready: { Self → Type 0 };

    /// Whether the object tells the content of its units and images.
    ghost tells: { Self → Type 0 };

    /// The bytes of each used unit, by the number that names it.
    ghost unit: { Self → ℕ → List ℕ };

    /// The working image of each logged page.
    ghost image: { Self → ℕ → List ℕ };

    /// Whether a number names a unit that is used.
    ghost used: { Self → ℕ → Bool };

    /// How many references a unit has.
    ghost refs: { Self → ℕ → ℕ };

    /// The units that the bytes of a node name, as often as they name them.
    ghost names: { Geometry → List ℕ → List ℕ };

    /// Whether the working state has a logged page: it was taken, and not given back.
    ghost held: { Self → ℕ → Bool };

    /// How many units of an area are free.
    ghost free: { Self → Area → ℕ };

    /// How many logged pages the open transaction has touched.
    ghost touched: { Self → ℕ };

    /// How often the disk has failed.
    ghost faults: { Self → ℕ };

    /// An earlier and a later state of the object, with no unit given back by `give_unit` in between.
    ghost leads: { Self → Self → Type 0 };

    /// An earlier and a later state of the object. Of the units that `give_unit` gave back in between, each that was used at first is of the set.
    ghost frees: { (ℕ → Type 0) → Self → Self → Type 0 };

    /// The units that leaves name are whole.
    ghost whole: { (s : Self) → ready s → tells s → (page : ℕ) → NamesLeaf (geometry s) page → leaf_bytes (geometry s) ≤ length (unit s page) };

    ghost leads_refl: { (s : Self) → leads s s };

    ghost leads_trans: { (a b c : Self) → leads a b → leads b c → leads a c };

    /// What no call changes.
    ghost leads_geometry: { (a b : Self) → leads a b → geometry b ≡ geometry a };

    ghost leads_ready: { (a b : Self) → leads a b → ready a → ready b };

    ghost leads_told: { (a b : Self) → leads a b → tells a → tells b };

    /// The count never falls.
    ghost leads_faults: { (a b : Self) → leads a b → faults a ≤ faults b };

    ghost frees_leads: { (freed : ℕ → Type 0) → (a b : Self) → leads a b → frees freed a b };

    ghost frees_trans: { (freed : ℕ → Type 0) → (a b c : Self) → frees freed a b → frees freed b c → frees freed a c };

    ghost frees_more: { (few many : ℕ → Type 0) → ((page : ℕ) → few page → many page) → (a b : Self) → frees few a b → frees many a b };

    /// What no call changes, and the count that never falls.
    ghost frees_geometry: { (freed : ℕ → Type 0) → (a b : Self) → frees freed a b → geometry b ≡ geometry a };

    ghost frees_ready: { (freed : ℕ → Type 0) → (a b : Self) → frees freed a b → ready a → ready b };

    ghost frees_told: { (freed : ℕ → Type 0) → (a b : Self) → frees freed a b → tells a → tells b };

    ghost frees_faults: { (freed : ℕ → Type 0) → (a b : Self) → frees freed a b → faults a ≤ faults b };
}
