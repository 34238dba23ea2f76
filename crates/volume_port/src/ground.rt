//! What the port means.
use crate::port::VolumePort;
use disk_model::Disk;
use ex_base::Ground;
use tree_store::Store;

impl<'a, D: Disk> Ground for VolumePort<'a, D> {
    ghost use Rattle.std.specs.Prelude.{length};
    ghost use Rattle.tree_store.specs.Stored.{NoUnit};
    ghost use Rattle.volume_port.specs.Logged.{is_held};
    ghost use Rattle.volume_port.specs.Ported.{IsReady, Moves, image_over, moves_same, moves_on, moves_more};

    ghost geometry = { λ s. ⟦<Store<'a, D> as Ground>⟧.geometry s.store };

    ghost ready = { λ s. IsReady ⟦<Store<'a, D> as Ground>⟧ s.store s.meta.now s.pages.now };

    ghost tells = { λ s. ⟦<Store<'a, D> as Ground>⟧.tells s.store };

    ghost unit = { λ s. ⟦<Store<'a, D> as Ground>⟧.unit s.store };

    ghost image = { λ s. image_over (⟦<Store<'a, D> as Ground>⟧.geometry s.store) s.meta.now (⟦<Store<'a, D> as Ground>⟧.unit s.store) };

    ghost used = { λ s. ⟦<Store<'a, D> as Ground>⟧.used s.store };

    ghost refs = { λ s. ⟦<Store<'a, D> as Ground>⟧.refs s.store };

    ghost names = { ⟦<Store<'a, D> as Ground>⟧.names };

    ghost held = { λ s. is_held s.pages.now };

    ghost free = { λ s. ⟦<Store<'a, D> as Ground>⟧.free s.store };

    ghost touched = { λ s. length s.meta.now.working };

    ghost faults = { λ s. ⟦<Store<'a, D> as Ground>⟧.faults s.store };

    ghost leads = { λ a b. Moves ⟦<Store<'a, D> as Ground>⟧ NoUnit a.store b.store a.meta b.meta a.pages b.pages a.room b.room };

    ghost frees = { λ freed a b. Moves ⟦<Store<'a, D> as Ground>⟧ freed a.store b.store a.meta b.meta a.pages b.pages a.room b.room };

    ghost whole = { λ s ready told page leaf. ⟦<Store<'a, D> as Ground>⟧.whole s.store ready.ready told page leaf };

    ghost leads_refl = { λ s. moves_same ⟦<Store<'a, D> as Ground>⟧ s.store s.meta s.pages s.room };

    ghost leads_trans = { λ a b c x y. moves_on ⟦<Store<'a, D> as Ground>⟧ NoUnit a.store b.store c.store a.meta b.meta c.meta a.pages b.pages c.pages a.room b.room c.room x y };

    ghost leads_geometry = { λ a b x. ⟦<Store<'a, D> as Ground>⟧.frees_geometry NoUnit a.store b.store x.store };

    ghost leads_ready = { λ a b x. x.ready };

    ghost leads_told = { λ a b x. ⟦<Store<'a, D> as Ground>⟧.frees_told NoUnit a.store b.store x.store };

    ghost leads_faults = { λ a b x. ⟦<Store<'a, D> as Ground>⟧.frees_faults NoUnit a.store b.store x.store };

    ghost frees_leads = { λ freed a b x. moves_more ⟦<Store<'a, D> as Ground>⟧ NoUnit freed (λ p none. absurd none) a.store b.store a.meta b.meta a.pages b.pages a.room b.room x };

    ghost frees_trans = { λ freed a b c x y. moves_on ⟦<Store<'a, D> as Ground>⟧ freed a.store b.store c.store a.meta b.meta c.meta a.pages b.pages c.pages a.room b.room c.room x y };

    ghost frees_more = { λ few many wider a b x. moves_more ⟦<Store<'a, D> as Ground>⟧ few many wider a.store b.store a.meta b.meta a.pages b.pages a.room b.room x };

    ghost frees_geometry = { λ freed a b x. ⟦<Store<'a, D> as Ground>⟧.frees_geometry freed a.store b.store x.store };

    ghost frees_ready = { λ freed a b x. x.ready };

    ghost frees_told = { λ freed a b x. ⟦<Store<'a, D> as Ground>⟧.frees_told freed a.store b.store x.store };

    ghost frees_faults = { λ freed a b x. ⟦<Store<'a, D> as Ground>⟧.frees_faults freed a.store b.store x.store };
}
