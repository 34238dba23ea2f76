//! A transaction is opened, and one is given up.
ghost use Rattle.std.specs.Prelude.{◌≡◌, ◌≤◌, true, false, OnOk, IfErr, IsTrue};
ghost use Rattle.ex_base.specs.Sizes.{volume_bytes};

use super::Session;
use super::catalog::view_of;
use super::objects::stopped;
use super::phase::Phase;
use super::settle::take_back;
use disk_model::Host;
use session_views::Stop;
use std::alloc::Global;
use table_model::{Refusal, Reply};
use volume_port::release_roots;

impl Session {
    ghost use Rattle.table_model.specs.Requests as request;
    ghost use Rattle.ex_base.specs.declared.names.Area.TheVariants.{Page};
    ghost use Rattle.session_core.specs.Counts.{free_in};
    ghost use Rattle.session_views.specs.View.{View, ShowsNow};
    ghost use Rattle.session_core.specs.Commits.{JustReached, committed_reach};
    ghost use Rattle.session_core.specs.Damage.{TellsDamage, no_version};
    ghost use Rattle.session_core.specs.Meant.{meant};
    ghost use Rattle.session_core.specs.Sessions.{FreesTaken, SessionState};
    ghost use Rattle.session_core.specs.Steps.{Steps, StepsQuietly};

    /// Opens a transaction: the working catalog is the committed one, and no update is noted. Refused where one is open, and where no number of a commit is
    /// left. It stops where the disk fails, where memory is wanted, and where the catalog is outside of its grammar.
    pub fn begin<H: Host>(&mut self, alloc: Global, host: &mut H) -> Result<Reply, Stop>
        requires room { volume_bytes self.old.geometry ≤ (H.outside host.old).size }
        requires up { self.old.down ≡ false }
        ensures { StepsQuietly (H.outside host.old)
            (H.outside host.new) self.old self.new request.Begin result }
    {
        if self.phase.is_open() {
            return Ok(Reply::No(Refusal::TxnOpen));
        }
        let page = self.catalog(alloc, host)?;
        let last = view_of(&page).last_txn();
        if last == u64::MAX {
            return Ok(Reply::No(Refusal::IdsSpent));
        }
        if self.volume.meta.start(alloc, &page).is_err() {
            return Err(Stop::Memory);
        }
        self.notes.clear();
        self.phase = Phase::Open;
        Ok(Reply::Begin { number: last + 1 })
    }

    /// Gives the open transaction up: each tree whose root it gained has an owner less, its working pages are dropped, the pages that it took are free, and
    /// the names that it bound are unbound. Refused where none is open. It reads the nodes that become free. It stops where the disk fails and where memory
    /// is wanted, and at a node that isn't what names it.
    pub fn abort<H: Host>(&mut self, alloc: Global, host: &mut H) -> Result<Reply, Stop>
        requires room { volume_bytes self.old.geometry ≤ (H.outside host.old).size }
        ensures steps { Steps (H.outside host.old)
            (H.outside host.new) self.old self.new request.Abort result }
        ensures damage { IfErr result (TellsDamage (H.outside host.old) (H.outside host.new)
            self.old no_version) }

        // The pages that the transaction took are free.
        ensures freed { self.old.opened ≡ true → OnOk result (FreesTaken self.old self.new) }

        // In use are exactly the units that the committed volume and the open scans reach.
        ensures exact { (before : View SessionState) → before.session ≡ self.old
            → (shown : ShowsNow meant (H.outside host.old) before) → self.old.opened ≡ true
            → OnOk result (JustReached self.new.units
            (committed_reach shown.shows.decoded before)) }

        // Where no page became free, the host was not called.
        ensures idle { OnOk result (free_in self.new Page ≡ free_in self.old Page
            → host.new ≡ host.old) }
    {
        if !self.phase.is_open() {
            return Ok(Reply::No(Refusal::NoTxn));
        }
        if let Err(fault) = release_roots(
            alloc,
            host,
            &mut self.volume.units,
            &mut self.volume.groups,
            &self.volume.geometry,
            &self.volume.pages,
            &self.volume.kept,
            &self.gained,
        ) {
            return Err(stopped(fault));
        }
        take_back(
            &self.volume.meta,
            &mut self.volume.units,
            &mut self.volume.pages,
            &self.volume.kept,
        );
        self.volume.meta.undo();
        self.rooms.go_back(&self.volume.kept);
        self.names.unbind_marked();
        self.notes.clear();
        self.gained.clear();
        self.lost.clear();
        self.phase = Phase::Idle;
        Ok(Reply::Abort)
    }
}
