//! A transaction is committed, and a checkpoint is made.
ghost use Rattle.std.specs.Prelude.{◌≡◌, ◌≤◌, ◌+◌, ◌-◌, ◌^◌, length, None, IfSome, Ok, Err, IfErr, IsTrue, OnOk, true};
ghost use Rattle.ex_base.specs.Sizes.{volume_bytes};
ghost use Rattle.object_files.specs.Catalog.{CatalogOf};
ghost use Rattle.object_files.specs.Edits.{IsCatalogPage};
ghost use Rattle.object_files.specs.Reads.{catalog_on, with_numbers};
ghost use Rattle.session_core.specs.Commits.{stop_of};

use super::Session;
use super::catalog::{DAMAGED_CATALOG, view_of};
use super::objects::stopped;
use super::phase::Phase;
use super::settle::settle;
use commits::{CommitFault, checkpoint, commit};
use disk_model::Host;
use ex_base::{Oid, PageNo, Seen};
use object_files::set_numbers;
use session_views::Stop;
use std::alloc::Global;
use table_model::{Refusal, Reply};
use volume_port::release_roots;

/// Puts the number of the next commit into a copy of the catalog, and answers it, none where no number is left.
fn number_next(page: &mut Vec<u8>) -> Option<u64>
    requires page { IsCatalogPage page.old.items }
    ensures number { IfSome result (λ number. number ≡ (catalog_on page.old.items).last + 1) }
    ensures numbered { IfSome result (λ _. CatalogOf page.new.items
        (with_numbers (catalog_on page.old.items) (catalog_on page.old.items).next_unique
        ((catalog_on page.old.items).last + 1))) }
    ensures len { length page.new.items ≡ length page.old.items }
    ensures none { result ≡ None → (catalog_on page.old.items).last ≡ 2 ^ 64 - 1 }
{
    let catalog = view_of(page);
    let next_unique = catalog.next_unique();
    let number = catalog.last_txn().checked_add(1)?;
    set_numbers(page, next_unique, number);
    Some(number)
}

/// What the session is to stop at where a transaction could not be committed.
fn uncommitted(fault: CommitFault) -> Stop
    ensures { result ≡ stop_of fault }
{
    match fault {
        CommitFault::Memory => Stop::Memory,
        CommitFault::Disk => Stop::Disk,
    }
}

impl Session {
    ghost use Rattle.disk_model.specs.Outside.{ReadsOnly};
    ghost use Rattle.table_model.specs.Requests as request;
    ghost use Rattle.session_views.specs.declared.stop.Stop.{Stop};
    ghost use Rattle.session_views.specs.View.{View, ShowsNow};
    ghost use Rattle.session_core.specs.Commits.{JustReached, LogsCommit, WritesHome, working_reach};
    ghost use Rattle.session_core.specs.Sessions.{FreesGivenBack, SessionState};
    ghost use Rattle.session_core.specs.Damage.{TellsDamage, no_version};
    ghost use Rattle.session_core.specs.Meant.{meant};
    ghost use Rattle.session_core.specs.Steps.{Steps};

    /// Makes the working state the committed one, under the number after that of the last commit. Each tree whose root the transaction gave up has an owner
    /// less, before anything is written. Refused where no transaction is open. It stops where the disk fails, where memory is wanted, at a page that isn't what
    /// names it, and where the catalog has no number left, which it had when the transaction was opened.
    pub fn commit<H: Host>(&mut self, alloc: Global, host: &mut H) -> Result<Reply, Stop>
        requires room { volume_bytes self.old.geometry ≤ (H.outside host.old).size }
        ensures steps { Steps (H.outside host.old)
            (H.outside host.new) self.old self.new request.Commit result }
        ensures damage { IfErr result (TellsDamage (H.outside host.old) (H.outside host.new)
            self.old no_version) }
        ensures logs { (before : View SessionState) → before.session ≡ self.old
            → (shown : ShowsNow meant (H.outside host.old) before) → self.old.opened ≡ true
            → OnOk result (LogsCommit shown.shows.decoded shown.shows.working self.old
            (H.outside host.new)) }

        // The pages that the transaction gave back are free.
        ensures freed { self.old.opened ≡ true
            → OnOk result (FreesGivenBack self.old self.new) }

        // In use are exactly the units that the working volume reached and the open scans reach: what nothing else reaches became free.
        ensures exact { (before : View SessionState) → before.session ≡ self.old
            → (shown : ShowsNow meant (H.outside host.old) before) → self.old.opened ≡ true
            → OnOk result (JustReached self.new.units
            (working_reach shown.shows.decoded before shown.shows.working)) }

        // Where memory is wanted, the disk was read at most, and the log is what it was.
        ensures unwritten { result ≡ Err Stop.Memory
            → ReadsOnly (H.outside host.old) (H.outside host.new) × (self.new.log ≡ self.old.log) }

        // Whatever is answered, it writes in the log alone, and at the homes of the pages whose images were committed before.
        ensures writes { WritesHome (H.outside host.old) (H.outside host.new) self.old }
    {
        if !self.phase.is_open() {
            return Ok(Reply::No(Refusal::NoTxn));
        }
        let mut page = match self.catalog(alloc, host) {
            Ok(page) => page,
            Err(stop) => return Err(stop),
        };
        let Some(number) = number_next(&mut page) else {
            return Err(DAMAGED_CATALOG);
        };
        if let Err(fault) = release_roots(
            alloc,
            host,
            &mut self.volume.units,
            &mut self.volume.groups,
            &self.volume.geometry,
            &self.volume.pages,
            &self.volume.kept,
            &self.lost,
        ) {
            return Err(stopped(fault));
        }
        if self
            .volume
            .meta
            .edit(alloc, PageNo::CATALOG, &page)
            .is_err()
        {
            return Err(Stop::Memory);
        }
        // From here on the transaction is committed, or the session is down.
        self.phase = Phase::Idle;
        self.gained.clear();
        self.lost.clear();
        settle(
            &self.volume.meta,
            &mut self.volume.units,
            &mut self.volume.kept,
        );
        if let Err(fault) = commit(
            alloc,
            &mut self.volume.log,
            &mut self.volume.meta,
            &mut self.volume.groups,
            host,
            &self.notes,
            number,
        ) {
            self.volume.meta.undo();
            self.rooms.forget();
            return Err(uncommitted(fault));
        }
        self.rooms.settle();
        self.names.unmark();
        self.notes.clear();
        Ok(Reply::Commit { number })
    }

    /// Writes the committed pages home and empties the log. Refused where a transaction is open. It stops where the disk fails.
    pub fn checkpoint<H: Host>(&mut self, host: &mut H) -> Result<Reply, Stop>
        requires room { volume_bytes self.old.geometry ≤ (H.outside host.old).size }
        ensures steps { Steps (H.outside host.old)
            (H.outside host.new) self.old self.new request.Checkpoint result }
        ensures none_counts { result ≡ Ok Reply.Checkpoint → self.new.log.count ≡ 0 }
        ensures disk_alone { IfErr result (λ why. why ≡ Stop.Disk) }
        ensures takes_none { result ≡ Err Stop.Memory → ⊥ }
        ensures writes { WritesHome (H.outside host.old) (H.outside host.new) self.old }
    {
        if self.phase.is_open() {
            return Ok(Reply::No(Refusal::TxnOpen));
        }
        if checkpoint(
            &mut self.volume.log,
            &mut self.volume.meta,
            &mut self.volume.groups,
            host,
        )
        .is_err()
        {
            return Err(Stop::Disk);
        }
        Ok(Reply::Checkpoint)
    }
}
