//! What is told of a session's counts and names, and what is changed of its names and of whether it is down.
ghost use Rattle.std.specs.Prelude.{◌≡◌, ◌≤◌, ◌++◌, ◌∷◌, [], length, true, false, OnOk, OnErr};
ghost use Rattle.bound_names.specs.Bindings.{is_bound};
ghost use Rattle.table_model.specs.Machines.{touched_most, updates_most};
ghost use Rattle.session_core.specs.Counts.{free_in, used_of};
ghost use Rattle.session_core.specs.Sessions.{IsSession};

use super::Session;
use super::phase::Phase;
use ex_base::{Area, Geometry, Oid};
use std::alloc::{AllocError, Global};

impl Session {
    /// The sizes of the session's volume.
    pub fn geometry(&self) -> Geometry
        ensures value { result ≡ self.now.geometry }
        ensures session { IsSession self.now }
    {
        self.volume.geometry
    }

    /// Whether a transaction is open.
    pub fn is_open(&self) -> bool
        ensures value { result ≡ self.now.opened }
        ensures session { IsSession self.now }
    {
        self.phase.is_open()
    }

    /// Whether a step met a fault.
    pub fn is_down(&self) -> bool
        ensures value { result ≡ self.now.down }
        ensures session { IsSession self.now }
    {
        self.phase.is_down()
    }

    /// Puts the session down: a step met a fault. No transaction is open then.
    pub fn put_down(&mut self)
        ensures { self.new ≡ record self.old { opened = false; down = true } }
    {
        self.phase = Phase::Down;
    }

    /// How many records of the log count.
    pub fn log_records(&self) -> u32
        ensures { result ≡ self.now.log.count }
    {
        self.volume.log.count()
    }

    /// How many updates the open transaction has.
    pub fn updates(&self) -> u32
        ensures value { result ≡ length self.now.notes }
        ensures few { result ≤ updates_most }
    {
        self.notes.len() as u32
    }

    /// How many logged pages the open transaction touched.
    pub fn touched(&self) -> u32
        ensures value { result ≡ length self.now.meta.working }
        ensures few { result ≤ touched_most }
    {
        self.volume.meta.touched()
    }

    /// How many units of an area are not in use.
    pub fn free(&self, area: Area) -> u32
        ensures { result ≡ free_in self.now area }
    {
        self.volume.units.free(area)
    }

    /// How many units of an area are in use.
    pub fn used(&self, area: Area) -> u32
        ensures { result ≡ used_of self.now area }
    {
        match area {
            Area::Page => self.volume.geometry.pages - self.volume.units.free(Area::Page),
            Area::Segment => self.volume.geometry.segs - self.volume.units.free(Area::Segment),
        }
    }

    /// Whether a version is bound to the name.
    pub fn is_bound(&self, name: &[u8]) -> bool
        ensures { result ≡ is_bound self.now.names name.now }
    {
        self.names.is_bound(name)
    }

    /// Binds a name to a version, in the open transaction. Where there is no memory, nothing changes.
    pub fn bind(&mut self, alloc: Global, name: &[u8], oid: Oid) -> Result<(), AllocError>
        requires { is_bound self.old.names name.now ≡ false }
        ensures ok { OnOk result (self.new ≡ record self.old {
          names = self.old.names
              ++ record { name = name.now; oid = oid; marked = true } ∷ [];
        }) }
        ensures err { OnErr result (self.new ≡ self.old) }
    {
        self.names.bind(alloc, name, oid)
    }
}
