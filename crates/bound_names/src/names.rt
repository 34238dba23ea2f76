//! Names in the order in which they were bound, found by a hash of their bytes.

ghost use Rattle.std.specs.Prelude.{◌≡◌, ◌++◌, ◌∷◌, [], false, true, OnOk, OnErr};
ghost use Rattle.table_model.specs.Machines.{kept, unmarked};

use ex_base::Oid;
use indexmap::IndexMap;
use std::alloc::{AllocError, Global};
use std::marker::Model;

/// The names that a session has bound, each to a version. Contracts see them as a list of rows, in
/// the order in which they were bound; those that the open transaction bound carry a mark.
#[derive(Drop)]
pub struct NameMap {
    oids: IndexMap<Vec<u8>, Oid>,
    // how many were bound when the open transaction began: the others are its own
    settled: usize,
}

impl Model for NameMap {
    ghost use Rattle.std.specs.Prelude.{◌≤◌, List, length};
    ghost use Rattle.table_model.specs.declared.machine.BoundName.{BoundName};
    ghost use Rattle.bound_names.specs.Bindings.{rows_of};

    ghost Value = { List BoundName };

    ghost view = { λ names. rows_of (λ key. key.items) names.settled names.oids.entries };

    ghost invariant = { λ names. names.settled ≤ length names.oids.entries };
}

impl NameMap {
    ghost use Rattle.bound_names.specs.Bindings.{bound_oid, is_bound};

    /// No name is bound.
    pub fn new(alloc: Global) -> NameMap
        ensures { result ≡ [] }
    {
        NameMap {
            oids: IndexMap::new(alloc),
            settled: 0,
        }
    }

    /// The version that the name is bound to.
    pub fn oid_of(&self, name: &[u8]) -> Option<Oid>
        ensures { result ≡ bound_oid self.now name.now }
    {
        self.oids.get(name).copied()
    }

    /// Whether the name is bound.
    pub fn is_bound(&self, name: &[u8]) -> bool
        ensures { result ≡ is_bound self.now name.now }
    {
        self.oids.contains_key(name)
    }

    /// Binds a name in the open transaction. Where there is no memory, nothing changes.
    pub fn bind(&mut self, alloc: Global, name: &[u8], oid: Oid) -> Result<(), AllocError>
        requires { is_bound self.old name.now ≡ false }
        ensures ok { OnOk result (self.new ≡ self.old
            ++ record { name = name.now; oid = oid; marked = true } ∷ []) }
        ensures err { OnErr result (self.new ≡ self.old) }
    {
        let key = Vec::from_slice(alloc, name)?;
        self.oids.insert(key, oid)?;
        Ok(())
    }

    /// The open transaction is committed: what it bound stays bound.
    pub fn unmark(&mut self)
        ensures { self.new ≡ unmarked self.old }
    {
        self.settled = self.oids.len();
    }

    /// The open transaction is given up: what it bound is unbound.
    pub fn unbind_marked(&mut self)
        ensures { self.new ≡ kept self.old }
    {
        self.oids.truncate(self.settled);
    }
}
