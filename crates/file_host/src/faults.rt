//! How often calls failed, and why.
ghost use Rattle.std.specs.Prelude.{◌≡◌, ◌≤◌, OnErr, OnOk};
ghost use Rattle.ex_base.specs.Faults.{Rose};

use disk_model::Failed;
use std::io;

/// How often calls of one kind failed, and the system's reason: that of an opening that failed before, or else of the first call that did.
#[derive(Clone, Copy)]
pub struct Faults {
    pub count: u64,
    pub cause: Option<io::Error>,
}

impl Faults {
    /// No call failed.
    pub fn none() -> Faults
        ensures { result.count ≡ 0 }
    {
        Faults {
            count: 0,
            cause: None,
        }
    }

    /// No call failed yet, and each will, for this reason.
    pub fn before(cause: io::Error) -> Faults
        ensures { result.count ≡ 0 }
    {
        Faults {
            count: 0,
            cause: Some(cause),
        }
    }

    /// One more fault, where the count can still rise. Where it can't, 2^64 - 1 faults came before, and the call answers as if it had worked: nothing
    /// is told of the content anyway.
    pub fn raise(&mut self, cause: io::Error) -> Result<(), Failed>
        ensures rises { self.old.count ≤ self.new.count }
        ensures failed { OnErr result (Rose self.old.count self.new.count) }
        ensures same { OnOk result (self.new.count ≡ self.old.count) }
    {
        match self.count.checked_add(1) {
            Some(next) => {
                self.count = next;
                self.cause = self.cause.or(Some(cause));
                Err(Failed)
            }
            None => Ok(()),
        }
    }
}
