//! What stops a load.
ghost use Rattle.std.specs.Prelude.{◌≡◌};

use crate::ending::FinishFault;
use commits::CommitFault;
use disk_model::Failed;
use ex_base::PortFault;
use history_reads::{HeadFault, ReadFault};
use history_writes::LinkFault;
use std::alloc::AllocError;

/// What stops a load.
#[derive(Clone, Copy, Debug, PartialEq, Eq)]
pub enum LoadFault {
    /// The source failed: its count of faults rose.
    Source,
    /// The disk failed: its count of faults rose.
    Disk,
    /// There is no memory.
    Memory,
    /// The stream isn't one that this volume loads.
    Stream(HeadFault),
}

impl LoadFault {
    /// The stream is no dump.
    pub const BAD: LoadFault = LoadFault::Stream(HeadFault::Bad);
}

impl From<AllocError> for LoadFault {
    ghost use Rattle.history_load.specs.declared.faults.LoadFault.TheVariants.{Memory};

    ghost from_gives = { λ _ fault. fault ≡ Memory };

    fn from(_: AllocError) -> LoadFault {
        LoadFault::Memory
    }
}

impl From<Failed> for LoadFault {
    ghost use Rattle.history_load.specs.declared.faults.LoadFault.TheVariants.{Disk};

    ghost from_gives = { λ _ fault. fault ≡ Disk };

    fn from(_: Failed) -> LoadFault {
        LoadFault::Disk
    }
}

impl From<ReadFault> for LoadFault {
    ghost use Rattle.history_load.specs.Faults.{fault_of_read};

    ghost from_gives = { λ was fault. fault ≡ fault_of_read was };

    fn from(fault: ReadFault) -> LoadFault {
        match fault {
            ReadFault::Memory => LoadFault::Memory,
            ReadFault::Refused => LoadFault::BAD,
        }
    }
}

impl From<PortFault> for LoadFault {
    ghost use Rattle.history_load.specs.Faults.{fault_of_port};

    ghost from_gives = { λ was fault. fault ≡ fault_of_port was };

    fn from(fault: PortFault) -> LoadFault {
        match fault {
            PortFault::Memory => LoadFault::Memory,
            PortFault::Disk => LoadFault::Disk,
            PortFault::Damaged { .. } => LoadFault::BAD,
        }
    }
}

impl From<LinkFault> for LoadFault {
    ghost use Rattle.history_load.specs.Faults.{fault_of_link};

    ghost from_gives = { λ was fault. fault ≡ fault_of_link was };

    fn from(fault: LinkFault) -> LoadFault {
        match fault {
            LinkFault::Disk => LoadFault::Disk,
            LinkFault::Bad => LoadFault::BAD,
        }
    }
}

impl From<FinishFault> for LoadFault {
    ghost use Rattle.history_load.specs.Faults.{fault_of_finish};

    ghost from_gives = { λ was fault. fault ≡ fault_of_finish was };

    fn from(fault: FinishFault) -> LoadFault {
        match fault {
            FinishFault::Memory => LoadFault::Memory,
            FinishFault::Disk => LoadFault::Disk,
            FinishFault::Bad => LoadFault::BAD,
        }
    }
}

impl From<CommitFault> for LoadFault {
    ghost use Rattle.history_load.specs.Faults.{fault_of_commit};

    ghost from_gives = { λ was fault. fault ≡ fault_of_commit was };

    fn from(fault: CommitFault) -> LoadFault {
        match fault {
            CommitFault::Memory => LoadFault::Memory,
            CommitFault::Disk => LoadFault::Disk,
        }
    }
}
