//! Why a volume isn't packed.
ghost use Rattle.std.specs.Prelude.{◌≡◌};

use commits::CommitFault;
use disk_model::Failed;
use ex_base::{PageNo, PortFault, Seen};
use std::alloc::AllocError;

/// Why a volume wasn't packed. Its table is as it was, and the versions that were moved stay so.
#[derive(Clone, Copy, Debug, PartialEq, Eq)]
pub enum PackFault {
    /// The disk failed.
    Disk,
    /// An allocation was refused.
    Memory,
    /// A page isn't what names it.
    Damaged { page: PageNo, want: Seen, got: Seen },
    /// For the next object `need` pages are wanted, and `free` ones are free.
    NoPages { need: u64, free: u64 },
}

impl From<PortFault> for PackFault {
    ghost use Rattle.packing.specs.Faults.{told_of};

    ghost from_gives = { λ fault r. r ≡ told_of fault };

    fn from(fault: PortFault) -> PackFault {
        match fault {
            PortFault::Disk => PackFault::Disk,
            PortFault::Memory => PackFault::Memory,
            PortFault::Damaged { page, want, got } => PackFault::Damaged { page, want, got },
        }
    }
}

impl From<CommitFault> for PackFault {
    ghost use Rattle.packing.specs.Faults.{uncommitted};

    ghost from_gives = { λ fault r. r ≡ uncommitted fault };

    fn from(fault: CommitFault) -> PackFault {
        match fault {
            CommitFault::Memory => PackFault::Memory,
            CommitFault::Disk => PackFault::Disk,
        }
    }
}

impl From<Failed> for PackFault {
    ghost use Rattle.packing.specs.declared.fault.PackFault.TheVariants.{Disk};

    ghost from_gives = { λ fault r. r ≡ Disk };

    fn from(_failed: Failed) -> PackFault {
        PackFault::Disk
    }
}

impl From<AllocError> for PackFault {
    ghost use Rattle.packing.specs.declared.fault.PackFault.TheVariants.{Memory};

    ghost from_gives = { λ fault r. r ≡ Memory };

    fn from(_error: AllocError) -> PackFault {
        PackFault::Memory
    }
}
