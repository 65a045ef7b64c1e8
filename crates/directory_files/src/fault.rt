//! Why a file of a directory isn't written.

ghost use Rattle.directory_files.specs.declared.fault.WriteFault.TheVariants as fault;
ghost use Rattle.std.specs.Prelude.{◌≡◌};
ghost use Rattle.directory_files.specs.Faults.{area_fault, member_fault};

use chain_files::MemberFault;
use lsn_core::{AreaFault, NoMemory};
use std::alloc::{AllocError, AllocFailed};

/// What failed where a file of a directory isn't written.
#[derive(Clone, Copy, Debug, PartialEq, Eq)]
pub enum WriteFault {
    /// The device of a member's area failed, and the area's count of faults rose. The number is its
    /// place among the areas, from 0.
    MemberFailed(u32),
    /// The device of the output failed, and the area's count of faults rose.
    OutFailed,
    /// Memory ran out.
    NoMemory,
}

impl From<AreaFault> for WriteFault {
    ghost from_gives = { λ e f. f ≡ area_fault e };

    fn from(fault: AreaFault) -> Self {
        match fault {
            AreaFault::Failed => WriteFault::OutFailed,
            AreaFault::NoMemory => WriteFault::NoMemory,
        }
    }
}

impl From<MemberFault> for WriteFault {
    ghost from_gives = { λ e f. f ≡ member_fault e };

    fn from(fault: MemberFault) -> Self {
        match fault.why {
            AreaFault::Failed => WriteFault::MemberFailed(fault.area),
            AreaFault::NoMemory => WriteFault::NoMemory,
        }
    }
}

impl From<NoMemory> for WriteFault {
    ghost from_gives = { λ _ e. e ≡ fault.NoMemory };

    fn from(_: NoMemory) -> Self {
        WriteFault::NoMemory
    }
}

impl From<AllocError> for WriteFault {
    ghost from_gives = { λ _ e. e ≡ fault.NoMemory };

    fn from(_: AllocError) -> Self {
        WriteFault::NoMemory
    }
}

impl<T: Drop> From<AllocFailed<T>> for WriteFault {
    ghost from_gives = { λ _ e. e ≡ fault.NoMemory };

    fn from(_: AllocFailed<T>) -> Self {
        WriteFault::NoMemory
    }
}
