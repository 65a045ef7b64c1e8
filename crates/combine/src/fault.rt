//! Why a chain isn't combined.

ghost use Rattle.combine.specs.declared.fault.CombineFault.TheVariants as fault;
ghost use Rattle.std.specs.Prelude.{◌≡◌};
ghost use Rattle.combine.specs.Inside.{area_fault, member_fault, write_fault};

use chain_files::MemberFault;
use directory_files::WriteFault;
use lsn_core::{AreaFault, NoMemory};
use std::alloc::{AllocError, AllocFailed};

/// Why a chain isn't combined, or what failed.
#[derive(Clone, Copy, Debug, PartialEq, Eq)]
pub enum CombineFault {
    /// The output holds a file.
    NotEmpty,
    /// No manifest can list what the newest member is combined to: it is none that was read from a
    /// manifest, or its directory isn't as listed.
    Unlisted,
    /// The device of a member's area failed, and the area's count of faults rose. The number is its
    /// place among the areas, from 0.
    MemberFailed(u32),
    /// The device of the output failed, and the area's count of faults rose.
    OutFailed,
    /// Memory ran out.
    NoMemory,
}

impl From<AreaFault> for CombineFault {
    ghost from_gives = { λ e f. f ≡ area_fault e };

    fn from(fault: AreaFault) -> Self {
        match fault {
            AreaFault::Failed => CombineFault::OutFailed,
            AreaFault::NoMemory => CombineFault::NoMemory,
        }
    }
}

impl From<MemberFault> for CombineFault {
    ghost from_gives = { λ e f. f ≡ member_fault e };

    fn from(fault: MemberFault) -> Self {
        match fault.why {
            AreaFault::Failed => CombineFault::MemberFailed(fault.area),
            AreaFault::NoMemory => CombineFault::NoMemory,
        }
    }
}

impl From<WriteFault> for CombineFault {
    ghost from_gives = { λ e f. f ≡ write_fault e };

    fn from(fault: WriteFault) -> Self {
        match fault {
            WriteFault::MemberFailed(place) => CombineFault::MemberFailed(place),
            WriteFault::OutFailed => CombineFault::OutFailed,
            WriteFault::NoMemory => CombineFault::NoMemory,
        }
    }
}

impl From<NoMemory> for CombineFault {
    ghost from_gives = { λ _ e. e ≡ fault.NoMemory };

    fn from(_: NoMemory) -> Self {
        CombineFault::NoMemory
    }
}

impl From<AllocError> for CombineFault {
    ghost from_gives = { λ _ e. e ≡ fault.NoMemory };

    fn from(_: AllocError) -> Self {
        CombineFault::NoMemory
    }
}

impl<T: Drop> From<AllocFailed<T>> for CombineFault {
    ghost from_gives = { λ _ e. e ≡ fault.NoMemory };

    fn from(_: AllocFailed<T>) -> Self {
        CombineFault::NoMemory
    }
}
