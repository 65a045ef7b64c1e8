//! Why a backup is refused.

ghost use Rattle.std.specs.Prelude.{◌≡◌};
ghost use Rattle.store_faults.specs.declared.backup_fault.BackupFault.TheVariants as fault;
ghost use Rattle.store_faults.specs.Giving.{area_fault, store_fault, mark_fault};

use lsn_core::{AreaFault, MarkFault, NoMemory, StoreArea, StoreFault};
use std::alloc::{AllocError, AllocFailed};

/// Why a backup is refused, or failed.
#[derive(Clone, Copy, Debug, PartialEq, Eq)]
pub enum BackupFault {
    /// The backup's area holds a file.
    NotEmpty,
    /// An entry of the backup has no room below the WAL's end. The number is the length of the
    /// history.
    WalFull(u64),
    /// The device of this area of the store failed, and the area's count of faults rose.
    StoreFailed(StoreArea),
    /// The device of the backup's area failed, and the area's count of faults rose.
    OutFailed,
    /// Memory ran out.
    NoMemory,
}

impl From<AreaFault> for BackupFault {
    ghost from_gives = { λ e f. f ≡ area_fault e };

    fn from(fault: AreaFault) -> Self {
        match fault {
            AreaFault::Failed => BackupFault::OutFailed,
            AreaFault::NoMemory => BackupFault::NoMemory,
        }
    }
}

impl From<StoreFault> for BackupFault {
    ghost from_gives = { λ e f. f ≡ store_fault e };

    fn from(fault: StoreFault) -> Self {
        match fault {
            StoreFault::Failed(area) => BackupFault::StoreFailed(area),
            StoreFault::NoMemory => BackupFault::NoMemory,
        }
    }
}

impl From<MarkFault> for BackupFault {
    ghost from_gives = { λ e f. f ≡ mark_fault e };

    fn from(fault: MarkFault) -> Self {
        match fault {
            MarkFault::Failed(area) => BackupFault::StoreFailed(area),
            MarkFault::WalFull(n) => BackupFault::WalFull(n),
            MarkFault::NoMemory => BackupFault::NoMemory,
        }
    }
}

impl From<NoMemory> for BackupFault {
    ghost from_gives = { λ _ e. e ≡ fault.NoMemory };

    fn from(_: NoMemory) -> Self {
        BackupFault::NoMemory
    }
}

impl From<AllocError> for BackupFault {
    ghost from_gives = { λ _ e. e ≡ fault.NoMemory };

    fn from(_: AllocError) -> Self {
        BackupFault::NoMemory
    }
}

impl<T: Drop> From<AllocFailed<T>> for BackupFault {
    ghost from_gives = { λ _ e. e ≡ fault.NoMemory };

    fn from(_: AllocFailed<T>) -> Self {
        BackupFault::NoMemory
    }
}
