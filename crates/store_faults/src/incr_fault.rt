//! Why an incremental backup is refused.

ghost use Rattle.std.specs.Prelude.{◌≡◌};
ghost use Rattle.store_faults.specs.declared.incr_fault.IncrFault.TheVariants as fault;
ghost use Rattle.store_faults.specs.Giving.{mark_fault};
ghost use Rattle.store_faults.specs.Giving.{advance_fault};
ghost use Rattle.store_faults.specs.Giving.{incr_fault, manifest_fault};

use crate::advance_fault::AdvanceFault;
use crate::backup_fault::BackupFault;
use lsn_core::{Lsn, MarkFault, NoMemory, StoreArea, StoreFault};
use manifest::ManifestFault;

/// Why an incremental backup is refused, or failed. Those that aren't of a device, of memory or of
/// the WAL's room are judged in this order, the first four before anything is done.
#[derive(Clone, Copy, Debug, PartialEq, Eq)]
pub enum IncrFault {
    /// The backup's area holds a file.
    NotEmpty,
    /// The prior backup has no file `backup_manifest`.
    NoManifest,
    /// The manifest of the prior backup is refused, and why: not for want of memory. One of version
    /// 1 is refused for that.
    ManifestRefused(ManifestFault),
    /// The prior backup is of a store with the first system identifier, and this store has the
    /// second.
    SystemDiffers(u64, u64),
    /// The backup would start at the first place, below the prior backup's end, the second.
    Overlap(Lsn, Lsn),
    /// No summary that is kept covers this place, the least such from the prior backup's start on.
    Gap(Lsn),
    /// An entry of the backup has no room below the WAL's end. The number is the length of the
    /// history.
    WalFull(u64),
    /// The device of this area of the store failed, and the area's count of faults rose.
    StoreFailed(StoreArea),
    /// The device of the summaries' area failed, and the area's count of faults rose.
    SumsFailed,
    /// The device of the prior backup's area failed, and the area's count of faults rose.
    PriorFailed,
    /// The device of the backup's area failed, and the area's count of faults rose.
    OutFailed,
    /// Memory ran out.
    NoMemory,
}

impl From<BackupFault> for IncrFault {
    ghost from_gives = { λ e f. f ≡ incr_fault e };

    fn from(fault: BackupFault) -> Self {
        match fault {
            BackupFault::NotEmpty => IncrFault::NotEmpty,
            BackupFault::WalFull(n) => IncrFault::WalFull(n),
            BackupFault::StoreFailed(area) => IncrFault::StoreFailed(area),
            BackupFault::OutFailed => IncrFault::OutFailed,
            BackupFault::NoMemory => IncrFault::NoMemory,
        }
    }
}

impl From<MarkFault> for IncrFault {
    ghost from_gives = { λ e f. f ≡ incr_fault (mark_fault e) };

    fn from(fault: MarkFault) -> Self {
        match fault {
            MarkFault::Failed(area) => IncrFault::StoreFailed(area),
            MarkFault::WalFull(n) => IncrFault::WalFull(n),
            MarkFault::NoMemory => IncrFault::NoMemory,
        }
    }
}

impl From<AdvanceFault> for IncrFault {
    ghost from_gives = { λ e f. f ≡ advance_fault e };

    fn from(fault: AdvanceFault) -> Self {
        match fault {
            AdvanceFault::Gap(place) => IncrFault::Gap(place),
            AdvanceFault::Store(StoreFault::Failed(StoreArea::Sums)) => IncrFault::SumsFailed,
            AdvanceFault::Store(StoreFault::Failed(area)) => IncrFault::StoreFailed(area),
            AdvanceFault::Store(StoreFault::NoMemory) => IncrFault::NoMemory,
        }
    }
}

impl From<ManifestFault> for IncrFault {
    ghost from_gives = { λ e f. f ≡ manifest_fault e };

    fn from(fault: ManifestFault) -> Self {
        match fault {
            ManifestFault::NoMemory => IncrFault::NoMemory,
            why => IncrFault::ManifestRefused(why),
        }
    }
}

impl From<NoMemory> for IncrFault {
    ghost from_gives = { λ _ e. e ≡ fault.NoMemory };

    fn from(_: NoMemory) -> Self {
        IncrFault::NoMemory
    }
}
