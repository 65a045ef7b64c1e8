//! Why a store is not brought back.

ghost use Rattle.std.specs.Prelude.{◌≡◌};
ghost use Rattle.store_restart.specs.Causes.{why_of, why_of_wal, reader_why, replay_why};

use lsn_core::{AreaFault, Lsn, StoreArea, StoreFault};
use recovery::RecoveryFault;
use store_areas::StoreAreas;
use vault::Vault;
use wal_archive::{Broken, Damage};
use wal_reader::WalFault;

/// Why a store is not brought back.
#[derive(Clone, Copy, Debug, PartialEq, Eq)]
pub enum RestartWhy {
    /// The archive is damaged in the place of the first entry, or an entry is whole and isn't
    /// taken.
    Damaged(Damage),
    /// A delta of the entry that starts there leaves a page with a bad header.
    BadDelta(Lsn),
    /// An area failed, and its count of faults rose.
    Failed(StoreArea),
    /// Memory ran out.
    NoMemory,
}

/// Why a store is not brought back, with its areas.
#[derive(Drop)]
pub struct RestartFault<V: Vault> {
    pub areas: StoreAreas<V>,
    pub why: RestartWhy,
}

/// What the fault of the WAL's area is.
pub(crate) fn of_wal(fault: AreaFault) -> RestartWhy
    ensures { result ≡ why_of_wal fault }
{
    match fault {
        AreaFault::Failed => RestartWhy::Failed(StoreArea::Wal),
        AreaFault::NoMemory => RestartWhy::NoMemory,
    }
}

/// What the fault of a data area is.
pub(crate) fn of_store(fault: StoreFault) -> RestartWhy
    ensures { result ≡ why_of fault }
{
    match fault {
        StoreFault::Failed(area) => RestartWhy::Failed(area),
        StoreFault::NoMemory => RestartWhy::NoMemory,
    }
}

/// What the fault of who reads the WAL's entries is. Of settings that are known none comes.
pub(crate) fn of_reader(fault: WalFault) -> RestartWhy
    ensures { result ≡ reader_why fault }
{
    match fault {
        WalFault::Damaged(damage) => RestartWhy::Damaged(damage),
        WalFault::NoMemory => RestartWhy::NoMemory,
        WalFault::Failed => RestartWhy::Failed(StoreArea::Wal),
        WalFault::SettingsDamaged => RestartWhy::Failed(StoreArea::Wal),
        WalFault::Timeline(_) => RestartWhy::Failed(StoreArea::Wal),
        WalFault::NotInit => RestartWhy::Failed(StoreArea::Wal),
    }
}

/// What the fault of a replay is, of entries that were read before. An archive that ends earlier
/// now was cut off meanwhile.
pub(crate) fn of_recovery(fault: RecoveryFault) -> RestartWhy
    ensures { result ≡ replay_why fault }
{
    match fault {
        RecoveryFault::Damaged(_, damage) => RestartWhy::Damaged(damage),
        RecoveryFault::BadDelta(place) => RestartWhy::BadDelta(place),
        RecoveryFault::NoMemory => RestartWhy::NoMemory,
        RecoveryFault::Failed => RestartWhy::Failed(StoreArea::Wal),
        RecoveryFault::Short(end, _) => RestartWhy::Damaged(Damage::Broken(end, Broken::Torn)),
        RecoveryFault::SettingsDamaged => RestartWhy::Failed(StoreArea::Wal),
        RecoveryFault::Timeline(_) => RestartWhy::Failed(StoreArea::Wal),
        RecoveryFault::NotInit => RestartWhy::Failed(StoreArea::Wal),
    }
}
