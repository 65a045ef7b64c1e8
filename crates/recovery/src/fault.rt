//! Why a WAL is not replayed.

ghost use Rattle.std.specs.Prelude.{◌≡◌};
ghost use Rattle.recovery.specs.declared.fault.RecoveryFault.TheVariants as fault;
ghost use Rattle.recovery.specs.declared.fault.ReplayFault.TheVariants.{Wal, Out};
ghost use Rattle.recovery.specs.Causes.{fault_of, area_fault_of};

use lsn_core::{AreaFault, Lsn, NoMemory, SegSize};
use wal_archive::Damage;
use wal_reader::{FileName, WalFault};

/// Why a WAL is not replayed.
#[derive(Clone, Copy, Debug, PartialEq, Eq)]
pub enum RecoveryFault {
    /// The archive, with segments of that size, is damaged.
    Damaged(SegSize, Damage),
    /// The archive ends at the first place, before the second one, which is the target.
    Short(Lsn, Lsn),
    /// The entry that starts there has a delta that leaves a page with a bad header.
    BadDelta(Lsn),
    /// The file `settings` is not of its grammar.
    SettingsDamaged,
    /// This name is that of a segment file of a timeline other than 1, the first in byte order.
    Timeline(FileName),
    /// There is no WAL: no name is 24 upper-case hexadecimal digits; for who needs an entry, also a
    /// WAL that has none.
    NotInit,
    /// The area of the WAL failed, and its count of faults rose.
    Failed,
    /// Memory ran out.
    NoMemory,
}

/// What a fault of the reader of an archive with segments of that size is to a replay.
pub fn fault_of(size: SegSize, fault: WalFault) -> RecoveryFault
    ensures { result ≡ fault_of size fault }
{
    match fault {
        WalFault::Damaged(damage) => RecoveryFault::Damaged(size, damage),
        WalFault::SettingsDamaged => RecoveryFault::SettingsDamaged,
        WalFault::Timeline(name) => RecoveryFault::Timeline(name),
        WalFault::NotInit => RecoveryFault::NotInit,
        WalFault::Failed => RecoveryFault::Failed,
        WalFault::NoMemory => RecoveryFault::NoMemory,
    }
}

impl From<NoMemory> for RecoveryFault {
    ghost from_gives = { λ _ e. e ≡ fault.NoMemory };

    fn from(_: NoMemory) -> Self {
        RecoveryFault::NoMemory
    }
}

impl From<AreaFault> for RecoveryFault {
    ghost from_gives = { λ why e. e ≡ area_fault_of why };

    fn from(fault: AreaFault) -> Self {
        match fault {
            AreaFault::Failed => RecoveryFault::Failed,
            AreaFault::NoMemory => RecoveryFault::NoMemory,
        }
    }
}

/// Why a WAL is not replayed into pages.
#[derive(Clone, Copy, Debug, PartialEq, Eq)]
pub enum ReplayFault {
    /// The WAL is not replayed, or memory ran out.
    Wal(RecoveryFault),
    /// A call on the pages failed.
    Out(AreaFault),
}

impl From<RecoveryFault> for ReplayFault {
    ghost from_gives = { λ why e. e ≡ Wal why };

    fn from(fault: RecoveryFault) -> Self {
        ReplayFault::Wal(fault)
    }
}

impl From<AreaFault> for ReplayFault {
    ghost from_gives = { λ why e. e ≡ Out why };

    fn from(fault: AreaFault) -> Self {
        ReplayFault::Out(fault)
    }
}

impl From<NoMemory> for ReplayFault {
    ghost from_gives = { λ _ e. e ≡ Wal fault.NoMemory };

    fn from(_: NoMemory) -> Self {
        ReplayFault::Wal(RecoveryFault::NoMemory)
    }
}
