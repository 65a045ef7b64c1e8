//! Why a WAL can't be read.

ghost use Rattle.std.specs.Prelude.{◌≡◌};
ghost use Rattle.wal_reader.specs.declared.fault.WalFault.TheVariants as wal;
ghost use Rattle.wal_reader.specs.Causes.{wal_fault_of, wal_fault_read};

use crate::file_name::FileName;
use lsn_core::{AreaFault, NoMemory};
use wal_archive::{Damage, ReadFault};

/// Why a WAL can't be read.
#[derive(Clone, Copy, Debug, PartialEq, Eq)]
pub enum WalFault {
    /// The archive is damaged, a segment of it is missing, or an entry is of a kind or of a content
    /// that isn't taken.
    Damaged(Damage),
    /// The file `settings` is not of its grammar.
    SettingsDamaged,
    /// This name is that of a segment file of a timeline other than 1, the first in byte order.
    Timeline(FileName),
    /// There is no WAL: no name is 24 upper-case hexadecimal digits.
    NotInit,
    /// The area of the WAL failed, and its count of faults rose.
    Failed,
    /// Memory ran out.
    NoMemory,
}

impl From<NoMemory> for WalFault {
    ghost from_gives = { λ _ e. e ≡ wal.NoMemory };

    fn from(_: NoMemory) -> Self {
        WalFault::NoMemory
    }
}

impl From<AreaFault> for WalFault {
    ghost from_gives = { λ fault e. e ≡ wal_fault_of fault };

    fn from(fault: AreaFault) -> Self {
        match fault {
            AreaFault::Failed => WalFault::Failed,
            AreaFault::NoMemory => WalFault::NoMemory,
        }
    }
}

impl From<ReadFault> for WalFault {
    ghost from_gives = { λ fault e. e ≡ wal_fault_read fault };

    fn from(fault: ReadFault) -> Self {
        match fault {
            ReadFault::Bad(damage) => WalFault::Damaged(damage),
            ReadFault::Failed => WalFault::Failed,
            ReadFault::NoMemory => WalFault::NoMemory,
        }
    }
}
