//! Why a backup isn't restored.

ghost use Rattle.std.specs.Prelude.{◌≡◌};
ghost use Rattle.backup_restore.specs.declared.fault.RestoreFault.TheVariants as restore;
ghost use Rattle.backup_restore.specs.Inside.{restore_fault_of, no_memory};

use chain_files::MemberFault;
use lsn_core::{AreaFault, NoMemory};
use recovery::{RecoveryFault, ReplayFault};

/// Why a backup isn't restored.
#[derive(Clone, Copy, Debug, PartialEq, Eq)]
pub enum RestoreFault {
    /// A call on the area of a member of the chain failed, or memory ran out.
    Backup(MemberFault),
    /// The WAL isn't redone, or memory ran out.
    Wal(RecoveryFault),
    /// A call on the output failed, or memory ran out.
    Out(AreaFault),
}

impl From<ReplayFault> for RestoreFault {
    ghost from_gives = { λ fault e. e ≡ restore_fault_of fault };

    fn from(fault: ReplayFault) -> Self {
        match fault {
            ReplayFault::Wal(why) => RestoreFault::Wal(why),
            ReplayFault::Out(why) => RestoreFault::Out(why),
        }
    }
}

impl From<MemberFault> for RestoreFault {
    ghost from_gives = { λ fault e. e ≡ restore.Backup fault };

    fn from(fault: MemberFault) -> Self {
        RestoreFault::Backup(fault)
    }
}

impl From<NoMemory> for RestoreFault {
    ghost from_gives = { λ _ e. e ≡ restore.Backup no_memory };

    fn from(_: NoMemory) -> Self {
        RestoreFault::Backup(MemberFault {
            area: 0,
            why: AreaFault::NoMemory,
        })
    }
}
