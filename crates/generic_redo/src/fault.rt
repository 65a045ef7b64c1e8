//! Why a block reference is not redone.

ghost use Rattle.std.specs.Prelude.{◌≡◌};
ghost use Rattle.generic_redo.specs.declared.fault.RedoFault.TheVariants as redo;
ghost use Rattle.generic_redo.specs.Causes.{redo_fault_of};

use lsn_core::{AreaFault, NoMemory};

/// Why a block reference was not redone.
#[derive(Clone, Copy, Debug, PartialEq, Eq)]
pub enum RedoFault {
    /// A delta would give a page with a bad header.
    BadDelta,
    /// What lies below the pages failed, and their count of faults rose.
    Failed,
    /// Memory ran out.
    NoMemory,
}

impl From<AreaFault> for RedoFault {
    ghost from_gives = { λ fault e. e ≡ redo_fault_of fault };

    fn from(fault: AreaFault) -> Self {
        match fault {
            AreaFault::Failed => RedoFault::Failed,
            AreaFault::NoMemory => RedoFault::NoMemory,
        }
    }
}

impl From<NoMemory> for RedoFault {
    ghost from_gives = { λ _ e. e ≡ redo.NoMemory };

    fn from(_: NoMemory) -> Self {
        RedoFault::NoMemory
    }
}
