//! Why an entry was not appended.

ghost use Rattle.std.specs.Prelude.{◌≡◌};
ghost use Rattle.wal_writer.specs.declared.fault.AppendFault.TheVariants as append_fault;

use lsn_core::NoMemory;
use std::alloc::AllocError;

/// Why an entry was not appended.
#[derive(Clone, Copy, Debug, PartialEq, Eq)]
pub enum AppendFault {
    /// The entry would end behind the last segment, of number 1,048,576.
    WalFull,
    /// Memory ran out.
    NoMemory,
}

impl From<NoMemory> for AppendFault {
    ghost from_gives = { λ _ e. e ≡ append_fault.NoMemory };

    fn from(_: NoMemory) -> Self {
        AppendFault::NoMemory
    }
}

impl From<AllocError> for AppendFault {
    ghost from_gives = { λ _ e. e ≡ append_fault.NoMemory };

    fn from(_: AllocError) -> Self {
        AppendFault::NoMemory
    }
}
