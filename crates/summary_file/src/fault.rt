//! Why bytes are no summary.

ghost use Rattle.std.specs.Prelude.{◌≡◌};
ghost use Rattle.summary_file.specs.declared.fault.SummaryFault.TheVariants as fault;

use lsn_core::NoMemory;
use std::alloc::{AllocError, AllocFailed};

/// The first cause to refuse a file. All but the last stand in the order in which they are judged
/// (profile).
#[derive(Clone, Copy, Debug, PartialEq, Eq)]
pub enum SummaryFault {
    /// The counts don't give the size.
    Length,
    /// Another number stands at the front.
    Magic,
    /// The sum isn't that of the bytes before it.
    Sum,
    /// The range is empty, forks or blocks are out of order, the number of a database, a relation,
    /// a fork or a block is out of range, or a fork has neither limit nor blocks.
    Order,
    /// Memory ran out.
    NoMemory,
}

impl From<NoMemory> for SummaryFault {
    ghost from_gives = { λ _ e. e ≡ fault.NoMemory };

    fn from(_: NoMemory) -> Self {
        SummaryFault::NoMemory
    }
}

impl From<AllocError> for SummaryFault {
    ghost from_gives = { λ _ e. e ≡ fault.NoMemory };

    fn from(_: AllocError) -> Self {
        SummaryFault::NoMemory
    }
}

impl<T: Drop> From<AllocFailed<T>> for SummaryFault {
    ghost from_gives = { λ _ e. e ≡ fault.NoMemory };

    fn from(_: AllocFailed<T>) -> Self {
        SummaryFault::NoMemory
    }
}
