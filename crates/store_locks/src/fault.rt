//! Why an open store refuses a command, and which area failed.

ghost use Rattle.std.specs.Prelude.{◌≡◌};
ghost use Rattle.store_locks.specs.Inside.{fault_of, mark_fault};

use lsn_core::{AreaFault, MarkFault, StoreArea, StoreFault};

/// The fault of an area of a store.
pub fn fault_of(area: StoreArea, fault: AreaFault) -> StoreFault
    ensures { result ≡ fault_of area fault }
{
    match fault {
        AreaFault::Failed => StoreFault::Failed(area),
        AreaFault::NoMemory => StoreFault::NoMemory,
    }
}

/// The fault of a mark that a call on an area had.
pub fn mark_fault(fault: StoreFault) -> MarkFault
    ensures { result ≡ mark_fault fault }
{
    match fault {
        StoreFault::Failed(area) => MarkFault::Failed(area),
        StoreFault::NoMemory => MarkFault::NoMemory,
    }
}
