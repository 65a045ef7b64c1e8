//! Why an open store refuses a command.

ghost use Rattle.std.specs.Prelude.{◌≡◌};
ghost use Rattle.store_locks.specs.Refusals.{fault_at};
ghost use Rattle.store_locks.specs.Inside.{NamesNoArea, insert_fault};

use command_judging::OpFault;
use lsn_core::StoreFault;
use store_faults::InsertFault;

/// The refusal of a partition, which was judged against so many entries.
pub fn fault_at(entries: u64, fault: OpFault) -> InsertFault
    ensures fault { result ≡ fault_at entries fault }
    ensures named { NamesNoArea result }
{
    match fault {
        OpFault::NoFork => InsertFault::NoFork(entries),
        OpFault::ForkExists => InsertFault::ForkExists(entries),
        OpFault::PastEnd => InsertFault::PastEnd(entries),
        OpFault::NoBlock => InsertFault::NoBlock(entries),
        OpFault::BadPage(item) => InsertFault::BadPage(item, entries),
        OpFault::BadFragment(item, fragment) => InsertFault::BadFragment(item, fragment),
        OpFault::ForkFull => InsertFault::ForkFull(entries),
        OpFault::CutPastEnd => InsertFault::CutPastEnd(entries),
        OpFault::SameBlock(item) => InsertFault::SameBlock(item),
        OpFault::NoMemory => InsertFault::NoMemory,
    }
}

/// The refusal of a command for the fault that a call on an area had.
pub fn insert_fault(fault: StoreFault) -> InsertFault
    ensures { result ≡ insert_fault fault }
{
    match fault {
        StoreFault::Failed(area) => InsertFault::Failed(area),
        StoreFault::NoMemory => InsertFault::NoMemory,
    }
}
