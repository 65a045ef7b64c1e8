//! Why the files of a chain of backups aren't read.

ghost use Rattle.std.specs.Prelude.{◌≡◌};
ghost use Rattle.lsn_core.specs.declared.fault.AreaFault.TheVariants.{NoMemory as OutOfMemory};

use lsn_core::{AreaFault, NoMemory};
use std::alloc::{AllocError, AllocFailed};

/// A call on the area of a member of a chain failed, or memory ran out.
#[derive(Clone, Copy, Debug, PartialEq, Eq)]
pub struct MemberFault {
    /// The area's place among those that were lent, from 0; after `NoMemory` any place.
    pub area: u32,
    /// Why.
    pub why: AreaFault,
}

/// Memory ran out.
pub(crate) fn no_memory() -> MemberFault
    ensures { result.why ≡ OutOfMemory }
{
    MemberFault {
        area: 0,
        why: AreaFault::NoMemory,
    }
}

impl From<NoMemory> for MemberFault {
    ghost from_gives = { λ _ e. e.why ≡ OutOfMemory };

    fn from(_: NoMemory) -> Self {
        no_memory()
    }
}
