//! The fault of a data area.

ghost use Rattle.std.specs.Prelude.{◌≡◌};
ghost use Rattle.data_areas.specs.Areas.{data_fault};

use lsn_core::{AreaFault, StoreArea, StoreFault};

/// The fault of a data area, by its number.
pub(crate) fn data_fault(number: u32, why: AreaFault) -> StoreFault
    ensures { result ≡ data_fault number why }
{
    match why {
        AreaFault::Failed => StoreFault::Failed(StoreArea::Data(number)),
        AreaFault::NoMemory => StoreFault::NoMemory,
    }
}
