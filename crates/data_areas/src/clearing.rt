//! Data areas that are marked and cleared.

ghost use Rattle.std.specs.Prelude.{IsSome, IfErr, OnOk, OnErr};
ghost use Rattle.lsn_core.specs.Causes.{HasCause};
ghost use Rattle.data_areas.specs.Areas.{DataCause, FaultsGrow};
ghost use Rattle.data_areas.specs.Clearing.{IsMarkedAlone, AreCleared, HasTried, ClearedSoFar};
ghost use Rattle.data_areas.specs.Moments.{GoesOn, AllGoOn, pasts_of};
ghost use Rattle.data_areas.specs.Phases.{HasMarkSince, HaveMarkSince};

use crate::areas::DataAreas;
use crate::fault::data_fault;
use crate::marking::{clear_area, clear_marked, mark_rebuilding};
use lsn_core::{AreaFault, StoreFault};
use std::alloc::Global;
use vault::Vault;

/// Marks the first data area by the file `rebuilding`, durably, and removes all that the four hold
/// but the mark. After a fault either nothing but that file was touched, or the first area has it
/// still, durably, since before anything else of it changed.
pub fn clear<V: Vault>(alloc: Global, areas: &mut DataAreas<V>) -> Result<(), StoreFault>
    ensures cleared { OnOk result (AreCleared V.Vault areas.old areas.new) }
    ensures begun { OnOk result (HaveMarkSince V.Vault areas.old areas.new) }
    ensures so_far { OnErr result (ClearedSoFar V.Vault areas.old areas.new) }
    ensures go_on { AllGoOn (pasts_of V.Vault areas.old) (pasts_of V.Vault areas.new) }
    ensures cause { IfErr result (DataCause V.Vault areas.old areas.new) }
    ensures later { FaultsGrow V.Vault areas.old areas.new }
{
    if let Err(why) = clear_first(alloc, &mut areas.data0) {
        return Err(data_fault(0, why));
    }
    if let Err(why) = clear_area(alloc, &mut areas.data1) {
        return Err(data_fault(1, why));
    }
    if let Err(why) = clear_area(alloc, &mut areas.data2) {
        return Err(data_fault(2, why));
    }
    if let Err(why) = clear_area(alloc, &mut areas.data3) {
        return Err(data_fault(3, why));
    }
    Ok(())
}

/// Marks the first data area, and removes all other files of it.
fn clear_first<V: Vault>(alloc: Global, area: &mut V) -> Result<(), AreaFault>
    ensures cleared { OnOk result (IsMarkedAlone (V.files area.old) (V.files area.new)) }
    ensures begun { OnOk result
        (HasMarkSince (IsSome (V.files area.old)) (V.past area.old) (V.past area.new)) }
    ensures so_far { OnErr result (HasTried V.Vault area.old area.new) }
    ensures goes_on { GoesOn (V.past area.old) (V.past area.new) }
    ensures cause { HasCause (V.faults area.old) (V.faults area.new) result }
{
    mark_rebuilding(area)?;
    clear_marked(alloc, area)
}
