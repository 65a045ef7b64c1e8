//! Calls on each of the four data areas.

ghost use Rattle.std.specs.Prelude.{◌≡◌, IfErr, OnOk};
ghost use Rattle.lsn_core.specs.Segment.{IsRelseg};
ghost use Rattle.data_areas.specs.Areas.{data_fault, DataCause};
ghost use Rattle.data_areas.specs.Settling.{AreSynced};
ghost use Rattle.restart_areas.specs.Areas.{ForksChange, NoneChanges, AreClear, AreNeat, KeepPages};

use crate::clearing::clear_forks;
use data_areas::DataAreas;
use lsn_core::{AreaFault, StoreArea, StoreFault};
use rel_neat::neaten;
use std::alloc::Global;
use vault::Vault;

/// The fault of a data area, by its number.
pub fn fault_of_data(number: u32, why: AreaFault) -> StoreFault
    ensures { result ≡ data_fault number why }
{
    match why {
        AreaFault::Failed => StoreFault::Failed(StoreArea::Data(number)),
        AreaFault::NoMemory => StoreFault::NoMemory,
    }
}

/// Removes the segment files of all forks of the four data areas. After a fault some of them may be
/// gone.
pub fn clear_all<V: Vault>(alloc: Global, areas: &mut DataAreas<V>) -> Result<(), StoreFault>
    ensures cleared { OnOk result (AreClear V.Vault areas.new) }
    ensures changes { ForksChange V.Vault areas.old areas.new }
    ensures cause { IfErr result (DataCause V.Vault areas.old areas.new) }
{
    if let Err(why) = clear_forks(alloc, &mut areas.data0) {
        return Err(fault_of_data(0, why));
    }
    if let Err(why) = clear_forks(alloc, &mut areas.data1) {
        return Err(fault_of_data(1, why));
    }
    if let Err(why) = clear_forks(alloc, &mut areas.data2) {
        return Err(fault_of_data(2, why));
    }
    if let Err(why) = clear_forks(alloc, &mut areas.data3) {
        return Err(fault_of_data(3, why));
    }
    Ok(())
}

/// Makes the segment files of the four data areas neat. What stays of their pages stays, also where
/// a stop comes meanwhile. After a fault some of them may be neat.
pub fn neaten_all<V: Vault>(
    alloc: Global,
    areas: &mut DataAreas<V>,
    relseg: u32,
) -> Result<(), StoreFault>
    requires relseg { IsRelseg relseg }
    ensures neat { OnOk result (AreNeat V.Vault relseg areas.new) }
    ensures keeps { KeepPages V.Vault relseg areas.old areas.new }
    ensures changes { ForksChange V.Vault areas.old areas.new }
    ensures cause { IfErr result (DataCause V.Vault areas.old areas.new) }
{
    if let Err(why) = neaten(alloc, &mut areas.data0, relseg) {
        return Err(fault_of_data(0, why));
    }
    if let Err(why) = neaten(alloc, &mut areas.data1, relseg) {
        return Err(fault_of_data(1, why));
    }
    if let Err(why) = neaten(alloc, &mut areas.data2, relseg) {
        return Err(fault_of_data(2, why));
    }
    if let Err(why) = neaten(alloc, &mut areas.data3, relseg) {
        return Err(fault_of_data(3, why));
    }
    Ok(())
}

/// Makes the four data areas durable as they are.
pub fn sync_all<V: Vault>(areas: &mut DataAreas<V>) -> Result<(), StoreFault>
    ensures synced { OnOk result (AreSynced V.Vault areas.old areas.new) }
    ensures changes { NoneChanges V.Vault areas.old areas.new }
    ensures cause { IfErr result (DataCause V.Vault areas.old areas.new) }
{
    if let Err(why) = areas.data0.sync() {
        return Err(fault_of_data(0, why));
    }
    if let Err(why) = areas.data1.sync() {
        return Err(fault_of_data(1, why));
    }
    if let Err(why) = areas.data2.sync() {
        return Err(fault_of_data(2, why));
    }
    if let Err(why) = areas.data3.sync() {
        return Err(fault_of_data(3, why));
    }
    Ok(())
}
