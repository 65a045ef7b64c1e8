//! Data areas that were filled, made durable and opened.

ghost use Rattle.std.specs.Prelude.{◌≡◌, ℕ, IfOk, IfErr, OnOk, OnErr};
ghost use Rattle.lsn_core.specs.Segment.{IsRelseg};
ghost use Rattle.vault.specs.Frame.{Adds, IsAmong};
ghost use Rattle.data_areas.specs.Areas.{area_of, data_fault, DataCause, FaultsGrow};
ghost use Rattle.vault.specs.Boxed.{on_heap};
ghost use Rattle.data_areas.specs.Marking.{IsOther};
ghost use Rattle.data_areas.specs.Moments.{AllGoOn, pasts_of, pasts_in};
ghost use Rattle.data_areas.specs.Phases.{first_past};
ghost use Rattle.data_areas.specs.Rebuilt.{held_by, AreRebuilt};
ghost use Rattle.data_areas.specs.Settling.{HasPages, AreFilled, AreSettled, AreSynced, HaveEnded};
ghost use Rattle.data_areas.specs.Settling.{SettledSoFar, IsOpened, IsLeft, AreLeft, FailsWith};
ghost use Rattle.data_areas.specs.Settling.{AreOpened};

use crate::areas::{DataAreas, RebuildFault};
use crate::fault::data_fault;
use crate::marking::unmark_rebuilding;
use lsn_core::{AreaFault, Lsn, StoreFault};
use page_pool::{Partition, Unopened};
use rel_files::Forks;
use std::alloc::Global;
use vault::{BoxedArea, Vault};

/// The four partitions of a store.
#[derive(Drop)]
pub struct Partitions<V: Vault> {
    pub part0: Partition<BoxedArea<V>, 0>,
    pub part1: Partition<BoxedArea<V>, 1>,
    pub part2: Partition<BoxedArea<V>, 2>,
    pub part3: Partition<BoxedArea<V>, 3>,
}

/// Makes filled data areas durable, removes the mark of the first one, durably, and makes
/// partitions of them, of so many frames each, which replay from a place on makes good; the WAL is
/// flushed up to there. A fault hands the areas back: either `data0` has its mark still, or the
/// four have just the files of their pages, durably, but for the mark, which may be gone.
pub fn settle<V: Vault>(
    alloc: Global,
    areas: DataAreas<BoxedArea<V>>,
    relseg: u32,
    frames: u32,
    point: Lsn,
) -> Result<Partitions<V>, RebuildFault<V>>
    requires relseg { IsRelseg relseg }
    requires filled { AreFilled (on_heap V.Vault) relseg areas }
    ensures parts { IfOk result (AreRebuilt (on_heap V.Vault) relseg point.0 areas) }
    ensures ended { IfOk result
        (λ parts. HaveEnded (on_heap V.Vault) relseg areas parts.part0.past) }
    ensures go_on { IfOk result
        (λ parts. AllGoOn (pasts_of (on_heap V.Vault) areas) (pasts_in parts)) }
    ensures went_on { IfErr result (λ f.
        AllGoOn (pasts_of (on_heap V.Vault) areas) (pasts_of (on_heap V.Vault) f.areas)) }
    ensures so_far { IfErr result (λ f. SettledSoFar (on_heap V.Vault) relseg
        (held_by (on_heap V.Vault) relseg areas) areas f.areas) }
    ensures cause { IfErr result (λ f. DataCause (on_heap V.Vault) areas f.areas f.why) }
    ensures later { IfErr result (λ f. FaultsGrow (on_heap V.Vault) areas f.areas) }
{
    let mut areas = areas;
    if let Err(why) = make_durable(&mut areas, relseg) {
        return Err(RebuildFault { areas, why });
    }
    open_all(alloc, areas, relseg, frames, point)
}

/// Syncs filled data areas, and removes the mark of the first one, durably.
fn make_durable<V: Vault>(areas: &mut DataAreas<V>, relseg: u32) -> Result<(), StoreFault>
    requires relseg { IsRelseg relseg }
    requires filled { AreFilled V.Vault relseg areas.old }
    ensures settled { OnOk result (AreSettled V.Vault relseg areas.old areas.new) }
    ensures ended { OnOk result
        (HaveEnded V.Vault relseg areas.old (first_past V.Vault areas.new)) }
    ensures go_on { AllGoOn (pasts_of V.Vault areas.old) (pasts_of V.Vault areas.new) }
    ensures so_far { OnErr result
        (SettledSoFar V.Vault relseg (held_by V.Vault relseg areas.old) areas.old areas.new) }
    ensures cause { IfErr result (DataCause V.Vault areas.old areas.new) }
    ensures later { FaultsGrow V.Vault areas.old areas.new }
{
    sync_all(areas)?;
    match unmark_rebuilding(&mut areas.data0) {
        Ok(()) => Ok(()),
        Err(why) => Err(data_fault(0, why)),
    }
}

/// Syncs the data areas.
fn sync_all<V: Vault>(areas: &mut DataAreas<V>) -> Result<(), StoreFault>
    ensures synced { OnOk result (AreSynced V.Vault areas.old areas.new) }
    ensures others { Adds (IsAmong IsOther) (first_past V.Vault areas.old)
        (first_past V.Vault areas.new) }
    ensures go_on { AllGoOn (pasts_of V.Vault areas.old) (pasts_of V.Vault areas.new) }
    ensures cause { IfErr result (DataCause V.Vault areas.old areas.new) }
    ensures later { FaultsGrow V.Vault areas.old areas.new }
{
    if let Err(why) = areas.data0.sync() {
        return Err(data_fault(0, why));
    }
    if let Err(why) = areas.data1.sync() {
        return Err(data_fault(1, why));
    }
    if let Err(why) = areas.data2.sync() {
        return Err(data_fault(2, why));
    }
    if let Err(why) = areas.data3.sync() {
        return Err(data_fault(3, why));
    }
    Ok(())
}

/// Makes a partition of an area that holds whole pages, up to whose point the WAL is flushed.
fn open_part<V: Vault, const Q: u32>(
    alloc: Global,
    area: V,
    relseg: u32,
    frames: u32,
    point: Lsn,
) -> Result<Partition<V, Q>, Unopened<V>>
    requires relseg { IsRelseg relseg }
    requires held { HasPages V.Vault relseg area }
    ensures opened { IfOk result (IsOpened V.Vault relseg point.0 area) }
    ensures left { IfErr result (λ u. IsLeft V.Vault area u.area) }
    ensures cause { IfErr result (λ u. FailsWith (V.faults area) (V.faults u.area) u.why) }
{
    Partition::open(alloc, Forks::new(alloc, area, relseg), frames, point, point)
}

/// Makes partitions of areas that hold whole pages.
fn open_all<V: Vault>(
    alloc: Global,
    areas: DataAreas<BoxedArea<V>>,
    relseg: u32,
    frames: u32,
    point: Lsn,
) -> Result<Partitions<V>, RebuildFault<V>>
    requires relseg { IsRelseg relseg }
    requires held { (q : ℕ) → HasPages (on_heap V.Vault) relseg (area_of areas q) }
    ensures opened { IfOk result (AreOpened (on_heap V.Vault) relseg point.0 areas) }
    ensures left { IfErr result (λ f. AreLeft (on_heap V.Vault) areas f.areas) }
    ensures cause { IfErr result (λ f. DataCause (on_heap V.Vault) areas f.areas f.why) }
{
    let (data1, data2, data3) = (areas.data1, areas.data2, areas.data3);
    let part0 = match open_part(alloc, areas.data0, relseg, frames, point) {
        Ok(part) => part,
        Err(at) => return Err(unopened(0, at.why, at.area, data1, data2, data3)),
    };
    let part1 = match open_part(alloc, data1, relseg, frames, point) {
        Ok(part) => part,
        Err(at) => return Err(unopened(1, at.why, part0.into_area(), at.area, data2, data3)),
    };
    let part2 = match open_part(alloc, data2, relseg, frames, point) {
        Ok(part) => part,
        Err(at) => {
            let (data0, data1) = (part0.into_area(), part1.into_area());
            return Err(unopened(2, at.why, data0, data1, at.area, data3));
        }
    };
    match open_part(alloc, data3, relseg, frames, point) {
        Ok(part3) => Ok(Partitions {
            part0,
            part1,
            part2,
            part3,
        }),
        Err(at) => {
            let (data0, data1, data2) = (part0.into_area(), part1.into_area(), part2.into_area());
            Err(unopened(3, at.why, data0, data1, data2, at.area))
        }
    }
}

/// The fault of a data area, with all four.
fn unopened<V: Vault>(
    number: u32,
    why: AreaFault,
    data0: BoxedArea<V>,
    data1: BoxedArea<V>,
    data2: BoxedArea<V>,
    data3: BoxedArea<V>,
) -> RebuildFault<V>
    ensures why { result.why ≡ data_fault number why }
    ensures data0 { result.areas.data0 ≡ data0 }
    ensures data1 { result.areas.data1 ≡ data1 }
    ensures data2 { result.areas.data2 ≡ data2 }
    ensures data3 { result.areas.data3 ≡ data3 }
{
    RebuildFault {
        areas: DataAreas {
            data0,
            data1,
            data2,
            data3,
        },
        why: data_fault(number, why),
    }
}
