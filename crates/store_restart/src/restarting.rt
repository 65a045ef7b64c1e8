//! A store brought back after a stop.

ghost use Rattle.std.specs.Prelude.{◌≡◌, None, IfOk, IfErr, IfSome, if◌then◌else◌};
ghost use Rattle.std.specs.Option.{is_some};
ghost use Rattle.std.specs.FinMap.{get};
ghost use Rattle.lsn_core.specs.Causes.{HasCause};
ghost use Rattle.vault.specs.Boxed.{on_heap};
ghost use Rattle.vault.specs.Frame.{ChangesOnly, IsDurable, OnlyReads};
ghost use Rattle.data_areas.specs.Marking.{rebuilding_name};
ghost use Rattle.store_restart.specs.Survivors.{AreRead};
ghost use Rattle.store_restart.specs.Causes.{RestartCause};
ghost use Rattle.store_restart.specs.Restart.{OthersStay, AreDurable, BringsBack, IsBadSurvivor};
ghost use Rattle.store_restart.specs.Moments.{BringsSafely, RestartsFrom, RestartsSafely};
ghost use Rattle.store_restart.specs.Restarted.{areas_in, areas_of, IsUnread, IsBack, IsRefused};
ghost use Rattle.store_restart.specs.Restarted.{IsBackFrom, IsRefusedFrom, plain_back, plain_fault};

use crate::boxing::{boxed, unboxed};
use crate::fault::{RestartFault, RestartWhy, of_reader, of_store, of_wal};
use crate::rebuilding::rebuild;
use crate::redoing::redo;
use crate::survivors::{Survivors, read_survivors};
use crate::trimming::trim;
use data_areas::DataAreas;
use lsn_core::{AreaFault, Lsn, Settings, WalTip};
use recovery::Tally;
use restart_areas::fault_of_data;
use std::alloc::Global;
use store_areas::StoreAreas;
use vault::{BoxedArea, Vault};

/// A store that was brought back: its areas, the tip of its WAL, and how many forks and pages its
/// data areas have.
#[derive(Drop)]
pub struct Restarted<V: Vault> {
    pub areas: StoreAreas<V>,
    pub tip: WalTip,
    pub forks: u64,
    pub pages: u64,
}

/// Syncs the WAL of these settings, and reads its survivors.
fn find<V: Vault>(alloc: Global, wal: &mut V, settings: &Settings) -> Result<Survivors, RestartWhy>
    ensures found { IfOk result (AreRead settings.now (V.files wal.old)) }
    ensures cause { IfErr result (IsUnread V.Vault settings.now wal.old wal.new) }
    ensures same { ChangesOnly V.Vault (λ name. ⊥) wal.old wal.new }
    ensures durable { IfOk result (λ found. IsDurable (V.files wal.old) (V.past wal.new)) }
{
    if let Err(why) = wal.sync() {
        return Err(of_wal(why));
    }
    match read_survivors(alloc, wal, settings) {
        Ok(found) => Ok(found),
        Err(why) => Err(of_reader(why)),
    }
}

/// Whether a data area has the file `rebuilding`.
fn is_marked<V: Vault>(area: &mut V) -> Result<bool, AreaFault>
    ensures told { IfOk result (λ marked.
        IfSome (V.files area.old) (λ m. marked ≡ is_some (get m rebuilding_name))) }
    ensures reads { OnlyReads V.Vault area.old area.new }
    ensures cause { HasCause (V.faults area.old) (V.faults area.new) result }
{
    let size = area.size(b"rebuilding")?;
    Ok(size.is_some())
}

/// The redo point from which data areas are brought on: none where they are marked.
fn start_of(marked: bool, redo: Option<Lsn>) -> Option<Lsn>
    ensures { result ≡ (if marked then None else redo) }
{
    if marked {
        return None;
    }
    redo
}

/// Brings the data areas to the end of the survivors of the WAL of these settings: anew from the
/// first one on where they are marked or no redo point is known, and else from that point on.
fn bring_on<V: Vault>(
    alloc: Global,
    wal: &mut BoxedArea<V>,
    areas: DataAreas<BoxedArea<V>>,
    settings: &Settings,
    found: Survivors,
) -> (DataAreas<BoxedArea<V>>, Result<Tally, RestartWhy>)
    requires read { AreRead settings.now ((on_heap V.Vault).files wal.old) found }
    ensures brings { IfOk result.1 (λ tally. IfSome ((on_heap V.Vault).files wal.old)
        (BringsBack (on_heap V.Vault) settings.now found.tip areas result.0 tally)) }
    ensures durable { IfOk result.1 (λ tally. AreDurable (on_heap V.Vault) result.0) }
    ensures moments { IfSome ((on_heap V.Vault).files wal.old)
        (BringsSafely (on_heap V.Vault) settings.now found.tip areas result.0) }
    ensures reads { OnlyReads (on_heap V.Vault) wal.old wal.new }
    ensures changes { OthersStay (on_heap V.Vault) areas result.0 }
    ensures cause { IfErr result.1 (RestartCause (on_heap V.Vault)
        (λ damage. IfSome ((on_heap V.Vault).files wal.old) (λ m. ⊥))
        (λ place. IfSome ((on_heap V.Vault).files wal.old)
        (IsBadSurvivor (on_heap V.Vault) settings.now found.tip areas place))
        wal.old wal.new areas result.0) }
{
    let tip = found.tip;
    let mut areas = areas;
    let marked = match is_marked(&mut areas.data0) {
        Ok(marked) => marked,
        Err(why) => return (areas, Err(of_store(fault_of_data(0, why)))),
    };
    match start_of(marked, found.redo) {
        Some(from) => redo(alloc, wal, areas, settings, from, tip),
        None => rebuild(alloc, wal, areas, settings, tip),
    }
}

/// Brings the WAL of these settings and the data areas back, which are on the heap.
fn restart_on_heap<V: Vault>(
    alloc: Global,
    areas: StoreAreas<BoxedArea<V>>,
    settings: &Settings,
) -> Result<Restarted<BoxedArea<V>>, RestartFault<BoxedArea<V>>>
    ensures back { IfOk result (IsBack (on_heap V.Vault) settings.now areas) }
    ensures refused { IfErr result (IsRefused (on_heap V.Vault) settings.now areas) }
    ensures moments { RestartsFrom (on_heap V.Vault) settings.now areas (areas_in result) }
{
    let StoreAreas {
        wal,
        data0,
        data1,
        data2,
        data3,
    } = areas;
    let mut wal = wal;
    let pages = DataAreas {
        data0,
        data1,
        data2,
        data3,
    };
    let found = match find(alloc, &mut wal, settings) {
        Ok(found) => found,
        Err(why) => return Err(refused(wal, pages, why)),
    };
    let tip = found.tip;
    let (brought, done) = bring_on(alloc, &mut wal, pages, settings, found);
    let pages = brought;
    let tally = match done {
        Ok(tally) => tally,
        Err(why) => return Err(refused(wal, pages, why)),
    };
    if let Err(why) = trim(alloc, &mut wal, settings.segment(), tip.end) {
        return Err(refused(wal, pages, of_wal(why)));
    }
    Ok(Restarted {
        areas: joined(wal, pages),
        tip,
        forks: tally.forks,
        pages: tally.pages,
    })
}

/// The areas of a store, of its WAL's and its data areas.
fn joined<V: Vault>(wal: V, pages: DataAreas<V>) -> StoreAreas<V>
    ensures { result ≡ areas_of wal pages }
{
    StoreAreas {
        wal,
        data0: pages.data0,
        data1: pages.data1,
        data2: pages.data2,
        data3: pages.data3,
    }
}

/// Why a store isn't brought back, with its areas.
fn refused<V: Vault>(wal: V, pages: DataAreas<V>, why: RestartWhy) -> RestartFault<V>
    ensures areas { result.areas ≡ areas_of wal pages }
    ensures why { result.why ≡ why }
{
    RestartFault {
        areas: joined(wal, pages),
        why,
    }
}

/// Brings the WAL of these settings and the data areas back after a stop. The WAL has just its
/// survivors then, durably. The data areas have the segment files of just what these make: made
/// anew where the first area has the file `rebuilding` or where no survivor starts at the redo
/// point that the last checkpoint among them names, and else brought on from that point. Damage in
/// the place of the WAL's first entry, and an entry that is whole and isn't taken, are refused
/// before anything is written. Files of other names stay. The WAL is synced before anything happens
/// to a data area, and cut once these are brought back, durably.
pub fn restart<V: Vault>(
    alloc: Global,
    areas: StoreAreas<V>,
    settings: &Settings,
) -> Result<Restarted<V>, RestartFault<V>>
    ensures back { IfOk result (IsBackFrom V.Vault settings.now areas) }
    ensures refused { IfErr result (IsRefusedFrom V.Vault settings.now areas) }
    ensures moments { RestartsSafely V.Vault settings.now areas (areas_in result) }
{
    let areas = match boxed(alloc, areas) {
        Ok(areas) => areas,
        Err(areas) => {
            return Err(RestartFault {
                areas,
                why: RestartWhy::NoMemory,
            });
        }
    };
    match restart_on_heap(alloc, areas, settings) {
        Ok(done) => Ok(plain_back(done)),
        Err(fault) => Err(plain_fault(fault)),
    }
}

/// A store that was brought back, with its areas moved back from the heap.
fn plain_back<V: Vault>(back: Restarted<BoxedArea<V>>) -> Restarted<V>
    ensures { result ≡ plain_back back }
{
    let Restarted {
        areas,
        tip,
        forks,
        pages,
    } = back;
    Restarted {
        areas: unboxed(areas),
        tip,
        forks,
        pages,
    }
}

/// Why a store isn't brought back, with its areas moved back from the heap.
fn plain_fault<V: Vault>(fault: RestartFault<BoxedArea<V>>) -> RestartFault<V>
    ensures { result ≡ plain_fault fault }
{
    let RestartFault { areas, why } = fault;
    RestartFault {
        areas: unboxed(areas),
        why,
    }
}
