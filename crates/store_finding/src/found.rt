//! A store that is found on its areas: its WAL is read, and the data areas are rebuilt from it.

ghost use Rattle.std.specs.Prelude.{◌≡◌, [], IfOk, IfErr, IsSome};
ghost use Rattle.vault.specs.Frame.{IsDurable};
ghost use Rattle.vault.specs.Boxed.{on_heap};
ghost use Rattle.data_areas.specs.Clearing.{AreBare};
ghost use Rattle.store_areas.specs.Begin.{AllTell, IsBegun, IsStanding, IsUnbegun, data_of, shown_of};
ghost use Rattle.store_areas.specs.Moments.{LeavesReplay, RebuildsSafely};
ghost use Rattle.store_areas.specs.Opened.{past_of};
ghost use Rattle.store_areas.specs.Read.{IsFound};
ghost use Rattle.store_finding.specs.Filling.{areas_with, IsChecked, AreFilledBy};
ghost use Rattle.store_finding.specs.Filling.{FillsSafely, IsUnsettled, IsUnfilled};

use crate::boxing::{BoxedAreas, boxed, unboxed};
use crate::finding::{Heard, check, replay};
use data_areas::{Partitions, StoreForks, clear, settle};
use journal::HistoryEntry;
use lsn_core::Settings;
use recovery::{RecoveryFault, ReplayFault};
use std::alloc::Global;
use store_areas::{BeginFault, Found, StoreAreas};
use store_faults::BeginWhy;
use timeline::Opened;
use vault::Vault;
use wal_writer::WalState;

/// Makes partitions of the data areas into which a WAL was replayed.
fn open<V: Vault>(
    alloc: Global,
    areas: BoxedAreas<V>,
    settings: Settings,
    heard: Heard,
    frames: u32,
) -> Result<Found<V>, BeginFault<V>>
    requires found { IsFound (V.files areas.wal) settings heard.opened.list heard.pages heard.tip }
    requires filled { AreFilledBy V.Vault settings.relseg (V.files areas.wal) heard.opened.list
        areas.pages }
    requires durable { IsDurable (V.files areas.wal) (V.past areas.wal) }
    ensures table { IfOk result (λ found. found.opened ≡ heard.opened) }
    ensures begun { IfOk result (λ found. IsBegun V.Vault (areas_with areas.wal areas.pages)
        (shown_of V.Vault found) found.tip) }
    ensures stands { IfOk result (IsStanding V.Vault) }
    ensures refused { IfErr result (IsUnsettled V.Vault settings.relseg areas) }
    ensures settled { IfOk result (λ found. IsSome (V.files areas.wal)
        → LeavesReplay (V.files areas.wal) (data_of (shown_of V.Vault found).past)) }
    ensures stops { IfOk result (λ found. FillsSafely V.Vault areas (shown_of V.Vault found).past) }
    ensures stopped { IfErr result
        (λ fault. FillsSafely V.Vault areas (past_of V.Vault fault.areas)) }
{
    // known: where the WAL ends is within its room
    let tip = heard.tip;
    let state = WalState::attach(alloc, areas.wal, settings, tip);
    let _tip = state.tip();
    let wal = state.detach();
    match settle(alloc, areas.pages, settings.relseg(), frames, tip.end) {
        Ok(parts) => Ok(Found {
            opened: heard.opened,
            settings,
            pages: heard.pages,
            tip,
            wal,
            parts,
        }),
        Err(fault) => Err(BeginFault {
            areas: unboxed(wal, fault.areas),
            why: BeginWhy::Data(fault.why),
        }),
    }
}

/// Replays the WAL of a store, which was read, into cleared data areas, and makes partitions of
/// them.
fn refill<V: Vault>(
    alloc: Global,
    opened: Opened<HistoryEntry>,
    areas: BoxedAreas<V>,
    settings: Settings,
    frames: u32,
) -> Result<Found<V>, BeginFault<V>>
    requires none { opened.list ≡ [] }
    requires checked { IsChecked (V.files areas.wal) settings }
    requires bare { AreBare (on_heap V.Vault) areas.pages }
    requires durable { IsDurable (V.files areas.wal) (V.past areas.wal) }
    ensures begun { IfOk result (λ found. IsBegun V.Vault (areas_with areas.wal areas.pages)
        (shown_of V.Vault found) found.tip) }
    ensures stands { IfOk result (IsStanding V.Vault) }
    ensures refused { IfErr result (IsUnfilled V.Vault settings areas) }
    ensures settled { IfOk result (λ found. IsSome (V.files areas.wal)
        → LeavesReplay (V.files areas.wal) (data_of (shown_of V.Vault found).past)) }
    ensures stops { IfOk result (λ found. FillsSafely V.Vault areas (shown_of V.Vault found).past) }
    ensures stopped { IfErr result
        (λ fault. FillsSafely V.Vault areas (past_of V.Vault fault.areas)) }
{
    let mut wal = areas.wal;
    let mut forks = StoreForks::new(alloc, areas.pages, settings.relseg());
    match replay(alloc, opened, &mut wal, &settings, &mut forks) {
        Ok(heard) => {
            let pages = forks.into_areas();
            open(alloc, BoxedAreas { wal, pages }, settings, heard, frames)
        }
        Err(fault) => {
            let why = match fault {
                ReplayFault::Wal(why) => BeginWhy::Replay(why),
                ReplayFault::Out(why) => BeginWhy::Data(forks.fault(why)),
            };
            let areas = unboxed(wal, forks.into_areas());
            Err(BeginFault { areas, why })
        }
    }
}

/// Clears the data areas of a store whose WAL was read, replays that into them, and makes
/// partitions of them.
fn rebuild<V: Vault>(
    alloc: Global,
    opened: Opened<HistoryEntry>,
    areas: BoxedAreas<V>,
    settings: Settings,
    frames: u32,
) -> Result<Found<V>, BeginFault<V>>
    requires none { opened.list ≡ [] }
    requires checked { IsChecked (V.files areas.wal) settings }
    requires durable { IsDurable (V.files areas.wal) (V.past areas.wal) }
    ensures begun { IfOk result (λ found. IsBegun V.Vault (areas_with areas.wal areas.pages)
        (shown_of V.Vault found) found.tip) }
    ensures stands { IfOk result (IsStanding V.Vault) }
    ensures refused { IfErr result (IsUnbegun V.Vault (areas_with areas.wal areas.pages)) }
    ensures settled { IfOk result (λ found. IsSome (V.files areas.wal)
        → LeavesReplay (V.files areas.wal) (data_of (shown_of V.Vault found).past)) }
    ensures stops { AllTell V.Vault (areas_with areas.wal areas.pages) → IfOk result (λ found.
        RebuildsSafely V.Vault (areas_with areas.wal areas.pages)
        (shown_of V.Vault found).past) }
    ensures stopped { AllTell V.Vault (areas_with areas.wal areas.pages) → IfErr result (λ fault.
        RebuildsSafely V.Vault (areas_with areas.wal areas.pages)
        (past_of V.Vault fault.areas)) }
{
    let mut areas = areas;
    if let Err(why) = clear(alloc, &mut areas.pages) {
        return Err(BeginFault {
            areas: unboxed(areas.wal, areas.pages),
            why: BeginWhy::Data(why),
        });
    }
    refill(alloc, opened, areas, settings, frames)
}

/// Reads the WAL of a store whose areas are on the heap, and rebuilds the data areas from it.
fn read<V: Vault>(
    alloc: Global,
    opened: Opened<HistoryEntry>,
    areas: BoxedAreas<V>,
    frames: u32,
) -> Result<Found<V>, BeginFault<V>>
    requires none { opened.list ≡ [] }
    ensures begun { IfOk result (λ found. IsBegun V.Vault (areas_with areas.wal areas.pages)
        (shown_of V.Vault found) found.tip) }
    ensures stands { IfOk result (IsStanding V.Vault) }
    ensures refused { IfErr result (IsUnbegun V.Vault (areas_with areas.wal areas.pages)) }
    ensures settled { AllTell V.Vault (areas_with areas.wal areas.pages) → IfOk result (λ found.
        LeavesReplay (V.files areas.wal) (data_of (shown_of V.Vault found).past)) }
    ensures stops { AllTell V.Vault (areas_with areas.wal areas.pages) → IfOk result (λ found.
        RebuildsSafely V.Vault (areas_with areas.wal areas.pages)
        (shown_of V.Vault found).past) }
    ensures stopped { AllTell V.Vault (areas_with areas.wal areas.pages) → IfErr result (λ fault.
        RebuildsSafely V.Vault (areas_with areas.wal areas.pages)
        (past_of V.Vault fault.areas)) }
{
    let mut areas = areas;
    match check(alloc, &mut areas.wal) {
        Ok(settings) => rebuild(alloc, opened, areas, settings, frames),
        Err(why) => Err(BeginFault {
            areas: unboxed(areas.wal, areas.pages),
            why: BeginWhy::Wal(why),
        }),
    }
}

/// Finds a store on its areas, with so many frames a partition. It reads the settings, syncs the
/// area of the WAL and reads the WAL whole; then it clears the data areas, replays the WAL into
/// them, and makes them durable (`data_areas`). Every refusal hands the areas back. Where the WAL
/// can't be read no data area was touched; meanwhile the first data area has the file `rebuilding`.
/// Whatever it answers, a stop at any moment of the call leaves the data areas as one at its start
/// may, or that file, or the whole replay, and after Ok the whole replay alone.
///
/// What was found is a list that has no name: the caller hands it to `begin` at a name that its
/// proof picks.
pub fn find<V: Vault>(
    alloc: Global,
    areas: StoreAreas<V>,
    frames: u32,
) -> Result<Found<V>, BeginFault<V>>
    ensures begun { IfOk result (λ found.
        IsBegun V.Vault areas (shown_of V.Vault found) found.tip) }
    ensures stands { IfOk result (IsStanding V.Vault) }
    ensures refused { IfErr result (IsUnbegun V.Vault areas) }
    ensures settled { AllTell V.Vault areas → IfOk result (λ found.
        LeavesReplay (V.files areas.wal) (data_of (shown_of V.Vault found).past)) }
    ensures stops { AllTell V.Vault areas → IfOk result (λ found.
        RebuildsSafely V.Vault areas (shown_of V.Vault found).past) }
    ensures stopped { AllTell V.Vault areas → IfErr result
        (λ fault. RebuildsSafely V.Vault areas (past_of V.Vault fault.areas)) }
{
    let why = BeginWhy::Wal(RecoveryFault::NoMemory);
    let opened = match Opened::new(alloc) {
        Ok(opened) => opened,
        Err(_) => return Err(BeginFault { areas, why }),
    };
    match boxed(alloc, areas) {
        Ok(areas) => read(alloc, opened, areas, frames),
        Err(areas) => Err(BeginFault { areas, why }),
    }
}
