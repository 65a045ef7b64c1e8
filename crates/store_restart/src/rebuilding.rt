//! Data areas made anew from the survivors of a WAL.

ghost use Rattle.std.specs.Prelude.{◌≡◌, ℕ, IfOk, IfErr, IfSome, OnOk, OnErr};
ghost use Rattle.lsn_core.specs.Store.{Store};
ghost use Rattle.vault.specs.Boxed.{on_heap};
ghost use Rattle.vault.specs.Frame.{OnlyReads};
ghost use Rattle.data_areas.specs.Areas.{DataCause};
ghost use Rattle.data_areas.specs.Clearing.{ClearedSoFar};
ghost use Rattle.data_areas.specs.Phases.{HaveMarkSince};
ghost use Rattle.restart_areas.specs.Areas.{AreClear, ForksChange};
ghost use Rattle.restart_areas.specs.Pages.{HoldParts};
ghost use Rattle.store_restart.specs.Causes.{RestartCause, replayed_to_tally};
ghost use Rattle.store_restart.specs.Restart.{OthersStay, AreDurable, IsUnmarked, EndWith};
ghost use Rattle.store_restart.specs.Restart.{HoldWhole, IsBadEntry};
ghost use Rattle.store_restart.specs.Moments.{RemakesSafely};
ghost use Rattle.store_restart.specs.Steps.{IsSettled, IsUnsettled, SettlesSafely, SettlesFilled};

use crate::fault::{RestartWhy, of_recovery, of_store};
use data_areas::{DataAreas, mark_rebuilding, unmark_rebuilding};
use lsn_core::{Settings, StoreFault, WalTip};
use recovery::{ReplayFault, Replayed, Tally, replay};
use restart_areas::{StorePages, clear_all, fault_of_data, sync_all};
use std::alloc::Global;
use vault::{BoxedArea, Vault};

/// Marks the first data area by the file `rebuilding`, durably, and removes the segment files of
/// all forks of the four.
fn clear_marked<V: Vault>(alloc: Global, areas: &mut DataAreas<V>) -> Result<(), StoreFault>
    ensures cleared { OnOk result (AreClear V.Vault areas.new) }
    ensures begun { OnOk result (HaveMarkSince V.Vault areas.old areas.new) }
    ensures so_far { OnErr result (ClearedSoFar V.Vault areas.old areas.new) }
    ensures changes { OthersStay V.Vault areas.old areas.new }
    ensures cause { IfErr result (DataCause V.Vault areas.old areas.new) }
{
    if let Err(why) = mark_rebuilding(&mut areas.data0) {
        return Err(fault_of_data(0, why));
    }
    clear_all(alloc, areas)
}

/// Makes filled data areas durable, and takes the mark away, durably.
fn settle_marked<V: Vault>(areas: &mut DataAreas<V>) -> Result<(), StoreFault>
    ensures held { OnOk result ((relseg : ℕ) (store : Store)
        → HoldParts V.Vault relseg areas.old store → HoldParts V.Vault relseg areas.new store) }
    ensures durable { OnOk result (AreDurable V.Vault areas.new) }
    ensures unmarked { OnOk result (IsUnmarked V.Vault areas.new) }
    ensures moments { SettlesSafely V.Vault areas.old areas.new }
    ensures changes { OthersStay V.Vault areas.old areas.new }
    ensures cause { IfErr result (DataCause V.Vault areas.old areas.new) }
{
    sync_all(areas)?;
    if let Err(why) = unmark_rebuilding(&mut areas.data0) {
        return Err(fault_of_data(0, why));
    }
    Ok(())
}

/// What a replay into pages came to: how many forks and pages there are then, or why it came to no
/// end.
pub(crate) fn came_to<V: Vault>(
    answer: Result<Replayed, ReplayFault>,
    pages: &StorePages<V>,
) -> Result<Tally, RestartWhy>
    ensures { result ≡ replayed_to_tally pages.now.faults.last answer }
{
    match answer {
        Ok(replayed) => Ok(Tally {
            forks: replayed.forks,
            pages: replayed.pages,
        }),
        Err(ReplayFault::Wal(why)) => Err(of_recovery(why)),
        Err(ReplayFault::Out(why)) => Err(of_store(pages.fault(why))),
    }
}

/// Replays the survivors of the WAL of these settings, which end with a tip, into data areas
/// without segment files; how many forks and pages they have then.
fn fill<V: Vault>(
    alloc: Global,
    wal: &mut BoxedArea<V>,
    areas: DataAreas<BoxedArea<V>>,
    settings: &Settings,
    tip: WalTip,
) -> (DataAreas<BoxedArea<V>>, Result<Tally, RestartWhy>)
    requires clear { AreClear (on_heap V.Vault) areas }
    requires end { IfSome ((on_heap V.Vault).files wal.old) (EndWith settings.now tip) }
    ensures whole { IfOk result.1 (λ tally.
        IfSome ((on_heap V.Vault).files wal.old)
        (HoldWhole (on_heap V.Vault) settings.now tip result.0 tally)) }
    ensures reads { OnlyReads (on_heap V.Vault) wal.old wal.new }
    ensures forks { ForksChange (on_heap V.Vault) areas result.0 }
    ensures changes { OthersStay (on_heap V.Vault) areas result.0 }
    ensures cause { IfErr result.1 (RestartCause (on_heap V.Vault)
        (λ damage. IfSome ((on_heap V.Vault).files wal.old) (λ m. ⊥))
        (λ place. IfSome ((on_heap V.Vault).files wal.old) (IsBadEntry settings.now tip place))
        wal.old wal.new areas result.0) }
{
    // known: a segment has some MiB
    let _size = settings.segment();
    let mut pages = StorePages::new(alloc, areas, settings.relseg());
    let answer = replay(alloc, wal, settings, Some(tip.end), &mut pages);
    let done = came_to(answer, &pages);
    (pages.into_areas(), done)
}

/// Settles data areas into which the survivors were replayed, where that came to its end.
fn settle<V: Vault>(
    areas: DataAreas<V>,
    done: Result<Tally, RestartWhy>,
) -> (DataAreas<V>, Result<Tally, RestartWhy>)
    ensures settled { IfOk result.1 (IsSettled V.Vault areas result.0 done) }
    ensures cause { IfErr result.1 (IsUnsettled V.Vault areas result.0 done) }
    ensures moments { SettlesFilled V.Vault areas result.0 done }
    ensures changes { OthersStay V.Vault areas result.0 }
{
    let mut areas = areas;
    let tally = match done {
        Ok(tally) => tally,
        Err(why) => return (areas, Err(why)),
    };
    if let Err(why) = settle_marked(&mut areas) {
        return (areas, Err(of_store(why)));
    }
    (areas, Ok(tally))
}

/// Makes the data areas anew from the survivors of the WAL of these settings, which end with a tip.
/// The first area has the file `rebuilding` meanwhile, durably; that goes once all is durable.
/// After a fault it is there still, or the areas are whole.
pub(crate) fn rebuild<V: Vault>(
    alloc: Global,
    wal: &mut BoxedArea<V>,
    areas: DataAreas<BoxedArea<V>>,
    settings: &Settings,
    tip: WalTip,
) -> (DataAreas<BoxedArea<V>>, Result<Tally, RestartWhy>)
    requires end { IfSome ((on_heap V.Vault).files wal.old) (EndWith settings.now tip) }
    ensures whole { IfOk result.1 (λ tally.
        IfSome ((on_heap V.Vault).files wal.old)
        (HoldWhole (on_heap V.Vault) settings.now tip result.0 tally)) }
    ensures durable { IfOk result.1 (λ tally. AreDurable (on_heap V.Vault) result.0) }
    ensures unmarked { IfOk result.1 (λ tally. IsUnmarked (on_heap V.Vault) result.0) }
    ensures moments { IfSome ((on_heap V.Vault).files wal.old)
        (RemakesSafely (on_heap V.Vault) settings.now tip areas result.0) }
    ensures reads { OnlyReads (on_heap V.Vault) wal.old wal.new }
    ensures changes { OthersStay (on_heap V.Vault) areas result.0 }
    ensures cause { IfErr result.1 (RestartCause (on_heap V.Vault)
        (λ damage. IfSome ((on_heap V.Vault).files wal.old) (λ m. ⊥))
        (λ place. IfSome ((on_heap V.Vault).files wal.old) (IsBadEntry settings.now tip place))
        wal.old wal.new areas result.0) }
{
    let mut areas = areas;
    if let Err(why) = clear_marked(alloc, &mut areas) {
        return (areas, Err(of_store(why)));
    }
    let (areas, done) = fill(alloc, wal, areas, settings, tip);
    settle(areas, done)
}
