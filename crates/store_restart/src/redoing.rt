//! Data areas brought from a redo point to the end of the survivors of a WAL.

ghost use Rattle.std.specs.Prelude.{IfOk, IfErr, IfSome, OnOk};
ghost use Rattle.lsn_core.specs.Segment.{IsRelseg};
ghost use Rattle.vault.specs.Boxed.{on_heap};
ghost use Rattle.vault.specs.Frame.{OnlyReads};
ghost use Rattle.data_areas.specs.Areas.{DataCause};
ghost use Rattle.restart_areas.specs.Areas.{AreNeat, ForksChange, KeepPages, NoneChanges};
ghost use Rattle.restart_areas.specs.Counting.{CountsAll, EachReads};
ghost use Rattle.store_restart.specs.Causes.{RestartCause, IsDataWhy};
ghost use Rattle.store_restart.specs.Restart.{OthersStay, AreDurable, StartsAt, RedoesFrom};
ghost use Rattle.store_restart.specs.Restart.{BringsOn, IsBadOver, IsBadBehind};
ghost use Rattle.store_restart.specs.Steps.{IsFinished, IsUnsettled};

use crate::fault::{RestartWhy, of_store};
use crate::rebuilding::came_to;
use data_areas::DataAreas;
use lsn_core::{Lsn, Settings, StoreFault, WalTip};
use recovery::{Beginning, Tally, recover};
use restart_areas::{StorePages, count_all, neaten_all, sync_all};
use std::alloc::Global;
use vault::{BoxedArea, Vault};

/// Makes the segment files of the data areas neat, durably.
fn make_neat<V: Vault>(
    alloc: Global,
    areas: &mut DataAreas<V>,
    relseg: u32,
) -> Result<(), StoreFault>
    requires relseg { IsRelseg relseg }
    ensures neat { OnOk result (AreNeat V.Vault relseg areas.new) }
    ensures keeps { KeepPages V.Vault relseg areas.old areas.new }
    ensures changes { ForksChange V.Vault areas.old areas.new }
    ensures cause { IfErr result (DataCause V.Vault areas.old areas.new) }
{
    neaten_all(alloc, areas, relseg)?;
    sync_all(areas)
}

/// Redoes the survivors of the WAL of these settings, which end with a tip, from a place on over
/// data areas as they are.
fn redo_neat<V: Vault>(
    alloc: Global,
    wal: &mut BoxedArea<V>,
    areas: DataAreas<BoxedArea<V>>,
    settings: &Settings,
    from: Lsn,
    tip: WalTip,
) -> (DataAreas<BoxedArea<V>>, Result<Tally, RestartWhy>)
    requires start { IfSome ((on_heap V.Vault).files wal.old) (StartsAt settings.now tip from) }
    ensures redone { IfOk result.1 (λ tally. IfSome ((on_heap V.Vault).files wal.old)
        (RedoesFrom (on_heap V.Vault) settings.now tip from areas result.0)) }
    ensures reads { OnlyReads (on_heap V.Vault) wal.old wal.new }
    ensures changes { OthersStay (on_heap V.Vault) areas result.0 }
    ensures cause { IfErr result.1 (RestartCause (on_heap V.Vault)
        (λ damage. IfSome ((on_heap V.Vault).files wal.old) (λ m. ⊥))
        (λ place. IfSome ((on_heap V.Vault).files wal.old)
        (IsBadOver (on_heap V.Vault) settings.now tip from areas place))
        wal.old wal.new areas result.0) }
{
    // known: a segment has some MiB
    let _size = settings.segment();
    let mut pages = StorePages::new(alloc, areas, settings.relseg());
    let begin = Beginning::AtPlace(from);
    let answer = recover(
        alloc,
        wal,
        settings,
        begin,
        Some(tip.end),
        &mut pages,
        Tally::none(),
    );
    let done = came_to(answer, &pages);
    (pages.into_areas(), done)
}

/// Counts the forks and pages of the data areas.
fn counted<V: Vault>(
    alloc: Global,
    areas: DataAreas<V>,
    relseg: u32,
) -> (DataAreas<V>, Result<Tally, RestartWhy>)
    requires relseg { IsRelseg relseg }
    ensures counts { IfOk result.1 (CountsAll V.Vault relseg areas) }
    ensures reads { EachReads V.Vault areas result.0 }
    ensures cause { IfErr result.1 (IsDataWhy V.Vault areas result.0) }
{
    let (areas, all) = count_all(alloc, areas, relseg);
    match all {
        Ok(tally) => (areas, Ok(tally)),
        Err(why) => (areas, Err(of_store(why))),
    }
}

/// Makes data areas durable over which the survivors were redone, where that came to its end, and
/// counts their forks and pages.
fn finish<V: Vault>(
    alloc: Global,
    areas: DataAreas<V>,
    relseg: u32,
    done: Result<Tally, RestartWhy>,
) -> (DataAreas<V>, Result<Tally, RestartWhy>)
    requires relseg { IsRelseg relseg }
    ensures finished { IfOk result.1 (IsFinished V.Vault relseg areas result.0 done) }
    ensures cause { IfErr result.1 (IsUnsettled V.Vault areas result.0 done) }
    ensures changes { NoneChanges V.Vault areas result.0 }
{
    let mut areas = areas;
    let _redone = match done {
        Ok(tally) => tally,
        Err(why) => return (areas, Err(why)),
    };
    if let Err(why) = sync_all(&mut areas) {
        return (areas, Err(of_store(why)));
    }
    counted(alloc, areas, relseg)
}

/// Brings the data areas from a redo point to the end of the survivors of the WAL of these
/// settings, which end with a tip, durably: their segment files are made neat, and the survivors
/// from that point on redone over them. After a fault some of that may be done.
pub(crate) fn redo<V: Vault>(
    alloc: Global,
    wal: &mut BoxedArea<V>,
    areas: DataAreas<BoxedArea<V>>,
    settings: &Settings,
    from: Lsn,
    tip: WalTip,
) -> (DataAreas<BoxedArea<V>>, Result<Tally, RestartWhy>)
    requires start { IfSome ((on_heap V.Vault).files wal.old) (StartsAt settings.now tip from) }
    ensures brings { IfOk result.1 (λ tally. IfSome ((on_heap V.Vault).files wal.old)
        (BringsOn (on_heap V.Vault) settings.now tip from areas result.0)) }
    ensures counts { IfOk result.1 (CountsAll (on_heap V.Vault) settings.now.relseg result.0) }
    ensures durable { IfOk result.1 (λ tally. AreDurable (on_heap V.Vault) result.0) }
    ensures reads { OnlyReads (on_heap V.Vault) wal.old wal.new }
    ensures changes { OthersStay (on_heap V.Vault) areas result.0 }
    ensures cause { IfErr result.1 (RestartCause (on_heap V.Vault)
        (λ damage. IfSome ((on_heap V.Vault).files wal.old) (λ m. ⊥))
        (λ place. IfSome ((on_heap V.Vault).files wal.old)
        (IsBadBehind (on_heap V.Vault) settings.now tip from areas place))
        wal.old wal.new areas result.0) }
{
    let relseg = settings.relseg();
    let mut areas = areas;
    if let Err(why) = make_neat(alloc, &mut areas, relseg) {
        return (areas, Err(of_store(why)));
    }
    let (areas, done) = redo_neat(alloc, wal, areas, settings, from, tip);
    finish(alloc, areas, relseg, done)
}
