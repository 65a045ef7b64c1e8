//! Publishing the summaries of a WAL's finished ranges.

ghost use Rattle.std.specs.Prelude.{◌≡◌, true, ◌≤◌, IfOk};
ghost use Rattle.history.specs.fuzzy_copies.Orderly.{IsOrderly};
ghost use Rattle.vault.specs.Frame.{ChangesOnly};
ghost use Rattle.store_locks.specs.Records.{IsPlaceOf};
ghost use Rattle.summary_store.specs.Kept.{end_behind};
ghost use Rattle.summary_store.specs.Expiry.{IsSummaryName};
ghost use Rattle.shared_summaries.specs.summary_publish.Published.{LooksOn, PublishTakes};
ghost use Rattle.shared_summaries.specs.summary_publish.Partly.{LeavesFirst};
ghost use Rattle.shared_summaries.specs.summary_publish.Inside.{CanStart, Publishes, PublishesNext, LeavesNext, MayGoOn, sums_fault};

use crate::summary_publish::reading::next_range;
use crate::summary_publish::writing::write_summary;
use lsn_core::{AreaFault, Lsn, StoreArea, StoreFault};
use shared_store::{Pass, Store};
use std::alloc::Global;
use std::sync::Wait;
use store_locks::OfCrew;
use summary_store::end_behind;
use vault::Vault;
use wal_summary::Summary;

/// Publishes the summaries of the ranges between neighbouring redo points, in order, from the end
/// of those that are kept on, or from a first place where there are none, up to the last redo
/// point, adds them to those, and says how many. Entries are read from `known` on. The area is
/// synced behind the last one.
pub(crate) fn publish<J: OfCrew, V: Vault>(
    rt: &impl Wait,
    alloc: Global,
    area: &mut V,
    first: Lsn,
    kept: &mut Vec<Summary>,
    store: &Store<J, V>,
    pass: &mut Pass<J>,
    known: &mut Lsn,
    when: u64,
) -> Result<u64, StoreFault>
    requires orderly { J.tells ≡ true → IsOrderly 0 pass.old.list }
    requires start { J.tells ≡ true
        → CanStart pass.old.list (end_behind first.0 kept.old.items) known.old.0 }
    ensures published { IfOk result (Publishes V.Vault (J.tells ≡ true)
        pass.new.list first.0 when area.old area.new kept.old.items kept.new.items) }
    ensures left { LeavesFirst (J.tells ≡ true) pass.new.list when first.0
        (V.files area.old) (V.files area.new) kept.old.items kept.new.items }
    ensures place { J.tells ≡ true → IsPlaceOf pass.new.list known.new.0 }
    ensures orderly { J.tells ≡ true → IsOrderly 0 pass.new.list }
    ensures looks { LooksOn pass.old pass.new }
    ensures cause { PublishTakes (V.faults area.old) (V.faults area.new) pass.old pass.new result }
    ensures later { V.faults area.old ≤ V.faults area.new }
    ensures changes { ChangesOnly V.Vault IsSummaryName area.old area.new }
{
    let before = kept.len();
    let mut at = end_behind(kept, first);
    while let Some(sum) = publish_next(rt, alloc, area, at, store, pass, known, when)? {
        at = sum.end;
        kept.push(sum)?;
    }
    let count = (kept.len() - before) as u64;
    match area.sync() {
        Ok(()) => Ok(count),
        Err(fault) => Err(sums_fault(fault)),
    }
}

/// Publishes the summary of the range from a place to the next redo point, where there is one, and
/// answers it.
fn publish_next<J: OfCrew, V: Vault>(
    rt: &impl Wait,
    alloc: Global,
    area: &mut V,
    from: Lsn,
    store: &Store<J, V>,
    pass: &mut Pass<J>,
    known: &mut Lsn,
    when: u64,
) -> Result<Option<Summary>, StoreFault>
    requires orderly { J.tells ≡ true → IsOrderly 0 pass.old.list }
    requires start { J.tells ≡ true → CanStart pass.old.list from.0 known.old.0 }
    ensures next { IfOk result (PublishesNext V.Vault (J.tells ≡ true)
        pass.new.list from.0 when area.old area.new) }
    ensures left { LeavesNext (J.tells ≡ true) pass.new.list when from.0
        (V.files area.old) (V.files area.new) }
    ensures start { IfOk result (λ found. J.tells ≡ true
        → MayGoOn pass.new.list found known.new.0) }
    ensures place { J.tells ≡ true → IsPlaceOf pass.new.list known.new.0 }
    ensures orderly { J.tells ≡ true → IsOrderly 0 pass.new.list }
    ensures looks { LooksOn pass.old pass.new }
    ensures cause { PublishTakes (V.faults area.old) (V.faults area.new) pass.old pass.new result }
    ensures later { V.faults area.old ≤ V.faults area.new }
    ensures changes { ChangesOnly V.Vault IsSummaryName area.old area.new }
{
    let Some(sum) = next_range(rt, alloc, store, pass, known, from, when)? else {
        return Ok(None);
    };
    match write_summary(alloc, area, &sum) {
        Ok(()) => {
            *known = sum.end;
            Ok(Some(sum))
        }
        Err(fault) => Err(sums_fault(fault)),
    }
}

/// The fault of the area of the summaries.
pub(crate) fn sums_fault(fault: AreaFault) -> StoreFault
    ensures { result ≡ sums_fault fault }
{
    match fault {
        AreaFault::Failed => StoreFault::Failed(StoreArea::Sums),
        AreaFault::NoMemory => StoreFault::NoMemory,
    }
}
