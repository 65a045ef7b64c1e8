//! Publishing behind what is kept, removing what is old, and covering a range then.

ghost use Rattle.std.specs.Prelude.{◌≡◌, ℕ, true, None, ◌<◌, ◌≤◌, IfOk, IfErr, IfSome, OnOk};
ghost use Rattle.history.specs.fuzzy_copies.Orderly.{IsOrderly};
ghost use Rattle.vault.specs.Frame.{OnlyReads, ChangesOnly, IsDurable};
ghost use Rattle.wal_summary.specs.Kept.{AreInOrder};
ghost use Rattle.summary_store.specs.Kept.{AreKept};
ghost use Rattle.summary_store.specs.Expiry.{IsSummaryName, AreHeld, Expires, MayExpire};
ghost use Rattle.store_locks.specs.Records.{IsPlaceOf};
ghost use Rattle.shared_summaries.specs.summary_publish.Published.{IsAdvanced, AdvanceAnswers, LooksOn};
ghost use Rattle.shared_summaries.specs.summary_publish.Published.{SumsCause, PublishTakes, AdvanceTakes};
ghost use Rattle.shared_summaries.specs.summary_publish.Published.{Advances, AreListed, AreThose, GoesOnFrom};
ghost use Rattle.shared_summaries.specs.summary_publish.Partly.{AdvancesPartly, MayAdvance};
ghost use Rattle.shared_summaries.specs.summary_publish.Inside.{StartsBy, cover_fault, sums_fault};

use crate::summary_publish::feed::{first_start, know};
use crate::summary_publish::known::Known;
use crate::summary_publish::publishing::{publish, sums_fault};
use lsn_core::{Lsn, StoreFault};
use shared_store::{Pass, Store};
use std::alloc::Global;
use std::sync::Wait;
use store_faults::AdvanceFault;
use store_locks::OfCrew;
use summary_store::{end_behind, expire, kept_in};
use vault::Vault;
use wal_summary::{CoverFault, Summary, covering};

/// Publishes, in order, one summary for each range between neighbouring redo points, from the
/// greatest kept end of an area on, which is the first entry's start where none is kept, and says
/// how many. Each is written to a file of its own in the area, made at `when` (seconds since 1970
/// UTC); a file that stood under its name is written anew, and others stay as they are. Then the
/// files are removed of the kept summaries that were made before `limit`, but never of the one of
/// the greatest end. The area is synced behind the last one, and behind the last removal. Entries
/// are read from the known place on, where one starts or ends that the pass has seen, and from the
/// first one on where the greatest kept end is below it; later calls need read no entry before the
/// place that stands there then, and what is kept is read only where it isn't known. Of the records
/// no more than 64 are in memory at a time (profile). Whatever is answered, no summary's file is
/// left but those that stood there and those that were to be published. A fault of the area is left
/// to book: it comes only where that area's count of faults rose.
pub fn advance<J: OfCrew, V: Vault>(
    rt: &impl Wait,
    alloc: Global,
    area: &mut V,
    store: &Store<J, V>,
    pass: &mut Pass<J>,
    known: &mut Known,
    limit: u64,
    when: u64,
) -> Result<u64, StoreFault>
    requires known { GoesOnFrom (J.tells ≡ true) pass.old.list (V.files area.old) known.old }
    ensures published { IfOk result (IsAdvanced V.Vault (J.tells ≡ true) pass.new.list when limit
        area.old area.new known.old known.new) }
    ensures left { MayAdvance (J.tells ≡ true) pass.new.list when limit
        (V.files area.old) (V.files area.new) known.old known.new }
    ensures known { GoesOnFrom (J.tells ≡ true) pass.new.list (V.files area.new) known.new }
    ensures orderly { J.tells ≡ true → IsOrderly 0 pass.new.list }
    ensures looks { LooksOn pass.old pass.new }
    ensures cause { PublishTakes (V.faults area.old) (V.faults area.new) pass.old pass.new result }
    ensures changes { ChangesOnly V.Vault IsSummaryName area.old area.new }
{
    know(pass);
    let mut kept = known_or_read(alloc, area, known.kept.take())?;
    let mut place = known.place;
    let answer = advance_kept(
        rt, alloc, area, store, pass, &mut kept, &mut place, limit, when,
    );
    *known = Known {
        place,
        kept: Some(kept),
    };
    answer
}

/// The same behind what is kept of the area.
fn advance_kept<J: OfCrew, V: Vault>(
    rt: &impl Wait,
    alloc: Global,
    area: &mut V,
    store: &Store<J, V>,
    pass: &mut Pass<J>,
    kept: &mut Vec<Summary>,
    place: &mut Lsn,
    limit: u64,
    when: u64,
) -> Result<u64, StoreFault>
    requires orderly { J.tells ≡ true → IsOrderly 0 pass.old.list }
    requires place { J.tells ≡ true → IsPlaceOf pass.old.list place.old.0 }
    requires held { IfSome (V.files area.old) (λ m. AreHeld m kept.old.items) }
    requires order { AreInOrder 0 kept.old.items }
    ensures published { IfOk result (Advances V.Vault (J.tells ≡ true) pass.new.list when limit
        area.old area.new kept.old.items kept.new.items) }
    ensures left { AdvancesPartly (J.tells ≡ true) pass.new.list when limit
        (V.files area.old) (V.files area.new) kept.old.items kept.new.items }
    ensures place { J.tells ≡ true → IsPlaceOf pass.new.list place.new.0 }
    ensures orderly { J.tells ≡ true → IsOrderly 0 pass.new.list }
    ensures looks { LooksOn pass.old pass.new }
    ensures cause { PublishTakes (V.faults area.old) (V.faults area.new) pass.old pass.new result }
    ensures changes { ChangesOnly V.Vault IsSummaryName area.old area.new }
{
    let first = first_start(store, pass);
    move_back(place, end_behind(kept, first), first);
    let count = publish(rt, alloc, area, first, kept, store, pass, place, when)?;
    expire_old(alloc, area, kept, limit)?;
    Ok(count)
}

/// Removes the old ones of the summaries that are kept of an area, which is synced behind the last
/// one, where there is one.
fn expire_old<V: Vault>(
    alloc: Global,
    area: &mut V,
    kept: &mut Vec<Summary>,
    limit: u64,
) -> Result<(), StoreFault>
    ensures expired { OnOk result ((count : ℕ) × Expires V.Vault limit area.old area.new
        kept.old.items kept.new.items count) }
    ensures durable { IsDurable (V.files area.old) (V.past area.old)
        → OnOk result (IsDurable (V.files area.new) (V.past area.new)) }
    ensures left { MayExpire limit (V.files area.old) (V.files area.new)
        kept.old.items kept.new.items }
    ensures changes { ChangesOnly V.Vault IsSummaryName area.old area.new }
    ensures cause { IfErr result (SumsCause (V.faults area.old) (V.faults area.new)) }
{
    match expire(alloc, area, kept, limit) {
        Ok(0) => Ok(()),
        Ok(_) => match area.sync() {
            Ok(()) => Ok(()),
            Err(fault) => Err(sums_fault(fault)),
        },
        Err(fault) => Err(sums_fault(fault)),
    }
}

/// The same, and the merge of the summaries that are kept of the area then whose ranges overlap the
/// range from `from` to below `to`, where they cover it. `Gap` exactly where a place of the range
/// isn't covered, with the least such.
pub fn advance_covering<J: OfCrew, V: Vault>(
    rt: &impl Wait,
    alloc: Global,
    area: &mut V,
    store: &Store<J, V>,
    pass: &mut Pass<J>,
    known: &mut Known,
    limit: u64,
    from: Lsn,
    to: Lsn,
    when: u64,
) -> Result<Summary, AdvanceFault>
    requires known { GoesOnFrom (J.tells ≡ true) pass.old.list (V.files area.old) known.old }
    requires range { from.0 < to.0 }
    ensures covers { AdvanceAnswers V.Vault (J.tells ≡ true) pass.new.list when limit
        from.0 to.0 area.old area.new known.old known.new result }
    ensures left { MayAdvance (J.tells ≡ true) pass.new.list when limit
        (V.files area.old) (V.files area.new) known.old known.new }
    ensures known { GoesOnFrom (J.tells ≡ true) pass.new.list (V.files area.new) known.new }
    ensures orderly { J.tells ≡ true → IsOrderly 0 pass.new.list }
    ensures looks { LooksOn pass.old pass.new }
    ensures cause { AdvanceTakes (V.faults area.old) (V.faults area.new) pass.old pass.new result }
    ensures changes { ChangesOnly V.Vault IsSummaryName area.old area.new }
{
    if let Err(fault) = advance(rt, alloc, area, store, pass, known, limit, when) {
        return Err(AdvanceFault::Store(fault));
    }
    let Some(kept) = &known.kept else {
        unreachable!()
    };
    match covering(alloc, kept, from, to) {
        Ok(sum) => Ok(sum),
        Err(fault) => Err(cover_fault(fault)),
    }
}

/// Moves a place that is past a bound back to the first one.
fn move_back(known: &mut Lsn, bound: Lsn, first: Lsn)
    ensures { StartsBy known.old known.new bound first }
{
    if bound.0 < known.0 {
        *known = first;
    }
}

/// What is known to be kept of an area; where nothing is known, the area is read.
fn known_or_read<V: Vault>(
    alloc: Global,
    area: &mut V,
    known: Option<Vec<Summary>>,
) -> Result<Vec<Summary>, StoreFault>
    requires { IfSome known (λ v. AreListed (V.files area.old) v.items) }
    ensures those { IfOk result (λ kept. AreThose (V.files area.old) kept.items known) }
    ensures listed { IfOk result (λ kept. AreListed (V.files area.old) kept.items) }
    ensures none { IfErr result (λ fault. known ≡ None) }
    ensures reads { OnlyReads V.Vault area.old area.new }
    ensures cause { IfErr result (SumsCause (V.faults area.old) (V.faults area.new)) }
{
    match known {
        Some(kept) => Ok(kept),
        None => kept_of(alloc, area),
    }
}

/// What is kept of an area; its faults are those of a store's area.
fn kept_of<V: Vault>(alloc: Global, area: &mut V) -> Result<Vec<Summary>, StoreFault>
    ensures kept { IfOk result (λ kept. IfSome (V.files area.old) (λ m. AreKept m kept.items)) }
    ensures order { IfOk result (λ kept. AreInOrder 0 kept.items) }
    ensures reads { OnlyReads V.Vault area.old area.new }
    ensures cause { IfErr result (SumsCause (V.faults area.old) (V.faults area.new)) }
{
    match kept_in(alloc, area) {
        Ok(kept) => Ok(kept),
        Err(fault) => Err(sums_fault(fault)),
    }
}

/// The fault of an advance for one of covering.
fn cover_fault(fault: CoverFault) -> AdvanceFault
    ensures { result ≡ cover_fault fault }
{
    match fault {
        CoverFault::Gap(place) => AdvanceFault::Gap(place),
        CoverFault::NoMemory => AdvanceFault::Store(StoreFault::NoMemory),
    }
}
