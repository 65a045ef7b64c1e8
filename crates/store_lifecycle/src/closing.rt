//! Closing a store.

ghost use Rattle.std.specs.Prelude.{◌≡◌, ◌<◌, ◌≤◌, true, IfOk, IfErr, length};
ghost use Rattle.std.specs.List.{sum_by};
ghost use Rattle.lsn_core.specs.declared.fault.StoreArea.TheVariants.{Wal};
ghost use Rattle.history.specs.Written.{tip_of};
ghost use Rattle.vault.specs.Boxed.{on_heap};
ghost use Rattle.page_pool.specs.Facts.{IsPartOf};
ghost use Rattle.store_locks.specs.Open.{IsWalOf};
ghost use Rattle.store_lifecycle.specs.Ended.{opened_of};
ghost use Rattle.store_locks.specs.Calls.{MayWriteWal};
ghost use Rattle.store_locks.specs.Seen.{Seen};
ghost use Rattle.store_locks.specs.Locked.{AreNumbered, HasRisen};
ghost use Rattle.store_lifecycle.specs.Close.{IsClosed};
ghost use Rattle.store_lifecycle.specs.Ended.{IsEnded, off_heap};
ghost use Rattle.store_locks.specs.Inside.{AreaCause, written_end};
ghost use Rattle.store_lifecycle.specs.Ended.{IsAllFlushed, PartAnswer, place_of};

use crate::settling::settle;
use journal::{HistoryEntry, Journal, OfStore};
use lsn_core::{Lsn, Settings, StoreArea, StoreFault};
use page_pool::Partition;
use shared_store::{Pass, Shares, Store, Undealt};
use std::alloc::Global;
use std::boxed::Box;
use std::sync::ledger::{Book, Share};
use store_areas::StoreAreas;
use store_ledgers::AreaFaults;
use store_locks::{Desk, HeldPart, OfCrew, fault_of};
use timeline::Timeline;
use vault::{BoxedArea, Vault};
use wal_writer::Flushed;

/// Closes the store, to which all passes are given back, in order: flushes the WAL, writes all
/// that is dirty or pending in each partition, and syncs the data areas; it appends nothing. The
/// answer is where the WAL ends, or the first fault. The areas are handed back in any case, and
/// what is booked for the area of the summaries is known to be what the workers were answered.
pub fn close<J: OfCrew, V: Vault>(
    store: Store<J, V>,
    alloc: Global,
    passes: Vec<Pass<J>>,
    sums: &mut Book<AreaFaults<J, 5>>,
) -> (StoreAreas<V>, Result<Lsn, StoreFault>)
    requires order { AreNumbered (λ (p : Seen). p.worker) 0 passes.items }
    requires many { length passes.items ≡ J.workers }
    requires parts { J.passes ≡ J.workers }
    ensures closed { IsClosed V.Vault (J.tells ≡ true) J.settings J.found J.wal J.starts
        passes.items result.0 result.1 }
    ensures sums { sums.new.total ≡ sums.old.total }
    ensures booked { sums.new.total ≡ sum_by (λ (p : Seen). p.faults.sums) passes.items }
{
    let Store {
        line,
        desk,
        part0,
        part1,
        part2,
        part3,
        settings,
        rest,
    } = store;
    let mut desk = desk.into_inner();
    let Undealt { mut shares } = rest.into_inner();
    desk.know();
    settle(&mut desk, &line, passes, &mut shares);
    let Shares {
        made: _,
        mut wal,
        mut others,
    } = shares;
    sums.audit(&mut others.sums);
    let part0 = up_to_date(&line, &mut desk, part0.into_inner(), others.data0);
    let part1 = up_to_date(&line, &mut desk, part1.into_inner(), others.data1);
    let part2 = up_to_date(&line, &mut desk, part2.into_inner(), others.data2);
    let part3 = up_to_date(&line, &mut desk, part3.into_inner(), others.data3);
    let Desk {
        journal,
        mut faults,
        ..
    } = desk;
    faults.audit(&mut wal);
    let (areas, answer) = end(alloc, settings, journal, part0, part1, part2, part3);
    (unboxed_all(areas), answer)
}

/// A partition that is brought up to date, of whose area's faults all workers gave their shares
/// back.
fn up_to_date<J: OfCrew, V: Vault, const Q: u32>(
    line: &Timeline<HistoryEntry, J>,
    desk: &mut Desk<J, BoxedArea<V>>,
    part: HeldPart<J, BoxedArea<V>, Q>,
    share: Share<AreaFaults<J, Q>>,
) -> Partition<BoxedArea<V>, Q>
    requires number { Q < 4 }
    requires share { share.parts ≡ J.passes }
    ensures same { desk.new ≡ desk.old }
    ensures part { IsPartOf Q J.settings.relseg (J.tells ≡ true) desk.old result }
    ensures risen { HasRisen (J.starts Q) share.amount result.faults }
{
    let (mut part, mut share) = (part, share);
    desk.catch_up(line, &mut part);
    let HeldPart {
        part,
        mut faults,
        ..
    } = part;
    faults.audit(&mut share);
    part
}

/// Ends a store: flushes its WAL, and writes all of its partitions.
fn end<J: OfStore, V: Vault>(
    alloc: Global,
    settings: Settings,
    journal: Journal<J, BoxedArea<V>>,
    part0: Partition<BoxedArea<V>, 0>,
    part1: Partition<BoxedArea<V>, 1>,
    part2: Partition<BoxedArea<V>, 2>,
    part3: Partition<BoxedArea<V>, 3>,
) -> (StoreAreas<BoxedArea<V>>, Result<Lsn, StoreFault>)
    requires wal { IsWalOf (on_heap V.Vault) settings (J.tells ≡ true) journal.wal 0 }
    requires first { IsPartOf 0 settings.relseg (J.tells ≡ true) journal.pen part0 }
    requires second { IsPartOf 1 settings.relseg (J.tells ≡ true) journal.pen part1 }
    requires third { IsPartOf 2 settings.relseg (J.tells ≡ true) journal.pen part2 }
    requires fourth { IsPartOf 3 settings.relseg (J.tells ≡ true) journal.pen part3 }
    ensures ended { IsEnded (on_heap V.Vault) (J.tells ≡ true)
        (opened_of (on_heap V.Vault) settings journal part0 part1 part2 part3) result.0 result.1 }
    ensures within { journal.wal.tail.flushed ≤ written_end journal }
{
    let mut journal = journal;
    let flushed = flush_end(alloc, &mut journal);
    let (data0, written) = close_part(settings, &journal, part0, flushed);
    let (data1, written) = close_part(settings, &journal, part1, written);
    let (data2, written) = close_part(settings, &journal, part2, written);
    let (data3, written) = close_part(settings, &journal, part3, written);
    journal.know();
    let areas = StoreAreas {
        wal: journal.detach(),
        data0,
        data1,
        data2,
        data3,
    };
    (areas, place_of(written))
}

/// Flushes the WAL up to its end.
fn flush_end<J: OfStore, W: Vault>(
    alloc: Global,
    journal: &mut Journal<J, W>,
) -> Result<Flushed, StoreFault>
    ensures pen { journal.new.pen ≡ journal.old.pen }
    ensures within { journal.old.wal.tail.flushed ≤ written_end journal.old }
    ensures written { MayWriteWal journal.old.wal.tail.mib journal.old.wal.tail.flushed
        (tip_of journal.old.wal.tail.mib journal.old.pen).end
        (W.files journal.old.wal.area) (W.files journal.new.wal.area) }
    ensures whole { IfOk result (IsAllFlushed W.Vault journal.old journal.new) }
    ensures later { W.faults journal.old.wal.area ≤ W.faults journal.new.wal.area }
    ensures cause { IfErr result (AreaCause Wal (W.faults journal.old.wal.area)
        (W.faults journal.new.wal.area)) }
{
    let tip = journal.tip();
    let flushed = journal.flush_to(alloc, tip.end);
    let _tip = journal.tip();
    match flushed {
        Ok(mark) => Ok(mark),
        Err(fault) => Err(fault_of(StoreArea::Wal, fault)),
    }
}

/// Takes the area out of a partition, of which all is written before, unless a fault came earlier.
fn close_part<J: OfStore, V: Vault, const Q: u32>(
    settings: Settings,
    journal: &Journal<J, BoxedArea<V>>,
    part: Partition<BoxedArea<V>, Q>,
    earlier: Result<Flushed, StoreFault>,
) -> (BoxedArea<V>, Result<Flushed, StoreFault>)
    requires part { IsPartOf Q settings.relseg (J.tells ≡ true) journal.now.pen part }
    requires flushed { IfOk earlier (λ mark. journal.now.wal.tail.tip.end ≤ mark.to.0) }
    ensures later { part.faults ≤ (on_heap V.Vault).faults result.0 }
    ensures answer { PartAnswer Q settings.relseg (J.tells ≡ true) part
        ((on_heap V.Vault).files result.0) ((on_heap V.Vault).past result.0)
        ((on_heap V.Vault).faults result.0) earlier result.1 }
{
    let mut part = part;
    let written = write_whole(settings, journal, &mut part, earlier);
    (part.into_area(), written)
}

/// Writes all that a partition has dirty or pending, and syncs its area, unless a fault came
/// earlier: that is answered.
fn write_whole<J: OfStore, W: Vault, const Q: u32>(
    settings: Settings,
    journal: &Journal<J, W>,
    part: &mut Partition<W, Q>,
    earlier: Result<Flushed, StoreFault>,
) -> Result<Flushed, StoreFault>
    requires part { IsPartOf Q settings.relseg (J.tells ≡ true) journal.now.pen part.old }
    requires flushed { IfOk earlier (λ mark. journal.now.wal.tail.tip.end ≤ mark.to.0) }
    ensures later { part.old.faults ≤ part.new.faults }
    ensures answer { PartAnswer Q settings.relseg (J.tells ≡ true) part.old
        part.new.disk part.new.past part.new.faults earlier result }
{
    // known: a file has some blocks, and all entries end where the WAL does
    let _relseg = settings.relseg();
    let _tip = journal.tip();
    let mark = match earlier {
        Ok(mark) => mark,
        Err(fault) => return Err(fault),
    };
    match part.clean_all(mark.to(), &mark) {
        Ok(_cleaned) => Ok(mark),
        Err(fault) => Err(fault_of(StoreArea::Data(Q), fault)),
    }
}

/// The place up to which the WAL is flushed, or the fault that came.
fn place_of(flushed: Result<Flushed, StoreFault>) -> Result<Lsn, StoreFault>
    ensures { result ≡ place_of flushed }
{
    match flushed {
        Ok(mark) => Ok(mark.to()),
        Err(fault) => Err(fault),
    }
}

/// The areas of a store, moved back from the heap.
fn unboxed_all<V: Vault>(areas: StoreAreas<BoxedArea<V>>) -> StoreAreas<V>
    ensures { result ≡ off_heap areas }
{
    StoreAreas {
        wal: Box::into_inner(areas.wal.area),
        data0: Box::into_inner(areas.data0.area),
        data1: Box::into_inner(areas.data1.area),
        data2: Box::into_inner(areas.data2.area),
        data3: Box::into_inner(areas.data3.area),
    }
}
