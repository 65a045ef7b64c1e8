//! Flushing the WAL of an open store, up to a place or past what a partition hasn't written.

ghost use Rattle.std.specs.Prelude.{◌≡◌, ◌≤◌, true, OnOk, IfErr};
ghost use Rattle.lsn_core.specs.declared.fault.StoreArea.TheVariants.{Wal};
ghost use Rattle.journal.specs.Journal.{IsEndOf};
ghost use Rattle.page_pool.specs.Facts.{history_end};
ghost use Rattle.page_pool.specs.Calls.{MayWriteNext, MayWriteAll};
ghost use Rattle.page_pool.specs.Facts.{IsPartOf};
ghost use Rattle.store_locks.specs.Inside.{AreaCause, KeepsWal, written_end};

use crate::fault::fault_of;
use journal::{Journal, OfStore};
use lsn_core::{Lsn, StoreArea, StoreFault};
use page_pool::Partition;
use std::alloc::Global;
use vault::Vault;
use wal_writer::Flushed;

/// Flushes the WAL up to where an entry of the history ends, and keeps how far it is flushed.
pub(crate) fn flush<J: OfStore, V: Vault>(
    alloc: Global,
    journal: &mut Journal<J, V>,
    mark: &mut Flushed,
    to: Lsn,
) -> Result<(), StoreFault>
    requires place { IsEndOf journal.old.pen to.0 }
    requires marked { mark.old.to.0 ≤ journal.old.wal.tail.flushed }
    ensures wal { KeepsWal V.Vault journal.old journal.new }
    ensures marked { mark.new.to.0 ≤ journal.new.wal.tail.flushed }
    ensures reached { OnOk result (to.0 ≤ mark.new.to.0) }
    ensures cause { IfErr result (AreaCause Wal (V.faults journal.old.wal.area)
        (V.faults journal.new.wal.area)) }
{
    let _tip = journal.tip();
    match journal.flush_to(alloc, to) {
        Ok(flushed) => {
            *mark = flushed;
            Ok(())
        }
        Err(fault) => Err(fault_of(StoreArea::Wal, fault)),
    }
}

/// Flushes the WAL up to its end, and keeps how far it is flushed.
pub fn flush_whole<J: OfStore, V: Vault>(
    alloc: Global,
    journal: &mut Journal<J, V>,
    mark: &mut Flushed,
) -> Result<(), StoreFault>
    requires { mark.old.to.0 ≤ journal.old.wal.tail.flushed }
    ensures wal { KeepsWal V.Vault journal.old journal.new }
    ensures marked { mark.new.to.0 ≤ journal.new.wal.tail.flushed }
    ensures whole { OnOk result (journal.new.wal.tail.flushed ≡ written_end journal.new) }
    ensures reached { OnOk result (written_end journal.old ≤ mark.new.to.0) }
    ensures cause { IfErr result (AreaCause Wal (V.faults journal.old.wal.area)
        (V.faults journal.new.wal.area)) }
{
    let tip = journal.tip();
    let flushed = journal.flush_to(alloc, tip.end);
    let _tip = journal.tip();
    match flushed {
        Ok(done) => {
            *mark = done;
            Ok(())
        }
        Err(fault) => Err(fault_of(StoreArea::Wal, fault)),
    }
}

/// Flushes the WAL up to its end, where it isn't flushed up to where an entry of the history ends:
/// what was appended behind that entry goes along, so that it costs no flush of its own.
pub fn flush_past<J: OfStore, V: Vault>(
    alloc: Global,
    journal: &mut Journal<J, V>,
    mark: &mut Flushed,
    to: Lsn,
) -> Result<(), StoreFault>
    requires place { IsEndOf journal.old.pen to.0 }
    requires marked { mark.old.to.0 ≤ journal.old.wal.tail.flushed }
    ensures wal { KeepsWal V.Vault journal.old journal.new }
    ensures marked { mark.new.to.0 ≤ journal.new.wal.tail.flushed }
    ensures reached { OnOk result (to.0 ≤ mark.new.to.0) }
    ensures onward { OnOk result (mark.old.to.0 ≤ mark.new.to.0) }
    ensures cause { IfErr result (AreaCause Wal (V.faults journal.old.wal.area)
        (V.faults journal.new.wal.area)) }
{
    let _tip = journal.tip();
    if to <= mark.to() {
        return Ok(());
    }
    flush_whole(alloc, journal, mark)
}

/// Flushes the WAL past the entry of what a partition writes next, where there is anything.
pub(crate) fn flush_next<J: OfStore, V: Vault, W: Vault, const Q: u32>(
    alloc: Global,
    journal: &mut Journal<J, V>,
    part: &Partition<W, Q>,
    mark: &mut Flushed,
) -> Result<(), StoreFault>
    requires part { IsPartOf Q part.now.relseg (J.tells ≡ true) journal.old.pen part.now }
    requires marked { mark.old.to.0 ≤ journal.old.wal.tail.flushed }
    ensures wal { KeepsWal V.Vault journal.old journal.new }
    ensures marked { mark.new.to.0 ≤ journal.new.wal.tail.flushed }
    ensures reached { OnOk result (MayWriteNext part.now mark.new.to.0) }
    ensures cause { IfErr result (AreaCause Wal (V.faults journal.old.wal.area)
        (V.faults journal.new.wal.area)) }
{
    let _tip = journal.tip();
    match part.next_lsn() {
        Some(to) => flush_past(alloc, journal, mark, to),
        None => Ok(()),
    }
}

/// Flushes the WAL past a redo point, and past the newest entry of what a partition hasn't written,
/// where there is any.
pub(crate) fn flush_newest<J: OfStore, V: Vault, W: Vault, const Q: u32>(
    alloc: Global,
    journal: &mut Journal<J, V>,
    part: &Partition<W, Q>,
    mark: &mut Flushed,
    redo: Lsn,
) -> Result<(), StoreFault>
    requires part { IsPartOf Q part.now.relseg (J.tells ≡ true) journal.old.pen part.now }
    requires marked { mark.old.to.0 ≤ journal.old.wal.tail.flushed }
    requires late { redo.0 ≤ history_end journal.old.pen }
    ensures wal { KeepsWal V.Vault journal.old journal.new }
    ensures marked { mark.new.to.0 ≤ journal.new.wal.tail.flushed }
    ensures reached { OnOk result (MayWriteAll part.now mark.new.to.0) }
    ensures redo { OnOk result (redo.0 ≤ mark.new.to.0) }
    ensures cause { IfErr result (AreaCause Wal (V.faults journal.old.wal.area)
        (V.faults journal.new.wal.area)) }
{
    let _tip = journal.tip();
    if mark.to() <= redo {
        return flush_whole(alloc, journal, mark);
    }
    match part.newest_lsn() {
        Some(to) => flush_past(alloc, journal, mark, to),
        None => Ok(()),
    }
}
