//! What calls do under the locks of an open store: a partition's first, then the WAL's, which is
//! held for the history and the WAL alone, and not while a data area is read or written.

ghost use Rattle.std.specs.Prelude.{◌≡◌, ◌<◌, ◌≤◌, true, IfOk, OnOk};
ghost use Rattle.history.specs.partitions.Parts.{is_of};
ghost use Rattle.history.specs.fuzzy_copies.Taken.{IsBlockCopied};
ghost use Rattle.page_pool.specs.Facts.{history_end};
ghost use Rattle.page_pool.specs.Calls.{MayWriteNext, MayWriteAll};
ghost use Rattle.journal.specs.Lawful.{IsLawful};
ghost use Rattle.store_locks.specs.Copied.{HasRedoPoint, ListsPart};
ghost use Rattle.store_locks.specs.Inside.{IsCleaned};
ghost use Rattle.store_locks.specs.Locked.{Follows, BooksWal, BooksBoth};

use journal::HistoryEntry;
use lsn_core::{BlockId, ForkLen, Lsn, StoreFault};
use page_pool::{Cleaned, Turn};
use std::alloc::Global;
use std::sync::ledger::Share;
use std::sync::{Mutex, Wait};
use store_ledgers::AreaFaults;
use store_locks::{Desk, HeldPart, Knowing, OfCrew};
use timeline::Timeline;
use vault::{BoxedArea, Vault};
use wal_writer::Flushed;

/// Writes one page, creation or cut of a partition.
pub(crate) fn write_with<J: OfCrew, V: Vault, const Q: u32>(
    rt: &impl Wait,
    alloc: Global,
    line: &Timeline<HistoryEntry, J>,
    desk: &Mutex<Desk<J, BoxedArea<V>>>,
    part: &Mutex<HeldPart<J, BoxedArea<V>, Q>>,
    own: &mut Knowing<J>,
    share: &mut Share<AreaFaults<J, Q>>,
) -> Result<Turn, StoreFault>
    requires number { Q < 4 }
    requires share { share.old.parts ≡ 1 }
    ensures part { IfOk result (λ turn. turn.part ≡ Q) }
    ensures lawful { J.tells ≡ true → IsLawful J.settings.segment own.new.list }
    ensures was { Follows own.old own.new }
    ensures parts { share.new.parts ≡ 1 }
    ensures booked { BooksBoth Q own.old.wal own.new.wal share.old.amount share.new.amount result }
{
    let mut part = part.lock(rt);
    write_held(rt, alloc, line, desk, &mut part, own, share)
}

/// The same under the partition's lock. The WAL's lock is held for the flush alone.
fn write_held<J: OfCrew, V: Vault, const Q: u32>(
    rt: &impl Wait,
    alloc: Global,
    line: &Timeline<HistoryEntry, J>,
    desk: &Mutex<Desk<J, BoxedArea<V>>>,
    part: &mut HeldPart<J, BoxedArea<V>, Q>,
    own: &mut Knowing<J>,
    share: &mut Share<AreaFaults<J, Q>>,
) -> Result<Turn, StoreFault>
    requires number { Q < 4 }
    requires share { share.old.parts ≡ 1 }
    ensures part { IfOk result (λ turn. turn.part ≡ Q) }
    ensures lawful { J.tells ≡ true → IsLawful J.settings.segment own.new.list }
    ensures was { Follows own.old own.new }
    ensures parts { share.new.parts ≡ 1 }
    ensures booked { BooksBoth Q own.old.wal own.new.wal share.old.amount share.new.amount result }
{
    let mark = match flush_next(rt, alloc, line, desk, part, own) {
        Ok(mark) => mark,
        Err(fault) => return Err(fault),
    };
    part.write_one(&mark, share)
}

/// Flushes the WAL past the entry of what a partition writes next, under the WAL's lock.
fn flush_next<J: OfCrew, V: Vault, const Q: u32>(
    rt: &impl Wait,
    alloc: Global,
    line: &Timeline<HistoryEntry, J>,
    desk: &Mutex<Desk<J, BoxedArea<V>>>,
    part: &mut HeldPart<J, BoxedArea<V>, Q>,
    own: &mut Knowing<J>,
) -> Result<Flushed, StoreFault>
    requires { Q < 4 }
    ensures reached { IfOk result (λ mark. MayWriteNext part.new.part mark.to.0) }
    ensures up { part.new.list ≡ own.new.list }
    ensures was { Follows own.old own.new }
    ensures lawful { J.tells ≡ true → IsLawful J.settings.segment own.new.list }
    ensures booked { BooksWal own.old.wal own.new.wal result }
{
    desk.lock(rt).flush_next(alloc, line, part, own)
}

/// Writes all that a partition has to write, under the partition's lock. The WAL's lock is held for
/// the flush alone.
fn clean_held<J: OfCrew, V: Vault, const Q: u32>(
    rt: &impl Wait,
    alloc: Global,
    line: &Timeline<HistoryEntry, J>,
    desk: &Mutex<Desk<J, BoxedArea<V>>>,
    part: &mut HeldPart<J, BoxedArea<V>, Q>,
    own: &mut Knowing<J>,
    share: &mut Share<AreaFaults<J, Q>>,
    redo: Lsn,
) -> Result<Cleaned, StoreFault>
    requires number { Q < 4 }
    requires share { share.old.parts ≡ 1 }
    requires late { redo.0 ≤ history_end own.old.list }
    ensures cleaned { IfOk result (IsCleaned Q redo) }
    ensures raised { OnOk result (redo.0 ≤ part.new.part.point) }
    ensures up { part.new.list ≡ own.new.list }
    ensures lawful { J.tells ≡ true → IsLawful J.settings.segment own.new.list }
    ensures was { Follows own.old own.new }
    ensures parts { share.new.parts ≡ 1 }
    ensures booked { BooksBoth Q own.old.wal own.new.wal share.old.amount share.new.amount result }
{
    let mark = match flush_newest(rt, alloc, line, desk, part, own, redo) {
        Ok(mark) => mark,
        Err(fault) => return Err(fault),
    };
    part.clean_all(redo, &mark, share)
}

/// Flushes the WAL past a redo point and past the newest entry of all that a partition has to
/// write, under the WAL's lock.
fn flush_newest<J: OfCrew, V: Vault, const Q: u32>(
    rt: &impl Wait,
    alloc: Global,
    line: &Timeline<HistoryEntry, J>,
    desk: &Mutex<Desk<J, BoxedArea<V>>>,
    part: &mut HeldPart<J, BoxedArea<V>, Q>,
    own: &mut Knowing<J>,
    redo: Lsn,
) -> Result<Flushed, StoreFault>
    requires number { Q < 4 }
    requires late { redo.0 ≤ history_end own.old.list }
    ensures reached { IfOk result (λ mark. MayWriteAll part.new.part mark.to.0) }
    ensures redo { IfOk result (λ mark. redo.0 ≤ mark.to.0) }
    ensures up { part.new.list ≡ own.new.list }
    ensures was { Follows own.old own.new }
    ensures lawful { J.tells ≡ true → IsLawful J.settings.segment own.new.list }
    ensures booked { BooksWal own.old.wal own.new.wal result }
{
    desk.lock(rt).flush_newest(alloc, line, part, own, redo)
}

/// Writes all that a partition has to write, and raises its point to a redo point.
pub(crate) fn clean_with<J: OfCrew, V: Vault, const Q: u32>(
    rt: &impl Wait,
    alloc: Global,
    line: &Timeline<HistoryEntry, J>,
    desk: &Mutex<Desk<J, BoxedArea<V>>>,
    part: &Mutex<HeldPart<J, BoxedArea<V>, Q>>,
    own: &mut Knowing<J>,
    share: &mut Share<AreaFaults<J, Q>>,
    redo: Lsn,
) -> Result<Cleaned, StoreFault>
    requires number { Q < 4 }
    requires share { share.old.parts ≡ 1 }
    requires late { redo.0 ≤ history_end own.old.list }
    ensures cleaned { IfOk result (IsCleaned Q redo) }
    ensures lawful { J.tells ≡ true → IsLawful J.settings.segment own.new.list }
    ensures was { Follows own.old own.new }
    ensures parts { share.new.parts ≡ 1 }
    ensures booked { BooksBoth Q own.old.wal own.new.wal share.old.amount share.new.amount result }
{
    let mut part = part.lock(rt);
    clean_held(rt, alloc, line, desk, &mut part, own, share, redo)
}

/// Brings a partition's area to a redo point: it is cleaned up to the latest one, where it is
/// behind that place.
fn bring<J: OfCrew, V: Vault, const Q: u32>(
    rt: &impl Wait,
    alloc: Global,
    line: &Timeline<HistoryEntry, J>,
    desk: &Mutex<Desk<J, BoxedArea<V>>>,
    part: &mut HeldPart<J, BoxedArea<V>, Q>,
    own: &mut Knowing<J>,
    share: &mut Share<AreaFaults<J, Q>>,
    from: Lsn,
) -> Result<(), StoreFault>
    requires number { Q < 4 }
    requires share { share.old.parts ≡ 1 }
    requires redo { HasRedoPoint own.old.list from.0 }
    ensures redo { HasRedoPoint own.new.list from.0 }
    ensures raised { J.tells ≡ true → OnOk result (from.0 ≤ part.new.part.point) }
    ensures up { part.new.list ≡ own.new.list }
    ensures lawful { J.tells ≡ true → IsLawful J.settings.segment own.new.list }
    ensures was { Follows own.old own.new }
    ensures parts { share.new.parts ≡ 1 }
    ensures booked { BooksBoth Q own.old.wal own.new.wal share.old.amount share.new.amount result }
{
    let latest = desk.lock(rt).bring(line, part, own);
    if from <= part.redo_point() {
        return Ok(());
    }
    match clean_held(rt, alloc, line, desk, part, own, share, latest) {
        Ok(_) => Ok(()),
        Err(fault) => Err(fault),
    }
}

/// Lists the forks of a partition as of a redo point.
pub(crate) fn list_with<J: OfCrew, V: Vault, const Q: u32>(
    rt: &impl Wait,
    alloc: Global,
    line: &Timeline<HistoryEntry, J>,
    desk: &Mutex<Desk<J, BoxedArea<V>>>,
    part: &Mutex<HeldPart<J, BoxedArea<V>, Q>>,
    own: &mut Knowing<J>,
    share: &mut Share<AreaFaults<J, Q>>,
    from: Lsn,
) -> Result<Vec<ForkLen>, StoreFault>
    requires number { Q < 4 }
    requires share { share.old.parts ≡ 1 }
    requires redo { HasRedoPoint own.old.list from.0 }
    ensures list { J.tells ≡ true
        → IfOk result (λ list. ListsPart Q own.new.list from.0 list.items) }
    ensures lawful { J.tells ≡ true → IsLawful J.settings.segment own.new.list }
    ensures was { Follows own.old own.new }
    ensures parts { share.new.parts ≡ 1 }
    ensures booked { BooksBoth Q own.old.wal own.new.wal share.old.amount share.new.amount result }
{
    let mut part = part.lock(rt);
    list_held(rt, alloc, line, desk, &mut part, own, share, from)
}

/// The same under the partition's lock.
fn list_held<J: OfCrew, V: Vault, const Q: u32>(
    rt: &impl Wait,
    alloc: Global,
    line: &Timeline<HistoryEntry, J>,
    desk: &Mutex<Desk<J, BoxedArea<V>>>,
    part: &mut HeldPart<J, BoxedArea<V>, Q>,
    own: &mut Knowing<J>,
    share: &mut Share<AreaFaults<J, Q>>,
    from: Lsn,
) -> Result<Vec<ForkLen>, StoreFault>
    requires number { Q < 4 }
    requires share { share.old.parts ≡ 1 }
    requires redo { HasRedoPoint own.old.list from.0 }
    ensures list { J.tells ≡ true
        → IfOk result (λ list. ListsPart Q own.new.list from.0 list.items) }
    ensures lawful { J.tells ≡ true → IsLawful J.settings.segment own.new.list }
    ensures was { Follows own.old own.new }
    ensures parts { share.new.parts ≡ 1 }
    ensures booked { BooksBoth Q own.old.wal own.new.wal share.old.amount share.new.amount result }
{
    match bring(rt, alloc, line, desk, part, own, share, from) {
        Ok(()) => part.list_forks(from, share),
        Err(fault) => Err(fault),
    }
}

/// Reads a block of a partition as of a redo point.
pub(crate) fn copy_with<J: OfCrew, V: Vault, const Q: u32>(
    rt: &impl Wait,
    alloc: Global,
    line: &Timeline<HistoryEntry, J>,
    desk: &Mutex<Desk<J, BoxedArea<V>>>,
    part: &Mutex<HeldPart<J, BoxedArea<V>, Q>>,
    own: &mut Knowing<J>,
    share: &mut Share<AreaFaults<J, Q>>,
    from: Lsn,
    at: &BlockId,
) -> Result<Option<[u8; 8192]>, StoreFault>
    requires number { Q < 4 }
    requires share { share.old.parts ≡ 1 }
    requires redo { HasRedoPoint own.old.list from.0 }
    requires ours { is_of Q at.now.fork ≡ true }
    ensures copied { J.tells ≡ true
        → IfOk result (IsBlockCopied own.new.list from.0 at.now.fork at.now.block) }
    ensures lawful { J.tells ≡ true → IsLawful J.settings.segment own.new.list }
    ensures was { Follows own.old own.new }
    ensures parts { share.new.parts ≡ 1 }
    ensures booked { BooksBoth Q own.old.wal own.new.wal share.old.amount share.new.amount result }
{
    let mut part = part.lock(rt);
    copy_held(rt, alloc, line, desk, &mut part, own, share, from, at)
}

/// The same under the partition's lock.
fn copy_held<J: OfCrew, V: Vault, const Q: u32>(
    rt: &impl Wait,
    alloc: Global,
    line: &Timeline<HistoryEntry, J>,
    desk: &Mutex<Desk<J, BoxedArea<V>>>,
    part: &mut HeldPart<J, BoxedArea<V>, Q>,
    own: &mut Knowing<J>,
    share: &mut Share<AreaFaults<J, Q>>,
    from: Lsn,
    at: &BlockId,
) -> Result<Option<[u8; 8192]>, StoreFault>
    requires number { Q < 4 }
    requires share { share.old.parts ≡ 1 }
    requires redo { HasRedoPoint own.old.list from.0 }
    requires ours { is_of Q at.now.fork ≡ true }
    ensures copied { J.tells ≡ true
        → IfOk result (IsBlockCopied own.new.list from.0 at.now.fork at.now.block) }
    ensures lawful { J.tells ≡ true → IsLawful J.settings.segment own.new.list }
    ensures was { Follows own.old own.new }
    ensures parts { share.new.parts ≡ 1 }
    ensures booked { BooksBoth Q own.old.wal own.new.wal share.old.amount share.new.amount result }
{
    match bring(rt, alloc, line, desk, part, own, share, from) {
        Ok(()) => part.read_disk(from, at, share),
        Err(fault) => Err(fault),
    }
}
