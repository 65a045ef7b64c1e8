//! What inserting a command does under the locks of an open store: a partition's first, then the
//! WAL's, which is held for the history and the WAL alone, and not while a data area is read or
//! written.

ghost use Rattle.std.specs.Prelude.{◌≡◌, ◌<◌, ◌+◌, ◌≤◌, true, None, IfOk, OnOk, IfErr};
ghost use Rattle.history.specs.Op.{act_of_op};
ghost use Rattle.history.specs.partitions.Parts.{ConcernsNoOther};
ghost use Rattle.command_judging.specs.Refusals.{HasItems};
ghost use Rattle.page_pool.specs.Room.{blocks_of, HasFrames};
ghost use Rattle.page_pool.specs.Stops.{MayMakeRoom};
ghost use Rattle.journal.specs.Lawful.{IsLawful};
ghost use Rattle.store_locks.specs.Refusals.{judged_form};
ghost use Rattle.store_locks.specs.Calls.{most_waiting};
ghost use Rattle.store_locks.specs.Inside.{NamesNoArea, end_of};
ghost use Rattle.store_locks.specs.Locked.{Follows, Inserts, Moves, BooksWal, BooksBoth, BooksInsert};

use crate::desk::{flush_for_room, insert_at};
use crate::fault::insert_fault;
use history::Op;
use journal::HistoryEntry;
use lsn_core::StoreFault;
use std::alloc::Global;
use std::sync::ledger::Share;
use std::sync::{Mutex, Wait};
use store_faults::InsertFault;
use store_ledgers::AreaFaults;
use store_locks::{Desk, HeldPart, Knowing, OfCrew, Receipt};
use timeline::Timeline;
use vault::{BoxedArea, Vault};
use wal_writer::Flushed;

/// Inserts a command of good form into the partition that it concerns.
pub fn insert_with<J: OfCrew, V: Vault, const Q: u32>(
    rt: &impl Wait,
    alloc: Global,
    line: &Timeline<HistoryEntry, J>,
    desk: &Mutex<Desk<J, BoxedArea<V>>>,
    part: &Mutex<HeldPart<J, BoxedArea<V>, Q>>,
    own: &mut Knowing<J>,
    share: &mut Share<AreaFaults<J, Q>>,
    op: &Op,
) -> Result<Receipt, InsertFault>
    requires number { Q < 4 }
    requires share { share.old.parts ≡ 1 }
    requires form { judged_form op.now ≡ None }
    requires items { HasItems op.now }
    requires alone { ConcernsNoOther Q (act_of_op op.now) }
    ensures inserts { Inserts (J.tells ≡ true) J.settings.segment op.now own.old own.new result }
    ensures moves { Moves own.old own.new }
    ensures lawful { J.tells ≡ true → IsLawful J.settings.segment own.new.list }
    ensures parts { share.new.parts ≡ 1 }
    ensures booked { BooksInsert Q own.old.wal own.new.wal share.old.amount share.new.amount
        result }
{
    let mut part = part.lock(rt);
    insert_held(rt, alloc, line, desk, &mut part, own, share, op)
}

/// The same under the partition's lock: makes room for the command, then judges it on the pages.
/// The WAL's lock is taken twice, for the flush and for the command, and not held while pages are
/// written.
fn insert_held<J: OfCrew, V: Vault, const Q: u32>(
    rt: &impl Wait,
    alloc: Global,
    line: &Timeline<HistoryEntry, J>,
    desk: &Mutex<Desk<J, BoxedArea<V>>>,
    part: &mut HeldPart<J, BoxedArea<V>, Q>,
    own: &mut Knowing<J>,
    share: &mut Share<AreaFaults<J, Q>>,
    op: &Op,
) -> Result<Receipt, InsertFault>
    requires number { Q < 4 }
    requires share { share.old.parts ≡ 1 }
    requires form { judged_form op.now ≡ None }
    requires items { HasItems op.now }
    requires alone { ConcernsNoOther Q (act_of_op op.now) }
    ensures inserts { Inserts (J.tells ≡ true) J.settings.segment op.now own.old own.new result }
    ensures moves { Moves own.old own.new }
    ensures lawful { J.tells ≡ true → IsLawful J.settings.segment own.new.list }
    ensures parts { share.new.parts ≡ 1 }
    ensures booked { BooksInsert Q own.old.wal own.new.wal share.old.amount share.new.amount
        result }
{
    match make_room(rt, alloc, line, desk, part, own, share, op) {
        Ok(()) => insert_next(rt, alloc, line, desk, part, own, op),
        Err(fault) => Err(insert_fault(fault)),
    }
}

/// Makes room in a partition for a command, under the partition's lock. The WAL's lock is held for
/// the flush alone.
fn make_room<J: OfCrew, V: Vault, const Q: u32>(
    rt: &impl Wait,
    alloc: Global,
    line: &Timeline<HistoryEntry, J>,
    desk: &Mutex<Desk<J, BoxedArea<V>>>,
    part: &mut HeldPart<J, BoxedArea<V>, Q>,
    own: &mut Knowing<J>,
    share: &mut Share<AreaFaults<J, Q>>,
    op: &Op,
) -> Result<(), StoreFault>
    requires number { Q < 4 }
    requires share { share.old.parts ≡ 1 }
    requires items { HasItems op.now }
    ensures room { OnOk result (HasFrames part.new.part.framed (blocks_of op.now)) }
    ensures lawful { J.tells ≡ true → IsLawful J.settings.segment own.new.list }
    ensures was { Follows own.old own.new }
    ensures parts { share.new.parts ≡ 1 }
    ensures booked { BooksBoth Q own.old.wal own.new.wal share.old.amount share.new.amount result }
{
    let mark = match flush_room(rt, alloc, line, desk, part, own, op) {
        Ok(mark) => mark,
        Err(fault) => return Err(fault),
    };
    part.make_room(alloc, op, &mark, share)
}

/// Flushes the WAL past what is written to make room for a command, and up to its end where too
/// much of it waits, under the WAL's lock.
fn flush_room<J: OfCrew, V: Vault, const Q: u32>(
    rt: &impl Wait,
    alloc: Global,
    line: &Timeline<HistoryEntry, J>,
    desk: &Mutex<Desk<J, BoxedArea<V>>>,
    part: &mut HeldPart<J, BoxedArea<V>, Q>,
    own: &mut Knowing<J>,
    op: &Op,
) -> Result<Flushed, StoreFault>
    requires number { Q < 4 }
    requires items { HasItems op.now }
    ensures reached { IfOk result (λ mark. MayMakeRoom part.new.part (blocks_of op.now) mark.to.0) }
    ensures few { IfOk result (λ mark.
        end_of J.settings.segment own.new.list ≤ mark.to.0 + most_waiting) }
    ensures was { Follows own.old own.new }
    ensures lawful { J.tells ≡ true → IsLawful J.settings.segment own.new.list }
    ensures booked { BooksWal own.old.wal own.new.wal result }
{
    let mut desk = desk.lock(rt);
    flush_for_room(&mut desk, alloc, line, part, own, op)
}

/// Inserts a command, for which room is made, under the WAL's lock.
fn insert_next<J: OfCrew, V: Vault, const Q: u32>(
    rt: &impl Wait,
    alloc: Global,
    line: &Timeline<HistoryEntry, J>,
    desk: &Mutex<Desk<J, BoxedArea<V>>>,
    part: &mut HeldPart<J, BoxedArea<V>, Q>,
    own: &mut Knowing<J>,
    op: &Op,
) -> Result<Receipt, InsertFault>
    requires number { Q < 4 }
    requires form { judged_form op.now ≡ None }
    requires items { HasItems op.now }
    requires alone { ConcernsNoOther Q (act_of_op op.now) }
    requires room { HasFrames part.old.part.framed (blocks_of op.now) }
    ensures named { IfErr result NamesNoArea }
    ensures inserts { Inserts (J.tells ≡ true) J.settings.segment op.now own.old own.new result }
    ensures moves { Moves own.old own.new }
    ensures lawful { J.tells ≡ true → IsLawful J.settings.segment own.new.list }
    ensures faults { own.new.wal ≡ own.old.wal }
{
    let mut desk = desk.lock(rt);
    insert_at(&mut desk, alloc, line, part, own, op)
}
