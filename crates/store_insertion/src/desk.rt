//! What inserting a command does under the lock of the WAL.

ghost use Rattle.std.specs.Prelude.{◌≡◌, ◌+◌, ◌<◌, ◌≤◌, true, None, IfOk, OnOk, OnErr, IfErr};
ghost use mathlib.Core.List.{IsPrefix};
ghost use Rattle.history.specs.Op.{act_of_op};
ghost use Rattle.history.specs.partitions.Parts.{ConcernsNoOther};
ghost use Rattle.journal.specs.Lawful.{IsLawful};
ghost use Rattle.command_judging.specs.Refusals.{HasItems};
ghost use Rattle.page_pool.specs.Room.{blocks_of, HasFrames};
ghost use Rattle.page_pool.specs.Stops.{MayMakeRoom};
ghost use Rattle.store_locks.specs.Refusals.{judged_form, IsRefusedBehind};
ghost use Rattle.store_locks.specs.Calls.{IsReceipt, IsTaken, most_waiting};
ghost use Rattle.store_locks.specs.Inside.{NamesNoArea, end_of};
ghost use Rattle.store_locks.specs.Locked.{Follows, BooksWal, Inserts, Moves};

use crate::insert::{insert_prepared, partition_for};
use crate::room::flush_before;
use history::Op;
use journal::HistoryEntry;
use lsn_core::StoreFault;
use std::alloc::Global;
use store_faults::InsertFault;
use store_locks::{Desk, HeldPart, Knowing, OfCrew, Receipt, count};
use timeline::Timeline;
use vault::Vault;
use wal_writer::Flushed;

/// Inserts a command of a worker that concerns this partition alone, which is up to date.
pub fn insert_up_to_date<J: OfCrew, W: Vault, const Q: u32>(
    desk: &mut Desk<J, W>,
    alloc: Global,
    line: &Timeline<HistoryEntry, J>,
    part: &mut HeldPart<J, W, Q>,
    own: &mut Knowing<J>,
    op: &Op,
) -> Result<Receipt, InsertFault>
    requires number { Q < 4 }
    requires form { judged_form op.now ≡ None }
    requires items { HasItems op.now }
    requires alone { ConcernsNoOther Q (act_of_op op.now) }
    requires room { HasFrames part.old.part.framed (blocks_of op.now) }
    requires part { part.old.list ≡ desk.old }
    requires seen { own.old.list ≡ desk.old }
    ensures accepted { IfOk result (IsReceipt own.old.worker op.now desk.old desk.new) }
    ensures taken { J.tells ≡ true
        → IfOk result (IsTaken J.settings.segment op.now desk.old) }
    ensures refused { J.tells ≡ true
        → IfErr result (IsRefusedBehind J.settings.segment desk.old op.now) }
    ensures named { IfErr result NamesNoArea }
    ensures same { OnErr result (desk.new ≡ desk.old) }
    ensures grows { IsPrefix desk.old desk.new }
    ensures whole { own.new.list ≡ desk.new }
    ensures worker { own.new.worker ≡ own.old.worker }
    ensures counted { OnOk result (own.new.accepted ≡ own.old.accepted + 1) }
    ensures uncounted { OnErr result (own.new.accepted ≡ own.old.accepted) }
    ensures marks { own.new.marks ≡ own.old.marks }
    ensures faults { own.new.wal ≡ own.old.wal }
{
    let _tip = desk.journal.tip();
    let receipt = insert_prepared(
        alloc,
        line,
        &mut desk.journal,
        &mut part.part,
        &mut desk.counts,
        own.worker,
        op,
    )?;
    desk.journal.know();
    desk.journal.meet(line, &mut part.note);
    desk.journal.meet(line, &mut own.note);
    desk.entries.add(Q, &mut part.share);
    desk.made.add(&mut own.made, 1);
    own.accepted += 1;
    Ok(receipt)
}

/// A partition is brought up to date and a worker sees the whole history, and the WAL is flushed
/// past what is written to make room for a command, and up to its end where too much of it waits.
pub fn flush_for_room<J: OfCrew, W: Vault, const Q: u32>(
    desk: &mut Desk<J, W>,
    alloc: Global,
    line: &Timeline<HistoryEntry, J>,
    part: &mut HeldPart<J, W, Q>,
    own: &mut Knowing<J>,
    op: &Op,
) -> Result<Flushed, StoreFault>
    requires number { Q < 4 }
    requires items { HasItems op.now }
    ensures reached { IfOk result
        (λ mark. MayMakeRoom part.new.part (blocks_of op.now) mark.to.0) }
    ensures few { IfOk result (λ mark.
        end_of J.settings.segment own.new.list ≤ mark.to.0 + most_waiting) }
    ensures up { part.new.list ≡ own.new.list }
    ensures was { Follows own.old own.new }
    ensures lawful { J.tells ≡ true → IsLawful J.settings.segment own.new.list }
    ensures booked { BooksWal own.old.wal own.new.wal result }
{
    desk.know();
    desk.catch_up(line, part);
    desk.meet(line, own);
    reach_room(desk, alloc, part, own, op)
}

/// The same with a partition that is up to date.
pub fn reach_room<J: OfCrew, W: Vault, const Q: u32>(
    desk: &mut Desk<J, W>,
    alloc: Global,
    part: &HeldPart<J, W, Q>,
    own: &mut Knowing<J>,
    op: &Op,
) -> Result<Flushed, StoreFault>
    requires up { part.now.list ≡ desk.old }
    requires items { HasItems op.now }
    ensures reached { IfOk result
        (λ mark. MayMakeRoom part.now.part (blocks_of op.now) mark.to.0) }
    ensures few { IfOk result (λ mark.
        end_of J.settings.segment desk.old ≤ mark.to.0 + most_waiting) }
    ensures same { desk.new ≡ desk.old }
    ensures list { own.new.list ≡ own.old.list }
    ensures worker { own.new.worker ≡ own.old.worker }
    ensures accepted { own.new.accepted ≡ own.old.accepted }
    ensures marks { own.new.marks ≡ own.old.marks }
    ensures booked { BooksWal own.old.wal own.new.wal result }
{
    let (journal, mark) = (&mut desk.journal, &mut desk.mark);
    match flush_before(alloc, journal, &part.part, mark, op) {
        Ok(()) => Ok(desk.mark),
        Err(fault) => {
            count(&mut desk.faults, &mut own.faults, fault);
            Err(fault)
        }
    }
}

/// A worker sees the whole history, behind which a command is judged by its form and what it
/// shows by itself. The answer is the partition that it concerns, and it alone.
pub fn admit_at<J: OfCrew, W: Vault>(
    desk: &mut Desk<J, W>,
    line: &Timeline<HistoryEntry, J>,
    own: &mut Knowing<J>,
    op: &Op,
) -> Result<u32, InsertFault>
    ensures same { desk.new ≡ desk.old }
    ensures was { Follows own.old own.new }
    ensures lawful { J.tells ≡ true → IsLawful J.settings.segment own.new.list }
    ensures faults { own.new.wal ≡ own.old.wal }
    ensures below { IfOk result (λ q. q < 4) }
    ensures form { OnOk result (judged_form op.now ≡ None) }
    ensures items { OnOk result (HasItems op.now) }
    ensures alone { IfOk result (λ q. ConcernsNoOther q (act_of_op op.now)) }
    ensures refused { J.tells ≡ true
        → IfErr result (IsRefusedBehind J.settings.segment own.new.list op.now) }
    ensures named { IfErr result NamesNoArea }
{
    desk.look(line, own);
    partition_for(&desk.journal, op)
}

/// Brings a partition up to date, whose command this is and where room is made for it, and inserts
/// that.
pub fn insert_at<J: OfCrew, W: Vault, const Q: u32>(
    desk: &mut Desk<J, W>,
    alloc: Global,
    line: &Timeline<HistoryEntry, J>,
    part: &mut HeldPart<J, W, Q>,
    own: &mut Knowing<J>,
    op: &Op,
) -> Result<Receipt, InsertFault>
    requires number { Q < 4 }
    requires form { judged_form op.now ≡ None }
    requires items { HasItems op.now }
    requires alone { ConcernsNoOther Q (act_of_op op.now) }
    requires room { HasFrames part.old.part.framed (blocks_of op.now) }
    ensures named { IfErr result NamesNoArea }
    ensures inserts { Inserts (J.tells ≡ true) J.settings.segment op.now own.old own.new
        result }
    ensures moves { Moves own.old own.new }
    ensures lawful { J.tells ≡ true → IsLawful J.settings.segment own.new.list }
    ensures faults { own.new.wal ≡ own.old.wal }
{
    desk.catch_up(line, part);
    desk.meet(line, own);
    let inserted = insert_up_to_date(desk, alloc, line, part, own, op);
    desk.know();
    inserted
}
