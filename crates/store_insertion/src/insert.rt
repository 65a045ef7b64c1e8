//! Inserting a command into one partition.

ghost use Rattle.std.specs.Prelude.{◌≡◌, ◌+◌, ◌<◌, true, [], ◌∷◌, ◌++◌, None, Some, IfOk, OnOk, OnErr, IfErr, length, slice_set};
ghost use Rattle.history.specs.Op.{act_of_op};
ghost use Rattle.wal_record.specs.Spelling.{IsWritable};
ghost use Rattle.wal_writer.specs.Answers.{AppendAnswer};
ghost use Rattle.history.specs.partitions.Parts.{ConcernsNoOther};
ghost use Rattle.journal.specs.Journal.{MayFollow, entry_at};
ghost use Rattle.page_pool.specs.Ready.{IsChecked, IsReady};
ghost use Rattle.command_judging.specs.Refusals.{HasItems};
ghost use Rattle.page_pool.specs.Room.{blocks_of, HasFrames};
ghost use Rattle.page_pool.specs.Calls.{SameUnwritten, SameDisk};
ghost use Rattle.store_locks.specs.Refusals.{judged_form, judged_itself, IsRefusedBehind};
ghost use Rattle.page_pool.specs.Facts.{IsPartOf};
ghost use Rattle.store_locks.specs.Open.{AreCounts};
ghost use Rattle.store_locks.specs.Calls.{IsReceipt, IsTaken};
ghost use Rattle.store_locks.specs.Inside.{pages_behind, is_over, IsAdmitted, AddsOnly, IsNextOf, NamesNoArea};

use crate::fault::fault_at;
use crate::form::{judge_form, partition_of_op};
use command_judging::judge_alone;
use history::Op;
use journal::{HistoryEntry, Journal, OfStore, know_pages};
use lsn_core::Place;
use page_pool::{Partition, Ready};
use std::alloc::Global;
use store_faults::InsertFault;
use store_locks::Receipt;
use timeline::Timeline;
use vault::Vault;
use wal_record::Record;
use wal_writer::AppendFault;

/// The most pages of a store (profile).
const MOST_PAGES: u64 = 65_536;

/// Inserts a command of a worker that concerns this partition alone, where room is made for it:
/// judges it, appends its entry, changes the pages, and counts it. A refusal is the first one in
/// order, and changes nothing.
pub fn insert_prepared<J: OfStore, V: Vault, W: Vault, const Q: u32>(
    alloc: Global,
    line: &Timeline<HistoryEntry, J>,
    journal: &mut Journal<J, V>,
    part: &mut Partition<W, Q>,
    counts: &mut Vec<u64>,
    worker: u32,
    op: &Op,
) -> Result<Receipt, InsertFault>
    requires form { judged_form op.now ≡ None }
    requires items { HasItems op.now }
    requires alone { ConcernsNoOther Q (act_of_op op.now) }
    requires part { IsPartOf Q part.old.relseg (J.tells ≡ true) journal.old.pen part.old }
    requires room { HasFrames part.old.framed (blocks_of op.now) }
    requires counts { AreCounts counts.old.items journal.old.pen }
    requires worker { worker < length counts.old.items }
    ensures accepted { IfOk result (IsReceipt worker op.now journal.old.pen journal.new.pen) }
    ensures taken { J.tells ≡ true
        → IfOk result (IsTaken journal.old.wal.tail.mib op.now journal.old.pen) }
    ensures refused { J.tells ≡ true
        → IfErr result (IsRefusedBehind journal.old.wal.tail.mib journal.old.pen op.now) }
    ensures named { IfErr result NamesNoArea }
    ensures same { OnErr result (journal.new ≡ journal.old) }
    ensures adds { AddsOnly journal.old journal.new }
    ensures next { OnOk result (IsNextOf op.now journal.old.pen journal.new.pen) }
    ensures part { IsPartOf Q part.old.relseg (J.tells ≡ true) journal.new.pen part.new }
    ensures faults { part.new.faults ≡ part.old.faults }
    ensures counts { AreCounts counts.new.items journal.new.pen }
    ensures crew { length counts.new.items ≡ length counts.old.items }
    ensures counted { IfOk result (λ r.
        counts.new.items ≡ slice_set counts.old.items worker (r.seq + 1)) }
    ensures uncounted { OnErr result (counts.new ≡ counts.old) }
{
    let tip = journal.tip();
    let (ready, pages) = check_in(alloc, journal, part, op)?;
    let seq = counts[worker as usize];
    let record = match append_in(alloc, line, journal, part, ready, pages, worker, seq, op) {
        Ok(record) => record,
        Err(AppendFault::WalFull) => return Err(InsertFault::WalFull(tip.count)),
        Err(AppendFault::NoMemory) => return Err(InsertFault::NoMemory),
    };
    counts[worker as usize] = seq + 1;
    Ok(Receipt {
        number: tip.count,
        seq,
        place: Place {
            start: record.start,
            end: record.end,
        },
    })
}

/// The partition that a command concerns, and it alone; it errs where the command hasn't the form
/// of one, or can't be done on any pages.
pub fn partition_for<J: OfStore, V: Vault>(
    journal: &Journal<J, V>,
    op: &Op,
) -> Result<u32, InsertFault>
    ensures below { IfOk result (λ q. q < 4) }
    ensures form { OnOk result (judged_form op.now ≡ None) }
    ensures itself { OnOk result (judged_itself op.now ≡ None) }
    ensures items { OnOk result (HasItems op.now) }
    ensures alone { IfOk result (λ q. ConcernsNoOther q (act_of_op op.now)) }
    ensures refused { J.tells ≡ true
        → IfErr result (IsRefusedBehind journal.now.wal.tail.mib journal.now.pen op.now) }
    ensures named { IfErr result NamesNoArea }
{
    journal.know();
    let tip = journal.tip();
    if let Err(fault) = judge_form(op) {
        return Err(fault);
    }
    match judge_alone(op) {
        Ok(()) => Ok(partition_of_op(op)),
        Err(fault) => Err(fault_at(tip.count, fault)),
    }
}

/// Judges a command, but for the room of the WAL, and makes it ready: with the number of the
/// store's pages behind it.
fn check_in<J: OfStore, V: Vault, W: Vault, const Q: u32>(
    alloc: Global,
    journal: &Journal<J, V>,
    part: &mut Partition<W, Q>,
    op: &Op,
) -> Result<(Ready, u64), InsertFault>
    requires form { judged_form op.now ≡ None }
    requires items { HasItems op.now }
    requires alone { ConcernsNoOther Q (act_of_op op.now) }
    requires part { IsPartOf Q part.old.relseg (J.tells ≡ true) journal.now.pen part.old }
    requires room { HasFrames part.old.framed (blocks_of op.now) }
    ensures checked { IfOk result (λ r.
        IsChecked part.old part.new op.now journal.now.wal.tail.tip.redo r.0) }
    ensures next { J.tells ≡ true → IfOk result (λ r.
        MayFollow journal.now.wal.tail.mib journal.now.pen (act_of_op op.now) r.0.kind r.1) }
    ensures admitted { J.tells ≡ true → IfOk result (λ r.
        IsAdmitted journal.now.wal.tail journal.now.pen op.now r.0.kind) }
    ensures refused { J.tells ≡ true
        → IfErr result (IsRefusedBehind journal.now.wal.tail.mib journal.now.pen op.now) }
    ensures named { IfErr result NamesNoArea }
    ensures same { SameUnwritten part.old part.new }
    ensures area { SameDisk part.old part.new }
{
    journal.know();
    know_pages(op);
    let tip = journal.tip();
    let ready = match part.check_op(alloc, op, tip.redo) {
        Ok(ready) => ready,
        Err(fault) => return Err(fault_at(tip.count, fault)),
    };
    let pages = pages_behind(journal.pages(), ready.added(), ready.gone());
    if is_over(op, pages) {
        return Err(InsertFault::StoreFull(tip.count));
    }
    Ok((ready, pages))
}

/// So many pages, with so many more and so many less, as far as the number goes.
fn pages_behind(pages: u64, added: u64, gone: u64) -> u64
    ensures { result ≡ pages_behind pages added gone }
{
    if gone <= added {
        pages.saturating_add(added - gone)
    } else {
        pages.saturating_sub(gone - added)
    }
}

/// Whether a command leaves too many pages: a change does, where there are so many behind it.
fn is_over(op: &Op, pages: u64) -> bool
    ensures { result ≡ is_over op.now pages }
{
    match op {
        Op::Create(_) => false,
        Op::Truncate(_, _) => false,
        Op::Drop(_) => false,
        Op::Change(_) => MOST_PAGES < pages,
    }
}

/// Appends the entry of a command that is ready, and does it.
fn append_in<J: OfStore, V: Vault, W: Vault, const Q: u32>(
    alloc: Global,
    line: &Timeline<HistoryEntry, J>,
    journal: &mut Journal<J, V>,
    part: &mut Partition<W, Q>,
    ready: Ready,
    pages: u64,
    worker: u32,
    seq: u64,
    op: &Op,
) -> Result<Record, AppendFault>
    requires alone { ConcernsNoOther Q (act_of_op op.now) }
    requires part { IsPartOf Q part.old.relseg (J.tells ≡ true) journal.old.pen part.old }
    requires ready { IsReady part.old op.now ready }
    requires writable { IsWritable ready.kind }
    requires next { J.tells ≡ true
        → MayFollow journal.old.wal.tail.mib journal.old.pen (act_of_op op.now) ready.kind pages }
    ensures answer { AppendAnswer ready.kind journal.old.wal.tail journal.new.wal.tail result }
    ensures told { IfOk result (λ r. journal.new.pen
        ≡ journal.old.pen ++ entry_at r (act_of_op op.now) worker (Some seq) ∷ []) }
    ensures same { OnErr result (journal.new ≡ journal.old) }
    ensures adds { AddsOnly journal.old journal.new }
    ensures next { OnOk result (IsNextOf op.now journal.old.pen journal.new.pen) }
    ensures part { IsPartOf Q part.old.relseg (J.tells ≡ true) journal.new.pen part.new }
    ensures faults { part.new.faults ≡ part.old.faults }
{
    let mut ready = ready;
    let _tip = journal.tip();
    let kind = ready.take_kind();
    let record = journal.append_command(alloc, line, op, kind, worker, seq, pages)?;
    part.apply_op(ready, record.end);
    Ok(record)
}
