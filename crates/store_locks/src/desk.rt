//! The value under the lock of the WAL.

ghost use Rattle.std.specs.Prelude.{◌≡◌, ℕ, ◌+◌, ◌<◌, ◌≤◌, true, IfOk, OnErr, IfErr};
ghost use Rattle.history.specs.Entry.{Mark, RedoMark, Online, BackupEnd};
ghost use Rattle.journal.specs.Journal.{IsEndOf};
ghost use Rattle.journal.specs.Lawful.{IsLawful};
ghost use Rattle.page_pool.specs.Facts.{history_end};
ghost use Rattle.page_pool.specs.Calls.{MayWriteNext, MayWriteAll};
ghost use Rattle.store_locks.specs.Copied.{HasRedoPoint};
ghost use Rattle.store_locks.specs.Inside.{AreCleaned, HasMark, IsFullFor};
ghost use Rattle.store_locks.specs.Records.{IsPlaceOf, HasRecords, AreSome};
ghost use Rattle.store_locks.specs.Calls.{IsPlaced};
ghost use Rattle.store_locks.specs.Locked.{Follows, GoesOn, BooksMark, BooksWal, AppendsMark, FlushesMark, failures};

use crate::fault::mark_fault;
use crate::flush::{flush, flush_newest, flush_next};
use crate::held::HeldPart;
use crate::marks::{append_backup_end, append_end, append_start};
use crate::naming::OfCrew;
use crate::reading::read_whole;
use crate::standing::Knowing;
use journal::{HistoryEntry, Journal};
use lsn_core::{Lsn, MarkFault, Place, Settings, StoreFault};
use page_pool::Cleaned;
use std::alloc::Global;
use std::marker::Model;
use std::sync::ledger::{Book, Ledger, Share};
use store_ledgers::{AreaFaults, EntryBooks, Made};
use timeline::Timeline;
use vault::Vault;
use wal_record::Record;
use wal_writer::Flushed;

/// The WAL of an open store with its history, and the books that belong to it. Contracts see the
/// history.
#[derive(Drop)]
pub struct Desk<J: OfCrew, W: Vault> {
    /// The WAL and its history.
    pub journal: Journal<J, W>,
    /// The latest place up to which the WAL was flushed.
    pub mark: Flushed,
    /// How many commands of each worker were accepted.
    pub counts: Vec<u64>,
    /// The books of how many entries concern each partition.
    pub entries: EntryBooks<J>,
    /// The book of the workers' entries.
    pub made: Book<Made<J>>,
    /// The book of the faults of the WAL's area.
    pub faults: Book<AreaFaults<J, 4>>,
}

impl<J: OfCrew, W: Vault> Model for Desk<J, W> {
    ghost use Rattle.std.specs.Prelude.{◌≡◌, true, List};
    ghost use Rattle.history.specs.Entry.{Entry};
    ghost use Rattle.store_locks.specs.Locked.{IsDesk};

    ghost Value = { List Entry };

    ghost view = { λ d. d.journal.pen };

    ghost invariant = { λ d. IsDesk W.Vault J.settings (J.tells ≡ true) J.found J.workers J.wal
        (J.starts 4) d.journal d.mark.to.0 d.counts.items d.entries d.made.total
        d.faults.total };
}

impl<J: OfCrew, W: Vault> Desk<J, W> {
    /// Where areas tell their files, the history is lawful.
    pub fn know(&self)
        ensures { J.tells ≡ true → IsLawful J.settings.segment self.now }
    {
        self.journal.know();
    }

    /// A worker sees the whole history, of which it knew a beginning.
    pub fn meet(&mut self, line: &Timeline<HistoryEntry, J>, own: &mut Knowing<J>)
        ensures same { self.new ≡ self.old }
        ensures was { Follows own.old own.new }
        ensures whole { own.new.list ≡ self.old }
        ensures faults { own.new.wal ≡ own.old.wal }
    {
        let _tip = self.journal.tip();
        self.journal.know();
        self.journal.meet(line, &mut own.note);
    }

    /// A partition is brought up to date: nothing concerns it of what it hasn't seen.
    pub fn catch_up<const Q: u32>(
        &mut self,
        line: &Timeline<HistoryEntry, J>,
        part: &mut HeldPart<J, W, Q>,
    )
        requires { Q < 4 }
        ensures same { self.new ≡ self.old }
        ensures whole { part.new.list ≡ self.old }
        ensures stays { part.new.part ≡ part.old.part }
    {
        let _tip = self.journal.tip();
        self.journal.know();
        self.entries.audit(Q, &mut part.share);
        self.journal.meet(line, &mut part.note);
    }

    /// Flushes the WAL up to where an entry of the history ends.
    pub(crate) fn flush_to(
        &mut self,
        alloc: Global,
        own: &mut Knowing<J>,
        to: Lsn,
    ) -> Result<Flushed, StoreFault>
        requires { IsEndOf self.old to.0 }
        ensures reached { IfOk result (λ mark. to.0 ≤ mark.to.0) }
        ensures same { self.new ≡ self.old }
        ensures list { own.new.list ≡ own.old.list }
        ensures worker { own.new.worker ≡ own.old.worker }
        ensures accepted { own.new.accepted ≡ own.old.accepted }
        ensures marks { own.new.marks ≡ own.old.marks }
        ensures booked { BooksWal own.old.wal own.new.wal result }
    {
        match flush(alloc, &mut self.journal, &mut self.mark, to) {
            Ok(()) => Ok(self.mark),
            Err(fault) => {
                count(&mut self.faults, &mut own.faults, fault);
                Err(fault)
            }
        }
    }

    /// A partition is brought up to date and a worker sees the whole history, and the WAL is
    /// flushed past the entry of what the partition writes next, where there is anything.
    pub fn flush_next<const Q: u32>(
        &mut self,
        alloc: Global,
        line: &Timeline<HistoryEntry, J>,
        part: &mut HeldPart<J, W, Q>,
        own: &mut Knowing<J>,
    ) -> Result<Flushed, StoreFault>
        requires { Q < 4 }
        ensures reached { IfOk result (λ mark. MayWriteNext part.new.part mark.to.0) }
        ensures up { part.new.list ≡ own.new.list }
        ensures was { Follows own.old own.new }
        ensures lawful { J.tells ≡ true → IsLawful J.settings.segment own.new.list }
        ensures booked { BooksWal own.old.wal own.new.wal result }
    {
        self.know();
        self.catch_up(line, part);
        self.meet(line, own);
        self.reach_next(alloc, part, own)
    }

    /// The same with a partition that is up to date.
    fn reach_next<const Q: u32>(
        &mut self,
        alloc: Global,
        part: &HeldPart<J, W, Q>,
        own: &mut Knowing<J>,
    ) -> Result<Flushed, StoreFault>
        requires { part.now.list ≡ self.old }
        ensures reached { IfOk result (λ mark. MayWriteNext part.now.part mark.to.0) }
        ensures same { self.new ≡ self.old }
        ensures list { own.new.list ≡ own.old.list }
        ensures worker { own.new.worker ≡ own.old.worker }
        ensures accepted { own.new.accepted ≡ own.old.accepted }
        ensures marks { own.new.marks ≡ own.old.marks }
        ensures booked { BooksWal own.old.wal own.new.wal result }
    {
        let (journal, mark) = (&mut self.journal, &mut self.mark);
        match flush_next(alloc, journal, &part.part, mark) {
            Ok(()) => Ok(self.mark),
            Err(fault) => {
                count(&mut self.faults, &mut own.faults, fault);
                Err(fault)
            }
        }
    }

    /// A partition is brought up to date and a worker sees the whole history, and the WAL is
    /// flushed past a redo point and past the newest entry of all that the partition has to write.
    pub fn flush_newest<const Q: u32>(
        &mut self,
        alloc: Global,
        line: &Timeline<HistoryEntry, J>,
        part: &mut HeldPart<J, W, Q>,
        own: &mut Knowing<J>,
        redo: Lsn,
    ) -> Result<Flushed, StoreFault>
        requires number { Q < 4 }
        requires late { redo.0 ≤ history_end own.old.list }
        ensures reached { IfOk result (λ mark. MayWriteAll part.new.part mark.to.0) }
        ensures redo { IfOk result (λ mark. redo.0 ≤ mark.to.0) }
        ensures stays { part.new.part ≡ part.old.part }
        ensures up { part.new.list ≡ own.new.list }
        ensures was { Follows own.old own.new }
        ensures lawful { J.tells ≡ true → IsLawful J.settings.segment own.new.list }
        ensures booked { BooksWal own.old.wal own.new.wal result }
    {
        self.know();
        self.catch_up(line, part);
        self.meet(line, own);
        self.reach_newest(alloc, part, own, redo)
    }

    /// The same with a partition that is up to date.
    fn reach_newest<const Q: u32>(
        &mut self,
        alloc: Global,
        part: &HeldPart<J, W, Q>,
        own: &mut Knowing<J>,
        redo: Lsn,
    ) -> Result<Flushed, StoreFault>
        requires up { part.now.list ≡ self.old }
        requires late { redo.0 ≤ history_end self.old }
        ensures reached { IfOk result (λ mark. MayWriteAll part.now.part mark.to.0) }
        ensures redo { IfOk result (λ mark. redo.0 ≤ mark.to.0) }
        ensures same { self.new ≡ self.old }
        ensures list { own.new.list ≡ own.old.list }
        ensures worker { own.new.worker ≡ own.old.worker }
        ensures accepted { own.new.accepted ≡ own.old.accepted }
        ensures marks { own.new.marks ≡ own.old.marks }
        ensures booked { BooksWal own.old.wal own.new.wal result }
    {
        let (journal, mark) = (&mut self.journal, &mut self.mark);
        match flush_newest(alloc, journal, &part.part, mark, redo) {
            Ok(()) => Ok(self.mark),
            Err(fault) => {
                count(&mut self.faults, &mut own.faults, fault);
                Err(fault)
            }
        }
    }

    /// A worker sees the whole history, which is lawful where areas tell their files.
    pub fn look(&mut self, line: &Timeline<HistoryEntry, J>, own: &mut Knowing<J>)
        ensures same { self.new ≡ self.old }
        ensures was { Follows own.old own.new }
        ensures whole { own.new.list ≡ self.old }
        ensures lawful { J.tells ≡ true → IsLawful J.settings.segment own.new.list }
        ensures faults { own.new.wal ≡ own.old.wal }
    {
        self.know();
        self.meet(line, own);
    }

    /// Flushes the WAL up to where an entry ends that a worker has seen.
    pub fn flush_seen(
        &mut self,
        alloc: Global,
        line: &Timeline<HistoryEntry, J>,
        own: &mut Knowing<J>,
        to: Lsn,
    ) -> Result<Flushed, StoreFault>
        requires { IsEndOf own.old.list to.0 }
        ensures reached { IfOk result (λ mark. to.0 ≤ mark.to.0) }
        ensures was { Follows own.old own.new }
        ensures lawful { J.tells ≡ true → IsLawful J.settings.segment own.new.list }
        ensures booked { BooksWal own.old.wal own.new.wal result }
    {
        self.look(line, own);
        self.flush_to(alloc, own, to)
    }

    /// A worker sees the whole history, up to whose end the WAL is flushed. The answer is the first
    /// records of it behind a place.
    pub fn records(
        &mut self,
        alloc: Global,
        line: &Timeline<HistoryEntry, J>,
        own: &mut Knowing<J>,
        settings: &Settings,
        from: Lsn,
        most: u32,
    ) -> Result<Vec<Record>, StoreFault>
        requires settings { settings.now ≡ J.settings }
        requires place { J.tells ≡ true → IsPlaceOf own.old.list from.0 }
        ensures records { J.tells ≡ true
            → IfOk result (λ v. HasRecords J.settings own.new.list from.0 most v.items) }
        ensures some { IfOk result (λ v. AreSome J.settings.segment from.0 most v.items) }
        ensures was { Follows own.old own.new }
        ensures lawful { J.tells ≡ true → IsLawful J.settings.segment own.new.list }
        ensures booked { BooksWal own.old.wal own.new.wal result }
    {
        self.look(line, own);
        self.read(alloc, own, settings, from, most)
    }

    /// The same of a worker that sees the whole history.
    fn read(
        &mut self,
        alloc: Global,
        own: &mut Knowing<J>,
        settings: &Settings,
        from: Lsn,
        most: u32,
    ) -> Result<Vec<Record>, StoreFault>
        requires settings { settings.now ≡ J.settings }
        requires place { J.tells ≡ true → IsPlaceOf self.old from.0 }
        ensures records { J.tells ≡ true
            → IfOk result (λ v. HasRecords J.settings self.old from.0 most v.items) }
        ensures some { IfOk result (λ v. AreSome J.settings.segment from.0 most v.items) }
        ensures same { self.new ≡ self.old }
        ensures list { own.new.list ≡ own.old.list }
        ensures worker { own.new.worker ≡ own.old.worker }
        ensures accepted { own.new.accepted ≡ own.old.accepted }
        ensures marks { own.new.marks ≡ own.old.marks }
        ensures booked { BooksWal own.old.wal own.new.wal result }
    {
        let (journal, mark) = (&mut self.journal, &mut self.mark);
        match read_whole(alloc, journal, mark, settings, from, most) {
            Ok(records) => Ok(records),
            Err(fault) => {
                count(&mut self.faults, &mut own.faults, fault);
                Err(fault)
            }
        }
    }

    /// A worker sees the whole history, and appends the start of a checkpoint behind it, which it
    /// sees too. A refusal changes nothing.
    pub fn start(
        &mut self,
        alloc: Global,
        line: &Timeline<HistoryEntry, J>,
        own: &mut Knowing<J>,
    ) -> Result<Place, MarkFault>
        ensures marks { AppendsMark J.settings.segment (RedoMark 1) own.old own.new result }
        ensures was { GoesOn own.old own.new }
        ensures lawful { J.tells ≡ true → IsLawful J.settings.segment own.new.list }
        ensures faults { own.new.wal ≡ own.old.wal }
    {
        self.meet(line, own);
        let marked = self.append_start(alloc, line, own);
        self.look(line, own);
        marked
    }

    /// The same of a worker that sees the whole history before.
    fn append_start(
        &mut self,
        alloc: Global,
        line: &Timeline<HistoryEntry, J>,
        own: &mut Knowing<J>,
    ) -> Result<Place, MarkFault>
        requires { own.old.list ≡ self.old }
        ensures marked { IfOk result (HasMark own.old.worker (RedoMark 1) self.old self.new) }
        ensures full { IfErr result (IsFullFor (Mark (RedoMark 1)) J.settings.segment self.old) }
        ensures same { OnErr result (self.new ≡ self.old) }
        ensures books { BooksMark own.old own.new self.new result }
    {
        let place = append_start(alloc, line, &mut self.journal, own.worker)?;
        own.mark(line, &mut self.journal, &mut self.made);
        Ok(place)
    }

    /// The same with the end of the checkpoint of a redo point, behind which all partitions were
    /// written; and the WAL is flushed up to there.
    pub fn finish(
        &mut self,
        alloc: Global,
        line: &Timeline<HistoryEntry, J>,
        own: &mut Knowing<J>,
        redo: Lsn,
        done: &[Cleaned; 4],
    ) -> Result<(Place, Flushed), MarkFault>
        requires { AreCleaned redo done.now }
        ensures marks { FlushesMark J.settings.segment (Online redo.0) own.old own.new result }
        ensures was { GoesOn own.old own.new }
        ensures lawful { J.tells ≡ true → IsLawful J.settings.segment own.new.list }
    {
        self.meet(line, own);
        let place = match self.append_end(alloc, line, redo, done, own) {
            Ok(place) => place,
            Err(fault) => {
                self.look(line, own);
                return Err(fault);
            }
        };
        self.look(line, own);
        match self.flush_to(alloc, own, place.end) {
            Ok(mark) => Ok((place, mark)),
            Err(fault) => Err(mark_fault(fault)),
        }
    }

    fn append_end(
        &mut self,
        alloc: Global,
        line: &Timeline<HistoryEntry, J>,
        redo: Lsn,
        done: &[Cleaned; 4],
        own: &mut Knowing<J>,
    ) -> Result<Place, MarkFault>
        requires seen { own.old.list ≡ self.old }
        requires done { AreCleaned redo done.now }
        ensures marked { IfOk result (HasMark own.old.worker (Online redo.0) self.old self.new) }
        ensures full { IfErr result (IsFullFor (Mark (Online redo.0)) J.settings.segment self.old) }
        ensures same { OnErr result (self.new ≡ self.old) }
        ensures books { BooksMark own.old own.new self.new result }
    {
        let place = append_end(alloc, line, &mut self.journal, redo, done, own.worker)?;
        own.mark(line, &mut self.journal, &mut self.made);
        Ok(place)
    }

    /// The same with the end of the backup that started there.
    pub fn end_backup(
        &mut self,
        alloc: Global,
        line: &Timeline<HistoryEntry, J>,
        own: &mut Knowing<J>,
        start: Lsn,
    ) -> Result<(Place, Flushed), MarkFault>
        ensures marks { FlushesMark J.settings.segment (BackupEnd start.0) own.old own.new result }
        ensures placed { IfOk result (λ x. IsPlaced J.settings.segment own.new.list x.0.end.0) }
        ensures was { GoesOn own.old own.new }
        ensures lawful { J.tells ≡ true → IsLawful J.settings.segment own.new.list }
    {
        self.meet(line, own);
        let place = match self.append_backup_end(alloc, line, start, own) {
            Ok(place) => place,
            Err(fault) => {
                self.look(line, own);
                return Err(fault);
            }
        };
        self.look(line, own);
        let _tip = self.journal.tip();
        match self.flush_to(alloc, own, place.end) {
            Ok(mark) => Ok((place, mark)),
            Err(fault) => Err(mark_fault(fault)),
        }
    }

    fn append_backup_end(
        &mut self,
        alloc: Global,
        line: &Timeline<HistoryEntry, J>,
        start: Lsn,
        own: &mut Knowing<J>,
    ) -> Result<Place, MarkFault>
        requires { own.old.list ≡ self.old }
        ensures marked { IfOk result (HasMark own.old.worker
            (BackupEnd start.0) self.old self.new) }
        ensures full { IfErr result
            (IsFullFor (Mark (BackupEnd start.0)) J.settings.segment self.old) }
        ensures same { OnErr result (self.new ≡ self.old) }
        ensures books { BooksMark own.old own.new self.new result }
    {
        let place = append_backup_end(alloc, line, &mut self.journal, start, own.worker)?;
        own.mark(line, &mut self.journal, &mut self.made);
        Ok(place)
    }

    /// A partition is brought up to date and a worker sees the whole history. The answer is the
    /// latest redo point.
    pub fn bring<const Q: u32>(
        &mut self,
        line: &Timeline<HistoryEntry, J>,
        part: &mut HeldPart<J, W, Q>,
        own: &mut Knowing<J>,
    ) -> Lsn
        requires { Q < 4 }
        ensures up { part.new.list ≡ own.new.list }
        ensures stays { part.new.part ≡ part.old.part }
        ensures was { Follows own.old own.new }
        ensures lawful { J.tells ≡ true → IsLawful J.settings.segment own.new.list }
        ensures faults { own.new.wal ≡ own.old.wal }
        ensures latest { J.tells ≡ true → (place : ℕ) → HasRedoPoint own.new.list place
            → place ≤ result.0 }
        ensures within { (place : ℕ) → HasRedoPoint own.new.list place
            → result.0 ≤ history_end own.new.list }
    {
        self.know();
        self.catch_up(line, part);
        self.meet(line, own);
        self.latest_redo()
    }

    /// The latest redo point.
    fn latest_redo(&self) -> Lsn
        ensures latest { J.tells ≡ true → (place : ℕ) → HasRedoPoint self.now place
            → place ≤ result.0 }
        ensures within { (place : ℕ) → HasRedoPoint self.now place
            → result.0 ≤ history_end self.now }
    {
        self.journal.know();
        let tip = self.journal.tip();
        tip.redo
    }
}

/// Books a fault, where an area failed.
pub fn count<L: Ledger>(book: &mut Book<L>, share: &mut Share<L>, fault: StoreFault)
    requires { share.old.parts ≡ 1 }
    ensures total { book.new.total ≡ book.old.total + failures fault }
    ensures amount { share.new.amount ≡ share.old.amount + failures fault }
    ensures parts { share.new.parts ≡ 1 }
{
    if let StoreFault::Failed(_) = fault {
        book.add(share, 1);
    }
}
