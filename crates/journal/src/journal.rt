//! The value under the lock of the WAL.

ghost use Rattle.std.specs.Prelude.{◌≡◌, ◌<◌, ◌≤◌, ◌^◌, true, [], ◌∷◌, ◌++◌, length, None, Some, IsOk, IfOk, OnOk, OnErr};
ghost use mathlib.Core.List.{IsPrefix};
ghost use Rattle.lsn_core.specs.Causes.{HasCause};
ghost use Rattle.wal_record.specs.Spelling.{IsWritable};
ghost use Rattle.wal_writer.specs.Log.{IsLog, flush_end, touched_to};
ghost use Rattle.vault.specs.Frame.{OnlyReads};
ghost use Rattle.wal_writer.specs.Answers.{AppendAnswer, Flushes, Tears, Keeps, FlushWrites};
ghost use Rattle.history.specs.Entry.{Mark, RedoMark, Online, BackupEnd};
ghost use Rattle.history.specs.Op.{act_of_op};
ghost use Rattle.history.specs.Written.{mark_kind};
ghost use Rattle.journal.specs.Journal.{EndsWith, IsJournal, IsAtRest, IsEndOf, MayFollow, ReadsFlushed, entry_at};
ghost use Rattle.journal.specs.Marks.{marking_of};

use crate::entry::HistoryEntry;
use crate::marks::{StoreMark, mark_kind};
use crate::naming::OfStore;
use history::Op;
use lsn_core::{AreaFault, Lsn, Settings, WalTip};
use std::alloc::Global;
use std::marker::{Brand, Model};
use timeline::{Names, Note, Pen, Timeline};
use vault::Vault;
use wal_reader::WalFault;
use wal_reader::wal_pieces::read_piece;
use wal_record::{Kind, Record};
use wal_writer::{AppendFault, Flushed, WalState};

/// The WAL of an open store, with the history that it tells, which exists in proofs alone, and the
/// number of the store's pages. Contracts see a `Written` of `specs/Journal.antt`.
#[derive(Drop)]
pub struct Journal<J: OfStore, V: Vault> {
    wal: WalState<V>,
    pen: Pen<HistoryEntry, J>,
    pages: u64,
}

impl<J: OfStore, V: Vault> Model for Journal<J, V> {
    ghost use Rattle.std.specs.Prelude.{◌≡◌, true};
    ghost use Rattle.journal.specs.Journal.{EndsWith, IsJournal, IsAtRest, Written};

    ghost Value = { Written V };

    ghost view = { λ j. record { wal = j.wal; pen = j.pen; pages = j.pages } };

    ghost invariant = { λ j. (EndsWith j.wal.tail j.pen
        × (J.tells ≡ true → IsJournal V.Vault j.wal j.pen j.pages))
        × IsAtRest V.Vault j.wal };
}

impl<J: OfStore, V: Vault> Journal<J, V> {
    /// The journal of a WAL that tells the history of this pen, whose store has so many pages.
    pub fn new(wal: WalState<V>, pen: Pen<HistoryEntry, J>, pages: u64) -> Journal<J, V>
        requires ended { EndsWith wal.tail pen }
        requires kept { J.tells ≡ true → IsJournal V.Vault wal pen pages }
        requires rest { IsAtRest V.Vault wal }
        ensures wal { result.wal ≡ wal }
        ensures pen { result.pen ≡ pen }
        ensures pages { result.pages ≡ pages }
    {
        Journal { wal, pen, pages }
    }

    /// The end of the WAL, behind all that was appended. The last entry of the history ends there.
    pub fn tip(&self) -> WalTip
        ensures tip { result ≡ self.now.wal.tail.tip }
        ensures known { IsLog self.now.wal.tail }
        ensures last { J.tells ≡ true → IsEndOf self.now.pen self.now.wal.tail.tip.end }
        ensures ended { EndsWith self.now.wal.tail self.now.pen }
        ensures rest { IsAtRest V.Vault self.now.wal }
    {
        self.wal.tip()
    }

    /// How many pages the store has.
    pub fn pages(&self) -> u64
        ensures { result ≡ self.now.pages }
    {
        self.pages
    }

    /// What is known of a journal whose areas tell their files.
    pub fn know(&self)
        ensures { J.tells ≡ true
            → IsJournal V.Vault self.now.wal self.now.pen self.now.pages }
    {
        let _ = &self.wal;
    }

    /// Appends the entry of a worker's command, which may come next and leaves the store so many
    /// pages, to the WAL in memory and to the history. A refusal changes nothing.
    pub fn append_command(
        &mut self,
        alloc: Global,
        line: &Timeline<HistoryEntry, J>,
        op: &Op,
        kind: Kind,
        worker: u32,
        seq: u64,
        pages: u64,
    ) -> Result<Record, AppendFault>
        requires writable { IsWritable kind }
        requires next { J.tells ≡ true
            → MayFollow self.old.wal.tail.mib self.old.pen (act_of_op op.now) kind pages }
        ensures answer { AppendAnswer kind self.old.wal.tail self.new.wal.tail result }
        ensures told { IfOk result (λ r. self.new.pen
            ≡ self.old.pen ++ entry_at r (act_of_op op.now) worker (Some seq) ∷ []) }
        ensures pages { OnOk result (self.new.pages ≡ pages) }
        ensures same { OnErr result (self.new ≡ self.old) }
        ensures area { self.new.wal.area ≡ self.old.wal.area }
    {
        let _tip = self.tip();
        let record = self.wal.append(alloc, kind)?;
        tell_command::<J, Brand>(line, &mut self.pen, op, &record, worker, seq);
        self.pages = pages;
        Ok(record)
    }

    /// Appends the entry that starts a checkpoint, whose start is the redo point, as a worker.
    pub fn append_redo(
        &mut self,
        alloc: Global,
        line: &Timeline<HistoryEntry, J>,
        worker: u32,
    ) -> Result<Record, AppendFault>
        ensures answer { AppendAnswer (mark_kind (RedoMark 1)) self.old.wal.tail self.new.wal.tail
            result }
        ensures told { IfOk result (λ r. self.new.pen
            ≡ self.old.pen ++ entry_at r (Mark (RedoMark 1)) worker None ∷ []) }
        ensures pages { self.new.pages ≡ self.old.pages }
        ensures same { OnErr result (self.new ≡ self.old) }
        ensures area { self.new.wal.area ≡ self.old.wal.area }
    {
        self.append_mark(alloc, line, StoreMark::Redo, worker)
    }

    /// Appends the entry that ends the checkpoint of this redo point, as a worker.
    pub fn append_online(
        &mut self,
        alloc: Global,
        line: &Timeline<HistoryEntry, J>,
        redo: Lsn,
        worker: u32,
    ) -> Result<Record, AppendFault>
        ensures answer { AppendAnswer (mark_kind (Online redo.0)) self.old.wal.tail
            self.new.wal.tail result }
        ensures told { IfOk result (λ r. self.new.pen
            ≡ self.old.pen ++ entry_at r (Mark (Online redo.0)) worker None ∷ []) }
        ensures pages { self.new.pages ≡ self.old.pages }
        ensures same { OnErr result (self.new ≡ self.old) }
        ensures area { self.new.wal.area ≡ self.old.wal.area }
    {
        self.append_mark(alloc, line, StoreMark::Online(redo), worker)
    }

    /// Appends the entry that ends the backup which started there, as a worker.
    pub fn append_backup_end(
        &mut self,
        alloc: Global,
        line: &Timeline<HistoryEntry, J>,
        start: Lsn,
        worker: u32,
    ) -> Result<Record, AppendFault>
        ensures answer { AppendAnswer (mark_kind (BackupEnd start.0)) self.old.wal.tail
            self.new.wal.tail result }
        ensures told { IfOk result (λ r. self.new.pen
            ≡ self.old.pen ++ entry_at r (Mark (BackupEnd start.0)) worker None ∷ []) }
        ensures pages { self.new.pages ≡ self.old.pages }
        ensures same { OnErr result (self.new ≡ self.old) }
        ensures area { self.new.wal.area ≡ self.old.wal.area }
    {
        self.append_mark(alloc, line, StoreMark::BackupEnd(start), worker)
    }

    /// Appends the entry of a mark, which changes no page.
    fn append_mark(
        &mut self,
        alloc: Global,
        line: &Timeline<HistoryEntry, J>,
        mark: StoreMark,
        worker: u32,
    ) -> Result<Record, AppendFault>
        ensures answer { AppendAnswer (mark_kind (marking_of mark)) self.old.wal.tail
            self.new.wal.tail result }
        ensures told { IfOk result (λ r. self.new.pen
            ≡ self.old.pen ++ entry_at r (Mark (marking_of mark)) worker None ∷ []) }
        ensures pages { self.new.pages ≡ self.old.pages }
        ensures same { OnErr result (self.new ≡ self.old) }
        ensures area { self.new.wal.area ≡ self.old.wal.area }
    {
        let _tip = self.tip();
        let record = self.wal.append(alloc, mark_kind(mark))?;
        tell_mark::<J, Brand>(line, &mut self.pen, mark, &record, worker);
        Ok(record)
    }

    /// Flushes the WAL up to a place where an entry of the history ends, as `WalState::flush_to`
    /// does. Up to the flushed position nothing is to be done.
    pub fn flush_to(&mut self, alloc: Global, to: Lsn) -> Result<Flushed, AreaFault>
        requires within { to.0 ≤ self.old.wal.tail.tip.end }
        requires place { J.tells ≡ true → IsEndOf self.old.pen to.0 }
        ensures idle { to.0 ≤ self.old.wal.tail.flushed → self.new ≡ self.old }
        ensures succeeds { to.0 ≤ self.old.wal.tail.flushed → IsOk result }
        ensures flushed { OnOk result (Flushes V.Vault to.0 self.old.wal self.new.wal) }
        ensures mark { IfOk result (λ mark. mark.to.0 ≡ self.new.wal.tail.flushed) }
        ensures reached { IfOk result (λ mark. to.0 ≤ mark.to.0) }
        ensures stands { OnErr result (self.new.wal.tail
            ≡ touched_to self.old.wal.tail (flush_end self.old.wal.tail to.0)) }
        ensures left { Tears V.Vault to.0 self.old.wal self.new.wal }
        ensures moments { Keeps V.Vault self.old.wal self.new.wal }
        ensures frame { FlushWrites V.Vault to.0 self.old.wal self.new.wal }
        ensures cause { HasCause (V.faults self.old.wal.area) (V.faults self.new.wal.area) result }
        ensures pen { self.new.pen ≡ self.old.pen }
        ensures pages { self.new.pages ≡ self.old.pages }
    {
        let _tip = self.tip();
        self.wal.flush_to(alloc, to)
    }

    /// The first entries of the WAL of these settings from a place on, so many of them, as far as
    /// it is flushed: what `read_piece` answers of the area. Nothing is looked at from the flushed
    /// place on, and nothing changes.
    pub fn read_flushed(
        &mut self,
        alloc: Global,
        settings: &Settings,
        from: Lsn,
        most: u32,
    ) -> Result<Vec<Record>, WalFault>
        ensures answer { ReadsFlushed V.Vault settings.now from.0 most self.old.wal self.new.wal
            result }
        ensures reads { OnlyReads V.Vault self.old.wal.area self.new.wal.area }
        ensures tail { self.new.wal.tail ≡ self.old.wal.tail }
        ensures pen { self.new.pen ≡ self.old.pen }
        ensures pages { self.new.pages ≡ self.old.pages }
    {
        // (made anew from its number, by which the proof compares it)
        let upto = Some(Lsn(self.wal.flushed().0));
        read_piece(alloc, &mut self.wal.area, settings, from, upto, most)
    }

    /// Shows that a note is a beginning of the history. The note knows the whole history
    /// afterwards.
    pub fn meet(&mut self, line: &Timeline<HistoryEntry, J>, note: &mut Note<HistoryEntry, J>)
        ensures same { self.new ≡ self.old }
        ensures was { IsPrefix note.old.list self.old.pen }
        ensures list { note.new.list ≡ self.old.pen }
        ensures most { note.old.most ≤ note.new.most }
    {
        line.meet(&mut self.pen, note);
    }

    /// The area again. What isn't flushed is lost.
    pub fn detach(self) -> V
        ensures { result ≡ self.wal.area }
    {
        self.wal.detach()
    }
}

/// Appends to the history the entry of a command, which the call names.
fn tell_command<J: OfStore, N: Names<HistoryEntry>>(
    line: &Timeline<HistoryEntry, J>,
    pen: &mut Pen<HistoryEntry, J>,
    _op: &Op,
    _record: &Record,
    _worker: u32,
    _seq: u64,
)
    requires named { N.next ≡ entry_at _record.now (act_of_op _op.now) _worker (Some _seq) ∷ [] }
    requires room { length pen.old < 2 ^ 50 }
    ensures { pen.new
        ≡ pen.old ++ entry_at _record.now (act_of_op _op.now) _worker (Some _seq) ∷ [] }
{
    line.append::<N>(pen);
}

/// Appends to the history the entry of a mark, which the call names.
fn tell_mark<J: OfStore, N: Names<HistoryEntry>>(
    line: &Timeline<HistoryEntry, J>,
    pen: &mut Pen<HistoryEntry, J>,
    _mark: StoreMark,
    _record: &Record,
    _worker: u32,
)
    requires named { N.next ≡ entry_at _record.now (Mark (marking_of _mark)) _worker None ∷ [] }
    requires room { length pen.old < 2 ^ 50 }
    ensures { pen.new
        ≡ pen.old ++ entry_at _record.now (Mark (marking_of _mark)) _worker None ∷ [] }
{
    line.append::<N>(pen);
}
