//! What a worker knows of an open store's history, and what it has counted under the WAL's lock.

ghost use Rattle.std.specs.Prelude.{◌≡◌, ◌+◌, ◌<◌, ◌≤◌, ◌⊎◌, true, length};
ghost use mathlib.Core.List.{IsPrefix};
ghost use Rattle.journal.specs.Lawful.{IsLawful};
ghost use Rattle.store_locks.specs.Seen.{accepted_by, marks_by};
ghost use Rattle.store_locks.specs.Locked.{RunsOn, HasMoreMarks};

use crate::naming::OfCrew;
use journal::{HistoryEntry, Journal};
use std::marker::Model;
use std::sync::ledger::{Book, Share};
use store_ledgers::{AreaFaults, Made};
use timeline::{Note, Timeline};
use vault::Vault;

/// What a worker knows and has counted: its number, how many of its commands were accepted, a note
/// of what it has seen of the history, and its shares of the workers' entries and of the faults of
/// the WAL's area. Those of its entries that aren't commands are marks. What it has seen is lawful
/// at any time, where areas tell their files. Contracts see a `Standing` of `specs/Locked.antt`.
#[derive(Drop)]
pub struct Knowing<J: OfCrew> {
    /// The worker's number.
    pub worker: u32,
    /// How many of its commands were accepted.
    pub accepted: u64,
    /// What it has seen of the history.
    pub note: Note<HistoryEntry, J>,
    /// Its share of the workers' entries.
    pub made: Share<Made<J>>,
    /// Its share of the faults of the WAL's area.
    pub faults: Share<AreaFaults<J, 4>>,
}

impl<J: OfCrew> Model for Knowing<J> {
    ghost use Rattle.std.specs.Prelude.{◌≡◌, ◌-◌, ◌<◌, ◌≤◌, true, length};
    ghost use Rattle.journal.specs.Lawful.{IsLawful};
    ghost use Rattle.store_locks.specs.Seen.{accepted_by, marks_by};
    ghost use Rattle.store_locks.specs.Locked.{RunsOn, Standing};

    ghost Value = { Standing };

    ghost view = { λ p. record {
      worker = p.worker;
      accepted = p.accepted;
      marks = p.made.amount - p.accepted;
      list = p.note.list;
      wal = p.faults.amount;
    } };

    ghost invariant = { λ p. (p.worker < J.workers)
        × (p.accepted ≤ length (accepted_by p.worker p.note.list))
        × (p.made.amount - p.accepted ≤ length (marks_by p.worker p.note.list))
        × (p.accepted ≤ p.made.amount) × (p.made.parts ≡ 1) × (p.faults.parts ≡ 1)
        × RunsOn J.found p.note.list
        × (J.tells ≡ true → IsLawful J.settings.segment p.note.list) };
}

impl<J: OfCrew> Knowing<J> {
    /// A worker who has seen what the note knows, and of whose commands none was accepted yet.
    pub fn new(
        worker: u32,
        note: Note<HistoryEntry, J>,
        made: Share<Made<J>>,
        faults: Share<AreaFaults<J, 4>>,
    ) -> Knowing<J>
        requires worker { worker < J.workers }
        requires grown { RunsOn J.found note.list }
        requires lawful { J.tells ≡ true → IsLawful J.settings.segment note.list }
        requires made { (made.parts ≡ 1) × (made.amount ≡ 0) }
        requires faults { (faults.parts ≡ 1) × (faults.amount ≡ 0) }
        ensures { result ≡ record {
          worker = worker;
          accepted = 0;
          marks = 0;
          list = note.list;
          wal = 0;
        } }
    {
        Knowing {
            worker,
            accepted: 0,
            note,
            made,
            faults,
        }
    }

    /// The worker's number, below the number of workers.
    pub fn worker(&self) -> u32
        ensures number { result ≡ self.now.worker }
        ensures below { result < J.workers }
    {
        self.worker
    }

    /// How many of its commands were accepted.
    pub fn accepted(&self) -> u64
        ensures { result ≡ self.now.accepted }
    {
        self.accepted
    }

    /// What is known of it at any time.
    pub fn know(&self)
        ensures worker { self.now.worker < J.workers }
        ensures accepted { self.now.accepted ≤ length (accepted_by self.now.worker self.now.list) }
        ensures marks { self.now.marks ≤ length (marks_by self.now.worker self.now.list) }
        ensures grown { RunsOn J.found self.now.list }
        ensures lawful { J.tells ≡ true → IsLawful J.settings.segment self.now.list }
    {
        let _ = &self.note;
    }

    /// A note of what it has seen.
    pub fn seen(&mut self, line: &Timeline<HistoryEntry, J>) -> Note<HistoryEntry, J>
        ensures list { result.list ≡ self.old.list }
        ensures same { self.new ≡ self.old }
    {
        line.split(&mut self.note)
    }

    /// It sees what a note knows too: the longer of the two beginnings of the history.
    pub fn learn(&mut self, line: &Timeline<HistoryEntry, J>, note: Note<HistoryEntry, J>)
        requires grown { RunsOn J.found note.list }
        requires lawful { J.tells ≡ true → IsLawful J.settings.segment note.list }
        ensures one { (self.new.list ≡ self.old.list) ⊎ (self.new.list ≡ note.list) }
        ensures this { IsPrefix self.old.list self.new.list }
        ensures that { IsPrefix note.list self.new.list }
        ensures worker { self.new.worker ≡ self.old.worker }
        ensures accepted { self.new.accepted ≡ self.old.accepted }
        ensures marks { self.new.marks ≡ self.old.marks }
        ensures faults { self.new.wal ≡ self.old.wal }
    {
        line.join(&mut self.note, note);
    }

    /// It sees the whole history, where a mark of its own stands that it hasn't seen, and counts
    /// that.
    pub(crate) fn mark<W: Vault>(
        &mut self,
        line: &Timeline<HistoryEntry, J>,
        journal: &mut Journal<J, W>,
        made: &mut Book<Made<J>>,
    )
        requires segment { journal.old.wal.tail.mib ≡ J.settings.segment }
        requires grown { RunsOn J.found journal.old.pen }
        requires more { HasMoreMarks self.old journal.old.pen }
        ensures whole { self.new.list ≡ journal.old.pen }
        ensures worker { self.new.worker ≡ self.old.worker }
        ensures accepted { self.new.accepted ≡ self.old.accepted }
        ensures marks { self.new.marks ≡ self.old.marks + 1 }
        ensures faults { self.new.wal ≡ self.old.wal }
        ensures same { journal.new ≡ journal.old }
        ensures booked { made.new.total ≡ made.old.total + 1 }
    {
        journal.know();
        journal.meet(line, &mut self.note);
        made.add(&mut self.made, 1);
    }
}
