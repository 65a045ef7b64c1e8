//! An open store, shared by reference between workers.

ghost use Rattle.std.specs.Prelude.{◌≡◌, ◌+◌, ◌<◌, ◌≤◌, ◌⊎◌, true, None, IfOk, OnErr};
ghost use mathlib.Core.List.{IsPrefix};
ghost use Rattle.lsn_core.specs.declared.fault.StoreArea.TheVariants.{Sums};
ghost use Rattle.journal.specs.Journal.{IsEndOf};
ghost use Rattle.journal.specs.Lawful.{IsLawful};
ghost use Rattle.store_locks.specs.Copied.{HasRedoPoint, ListsPart, CopiesBlock};
ghost use Rattle.history.specs.fuzzy_copies.Taken.{IsBlockCopied};
ghost use Rattle.store_locks.specs.Seen.{StaysBy, with_fault};
ghost use Rattle.store_locks.specs.Locked.{RunsOn};
ghost use Rattle.shared_store.specs.Shared.{TakesFaults};

use crate::locking::{copy_with, list_with, write_with};
use crate::pass::{FaultShares, Pass};
use crate::shares::Undealt;
use history::partitions::partition_of;
use journal::HistoryEntry;
use lsn_core::{BlockId, ForkLen, Lsn, Settings, StoreFault};
use page_pool::Turn;
use std::alloc::Global;
use std::sync::ledger::Book;
use std::sync::{Mutex, Wait};
use store_ledgers::AreaFaults;
use store_locks::{Desk, HeldPart, OfCrew};
use timeline::{Note, Timeline};
use vault::{BoxedArea, Vault};
use wal_writer::Flushed;

/// An open store: its WAL with the history under one lock, and its pages in four partitions, each
/// under a lock of its own. A partition's lock is taken before the WAL's, and nobody holds two
/// partitions' locks.
#[derive(Drop)]
pub struct Store<J: OfCrew, V: Vault> {
    /// The word by which notes of the history are split and joined.
    pub line: Timeline<HistoryEntry, J>,
    /// The WAL, under its lock.
    pub desk: Mutex<Desk<J, BoxedArea<V>>>,
    /// The first partition, under its lock.
    pub part0: Mutex<HeldPart<J, BoxedArea<V>, 0>>,
    /// The second.
    pub part1: Mutex<HeldPart<J, BoxedArea<V>, 1>>,
    /// The third.
    pub part2: Mutex<HeldPart<J, BoxedArea<V>, 2>>,
    /// The fourth.
    pub part3: Mutex<HeldPart<J, BoxedArea<V>, 3>>,
    /// Its settings.
    pub settings: Settings,
    /// What is left of the workers' shares. Nobody locks it before the store is closed.
    pub rest: Mutex<Undealt<J>>,
    ghost settings_are: { settings ≡ J.settings },
}

impl<J: OfCrew, V: Vault> Store<J, V> {
    /// The settings.
    pub fn settings(&self) -> Settings
        ensures { result ≡ J.settings }
    {
        self.settings
    }

    /// The word by which notes of the history are split and joined.
    pub fn line(&self) -> &Timeline<HistoryEntry, J> {
        &self.line
    }

    /// A note of what the pass has seen.
    pub fn seen(&self, pass: &mut Pass<J>) -> Note<HistoryEntry, J>
        ensures list { result.list ≡ pass.old.list }
        ensures same { pass.new ≡ pass.old }
    {
        pass.own.seen(&self.line)
    }

    /// The pass sees what a note knows too: the longer of the two beginnings of the history.
    pub fn learn(&self, pass: &mut Pass<J>, note: Note<HistoryEntry, J>)
        requires grown { RunsOn J.found note.list }
        requires lawful { J.tells ≡ true → IsLawful J.settings.segment note.list }
        ensures one { (pass.new.list ≡ pass.old.list) ⊎ (pass.new.list ≡ note.list) }
        ensures that { IsPrefix note.list pass.new.list }
        ensures seen { StaysBy pass.old pass.new }
        ensures accepted { pass.new.accepted ≡ pass.old.accepted }
        ensures marks { pass.new.marks ≡ pass.old.marks }
        ensures faults { pass.new.faults ≡ pass.old.faults }
        ensures lawful { J.tells ≡ true → IsLawful J.settings.segment pass.new.list }
    {
        pass.own.learn(&self.line, note);
        pass.own.know();
    }

    /// Books a fault of the area of the summaries, which the pass was answered.
    pub fn failed(&self, pass: &mut Pass<J>, book: &mut Book<AreaFaults<J, 5>>)
        ensures pass { pass.new ≡ record pass.old { faults = with_fault Sums pass.old.faults } }
        ensures book { book.new.total ≡ book.old.total + 1 }
    {
        book.add(&mut pass.shares.sums, 1);
    }

    /// The pass sees the whole history, as it is then.
    pub fn look(&self, rt: &impl Wait, pass: &mut Pass<J>)
        ensures seen { StaysBy pass.old pass.new }
        ensures accepted { pass.new.accepted ≡ pass.old.accepted }
        ensures marks { pass.new.marks ≡ pass.old.marks }
        ensures faults { pass.new.faults ≡ pass.old.faults }
        ensures lawful { J.tells ≡ true → IsLawful J.settings.segment pass.new.list }
    {
        self.desk.lock(rt).look(&self.line, &mut pass.own);
    }

    /// Flushes the WAL up to where an entry ends that the pass has seen.
    pub fn flush_wal(
        &self,
        rt: &impl Wait,
        alloc: Global,
        pass: &mut Pass<J>,
        to: Lsn,
    ) -> Result<Flushed, StoreFault>
        requires { IsEndOf pass.old.list to.0 }
        ensures flushed { IfOk result (λ mark. to.0 ≤ mark.to.0) }
        ensures lawful { J.tells ≡ true → IsLawful J.settings.segment pass.new.list }
        ensures faults { TakesFaults pass.old pass.new result }
        ensures seen { StaysBy pass.old pass.new }
        ensures accepted { pass.new.accepted ≡ pass.old.accepted }
        ensures marks { pass.new.marks ≡ pass.old.marks }
    {
        self.desk
            .lock(rt)
            .flush_seen(alloc, &self.line, &mut pass.own, to)
    }

    /// Writes one page, creation or cut of a partition to its area, the WAL flushed first.
    pub fn write_page(
        &self,
        rt: &impl Wait,
        alloc: Global,
        pass: &mut Pass<J>,
        q: u32,
    ) -> Result<Turn, StoreFault>
        requires { q < 4 }
        ensures part { IfOk result (λ turn. turn.part ≡ q) }
        ensures lawful { J.tells ≡ true → IsLawful J.settings.segment pass.new.list }
        ensures faults { TakesFaults pass.old pass.new result }
        ensures seen { StaysBy pass.old pass.new }
        ensures accepted { pass.new.accepted ≡ pass.old.accepted }
        ensures marks { pass.new.marks ≡ pass.old.marks }
    {
        let Pass { own, shares } = pass;
        let (line, desk) = (&self.line, &self.desk);
        match q {
            0 => write_with(rt, alloc, line, desk, &self.part0, own, &mut shares.data0),
            1 => write_with(rt, alloc, line, desk, &self.part1, own, &mut shares.data1),
            2 => write_with(rt, alloc, line, desk, &self.part2, own, &mut shares.data2),
            _ => write_with(rt, alloc, line, desk, &self.part3, own, &mut shares.data3),
        }
    }

    /// Lists the forks of a partition with the numbers of their blocks, as of a redo point that the
    /// pass has seen: what an entry since then touches, cuts or creates may be listed or not. All
    /// that is dirty or pending in the partition is written first, unless that was done since the
    /// redo point.
    pub fn forks_of(
        &self,
        rt: &impl Wait,
        alloc: Global,
        pass: &mut Pass<J>,
        q: u32,
        from: Lsn,
    ) -> Result<Vec<ForkLen>, StoreFault>
        requires number { q < 4 }
        requires redo { HasRedoPoint pass.old.list from.0 }
        ensures list { J.tells ≡ true
            → IfOk result (λ list. ListsPart q pass.new.list from.0 list.items) }
        ensures lawful { J.tells ≡ true → IsLawful J.settings.segment pass.new.list }
        ensures faults { TakesFaults pass.old pass.new result }
        ensures seen { StaysBy pass.old pass.new }
        ensures accepted { pass.new.accepted ≡ pass.old.accepted }
        ensures marks { pass.new.marks ≡ pass.old.marks }
    {
        let Pass { own, shares } = pass;
        let FaultShares {
            data0,
            data1,
            data2,
            data3,
            ..
        } = shares;
        let (line, desk) = (&self.line, &self.desk);
        match q {
            0 => list_with(rt, alloc, line, desk, &self.part0, own, data0, from),
            1 => list_with(rt, alloc, line, desk, &self.part1, own, data1, from),
            2 => list_with(rt, alloc, line, desk, &self.part2, own, data2, from),
            _ => list_with(rt, alloc, line, desk, &self.part3, own, data3, from),
        }
    }

    /// Copies a block as of a redo point that the pass has seen: where an entry since then touches
    /// or cuts the block, it may be any. All that is dirty or pending in its partition is written
    /// first, unless that was done since the redo point. False where the area has no such block;
    /// `into` is then as before, and so it is after a fault.
    pub fn copy_block(
        &self,
        rt: &impl Wait,
        alloc: Global,
        pass: &mut Pass<J>,
        at: BlockId,
        from: Lsn,
        into: &mut [u8; 8192],
    ) -> Result<bool, StoreFault>
        requires redo { HasRedoPoint pass.old.list from.0 }
        ensures copied { J.tells ≡ true
            → IfOk result (CopiesBlock pass.new.list from.0 at into.old into.new) }
        ensures kept { OnErr result (into.new ≡ into.old) }
        ensures lawful { J.tells ≡ true → IsLawful J.settings.segment pass.new.list }
        ensures faults { TakesFaults pass.old pass.new result }
        ensures seen { StaysBy pass.old pass.new }
        ensures accepted { pass.new.accepted ≡ pass.old.accepted }
        ensures marks { pass.new.marks ≡ pass.old.marks }
    {
        match self.copy_page(rt, alloc, pass, &at, from) {
            Ok(Some(page)) => {
                *into = page;
                Ok(true)
            }
            Ok(None) => Ok(false),
            Err(fault) => Err(fault),
        }
    }

    /// The same: the page, where it is there.
    fn copy_page(
        &self,
        rt: &impl Wait,
        alloc: Global,
        pass: &mut Pass<J>,
        at: &BlockId,
        from: Lsn,
    ) -> Result<Option<[u8; 8192]>, StoreFault>
        requires redo { HasRedoPoint pass.old.list from.0 }
        ensures copied { J.tells ≡ true
            → IfOk result (IsBlockCopied pass.new.list from.0 at.now.fork at.now.block) }
        ensures lawful { J.tells ≡ true → IsLawful J.settings.segment pass.new.list }
        ensures faults { TakesFaults pass.old pass.new result }
        ensures seen { StaysBy pass.old pass.new }
        ensures accepted { pass.new.accepted ≡ pass.old.accepted }
        ensures marks { pass.new.marks ≡ pass.old.marks }
    {
        let Pass { own, shares } = pass;
        let FaultShares {
            data0,
            data1,
            data2,
            data3,
            ..
        } = shares;
        let (line, desk) = (&self.line, &self.desk);
        match partition_of(at.fork.rel) {
            0 => copy_with(rt, alloc, line, desk, &self.part0, own, data0, from, at),
            1 => copy_with(rt, alloc, line, desk, &self.part1, own, data1, from, at),
            2 => copy_with(rt, alloc, line, desk, &self.part2, own, data2, from, at),
            _ => copy_with(rt, alloc, line, desk, &self.part3, own, data3, from, at),
        }
    }
}
