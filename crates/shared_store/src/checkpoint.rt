//! Checkpoints of an open store, and the ends of backups.

ghost use Rattle.std.specs.Prelude.{◌≡◌, ◌+◌, ◌<◌, ◌≤◌, true, length, IfOk, IfErr, OnErr};
ghost use Rattle.history.specs.Entry.{RedoMark, Online, BackupEnd};
ghost use Rattle.journal.specs.Lawful.{IsLawful};
ghost use Rattle.page_pool.specs.Facts.{history_end};
ghost use Rattle.store_locks.specs.Seen.{StaysBy};
ghost use Rattle.store_locks.specs.Inside.{AreCleaned, IsCleaned};
ghost use Rattle.store_locks.specs.Locked.{Follows, GoesOn, AppendsMark, FlushesMark};
ghost use Rattle.shared_store.specs.Shared.{TakesFaults, TakesMarkFault, HasCheckpointIn, HasEnded, own_of, SameData};
ghost use Rattle.shared_store.specs.Shared.{MayHaveStarted, MayFindNoRoom, MayHaveEnded, MayFindNoRoomFor};
ghost use Rattle.store_locks.specs.Calls.{IsPlaced};

use crate::locking::clean_with;
use crate::pass::{FaultShares, Pass};
use crate::store::Store;
use lsn_core::{Lsn, MarkFault, Place, StoreFault};
use page_pool::Cleaned;
use std::alloc::Global;
use std::sync::Wait;
use store_locks::{OfCrew, Redo, mark_fault};
use vault::Vault;
use wal_writer::Flushed;

impl<J: OfCrew, V: Vault> Store<J, V> {
    /// Appends the start of a checkpoint behind all that the pass has seen.
    fn start(&self, rt: &impl Wait, alloc: Global, pass: &mut Pass<J>) -> Result<Place, MarkFault>
        ensures marks { AppendsMark J.settings.segment (RedoMark 1) (own_of pass.old)
            (own_of pass.new) result }
        ensures was { GoesOn (own_of pass.old) (own_of pass.new) }
        ensures lawful { J.tells ≡ true → IsLawful J.settings.segment pass.new.list }
        ensures faults { pass.new.faults ≡ pass.old.faults }
    {
        self.desk.lock(rt).start(alloc, &self.line, &mut pass.own)
    }

    /// Writes all that a partition has dirty or pending, the WAL flushed first, and raises its
    /// point to the redo point, past which the WAL is flushed too.
    fn clean_part(
        &self,
        rt: &impl Wait,
        alloc: Global,
        pass: &mut Pass<J>,
        q: u32,
        redo: Lsn,
    ) -> Result<Cleaned, StoreFault>
        requires number { q < 4 }
        requires late { redo.0 ≤ history_end pass.old.list }
        ensures cleaned { IfOk result (IsCleaned q redo) }
        ensures was { Follows (own_of pass.old) (own_of pass.new) }
        ensures lawful { J.tells ≡ true → IsLawful J.settings.segment pass.new.list }
        ensures faults { TakesFaults pass.old pass.new result }
    {
        let Pass { own, shares } = pass;
        let FaultShares {
            data0,
            data1,
            data2,
            data3,
            ..
        } = shares;
        let (line, desk) = (&self.line, &self.desk);
        match q {
            0 => clean_with(rt, alloc, line, desk, &self.part0, own, data0, redo),
            1 => clean_with(rt, alloc, line, desk, &self.part1, own, data1, redo),
            2 => clean_with(rt, alloc, line, desk, &self.part2, own, data2, redo),
            _ => clean_with(rt, alloc, line, desk, &self.part3, own, data3, redo),
        }
    }

    /// The end of the checkpoint of a redo point, behind which all partitions were written.
    fn finish(
        &self,
        rt: &impl Wait,
        alloc: Global,
        pass: &mut Pass<J>,
        redo: Lsn,
        done: &[Cleaned; 4],
    ) -> Result<(Place, Flushed), MarkFault>
        requires { AreCleaned redo done.now }
        ensures marks { FlushesMark J.settings.segment (Online redo.0) (own_of pass.old)
            (own_of pass.new) result }
        ensures was { GoesOn (own_of pass.old) (own_of pass.new) }
        ensures lawful { J.tells ≡ true → IsLawful J.settings.segment pass.new.list }
        ensures faults { SameData pass.old.faults pass.new.faults }
    {
        self.desk
            .lock(rt)
            .finish(alloc, &self.line, &mut pass.own, redo, done)
    }

    /// The end of the backup that started at a place.
    fn end_mark(
        &self,
        rt: &impl Wait,
        alloc: Global,
        pass: &mut Pass<J>,
        start: Lsn,
    ) -> Result<(Place, Flushed), MarkFault>
        ensures marks { FlushesMark J.settings.segment (BackupEnd start.0) (own_of pass.old)
            (own_of pass.new) result }
        ensures placed { IfOk result (λ x. IsPlaced J.settings.segment pass.new.list x.0.end.0) }
        ensures was { GoesOn (own_of pass.old) (own_of pass.new) }
        ensures lawful { J.tells ≡ true → IsLawful J.settings.segment pass.new.list }
        ensures faults { SameData pass.old.faults pass.new.faults }
    {
        self.desk
            .lock(rt)
            .end_backup(alloc, &self.line, &mut pass.own, start)
    }

    /// Writes all that is dirty or pending in each partition, one after the other.
    fn clean_all(
        &self,
        rt: &impl Wait,
        alloc: Global,
        pass: &mut Pass<J>,
        redo: Lsn,
    ) -> Result<[Cleaned; 4], StoreFault>
        requires { redo.0 ≤ history_end pass.old.list }
        ensures cleaned { IfOk result (AreCleaned redo) }
        ensures was { Follows (own_of pass.old) (own_of pass.new) }
        ensures lawful { J.tells ≡ true → IsLawful J.settings.segment pass.new.list }
        ensures faults { TakesFaults pass.old pass.new result }
    {
        let first = self.clean_part(rt, alloc, pass, 0, redo)?;
        let second = self.clean_part(rt, alloc, pass, 1, redo)?;
        let third = self.clean_part(rt, alloc, pass, 2, redo)?;
        let fourth = self.clean_part(rt, alloc, pass, 3, redo)?;
        Ok([first, second, third, fourth])
    }

    /// A checkpoint: appends its start, flushes the WAL past it, writes all that is dirty or
    /// pending in each partition, appends its end, and flushes the WAL. Its entries stand behind
    /// all that the pass had seen; other workers' may stand between them.
    #[tactic(auto, using(crate::proofs::Checkpoints::checkpoint_in))]
    pub fn checkpoint(
        &self,
        rt: &impl Wait,
        alloc: Global,
        pass: &mut Pass<J>,
    ) -> Result<(Redo, Flushed), MarkFault>
        ensures done { IfOk result (λ x.
            HasCheckpointIn pass.old.worker pass.old.list pass.new.list x.0 x.1) }
        ensures left { OnErr result
            (MayHaveStarted pass.old.worker pass.old.list pass.new.list) }
        ensures full { IfErr result (MayFindNoRoom J.settings.segment pass.old.worker
            (length pass.old.list) pass.new.list) }
        ensures faults { TakesMarkFault pass.old pass.new result }
        ensures lawful { J.tells ≡ true → IsLawful J.settings.segment pass.new.list }
        ensures seen { StaysBy pass.old pass.new }
        ensures accepted { pass.new.accepted ≡ pass.old.accepted }
        ensures marks { pass.new.marks ≤ pass.old.marks + 2 }
    {
        let start = match self.start(rt, alloc, pass) {
            Ok(start) => start,
            Err(fault) => return Err(fault),
        };
        let done = match self.clean_all(rt, alloc, pass, start.start) {
            Ok(done) => done,
            Err(fault) => return Err(mark_fault(fault)),
        };
        match self.finish(rt, alloc, pass, start.start, &done) {
            Ok((end, flushed)) => Ok((
                Redo {
                    redo: start.start,
                    at: end.start,
                },
                flushed,
            )),
            Err(fault) => Err(fault),
        }
    }

    /// Ends the backup that started at a place: appends the entry that says so, and flushes the WAL
    /// up to there. The answer is where that entry ends, behind all that the pass had seen, and how
    /// far the WAL is flushed.
    #[tactic(auto, using(crate::proofs::Checkpoints::ended_in))]
    pub fn end_backup(
        &self,
        rt: &impl Wait,
        alloc: Global,
        pass: &mut Pass<J>,
        start: Lsn,
    ) -> Result<(Lsn, Flushed), MarkFault>
        ensures done { IfOk result (λ x.
            HasEnded pass.old.worker start.0 pass.old.list pass.new.list x.0 x.1) }
        ensures placed { IfOk result (λ x. IsPlaced J.settings.segment pass.new.list x.0.0) }
        ensures left { OnErr result
            (MayHaveEnded pass.old.worker start.0 pass.old.list pass.new.list) }
        ensures full { IfErr result
            (MayFindNoRoomFor (BackupEnd start.0) J.settings.segment pass.new.list) }
        ensures faults { TakesMarkFault pass.old pass.new result }
        ensures lawful { J.tells ≡ true → IsLawful J.settings.segment pass.new.list }
        ensures seen { StaysBy pass.old pass.new }
        ensures accepted { pass.new.accepted ≡ pass.old.accepted }
        ensures marks { pass.new.marks ≤ pass.old.marks + 1 }
    {
        match self.end_mark(rt, alloc, pass, start) {
            Ok((place, flushed)) => Ok((place.end, flushed)),
            Err(fault) => Err(fault),
        }
    }
}
