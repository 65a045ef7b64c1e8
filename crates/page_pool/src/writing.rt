//! Writing what a partition has dirty or pending.

ghost use Rattle.std.specs.Prelude.{◌≡◌, ◌<◌, max, [], None, Some, IfOk, OnOk, OnErr, IfSome};
ghost use Rattle.std.specs.FinMap.{len};
ghost use Rattle.lsn_core.specs.Causes.{HasCause};
ghost use Rattle.page_frames.specs.Marks.{all_dirty_ends};
ghost use Rattle.page_pool.specs.declared.work.Work.TheVariants as work;
ghost use Rattle.page_pool.specs.declared.turn.Wrote.TheVariants as wrote;
ghost use Rattle.page_pool.specs.Steps.{HasWritten, IsClean};
ghost use Rattle.page_pool.specs.Calls.{SameUnwritten, SameDisk, SameBounds, ChangesForks};
ghost use Rattle.page_pool.specs.Calls.{IsOneWritten, IsAllWritten, MayWriteNext, MayWriteAll};
ghost use Rattle.page_pool.specs.Stops.{KeepsWindow, WritesFlushed, MayAlways, MayDoWorks, MayWritePages, MayWritePage, with_flushed};
ghost use Rattle.page_pool.specs.Writing.{IsFirstWork, IsFirstPage, IsNextPage, HasCleaned};

use crate::partition::Partition;
use crate::turn::{Cleaned, Turn, Wrote};
use crate::work::Work;
use lsn_core::{AreaFault, BlockId, ForkId, Lsn, Pages};
use vault::Vault;
use wal_writer::Flushed;

impl<V: Vault, const Q: u32> Partition<V, Q> {
    /// Writes what comes first: pending works in their order, then the first dirty page. A stop at
    /// any moment leaves what no entry up to the mark changes, where it did so before.
    pub fn write_one(&mut self, mark: &Flushed) -> Result<Turn, AreaFault>
        requires { MayWriteNext self.old mark.now.to.0 }
        ensures part { IfOk result (λ turn. turn.part ≡ Q) }
        ensures written { IfOk result (λ turn. IsOneWritten turn.wrote self.old self.new) }
        ensures kept { OnErr result (SameUnwritten self.old self.new) }
        ensures marked { self.new.flushed ≡ max self.old.flushed mark.now.to.0 }
        ensures moments { KeepsWindow mark.now.to.0 self.old self.new }
        ensures area { ChangesForks self.old self.new }
        ensures cause { HasCause self.old.faults self.new.faults result }
    {
        self.take_mark(mark);
        let wrote = self.write_next()?;
        Ok(Turn { part: Q, wrote })
    }

    /// Writes all that is dirty or pending, syncs the area, and raises the point to that redo
    /// point. After a fault some of it may be written, and the point stands.
    pub fn clean_all(&mut self, redo: Lsn, mark: &Flushed) -> Result<Cleaned, AreaFault>
        requires { MayWriteAll self.old mark.now.to.0 }
        ensures part { IfOk result (λ cleaned. cleaned.part ≡ Q) }
        ensures redo { IfOk result (λ cleaned. cleaned.redo ≡ redo) }
        ensures written { OnOk result (IsAllWritten redo.0 self.old self.new) }
        ensures kept { OnErr result (HasWritten self.old self.new) }
        ensures marked { self.new.flushed ≡ max self.old.flushed mark.now.to.0 }
        ensures moments { KeepsWindow mark.now.to.0 self.old self.new }
        ensures area { ChangesForks self.old self.new }
        ensures cause { HasCause self.old.faults self.new.faults result }
    {
        self.take_mark(mark);
        self.write_all(redo)?;
        Ok(Cleaned { part: Q, redo })
    }

    /// Takes a mark: up to there the WAL is flushed.
    pub(crate) fn take_mark(&mut self, mark: &Flushed)
        ensures marked { self.new ≡ with_flushed (max self.old.flushed mark.now.to.0) self.old }
        ensures some { 0 < self.old.relseg }
    {
        self.flushed = Lsn(self.flushed.0.max(mark.to().0));
    }

    /// Writes all that is dirty or pending, syncs the area, and raises the point to that redo
    /// point.
    fn write_all(&mut self, redo: Lsn) -> Result<(), AreaFault>
        ensures written { OnOk result (IsAllWritten redo.0 self.old self.new) }
        ensures kept { OnErr result (HasWritten self.old self.new) }
        ensures moments { WritesFlushed (MayWriteAll self.old) self.old self.new }
        ensures area { ChangesForks self.old self.new }
        ensures cause { HasCause self.old.faults self.new.faults result }
    {
        self.finish_works()?;
        self.write_pages()?;
        self.settle(redo)?;
        Ok(())
    }

    /// Writes what comes first, where there is anything.
    fn write_next(&mut self) -> Result<Option<Wrote>, AreaFault>
        ensures written { IfOk result (λ wrote. IsOneWritten wrote self.old self.new) }
        ensures kept { OnErr result (SameUnwritten self.old self.new) }
        ensures moments { WritesFlushed (MayWriteNext self.old) self.old self.new }
        ensures area { ChangesForks self.old self.new }
        ensures cause { HasCause self.old.faults self.new.faults result }
    {
        if let Some(work) = self.next_work() {
            return Ok(Some(self.do_work(work)?));
        }
        let Some(at) = self.next_page() else {
            self.trim();
            return Ok(None);
        };
        self.write_page(&at)?;
        Ok(Some(Wrote::Wrote(at)))
    }

    /// Does all pending works, in their order.
    pub(crate) fn finish_works(&mut self) -> Result<(), AreaFault>
        ensures none { OnOk result (self.new.works ≡ []) }
        ensures alike { self.new.framed ≡ self.old.framed }
        ensures marks { self.new.marks ≡ self.old.marks }
        ensures frames { self.new.frames ≡ self.old.frames }
        ensures kept { HasWritten self.old self.new }
        ensures moments { WritesFlushed (MayDoWorks self.old) self.old self.new }
        ensures area { ChangesForks self.old self.new }
        ensures cause { HasCause self.old.faults self.new.faults result }
    {
        while let Some(work) = self.next_work() {
            self.do_work(work)?;
        }
        Ok(())
    }

    /// Writes all dirty pages, the first one first, where no work is pending.
    fn write_pages(&mut self) -> Result<(), AreaFault>
        requires { self.old.works ≡ [] }
        ensures clean { OnOk result (IsClean self.new) }
        ensures frames { self.new.frames ≡ self.old.frames }
        ensures kept { HasWritten self.old self.new }
        ensures moments { WritesFlushed (MayWritePages self.old) self.old self.new }
        ensures area { ChangesForks self.old self.new }
        ensures cause { HasCause self.old.faults self.new.faults result }
    {
        while let Some(at) = self.next_page() {
            self.write_page(&at)?;
        }
        Ok(())
    }

    /// The first pending work. None exactly where there is none.
    fn next_work(&self) -> Option<Work>
        ensures first { IfSome result (λ work. IsFirstWork work self.now) }
        ensures none { result ≡ None → self.now.works ≡ [] }
    {
        Some(self.works.first()?.work)
    }

    /// The first dirty block. None exactly where there is none.
    fn next_page(&self) -> Option<BlockId>
        ensures first { IfSome result (λ at. IsFirstPage at self.now) }
        ensures none { result ≡ None → all_dirty_ends self.now.marks ≡ [] }
    {
        Some(self.frames.first_dirty()?.at)
    }

    /// Drops from the frames' queue what isn't dirty any more.
    fn trim(&mut self)
        ensures same { SameUnwritten self.old self.new }
        ensures area { SameDisk self.old self.new }
    {
        self.frames.trim();
    }

    /// Does the first pending work.
    fn do_work(&mut self, work: Work) -> Result<Wrote, AreaFault>
        requires { IsFirstWork work self.old }
        ensures written { IfOk result (λ wrote. IsOneWritten (Some wrote) self.old self.new) }
        ensures alike { self.new.framed ≡ self.old.framed }
        ensures kept { OnErr result (SameUnwritten self.old self.new) }
        ensures moments { WritesFlushed (MayWriteNext self.old) self.old self.new }
        ensures area { ChangesForks self.old self.new }
        ensures cause { HasCause self.old.faults self.new.faults result }
    {
        match work {
            Work::Make(fork) => {
                self.make_fork(&fork)?;
                Ok(Wrote::Made(fork))
            }
            Work::Cut(fork, count) => {
                self.cut_fork(&fork, count)?;
                Ok(Wrote::Cut(fork, count))
            }
            Work::Remove(fork) => {
                self.remove_fork(&fork)?;
                Ok(Wrote::Removed(fork))
            }
        }
    }

    /// Makes a fork on the disk, which is the first pending work.
    fn make_fork(&mut self, fork: &ForkId) -> Result<(), AreaFault>
        requires { IsFirstWork (work.Make fork.now) self.old }
        ensures made { OnOk result (IsOneWritten (Some (wrote.Made fork.now)) self.old self.new) }
        ensures alike { self.new.framed ≡ self.old.framed }
        ensures kept { OnErr result (SameUnwritten self.old self.new) }
        ensures moments { WritesFlushed (MayWriteNext self.old) self.old self.new }
        ensures area { ChangesForks self.old self.new }
        ensures cause { HasCause self.old.faults self.new.faults result }
    {
        self.disk.make(*fork)?;
        self.works.remove(0);
        Ok(())
    }

    /// Cuts a fork of the disk, which is the first pending work.
    fn cut_fork(&mut self, fork: &ForkId, count: u32) -> Result<(), AreaFault>
        requires { IsFirstWork (work.Cut fork.now count) self.old }
        ensures cut { OnOk result
            (IsOneWritten (Some (wrote.Cut fork.now count)) self.old self.new) }
        ensures alike { self.new.framed ≡ self.old.framed }
        ensures kept { OnErr result (SameUnwritten self.old self.new) }
        ensures moments { WritesFlushed (MayWriteNext self.old) self.old self.new }
        ensures area { ChangesForks self.old self.new }
        ensures cause { HasCause self.old.faults self.new.faults result }
    {
        self.frames.know();
        self.disk.cut(*fork, count)?;
        self.works.remove(0);
        Ok(())
    }

    /// Removes a fork from the disk, which is the first pending work.
    fn remove_fork(&mut self, fork: &ForkId) -> Result<(), AreaFault>
        requires { IsFirstWork (work.Remove fork.now) self.old }
        ensures gone { OnOk result
            (IsOneWritten (Some (wrote.Removed fork.now)) self.old self.new) }
        ensures alike { self.new.framed ≡ self.old.framed }
        ensures kept { OnErr result (SameUnwritten self.old self.new) }
        ensures moments { WritesFlushed (MayWriteNext self.old) self.old self.new }
        ensures area { ChangesForks self.old self.new }
        ensures cause { HasCause self.old.faults self.new.faults result }
    {
        self.frames.know();
        self.disk.remove(*fork)?;
        self.works.remove(0);
        Ok(())
    }

    /// Writes a dirty page, where no work is pending.
    pub(crate) fn write_page(&mut self, at: &BlockId) -> Result<(), AreaFault>
        requires { IsNextPage at.now self.old }
        ensures written { OnOk result (HasCleaned at.now self.old self.new) }
        ensures fewer { OnOk result
            (len self.new.framed.queue < len self.old.framed.queue) }
        ensures bounds { SameBounds self.old self.new }
        ensures kept { OnErr result (SameUnwritten self.old self.new) }
        ensures moments { WritesFlushed (MayWritePage self.old at.now) self.old self.new }
        ensures area { ChangesForks self.old self.new }
        ensures cause { HasCause self.old.faults self.new.faults result }
    {
        if at.block == u32::MAX {
            // a fork of so many pages is held by no memory
            return Err(AreaFault::NoMemory);
        }
        self.frames.know();
        let Some(page) = self.frames.page(at) else {
            unreachable!()
        };
        self.disk.write_block(*at, page)?;
        self.frames.clean(at);
        Ok(())
    }

    /// Syncs the area of a clean partition, and raises its point to the redo point.
    fn settle(&mut self, redo: Lsn) -> Result<(), AreaFault>
        requires { IsClean self.old }
        ensures settled { OnOk result (IsAllWritten redo.0 self.old self.new) }
        ensures kept { OnErr result (SameUnwritten self.old self.new) }
        ensures moments { WritesFlushed MayAlways self.old self.new }
        ensures area { ChangesForks self.old self.new }
        ensures cause { HasCause self.old.faults self.new.faults result }
    {
        self.disk.sync()?;
        self.point = Lsn(self.point.0.max(redo.0));
        Ok(())
    }
}
