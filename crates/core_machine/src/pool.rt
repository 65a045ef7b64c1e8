//! A partition of the machine.

ghost use Rattle.std.specs.Prelude.{◌≡◌, ◌<◌, ℕ, [], IfOk, OnOk, Some, None, length};
ghost use Rattle.history.specs.declared.op.Op.TheVariants as op;
ghost use Rattle.history.specs.Apply.{main_fork, init_fork};
ghost use Rattle.store_core.specs.State.{empty_part};
ghost use Rattle.store_core.specs.Parts.{work_done, wrote_work, cleaned};
ghost use Rattle.core_machine.specs.Inside.{part_in, part_behind, part_without, HasTurned, HasGoodEdits};

use history::{Item, Op, PageMap, init_fork, main_fork};
use lsn_core::{BlockId, ForkId, Lsn, NoMemory, Rel};
use std::alloc::Global;
use store_core::judge::do_items;
use store_core::stores::{copied, cut_fork, make_fork, put_page, remove_fork};
use store_core::touching::{left, touch_items};
use store_core::{Work, Wrote};

/// A partition: its pages in frames, its disk, and what of the frames isn't written to it yet.
#[derive(Drop)]
pub(crate) struct Pool {
    pub frames: PageMap,
    pub disk: PageMap,
    pub dirty: Vec<BlockId>,
    pub works: Vec<Work>,
    pub point: Lsn,
}

impl Pool {
    /// A partition without pages, behind an entry that ends there.
    pub fn new(alloc: Global, point: Lsn) -> Pool
        ensures { part_in result ≡ empty_part point.0 }
    {
        Pool {
            frames: PageMap::new(alloc),
            disk: PageMap::new(alloc),
            dirty: Vec::new(alloc),
            works: Vec::new(alloc),
            point,
        }
    }

    /// All is written to the disk, as of a redo point.
    pub fn clean(&mut self, alloc: Global, redo: Lsn) -> Result<(), NoMemory>
        ensures { OnOk result (part_in self.new ≡ cleaned redo.0 (part_in self.old)) }
    {
        self.disk = copied(alloc, &self.frames)?;
        self.dirty.clear();
        self.works.clear();
        if self.point < redo {
            self.point = redo;
        }
        Ok(())
    }

    /// What is first to be written is written to the disk: None where nothing is dirty or pending.
    pub fn write_next(&mut self) -> Result<Option<Wrote>, NoMemory>
        ensures { IfOk result (HasTurned (part_in self.old) (part_in self.new)) }
    {
        if !self.works.is_empty() {
            return self.write_work();
        }
        if !self.dirty.is_empty() {
            return self.write_page();
        }
        Ok(None)
    }

    /// The first work is done.
    fn write_work(&mut self) -> Result<Option<Wrote>, NoMemory>
        requires { 0 < length self.old.works.items }
        ensures { IfOk result (HasTurned (part_in self.old) (part_in self.new)) }
    {
        let work = self.works.remove(0);
        do_work(&mut self.disk, &work)?;
        Ok(Some(wrote_work(&work)))
    }

    /// The page of the first dirty block is written.
    fn write_page(&mut self) -> Result<Option<Wrote>, NoMemory>
        requires none { self.old.works.items ≡ [] }
        requires some { 0 < length self.old.dirty.items }
        ensures { IfOk result (HasTurned (part_in self.old) (part_in self.new)) }
    {
        let at = self.dirty.remove(0);
        put_page(&mut self.disk, at, &self.frames.page_at(&at))?;
        Ok(Some(Wrote::Page(at)))
    }

    /// A command is done in the frames, by an entry that ends at a place.
    pub fn enter(&mut self, alloc: Global, command: &Op, end: Lsn) -> Result<(), NoMemory>
        requires { HasGoodEdits command.now }
        ensures { OnOk result
            (part_in self.new ≡ part_behind end.0 command.now (part_in self.old)) }
    {
        match command {
            Op::Create(fork) => self.enter_creation(fork),
            Op::Truncate(rel, count) => self.enter_cut(alloc, *rel, *count),
            Op::Change(items) => self.enter_items(items.as_slice(), end),
            Op::Drop(rel) => self.enter_drop(alloc, *rel),
        }
    }

    /// A creation is done.
    fn enter_creation(&mut self, fork: &ForkId) -> Result<(), NoMemory>
        ensures { (end : ℕ) → OnOk result
            (part_in self.new ≡ part_behind end (op.Create fork.now) (part_in self.old)) }
    {
        make_fork(&mut self.frames, *fork)?;
        self.works.push(Work::Make(*fork))?;
        Ok(())
    }

    /// A truncation is done.
    fn enter_cut(&mut self, alloc: Global, rel: Rel, count: u32) -> Result<(), NoMemory>
        ensures { (end : ℕ) → OnOk result
            (part_in self.new ≡ part_behind end (op.Truncate rel count) (part_in self.old)) }
    {
        let fork = main_fork(rel);
        cut_fork(&mut self.frames, fork, count)?;
        self.dirty = left(alloc, &self.dirty, &fork, count)?;
        self.works.push(Work::Cut(fork, count))?;
        Ok(())
    }

    /// A drop is done.
    fn enter_drop(&mut self, alloc: Global, rel: Rel) -> Result<(), NoMemory>
        ensures { (end : ℕ) → OnOk result
            (part_in self.new ≡ part_behind end (op.Drop rel) (part_in self.old)) }
    {
        self.drop_fork(alloc, main_fork(rel))?;
        self.drop_fork(alloc, init_fork(rel))?;
        Ok(())
    }

    /// A fork is taken away, where it is there.
    fn drop_fork(&mut self, alloc: Global, fork: ForkId) -> Result<(), NoMemory>
        ensures { OnOk result (part_in self.new ≡ part_without fork (part_in self.old)) }
    {
        if self.frames.blocks(&fork).is_some() {
            self.works.push(Work::Remove(fork))?;
        }
        remove_fork(&mut self.frames, fork)?;
        self.dirty = left(alloc, &self.dirty, &fork, 0)?;
        Ok(())
    }

    /// Changes of blocks are done.
    fn enter_items(&mut self, items: &[Item], end: Lsn) -> Result<(), NoMemory>
        requires { HasGoodEdits (op.Change items.now) }
        ensures { OnOk result
            (part_in self.new ≡ part_behind end.0 (op.Change items.now) (part_in self.old)) }
    {
        do_items(&mut self.frames, items, end.0)?;
        touch_items(&mut self.dirty, items)?;
        Ok(())
    }
}

/// A work is done on a disk.
fn do_work(disk: &mut PageMap, work: &Work) -> Result<(), NoMemory>
    ensures { OnOk result (disk.new ≡ work_done work.now disk.old) }
{
    match work {
        Work::Make(fork) => make_fork(disk, *fork),
        Work::Cut(fork, count) => cut_fork(disk, *fork, *count),
        Work::Remove(fork) => remove_fork(disk, *fork),
    }
}

/// What was written where a work was done.
fn wrote_work(work: &Work) -> Wrote
    ensures { result ≡ wrote_work work.now }
{
    match work {
        Work::Make(fork) => Wrote::Made(*fork),
        Work::Cut(fork, count) => Wrote::Cut(*fork, *count),
        Work::Remove(fork) => Wrote::Removed(*fork),
    }
}
