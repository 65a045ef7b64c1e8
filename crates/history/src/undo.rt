//! What undoes puts of pages into a store in memory.

ghost use Rattle.std.specs.Prelude.{◌≡◌, ◌<◌, ℕ, List, slice_set, OnOk};
ghost use Rattle.std.specs.FinMap.{remove};
ghost use Rattle.lsn_core.specs.Sizes.{most_blocks};
ghost use Rattle.lsn_core.specs.Blocks.{page_put};
ghost use Rattle.history.specs.Pages.{store_in};
ghost use Rattle.history.specs.Undo.{with_set, undone_step, undone_steps};

use crate::page_map::{PageMap, length_in, page_at, recounted};
use lsn_core::{BlockId, ForkId, NoMemory};
use std::collections::BTreeMap;

/// What undoes a put of a page: a fork that was made, a fork's length, a block's page.
#[derive(Drop)]
pub(crate) enum Step {
    Fork(ForkId),
    Length(ForkId, usize),
    Page(BlockId, [u8; 8192]),
}

impl PageMap {
    /// Puts a page at a block, and notes what undoes it.
    pub(crate) fn put_noting(
        &mut self,
        at: &BlockId,
        page: &[u8; 8192],
        done: &mut Vec<Step>,
    ) -> Result<(), NoMemory>
        requires { at.now.block < most_blocks }
        ensures put { OnOk result (self.new ≡ page_put at.now page.now self.old) }
        ensures back { undone_steps done.new.items self.new ≡ undone_steps done.old.items self.old }
    {
        let step = self.step_of(at);
        done.push(step)?;
        if let Err(fault) = self.put(at, page) {
            done.pop();
            return Err(fault);
        }
        Ok(())
    }

    /// Undoes puts of pages, the last one first.
    pub(crate) fn undo_steps(&mut self, mut done: Vec<Step>)
        ensures { self.new ≡ undone_steps done.items self.old }
    {
        while let Some(last) = done.pop() {
            self.undo_step(&last);
        }
    }

    /// Undoes a put of a page.
    fn undo_step(&mut self, step: &Step)
        ensures { self.new ≡ undone_step step.now self.old }
    {
        match step {
            Step::Fork(fork) => self.unmake(fork),
            Step::Length(fork, count) => self.cut(fork, *count),
            Step::Page(at, page) => set_in(&mut self.forks, at, page),
        }
    }

    /// Takes a fork away.
    pub(crate) fn unmake(&mut self, fork: &ForkId)
        ensures { self.new ≡ remove self.old fork.now }
    {
        let before = length_in(&self.forks, fork);
        unmake_in(&mut self.forks, fork);
        self.total = recounted(self.total, before, length_in(&self.forks, fork));
    }

    /// What undoes a page that is put at a block.
    fn step_of(&self, at: &BlockId) -> Step
        ensures { (page : List ℕ) → undone_step result (page_put at.now page self.now) ≡ self.now }
    {
        match self.forks.get(&at.fork) {
            Some(pages) => match page_at(pages, at.block) {
                Some(page) => Step::Page(*at, *page),
                None => Step::Length(at.fork, pages.len()),
            },
            None => Step::Fork(at.fork),
        }
    }
}

/// Takes a fork of a map away.
fn unmake_in(forks: &mut BTreeMap<ForkId, Vec<[u8; 8192]>>, fork: &ForkId)
    ensures { store_in forks.new ≡ remove (store_in forks.old) fork.now }
{
    forks.remove(fork);
}

/// Puts a page at a block of a map that is there.
fn set_in(forks: &mut BTreeMap<ForkId, Vec<[u8; 8192]>>, at: &BlockId, page: &[u8; 8192])
    ensures { store_in forks.new ≡ with_set (store_in forks.old) at.now page.now }
{
    if let Some(pages) = forks.get_mut(&at.fork) {
        set_page(pages, at.block, page);
    }
}

/// Puts a page at a block that is there.
fn set_page(pages: &mut Vec<[u8; 8192]>, block: u32, page: &[u8; 8192])
    ensures { pages.new.items ≡ slice_set pages.old.items block page.now }
{
    let at = block as usize;
    if at < pages.len() {
        pages[at] = *page;
    }
}
