//! Steps of the machine in memory, in turn.

ghost use Rattle.std.specs.Prelude.{◌≡◌, IfOk};
ghost use Rattle.std.specs.List.{All};
ghost use Rattle.history.specs.Laws.{HasGoodPage, HaveGoodPages};
ghost use Rattle.store_core.specs.State.{State};
ghost use Rattle.store_core.specs.Laws.{PutsPages};
ghost use Rattle.store_core.specs.Steps.{step_of};
ghost use Rattle.core_machine.specs.Shown.{Shows, ShowsRun, IsReached, HasStepped};

use crate::machine::Machine;
use crate::over::FinishedBackup;
use history::{Edit, Item, Op};
use lsn_core::NoMemory;
use std::alloc::Global;
use store_core::{Reply, Step};
use wal_record::Record;

impl Machine {
    /// The WAL's entries, in order.
    pub fn records(&self) -> &[Record]
        ensures { result.now ≡ self.now.records.items }
    {
        self.records.as_slice()
    }

    /// The finished backups, in order.
    pub fn finished(&self) -> &[FinishedBackup]
        ensures { result.now ≡ self.now.finished.items }
    {
        self.finished.as_slice()
    }

    /// Takes steps in turn, and answers each.
    pub fn run_steps(&mut self, alloc: Global, steps: &[Step]) -> Result<Vec<Reply>, NoMemory>
        ensures { (s : State) → IsReached s → Shows self.old s
            → IfOk result (λ replies. ShowsRun self.new s steps.now replies.items) }
    {
        let mut replies = Vec::new(alloc);
        for at in 0..steps.len() {
            let asked = &steps[at];
            know_pages(asked);
            let reply = self.step(alloc, asked)?;
            replies.push(reply)?;
        }
        Ok(replies)
    }

    /// Takes a step, and answers it.
    fn step(&mut self, alloc: Global, step: &Step) -> Result<Reply, NoMemory>
        ensures { (s : State) → IsReached s → Shows self.old s
            → IfOk result (HasStepped self.new (step_of s step.now)) }
    {
        match step {
            Step::Insert(worker, command) => self.insert(alloc, *worker, command),
            Step::WritePage(part) => {
                if *part >= 4 {
                    return Ok(Reply::Idle);
                }
                self.write_page(*part)
            }
            Step::Clean(part) => {
                if *part >= 4 {
                    return Ok(Reply::Idle);
                }
                self.clean(alloc, *part)
            }
            Step::Redo(worker) => self.start(alloc, *worker),
            Step::Begin(worker, what) => self.complete(alloc, *worker, *what),
            Step::Publish => self.publish(alloc),
            Step::ListForks(worker, part) => {
                if *part >= 4 {
                    return Ok(Reply::Idle);
                }
                self.list(alloc, *worker, *part)
            }
            Step::CopyBlock(worker, at) => self.copy(alloc, *worker, at),
            Step::End(worker) => self.end(alloc, *worker),
        }
    }
}

/// Shows that the pages which a step puts have good headers, as their type has it.
fn know_pages(step: &Step)
    ensures { PutsPages step.now }
{
    if let Step::Insert(_, Op::Change(items)) = step {
        know_items(items.as_slice());
    }
}

/// The same of items.
fn know_items(items: &[Item])
    ensures { HaveGoodPages items.now }
{
    for item in items {
        know_edit(&item.edit);
    }
}

/// The same of the edit of an item.
fn know_edit(edit: &Edit)
    ensures { HasGoodPage edit.now }
{
    if let Edit::Put(page) = edit {
        let _ = page.bytes();
    }
}
