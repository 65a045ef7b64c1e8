//! Commands, judged and done on the machine in memory.

ghost use Rattle.std.specs.Prelude.{◌≡◌, ◌<◌, ◌+◌, ◌==◌, length, None, Some, IfOk, if◌then◌else◌};
ghost use Rattle.history.specs.Pages.{page_count};
ghost use Rattle.store_core.specs.declared.reply.Refusal.TheVariants.{StoreFull};
ghost use Rattle.store_core.specs.State.{State};
ghost use Rattle.store_core.specs.Refusals.{part_of_items, part_of_op, frames_for, page_total, judged_op, judged_total, judged};
ghost use Rattle.store_core.specs.Steps.{inserted};
ghost use Rattle.core_machine.specs.Inside.{HasGoodEdits, IsWeighed};
ghost use Rattle.core_machine.specs.Shown.{Shows, IsReached, HasStepped};

use crate::machine::Machine;
use history::partitions::partition_of;
use history::{Item, Op, PageMap};
use lsn_core::{Lsn, NoMemory};
use std::alloc::Global;
use store_core::judge::{do_items, judge};
use store_core::kinds::op_kind;
use store_core::stores::copied;
use store_core::{Receipt, Refusal, Reply};
use wal_record::Kind;

/// The most pages of a store (profile).
const MOST_PAGES: u64 = 65_536;

impl Machine {
    /// A command is judged, and done in the frames of its partition, with its entry in the WAL.
    pub(crate) fn insert(
        &mut self,
        alloc: Global,
        worker: u32,
        command: &Op,
    ) -> Result<Reply, NoMemory>
        ensures { (s : State) → IsReached s → Shows self.old s → IfOk result
            (HasStepped self.new (inserted s worker command.now (judged s command.now))) }
    {
        let entries = self.entries();
        let part = part_of(command);
        let redo = self.redo_point();
        let weighed = weigh(
            alloc,
            &self.parts[part as usize].frames,
            entries,
            command,
            redo,
        )?;
        let kind = match weighed {
            Err(refusal) => return Ok(Reply::Refused(refusal)),
            Ok(kind) => kind,
        };
        if self.is_full(alloc, part, command)? {
            return Ok(Reply::Refused(Refusal::StoreFull(entries)));
        }
        let place = match self.append(alloc, kind)? {
            None => return Ok(Reply::Refused(Refusal::WalFull(entries))),
            Some(place) => place,
        };
        self.parts[part as usize].enter(alloc, command, place.end)?;
        let seq = self.crew.commands(worker);
        self.crew.count(worker)?;
        Ok(Reply::Accepted(Receipt {
            number: entries,
            seq,
            place,
        }))
    }

    /// Whether the store would have too many pages behind a command that its partition takes.
    fn is_full(&self, alloc: Global, part: u32, command: &Op) -> Result<bool, NoMemory>
        requires below { part < 4 }
        requires edits { HasGoodEdits command.now }
        ensures { (s : State) → Shows self.now s → part ≡ part_of_op command.now
            → judged_op (length s.history) (frames_for s command.now) command.now ≡ None
            → IfOk result (λ full. judged_total s command.now
            ≡ (if full then Some (StoreFull (length s.history)) else None)) }
    {
        match command {
            Op::Create(_) => Ok(false),
            Op::Truncate(_, _) => Ok(false),
            Op::Drop(_) => Ok(false),
            Op::Change(items) => {
                let mut pages = copied(alloc, &self.parts[part as usize].frames)?;
                do_items(&mut pages, items.as_slice(), 0)?;
                let total = self.total(part, &pages)?;
                Ok(total > MOST_PAGES)
            }
        }
    }

    /// How many pages there are in frames, where one partition has these.
    fn total(&self, part: u32, pages: &PageMap) -> Result<u64, NoMemory>
        ensures { (s : State) → Shows self.now s
            → IfOk result (λ n. n ≡ page_total s part pages.now) }
    {
        let first = self.count(0, part, pages)?;
        let second = self.count(1, part, pages)?;
        let third = self.count(2, part, pages)?;
        let fourth = self.count(3, part, pages)?;
        sum(first, second, third, fourth)
    }

    /// How many pages a partition has in frames, where one has these.
    fn count(&self, at: u32, part: u32, pages: &PageMap) -> Result<u64, NoMemory>
        requires { at < 4 }
        ensures { (s : State) → Shows self.now s → IfOk result
            (λ n. n ≡ page_count (if at == part then pages.now else (s.parts at).frames)) }
    {
        if at == part {
            return pages.page_count();
        }
        self.parts[at as usize].frames.page_count()
    }
}

/// The kind of entry that a command is written as, or its first refusal by the pages of its
/// partition, behind so many entries and the latest redo point.
fn weigh(
    alloc: Global,
    frames: &PageMap,
    entries: u64,
    command: &Op,
    redo: Lsn,
) -> Result<Result<Kind, Refusal>, NoMemory>
    ensures { IfOk result (IsWeighed entries redo.0 frames.now command.now) }
{
    match judge(alloc, frames, entries, command)? {
        Some(refusal) => Ok(Err(refusal)),
        None => Ok(Ok(op_kind(alloc, frames, command, redo)?)),
    }
}

/// Four numbers together.
fn sum(first: u64, second: u64, third: u64, fourth: u64) -> Result<u64, NoMemory>
    ensures { IfOk result (λ n. n ≡ first + (second + (third + (fourth + 0)))) }
{
    let right = third.checked_add(fourth).ok_or(NoMemory)?;
    let more = second.checked_add(right).ok_or(NoMemory)?;
    first.checked_add(more).ok_or(NoMemory)
}

/// The number of a command's partition.
fn part_of(command: &Op) -> u32
    ensures number { result ≡ part_of_op command.now }
    ensures below { result < 4 }
{
    match command {
        Op::Create(fork) => partition_of(fork.rel),
        Op::Truncate(rel, _) => partition_of(*rel),
        Op::Drop(rel) => partition_of(*rel),
        Op::Change(items) => part_of_items(items.as_slice()),
    }
}

/// The number of the partition of items.
fn part_of_items(items: &[Item]) -> u32
    ensures number { result ≡ part_of_items items.now }
    ensures below { result < 4 }
{
    match items {
        [] => 0,
        [first, ..] => partition_of(first.at.fork.rel),
    }
}
