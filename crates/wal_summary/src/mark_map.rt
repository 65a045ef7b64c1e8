//! What entries and summaries say of all forks, gathered in order of time.

ghost use Rattle.std.specs.Prelude.{◌≡◌, [], ◌∷◌, ◌++◌, List, None, Some, map, OnOk, IfOk};
ghost use Rattle.std.specs.List.Sorted.{IsStrictlySortedBy};
ghost use Rattle.std.specs.Ordering.{nat_cmp};
ghost use Rattle.history.specs.Whole.{entry_of};
ghost use Rattle.history.specs.fuzzy_copies.Summary.{table_of, both_summed, summed, summary_of};
ghost use Rattle.wal_summary.specs.Summary.{AreSorted, IsSummary, table_of_forks, table_of_summary};
ghost use Rattle.wal_summary.specs.Marks.{table_in, table_of_marks};
ghost use Rattle.wal_summary.specs.Inside.{block_table, table_of_ref, limit_table, rel_table, forks_of};

use crate::fork_marks::ForkMarks;
use crate::summary::{BlockNumbers, ForkSummaries, ForkSummary, Summary};
use history::{cuts_main, init_fork, main_fork};
use lsn_core::{BlockId, ForkId, Lsn, NoMemory, Rel};
use std::alloc::Global;
use std::collections::BTreeMap;
use wal_record::{BlockRef, Kind, Record};

/// What entries and summaries say of all forks, gathered in order of time: limits, and blocks that
/// no later limit takes off. After `NoMemory` it has only a part of what was added last.
#[derive(Drop)]
pub struct MarkMap {
    forks: BTreeMap<ForkId, ForkMarks>,
    alloc: Global,
}

impl MarkMap {
    /// Nothing is said.
    pub fn new(alloc: Global) -> MarkMap
        ensures { table_of_marks result ≡ summed [] }
    {
        MarkMap {
            forks: BTreeMap::new(alloc),
            alloc,
        }
    }

    /// Adds what a later entry says: its limits, and the blocks that it touches.
    pub fn add_record(&mut self, rec: &Record) -> Result<(), NoMemory>
        ensures { OnOk result (table_of_marks self.new
            ≡ both_summed (table_of_marks self.old) (table_of (entry_of rec.now))) }
    {
        match &rec.kind {
            Kind::Create(fork) => self.cut(fork, 0),
            Kind::Truncate(rel, count, flags) => {
                if cuts_main(*flags) {
                    return self.cut(&main_fork(*rel), *count);
                }
                Ok(())
            }
            Kind::Images(blocks) => self.touch_all(blocks.as_slice()),
            Kind::Generic(blocks) => self.touch_all(blocks.as_slice()),
            Kind::Shutdown(_) => Ok(()),
            Kind::Online(_) => Ok(()),
            Kind::RedoMark(_) => Ok(()),
            Kind::NoOp => Ok(()),
            Kind::BackupEnd(_) => Ok(()),
            Kind::Commit(_, rels) => self.cut_rels(rels.as_slice()),
        }
    }

    /// Adds what later entries say, in turn: those that start at `start` or past it, and below
    /// `end`.
    pub fn add_records(&mut self, recs: &[Record], start: Lsn, end: Lsn) -> Result<(), NoMemory>
        ensures { OnOk result (table_of_marks self.new
            ≡ both_summed (table_of_marks self.old)
            (summary_of (map entry_of recs.now) start.0 end.0)) }
    {
        for rec in recs {
            self.add_between(rec, start, end)?;
        }
        Ok(())
    }

    /// Adds what the summary of later entries says.
    pub fn add_summary(&mut self, sum: &Summary) -> Result<(), NoMemory>
        requires { AreSorted sum.now.forks }
        ensures { OnOk result (table_of_marks self.new
            ≡ both_summed (table_of_marks self.old) (table_of_summary sum.now)) }
    {
        self.add_forks(sum.forks.as_slice())
    }

    /// The summary of all that was added.
    pub fn summaries(&self, alloc: Global) -> Result<ForkSummaries, NoMemory>
        ensures { IfOk result (λ forks. IsSummary (table_of_marks self.now) forks) }
    {
        summaries_in(alloc, &self.forks)
    }

    /// Adds what an entry says, where it starts at `start` or past it, and below `end`.
    fn add_between(&mut self, rec: &Record, start: Lsn, end: Lsn) -> Result<(), NoMemory>
        ensures { OnOk result (table_of_marks self.new
            ≡ both_summed (table_of_marks self.old)
            (summary_of (entry_of rec.now ∷ []) start.0 end.0)) }
    {
        if start.0 <= rec.start.0 && rec.start.0 < end.0 {
            self.add_record(rec)?;
        }
        Ok(())
    }

    /// Adds what the forks of a summary say.
    fn add_forks(&mut self, forks: &[ForkSummary]) -> Result<(), NoMemory>
        requires { AreSorted forks.now }
        ensures { OnOk result (table_of_marks self.new
            ≡ both_summed (table_of_marks self.old) (table_of_forks forks.now)) }
    {
        for fork in forks {
            self.add_fork(fork)?;
        }
        Ok(())
    }

    /// Adds what a summary says of one fork.
    fn add_fork(&mut self, sum: &ForkSummary) -> Result<(), NoMemory>
        ensures { OnOk result (table_of_marks self.new
            ≡ both_summed (table_of_marks self.old) (table_of_forks (sum.now ∷ []))) }
    {
        self.cut_maybe(&sum.fork, sum.limit)?;
        self.touch_blocks(&sum.fork, sum.blocks.as_slice())
    }

    /// Adds limits of 0 for all forks of relations, in turn.
    fn cut_rels(&mut self, rels: &[Rel]) -> Result<(), NoMemory>
        ensures { OnOk result (table_of_marks self.new
            ≡ both_summed (table_of_marks self.old) (summed (map rel_table rels.now))) }
    {
        for rel in rels {
            self.cut_rel(*rel)?;
        }
        Ok(())
    }

    /// Adds limits of 0 for all forks of a relation.
    fn cut_rel(&mut self, rel: Rel) -> Result<(), NoMemory>
        ensures { OnOk result (table_of_marks self.new
            ≡ both_summed (table_of_marks self.old) (rel_table rel)) }
    {
        self.cut(&main_fork(rel), 0)?;
        self.cut(&init_fork(rel), 0)
    }

    /// Adds a limit, where there is one.
    fn cut_maybe(&mut self, fork: &ForkId, limit: Option<u32>) -> Result<(), NoMemory>
        ensures { OnOk result (table_of_marks self.new
            ≡ both_summed (table_of_marks self.old) (limit_table fork.now limit)) }
    {
        match limit {
            Some(count) => self.cut(fork, count),
            None => Ok(()),
        }
    }

    /// Adds a limit.
    fn cut(&mut self, fork: &ForkId, count: u32) -> Result<(), NoMemory>
        ensures { OnOk result (table_of_marks self.new
            ≡ both_summed (table_of_marks self.old) (limit_table fork.now (Some count))) }
    {
        cut_in(&mut self.forks, fork, count, self.alloc)
    }

    /// Adds the blocks of an entry's references, in turn.
    fn touch_all(&mut self, blocks: &[BlockRef]) -> Result<(), NoMemory>
        ensures { OnOk result (table_of_marks self.new
            ≡ both_summed (table_of_marks self.old) (summed (map table_of_ref blocks.now))) }
    {
        for block in blocks {
            self.touch(&block.at)?;
        }
        Ok(())
    }

    /// Adds blocks of a fork, in turn.
    fn touch_blocks(&mut self, fork: &ForkId, blocks: &[u32]) -> Result<(), NoMemory>
        ensures { OnOk result (table_of_marks self.new
            ≡ both_summed (table_of_marks self.old)
            (summed (map (block_table fork.now) blocks.now))) }
    {
        for block in blocks {
            self.touch_block(fork, *block)?;
        }
        Ok(())
    }

    /// Adds a block of a fork.
    fn touch_block(&mut self, fork: &ForkId, block: u32) -> Result<(), NoMemory>
        ensures { OnOk result (table_of_marks self.new
            ≡ both_summed (table_of_marks self.old) (block_table fork.now block)) }
    {
        let at = BlockId { fork: *fork, block };
        self.touch(&at)
    }

    /// Adds a block.
    fn touch(&mut self, at: &BlockId) -> Result<(), NoMemory>
        ensures { OnOk result (table_of_marks self.new
            ≡ both_summed (table_of_marks self.old) (block_table at.now.fork at.now.block)) }
    {
        touch_in(&mut self.forks, at, self.alloc)
    }
}

/// Adds a block to the marks of forks.
fn touch_in(
    forks: &mut BTreeMap<ForkId, ForkMarks>,
    at: &BlockId,
    alloc: Global,
) -> Result<(), NoMemory>
    ensures { OnOk result (table_in forks.new
        ≡ both_summed (table_in forks.old) (block_table at.now.fork at.now.block)) }
{
    if let Some(marks) = forks.get_mut(&at.fork) {
        return marks.touch(at.block);
    }
    let mut marks = ForkMarks::new(alloc);
    marks.touch(at.block)?;
    forks.insert(at.fork, marks)?;
    Ok(())
}

/// Adds a limit to the marks of forks.
fn cut_in(
    forks: &mut BTreeMap<ForkId, ForkMarks>,
    fork: &ForkId,
    count: u32,
    alloc: Global,
) -> Result<(), NoMemory>
    ensures { OnOk result (table_in forks.new
        ≡ both_summed (table_in forks.old) (limit_table fork.now (Some count))) }
{
    if let Some(marks) = forks.get_mut(fork) {
        return marks.cut(count);
    }
    let mut marks = ForkMarks::new(alloc);
    marks.cut(count)?;
    forks.insert(*fork, marks)?;
    Ok(())
}

/// The summary of the marks of forks.
fn summaries_in(
    alloc: Global,
    forks: &BTreeMap<ForkId, ForkMarks>,
) -> Result<ForkSummaries, NoMemory>
    ensures { IfOk result (λ sums. IsSummary (table_in forks.now) sums) }
{
    let mut sums = Vec::new(alloc);
    for (fork, marks) in forks.iter() {
        push_fork(alloc, *fork, marks, &mut sums)?;
    }
    Ok(ForkSummaries::from_vec(sums))
}

/// Pushes what is marked of a fork, where there is a limit or a block.
fn push_fork(
    alloc: Global,
    fork: ForkId,
    marks: &ForkMarks,
    sums: &mut Vec<ForkSummary>,
) -> Result<(), NoMemory>
    ensures pushed { OnOk result
        (sums.new.items ≡ sums.old.items ++ forks_of ((fork, marks.now) ∷ [])) }
    ensures sorted { OnOk result (IsStrictlySortedBy nat_cmp marks.now.blocks.keys) }
{
    let blocks: Vec<u32> = marks.blocks.iter().copied().collect(alloc)?;
    if marks.limit.is_some() || !blocks.is_empty() {
        sums.push(ForkSummary {
            fork,
            limit: marks.limit,
            blocks: BlockNumbers::from_vec(blocks),
        })?;
    }
    Ok(())
}
