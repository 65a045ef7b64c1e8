//! Summaries of records, and of two ranges that adjoin.

ghost use Rattle.std.specs.Prelude.{◌≡◌, map, IfOk};
ghost use Rattle.history.specs.Whole.{entry_of};
ghost use Rattle.history.specs.fuzzy_copies.Summary.{both_summed, summary_of};
ghost use Rattle.wal_summary.specs.Summary.{AreSorted, IsSummary, table_of_summary};

use crate::mark_map::MarkMap;
use crate::summary::Summary;
use lsn_core::{Lsn, NoMemory};
use std::alloc::Global;
use wal_record::Record;

/// The summary of the records of a list that start at `start` or past it, and below `end`. For each
/// fork it has the least limit that one sets: a creation 0, a truncation of the main fork its
/// length. A block is listed where a record touches it and no later one sets a limit at or below
/// it (profile; pg_walsummary).
pub fn summarise(
    alloc: Global,
    recs: &[Record],
    start: Lsn,
    end: Lsn,
    made: u64,
) -> Result<Summary, NoMemory>
    ensures head { IfOk result
        (λ sum. (sum.start ≡ start) × (sum.end ≡ end) × (sum.made ≡ made)) }
    ensures forks { IfOk result
        (λ sum. IsSummary (summary_of (map entry_of recs.now) start.0 end.0) sum.forks) }
{
    let mut marks = MarkMap::new(alloc);
    marks.add_records(recs, start, end)?;
    let forks = marks.summaries(alloc)?;
    Ok(Summary {
        start,
        end,
        made,
        forks,
    })
}

/// The summary of two ranges of which one begins where the other ends: the first one's blocks but
/// for those at or past the next one's limit, the next one's blocks, and the least limit (profile).
/// It was made when the next one was.
pub fn merge(alloc: Global, first: &Summary, next: &Summary) -> Result<Summary, NoMemory>
    requires meet { first.now.end ≡ next.now.start }
    requires first { AreSorted first.now.forks }
    requires next { AreSorted next.now.forks }
    ensures head { IfOk result (λ sum. (sum.start ≡ first.now.start)
        × (sum.end ≡ next.now.end) × (sum.made ≡ next.now.made)) }
    ensures forks { IfOk result (λ sum. IsSummary
        (both_summed (table_of_summary first.now) (table_of_summary next.now)) sum.forks) }
{
    let mut marks = MarkMap::new(alloc);
    marks.add_summary(first)?;
    marks.add_summary(next)?;
    let forks = marks.summaries(alloc)?;
    Ok(Summary {
        start: first.start,
        end: next.end,
        made: next.made,
        forks,
    })
}
