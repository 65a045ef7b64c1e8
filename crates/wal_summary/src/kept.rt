//! What kept summaries cover.

ghost use Rattle.std.specs.Prelude.{◌≡◌, ◌<◌, ◌≤◌, true, false, fold, length, map, nat_le, nat_lt, IfOk};
ghost use Rattle.std.specs.List.Sorted.{IsPartitionPoint};
ghost use Rattle.history.specs.fuzzy_copies.Summary.{summed};
ghost use Rattle.wal_summary.specs.Summary.{IsSummary, table_of_summary};
ghost use Rattle.wal_summary.specs.Kept.{overlapping, AreInOrder, CoverAnswers};
ghost use Rattle.wal_summary.specs.Inside.{past};
ghost use Rattle.wal_summary.specs.declared.kept.CoverFault.TheVariants as cover_fault;

use crate::mark_map::MarkMap;
use crate::summary::{ForkSummaries, Summary};
use lsn_core::{Lsn, NoMemory};
use std::alloc::Global;

/// Why kept summaries don't cover a range.
#[derive(Clone, Copy, Debug, PartialEq, Eq)]
pub enum CoverFault {
    /// No kept summary has this place, the least such of the range.
    Gap(Lsn),
    /// Memory ran out.
    NoMemory,
}

impl From<NoMemory> for CoverFault {
    ghost from_gives = { λ _ e. e ≡ cover_fault.NoMemory };

    fn from(_: NoMemory) -> Self {
        CoverFault::NoMemory
    }
}

/// The merge of the kept summaries whose ranges overlap the range from `from` to below `to`, where
/// they cover it: from the start of the first one to the end of the last one, made when the last
/// one was (profile). `Gap` exactly where a place of the range isn't covered, with the least such.
pub fn covering(alloc: Global, kept: &[Summary], from: Lsn, to: Lsn) -> Result<Summary, CoverFault>
    requires range { from.0 < to.0 }
    requires order { AreInOrder 0 kept.now }
    ensures { CoverAnswers kept.now from.0 to.0 result }
{
    let place = reached(kept, from);
    if place.0 < to.0 {
        return Err(CoverFault::Gap(place));
    }
    let parts = overlapping(kept, from, to);
    let forks = merged(alloc, parts)?;
    let first = &parts[0];
    let last = &parts[parts.len() - 1];
    Ok(Summary {
        start: first.start,
        end: last.end,
        made: last.made,
        forks,
    })
}

/// The least place from this one on that no kept summary has.
fn reached(kept: &[Summary], from: Lsn) -> Lsn
    ensures { result.0 ≡ fold past from.0 kept.now }
{
    Lsn(kept.iter().fold(from.0, |place, sum| past(place, sum)))
}

/// Behind a summary that has the place, else the place.
fn past(place: u64, sum: &Summary) -> u64
    ensures { result ≡ past place sum.now }
{
    if sum.start.0 <= place && place < sum.end.0 {
        sum.end.0
    } else {
        place
    }
}

/// The kept summaries whose ranges overlap a range.
fn overlapping(kept: &[Summary], from: Lsn, to: Lsn) -> &[Summary]
    requires range { from.0 < to.0 }
    requires order { AreInOrder 0 kept.now }
    ensures { result.now ≡ overlapping from.0 to.0 kept.now }
{
    let ended = ended_by(kept, from);
    let begun = begun_below(kept, to);
    &kept[ended..begun]
}

/// How many of the kept summaries end at a place or before it.
fn ended_by(kept: &[Summary], place: Lsn) -> usize
    requires { AreInOrder 0 kept.now }
    ensures within { result ≤ length kept.now }
    ensures point { IsPartitionPoint (λ s. nat_le s.end.0 place.0 ≡ true)
        (λ s. nat_le s.end.0 place.0 ≡ false) kept.now result }
{
    kept.partition_point(|sum| sum.end.0 <= place.0)
}

/// How many of the kept summaries start below a place.
fn begun_below(kept: &[Summary], place: Lsn) -> usize
    requires { AreInOrder 0 kept.now }
    ensures within { result ≤ length kept.now }
    ensures point { IsPartitionPoint (λ s. nat_lt s.start.0 place.0 ≡ true)
        (λ s. nat_lt s.start.0 place.0 ≡ false) kept.now result }
{
    kept.partition_point(|sum| sum.start.0 < place.0)
}

/// The merge of several summaries, in turn.
fn merged(alloc: Global, sums: &[Summary]) -> Result<ForkSummaries, NoMemory>
    requires { AreInOrder 0 sums.now }
    ensures { IfOk result (λ forks. IsSummary (summed (map table_of_summary sums.now)) forks) }
{
    let mut marks = MarkMap::new(alloc);
    for sum in sums {
        marks.add_summary(sum)?;
    }
    marks.summaries(alloc)
}
