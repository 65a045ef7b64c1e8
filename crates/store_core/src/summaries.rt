//! What published summaries say together.

ghost use Rattle.std.specs.Prelude.{◌≡◌, ◌==◌, map};
ghost use Rattle.std.specs.List.{list_any};
ghost use Rattle.std.specs.Option.{option_map};
ghost use Rattle.wal_record.specs.Tips.{is_redo_mark};
ghost use Rattle.history.specs.fuzzy_copies.Summary.{least, is_at_most};
ghost use Rattle.wal_summary.specs.Summary.{limit_at, lists_at};
ghost use Rattle.store_core.specs.Increments.{overlaps, table_between};
ghost use Rattle.store_core.specs.InMemory.{published_in, next_redo_in, limit_past, listed_past};

use history::is_same_fork;
use lsn_core::{ForkId, Lsn};
use wal_record::{Kind, Record};
use wal_summary::{ForkSummary, Summary};

/// The first redo point past a place.
pub fn next_redo(records: &[Record], place: Lsn) -> Option<Lsn>
    ensures { option_map (λ l. l.0) result ≡ next_redo_in place.0 records.now }
{
    for record in records {
        if is_redo(&record.kind) && place.0 < record.start.0 {
            return Some(record.start);
        }
    }
    None
}

/// Whether an entry is the start of a checkpoint.
fn is_redo(kind: &Kind) -> bool
    ensures { result ≡ is_redo_mark kind.now }
{
    matches!(kind, Kind::RedoMark(_))
}

/// The limit that summaries of a range say of a fork together.
pub(crate) fn limit_between(sums: &[Summary], from: Lsn, to: Lsn, fork: &ForkId) -> Option<u32>
    ensures { result ≡ (table_between (map published_in sums.now) from.0 to.0).limit fork.now }
{
    let mut limit = None;
    for sum in sums {
        limit = limit_past(limit, sum, from, to, fork);
    }
    limit
}

/// Whether summaries of a range list a block together.
pub(crate) fn is_listed_between(
    sums: &[Summary],
    from: Lsn,
    to: Lsn,
    fork: &ForkId,
    block: u32,
) -> bool
    ensures { result
        ≡ (table_between (map published_in sums.now) from.0 to.0).listed fork.now block }
{
    let mut listed = false;
    for sum in sums {
        listed = listed_past(listed, sum, from, to, fork, block);
    }
    listed
}

/// Whether a summary's range has a place of another range.
fn overlaps(sum: &Summary, from: Lsn, to: Lsn) -> bool
    ensures { result ≡ overlaps from.0 to.0 (published_in sum.now) }
{
    from.0 < sum.end.0 && sum.start.0 < to.0
}

/// A fork's limit with what one more summary says, where its range overlaps another.
fn limit_past(limit: Option<u32>, sum: &Summary, from: Lsn, to: Lsn, fork: &ForkId) -> Option<u32>
    ensures { result ≡ limit_past limit from.0 to.0 fork.now (published_in sum.now) }
{
    if overlaps(sum, from, to) {
        least(limit, limit_at(sum.forks.as_slice(), fork))
    } else {
        limit
    }
}

/// Whether a block is listed, with what one more summary says.
fn listed_past(listed: bool, sum: &Summary, from: Lsn, to: Lsn, fork: &ForkId, block: u32) -> bool
    ensures { result ≡ listed_past listed from.0 to.0 fork.now block (published_in sum.now) }
{
    if !overlaps(sum, from, to) {
        return listed;
    }
    let forks = sum.forks.as_slice();
    let kept = listed && !is_at_most(block, limit_at(forks, fork));
    kept || lists_at(forks, fork, block)
}

/// The less of two limits; where there is one alone, that one.
fn least(one: Option<u32>, other: Option<u32>) -> Option<u32>
    ensures { result ≡ least one other }
{
    match (one, other) {
        (None, _) => other,
        (Some(_), None) => one,
        (Some(a), Some(b)) => Some(a.min(b)),
    }
}

/// Whether there is a limit, and the block is at it or past it.
fn is_at_most(block: u32, limit: Option<u32>) -> bool
    ensures { result ≡ is_at_most block limit }
{
    match limit {
        None => false,
        Some(limit) => limit <= block,
    }
}

/// The limit that a summary has of a fork.
fn limit_at(forks: &[ForkSummary], fork: &ForkId) -> Option<u32>
    ensures { result ≡ limit_at fork.now forks.now }
{
    for sum in forks {
        if is_same_fork(fork, &sum.fork) {
            return sum.limit;
        }
    }
    None
}

/// Whether a summary lists a block of a fork.
fn lists_at(forks: &[ForkSummary], fork: &ForkId, block: u32) -> bool
    ensures { result ≡ lists_at fork.now block forks.now }
{
    for sum in forks {
        if is_same_fork(fork, &sum.fork) {
            return has(sum.blocks.as_slice(), block);
        }
    }
    false
}

/// Whether numbers have one.
fn has(numbers: &[u32], number: u32) -> bool
    ensures { result ≡ list_any (λ n. number == n) numbers.now }
{
    numbers.iter().any(|other| number == *other)
}
