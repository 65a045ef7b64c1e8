//! The next range of a WAL that is to be summarised.

ghost use Rattle.std.specs.Prelude.{◌≡◌, true, ◌<◌, ◌^◌, ◌&&◌, ◌⊎◌, nat_lt, map, IfOk, OnOk, IfSome};
ghost use Rattle.std.specs.Option.{option_map};
ghost use Rattle.history.specs.Whole.{says, entry_of};
ghost use Rattle.history.specs.Written.{is_redo};
ghost use Rattle.history.specs.fuzzy_copies.Summary.{both_summed, summary_of};
ghost use Rattle.wal_summary.specs.Marks.{table_of_marks};
ghost use Rattle.summary_file.specs.File.{IsWritable};
ghost use Rattle.shared_summaries.specs.summary_publish.Entries.{next_redo};
ghost use Rattle.history.specs.fuzzy_copies.Orderly.{IsOrderly};
ghost use Rattle.store_locks.specs.Records.{IsPlaceOf};
ghost use Rattle.shared_summaries.specs.summary_publish.Published.{CanFollow, LooksOn, ReadTakes};
ghost use Rattle.shared_summaries.specs.summary_publish.Inside.{CanStart, NextAnswer, HasCount, HaveCounts, place_or, last_end};

use crate::summary_publish::feed::records_from;
use lsn_core::{Lsn, NoMemory, StoreFault};
use shared_store::{Pass, Store};
use std::alloc::Global;
use std::sync::Wait;
use store_locks::OfCrew;
use vault::Vault;
use wal_record::{Kind, Record};
use wal_summary::{MarkMap, Summary};

/// How many records are in memory at a time.
const PIECE: u32 = 64;

/// What was read of a range: what its entries say, and the place to read on from.
#[derive(Drop)]
struct Reading {
    marks: MarkMap,
    at: Lsn,
}

/// Whether a record starts a checkpoint past a place.
fn ends_range(rec: &Record, from: Lsn) -> bool
    ensures { result ≡ (is_redo (says rec.now) && nat_lt from.0 rec.now.start.0) }
{
    matches!(rec.kind, Kind::RedoMark(_)) && from.0 < rec.start.0
}

/// Reads the number of blocks that a truncation leaves, which its type keeps below 2^32.
fn read_count(kind: &Kind)
    ensures { HasCount kind.now }
{
    if let Kind::Truncate(_, count, _) = kind {
        let _count = *count;
    }
}

/// Reads those of some records.
fn read_counts(piece: &[Record])
    ensures { HaveCounts piece.now }
{
    let mut left = piece;
    while let Some((rec, behind)) = left.split_first() {
        read_count(&rec.kind);
        left = behind;
    }
}

/// The first redo point past a place among some records.
fn redo_in(piece: &[Record], from: Lsn) -> Option<Lsn>
    ensures { option_map (λ at. at.0) result ≡ next_redo from.0 (map entry_of piece.now) }
{
    let mut left = piece;
    while let Some((rec, behind)) = left.split_first() {
        if ends_range(rec, from) {
            return Some(rec.start);
        }
        left = behind;
    }
    None
}

/// A place that was found, or else one past all.
fn place_or(found: Option<Lsn>) -> Lsn
    ensures { result.0 ≡ place_or found }
{
    match found {
        Some(at) => at,
        None => Lsn(u64::MAX),
    }
}

/// The end of the last one of some records; where there is none, a place before them.
fn last_end(piece: &[Record], at: Lsn) -> Lsn
    ensures { result.0 ≡ last_end at.0 piece.now }
{
    match piece.last() {
        Some(rec) => rec.end,
        None => at,
    }
}

impl Reading {
    /// Reads a piece of the range that starts at a place, and answers where the range ends, where
    /// that is in the piece.
    fn take_piece(&mut self, piece: &[Record], from: Lsn) -> Result<Option<Lsn>, NoMemory>
        ensures end { IfOk result (λ end.
            option_map (λ at. at.0) end ≡ next_redo from.0 (map entry_of piece.now)) }
        ensures marks { IfOk result (λ end. table_of_marks self.new.marks
            ≡ both_summed (table_of_marks self.old.marks)
            (summary_of (map entry_of piece.now) from.0 (place_or end))) }
        ensures at { OnOk result (self.new.at.0 ≡ last_end self.old.at.0 piece.now) }
        ensures small { OnOk result (self.new.at.0 < 2 ^ 64) }
        ensures counts { OnOk result (HaveCounts piece.now) }
    {
        read_counts(piece);
        let end = redo_in(piece, from);
        self.marks.add_records(piece, from, place_or(end))?;
        self.at = last_end(piece, self.at);
        Ok(end)
    }
}

/// The summary of the entries from a place up to the next redo point. None exactly where there is
/// no such redo point. Entries are read from `known` on, which moves on to the last place up to the
/// first one that a piece of them ends with.
pub(crate) fn next_range<J: OfCrew, V: Vault>(
    rt: &impl Wait,
    alloc: Global,
    store: &Store<J, V>,
    pass: &mut Pass<J>,
    known: &mut Lsn,
    from: Lsn,
    when: u64,
) -> Result<Option<Summary>, StoreFault>
    requires orderly { J.tells ≡ true → IsOrderly 0 pass.old.list }
    requires start { J.tells ≡ true → CanStart pass.old.list from.0 known.old.0 }
    ensures found { J.tells ≡ true
        → IfOk result (NextAnswer pass.new.list when from.0) }
    ensures place { J.tells ≡ true → IsPlaceOf pass.new.list known.new.0 }
    ensures written { IfOk result (λ found. IfSome found (CanFollow from.0)) }
    ensures orderly { J.tells ≡ true → IsOrderly 0 pass.new.list }
    ensures looks { LooksOn pass.old pass.new }
    ensures faults { ReadTakes pass.old pass.new result }
{
    let mut reading = Reading {
        marks: MarkMap::new(alloc),
        at: *known,
    };
    let mut ended = false;
    while !ended {
        let piece = records_from(rt, alloc, store, pass, reading.at, PIECE)?;
        if let Some(end) = reading.take_piece(&piece, from)? {
            let forks = reading.marks.summaries(alloc)?;
            return Ok(Some(Summary {
                start: from,
                end,
                made: when,
                forks,
            }));
        }
        move_on(known, reading.at, from);
        ended = piece.is_empty();
    }
    Ok(None)
}

/// Moves a place on to a later one that isn't past a bound.
fn move_on(known: &mut Lsn, at: Lsn, bound: Lsn)
    ensures { (known.new ≡ known.old) ⊎ (known.new ≡ at) }
{
    if at.0 <= bound.0 {
        *known = at;
    }
}
