//! The history of a WAL that was found.

ghost use Rattle.std.specs.Prelude.{◌≡◌, ◌<◌, ◌^◌, [], ◌∷◌, ◌++◌, length};
ghost use Rattle.history.specs.Whole.{entry_of};

use crate::entry::HistoryEntry;
use std::marker::Brand;
use timeline::{Names, OfTimeline, Pen, Timeline};
use wal_record::Record;

/// Appends to the history the entry that a record of an earlier WAL is.
pub fn append_found<J: OfTimeline>(
    line: &Timeline<HistoryEntry, J>,
    pen: &mut Pen<HistoryEntry, J>,
    entry: &Record,
)
    requires { length pen.old < 2 ^ 50 }
    ensures { pen.new ≡ pen.old ++ entry_of entry.now ∷ [] }
{
    tell_found::<J, Brand>(line, pen, entry);
}

/// The same. The call names the entry.
fn tell_found<J: OfTimeline, N: Names<HistoryEntry>>(
    line: &Timeline<HistoryEntry, J>,
    pen: &mut Pen<HistoryEntry, J>,
    _entry: &Record,
)
    requires named { N.next ≡ entry_of _entry.now ∷ [] }
    requires room { length pen.old < 2 ^ 50 }
    ensures { pen.new ≡ pen.old ++ entry_of _entry.now ∷ [] }
{
    line.append::<N>(pen);
}
