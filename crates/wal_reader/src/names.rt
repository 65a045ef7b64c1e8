//! The names of the files of a WAL (PostgreSQL manual, WAL Internals).

ghost use Rattle.std.specs.Prelude.{◌≡◌, ◌≤◌, ◌↔◌, IsTrue, IfSome, IfNone, get_or, length};
ghost use Rattle.std.specs.List.{list_any};
ghost use Rattle.lsn_core.specs.text_numbers.Numbers.{all_upper_digits};
ghost use Rattle.lsn_core.specs.Sizes.{most_segments};
ghost use Rattle.wal_reader.specs.Names.{is_wal_name, IsOtherTimeline, IsFirstOther, HasNoOther};
ghost use Rattle.wal_reader.specs.Settings.{IsLeastOf};
ghost use Rattle.wal_reader.specs.Inside.{IsNamedIn, lesser};

use crate::file_name::FileName;
use lsn_core::{SegSize, Text, segment_read};
use wal_archive::segment_in;

/// Whether each byte is a hexadecimal digit in upper case.
fn is_upper(text: &[u8]) -> bool
    ensures { result ≡ all_upper_digits text.now }
{
    text.iter().all(|b| matches!(*b, b'0'..=b'9' | b'A'..=b'F'))
}

/// Whether a name is 24 upper-case hexadecimal digits.
fn is_wal_name(name: &[u8]) -> bool
    ensures { result ≡ is_wal_name name.now }
{
    name.len() == 24 && is_upper(name)
}

/// Whether one of the names is 24 upper-case hexadecimal digits.
pub fn has_wal_name(names: &[Text]) -> bool
    ensures { result ≡ list_any is_wal_name names.now }
{
    names.iter().any(|name| is_wal_name(name.as_bytes()))
}

/// Whether a name is that of a segment file of a timeline other than 1.
fn is_other_timeline(name: &[u8], size: SegSize) -> bool
    ensures { IsTrue result ↔ IsOtherTimeline size name.now }
{
    match segment_read(name, size) {
        Some((timeline, _number)) => timeline != 1,
        None => false,
    }
}

/// The first name of a segment file of a timeline other than 1.
pub fn other_timeline(names: &[Text], size: SegSize) -> Option<FileName>
    ensures found { IfSome result (IsFirstOther size names.now) }
    ensures none { IfNone result (HasNoOther size names.now) }
{
    for name in names {
        if is_other_timeline(name.as_bytes(), size) {
            return FileName::new(name.as_bytes());
        }
    }
    None
}

/// The lesser of two numbers of segments, where there are any.
fn lesser(a: Option<u64>, b: Option<u64>) -> Option<u64>
    ensures { result ≡ lesser a b }
{
    match (a, b) {
        (Some(a), Some(b)) => Some(a.min(b)),
        (Some(a), None) => Some(a),
        (None, b) => b,
    }
}

/// The least number of a segment of the archive that one of the names is of.
pub fn least_segment(names: &[Text], size: SegSize) -> Option<u64>
    ensures least { IsLeastOf (IsNamedIn size names.now) result }
    ensures most { IfSome result (λ seg. seg ≤ most_segments) }
{
    // known: so large a segment has a name for each number of the archive
    let _mib = size.mib();
    let mut least = None;
    for name in names {
        least = lesser(least, segment_in(name.as_bytes(), size));
    }
    least
}
