//! The values of a label's lines.

ghost use Rattle.std.specs.Prelude.{◌≡◌, IfSome, IfNone};
ghost use Rattle.lsn_core.specs.text_numbers.Numbers.{all_hex_digits};
ghost use Rattle.backup_label.specs.Label.{is_file_digits, IsStartValue, IsTimelineValue};
ghost use Rattle.backup_label.specs.Inside.{file_note, IsNoFileNote, IsNoStart, IsNoTimeline};

use lsn_core::byte_words::{behind_prefix, cut_at};
use lsn_core::text_numbers::decimal_in;
use lsn_core::{Lsn, lsn_read};

/// What stands between `(file ` and the closing bracket. None exactly where these aren't there.
fn file_in(note: &[u8]) -> Option<&[u8]>
    ensures found { IfSome result (λ file. note.now ≡ file_note file.now) }
    ensures none { IfNone result (IsNoFileNote note.now) }
{
    let Some(file) = behind_prefix(note, b"(file ") else {
        return None;
    };
    file.strip_suffix(b")")
}

/// Whether each byte is a hexadecimal digit.
fn is_hex_digits(text: &[u8]) -> bool
    ensures { result ≡ all_hex_digits text.now }
{
    text.iter().all(|b| b.is_ascii_hexdigit())
}

/// Whether a text is 24 hexadecimal digits, in either case.
fn is_file_digits(file: &[u8]) -> bool
    ensures { result ≡ is_file_digits file.now }
{
    file.len() == 24 && is_hex_digits(file)
}

/// The place that a value tells, with a segment file behind it. None exactly where it is no such
/// one.
pub(crate) fn start_in(value: &[u8]) -> Option<Lsn>
    ensures found { IfSome result (λ at. IsStartValue value.now at.0) }
    ensures none { IfNone result (IsNoStart value.now) }
{
    let Some((place, note)) = cut_at(b' ', value) else {
        return None;
    };
    let Some(file) = file_in(note) else {
        return None;
    };
    if !is_file_digits(file) {
        return None;
    }
    lsn_read(place)
}

/// The timeline that a value is. None exactly where it is no number below 2^32 in decimal without
/// leading zeros.
pub(crate) fn timeline_in(value: &[u8]) -> Option<u32>
    ensures found { IfSome result (λ n. IsTimelineValue value.now n) }
    ensures none { IfNone result (IsNoTimeline value.now) }
{
    let Some(number) = decimal_in(value) else {
        return None;
    };
    if number > 0xffff_ffff {
        return None;
    }
    Some(number as u32)
}
