//! The line at the front of a text: its key, and what its value tells.

ghost use Rattle.std.specs.Prelude.{IfSome, IfNone};
ghost use Rattle.backup_label.specs.Label.{IsKeyLine};
ghost use Rattle.backup_label.specs.Inside.{LacksKeyLine, HasWordLine, LacksWordLine};
ghost use Rattle.backup_label.specs.Inside.{HasStartLine, LacksStartLine, HasPlaceLine};
ghost use Rattle.backup_label.specs.Inside.{LacksPlaceLine, HasTimelineLine, LacksTimelineLine};

use crate::keys::START;
use crate::values::{start_in, timeline_in};
use lsn_core::byte_words::{behind_prefix, cut_at};
use lsn_core::{Lsn, lsn_read};

/// The value of the line with this key, and what stands behind the line. None exactly where the
/// text has no such line at its front.
pub(crate) fn value_line<'a>(key: &[u8], text: &'a [u8]) -> Option<(&'a [u8], &'a [u8])>
    ensures found { IfSome result (λ x. IsKeyLine key.now x.0.now text.now x.1.now) }
    ensures none { IfNone result (LacksKeyLine key.now text.now) }
{
    let Some(line) = behind_prefix(text, key) else {
        return None;
    };
    let Some((value, tail)) = cut_at(b'\n', line) else {
        return None;
    };
    Some((value, tail))
}

/// What stands behind the line of this key and this value. None exactly where there is none.
pub(crate) fn fixed_line<'a>(key: &[u8], word: &[u8], text: &'a [u8]) -> Option<&'a [u8]>
    ensures found { IfSome result (λ tail. HasWordLine key.now word.now text.now tail.now) }
    ensures none { IfNone result (LacksWordLine key.now word.now text.now) }
{
    let Some((value, tail)) = value_line(key, text) else {
        return None;
    };
    if value != word {
        return None;
    }
    Some(tail)
}

/// The place and the segment file of the first line, and what stands behind it. None exactly where
/// there is none.
pub(crate) fn start_line(text: &[u8]) -> Option<(Lsn, &[u8])>
    ensures found { IfSome result (λ x. HasStartLine x.0.0 text.now x.1.now) }
    ensures none { IfNone result (LacksStartLine text.now) }
{
    let Some((value, tail)) = value_line(START, text) else {
        return None;
    };
    match start_in(value) {
        Some(at) => Some((at, tail)),
        None => None,
    }
}

/// The place in the line of this key, and what stands behind the line. None exactly where there is
/// none.
pub(crate) fn place_line<'a>(key: &[u8], text: &'a [u8]) -> Option<(Lsn, &'a [u8])>
    ensures found { IfSome result (λ x. HasPlaceLine key.now x.0.0 text.now x.1.now) }
    ensures none { IfNone result (LacksPlaceLine key.now text.now) }
{
    let Some((value, tail)) = value_line(key, text) else {
        return None;
    };
    match lsn_read(value) {
        Some(at) => Some((at, tail)),
        None => None,
    }
}

/// The timeline in the line of this key, and what stands behind the line. None exactly where there
/// is none.
pub(crate) fn timeline_line<'a>(key: &[u8], text: &'a [u8]) -> Option<(u32, &'a [u8])>
    ensures found { IfSome result (λ x. HasTimelineLine key.now x.0 text.now x.1.now) }
    ensures none { IfNone result (LacksTimelineLine key.now text.now) }
{
    let Some((value, tail)) = value_line(key, text) else {
        return None;
    };
    match timeline_in(value) {
        Some(number) => Some((number, tail)),
        None => None,
    }
}
