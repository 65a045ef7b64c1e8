//! The lines of a manifest, of which the last has the sum of those before it.

ghost use Rattle.std.specs.Prelude.{◌≡◌, ◌++◌, ◌↔◌, ℕ, List, IsTrue, IfSome, IfNone};
ghost use Rattle.manifest.specs.Lines.{line_front, line_back, EndsLine, IsLined};

use hex::FromHex;

/// What stands before the digits in the last line.
pub(crate) const FRONT: &[u8] = b"\"Manifest-Checksum\": \"";

/// What stands behind the digits in the last line.
pub(crate) const BACK: &[u8] = b"\"}\n";

/// What stands between the fixed parts of the last line.
fn digits_in(last: &[u8]) -> Option<&[u8]>
    ensures found { IfSome result (λ digits. last.now ≡ line_front ++ (digits.now ++ line_back)) }
    ensures none { IfNone result ((digits : List ℕ)
        → ¬ (last.now ≡ line_front ++ (digits ++ line_back))) }
{
    last.strip_prefix(FRONT)?.strip_suffix(BACK)
}

/// Whether the last byte is a line end.
fn ends_line(lines: &[u8]) -> bool
    ensures { IsTrue result ↔ EndsLine lines.now }
{
    match lines.split_last() {
        Some((last, _)) => *last == b'\n',
        None => false,
    }
}

/// The lines before the last one, and the sum that its digits spell. None exactly where the last
/// line isn't of its form, or no line stands before it.
pub(crate) fn sum_line(bytes: &[u8]) -> Option<(&[u8], [u8; 32])>
    ensures found { IfSome result (λ p. IsLined bytes.now p.0.now p.1) }
    ensures none { IfNone result ((lines sum : List ℕ) → ¬ IsLined bytes.now lines sum) }
{
    if bytes.len() < 89 {
        return None;
    }
    let (lines, last) = bytes.split_at(bytes.len() - 89);
    if !ends_line(lines) {
        return None;
    }
    let digits = digits_in(last)?;
    let sum = <[u8; 32] as FromHex>::from_hex(digits).ok()?;
    Some((lines, sum))
}
