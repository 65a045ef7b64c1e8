//! Numbers at the front of a text.

ghost use Rattle.std.specs.Prelude.{◌≡◌, ◌^◌, ◌<◌, IfSome, IfNone};
ghost use Rattle.std.specs.Char.{is_ascii_digit};
ghost use Rattle.std.specs.List.{prefix_len};
ghost use Rattle.lsn_core.specs.text_numbers.Numbers.{IsFront, HasNoFront};

use crate::text_numbers::reading::decimal_in;

/// How many decimal digits stand at the front.
fn digit_count(text: &[u8]) -> usize
    ensures { result ≡ prefix_len is_ascii_digit text.now }
{
    text.iter().take_while(|b| b.is_ascii_digit()).count()
}

/// The number below 2^64 that stands at the front in decimal without leading zeros, and what stands
/// behind its last digit. None exactly where the digits at the front are no such number.
pub fn decimal_front(text: &[u8]) -> Option<(u64, &[u8])>
    ensures found { IfSome result (λ x. IsFront text.now x.0 x.1.now) }
    ensures small { IfSome result (λ x. x.0 < 2 ^ 64) }
    ensures none { IfNone result (HasNoFront (2 ^ 64) text.now) }
{
    let (digits, tail) = text.split_at(digit_count(text));
    match decimal_in(digits) {
        Some(number) => Some((number, tail)),
        None => None,
    }
}
