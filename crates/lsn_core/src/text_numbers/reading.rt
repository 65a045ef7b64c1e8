//! Numbers read from their digits.

ghost use Rattle.std.specs.Prelude.{◌≡◌, ◌^◌, ◌<◌, ◌≤◌, ◌↔◌, ℕ, true, length, slice_index, IsTrue, IfSome, IfNone};
ghost use Rattle.std.specs.Fmt.{decimal};
ghost use Rattle.std.specs.Str.Parse.{digits_value};
ghost use Rattle.lsn_core.specs.text_numbers.Numbers.{all_digits, number_of};

use std::str;

/// Whether each byte is a decimal digit.
fn is_digits(text: &[u8]) -> bool
    ensures { result ≡ all_digits text.now }
{
    text.iter().all(|b| b.is_ascii_digit())
}

/// Whether a digit follows a zero at the front.
fn starts_with_zero(text: &[u8]) -> bool
    ensures { IsTrue result ↔ (1 < length text.now) × (slice_index text.now 0 ≡ 48) }
{
    text.len() > 1 && text[0] == b'0'
}

/// The number below 2^64 that digits write. None where it is larger, and where there is no digit.
fn value_of(digits: &[u8]) -> Option<u64>
    requires { all_digits digits.now ≡ true }
    ensures some { IfSome result (λ n. 0 < length digits.now) }
    ensures value { IfSome result (λ n. n ≡ digits_value 10 digits.now) }
    ensures small { IfSome result (λ n. n < 2 ^ 64) }
    ensures none { IfNone result (0 < length digits.now → 2 ^ 64 ≤ digits_value 10 digits.now) }
{
    match str::from_utf8(digits) {
        Ok(text) => text.parse::<u64>().ok(),
        Err(_) => None,
    }
}

/// The number below 2^64 that is written in decimal without leading zeros (0 itself is one digit).
/// None exactly where the text is no such number.
pub fn decimal_in(text: &[u8]) -> Option<u64>
    ensures found { IfSome result (λ n. text.now ≡ decimal n) }
    ensures small { IfSome result (λ n. n < 2 ^ 64) }
    ensures none { IfNone result ((n : ℕ) → n < 2 ^ 64 → text.now ≡ decimal n → ⊥) }
{
    if !is_digits(text) || starts_with_zero(text) {
        return None;
    }
    value_of(text)
}

/// The number that 1 to 10 decimal digits write, leading zeros allowed, below 2^32. None exactly
/// where the text is no such number.
pub fn digits_in(text: &[u8]) -> Option<u32>
    ensures { result ≡ number_of text.now }
{
    if text.len() > 10 || !is_digits(text) {
        return None;
    }
    match value_of(text) {
        Some(number) => u32::try_from(number).ok(),
        None => None,
    }
}
