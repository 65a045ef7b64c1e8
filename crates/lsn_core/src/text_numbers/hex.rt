//! Numbers read from their hexadecimal digits.

ghost use Rattle.std.specs.Prelude.{◌≡◌, ◌++◌, ◌<◌, ◌^◌, IfSome, IfNone};
ghost use Rattle.lsn_core.specs.text_numbers.Numbers.{all_hex_digits, all_upper_digits, hex_number_of, eight_digits, HasNoEight};

use std::str;

/// Whether each byte is a hexadecimal digit.
fn is_hex_digits(text: &[u8]) -> bool
    ensures { result ≡ all_hex_digits text.now }
{
    text.iter().all(|b| b.is_ascii_hexdigit())
}

/// The number that 1 to 8 hexadecimal digits write, in either case, leading zeros allowed. None
/// exactly where the text is no such number.
pub fn hex_digits_in(text: &[u8]) -> Option<u32>
    ensures { result ≡ hex_number_of text.now }
{
    if text.len() > 8 || !is_hex_digits(text) {
        return None;
    }
    match str::from_utf8(text) {
        Ok(digits) => u32::from_str_radix(digits, 16).ok(),
        Err(_) => None,
    }
}

/// Whether each byte is a hexadecimal digit in upper case.
fn is_upper_digits(text: &[u8]) -> bool
    ensures { result ≡ all_upper_digits text.now }
{
    text.iter().all(|b| matches!(*b, b'0'..=b'9' | b'A'..=b'F'))
}

/// The number that eight upper-case hexadecimal digits at the front write, and what stands behind
/// them. None exactly where no such digits are there.
pub fn eight_digits_front(text: &[u8]) -> Option<(u32, &[u8])>
    ensures found { IfSome result (λ x. text.now ≡ eight_digits x.0 ++ x.1.now) }
    ensures small { IfSome result (λ x. x.0 < 2 ^ 32) }
    ensures none { IfNone result (HasNoEight text.now) }
{
    if text.len() < 8 {
        return None;
    }
    let (digits, tail) = text.split_at(8);
    if !is_upper_digits(digits) {
        return None;
    }
    match hex_digits_in(digits) {
        Some(number) => Some((number, tail)),
        None => None,
    }
}
