//! Numbers and parts of bytes and texts.

use lsn_core::byte_words::{aligned, behind_prefix, cut_at, u8_at, u16_at, u32_at, u64_at, zeros};
use lsn_core::text_numbers::{
    decimal_front, decimal_in, digits_in, eight_digits_front, hex_digits_in,
};
use std::test::Fail;
use test_areas::NEW_WAL;

/// The magic, the low byte of the info, the timeline and the address of a page head.
fn head_in(bytes: &[u8]) -> Option<(u16, u8, u32, u64)> {
    let (magic, rest) = u16_at(bytes)?;
    let (info, rest) = u8_at(rest)?;
    let (_, rest) = u8_at(rest)?;
    let (timeline, rest) = u32_at(rest)?;
    let (address, _) = u64_at(rest)?;
    Some((magic, info, timeline, address))
}

#[test]
fn words_are_found_in_bytes(rt: HostRuntime) -> Result<(), Fail> {
    assert!(rt; head_in(&NEW_WAL) == Some((0xd116, 2, 1, 0x10_0000)));
    assert!(rt; aligned(0x29) == 0x30);
    assert!(rt; behind_prefix(b"base/5", b"base/") == Some(b"5".as_slice()));
    assert!(rt; cut_at(b'/', b"1/2000028") == Some((b"1".as_slice(), b"2000028".as_slice())));
    assert!(rt; zeros(rt.alloc(), 3)?.as_slice() == b"\0\0\0".as_slice());
    Ok(())
}

/// Texts, and their decimal numbers without and with leading zeros, and their hexadecimal numbers.
static TEXTS: [(&str, Option<u64>, Option<u32>, Option<u32>); 4] = [
    ("16384", Some(16384), Some(16384), Some(0x16384)),
    ("00000016", None, Some(16), Some(0x16)),
    ("FfFfFfFf", None, None, Some(0xFFFF_FFFF)),
    ("+1", None, None, None),
];

#[test]
fn texts_have_their_numbers(rt: HostRuntime) {
    for (text, plain, padded, hex) in &TEXTS {
        assert!(rt; decimal_in(text.as_bytes()) == *plain, "{text}");
        assert!(rt; digits_in(text.as_bytes()) == *padded, "{text}");
        assert!(rt; hex_digits_in(text.as_bytes()) == *hex, "{text}");
    }
    assert!(rt; decimal_front(b"16384_init") == Some((16384, b"_init".as_slice())));
    assert!(rt; eight_digits_front(b"000000FF.x") == Some((255, b".x".as_slice())));
}
