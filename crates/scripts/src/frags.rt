//! Fragments of a page, as an item writes them.

ghost use Rattle.std.specs.Prelude.{◌≡◌, IfOk};
ghost use Rattle.std.specs.Option.{option_map};
ghost use Rattle.scripts.specs.Items.{bytes_in, offset_in, frag_in, frags_in};

use hex::FromHexError;
use lsn_core::NoMemory;
use lsn_core::byte_words::cut_at;
use lsn_core::text_numbers::digits_in;
use pg_page::{Frag, Frags};
use std::alloc::Global;

/// The 1 to 8,192 bytes that two hexadecimal digits each write, in either case. None exactly where
/// the text is no such digits.
fn bytes_in(alloc: Global, digits: &[u8]) -> Result<Option<Vec<u8>>, NoMemory>
    ensures { IfOk result (λ bytes. option_map (λ b. b.items) bytes ≡ bytes_in digits.now) }
{
    if digits.len() < 2 || digits.len() > 16_384 {
        return Ok(None);
    }
    match hex::decode(alloc, digits) {
        Ok(bytes) => Ok(Some(bytes)),
        Err(FromHexError::OutOfMemory) => Err(NoMemory),
        Err(_) => Ok(None),
    }
}

/// The place of a fragment, at most 65,535. None exactly where the text is no such number.
fn offset_in(text: &[u8]) -> Option<u16>
    ensures { result ≡ offset_in text.now }
{
    u16::try_from(digits_in(text)?).ok()
}

/// The fragment that a place, `:` and digits write, fit for a page or not. None exactly where they
/// write none.
fn frag_in(alloc: Global, text: &[u8]) -> Result<Option<Frag>, NoMemory>
    ensures { IfOk result (λ frag. frag ≡ frag_in text.now) }
{
    let Some((at, digits)) = cut_at(b':', text) else {
        return Ok(None);
    };
    let Some(at) = offset_in(at) else {
        return Ok(None);
    };
    match bytes_in(alloc, digits)? {
        Some(bytes) => Ok(Some(Frag::new(alloc, at, &bytes)?)),
        None => Ok(None),
    }
}

/// The fragments of a text, with commas between them. None exactly where one of them is none.
pub fn frags_in(alloc: Global, text: &[u8]) -> Result<Option<Frags>, NoMemory>
    ensures { IfOk result (λ frags. frags ≡ frags_in text.now) }
{
    let mut list = Vec::new(alloc);
    for piece in text.split(|b| *b == b',') {
        let Some(frag) = frag_in(alloc, piece)? else {
            return Ok(None);
        };
        list.push(frag)?;
    }
    Ok(Some(Frags::from_vec(list)))
}
