//! A word that is printed, as text and in JSON.

ghost use Rattle.std.specs.Prelude.{◌≡◌, IfOk, map, string_bytes};
ghost use Rattle.lsn_core.specs.Names.{lsn_bytes};
ghost use Rattle.chain_listing.specs.Words.{plain_byte};

use lsn_core::{Lsn, NoMemory};
use std::alloc::Global;
use std::marker::Model;

/// A word that is printed. Contracts see its bytes.
#[derive(Debug, Drop)]
pub struct Word {
    text: String,
}

impl Model for Word {
    ghost use Rattle.std.specs.Prelude.{List, ℕ, string_bytes};

    ghost Value = { List ℕ };

    ghost view = { λ w. string_bytes w.text };
}

impl Word {
    /// The word of a text. Takes no memory.
    pub fn from_string(text: String) -> Word
        ensures { result ≡ string_bytes text }
    {
        Word { text }
    }

    /// A word of the same text.
    pub fn copied(alloc: Global, text: &str) -> Result<Word, NoMemory>
        ensures { IfOk result (λ word. word ≡ text.now) }
    {
        Ok(Word::from_string(String::from_str(alloc, text)?))
    }

    /// The text.
    pub fn as_str(&self) -> &str
        ensures { result.now ≡ self.now }
    {
        &self.text
    }
}

/// The character that is shown for a byte: itself where it is printable ASCII and no blank.
fn plain_char(byte: u8) -> char
    ensures { result ≡ plain_byte byte }
{
    if matches!(byte, b'!'..=b'~') {
        char::from(byte)
    } else {
        '?'
    }
}

/// Bytes as a word: each but printable ASCII, and a blank, as a question mark.
pub(crate) fn plain_word(alloc: Global, bytes: &[u8]) -> Result<Word, NoMemory>
    ensures { IfOk result (λ word. word ≡ map plain_byte bytes.now) }
{
    let mut text = String::new(alloc);
    let mut left = bytes;
    while let Some((byte, behind)) = left.split_first() {
        text.push(plain_char(*byte))?;
        left = behind;
    }
    Ok(Word::from_string(text))
}

/// An LSN as a word.
pub fn lsn_word(alloc: Global, at: Lsn) -> Result<Word, NoMemory>
    ensures { IfOk result (λ word. word ≡ lsn_bytes at.0) }
{
    let high = at.0 >> 32;
    let low = at.0 & 0xffff_ffff;
    Ok(Word::from_string(format!(in alloc; "{high:X}/{low:X}")?))
}
