//! The bytes of a line, and its words.

ghost use Rattle.std.specs.Prelude.{◌≡◌, ◌<◌, not, length, IfSome};
ghost use Rattle.std.specs.List.{list_all, position};
ghost use Rattle.std.specs.Option.{option_map};
ghost use Rattle.scripts.specs.Cuts.{is_blank, is_allowed, is_name, is_name_byte};
ghost use Rattle.scripts.specs.Inside.{WordAnswer};

use lsn_core::byte_words::behind;

/// Whether a byte stands between words.
fn is_blank(b: u8) -> bool
    ensures { result ≡ is_blank b }
{
    b == b' ' || b == b'\t'
}

/// Whether a byte may stand in a line: printable ASCII and a tab.
fn is_allowed(b: u8) -> bool
    ensures { result ≡ is_allowed b }
{
    matches!(b, b' '..=b'~' | b'\t')
}

/// Whether a line holds printable ASCII and tabs alone.
pub fn has_allowed_bytes(line: &[u8]) -> bool
    ensures { result ≡ list_all is_allowed line.now }
{
    line.iter().all(|b| is_allowed(*b))
}

/// Whether a byte may stand in a name of a worker.
fn is_name_byte(b: u8) -> bool
    ensures { result ≡ is_name_byte b }
{
    matches!(b, b'a'..=b'z' | b'0'..=b'9' | b'_')
}

/// Whether a word holds such bytes alone.
fn has_name_bytes(word: &[u8]) -> bool
    ensures { result ≡ list_all is_name_byte word.now }
{
    word.iter().all(|b| is_name_byte(*b))
}

/// Whether a word is a name of a worker: 1 to 32 of `a` to `z`, `0` to `9`, `_` (profile).
pub fn is_name(word: &[u8]) -> bool
    ensures { result ≡ is_name word.now }
{
    1 <= word.len() && word.len() <= 32 && has_name_bytes(word)
}

/// Where the first word begins.
fn word_place(text: &[u8]) -> Option<usize>
    ensures place { result ≡ position (λ b. not (is_blank b)) text.now }
    ensures within { IfSome result (λ at. at < length text.now) }
{
    text.iter().position(|b| !is_blank(*b))
}

/// Where the first blank stands.
fn blank_place(text: &[u8]) -> Option<usize>
    ensures place { result ≡ position is_blank text.now }
    ensures within { IfSome result (λ at. at < length text.now) }
{
    text.iter().position(|b| is_blank(*b))
}

/// The first word, and what stands behind it. None exactly where there is no word.
pub fn first_word(text: &[u8]) -> Option<(&[u8], &[u8])>
    ensures { WordAnswer text.now (option_map (λ x. (x.0.now, x.1.now)) result) }
{
    let start = match word_place(text) {
        Some(start) => start,
        None => return None,
    };
    let word = behind(text, start);
    match blank_place(word) {
        Some(end) => Some((&word[..end], behind(word, end))),
        None => Some((word, behind(word, word.len()))),
    }
}
