//! Texts cut in two.

ghost use Rattle.std.specs.Prelude.{◌≡◌, ◌<◌, ◌≤◌, ◌++◌, ◌==◌, List, ℕ, length, drop, IfSome, IfNone};
ghost use Rattle.std.specs.List.{position};
ghost use Rattle.std.specs.Option.{option_map};
ghost use Rattle.lsn_core.specs.byte_words.Cuts.{cut_at};

/// What stands behind a place.
pub fn behind(text: &[u8], at: usize) -> &[u8]
    requires { at ≤ length text.now }
    ensures { result.now ≡ drop at text.now }
{
    &text[at..]
}

/// What stands behind a text at the front. None exactly where that text isn't there.
pub fn behind_prefix<'a>(text: &'a [u8], prefix: &[u8]) -> Option<&'a [u8]>
    ensures found { IfSome result (λ tail. text.now ≡ prefix.now ++ tail.now) }
    ensures none { IfNone result ((tail : List ℕ) → text.now ≡ prefix.now ++ tail → ⊥) }
{
    text.strip_prefix(prefix)
}

/// Where the first such byte stands. None exactly where there is none.
pub fn place_of(byte: u8, text: &[u8]) -> Option<usize>
    ensures place { result ≡ position (λ b. b == byte) text.now }
    ensures within { IfSome result (λ at. at < length text.now) }
{
    text.iter().position(|b| *b == byte)
}

/// What stands before and behind the first such byte. None exactly where there is none.
pub fn cut_at(byte: u8, text: &[u8]) -> Option<(&[u8], &[u8])>
    ensures { option_map (λ x. (x.0.now, x.1.now)) result ≡ cut_at byte text.now }
{
    match place_of(byte, text) {
        Some(at) => Some((&text[..at], behind(text, at + 1))),
        None => None,
    }
}
