//! The words of the command line.

ghost use Rattle.std.specs.Prelude.{◌≡◌};
ghost use Rattle.std.specs.Option.{option_map};
ghost use Rattle.chain_view.specs.Asked.{is_option, is_json, lsn_value, target_in, options_in, ends_in_slash, folder_in, asked_with, asked, asks};

use lsn_core::{Lsn, Text, lsn_read};

/// What the words ask for.
#[derive(Clone, Copy)]
pub struct Asked<'a> {
    /// Whether JSON is asked for.
    pub json: bool,
    /// For which LSN the members of a chain are asked for; None for the listing.
    pub upto: Option<Lsn>,
    /// The folder of the backups.
    pub folder: &'a [u8],
}

/// The options that words give.
#[derive(Clone, Copy)]
struct Options {
    json: bool,
    upto: Option<Lsn>,
}

/// Whether a word begins as an option does.
fn is_option(word: &[u8]) -> bool
    ensures { result ≡ is_option word.now }
{
    word.starts_with(b"-")
}

/// Whether a word asks for JSON.
fn is_json(word: &[u8]) -> bool
    ensures { result ≡ is_json word.now }
{
    word == b"--json".as_slice()
}

/// The LSN that a value writes.
fn lsn_in(value: &[u8]) -> Option<Lsn>
    ensures { result ≡ lsn_value value.now }
{
    lsn_read(value)
}

/// The LSN that the option of a target and its value give.
fn target_in(name: &[u8], value: &[u8]) -> Option<Lsn>
    ensures { result ≡ target_in name.now value.now }
{
    if name == b"--for".as_slice() {
        return lsn_in(value);
    }
    None
}

/// The options of these words: each at most once, in any order.
fn options_in(words: &[Text]) -> Option<Options>
    ensures { result ≡ options_in words.now }
{
    match words {
        [] => Some(Options {
            json: false,
            upto: None,
        }),
        [json] if is_json(json.as_bytes()) => Some(Options {
            json: true,
            upto: None,
        }),
        [name, value] => {
            let upto = target_in(name.as_bytes(), value.as_bytes())?;
            Some(Options {
                json: false,
                upto: Some(upto),
            })
        }
        [json, name, value] if is_json(json.as_bytes()) => {
            let upto = target_in(name.as_bytes(), value.as_bytes())?;
            Some(Options {
                json: true,
                upto: Some(upto),
            })
        }
        [name, value, json] if is_json(json.as_bytes()) => {
            let upto = target_in(name.as_bytes(), value.as_bytes())?;
            Some(Options {
                json: true,
                upto: Some(upto),
            })
        }
        _ => None,
    }
}

/// Whether a word ends in a slash.
fn ends_in_slash(word: &[u8]) -> bool
    ensures { result ≡ ends_in_slash word.now }
{
    match word.last() {
        Some(byte) => *byte == b'/',
        None => false,
    }
}

/// The folder of a word, which may have a slash behind it.
fn folder_in(word: &[u8]) -> &[u8]
    ensures { result.now ≡ folder_in word.now }
{
    if ends_in_slash(word) {
        &word[..word.len().saturating_sub(1)]
    } else {
        word
    }
}

/// What a folder and these options ask for. None exactly where they aren't taken.
fn asked_with<'a>(folder: &'a [u8], options: &[Text]) -> Option<Asked<'a>>
    ensures { option_map asks result ≡ asked_with folder.now options.now }
{
    if is_option(folder) {
        return None;
    }
    let options = options_in(options)?;
    Some(Asked {
        json: options.json,
        upto: options.upto,
        folder: folder_in(folder),
    })
}

/// What the words ask for: options, and the folder behind or before them. None exactly where they
/// aren't taken.
pub fn asked_of(words: &[Text]) -> Option<Asked<'_>>
    ensures { option_map asks result ≡ asked words.now }
{
    let (first, behind) = words.split_first()?;
    if !is_option(first.as_bytes()) {
        return asked_with(first.as_bytes(), behind);
    }
    let last = words.get(behind.len())?;
    asked_with(last.as_bytes(), &words[..behind.len()])
}
