//! The values that the command of `clap` found in the words.

ghost use Rattle.std.specs.Prelude.{◌≡◌, map, IfOk};
ghost use Rattle.std.specs.Option.{option_map};
ghost use Rattle.clap.specs.Walk.{rows_of, first_of};
ghost use Rattle.clap.specs.Matches.{found_of};
ghost use Rattle.command_line.specs.Words.{word_of, words_of};

use clap::ArgMatches;
use lsn_core::{NoMemory, Text};
use std::alloc::Global;

/// The value of an option, where it is given.
pub(crate) fn option_in<'a>(found: &ArgMatches<'a>, id: &str) -> Option<&'a str>
    ensures { option_map (λ t. t.now) result ≡ first_of id.now (rows_of (found_of found.now)) }
{
    found.get_str(id)
}

/// The word of this name.
pub(crate) fn word_in<'a>(found: &ArgMatches<'a>, id: &str) -> &'a str
    ensures { result.now ≡ word_of id.now (rows_of (found_of found.now)) }
{
    match option_in(found, id) {
        None => "",
        Some(word) => word,
    }
}

/// Texts of the same bytes.
fn copies_of(alloc: Global, words: &[&str]) -> Result<Vec<Text>, NoMemory>
    ensures { IfOk result (λ texts. texts.items ≡ map (λ word. word.now) words.now) }
{
    let mut texts = Vec::new(alloc);
    for word in words {
        texts.push(Text::copied(alloc, word.as_bytes())?)?;
    }
    Ok(texts)
}

/// The words of this name.
pub(crate) fn words_in(
    alloc: Global,
    found: &ArgMatches<'_>,
    id: &str,
) -> Result<Vec<Text>, NoMemory>
    ensures { IfOk result (λ words.
        words.items ≡ words_of id.now (rows_of (found_of found.now))) }
{
    match found.get_strs(id) {
        None => Ok(Vec::new(alloc)),
        Some(words) => copies_of(alloc, words),
    }
}
