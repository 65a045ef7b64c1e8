//! What a line says.

ghost use Rattle.std.specs.Prelude.{◌≡◌, ◌∷◌, IfOk};
ghost use Rattle.std.specs.Option.{option_map};
ghost use Rattle.scripts.specs.Cuts.{words_of};
ghost use Rattle.scripts.specs.Meaning.{only, two, three, words_say, meaning};
ghost use Rattle.scripts.specs.Meaning.{worker_says, create_says, truncate_says, drop_says, change_says};
ghost use Rattle.scripts.specs.Meaning.{grow_says, checkpoint_says, flush_says, summarise_says, full_says};
ghost use Rattle.scripts.specs.Meaning.{are_two_names, incr_says};
ghost use Rattle.scripts.specs.Inside.{said};

use crate::cuts::{first_word, is_name};
use crate::items::{block_in, flush_count, fork_in, growth_count, items_in, rel_in, shape_in};
use crate::order::Order;
use crate::script::Command;
use lsn_core::text_numbers::digits_in;
use lsn_core::{NoMemory, Text};
use std::alloc::Global;

/// What a line says: nothing, that a worker's lines begin, or a command.
#[derive(Drop)]
pub enum Said<'a> {
    Nothing,
    Worker(&'a [u8]),
    Does(Command),
}

/// The one word of a text. None exactly where it has none or more.
fn only_word(text: &[u8]) -> Option<&[u8]>
    ensures { option_map (λ w. w.now) result ≡ only (words_of text.now) }
{
    let (word, behind) = first_word(text)?;
    match first_word(behind) {
        Some(_) => None,
        None => Some(word),
    }
}

/// The two words of a text. None exactly where it has fewer or more.
fn two_words(text: &[u8]) -> Option<(&[u8], &[u8])>
    ensures { option_map (λ x. (x.0.now, x.1.now)) result ≡ two (words_of text.now) }
{
    let (first, behind) = first_word(text)?;
    let second = only_word(behind)?;
    Some((first, second))
}

/// The three words of a text. None exactly where it has fewer or more.
fn three_words(text: &[u8]) -> Option<(&[u8], &[u8], &[u8])>
    ensures { option_map (λ x. (x.0.now, x.1.now, x.2.now)) result ≡ three (words_of text.now) }
{
    let (first, behind) = first_word(text)?;
    let (second, third) = two_words(behind)?;
    Some((first, second, third))
}

/// What a line says that names a worker. None exactly where that is no name.
fn worker_said(text: &[u8]) -> Option<Said<'_>>
    ensures { option_map said result ≡ worker_says (words_of text.now) }
{
    let name = only_word(text)?;
    if is_name(name) {
        Some(Said::Worker(name))
    } else {
        None
    }
}

/// What a line says that makes a fork. None exactly where that is no fork.
fn create_said(text: &[u8]) -> Option<Said<'_>>
    ensures { option_map said result ≡ create_says (words_of text.now) }
{
    let fork = fork_in(only_word(text)?)?;
    Some(Said::Does(Command::Insert(Order::Create(fork))))
}

/// What a line says that cuts a relation. None exactly where that is no main fork and count.
fn truncate_said(text: &[u8]) -> Option<Said<'_>>
    ensures { option_map said result ≡ truncate_says (words_of text.now) }
{
    let (rel, count) = two_words(text)?;
    let rel = rel_in(rel)?;
    let count = digits_in(count)?;
    Some(Said::Does(Command::Insert(Order::Truncate(rel, count))))
}

/// What a line says that takes a relation away. None exactly where that is no main fork.
fn drop_said(text: &[u8]) -> Option<Said<'_>>
    ensures { option_map said result ≡ drop_says (words_of text.now) }
{
    let rel = rel_in(only_word(text)?)?;
    Some(Said::Does(Command::Insert(Order::Drop(rel))))
}

/// What a line says that changes blocks. None exactly where that is no items.
fn change_said(alloc: Global, text: &[u8]) -> Result<Option<Said<'_>>, NoMemory>
    ensures { IfOk result (λ what. option_map said what ≡ change_says (words_of text.now)) }
{
    match items_in(alloc, text)? {
        Some(items) => Ok(Some(Said::Does(Command::Insert(Order::Change(items))))),
        None => Ok(None),
    }
}

/// What a line says that grows a fork. None exactly where that is no block, count and shape.
fn grow_said(text: &[u8]) -> Option<Said<'_>>
    ensures { option_map said result ≡ grow_says (words_of text.now) }
{
    let (at, count, shape) = three_words(text)?;
    let at = block_in(at)?;
    let count = growth_count(count)?;
    let shape = shape_in(shape)?;
    Some(Said::Does(Command::Grow(at, count, shape)))
}

/// What a line says that asks for a checkpoint. None exactly where words stand behind the verb.
fn checkpoint_said(text: &[u8]) -> Option<Said<'_>>
    ensures { option_map said result ≡ checkpoint_says (words_of text.now) }
{
    if first_word(text).is_some() {
        return None;
    }
    Some(Said::Does(Command::Checkpoint))
}

/// What a line says that flushes pages. None exactly where that is no count.
fn flush_said(text: &[u8]) -> Option<Said<'_>>
    ensures { option_map said result ≡ flush_says (words_of text.now) }
{
    let count = flush_count(only_word(text)?)?;
    Some(Said::Does(Command::Flush(count)))
}

/// What a line says that publishes summaries. None exactly where words stand behind the verb.
fn summarise_said(text: &[u8]) -> Option<Said<'_>>
    ensures { option_map said result ≡ summarise_says (words_of text.now) }
{
    match first_word(text) {
        Some(_) => None,
        None => Some(Said::Does(Command::Summarise)),
    }
}

/// What a line says that takes a full backup. None exactly where that is no name.
fn full_said(alloc: Global, text: &[u8]) -> Result<Option<Said<'_>>, NoMemory>
    ensures { IfOk result (λ what. option_map said what ≡ full_says (words_of text.now)) }
{
    match only_word(text) {
        Some(name) if is_name(name) => {
            Ok(Some(Said::Does(Command::Full(Text::copied(alloc, name)?))))
        }
        _ => Ok(None),
    }
}

/// Whether two words are names, and not the same one.
fn are_two_names(first: &[u8], second: &[u8]) -> bool
    ensures { result ≡ are_two_names first.now second.now }
{
    is_name(first) && is_name(second) && first != second
}

/// What a line says that takes an incremental backup. None exactly where that is no two names.
fn incr_said(alloc: Global, text: &[u8]) -> Result<Option<Said<'_>>, NoMemory>
    ensures { IfOk result (λ what. option_map said what ≡ incr_says (words_of text.now)) }
{
    match two_words(text) {
        Some((name, prior)) if are_two_names(name, prior) => {
            let name = Text::copied(alloc, name)?;
            let prior = Text::copied(alloc, prior)?;
            Ok(Some(Said::Does(Command::Incr(name, prior))))
        }
        _ => Ok(None),
    }
}

/// What a verb and the words behind it say. None exactly where that is nothing that is taken.
fn words_said<'a>(alloc: Global, verb: &[u8], text: &'a [u8]) -> Result<Option<Said<'a>>, NoMemory>
    ensures { IfOk result (λ s. option_map said s ≡ words_say (verb.now ∷ words_of text.now)) }
{
    if verb == b"worker".as_slice() {
        return Ok(worker_said(text));
    }
    if verb == b"create".as_slice() {
        return Ok(create_said(text));
    }
    if verb == b"truncate".as_slice() {
        return Ok(truncate_said(text));
    }
    if verb == b"drop".as_slice() {
        return Ok(drop_said(text));
    }
    if verb == b"change".as_slice() {
        return change_said(alloc, text);
    }
    if verb == b"grow".as_slice() {
        return Ok(grow_said(text));
    }
    if verb == b"checkpoint".as_slice() {
        return Ok(checkpoint_said(text));
    }
    if verb == b"flush".as_slice() {
        return Ok(flush_said(text));
    }
    if verb == b"summarise".as_slice() {
        return Ok(summarise_said(text));
    }
    if verb == b"full".as_slice() {
        return full_said(alloc, text);
    }
    if verb == b"incr".as_slice() {
        return incr_said(alloc, text);
    }
    Ok(None)
}

/// What a line says. None exactly where that is nothing that is taken.
pub fn meaning(alloc: Global, line: &[u8]) -> Result<Option<Said<'_>>, NoMemory>
    ensures { IfOk result (λ what. option_map said what ≡ meaning line.now) }
{
    match line {
        [] => Ok(Some(Said::Nothing)),
        [b'#', ..] => Ok(Some(Said::Nothing)),
        _ => match first_word(line) {
            Some((verb, text)) => words_said(alloc, verb, text),
            None => Ok(None),
        },
    }
}
