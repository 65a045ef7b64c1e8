//! What a word of a line names.

ghost use Rattle.std.specs.Prelude.{◌≡◌, ◌<◌, length, IfOk, IfSome};
ghost use Rattle.std.specs.List.{position};
ghost use Rattle.scripts.specs.Cuts.{words_of};
ghost use Rattle.scripts.specs.Items.{fork_of, numbers_in, fork_in, shape_in, block_in, is_sign};
ghost use Rattle.scripts.specs.Items.{main_rel, rel_in, edit_in, item_in, items_in};
ghost use Rattle.scripts.specs.Items.{count_in, growth_count, flush_count};

use crate::cuts::first_word;
use crate::frags::frags_in;
use crate::order::{OrderEdit, OrderItem, OrderItems};
use crate::shape::{PageShape, shape_of};
use lsn_core::byte_words::{behind, cut_at};
use lsn_core::text_numbers::digits_in;
use lsn_core::{BlockId, ForkId, ForkKind, NoMemory, Rel};
use std::alloc::Global;

/// How many items a line has at most (profile).
const ITEM_LIMIT: usize = 16;

/// By how many blocks a line grows a fork at most (profile).
const GROWTH_LIMIT: u32 = 65_536;

/// How many pages a line flushes at most (profile).
const FLUSH_LIMIT: u32 = 1_000_000;

/// The fork of these numbers. None exactly where one of them is 0.
fn fork_of(kind: ForkKind, db: u32, rel: u32) -> Option<ForkId>
    ensures { result ≡ fork_of kind db rel }
{
    match Rel::new(db, rel) {
        Some(rel) => Some(ForkId { rel, kind }),
        None => None,
    }
}

/// The fork that two numbers with a slash between them name. None exactly where they name none.
fn numbers_in(kind: ForkKind, text: &[u8]) -> Option<ForkId>
    ensures { result ≡ numbers_in kind text.now }
{
    let (left, right) = cut_at(b'/', text)?;
    let db = digits_in(left)?;
    let rel = digits_in(right)?;
    fork_of(kind, db, rel)
}

/// The fork that a word names. None exactly where it names none.
pub fn fork_in(text: &[u8]) -> Option<ForkId>
    ensures { result ≡ fork_in text.now }
{
    match text.strip_suffix(b"_init".as_slice()) {
        Some(front) => numbers_in(ForkKind::Init, front),
        None => numbers_in(ForkKind::Main, text),
    }
}

/// The relation of a fork. None exactly where that isn't the main fork.
fn main_rel(kind: ForkKind, rel: Rel) -> Option<Rel>
    ensures { result ≡ main_rel kind rel }
{
    match kind {
        ForkKind::Main => Some(rel),
        ForkKind::Init => None,
    }
}

/// The relation whose main fork a word names. None exactly where it names none.
pub fn rel_in(text: &[u8]) -> Option<Rel>
    ensures { result ≡ rel_in text.now }
{
    let fork = fork_in(text)?;
    main_rel(fork.kind, fork.rel)
}

/// How a page is made, by three numbers with commas between them. None exactly where they don't
/// say it.
pub fn shape_in(text: &[u8]) -> Option<PageShape>
    ensures { result ≡ shape_in text.now }
{
    let (lower, behind) = cut_at(b',', text)?;
    let (upper, fill) = cut_at(b',', behind)?;
    let lower = digits_in(lower)?;
    let upper = digits_in(upper)?;
    let fill = digits_in(fill)?;
    shape_of(lower, upper, fill)
}

/// The block that a fork, `@` and a number name. None exactly where they name none.
pub fn block_in(text: &[u8]) -> Option<BlockId>
    ensures { result ≡ block_in text.now }
{
    let (fork, block) = cut_at(b'@', text)?;
    let fork = fork_in(fork)?;
    let block = digits_in(block)?;
    Some(BlockId { fork, block })
}

/// Whether a byte begins how a block is changed.
fn is_sign(b: u8) -> bool
    ensures { result ≡ is_sign b }
{
    b == b'=' || b == b'+'
}

/// Where the first such byte stands.
fn sign_place(word: &[u8]) -> Option<usize>
    ensures place { result ≡ position is_sign word.now }
    ensures within { IfSome result (λ at. at < length word.now) }
{
    word.iter().position(|b| is_sign(*b))
}

/// How a block is changed: `=` and a shape, or `+` and fragments. None exactly where the text is
/// neither.
fn edit_in(alloc: Global, text: &[u8]) -> Result<Option<OrderEdit>, NoMemory>
    ensures { IfOk result (λ edit. edit ≡ edit_in text.now) }
{
    match text {
        [b'=', shape @ ..] => Ok(shape_in(shape).map(OrderEdit::Put)),
        [b'+', frags @ ..] => Ok(frags_in(alloc, frags)?.map(OrderEdit::Patch)),
        _ => Ok(None),
    }
}

/// The item that a word writes. None exactly where it writes none.
fn item_in(alloc: Global, word: &[u8]) -> Result<Option<OrderItem>, NoMemory>
    ensures { IfOk result (λ item. item ≡ item_in word.now) }
{
    let Some(sign) = sign_place(word) else {
        return Ok(None);
    };
    let Some(at) = block_in(&word[..sign]) else {
        return Ok(None);
    };
    match edit_in(alloc, behind(word, sign))? {
        Some(edit) => Ok(Some(OrderItem { at, edit })),
        None => Ok(None),
    }
}

/// The items that words write, 1 to 16. None exactly where there are fewer or more, or one word
/// writes none.
pub fn items_in(alloc: Global, text: &[u8]) -> Result<Option<OrderItems>, NoMemory>
    ensures { IfOk result (λ items. items ≡ items_in (words_of text.now)) }
{
    let mut list = Vec::new(alloc);
    let mut rest = text;
    while let Some((word, behind)) = first_word(rest) {
        if list.len() == ITEM_LIMIT {
            return Ok(None);
        }
        let Some(item) = item_in(alloc, word)? else {
            return Ok(None);
        };
        list.push(item)?;
        rest = behind;
    }
    if list.is_empty() {
        return Ok(None);
    }
    Ok(Some(OrderItems::from_vec(list)))
}

/// The count that a word writes, from 1 to this many. None exactly where it writes none.
fn count_in(most: u32, text: &[u8]) -> Option<u32>
    ensures { result ≡ count_in most text.now }
{
    let count = digits_in(text)?;
    if 1 <= count && count <= most {
        Some(count)
    } else {
        None
    }
}

/// By how many blocks a fork grows, 1 to 65,536. None exactly where the text says no such count.
pub fn growth_count(text: &[u8]) -> Option<u32>
    ensures { result ≡ growth_count text.now }
{
    count_in(GROWTH_LIMIT, text)
}

/// How many pages are flushed, 1 to 1,000,000. None exactly where the text says no such count.
pub fn flush_count(text: &[u8]) -> Option<u32>
    ensures { result ≡ flush_count text.now }
{
    count_in(FLUSH_LIMIT, text)
}
