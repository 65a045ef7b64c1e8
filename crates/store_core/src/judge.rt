//! Whether a command may be done on a partition's pages.

ghost use Rattle.std.specs.Prelude.{◌≡◌, ◌≤◌, [], length, get_or, None, Some, IfOk, OnOk};
ghost use Rattle.std.specs.Option.{option_or, unwrap_or};
ghost use Rattle.std.specs.FinMap.{get};
ghost use Rattle.lsn_core.specs.Store.{ForkPages};
ghost use Rattle.pg_page.specs.Header.{zero_page};
ghost use Rattle.history.specs.declared.op.Op.TheVariants as op;
ghost use Rattle.history.specs.Apply.{page_at, edited, apply_item};
ghost use Rattle.store_core.specs.Refusals.{most_items, judged_form, judged_blocks, judged_edits, judged_edit, judged_length, judged_found, judged_items, judged_op};
ghost use Rattle.store_core.specs.InMemory.{HasGoodFrags, done_items};

use crate::form::{judge_blocks, judge_edits, judge_form};
use crate::reply::Refusal;
use crate::stores::{copied, put_page};
use history::{Edit, Item, Op, PageMap, init_fork, main_fork};
use lsn_core::{BlockId, ForkId, MOST_BLOCKS, NoMemory, Rel};
use pg_page::{patch, set_lsn, zero_hole};
use std::alloc::Global;

/// The first refusal of a command by the pages of its partition, behind so many entries. None where
/// it may be done.
pub fn judge(
    alloc: Global,
    frames: &PageMap,
    entries: u64,
    op: &Op,
) -> Result<Option<Refusal>, NoMemory>
    ensures { IfOk result (λ r. r ≡ judged_op entries frames.now op.now) }
{
    match op {
        Op::Create(fork) => Ok(judge_creation(frames, entries, fork)),
        Op::Truncate(rel, blocks) => Ok(judge_cut(frames, entries, *rel, *blocks)),
        Op::Drop(rel) => Ok(judge_drop(frames, entries, *rel)),
        Op::Change(items) => judge_change(alloc, frames, entries, items.as_slice()),
    }
}

/// Whether a fork may be created.
fn judge_creation(frames: &PageMap, entries: u64, fork: &ForkId) -> Option<Refusal>
    ensures { result ≡ judged_op entries frames.now (op.Create fork.now) }
{
    match frames.blocks(fork) {
        Some(_) => Some(Refusal::ForkExists(entries)),
        None => None,
    }
}

/// Whether the main fork of a relation may be cut to so many blocks.
fn judge_cut(frames: &PageMap, entries: u64, rel: Rel, blocks: u32) -> Option<Refusal>
    ensures { result ≡ judged_op entries frames.now (op.Truncate rel blocks) }
{
    match frames.blocks(&main_fork(rel)) {
        None => Some(Refusal::NoFork(entries)),
        Some(length) if length < blocks as usize || blocks > MOST_BLOCKS => {
            Some(Refusal::CutPastEnd(entries))
        }
        Some(_) => None,
    }
}

/// Whether a relation may be dropped.
fn judge_drop(frames: &PageMap, entries: u64, rel: Rel) -> Option<Refusal>
    ensures { result ≡ judged_op entries frames.now (op.Drop rel) }
{
    if frames.blocks(&main_fork(rel)).is_none() && frames.blocks(&init_fork(rel)).is_none() {
        return Some(Refusal::NoFork(entries));
    }
    None
}

/// Whether blocks may be changed. Items are done in turn on a copy of the pages, so that each is
/// judged behind those before it.
fn judge_change(
    alloc: Global,
    frames: &PageMap,
    entries: u64,
    items: &[Item],
) -> Result<Option<Refusal>, NoMemory>
    ensures { IfOk result (λ r. r ≡ judged_op entries frames.now (op.Change items.now)) }
{
    if let Some(refusal) = judge_form(items) {
        return Ok(Some(refusal));
    }
    if let Some(refusal) = judge_blocks(items) {
        return Ok(Some(refusal));
    }
    if let Some(refusal) = judge_edits(items) {
        return Ok(Some(refusal));
    }
    judge_items(copied(alloc, frames)?, entries, items)
}

/// Whether items may be done in turn, each behind those before it.
fn judge_items(pages: PageMap, entries: u64, items: &[Item]) -> Result<Option<Refusal>, NoMemory>
    requires few { length items.now ≤ most_items }
    requires frags { judged_edits 0 items.now ≡ None }
    ensures { IfOk result (λ r. r ≡ judged_items entries 0 pages items.now) }
{
    let mut pages = pages;
    for at in 0..items.len() {
        let refusal = judge_found(&pages, entries, at as u32, &items[at]);
        if refusal.is_some() {
            return Ok(refusal);
        }
        do_item(&mut pages, &items[at], 0)?;
    }
    Ok(None)
}

/// Whether an item may be done.
fn judge_found(pages: &PageMap, entries: u64, number: u32, item: &Item) -> Option<Refusal>
    requires { HasGoodFrags item.now.edit }
    ensures { result ≡ judged_found entries number item.now (get pages.now item.now.at.fork) }
{
    let Some(length) = pages.blocks(&item.at.fork) else {
        return Some(Refusal::NoFork(entries));
    };
    let refusal = judge_edit(pages, entries, number, length, item);
    if refusal.is_some() {
        return refusal;
    }
    judge_length(entries, length, item.at.block)
}

/// Whether a fork of so many blocks may have a block.
fn judge_length(entries: u64, size: usize, block: u32) -> Option<Refusal>
    ensures { (fork : ForkPages) → length fork ≡ size
        → result ≡ judged_length entries fork block }
{
    if size.max(block as usize + 1) > MOST_BLOCKS as usize {
        return Some(Refusal::ForkFull(entries));
    }
    None
}

/// Whether the edit of the item of this number may be done, where its fork has so many blocks.
fn judge_edit(
    pages: &PageMap,
    entries: u64,
    number: u32,
    size: usize,
    item: &Item,
) -> Option<Refusal>
    requires { HasGoodFrags item.now.edit }
    ensures { (fork : ForkPages) → length fork ≡ size
        → get_or fork item.now.at.block zero_page ≡ page_at pages.now item.now.at
        → result ≡ judged_edit entries number fork item.now.at.block item.now.edit }
{
    let block = item.at.block as usize;
    match &item.edit {
        Edit::Put(_) if size < block => Some(Refusal::PastEnd(entries)),
        Edit::Put(_) => None,
        Edit::Patch(_) if size <= block => Some(Refusal::NoBlock(entries)),
        Edit::Patch(frags) => {
            let mut page = pages.page_at(&item.at);
            if patch(&mut page, frags.as_slice(), 0) {
                None
            } else {
                Some(Refusal::BadPage(number, entries))
            }
        }
    }
}

/// Does items in turn, by an entry that ends at a place; one that can't be done is passed over.
pub fn do_items(pages: &mut PageMap, items: &[Item], end: u64) -> Result<(), NoMemory>
    requires { judged_edits 0 items.now ≡ None }
    ensures { OnOk result (pages.new ≡ done_items end pages.old items.now) }
{
    for at in 0..items.len() {
        do_item(pages, &items[at], end)?;
    }
    Ok(())
}

/// Does an item, by an entry that ends at a place; one that can't be done leaves the pages.
fn do_item(pages: &mut PageMap, item: &Item, end: u64) -> Result<(), NoMemory>
    requires { HasGoodFrags item.now.edit }
    ensures { OnOk result
        (pages.new ≡ unwrap_or (apply_item end pages.old item.now) pages.old) }
{
    match edit_of(&pages.page_at(&item.at), &item.edit, end) {
        Some(page) => put_page(pages, item.at, &page),
        None => Ok(()),
    }
}

/// The page that an edit leaves, by an entry that ends at a place. None where it can't be done.
fn edit_of(old: &[u8; 8192], edit: &Edit, end: u64) -> Option<[u8; 8192]>
    requires { HasGoodFrags edit.now }
    ensures { result ≡ edited end old.now edit.now }
{
    match edit {
        Edit::Put(new) => {
            let mut page = *new.bytes();
            zero_hole(&mut page);
            set_lsn(&mut page, end);
            Some(page)
        }
        Edit::Patch(frags) => {
            let mut page = *old;
            if patch(&mut page, frags.as_slice(), end) {
                Some(page)
            } else {
                None
            }
        }
    }
}
