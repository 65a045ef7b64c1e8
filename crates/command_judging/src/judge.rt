//! Whether a command may be done on a partition's pages.

ghost use Rattle.std.specs.Prelude.{◌≡◌, ◌<◌, ◌≤◌, ◌^◌, false, map, length, get_or, None, IfOk};
ghost use Rattle.std.specs.FinMap.{get};
ghost use Rattle.std.specs.Result.{result_err};
ghost use Rattle.std.specs.Option.{is_some};
ghost use Rattle.lsn_core.specs.Blocks.{pages_of};
ghost use Rattle.lsn_core.specs.Store.{Store, ForkPages};
ghost use Rattle.pg_page.specs.Header.{zero_page};
ghost use Rattle.pg_page.specs.Frags.{bad_frag, written_frags, is_good};
ghost use Rattle.history.specs.declared.op.Op.TheVariants as op;
ghost use Rattle.history.specs.Apply.{page_at};
ghost use Rattle.history.specs.Whole.{is_named};
ghost use Rattle.page_frames.specs.Overlay.{own_pages};
ghost use Rattle.command_judging.specs.Refusals.{most_items, judged_edit, judged_found, judged_items, judged_op};
ghost use Rattle.command_judging.specs.Refusals.{HasItems};
ghost use Rattle.command_judging.specs.Judging.{grown, IsBehind, HasGoodFrags, IsFormed, IsCounted, item_adds};

use crate::fault::OpFault;
use crate::form::{judge_blocks, judge_edits};
use history::{Edit, Item, Op, init_fork, is_same_fork, main_fork};
use lsn_core::{BlockId, ForkId, MOST_BLOCKS, Rel};
use page_frames::{Frames, keeps_header};
use pg_page::{Frag, zero_page};

/// How many pages a command adds, and how many it takes away.
#[derive(Clone, Copy)]
pub struct Counts {
    pub added: u64,
    pub gone: u64,
}

/// Whether a command may be done on the pages. Takes no memory, and copies no page.
pub fn judge(frames: &Frames, op: &Op) -> Result<Counts, OpFault>
    requires { HasItems op.now }
    ensures judged { result_err result ≡ judged_op (own_pages frames.now) op.now }
    ensures counted { IfOk result (λ c. IsCounted (own_pages frames.now) op.now c.added c.gone) }
{
    match op {
        Op::Create(fork) => judge_creation(frames, fork),
        Op::Truncate(rel, blocks) => judge_cut(frames, *rel, *blocks),
        Op::Change(items) => judge_change(frames, items.as_slice()),
        Op::Drop(rel) => judge_drop(frames, *rel),
    }
}

/// Whether a fork may be created.
fn judge_creation(frames: &Frames, fork: &ForkId) -> Result<Counts, OpFault>
    ensures judged { result_err result ≡ judged_op (own_pages frames.now) (op.Create fork.now) }
    ensures counted { IfOk result
        (λ c. IsCounted (own_pages frames.now) (op.Create fork.now) c.added c.gone) }
{
    match frames.blocks(fork) {
        Some(_) => Err(OpFault::ForkExists),
        None => Ok(Counts { added: 0, gone: 0 }),
    }
}

/// Whether the main fork of a relation may be cut to so many blocks.
fn judge_cut(frames: &Frames, rel: Rel, blocks: u32) -> Result<Counts, OpFault>
    ensures judged { result_err result ≡ judged_op (own_pages frames.now) (op.Truncate rel blocks) }
    ensures counted { IfOk result
        (λ c. IsCounted (own_pages frames.now) (op.Truncate rel blocks) c.added c.gone) }
{
    match frames.blocks(&main_fork(rel)) {
        None => Err(OpFault::NoFork),
        Some(length) if length < blocks || blocks > MOST_BLOCKS => Err(OpFault::CutPastEnd),
        Some(length) => {
            let gone = u64::from(length - blocks);
            Ok(Counts { added: 0, gone })
        }
    }
}

/// Whether a relation may be dropped.
fn judge_drop(frames: &Frames, rel: Rel) -> Result<Counts, OpFault>
    ensures judged { result_err result ≡ judged_op (own_pages frames.now) (op.Drop rel) }
    ensures counted { IfOk result
        (λ c. IsCounted (own_pages frames.now) (op.Drop rel) c.added c.gone) }
{
    if !is_there(frames, &main_fork(rel)) && !is_there(frames, &init_fork(rel)) {
        return Err(OpFault::NoFork);
    }
    let gone = pages_in(frames, &main_fork(rel)) + pages_in(frames, &init_fork(rel));
    Ok(Counts { added: 0, gone })
}

/// Whether a fork is there.
fn is_there(frames: &Frames, fork: &ForkId) -> bool
    ensures { result ≡ is_some (get (own_pages frames.now) fork.now) }
{
    frames.blocks(fork).is_some()
}

/// How many pages a fork has; a missing fork has none.
fn pages_in(frames: &Frames, fork: &ForkId) -> u64
    ensures count { result ≡ length (pages_of (own_pages frames.now) fork.now) }
    ensures few { result ≤ 2 ^ 32 }
{
    frames.know();
    match frames.blocks(fork) {
        Some(count) => u64::from(count),
        None => 0,
    }
}

/// Whether blocks may be changed.
fn judge_change(frames: &Frames, items: &[Item]) -> Result<Counts, OpFault>
    requires { HasItems (op.Change items.now) }
    ensures judged { result_err result ≡ judged_op (own_pages frames.now) (op.Change items.now) }
    ensures counted { IfOk result
        (λ c. IsCounted (own_pages frames.now) (op.Change items.now) c.added c.gone) }
{
    judge_blocks(items)?;
    judge_edits(items)?;
    let added = judge_items(frames, items)?;
    Ok(Counts { added, gone: 0 })
}

/// Whether items may be done in turn, each behind those before it: how many pages they add.
fn judge_items(frames: &Frames, items: &[Item]) -> Result<u64, OpFault>
    requires { IsFormed items.now }
    ensures judged { result_err result ≡ judged_items 0 (own_pages frames.now) items.now }
    ensures counted { IfOk result
        (λ added. IsCounted (own_pages frames.now) (op.Change items.now) added 0) }
{
    let mut added = 0;
    for at in 0..items.len() {
        added += judge_item(frames, &items[..at], &items[at])?;
    }
    Ok(added)
}

/// Whether an item may be done behind those before it, which may be done and don't name its block:
/// how many pages it adds.
fn judge_item(frames: &Frames, before: &[Item], item: &Item) -> Result<u64, OpFault>
    requires few { length before.now < most_items }
    requires apart { is_named item.now.at (map (λ i. i.at) before.now) ≡ false }
    requires frags { HasGoodFrags item.now.edit }
    ensures judged { (store : Store) → IsBehind (own_pages frames.now) before.now store
        → result_err result
        ≡ judged_found (length before.now) item.now (get store item.now.at.fork) }
    ensures added { IfOk result (λ added. (store : Store)
        → IsBehind (own_pages frames.now) before.now store → added ≡ item_adds store item.now) }
{
    let Some(found) = frames.blocks(&item.at.fork) else {
        return Err(OpFault::NoFork);
    };
    let length = grown(before, &item.at.fork, found as usize);
    judge_edit(frames, before.len() as u32, length, item)?;
    let end = item.at.block as usize + 1;
    if length.max(end) > MOST_BLOCKS as usize {
        return Err(OpFault::ForkFull);
    }
    Ok(end.saturating_sub(length) as u64)
}

/// How many blocks a fork has behind items, where it had so many before them.
fn grown(items: &[Item], fork: &ForkId, length: usize) -> usize
    ensures { result ≡ grown items.now fork.now length }
{
    let mut length = length;
    for item in items {
        if is_same_fork(fork, &item.at.fork) {
            length = length.max(item.at.block as usize + 1);
        }
    }
    length
}

/// Whether the edit of the item of this number may be done, where its fork has so many blocks.
fn judge_edit(frames: &Frames, number: u32, size: usize, item: &Item) -> Result<(), OpFault>
    requires { HasGoodFrags item.now.edit }
    ensures { (fork : ForkPages) → length fork ≡ size
        → get_or fork item.now.at.block zero_page ≡ page_at (own_pages frames.now) item.now.at
        → result_err result ≡ judged_edit number fork item.now.at.block item.now.edit }
{
    let block = item.at.block as usize;
    match &item.edit {
        Edit::Put(_) if size < block => Err(OpFault::PastEnd),
        Edit::Put(_) => Ok(()),
        Edit::Patch(_) if size <= block => Err(OpFault::NoBlock),
        Edit::Patch(frags) => {
            if leaves_header(frames, &item.at, frags.as_slice()) {
                Ok(())
            } else {
                Err(OpFault::BadPage(number))
            }
        }
    }
}

/// Whether good fragments leave the page at a block a good header.
fn leaves_header(frames: &Frames, at: &BlockId, frags: &[Frag]) -> bool
    requires { bad_frag frags.now ≡ None }
    ensures { result ≡ is_good (written_frags frags.now (page_at (own_pages frames.now) at.now)) }
{
    match frames.block(at) {
        Some(page) => keeps_header(page, frags),
        None => keeps_header_of_none(frags),
    }
}

/// Whether they leave a page of zeros one.
fn keeps_header_of_none(frags: &[Frag]) -> bool
    requires { bad_frag frags.now ≡ None }
    ensures { result ≡ is_good (written_frags frags.now zero_page) }
{
    keeps_header(&zero_page(), frags)
}
