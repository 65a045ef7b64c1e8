//! What a command makes of the pages, and the kind of entry that it is written as.

ghost use Rattle.std.specs.Prelude.{◌≡◌, ◌<◌, ◌^◌, IfOk, None, true, box_value};
ghost use Rattle.pg_page.specs.Header.{lsn_of, hole_zeroed, with_lsn};
ghost use Rattle.pg_page.specs.Frags.{bad_frag, written_frags, is_good};
ghost use Rattle.wal_record.specs.declared.record.Body.TheVariants.{Image};
ghost use Rattle.wal_record.specs.Spelling.{IsWritable, IsWritableBlock, IsWritableBody};
ghost use Rattle.history.specs.declared.op.Op.TheVariants as op;
ghost use Rattle.history.specs.Apply.{page_at};
ghost use Rattle.history.specs.Op.{act_of_op, IsFitItem, AreFit, IsFit};
ghost use Rattle.history.specs.Written.{kind_of, body_of, block_of_item};
ghost use Rattle.page_frames.specs.Overlay.{own_pages};
ghost use Rattle.page_pool.specs.Ready.{AreGoodPages};
ghost use Rattle.page_pool.specs.Inside.{page_of_edit, IsDoneBy};

use crate::ready::{Done, NewPage};
use history::checkpointer::{creation_kind, drop_kind, needs_image, truncation_kind};
use history::{Edit, Item, Op};
use lsn_core::{BlockId, Lsn, NoMemory, Rel};
use page_frames::Frames;
use pg_page::{Frags, Page, lsn_of, set_lsn, write_frags, zero_hole};
use std::alloc::Global;
use std::boxed::Box;
use wal_record::{BlockRef, Blocks, Body, Kind};

/// What a command does to the pages, and the kind of entry that it is written as.
#[derive(Drop)]
pub(crate) struct Made {
    pub kind: Kind,
    pub done: Done,
}

/// Makes what a command does to the pages, all pages but for their LSN, and the kind of entry that
/// it is written as, by the pages before it and the latest redo point.
pub(crate) fn make(alloc: Global, frames: &Frames, op: &Op, redo: Lsn) -> Result<Made, NoMemory>
    requires { IsFit (own_pages frames.now) op.now }
    ensures done { IfOk result (λ made. IsDoneBy (own_pages frames.now) op.now made.done) }
    ensures good { IfOk result (λ made. AreGoodPages made.done) }
    ensures kind { IfOk result
        (λ made. made.kind ≡ kind_of (own_pages frames.now) redo.0 (act_of_op op.now)) }
    ensures writable { IfOk result (λ made. IsWritable made.kind) }
{
    match op {
        Op::Create(fork) => {
            let kind = creation_kind(*fork);
            let done = Done::Created(*fork);
            Ok(Made { kind, done })
        }
        Op::Truncate(rel, count) => {
            let kind = truncation_kind(*rel, *count);
            let done = Done::Cut(*rel, *count);
            Ok(Made { kind, done })
        }
        Op::Change(items) => make_change(alloc, frames, items.as_slice(), redo),
        Op::Drop(rel) => {
            let kind = drop_kind(alloc, *rel)?;
            let done = Done::Dropped(*rel);
            Ok(Made { kind, done })
        }
    }
}

/// Makes the pages that items leave, and the blocks that they are written as.
fn make_change(alloc: Global, frames: &Frames, items: &[Item], redo: Lsn) -> Result<Made, NoMemory>
    requires { AreFit (own_pages frames.now) items.now }
    ensures done { IfOk result
        (λ made. IsDoneBy (own_pages frames.now) (op.Change items.now) made.done) }
    ensures good { IfOk result (λ made. AreGoodPages made.done) }
    ensures kind { IfOk result (λ made. made.kind
        ≡ kind_of (own_pages frames.now) redo.0 (act_of_op (op.Change items.now))) }
    ensures writable { IfOk result (λ made. IsWritable made.kind) }
{
    let mut pages = Vec::with_capacity(alloc, items.len())?;
    let mut blocks = Vec::with_capacity(alloc, items.len())?;
    for item in items {
        let page = new_page(alloc, frames, item)?;
        blocks.push(block(alloc, frames, item, &page, redo)?)?;
        pages.push(NewPage { at: item.at, page })?;
    }
    let kind = Kind::Generic(Blocks::from_vec(blocks));
    let done = Done::Put(pages);
    Ok(Made { kind, done })
}

/// The page that an item leaves at its block, but for its LSN.
fn new_page(alloc: Global, frames: &Frames, item: &Item) -> Result<Box<[u8; 8192]>, NoMemory>
    requires { IsFitItem (own_pages frames.now) item.now }
    ensures page { IfOk result (λ page. box_value page
        ≡ page_of_edit (page_at (own_pages frames.now) item.now.at) item.now.edit) }
    ensures writable { IfOk result (λ page. IsWritableBody (Image (box_value page))) }
{
    match &item.edit {
        Edit::Put(page) => put_page(alloc, page),
        Edit::Patch(frags) => patched_page(alloc, frames, &item.at, frags),
    }
}

/// A page with zeros in its hole.
fn put_page(alloc: Global, page: &Page) -> Result<Box<[u8; 8192]>, NoMemory>
    ensures page { IfOk result (λ copy. box_value copy ≡ hole_zeroed page.now) }
    ensures writable { IfOk result (λ copy. IsWritableBody (Image (box_value copy))) }
{
    let mut copy = Box::new(alloc, *page.bytes())?;
    zero_hole(&mut copy);
    Ok(copy)
}

/// The page at a block with good fragments written over it, and then zeros in its hole.
fn patched_page(
    alloc: Global,
    frames: &Frames,
    at: &BlockId,
    frags: &Frags,
) -> Result<Box<[u8; 8192]>, NoMemory>
    requires good { bad_frag frags.now ≡ None }
    requires header { is_good (written_frags frags.now
        (page_at (own_pages frames.now) at.now)) ≡ true }
    ensures page { IfOk result (λ copy. box_value copy
        ≡ hole_zeroed (written_frags frags.now (page_at (own_pages frames.now) at.now))) }
    ensures writable { IfOk result (λ copy. IsWritableBody (Image (box_value copy))) }
{
    let mut copy = frames.page_copy(alloc, at)?;
    write_frags(&mut copy, frags.as_slice());
    zero_hole(&mut copy);
    Ok(copy)
}

/// The block that an item is written as, where it leaves this page.
fn block(
    alloc: Global,
    frames: &Frames,
    item: &Item,
    page: &[u8; 8192],
    redo: Lsn,
) -> Result<BlockRef, NoMemory>
    requires fit { IsFitItem (own_pages frames.now) item.now }
    requires page { page.now
        ≡ page_of_edit (page_at (own_pages frames.now) item.now.at) item.now.edit }
    requires image { IsWritableBody (Image page.now) }
    ensures block { IfOk result
        (λ b. b ≡ block_of_item (own_pages frames.now) redo.0 item.now) }
    ensures writable { IfOk result IsWritableBlock }
{
    know(&item.at.fork.rel);
    let body = body(alloc, frames, item, page, redo)?;
    Ok(BlockRef { at: item.at, body })
}

/// What an item is written as, where it leaves this page: a page that is put, and a patched one
/// that needs it, as an image, which is this page with the LSN from before; otherwise fragments.
fn body(
    alloc: Global,
    frames: &Frames,
    item: &Item,
    page: &[u8; 8192],
    redo: Lsn,
) -> Result<Body, NoMemory>
    requires fit { IsFitItem (own_pages frames.now) item.now }
    requires page { page.now
        ≡ page_of_edit (page_at (own_pages frames.now) item.now.at) item.now.edit }
    requires image { IsWritableBody (Image page.now) }
    ensures body { IfOk result (λ b. b
        ≡ body_of redo.0 (page_at (own_pages frames.now) item.now.at) item.now.edit) }
    ensures writable { IfOk result IsWritableBody }
{
    match &item.edit {
        Edit::Put(_) => Ok(Body::Image(Page::from_good(Box::new(alloc, *page)?))),
        Edit::Patch(frags) => {
            let lsn = lsn_at(frames, &item.at);
            if needs_image(Lsn(lsn), redo) {
                Ok(Body::Image(image(alloc, page, lsn)?))
            } else {
                Ok(Body::Delta(frags.copied(alloc)?))
            }
        }
    }
}

/// The LSN of the page at a block; 0 where there is none.
fn lsn_at(frames: &Frames, at: &BlockId) -> u64
    ensures { result ≡ lsn_of (page_at (own_pages frames.now) at.now) }
{
    match frames.block(at) {
        Some(page) => lsn_of(page),
        None => 0,
    }
}

/// The image of a page with another LSN.
fn image(alloc: Global, page: &[u8; 8192], lsn: u64) -> Result<Page, NoMemory>
    requires { IsWritableBody (Image page.now) }
    ensures page { IfOk result (λ image. image ≡ with_lsn lsn page.now) }
    ensures writable { IfOk result (λ image. IsWritableBody (Image image)) }
{
    let mut image = Box::new(alloc, *page)?;
    set_lsn(&mut image, lsn);
    Ok(Page::from_good(image))
}

/// Reads the numbers of a relation. Their clauses tell the prover that they are not 0 and fit, as a
/// block that can be written asks.
fn know(rel: &Rel)
    ensures some { (0 < rel.now.db) × (0 < rel.now.rel) }
    ensures fits { (rel.now.db < 2 ^ 32) × (rel.now.rel < 2 ^ 32) }
{
    let _ = (rel.db(), rel.rel());
}
