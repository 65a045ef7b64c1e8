//! The kinds of entries.

ghost use Rattle.std.specs.Prelude.{◌≡◌, ◌<◌, ◌-◌, ◌^◌, true, pos, [], ◌∷◌, nat_le, None, IfOk};
ghost use Rattle.std.specs.List.{All};
ghost use Rattle.pg_page.specs.Header.{lsn_of, hole_zeroed};
ghost use Rattle.pg_page.specs.Frags.{bad_frag, written_frags, patched, is_good};
ghost use Rattle.wal_record.specs.declared.record.Kind.TheVariants as kind;
ghost use Rattle.wal_record.specs.declared.record.Body.TheVariants.{Image};
ghost use Rattle.wal_record.specs.Spelling.{IsWritable, IsWritableBlock, IsWritableBody};
ghost use Rattle.history.specs.Op.{IsFitEdit, IsFitOver};
ghost use Rattle.history.specs.Entry.{Shutdown, Online, RedoMark};
ghost use Rattle.history.specs.Written.{body_of, block_over, mark_kind};
ghost use Rattle.history.specs.checkpointer.Changes.{blocks_over, AreFitOver};

use crate::{Edit, Item};
use lsn_core::{ForkId, Lsn, NoMemory, Rel};
use pg_page::{Frags, Page, lsn_of, patch, zero_hole};
use std::alloc::{AllocError, Global};
use std::boxed::Box;
use wal_record::{BlockRef, Blocks, Body, Kind, Rels};

/// Whether a patch of a page with this LSN is written as an image of the page, behind this redo
/// point: exactly where the LSN is at most the redo point (manual, full_page_writes).
pub fn needs_image(page: Lsn, redo: Lsn) -> bool
    ensures { result ≡ nat_le page.0 redo.0 }
{
    page <= redo
}

/// The kind of entry that changes of blocks are written as, by the pages before it, one for each
/// item, and the latest redo point. A page that is put is an image with zeros in its hole; a patch
/// of a page that needs an image is one of the page after it, and otherwise a delta.
pub fn change_kind(
    alloc: Global,
    items: &[Item],
    before: &[[u8; 8192]],
    redo: Lsn,
) -> Result<Kind, NoMemory>
    requires { AreFitOver items.now before.now }
    ensures kind { IfOk result
        (λ made. made ≡ kind.Generic (blocks_over redo.0 items.now before.now)) }
    ensures writable { IfOk result IsWritable }
{
    Ok(Kind::Generic(blocks(alloc, items, before, redo)?))
}

/// The kind of entry that a creation of a fork is written as.
pub fn creation_kind(fork: ForkId) -> Kind
    ensures kind { result ≡ kind.Create fork }
    ensures writable { IsWritable result }
{
    know(&fork.rel);
    Kind::Create(fork)
}

/// The kind of entry that a truncation of a relation to so many blocks is written as. Its flags
/// name all forks that one may name: main, free space map and visibility map. The store has the
/// first.
pub fn truncation_kind(rel: Rel, count: u32) -> Kind
    requires { count < 2 ^ 32 - 1 }
    ensures kind { result ≡ kind.Truncate rel count 7 }
    ensures writable { IsWritable result }
{
    know(&rel);
    Kind::Truncate(rel, count, 7)
}

/// The kind of entry that a drop of a relation is written as: a commit at time 0.
#[tactic(auto, using(crate::proofs::checkpointer::Pages::drop_writable))]
pub fn drop_kind(alloc: Global, rel: Rel) -> Result<Kind, NoMemory>
    ensures kind { IfOk result (λ made. made ≡ kind.Commit (pos 0) (rel ∷ [])) }
    ensures writable { IfOk result IsWritable }
{
    know(&rel);
    Ok(Kind::Commit(0, Rels::one(alloc, rel)?))
}

/// The kind of the entry that starts a checkpoint, whose place is the redo point.
pub fn redo_kind() -> Kind
    ensures kind { result ≡ mark_kind (RedoMark 1) }
    ensures writable { IsWritable result }
{
    Kind::RedoMark(1)
}

/// The kind of the entry that ends a checkpoint of a running store, with its redo point.
pub fn online_kind(redo: Lsn) -> Kind
    ensures kind { result ≡ mark_kind (Online redo.0) }
    ensures writable { IsWritable result }
{
    Kind::Online(redo)
}

/// The kind of the first entry of a WAL, which is its own redo point.
pub fn first_kind(start: Lsn) -> Kind
    ensures kind { result ≡ mark_kind (Shutdown start.0) }
    ensures writable { IsWritable result }
{
    Kind::Shutdown(start)
}

/// The blocks that items are written as.
fn blocks(
    alloc: Global,
    items: &[Item],
    before: &[[u8; 8192]],
    redo: Lsn,
) -> Result<Blocks, AllocError>
    requires { AreFitOver items.now before.now }
    ensures blocks { IfOk result (λ b. b ≡ blocks_over redo.0 items.now before.now) }
    ensures writable { IfOk result (All IsWritableBlock) }
{
    let mut list = Vec::new(alloc);
    for at in 0..items.len() {
        list.push(block(alloc, &items[at], &before[at], redo)?)?;
    }
    Ok(Blocks::from_vec(list))
}

/// The block that an item is written as, where this page was there before.
fn block(alloc: Global, item: &Item, old: &[u8; 8192], redo: Lsn) -> Result<BlockRef, AllocError>
    requires { IsFitOver item.now old.now }
    ensures block { IfOk result (λ b. b ≡ block_over redo.0 item.now old.now) }
    ensures writable { IfOk result IsWritableBlock }
{
    know(&item.at.fork.rel);
    let body = body(alloc, redo, old, &item.edit)?;
    Ok(BlockRef { at: item.at, body })
}

/// What an edit of a page is written as.
fn body(alloc: Global, redo: Lsn, old: &[u8; 8192], edit: &Edit) -> Result<Body, AllocError>
    requires { IsFitEdit old.now edit.now }
    ensures body { IfOk result (λ b. b ≡ body_of redo.0 old.now edit.now) }
    ensures writable { IfOk result IsWritableBody }
{
    match edit {
        Edit::Put(page) => Ok(Body::Image(zeroed(alloc, page)?)),
        Edit::Patch(frags) => {
            if needs_image(Lsn(lsn_of(old)), redo) {
                Ok(Body::Image(patched(alloc, old, frags)?))
            } else {
                Ok(Body::Delta(frags.copied(alloc)?))
            }
        }
    }
}

/// The page with zeros in its hole.
fn zeroed(alloc: Global, page: &Page) -> Result<Page, AllocError>
    ensures page { IfOk result (λ image. image ≡ hole_zeroed page.now) }
    ensures writable { IfOk result (λ image. IsWritableBody (Image image)) }
{
    let mut image = Box::new(alloc, *page.bytes())?;
    zero_hole(&mut image);
    Ok(Page::from_good(image))
}

/// The page that a patch leaves, with the LSN from before it.
fn patched(alloc: Global, old: &[u8; 8192], frags: &Frags) -> Result<Page, AllocError>
    requires good { bad_frag frags.now ≡ None }
    requires header { is_good (written_frags frags.now old.now) ≡ true }
    ensures page { IfOk result (λ page. page ≡ patched frags.now (lsn_of old.now) old.now) }
    ensures writable { IfOk result (λ page. IsWritableBody (Image page)) }
{
    let mut page = Box::new(alloc, *old)?;
    let _ = patch(&mut page, frags.as_slice(), lsn_of(old));
    Ok(Page::from_good(page))
}

/// Reads the numbers of a relation. Their clauses tell the prover that they are not 0 and fit, as a
/// kind that can be written asks.
fn know(rel: &Rel)
    ensures some { (0 < rel.now.db) × (0 < rel.now.rel) }
    ensures fits { (rel.now.db < 2 ^ 32) × (rel.now.rel < 2 ^ 32) }
{
    let _ = (rel.db(), rel.rel());
}
