//! An entry of the WAL applied to a store.

ghost use Rattle.std.specs.Prelude.{◌≡◌, ◌<◌, ◌≤◌, List, map, take, Some, None, Err, OnOk, OnErr, length, if◌then◌else◌};
ghost use Rattle.std.specs.List.{All};
ghost use Rattle.lsn_core.specs.declared.ids.BlockId.{BlockId};
ghost use Rattle.history.specs.declared.applying.ApplyFault.TheVariants.{BadDelta};
ghost use Rattle.history.specs.Apply.{is_same_fork, is_same_block, without_rel, without_rels, apply, apply_act, apply_items, apply_item, edited};
ghost use Rattle.history.specs.Applied.{IsApplicable, IsApplicableBlock, IsApplicableBody};
ghost use Rattle.history.specs.Whole.{entry_of, commit_act, edit_of, item_of, is_named, is_patch, said, cuts_main};
ghost use Rattle.history.specs.Inside.{apply_said};
ghost use Rattle.history.specs.Undo.{undone_steps};

use crate::op::{init_fork, main_fork};
use crate::page_map::PageMap;
use crate::undo::Step;
use lsn_core::{BlockId, ForkId, Lsn, NoMemory, Rel};
use pg_page::{patch, set_lsn, zero_hole};
use wal_record::{BlockRef, Body, Kind, Record};

/// Why an entry was not applied.
#[derive(Clone, Copy, Debug, PartialEq, Eq)]
pub enum ApplyFault {
    /// A delta would give a page with a bad header.
    BadDelta,
    /// Memory ran out.
    NoMemory,
}

impl From<NoMemory> for ApplyFault {
    ghost use Rattle.history.specs.declared.applying.ApplyFault.TheVariants.{NoMemory};

    ghost from_gives = { λ _ e. e ≡ NoMemory };

    fn from(_: NoMemory) -> Self {
        ApplyFault::NoMemory
    }
}

/// Applies to the store what an entry of the WAL says. `BadDelta` exactly where that can't be done
/// (profile). After a fault the store is as before.
pub fn apply(store: &mut PageMap, rec: &Record) -> Result<(), ApplyFault>
    requires { IsApplicable rec.now.kind }
    ensures applied { OnOk result (apply store.old (entry_of rec.now) ≡ Some store.new) }
    ensures bad { result ≡ Err BadDelta → apply store.old (entry_of rec.now) ≡ None }
    ensures same { OnErr result (store.new ≡ store.old) }
{
    match &rec.kind {
        Kind::Create(fork) => Ok(store.create(fork)?),
        Kind::Truncate(rel, count, flags) => {
            if cuts_main(*flags) {
                store.cut(&main_fork(*rel), *count as usize);
            }
            Ok(())
        }
        Kind::Commit(time, rels) => {
            apply_commit(store, *time, rels.as_slice(), rec.end);
            Ok(())
        }
        Kind::Images(blocks) => apply_blocks(store, blocks.as_slice(), rec.end),
        Kind::Generic(blocks) => apply_blocks(store, blocks.as_slice(), rec.end),
        Kind::Shutdown(_) => Ok(()),
        Kind::Online(_) => Ok(()),
        Kind::RedoMark(_) => Ok(()),
        Kind::NoOp => Ok(()),
        Kind::BackupEnd(_) => Ok(()),
    }
}

/// Takes away the relations that a commit drops.
fn apply_commit(store: &mut PageMap, time: i64, rels: &[Rel], end: Lsn)
    ensures { apply_act end.0 store.old (commit_act time rels.now) ≡ Some store.new }
{
    drop_rels(store, rels);
}

/// Takes away relations, with all their forks.
fn drop_rels(store: &mut PageMap, rels: &[Rel])
    ensures { store.new ≡ without_rels store.old rels.now }
{
    for rel in rels {
        drop_rel(store, *rel);
    }
}

/// Takes away a relation, with all its forks.
fn drop_rel(store: &mut PageMap, rel: Rel)
    ensures { store.new ≡ without_rel store.old rel }
{
    store.unmake(&main_fork(rel));
    store.unmake(&init_fork(rel));
}

/// Whether a truncation's flags name the main fork.
pub fn cuts_main(flags: u32) -> bool
    ensures { result ≡ cuts_main flags }
{
    flags % 2 == 1
}

/// Applies what the block references of an entry say, in turn. Where one can't be applied, those
/// before it are undone.
fn apply_blocks(store: &mut PageMap, blocks: &[BlockRef], end: Lsn) -> Result<(), ApplyFault>
    requires { All IsApplicableBlock blocks.now }
    ensures applied { OnOk result (apply_items end.0 store.old (said blocks.now) ≡ Some store.new) }
    ensures bad { result ≡ Err BadDelta → apply_items end.0 store.old (said blocks.now) ≡ None }
    ensures same { OnErr result (store.new ≡ store.old) }
{
    let mut done = Vec::new(store.alloc());
    for at in 0..blocks.len() {
        if let Err(fault) = apply_next(store, &blocks[..at], &blocks[at], end, &mut done) {
            store.undo_steps(done);
            return Err(fault);
        }
    }
    Ok(())
}

/// Applies what a block reference says behind others, and notes what undoes it.
fn apply_next(
    store: &mut PageMap,
    before: &[BlockRef],
    block: &BlockRef,
    end: Lsn,
    done: &mut Vec<Step>,
) -> Result<(), ApplyFault>
    requires { IsApplicableBlock block.now }
    ensures applied { OnOk result
        (apply_said end.0 (map (λ b. b.at) before.now) store.old block.now ≡ Some store.new) }
    ensures bad { result ≡ Err BadDelta
        → apply_said end.0 (map (λ b. b.at) before.now) store.old block.now ≡ None }
    ensures back { undone_steps done.new.items store.new
        ≡ undone_steps done.old.items store.old }
{
    if is_delta(&block.body) && is_named(&block.at, before) {
        return Ok(());
    }
    apply_block(store, block, end, done)
}

/// Whether the page as a whole isn't told.
fn is_delta(body: &Body) -> bool
    ensures { result ≡ is_patch (edit_of body.now) }
{
    match body {
        Body::Image(_) => false,
        Body::Delta(_) => true,
    }
}

/// Whether one of the references is of the block.
fn is_named(at: &BlockId, blocks: &[BlockRef]) -> bool
    ensures { result ≡ is_named at.now (map (λ b. b.at) blocks.now) }
{
    for block in blocks {
        if is_same_block(at, &block.at) {
            return true;
        }
    }
    false
}

/// Whether two names are of one block.
pub fn is_same_block(one: &BlockId, other: &BlockId) -> bool
    ensures { result ≡ is_same_block one.now other.now }
{
    is_same_fork(&one.fork, &other.fork) && one.block == other.block
}

/// Whether two names are of one fork, by the order in which the store has them.
pub fn is_same_fork(one: &ForkId, other: &ForkId) -> bool
    ensures { result ≡ is_same_fork one.now other.now }
{
    one.cmp(other).is_eq()
}

/// Changes a block as an entry does, and notes what undoes it.
fn apply_block(
    store: &mut PageMap,
    block: &BlockRef,
    end: Lsn,
    done: &mut Vec<Step>,
) -> Result<(), ApplyFault>
    requires { IsApplicableBlock block.now }
    ensures applied { OnOk result
        (apply_item end.0 store.old (item_of block.now) ≡ Some store.new) }
    ensures bad { result ≡ Err BadDelta → apply_item end.0 store.old (item_of block.now) ≡ None }
    ensures back { undone_steps done.new.items store.new
        ≡ undone_steps done.old.items store.old }
{
    let old = store.page_at(&block.at);
    let Some(page) = page_after(&old, &block.body, end) else {
        return Err(ApplyFault::BadDelta);
    };
    store.put_noting(&block.at, &page, done)?;
    Ok(())
}

/// The page that an entry leaves of the one before it.
fn page_after(old: &[u8; 8192], body: &Body, end: Lsn) -> Option<[u8; 8192]>
    requires { IsApplicableBody body.now }
    ensures { result ≡ edited end.0 old.now (edit_of body.now) }
{
    match body {
        Body::Image(image) => {
            let mut page = *image.bytes();
            zero_hole(&mut page);
            set_lsn(&mut page, end.0);
            Some(page)
        }
        Body::Delta(frags) => {
            let mut page = *old;
            if patch(&mut page, frags.as_slice(), end.0) {
                Some(page)
            } else {
                None
            }
        }
    }
}
