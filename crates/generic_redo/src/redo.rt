//! One block reference of a record redone.

ghost use Rattle.std.specs.Prelude.{◌≡◌, ◌<◌, ◌≤◌, None, Err, OnOk, IfSome, length};
ghost use Rattle.lsn_core.specs.Causes.{HasCause};
ghost use Rattle.lsn_core.specs.Sizes.{most_blocks};
ghost use Rattle.lsn_core.specs.Shown.{Turns};
ghost use Rattle.lsn_core.specs.Blocks.{page_put};
ghost use Rattle.pg_page.specs.Frags.{bad_frag};
ghost use Rattle.wal_record.specs.Spelling.{blocks_of};
ghost use Rattle.history.specs.Applied.{IsApplicableBlock};
ghost use Rattle.history.specs.Redo.{Redoes, Refuses};
ghost use Rattle.generic_redo.specs.declared.fault.RedoFault.TheVariants.{BadDelta};
ghost use Rattle.generic_redo.specs.Redo.{block_ref, block_redone, ref_redone};
ghost use Rattle.generic_redo.specs.Causes.{HasRedoCause};
ghost use Rattle.generic_redo.specs.Inside.{restored, delta_redone};

use crate::fault::RedoFault;
use lsn_core::{AreaFault, BlockId, Lsn, Pages};
use pg_page::{Frags, Page, lsn_of, patch, set_lsn, zero_hole, zero_page};
use wal_record::{BlockRef, Body, Kind, Record};

/// Redoes a record's block reference of a number, counted from 0 (access/xlogutils.h). An image is
/// restored; a delta is applied exactly where the LSN of the page that is there is below the
/// record's end, and where it isn't, nothing is written. `BadDelta` where a delta would leave a
/// page with a bad header, and only there; the pages are then as before. Of the pages behind
/// another fault nothing is said.
pub fn redo_block<P: Pages>(target: &mut P, rec: &Record, i: usize) -> Result<(), RedoFault>
    requires there { i < length (blocks_of rec.now.kind) }
    requires block { IfSome (block_ref rec.now i) IsApplicableBlock }
    requires end { 0 < rec.now.end.0 }
    ensures done { OnOk result (Redoes P.shows target.old target.new (ref_redone rec.now i)) }
    ensures bad { result ≡ Err BadDelta
        → Refuses P.shows target.old target.new (ref_redone rec.now i) }
    ensures kept { P.keeps target.old target.new }
    ensures cause { HasRedoCause (P.faults target.old) (P.faults target.new) result }
{
    redo_ref(target, &blocks_of(&rec.kind)[i], rec.end)
}

/// The block references of a record.
fn blocks_of(kind: &Kind) -> &[BlockRef]
    ensures { result.now ≡ blocks_of kind.now }
{
    match kind {
        Kind::Images(blocks) => blocks.as_slice(),
        Kind::Generic(blocks) => blocks.as_slice(),
        _ => &[],
    }
}

/// Redoes a block reference of a record that ends at a place.
fn redo_ref<P: Pages>(target: &mut P, block: &BlockRef, end: Lsn) -> Result<(), RedoFault>
    requires block { IsApplicableBlock block.now }
    requires end { 0 < end.0 }
    ensures done { OnOk result
        (Redoes P.shows target.old target.new (block_redone end.0 block.now)) }
    ensures bad { result ≡ Err BadDelta
        → Refuses P.shows target.old target.new (block_redone end.0 block.now) }
    ensures kept { P.keeps target.old target.new }
    ensures cause { HasRedoCause (P.faults target.old) (P.faults target.new) result }
{
    match &block.body {
        Body::Image(image) => Ok(redo_image(target, &block.at, image, end)?),
        Body::Delta(frags) => redo_delta(target, &block.at, frags, end),
    }
}

/// Restores an image, with zeros in its hole and that end as its LSN.
fn redo_image<P: Pages>(
    target: &mut P,
    at: &BlockId,
    image: &Page,
    end: Lsn,
) -> Result<(), AreaFault>
    requires { at.now.block < most_blocks }
    ensures done { OnOk result
        (Turns P.shows target.old target.new (page_put at.now (restored end.0 image.now))) }
    ensures kept { P.keeps target.old target.new }
    ensures cause { HasCause (P.faults target.old) (P.faults target.new) result }
{
    let mut page = *image.bytes();
    zero_hole(&mut page);
    set_lsn(&mut page, end.0);
    target.write_block(*at, &page)
}

/// Applies a delta where the page that is there was last changed before that end. A missing block
/// counts as a page of zeros.
fn redo_delta<P: Pages>(
    target: &mut P,
    at: &BlockId,
    frags: &Frags,
    end: Lsn,
) -> Result<(), RedoFault>
    requires number { at.now.block < most_blocks }
    requires fragments { bad_frag frags.now ≡ None }
    requires end { 0 < end.0 }
    ensures done { OnOk result
        (Redoes P.shows target.old target.new (delta_redone end.0 at.now frags.now)) }
    ensures bad { result ≡ Err BadDelta
        → Refuses P.shows target.old target.new (delta_redone end.0 at.now frags.now) }
    ensures kept { P.keeps target.old target.new }
    ensures cause { HasRedoCause (P.faults target.old) (P.faults target.new) result }
{
    let mut page = zero_page();
    target.read_block(*at, &mut page)?;
    if end.0 <= lsn_of(&page) {
        return Ok(());
    }
    if !patch(&mut page, frags.as_slice(), end.0) {
        return Err(RedoFault::BadDelta);
    }
    target.write_block(*at, &page)?;
    Ok(())
}
