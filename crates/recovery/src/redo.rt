//! One entry redone into pages, whose number is kept.

ghost use Rattle.std.specs.Prelude.{◌≡◌, ◌<◌, Err, OnOk, Some};
ghost use Rattle.lsn_core.specs.Blocks.{without_fork};
ghost use Rattle.wal_record.specs.declared.record.Kind.TheVariants.{Commit};
ghost use Rattle.history.specs.Apply.{without_rels};
ghost use Rattle.lsn_core.specs.Causes.{HasCause};
ghost use Rattle.history.specs.Applied.{IsApplicable};
ghost use Rattle.history.specs.Redo.{redo};
ghost use Rattle.generic_redo.specs.declared.fault.RedoFault.TheVariants.{BadDelta};
ghost use Rattle.generic_redo.specs.Redo.{ref_redone};
ghost use Rattle.generic_redo.specs.Causes.{HasRedoCause};
ghost use Rattle.recovery.specs.Inside.{RedoesCounted, RedoesNone, IsRefOf, IsChange, IsOfFork};

use crate::tally::Tally;
use generic_redo::{RedoFault, redo_block};
use history::{init_fork, main_fork};
use lsn_core::{AreaFault, ForkId, Pages, Rel};
use smgr_redo::redo_storage;
use wal_record::{BlockRef, Kind, Record};

/// Redoes an entry's block reference of a number, counted from 0, of this fork.
fn redo_ref<P: Pages>(
    target: &mut P,
    entry: &Record,
    i: usize,
    fork: &ForkId,
    tally: &mut Tally,
) -> Result<(), RedoFault>
    requires applicable { IsApplicable entry.now.kind }
    requires block { IsRefOf entry.now i fork.now }
    requires end { 0 < entry.now.end.0 }
    ensures done { OnOk result
        (RedoesCounted P.shows target.old target.new tally.old tally.new (ref_redone entry.now i)) }
    ensures bad { result ≡ Err BadDelta → RedoesNone P.shows target.old (ref_redone entry.now i) }
    ensures kept { P.keeps target.old target.new }
    ensures cause { HasRedoCause (P.faults target.old) (P.faults target.new) result }
{
    let before = target.blocks(*fork)?;
    redo_block(target, entry, i)?;
    let now = target.blocks(*fork)?;
    tally.recount(before, now)?;
    Ok(())
}

/// Redoes all block references of an entry, in turn.
fn redo_refs<P: Pages>(
    target: &mut P,
    entry: &Record,
    blocks: &[BlockRef],
    tally: &mut Tally,
) -> Result<(), RedoFault>
    requires applicable { IsApplicable entry.now.kind }
    requires blocks { IsChange entry.now blocks.now }
    requires end { 0 < entry.now.end.0 }
    ensures done { OnOk result
        (RedoesCounted P.shows target.old target.new tally.old tally.new (λ s. redo s entry.now)) }
    ensures bad { result ≡ Err BadDelta → RedoesNone P.shows target.old (λ s. redo s entry.now) }
    ensures kept { P.keeps target.old target.new }
    ensures cause { HasRedoCause (P.faults target.old) (P.faults target.new) result }
{
    for i in 0..blocks.len() {
        redo_ref(target, entry, i, &blocks[i].at.fork, tally)?;
    }
    Ok(())
}

/// Redoes an entry that creates this fork, or cuts it.
fn redo_fork<P: Pages>(
    target: &mut P,
    entry: &Record,
    fork: &ForkId,
    tally: &mut Tally,
) -> Result<(), AreaFault>
    requires { IsOfFork entry.now.kind fork.now }
    ensures done { OnOk result
        (RedoesCounted P.shows target.old target.new tally.old tally.new (λ s. redo s entry.now)) }
    ensures kept { P.keeps target.old target.new }
    ensures cause { HasCause (P.faults target.old) (P.faults target.new) result }
{
    let before = target.blocks(*fork)?;
    redo_storage(target, entry)?;
    let now = target.blocks(*fork)?;
    tally.recount(before, now)?;
    Ok(())
}

/// Redoes a commit that drops these relations.
fn redo_commit<P: Pages>(
    target: &mut P,
    entry: &Record,
    time: i64,
    rels: &[Rel],
    tally: &mut Tally,
) -> Result<(), AreaFault>
    requires { entry.now.kind ≡ Commit time rels.now }
    ensures done { OnOk result
        (RedoesCounted P.shows target.old target.new tally.old tally.new (λ s. redo s entry.now)) }
    ensures kept { P.keeps target.old target.new }
    ensures cause { HasCause (P.faults target.old) (P.faults target.new) result }
{
    drop_rels(target, rels, tally)
}

/// Removes all forks of relations, in turn.
fn drop_rels<P: Pages>(target: &mut P, rels: &[Rel], tally: &mut Tally) -> Result<(), AreaFault>
    ensures done { OnOk result (RedoesCounted P.shows target.old target.new tally.old tally.new
        (λ s. Some (without_rels s rels.now))) }
    ensures kept { P.keeps target.old target.new }
    ensures cause { HasCause (P.faults target.old) (P.faults target.new) result }
{
    for rel in rels {
        drop_fork(target, &main_fork(*rel), tally)?;
        drop_fork(target, &init_fork(*rel), tally)?;
    }
    Ok(())
}

/// Removes a fork, where it is there.
fn drop_fork<P: Pages>(target: &mut P, fork: &ForkId, tally: &mut Tally) -> Result<(), AreaFault>
    ensures done { OnOk result (RedoesCounted P.shows target.old target.new tally.old tally.new
        (λ s. Some (without_fork s fork.now))) }
    ensures kept { P.keeps target.old target.new }
    ensures cause { HasCause (P.faults target.old) (P.faults target.new) result }
{
    let before = target.blocks(*fork)?;
    target.remove(*fork)?;
    let now = target.blocks(*fork)?;
    tally.recount(before, now)?;
    Ok(())
}

/// Redoes an entry. `BadDelta` exactly where a delta would leave a page with a bad header; those
/// block references that come before it were redone then.
pub fn redo_entry<P: Pages>(
    target: &mut P,
    entry: &Record,
    tally: &mut Tally,
) -> Result<(), RedoFault>
    requires applicable { IsApplicable entry.now.kind }
    requires end { 0 < entry.now.end.0 }
    ensures done { OnOk result
        (RedoesCounted P.shows target.old target.new tally.old tally.new (λ s. redo s entry.now)) }
    ensures bad { result ≡ Err BadDelta → RedoesNone P.shows target.old (λ s. redo s entry.now) }
    ensures kept { P.keeps target.old target.new }
    ensures cause { HasRedoCause (P.faults target.old) (P.faults target.new) result }
{
    match &entry.kind {
        Kind::Images(blocks) => redo_refs(target, entry, blocks.as_slice(), tally),
        Kind::Generic(blocks) => redo_refs(target, entry, blocks.as_slice(), tally),
        Kind::Create(fork) => Ok(redo_fork(target, entry, fork, tally)?),
        Kind::Truncate(rel, _, _) => Ok(redo_fork(target, entry, &main_fork(*rel), tally)?),
        Kind::Shutdown(_) => Ok(()),
        Kind::Online(_) => Ok(()),
        Kind::RedoMark(_) => Ok(()),
        Kind::NoOp => Ok(()),
        Kind::BackupEnd(_) => Ok(()),
        Kind::Commit(time, rels) => Ok(redo_commit(target, entry, *time, rels.as_slice(), tally)?),
    }
}
