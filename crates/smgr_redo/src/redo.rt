//! One storage record redone.

ghost use Rattle.std.specs.Prelude.{◌≡◌, OnOk};
ghost use Rattle.lsn_core.specs.Shown.{Turns};
ghost use Rattle.history.specs.Apply.{without_rel, without_rels};
ghost use Rattle.lsn_core.specs.Causes.{HasCause};
ghost use Rattle.history.specs.Redo.{Redoes, redo};
ghost use Rattle.smgr_redo.specs.Storage.{IsStorage};

use history::{cuts_main, init_fork, main_fork};
use lsn_core::{AreaFault, Pages, Rel};
use wal_record::{Kind, Record};

/// Redoes a creation, a truncation or a commit. A fork that is there is left as it is by its
/// creation. The main fork is cut where the flags of a truncation name it (bit 1), it is there, and
/// it has more blocks. A commit removes all forks of each relation that it names. Of the pages
/// behind a fault nothing is said.
pub fn redo_storage<P: Pages>(target: &mut P, rec: &Record) -> Result<(), AreaFault>
    requires { IsStorage rec.now.kind }
    ensures done { OnOk result (Redoes P.shows target.old target.new (λ s. redo s rec.now)) }
    ensures kept { P.keeps target.old target.new }
    ensures cause { HasCause (P.faults target.old) (P.faults target.new) result }
{
    match &rec.kind {
        Kind::Create(fork) => target.make(*fork),
        Kind::Truncate(rel, count, flags) => {
            if cuts_main(*flags) {
                return target.cut(main_fork(*rel), *count);
            }
            Ok(())
        }
        Kind::Commit(_, rels) => drop_rels(target, rels.as_slice()),
        _ => unreachable!(),
    }
}

/// Removes all forks of relations, in turn.
fn drop_rels<P: Pages>(target: &mut P, rels: &[Rel]) -> Result<(), AreaFault>
    ensures done { OnOk result (Turns P.shows target.old target.new
        (λ s. without_rels s rels.now)) }
    ensures kept { P.keeps target.old target.new }
    ensures cause { HasCause (P.faults target.old) (P.faults target.new) result }
{
    for rel in rels {
        drop_rel(target, *rel)?;
    }
    Ok(())
}

/// Removes all forks of a relation.
fn drop_rel<P: Pages>(target: &mut P, rel: Rel) -> Result<(), AreaFault>
    ensures done { OnOk result (Turns P.shows target.old target.new (λ s. without_rel s rel)) }
    ensures kept { P.keeps target.old target.new }
    ensures cause { HasCause (P.faults target.old) (P.faults target.new) result }
{
    target.remove(main_fork(rel))?;
    target.remove(init_fork(rel))
}
