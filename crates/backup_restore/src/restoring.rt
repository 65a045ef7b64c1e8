//! A store restored from a chain of backups and the WAL.

ghost use Rattle.std.specs.Prelude.{◌≡◌, ◌≤◌, length, IfSome};
ghost use Rattle.std.specs.FinMap.{empty};
ghost use Rattle.vault.specs.Frame.{OnlyReads, ChangesOnly};
ghost use Rattle.rel_files.specs.Forks.{IsForkPath};
ghost use Rattle.chain_files.specs.Told.{AllOnlyRead, ArePlaces};
ghost use Rattle.backup_restore.specs.Inside.{Restores, RedoesOver};

use crate::copying::copy_store;
use crate::fault::RestoreFault;
use lsn_core::{Lsn, Pages, Settings};
use recovery::{Beginning, Replayed, Tally, recover};
use rel_files::Forks;
use std::alloc::Global;
use vault::{Held, Vault};

/// Redoes over pages the WAL of these settings from a place on, up to a target, or to its end where
/// none is given. So many forks and pages were counted of them before.
fn redo_over<V: Vault, P: Pages>(
    alloc: Global,
    wal: &mut V,
    settings: &Settings,
    start: Lsn,
    upto: Option<Lsn>,
    counted: Tally,
    target: &mut P,
) -> Result<Replayed, RestoreFault>
    ensures answer { RedoesOver V.Vault P.Pages settings.now start upto counted wal.old wal.new
        target.old target.new result }
    ensures reads { OnlyReads V.Vault wal.old wal.new }
    ensures kept { P.keeps target.old target.new }
    ensures later { P.faults target.old ≤ P.faults target.new }
{
    let begin = Beginning::AtPlace(start);
    Ok(recover(alloc, wal, settings, begin, upto, target, counted)?)
}

/// Restores into an output's area, which holds no file, what a chain of backups holds and the WAL
/// of these settings says from a place on, up to a target, or to its end where none is given: the
/// files that the chain is combined to are copied, and the entries redone over them that start at
/// the place or past it and end at the target or before it. Each member of the chain, the oldest
/// first, has its directory in the area at its place. It takes the chain as it is: whether each
/// directory is as its manifest lists it, and follows the one before it, is left to the caller, and
/// so is making durable what was written, and what a refusal left. It holds 64 KiB of a file with
/// the places of its pages, or an entry of the WAL, the names of the newest directory's files and
/// the lengths of the forks.
pub fn restore<V: Vault>(
    alloc: Global,
    wal: &mut V,
    areas: &mut [Held<V>],
    places: &[u32],
    out: V,
    settings: &Settings,
    start: Lsn,
    upto: Option<Lsn>,
) -> (V, Result<Replayed, RestoreFault>)
    requires places { ArePlaces (length areas.old) places.now }
    requires clear { IfSome (V.files out) (λ m. m ≡ empty) }
    ensures answer { Restores V.Vault settings.now start upto places.now wal.old areas.old out
        wal.new areas.new result.0 result.1 }
    ensures wal { OnlyReads V.Vault wal.old wal.new }
    ensures areas { AllOnlyRead V.Vault areas.old areas.new }
    ensures kept { ChangesOnly V.Vault IsForkPath out result.0 }
{
    let relseg = settings.relseg();
    let mut out = out;
    let counted = match copy_store(alloc, areas, places, relseg, &mut out) {
        Ok(counted) => counted,
        Err(why) => return (out, Err(why)),
    };
    let mut forks = Forks::new(alloc, out, relseg);
    let came = redo_over(alloc, wal, settings, start, upto, counted, &mut forks);
    (forks.area(), came)
}
