//! An area without segment files.

ghost use Rattle.std.specs.Prelude.{◌↔◌, IsTrue, IfSome, OnOk};
ghost use Rattle.lsn_core.specs.Causes.{HasCause};
ghost use Rattle.vault.specs.Frame.{ChangesOnly};
ghost use Rattle.rel_files.specs.Forks.{IsForkPath};
ghost use Rattle.rel_files.specs.Laws.{HasNoForks};
ghost use Rattle.restart_areas.specs.Inside.{DropsFork};

use lsn_core::{AreaFault, path_fork};
use std::alloc::Global;
use vault::Vault;

/// Whether a path is that of a segment file of a fork, in its plain form.
fn is_fork_path(path: &[u8]) -> bool
    ensures { IsTrue result ↔ IsForkPath path.now }
{
    match path_fork(path) {
        Some((_, _, incr)) => !incr,
        None => false,
    }
}

/// Removes a file, where it is a segment file of a fork.
fn clear_file<V: Vault>(area: &mut V, name: &[u8]) -> Result<(), AreaFault>
    ensures removed { OnOk result (DropsFork name.now (V.files area.old) (V.files area.new)) }
    ensures changes { ChangesOnly V.Vault IsForkPath area.old area.new }
    ensures cause { HasCause (V.faults area.old) (V.faults area.new) result }
{
    if is_fork_path(name) {
        return area.remove(name);
    }
    Ok(())
}

/// Removes the segment files of all forks. Files of other names stay. After a fault some of them
/// may be gone.
pub fn clear_forks<V: Vault>(alloc: Global, area: &mut V) -> Result<(), AreaFault>
    ensures cleared { OnOk result (IfSome (V.files area.new) HasNoForks) }
    ensures changes { ChangesOnly V.Vault IsForkPath area.old area.new }
    ensures cause { HasCause (V.faults area.old) (V.faults area.new) result }
{
    let mut names = area.names(alloc)?;
    while let Some(name) = names.pop() {
        clear_file(area, name.as_bytes())?;
    }
    Ok(())
}
