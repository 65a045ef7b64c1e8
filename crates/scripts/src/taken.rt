//! The names of the backups that workers name, kept so that one is looked up among many.

ghost use Rattle.std.specs.Prelude.{◌≡◌, bytes_eq, OnOk};
ghost use Rattle.std.specs.List.{list_any};
ghost use Rattle.scripts.specs.Draft.{closed};
ghost use Rattle.scripts.specs.Named.{backups_named, names_backup};
ghost use Rattle.scripts.specs.Inside.{has_name, AddsNames, AreTaken};

use crate::script::{Command, Line, Task};
use lsn_core::NoMemory;
use std::alloc::Global;
use std::collections::BTreeSet;

/// Whether a name is there.
pub fn has_name(names: &BTreeSet<Vec<u8>>, name: &[u8]) -> bool
    ensures { result ≡ has_name names.now name.now }
{
    names.contains(name)
}

/// Adds a name.
fn add_name(alloc: Global, names: &mut BTreeSet<Vec<u8>>, name: &[u8]) -> Result<(), NoMemory>
    ensures { OnOk result (AddsNames (λ other. bytes_eq other name.now) names.old names.new) }
{
    names.insert(name.to_vec(alloc)?)?;
    Ok(())
}

/// Adds the names of the backups that a command names.
fn add_command(
    alloc: Global,
    names: &mut BTreeSet<Vec<u8>>,
    command: &Command,
) -> Result<(), NoMemory>
    ensures { OnOk result (AddsNames (λ name. list_any (bytes_eq name) (backups_named command.now))
        names.old names.new) }
{
    match command {
        Command::Full(name) => add_name(alloc, names, name.as_bytes())?,
        Command::Incr(name, prior) => {
            add_name(alloc, names, name.as_bytes())?;
            add_name(alloc, names, prior.as_bytes())?;
        }
        Command::Insert(_)
        | Command::Grow(_, _, _)
        | Command::Checkpoint
        | Command::Flush(_)
        | Command::Summarise => (),
    }
    Ok(())
}

/// Adds the names of the backups that lines name.
fn add_lines(alloc: Global, names: &mut BTreeSet<Vec<u8>>, lines: &[Line]) -> Result<(), NoMemory>
    ensures { OnOk result (AddsNames (λ name. list_any (names_backup name) lines.now)
        names.old names.new) }
{
    for line in lines {
        add_command(alloc, names, &line.command)?;
    }
    Ok(())
}

/// Adds the names of the backups that the last worker names, behind those that the others do.
pub fn add_last(
    alloc: Global,
    names: &mut BTreeSet<Vec<u8>>,
    tasks: &[Task],
) -> Result<(), NoMemory>
    requires { AreTaken names.old (closed tasks.now) }
    ensures { OnOk result (AreTaken names.new tasks.now) }
{
    match tasks.last() {
        Some(task) => add_lines(alloc, names, task.lines.as_slice())?,
        None => (),
    }
    Ok(())
}
