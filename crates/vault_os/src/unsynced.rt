//! What the next sync of an area makes durable.

ghost use Rattle.std.specs.Prelude.{◌≡◌, IsErr, IfOk, OnOk, OnErr, false, true, string_bytes};
ghost use Rattle.std.specs.Option.{option_map};
ghost use Rattle.vault_os.specs.Paths.{LeadsTo};
ghost use Rattle.system_calls.specs.System.{Stays};

use crate::errors::{SystemError, told};
use crate::listing::all_below;
use crate::open_files::OpenFiles;
use crate::paths::{Root, add_with_folders};
use std::alloc::{AllocError, Global};
use std::collections::BTreeSet;
use system_calls::System;

/// What the next sync of an area makes durable: at first all that it holds, later what changed.
#[derive(Drop)]
pub(crate) struct Unsynced {
    /// Paths of files, and of the folders above them.
    paths: BTreeSet<String>,
    /// Whether all that the area held at first was put among the paths.
    listed: bool,
    /// Whether a sync failed. What it lost is not known, so none succeeds after it.
    lost: bool,
}

impl Unsynced {
    /// All that an area holds.
    pub(crate) fn new(alloc: Global) -> Unsynced
        ensures { result.lost ≡ false }
    {
        Unsynced {
            paths: BTreeSet::new(alloc),
            listed: false,
            lost: false,
        }
    }

    /// Adds the path of a file that is about to change, and gives it. None where no file can have
    /// the name.
    pub(crate) fn path_to_change(
        &mut self,
        root: &Root,
        name: &[u8],
    ) -> Result<Option<String>, SystemError>
        ensures path { IfOk result (λ found. LeadsTo
            (string_bytes root.now.path) name.now (option_map string_bytes found)) }
        ensures lost { self.new.lost ≡ self.old.lost }
    {
        let path = root.path_of(name)?;
        if let Some(path) = &path {
            add_with_folders(root.alloc, &mut self.paths, path.as_str())?;
        }
        Ok(path)
    }

    /// Adds the path of a file that is about to be written.
    pub(crate) fn add_write<F: Drop>(
        &mut self,
        root: &Root,
        kept: &OpenFiles<F>,
        name: &[u8],
    ) -> Result<(), SystemError>
        ensures { self.new.lost ≡ self.old.lost }
    {
        match &kept.written {
            Some(file) if file.is_named(name) => {
                add_with_folders(root.alloc, &mut self.paths, file.path.as_str())?;
            }
            _ => {
                self.path_to_change(root, name)?;
            }
        }
        Ok(())
    }

    /// Adds all that stands in the area's folder, where that wasn't done yet.
    pub(crate) fn list<S: System>(&mut self, root: &Root, system: &S) -> Result<(), SystemError>
        ensures listed { OnOk result (self.new.listed ≡ true) }
        ensures lost { self.new.lost ≡ self.old.lost }
    {
        if !self.listed {
            add_all(root, system, &mut self.paths)?;
            self.listed = true;
        }
        Ok(())
    }

    /// Syncs each path.
    pub(crate) fn sync<S: System>(
        &mut self,
        alloc: Global,
        system: &mut S,
    ) -> Result<(), SystemError>
        ensures fails { self.old.lost ≡ true → IsErr result }
        ensures lost { OnErr result (self.new.lost ≡ true) }
        ensures same { S.files system.new ≡ S.files system.old }
        ensures open { Stays S.is_at system.old system.new }
    {
        if self.lost {
            return Err(SystemError::unsaid());
        }
        let synced = sync_each(alloc, system, &self.paths);
        if synced.is_ok() {
            self.paths.clear();
        } else {
            self.lost = true;
        }
        synced
    }
}

/// Adds a folder with all that stands below it, and the folders above it.
fn add_all<S: System>(
    root: &Root,
    system: &S,
    paths: &mut BTreeSet<String>,
) -> Result<(), SystemError> {
    let below = all_below(root, system)?;
    for name in &below.folders {
        add_below(root, paths, name.as_str())?;
    }
    for name in &below.files {
        add_below(root, paths, name.as_str())?;
    }
    Ok(())
}

fn add_below(root: &Root, paths: &mut BTreeSet<String>, name: &str) -> Result<(), AllocError> {
    let path = root.path_to(name)?;
    add_with_folders(root.alloc, paths, path.as_str())
}

fn sync_each<S: System>(
    alloc: Global,
    system: &mut S,
    paths: &BTreeSet<String>,
) -> Result<(), SystemError>
    ensures same { S.files system.new ≡ S.files system.old }
    ensures open { Stays S.is_at system.old system.new }
{
    for path in paths {
        told(alloc, "fsync", path.as_str(), system.sync(path.as_str()))?;
    }
    Ok(())
}
