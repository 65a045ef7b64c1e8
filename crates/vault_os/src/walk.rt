//! How far a walk through a folder and those below it has come.

ghost use Rattle.std.specs.Prelude.{◌≡◌, OnOk, string_bytes};
ghost use Rattle.vault_os.specs.Walk.{AddsFile, AddsFolder, AddsEntry};

use crate::errors::SystemError;
use std::collections::BTreeSet;
use system_calls::Kind;

/// The folders that are still to read, each with a slash behind it, and the files that were found.
#[derive(Drop)]
pub(crate) struct Walk {
    pub(crate) unread: Vec<String>,
    pub(crate) files: BTreeSet<String>,
}

impl Walk {
    /// Adds what stands at a path to the folders that are still to read, or to the files.
    pub(crate) fn add(&mut self, path: String, kind: Option<Kind>) -> Result<(), SystemError>
        ensures { OnOk result (AddsEntry (string_bytes path) kind self.old self.new) }
    {
        match kind {
            Some(Kind::File(_)) => self.add_file(path),
            Some(Kind::Folder) => self.add_folder(path),
            Some(Kind::Other) | None => Ok(()),
        }
    }

    /// Adds a file.
    fn add_file(&mut self, path: String) -> Result<(), SystemError>
        ensures { OnOk result (AddsFile (string_bytes path) self.old self.new) }
    {
        self.files.insert(path)?;
        Ok(())
    }

    /// Adds a folder that is still to read.
    fn add_folder(&mut self, mut path: String) -> Result<(), SystemError>
        ensures { OnOk result (AddsFolder (string_bytes path) self.old self.new) }
    {
        path.push('/')?;
        self.unread.push(path)?;
        Ok(())
    }
}
