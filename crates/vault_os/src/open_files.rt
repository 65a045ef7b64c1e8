//! The files that an area keeps open.

ghost use Rattle.std.specs.Prelude.{◌≡◌, ◌↔◌, [], None, IsTrue, OnOk, OnErr};
ghost use Rattle.std.specs.List.{push};
ghost use Rattle.vault_os.specs.Kept.{with_room};

use lsn_core::NoMemory;
use std::alloc::Global;

/// How many files are kept open to be read.
const MOST: usize = 4;

/// An open file, and its name in its area.
#[derive(Drop)]
pub(crate) struct OpenFile<F: Drop> {
    pub(crate) name: Vec<u8>,
    pub(crate) path: String,
    pub(crate) file: F,
}

impl<F: Drop> OpenFile<F> {
    /// Whether the file has this name.
    pub(crate) fn is_named(&self, name: &[u8]) -> bool
        ensures { IsTrue result ↔ (self.now.name.items ≡ name.now) }
    {
        self.name.as_slice() == name
    }
}

/// The files that an area keeps open: up to four to be read, the one that was opened last behind
/// the others, and one to be written.
#[derive(Drop)]
pub(crate) struct OpenFiles<F: Drop> {
    pub(crate) read: Vec<OpenFile<F>>,
    pub(crate) written: Option<OpenFile<F>>,
}

impl<F: Drop> OpenFiles<F> {
    /// No open files.
    pub(crate) fn new(alloc: Global) -> OpenFiles<F>
        ensures read { result.read.items ≡ [] }
        ensures written { result.written ≡ None }
    {
        OpenFiles {
            read: Vec::new(alloc),
            written: None,
        }
    }

    /// Keeps a file open to be read, in place of the one that was opened first where there are
    /// four.
    pub(crate) fn keep(&mut self, file: OpenFile<F>) -> Result<(), NoMemory>
        ensures kept { OnOk result (self.new.read.items
            ≡ push (with_room self.old.read.items) file) }
        ensures left { OnErr result (self.new.read.items ≡ with_room self.old.read.items) }
        ensures written { self.new.written ≡ self.old.written }
    {
        if self.read.len() >= MOST {
            self.read.remove(0);
        }
        self.read.push(file)?;
        Ok(())
    }

    /// Keeps no file open any longer.
    pub(crate) fn close(&mut self)
        ensures read { self.new.read.items ≡ [] }
        ensures written { self.new.written ≡ None }
    {
        self.read.clear();
        self.written = None;
    }
}
