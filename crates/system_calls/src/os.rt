//! The real system: each call is one of the library's.

ghost use Rattle.std.specs.Prelude.{None, refl};

use crate::kind::Kind;
use crate::system::System;
use std::alloc::Global;
use std::fs::{self, File, Metadata, OpenOptions};
use std::io::{self, ErrorKind};
use std::os::unix::fs::FileExt;

/// The system that the program runs on. It tells nothing: that it does what `System` says of one
/// that tells is trusted.
#[derive(Drop)]
pub struct Os {
    rt: HostRuntime,
}

impl Os {
    /// The system of a runtime.
    pub fn new(rt: HostRuntime) -> Os {
        Os { rt }
    }
}

/// The answer of a call, None where it says that nothing stands at the path.
fn found<T>(answer: io::Result<T>) -> io::Result<Option<T>> {
    match answer {
        Ok(value) => Ok(Some(value)),
        Err(error) if is_missing(&error) => Ok(None),
        Err(error) => Err(error),
    }
}

/// Whether an error says that nothing stands at a path.
fn is_missing(error: &io::Error) -> bool {
    matches!(
        error.kind(),
        ErrorKind::NotFound | ErrorKind::NotADirectory | ErrorKind::InvalidFilename
    )
}

/// The answer of a call, None where it says that a folder is missing.
fn there<T>(answer: io::Result<T>) -> io::Result<Option<T>> {
    match answer {
        Ok(value) => Ok(Some(value)),
        Err(error) if error.kind() == ErrorKind::NotFound => Ok(None),
        Err(error) => Err(error),
    }
}

fn kind_of(found: Metadata) -> Kind {
    if found.is_file() {
        Kind::File(found.len())
    } else if found.is_dir() {
        Kind::Folder
    } else {
        Kind::Other
    }
}

impl System for Os {
    type File = File;

    ghost files = { λ _. None };

    ghost is_at = { λ _ _ _. Unit {0} };

    ghost short = { λ _. tt };

    ghost tells_alike = { λ a b. refl };

    fn stat(&self, path: &str) -> io::Result<Option<Kind>> {
        Ok(found(fs::metadata(&self.rt, path))?.map(kind_of))
    }

    fn list(&self, alloc: Global, folder: &str) -> io::Result<Option<Vec<String>>> {
        let Some(entries) = there(fs::read_dir(&self.rt, folder))? else {
            return Ok(None);
        };
        let mut names = Vec::new(alloc);
        for entry in entries {
            names.push(String::from_str(alloc, entry?.file_name())?)?;
        }
        Ok(Some(names))
    }

    fn open(&self, path: &str) -> io::Result<Option<File>> {
        found(File::open(&self.rt, path))
    }

    fn read(&self, file: &File, at: u64, into: &mut [u8]) -> io::Result<usize> {
        file.read_at(into, at)
    }

    fn make(&mut self, path: &str) -> io::Result<Option<File>> {
        there(
            OpenOptions::new()
                .write(true)
                .create(true)
                .open(&self.rt, path),
        )
    }

    fn make_folders(&mut self, path: &str) -> io::Result<()> {
        fs::create_dir_all(&self.rt, path)
    }

    fn write(&mut self, file: &File, at: u64, piece: &[u8]) -> io::Result<()> {
        file.write_all_at(piece, at)
    }

    fn truncate(&mut self, path: &str, size: u64) -> io::Result<()> {
        OpenOptions::new()
            .write(true)
            .open(&self.rt, path)?
            .set_len(size)
    }

    fn unlink(&mut self, path: &str) -> io::Result<()> {
        found(fs::remove_file(&self.rt, path))?;
        Ok(())
    }

    fn sync(&mut self, path: &str) -> io::Result<()> {
        match found(File::open(&self.rt, path))? {
            Some(file) => file.sync_all(),
            None => Ok(()),
        }
    }
}
