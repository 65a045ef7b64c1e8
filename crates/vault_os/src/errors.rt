//! Errors of the system, and what is said of each.

ghost use Rattle.std.specs.Prelude.{◌≡◌, true, Ok, IfOk, IsErr, MatchResult};

use lsn_core::NoMemory;
use std::alloc::{AllocError, AllocFailed, Global};
use std::io::{self, ErrorKind};

/// An error of the system.
#[derive(Drop)]
pub(crate) struct SystemError {
    /// Whether it is want of memory.
    pub(crate) is_memory: bool,
    /// The call, the path and the error, on one line without its end. None where there was no
    /// memory for it.
    pub(crate) said: Option<String>,
}

impl SystemError {
    /// The error of a call on a path.
    pub(crate) fn new(alloc: Global, call: &str, path: &str, error: io::Error) -> SystemError {
        let said = format!(in alloc; "{call} {}: {error}", path.escape_debug());
        SystemError {
            is_memory: error.kind() == ErrorKind::OutOfMemory,
            said: said.ok(),
        }
    }

    /// The error at a name below a folder that no file can have.
    pub(crate) fn bad_name(alloc: Global, folder: &str, name: &[u8]) -> SystemError {
        let error = io::Error::from(ErrorKind::InvalidFilename);
        let said = format!(in alloc; "open {folder}/{}: {error}", name.escape_ascii());
        SystemError {
            is_memory: false,
            said: said.ok(),
        }
    }

    fn no_memory() -> SystemError
        ensures { result.is_memory ≡ true }
    {
        SystemError {
            is_memory: true,
            said: None,
        }
    }

    /// An error of which nothing more is to be said.
    pub(crate) fn unsaid() -> SystemError {
        SystemError {
            is_memory: false,
            said: None,
        }
    }
}

impl From<AllocError> for SystemError {
    ghost from_gives = { λ _ e. e.is_memory ≡ true };

    fn from(_: AllocError) -> Self {
        SystemError::no_memory()
    }
}

impl<T: Drop> From<AllocFailed<T>> for SystemError {
    ghost from_gives = { λ _ e. e.is_memory ≡ true };

    fn from(_: AllocFailed<T>) -> Self {
        SystemError::no_memory()
    }
}

impl From<NoMemory> for SystemError {
    ghost from_gives = { λ _ e. e.is_memory ≡ true };

    fn from(_: NoMemory) -> Self {
        SystemError::no_memory()
    }
}

/// The answer of a call of the system on a path.
pub(crate) fn told<T>(
    alloc: Global,
    call: &str,
    path: &str,
    answer: io::Result<T>,
) -> Result<T, SystemError>
    ensures answer { MatchResult answer (λ value. result ≡ Ok value) (λ _. IsErr result) }
    ensures told { IfOk result (λ value. answer ≡ Ok value) }
{
    match answer {
        Ok(value) => Ok(value),
        Err(error) => Err(SystemError::new(alloc, call, path, error)),
    }
}
