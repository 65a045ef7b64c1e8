//! Why a script is refused.

ghost use Rattle.std.specs.Prelude.{◌≡◌};
ghost use Rattle.scripts.specs.declared.why.ScriptFault.TheVariants as script_fault;
ghost use Rattle.scripts.specs.Reasons.{why_bytes};

use lsn_core::NoMemory;
use std::alloc::{AllocError, AllocFailed};

/// Why a line is refused, in the order in which one line's reasons count (profile).
#[derive(Clone, Copy, Debug, PartialEq, Eq)]
pub enum Why {
    /// The line holds byte 4,194,305 of the script or a later one. A line feed belongs to its line.
    Long,
    /// The line holds a byte that is neither printable ASCII (32 to 126) nor a tab.
    Bytes,
    /// The line is none of the grammar, or a number, name, page or fork is out of range.
    Word,
    /// A command stands before the first worker.
    NoWorker,
    /// A worker's name comes again, or a command names a backup, as its own or as a prior one, that
    /// an earlier worker names.
    Twice,
    /// A worker more than a script may have.
    Many,
}

/// Why there is no script.
#[derive(Clone, Copy, Debug, PartialEq, Eq)]
pub enum ScriptFault {
    /// The first line that is refused, counted from 1, and why.
    Line(u32, Why),
    /// Memory ran out.
    NoMemory,
}

impl From<NoMemory> for ScriptFault {
    ghost from_gives = { λ _ e. e ≡ script_fault.NoMemory };

    fn from(_: NoMemory) -> Self {
        ScriptFault::NoMemory
    }
}

impl From<AllocError> for ScriptFault {
    ghost from_gives = { λ _ e. e ≡ script_fault.NoMemory };

    fn from(_: AllocError) -> Self {
        ScriptFault::NoMemory
    }
}

impl<T: Drop> From<AllocFailed<T>> for ScriptFault {
    ghost from_gives = { λ _ e. e ≡ script_fault.NoMemory };

    fn from(_: AllocFailed<T>) -> Self {
        ScriptFault::NoMemory
    }
}

/// The word that is printed for a reason.
pub fn why_text(why: Why) -> &'static [u8]
    ensures { result.now ≡ why_bytes why }
{
    match why {
        Why::Long => b"Long",
        Why::Bytes => b"Bytes",
        Why::Word => b"Word",
        Why::NoWorker => b"NoWorker",
        Why::Twice => b"Twice",
        Why::Many => b"Many",
    }
}
