//! Why a manifest is refused.

ghost use Rattle.std.specs.Prelude.{◌≡◌};
ghost use Rattle.manifest.specs.declared.fault.ManifestFault.TheVariants as fault;

use lsn_core::NoMemory;
use std::alloc::{AllocError, AllocFailed};
use thiserror::Error;

/// The first cause to refuse a manifest. All but the last stand in the order in which they are
/// judged.
#[derive(Clone, Copy, Debug, PartialEq, Eq, Error)]
pub enum ManifestFault {
    /// The last line is no sum, or no line stands before it.
    #[error("the last line is no sum")]
    Lines,
    /// The sum isn't that of the lines before it.
    #[error("the sum differs")]
    Sum,
    /// The text is no JSON.
    #[error("no JSON")]
    Json,
    /// The version is this one, and neither 1 nor 2.
    #[error("version {0}")]
    Version(u64),
    /// The JSON value isn't that of a manifest.
    #[error("another shape")]
    Shape,
    /// A row's kind of sum is unknown, or its sum has other digits than that kind.
    #[error("an unknown kind of sum")]
    SumKind,
    /// The WAL's range is on this timeline, and not on 1.
    #[error("timeline {0}")]
    TimelineIs(u64),
    /// Memory ran out.
    #[error("out of memory")]
    NoMemory,
}

impl From<NoMemory> for ManifestFault {
    ghost from_gives = { λ _ e. e ≡ fault.NoMemory };

    fn from(_: NoMemory) -> Self {
        ManifestFault::NoMemory
    }
}

impl From<AllocError> for ManifestFault {
    ghost from_gives = { λ _ e. e ≡ fault.NoMemory };

    fn from(_: AllocError) -> Self {
        ManifestFault::NoMemory
    }
}

impl<T: Drop> From<AllocFailed<T>> for ManifestFault {
    ghost from_gives = { λ _ e. e ≡ fault.NoMemory };

    fn from(_: AllocFailed<T>) -> Self {
        ManifestFault::NoMemory
    }
}
