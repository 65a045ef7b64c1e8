//! Where and why the archive of a WAL is damaged.

ghost use Rattle.std.specs.Prelude.{◌≡◌};
ghost use Rattle.wal_archive.specs.declared.fault.ReadFault.TheVariants.{NoMemory};
ghost use Rattle.wal_archive.specs.Reading.{read_fault_of};

use lsn_core::{AreaFault, Lsn};
use std::alloc::AllocError;
use wal_pages::HeadFault;
use wal_record::Why;

/// Why the archive is broken at a place (profile).
#[derive(Clone, Copy, Debug, PartialEq, Eq)]
pub enum Broken {
    /// The head of the page that begins there is no such head.
    Head(HeadFault),
    /// The entry that starts there tells a length that none has.
    Length,
    /// It doesn't tell where the entry before it starts.
    Prev,
    /// Its sum isn't that of its bytes.
    Crc,
    /// Its announcements aren't of the grammar.
    Header,
    /// The archive ends within the entry or the head that begins there.
    Torn,
    /// A segment's file ends there, and the archive goes on behind it.
    SegSize,
    /// No entry may start there.
    Place,
}

/// Where an archive is damaged, and how.
#[derive(Clone, Copy, Debug, PartialEq, Eq)]
pub enum Damage {
    /// The segment of this number has no file, and the archive goes on.
    Missing(u64),
    /// The archive is broken at a place.
    Broken(Lsn, Broken),
    /// The entry that starts there is of a resource manager, with an info byte, that isn't read.
    Unsupported(Lsn, u8, u8),
    /// What the entry that starts there says is refused.
    Content(Lsn, Why),
}

/// Why a reading of an archive didn't go on.
#[derive(Clone, Copy, Debug, PartialEq, Eq)]
pub enum ReadFault {
    /// The archive is damaged.
    Bad(Damage),
    /// A call on the area failed.
    Failed,
    /// Memory ran out.
    NoMemory,
}

impl From<AreaFault> for ReadFault {
    ghost from_gives = { λ fault e. e ≡ read_fault_of fault };

    fn from(fault: AreaFault) -> Self {
        match fault {
            AreaFault::Failed => ReadFault::Failed,
            AreaFault::NoMemory => ReadFault::NoMemory,
        }
    }
}

impl From<AllocError> for ReadFault {
    ghost from_gives = { λ _ e. e ≡ NoMemory };

    fn from(_: AllocError) -> Self {
        ReadFault::NoMemory
    }
}
