//! The ways in which a call on the outside may fail, and on which area it did.

ghost use Rattle.std.specs.Prelude.{◌≡◌};
ghost use Rattle.lsn_core.specs.declared.fault.AreaFault.TheVariants as area;
ghost use Rattle.lsn_core.specs.declared.fault.StoreFault.TheVariants as store;
ghost use Rattle.lsn_core.specs.declared.fault.MarkFault.TheVariants as mark;

use std::alloc::{AllocError, AllocFailed};

/// Memory ran out. Any call that allocates may answer it.
#[derive(Clone, Copy, Debug, PartialEq, Eq)]
pub struct NoMemory;

impl From<AllocError> for NoMemory {
    fn from(_: AllocError) -> Self {
        NoMemory
    }
}

impl<T: Drop> From<AllocFailed<T>> for NoMemory {
    fn from(_: AllocFailed<T>) -> Self {
        NoMemory
    }
}

/// Why a call on an area of files, a source or a sink failed.
#[derive(Clone, Copy, Debug, PartialEq, Eq)]
pub enum AreaFault {
    /// The device failed, and the object's count of faults rose.
    Failed,
    /// Memory ran out.
    NoMemory,
}

impl From<NoMemory> for AreaFault {
    ghost from_gives = { λ _ e. e ≡ area.NoMemory };

    fn from(_: NoMemory) -> Self {
        AreaFault::NoMemory
    }
}

impl From<AllocError> for AreaFault {
    ghost from_gives = { λ _ e. e ≡ area.NoMemory };

    fn from(_: AllocError) -> Self {
        AreaFault::NoMemory
    }
}

impl<T: Drop> From<AllocFailed<T>> for AreaFault {
    ghost from_gives = { λ _ e. e ≡ area.NoMemory };

    fn from(_: AllocFailed<T>) -> Self {
        AreaFault::NoMemory
    }
}

/// Which area of a call that works on several failed: that of the WAL, the output, or that of a
/// chain's member.
#[derive(Clone, Copy, Debug, PartialEq, Eq)]
pub enum Side {
    Wal,
    Out,
    /// The member at this place of the chain, from 0.
    Member(u32),
}

/// An area of an open store: its WAL, one of its four data areas, or its summaries.
#[derive(Clone, Copy, Debug, PartialEq, Eq)]
pub enum StoreArea {
    Wal,
    /// The data area of this number, from 0.
    Data(u32),
    Sums,
}

/// Why a call of an open store failed.
#[derive(Clone, Copy, Debug, PartialEq, Eq)]
pub enum StoreFault {
    /// The device of this area failed, and the area's count of faults rose.
    Failed(StoreArea),
    /// Memory ran out.
    NoMemory,
}

impl From<NoMemory> for StoreFault {
    ghost from_gives = { λ _ e. e ≡ store.NoMemory };

    fn from(_: NoMemory) -> Self {
        StoreFault::NoMemory
    }
}

impl From<AllocError> for StoreFault {
    ghost from_gives = { λ _ e. e ≡ store.NoMemory };

    fn from(_: AllocError) -> Self {
        StoreFault::NoMemory
    }
}

impl<T: Drop> From<AllocFailed<T>> for StoreFault {
    ghost from_gives = { λ _ e. e ≡ store.NoMemory };

    fn from(_: AllocFailed<T>) -> Self {
        StoreFault::NoMemory
    }
}

/// Why a store took no entry of its own, as a checkpoint's.
#[derive(Clone, Copy, Debug, PartialEq, Eq)]
pub enum MarkFault {
    /// The device of this area failed, and the area's count of faults rose.
    Failed(StoreArea),
    /// The entry has no room below the WAL's end. The number is the length of the history.
    WalFull(u64),
    /// Memory ran out.
    NoMemory,
}

impl From<NoMemory> for MarkFault {
    ghost from_gives = { λ _ e. e ≡ mark.NoMemory };

    fn from(_: NoMemory) -> Self {
        MarkFault::NoMemory
    }
}

impl From<AllocError> for MarkFault {
    ghost from_gives = { λ _ e. e ≡ mark.NoMemory };

    fn from(_: AllocError) -> Self {
        MarkFault::NoMemory
    }
}

impl<T: Drop> From<AllocFailed<T>> for MarkFault {
    ghost from_gives = { λ _ e. e ≡ mark.NoMemory };

    fn from(_: AllocFailed<T>) -> Self {
        MarkFault::NoMemory
    }
}
