//! The size of a WAL segment, and the settings of a store.

ghost use Rattle.std.specs.Prelude.{◌≡◌, ◌*◌, ◌≤◌, ◌↔◌, IsSome, IfSome};
ghost use Rattle.lsn_core.specs.Segment.{IsSegmentMib, IsRelseg, settings_with};

use crate::sizes::MOST_RELSEG;
use std::marker::Model;

/// The size of a segment file, a power of two from 1 to 1024 MiB. Contracts see the number of MiB.
#[derive(Clone, Copy, Debug, PartialEq, Eq)]
pub struct SegSize {
    mib: u32,
}

impl Model for SegSize {
    ghost use Rattle.std.specs.Prelude.{ℕ};
    ghost use Rattle.lsn_core.specs.Segment.{IsSegmentMib};

    ghost Value = { ℕ };

    ghost view = { λ s. s.mib };

    ghost invariant = { λ s. IsSegmentMib s.mib };

    ghost inverse = { λ mib. record { mib = mib } };
}

impl SegSize {
    /// The size of so many MiB. None exactly where that is no power of two from 1 to 1024.
    pub fn new(mib: u32) -> Option<SegSize>
        ensures some { IsSome result ↔ IsSegmentMib mib }
        ensures value { IfSome result (λ s. s ≡ mib) }
    {
        if mib >= 1 && mib <= 1024 && 1024 % mib == 0 {
            Some(SegSize { mib })
        } else {
            None
        }
    }

    /// The size where nothing else is said, 16 MiB (PostgreSQL manual, initdb --wal-segsize).
    pub fn standard() -> SegSize
        ensures { result ≡ 16 }
    {
        SegSize { mib: 16 }
    }

    /// How many MiB a segment file has.
    pub fn mib(self) -> u32
        ensures value { result ≡ self }
        ensures range { IsSegmentMib result }
    {
        self.mib
    }

    /// How many bytes a segment file has.
    pub fn bytes(self) -> u64
        ensures bytes { result ≡ self * 1048576 }
        ensures some { 1 ≤ self }
        ensures bound { self ≤ 1024 }
    {
        u64::from(self.mib) * 1_048_576
    }
}

/// What a store was made with: the segment size of its WAL, the blocks per segment of a fork's
/// files (1 to 131072), and the system identifier that stands in its WAL. Contracts see
/// `StoreSettings`.
#[derive(Clone, Copy, Debug, PartialEq, Eq)]
pub struct Settings {
    segment: SegSize,
    relseg: u32,
    system: u64,
}

impl Model for Settings {
    ghost use Rattle.lsn_core.specs.Segment.{StoreSettings, IsSegmentMib, IsRelseg};

    ghost Value = { StoreSettings };

    ghost view = { λ s. record { segment = s.segment; relseg = s.relseg; system = s.system } };

    ghost invariant = { λ s. IsSegmentMib s.segment × IsRelseg s.relseg };

    ghost inverse = { λ s. record { segment = s.segment; relseg = s.relseg; system = s.system } };
}

impl Settings {
    /// The settings with these values. None exactly unless `relseg` is 1 to 131072.
    pub fn new(segment: SegSize, relseg: u32, system: u64) -> Option<Settings>
        ensures some { IsSome result ↔ IsRelseg relseg }
        ensures value { IfSome result (λ s. s ≡ settings_with segment relseg system) }
    {
        // known: the size is one of a segment, which the invariant asks
        let _mib = segment.mib();
        if relseg >= 1 && relseg <= MOST_RELSEG {
            Some(Settings {
                segment,
                relseg,
                system,
            })
        } else {
            None
        }
    }

    /// The segment size of the WAL.
    pub fn segment(self) -> SegSize
        ensures value { result ≡ self.segment }
        ensures range { IsSegmentMib result }
    {
        self.segment
    }

    /// How many blocks a segment of a fork's files has (PostgreSQL manual, configure
    /// --with-segsize-blocks).
    pub fn relseg(self) -> u32
        ensures value { result ≡ self.relseg }
        ensures least { 1 ≤ result }
        ensures most { result ≤ 131072 }
    {
        self.relseg
    }

    /// The system identifier, which stands in the first page of each segment of the WAL.
    pub fn system(self) -> u64
        ensures value { result ≡ self.system }
    {
        self.system
    }
}
