//! The layout of a store's WAL: places, cutting and page heads.

ghost use Rattle.std.specs.Prelude.{◌≡◌, ◌+◌, ◌-◌, ◌%◌, ◌^◌, ◌≤◌, length, IfOk};
ghost use Rattle.std.specs.Result.{result_err};
ghost use Rattle.lsn_core.specs.Sizes.{page_size};
ghost use Rattle.wal_pages.specs.Places.{head_size, start_after, end_of};
ghost use Rattle.wal_pages.specs.Heads.{head_fault};
ghost use Rattle.wal_pages.specs.Spread.{spread};

use crate::cutting::spread_pages;
use crate::heads::{HeadFault, head_fault};
use crate::places::{flat_before, head_size, place};
use lsn_core::byte_words::aligned;
use lsn_core::{Lsn, NoMemory, Settings};
use std::alloc::Global;
use std::marker::Model;

/// How the WAL of a store with these settings is laid out over pages and segments (PostgreSQL
/// manual, WAL Internals). Contracts see the settings.
#[derive(Clone, Copy, Debug, PartialEq, Eq)]
pub struct Layout {
    settings: Settings,
}

impl Model for Layout {
    ghost use Rattle.lsn_core.specs.Segment.{StoreSettings, IsSegmentMib, IsRelseg};

    ghost Value = { StoreSettings };

    ghost view = { λ l. l.settings };

    ghost invariant = { λ l. IsSegmentMib l.settings.segment × IsRelseg l.settings.relseg };

    ghost inverse = { λ s. record { settings = s } };
}

impl Layout {
    /// The layout of a store's WAL.
    pub fn new(settings: &Settings) -> Layout
        ensures { result ≡ settings.now }
    {
        // known: what the invariant asks of settings
        let _mib = settings.segment();
        let _relseg = settings.relseg();
        Layout {
            settings: *settings,
        }
    }

    /// The settings of which this is the layout.
    pub fn settings(&self) -> Settings
        ensures { result ≡ self.now }
    {
        self.settings
    }

    /// Where an entry starts behind an end, which is at most 2^52: at that place, or behind the
    /// page head that begins there.
    #[tactic(auto, unfolding(crate::specs::Places::start_after))]
    pub fn start_after(&self, end: Lsn) -> Lsn
        requires { end.0 ≤ 2 ^ 52 }
        ensures { result.0 ≡ start_after self.now.segment end.0 }
    {
        let size = self.settings.segment();
        Lsn(place(size, flat_before(size, end.0)))
    }

    /// Where an entry of so many bytes ends that starts at a place, which is at most 2^52: behind
    /// its padding to a multiple of 8.
    #[tactic(auto, unfolding(crate::specs::Places::stop_of))]
    pub fn end_of(&self, start: Lsn, total: u32) -> Lsn
        requires { start.0 ≤ 2 ^ 52 }
        ensures end { result.0 ≡ end_of self.now.segment start.0 total }
        ensures bound { result.0 ≤ 2 ^ 53 }
    {
        let size = self.settings.segment();
        let room = aligned(u64::from(total));
        let last = (flat_before(size, start.0) + room).saturating_sub(1);
        Lsn(place(size, last) + 1)
    }

    /// The archive's bytes from a place, which is at most 2^52, to the end of an entry of these
    /// bytes, 24 to 4,194,304 of them, that comes next there: the entry's bytes, zeros up to its
    /// end, and each page head that begins before it (PostgreSQL manual, WAL Internals).
    ///
    /// # Errors
    ///
    /// `NoMemory` where memory ran out.
    pub fn spread(&self, alloc: Global, before: Lsn, flat: &[u8]) -> Result<Vec<u8>, NoMemory>
        requires place { before.0 ≤ 2 ^ 52 }
        requires least { 24 ≤ length flat.now }
        requires most { length flat.now ≤ 4194304 }
        ensures { IfOk result (λ bytes. bytes.items
            ≡ spread self.now.segment self.now.system before.0 flat.now) }
    {
        let end = self.end_of(before, flat.len() as u32).0;
        let bytes = spread_pages(alloc, &self.settings, before.0, end, flat)?;
        Ok(bytes)
    }

    /// Whether the head of a page passes on which so many bytes of an entry are still to come.
    /// None for these leaves the continuation untested.
    ///
    /// # Errors
    ///
    /// The first test that the head doesn't pass.
    pub fn check_head(&self, bytes: &[u8], at: Lsn, rest: Option<u32>) -> Result<(), HeadFault>
        requires page { at.0 % page_size ≡ 0 }
        requires size { head_size self.now.segment at.0 ≤ length bytes.now }
        ensures { result_err result
            ≡ head_fault self.now.segment self.now.system at.0 rest bytes.now }
    {
        let size = self.settings.segment();
        match head_fault(size, self.settings.system(), at.0, rest, bytes) {
            Some(why) => Err(why),
            None => Ok(()),
        }
    }
}
