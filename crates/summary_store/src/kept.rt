//! Summaries that are kept in an area.

ghost use Rattle.std.specs.Prelude.{◌≡◌, ◌<◌, IfOk, IfErr, IfSome};
ghost use Rattle.lsn_core.specs.Causes.{HasCause};
ghost use Rattle.vault.specs.Frame.{OnlyReads};
ghost use Rattle.wal_summary.specs.Kept.{AreInOrder, CoverAnswers};
ghost use Rattle.summary_store.specs.Kept.{AreKept, IsHandedBack};

use crate::opening::kept_in;
use lsn_core::{AreaFault, Lsn};
use std::alloc::Global;
use std::marker::Model;
use vault::Vault;
use wal_summary::{CoverFault, Summary, covering};

/// The summaries that are kept of an area, in order of their ranges, of which no two have a place
/// in common, and the area. Contracts see a `Sums` of `specs/Kept.antt`.
#[derive(Drop)]
pub struct Kept<V: Vault> {
    area: V,
    sums: Vec<Summary>,
}

impl<V: Vault> Model for Kept<V> {
    ghost use Rattle.wal_summary.specs.Kept.{AreInOrder};
    ghost use Rattle.summary_store.specs.Kept.{Sums};

    ghost Value = { Sums V };

    ghost view = { λ k. record { area = k.area; sums = k.sums.items } };

    ghost invariant = { λ k. AreInOrder 0 k.sums.items };
}

/// An area whose summaries couldn't be kept, and why. `Failed` comes only where the area's count of
/// faults rose.
#[derive(Drop)]
pub struct SumsFault<V: Vault> {
    pub area: V,
    pub why: AreaFault,
}

impl<V: Vault> Kept<V> {
    /// Takes the files of an area in byte order of their names, and keeps the summary of each that
    /// is a summary's file under the name of its range and starts at or past the end of the last
    /// one kept (profile). Only files with a name of that form are read. Nothing is written.
    pub fn open(alloc: Global, area: V) -> Result<Kept<V>, SumsFault<V>>
        ensures kept { IfOk result (λ kept. IfSome (V.files area) (λ m. AreKept m kept.sums)) }
        ensures reads { IfOk result (λ kept. OnlyReads V.Vault area kept.area) }
        ensures fault { IfErr result (IsHandedBack V.Vault area) }
    {
        let mut area = area;
        match kept_in(alloc, &mut area) {
            Ok(sums) => Ok(Kept { area, sums }),
            Err(why) => Err(SumsFault { area, why }),
        }
    }

    /// The summaries that are kept, in order of their ranges.
    pub fn kept(&self) -> &[Summary]
        ensures sums { result.now ≡ self.now.sums }
        ensures order { AreInOrder 0 result.now }
    {
        &self.sums
    }

    /// The merge of the kept summaries whose ranges overlap the range from `from` to below `to`,
    /// where they cover it. `Gap` exactly where a place of the range isn't covered, with the least
    /// such.
    pub fn covering(&self, alloc: Global, from: Lsn, to: Lsn) -> Result<Summary, CoverFault>
        requires range { from.0 < to.0 }
        ensures { CoverAnswers self.now.sums from.0 to.0 result }
    {
        covering(alloc, &self.sums, from, to)
    }

    /// The area.
    pub fn close(self) -> V
        ensures { result ≡ self.area }
    {
        self.area
    }
}
