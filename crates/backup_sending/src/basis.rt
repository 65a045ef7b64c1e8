//! By what the files of an incremental backup are planned.

ghost use Rattle.std.specs.Prelude.{◌≡◌};

use manifest::{FileRow, Manifest};
use wal_summary::{ForkSummary, Summary};

/// By what the files of an incremental backup are planned.
#[derive(Drop)]
pub struct Basis {
    /// How many blocks a segment file of a fork has at most.
    pub relseg: u32,
    /// The summary of the WAL since the prior backup's start.
    pub summary: Summary,
    /// The manifest of the prior backup.
    pub prior: Manifest,
}

impl Basis {
    /// How many blocks a segment file of a fork has at most.
    pub(crate) fn relseg(&self) -> u32
        ensures { result ≡ self.now.relseg }
    {
        self.relseg
    }

    /// What the summary has of the forks, in order.
    pub(crate) fn forks(&self) -> &[ForkSummary]
        ensures { result.now ≡ self.now.summary.forks }
    {
        self.summary.forks.as_slice()
    }

    /// The rows of the prior backup's manifest.
    pub(crate) fn rows(&self) -> &[FileRow]
        ensures { result.now ≡ self.now.prior.files }
    {
        &self.prior.files
    }
}
