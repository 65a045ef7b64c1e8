//! What a drill comes to.

ghost use Rattle.std.specs.Prelude.{◌≡◌};
ghost use Rattle.pgbackup_cli.specs.declared.drill_command.report.DrillFault.TheVariants as drill;

use crate::drill_command::clearing::Unclear;
use chain_commands::RestoreFault;
use lsn_core::{AreaFault, Lsn, NoMemory, Text};
use run_answers::{RunFault, RunReport};
use store_commands::{InitFault, ReplayReport};

/// What was restored: how many forks and pages, and the SHA-256 of the pages in hexadecimal, bytes
/// 0 to 7 of each taken as zeros.
#[derive(Debug, Drop)]
pub struct DrillReport {
    pub forks: u64,
    pub pages: u64,
    pub sum: Text,
}

/// Why a drill was not done.
#[derive(Drop)]
pub enum DrillFault {
    /// Memory ran out.
    NoMemory,
    /// The areas that have to be empty aren't, or can't be told to be.
    Area(Unclear),
    /// The store wasn't made: what `init` came to.
    Init(Result<Lsn, InitFault>),
    /// The run wasn't begun, or didn't end well: what `run` came to.
    Run(Result<RunReport, RunFault>),
    /// The backups weren't restored: what `restore` came to.
    Restore(Result<ReplayReport, RestoreFault>),
    /// The output's area couldn't be read again.
    Read(AreaFault),
}

impl From<Unclear> for DrillFault {
    ghost from_gives = { λ why e. e ≡ drill.Area why };

    fn from(why: Unclear) -> Self {
        DrillFault::Area(why)
    }
}

impl From<NoMemory> for DrillFault {
    ghost from_gives = { λ _ e. e ≡ drill.NoMemory };

    fn from(_: NoMemory) -> Self {
        DrillFault::NoMemory
    }
}
