//! What `run` comes to.

ghost use Rattle.std.specs.Prelude.{◌≡◌};
ghost use Rattle.run_answers.specs.declared.outcome.RunFault.TheVariants as run;

use crate::told::ToldTasks;
use lsn_core::{AreaFault, Lsn, NoMemory, StoreFault};
use scripts::Why;
use store_faults::BeginWhy;
use vault::TakeFault;

/// What the run of a script came to: where the WAL ended before, the script with the answers to its
/// lines, and what closing the store came to: where the WAL ends now, or why not all is known to be
/// written.
#[derive(Drop)]
pub struct RunReport {
    pub opened: Lsn,
    pub told: ToldTasks,
    pub closed: Result<Lsn, StoreFault>,
}

/// Why no script was run.
#[derive(Debug, Drop)]
pub enum RunFault {
    /// The input failed, or memory ran out while it was read.
    Input(AreaFault),
    /// This line of the script is refused.
    Script(u32, Why),
    /// The site didn't hand out an area of the store.
    Site(TakeFault),
    /// No store can be begun on the areas, or memory ran out.
    Begin(BeginWhy),
    /// Memory ran out before an area was asked for.
    NoMemory,
}

impl From<TakeFault> for RunFault {
    ghost from_gives = { λ fault e. e ≡ run.Site fault };

    fn from(fault: TakeFault) -> Self {
        RunFault::Site(fault)
    }
}

impl From<NoMemory> for RunFault {
    ghost from_gives = { λ _ e. e ≡ run.NoMemory };

    fn from(_: NoMemory) -> Self {
        RunFault::NoMemory
    }
}
