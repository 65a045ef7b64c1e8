//! What is printed where no store can be begun, and the status.

ghost use Rattle.std.specs.Prelude.{◌≡◌, IfOk};
ghost use Rattle.run_answers.specs.Begin.{begin_text, begin_status};

use command_base::{Status, store_status, store_text, wal_status, wal_text};
use lsn_core::{NoMemory, Text};
use std::alloc::Global;
use store_faults::BeginWhy;

/// No store can be begun.
pub fn begin_text(alloc: Global, why: BeginWhy) -> Result<Text, NoMemory>
    ensures { IfOk result (λ text. text ≡ begin_text why) }
{
    match why {
        BeginWhy::Wal(fault) => wal_text(alloc, fault),
        BeginWhy::Replay(fault) => wal_text(alloc, fault),
        BeginWhy::Data(fault) => store_text(alloc, fault),
    }
}

/// The status of a store that can't be begun.
pub fn begin_status(why: BeginWhy) -> Status
    ensures { result ≡ begin_status why }
{
    match why {
        BeginWhy::Wal(fault) => wal_status(fault),
        BeginWhy::Replay(fault) => wal_status(fault),
        BeginWhy::Data(fault) => store_status(fault),
    }
}
