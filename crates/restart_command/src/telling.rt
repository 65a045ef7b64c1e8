//! The line that `restart` prints, and its status.

ghost use Rattle.std.specs.Prelude.{◌≡◌, IfOk};
ghost use Rattle.restart_command.specs.Restart.{why_text, restart_fault_text, restart_text};
ghost use Rattle.restart_command.specs.Restart.{why_status, restart_status};

use crate::command::RestartFault;
use command_base::{
    Status, area_status, refused_line, store_status, store_text, take_text, wal_status, wal_text,
};
use lsn_core::{NoMemory, SegSize, StoreFault, Text};
use recovery::RecoveryFault;
use std::alloc::Global;
use store_commands::{ReplayReport, made_line};
use store_restart::RestartWhy;

fn why_text(alloc: Global, size: SegSize, why: RestartWhy) -> Result<Text, NoMemory>
    ensures { IfOk result (λ text. text ≡ why_text size why) }
{
    match why {
        RestartWhy::Damaged(damage) => wal_text(alloc, RecoveryFault::Damaged(size, damage)),
        RestartWhy::BadDelta(place) => wal_text(alloc, RecoveryFault::BadDelta(place)),
        RestartWhy::Failed(area) => store_text(alloc, StoreFault::Failed(area)),
        RestartWhy::NoMemory => store_text(alloc, StoreFault::NoMemory),
    }
}

fn restart_fault_text(alloc: Global, fault: &RestartFault) -> Result<Text, NoMemory>
    ensures { IfOk result (λ text. text ≡ restart_fault_text fault.now) }
{
    match fault {
        RestartFault::Site(fault) => take_text(alloc, fault),
        RestartFault::Settings(why) => wal_text(alloc, *why),
        RestartFault::Store(size, why) => why_text(alloc, *size, *why),
    }
}

/// The line that `restart` prints.
pub fn restart_text(
    alloc: Global,
    came: &Result<ReplayReport, RestartFault>,
) -> Result<Text, NoMemory>
    ensures { IfOk result (λ text. text ≡ restart_text came.now) }
{
    match came {
        Ok(report) => made_line(alloc, b"restarted ", report),
        Err(fault) => refused_line(alloc, restart_fault_text(alloc, fault)?.as_bytes()),
    }
}

fn why_status(why: RestartWhy) -> Status
    ensures { result ≡ why_status why }
{
    match why {
        RestartWhy::Damaged(_) => Status::Refused,
        RestartWhy::BadDelta(_) => Status::Refused,
        RestartWhy::Failed(area) => store_status(StoreFault::Failed(area)),
        RestartWhy::NoMemory => store_status(StoreFault::NoMemory),
    }
}

/// The status that `restart` ends with.
pub fn restart_status(came: &Result<ReplayReport, RestartFault>) -> Status
    ensures { result ≡ restart_status came.now }
{
    match came {
        Ok(_) => Status::Done,
        Err(RestartFault::Site(fault)) => area_status(fault.why),
        Err(RestartFault::Settings(why)) => wal_status(*why),
        Err(RestartFault::Store(_, why)) => why_status(*why),
    }
}
