//! The line that `drill` prints, and its status.

ghost use Rattle.std.specs.Prelude.{◌≡◌, IfOk};
ghost use Rattle.chain_commands.specs.Restore.{restore_text};
ghost use Rattle.pgbackup_cli.specs.drill_command.Drill.{drill_members, drill_out};
ghost use Rattle.pgbackup_cli.specs.drill_command.Telling.{done_text, drill_fault_text, drill_status, drill_text};
ghost use Rattle.pgbackup_cli.specs.drill_command.Telling.{unclear_status, unclear_text};

use crate::drill_command::clearing::Unclear;
use crate::drill_command::report::{DrillFault, DrillReport};
use chain_commands::{RestoreFault, restore_status, restore_text};
use command_base::{
    Status, area_status, area_text, full_text, joined, names_of, output_name, refused_line,
};
use command_line::MemberNames;
use lsn_core::{NoMemory, Text};
use run_answers::{last_text, run_status};
use std::alloc::Global;
use store_commands::{ReplayReport, init_status, init_text};

fn done_text(alloc: Global, n: u32, report: &DrillReport) -> Result<Text, NoMemory>
    ensures { IfOk result (λ text. text ≡ done_text n report.now) }
{
    let (forks, pages) = (report.forks, report.pages);
    let number = format!(in alloc; "{n}")?;
    let forks = format!(in alloc; "{forks}")?;
    let pages = format!(in alloc; "{pages}")?;
    joined(
        alloc,
        &[
            b"drill ",
            number.as_bytes(),
            b" writers 4 commands 2084 forks ",
            forks.as_bytes(),
            b" pages ",
            pages.as_bytes(),
            b" contents ",
            report.sum.as_bytes(),
            b"\n",
        ],
    )
}

/// What `restore` of its chain prints.
fn unrestored_text(
    alloc: Global,
    came: &Result<ReplayReport, RestoreFault>,
) -> Result<Text, NoMemory>
    ensures { IfOk result (λ text. text ≡ restore_text drill_members drill_out came.now) }
{
    let names = names_of(alloc, &[b"drill_0", b"drill_1", b"drill_2"])?;
    let members = MemberNames { names: &names };
    restore_text(
        alloc,
        &members,
        output_name(alloc, b"drill")?.as_bytes(),
        came,
    )
}

fn unclear_text(alloc: Global, why: &Unclear) -> Result<Text, NoMemory>
    ensures { IfOk result (λ text. text ≡ unclear_text why.now) }
{
    match why {
        Unclear::NoMemory => joined(alloc, &[b"61 NoMemory"]),
        Unclear::Unread(area, why) => area_text(alloc, area.as_bytes(), *why),
        Unclear::Full(area) if area.as_bytes() == b"wal".as_slice() => {
            joined(alloc, &[b"42 AlreadyInit"])
        }
        Unclear::Full(area) => full_text(alloc, area.as_bytes()),
    }
}

fn unclear_status(why: &Unclear) -> Status
    ensures { result ≡ unclear_status why.now }
{
    match why {
        Unclear::NoMemory => Status::Memory,
        Unclear::Unread(_, why) => area_status(*why),
        Unclear::Full(_) => Status::Refused,
    }
}

fn drill_fault_text(alloc: Global, fault: &DrillFault) -> Result<Text, NoMemory>
    ensures { IfOk result (λ text. text ≡ drill_fault_text fault.now) }
{
    match fault {
        DrillFault::NoMemory => refused_line(alloc, b"61 NoMemory"),
        DrillFault::Area(why) => refused_line(alloc, unclear_text(alloc, why)?.as_bytes()),
        DrillFault::Init(came) => init_text(alloc, came),
        DrillFault::Run(came) => last_text(alloc, came),
        DrillFault::Restore(came) => unrestored_text(alloc, came),
        DrillFault::Read(why) => {
            let text = area_text(alloc, output_name(alloc, b"drill")?.as_bytes(), *why)?;
            refused_line(alloc, text.as_bytes())
        }
    }
}

/// The line that the drill of a number prints.
pub fn drill_text(
    alloc: Global,
    n: u32,
    came: &Result<DrillReport, DrillFault>,
) -> Result<Text, NoMemory>
    ensures { IfOk result (λ text. text ≡ drill_text n came.now) }
{
    match came {
        Ok(report) => done_text(alloc, n, report),
        Err(fault) => drill_fault_text(alloc, fault),
    }
}

/// The status that `drill` ends with.
pub fn drill_status(came: &Result<DrillReport, DrillFault>) -> Status
    ensures { result ≡ drill_status came.now }
{
    match came {
        Ok(_) => Status::Done,
        Err(DrillFault::NoMemory) => Status::Memory,
        Err(DrillFault::Area(why)) => unclear_status(why),
        Err(DrillFault::Read(why)) => area_status(*why),
        Err(DrillFault::Init(came)) => init_status(came),
        Err(DrillFault::Run(came)) => run_status(came),
        Err(DrillFault::Restore(came)) => restore_status(came),
    }
}
