//! The lines that `run` prints, and its status.

ghost use Rattle.std.specs.Prelude.{◌≡◌, IfOk};
ghost use Rattle.run_answers.specs.Report.{first_told};
ghost use Rattle.run_answers.specs.Telling.{script_text, run_fault_text, run_text, last_text};
ghost use Rattle.run_answers.specs.Telling.{stop_status, ending_status, run_status};

use crate::answer::Stop;
use crate::begin::{begin_status, begin_text};
use crate::outcome::{RunFault, RunReport};
use crate::report::{last_line, report_text};
use command_base::{Status, area_status, area_text, joined, refused_line, store_status, take_text};
use lsn_core::{NoMemory, Text};
use scripts::{Why, why_text};
use std::alloc::Global;

fn script_text(alloc: Global, line: u32, why: Why) -> Result<Text, NoMemory>
    ensures { IfOk result (λ text. text ≡ script_text line why) }
{
    let number = format!(in alloc; "{line}")?;
    joined(
        alloc,
        &[b"2 ScriptLine ", number.as_bytes(), b" ", why_text(why)],
    )
}

fn run_fault_text(alloc: Global, fault: &RunFault) -> Result<Text, NoMemory>
    ensures { IfOk result (λ text. text ≡ run_fault_text fault.now) }
{
    match fault {
        RunFault::Input(why) => area_text(alloc, b"input", *why),
        RunFault::Script(line, why) => script_text(alloc, *line, *why),
        RunFault::Site(fault) => take_text(alloc, fault),
        RunFault::Begin(why) => begin_text(alloc, *why),
        RunFault::NoMemory => joined(alloc, &[b"61 NoMemory"]),
    }
}

/// The lines that `run` prints.
pub fn run_text(alloc: Global, came: &Result<RunReport, RunFault>) -> Result<Text, NoMemory>
    ensures { IfOk result (λ text. text ≡ run_text came.now) }
{
    match came {
        Ok(report) => report_text(alloc, report),
        Err(fault) => refused_line(alloc, run_fault_text(alloc, fault)?.as_bytes()),
    }
}

/// The last of the lines that `run` prints, which says how it ended.
pub fn last_text(alloc: Global, came: &Result<RunReport, RunFault>) -> Result<Text, NoMemory>
    ensures { IfOk result (λ text. text ≡ last_text came.now) }
{
    match came {
        Ok(report) => last_line(alloc, report),
        Err(fault) => refused_line(alloc, run_fault_text(alloc, fault)?.as_bytes()),
    }
}

fn stop_status(stop: Stop) -> Status
    ensures { result ≡ stop_status stop }
{
    match stop {
        Stop::Store(fault) => store_status(fault),
        Stop::Backup | Stop::Prior => Status::Device,
    }
}

/// The status of a report: by the line by which a worker was stopped first; where none was, by how
/// closing the store ended.
fn ending_status(report: &RunReport) -> Status
    ensures { result ≡ ending_status (first_told report.now.told) report.now.closed }
{
    match report.told.stop() {
        Some((_, stop)) => stop_status(stop),
        None => match report.closed {
            Ok(_) => Status::Done,
            Err(why) => store_status(why),
        },
    }
}

/// The status that `run` ends with.
pub fn run_status(came: &Result<RunReport, RunFault>) -> Status
    ensures { result ≡ run_status came.now }
{
    match came {
        Ok(report) => ending_status(report),
        Err(RunFault::Input(why)) => area_status(*why),
        Err(RunFault::Script(_, _)) => Status::Usage,
        Err(RunFault::Site(fault)) => area_status(fault.why),
        Err(RunFault::Begin(why)) => begin_status(*why),
        Err(RunFault::NoMemory) => Status::Memory,
    }
}
