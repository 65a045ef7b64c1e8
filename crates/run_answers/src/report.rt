//! The lines that the run of a script prints.

ghost use Rattle.std.specs.Prelude.{◌≡◌, ◌∷◌, ◌++◌, codes, IfOk, OnOk};
ghost use Rattle.std.specs.List.{flat_map};
ghost use Rattle.std.specs.Fmt.{decimal};
ghost use Rattle.lsn_core.specs.Names.{lsn_bytes};
ghost use Rattle.lsn_core.specs.declared.fault.AreaFault.TheVariants.{Failed};
ghost use Rattle.command_base.specs.Areas.{backup_name};
ghost use Rattle.command_base.specs.Faults.{area_text};
ghost use Rattle.run_answers.specs.Report.{insert_fault_text, accepted_text, grown_text, mark_fault_text};
ghost use Rattle.run_answers.specs.Report.{backup_text, backup_fault_text, incr_fault_text, stop_text, answer_text};
ghost use Rattle.run_answers.specs.Report.{answer_line, worker_lines, opened_line, closed_line, last_line, report_text};

use crate::answer::{Answer, Stop};
use crate::outcome::RunReport;
use crate::told::Told;
use command_base::{
    area_name, area_text, backup_name, full_text, gap_text, joined, manifest_text, overlap_text,
    refused_line, store_text, systems_text,
};
use lsn_core::{AreaFault, Lsn, MarkFault, NoMemory, Place, StoreArea, StoreFault, Text, lsn_text};
use scripts::{Command, Line};
use std::alloc::Global;
use store_faults::{BackupFault, IncrFault, InsertFault};

fn insert_fault_text(alloc: Global, fault: InsertFault) -> Result<Text, NoMemory>
    ensures { IfOk result (λ text. text ≡ insert_fault_text fault) }
{
    let text = match fault {
        InsertFault::NoFork(n) => format!(in alloc; "1 NoFork {n}")?,
        InsertFault::ForkExists(n) => format!(in alloc; "2 ForkExists {n}")?,
        InsertFault::PastEnd(n) => format!(in alloc; "3 PastEnd {n}")?,
        InsertFault::NoBlock(n) => format!(in alloc; "4 NoBlock {n}")?,
        InsertFault::BadPage(i, n) => format!(in alloc; "5 BadPage {i} {n}")?,
        InsertFault::BadFragment(i, j) => format!(in alloc; "6 BadFragment {i} {j}")?,
        InsertFault::BlockCount => format!(in alloc; "7 BlockCount")?,
        InsertFault::TwoRelations => format!(in alloc; "8 TwoRelations")?,
        InsertFault::ForkFull(n) => format!(in alloc; "9 ForkFull {n}")?,
        InsertFault::StoreFull(n) => format!(in alloc; "10 StoreFull {n}")?,
        InsertFault::CutPastEnd(n) => format!(in alloc; "11 CutPastEnd {n}")?,
        InsertFault::Failed(area) => {
            return joined(alloc, &[b"12 DeviceFault ", area_name(area)]);
        }
        InsertFault::NoMemory => format!(in alloc; "13 NoMemory")?,
        InsertFault::SameBlock(i) => format!(in alloc; "14 SameBlock {i}")?,
        InsertFault::WalFull(n) => format!(in alloc; "15 WalFull {n}")?,
    };
    Ok(Text::from_vec(text.into_bytes()))
}

/// Where entries start, and where they end.
fn place_text(alloc: Global, place: Place) -> Result<Text, NoMemory>
    ensures { IfOk result (λ text. text
        ≡ lsn_bytes place.start.0 ++ (32 ∷ lsn_bytes place.end.0)) }
{
    let start = lsn_text(alloc, place.start)?;
    let end = lsn_text(alloc, place.end)?;
    joined(alloc, &[start.as_bytes(), b" ", end.as_bytes()])
}

fn accepted_text(alloc: Global, place: Place) -> Result<Text, NoMemory>
    ensures { IfOk result (λ text. text ≡ accepted_text place) }
{
    let place = place_text(alloc, place)?;
    joined(alloc, &[b"ok ", place.as_bytes()])
}

/// So many commands were accepted, between these places.
fn grown_text(alloc: Global, count: u32, place: Place) -> Result<Text, NoMemory>
    ensures { IfOk result (λ text. text ≡ grown_text count place) }
{
    let number = format!(in alloc; "{count}")?;
    let place = place_text(alloc, place)?;
    joined(alloc, &[b"ok ", number.as_bytes(), b" ", place.as_bytes()])
}

/// Why a checkpoint was not done.
fn mark_fault_text(alloc: Global, fault: MarkFault) -> Result<Text, NoMemory>
    ensures { IfOk result (λ text. text ≡ mark_fault_text fault) }
{
    match fault {
        MarkFault::Failed(area) => store_text(alloc, StoreFault::Failed(area)),
        MarkFault::WalFull(n) => {
            let number = format!(in alloc; "{n}")?;
            joined(alloc, &[b"17 WalFull ", number.as_bytes()])
        }
        MarkFault::NoMemory => store_text(alloc, StoreFault::NoMemory),
    }
}

fn refused_text(alloc: Global, text: &[u8]) -> Result<Text, NoMemory>
    ensures { IfOk result (λ line. line ≡ codes "refused " ++ text.now) }
{
    joined(alloc, &[b"refused ", text])
}

/// So many commands were accepted before this refusal.
fn stopped_text(alloc: Global, count: u32, fault: InsertFault) -> Result<Text, NoMemory>
    ensures { IfOk result (λ text. text
        ≡ codes "stopped " ++ (decimal count ++ (32 ∷ insert_fault_text fault))) }
{
    let number = format!(in alloc; "{count}")?;
    let text = insert_fault_text(alloc, fault)?;
    joined(
        alloc,
        &[b"stopped ", number.as_bytes(), b" ", text.as_bytes()],
    )
}

/// The checkpoint of this redo point was done.
fn redone_text(alloc: Global, redo: Lsn) -> Result<Text, NoMemory>
    ensures { IfOk result (λ text. text ≡ codes "redo " ++ lsn_bytes redo.0) }
{
    let redo = lsn_text(alloc, redo)?;
    joined(alloc, &[b"redo ", redo.as_bytes()])
}

/// So many writes wrote something.
fn wrote_text(alloc: Global, count: u32) -> Result<Text, NoMemory>
    ensures { IfOk result (λ text. text ≡ codes "wrote " ++ decimal count) }
{
    let number = format!(in alloc; "{count}")?;
    joined(alloc, &[b"wrote ", number.as_bytes()])
}

/// So many summaries were published.
fn published_text(alloc: Global, count: u64) -> Result<Text, NoMemory>
    ensures { IfOk result (λ text. text ≡ codes "published " ++ decimal count) }
{
    let number = format!(in alloc; "{count}")?;
    joined(alloc, &[b"published ", number.as_bytes()])
}

/// A backup was taken, between these places.
fn backup_text(alloc: Global, start: Lsn, end: Lsn) -> Result<Text, NoMemory>
    ensures { IfOk result (λ text. text ≡ backup_text start end) }
{
    let place = place_text(alloc, Place { start, end })?;
    joined(alloc, &[b"backup ", place.as_bytes()])
}

/// The device of the area of this backup failed.
fn backup_failed_text(alloc: Global, name: &[u8]) -> Result<Text, NoMemory>
    ensures { IfOk result (λ text. text ≡ area_text (backup_name name.now) Failed) }
{
    area_text(
        alloc,
        backup_name(alloc, name)?.as_bytes(),
        AreaFault::Failed,
    )
}

/// Why a full backup of this name was refused, or failed.
fn backup_fault_text(alloc: Global, name: &[u8], fault: BackupFault) -> Result<Text, NoMemory>
    ensures { IfOk result (λ text. text ≡ backup_fault_text name.now fault) }
{
    match fault {
        BackupFault::NotEmpty => full_text(alloc, backup_name(alloc, name)?.as_bytes()),
        BackupFault::WalFull(n) => mark_fault_text(alloc, MarkFault::WalFull(n)),
        BackupFault::StoreFailed(area) => store_text(alloc, StoreFault::Failed(area)),
        BackupFault::OutFailed => backup_failed_text(alloc, name),
        BackupFault::NoMemory => store_text(alloc, StoreFault::NoMemory),
    }
}

/// Why an incremental backup of this name, on this prior one, was refused, or failed.
fn incr_fault_text(
    alloc: Global,
    name: &[u8],
    prior: &[u8],
    fault: IncrFault,
) -> Result<Text, NoMemory>
    ensures { IfOk result (λ text. text ≡ incr_fault_text name.now prior.now fault) }
{
    match fault {
        IncrFault::NotEmpty => full_text(alloc, backup_name(alloc, name)?.as_bytes()),
        IncrFault::NoManifest => joined(alloc, &[b"20 NoManifest ", prior]),
        IncrFault::ManifestRefused(why) => manifest_text(alloc, prior, why),
        IncrFault::SystemDiffers(have, expected) => systems_text(alloc, prior, have, expected),
        IncrFault::Overlap(start, end) => overlap_text(alloc, name, start, end),
        IncrFault::Gap(place) => gap_text(alloc, place),
        IncrFault::WalFull(n) => mark_fault_text(alloc, MarkFault::WalFull(n)),
        IncrFault::StoreFailed(area) => store_text(alloc, StoreFault::Failed(area)),
        IncrFault::SumsFailed => store_text(alloc, StoreFault::Failed(StoreArea::Sums)),
        IncrFault::PriorFailed => backup_failed_text(alloc, prior),
        IncrFault::OutFailed => backup_failed_text(alloc, name),
        IncrFault::NoMemory => store_text(alloc, StoreFault::NoMemory),
    }
}

/// By what a line was stopped.
fn stop_text(alloc: Global, line: &Command, stop: Stop) -> Result<Text, NoMemory>
    ensures { IfOk result (λ text. text ≡ stop_text line.now stop) }
{
    match stop {
        Stop::Store(fault) => store_text(alloc, fault),
        Stop::Backup => backup_failed_text(alloc, line.backup()),
        Stop::Prior => backup_failed_text(alloc, line.prior()),
    }
}

/// The answer to a line.
fn answer_text(alloc: Global, line: &Command, answer: &Answer) -> Result<Text, NoMemory>
    ensures { IfOk result (λ text. text ≡ answer_text line.now answer.now) }
{
    match answer {
        Answer::Accepted(place) => accepted_text(alloc, *place),
        Answer::Refused(why) => { refused_text(alloc, insert_fault_text(alloc, *why)?.as_bytes()) }
        Answer::Grown(count, place) => grown_text(alloc, *count, *place),
        Answer::Stopped(count, why) => stopped_text(alloc, *count, *why),
        Answer::Redo(redo) => redone_text(alloc, *redo),
        Answer::CheckpointRefused(why) => refused_text(
            alloc,
            mark_fault_text(alloc, *why)?.as_bytes(),
        ),
        Answer::Wrote(count) => wrote_text(alloc, *count),
        Answer::Published(count) => published_text(alloc, *count),
        Answer::CallFailed(why) => refused_text(alloc, store_text(alloc, *why)?.as_bytes()),
        Answer::Backup(start, end) => backup_text(alloc, *start, *end),
        Answer::BackupRefused(why) => refused_text(
            alloc,
            backup_fault_text(alloc, line.backup(), *why)?.as_bytes(),
        ),
        Answer::IncrRefused(why) => refused_text(
            alloc,
            incr_fault_text(alloc, line.backup(), line.prior(), *why)?.as_bytes(),
        ),
        Answer::NotRun => joined(alloc, &[b"not run"]),
    }
}

/// The line of an answer.
fn answer_line(alloc: Global, name: &[u8], line: &Line, answer: &Answer) -> Result<Text, NoMemory>
    ensures { IfOk result (λ text. text ≡ answer_line name.now line.now answer.now) }
{
    let number = line.number;
    let number = format!(in alloc; "{number}")?;
    let answer = answer_text(alloc, &line.command, answer)?;
    joined(
        alloc,
        &[
            name,
            b" ",
            number.as_bytes(),
            b" ",
            answer.as_bytes(),
            b"\n",
        ],
    )
}

/// Prints the answers of a worker behind a text.
fn push_answers(alloc: Global, text: &mut Vec<u8>, told: &Told) -> Result<(), NoMemory>
    ensures { OnOk result (text.new.items ≡ text.old.items ++ worker_lines told.now) }
{
    let task = &told.task;
    for (line, answer) in task.lines.as_slice().iter().zip(told.answers.as_slice()) {
        let line = answer_line(alloc, task.name.as_bytes(), line, answer)?;
        text.extend_from_slice(line.as_bytes())?;
    }
    Ok(())
}

/// Prints the answers of all workers behind a text.
fn push_told(alloc: Global, text: &mut Vec<u8>, told: &[Told]) -> Result<(), NoMemory>
    ensures { OnOk result (text.new.items ≡ text.old.items ++ flat_map worker_lines told.now) }
{
    for told in told {
        push_answers(alloc, text, told)?;
    }
    Ok(())
}

/// How closing the store ended: where the WAL ends, or why it isn't known to be written.
fn closed_line(alloc: Global, closed: &Result<Lsn, StoreFault>) -> Result<Text, NoMemory>
    ensures { IfOk result (λ text. text ≡ closed_line closed.now) }
{
    match closed {
        Ok(end) => {
            let end = lsn_text(alloc, *end)?;
            joined(alloc, &[b"wal ", end.as_bytes(), b"\n"])
        }
        Err(why) => refused_line(alloc, store_text(alloc, *why)?.as_bytes()),
    }
}

/// The last line: by what a worker was stopped first; where none was, how closing the store ended.
pub fn last_line(alloc: Global, report: &RunReport) -> Result<Text, NoMemory>
    ensures { IfOk result (λ text. text ≡ last_line report.now) }
{
    match report.told.stop() {
        Some((line, stop)) => {
            let text = stop_text(alloc, &line.command, stop)?;
            refused_line(alloc, text.as_bytes())
        }
        None => closed_line(alloc, &report.closed),
    }
}

/// The first line: where the WAL ended before.
fn opened_line(alloc: Global, opened: Lsn) -> Result<Text, NoMemory>
    ensures { IfOk result (λ text. text ≡ opened_line opened) }
{
    let opened = lsn_text(alloc, opened)?;
    joined(alloc, &[b"opened ", opened.as_bytes(), b"\n"])
}

/// The lines of a run: where the WAL ended before, the answers, and where it ends now.
pub fn report_text(alloc: Global, report: &RunReport) -> Result<Text, NoMemory>
    ensures { IfOk result (λ text. text ≡ report_text report.now) }
{
    let mut text = opened_line(alloc, report.opened)?.into_vec();
    push_told(alloc, &mut text, report.told.as_slice())?;
    text.extend_from_slice(last_line(alloc, report)?.as_bytes())?;
    Ok(Text::from_vec(text))
}
