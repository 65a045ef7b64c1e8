//! What the program comes to, the lines that it prints for that, and its exit status.

ghost use Rattle.std.specs.Prelude.{◌≡◌, IfOk};
ghost use Rattle.std.specs.Option.{option_map};
ghost use Rattle.command_line.specs.Words.{asks};
ghost use Rattle.command_line.specs.Members.{names_in};
ghost use Rattle.pgbackup_cli.specs.command_answers.Telling.{output_asked, backup_asked, members_asked, drill_asked};
ghost use Rattle.pgbackup_cli.specs.command_answers.Telling.{text_of, answer_status, status_of};

use crate::drill_command::{DrillFault, DrillReport, drill_status, drill_text};
use chain_commands::{
    CombineFault, CombineReport, RestoreFault, VerifyFault, VerifyReport, combine_status,
    combine_text, merge_text, restore_status, restore_text, verify_status, verify_text,
};
use command_base::{Status, area_status, output_name, refused_line};
use command_line::{Command, MemberNames};
use lsn_core::{AreaFault, Lsn, NoMemory, Text};
use restart_command::{RestartFault, restart_status, restart_text};
use run_answers::{RunFault, RunReport, run_status, run_text};
use std::alloc::Global;
use store_commands::{
    FollowFault, InitFault, ReplayFault, ReplayReport, WalsummaryFault, follow_status, follow_text,
    init_status, init_text, replay_status, replay_text, walsummary_status, walsummary_text,
};
use wal_summary::Summary;

/// What the program comes to: one variant a command, and two where no command was read.
#[derive(Drop)]
pub enum Answer {
    /// The words aren't taken.
    Usage,
    /// Memory ran out while the words were read.
    NoMemory,
    /// A new store was made, whose WAL ends there.
    Init(Result<Lsn, InitFault>),
    /// A script was run.
    Run(Result<RunReport, RunFault>),
    /// The WAL was replayed.
    Replay(Result<ReplayReport, ReplayFault>),
    /// A backup was checked.
    Verify(Result<VerifyReport, VerifyFault>),
    /// A chain of backups was restored.
    Restore(Result<ReplayReport, RestoreFault>),
    /// A chain of backups was combined.
    Combine(Result<CombineReport, CombineFault>),
    /// A series of incremental backups was merged.
    Merge(Result<CombineReport, CombineFault>),
    /// The kept summaries of a range were merged.
    Walsummary(Result<Summary, WalsummaryFault>),
    /// The stream of a WAL was followed.
    Follow(Result<ReplayReport, FollowFault>),
    /// A drill was done.
    Drill(Result<DrillReport, DrillFault>),
    /// The store was brought back after a stop.
    Restart(Result<ReplayReport, RestartFault>),
}

/// The area of the output that a command asks for, empty where it asks for none.
fn output_asked(alloc: Global, command: &Option<Command>) -> Result<Text, NoMemory>
    ensures { IfOk result (λ area. area ≡ output_asked (option_map asks command.now)) }
{
    match command {
        Some(Command::Replay(_, name) | Command::Restore(_, name, _) | Command::Follow(_, name)) =>
            output_name(alloc, name.as_bytes()),
        Some(
            Command::Init(_)
            | Command::Run(_)
            | Command::Verify(_)
            | Command::Combine(_, _)
            | Command::Merge(_, _)
            | Command::Walsummary(_, _)
            | Command::Drill(_)
            | Command::Restart,
        )
        | None => Ok(Text::from_vec(Vec::new(alloc))),
    }
}

/// The name of the backup that a command asks for, empty where it asks for none.
fn backup_asked(command: &Option<Command>) -> &[u8]
    ensures { result.now ≡ backup_asked (option_map asks command.now) }
{
    match command {
        Some(Command::Verify(name) | Command::Combine(name, _) | Command::Merge(name, _)) => {
            name.as_bytes()
        }
        Some(
            Command::Init(_)
            | Command::Run(_)
            | Command::Replay(_, _)
            | Command::Restore(_, _, _)
            | Command::Walsummary(_, _)
            | Command::Follow(_, _)
            | Command::Drill(_)
            | Command::Restart,
        )
        | None => b"",
    }
}

/// The names of the members that a command asks for, none where it asks for no chain.
fn members_asked(command: &Option<Command>) -> MemberNames<'_>
    ensures { names_in result ≡ members_asked (option_map asks command.now) }
{
    match command {
        Some(
            Command::Restore(_, _, names) | Command::Combine(_, names) | Command::Merge(_, names),
        ) => MemberNames { names },
        Some(
            Command::Init(_)
            | Command::Run(_)
            | Command::Replay(_, _)
            | Command::Verify(_)
            | Command::Walsummary(_, _)
            | Command::Follow(_, _)
            | Command::Drill(_)
            | Command::Restart,
        )
        | None => MemberNames { names: &[] },
    }
}

/// The number of the drill that a command asks for, 0 where it asks for none.
fn drill_asked(command: &Option<Command>) -> u32
    ensures { result ≡ drill_asked (option_map asks command.now) }
{
    match command {
        Some(Command::Drill(n)) => *n,
        Some(
            Command::Init(_)
            | Command::Run(_)
            | Command::Replay(_, _)
            | Command::Verify(_)
            | Command::Restore(_, _, _)
            | Command::Combine(_, _)
            | Command::Merge(_, _)
            | Command::Walsummary(_, _)
            | Command::Follow(_, _)
            | Command::Restart,
        )
        | None => 0,
    }
}

/// The lines of an answer to what a command asks.
pub fn text_of(alloc: Global, command: &Option<Command>, answer: &Answer) -> Result<Text, NoMemory>
    ensures { IfOk result (λ text. text ≡ text_of (option_map asks command.now) answer.now) }
{
    match answer {
        Answer::Usage => refused_line(alloc, b"1 Usage"),
        Answer::NoMemory => refused_line(alloc, b"61 NoMemory"),
        Answer::Init(came) => init_text(alloc, came),
        Answer::Run(came) => run_text(alloc, came),
        Answer::Replay(came) => replay_text(alloc, output_asked(alloc, command)?.as_bytes(), came),
        Answer::Verify(came) => verify_text(alloc, backup_asked(command), came),
        Answer::Restore(came) => {
            let out = output_asked(alloc, command)?;
            restore_text(alloc, &members_asked(command), out.as_bytes(), came)
        }
        Answer::Combine(came) => {
            combine_text(alloc, &members_asked(command), backup_asked(command), came)
        }
        Answer::Merge(came) => {
            merge_text(alloc, &members_asked(command), backup_asked(command), came)
        }
        Answer::Walsummary(came) => walsummary_text(alloc, came),
        Answer::Follow(came) => follow_text(alloc, output_asked(alloc, command)?.as_bytes(), came),
        Answer::Drill(came) => drill_text(alloc, drill_asked(command), came),
        Answer::Restart(came) => restart_text(alloc, came),
    }
}

fn answer_status(answer: &Answer) -> Status
    ensures { result ≡ answer_status answer.now }
{
    match answer {
        Answer::Usage => Status::Usage,
        Answer::NoMemory => Status::Memory,
        Answer::Init(came) => init_status(came),
        Answer::Run(came) => run_status(came),
        Answer::Replay(came) => replay_status(came),
        Answer::Verify(came) => verify_status(came),
        Answer::Restore(came) => restore_status(came),
        Answer::Combine(came) | Answer::Merge(came) => combine_status(came),
        Answer::Walsummary(came) => walsummary_status(came),
        Answer::Follow(came) => follow_status(came),
        Answer::Drill(came) => drill_status(came),
        Answer::Restart(came) => restart_status(came),
    }
}

/// The status of an answer, and of its printing: a sink that fails gives `Device` whatever else
/// happened.
pub fn exit_status(answer: &Answer, telling: Result<(), AreaFault>) -> Status
    ensures { result ≡ status_of answer.now telling }
{
    match telling {
        Ok(()) => answer_status(answer),
        Err(why) => area_status(why),
    }
}
