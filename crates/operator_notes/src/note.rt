//! The note on what the program came to.

use crate::areas::{area_note, memory_note, not_empty_note, store_note, take_note};
use crate::directory::{directory_note, link_note, unlisted_note};
use crate::lines::note;
use crate::script::script_note;
use crate::sums::{gap_note, incr_gap_note};
use crate::usage::usage_of;
use crate::wal::{COPY_THE_FIRST, GIVE_ANEW, damage_note, early_note, wal_note};
use chain_commands::{CombineFault, MembersFault, RestoreFault, VerifyFault};
use command_base::{backup_name, names_of, output_name};
use command_line::{Command as Words, command_of};
use lsn_core::{AreaFault, Lsn, NoMemory, StoreFault, Text};
use pgbackup_cli::command_answers::Answer;
use pgbackup_cli::drill_command::{DrillFault, Unclear};
use recovery::RecoveryFault;
use restart_command::RestartFault;
use run_answers::{Answer as LineAnswer, RunFault, RunReport, Stop};
use scripts::Command;
use std::alloc::Global;
use store_commands::{FollowFault, InitFault, ReplayFault, WalsummaryFault};
use store_faults::{BeginWhy, IncrFault};
use store_restart::RestartWhy;

/// The lines for standard error: how the program is used, where the words aren't taken; where the
/// command was refused, what was found and what to do next; none where it did what was asked. Each
/// line ends with a line feed. Errs where memory ran out.
pub fn note_of(alloc: Global, words: &[Text], answer: &Answer) -> Result<Text, NoMemory> {
    match answer {
        Answer::Usage => usage_of(alloc, words),
        Answer::NoMemory => memory_note(alloc),
        Answer::Init(Err(fault)) => init_note(alloc, fault),
        Answer::Run(Err(fault)) => run_note(alloc, fault),
        Answer::Run(Ok(report)) => ending_note(alloc, report),
        Answer::Replay(Err(fault)) => replay_note(alloc, name_in(alloc, words)?.as_bytes(), fault),
        Answer::Verify(Err(fault)) => verify_note(alloc, name_in(alloc, words)?.as_bytes(), fault),
        Answer::Restore(Err(fault)) => restore_note(alloc, names_in(alloc, words)?, fault),
        Answer::Combine(Err(fault)) | Answer::Merge(Err(fault)) => {
            combine_note(alloc, names_in(alloc, words)?, fault)
        }
        Answer::Walsummary(Err(fault)) => walsummary_note(alloc, fault),
        Answer::Follow(Err(fault)) => follow_note(alloc, name_in(alloc, words)?.as_bytes(), fault),
        Answer::Drill(Err(fault)) => drill_note(alloc, fault),
        Answer::Restart(Err(fault)) => restart_note(alloc, fault),
        Answer::Init(Ok(_))
        | Answer::Replay(Ok(_))
        | Answer::Verify(Ok(_))
        | Answer::Restore(Ok(_))
        | Answer::Combine(Ok(_))
        | Answer::Merge(Ok(_))
        | Answer::Walsummary(Ok(_))
        | Answer::Follow(Ok(_))
        | Answer::Drill(Ok(_))
        | Answer::Restart(Ok(_)) => Ok(Text::from_vec(Vec::new(alloc))),
    }
}

fn init_note(alloc: Global, fault: &InitFault) -> Result<Text, NoMemory> {
    match fault {
        InitFault::Site(fault) => take_note(alloc, fault),
        InitFault::AlreadyInit => note(
            alloc,
            &[b"folder wal holds a file: there is a store here, or what is left of one"],
            b"run init in another folder, or empty wal first if it holds no WAL that is needed",
        ),
        InitFault::SumsNotEmpty => not_empty_note(alloc, b"sums"),
        InitFault::Wal(why) => area_note(alloc, b"wal", *why),
        InitFault::Sums(why) => area_note(alloc, b"sums", *why),
    }
}

/// The areas that a drill needs empty aren't.
fn unclear_note(alloc: Global, why: &Unclear) -> Result<Text, NoMemory> {
    match why {
        Unclear::NoMemory => memory_note(alloc),
        Unclear::Unread(area, why) => area_note(alloc, area.as_bytes(), *why),
        Unclear::Full(area) if area.as_bytes() == b"wal".as_slice() => {
            init_note(alloc, &InitFault::AlreadyInit)
        }
        Unclear::Full(area) => not_empty_note(alloc, area.as_bytes()),
    }
}

/// A drill was refused: as the part that was.
fn drill_note(alloc: Global, fault: &DrillFault) -> Result<Text, NoMemory> {
    match fault {
        DrillFault::NoMemory => memory_note(alloc),
        DrillFault::Area(why) => unclear_note(alloc, why),
        DrillFault::Init(Err(fault)) => init_note(alloc, fault),
        DrillFault::Run(Err(fault)) => run_note(alloc, fault),
        DrillFault::Run(Ok(report)) => ending_note(alloc, report),
        DrillFault::Restore(Err(fault)) => unrestored_note(alloc, fault),
        DrillFault::Read(why) => area_note(alloc, b"o/drill", *why),
        DrillFault::Init(Ok(_)) | DrillFault::Restore(Ok(_)) => {
            Ok(Text::from_vec(Vec::new(alloc)))
        }
    }
}

/// The chain of a drill isn't restored.
fn unrestored_note(alloc: Global, fault: &RestoreFault) -> Result<Text, NoMemory> {
    let members = names_of(alloc, &[b"drill_0", b"drill_1", b"drill_2"])?;
    restore_note(alloc, (Text::copied(alloc, b"drill")?, members), fault)
}

fn run_note(alloc: Global, fault: &RunFault) -> Result<Text, NoMemory> {
    match fault {
        RunFault::Input(why) => area_note(alloc, b"standard input", *why),
        RunFault::Script(line, why) => script_note(alloc, *line, *why),
        RunFault::Site(fault) => take_note(alloc, fault),
        RunFault::Begin(BeginWhy::Wal(fault) | BeginWhy::Replay(fault)) => wal_note(alloc, *fault),
        RunFault::Begin(BeginWhy::Data(fault)) => store_note(alloc, *fault),
        RunFault::NoMemory => memory_note(alloc),
    }
}

/// The note on a run whose script was run.
fn ending_note(alloc: Global, report: &RunReport) -> Result<Text, NoMemory> {
    match report.told.stop() {
        Some((line, stop)) => stop_note(alloc, &line.command, stop),
        None => match report.closed {
            Ok(_) => answers_note(alloc, report),
            Err(fault) => store_note(alloc, fault),
        },
    }
}

/// The note on what the lines of a run were answered, none of which stopped its worker: on the
/// first incremental backup that lacks a summary.
fn answers_note(alloc: Global, report: &RunReport) -> Result<Text, NoMemory> {
    for told in report.told.as_slice() {
        if let Some(at) = gap_in(told.answers.as_slice()) {
            return incr_gap_note(alloc, at);
        }
    }
    Ok(Text::from_vec(Vec::new(alloc)))
}

/// The place that the first of these answers to lack a summary names.
fn gap_in(answers: &[LineAnswer]) -> Option<Lsn> {
    for answer in answers {
        if let LineAnswer::IncrRefused(IncrFault::Gap(at)) = answer {
            return Some(*at);
        }
    }
    None
}

/// The note on a line that was stopped.
fn stop_note(alloc: Global, line: &Command, stop: Stop) -> Result<Text, NoMemory> {
    match stop {
        Stop::Store(fault) => store_note(alloc, fault),
        Stop::Backup => backup_note(alloc, line.backup()),
        Stop::Prior => backup_note(alloc, line.prior()),
    }
}

/// The device of the area of this backup failed.
fn backup_note(alloc: Global, name: &[u8]) -> Result<Text, NoMemory> {
    area_note(
        alloc,
        backup_name(alloc, name)?.as_bytes(),
        AreaFault::Failed,
    )
}

/// The names of the output or the backup in the words, and of the members.
fn names_in(alloc: Global, words: &[Text]) -> Result<(Text, Vec<Text>), NoMemory> {
    let none = Vec::new(alloc);
    match command_of(alloc, words)? {
        Some(
            Words::Restore(_, name, members)
            | Words::Combine(name, members)
            | Words::Merge(name, members),
        ) => Ok((name, members)),
        Some(Words::Replay(_, name) | Words::Verify(name) | Words::Follow(_, name)) => {
            Ok((name, none))
        }
        _ => Ok((Text::from_vec(Vec::new(alloc)), none)),
    }
}

/// The name of the output or the backup in the words.
fn name_in(alloc: Global, words: &[Text]) -> Result<Text, NoMemory> {
    let (name, _) = names_in(alloc, words)?;
    Ok(name)
}

fn replay_note(alloc: Global, output: &[u8], fault: &ReplayFault) -> Result<Text, NoMemory> {
    match fault {
        ReplayFault::Site(fault) => take_note(alloc, fault),
        ReplayFault::NotEmpty => not_empty_note(alloc, output_name(alloc, output)?.as_bytes()),
        ReplayFault::Wal(fault) => wal_note(alloc, *fault),
        ReplayFault::Out(why) => area_note(alloc, output_name(alloc, output)?.as_bytes(), *why),
    }
}

fn verify_note(alloc: Global, name: &[u8], fault: &VerifyFault) -> Result<Text, NoMemory> {
    match fault {
        VerifyFault::Site(fault) => take_note(alloc, fault),
        VerifyFault::Directory(refusal) => {
            directory_note(alloc, backup_name(alloc, name)?.as_bytes(), refusal)
        }
    }
}

/// The area of the directory of the member of a place.
fn member_area(alloc: Global, members: &[Text], place: u32) -> Result<Text, NoMemory> {
    match members.get(place as usize) {
        Some(name) => backup_name(alloc, name.as_bytes()),
        None => backup_name(alloc, b""),
    }
}

/// The members of a chain aren't taken.
fn members_note(alloc: Global, members: &[Text], fault: &MembersFault) -> Result<Text, NoMemory> {
    match fault {
        MembersFault::Directory(place, refusal) => {
            let backup = member_area(alloc, members, *place)?;
            directory_note(alloc, backup.as_bytes(), refusal)
        }
        MembersFault::Link(refusal) => {
            let backup = member_area(alloc, members, refusal.member)?;
            link_note(alloc, backup.as_bytes(), &refusal.why)
        }
        MembersFault::NoMemory => memory_note(alloc),
    }
}

fn restore_note(
    alloc: Global,
    names: (Text, Vec<Text>),
    fault: &RestoreFault,
) -> Result<Text, NoMemory> {
    let (out, members) = names;
    let output = output_name(alloc, out.as_bytes())?;
    match fault {
        RestoreFault::Site(fault) => take_note(alloc, fault),
        RestoreFault::Members(fault) => members_note(alloc, &members, fault),
        RestoreFault::Early(target, end) => early_note(alloc, *target, *end),
        RestoreFault::NotEmpty => not_empty_note(alloc, output.as_bytes()),
        RestoreFault::Wal(fault) => wal_note(alloc, *fault),
        RestoreFault::Backup(place, why) => {
            area_note(
                alloc,
                member_area(alloc, &members, *place)?.as_bytes(),
                *why,
            )
        }
        RestoreFault::Out(why) => area_note(alloc, output.as_bytes(), *why),
    }
}

fn combine_note(
    alloc: Global,
    names: (Text, Vec<Text>),
    fault: &CombineFault,
) -> Result<Text, NoMemory> {
    let (out, members) = names;
    let output = backup_name(alloc, out.as_bytes())?;
    match fault {
        CombineFault::Site(fault) => take_note(alloc, fault),
        CombineFault::Members(fault) => members_note(alloc, &members, fault),
        CombineFault::NotEmpty => not_empty_note(alloc, output.as_bytes()),
        CombineFault::Unlisted(place) => {
            unlisted_note(alloc, member_area(alloc, &members, *place)?.as_bytes())
        }
        CombineFault::Backup(place, why) => {
            area_note(
                alloc,
                member_area(alloc, &members, *place)?.as_bytes(),
                *why,
            )
        }
        CombineFault::Out(why) => area_note(alloc, output.as_bytes(), *why),
    }
}

fn walsummary_note(alloc: Global, fault: &WalsummaryFault) -> Result<Text, NoMemory> {
    match fault {
        WalsummaryFault::Site(fault) => take_note(alloc, fault),
        WalsummaryFault::Gap(at) => gap_note(alloc, *at),
        WalsummaryFault::Sums(why) => area_note(alloc, b"sums", *why),
    }
}

fn restart_note(alloc: Global, fault: &RestartFault) -> Result<Text, NoMemory> {
    match fault {
        RestartFault::Site(fault) => take_note(alloc, fault),
        RestartFault::Settings(fault) => wal_note(alloc, *fault),
        RestartFault::Store(size, RestartWhy::Damaged(damage)) => {
            damage_note(alloc, *size, *damage, COPY_THE_FIRST)
        }
        RestartFault::Store(_, RestartWhy::BadDelta(at)) => {
            wal_note(alloc, RecoveryFault::BadDelta(*at))
        }
        RestartFault::Store(_, RestartWhy::Failed(area)) => {
            store_note(alloc, StoreFault::Failed(*area))
        }
        RestartFault::Store(_, RestartWhy::NoMemory) => memory_note(alloc),
    }
}

/// The input has more bytes than so many.
fn long_note(alloc: Global, most: u64) -> Result<Text, NoMemory> {
    let most = format!(in alloc; "{most}")?;
    note(
        alloc,
        &[
            b"standard input has more than ",
            most.as_bytes(),
            b" bytes, and no more are followed",
        ],
        b"put the WAL's segment files and its settings into folder wal, and run replay",
    )
}

fn follow_note(alloc: Global, output: &[u8], fault: &FollowFault) -> Result<Text, NoMemory> {
    match fault {
        FollowFault::Site(fault) => take_note(alloc, fault),
        FollowFault::NotEmpty => not_empty_note(alloc, output_name(alloc, output)?.as_bytes()),
        FollowFault::Input(why) => area_note(alloc, b"standard input", *why),
        FollowFault::Long(most) => long_note(alloc, *most),
        FollowFault::Wal(RecoveryFault::Damaged(size, damage)) => {
            damage_note(alloc, *size, *damage, GIVE_ANEW)
        }
        FollowFault::Wal(fault) => wal_note(alloc, *fault),
        FollowFault::Out(why) => area_note(alloc, output_name(alloc, output)?.as_bytes(), *why),
    }
}
