//! What an operator is told on standard error: printed texts, which no clause speaks of.

use crate::calls::words_in;
use chain_check::{ChainFault, ChainRefusal, LinkFault, ManifestWhy, Refusal};
use chain_commands::{MembersFault, RestoreFault, VerifyFault};
use lsn_core::{Lsn, NoMemory, SegSize, StoreArea, StoreFault, Text};
use operator_notes::note_of;
use pgbackup_cli::command_answers::Answer;
use recovery::RecoveryFault;
use run_answers::RunFault;
use scripts::Why;
use std::alloc::Global;
use store_commands::{InitFault, ReplayFault, WalsummaryFault};
use store_faults::BeginWhy;
use test_areas::Wrong;
use wal_archive::{Broken, Damage};

/// What a command was refused for.
#[derive(Clone, Copy)]
enum Refused {
    Words,
    Made,
    Script(u32, Why),
    Data(u32),
    Short(u64, u64),
    Damaged(u64),
    Full,
    Backup(ManifestWhy),
    Sum(&'static str, u64),
    Device,
    Early(u64, u64),
    Prior,
    Copy,
    Gap(u64),
}

/// The words of a command, why it was refused, and what is told.
type Case = (&'static str, Refused, &'static str);

static CASES: [Case; 16] = [
    ("--version", Refused::Words, "pgbackup 1.0\n"),
    (
        "walsummary --help",
        Refused::Words,
        "usage: pgbackup walsummary FROM TO
  prints what the summaries in sums tell of the WAL from FROM on and before TO: of each fork the
  shortest length to which it was cut, and the blocks that were changed since
  FROM, TO: LSNs, as 0/1000108, TO past FROM
",
    ),
    (
        "help verify",
        Refused::Words,
        "usage: pgbackup verify NAME
  checks that the backup in b/NAME is what its manifest lists, each file with its size and checksum
  NAME: 1 to 32 of a to z, 0 to 9 and _
",
    ),
    (
        "init",
        Refused::Made,
        "pgbackup: error: folder wal holds a file: there is a store here, or what is left of one
pgbackup: hint: run init in another folder, or empty wal first if it holds no WAL that is needed
",
    ),
    (
        "run",
        Refused::Script(3, Why::NoWorker),
        "pgbackup: error: line 3 of the script is refused: a command stands before the first worker
pgbackup: hint: put a line \"worker NAME\" before it
",
    ),
    (
        "run",
        Refused::Data(2),
        "pgbackup: error: a call of the system failed on data2
pgbackup: hint: mend what the system says is wrong there, and try again
",
    ),
    (
        "replay p --target 0/1006A1",
        Refused::Short(0x10_06A0, 0x10_06A1),
        "pgbackup: error: the WAL ends at 0/1006A0, before the target 0/1006A1
pgbackup: hint: give a target at or before that end, or bring the later segment files to wal
",
    ),
    (
        "replay p",
        Refused::Damaged(0x100_0108),
        "pgbackup: error: the WAL is damaged at 0/1000108: the entry's checksum isn't that of its bytes
pgbackup: hint: pgbackup restart ends the WAL there, as behind a crash; else bring the segment file back from a copy, or replay up to a target before that place
",
    ),
    (
        "replay p --target 0/1006A1",
        Refused::Full,
        "pgbackup: error: folder o/p is not empty
pgbackup: hint: empty it if nothing there is needed, or choose another name
",
    ),
    (
        "verify f1",
        Refused::Backup(ManifestWhy::Sum),
        "pgbackup: error: file b/f1/backup_manifest is refused: its checksum isn't that of its lines (listed files checked before: 0)
pgbackup: hint: bring the file back from a copy of the backup, or use another backup
",
    ),
    (
        "verify f1",
        Refused::Sum("base/5/16384", 12),
        "pgbackup: error: file b/f1/base/5/16384 has the listed size and another checksum than is listed (listed files checked before: 12)
pgbackup: hint: bring the file back from a copy of the backup, or use another backup
",
    ),
    (
        "verify f1",
        Refused::Device,
        "pgbackup: error: a call of the system failed on b/f1
pgbackup: hint: mend what the system says is wrong there, and try again
",
    ),
    (
        "restore r f1 --target 0/10042F",
        Refused::Early(0x10_042F, 0x10_0430),
        "pgbackup: error: the target, or else the WAL's end, is 0/10042F, before the backup's end 0/100430
pgbackup: hint: give a target at or past the backup's end, or bring the later segment files to wal
",
    ),
    (
        "restore --target 0/100430 r f1",
        Refused::Prior,
        "pgbackup: error: backup b/f1 is incremental: its label names a prior
pgbackup: hint: name the backups of one chain in their order, a full one first
",
    ),
    (
        "restore r --target 0/100430 f1",
        Refused::Copy,
        "pgbackup: error: folder o/r is not empty
pgbackup: hint: empty it if nothing there is needed, or choose another name
",
    ),
    (
        "walsummary 0/1003B0 0/100600",
        Refused::Gap(0x10_0578),
        "pgbackup: error: no summary in sums covers 0/100578
pgbackup: hint: give a range that the summaries in sums cover; a line summarise of a script adds what is missing up to the last checkpoint
",
    ),
];

/// A check of a directory that isn't taken, behind so many files.
fn refused_behind(fault: ChainFault, checked: u64) -> Answer {
    Answer::Verify(Err(VerifyFault::Directory(Refusal { fault, checked })))
}

/// A restore whose member of this place isn't taken.
fn unlinked(member: u32, why: LinkFault) -> RestoreFault {
    RestoreFault::Members(MembersFault::Link(ChainRefusal { member, why }))
}

/// A replay of a WAL that isn't taken.
fn unread(fault: RecoveryFault) -> Answer {
    Answer::Replay(Err(ReplayFault::Wal(fault)))
}

fn answer_of(alloc: Global, refusal: &Refused) -> Result<Answer, NoMemory> {
    Ok(match *refusal {
        Refused::Words => Answer::Usage,
        Refused::Made => Answer::Init(Err(InitFault::AlreadyInit)),
        Refused::Script(line, why) => Answer::Run(Err(RunFault::Script(line, why))),
        Refused::Data(q) => {
            let fault = StoreFault::Failed(StoreArea::Data(q));
            Answer::Run(Err(RunFault::Begin(BeginWhy::Data(fault))))
        }
        Refused::Short(end, target) => unread(RecoveryFault::Short(Lsn(end), Lsn(target))),
        Refused::Damaged(at) => {
            let damage = Damage::Broken(Lsn(at), Broken::Crc);
            unread(RecoveryFault::Damaged(SegSize::standard(), damage))
        }
        Refused::Full => Answer::Replay(Err(ReplayFault::NotEmpty)),
        Refused::Backup(why) => refused_behind(ChainFault::ManifestDamaged(why), 0),
        Refused::Sum(path, checked) => {
            let path = Text::copied(alloc, path.as_bytes())?;
            refused_behind(ChainFault::FileSum(path), checked)
        }
        Refused::Device => refused_behind(ChainFault::Failed, 3),
        Refused::Early(target, end) => {
            Answer::Restore(Err(RestoreFault::Early(Lsn(target), Lsn(end))))
        }
        Refused::Prior => Answer::Restore(Err(unlinked(0, LinkFault::FirstIncremental))),
        Refused::Gap(at) => Answer::Walsummary(Err(WalsummaryFault::Gap(Lsn(at)))),
        Refused::Copy => Answer::Restore(Err(RestoreFault::NotEmpty)),
    })
}

/// What is told where words come to an answer.
fn note_for(alloc: Global, words: &[Text], answer: Answer) -> Result<Text, NoMemory> {
    note_of(alloc, words, &answer)
}

fn is_told(alloc: Global, case: &Case) -> Result<bool, NoMemory> {
    let (line, refusal, told) = case;
    let words = words_in(alloc, line)?;
    let note = note_for(alloc, &words, answer_of(alloc, refusal)?)?;
    Ok(note.as_bytes() == told.as_bytes())
}

/// Whether what is told of words that aren't taken begins so.
fn begins_so(alloc: Global, line: &str, told: &str) -> Result<bool, NoMemory> {
    let words = words_in(alloc, line)?;
    let note = note_of(alloc, &words, &Answer::Usage)?;
    Ok(note.as_bytes().starts_with(told.as_bytes()))
}

#[test]
fn an_unknown_command_is_named(rt: HostRuntime) -> Result<(), Wrong> {
    let told = "pgbackup: error: there is no command store\nusage: pgbackup init ";
    if !begins_so(rt.alloc(), "store x", told)? {
        return Err(Wrong::Step(0));
    }
    if !begins_so(rt.alloc(), "help", "usage: pgbackup init ")? {
        return Err(Wrong::Step(1));
    }
    Ok(())
}

#[test]
fn refusals_are_told(rt: HostRuntime) -> Result<(), Wrong> {
    for (number, case) in CASES.iter().enumerate() {
        if !is_told(rt.alloc(), case)? {
            return Err(Wrong::Step(number));
        }
    }
    Ok(())
}
