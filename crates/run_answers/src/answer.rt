//! What lines were answered.

ghost use Rattle.std.specs.Prelude.{◌≡◌};
ghost use Rattle.run_answers.specs.Stopping.{stops_with, insert_stop, mark_stop, backup_stop, incr_stop, stop_of};

use lsn_core::{Lsn, MarkFault, Place, StoreArea, StoreFault};
use std::marker::Model;
use store_faults::{BackupFault, IncrFault, InsertFault};

/// What a line was answered (profile).
#[derive(Clone, Copy, Debug, PartialEq, Eq)]
pub enum Answer {
    /// The entry of its command stands at this place.
    Accepted(Place),
    /// Its command was refused, and changed neither the history nor a page.
    Refused(InsertFault),
    /// All of its so many blocks were put; their entries stand between the first one's start and
    /// the last one's end.
    Grown(u32, Place),
    /// So many of its blocks were put before this refusal.
    Stopped(u32, InsertFault),
    /// The checkpoint of this redo point was done.
    Redo(Lsn),
    /// The checkpoint was not done, or not to its end.
    CheckpointRefused(MarkFault),
    /// So many of its writes wrote something.
    Wrote(u32),
    /// So many summaries were published.
    Published(u64),
    /// One of its writes failed, or publishing summaries did.
    CallFailed(StoreFault),
    /// The backup was taken: where a restore of it begins to read the WAL, and how far one
    /// reads at least.
    Backup(Lsn, Lsn),
    /// The full backup was refused, or failed.
    BackupRefused(BackupFault),
    /// The incremental backup was refused, or failed.
    IncrRefused(IncrFault),
    /// The worker was stopped before it.
    NotRun,
}

/// By what an answer stops a worker.
#[derive(Clone, Copy, Debug, PartialEq, Eq)]
pub enum Stop {
    /// The device of an area of the store failed, or of the area of summaries, or memory ran out.
    Store(StoreFault),
    /// The device of the area of the line's backup failed.
    Backup,
    /// The device of the area of its prior backup failed.
    Prior,
}

/// By what the refusal of a command stops a worker.
fn insert_stop(why: InsertFault) -> Option<Stop>
    ensures { result ≡ insert_stop why }
{
    match why {
        InsertFault::Failed(area) => Some(Stop::Store(StoreFault::Failed(area))),
        InsertFault::NoMemory => Some(Stop::Store(StoreFault::NoMemory)),
        _ => None,
    }
}

/// By what a checkpoint that was not done stops a worker.
fn mark_stop(why: MarkFault) -> Option<Stop>
    ensures { result ≡ mark_stop why }
{
    match why {
        MarkFault::Failed(area) => Some(Stop::Store(StoreFault::Failed(area))),
        MarkFault::WalFull(_) => None,
        MarkFault::NoMemory => Some(Stop::Store(StoreFault::NoMemory)),
    }
}

/// By what a full backup that was refused, or failed, stops a worker.
fn backup_stop(why: BackupFault) -> Option<Stop>
    ensures { result ≡ backup_stop why }
{
    match why {
        BackupFault::NotEmpty | BackupFault::WalFull(_) => None,
        BackupFault::StoreFailed(area) => Some(Stop::Store(StoreFault::Failed(area))),
        BackupFault::OutFailed => Some(Stop::Backup),
        BackupFault::NoMemory => Some(Stop::Store(StoreFault::NoMemory)),
    }
}

/// By what an incremental backup that was refused, or failed, stops a worker.
fn incr_stop(why: IncrFault) -> Option<Stop>
    ensures { result ≡ incr_stop why }
{
    match why {
        IncrFault::NotEmpty
        | IncrFault::NoManifest
        | IncrFault::ManifestRefused(_)
        | IncrFault::SystemDiffers(_, _)
        | IncrFault::Overlap(_, _)
        | IncrFault::Gap(_)
        | IncrFault::WalFull(_) => None,
        IncrFault::StoreFailed(area) => Some(Stop::Store(StoreFault::Failed(area))),
        IncrFault::SumsFailed => Some(Stop::Store(StoreFault::Failed(StoreArea::Sums))),
        IncrFault::PriorFailed => Some(Stop::Prior),
        IncrFault::OutFailed => Some(Stop::Backup),
        IncrFault::NoMemory => Some(Stop::Store(StoreFault::NoMemory)),
    }
}

impl Answer {
    /// By what this answer stops the worker: a device that failed, or want of memory.
    pub fn stop(self) -> Option<Stop>
        ensures { result ≡ stop_of self }
    {
        match self {
            Answer::Accepted(_) => None,
            Answer::Refused(why) => insert_stop(why),
            Answer::Grown(_, _) => None,
            Answer::Stopped(_, why) => insert_stop(why),
            Answer::Redo(_) => None,
            Answer::CheckpointRefused(why) => mark_stop(why),
            Answer::Wrote(_) => None,
            Answer::Published(_) => None,
            Answer::CallFailed(why) => Some(Stop::Store(why)),
            Answer::Backup(_, _) => None,
            Answer::BackupRefused(why) => backup_stop(why),
            Answer::IncrRefused(why) => incr_stop(why),
            Answer::NotRun => None,
        }
    }

    /// Whether the lines behind this one aren't run.
    pub fn stops(self) -> bool
        ensures { result ≡ stops_with self }
    {
        match self {
            Answer::NotRun => true,
            answer => answer.stop().is_some(),
        }
    }
}

/// Answers in the order of their lines. Contracts see the list.
#[derive(Debug, Drop)]
pub struct Answers {
    items: Vec<Answer>,
}

impl Model for Answers {
    ghost use Rattle.std.specs.Prelude.{List};
    ghost use Rattle.run_answers.specs.declared.answer.Answer.{Answer};

    ghost Value = { List Answer };

    ghost view = { λ a. a.items.items };
}

impl Answers {
    /// The answers of a vector. Takes no memory.
    pub fn from_vec(items: Vec<Answer>) -> Answers
        ensures { result ≡ items.items }
    {
        Answers { items }
    }

    /// The answers.
    pub fn as_slice(&self) -> &[Answer]
        ensures { result.now ≡ self.now }
    {
        &self.items
    }
}
