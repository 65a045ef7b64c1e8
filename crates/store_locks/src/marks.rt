//! The entries that a checkpoint and the end of a backup append.

ghost use Rattle.std.specs.Prelude.{◌≡◌, IfOk, IfErr, OnErr};
ghost use Rattle.history.specs.Entry.{Mark, RedoMark, Online, BackupEnd};
ghost use Rattle.store_locks.specs.Inside.{AddsOnly, AreCleaned, HasMark, IsFullFor};

use journal::{HistoryEntry, Journal, OfStore};
use lsn_core::{Lsn, MarkFault, Place};
use page_pool::Cleaned;
use std::alloc::Global;
use timeline::Timeline;
use vault::Vault;
use wal_record::Record;
use wal_writer::AppendFault;

/// Appends the start of a checkpoint, as a worker. It errs as a whole.
pub(crate) fn append_start<J: OfStore, V: Vault>(
    alloc: Global,
    line: &Timeline<HistoryEntry, J>,
    journal: &mut Journal<J, V>,
    worker: u32,
) -> Result<Place, MarkFault>
    ensures marked { IfOk result
        (HasMark worker (RedoMark 1) journal.old.pen journal.new.pen) }
    ensures full { IfErr result
        (IsFullFor (Mark (RedoMark 1)) journal.old.wal.tail.mib journal.old.pen) }
    ensures same { OnErr result (journal.new ≡ journal.old) }
    ensures adds { AddsOnly journal.old journal.new }
{
    let tip = journal.tip();
    match journal.append_redo(alloc, line, worker) {
        Ok(record) => Ok(place_of(&record)),
        Err(AppendFault::WalFull) => Err(MarkFault::WalFull(tip.count)),
        Err(AppendFault::NoMemory) => Err(MarkFault::NoMemory),
    }
}

/// Appends the end of the checkpoint of a redo point, behind which all partitions were written, as
/// a worker. It errs as a whole. No other function appends such an entry.
pub(crate) fn append_end<J: OfStore, V: Vault>(
    alloc: Global,
    line: &Timeline<HistoryEntry, J>,
    journal: &mut Journal<J, V>,
    redo: Lsn,
    _done: &[Cleaned; 4],
    worker: u32,
) -> Result<Place, MarkFault>
    requires { AreCleaned redo _done.now }
    ensures marked { IfOk result
        (HasMark worker (Online redo.0) journal.old.pen journal.new.pen) }
    ensures full { IfErr result
        (IsFullFor (Mark (Online redo.0)) journal.old.wal.tail.mib journal.old.pen) }
    ensures same { OnErr result (journal.new ≡ journal.old) }
    ensures adds { AddsOnly journal.old journal.new }
{
    let tip = journal.tip();
    match journal.append_online(alloc, line, redo, worker) {
        Ok(record) => Ok(place_of(&record)),
        Err(AppendFault::WalFull) => Err(MarkFault::WalFull(tip.count)),
        Err(AppendFault::NoMemory) => Err(MarkFault::NoMemory),
    }
}

/// Appends the end of the backup that started there, as a worker. It errs as a whole.
pub(crate) fn append_backup_end<J: OfStore, V: Vault>(
    alloc: Global,
    line: &Timeline<HistoryEntry, J>,
    journal: &mut Journal<J, V>,
    start: Lsn,
    worker: u32,
) -> Result<Place, MarkFault>
    ensures marked { IfOk result
        (HasMark worker (BackupEnd start.0) journal.old.pen journal.new.pen) }
    ensures full { IfErr result
        (IsFullFor (Mark (BackupEnd start.0)) journal.old.wal.tail.mib journal.old.pen) }
    ensures same { OnErr result (journal.new ≡ journal.old) }
    ensures adds { AddsOnly journal.old journal.new }
{
    let tip = journal.tip();
    match journal.append_backup_end(alloc, line, start, worker) {
        Ok(record) => Ok(place_of(&record)),
        Err(AppendFault::WalFull) => Err(MarkFault::WalFull(tip.count)),
        Err(AppendFault::NoMemory) => Err(MarkFault::NoMemory),
    }
}

/// Where an entry stands.
fn place_of(entry: &Record) -> Place
    ensures start { result.start ≡ entry.now.start }
    ensures end { result.end ≡ entry.now.end }
{
    Place {
        start: entry.start,
        end: entry.end,
    }
}
