//! The marks that a running store writes.

ghost use Rattle.std.specs.Prelude.{◌≡◌};
ghost use Rattle.wal_record.specs.Spelling.{IsWritable};
ghost use Rattle.history.specs.Written.{mark_kind};
ghost use Rattle.journal.specs.Marks.{marking_of};

use history::checkpointer::{online_kind, redo_kind};
use lsn_core::Lsn;
use wal_record::Kind;

/// A mark of a running store: the start of a checkpoint, the end of the one of a redo point, or the
/// end of the backup that started at a place.
#[derive(Clone, Copy)]
pub enum StoreMark {
    Redo,
    Online(Lsn),
    BackupEnd(Lsn),
}

/// The kind of entry that a mark is written as.
pub fn mark_kind(mark: StoreMark) -> Kind
    ensures kind { result ≡ mark_kind (marking_of mark) }
    ensures writable { IsWritable result }
{
    match mark {
        StoreMark::Redo => redo_kind(),
        StoreMark::Online(redo) => online_kind(redo),
        StoreMark::BackupEnd(start) => Kind::BackupEnd(start),
    }
}
