//! The kind of entry that a command is written as.

ghost use Rattle.std.specs.Prelude.{◌≡◌, IfOk};
ghost use Rattle.wal_record.specs.Spelling.{IsWritable};
ghost use Rattle.history.specs.Op.{act_of_op, IsFit, AreFit};
ghost use Rattle.history.specs.Written.{kind_of};
ghost use Rattle.history.specs.checkpointer.Laws.{pages_before};

use history::checkpointer::{change_kind, creation_kind, drop_kind, truncation_kind};
use history::{Item, Op, PageMap};
use lsn_core::{Lsn, NoMemory};
use std::alloc::Global;
use wal_record::Kind;

/// The kind of entry that a command is written as, by the pages before it and the latest redo
/// point.
pub fn op_kind(alloc: Global, frames: &PageMap, op: &Op, redo: Lsn) -> Result<Kind, NoMemory>
    requires { IsFit frames.now op.now }
    ensures kind { IfOk result (λ k. k ≡ kind_of frames.now redo.0 (act_of_op op.now)) }
    ensures writable { IfOk result IsWritable }
{
    match op {
        Op::Create(fork) => Ok(creation_kind(*fork)),
        Op::Truncate(rel, count) => Ok(truncation_kind(*rel, *count)),
        Op::Drop(rel) => drop_kind(alloc, *rel),
        Op::Change(items) => {
            let before = pages_of(alloc, frames, items.as_slice())?;
            change_kind(alloc, items.as_slice(), &before, redo)
        }
    }
}

/// The pages at the blocks of items; a missing one is a page of zeros.
fn pages_of(alloc: Global, frames: &PageMap, items: &[Item]) -> Result<Vec<[u8; 8192]>, NoMemory>
    ensures { IfOk result (λ pages. pages.items ≡ pages_before frames.now items.now) }
{
    let mut pages = Vec::new(alloc);
    for item in items {
        pages.push(frames.page_at(&item.at))?;
    }
    Ok(pages)
}
