//! The record that comes next in the machine's WAL.

ghost use Rattle.std.specs.Prelude.{◌≡◌, IfOk};
ghost use Rattle.lsn_core.specs.Tip.{tip_with};
ghost use Rattle.wal_record.specs.Spelling.{IsWritable};
ghost use Rattle.store_core.specs.InMemory.{IsNext};

use crate::stores::number;
use lsn_core::{Lsn, NoMemory, Settings};
use std::alloc::Global;
use wal_pages::Layout;
use wal_record::{Kind, Record, encode_record, wal_limit};

/// The record of a kind that comes next behind a WAL that ends at a place, with its last entry's
/// start. None where it would end past the WAL's room.
pub fn next_record(
    alloc: Global,
    settings: &Settings,
    last: Lsn,
    prev: Lsn,
    kind: Kind,
) -> Result<Option<Record>, NoMemory>
    requires { IsWritable kind }
    ensures { IfOk result (IsNext settings.now.segment (tip_with last.0 prev.0 0 0) kind) }
{
    let limit = wal_limit(settings.segment());
    if last.0 > limit.0 {
        return Ok(None);
    }
    let layout = Layout::new(settings);
    let start = layout.start_after(last);
    if start.0 > limit.0 {
        return Ok(None);
    }
    let mut record = Record {
        start,
        end: start,
        prev,
        xid: 0,
        kind,
    };
    let total = number(encode_record(alloc, &record)?.len())?;
    let end = layout.end_of(start, total);
    if end.0 > limit.0 {
        return Ok(None);
    }
    record.end = end;
    Ok(Some(record))
}
