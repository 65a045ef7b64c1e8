//! The entry that comes next, with its bytes.

ghost use Rattle.std.specs.Prelude.{◌≡◌};
ghost use Rattle.wal_record.specs.Spelling.{IsWritable};
ghost use Rattle.wal_record.specs.Tips.{IsWithin};
ghost use Rattle.wal_writer.specs.Answers.{PrepareAnswer};
ghost use Rattle.wal_writer.specs.Log.{log_at};

use crate::fault::AppendFault;
use lsn_core::WalTip;
use std::alloc::Global;
use std::marker::Model;
use wal_pages::Layout;
use wal_record::{Kind, Record, encode_record, wal_limit};

/// An entry that comes next to the WAL, with the archive's bytes of it. Contracts see a `Ready`.
#[derive(Drop)]
pub struct Prepared {
    entry: Record,
    bytes: Vec<u8>,
}

impl Model for Prepared {
    ghost use Rattle.wal_writer.specs.Log.{Ready, ready_of};

    ghost Value = { Ready };

    ghost view = { λ p. ready_of p.entry p.bytes.items };
}

impl Prepared {
    /// The entry, with its place.
    pub fn record(&self) -> &Record
        ensures { result.now ≡ self.now.entry }
    {
        &self.entry
    }

    /// The archive's bytes of the entry, from where the one before it ends to where it ends.
    pub fn bytes(&self) -> &[u8]
        ensures { result.now ≡ self.now.bytes }
    {
        &self.bytes
    }

    /// The entry alone.
    pub fn into_record(self) -> Record
        ensures { result ≡ self.entry }
    {
        self.entry
    }
}

/// The entry of a kind that comes next behind a tip, with its bytes. `WalFull` exactly where it
/// would end past the WAL's room.
pub fn prepare(
    alloc: Global,
    layout: Layout,
    tip: WalTip,
    kind: Kind,
) -> Result<Prepared, AppendFault>
    requires kind { IsWritable kind }
    requires tip { IsWithin layout.segment tip }
    ensures { PrepareAnswer kind (log_at layout tip) result }
{
    let limit = wal_limit(layout.settings().segment());
    let start = layout.start_after(tip.end);
    let mut entry = Record {
        start,
        end: start,
        prev: tip.prev,
        xid: 0,
        kind,
    };
    let flat = encode_record(alloc, &entry)?;
    entry.end = layout.end_of(start, flat.len() as u32);
    if entry.end.0 > limit.0 {
        return Err(AppendFault::WalFull);
    }
    let bytes = layout.spread(alloc, tip.end, &flat)?;
    Ok(Prepared { entry, bytes })
}
