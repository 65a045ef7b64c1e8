//! Reading an entry.

ghost use Rattle.std.specs.Prelude.{◌≡◌, IfOk};
ghost use Rattle.wal_record.specs.Outcome.{Gives};
ghost use Rattle.wal_record.specs.Sound.{IsSound};
ghost use Rattle.wal_record.specs.Decoding.{kind_at, is_own_redo, may_come, record_in, record_at};

use crate::content::said;
use crate::record::{Kind, Record, RecordFault, Why};
use lsn_core::{Lsn, Place};
use std::alloc::Global;
use wal_pages::wal_heads::{Header, form_of, heads_of, is_linked, parts_of, sum_of, summed_front};

/// The entry at the front of the bytes, at its place, behind one that starts at `prev`; None asks
/// for no link, and a `prev` of 0 for the archive's first entry.
///
/// It is refused in this order: `Length` where its total length is below 24 or above 4,194,304, or
/// where so many bytes aren't there; `Prev` where its link isn't `prev`; `Crc`; `Unsupported` with
/// the manager and the info byte; `Header` where the announcements don't fit; `Content` with the
/// first why.
#[tactic(auto, unfolding(crate::specs::Decoding::record_at))]
pub fn decode_record(
    alloc: Global,
    bytes: &[u8],
    place: Place,
    prev: Option<Lsn>,
) -> Result<Record, RecordFault>
    ensures entry { Gives result (record_at place prev bytes.now) }
    ensures sound { IfOk result (λ r. IsSound r.kind) }
{
    let Some((header, body)) = parts_of(bytes) else {
        return Err(RecordFault::Length);
    };
    record_of(alloc, place, prev, summed_front(bytes), header, body)
}

/// The entry of a header and the bytes behind it, by the header's first 20 bytes.
#[tactic(auto, unfolding(crate::specs::Decoding::record_in))]
fn record_of(
    alloc: Global,
    place: Place,
    prev: Option<Lsn>,
    front: &[u8],
    header: Header,
    body: &[u8],
) -> Result<Record, RecordFault>
    ensures { Gives result (record_in place prev front.now (header, body.now)) }
{
    if !is_linked(prev, header.prev) {
        return Err(RecordFault::Prev);
    }
    if header.crc != sum_of(front, body) {
        return Err(RecordFault::Crc);
    }
    let kind = kind_of(alloc, header.manager, header.info, body)?;
    if !may_come(prev, place.start, &kind) {
        return Err(RecordFault::Content(Why::First));
    }
    Ok(Record {
        start: place.start,
        end: place.end,
        prev: Lsn(header.prev),
        xid: header.xid,
        kind,
    })
}

/// What the bytes behind a header of this manager and info byte say.
#[tactic(auto, unfolding(crate::specs::Decoding::kind_at))]
fn kind_of(alloc: Global, manager: u8, info: u8, body: &[u8]) -> Result<Kind, RecordFault>
    ensures { Gives result (kind_at manager info body.now) }
{
    let Some(form) = form_of(manager, info) else {
        return Err(RecordFault::Unsupported(manager, info));
    };
    let Some(heads) = heads_of(alloc, body)? else {
        return Err(RecordFault::Header);
    };
    said(alloc, form, &heads)
}

/// Whether an entry is a shutdown checkpoint whose redo point is its own start.
pub fn is_own_redo(start: Lsn, kind: &Kind) -> bool
    ensures { result ≡ is_own_redo start kind.now }
{
    match kind {
        Kind::Shutdown(redo) => redo.0 == start.0,
        _ => false,
    }
}

/// Whether an entry of this kind may stand behind one that starts at `prev`: behind none, which a
/// `prev` of 0 tells, only such a checkpoint.
fn may_come(prev: Option<Lsn>, start: Lsn, kind: &Kind) -> bool
    ensures { result ≡ may_come prev start kind.now }
{
    match prev {
        Some(Lsn(0)) => is_own_redo(start, kind),
        _ => true,
    }
}
