//! Notes on a WAL that can't be read or replayed.

use crate::areas::{area_note, memory_note};
use crate::lines::note;
use lsn_core::{AreaFault, Lsn, MOST_SEGMENTS, NoMemory, SegSize, Text, lsn_text, segment_name};
use recovery::RecoveryFault;
use std::alloc::Global;
use wal_archive::{Broken, Damage};
use wal_pages::HeadFault;
use wal_record::Why;

/// What helps where a store's WAL is damaged.
const END_OR_COPY: &[u8] =
    b"pgbackup restart ends the WAL there, as behind a crash; else bring the segment file back from a copy, or replay up to a target before that place";

/// What helps where no entry is before the damage.
pub(crate) const COPY_THE_FIRST: &[u8] =
    b"bring the segment file back from a copy: the WAL has no entry before that place";

/// What helps where a stream is damaged.
pub(crate) const GIVE_ANEW: &[u8] = b"give the WAL's bytes anew, or follow a copy of them";

fn head_text(why: HeadFault) -> &'static [u8] {
    match why {
        HeadFault::PageMagic =>
            b"the page has another magic number than a WAL page of PostgreSQL 17",
        HeadFault::PageInfo => b"the page's flags are not those of its place",
        HeadFault::PageTimeline => b"the page is of another timeline than 1",
        HeadFault::PageAddr => b"the page tells another address than its own",
        HeadFault::SysId => b"the page has another system identifier than the store",
        HeadFault::PageSizes => b"the page tells another segment or page size than the store's",
        HeadFault::RemLen => b"the page tells another remaining length than the entry's",
    }
}

fn broken_text(why: Broken) -> &'static [u8] {
    match why {
        Broken::Head(why) => head_text(why),
        Broken::Length => b"the entry tells a length that no entry has",
        Broken::Prev => b"the entry doesn't point to the entry before it",
        Broken::Crc => b"the entry's checksum isn't that of its bytes",
        Broken::Header => b"the entry's block headers can't be read",
        Broken::Torn => b"the WAL ends within the entry",
        Broken::SegSize => b"a segment file ends too early, and the WAL goes on behind it",
        Broken::Place => b"no entry may start there",
    }
}

fn content_text(why: Why) -> &'static [u8] {
    match why {
        Why::CommitBits => b"a commit tells other things than dropped relations",
        Why::Compressed => b"an image is compressed",
        Why::NotApplied => b"an image is not to be applied",
        Why::Tablespace => b"a relation is of another tablespace than pg_default (1663)",
        Why::Fork => b"a fork is neither main nor init",
        Why::Relation => b"a database or relation has number 0",
        Why::BlockRange => b"a block number is 32768 or more",
        Why::ImagePage => b"an image is no page with a good header",
        Why::Fragments => b"changed bytes reach past the page or into its LSN",
        Why::Shape => b"its blocks or its data are not those of its kind",
        Why::First =>
            b"the WAL's first entry is no shutdown checkpoint with its own start as redo point",
    }
}

/// A segment of this number, of that size, is missing.
fn missing_note(alloc: Global, size: SegSize, number: u64, next: &[u8]) -> Result<Text, NoMemory> {
    if number > MOST_SEGMENTS {
        return Err(NoMemory);
    }
    let name = segment_name(alloc, number, size)?;
    note(
        alloc,
        &[
            b"segment file wal/",
            name.as_bytes(),
            b" is missing, and the WAL goes on behind it",
        ],
        next,
    )
}

/// An entry at a place is of a kind that isn't taken.
fn unsupported_note(alloc: Global, at: Lsn, manager: u8, info: u8) -> Result<Text, NoMemory> {
    let at = lsn_text(alloc, at)?;
    let kind = format!(in alloc; "{manager}, info {info}")?;
    note(
        alloc,
        &[
            b"the entry at ",
            at.as_bytes(),
            b" of the WAL is of resource manager ",
            kind.as_bytes(),
            b", which is not read",
        ],
        b"replay up to a target before it; docs/FORMATS.md has the kinds that are read",
    )
}

/// The WAL is refused at a place.
fn placed_note(
    alloc: Global,
    refused: &[u8],
    at: Lsn,
    why: &[u8],
    next: &[u8],
) -> Result<Text, NoMemory> {
    let at = lsn_text(alloc, at)?;
    note(alloc, &[refused, at.as_bytes(), b": ", why], next)
}

/// The WAL is damaged, and what helps.
pub(crate) fn damage_note(
    alloc: Global,
    size: SegSize,
    damage: Damage,
    next: &[u8],
) -> Result<Text, NoMemory> {
    match damage {
        Damage::Missing(number) => missing_note(alloc, size, number, next),
        Damage::Broken(at, why) => {
            placed_note(alloc, b"the WAL is damaged at ", at, broken_text(why), next)
        }
        Damage::Unsupported(at, manager, info) => unsupported_note(alloc, at, manager, info),
        Damage::Content(at, why) => placed_note(
            alloc,
            b"the WAL's entry is refused at ",
            at,
            content_text(why),
            b"replay up to a target before that place",
        ),
    }
}

/// The WAL ends before the target.
fn short_note(alloc: Global, end: Lsn, target: Lsn) -> Result<Text, NoMemory> {
    let end = lsn_text(alloc, end)?;
    let target = lsn_text(alloc, target)?;
    note(
        alloc,
        &[
            b"the WAL ends at ",
            end.as_bytes(),
            b", before the target ",
            target.as_bytes(),
        ],
        b"give a target at or before that end, or bring the later segment files to wal",
    )
}

/// The target of a restore, or where none is given the WAL's end, is before the backup's end.
pub fn early_note(alloc: Global, target: Lsn, end: Lsn) -> Result<Text, NoMemory> {
    let target = lsn_text(alloc, target)?;
    let end = lsn_text(alloc, end)?;
    note(
        alloc,
        &[
            b"the target, or else the WAL's end, is ",
            target.as_bytes(),
            b", before the backup's end ",
            end.as_bytes(),
        ],
        b"give a target at or past the backup's end, or bring the later segment files to wal",
    )
}

/// The WAL can't be read, or not replayed.
pub fn wal_note(alloc: Global, fault: RecoveryFault) -> Result<Text, NoMemory> {
    match fault {
        RecoveryFault::Damaged(size, damage) => damage_note(alloc, size, damage, END_OR_COPY),
        RecoveryFault::Short(end, target) => short_note(alloc, end, target),
        RecoveryFault::BadDelta(at) => placed_note(
            alloc,
            b"the WAL can't be replayed at ",
            at,
            b"the entry's change leaves a page with a bad header",
            b"replay up to a target before that place",
        ),
        RecoveryFault::SettingsDamaged => note(
            alloc,
            &[b"file wal/settings is not as init wrote it"],
            b"bring it back from a copy, or write its two lines anew (docs/FORMATS.md)",
        ),
        RecoveryFault::Timeline(name) => note(
            alloc,
            &[
                b"segment file wal/",
                name.as_bytes(),
                b" is of another timeline than 1",
            ],
            b"take the files of other timelines out of wal",
        ),
        RecoveryFault::NotInit => note(
            alloc,
            &[b"there is no store here: folder wal has no WAL with an entry"],
            b"run init first, or change to the folder of the store",
        ),
        RecoveryFault::Failed => area_note(alloc, b"wal", AreaFault::Failed),
        RecoveryFault::NoMemory => memory_note(alloc),
    }
}
