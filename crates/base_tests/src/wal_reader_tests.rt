//! The archive and its settings, in bytes that an independent implementation of the formats wrote.

use lsn_core::{Lsn, NoMemory, SegSize, WalTip};
use memory_vault::MemVault;
use std::alloc::Global;
use test_areas::{ARCHIVE, BEFORE_PADDING, Change, archive_with, make};
use wal_pages::HeadFault;
use wal_reader::{Broken, Damage, FileName, WalCursor, WalFault, read_settings, settings_text};

/// The places of an entry: its start, its end, and the start of the one before.
type Places = (u64, u64, u64);

/// The archive's entries.
static ENTRIES: [Option<Places>; 4] = [
    Some((0x100_0028, 0x100_0060, 0)),
    Some((0x100_0060, 0x100_0090, 0x100_0028)),
    Some((0x100_0090, 0x100_0108, 0x100_0060)),
    None,
];

/// The places of the next entry. None at the archive's end.
fn next_places(
    alloc: Global,
    area: &mut MemVault,
    cursor: &mut WalCursor,
) -> Result<Option<Places>, WalFault> {
    match cursor.next(alloc, area)? {
        Some(record) => Ok(Some((record.start.0, record.end.0, record.prev.0))),
        None => Ok(None),
    }
}

/// The tip at the archive's end.
const TIP: WalTip = WalTip {
    end: Lsn(0x100_0108),
    prev: Lsn(0x100_0090),
    redo: Lsn(0x100_0028),
    count: 3,
};

#[test]
fn three_entries_are_read_up_to_the_end(rt: HostRuntime) -> Result<(), WalFault> {
    let alloc = rt.alloc();
    let mut area = archive_with(alloc, BEFORE_PADDING, 0, b"", 0)?;
    let mut cursor = WalCursor::first(&read_settings(alloc, &mut area)?);
    for places in &ENTRIES {
        assert!(rt; next_places(alloc, &mut area, &mut cursor)? == *places);
    }
    assert!(rt; cursor.tip() == TIP);
    Ok(())
}

/// Damage: where, and why.
type Bad = Option<(u64, Broken)>;

/// An archive of so many bytes, in which these are then written at a place; where a cursor is set,
/// 0 for the archive's beginning; how many entries it gives, and the damage behind them.
type Case = (&'static str, (u64, u64, &'static [u8]), u64, u32, Bad);

/// The damage of the first page's head where its first byte is another one.
const MAGIC: Bad = Some((0x100_0000, Broken::Head(HeadFault::PageMagic)));

/// The damage of the archive's first entry, of its second one and of its third one, and behind it.
const TORN_HEAD: Bad = Some((0x100_0000, Broken::Torn));

const SUM: Bad = Some((0x100_0060, Broken::Crc));

const LINK: Bad = Some((0x100_0060, Broken::Prev));

const TORN: Bad = Some((0x100_0090, Broken::Torn));

const BEHIND: Bad = Some((0x100_0108, Broken::Torn));

const LATER: Bad = Some((0x100_0108, Broken::Length));

/// The damage of places at which no entry can start.
const ODD: Bad = Some((0x100_0061, Broken::Place));

const IN_HEAD: Bad = Some((0x100_0020, Broken::Place));

const INSIDE: Bad = Some((0x100_0068, Broken::Length));

/// Archives that end, that are damaged, and in which a cursor is set.
static CASES: [Case; 19] = [
    ("zeros behind", (0x101, 0x4e20, b"\0"), 0, 3, None),
    ("other padding", (0x101, 0x101, b"\x01"), 0, 3, None),
    ("next segment", (0x101, 0x100_0000, b"\x01"), 0, 3, None),
    ("no byte", (0x0, 0x0, b""), 0, 0, None),
    ("a head alone", (0x28, 0x0, b""), 0, 0, None),
    ("one entry", (0x60, 0x0, b""), 0, 1, None),
    ("a cut head", (0x27, 0x0, b""), 0, 0, TORN_HEAD),
    ("a cut entry", (0x100, 0x0, b""), 0, 2, TORN),
    ("another magic", (0x101, 0x0, b"\x17"), 0, 0, MAGIC),
    ("another sum", (0x101, 0x74, b"\0"), 0, 1, SUM),
    ("another link", (0x101, 0x68, b"`"), 0, 1, LINK),
    ("a byte behind", (0x101, 0x108, b"\x01"), 0, 3, BEHIND),
    ("a later byte", (0x101, 0x4e20, b"\x01"), 0, 3, LATER),
    ("set first", (0x101, 0, b""), 0x100_0028, 3, None),
    ("set last", (0x101, 0, b""), 0x100_0090, 1, None),
    ("set behind", (0x101, 0, b""), 0x100_2018, 0, None),
    ("set odd", (0x101, 0, b""), 0x100_0061, 0, ODD),
    ("set in a head", (0x101, 0, b""), 0x100_0020, 0, IN_HEAD),
    ("set inside", (0x101, 0, b""), 0x100_0068, 0, INSIDE),
];

/// How many entries a cursor gives, and the damage behind them.
fn read_through(
    alloc: Global,
    area: &mut MemVault,
    mut cursor: WalCursor,
) -> Result<(u32, Bad), WalFault> {
    for count in 0..5u32 {
        match cursor.next(alloc, area) {
            Ok(Some(_)) => {}
            Ok(None) => return Ok((count, None)),
            Err(WalFault::Damaged(Damage::Broken(at, why))) => return Ok((
                count,
                Some((at.0, why)),
            )),
            Err(fault) => return Err(fault),
        }
    }
    Ok((5, None))
}

/// What a cursor gives in a case.
fn read(alloc: Global, case: &Case) -> Result<(u32, Bad), WalFault> {
    let (_, (size, at, bytes), place, _, _) = case;
    let mut area = archive_with(alloc, *size, *at, bytes, 0)?;
    let settings = read_settings(alloc, &mut area)?;
    let cursor = match *place {
        0 => WalCursor::first(&settings),
        place => WalCursor::at(&settings, Lsn(place)),
    };
    read_through(alloc, &mut area, cursor)
}

#[test]
fn archives_end_or_are_damaged(rt: HostRuntime) {
    for case in &CASES {
        let (words, _, _, count, bad) = case;
        assert!(rt; read(rt.alloc(), case) == Ok((*count, *bad)), "{words}");
    }
}

/// Texts, and their numbers: MiB a segment and blocks a segment of a fork.
static SETTINGS: [(&str, u32, u32); 2] = [
    ("segment-mib 1\nblocks-per-segment 131072\n", 1, 131_072),
    ("segment-mib 1024\nblocks-per-segment 5\n", 1024, 5),
];

/// The numbers that a file of settings gives.
fn numbers_given(alloc: Global, text: &[u8]) -> Result<(u32, u32), WalFault> {
    let mut area = archive_with(alloc, BEFORE_PADDING, 0, b"", 0)?;
    make(&mut area, Change::Write(b"settings", 0, text))?;
    let settings = read_settings(alloc, &mut area)?;
    Ok((settings.segment().mib(), settings.relseg()))
}

/// These numbers are written so.
fn is_written(alloc: Global, mib: u32, relseg: u32, text: &str) -> Result<bool, NoMemory> {
    let Some(segment) = SegSize::new(mib) else {
        return Ok(false);
    };
    let written = settings_text(alloc, segment, relseg)?;
    Ok(written.as_bytes() == text.as_bytes())
}

#[test]
fn settings_are_written_and_read(rt: HostRuntime) -> Result<(), NoMemory> {
    for (text, mib, relseg) in &SETTINGS {
        assert!(rt; is_written(rt.alloc(), *mib, *relseg, text)?, "{text}");
        assert!(rt;
            numbers_given(rt.alloc(), text.as_bytes()) == Ok((*mib, *relseg)),
            "{text}"
        );
    }
    Ok(())
}

/// The system identifier of an area with the head of the archive's first page alone, in a file of
/// this name.
fn system_with(alloc: Global, name: &[u8]) -> Result<u64, WalFault> {
    let mut area = MemVault::new(alloc, &[])?;
    make(&mut area, Change::Write(name, 0, &ARCHIVE[..40]))?;
    Ok(read_settings(alloc, &mut area)?.system())
}

#[test]
fn a_segment_tells_the_system_and_the_timeline(rt: HostRuntime) {
    let name = b"000000020000000000000001";
    let refused = FileName::new(name).map(|name| Err(WalFault::Timeline(name)));
    assert!(rt; Some(system_with(rt.alloc(), name)) == refused);
    assert!(rt; system_with(rt.alloc(), b"000000010000000000000002") == Ok(7));
}
