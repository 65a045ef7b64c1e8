//! A WAL that is cut off at a byte, and segment files that end within a page or stand behind a gap.

use lsn_core::{Lsn, SegSize};
use memory_vault::MemVault;
use rel_neat::neaten;
use std::alloc::Global;
use store_restart::{Survivors, read_survivors, trim};
use test_areas::{ADDED, Change, NEW_WAL, SEGMENT, SETTINGS, Step, Wrong, make_all, take_steps};
use wal_reader::{WalFault, read_settings};

/// The name of the second segment file.
const SECOND: &[u8] = b"000000010000000000000002";

/// The area of a WAL of three entries, at 0x28, 0x60 and 0x90 of its segment, cut to so many bytes.
fn cut_to(alloc: Global, size: u64) -> Result<MemVault, Wrong> {
    let mut area = MemVault::new(alloc, &[])?;
    let changes = [
        Change::Write(b"settings", 0, SETTINGS),
        Change::Write(SEGMENT, 0, &NEW_WAL),
        Change::Write(SEGMENT, 96, &ADDED),
        Change::Cut(SEGMENT, size),
        Change::Write(SECOND, 0, &NEW_WAL),
    ];
    make_all(&mut area, &changes)?;
    Ok(area)
}

/// What survived in an area.
fn survivors(alloc: Global, area: &mut MemVault) -> Result<Survivors, WalFault> {
    let settings = read_settings(alloc, area)?;
    read_survivors(alloc, area, &settings)
}

/// To how many bytes the first segment is cut, where the survivors end then, and how many they are.
static CUT: [(u64, u64, u64); 6] = [
    (224, 0x1000E0, 3),
    (216, 0x100090, 2),
    (145, 0x100090, 2),
    (144, 0x100090, 2),
    (130, 0x100060, 1),
    (96, 0x100060, 1),
];

/// Whether so many entries survive in a WAL that is cut to so many bytes, end there, and begin at
/// the first one.
fn survive(alloc: Global, size: u64, end: u64, count: u64) -> Result<bool, Wrong> {
    let mut area = cut_to(alloc, size)?;
    match survivors(alloc, &mut area) {
        Ok(found) => Ok(
            found.tip.end.0 == end && found.tip.count == count && found.redo == Some(Lsn(0x100028)),
        ),
        Err(_) => Ok(false),
    }
}

#[test]
fn entries_before_a_cut_survive(rt: HostRuntime) -> Result<(), Wrong> {
    for (size, end, count) in &CUT {
        assert!(rt; survive(rt.alloc(), *size, *end, *count)?, "{size}");
    }
    Ok(())
}

/// Cut behind its second entry, a WAL has that much of its segment, and no later one.
static TRIMMED: [Step; 3] = [
    Step::Size(SEGMENT, Some(0x90)),
    Step::Size(SECOND, None),
    Step::Holds(b"settings", SETTINGS),
];

#[test]
fn a_wal_is_cut_behind_a_place(rt: HostRuntime) -> Result<(), Wrong> {
    let mut area = cut_to(rt.alloc(), 224)?;
    if let Some(size) = SegSize::new(1) {
        trim(rt.alloc(), &mut area, size, Lsn(0x100090))?;
    }
    take_steps(rt.alloc(), &mut area, &TRIMMED)
}

/// Segment files of two blocks at most: one that is full and one that ends within its second page,
/// one that ends within its first, one without the file before it, and one behind a short one.
static TORN: [Change; 7] = [
    Change::Write(b"base/5/16384", 16_383, b"x"),
    Change::Write(b"base/5/16384.1", 8_291, b"x"),
    Change::Write(b"base/5/16385", 99, b"x"),
    Change::Write(b"base/5/16386.1", 8_191, b"x"),
    Change::Write(b"base/5/16387", 8_191, b"x"),
    Change::Write(b"base/5/16387.1", 8_191, b"x"),
    Change::Write(b"PG_VERSION", 0, b"17"),
];

static NEAT: [Step; 7] = [
    Step::Size(b"base/5/16384", Some(16_384)),
    Step::Size(b"base/5/16384.1", Some(8_192)),
    Step::Size(b"base/5/16385", Some(0)),
    Step::Size(b"base/5/16386.1", None),
    Step::Size(b"base/5/16387", Some(8_192)),
    Step::Size(b"base/5/16387.1", None),
    Step::Size(b"PG_VERSION", Some(2)),
];

#[test]
fn torn_segments_are_made_neat(rt: HostRuntime) -> Result<(), Wrong> {
    let mut area = MemVault::new(rt.alloc(), &[])?;
    make_all(&mut area, &TORN)?;
    neaten(rt.alloc(), &mut area, 2)?;
    take_steps(rt.alloc(), &mut area, &NEAT)
}
