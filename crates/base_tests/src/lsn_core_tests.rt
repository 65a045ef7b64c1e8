//! Places, segments and forks, and how each is written: values of the formats' own documents.

use lsn_core::{
    ForkId, ForkKind, Lsn, NoMemory, Rel, SegSize, Settings, fork_path, lsn_read, lsn_text,
    path_fork, segment_name, segment_of, segment_read,
};
use std::alloc::Global;

/// Places, and how each is written.
static PLACES: [(u64, &str); 4] = [
    (0, "0/0"),
    (0x1_0200_0028, "1/2000028"),
    (0xA_0000_000B, "A/B"),
    (0xFFFF_FFFF_FFFF_FFFF, "FFFFFFFF/FFFFFFFF"),
];

/// A place is written so, and this is read as it.
fn is_place(alloc: Global, at: u64, text: &str) -> Result<bool, NoMemory> {
    let written = lsn_text(alloc, Lsn(at))?;
    Ok(written.as_bytes() == text.as_bytes() && lsn_read(text.as_bytes()) == Some(Lsn(at)))
}

#[test]
fn places_are_written_and_read(rt: HostRuntime) -> Result<(), NoMemory> {
    for (at, text) in &PLACES {
        assert!(rt; is_place(rt.alloc(), *at, text)?, "{text}");
    }
    Ok(())
}

/// Segment sizes in MiB, places, and the number and the name of the segment of each.
static SEGMENTS: [(u32, u64, u64, &str); 5] = [
    (16, 0x1_0200_0028, 258, "000000010000000100000002"),
    (16, 0xFF_FFFF, 0, "000000010000000000000000"),
    (1, 0x1000_0000, 256, "000000010000000000000100"),
    (1024, 0x1_0000_0000, 4, "000000010000000100000000"),
    (1, 0x100_0000_0000, 1_048_576, "000000010000010000000000"),
];

/// A place is in the segment of this number, at most 1,048,576, which is named so.
fn is_segment(alloc: Global, mib: u32, at: u64, number: u64, name: &str) -> Result<bool, NoMemory> {
    let Some(size) = SegSize::new(mib) else {
        return Ok(false);
    };
    let written = segment_name(alloc, number.min(1_048_576), size)?;
    let read = segment_read(name.as_bytes(), size) == Some((1, number));
    Ok(written.as_bytes() == name.as_bytes() && read && segment_of(Lsn(at), size) == number)
}

#[test]
fn segments_are_written_and_read(rt: HostRuntime) -> Result<(), NoMemory> {
    for (mib, at, number, name) in &SEGMENTS {
        assert!(rt; is_segment(rt.alloc(), *mib, *at, *number, name)?, "{name}");
    }
    Ok(())
}

/// What a path names: the numbers, the kind, the segment and the form.
type Named = (u32, u32, ForkKind, u32, bool);

/// Paths, and what each names.
static PATHS: [(&str, Named); 5] = [
    ("base/5/16384", (5, 16384, ForkKind::Main, 0, false)),
    ("base/5/16384_init", (5, 16384, ForkKind::Init, 0, false)),
    ("base/5/16384.1", (5, 16384, ForkKind::Main, 1, false)),
    (
        "base/5/INCREMENTAL.16384",
        (5, 16384, ForkKind::Main, 0, true),
    ),
    (
        "base/5/INCREMENTAL.16384_init.2",
        (5, 16384, ForkKind::Init, 2, true),
    ),
];

/// What is named has this path, and this is read as it.
fn is_path(alloc: Global, named: Named, path: &str) -> Result<bool, NoMemory> {
    let (db, number, kind, segment, incremental) = named;
    let Some(rel) = Rel::new(db, number) else {
        return Ok(false);
    };
    let fork = ForkId { rel, kind };
    let written = fork_path(alloc, fork, segment, incremental)?.into_vec();
    let read = path_fork(path.as_bytes()) == Some((fork, segment, incremental));
    Ok(written.as_slice() == path.as_bytes() && read && (rel.db(), rel.rel()) == (db, number))
}

#[test]
fn paths_are_written_and_read(rt: HostRuntime) -> Result<(), NoMemory> {
    for (path, named) in &PATHS {
        assert!(rt; is_path(rt.alloc(), *named, path)?, "{path}");
    }
    Ok(())
}

/// The numbers of the settings of a store that asks for nothing else: MiB a segment of the WAL,
/// blocks a segment of a fork, and the system identifier.
fn standard_numbers() -> Option<(u32, u32, u64)> {
    let settings = Settings::new(SegSize::standard(), 131_072, 7)?;
    Some((
        settings.segment().mib(),
        settings.relseg(),
        settings.system(),
    ))
}

#[test]
fn standard_segments_have_16_mebibytes(rt: HostRuntime) {
    assert!(rt; standard_numbers() == Some((16, 131_072, 7)));
}
