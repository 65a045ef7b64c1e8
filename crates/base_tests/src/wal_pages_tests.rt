//! Places, cutting and heads of WAL pages. Bytes are those of an independent implementation of the
//! formats.

ghost use Rattle.std.specs.Prelude.{◌≡◌, ◌%◌};
ghost use Rattle.lsn_core.specs.Sizes.{page_size};

use lsn_core::{Lsn, NoMemory, SegSize, Settings};
use std::alloc::Global;
use test_areas::{ADDED, NEW_WAL};
use wal_pages::{HeadFault, Layout, head_size};

/// The layout of segments of 1 MiB, with system identifier 7.
fn layout() -> Option<Layout> {
    let settings = Settings::new(SegSize::new(1)?, 131072, 7)?;
    Some(Layout::new(&settings))
}

/// Where an entry of so many bytes ends that starts there, and where the next one starts.
static ENDS: [(u64, u32, u64, u64); 6] = [
    (0x100028, 50, 0x100060, 0x100060),
    (0x100090, 8033, 0x101ff8, 0x101ff8),
    (0x100090, 8041, 0x102000, 0x102018),
    (0x101ff8, 42, 0x102040, 0x102040),
    (0x100090, 8241, 0x1020e0, 0x1020e0),
    (0x1fff90, 112, 0x200000, 0x200028),
];

/// Where an entry ends and the next one starts.
fn ends(start: u64, total: u32) -> Option<(u64, u64)> {
    let layout = layout()?;
    let end = layout.end_of(Lsn(start.min(1 << 52)), total).0;
    Some((end, layout.start_after(Lsn(end.min(1 << 52))).0))
}

#[test]
fn entries_start_behind_heads_and_end_at_multiples_of_8(rt: HostRuntime) {
    for (start, total, end, next) in &ENDS {
        assert!(rt;
            ends(*start, *total) == Some((*end, *next)),
            "{start} {total}"
        );
    }
}

/// An entry of 42 bytes at 0/101FF8: eight of them, the head of the next page, on which 34 are
/// still to come, these, and zeros up to its end.
static CUT: [u8; 72] = [
    0x2a, 0x00, 0x00, 0x00, 0x00, 0x00, 0x00, 0x00, 0x16, 0xd1, 0x01, 0x00, 0x01, 0x00, 0x00, 0x00,
    0x00, 0x20, 0x10, 0x00, 0x00, 0x00, 0x00, 0x00, 0x22, 0x00, 0x00, 0x00, 0x00, 0x00, 0x00, 0x00,
    0x28, 0x00, 0x10, 0x00, 0x00, 0x00, 0x00, 0x00, 0x11, 0x02, 0x00, 0x00, 0x81, 0xad, 0xc8, 0x74,
    0xff, 0x10, 0x7f, 0x06, 0x00, 0x00, 0x05, 0x00, 0x00, 0x00, 0x00, 0x40, 0x00, 0x00, 0x00, 0x00,
    0x00, 0x00, 0x00, 0x00, 0x00, 0x00, 0x00, 0x00,
];

/// An entry behind this place is written so.
fn is_spread(alloc: Global, place: u64, entry: &[u8], wanted: &[u8]) -> Result<bool, NoMemory> {
    let layout = layout();
    match layout {
        Some(layout) if entry.len() >= 24 && entry.len() <= 100 => {
            let found = layout.spread(alloc, Lsn(place.min(1 << 52)), entry)?;
            Ok(found.as_slice() == wanted)
        }
        _ => Ok(false),
    }
}

#[test]
fn entries_are_written_behind_and_over_heads(rt: HostRuntime) -> Result<(), NoMemory> {
    assert!(rt; is_spread(rt.alloc(), 0x100000, &NEW_WAL[40..90], &NEW_WAL)?);
    assert!(rt; is_spread(rt.alloc(), 0x101ff8, &ADDED[..42], &CUT)?);
    Ok(())
}

/// What the head of a page is refused for. A short head is refused for its magic.
fn head_fault(head: &[u8], page: u64, rest: u32) -> Option<HeadFault>
    requires { page % page_size ≡ 0 }
{
    let layout = layout()?;
    if (head.len() as u64) < head_size(layout.settings().segment(), page) {
        return Some(HeadFault::PageMagic);
    }
    layout.check_head(head, Lsn(page), Some(rest)).err()
}

#[test]
fn heads_are_tested(rt: HostRuntime) {
    assert!(rt; head_fault(&NEW_WAL, 0x100000, 0).is_none());
    assert!(rt; head_fault(&CUT[8..32], 0x102000, 34).is_none());
    assert!(rt; head_fault(&CUT[8..32], 0x102000, 33) == Some(HeadFault::RemLen));
}
