//! Reading bytes of the archive.

ghost use Rattle.std.specs.Prelude.{◌≡◌, ◌+◌, ◌-◌, ◌*◌, ◌/◌, ◌%◌, ◌^◌, ◌≤◌, ◌<◌, length, IsTrue, IfOk, IfSome};
ghost use Rattle.lsn_core.specs.Causes.{HasCause};
ghost use Rattle.lsn_core.specs.Segment.{segment_bytes};
ghost use Rattle.wal_archive.specs.Archive.{archive_of, is_segment};
ghost use Rattle.lsn_core.specs.Sizes.{page_size, most_segments};
ghost use Rattle.vault.specs.Frame.{OnlyReads};
ghost use Rattle.wal_archive.specs.Reading.{ReadsRun};

use lsn_core::{AreaFault, MOST_SEGMENTS, SegSize, segment_name};
use std::alloc::Global;
use vault::Vault;

/// The segment of a place.
pub fn segment_of(x: u64, size: SegSize) -> u64
    ensures number { result ≡ x / segment_bytes size }
    ensures some { 1 ≤ size }
{
    x / size.bytes()
}

/// The place within its segment.
pub fn offset_of(x: u64, size: SegSize) -> u64
    ensures { result ≡ x % segment_bytes size }
{
    x % size.bytes()
}

/// Whether the archive has a segment of this number.
#[tactic(auto, unfolding(crate::specs::Archive::is_segment))]
pub fn is_segment(number: u64) -> bool
    ensures test { result ≡ is_segment number }
    ensures most { IsTrue result → number ≤ most_segments }
{
    1 <= number && number <= MOST_SEGMENTS
}

/// Reads bytes of one segment from a place on, and says how many are held.
pub fn read_run<V: Vault>(
    alloc: Global,
    area: &mut V,
    size: SegSize,
    x: u64,
    into: &mut [u8],
) -> Result<u32, AreaFault>
    requires small { length into.old ≤ 2 ^ 20 }
    requires one { x % segment_bytes size + length into.old ≤ segment_bytes size }
    ensures count { IfOk result (λ count. count ≤ length into.old) }
    ensures run { IfOk result (ReadsRun size (V.files area.old) x into.new) }
    ensures reads { OnlyReads V.Vault area.old area.new }
    ensures cause { HasCause (V.faults area.old) (V.faults area.new) result }
{
    let number = segment_of(x, size);
    if !is_segment(number) {
        return Ok(0);
    }
    let name = segment_name(alloc, number, size)?;
    area.read_at(name.as_bytes(), offset_of(x, size), into)
}

/// Reads bytes of one page from a place on, and says how many are held.
pub fn run_on_page<V: Vault>(
    alloc: Global,
    area: &mut V,
    size: SegSize,
    x: u64,
    into: &mut [u8],
) -> Result<u32, AreaFault>
    requires { x % page_size + length into.old ≤ page_size }
    ensures count { IfOk result (λ count. count ≤ length into.old) }
    ensures run { IfOk result (ReadsRun size (V.files area.old) x into.new) }
    ensures length { length into.new ≡ length into.old }
    ensures reads { OnlyReads V.Vault area.old area.new }
    ensures cause { HasCause (V.faults area.old) (V.faults area.new) result }
{
    let _ = segment_of(x, size);
    read_run(alloc, area, size, x, into)
}
