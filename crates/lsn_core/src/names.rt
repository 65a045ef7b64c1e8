//! Names of segment files and of the files of forks.

ghost use Rattle.std.specs.Prelude.{◌≡◌, ◌≤◌, IfOk, IfSome, IfNone};
ghost use Rattle.lsn_core.specs.Names.{segment_number, segment_name_bytes, segment_file_bytes, HasSegmentName, NamesNoSegment, fork_path_bytes, file_prefix, kind_suffix};

use crate::fault::NoMemory;
use crate::ids::{ForkId, ForkKind};
use crate::lsn::Lsn;
use crate::segment::SegSize;
use crate::text::Text;
use crate::text_numbers::eight_digits_front;
use std::alloc::Global;

/// The number of the segment that has a place; the first place of segment 1 is the size of one.
pub fn segment_of(at: Lsn, size: SegSize) -> u64
    ensures { result ≡ segment_number at.0 size }
{
    at.0 / size.bytes()
}

/// The name of a segment file of timeline 1, by its number (at most 1,048,576): three groups of
/// eight hexadecimal digits (PostgreSQL manual, WAL Internals).
pub fn segment_name(alloc: Global, number: u64, size: SegSize) -> Result<Text, NoMemory>
    requires { number ≤ 1048576 }
    ensures { IfOk result (λ t. t ≡ segment_name_bytes number size) }
{
    let per_group = 4_294_967_296 / size.bytes();
    let high = number / per_group;
    let low = number % per_group;
    Ok(Text::from_vec(format!(in alloc; "00000001{high:08X}{low:08X}")?.into_bytes()))
}

/// The timeline and the number of the segment whose file has this name (PostgreSQL manual, WAL
/// Internals). None exactly where the name isn't three groups of eight upper-case hexadecimal
/// digits of which the third is below 2^32 / segment size; the number may be above 1,048,576.
pub fn segment_read(name: &[u8], size: SegSize) -> Option<(u32, u64)>
    ensures found { IfSome result (λ x. name.now ≡ segment_file_bytes x.0 x.1 size) }
    ensures named { IfSome result (λ x. HasSegmentName x.0 x.1 size) }
    ensures none { IfNone result (NamesNoSegment name.now size) }
{
    let (timeline, behind) = eight_digits_front(name)?;
    let (high, behind) = eight_digits_front(behind)?;
    let (low, behind) = eight_digits_front(behind)?;
    let per_group = 4_294_967_296 / size.bytes();
    if !behind.is_empty() || u64::from(low) >= per_group {
        return None;
    }
    Some((timeline, u64::from(high) * per_group + u64::from(low)))
}

fn prefix_of(incr: bool) -> &'static str
    ensures { result.now ≡ file_prefix incr }
{
    if incr { "INCREMENTAL." } else { "" }
}

fn suffix_of(kind: ForkKind) -> &'static str
    ensures { result.now ≡ kind_suffix kind }
{
    match kind {
        ForkKind::Main => "",
        ForkKind::Init => "_init",
    }
}

/// The path of a segment file of a fork, plain or incremental (PostgreSQL manual, Database File
/// Layout; the incremental prefix: pg_combinebackup).
pub fn fork_path(alloc: Global, fork: ForkId, seg: u32, incr: bool) -> Result<Text, NoMemory>
    ensures { IfOk result (λ t. t ≡ fork_path_bytes fork seg incr) }
{
    let (db, rel) = (fork.rel.db(), fork.rel.rel());
    let prefix = prefix_of(incr);
    let suffix = suffix_of(fork.kind);
    if seg == 0 {
        return Ok(Text::from_vec(format!(in alloc;
            "base/{db}/{prefix}{rel}{suffix}"
        )?.into_bytes()));
    }
    Ok(Text::from_vec(format!(in alloc; "base/{db}/{prefix}{rel}{suffix}.{seg}")?.into_bytes()))
}
