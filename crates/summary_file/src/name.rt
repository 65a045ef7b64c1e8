//! Names of summaries' files.

ghost use Rattle.std.specs.Prelude.{◌≡◌, ◌<◌, ◌^◌, ◌++◌, ◌↔◌, IsTrue, IfOk, IfSome, IfNone};
ghost use Rattle.summary_file.specs.Name.{sixteen_digits, summary_name_bytes, NamesNoRange};
ghost use Rattle.summary_file.specs.Inside.{HasNoSixteen};

use lsn_core::byte_words::behind_prefix;
use lsn_core::text_numbers::eight_digits_front;
use lsn_core::{Lsn, NoMemory, Text};
use std::alloc::Global;

/// The name of the file of a range's summary: 40 upper-case hexadecimal digits, timeline 1 in 8 and
/// the range's start and its end in 16 each, and `.summary` (pg_walsummary).
pub fn summary_name(alloc: Global, start: Lsn, end: Lsn) -> Result<Text, NoMemory>
    ensures { IfOk result (λ t. t ≡ summary_name_bytes start.0 end.0) }
{
    let (start_high, start_low) = (start.0 >> 32, start.0 & 0xffff_ffff);
    let (end_high, end_low) = (end.0 >> 32, end.0 & 0xffff_ffff);
    Ok(Text::from_vec(format!(in alloc;
        "00000001{start_high:08X}{start_low:08X}{end_high:08X}{end_low:08X}.summary"
    )?.into_bytes()))
}

/// The LSN that sixteen digits at the front write, and what stands behind them. None exactly where
/// no such digits are there.
fn lsn_front(text: &[u8]) -> Option<(u64, &[u8])>
    ensures found { IfSome result (λ x. text.now ≡ sixteen_digits x.0 ++ x.1.now) }
    ensures small { IfSome result (λ x. x.0 < 2 ^ 64) }
    ensures none { IfNone result (HasNoSixteen text.now) }
{
    let (high, behind) = eight_digits_front(text)?;
    let (low, behind) = eight_digits_front(behind)?;
    Some((u64::from(high) * 4_294_967_296 + u64::from(low), behind))
}

/// The range of the summary whose file has this name. None exactly where the name is that of none.
pub fn range_in(name: &[u8]) -> Option<(u64, u64)>
    ensures found { IfSome result (λ x. name.now ≡ summary_name_bytes x.0 x.1) }
    ensures small { IfSome result (λ x. (x.0 < 2 ^ 64) × (x.1 < 2 ^ 64)) }
    ensures none { IfNone result (NamesNoRange name.now) }
{
    let (start, behind) = lsn_front(behind_prefix(name, b"00000001")?)?;
    let (end, behind) = lsn_front(behind)?;
    if behind == b".summary".as_slice() {
        Some((start, end))
    } else {
        None
    }
}

/// Whether this is the name of the file of a range's summary, as `summary_name` writes it.
pub fn is_name_of(name: &[u8], start: Lsn, end: Lsn) -> bool
    ensures { IsTrue result ↔ (name.now ≡ summary_name_bytes start.0 end.0) }
{
    match range_in(name) {
        Some((from, to)) => from == start.0 && to == end.0,
        None => false,
    }
}
