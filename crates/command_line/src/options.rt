//! The values of options.

ghost use Rattle.std.specs.Prelude.{◌≡◌, ◌≤◌, IfSome};
ghost use Rattle.std.specs.Option.{option_map};
ghost use Rattle.lsn_core.specs.Segment.{IsSegmentMib, IsRelseg};
ghost use Rattle.command_line.specs.Options.{decimal_number, segment_value, relseg_value, frames_value};
ghost use Rattle.command_line.specs.Options.{days_value, most_days};
ghost use Rattle.command_line.specs.Options.{drill_number, given, IsFrameCount};
ghost use Rattle.command_line.specs.Words.{lsn_value};

use lsn_core::text_numbers::decimal_in;
use lsn_core::{Lsn, MOST_RELSEG, SegSize, lsn_read};

/// What the words of `init` give, where they give it.
#[derive(Clone, Copy, Debug)]
pub struct InitOptions {
    /// The size of a WAL segment.
    pub segment: Option<SegSize>,
    /// How many blocks of a fork go into a segment of its files, 1 to 131072.
    pub relseg: Option<u32>,
    /// The system identifier.
    pub system: Option<u64>,
}

/// The sizes by which a stream is followed.
#[derive(Clone, Copy, Debug)]
pub struct FollowSizes {
    /// The size of a WAL segment.
    pub segment: SegSize,
    /// How many blocks of a fork go into one file, 1 to 131072.
    pub relseg: u32,
}

/// How a script is run.
#[derive(Clone, Copy, Debug)]
pub struct RunOptions {
    /// The frames of each partition, 4 to 16,384.
    pub frames: u32,
    /// For how many days summaries are kept, at most 36,500; 0 keeps all.
    pub days: u32,
}

/// The number below 2^64 that a value writes in decimal without leading zeros.
fn number_in(value: &[u8]) -> Option<u64>
    ensures { result ≡ decimal_number value.now }
{
    decimal_in(value)
}

fn segment_in(value: &[u8]) -> Option<SegSize>
    ensures value { result ≡ segment_value value.now }
    ensures range { IfSome result IsSegmentMib }
{
    let mib = number_in(value)?;
    if mib > 1024 {
        return None;
    }
    SegSize::new(mib as u32)
}

fn relseg_in(value: &[u8]) -> Option<u32>
    ensures value { result ≡ relseg_value value.now }
    ensures range { IfSome result (λ blocks. (1 ≤ blocks) × (blocks ≤ 131072)) }
{
    let blocks = number_in(value)?;
    if 1 <= blocks && blocks <= u64::from(MOST_RELSEG) {
        Some(blocks as u32)
    } else {
        None
    }
}

/// So many frames of a partition, 4 to 16,384.
fn frames_in(value: &[u8]) -> Option<u32>
    ensures value { result ≡ frames_value value.now }
    ensures range { IfSome result IsFrameCount }
{
    let frames = number_in(value)?;
    if 4 <= frames && frames <= 16384 {
        Some(frames as u32)
    } else {
        None
    }
}

/// So many days, 0 to 36,500 (profile).
fn days_in(value: &[u8]) -> Option<u32>
    ensures value { result ≡ days_value value.now }
    ensures range { IfSome result (λ days. days ≤ most_days) }
{
    let days = number_in(value)?;
    if days <= 36500 {
        Some(days as u32)
    } else {
        None
    }
}

/// The number of a drill.
pub(crate) fn drill_number_in(value: &[u8]) -> Option<u32>
    ensures { result ≡ drill_number value.now }
{
    let number = number_in(value)?;
    if number <= u64::from(u32::MAX) {
        Some(number as u32)
    } else {
        None
    }
}

/// The LSN that a value writes.
pub(crate) fn lsn_in(value: &[u8]) -> Option<Lsn>
    ensures { result ≡ lsn_value value.now }
{
    lsn_read(value)
}

/// A number, where it is given.
pub(crate) fn number_given(text: Option<&str>) -> Option<Option<u64>>
    ensures { result ≡ given decimal_number (option_map (λ t. t.now) text.entry) }
{
    match text {
        None => Some(None),
        Some(text) => Some(Some(number_in(text.as_bytes())?)),
    }
}

/// The size of a segment, where it is given.
pub(crate) fn segment_given(text: Option<&str>) -> Option<Option<SegSize>>
    ensures value { result ≡ given segment_value (option_map (λ t. t.now) text.entry) }
    ensures range { IfSome result (λ given. IfSome given IsSegmentMib) }
{
    match text {
        None => Some(None),
        Some(text) => Some(Some(segment_in(text.as_bytes())?)),
    }
}

/// So many blocks of a fork in a file, where it is given.
pub(crate) fn relseg_given(text: Option<&str>) -> Option<Option<u32>>
    ensures value { result ≡ given relseg_value (option_map (λ t. t.now) text.entry) }
    ensures range { IfSome result (λ given. IfSome given IsRelseg) }
{
    match text {
        None => Some(None),
        Some(text) => Some(Some(relseg_in(text.as_bytes())?)),
    }
}

/// So many frames, where it is given.
pub(crate) fn frames_given(text: Option<&str>) -> Option<Option<u32>>
    ensures value { result ≡ given frames_value (option_map (λ t. t.now) text.entry) }
    ensures range { IfSome result (λ given. IfSome given IsFrameCount) }
{
    match text {
        None => Some(None),
        Some(text) => Some(Some(frames_in(text.as_bytes())?)),
    }
}

/// So many days, where it is given.
pub(crate) fn days_given(text: Option<&str>) -> Option<Option<u32>>
    ensures value { result ≡ given days_value (option_map (λ t. t.now) text.entry) }
    ensures range { IfSome result (λ given. IfSome given (λ days. days ≤ most_days)) }
{
    match text {
        None => Some(None),
        Some(text) => Some(Some(days_in(text.as_bytes())?)),
    }
}

/// A target, where it is given.
pub(crate) fn lsn_given(text: Option<&str>) -> Option<Option<Lsn>>
    ensures { result ≡ given lsn_value (option_map (λ t. t.now) text.entry) }
{
    match text {
        None => Some(None),
        Some(text) => Some(Some(lsn_in(text.as_bytes())?)),
    }
}
