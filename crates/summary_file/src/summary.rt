//! Reading a summary's file.

ghost use Rattle.std.specs.Prelude.{◌≡◌, ◌-◌, ◌==◌, take, length, IfOk};
ghost use Rattle.wal_crc.specs.Crc.{crc32c};
ghost use Rattle.summary_file.specs.File.{DecodeAnswers};
ghost use Rattle.summary_file.specs.Inside.{SummaryAnswer};

use crate::fault::SummaryFault;
use crate::forks::{are_in_order, forks_in};
use crate::numbers::{FILE_MAGIC, FileNumbers};
use crate::reading::file_of;
use lsn_core::{Lsn, NoMemory};
use std::alloc::Global;
use wal_crc::Crc;
use wal_summary::{ForkSummaries, Summary};

/// The CRC-32C of bytes.
pub(crate) fn sum_of(bytes: &[u8]) -> u32
    ensures { result ≡ crc32c bytes.now }
{
    let mut crc = Crc::new();
    crc.add(bytes);
    crc.value()
}

/// Whether this is the CRC-32C of all bytes but the last four.
fn is_summed(bytes: &[u8], crc: u32) -> bool
    ensures { result ≡ (crc == crc32c (take (length bytes.now - 4) bytes.now)) }
{
    crc == sum_of(&bytes[..bytes.len().saturating_sub(4)])
}

/// The summary that has these numbers. None exactly where there is none.
fn summary_in(alloc: Global, numbers: FileNumbers) -> Result<Option<Summary>, NoMemory>
    ensures { IfOk result (SummaryAnswer numbers) }
{
    if numbers.start >= numbers.end {
        return Ok(None);
    }
    let Some(forks) = forks_in(alloc, numbers.forks.into_vec())? else {
        return Ok(None);
    };
    if !are_in_order(&forks) {
        return Ok(None);
    }
    Ok(Some(Summary {
        start: Lsn(numbers.start),
        end: Lsn(numbers.end),
        made: numbers.made,
        forks: ForkSummaries::from_vec(forks),
    }))
}

/// The summary whose file these bytes are.
///
/// Other bytes are refused in this order: `Length` where the counts in them don't give their size,
/// `Magic` where another number stands at their front, `Sum` where the last four bytes aren't the
/// CRC-32C of those before them, `Order` where no summary has these numbers. A limit of 0xFFFFFFFF
/// stands for none. `NoMemory` may come at any time; no memory is taken by a count (profile).
pub fn decode_summary(alloc: Global, bytes: &[u8]) -> Result<Summary, SummaryFault>
    ensures { DecodeAnswers bytes.now result }
{
    let (numbers, crc) = file_of(alloc, bytes)?;
    if numbers.magic != FILE_MAGIC {
        return Err(SummaryFault::Magic);
    }
    if !is_summed(bytes, crc) {
        return Err(SummaryFault::Sum);
    }
    match summary_in(alloc, numbers)? {
        Some(summary) => Ok(summary),
        None => Err(SummaryFault::Order),
    }
}
