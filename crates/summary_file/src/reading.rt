//! Reading the numbers of a file. No memory is taken by a count: each number that is kept was read.

ghost use Rattle.std.specs.Prelude.{◌≡◌};
ghost use Rattle.std.specs.Int.{w32, w64};
ghost use Rattle.lsn_core.specs.byte_words.Numbers.{number_at};
ghost use Rattle.summary_file.specs.Inside.{many, fork_at, file_at, Reads};

use crate::fault::SummaryFault;
use crate::numbers::{FileNumbers, ForkList, ForkNumbers};
use lsn_core::byte_words::{u32_at, u64_at};
use std::alloc::Global;
use wal_summary::BlockNumbers;

/// The number of the first four bytes, and the bytes after them.
fn number_of(bytes: &[u8]) -> Result<(u32, &[u8]), SummaryFault>
    ensures { Reads (number_at w32 bytes.now) (λ x. (x.0, x.1.now)) result }
{
    u32_at(bytes).ok_or(SummaryFault::Length)
}

/// The number of the first eight bytes, and the bytes after them.
fn long_of(bytes: &[u8]) -> Result<(u64, &[u8]), SummaryFault>
    ensures { Reads (number_at w64 bytes.now) (λ x. (x.0, x.1.now)) result }
{
    u64_at(bytes).ok_or(SummaryFault::Length)
}

/// So many numbers of four bytes, and the bytes after them.
fn blocks_of(alloc: Global, count: u32, bytes: &[u8]) -> Result<(Vec<u32>, &[u8]), SummaryFault>
    ensures { Reads (many (number_at w32) count bytes.now) (λ x. (x.0.items, x.1.now)) result }
{
    let mut numbers = Vec::new(alloc);
    let mut rest = bytes;
    for _ in 0..count {
        let (number, after) = match number_of(rest) {
            Ok(found) => found,
            Err(fault) => return Err(fault),
        };
        numbers.push(number)?;
        rest = after;
    }
    Ok((numbers, rest))
}

/// What stands of a fork, and the bytes after it.
#[tactic(auto, unfolding(crate::specs::Inside::fork_at))]
fn fork_of(alloc: Global, bytes: &[u8]) -> Result<(ForkNumbers, &[u8]), SummaryFault>
    ensures { Reads (fork_at bytes.now) (λ x. (x.0, x.1.now)) result }
{
    let (db, rest) = number_of(bytes)?;
    let (rel, rest) = number_of(rest)?;
    let (kind, rest) = number_of(rest)?;
    let (limit, rest) = number_of(rest)?;
    let (count, rest) = number_of(rest)?;
    let (blocks, rest) = blocks_of(alloc, count, rest)?;
    let fork = ForkNumbers {
        db,
        rel,
        kind,
        limit,
        blocks: BlockNumbers::from_vec(blocks),
    };
    Ok((fork, rest))
}

/// What stands of so many forks, and the bytes after it.
fn forks_of(
    alloc: Global,
    count: u64,
    bytes: &[u8],
) -> Result<(Vec<ForkNumbers>, &[u8]), SummaryFault>
    ensures { Reads (many fork_at count bytes.now) (λ x. (x.0.items, x.1.now)) result }
{
    let mut forks = Vec::new(alloc);
    let mut rest = bytes;
    for _ in 0..count {
        let (fork, after) = match fork_of(alloc, rest) {
            Ok(found) => found,
            Err(fault) => return Err(fault),
        };
        forks.push(fork)?;
        rest = after;
    }
    Ok((forks, rest))
}

/// The numbers of a file, and the sum at its end. Errs with `Length` exactly where the counts don't
/// give the size.
#[tactic(auto, unfolding(crate::specs::Inside::file_at))]
pub(crate) fn file_of(alloc: Global, bytes: &[u8]) -> Result<(FileNumbers, u32), SummaryFault>
    ensures { Reads (file_at bytes.now) (λ x. x) result }
{
    let (magic, rest) = number_of(bytes)?;
    let (start, rest) = long_of(rest)?;
    let (end, rest) = long_of(rest)?;
    let (made, rest) = long_of(rest)?;
    let (count, rest) = long_of(rest)?;
    let (forks, rest) = forks_of(alloc, count, rest)?;
    let (crc, rest) = number_of(rest)?;
    if !rest.is_empty() {
        return Err(SummaryFault::Length);
    }
    let numbers = FileNumbers {
        magic,
        start,
        end,
        made,
        forks: ForkList::from_vec(forks),
    };
    Ok((numbers, crc))
}
