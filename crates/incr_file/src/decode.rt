//! Reading the head of an incremental file.

ghost use Rattle.std.specs.Prelude.{◌≡◌, ◌↔◌, ◌≤◌, length, IsTrue, IfOk};
ghost use Rattle.incr_file.specs.declared.decode.HeadFault.TheVariants.{NoMemory as OutOfMemory};
ghost use Rattle.incr_file.specs.Head.{head_size, head_with};
ghost use Rattle.incr_file.specs.Reading.{block_numbers, HoldsHead, FitsSegmentFile, HeadAnswers, HasPlaces};

use crate::head::{HEAD_MAGIC, HeadBlocks, HeadView, IncrHead};
use crate::sizes::{body_place, head_size};
use lsn_core::byte_words::u32_in;
use lsn_core::{MOST_RELSEG, NoMemory};
use std::alloc::Global;

/// Why bytes are no head of an incremental file. All but the last stand in the order in which they
/// are judged.
#[derive(Clone, Copy, Debug, PartialEq, Eq)]
pub enum HeadFault {
    /// The file's size isn't the one that its count of blocks gives.
    Length,
    /// The file doesn't begin with the magic number.
    Magic,
    /// The truncation length is above 131,072, or a block is at or above it.
    Range,
    /// The blocks don't rise.
    Order,
    /// Memory ran out.
    NoMemory,
}

impl From<NoMemory> for HeadFault {
    ghost from_gives = { λ _ e. e ≡ OutOfMemory };

    fn from(_: NoMemory) -> Self {
        HeadFault::NoMemory
    }
}

/// So many numbers of four bytes, behind the first twelve bytes.
fn block_numbers(alloc: Global, bytes: &[u8], count: u32) -> Result<Vec<u32>, NoMemory>
    requires { head_size count ≤ length bytes.now }
    ensures { IfOk result (λ numbers. numbers.items ≡ block_numbers bytes.now count) }
{
    let mut numbers = Vec::with_capacity(alloc, count as usize)?;
    for i in 0..count as usize {
        numbers.push(u32_in(bytes, 12 + 4 * i))?;
    }
    Ok(numbers)
}

/// Whether a head may have this truncation length and these blocks, whatever their order.
fn is_in_range(truncation: u32, blocks: &[u32]) -> bool
    ensures { IsTrue result ↔ FitsSegmentFile (head_with truncation blocks.now) }
{
    truncation <= MOST_RELSEG && blocks.iter().all(|block| *block < MOST_RELSEG)
}

/// The head at the front of an incremental file of `file` bytes, of which `bytes` are the
/// beginning: its first 12 bytes, where it has as many, and all its block numbers, where their
/// count gives the file's size. Errs exactly where that is none, with the first fault in the order
/// of `HeadFault`. The padding isn't looked at (profile). `block_place` may be asked of the answer.
pub fn decode_head(alloc: Global, bytes: &[u8], file: u64) -> Result<HeadView, HeadFault>
    requires { HoldsHead bytes.now file }
    ensures answer { HeadAnswers bytes.now file result }
    ensures places { IfOk result HasPlaces }
{
    if head_size(bytes, file).is_none() {
        return Err(HeadFault::Length);
    }
    if u32_in(bytes, 0) != HEAD_MAGIC {
        return Err(HeadFault::Magic);
    }
    let count = u32_in(bytes, 4);
    let truncation = u32_in(bytes, 8);
    let numbers = block_numbers(alloc, bytes, count)?;
    if !is_in_range(truncation, &numbers) {
        return Err(HeadFault::Range);
    }
    let Some(blocks) = HeadBlocks::from_vec(numbers) else {
        return Err(HeadFault::Order);
    };
    let body = body_place(count);
    let head = IncrHead { truncation, blocks };
    Ok(HeadView { head, body })
}
