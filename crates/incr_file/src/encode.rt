//! Writing the head of an incremental file.

ghost use Rattle.std.specs.Prelude.{◌≡◌, ◌++◌, length, IfOk, OnOk};
ghost use Rattle.incr_file.specs.Head.{IsHead, numbers_bytes, fields_bytes, head_bytes};

use crate::head::{HEAD_MAGIC, IncrHead};
use crate::sizes::body_place;
use lsn_core::NoMemory;
use std::alloc::Global;

/// Puts numbers behind bytes, each as four bytes, least byte first.
fn add_numbers(bytes: &mut Vec<u8>, numbers: &[u32]) -> Result<(), NoMemory>
    ensures { OnOk result (bytes.new.items ≡ bytes.old.items ++ numbers_bytes numbers.now) }
{
    for number in numbers {
        bytes.extend_from_slice(&number.to_le_bytes())?;
    }
    Ok(())
}

/// Magic, count, truncation length and block numbers of a head.
#[tactic(auto, unfolding(crate::specs::Head::fields_bytes))]
fn fields(alloc: Global, head: &IncrHead, count: u32) -> Result<Vec<u8>, NoMemory>
    requires { count ≡ length head.now.blocks }
    ensures { IfOk result (λ bytes. bytes.items ≡ fields_bytes head.now) }
{
    let mut bytes = Vec::new(alloc);
    bytes.extend_from_slice(&HEAD_MAGIC.to_le_bytes())?;
    bytes.extend_from_slice(&count.to_le_bytes())?;
    bytes.extend_from_slice(&head.truncation.to_le_bytes())?;
    add_numbers(&mut bytes, head.blocks.as_slice())?;
    Ok(bytes)
}

/// The bytes of an incremental file before its first block, zeros up to there included (profile).
pub fn encode_head(alloc: Global, head: &IncrHead) -> Result<Vec<u8>, NoMemory>
    requires { IsHead head.now }
    ensures { IfOk result (λ bytes. bytes.items ≡ head_bytes head.now) }
{
    let count = head.blocks.as_slice().len() as u32;
    let mut bytes = fields(alloc, head, count)?;
    bytes.resize(body_place(count) as usize, 0)?;
    Ok(bytes)
}
