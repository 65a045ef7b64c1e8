//! The bytes of an entry, cut over pages: with the heads between them and zeros behind.

ghost use Rattle.std.specs.Prelude.{◌≡◌, ◌+◌, ◌-◌, ◌%◌, ◌^◌, ◌<◌, ◌≤◌, ◌++◌, length, take, drop, IfOk, OnOk};
ghost use Rattle.lsn_core.specs.byte_words.Pieces.{zero_filled};
ghost use Rattle.lsn_core.specs.Sizes.{page_size};
ghost use Rattle.wal_pages.specs.Places.{flat_before, head_size, page_of, IsBehindHead, end_of};
ghost use Rattle.wal_pages.specs.Heads.{head_flags, long_part, long_bytes, page_head};
ghost use Rattle.wal_pages.specs.Spread.{still_to_come, spread_from, spread};

use crate::heads::is_first_page;
use crate::places::{flat_before, head_size};
use lsn_core::byte_words::behind;
use lsn_core::{PAGE, PAGE_MAGIC, SegSize, Settings};
use std::alloc::{AllocError, Global};

fn head_flags(first: bool, rest: u32) -> u16
    ensures { result ≡ head_flags first rest }
{
    let continued = if rest == 0 { 0 } else { 1 };
    let long = if first { 2 } else { 0 };
    continued + long
}

/// What the long head has more.
#[tactic(auto, unfolding(crate::specs::Heads::long_part))]
fn long_part(alloc: Global, of: &Settings) -> Result<Vec<u8>, AllocError>
    ensures { IfOk result (λ bytes. bytes.items ≡ long_part of.now.segment of.now.system) }
{
    let mut bytes = Vec::new(alloc);
    bytes.extend_from_slice(&of.system().to_le_bytes())?;
    bytes.extend_from_slice(&(of.segment().bytes() as u32).to_le_bytes())?;
    bytes.extend_from_slice(&(PAGE as u32).to_le_bytes())?;
    Ok(bytes)
}

/// Puts what the long head has more behind bytes, on a segment's first page.
fn push_long(
    alloc: Global,
    bytes: &mut Vec<u8>,
    first: bool,
    of: &Settings,
) -> Result<(), AllocError>
    ensures { OnOk result (bytes.new.items
        ≡ bytes.old.items ++ long_bytes first of.now.segment of.now.system) }
{
    if !first {
        return Ok(());
    }
    let long = long_part(alloc, of)?;
    bytes.extend_from_slice(&long)
}

/// The head of a page on which so many bytes of an entry are still to come.
#[tactic(auto, unfolding(crate::specs::Heads::head_bytes))]
fn page_head(alloc: Global, of: &Settings, page: u64, rest: u32) -> Result<Vec<u8>, AllocError>
    ensures { IfOk result (λ head. head.items ≡ page_head of.now.segment of.now.system page rest) }
{
    let first = is_first_page(of.segment(), page);
    let mut bytes = Vec::new(alloc);
    bytes.extend_from_slice(&PAGE_MAGIC.to_le_bytes())?;
    bytes.extend_from_slice(&head_flags(first, rest).to_le_bytes())?;
    bytes.extend_from_slice(&1u32.to_le_bytes())?;
    bytes.extend_from_slice(&page.to_le_bytes())?;
    bytes.extend_from_slice(&rest.to_le_bytes())?;
    bytes.extend_from_slice(&0u32.to_le_bytes())?;
    push_long(alloc, &mut bytes, first, of)?;
    Ok(bytes)
}

/// How many bytes of an entry are still to come where a page begins.
fn still_to_come(size: SegSize, first: u64, total: u32, page: u64) -> u32
    requires page { page ≤ 2 ^ 53 }
    requires total { total ≤ 4194304 }
    ensures { result ≡ still_to_come size first total page }
{
    let number = flat_before(size, page);
    if first < number {
        (first + u64::from(total)).saturating_sub(number) as u32
    } else {
        0
    }
}

/// Puts the first bytes of a text, so many, behind others, and zeros where there are fewer.
fn push_filled(out: &mut Vec<u8>, text: &[u8], size: usize) -> Result<(), AllocError>
    requires { size ≤ page_size }
    ensures { OnOk result (out.new.items ≡ out.old.items ++ zero_filled (take size text.now) size) }
{
    let own = text.len().min(size);
    out.extend_from_slice(&text[..own])?;
    out.resize(out.len() + (size - own), 0)
}

/// Puts the entry's bytes of a page behind its head, from a place to another, behind others.
fn push_flat(
    out: &mut Vec<u8>,
    of: &Settings,
    first: u64,
    flat: &[u8],
    at: u64,
    until: u64,
) -> Result<(), AllocError>
    requires behind { IsBehindHead of.now.segment at }
    requires order { at ≤ until }
    requires page { until ≤ page_of at + page_size }
    requires bound { until ≤ 2 ^ 53 }
    requires first { first ≤ flat_before of.now.segment at }
    ensures { OnOk result (out.new.items ≡ out.old.items
        ++ spread_from of.now.segment of.now.system first flat.now at (until - at)) }
{
    let from = (flat_before(of.segment(), at) - first).min(flat.len() as u64) as usize;
    push_filled(out, behind(flat, from), (until - at) as usize)
}

/// Puts the archive's bytes of a page, from a place to another, behind others.
fn push_page(
    alloc: Global,
    out: &mut Vec<u8>,
    of: &Settings,
    first: u64,
    flat: &[u8],
    at: u64,
    until: u64,
) -> Result<(), AllocError>
    requires order { at ≤ until }
    requires page { until ≤ page_of at + page_size }
    requires head { at % page_size < head_size of.now.segment at
        → page_of at + head_size of.now.segment at ≤ until }
    requires bound { until ≤ 2 ^ 53 }
    requires first { first ≤ flat_before of.now.segment at }
    requires total { length flat.now ≤ 4194304 }
    ensures { OnOk result (out.new.items ≡ out.old.items
        ++ spread_from of.now.segment of.now.system first flat.now at (until - at)) }
{
    let size = of.segment();
    let page = at - at % PAGE;
    let from = page + head_size(size, at);
    if from <= at {
        return push_flat(out, of, first, flat, at, until);
    }
    let rest = still_to_come(size, first, flat.len() as u32, page);
    let head = page_head(alloc, of, page, rest)?;
    out.extend_from_slice(behind(&head, (at - page) as usize))?;
    push_flat(out, of, first, flat, from, until)?;
    Ok(())
}

/// The archive's bytes from a place to the end of an entry of these bytes that comes next there.
#[tactic(auto, unfolding(crate::specs::Spread::spread))]
pub fn spread_pages(
    alloc: Global,
    of: &Settings,
    before: u64,
    end: u64,
    flat: &[u8],
) -> Result<Vec<u8>, AllocError>
    requires place { before ≤ 2 ^ 53 }
    requires end { end ≡ end_of of.now.segment before (length flat.now) }
    requires bound { end ≤ 2 ^ 53 }
    requires least { 0 < length flat.now }
    requires most { length flat.now ≤ 4194304 }
    ensures { IfOk result (λ bytes. bytes.items
        ≡ spread of.now.segment of.now.system before flat.now) }
{
    let first = flat_before(of.segment(), before);
    let mut bytes = Vec::new(alloc);
    let mut at = before;
    while at < end {
        let until = end.min(at - at % PAGE + PAGE);
        push_page(alloc, &mut bytes, of, first, flat, at, until)?;
        at = until;
    }
    Ok(bytes)
}
