//! The parts behind an entry's announcements: images, fragments and main data.

ghost use Rattle.std.specs.Prelude.{◌≡◌, length, take, drop, box_value, IfOk};
ghost use Rattle.std.specs.Option.{option_map};
ghost use Rattle.wal_record.specs.Parts.{last_of, good_page, page_at, frag_at, frags_at, delta_at, checkpoint_at, mark_at, start_at, creation_at, truncation_at, bits_at, other_bits_at, commit_time_at, commit_at};

use lsn_core::Lsn;
use lsn_core::byte_words::{u16_at, u32_at, u64_at};
use pg_page::{Frag, Frags, Page, check_frags, restored_page};
use std::alloc::{AllocError, Global};
use std::boxed::Box;
use wal_pages::wal_heads::{RelName, named_of};

/// What stands at the end of the bytes, so much.
pub fn last_of(size: usize, bytes: &[u8]) -> &[u8]
    ensures { result.now ≡ last_of size bytes.now }
{
    &bytes[bytes.len().saturating_sub(size)..]
}

/// What stands at the front of the bytes, so much, where there is so much.
pub fn front_of(size: usize, bytes: &[u8]) -> &[u8]
    ensures { result.now ≡ take size bytes.now }
{
    &bytes[..size.min(bytes.len())]
}

/// What stands behind so many bytes.
pub fn behind(size: usize, bytes: &[u8]) -> &[u8]
    ensures { result.now ≡ drop size bytes.now }
{
    &bytes[size.min(bytes.len())..]
}

/// The page of an image, with zeros where bytes are left out. None exactly where it has a bad
/// header, or the image no room for these bytes.
#[tactic(auto, unfolding(crate::specs::Parts::page_at))]
pub fn page_of(alloc: Global, offset: usize, image: &[u8]) -> Result<Option<Page>, AllocError>
    ensures { IfOk result (λ page. page ≡ page_at offset image.now) }
{
    if offset > image.len() || image.len() > 8192 {
        return Ok(None);
    }
    Ok(good_page(restored_page(alloc, offset, image)?))
}

/// The page of these bytes. None exactly where it has a bad header.
#[tactic(auto, unfolding(crate::specs::Parts::good_page, pg_page::specs::Frags::is_good))]
fn good_page(bytes: Box<[u8; 8192]>) -> Option<Page>
    ensures { result ≡ good_page (box_value bytes) }
{
    Page::read(bytes)
}

/// The fragments of a delta. None exactly where the bytes are no list of good fragments.
#[tactic(auto, unfolding(crate::specs::Parts::delta_at))]
pub fn delta_of(alloc: Global, bytes: &[u8]) -> Result<Option<Frags>, AllocError>
    ensures { IfOk result (λ found. found ≡ delta_at bytes.now) }
{
    let Some(frags) = frags_of(alloc, bytes)? else {
        return Ok(None);
    };
    if check_frags(frags.as_slice()).is_none() {
        Ok(Some(frags))
    } else {
        Ok(None)
    }
}

/// The fragments of a delta, good or bad. None exactly where the bytes are no list of fragments.
fn frags_of(alloc: Global, bytes: &[u8]) -> Result<Option<Frags>, AllocError>
    ensures { IfOk result (λ found. found ≡ frags_at (length bytes.now) bytes.now) }
{
    let mut list = Vec::new(alloc);
    let mut rest = bytes;
    while !rest.is_empty() {
        let Some((at, piece, more)) = frag_of(rest) else {
            return Ok(None);
        };
        list.push(Frag::new(alloc, at, piece)?)?;
        rest = more;
    }
    Ok(Some(Frags::from_vec(list)))
}

/// The fragment at the front, its place and its bytes, and the bytes after it.
#[tactic(auto, unfolding(crate::specs::Parts::frag_at))]
fn frag_of(bytes: &[u8]) -> Option<(u16, &[u8], &[u8])>
    ensures { option_map (λ x. (record { at = x.0; bytes = x.1.now }, x.2.now)) result
        ≡ frag_at bytes.now }
{
    let (at, rest) = u16_at(bytes)?;
    let (len, rest) = u16_at(rest)?;
    let len = usize::from(len);
    if rest.len() < len {
        return None;
    }
    let (piece, more) = rest.split_at(len);
    Some((at, piece, more))
}

/// The redo point of a checkpoint's main data.
#[tactic(auto, unfolding(crate::specs::Parts::checkpoint_at))]
pub fn checkpoint_of(main: &[u8]) -> Option<Lsn>
    ensures { result ≡ checkpoint_at main.now }
{
    let (redo, rest) = u64_at(main)?;
    let (timeline, rest) = u32_at(rest)?;
    let (before, rest) = u32_at(rest)?;
    let (last, rest) = u64_at(rest)?;
    if timeline == 1 && before == 1 && last == 1 && rest.is_empty() {
        Some(Lsn(redo))
    } else {
        None
    }
}

/// The number of a redo mark's main data.
#[tactic(auto, unfolding(crate::specs::Parts::mark_at))]
pub fn mark_of(main: &[u8]) -> Option<u32>
    ensures { result ≡ mark_at main.now }
{
    let (number, rest) = u32_at(main)?;
    if rest.is_empty() { Some(number) } else { None }
}

/// The place where a backup started, of a backup end's main data.
#[tactic(auto, unfolding(crate::specs::Parts::start_at))]
pub fn start_of(main: &[u8]) -> Option<Lsn>
    ensures { result ≡ start_at main.now }
{
    let (start, rest) = u64_at(main)?;
    if rest.is_empty() {
        Some(Lsn(start))
    } else {
        None
    }
}

/// The relation and the fork's number of a creation's main data.
#[tactic(auto, unfolding(crate::specs::Parts::creation_at))]
pub fn creation_of(main: &[u8]) -> Option<(RelName, u32)>
    ensures { result ≡ creation_at main.now }
{
    let (name, rest) = named_of(main)?;
    let (number, rest) = u32_at(rest)?;
    if rest.is_empty() {
        Some((name, number))
    } else {
        None
    }
}

/// The block count, the relation and the flags of a truncation's main data.
#[tactic(auto, unfolding(crate::specs::Parts::truncation_at))]
pub fn truncation_of(main: &[u8]) -> Option<(u32, (RelName, u32))>
    ensures { result ≡ truncation_at main.now }
{
    let (count, rest) = u32_at(main)?;
    let named = creation_of(rest)?;
    Some((count, named))
}

/// Whether a commit's information bits, once its time and they are there, are others than those of
/// dropped relations.
#[tactic(auto, unfolding(crate::specs::Parts::other_bits_at))]
pub fn has_other_bits(main: &[u8]) -> bool
    ensures { result ≡ other_bits_at main.now }
{
    match bits_of(main) {
        None => false,
        Some(bits) => bits != 4,
    }
}

/// A commit's information bits.
#[tactic(auto, unfolding(crate::specs::Parts::bits_at))]
fn bits_of(main: &[u8]) -> Option<u32>
    ensures { result ≡ bits_at main.now }
{
    let (_, rest) = u64_at(main)?;
    let (bits, _) = u32_at(rest)?;
    Some(bits)
}

/// The time of a commit's main data that tells nothing else.
#[tactic(auto, unfolding(crate::specs::Parts::commit_time_at))]
pub fn commit_time_of(main: &[u8]) -> Option<i64>
    ensures { result ≡ commit_time_at main.now }
{
    let (time, rest) = u64_at(main)?;
    if rest.is_empty() {
        Some(time.cast_signed())
    } else {
        None
    }
}

/// The time of a commit's main data that tells more, how many relations are dropped, and the bytes
/// that name them, 12 each.
#[tactic(auto, unfolding(crate::specs::Parts::commit_at))]
pub fn commit_of(main: &[u8]) -> Option<(i64, u32, &[u8])>
    ensures { option_map (λ x. (x.0, (x.1, x.2.now))) result ≡ commit_at main.now }
{
    let (time, rest) = u64_at(main)?;
    let (_, rest) = u32_at(rest)?;
    let (count, rest) = u32_at(rest)?;
    if count < 0x8000_0000 && rest.len() == count as usize * 12 {
        Some((time.cast_signed(), count, rest))
    } else {
        None
    }
}
