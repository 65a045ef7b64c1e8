//! What an entry announces between its header and its data (access/xlogrecord.h).

ghost use Rattle.std.specs.Prelude.{◌≡◌, ◌+◌, ◌<◌, ◌≤◌, ◌^◌, IfOk};
ghost use Rattle.std.specs.Option.{option_map};
ghost use Rattle.wal_pages.specs.wal_heads.Heads.{has_bit, is_compressed, block_good, data_good, image_good, image_may, image_size, block_size, main_size};
ghost use Rattle.wal_pages.specs.wal_heads.Announcements.{hole_at, image_at, named_at, name_at, block_head_at, next_block_at, last_at, short_at, long_at, step_at, heads_at};

use lsn_core::byte_words::{u8_at, u16_at, u32_at};
use std::alloc::{AllocError, Global};

/// An image: its length, the place of the hole that it leaves out, its flags (1 it has a hole, 2 it
/// is to be applied, 4, 8 and 16 it is compressed), and the length of the hole where it is told.
#[derive(Clone, Copy, Debug, PartialEq)]
pub struct ImageHead {
    pub len: u16,
    pub offset: u16,
    pub info: u8,
    pub hole: Option<u16>,
}

/// A relation by its tablespace, its database and its number.
#[derive(Clone, Copy, Debug, PartialEq)]
pub struct RelName {
    pub space: u32,
    pub db: u32,
    pub rel: u32,
}

/// A block: its id, its fork and flags, the length of its data, its image, its relation unless that
/// is the one before, and its number.
#[derive(Clone, Copy, Debug, PartialEq)]
pub struct BlockHead {
    pub id: u8,
    pub flags: u8,
    pub data_len: u16,
    pub image: Option<ImageHead>,
    pub rel: Option<RelName>,
    pub block: u32,
}

/// The main data's announcement: none, one byte of length, or four.
#[derive(Clone, Copy, Debug, PartialEq)]
pub enum MainHead {
    Absent,
    Short(u8),
    Long(u32),
}

/// One announcement. That of the main data is the last one, also where there is none.
#[derive(Clone, Copy, Debug)]
pub enum Announcement {
    Block(BlockHead),
    Last(MainHead),
}

/// All that an entry announces, and the bytes behind it.
#[derive(Debug, Drop)]
pub struct Heads<'a> {
    pub blocks: Vec<BlockHead>,
    pub main: MainHead,
    pub parts: &'a [u8],
}

/// Whether a bit is set in a byte of flags.
#[tactic(auto, unfolding(crate::specs::wal_heads::Heads::has_bit))]
pub fn has_bit(flags: u8, bit: u8) -> bool
    requires { 0 < bit }
    ensures { result ≡ has_bit flags bit }
{
    flags / bit % 2 == 1
}

/// Whether an image of these flags is compressed.
pub fn is_compressed(info: u8) -> bool
    ensures { result ≡ is_compressed info }
{
    has_bit(info, 4) || has_bit(info, 8) || has_bit(info, 16)
}

/// How many bytes of image a block has.
pub fn image_size(head: BlockHead) -> u32
    ensures size { result ≡ image_size head.image }
    ensures most { result < 2 ^ 16 }
{
    match head.image {
        None => 0,
        Some(image) => u32::from(image.len),
    }
}

/// How many bytes of image and data a block has.
pub fn block_size(head: BlockHead) -> u32
    ensures size { result ≡ block_size head }
    ensures most { result ≤ 131_070 }
{
    image_size(head) + u32::from(head.data_len)
}

/// How many bytes of main data are announced.
pub fn main_size(main: MainHead) -> u32
    ensures { result ≡ main_size main }
{
    match main {
        MainHead::Absent => 0,
        MainHead::Short(len) => u32::from(len),
        MainHead::Long(len) => len,
    }
}

/// The length of a hole where it is told, and the bytes after it.
#[tactic(auto, unfolding(crate::specs::wal_heads::Announcements::hole_at))]
fn hole_of(told: bool, bytes: &[u8]) -> Option<(Option<u16>, &[u8])>
    ensures { option_map (λ x. (x.0, x.1.now)) result ≡ hole_at told bytes.now }
{
    if !told {
        return Some((None, bytes));
    }
    let (hole, rest) = u16_at(bytes)?;
    Some((Some(hole), rest))
}

/// An image's head where there is one, and the bytes after it.
#[tactic(auto, unfolding(crate::specs::wal_heads::Announcements::image_at))]
fn image_of(told: bool, bytes: &[u8]) -> Option<(Option<ImageHead>, &[u8])>
    ensures { option_map (λ x. (x.0, x.1.now)) result ≡ image_at told bytes.now }
{
    if !told {
        return Some((None, bytes));
    }
    let (len, rest) = u16_at(bytes)?;
    let (offset, rest) = u16_at(rest)?;
    let (info, rest) = u8_at(rest)?;
    let (hole, rest) = hole_of(has_bit(info, 1) && is_compressed(info), rest)?;
    let image = ImageHead {
        len,
        offset,
        info,
        hole,
    };
    Some((Some(image), rest))
}

/// A relation's name, and the bytes after it.
#[tactic(auto, unfolding(crate::specs::wal_heads::Announcements::named_at))]
pub fn named_of(bytes: &[u8]) -> Option<(RelName, &[u8])>
    ensures { option_map (λ x. (x.0, x.1.now)) result ≡ named_at bytes.now }
{
    let (space, rest) = u32_at(bytes)?;
    let (db, rest) = u32_at(rest)?;
    let (rel, rest) = u32_at(rest)?;
    Some((RelName { space, db, rel }, rest))
}

/// A relation where it is told, and the bytes after it.
#[tactic(auto, unfolding(crate::specs::wal_heads::Announcements::name_at))]
fn name_of(told: bool, bytes: &[u8]) -> Option<(Option<RelName>, &[u8])>
    ensures { option_map (λ x. (x.0, x.1.now)) result ≡ name_at told bytes.now }
{
    if !told {
        return Some((None, bytes));
    }
    let (name, rest) = named_of(bytes)?;
    Some((Some(name), rest))
}

/// A block's announcement, and the bytes after it.
#[tactic(auto, unfolding(crate::specs::wal_heads::Announcements::block_head_at))]
fn block_of(bytes: &[u8]) -> Option<(BlockHead, &[u8])>
    ensures { option_map (λ x. (x.0, x.1.now)) result ≡ block_head_at bytes.now }
{
    let (id, rest) = u8_at(bytes)?;
    let (flags, rest) = u8_at(rest)?;
    let (data_len, rest) = u16_at(rest)?;
    let (image, rest) = image_of(has_bit(flags, 0x10), rest)?;
    let (rel, rest) = name_of(!has_bit(flags, 0x80), rest)?;
    let (block, rest) = u32_at(rest)?;
    let head = BlockHead {
        id,
        flags,
        data_len,
        image,
        rel,
        block,
    };
    Some((head, rest))
}

/// Whether an image that isn't compressed has the length and the hole that its flags ask for.
fn is_good_image(image: ImageHead) -> bool
    ensures { result ≡ image_good image }
{
    if is_compressed(image.info) {
        return true;
    }
    if has_bit(image.info, 1) {
        return image.offset > 0 && image.offset <= image.len && image.len < 8192;
    }
    image.len == 8192 && image.offset == 0
}

/// The same, also true where there is no image.
fn may_be_image(image: Option<ImageHead>) -> bool
    ensures { result ≡ image_may image }
{
    match image {
        None => true,
        Some(image) => is_good_image(image),
    }
}

/// Whether data is announced exactly where it is flagged.
fn is_good_data(head: BlockHead) -> bool
    ensures { result ≡ data_good head }
{
    if has_bit(head.flags, 0x20) {
        head.data_len > 0
    } else {
        head.data_len == 0
    }
}

/// Whether a block's announcement may stand where ids go on at `least`.
fn is_good_block(least: u32, head: BlockHead) -> bool
    ensures { result ≡ block_good least head }
{
    u32::from(head.id) >= least
        && head.id <= 32
        && head.flags % 16 <= 3
        && !(least == 0 && has_bit(head.flags, 0x80))
        && is_good_data(head)
        && may_be_image(head.image)
}

/// The block that is announced next, and the bytes after it.
#[tactic(auto, unfolding(crate::specs::wal_heads::Announcements::next_block_at))]
fn next_block(least: u32, bytes: &[u8]) -> Option<(Announcement, &[u8])>
    ensures { option_map (λ x. (x.0, x.1.now)) result ≡ next_block_at least bytes.now }
{
    let (head, rest) = block_of(bytes)?;
    if is_good_block(least, head) {
        Some((Announcement::Block(head), rest))
    } else {
        None
    }
}

/// The end of the announcements, where just as many bytes are left as are announced.
fn last_of(before: u32, main: MainHead, bytes: &[u8]) -> Option<(Announcement, &[u8])>
    ensures { option_map (λ x. (x.0, x.1.now)) result ≡ last_at before main bytes.now }
{
    if bytes.len() as u64 == u64::from(before) + u64::from(main_size(main)) {
        Some((Announcement::Last(main), bytes))
    } else {
        None
    }
}

/// Main data announced by one byte of length.
fn short_of(before: u32, bytes: &[u8]) -> Option<(Announcement, &[u8])>
    ensures { option_map (λ x. (x.0, x.1.now)) result ≡ short_at before bytes.now }
{
    let (len, rest) = u8_at(bytes)?;
    last_of(before, MainHead::Short(len), rest)
}

/// Main data announced by four bytes of length.
fn long_of(before: u32, bytes: &[u8]) -> Option<(Announcement, &[u8])>
    ensures { option_map (λ x. (x.0, x.1.now)) result ≡ long_at before bytes.now }
{
    let (len, rest) = u32_at(bytes)?;
    last_of(before, MainHead::Long(len), rest)
}

/// The announcement at the front, and the bytes after it, where ids go on at `least` and `before`
/// bytes are announced already.
#[tactic(auto, unfolding(crate::specs::wal_heads::Announcements::step_at))]
fn step_of(least: u32, before: u32, bytes: &[u8]) -> Option<(Announcement, &[u8])>
    ensures { option_map (λ x. (x.0, x.1.now)) result ≡ step_at least before bytes.now }
{
    if bytes.len() <= before as usize {
        return last_of(before, MainHead::Absent, bytes);
    }
    let (id, rest) = u8_at(bytes)?;
    match id {
        255 => short_of(before, rest),
        254 => long_of(before, rest),
        _ => next_block(least, bytes),
    }
}

/// All that is announced at the front of the bytes behind an entry's header, and what stands behind
/// it. None exactly where the announcements fit neither each other nor the bytes.
pub fn heads_of(alloc: Global, bytes: &[u8]) -> Result<Option<Heads<'_>>, AllocError>
    ensures { IfOk result (λ found.
        option_map (λ x. (x.blocks.items, x.main, x.parts.now)) found ≡ heads_at 34 0 0 bytes.now) }
{
    let mut blocks = Vec::new(alloc);
    let mut least = 0u32;
    let mut before = 0u32;
    let mut rest = bytes;
    for _ in 0..34u32 {
        match step_of(least, before, rest) {
            None => return Ok(None),
            Some((Announcement::Last(main), parts)) => {
                return Ok(Some(Heads {
                    blocks,
                    main,
                    parts,
                }));
            }
            Some((Announcement::Block(head), more)) => {
                blocks.push(head)?;
                least = u32::from(head.id) + 1;
                before += block_size(head);
                rest = more;
            }
        }
    }
    Ok(None)
}
