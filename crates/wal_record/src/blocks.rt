//! Writing the blocks of an entry.

ghost use Rattle.std.specs.Prelude.{◌≡◌, ◌+◌, ◌≤◌, [], ◌++◌, length, OnOk};
ghost use Rattle.std.specs.List.{All};
ghost use Rattle.pg_page.specs.Image.{image_of, without_hole};
ghost use Rattle.wal_record.specs.declared.record.Kind.TheVariants.{Generic};
ghost use Rattle.wal_pages.specs.wal_heads.Heads.{image_bytes, rel_bytes, block_bytes};
ghost use Rattle.wal_record.specs.Spelling.{image_head_of, frag_bytes, frags_bytes, body_image, body_flag, body_bytes, body_data_len, is_same, same_flag, told_name, head_of, all_heads, bodies_bytes, body_of, IsWritableBody, IsWritableBlock, IsBlockList};

use crate::names::{fork_number, relation};
use crate::record::{BlockRef, Body};
use lsn_core::Rel;
use pg_page::{Frag, Page};
use std::alloc::AllocError;
use wal_pages::wal_heads::ImageHead;

/// Adds what stands behind the header of an entry without main data: its blocks, announced and then
/// with their bodies.
pub fn add_blocks(bytes: &mut Vec<u8>, blocks: &[BlockRef]) -> Result<(), AllocError>
    requires { IsBlockList blocks.now }
    ensures { OnOk result (bytes.new.items ≡ bytes.old.items ++ body_of (Generic blocks.now)) }
{
    add_heads(bytes, blocks)?;
    add_bodies(bytes, blocks)?;
    Ok(())
}

/// Adds the announcements of blocks.
fn add_heads(bytes: &mut Vec<u8>, blocks: &[BlockRef]) -> Result<(), AllocError>
    requires { IsBlockList blocks.now }
    ensures { OnOk result (bytes.new.items ≡ bytes.old.items ++ all_heads blocks.now) }
{
    let mut id: u8 = 0;
    let mut last: Option<Rel> = None;
    for block in blocks {
        add_head(bytes, id, last, block)?;
        id += 1;
        last = Some(block.at.fork.rel);
    }
    Ok(())
}

/// Adds the announcement of a block, by its id and the relation of the block before.
fn add_head(
    bytes: &mut Vec<u8>,
    id: u8,
    last: Option<Rel>,
    block: &BlockRef,
) -> Result<(), AllocError>
    requires { IsWritableBlock block.now }
    ensures { OnOk result (bytes.new.items
        ≡ bytes.old.items ++ block_bytes (head_of id last block.now) []) }
{
    let same = is_same(last, block.at.fork.rel);
    let body = &block.body;
    let flags = fork_number(block.at.fork.kind) + (body_flag(body) + same_flag(same));
    let data_len = data_len(body);
    bytes.push(id)?;
    bytes.push(flags)?;
    bytes.extend_from_slice(&data_len.to_le_bytes())?;
    add_image_head(bytes, body)?;
    add_name(bytes, same, block.at.fork.rel)?;
    bytes.extend_from_slice(&block.at.block.to_le_bytes())?;
    Ok(())
}

/// The flag of an image, or of data.
fn body_flag(body: &Body) -> u8
    ensures flag { result ≡ body_flag body.now }
    ensures most { result ≤ 0x20 }
{
    match body {
        Body::Image(_) => 0x10,
        Body::Delta(_) => 0x20,
    }
}

/// Whether the block before is of this relation.
fn is_same(last: Option<Rel>, rel: Rel) -> bool
    ensures { result ≡ is_same last rel }
{
    match last {
        None => false,
        Some(last) => last.db() == rel.db() && last.rel() == rel.rel(),
    }
}

/// The flag of a block whose relation isn't told again.
fn same_flag(same: bool) -> u8
    ensures flag { result ≡ same_flag same }
    ensures most { result ≤ 0x80 }
{
    if same { 0x80 } else { 0 }
}

/// How many bytes of data a block has.
#[tactic(auto, using(crate::proofs::Deltas::frags_most))]
fn data_len(body: &Body) -> u16
    requires { IsWritableBody body.now }
    ensures { result ≡ body_data_len body.now }
{
    match body {
        Body::Image(_) => 0,
        Body::Delta(frags) => frags_size(frags.as_slice()),
    }
}

/// How many bytes fragments take.
fn frags_size(frags: &[Frag]) -> u16
    requires { length (frags_bytes frags.now) ≤ 65_535 }
    ensures { result ≡ length (frags_bytes frags.now) }
{
    let mut size: usize = 0;
    for frag in frags {
        size += 4 + frag.bytes().len();
    }
    size as u16
}

/// Adds the head of an image, where the block has one.
fn add_image_head(bytes: &mut Vec<u8>, body: &Body) -> Result<(), AllocError>
    ensures { OnOk result (bytes.new.items
        ≡ bytes.old.items ++ image_bytes (body_image body.now) []) }
{
    let Body::Image(page) = body else {
        return Ok(());
    };
    let head = image_head_of(page.hole());
    bytes.extend_from_slice(&head.len.to_le_bytes())?;
    bytes.extend_from_slice(&head.offset.to_le_bytes())?;
    bytes.push(head.info)?;
    Ok(())
}

/// The head of a page's image, by the page's hole.
fn image_head_of(hole: Option<(u16, u16)>) -> ImageHead
    ensures { result ≡ image_head_of hole }
{
    match hole {
        None => ImageHead {
            len: 8192,
            offset: 0,
            info: 2,
            hole: None,
        },
        Some((lower, upper)) => ImageHead {
            len: 8192u16.saturating_sub(upper.saturating_sub(lower)),
            offset: lower,
            info: 3,
            hole: None,
        },
    }
}

/// Adds the relation of a block, where that isn't the one before.
fn add_name(bytes: &mut Vec<u8>, same: bool, rel: Rel) -> Result<(), AllocError>
    ensures { OnOk result (bytes.new.items
        ≡ bytes.old.items ++ rel_bytes (told_name same rel) []) }
{
    if same {
        return Ok(());
    }
    bytes.extend_from_slice(&relation(rel))
}

/// Adds the bodies of blocks, one behind the other.
fn add_bodies(bytes: &mut Vec<u8>, blocks: &[BlockRef]) -> Result<(), AllocError>
    requires { All IsWritableBlock blocks.now }
    ensures { OnOk result (bytes.new.items ≡ bytes.old.items ++ bodies_bytes blocks.now) }
{
    for block in blocks {
        add_body(bytes, &block.body)?;
    }
    Ok(())
}

/// Adds the body of a block: a page without its hole, or fragments.
#[tactic(auto, using(crate::proofs::Deltas::frags_fit))]
fn add_body(bytes: &mut Vec<u8>, body: &Body) -> Result<(), AllocError>
    requires { IsWritableBody body.now }
    ensures { OnOk result (bytes.new.items ≡ bytes.old.items ++ body_bytes body.now) }
{
    match body {
        Body::Image(page) => add_image(bytes, page),
        Body::Delta(frags) => add_frags(bytes, frags.as_slice()),
    }
}

/// Adds a page without its hole.
fn add_image(bytes: &mut Vec<u8>, page: &Page) -> Result<(), AllocError>
    ensures { OnOk result (bytes.new.items ≡ bytes.old.items ++ image_of page.now) }
{
    match page.hole() {
        None => bytes.extend_from_slice(page.bytes()),
        Some((lower, upper)) => add_around(
            bytes,
            page.bytes(),
            usize::from(lower),
            usize::from(upper),
        ),
    }
}

/// Adds bytes without those from one place to another.
#[tactic(auto, unfolding(pg_page::specs::Image::without_hole))]
fn add_around(bytes: &mut Vec<u8>, page: &[u8], from: usize, to: usize) -> Result<(), AllocError>
    requires order { from ≤ to }
    requires within { to ≤ length page.now }
    ensures { OnOk result (bytes.new.items ≡ bytes.old.items ++ without_hole from to page.now) }
{
    bytes.extend_from_slice(&page[..from])?;
    bytes.extend_from_slice(&page[to..])?;
    Ok(())
}

/// Adds fragments, one behind the other.
fn add_frags(bytes: &mut Vec<u8>, frags: &[Frag]) -> Result<(), AllocError>
    requires { All (λ f. f.at + length f.bytes ≤ 8192) frags.now }
    ensures { OnOk result (bytes.new.items ≡ bytes.old.items ++ frags_bytes frags.now) }
{
    for frag in frags {
        add_frag(bytes, frag)?;
    }
    Ok(())
}

/// Adds a fragment: its place, its length, its bytes.
fn add_frag(bytes: &mut Vec<u8>, frag: &Frag) -> Result<(), AllocError>
    requires { frag.now.at + length frag.now.bytes ≤ 8192 }
    ensures { OnOk result (bytes.new.items ≡ bytes.old.items ++ frag_bytes frag.now) }
{
    let len = frag.bytes().len() as u16;
    bytes.extend_from_slice(&frag.at().to_le_bytes())?;
    bytes.extend_from_slice(&len.to_le_bytes())?;
    bytes.extend_from_slice(frag.bytes())
}
