//! What an entry says, by its announcements and the bytes behind them.

ghost use Rattle.std.specs.Prelude.{◌≡◌, ◌≢◌};
ghost use Rattle.wal_pages.specs.declared.wal_heads.header.Form.TheVariants.{CommitMore};
ghost use Rattle.wal_record.specs.Outcome.{Gives, refused};
ghost use Rattle.wal_record.specs.Content.{fork_numbered, relation_of, is_packed, is_applied, id_said, has_blocks, has_deltas, image_said, delta_said, body_by, block_said, own_name, blocks_said, no_name, creation_said, truncation_said, rel_said, rels_said, commit_said, has_other_bits, blocks_alone, kind_said, said};

use crate::parts::{
    behind, checkpoint_of, commit_of, commit_time_of, creation_of, delta_of, front_of,
    has_other_bits as other_bits, last_of, mark_of, page_of, start_of, truncation_of,
};
use crate::record::{BlockRef, Blocks, Body, Kind, RecordFault, Rels, Why};
use lsn_core::{BlockId, ForkId, ForkKind, MOST_BLOCKS, Rel};
use std::alloc::Global;
use wal_pages::wal_heads::{
    BlockHead, Form, Heads, ImageHead, MainHead, RelName, block_size, has_bit, image_size,
    is_compressed, main_size, named_of,
};

/// What the announcements and the bytes behind them say of an entry of this form.
#[tactic(auto, unfolding(crate::specs::Content::said))]
pub fn said(alloc: Global, form: Form, heads: &Heads<'_>) -> Result<Kind, RecordFault>
    ensures { Gives result
        (refused (said form heads.now.blocks.items heads.now.main heads.now.parts.now)) }
{
    let main = last_of(main_size(heads.main) as usize, heads.parts);
    if has_other_bits(form, main) {
        return Err(RecordFault::Content(Why::CommitBits));
    }
    let blocks = blocks_said(alloc, form, &heads.blocks, heads.parts)?;
    kind_said(alloc, form, blocks, main)
}

/// Whether an entry is a commit with other information bits than those of dropped relations.
fn has_other_bits(form: Form, main: &[u8]) -> bool
    ensures { result ≡ has_other_bits form main.now }
{
    match form {
        Form::CommitMore => other_bits(main),
        _ => false,
    }
}

/// The blocks in turn.
fn blocks_said(
    alloc: Global,
    form: Form,
    heads: &[BlockHead],
    parts: &[u8],
) -> Result<Blocks, RecordFault>
    ensures { Gives result (refused (blocks_said form no_name heads.now parts.now)) }
{
    let mut blocks = Vec::new(alloc);
    let mut name = RelName {
        space: 0,
        db: 0,
        rel: 0,
    };
    let mut rest = parts;
    for head in heads {
        name = own_name(name, head.rel);
        blocks.push(block_said(alloc, form, name, *head, rest)?)?;
        rest = behind(block_size(*head) as usize, rest);
    }
    Ok(Blocks::from_vec(blocks))
}

/// The name of a block's relation, behind a block of another.
fn own_name(last: RelName, told: Option<RelName>) -> RelName
    ensures { result ≡ own_name last told }
{
    match told {
        None => last,
        Some(name) => name,
    }
}

/// A block, by its relation's name and the bytes from the block's on.
#[tactic(auto, unfolding(crate::specs::Content::block_said))]
fn block_said(
    alloc: Global,
    form: Form,
    name: RelName,
    head: BlockHead,
    parts: &[u8],
) -> Result<BlockRef, RecordFault>
    ensures { Gives result (refused (block_said form name head parts.now)) }
{
    let at = id_said(name, head)?;
    let size = image_size(head) as usize;
    let image = front_of(size, parts);
    let delta = front_of(usize::from(head.data_len), behind(size, parts));
    let body = body_said(alloc, form, head, image, delta)?;
    Ok(BlockRef { at, body })
}

/// Which block is meant, of the relation of this name.
#[tactic(auto, unfolding(crate::specs::Content::id_said))]
fn id_said(name: RelName, head: BlockHead) -> Result<BlockId, Why>
    ensures { result ≡ id_said name head }
{
    if is_packed(head.image) {
        return Err(Why::Compressed);
    }
    if !is_applied(head.image) {
        return Err(Why::NotApplied);
    }
    if name.space != 1663 {
        return Err(Why::Tablespace);
    }
    let kind = fork_numbered(u32::from(head.flags % 16)).ok_or(Why::Fork)?;
    let rel = Rel::new(name.db, name.rel).ok_or(Why::Relation)?;
    if head.block >= MOST_BLOCKS {
        return Err(Why::BlockRange);
    }
    Ok(BlockId {
        fork: ForkId { rel, kind },
        block: head.block,
    })
}

/// The fork of this number. None exactly where that is neither main nor init (common/relpath.h).
fn fork_numbered(number: u32) -> Option<ForkKind>
    ensures { result ≡ fork_numbered number }
{
    match number {
        0 => Some(ForkKind::Main),
        3 => Some(ForkKind::Init),
        _ => None,
    }
}

/// Whether there is an image that is compressed.
fn is_packed(image: Option<ImageHead>) -> bool
    ensures { result ≡ is_packed image }
{
    match image {
        None => false,
        Some(image) => is_compressed(image.info),
    }
}

/// Whether there is no image, or one that is to be applied.
fn is_applied(image: Option<ImageHead>) -> bool
    ensures { result ≡ is_applied image }
{
    match image {
        None => true,
        Some(image) => has_bit(image.info, 2),
    }
}

/// How a block is changed, by its image and its data.
fn body_said(
    alloc: Global,
    form: Form,
    head: BlockHead,
    image: &[u8],
    delta: &[u8],
) -> Result<Body, RecordFault>
    ensures { Gives result (refused (body_by form head head.image image.now delta.now)) }
{
    match head.image {
        None => delta_said(alloc, form, head, delta),
        Some(image_head) => image_said(alloc, form, head, image_head, image),
    }
}

/// Whether entries of this form have blocks.
fn has_blocks(form: Form) -> bool
    ensures { result ≡ has_blocks form }
{
    matches!(form, Form::Images | Form::Generic)
}

/// Whether blocks of entries of this form may be deltas.
fn has_deltas(form: Form) -> bool
    ensures { result ≡ has_deltas form }
{
    matches!(form, Form::Generic)
}

/// A block that is changed as a whole.
#[tactic(auto, unfolding(crate::specs::Content::image_said))]
fn image_said(
    alloc: Global,
    form: Form,
    head: BlockHead,
    image: ImageHead,
    bytes: &[u8],
) -> Result<Body, RecordFault>
    ensures { Gives result (refused (image_said form head image bytes.now)) }
{
    let Some(page) = page_of(alloc, usize::from(image.offset), bytes)? else {
        return Err(RecordFault::Content(Why::ImagePage));
    };
    if has_blocks(form) && head.data_len == 0 {
        Ok(Body::Image(page))
    } else {
        Err(RecordFault::Content(Why::Shape))
    }
}

/// A block that is changed by fragments.
#[tactic(auto, unfolding(crate::specs::Content::delta_said))]
fn delta_said(alloc: Global, form: Form, head: BlockHead, bytes: &[u8]) -> Result<Body, RecordFault>
    ensures { Gives result (refused (delta_said form head bytes.now)) }
{
    if !has_deltas(form) || head.data_len == 0 {
        return Err(RecordFault::Content(Why::Shape));
    }
    match delta_of(alloc, bytes)? {
        None => Err(RecordFault::Content(Why::Fragments)),
        Some(frags) => Ok(Body::Delta(frags)),
    }
}

/// The kind of an entry, by its blocks and its main data.
#[tactic(auto, unfolding(crate::specs::Content::kind_said))]
fn kind_said(alloc: Global, form: Form, blocks: Blocks, main: &[u8]) -> Result<Kind, RecordFault>
    ensures { Gives result (refused (kind_said form blocks main.now)) }
{
    match form {
        Form::CommitMore => commit_said(alloc, main),
        _ => Ok(plain_said(alloc, form, blocks, main)?),
    }
}

/// The kind of an entry of another form than that of a commit that tells more.
#[tactic(auto, unfolding(crate::specs::Content::kind_said))]
fn plain_said(alloc: Global, form: Form, blocks: Blocks, main: &[u8]) -> Result<Kind, Why>
    requires { form ≢ CommitMore }
    ensures { result ≡ kind_said form blocks main.now }
{
    match form {
        Form::Shutdown => checkpoint_of(main).map(Kind::Shutdown).ok_or(Why::Shape),
        Form::Online => checkpoint_of(main).map(Kind::Online).ok_or(Why::Shape),
        Form::RedoMark => mark_of(main).map(Kind::RedoMark).ok_or(Why::Shape),
        Form::NoOp => Ok(Kind::NoOp),
        Form::BackupEnd => start_of(main).map(Kind::BackupEnd).ok_or(Why::Shape),
        Form::Images => blocks_alone(blocks, main).map(Kind::Images),
        Form::Generic => blocks_alone(blocks, main).map(Kind::Generic),
        Form::Create => creation_said(main),
        Form::Truncate => truncation_said(main),
        Form::Commit => match commit_time_of(main) {
            None => Err(Why::Shape),
            Some(time) => Ok(Kind::Commit(time, Rels::none(alloc))),
        },
        Form::CommitMore => unreachable!(),
    }
}

/// Blocks, at least one, without main data.
#[tactic(auto, unfolding(crate::specs::Content::blocks_alone))]
fn blocks_alone(blocks: Blocks, main: &[u8]) -> Result<Blocks, Why>
    ensures { result ≡ blocks_alone blocks main.now }
{
    if blocks.as_slice().is_empty() || !main.is_empty() {
        Err(Why::Shape)
    } else {
        Ok(blocks)
    }
}

/// A creation, by its main data.
#[tactic(auto, unfolding(crate::specs::Content::creation_said))]
fn creation_said(main: &[u8]) -> Result<Kind, Why>
    ensures { result ≡ creation_said main.now }
{
    let (name, number) = creation_of(main).ok_or(Why::Shape)?;
    if name.space != 1663 {
        return Err(Why::Tablespace);
    }
    let kind = fork_numbered(number).ok_or(Why::Fork)?;
    let rel = Rel::new(name.db, name.rel).ok_or(Why::Relation)?;
    Ok(Kind::Create(ForkId { rel, kind }))
}

/// A truncation, by its main data.
#[tactic(auto, unfolding(crate::specs::Content::truncation_said))]
fn truncation_said(main: &[u8]) -> Result<Kind, Why>
    ensures { result ≡ truncation_said main.now }
{
    let (count, (name, flags)) = truncation_of(main).ok_or(Why::Shape)?;
    if name.space != 1663 {
        return Err(Why::Tablespace);
    }
    let rel = Rel::new(name.db, name.rel).ok_or(Why::Relation)?;
    if count == 0xFFFF_FFFF || flags > 7 {
        return Err(Why::Shape);
    }
    Ok(Kind::Truncate(rel, count, flags))
}

/// A commit that drops relations, by its main data.
#[tactic(auto, unfolding(crate::specs::Content::commit_said))]
fn commit_said(alloc: Global, main: &[u8]) -> Result<Kind, RecordFault>
    ensures { Gives result (refused (commit_said main.now)) }
{
    let Some((time, count, names)) = commit_of(main) else {
        return Err(RecordFault::Content(Why::Shape));
    };
    let rels = rels_said(alloc, count, names)?;
    Ok(Kind::Commit(time, rels))
}

/// Relations in turn, so many.
fn rels_said(alloc: Global, count: u32, names: &[u8]) -> Result<Rels, RecordFault>
    ensures { Gives result (refused (rels_said count names.now)) }
{
    let mut rels = Vec::new(alloc);
    let mut rest = names;
    for _ in 0..count {
        let Some((name, more)) = named_of(rest) else {
            return Err(RecordFault::Content(Why::Shape));
        };
        rels.push(rel_said(name)?)?;
        rest = more;
    }
    Ok(Rels::from_vec(rels))
}

/// The relation of a name.
#[tactic(auto, unfolding(crate::specs::Content::rel_said))]
fn rel_said(name: RelName) -> Result<Rel, Why>
    ensures { result ≡ rel_said name }
{
    if name.space != 1663 {
        return Err(Why::Tablespace);
    }
    Rel::new(name.db, name.rel).ok_or(Why::Relation)
}
