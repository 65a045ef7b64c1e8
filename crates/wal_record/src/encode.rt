//! Writing an entry.

ghost use Rattle.std.specs.Prelude.{◌≡◌, ◌+◌, ◌<◌, ◌≤◌, ◌^◌, ◌++◌, [], length, IfOk, OnOk};
ghost use Rattle.std.specs.List.{All};
ghost use Rattle.wal_pages.specs.wal_heads.Heads.{main_bytes};
ghost use Rattle.wal_record.specs.declared.record.Kind.TheVariants.{Commit};
ghost use Rattle.wal_record.specs.Spelling.{manager_of, info_of, checkpoint_bytes, creation_bytes, truncation_bytes, commit_info, rels_bytes, sized_head, main_head_of, most_drops, body_of, total_of, front_of, sealed, IsWritable};

use crate::blocks::add_blocks;
use crate::names::{fork_number, relation};
use crate::record::{Kind, Record};
use lsn_core::byte_words::{overwrite, zeros};
use lsn_core::{ForkId, Lsn, NoMemory, Rel};
use std::alloc::{AllocError, Global};
use wal_pages::wal_heads::{LEAST_TOTAL, sum_of};

/// The written form of an entry with its sum, without padding. The entry's kind is one that can be
/// written; it then has from 24 to 4,194,304 bytes.
#[tactic(auto, unfolding(crate::specs::Spelling::spelling))]
pub fn encode_record(alloc: Global, rec: &Record) -> Result<Vec<u8>, NoMemory>
    requires { IsWritable rec.now.kind }
    ensures { IfOk result (λ bytes. bytes.items ≡ sealed rec.now) }
{
    let mut bytes = zeros(alloc, 24)?;
    add_body(&mut bytes, &rec.kind)?;
    let front = front_of(rec, bytes.len() - 24);
    let crc = sum_of(&front, &bytes[24..]);
    overwrite(&mut bytes, 0, &front);
    overwrite(&mut bytes, 20, &crc.to_le_bytes());
    Ok(bytes)
}

/// The first 20 bytes of the header, where so many bytes stand behind the header.
fn front_of(rec: &Record, size: usize) -> [u8; 20]
    requires size { 24 + size ≡ total_of rec.now.kind }
    requires most { size ≤ 4_194_280 }
    ensures { result ≡ front_of rec.now }
{
    let total = LEAST_TOTAL + size as u32;
    let [a, b, c, d] = total.to_le_bytes();
    let [e, f, g, h] = rec.xid.to_le_bytes();
    let [i, j, k, l, m, n, o, p] = rec.prev.0.to_le_bytes();
    let (info, manager) = (info_of(&rec.kind), manager_of(&rec.kind));
    [
        a, b, c, d, e, f, g, h, i, j, k, l, m, n, o, p, info, manager, 0, 0,
    ]
}

/// The number of the resource manager of a kind (access/rmgrlist.h).
fn manager_of(kind: &Kind) -> u8
    ensures { result ≡ manager_of kind.now }
{
    match kind {
        Kind::Shutdown(_) => 0,
        Kind::Online(_) => 0,
        Kind::RedoMark(_) => 0,
        Kind::NoOp => 0,
        Kind::BackupEnd(_) => 0,
        Kind::Images(_) => 0,
        Kind::Generic(_) => 20,
        Kind::Create(_) => 2,
        Kind::Truncate(_, _, _) => 2,
        Kind::Commit(_, _) => 1,
    }
}

/// The info byte of a kind.
fn info_of(kind: &Kind) -> u8
    ensures { result ≡ info_of kind.now }
{
    match kind {
        Kind::Shutdown(_) => 0x00,
        Kind::Online(_) => 0x10,
        Kind::RedoMark(_) => 0xE0,
        Kind::NoOp => 0x20,
        Kind::BackupEnd(_) => 0x50,
        Kind::Images(_) => 0xB0,
        Kind::Generic(_) => 0x00,
        Kind::Create(_) => 0x11,
        Kind::Truncate(_, _, _) => 0x21,
        Kind::Commit(_, rels) => commit_info(rels.as_slice()),
    }
}

/// The info byte of a commit that drops these relations.
fn commit_info(rels: &[Rel]) -> u8
    ensures { result ≡ commit_info rels.now }
{
    if rels.is_empty() { 0x00 } else { 0x81 }
}

/// Adds what stands behind the header: announcements, blocks and main data.
#[tactic(auto, using(crate::proofs::Lengths::body_most))]
fn add_body(bytes: &mut Vec<u8>, kind: &Kind) -> Result<(), AllocError>
    requires { IsWritable kind.now }
    ensures body { OnOk result (bytes.new.items ≡ bytes.old.items ++ body_of kind.now) }
    ensures most { length (body_of kind.now) ≤ 4_194_280 }
{
    match kind {
        Kind::Shutdown(redo) => add_main(bytes, &checkpoint(*redo)),
        Kind::Online(redo) => add_main(bytes, &checkpoint(*redo)),
        Kind::RedoMark(number) => add_main(bytes, &number.to_le_bytes()),
        Kind::NoOp => Ok(()),
        Kind::BackupEnd(start) => add_main(bytes, &start.0.to_le_bytes()),
        Kind::Images(blocks) => add_blocks(bytes, blocks.as_slice()),
        Kind::Generic(blocks) => add_blocks(bytes, blocks.as_slice()),
        Kind::Create(fork) => add_main(bytes, &creation(*fork)),
        Kind::Truncate(rel, count, flags) => add_main(bytes, &truncation(*rel, *count, *flags)),
        Kind::Commit(time, rels) => add_commit(bytes, *time, rels.as_slice()),
    }
}

/// Adds what stands behind the header of a commit.
fn add_commit(bytes: &mut Vec<u8>, time: i64, rels: &[Rel]) -> Result<(), AllocError>
    requires { length rels.now ≤ most_drops }
    ensures { OnOk result (bytes.new.items ≡ bytes.old.items ++ body_of (Commit time rels.now)) }
{
    let time = time.cast_unsigned().to_le_bytes();
    if rels.is_empty() {
        return add_main(bytes, &time);
    }
    let count = rels.len() as u32;
    announce_main(bytes, 16 + 12 * count)?;
    bytes.extend_from_slice(&time)?;
    bytes.extend_from_slice(&[4, 0, 0, 0])?;
    bytes.extend_from_slice(&count.to_le_bytes())?;
    add_rels(bytes, rels)
}

/// Adds the announcement of main data, so many bytes.
fn announce_main(bytes: &mut Vec<u8>, size: u32) -> Result<(), AllocError>
    ensures { OnOk result (bytes.new.items ≡ bytes.old.items ++ main_bytes (sized_head size) []) }
{
    if size <= 255 {
        return bytes.extend_from_slice(&[255, size as u8]);
    }
    bytes.push(254)?;
    bytes.extend_from_slice(&size.to_le_bytes())
}

/// Adds relations, one behind the other.
fn add_rels(bytes: &mut Vec<u8>, rels: &[Rel]) -> Result<(), AllocError>
    ensures { OnOk result (bytes.new.items ≡ bytes.old.items ++ rels_bytes rels.now) }
{
    for rel in rels {
        bytes.extend_from_slice(&relation(*rel))?;
    }
    Ok(())
}

/// Adds what stands behind the header of an entry without blocks: main data, announced by one byte
/// of length.
fn add_main(bytes: &mut Vec<u8>, main: &[u8]) -> Result<(), AllocError>
    requires some { 0 < length main.now }
    requires most { length main.now ≤ 255 }
    ensures { OnOk result (bytes.new.items
        ≡ bytes.old.items ++ main_bytes (main_head_of main.now) main.now) }
{
    bytes.extend_from_slice(&[255, main.len() as u8])?;
    bytes.extend_from_slice(main)
}

/// The main data of a checkpoint (profile).
fn checkpoint(redo: Lsn) -> [u8; 24]
    ensures { result ≡ checkpoint_bytes redo }
{
    let [a, b, c, d, e, f, g, h] = redo.0.to_le_bytes();
    [
        a, b, c, d, e, f, g, h, 1, 0, 0, 0, 1, 0, 0, 0, 1, 0, 0, 0, 0, 0, 0, 0,
    ]
}

/// The main data of a creation (catalog/storage_xlog.h).
fn creation(fork: ForkId) -> [u8; 16]
    ensures { result ≡ creation_bytes fork }
{
    let [a, b, c, d, e, f, g, h, i, j, k, l] = relation(fork.rel);
    let number = fork_number(fork.kind);
    [a, b, c, d, e, f, g, h, i, j, k, l, number, 0, 0, 0]
}

/// The main data of a truncation (catalog/storage_xlog.h).
fn truncation(rel: Rel, count: u32, flags: u32) -> [u8; 20]
    ensures { result ≡ truncation_bytes rel count flags }
{
    let [a, b, c, d, e, f, g, h, i, j, k, l] = relation(rel);
    let [m, n, o, p] = count.to_le_bytes();
    let [q, r, s, t] = flags.to_le_bytes();
    [m, n, o, p, a, b, c, d, e, f, g, h, i, j, k, l, q, r, s, t]
}
