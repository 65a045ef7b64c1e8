//! Copying listed blocks of an open store into an incremental file.

ghost use Rattle.std.specs.Prelude.{◌≡◌, ◌≢◌, ◌+◌, ◌*◌, ◌^◌, ◌<◌, true, length, IfOk, OnOk, IfErr};
ghost use Rattle.std.specs.List.{AllByRecursion};
ghost use Rattle.store_locks.specs.Copied.{HasRedoPoint};
ghost use Rattle.backup_files.specs.Area.{Lacks};
ghost use Rattle.backup_files.specs.Directory.{manifest_name};
ghost use Rattle.backup_sending.specs.Backup.{LooksOn, site_of};
ghost use Rattle.backup_sending.specs.Inside.{CallCause, CopyCause, CopiesOn};
ghost use Rattle.backup_sending.specs.Sending.{AddsBlocks, WritesBlocks, WritesPart};

use crate::gate::Gate;
use crate::pages::copy_page;
use lsn_core::{BlockId, ForkId, Lsn, StoreFault};
use sha2::{Digest, Sha256};
use shared_store::{Pass, Store};
use std::alloc::Global;
use std::sync::Wait;
use store_faults::BackupFault;
use store_locks::OfCrew;
use vault::Vault;

/// How many blocks are copied and written at once: 64 KiB.
const PIECE: usize = 8;

/// Adds listed blocks of a fork to a piece, counted from a first one.
fn copy_blocks<J: OfCrew, V: Vault>(
    rt: &impl Wait,
    alloc: Global,
    store: &Store<J, V>,
    pass: &mut Pass<J>,
    gate: &impl Gate,
    fork: &ForkId,
    first: u32,
    blocks: &[u32],
    from: Lsn,
    piece: &mut Vec<u8>,
) -> Result<(), StoreFault>
    requires within { AllByRecursion (λ block. first + block < 2 ^ 32) blocks.now }
    requires redo { HasRedoPoint pass.old.list from.0 }
    ensures copied { OnOk result (AddsBlocks (J.tells ≡ true) pass.new.list from.0
        fork.now first blocks.now piece.old.items piece.new.items) }
    ensures looks { LooksOn 0 pass.old pass.new }
    ensures cause { IfErr result (CallCause pass.old pass.new) }
{
    let mut left = blocks;
    while let Some((block, behind)) = left.split_first() {
        let at = BlockId {
            fork: *fork,
            block: first + *block,
        };
        copy_page(rt, alloc, store, pass, gate, at, from, piece)?;
        left = behind;
    }
    Ok(())
}

/// Copies listed blocks to a place of a file.
fn copy_part_piece<J: OfCrew, V: Vault>(
    rt: &impl Wait,
    alloc: Global,
    store: &Store<J, V>,
    pass: &mut Pass<J>,
    gate: &impl Gate,
    out: &mut V,
    path: &[u8],
    at: u64,
    fork: &ForkId,
    first: u32,
    blocks: &[u32],
    from: Lsn,
    piece: &mut Vec<u8>,
    hasher: &mut Sha256,
) -> Result<(), BackupFault>
    requires within { AllByRecursion (λ block. first + block < 2 ^ 32) blocks.now }
    requires redo { HasRedoPoint pass.old.list from.0 }
    requires other { path.now ≢ manifest_name }
    ensures written { OnOk result (WritesBlocks (J.tells ≡ true) pass.new.list from.0 fork.now first
        blocks.now path.now at piece.new.items (V.files out.old) (V.files out.new)
        hasher.old hasher.new) }
    ensures copies_on { CopiesOn V.Vault (site_of pass.old out.old) (site_of pass.new out.new) }
    ensures cause { IfErr result (CopyCause V.Vault (site_of pass.old out.old)
        (site_of pass.new out.new)) }
{
    piece.clear();
    copy_blocks(
        rt, alloc, store, pass, gate, fork, first, blocks, from, piece,
    )?;
    out.write_at(path, at, piece)?;
    hasher.update(&*piece);
    Ok(())
}

/// Copies listed blocks of a fork behind a front, into a file that isn't there, and gives the
/// SHA-256 of the file.
pub(crate) fn copy_part<J: OfCrew, V: Vault>(
    rt: &impl Wait,
    alloc: Global,
    store: &Store<J, V>,
    pass: &mut Pass<J>,
    gate: &impl Gate,
    out: &mut V,
    path: &[u8],
    front: &[u8],
    fork: &ForkId,
    first: u32,
    blocks: &[u32],
    from: Lsn,
) -> Result<[u8; 32], BackupFault>
    requires within { AllByRecursion (λ block. first + block < 2 ^ 32) blocks.now }
    requires small { length front.now + length blocks.now * 8192 < 2 ^ 64 }
    requires redo { HasRedoPoint pass.old.list from.0 }
    requires other { path.now ≢ manifest_name }
    requires missing { Lacks (V.files out.old) path.now }
    ensures copied { IfOk result (WritesPart (J.tells ≡ true) pass.new.list from.0 fork.now first
        front.now blocks.now path.now (V.files out.old) (V.files out.new)) }
    ensures copies_on { CopiesOn V.Vault (site_of pass.old out.old) (site_of pass.new out.new) }
    ensures cause { IfErr result (CopyCause V.Vault (site_of pass.old out.old)
        (site_of pass.new out.new)) }
{
    out.write_at(path, 0, front)?;
    let mut hasher = Sha256::new();
    hasher.update(front);
    let mut piece = Vec::new(alloc);
    let mut at = front.len() as u64;
    let mut left = blocks;
    while !left.is_empty() {
        let (now, behind) = left.split_at(PIECE.min(left.len()));
        copy_part_piece(
            rt,
            alloc,
            store,
            pass,
            gate,
            out,
            path,
            at,
            fork,
            first,
            now,
            from,
            &mut piece,
            &mut hasher,
        )?;
        at += piece.len() as u64;
        left = behind;
    }
    Ok(hasher.finalize())
}
