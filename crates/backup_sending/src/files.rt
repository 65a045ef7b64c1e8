//! Copying blocks of an open store into the file of a segment.

ghost use Rattle.std.specs.Prelude.{◌≡◌, ◌≢◌, ◌+◌, ◌*◌, ◌-◌, ◌^◌, ◌<◌, true, IfOk, OnOk, IfErr};
ghost use Rattle.store_locks.specs.Copied.{HasRedoPoint};
ghost use Rattle.backup_files.specs.Area.{Lacks};
ghost use Rattle.backup_files.specs.Directory.{manifest_name};
ghost use Rattle.backup_sending.specs.Backup.{site_of};
ghost use Rattle.backup_sending.specs.Inside.{CopyCause, CopiesOn, AddsPiece, WritesCopies};

use crate::gate::Gate;
use crate::pages::copy_pages;
use lsn_core::{ForkId, Lsn, PAGE};
use sha2::{Digest, Sha256};
use shared_store::{Pass, Store};
use std::alloc::Global;
use std::sync::Wait;
use store_faults::BackupFault;
use store_locks::OfCrew;
use vault::Vault;

/// How many blocks are copied and written at once: 64 KiB.
const PIECE: u32 = 8;

/// Copies so many blocks behind those that a file has already, which are `done`.
fn copy_piece<J: OfCrew, V: Vault>(
    rt: &impl Wait,
    alloc: Global,
    store: &Store<J, V>,
    pass: &mut Pass<J>,
    gate: &impl Gate,
    out: &mut V,
    path: &[u8],
    fork: &ForkId,
    block: u32,
    done: u32,
    count: u32,
    from: Lsn,
    piece: &mut Vec<u8>,
    hasher: &mut Sha256,
) -> Result<(), BackupFault>
    requires within { block + count < 2 ^ 32 }
    requires redo { HasRedoPoint pass.old.list from.0 }
    requires other { path.now ≢ manifest_name }
    ensures added { OnOk result (AddsPiece (J.tells ≡ true) pass.new.list from.0 fork.now block
        done count path.now (V.files out.old) (V.files out.new) hasher.old hasher.new) }
    ensures copies_on { CopiesOn V.Vault (site_of pass.old out.old) (site_of pass.new out.new) }
    ensures cause { IfErr result (CopyCause V.Vault (site_of pass.old out.old)
        (site_of pass.new out.new)) }
{
    piece.clear();
    copy_pages(
        rt, alloc, store, pass, gate, fork, block, count, from, piece,
    )?;
    out.write_at(path, u64::from(done) * PAGE, piece)?;
    hasher.update(&*piece);
    Ok(())
}

/// Copies so many blocks of a fork, from a block on, into a file that isn't there, and gives the
/// SHA-256 of the file.
pub(crate) fn copy_file<J: OfCrew, V: Vault>(
    rt: &impl Wait,
    alloc: Global,
    store: &Store<J, V>,
    pass: &mut Pass<J>,
    gate: &impl Gate,
    out: &mut V,
    path: &[u8],
    fork: &ForkId,
    block: u32,
    count: u32,
    from: Lsn,
) -> Result<[u8; 32], BackupFault>
    requires within { block + count < 2 ^ 32 }
    requires redo { HasRedoPoint pass.old.list from.0 }
    requires other { path.now ≢ manifest_name }
    requires missing { Lacks (V.files out.old) path.now }
    ensures copied { IfOk result (WritesCopies (J.tells ≡ true) pass.new.list from.0 fork.now
        block count path.now (V.files out.old) (V.files out.new)) }
    ensures copies_on { CopiesOn V.Vault (site_of pass.old out.old) (site_of pass.new out.new) }
    ensures cause { IfErr result (CopyCause V.Vault (site_of pass.old out.old)
        (site_of pass.new out.new)) }
{
    out.write_at(path, 0, &[])?;
    let mut hasher = Sha256::new();
    let mut piece = Vec::new(alloc);
    let mut done = 0;
    while done < count {
        let step = PIECE.min(count - done);
        let at = block + done;
        copy_piece(
            rt,
            alloc,
            store,
            pass,
            gate,
            out,
            path,
            fork,
            at,
            done,
            step,
            from,
            &mut piece,
            &mut hasher,
        )?;
        done += step;
    }
    Ok(hasher.finalize())
}
