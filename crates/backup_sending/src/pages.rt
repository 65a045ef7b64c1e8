//! Copying blocks of an open store.

ghost use Rattle.std.specs.Prelude.{◌≡◌, ◌+◌, ◌^◌, ◌<◌, true, OnOk, IfErr};
ghost use Rattle.store_locks.specs.Copied.{HasRedoPoint};
ghost use Rattle.backup_sending.specs.Backup.{LooksOn};
ghost use Rattle.backup_sending.specs.Inside.{AddsCopies, CallCause};

use crate::gate::{Gate, StepKind};
use lsn_core::{BlockId, ForkId, Lsn, StoreFault};
use pg_page::zero_page;
use shared_store::{Pass, Store};
use std::alloc::Global;
use std::sync::Wait;
use store_locks::OfCrew;
use vault::Vault;

/// Adds a block to a piece, as it is copied now. A block that is gone is zeros.
pub(crate) fn copy_page<J: OfCrew, V: Vault>(
    rt: &impl Wait,
    alloc: Global,
    store: &Store<J, V>,
    pass: &mut Pass<J>,
    gate: &impl Gate,
    at: BlockId,
    from: Lsn,
    piece: &mut Vec<u8>,
) -> Result<(), StoreFault>
    requires redo { HasRedoPoint pass.old.list from.0 }
    ensures copied { OnOk result (AddsCopies (J.tells ≡ true) pass.new.list from.0
        at.fork at.block 1 piece.old.items piece.new.items) }
    ensures looks { LooksOn 0 pass.old pass.new }
    ensures cause { IfErr result (CallCause pass.old pass.new) }
{
    let mut page = zero_page();
    store.copy_block(rt, alloc, pass, at, from, &mut page)?;
    gate.passed(pass.worker(), StepKind::CopyBlock);
    piece.extend_from_slice(&page)?;
    Ok(())
}

/// Adds so many blocks of a fork to a piece, from a block on.
pub(crate) fn copy_pages<J: OfCrew, V: Vault>(
    rt: &impl Wait,
    alloc: Global,
    store: &Store<J, V>,
    pass: &mut Pass<J>,
    gate: &impl Gate,
    fork: &ForkId,
    block: u32,
    count: u32,
    from: Lsn,
    piece: &mut Vec<u8>,
) -> Result<(), StoreFault>
    requires within { block + count < 2 ^ 32 }
    requires redo { HasRedoPoint pass.old.list from.0 }
    ensures copied { OnOk result (AddsCopies (J.tells ≡ true) pass.new.list from.0
        fork.now block count piece.old.items piece.new.items) }
    ensures looks { LooksOn 0 pass.old pass.new }
    ensures cause { IfErr result (CallCause pass.old pass.new) }
{
    let mut done = 0;
    while done < count {
        let at = BlockId {
            fork: *fork,
            block: block + done,
        };
        copy_page(rt, alloc, store, pass, gate, at, from, piece)?;
        done += 1;
    }
    Ok(())
}
