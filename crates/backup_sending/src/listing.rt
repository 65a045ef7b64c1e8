//! Listing the forks of an open store.

ghost use Rattle.std.specs.Prelude.{◌≡◌, ◌<◌, true, [], ◌∷◌, IfOk, OnOk, IfErr};
ghost use Rattle.lsn_core.specs.Store.{fork_cmp};
ghost use Rattle.std.specs.BTreeMap.{IsOrdered};
ghost use Rattle.store_locks.specs.Copied.{HasRedoPoint};
ghost use Rattle.backup_sending.specs.Backup.{LooksOn};
ghost use Rattle.backup_sending.specs.Inside.{CallCause, NotesAll, ListsForks, lengths_in};

use crate::gate::{Gate, StepKind};
use lsn_core::{ForkId, ForkLen, Lsn, NoMemory, StoreFault};
use shared_store::{Pass, Store};
use std::alloc::Global;
use std::collections::BTreeMap;
use std::sync::Wait;
use store_locks::OfCrew;
use vault::Vault;

/// Notes the length of a fork, unless one is known.
fn note(known: &mut BTreeMap<ForkId, u32>, fork: &ForkLen) -> Result<(), NoMemory>
    ensures { OnOk result (NotesAll (fork.now ∷ []) known.old known.new) }
{
    if known.contains_key(&fork.fork) {
        return Ok(());
    }
    known.insert(fork.fork, fork.blocks)?;
    Ok(())
}

/// Notes the lengths of a list.
fn note_all(known: &mut BTreeMap<ForkId, u32>, list: &[ForkLen]) -> Result<(), NoMemory>
    ensures { OnOk result (NotesAll list.now known.old known.new) }
{
    let mut left = list;
    while let Some((fork, behind)) = left.split_first() {
        note(known, fork)?;
        left = behind;
    }
    Ok(())
}

/// All forks whose lengths are known, in order.
fn lengths(alloc: Global, known: &BTreeMap<ForkId, u32>) -> Result<Vec<ForkLen>, NoMemory>
    ensures list { IfOk result (λ list. list.items ≡ lengths_in known.now) }
    ensures order { IsOrdered fork_cmp known.now }
{
    let list = known.iter().map(|(fork, blocks)| ForkLen {
        fork: *fork,
        blocks: *blocks,
    });
    Ok(list.collect(alloc)?)
}

/// Lists the forks of all partitions as of a redo point, in order, each once.
pub(crate) fn all_forks<J: OfCrew, V: Vault>(
    rt: &impl Wait,
    alloc: Global,
    store: &Store<J, V>,
    pass: &mut Pass<J>,
    gate: &impl Gate,
    from: Lsn,
) -> Result<Vec<ForkLen>, StoreFault>
    requires { HasRedoPoint pass.old.list from.0 }
    ensures list { IfOk result (λ list.
        ListsForks (J.tells ≡ true) pass.new.list from.0 list.items) }
    ensures looks { LooksOn 0 pass.old pass.new }
    ensures cause { IfErr result (CallCause pass.old pass.new) }
{
    let mut known = BTreeMap::new(alloc);
    let mut q = 0;
    while q < 4 {
        let list = store.forks_of(rt, alloc, pass, q, from)?;
        gate.passed(pass.worker(), StepKind::ListForks);
        note_all(&mut known, &list)?;
        q += 1;
    }
    Ok(lengths(alloc, &known)?)
}
