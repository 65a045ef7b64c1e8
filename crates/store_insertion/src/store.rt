//! Inserting a command into an open store.

ghost use Rattle.std.specs.Prelude.{◌≡◌, ◌<◌, true, None, IfOk, OnOk, IfErr};
ghost use Rattle.history.specs.Op.{act_of_op};
ghost use Rattle.history.specs.partitions.Parts.{ConcernsNoOther};
ghost use Rattle.command_judging.specs.Refusals.{HasItems};
ghost use Rattle.journal.specs.Lawful.{IsLawful};
ghost use Rattle.store_locks.specs.Seen.{StaysBy};
ghost use Rattle.store_locks.specs.Refusals.{IsRefusedBehind, judged_form};
ghost use Rattle.store_locks.specs.Inside.{NamesNoArea};
ghost use Rattle.shared_store.specs.Shared.{TakesInsertFault, InsertAnswer};

use crate::desk::admit_at;
use crate::locking::insert_with;
use history::Op;
use shared_store::{FaultShares, Pass, Store};
use std::alloc::Global;
use std::sync::Wait;
use store_faults::InsertFault;
use store_locks::{OfCrew, Receipt};
use vault::Vault;

/// Inserts a command: judges its form and what it shows by itself, makes room for its pages in
/// the partition, before which the WAL is flushed past what is written for that, and up to its
/// end where more than 4 MiB of it wait, judges the command on the pages, appends its entry to the
/// WAL and the history, and changes the pages. The entry isn't durable before a flush. A refusal
/// is the first one in order, but for an area that fails, and leaves history and pages as they
/// are; one that a command shows by itself changes nothing.
pub fn insert_command<J: OfCrew, V: Vault>(
    store: &Store<J, V>,
    rt: &impl Wait,
    alloc: Global,
    pass: &mut Pass<J>,
    op: &Op,
) -> Result<Receipt, InsertFault>
    ensures answer { InsertAnswer (J.tells ≡ true) J.settings.segment op.now pass.old pass.new
        result }
    ensures lawful { J.tells ≡ true → IsLawful J.settings.segment pass.new.list }
    ensures seen { StaysBy pass.old pass.new }
    ensures marks { pass.new.marks ≡ pass.old.marks }
    ensures faults { TakesInsertFault pass.old pass.new result }
{
    match admit(store, rt, pass, op) {
        Ok(q) => insert_into(store, rt, alloc, pass, q, op),
        Err(fault) => Err(fault),
    }
}

/// Judges a command by its form and what it shows by itself, behind all that the pass sees then.
fn admit<J: OfCrew, V: Vault>(
    store: &Store<J, V>,
    rt: &impl Wait,
    pass: &mut Pass<J>,
    op: &Op,
) -> Result<u32, InsertFault>
    ensures below { IfOk result (λ q. q < 4) }
    ensures form { OnOk result (judged_form op.now ≡ None) }
    ensures items { OnOk result (HasItems op.now) }
    ensures alone { IfOk result (λ q. ConcernsNoOther q (act_of_op op.now)) }
    ensures refused { J.tells ≡ true
        → IfErr result (IsRefusedBehind J.settings.segment pass.new.list op.now) }
    ensures named { IfErr result NamesNoArea }
    ensures lawful { J.tells ≡ true → IsLawful J.settings.segment pass.new.list }
    ensures seen { StaysBy pass.old pass.new }
    ensures accepted { pass.new.accepted ≡ pass.old.accepted }
    ensures marks { pass.new.marks ≡ pass.old.marks }
    ensures faults { pass.new.faults ≡ pass.old.faults }
{
    let mut desk = store.desk.lock(rt);
    admit_at(&mut desk, &store.line, &mut pass.own, op)
}

/// Inserts a command of good form into the partition that it concerns.
fn insert_into<J: OfCrew, V: Vault>(
    store: &Store<J, V>,
    rt: &impl Wait,
    alloc: Global,
    pass: &mut Pass<J>,
    q: u32,
    op: &Op,
) -> Result<Receipt, InsertFault>
    requires number { q < 4 }
    requires form { judged_form op.now ≡ None }
    requires items { HasItems op.now }
    requires alone { ConcernsNoOther q (act_of_op op.now) }
    ensures answer { InsertAnswer (J.tells ≡ true) J.settings.segment op.now pass.old pass.new
        result }
    ensures lawful { J.tells ≡ true → IsLawful J.settings.segment pass.new.list }
    ensures seen { StaysBy pass.old pass.new }
    ensures marks { pass.new.marks ≡ pass.old.marks }
    ensures faults { TakesInsertFault pass.old pass.new result }
{
    let Pass { own, shares } = pass;
    let FaultShares {
        data0,
        data1,
        data2,
        data3,
        ..
    } = shares;
    let (line, desk) = (&store.line, &store.desk);
    match q {
        0 => insert_with(rt, alloc, line, desk, &store.part0, own, data0, op),
        1 => insert_with(rt, alloc, line, desk, &store.part1, own, data1, op),
        2 => insert_with(rt, alloc, line, desk, &store.part2, own, data2, op),
        _ => insert_with(rt, alloc, line, desk, &store.part3, own, data3, op),
    }
}
