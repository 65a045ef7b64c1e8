//! What a command shows by itself: its form, and its partition.

ghost use Rattle.std.specs.Prelude.{◌≡◌, ◌<◌, None, IfErr};
ghost use Rattle.std.specs.List.{list_all};
ghost use Rattle.std.specs.Result.{result_err};
ghost use Rattle.history.specs.Op.{act_of_op};
ghost use Rattle.history.specs.partitions.Parts.{ConcernsNoOther};
ghost use Rattle.command_judging.specs.Refusals.{HasItems};
ghost use Rattle.store_locks.specs.Refusals.{are_of_one, is_same_rel, judged_items_form, judged_form};
ghost use Rattle.store_locks.specs.Inside.{IsOfFirst, NamesNoArea};

use history::partitions::partition_of;
use history::{Item, Op};
use lsn_core::Rel;
use store_faults::InsertFault;

/// The most items of a command (profile).
const MOST_ITEMS: usize = 4;

/// Whether a command has the form of one, whatever the store is: a change has 1 to 4 items, of one
/// relation.
pub fn judge_form(op: &Op) -> Result<(), InsertFault>
    ensures judged { result_err result ≡ judged_form op.now }
    ensures named { IfErr result NamesNoArea }
{
    match op {
        Op::Create(_) => Ok(()),
        Op::Truncate(_, _) => Ok(()),
        Op::Drop(_) => Ok(()),
        Op::Change(items) => judge_items(items.as_slice()),
    }
}

/// Whether there are 1 to 4 items, of one relation.
fn judge_items(items: &[Item]) -> Result<(), InsertFault>
    ensures judged { result_err result ≡ judged_items_form items.now }
    ensures named { IfErr result NamesNoArea }
{
    if items.is_empty() || items.len() > MOST_ITEMS {
        return Err(InsertFault::BlockCount);
    }
    if !are_of_one(items) {
        return Err(InsertFault::TwoRelations);
    }
    Ok(())
}

/// Whether all items are of one relation.
fn are_of_one(items: &[Item]) -> bool
    ensures { result ≡ are_of_one items.now }
{
    match items {
        [] => true,
        [first, others @ ..] => are_of(first.at.fork.rel, others),
    }
}

/// Whether all items are of this relation.
fn are_of(rel: Rel, items: &[Item]) -> bool
    ensures { result ≡ list_all (λ i. is_same_rel rel i.at.fork.rel) items.now }
{
    items.iter().all(|item| is_same_rel(rel, item.at.fork.rel))
}

/// Whether two names are of one relation.
fn is_same_rel(one: Rel, other: Rel) -> bool
    ensures { result ≡ is_same_rel one other }
{
    one.db() == other.db() && one.rel() == other.rel()
}

/// The partition that a command of good form concerns, and it alone.
pub fn partition_of_op(op: &Op) -> u32
    requires { judged_form op.now ≡ None }
    ensures below { result < 4 }
    ensures items { HasItems op.now }
    ensures alone { ConcernsNoOther result (act_of_op op.now) }
{
    match op {
        Op::Create(fork) => partition_of(fork.rel),
        Op::Truncate(rel, _) => partition_of(*rel),
        Op::Drop(rel) => partition_of(*rel),
        Op::Change(items) => partition_of_items(items.as_slice()),
    }
}

/// The partition of the first item's relation.
fn partition_of_items(items: &[Item]) -> u32
    ensures below { result < 4 }
    ensures first { IsOfFirst result items.now }
{
    match items {
        [] => 0,
        [first, ..] => partition_of(first.at.fork.rel),
    }
}
