//! What the items of a command show by themselves.

ghost use Rattle.std.specs.Prelude.{◌≡◌, ◌≤◌, [], map, length};
ghost use Rattle.std.specs.List.{list_all};
ghost use Rattle.history.specs.Whole.{is_named};
ghost use Rattle.store_core.specs.Refusals.{most_items, is_same_rel, are_of_one, judged_form, judged_blocks, judged_frags, judged_edits};

use crate::reply::Refusal;
use history::{Edit, Item, is_same_block};
use lsn_core::{BlockId, Rel};
use pg_page::check_frags;

/// The most items of a command (profile).
const MOST_ITEMS: usize = 4;

/// Whether there are 1 to 4 items, of one relation.
pub(crate) fn judge_form(items: &[Item]) -> Option<Refusal>
    ensures { result ≡ judged_form items.now }
{
    if items.is_empty() || items.len() > MOST_ITEMS {
        return Some(Refusal::BlockCount);
    }
    if !are_of_one(items) {
        return Some(Refusal::TwoRelations);
    }
    None
}

/// Whether all items are of one relation.
fn are_of_one(items: &[Item]) -> bool
    ensures { result ≡ are_of_one items.now }
{
    match items {
        [] => true,
        [first, others @ ..] => are_of(first.at.fork.rel, others),
    }
}

/// Whether all items are of this relation.
fn are_of(rel: Rel, items: &[Item]) -> bool
    ensures { result ≡ list_all (λ i. is_same_rel rel i.at.fork.rel) items.now }
{
    items.iter().all(|item| is_same_rel(rel, item.at.fork.rel))
}

/// Whether two names are of one relation.
fn is_same_rel(one: Rel, other: Rel) -> bool
    ensures { result ≡ is_same_rel one other }
{
    one.db() == other.db() && one.rel() == other.rel()
}

/// Whether no item names the block of an earlier one.
pub(crate) fn judge_blocks(items: &[Item]) -> Option<Refusal>
    requires { length items.now ≤ most_items }
    ensures { result ≡ judged_blocks 0 [] items.now }
{
    for at in 0..items.len() {
        if is_named(&items[at].at, &items[..at]) {
            return Some(Refusal::SameBlock(at as u32));
        }
    }
    None
}

/// Whether one of the items is of the block.
fn is_named(at: &BlockId, items: &[Item]) -> bool
    ensures { result ≡ is_named at.now (map (λ i. i.at) items.now) }
{
    for item in items {
        if is_same_block(at, &item.at) {
            return true;
        }
    }
    false
}

/// Whether no item has a bad fragment.
pub(crate) fn judge_edits(items: &[Item]) -> Option<Refusal>
    requires { length items.now ≤ most_items }
    ensures { result ≡ judged_edits 0 items.now }
{
    for at in 0..items.len() {
        let fault = judge_frags(at as u32, &items[at].edit);
        if fault.is_some() {
            return fault;
        }
    }
    None
}

/// Whether the edit of the item of this number has no bad fragment.
fn judge_frags(number: u32, edit: &Edit) -> Option<Refusal>
    ensures { result ≡ judged_frags number edit.now }
{
    let Edit::Patch(frags) = edit else {
        return None;
    };
    match check_frags(frags.as_slice()) {
        Some(frag) => Some(Refusal::BadFragment(number, frag)),
        None => None,
    }
}
