//! What the items of a command show by themselves.

ghost use Rattle.std.specs.Prelude.{◌≡◌, ◌≤◌, [], map, length};
ghost use Rattle.std.specs.Result.{result_err};
ghost use Rattle.history.specs.Whole.{is_named};
ghost use Rattle.command_judging.specs.Refusals.{HasItems};
ghost use Rattle.command_judging.specs.Refusals.{most_items, judged_alone, judged_blocks, judged_frags, judged_edits};

use crate::fault::OpFault;
use history::{Edit, Item, Op, is_same_block};
use lsn_core::BlockId;
use pg_page::check_frags;

/// Whether a command shows by itself that it can't be done, whatever the pages are: an item names
/// the block of an earlier one, or has a bad fragment.
pub fn judge_alone(op: &Op) -> Result<(), OpFault>
    requires { HasItems op.now }
    ensures { result_err result ≡ judged_alone op.now }
{
    let Op::Change(items) = op else {
        return Ok(());
    };
    judge_blocks(items.as_slice())?;
    judge_edits(items.as_slice())
}

/// Whether no item names the block of an earlier one.
pub(crate) fn judge_blocks(items: &[Item]) -> Result<(), OpFault>
    requires { length items.now ≤ most_items }
    ensures { result_err result ≡ judged_blocks 0 [] items.now }
{
    for at in 0..items.len() {
        if is_named(&items[at].at, &items[..at]) {
            return Err(OpFault::SameBlock(at as u32));
        }
    }
    Ok(())
}

/// Whether one of the items is of the block.
fn is_named(at: &BlockId, items: &[Item]) -> bool
    ensures { result ≡ is_named at.now (map (λ i. i.at) items.now) }
{
    for item in items {
        if is_same_block(at, &item.at) {
            return true;
        }
    }
    false
}

/// Whether no item has a bad fragment.
pub(crate) fn judge_edits(items: &[Item]) -> Result<(), OpFault>
    requires { length items.now ≤ most_items }
    ensures { result_err result ≡ judged_edits 0 items.now }
{
    for at in 0..items.len() {
        judge_frags(at as u32, &items[at].edit)?;
    }
    Ok(())
}

/// Whether the edit of the item of this number has no bad fragment.
fn judge_frags(number: u32, edit: &Edit) -> Result<(), OpFault>
    ensures { result_err result ≡ judged_frags number edit.now }
{
    let Edit::Patch(frags) = edit else {
        return Ok(());
    };
    match check_frags(frags.as_slice()) {
        Some(frag) => Err(OpFault::BadFragment(number, frag)),
        None => Ok(()),
    }
}
