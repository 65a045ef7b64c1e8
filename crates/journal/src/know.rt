//! What the types of a command's values say of it.

ghost use Rattle.history.specs.Laws.{HasGoodPage, HaveGoodPages, HasGoodPages};
ghost use Rattle.history.specs.Op.{act_of_op};

use history::{Edit, Item, Op};

/// Shows that the pages which a command puts have good headers, as their type has it.
pub fn know_pages(op: &Op)
    ensures { HasGoodPages (act_of_op op.now) }
{
    if let Op::Change(items) = op {
        know_items(items.as_slice());
    }
}

/// The same of items.
fn know_items(items: &[Item])
    ensures { HaveGoodPages items.now }
{
    for item in items {
        know_edit(&item.edit);
    }
}

/// The same of the edit of an item.
fn know_edit(edit: &Edit)
    ensures { HasGoodPage edit.now }
{
    if let Edit::Put(page) = edit {
        let _ = page.bytes();
    }
}
