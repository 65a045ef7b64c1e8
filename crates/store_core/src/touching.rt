//! The dirty blocks of a partition, in order.

ghost use Rattle.std.specs.Prelude.{◌≡◌, OnOk, IfOk};
ghost use Rattle.store_core.specs.Parts.{block_cmp, with_dirty, items_dirty};
ghost use Rattle.store_core.specs.InMemory.{uncut};

use history::{Item, is_same_fork};
use lsn_core::{BlockId, ForkId, NoMemory};
use std::alloc::Global;
use std::cmp::Ordering;

/// The blocks with those of items.
pub fn touch_items(dirty: &mut Vec<BlockId>, items: &[Item]) -> Result<(), NoMemory>
    ensures { OnOk result (dirty.new.items ≡ items_dirty dirty.old.items items.now) }
{
    for item in items {
        touch(dirty, &item.at)?;
    }
    Ok(())
}

/// The blocks with one more, which may be among them.
fn touch(dirty: &mut Vec<BlockId>, at: &BlockId) -> Result<(), NoMemory>
    ensures { OnOk result (dirty.new.items ≡ with_dirty at.now dirty.old.items) }
{
    for place in 0..dirty.len() {
        match order(at, &dirty[place]) {
            Ordering::Less => {
                dirty.insert(place, *at)?;
                return Ok(());
            }
            Ordering::Equal => return Ok(()),
            Ordering::Greater => {}
        }
    }
    dirty.push(*at)?;
    Ok(())
}

/// Blocks in order: by fork and number.
fn order(one: &BlockId, other: &BlockId) -> Ordering
    ensures { result ≡ block_cmp one.now other.now }
{
    one.cmp(other)
}

/// The blocks that aren't cut off with a fork that is cut to so many blocks.
pub fn left(
    alloc: Global,
    dirty: &[BlockId],
    fork: &ForkId,
    count: u32,
) -> Result<Vec<BlockId>, NoMemory>
    ensures { IfOk result (λ some. some.items ≡ uncut fork.now count dirty.now) }
{
    let mut some = Vec::new(alloc);
    for at in dirty {
        if !(is_same_fork(&at.fork, fork) && at.block >= count) {
            some.push(*at)?;
        }
    }
    Ok(some)
}
