//! Commands on one relation, for tests.

ghost use Rattle.std.specs.Prelude.{IfOk};
ghost use Rattle.command_judging.specs.Refusals.{HasItems};

use crate::flushed::page_of;
use history::{Edit, Item, Items, Op, init_fork};
use lsn_core::{AreaFault, BlockId, ForkId, NoMemory};
use pg_page::{Frag, Frags};
use std::alloc::Global;
use test_areas::{Wrong, main_fork};

/// A command on 5/16384: on its main fork, where nothing else is said.
#[derive(Clone, Copy)]
pub enum Does {
    Creates,
    /// It creates the init fork.
    CreatesInit,
    /// It puts a page with a hole, filled with this byte, at each of these blocks.
    Puts(u32, u8),
    PutsTwo(u32, u32),
    /// It writes two bytes over those at a place of a page.
    Patches(u32, u16),
    /// It does so with four pages, from this block on.
    PatchesFour(u32, u16),
    Cuts(u32),
    /// It drops the relation.
    Drops,
}

/// The main fork of 5/16384.
pub fn fork() -> Result<ForkId, Wrong> {
    main_fork(16384).ok_or(Wrong::Step(0))
}

/// The item that puts a page at a block.
fn put(alloc: Global, block: u32, fill: u8) -> Result<Item, Wrong> {
    let page = page_of(alloc, fill)?.ok_or(Wrong::Step(0))?;
    Ok(Item {
        at: BlockId {
            fork: fork()?,
            block,
        },
        edit: Edit::Put(page),
    })
}

/// The item that patches a page of a fork.
fn patch(alloc: Global, fork: ForkId, block: u32, at: u16) -> Result<Item, AreaFault> {
    let mut frags = Vec::new(alloc);
    frags.push(Frag::new(alloc, at, b"zz")?)?;
    Ok(Item {
        at: BlockId { fork, block },
        edit: Edit::Patch(Frags::from_vec(frags)),
    })
}

fn change(alloc: Global, item: Item) -> Result<Op, NoMemory>
    ensures { IfOk result HasItems }
{
    let mut items = Vec::new(alloc);
    items.push(item)?;
    Ok(Op::Change(Items::from_vec(items)))
}

fn change_two(alloc: Global, first: Item, second: Item) -> Result<Op, NoMemory>
    ensures { IfOk result HasItems }
{
    let mut items = Vec::new(alloc);
    items.push(first)?;
    items.push(second)?;
    Ok(Op::Change(Items::from_vec(items)))
}

/// Patches four pages of a fork, from this block on.
fn patch_four(alloc: Global, fork: ForkId, first: u32, at: u16) -> Result<Op, AreaFault>
    ensures { IfOk result HasItems }
{
    let mut items = Vec::new(alloc);
    items.push(patch(alloc, fork, first, at)?)?;
    items.push(patch(alloc, fork, first.saturating_add(1), at)?)?;
    items.push(patch(alloc, fork, first.saturating_add(2), at)?)?;
    items.push(patch(alloc, fork, first.saturating_add(3), at)?)?;
    Ok(Op::Change(Items::from_vec(items)))
}

/// The command that does this.
pub fn op_of(alloc: Global, does: Does) -> Result<Op, Wrong>
    ensures { IfOk result HasItems }
{
    match does {
        Does::Creates => Ok(Op::Create(fork()?)),
        Does::CreatesInit => Ok(Op::Create(init_fork(fork()?.rel))),
        Does::Puts(block, fill) => Ok(change(alloc, put(alloc, block, fill)?)?),
        Does::PutsTwo(first, second) => {
            Ok(change_two(alloc, put(alloc, first, 1)?, put(alloc, second, 2)?)?)
        }
        Does::Patches(block, at) => Ok(change(alloc, patch(alloc, fork()?, block, at)?)?),
        Does::PatchesFour(first, at) => Ok(patch_four(alloc, fork()?, first, at)?),
        Does::Cuts(count) => Ok(Op::Truncate(fork()?.rel, count)),
        Does::Drops => Ok(Op::Drop(fork()?.rel)),
    }
}
