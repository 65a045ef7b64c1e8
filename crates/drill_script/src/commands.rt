//! The commands of a writer.

ghost use Rattle.std.specs.Prelude.{◌≡◌, ◌<◌, IfOk};
ghost use Rattle.drill_script.specs.Drill.{block_of, changes, command_of, frags_of, page_of, rel_of};

use crate::writer::Step;
use lsn_core::{BlockId, ForkId, ForkKind, NoMemory, Rel};
use pg_page::{Frag, Frags};
use scripts::{Command, Order, OrderEdit, OrderItem, OrderItems, PageShape};
use std::alloc::Global;

/// The relation of a writer.
fn rel_of(w: u32) -> Rel
    requires { w < 4 }
    ensures { result ≡ rel_of w }
{
    let Some(rel) = Rel::new(5, 16_384 + w) else {
        unreachable!()
    };
    rel
}

/// A block of its main fork.
pub fn block_of(w: u32, block: u32) -> BlockId
    requires { w < 4 }
    ensures { result ≡ block_of w block }
{
    BlockId {
        fork: ForkId {
            rel: rel_of(w),
            kind: ForkKind::Main,
        },
        block,
    }
}

/// How a page is made that is put.
pub fn page_of(fill: u8) -> PageShape
    ensures { result ≡ page_of fill }
{
    let Some(shape) = PageShape::new(424, 8192, fill) else {
        unreachable!()
    };
    shape
}

/// A block is changed.
fn changes(alloc: Global, at: BlockId, edit: OrderEdit) -> Result<Command, NoMemory>
    ensures { IfOk result (λ command. command ≡ changes at edit) }
{
    let mut items = Vec::new(alloc);
    items.push(OrderItem { at, edit })?;
    Ok(Command::Insert(Order::Change(OrderItems::from_vec(items))))
}

/// Eight bytes of a value from a place of a page on.
fn frags_of(alloc: Global, place: u16, fill: u8) -> Result<Frags, NoMemory>
    ensures { IfOk result (λ frags. frags ≡ frags_of place fill) }
{
    let mut list = Vec::new(alloc);
    list.push(Frag::new(alloc, place, &[fill; 8])?)?;
    Ok(Frags::from_vec(list))
}

/// The command of a writer's step.
pub fn command_of(alloc: Global, w: u32, step: Step) -> Result<Command, NoMemory>
    requires { w < 4 }
    ensures { IfOk result (λ command. command ≡ command_of w step) }
{
    match step {
        Step::Cut(len) => Ok(Command::Insert(Order::Truncate(rel_of(w), len))),
        Step::Put(block, fill) => {
            changes(alloc, block_of(w, block), OrderEdit::Put(page_of(fill)))
        }
        Step::Patch(block, place, fill) => {
            let frags = frags_of(alloc, place, fill)?;
            changes(alloc, block_of(w, block), OrderEdit::Patch(frags))
        }
    }
}
