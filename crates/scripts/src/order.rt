//! What a line asks of the store, before pages are made.

ghost use Rattle.std.specs.Prelude.{◌≡◌, map, IfOk};
ghost use Rattle.pg_page.specs.Header.{made_page};
ghost use Rattle.scripts.specs.Orders.{edit_asked, item_asked, op_asked, grow_op};

use crate::shape::PageShape;
use history::{Edit, Item, Items, Op};
use lsn_core::{BlockId, ForkId, NoMemory, Rel};
use pg_page::{Frags, Page, make_page};
use std::alloc::{AllocError, Global};
use std::marker::Model;

/// What a line asks of the store (profile). A page is told by its shape, which takes 5 bytes where
/// the page takes 8192.
#[derive(Debug, Drop)]
pub enum Order {
    /// Make a fork.
    Create(ForkId),
    /// Cut the main fork of a relation to its first blocks, so many.
    Truncate(Rel, u32),
    /// Take away all forks of a relation.
    Drop(Rel),
    /// Change blocks, in turn.
    Change(OrderItems),
}

/// The items of a change, in order. Contracts see the list.
#[derive(Debug, Drop)]
pub struct OrderItems {
    list: Vec<OrderItem>,
}

impl Model for OrderItems {
    ghost use Rattle.std.specs.Prelude.{List};
    ghost use Rattle.scripts.specs.declared.order.OrderItem.{OrderItem};

    ghost Value = { List OrderItem };

    ghost view = { λ o. o.list.items };
}

impl OrderItems {
    /// These items. Takes no memory.
    pub fn from_vec(list: Vec<OrderItem>) -> OrderItems
        ensures { result ≡ list.items }
    {
        OrderItems { list }
    }

    /// The items.
    pub fn as_slice(&self) -> &[OrderItem]
        ensures { result.now ≡ self.now }
    {
        &self.list
    }
}

/// A block, and how it is to be changed.
#[derive(Debug, Drop)]
pub struct OrderItem {
    pub at: BlockId,
    pub edit: OrderEdit,
}

/// How a block is to be changed.
#[derive(Debug, Drop)]
pub enum OrderEdit {
    /// A page that is made so is put there.
    Put(PageShape),
    /// Fragments are written over the page that is there.
    Patch(Frags),
}

impl Order {
    /// The command that the store is given.
    pub fn op(&self, alloc: Global) -> Result<Op, NoMemory>
        ensures { IfOk result (λ op. op ≡ op_asked self.now) }
    {
        match self {
            Order::Create(fork) => Ok(Op::Create(*fork)),
            Order::Truncate(rel, count) => Ok(Op::Truncate(*rel, *count)),
            Order::Drop(rel) => Ok(Op::Drop(*rel)),
            Order::Change(items) => Ok(Op::Change(items_of(alloc, items.as_slice())?)),
        }
    }
}

/// The command for the block of this number of a growth, counted from 0, that begins at a block:
/// a page of the shape is put there. Behind the last block number that one is meant again.
pub fn grow_op(alloc: Global, at: BlockId, shape: PageShape, k: u32) -> Result<Op, NoMemory>
    ensures { IfOk result (λ op. op ≡ grow_op at shape k) }
{
    let block = at.block.saturating_add(k);
    let mut list = Vec::new(alloc);
    list.push(Item {
        at: BlockId {
            fork: at.fork,
            block,
        },
        edit: Edit::Put(page_of(alloc, shape)?),
    })?;
    Ok(Op::Change(Items::from_vec(list)))
}

/// The items of a command.
fn items_of(alloc: Global, orders: &[OrderItem]) -> Result<Items, AllocError>
    ensures { IfOk result (λ items. items ≡ map item_asked orders.now) }
{
    let mut list = Vec::new(alloc);
    for order in orders {
        let edit = edit_of(alloc, &order.edit)?;
        list.push(Item { at: order.at, edit })?;
    }
    Ok(Items::from_vec(list))
}

/// How a block changes.
fn edit_of(alloc: Global, edit: &OrderEdit) -> Result<Edit, AllocError>
    ensures { IfOk result (λ e. e ≡ edit_asked edit.now) }
{
    match edit {
        OrderEdit::Put(shape) => Ok(Edit::Put(page_of(alloc, *shape)?)),
        OrderEdit::Patch(frags) => Ok(Edit::Patch(frags.copied(alloc)?)),
    }
}

/// The page that is made so.
fn page_of(alloc: Global, shape: PageShape) -> Result<Page, AllocError>
    ensures { IfOk result (λ page. page ≡ made_page shape.lower shape.upper shape.fill) }
{
    let Some(page) = make_page(alloc, shape.lower(), shape.upper(), shape.fill())? else {
        unreachable!()
    };
    Ok(page)
}
