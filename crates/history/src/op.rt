//! A command that changes the store.

ghost use Rattle.std.specs.Prelude.{◌≡◌};
ghost use Rattle.history.specs.Apply.{main_fork, init_fork};

use lsn_core::{BlockId, ForkId, ForkKind, Rel};
use pg_page::{Frags, Page};
use std::marker::Model;

/// A command that changes the store.
#[derive(Debug, Drop)]
pub enum Op {
    /// Makes an empty fork.
    Create(ForkId),
    /// Leaves the first blocks of a relation's main fork alone, so many.
    Truncate(Rel, u32),
    /// Changes blocks, in turn.
    Change(Items),
    /// Takes away all forks of a relation.
    Drop(Rel),
}

/// The items of a command, in order. Contracts see the list.
#[derive(Debug, Drop)]
pub struct Items {
    list: Vec<Item>,
}

impl Model for Items {
    ghost use Rattle.std.specs.Prelude.{List};
    ghost use Rattle.history.specs.declared.op.Item.{Item};

    ghost Value = { List Item };

    ghost view = { λ i. i.list.items };
}

impl Items {
    /// These items. Takes no memory.
    pub fn from_vec(list: Vec<Item>) -> Items
        ensures { result ≡ list.items }
    {
        Items { list }
    }

    /// The items.
    pub fn as_slice(&self) -> &[Item]
        ensures { result.now ≡ self.now }
    {
        &self.list
    }
}

/// A block, and how it changes.
#[derive(Debug, Drop)]
pub struct Item {
    pub at: BlockId,
    pub edit: Edit,
}

/// How a block changes.
#[derive(Debug, Drop)]
pub enum Edit {
    /// A page is put there, whatever was there.
    Put(Page),
    /// Fragments are written over the page that is there.
    Patch(Frags),
}

/// The main fork of a relation.
pub fn main_fork(rel: Rel) -> ForkId
    ensures { result ≡ main_fork rel }
{
    ForkId {
        rel,
        kind: ForkKind::Main,
    }
}

/// The init fork of a relation.
pub fn init_fork(rel: Rel) -> ForkId
    ensures { result ≡ init_fork rel }
{
    ForkId {
        rel,
        kind: ForkKind::Init,
    }
}
