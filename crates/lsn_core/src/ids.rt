//! Relations, their forks, and the blocks of these.

ghost use Rattle.std.specs.Prelude.{◌≡◌, ◌<◌, ◌↔◌, IsSome, IfSome};

use std::marker::Model;

/// A relation of tablespace 1663: its database and its number, neither of them 0. Contracts see a
/// `Relation`.
#[derive(Clone, Copy, Debug, PartialEq, Eq, PartialOrd, Ord)]
pub struct Rel {
    db: u32,
    rel: u32,
}

impl Model for Rel {
    ghost use Rattle.std.specs.Prelude.{◌<◌};
    ghost use Rattle.lsn_core.specs.Relation.{Relation};

    ghost Value = { Relation };

    ghost view = { λ r. record { db = r.db; rel = r.rel } };

    ghost invariant = { λ r. (0 < r.db) × (0 < r.rel) };

    ghost inverse = { λ r. record { db = r.db; rel = r.rel } };
}

impl Rel {
    /// The relation of these numbers. None exactly where one of them is 0.
    pub fn new(db: u32, rel: u32) -> Option<Rel>
        ensures some { IsSome result ↔ (0 < db) × (0 < rel) }
        ensures value { IfSome result (λ r. r ≡ record { db = db; rel = rel }) }
    {
        if db > 0 && rel > 0 {
            Some(Rel { db, rel })
        } else {
            None
        }
    }

    /// The number of the database.
    pub fn db(self) -> u32
        ensures value { result ≡ self.db }
        ensures some { 0 < result }
    {
        self.db
    }

    /// The number of the relation within its database.
    pub fn rel(self) -> u32
        ensures value { result ≡ self.rel }
        ensures some { 0 < result }
    {
        self.rel
    }
}

/// Which fork of a relation: its pages, or the empty state to which an unlogged relation returns
/// (PostgreSQL manual, Database Physical Storage).
#[derive(Clone, Copy, Debug, PartialEq, Eq, PartialOrd, Ord)]
pub enum ForkKind {
    Main,
    Init,
}

/// A fork of a relation.
#[derive(Clone, Copy, Debug, PartialEq, Eq, PartialOrd, Ord)]
pub struct ForkId {
    pub rel: Rel,
    pub kind: ForkKind,
}

/// A block of a fork, counted from 0.
#[derive(Clone, Copy, Debug, PartialEq, Eq, PartialOrd, Ord)]
pub struct BlockId {
    pub fork: ForkId,
    pub block: u32,
}

/// A fork, and how many blocks it has.
#[derive(Clone, Copy, Debug, PartialEq, Eq)]
pub struct ForkLen {
    pub fork: ForkId,
    pub blocks: u32,
}
