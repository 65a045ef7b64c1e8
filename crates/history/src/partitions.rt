//! The four partitions of a store: which relation belongs to which, and a partition's part of a
//! store and of a history.
//!
//! A relation belongs to the partition that `partition_of` answers, with all its forks.
//! `specs/partitions/Parts.antt` says what part of a store a partition has, and what an entry does
//! to it. Laws of their own (`specs/partitions/Laws.antt`) say that a history may be applied part
//! by part: what a part of the history makes of a part of the store is the part of what the
//! history makes of the store, entries that don't concern a partition may be passed over, an act
//! that concerns one alone may be judged by its part, and a store is made of its parts.
//!
//! Left to others: who holds a partition (`page_pool`, `shared_store`).

mod laws;
mod numbers;

pub use laws::{
    other_entries_leave_parts, own_acts_are_judged_by_parts, parts_fold_alike,
    stores_are_their_parts,
};
pub use numbers::partition_of;
