//! Redo of storage records: the creation of a fork, and the truncation of a relation
//! (catalog/storage_xlog.h), and of commits, which drop relations (access/xact.h).
//!
//! `redo_storage` redoes one of them over a store of pages behind calls that may fail. A creation
//! leaves a fork that is there as it is. A truncation whose flags name the main fork (bit 1) cuts
//! it to so many blocks, where it is there and has more; one without that bit changes nothing. A
//! commit removes all forks of each relation that it names; one that isn't there stays so. It takes
//! no memory of its own.
//!
//! Left to others: what a record does to a store (`history`), the pages themselves (`lsn_core`'s
//! `Pages`), block references (`generic_redo`), and the order of the records (`recovery`).
#![tactic(auto)]

mod redo;

pub use redo::redo_storage;
