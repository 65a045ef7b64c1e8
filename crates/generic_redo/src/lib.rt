//! Redo of the block references of a record: of images of pages, and of generic records, which
//! describe a change by bytes of pages (PostgreSQL manual, Generic WAL Records).
//!
//! `redo_block` redoes one of them over a store of pages behind calls that may fail, by the rule
//! `redone` of `history`: an image is restored without a look at the page that is there, with
//! zeros in its hole and the record's end as its LSN. A delta is applied exactly where the LSN of
//! the page is below that end, so that a page which was written later is left as it is; a missing
//! block counts as a page of zeros. It takes no memory of its own.
//!
//! Left to others: the rule and the order of the block references (`history`), fragments and
//! headers of pages (`pg_page`), the pages themselves (`lsn_core`'s `Pages`), records that create
//! and cut forks (`smgr_redo`), and the order of the records (`recovery`).
#![tactic(auto)]

mod fault;
mod redo;

pub use fault::RedoFault;
pub use redo::redo_block;
