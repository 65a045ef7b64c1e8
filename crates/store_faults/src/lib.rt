//! Why calls of an open store, and backups of it, are refused or fail.
//!
//! These are the types alone, with the faults that give others (`specs/Giving.antt`), so that what
//! is printed of an answer stands on them and not on the calls. When each comes, the contracts of
//! the calls say: `shared_store`, `summary_publish`, `backup_sending`, `incr_backup`,
//! `store_finding`.
//!
//! Left to others: the faults of single areas (`lsn_core`), and of what is read of a WAL
//! (`recovery`).
#![tactic(auto)]

mod advance_fault;
mod backup_fault;
mod begin_why;
mod incr_fault;
mod insert_fault;

pub use advance_fault::AdvanceFault;
pub use backup_fault::BackupFault;
pub use begin_why::BeginWhy;
pub use incr_fault::IncrFault;
pub use insert_fault::InsertFault;
