//! Publishing the summaries of a WAL in an area of files, one file for each.
//!
//! `advance` writes the summaries of the ranges between neighbouring redo points of an open
//! store's history, from the greatest kept end on, and `advance_covering` then answers what covers
//! a range (`specs/summary_publish/Published.antt`). The history is read piece by piece from the
//! store's WAL, and what is published is said over what the worker's pass has seen, which grows
//! meanwhile. A summary's file gets its first byte last: what a publishing that failed leaves is a
//! beginning of what it would publish, and no file that says anything else (`Partly.antt`). So an
//! area that was honest for what a run found stays true for all that its workers do, whoever of
//! them publishes (`True.antt`, `Laws.antt`).
//!
//! Left to others: what a summary says (`wal_summary`), its file (`summary_file`), which files of
//! an area are kept (`summary_store`), and the lock under which workers share the area.

mod advancing;
mod feed;
mod known;
mod laws;
mod publishing;
mod reading;
mod writing;

pub use advancing::{advance, advance_covering};
pub use feed::first_start;
pub use known::Known;
pub use laws::{areas_stay_true, crew_sums_up};
