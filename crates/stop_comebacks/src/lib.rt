//! What a stop leaves of an open store comes back by a restart.
//!
//! An open store is told as plain data: its history, its WAL's log, and its four partitions
//! (`specs/Open.antt`). What a stop leaves of it has of its WAL all that was flushed, and of each
//! partition what the store had at the partition's point, unless a flushed entry changes it
//! (`specs/Stopped.antt`). Such areas are restorable, so a restart with Ok leaves just the files of
//! what the survivors make. What a run logs as a delta follows an image or a cut of its block
//! (`specs/Deltas.antt`). The crate has laws alone (`specs/Laws.antt`).
//!
//! Left to others: that the calls on a partition keep what stays (`page_pool`, `stop_laws`), that a
//! flush keeps what was flushed before it (`wal_writer`), that the first entries survive
//! (`survivor_laws`), and what a restart makes of restorable areas (`comeback_laws`).
#![tactic(auto)]

mod laws;

pub use laws::{
    beginnings_leave_restorable_areas, calls_keep_own_files, clean_partitions_have_own_files,
    earlier_places_are_left, first_records_follow, new_logs_follow, open_stores_are_stopped,
    rebuilding_restarts_leave_restorable_areas, restarts_keep_survivors,
    restorable_areas_come_back, runs_keep_deltas_following, stopped_areas_are_restorable,
    stopped_stores_come_back, stops_leave_parts, stops_leave_restorable_areas, stops_leave_wals,
    written_records_fit,
};
