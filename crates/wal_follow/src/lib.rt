//! A WAL that comes as a stream of bytes, followed as it comes.
//!
//! A `Follower` is fed the archive's bytes from the start of segment 1 on, in pieces of any size.
//! It reads each entry as soon as that is whole and applies it to pages in memory. It holds the
//! bytes from the last entry's end on, as an area that a reader of archives reads (`WindowArea`),
//! and nothing of the stream before that; zeros at the stream's end are counted and not held.
//!
//! `specs/Following.antt` says when a follower stands behind a stream: then its store is what the
//! entries that are whole make, and it doesn't matter how the bytes were cut.
//!
//! Left to others: what stands behind an end of an archive (`wal_archive`, `wal_reader`), what an
//! entry does (`history`), and the laws of streams (`stream_laws`, `follow_laws`).
#![tactic(auto)]

mod area;
mod fault;
mod follower;
mod laws;
mod reading;
mod step;
mod window;

pub use fault::FollowFault;
pub use follower::Follower;
pub use laws::followers_agree;
