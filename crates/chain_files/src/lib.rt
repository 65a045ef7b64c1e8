//! The files that a chain of backups is combined to (PostgreSQL manual, pg_combinebackup).
//!
//! `specs/Paths.antt` says which paths are those of incremental files, `specs/Segments.antt` what a
//! chain of directories is combined to, `specs/Held.antt` which store such files hold.
//! `incremental` reads a path. `open_file` finds where the pages of one file stand, and
//! `open_segment` those of a segment file of a fork: in the plain file
//! of the newest member, or each at a place of its own, which a map has; of the members' files only
//! one head is held at a time, never a whole file. `SegmentSource::read_pages` reads pages from
//! there. The members' areas are lent, and two members may have one. `read_head` reads the head of
//! one incremental file.
//!
//! Left to others: what a head says and which page stands for a block (`incr_file`), whether the
//! directories are as listed and make a chain (`chain_check`), and what is made of the pages.
#![tactic(auto)]

mod fault;
mod form;
mod head;
mod mapping;
mod member;
mod paths;
mod reading;
mod slot;
mod source;

pub use fault::MemberFault;
pub use head::{read_head, read_piece};
pub use paths::{file_path, incremental, is_fork_file};
pub use source::{SegmentSource, open_file, open_segment};
