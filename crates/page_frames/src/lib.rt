//! The pages of a partition in a bounded number of frames, and which of them are dirty.
//!
//! Contracts see `Frames` as a `Framed`: how many blocks each fork has, which blocks have a frame,
//! and in each frame a page and where the last entry ends that touched it since it was written
//! (`specs/Framed.antt`). Together with what stands behind the frames for a block that has none,
//! that makes a store and its dirty marks (`specs/Overlay.antt`, `specs/Marks.antt`). A change
//! takes no memory where it was reserved, and marks what it touches; a page that was written is
//! marked clean, and the first dirty page of all is told. A clock picks the frames that are given
//! up so that others are free (`specs/Sweep.antt`). Beside them stands whether a patch would leave
//! a good header.
//!
//! Left to others: what a store and its pages are (`lsn_core`, `pg_page`), which commands may be
//! done, what stands behind the frames and what of the pages is on a disk (`page_pool`), and files.
#![tactic(auto)]

mod dirty;
mod few;
mod frames;
mod lengths;
mod patches;
mod sweep;

pub use dirty::Dirty;
pub use few::Few;
pub use frames::Frames;
pub use patches::keeps_header;
