//! What the tests of the base and those of the program share: bytes of two WALs that an independent
//! implementation of the formats wrote, calls of areas and sites that say nothing of what they did,
//! and tables of steps over these, which are taken in turn. It is no part of the program.
#![tactic(auto)]

mod areas;
mod samples;
mod steps;

pub use areas::{Change, holds, holds_in, make, make_all, put_in};
pub use samples::{
    ADDED, ARCHIVE, BEFORE_PADDING, NEW_WAL, SEGMENT, SETTINGS, archive_with, main_fork,
};
pub use steps::{SiteStep, Step, Wrong, take_site_steps, take_steps};
