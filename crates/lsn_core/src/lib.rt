//! Numbers and names on which all other crates stand: places in the WAL and its tip, relations,
//! forks and their blocks, segments, the settings of a store, sizes and limits, and the ways in
//! which calls fail.
//!
//! What it writes, it reads: each name has a reader that is exact both ways, and `laws` says that
//! a text is read as one thing and that a store's files have distinct names. `specs/Store.antt`
//! and `specs/Blocks.antt` say what a store is and what a change leaves of it, `specs/Names.antt`
//! how everything is named. The trait `Pages` is a store behind calls that may fail; an
//! implementation may tell which store it shows, or nothing.
//!
//! Two modules have definitions of their own, for all crates: `byte_words`, lists of bytes with
//! the numbers in them, and `text_numbers`, the digits of numbers in texts and names.
//!
//! Left to others: areas of files and their failures (`vault`), what the pages hold (`pg_page`),
//! and what the WAL does to a store (`history`).
#![tactic(auto)]

pub mod byte_words;
mod fault;
mod ids;
mod laws;
mod lsn;
mod names;
mod pages;
mod paths;
mod segment;
mod sizes;
mod text;
pub mod text_numbers;

pub use fault::{AreaFault, MarkFault, NoMemory, Side, StoreArea, StoreFault};
pub use ids::{BlockId, ForkId, ForkKind, ForkLen, Rel};
pub use laws::{
    lsns_are_read_again, paths_have_one_fork, segment_names_rise, segments_are_read_again,
    store_files_are_distinct,
};
pub use lsn::{Lsn, Place, WalTip, lsn_read, lsn_text};
pub use names::{fork_path, segment_name, segment_of, segment_read};
pub use pages::Pages;
pub use paths::path_fork;
pub use segment::{SegSize, Settings};
pub use sizes::{LONG_HEAD, MOST_BLOCKS, MOST_RELSEG, MOST_SEGMENTS, PAGE, PAGE_MAGIC, SHORT_HEAD};
pub use text::Text;
