//! One partition of a store over its area: its pages, and what of them isn't written yet.
//!
//! Entries change the pages in frames at once and the disk later. What the disk lacks is dirty or
//! pending: a work makes or cuts a fork before any dirty page is written (`specs/Part.antt`). What
//! entries and writes leave of these stands in `specs/Steps.antt`, and what a partition keeps of
//! its history in `specs/Facts.antt`. Laws (`specs/Laws.antt`) say that the disk lacks this and
//! nothing else, also after a torn write, that replay makes it good, and that a command of the
//! partition alone is judged, and counts, by its pages as by those of the whole store.
//!
//! Left to others: the frames and their marks (`page_frames`), why a command is refused
//! (`command_judging`), what an entry does to a store (`history`), which part is a partition's
//! (`partitions`), and what replay needs (`fuzzy_copies`).
#![tactic(auto)]

mod checking;
mod kinds;
mod laws;
mod partition;
mod ready;
mod room;
mod turn;
mod work;
mod writing;

pub use laws::{
    acts_are_entered, clean_partitions_lack_nothing, entries_are_followed, followers_cover,
    pages_are_shown, parts_count_alike, parts_judge_alike, unwritten_is_of_history,
    writes_are_followed, writes_leave_less,
};
pub use partition::{Partition, Unopened};
pub use ready::Ready;
pub use turn::{Cleaned, Turn, Wrote};
pub use work::{Pending, Work};
