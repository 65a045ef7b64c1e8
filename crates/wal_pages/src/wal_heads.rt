//! The head of an entry of the WAL: its header of 24 bytes, and what it announces of blocks and
//! main data between that and its data (access/xlogrecord.h).
//!
//! `parts_of` gives the header and the entry's bytes behind it, exactly where the total length is
//! good. `is_linked` and `sum_of` are for the tests of its link and its sum, and `form_of` gives
//! the kind that it names. `heads_of` gives all that is announced, exactly where the announcements
//! fit one another and the bytes behind them: `laws` says that this is just the grammar of
//! `specs/wal_heads/Heads.antt`.
//!
//! Left to others: what the announced bytes say, and how an entry is written (`wal_record`).

mod announce;
mod header;
mod laws;

pub use announce::{
    BlockHead, Heads, ImageHead, MainHead, RelName, block_size, has_bit, heads_of, image_size,
    is_compressed, main_size, named_of,
};
pub use header::{
    Form, Header, LEAST_TOTAL, MOST_TOTAL, form_of, is_linked, parts_of, sum_of, summed_front,
};
pub use laws::announcements_are_read;
