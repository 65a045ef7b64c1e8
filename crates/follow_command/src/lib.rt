//! The work of `follow`: an input, read to its end, that a follower follows as the stream of a WAL.
//!
//! Left to others: how a stream is followed (`wal_follow`).
#![tactic(auto)]

mod input;
mod output;
mod stream;

pub use input::{InputFault, MOST_INPUT, follow_input};
pub use output::{Written, write_pages};
pub use stream::follow_stream;
