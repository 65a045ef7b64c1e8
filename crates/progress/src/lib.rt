//! How far a long command has come, told on standard error, at most one line a second.
//!
//! Each area has a `Meter`, which counts the bytes that it reads and writes; what all areas moved
//! stands in atomic words that the meters share, and so does the moment from which the next line is
//! due. A read or write that finds a line due prints it, whichever thread it is made by. No lock is
//! held, and no answer depends on it: where the clock, memory or standard error fails, there is no
//! line. When a line is due, and its text, are proved; what is printed no contract can say.
//!
//! Left to others: what an area is, and when it reads and writes.
#![tactic(auto)]

mod choice;
mod line;
mod meter;
mod moved;
mod pace;

pub use choice::is_wanted;
pub use meter::{Meter, Progress};
pub use moved::Moved;
pub use pace::lines_are_a_second_apart;
