//! What replay makes of data areas that a stop left, and of the WAL's entries that survived it.
//! Each area covers the survivors from the redo point of the last checkpoint among them: it has
//! what the store had there, but for what entries from there on change. Replay from that point on
//! makes of the four areas together what all survivors make from nothing.
//!
//! An area is known to cover the entries that were flushed, from the place on at which it was last
//! cleaned. More entries may survive than those, and fewer than had been written when it was; the
//! laws of `specs/Laws.antt` lead from there to the survivors and to that redo point.
//! `specs/Restart.antt` has the definitions. The crate has laws alone.
//!
//! Left to others: what a disk covers, and what makes a copy sound (`fuzzy_copies`), which entries
//! survive (`survivor_laws`), and what a stop leaves of an area (`stop_laws`).
#![tactic(auto)]

mod laws;

pub use laws::{covers_go_on, restarts_are_whole};
