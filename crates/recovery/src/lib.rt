//! Recovery: the WAL read from its first entry or from a place on, up to a target or to its end,
//! and redone over pages behind calls that may fail.
//!
//! `specs/Onward.antt` says what a reading is: the entries that are read, the tip behind them, and
//! where the archive is damaged or ends too early. `specs/Replay.antt` has what a reading from the
//! first entry on makes from nothing, `specs/Recovered.antt` what entries make of a store that
//! pages show, `specs/Causes.antt` the cause of each fault. `specs/Reading.antt` is of a reading
//! alone, and
//! `specs/Replayed.antt` says what `replay` leaves of pages, and what a listener hears of the
//! entries. That each area has one such answer at most, by its bytes, is the law
//! `wal_has_one_answer`.
//!
//! Left to others: which entries the WAL has and where it is damaged (`wal_archive`, `wal_reader`),
//! how one entry is redone (`generic_redo`, `smgr_redo`), what it does to a store (`history`), and
//! where the pages are kept. Nothing here changes the area of the WAL.
#![tactic(auto)]

mod fault;
mod laws;
mod listener;
mod reading;
mod redo;
mod replaying;
mod tally;

pub use fault::{RecoveryFault, ReplayFault};
pub use laws::wal_has_one_answer;
pub use listener::Listener;
pub use reading::{Beginning, read_from, read_through, settings_of};
pub use replaying::{ReadWal, Replayed, recover, replay, replay_heard, replay_in_memory};
pub use tally::Tally;
