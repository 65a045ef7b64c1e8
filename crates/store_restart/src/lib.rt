//! A store brought back after a stop, such as a power cut: what survives in its WAL, the WAL cut to
//! that, and its data areas brought to its end.
//!
//! `read_survivors` reads the WAL up to where its archive ends or is cut off: the entries before
//! that are those that survived. It answers the tip behind the last of them and where their replay
//! begins, which is the redo point that the last checkpoint among them names, where one of them
//! starts there (`specs/Survivors.antt`). Its faults have their causes: damage that no stop leaves,
//! a device that failed, and want of memory. It changes nothing.
//!
//! `trim` cuts the archive of a WAL behind a place, such as the end of the last survivor: then the
//! archive holds just what it held before that place, durably (`specs/Trimmed.antt`). What a stop
//! left of it before the place, it leaves at each moment of the call, and also after a fault. The
//! area's other files don't change.
//!
//! `restart` brings a store back, with its areas on the heap meanwhile, so that their sizes are
//! known (`specs/Restarted.antt`). The WAL is just its survivors then, and the data areas are
//! brought to their end: made anew from the first entry on, under the file `rebuilding` of the
//! first area, where that is there already or no redo point is known; else their segment files are
//! made neat, and the survivors from that point on redone over them (`specs/Restart.antt`). Each
//! refusal has its cause (`specs/Causes.antt`), and damage that no stop leaves comes before
//! anything is written.
//!
//! Left to others: which entries survive of those that weren't flushed (`survivor_laws`), what a
//! stop leaves of the data areas (`stop_laws`), and that replay from a redo point on then makes
//! what all survivors make (`restart_laws`).
#![tactic(auto)]

mod boxing;
mod fault;
mod rebuilding;
mod redoing;
mod restarting;
mod survivors;
mod trimming;

pub use fault::{RestartFault, RestartWhy};
pub use restarting::{Restarted, restart};
pub use survivors::{Survivors, read_survivors};
pub use trimming::trim;
