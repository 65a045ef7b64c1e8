//! The label of a backup: the file `backup_label`, which tells where replay has to start, and of
//! an incremental backup, where its prior starts (PostgreSQL manual, Making a Base Backup Using the
//! Low Level API).
//!
//! `specs/Label.antt` has the grammar: its lines, of which each is a key and a value, which text is
//! which label's, and which line of another text is the first outside. `write_label` gives exactly
//! the text, `read_label` takes exactly the texts of the grammar and else names that line, and
//! `laws` say that a text has one reading and that what is written is read as it was. `time_text`
//! writes a moment, as the label and a manifest have it.
//!
//! Left to others: whether what the label tells fits the WAL and the manifest, and the clock.
#![tactic(auto)]

mod keys;
mod label;
mod laws;
mod lines;
mod reading;
mod time;
mod values;

pub use label::{Label, write_label};
pub use laws::{labels_are_read_in_one_way, written_labels_are_read};
pub use reading::{LabelFault, read_label};
pub use time::time_text;
