//! A view of chains: the backups below a folder, in the chains that they make (as pgBackRest's
//! `info` and Barman's `list-backups` show theirs), and the members of the chain for a place.
//!
//! `specs/Lines.antt` has the lines of a listing in their order, `specs/Cells.antt` what stands in
//! each, and `specs/Table.antt` and `specs/Json.antt` their two forms. `specs/Asked.antt` says what
//! the words of the command line ask. The top call `show_chains` prints exactly the answer
//! (`specs/Top.antt`); it changes nothing.
//!
//! Left to others: which backups there are, and which chains they make (`chain_listing`).
#![tactic(auto)]

mod answer;
mod cells;
mod columns;
mod json_text;
mod lines;
mod table;
mod top;
mod words;

pub use answer::answer_of;
pub use cells::{Cell, Line};
pub use json_text::{listing_json, members_json_line};
pub use lines::lines_of;
pub use table::listing_text;
pub use top::{Outcome, show_chains};
pub use words::{Asked, asked_of};
