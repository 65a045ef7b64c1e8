//! Scripts of runs: what a worker is told to do, line by line.
//!
//! `read_script` takes the bytes of a script as a list of commands for each of its workers, or
//! refuses it at its first bad line with a reason (`specs/Script.antt`). Of two workers none names
//! a backup that the other names. What holds of every script are laws (`laws`).
//!
//! Left to others: running the lines (`crew`), whether a command may be done (`shared_store`), and
//! where the bytes of a script come from.
#![tactic(auto)]

mod cuts;
mod draft;
mod frags;
mod items;
mod laws;
mod meaning;
mod order;
mod reading;
mod script;
mod shape;
mod taken;
mod why;

pub use cuts::is_name;
pub use laws::{script_has_one_answer, scripts_are_apart};
pub use order::{Order, OrderEdit, OrderItem, OrderItems, grow_op};
pub use reading::read_script;
pub use script::{Command, Line, Lines, MOST_WORKERS, SCRIPT_LIMIT, Script, Task};
pub use shape::PageShape;
pub use why::{ScriptFault, Why, why_text};
