//! Notes on a script that isn't taken.

use crate::lines::note;
use lsn_core::{NoMemory, Text};
use scripts::Why;
use std::alloc::Global;

/// What is wrong with the line, and what to do about it.
fn texts_of(why: Why) -> (&'static [u8], &'static [u8]) {
    match why {
        Why::Long => (
            b"the script is longer than 4194304 bytes there",
            b"give the lines from there on to a run of their own",
        ),
        Why::Bytes => (
            b"a byte is neither printable ASCII nor a tab",
            b"write the line in ASCII, with line feeds alone between lines",
        ),
        Why::Word => (
            b"it is no command, or a number, name, page or fork is out of its range",
            b"docs/FORMATS.md has the lines of a script",
        ),
        Why::NoWorker => (
            b"a command stands before the first worker",
            b"put a line \"worker NAME\" before it",
        ),
        Why::Twice => (
            b"an earlier worker has this name, or names this backup",
            b"give each worker a name of its own, and backups that no other worker names",
        ),
        Why::Many => (
            b"a script has at most eight workers",
            b"put its commands behind another worker's line",
        ),
    }
}

/// No line of the script was run, since this one, counted from 1, is refused.
pub fn script_note(alloc: Global, line: u32, why: Why) -> Result<Text, NoMemory> {
    let number = format!(in alloc; "{line}")?;
    let (wrong, next) = texts_of(why);
    note(
        alloc,
        &[
            b"line ",
            number.as_bytes(),
            b" of the script is refused: ",
            wrong,
        ],
        next,
    )
}
