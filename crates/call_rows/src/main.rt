//! Worked rows of the program's commands as plain text. Standard input is a script, each line of
//! which runs a command over areas in memory, changes their files or shows them. What it prints is
//! compared with what is expected, so that a further row costs no proof.
//!
//! - `# ..` and a line without words are printed.
//! - `begin AREA..`: a new, empty site, at 1700000000 seconds. The areas of a store, and these, are
//!   the ones that `keep`, `back` and `stops` know. `keep` remembers what they hold, and `back`
//!   makes a new site with that.
//! - `clock SECONDS`: the moment of the commands that follow.
//! - `> WORD..` runs the program with these words, on the lines `< TEXT` that follow, and prints
//!   what it prints, and `= STATUS`. `> WORD.. < AREA/FILE` runs it on a file. `quiet` in place of
//!   `>` prints the last line alone, and `again` prints `again` where the command before printed
//!   just this, too.
//! - `cut AREA/FILE COUNT` takes so many bytes from a file's end; `put AREA/FILE PLACE HEX` writes
//!   bytes; `remove AREA/FILE` takes a file away; of `write AREA/FILE` the lines `< TEXT` that
//!   follow are all of the file then.
//! - `files AREA` prints name, length and CRC-32C of each file; `text AREA/FILE` a text file's
//!   lines; `bytes AREA/FILE PLACE COUNT` some bytes in hexadecimal; `same AREA AREA` whether both
//!   have the same files. There `data` is the four data areas as one.
//! - `stops PICK.. : WORD..`: the command is stopped behind each number of device calls in turn,
//!   each over a copy of the site. Over what each stop leaves by each pick (`MemVault::stopped`),
//!   the lines `~ LINE` that follow are done. Each result of theirs is printed once, behind `times`
//!   and how often it came, and at last `calls` and how many numbers of calls were tried.
//!
//! A line of another form prints `bad line` and its number.
#![tactic(auto)]

mod lines;
mod script;
mod stage;
mod stops;

use std::io::{self, ErrorKind, Write};
use stops::play;

fn main(rt: HostRuntime) -> io::Result<()> {
    let text = io::read_to_string(rt.alloc(), rt.reader())?;
    match play(&rt, rt.alloc(), text.as_str()) {
        Ok(printed) => io::writer(&rt).write_all(&printed),
        Err(_) => Err(ErrorKind::OutOfMemory.into()),
    }
}
