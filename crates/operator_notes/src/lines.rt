//! The two lines of a note.

use command_base::joined;
use lsn_core::{NoMemory, Text};
use std::alloc::Global;

/// What was found, in parts that stand behind each other, and what to do next.
pub fn note(alloc: Global, found: &[&[u8]], next: &[u8]) -> Result<Text, NoMemory> {
    let found = joined(alloc, found)?;
    let lines = [
        b"pgbackup: error: ".as_slice(),
        found.as_bytes(),
        b"\npgbackup: hint: ",
        next,
        b"\n",
    ];
    joined(alloc, &lines)
}
