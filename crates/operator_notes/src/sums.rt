//! Notes on the summaries that are kept.

use crate::lines::note;
use lsn_core::{Lsn, NoMemory, Text, lsn_text};
use std::alloc::Global;

/// No kept summary covers a place.
pub fn gap_note(alloc: Global, at: Lsn) -> Result<Text, NoMemory> {
    let at = lsn_text(alloc, at)?;
    note(
        alloc,
        &[b"no summary in sums covers ", at.as_bytes()],
        b"give a range that the summaries in sums cover; a line summarise of a script adds what is missing up to the last checkpoint",
    )
}

/// No kept summary covers a place that an incremental backup needs, and later ones are kept.
pub fn incr_gap_note(alloc: Global, at: Lsn) -> Result<Text, NoMemory> {
    let at = lsn_text(alloc, at)?;
    note(
        alloc,
        &[
            b"no summary in sums covers ",
            at.as_bytes(),
            b", which an incremental backup needs",
        ],
        b"take a full backup; or remove the files in sums, and a line summarise or incr makes all of them anew; run --keep-days K keeps them for K days",
    )
}
