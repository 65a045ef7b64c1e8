//! A backup label, and its text.

ghost use Rattle.std.specs.Prelude.{◌≡◌, ◌≤◌, ◌++◌, IfOk, OnOk};
ghost use Rattle.lsn_core.specs.Names.{segment_number};
ghost use Rattle.lsn_core.specs.Sizes.{most_segments};
ghost use Rattle.backup_label.specs.Label.{line_text, start_text, start_line, place_line};
ghost use Rattle.backup_label.specs.Label.{number_line, prior_text, label_text};

use crate::keys::{
    CHECKPOINT, FROM, LABEL, METHOD, PRIOR_START, PRIOR_TIMELINE, START, TIME, TIMELINE,
};
use lsn_core::{Lsn, NoMemory, SegSize, Text, lsn_text, segment_name, segment_of};
use std::alloc::Global;

/// What the label of a backup tells (PostgreSQL manual, Making a Base Backup Using the Low Level
/// API).
#[derive(Debug, Drop)]
pub struct Label {
    /// Where replay of the backup starts: its redo point.
    pub start: Lsn,
    /// Where the entry of its checkpoint starts.
    pub checkpoint: Lsn,
    /// When it was begun, as `time_text` writes it. Reading takes any text.
    pub time: Text,
    /// Its name.
    pub label: Text,
    /// The timeline on which it was begun.
    pub timeline: u32,
    /// Of an incremental backup, where its prior starts and on which timeline.
    pub prior: Option<(Lsn, u32)>,
}

/// Puts a line of a key and a value behind a text.
#[tactic(auto, unfolding(crate::specs::Label::line_text))]
fn add_line(text: &mut Vec<u8>, key: &[u8], value: &[u8]) -> Result<(), NoMemory>
    ensures { OnOk result (text.new.items ≡ text.old.items ++ line_text key.now value.now) }
{
    text.extend_from_slice(key)?;
    text.extend_from_slice(value)?;
    text.push(b'\n')?;
    Ok(())
}

/// A place, and the segment file that has it.
#[tactic(auto, unfolding(crate::specs::Label::start_text))]
fn start_value(alloc: Global, start: Lsn, size: SegSize) -> Result<Vec<u8>, NoMemory>
    requires { segment_number start.0 size ≤ most_segments }
    ensures { IfOk result (λ v. v.items ≡ start_text start.0 size) }
{
    let mut value = lsn_text(alloc, start)?.into_vec();
    value.extend_from_slice(b" (file ")?;
    value.extend_from_slice(segment_name(alloc, segment_of(start, size), size)?.as_bytes())?;
    value.extend_from_slice(b")")?;
    Ok(value)
}

/// Puts the line of a place and its segment file behind a text.
fn add_start(alloc: Global, text: &mut Vec<u8>, start: Lsn, size: SegSize) -> Result<(), NoMemory>
    requires { segment_number start.0 size ≤ most_segments }
    ensures { OnOk result (text.new.items ≡ text.old.items ++ start_line start.0 size) }
{
    add_line(text, START, &start_value(alloc, start, size)?)
}

/// Puts a line of a key and a place behind a text.
fn add_place(alloc: Global, text: &mut Vec<u8>, key: &[u8], at: Lsn) -> Result<(), NoMemory>
    ensures { OnOk result (text.new.items ≡ text.old.items ++ place_line key.now at.0) }
{
    add_line(text, key, lsn_text(alloc, at)?.as_bytes())
}

/// Puts a line of a key and a number behind a text.
fn add_number(alloc: Global, text: &mut Vec<u8>, key: &[u8], n: u32) -> Result<(), NoMemory>
    ensures { OnOk result (text.new.items ≡ text.old.items ++ number_line key.now n) }
{
    add_line(text, key, format!(in alloc; "{n}")?.as_bytes())
}

/// Puts the lines behind a text that only an incremental backup has.
fn add_prior(alloc: Global, text: &mut Vec<u8>, prior: Option<(Lsn, u32)>) -> Result<(), NoMemory>
    ensures { OnOk result (text.new.items ≡ text.old.items ++ prior_text prior) }
{
    let Some((start, timeline)) = prior else {
        return Ok(());
    };
    add_place(alloc, text, PRIOR_START, start)?;
    add_number(alloc, text, PRIOR_TIMELINE, timeline)?;
    Ok(())
}

/// The text of a label, over a WAL of this segment size: the file of line 1 is that of its start on
/// timeline 1, which is in a segment numbered at most 1,048,576.
pub fn write_label(alloc: Global, label: &Label, size: SegSize) -> Result<Vec<u8>, NoMemory>
    requires { segment_number label.now.start.0 size ≤ most_segments }
    ensures { IfOk result (λ v. v.items ≡ label_text label.now size) }
{
    let mut text = Vec::new(alloc);
    add_start(alloc, &mut text, label.start, size)?;
    add_place(alloc, &mut text, CHECKPOINT, label.checkpoint)?;
    add_line(&mut text, METHOD, b"streamed")?;
    add_line(&mut text, FROM, b"primary")?;
    add_line(&mut text, TIME, label.time.as_bytes())?;
    add_line(&mut text, LABEL, label.label.as_bytes())?;
    add_number(alloc, &mut text, TIMELINE, label.timeline)?;
    add_prior(alloc, &mut text, label.prior)?;
    Ok(text)
}
