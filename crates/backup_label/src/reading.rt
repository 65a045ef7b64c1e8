//! Reading a backup label, line by line.

ghost use Rattle.std.specs.Prelude.{◌≡◌};
ghost use Rattle.backup_label.specs.declared.reading.LabelFault.TheVariants.{NoMemory as OutOfMemory};
ghost use Rattle.backup_label.specs.Label.{LabelAnswer};
ghost use Rattle.backup_label.specs.Inside.{seen_answer, FrontAnswer, MiddleAnswer, PriorAnswer};

use crate::keys::{CHECKPOINT, FROM, LABEL, METHOD, PRIOR_START, PRIOR_TIMELINE, TIME, TIMELINE};
use crate::label::Label;
use crate::lines::{fixed_line, place_line, start_line, timeline_line, value_line};
use lsn_core::{Lsn, NoMemory, Text};
use std::alloc::Global;

/// Why a text is no label's.
#[derive(Clone, Copy, Debug, PartialEq, Eq)]
pub enum LabelFault {
    /// The line of this number, from 1, is the first outside the grammar; a line that is missing
    /// has the number that it would have.
    Line(u32),
    /// Memory ran out.
    NoMemory,
}

impl From<NoMemory> for LabelFault {
    ghost from_gives = { λ _ e. e ≡ OutOfMemory };

    fn from(_: NoMemory) -> Self {
        LabelFault::NoMemory
    }
}

/// Lines 1 to 4: the start and the checkpoint, and what stands behind them.
fn front_lines(text: &[u8]) -> Result<(Lsn, Lsn, &[u8]), LabelFault>
    ensures { FrontAnswer text.now (seen_answer (λ x. (x.0, x.1, x.2.now)) result) }
{
    let Some((start, text)) = start_line(text) else {
        return Err(LabelFault::Line(1));
    };
    let Some((checkpoint, text)) = place_line(CHECKPOINT, text) else {
        return Err(LabelFault::Line(2));
    };
    let Some(text) = fixed_line(METHOD, b"streamed", text) else {
        return Err(LabelFault::Line(3));
    };
    let Some(text) = fixed_line(FROM, b"primary", text) else {
        return Err(LabelFault::Line(4));
    };
    Ok((start, checkpoint, text))
}

/// Lines 5 to 7: time, label and timeline, and what stands behind them.
fn middle_lines(text: &[u8]) -> Result<(&[u8], &[u8], u32, &[u8]), LabelFault>
    ensures { MiddleAnswer text.now (seen_answer (λ x. (x.0.now, x.1.now, x.2, x.3.now)) result) }
{
    let Some((time, text)) = value_line(TIME, text) else {
        return Err(LabelFault::Line(5));
    };
    let Some((label, text)) = value_line(LABEL, text) else {
        return Err(LabelFault::Line(6));
    };
    let Some((timeline, text)) = timeline_line(TIMELINE, text) else {
        return Err(LabelFault::Line(7));
    };
    Ok((time, label, timeline, text))
}

/// Lines 8 and 9, where anything stands there; and nothing stands behind them.
fn prior_lines(text: &[u8]) -> Result<Option<(Lsn, u32)>, LabelFault>
    ensures { PriorAnswer text.now result }
{
    if text.is_empty() {
        return Ok(None);
    }
    let Some((start, text)) = place_line(PRIOR_START, text) else {
        return Err(LabelFault::Line(8));
    };
    let Some((timeline, text)) = timeline_line(PRIOR_TIMELINE, text) else {
        return Err(LabelFault::Line(9));
    };
    if !text.is_empty() {
        return Err(LabelFault::Line(10));
    }
    Ok(Some((start, timeline)))
}

/// The label that a text is, or the first of its lines that is outside the grammar: the seven lines
/// of a backup in order, each with a line end, and of an incremental one two more. Any 24
/// hexadecimal digits are taken as the segment file, and any text as time and label.
pub fn read_label(alloc: Global, bytes: &[u8]) -> Result<Label, LabelFault>
    ensures { LabelAnswer bytes.now result }
{
    let (start, checkpoint, text) = front_lines(bytes)?;
    let (time, label, timeline, text) = middle_lines(text)?;
    let prior = prior_lines(text)?;
    Ok(Label {
        start,
        checkpoint,
        time: Text::copied(alloc, time)?,
        label: Text::copied(alloc, label)?,
        timeline,
        prior,
    })
}
