//! The lines of a script, each with those that belong to it.

use lsn_core::AreaFault;
use std::alloc::Global;

/// What a line prints. An area fails here only for want of memory, so that `Failed` says that the
/// line is of no form.
pub type Printed = Result<Vec<u8>, AreaFault>;

/// A line is of no form.
pub const BAD: AreaFault = AreaFault::Failed;

/// A line, and what stands below it.
#[derive(Drop)]
pub struct Step<'a> {
    /// Counted from 1.
    pub number: usize,
    pub line: &'a str,
    /// The lines `< TEXT`.
    pub input: String,
    /// The lines `~ LINE`, a script of their own.
    pub after: String,
}

/// Takes a line with this mark into a text, and says whether it has it.
fn takes(text: &mut String, line: &str, mark: &str) -> Result<bool, AreaFault> {
    let Some(line) = line.strip_prefix(mark) else {
        return Ok(false);
    };
    text.push_str(line)?;
    text.push('\n')?;
    Ok(true)
}

/// The steps of a script.
pub fn steps_in(alloc: Global, text: &str) -> Result<Vec<Step<'_>>, AreaFault> {
    let mut steps: Vec<Step> = Vec::new(alloc);
    for (before, line) in text.lines().enumerate() {
        let taken = match steps.last_mut() {
            Some(step) => takes(&mut step.input, line, "< ")?
                || takes(&mut step.after, line, "~ ")?,
            None => false,
        };
        if !taken {
            let (number, input, after) = (
                before.saturating_add(1),
                String::new(alloc),
                String::new(alloc),
            );
            steps.push(Step {
                number,
                line,
                input,
                after,
            })?;
        }
    }
    Ok(steps)
}

/// The first word of a line, and what stands behind the space after it.
pub fn cut(line: &str) -> (&str, &str) {
    line.split_once(' ').unwrap_or((line, ""))
}

/// The area and the file that a path names: the names of backups and outputs have two words.
pub fn place_in(path: &str) -> Option<(&str, &str)> {
    let (area, file) = path.split_once('/')?;
    if area != "b" && area != "o" {
        return Some((area, file));
    }
    let (_, file) = file.split_once('/')?;
    let area = path.strip_suffix(file)?.strip_suffix('/')?;
    Some((area, file))
}
