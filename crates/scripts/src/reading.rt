//! A script read line by line.

ghost use Rattle.std.specs.Prelude.{◌≡◌, ◌<◌, ◌^◌, length, Some, IfOk};
ghost use Rattle.std.specs.List.{list_any};
ghost use Rattle.scripts.specs.Draft.{has_worker, is_taken};
ghost use Rattle.scripts.specs.Named.{backups_named};
ghost use Rattle.scripts.specs.Reasons.{why_worker, why_command, why_says};
ghost use Rattle.scripts.specs.Script.{ScriptAnswer};
ghost use Rattle.scripts.specs.Inside.{said, KnowsTaken, JudgedAnswer, DraftAnswer, IsLine};

use crate::cuts::has_allowed_bytes;
use crate::draft::Draft;
use crate::meaning::{Said, meaning};
use crate::script::{Command, SCRIPT_LIMIT, Script, Task};
use crate::taken::has_name;
use crate::why::{ScriptFault, Why};
use lsn_core::NoMemory;
use lsn_core::byte_words::{behind, place_of};
use std::alloc::Global;

/// Whether a worker has this name.
fn has_worker(tasks: &[Task], name: &[u8]) -> bool
    ensures { result ≡ has_worker tasks.now name.now }
{
    tasks.iter().any(|task| name == task.name.as_bytes())
}

/// Why a worker of this name is refused behind those tasks, where there may be so many workers.
fn why_worker(workers: usize, tasks: &[Task], name: &[u8]) -> Option<Why>
    ensures { result ≡ why_worker workers tasks.now name.now }
{
    if has_worker(tasks, name) {
        return Some(Why::Twice);
    }
    if tasks.len() < workers {
        return None;
    }
    Some(Why::Many)
}

/// Whether an earlier worker names this backup.
fn is_taken(draft: &Draft, name: &[u8]) -> bool
    requires { KnowsTaken draft.now }
    ensures { result ≡ is_taken draft.now.tasks.items name.now }
{
    has_name(&draft.taken, name)
}

/// Whether a command names such a backup.
fn names_taken(draft: &Draft, command: &Command) -> bool
    requires { KnowsTaken draft.now }
    ensures { result
        ≡ list_any (is_taken draft.now.tasks.items) (backups_named command.now) }
{
    match command {
        Command::Full(name) => is_taken(draft, name.as_bytes()),
        Command::Incr(name, prior) => {
            is_taken(draft, name.as_bytes()) || is_taken(draft, prior.as_bytes())
        }
        Command::Insert(_)
        | Command::Grow(_, _, _)
        | Command::Checkpoint
        | Command::Flush(_)
        | Command::Summarise => false,
    }
}

/// Why a command is refused behind what was read.
fn why_command(draft: &Draft, command: &Command) -> Option<Why>
    requires { KnowsTaken draft.now }
    ensures { result ≡ why_command draft.now.tasks.items command.now }
{
    if draft.tasks.is_empty() {
        return Some(Why::NoWorker);
    }
    if names_taken(draft, command) {
        return Some(Why::Twice);
    }
    None
}

/// Why a line is refused that says this behind what was read.
fn why_said(workers: usize, draft: &Draft, what: &Said<'_>) -> Option<Why>
    requires { KnowsTaken draft.now }
    ensures { result ≡ why_says workers draft.now.tasks.items (Some (said what.now)) }
{
    match what {
        Said::Nothing => None,
        Said::Worker(name) => why_worker(workers, &draft.tasks, name),
        Said::Does(command) => why_command(draft, command),
    }
}

/// What a line says that ends at this byte of the script and stands behind what was read, or why it
/// is refused.
fn judged<'a>(
    alloc: Global,
    workers: usize,
    draft: &Draft,
    end: usize,
    line: &'a [u8],
) -> Result<Result<Said<'a>, Why>, NoMemory>
    requires { KnowsTaken draft.now }
    ensures { IfOk result (JudgedAnswer workers draft.now.tasks.items end line.now) }
{
    if end > SCRIPT_LIMIT {
        return Ok(Err(Why::Long));
    }
    if !has_allowed_bytes(line) {
        return Ok(Err(Why::Bytes));
    }
    let Some(what) = meaning(alloc, line)? else {
        return Ok(Err(Why::Word));
    };
    match why_said(workers, draft, &what) {
        Some(why) => Ok(Err(why)),
        None => Ok(Ok(what)),
    }
}

/// Reads the line of this number, which ends at this byte of the script.
fn read_line(
    alloc: Global,
    workers: usize,
    draft: &mut Draft,
    line: &[u8],
    end: usize,
    number: u32,
) -> Result<(), ScriptFault>
    requires { KnowsTaken draft.old }
    ensures { DraftAnswer workers draft.old draft.new end number line.now result }
{
    match judged(alloc, workers, draft, end, line)? {
        Ok(what) => Ok(draft.keep(alloc, number, what)?),
        Err(why) => Err(ScriptFault::Line(number, why)),
    }
}

/// The line at a place, and the place behind it and its line feed, which the last line may lack.
fn line_at(bytes: &[u8], at: usize) -> (&[u8], usize)
    requires { at < length bytes.now }
    ensures { IsLine bytes.now at result.0.now result.1 }
{
    let rest = behind(bytes, at);
    match place_of(b'\n', rest) {
        Some(size) => (&rest[..size], at + size + 1),
        None => (rest, bytes.len()),
    }
}

/// Reads a script of at most so many workers (profile). Its lines are `worker NAME`, and behind it
/// this worker's: `create FORK`, `truncate FORK COUNT` of a main fork, `drop DATABASE/RELATION`,
/// `change ITEM..` of 1 to 16 items, each `FORK@BLOCK=LOWER,UPPER,FILL` or
/// `FORK@BLOCK+PLACE:HEX,PLACE:HEX..`, `grow FORK@BLOCK COUNT LOWER,UPPER,FILL` of 1 to 65,536
/// blocks, `checkpoint`, `flush COUNT` of 1 to 1,000,000 pages, `summarise`, `full NAME`, and
/// `incr NAME PRIOR` of two names that differ; words stand between spaces and tabs, and empty lines
/// and lines that begin with `#` say nothing. No backup is named by two workers. Where lines are
/// refused, the first of them is answered, counted from 1, with the first of its reasons. The bytes
/// are fewer than 2^32, so that a line's number fits.
pub fn read_script(alloc: Global, workers: usize, bytes: &[u8]) -> Result<Script, ScriptFault>
    requires { length bytes.now < 2 ^ 32 }
    ensures { ScriptAnswer workers bytes.now result }
{
    let mut draft = Draft::new(alloc);
    let mut at = 0;
    let mut number = 0;
    while at < bytes.len() {
        let (line, end) = line_at(bytes, at);
        number += 1;
        match read_line(alloc, workers, &mut draft, line, end, number) {
            Ok(()) => at = end,
            Err(fault) => return Err(fault),
        }
    }
    Ok(Script::from_vec(draft.tasks))
}
