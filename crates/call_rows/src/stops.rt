//! Commands that are stopped, and what is done over what a stop leaves.

use crate::lines::{self, take_all};
use crate::script::{Printed, Step, cut, steps_in};
use crate::stage::{ALL, Stage};
use lsn_core::AreaFault;
use pgbackup_cli::Status;
use std::alloc::Global;
use std::sync::Wait;
use std::thread::Threads;

/// More calls than a command makes here.
const MOST: u64 = 10_000;

/// What was printed over what stops leave, and how often.
type Counts = Vec<(Vec<u8>, u64)>;

/// Counts what was printed.
fn count(counts: &mut Counts, printed: Vec<u8>) -> Result<(), AreaFault> {
    for (known, times) in counts.iter_mut() {
        if known.as_slice() == printed.as_slice() {
            *times = times.saturating_add(1);
            return Ok(());
        }
    }
    counts.push((printed, 1))?;
    Ok(())
}

/// What was counted, and of how many numbers of calls.
fn told(alloc: Global, counts: &Counts, calls: u64) -> Printed {
    let mut out = Vec::new(alloc);
    for (printed, times) in counts {
        out.extend_from_slice(format!(in alloc; "times {times}\n")?.as_bytes())?;
        out.extend_from_slice(printed)?;
    }
    out.extend_from_slice(format!(in alloc; "calls {calls}\n")?.as_bytes())?;
    Ok(out)
}

/// Does lines over what a stop left by each pick, and counts what they print.
fn count_all(
    rt: &(impl Threads + Wait + Sync),
    stopped: &mut Stage,
    picks: &str,
    lines: &str,
    counts: &mut Counts,
) -> Result<(), AreaFault> {
    for pick in picks.split_whitespace() {
        let areas = stopped.left(pick.parse::<u64>().unwrap_or(ALL))?;
        let mut left = stopped.over(&areas, None)?;
        count(counts, take_all(rt, &mut left, lines)?)?;
    }
    Ok(())
}

/// Stops a command behind each number of calls, and tells what is printed over what that leaves.
fn stop_all(
    rt: &(impl Threads + Wait + Sync),
    stage: &mut Stage,
    (picks, words): (&str, &str),
    step: &Step,
) -> Printed {
    let areas = stage.left(ALL)?;
    let mut counts = Vec::new(stage.alloc);
    for calls in 0..MOST {
        let mut stopped = stage.over(&areas, Some(calls))?;
        let (status, _) = stopped.run(rt, words, step.input.as_bytes())?;
        if status != Status::Device {
            return told(stage.alloc, &counts, calls);
        }
        count_all(rt, &mut stopped, picks, step.after.as_str(), &mut counts)?;
    }
    told(stage.alloc, &counts, MOST)
}

/// Does a line of a script.
fn take(rt: &(impl Threads + Wait + Sync), stage: &mut Stage, step: &Step) -> Printed {
    let (word, rest) = cut(step.line);
    match rest.split_once(" : ") {
        Some(asked) if word == "stops" => stop_all(rt, stage, asked, step),
        _ => lines::take(rt, stage, step),
    }
}

/// Does the lines of a script in turn, and gives all that they print.
pub fn play(rt: &(impl Threads + Wait + Sync), alloc: Global, text: &str) -> Printed {
    let mut stage = Stage::new(alloc, "")?;
    let mut out = Vec::new(alloc);
    for step in &steps_in(alloc, text)? {
        out.extend_from_slice(&take(rt, &mut stage, step)?)?;
    }
    Ok(out)
}
