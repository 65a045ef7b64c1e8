//! The program: `main` hands the function `pgbackup` the words of the command line and the system's
//! areas, streams and clock, and ends with its status.
#![tactic(auto)]

use lsn_core::{NoMemory, Text};
use operator_notes::note_of;
use pgbackup_cli::command_answers::Answer;
use pgbackup_cli::{Status, answered};
use progress::{Progress, is_wanted};
use std::io::{ErrorKind, IsTerminal};
use std::process::ExitCode;
use std::sync::Wait;
use std::thread::Threads;
use std::{env, str};
use vault_os::{OsClock, OsSink, OsSite, OsSource};

/// The words of the command line. A word that isn't UTF-8 leaves none, which no command takes.
fn words_of(rt: &HostRuntime) -> Result<Vec<Text>, NoMemory> {
    let mut words = Vec::new(rt.alloc());
    let args = match env::args(rt) {
        Ok(args) => args,
        Err(error) if error.kind() == ErrorKind::OutOfMemory => return Err(NoMemory),
        Err(_) => return Ok(words),
    };
    for arg in args.skip(1) {
        words.push(Text::from_vec(arg.into_bytes()))?;
    }
    Ok(words)
}

/// The variable of the environment that says whether areas tell how far they have come.
const PROGRESS: &str = "PGBACKUP_PROGRESS";

/// What makes areas tell on standard error how far they have come, where that is wanted.
fn progress_of(rt: &HostRuntime) -> Option<Progress> {
    let word = env::var(rt, PROGRESS).ok();
    if !is_wanted(word.as_deref(), rt.stderr().is_terminal()) {
        return None;
    }
    Progress::new(rt.clone().ok()?)
}

/// Does what the words of the command line ask. What waits for a lock does so by the handle
/// `waits`.
fn run_words(rt: &HostRuntime, waits: &(impl Threads + Wait + Sync)) -> Result<Status, NoMemory> {
    let words = words_of(rt)?;
    let mut site = OsSite::new(rt.clone()?, progress_of(rt));
    let mut input = OsSource::new(rt.clone()?);
    let mut out = OsSink::new(rt.clone()?);
    let mut clock = OsClock::new(rt.clone()?);
    let (answer, status) = answered(
        waits,
        rt.alloc(),
        &words,
        &mut site,
        &mut input,
        &mut out,
        &mut clock,
    );
    if status == Status::Device {
        say(rt, site.said().or(input.said()).or(out.said()));
    }
    advise(rt, &words, &answer);
    Ok(status)
}

/// Prints what the system said of a device that failed, as one line on standard error.
fn say(rt: &HostRuntime, said: Option<&str>) {
    if let Some(said) = said {
        let _ = eprintln!(rt; "pgbackup: {said}");
    }
}

/// Prints what was found, and what to do next, on standard error.
fn advise(rt: &HostRuntime, words: &[Text], answer: &Answer) {
    let Ok(note) = note_of(rt.alloc(), words, answer) else {
        return;
    };
    if let Ok(lines) = str::from_utf8(note.as_bytes()) {
        let _ = eprint!(rt; "{lines}");
    }
}

fn main(rt: HostRuntime) -> ExitCode {
    let Ok(status) = run_words(&rt, &rt) else {
        return ExitCode::from(Status::Memory.code());
    };
    ExitCode::from(status.code())
}
