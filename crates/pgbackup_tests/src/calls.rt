//! Calls of the program over a site in memory.

ghost use Rattle.vault.specs.Site.{AllHome};

use lsn_core::{NoMemory, Text};
use memory_vault::{MemSink, MemSite, MemSource, MemVault, SetClock};
use pgbackup_cli::{Status, pgbackup};
use std::alloc::Global;
use std::sync::Wait;
use std::thread::Threads;
use test_areas::Wrong;
use vault::Site;

/// A moment of 2023, in seconds.
const MOMENT: u64 = 1_700_000_000;

/// The words of a command line, which stand between spaces.
pub fn words_in(alloc: Global, line: &str) -> Result<Vec<Text>, NoMemory> {
    let mut words = Vec::new(alloc);
    for word in line.split_whitespace() {
        words.push(Text::copied(alloc, word.as_bytes())?)?;
    }
    Ok(words)
}

/// Which call of the input and of the sink is to fail, counted from 1; 0 is none.
#[derive(Clone, Copy)]
pub struct Failing {
    /// The call of the input.
    pub input: u64,
    /// The call of the sink.
    pub sink: u64,
}

/// No call fails.
pub const NONE: Failing = Failing { input: 0, sink: 0 };

/// The status of a call of the program, and all that it prints.
pub fn run<S: Site>(
    rt: &(impl Threads + Wait + Sync),
    alloc: Global,
    site: &mut S,
    line: &str,
    script: &str,
    failing: Failing,
) -> Result<(Status, Vec<u8>), NoMemory>
    requires { AllHome (S.areas site.old) }
    ensures { AllHome (S.areas site.new) }
{
    let words = words_in(alloc, line)?;
    let mut input = MemSource::new(alloc, script.as_bytes(), &[failing.input])?;
    let mut out = MemSink::new(alloc, &[failing.sink])?;
    let mut clock = SetClock::new(MOMENT);
    let status = pgbackup(rt, alloc, &words, site, &mut input, &mut out, &mut clock);
    Ok((status, Vec::from_slice(alloc, out.bytes())?))
}

/// A call of the program: its words, its input, its status, and all that it prints.
pub type Call<'a> = (&'a str, &'a str, Status, &'a str);

/// A new store with segments of 1 MiB.
pub const INIT: Call<'static> = (
    "init --segment-mib 1 --system-id 7",
    "",
    Status::Done,
    "initialised 0/100060\n",
);

/// Makes a call of the program, and says whether it ends and prints so.
pub fn is_answered<S: Site>(
    rt: &(impl Threads + Wait + Sync),
    alloc: Global,
    site: &mut S,
    call: &Call,
) -> Result<bool, NoMemory>
    requires { AllHome (S.areas site.old) }
    ensures { AllHome (S.areas site.new) }
{
    let (line, script, status, printed) = *call;
    let (ended, out) = run(rt, alloc, site, line, script, NONE)?;
    Ok(ended == status && out.as_slice() == printed.as_bytes())
}

/// Makes calls of the program in turn, over one site. The first one that isn't answered so is the
/// error.
pub fn make_calls<S: Site>(
    rt: &(impl Threads + Wait + Sync),
    alloc: Global,
    site: &mut S,
    calls: &[Call],
) -> Result<(), Wrong>
    requires { AllHome (S.areas site.old) }
    ensures { AllHome (S.areas site.new) }
{
    for (number, call) in calls.iter().enumerate() {
        if !is_answered(rt, alloc, site, call)? {
            return Err(Wrong::Step(number));
        }
    }
    Ok(())
}

/// The words of a run with as few frames as there may be.
pub const FEW_FRAMES: &str = "run --frames 4";

/// The same call, but that a run has as few frames as there may be.
fn in_few_frames<'a>(call: &Call<'a>) -> Call<'a> {
    let (line, script, status, printed) = *call;
    if line == "run" {
        (FEW_FRAMES, script, status, printed)
    } else {
        (line, script, status, printed)
    }
}

/// Makes calls of the program in turn, over one site, of which a run has as few frames as there may
/// be. The first one that isn't answered so is the error.
pub fn make_calls_in_few_frames<S: Site>(
    rt: &(impl Threads + Wait + Sync),
    alloc: Global,
    site: &mut S,
    calls: &[Call],
) -> Result<(), Wrong>
    requires { AllHome (S.areas site.old) }
    ensures { AllHome (S.areas site.new) }
{
    for (number, call) in calls.iter().enumerate() {
        if !is_answered(rt, alloc, site, &in_few_frames(call))? {
            return Err(Wrong::Step(number));
        }
    }
    Ok(())
}

/// Makes calls of the program in turn, over a new site, and takes an area from it.
pub fn take_behind(
    rt: &(impl Threads + Wait + Sync),
    alloc: Global,
    calls: &[Call],
    area: &[u8],
) -> Result<MemVault, Wrong> {
    let mut site = MemSite::new(alloc, &[])?;
    make_calls(rt, alloc, &mut site, calls)?;
    Ok(site.take(area)?)
}
