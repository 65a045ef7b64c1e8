//! `run`: the script of the input, run on a store.

ghost use Rattle.std.specs.Prelude.{◌≡◌, ◌+◌, ◌≤◌, length, IfOk, IfErr};
ghost use Rattle.vault.specs.Site.{AllHome};
ghost use Rattle.scripts.specs.Apart.{AreApart};
ghost use Rattle.scripts.specs.Reasons.{script_limit};
ghost use Rattle.summary_store.specs.Expiry.{age_limit};
ghost use Rattle.command_base.specs.Outside.{of_site, of_all, Works};
ghost use Rattle.run_command.specs.Input.{TakesAtMost};
ghost use Rattle.run_command.specs.Run.{HasScript, NamePriors, run_asks, RunDoes, RunOfScript};
ghost use Rattle.run_command.specs.Run.{run_workers};
ghost use Rattle.run_command.specs.Inner.{RefusesScript};

use crate::input::read_input;
use crate::lending::{give_others, give_store, run_names, take_run};
use crate::running::run_areas;
use crate::seats::work_of;
use backup_sending::{Gate, OpenGate};
use run_answers::{RunFault, RunReport};
use scripts::{MOST_WORKERS, Script, ScriptFault, read_script};
use std::alloc::Global;
use std::sync::Wait;
use std::thread::Threads;
use vault::{Clock, Held, Site, Source};

/// Runs a script, read or made, on the store of a site with so many frames of each partition and
/// summaries that are kept for so many days, or all where these are 0, each worker in a thread of
/// its own, with a gate that is called behind each of its steps, with no lock held. The moment is
/// in seconds since 1970 (profile: before the year 10000). A script that was read meets what is
/// asked of its tasks. All memory that a refusal would need is taken before the areas are, and
/// these are given back in any case. It errs where there is no memory, an area isn't handed out or
/// no store can be begun.
pub fn run_script<R: Threads + Wait + Sync, S: Site, G: Gate>(
    rt: &R,
    alloc: Global,
    frames: u32,
    days: u32,
    script: Script,
    when: u64,
    site: &mut S,
    gate: &G,
) -> Result<RunReport, RunFault>
    requires apart { AreApart script }
    requires few { length script ≤ run_workers }
    requires when { when ≤ 253402207199 }
    requires priors { NamePriors script }
    requires home { AllHome (S.areas site.old) }
    ensures site { Works (run_asks script) (of_site S.Site site.old) (of_site S.Site site.new) }
    ensures answer { RunOfScript when (age_limit days when) script (of_site S.Site site.old)
        (of_site S.Site site.new)
        result }
{
    let (work, backups) = work_of(alloc, script)?;
    let names = run_names(alloc, backups)?;
    let (held, sums, names, areas) = take_run(alloc, site, names)?;
    let Held { name, area: sums } = sums;
    let (held, sums, areas, answer) = run_areas(
        rt, alloc, areas, sums, frames, held, work, gate, days, when,
    );
    give_store(site, names, areas);
    give_others(site, held, Held { name, area: sums });
    match answer {
        Ok(report) => Ok(report),
        Err(why) => Err(RunFault::Begin(why)),
    }
}

/// The script of the input.
fn script_of<I: Source>(alloc: Global, input: &mut I) -> Result<Script, RunFault>
    ensures script { IfOk result (HasScript (I.left input.old) (I.left input.new)) }
    ensures few { IfOk result (λ script. length script ≤ run_workers) }
    ensures apart { IfOk result AreApart }
    ensures refused { IfErr result (RefusesScript I.Source input.old input.new) }
    ensures taken { TakesAtMost (script_limit + 1) (I.left input.old) (I.left input.new) }
    ensures later { I.faults input.old ≤ I.faults input.new }
{
    let bytes = match read_input(alloc, input) {
        Ok(bytes) => bytes,
        Err(fault) => return Err(RunFault::Input(fault)),
    };
    match read_script(alloc, MOST_WORKERS, &bytes) {
        Ok(script) => Ok(script),
        Err(ScriptFault::Line(line, why)) => Err(RunFault::Script(line, why)),
        Err(ScriptFault::NoMemory) => Err(RunFault::NoMemory),
    }
}

/// `run`: reads the clock and the script of the input, and runs it on the store of a site with so
/// many frames of each partition and summaries that are kept for so many days, each worker in a
/// thread of its own.
pub fn run<R: Threads + Wait + Sync, S: Site, I: Source, C: Clock>(
    rt: &R,
    alloc: Global,
    frames: u32,
    days: u32,
    site: &mut S,
    input: &mut I,
    clock: &mut C,
) -> Result<RunReport, RunFault>
    requires { AllHome (S.areas site.old) }
    ensures does { RunDoes days (of_all S.Site I.Source C.Clock site.old input.old clock.old)
        (of_all S.Site I.Source C.Clock site.new input.new clock.new) result }
    ensures home { AllHome (S.areas site.new) }
{
    run_gated(rt, alloc, frames, days, site, input, clock, &OpenGate)
}

/// The same, with a gate that is called behind each step of a worker, with no lock held.
pub fn run_gated<R: Threads + Wait + Sync, S: Site, I: Source, C: Clock, G: Gate>(
    rt: &R,
    alloc: Global,
    frames: u32,
    days: u32,
    site: &mut S,
    input: &mut I,
    clock: &mut C,
    gate: &G,
) -> Result<RunReport, RunFault>
    requires { AllHome (S.areas site.old) }
    ensures does { RunDoes days (of_all S.Site I.Source C.Clock site.old input.old clock.old)
        (of_all S.Site I.Source C.Clock site.new input.new clock.new) result }
    ensures home { AllHome (S.areas site.new) }
{
    let when = clock.now();
    let script = script_of(alloc, input)?;
    run_script(rt, alloc, frames, days, script, when, site, gate)
}
