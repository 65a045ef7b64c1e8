//! The parts of a drill, each behind those before it.

ghost use Rattle.std.specs.Prelude.{◌≡◌, ◌≤◌, ◌+◌, ◌<◌, ◌^◌, [], ℕ, IfErr, OnOk};
ghost use Rattle.vault.specs.Site.{AllHome};
ghost use Rattle.command_line.specs.Options.{IsInRange};
ghost use Rattle.command_base.specs.Outside.{of_site, Works};
ghost use Rattle.store_commands.specs.Init.{init_writes, InitRan};
ghost use Rattle.pgbackup_cli.specs.drill_command.Clearing.{AreUnclear};
ghost use Rattle.pgbackup_cli.specs.drill_command.Drill.{areas_cleared, drill_settings, drill_writes};
ghost use Rattle.pgbackup_cli.specs.drill_command.Drill.{HasLooked, HasBegun, HasRun, HasRestored};
ghost use Rattle.pgbackup_cli.specs.drill_command.Inside.{drill_options, Steps};

use crate::drill_command::clearing::{Unclear, check_clear};
use crate::drill_command::report::DrillFault;
use backup_sending::OpenGate;
use chain_commands::restore;
use command_base::{Status, names_of};
use command_line::{InitOptions, MemberNames};
use drill_script::make_script;
use lsn_core::{Lsn, SegSize};
use run_answers::run_status;
use run_command::run_script;
use std::alloc::Global;
use std::sync::Wait;
use std::thread::Threads;
use store_commands::{InitFault, ReplayReport, init};
use vault::{Clock, Site};

/// The days for which a drill keeps summaries: it keeps all.
const KEEP_ALL: u32 = 0;

/// How many frames each partition has (profile).
const FRAMES: u32 = 64;

/// How many blocks of a fork a file has (profile).
pub const RELSEG: u32 = 64;

/// Whether the areas that have to be empty are (profile).
fn check_areas<S: Site>(alloc: Global, site: &mut S) -> Result<(), Unclear>
    requires home { AllHome (S.areas site.old) }
    ensures looked { OnOk result
        (HasLooked (of_site S.Site site.old) (of_site S.Site site.new)) }
    ensures unclear { IfErr result (AreUnclear areas_cleared (of_site S.Site site.old)
        (of_site S.Site site.new)) }
    ensures reads { Works [] (of_site S.Site site.old) (of_site S.Site site.new) }
{
    check_clear(
        alloc,
        site,
        &[
            b"wal",
            b"sums",
            b"b/drill_0",
            b"b/drill_1",
            b"b/drill_2",
            b"o/drill",
        ],
    )
}

/// What makes the store of a number.
fn drill_options(n: u32) -> InitOptions
    ensures options { result ≡ drill_options n }
    ensures range { IsInRange result }
{
    InitOptions {
        segment: SegSize::new(1),
        relseg: Some(RELSEG),
        system: Some(u64::from(n) + 1),
    }
}

/// Makes the store of a number. The clock isn't asked.
fn make_store<S: Site, C: Clock>(
    alloc: Global,
    n: u32,
    site: &mut S,
    clock: &mut C,
) -> Result<Lsn, InitFault>
    requires home { AllHome (S.areas site.old) }
    ensures wrote { Works init_writes (of_site S.Site site.old) (of_site S.Site site.new) }
    ensures made { InitRan (drill_settings n) (of_site S.Site site.old) (of_site S.Site site.new)
        result }
{
    init(alloc, drill_options(n), site, clock)
}

/// Makes the store of a number, where the areas that have to be empty are.
fn begin<S: Site, C: Clock>(
    alloc: Global,
    n: u32,
    site: &mut S,
    clock: &mut C,
) -> Result<(), DrillFault>
    requires home { AllHome (S.areas site.old) }
    ensures answer { (when : ℕ) → Steps n when
        (λ done. HasBegun n (of_site S.Site site.old) (of_site S.Site site.new))
        (of_site S.Site site.old) (of_site S.Site site.new) result }
    ensures writes { Works (drill_writes n) (of_site S.Site site.old) (of_site S.Site site.new) }
{
    check_areas(alloc, site)?;
    match make_store(alloc, n, site, clock) {
        Ok(_) => Ok(()),
        Err(why) => Err(DrillFault::Init(Err(why))),
    }
}

/// Runs the script of a number on its new store, at a moment.
fn run_drilled<R: Threads + Wait + Sync, S: Site, C: Clock>(
    rt: &R,
    alloc: Global,
    n: u32,
    when: u64,
    site: &mut S,
    clock: &mut C,
) -> Result<(), DrillFault>
    requires when { when ≤ 253402207199 }
    requires home { AllHome (S.areas site.old) }
    ensures answer { Steps n when
        (λ done. HasRun n when (of_site S.Site site.old) (of_site S.Site site.new))
        (of_site S.Site site.old) (of_site S.Site site.new) result }
    ensures writes { Works (drill_writes n) (of_site S.Site site.old) (of_site S.Site site.new) }
{
    begin(alloc, n, site, clock)?;
    let script = make_script(alloc, n)?;
    let came = run_script(rt, alloc, FRAMES, KEEP_ALL, script, when, site, &OpenGate);
    match run_status(&came) {
        Status::Done => Ok(()),
        _ => Err(DrillFault::Run(came)),
    }
}

/// Restores the chain of the backups that the script takes, to the WAL's end.
pub fn restore_drilled<R: Threads + Wait + Sync, S: Site, C: Clock>(
    rt: &R,
    alloc: Global,
    n: u32,
    when: u64,
    site: &mut S,
    clock: &mut C,
) -> Result<ReplayReport, DrillFault>
    requires when { when ≤ 253402207199 }
    requires home { AllHome (S.areas site.old) }
    ensures answer { Steps n when
        (HasRestored n when (of_site S.Site site.old) (of_site S.Site site.new))
        (of_site S.Site site.old) (of_site S.Site site.new) result }
    ensures writes { Works (drill_writes n) (of_site S.Site site.old) (of_site S.Site site.new) }
{
    run_drilled(rt, alloc, n, when, site, clock)?;
    let names = names_of(alloc, &[b"drill_0", b"drill_1", b"drill_2"])?;
    let members = MemberNames { names: &names };
    match restore(alloc, None, b"drill", &members, site) {
        Ok(restored) => Ok(restored),
        Err(why) => Err(DrillFault::Restore(Err(why))),
    }
}
