//! Full backups by the lines of a script, run over a site in memory: what is printed, and what stands
//! in the area of the backup. The label and the manifest are those of an independent implementation.

ghost use Rattle.std.specs.Prelude.{IfOk};
ghost use Rattle.vault.specs.Site.{AllHome};
ghost use Rattle.memory_vault.specs.MemorySite.{areas_of};

use crate::calls::{Call, NONE, make_calls, run};
use crate::verify_tests::{F1_LABEL, F1_MANIFEST};
use lsn_core::AreaFault;
use memory_vault::{MemSite, MemVault};
use pgbackup_cli::Status;
use std::alloc::Global;
use std::sync::Wait;
use std::thread::Threads;
use test_areas::{Change, NEW_WAL, SEGMENT, SETTINGS, SiteStep, Wrong, make_all, take_site_steps};
use vault::Site;

const SCRIPT: &str = "worker w
create 5/16384
grow 5/16384@0 10 24,8192,0
full f1
";

/// A store, a backup of it, and a second one into the same area, behind which lines go on.
static CALLS: [Call; 4] = [
    (
        "init --segment-mib 1 --system-id 7",
        "",
        Status::Done,
        "initialised 0/100060\n",
    ),
    (
        "run",
        SCRIPT,
        Status::Done,
        "opened 0/100060
w 2 ok 0/100060 0/100090
w 3 ok 10 0/100090 0/1003B0
w 4 backup 0/1003B0 0/100430
wal 0/100430
",
    ),
    (
        "verify f1",
        "",
        Status::Done,
        "verified f1 full 0/1003B0 0/100430 2\n",
    ),
    (
        "run",
        "worker w\nfull f1\ntruncate 5/16384 2\n",
        Status::Done,
        "opened 0/100430
w 2 refused 41 AreaNotEmpty b/f1
w 3 ok 0/100430 0/100460
wal 0/100460
",
    ),
];

static HELD: [SiteStep; 2] = [
    SiteStep::Holds(b"b/f1", b"backup_label", F1_LABEL),
    SiteStep::Holds(b"b/f1", b"backup_manifest", F1_MANIFEST),
];

#[test]
fn a_backup_is_taken(rt: HostRuntime) -> Result<(), Wrong> {
    let mut site = MemSite::new(rt.alloc(), &[])?;
    make_calls(&rt, rt.alloc(), &mut site, &CALLS)?;
    take_site_steps(rt.alloc(), &mut site, &HELD)
}

/// A file of the WAL is a file too.
static STRAY: [SiteStep; 1] = [SiteStep::Puts(b"b/f1", b"pg_wal/x", b"x")];

static REFUSED: [Call; 3] = [
    (
        "init --segment-mib 1 --system-id 7",
        "",
        Status::Done,
        "initialised 0/100060\n",
    ),
    (
        "run",
        "worker w\nfull f1\nfull f2\nfull f1\n",
        Status::Done,
        "opened 0/100060
w 2 refused 41 AreaNotEmpty b/f1
w 3 backup 0/100060 0/1000E0
w 4 refused 41 AreaNotEmpty b/f1
wal 0/1000E0
",
    ),
    (
        "verify f1",
        "",
        Status::Refused,
        "refused 20 NoManifest f1\n",
    ),
];

#[test]
fn an_area_with_a_file_is_refused(rt: HostRuntime) -> Result<(), Wrong> {
    let mut site = MemSite::new(rt.alloc(), &[])?;
    take_site_steps(rt.alloc(), &mut site, &STRAY)?;
    make_calls(&rt, rt.alloc(), &mut site, &REFUSED)
}

/// An area with the new WAL, of whose calls behind the two that put its files there one fails; 0 is
/// none.
fn new_wal(alloc: Global, fails: u64) -> Result<MemVault, AreaFault> {
    let call = if fails == 0 {
        0
    } else {
        fails.saturating_add(2)
    };
    let mut wal = MemVault::new(alloc, &[call])?;
    let files = [
        Change::Write(b"settings", 0, SETTINGS),
        Change::Write(SEGMENT, 0, &NEW_WAL),
    ];
    make_all(&mut wal, &files)?;
    Ok(wal)
}

/// A site with the new WAL, in which a call of one area fails.
fn new_site(alloc: Global, area: &str, fails: u64) -> Result<MemSite, AreaFault>
    ensures { IfOk result (λ site. AllHome (areas_of site)) }
{
    let is_wal = area == "wal";
    let mut site = MemSite::new(alloc, &[])?;
    site.set(b"wal", new_wal(alloc, if is_wal { fails } else { 0 })?)?;
    if !is_wal {
        site.set(area.as_bytes(), MemVault::new(alloc, &[fails])?)?;
    }
    Ok(site)
}

/// What a run of the script comes to in which a call of an area fails: its status, whether its last
/// line names the area, and whether the backup was answered.
fn failing_run<S: Site>(
    rt: &(impl Threads + Wait + Sync),
    alloc: Global,
    site: &mut S,
    area: &str,
) -> Result<(Status, bool, bool), AreaFault>
    requires { AllHome (S.areas site.old) }
    ensures { AllHome (S.areas site.new) }
{
    let (status, printed) = run(rt, alloc, site, "run", SCRIPT, NONE)?;
    let line = format!(in alloc; "refused 60 DeviceFault {area}\n")?;
    let named = printed.ends_with(line.as_bytes());
    let answer = b"w 4 backup ".as_slice();
    let answered = printed.windows(answer.len()).any(|part| part == answer);
    Ok((status, named, answered))
}

/// Whether a run in which a call of an area fails says so, and leaves no directory that passes a check
/// unless its line was answered. None where the run is done, as it makes fewer calls.
fn is_told(
    rt: &(impl Threads + Wait + Sync),
    alloc: Global,
    area: &str,
    fails: u64,
) -> Result<Option<bool>, AreaFault> {
    let mut site = new_site(alloc, area, fails)?;
    let (status, named, answered) = failing_run(rt, alloc, &mut site, area)?;
    if status == Status::Done {
        return Ok(None);
    }
    let (checked, _) = run(rt, alloc, &mut site, "verify f1", "", NONE)?;
    let told = status == Status::Device && named && (answered || checked != Status::Done);
    Ok(Some(told))
}

/// How many calls a run makes of each area at least: of the WAL's it reads all twice, and of the
/// data areas the first one has the mark of areas that are rebuilt, and the fork.
static AREAS: [(&str, u64); 4] = [("wal", 15), ("data0", 12), ("data1", 4), ("b/f1", 8)];

/// More calls than a run makes of an area.
const MOST_CALLS: u64 = 100;

/// Whether each of the calls of an area fails in turn, at least so many, up to where the run is done.
fn fails_in_turn(
    rt: &(impl Threads + Wait + Sync),
    alloc: Global,
    area: &str,
    least: u64,
) -> Result<bool, AreaFault> {
    for fails in 1..=MOST_CALLS {
        match is_told(rt, alloc, area, fails)? {
            Some(true) => {}
            Some(false) => return Ok(false),
            None => return Ok(fails > least),
        }
    }
    Ok(false)
}

#[test]
fn each_device_call_of_a_backup_fails_in_turn(rt: HostRuntime) -> Result<(), AreaFault> {
    for (area, least) in &AREAS {
        assert!(rt; fails_in_turn(&rt, rt.alloc(), area, *least)?, "{area}");
    }
    Ok(())
}
