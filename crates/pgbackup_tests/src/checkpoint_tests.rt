//! Scripts that grow and cut forks, with checkpoints and flushes between, run over a site in memory,
//! and the data areas that they leave. What is printed is what an independent implementation of the
//! formats prints.

ghost use Rattle.vault.specs.Site.{AllHome};

use crate::calls::{Call, make_calls, make_calls_in_few_frames};
use lsn_core::AreaFault;
use memory_vault::MemSite;
use pgbackup_cli::Status;
use std::alloc::Global;
use std::sync::Wait;
use std::thread::Threads;
use test_areas::{SiteStep, Wrong, take_site_steps};
use vault::{Site, read_in};

const INIT: &str = "init --segment-mib 1 --system-id 7";

/// A script on a store of one entry and what it prints, and what replay of its WAL prints.
pub(crate) type Row<'a> = (&'a str, &'a str, &'a str);

static ROWS: [Row; 5] = [
    // The image rule: behind a checkpoint the first patch of a page is an image, the next a delta.
    (
        "worker w
create 5/16384
change 5/16384@0=32,8160,65
change 5/16384@0+24:00112233445566778899
checkpoint
change 5/16384@0+24:61
change 5/16384@0+24:62
",
        "opened 0/100060
w 2 ok 0/100060 0/100090
w 3 ok 0/100090 0/100108
w 4 ok 0/100108 0/100148
w 5 redo 0/100148
w 6 ok 0/1001A0 0/100218
w 7 ok 0/100218 0/100250
wal 0/100250
",
        "replayed 0/100250 1 1\n",
    ),
    // A flush writes the creation first, and then the page.
    (
        "worker w
create 5/16384
change 5/16384@0=32,8160,65
flush 1
flush 8
flush 4
",
        "opened 0/100060
w 2 ok 0/100060 0/100090
w 3 ok 0/100090 0/100108
w 4 wrote 1
w 5 wrote 1
w 6 wrote 0
wal 0/100108
",
        "replayed 0/100108 1 1\n",
    ),
    // Behind a checkpoint nothing is left to be written.
    (
        "worker w
create 5/16384
change 5/16384@0=32,8160,65
checkpoint
flush 4
",
        "opened 0/100060
w 2 ok 0/100060 0/100090
w 3 ok 0/100090 0/100108
w 4 redo 0/100108
w 5 wrote 0
wal 0/100160
",
        "replayed 0/100160 1 1\n",
    ),
    // Forks of three partitions.
    (
        "worker w
create 5/16384
create 5/16385
create 5/16387_init
grow 5/16384@0 5 24,8192,1
grow 5/16385@0 2 24,8192,2
grow 5/16387_init@0 1 24,8192,3
grow 5/16384@7 2 24,8192,4
grow 5/16386@0 2 24,8192,4
truncate 5/16384 3
truncate 5/16384 4
truncate 5/16386 0
truncate 5/16387 0
grow 5/16384@2 3 24,8192,5
flush 3
checkpoint
flush 9
truncate 5/16385 2
truncate 5/16385 0
flush 2
flush 8
",
        "opened 0/100060
w 2 ok 0/100060 0/100090
w 3 ok 0/100090 0/1000C0
w 4 ok 0/1000C0 0/1000F0
w 5 ok 5 0/1000F0 0/100280
w 6 ok 2 0/100280 0/100320
w 7 ok 1 0/100320 0/100370
w 8 stopped 0 3 PastEnd 12
w 9 stopped 0 1 NoFork 12
w 10 ok 0/100370 0/1003A0
w 11 refused 11 CutPastEnd 13
w 12 refused 1 NoFork 13
w 13 refused 1 NoFork 13
w 14 ok 3 0/1003A0 0/100490
w 15 wrote 2
w 16 redo 0/100490
w 17 wrote 0
w 18 ok 0/1004E8 0/100518
w 19 ok 0/100518 0/100548
w 20 wrote 1
w 21 wrote 1
wal 0/100548
",
        "replayed 0/100548 3 6\n",
    ),
    // Checkpoints of nothing.
    (
        "worker w
checkpoint
checkpoint
",
        "opened 0/100060
w 2 redo 0/100060
w 3 redo 0/1000B8
wal 0/100110
",
        "replayed 0/100110 0 0\n",
    ),
];

/// The calls that make a store of one entry, run a script on it, and replay its WAL.
fn calls_of<'a>(row: &Row<'a>) -> [Call<'a>; 3] {
    let (script, printed, replayed) = *row;
    [
        (INIT, "", Status::Done, "initialised 0/100060\n"),
        ("run", script, Status::Done, printed),
        ("replay p", "", Status::Done, replayed),
    ]
}

/// Makes a store of one entry, runs a script on it, and replays its WAL.
pub(crate) fn run_anew<S: Site>(
    rt: &(impl Threads + Wait + Sync),
    alloc: Global,
    site: &mut S,
    row: &Row,
) -> Result<(), Wrong>
    requires { AllHome (S.areas site.old) }
    ensures { AllHome (S.areas site.new) }
{
    make_calls(rt, alloc, site, &calls_of(row))
}

/// The same with few frames.
fn run_in_few_frames<S: Site>(
    rt: &(impl Threads + Wait + Sync),
    alloc: Global,
    site: &mut S,
    row: &Row,
) -> Result<(), Wrong>
    requires { AllHome (S.areas site.old) }
    ensures { AllHome (S.areas site.new) }
{
    make_calls_in_few_frames(rt, alloc, site, &calls_of(row))
}

/// The first over a site of its own.
pub(crate) fn is_run(
    rt: &(impl Threads + Wait + Sync),
    alloc: Global,
    row: &Row,
) -> Result<(), Wrong> {
    let mut site = MemSite::new(alloc, &[])?;
    run_anew(rt, alloc, &mut site, row)
}

/// The second over a site of its own.
fn is_run_in_few_frames(
    rt: &(impl Threads + Wait + Sync),
    alloc: Global,
    row: &Row,
) -> Result<(), Wrong> {
    let mut site = MemSite::new(alloc, &[])?;
    run_in_few_frames(rt, alloc, &mut site, row)
}

#[test]
fn lines_are_answered_as_elsewhere(rt: HostRuntime) -> Result<(), Wrong> {
    for row in &ROWS {
        is_run(&rt, rt.alloc(), row)?;
        is_run_in_few_frames(&rt, rt.alloc(), row)?;
    }
    Ok(())
}

/// Files that are in the way.
static STRAY: [SiteStep; 4] = [
    SiteStep::Puts(b"data0", b"rebuilding", b"x"),
    SiteStep::Puts(b"data1", b"base/5/16385", b"x"),
    SiteStep::Puts(b"data2", b"rebuilding", b"x"),
    SiteStep::Puts(b"data2", b"base/5/16386.1", b"x"),
];

/// Behind the fourth script they are gone, or, where it is a fork's, empty as that is.
static CLEARED: [SiteStep; 4] = [
    SiteStep::Holds(b"data0", b"rebuilding", b""),
    SiteStep::Holds(b"data1", b"base/5/16385", b""),
    SiteStep::Holds(b"data2", b"rebuilding", b""),
    SiteStep::Holds(b"data2", b"base/5/16386.1", b""),
];

/// A data area has a file, and has it as the output does.
fn is_held<S: Site>(
    alloc: Global,
    site: &mut S,
    area: &[u8],
    file: &[u8],
) -> Result<bool, AreaFault>
    requires { AllHome (S.areas site.old) }
    ensures { AllHome (S.areas site.new) }
{
    let wanted = read_in(alloc, site, b"o/p", file)?;
    let found = read_in(alloc, site, area, file)?;
    Ok(!found.is_empty() && found.as_slice() == wanted.as_slice())
}

/// The data areas hold what replay gives, and what was in the way is gone.
fn are_held<S: Site>(alloc: Global, site: &mut S) -> Result<bool, Wrong>
    requires { AllHome (S.areas site.old) }
    ensures { AllHome (S.areas site.new) }
{
    take_site_steps(alloc, site, &CLEARED)?;
    let first = is_held(alloc, site, b"data0", b"base/5/16384")?;
    let last = is_held(alloc, site, b"data3", b"base/5/16387_init")?;
    Ok(first && last)
}

#[test]
fn data_areas_hold_what_replay_gives(rt: HostRuntime) -> Result<(), Wrong> {
    let mut site = MemSite::new(rt.alloc(), &[])?;
    take_site_steps(rt.alloc(), &mut site, &STRAY)?;
    run_anew(&rt, rt.alloc(), &mut site, &ROWS[3])?;
    assert!(rt; are_held(rt.alloc(), &mut site)?);
    let mut few = MemSite::new(rt.alloc(), &[])?;
    take_site_steps(rt.alloc(), &mut few, &STRAY)?;
    run_in_few_frames(&rt, rt.alloc(), &mut few, &ROWS[3])?;
    assert!(rt; are_held(rt.alloc(), &mut few)?);
    Ok(())
}
