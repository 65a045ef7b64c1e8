//! Lines of several items and of fragments, run over a site in memory. What is printed is what an
//! independent implementation of the formats prints.

ghost use Rattle.vault.specs.Site.{AllHome};

use crate::calls::{Call, make_calls, make_calls_in_few_frames};
use memory_vault::MemSite;
use pgbackup_cli::Status;
use std::alloc::Global;
use std::sync::Wait;
use std::thread::Threads;
use test_areas::Wrong;
use vault::{Site, read_in};

/// The calls that make a store of one entry, and run a script on it.
fn calls_of<'a>(script: &'a str, printed: &'a str) -> [Call<'a>; 2] {
    let init = "init --segment-mib 1 --system-id 7";
    [
        (init, "", Status::Done, "initialised 0/100060\n"),
        ("run", script, Status::Done, printed),
    ]
}

/// Makes a store of one entry, and runs a script on it.
fn run_anew<S: Site>(
    rt: &(impl Threads + Wait + Sync),
    alloc: Global,
    site: &mut S,
    script: &str,
    printed: &str,
) -> Result<(), Wrong>
    requires { AllHome (S.areas site.old) }
    ensures { AllHome (S.areas site.new) }
{
    make_calls(rt, alloc, site, &calls_of(script, printed))
}

/// Scripts on a store of one entry, and what each prints.
static ROWS: [(&str, &str); 5] = [
    // Each refusal in its order, where each but the last changes nothing.
    (
        "worker w
change 5/16384@0=24,8192,0
create 5/16384
create 5/16384
change 5/16384@1=24,8192,0
change 5/16384@0+24:61
change 5/16384@0=24,8192,0
change 5/16384@0+12:FFFF
change 5/16384@0+8183:00112233445566778899
change 5/16384@0+8182:00112233445566778899
truncate 5/16384 2
change 5/16384@0+24:61 5/16388@0+24:61
change 5/16384@0+24:61 5/16384@0+25:61
change 5/16384@0=24,8192,0 5/16384@1=24,8192,0 5/16384@2=24,8192,0 5/16384@3=24,8192,0 5/16384@4=24,8192,0
",
        "opened 0/100060
w 2 refused 1 NoFork 1
w 3 ok 0/100060 0/100090
w 4 refused 2 ForkExists 2
w 5 refused 3 PastEnd 2
w 6 refused 4 NoBlock 2
w 7 ok 0/100090 0/1000E0
w 8 refused 5 BadPage 0 3
w 9 refused 6 BadFragment 0 0
w 10 ok 0/1000E0 0/100120
w 11 refused 11 CutPastEnd 4
w 12 refused 8 TwoRelations
w 13 refused 14 SameBlock 1
w 14 refused 7 BlockCount
wal 0/100120
",
    ),
    // An image that ends on a page's end.
    (
        "worker w
create 5/16384
change 5/16384@0=24,224,1
create 5/16388
",
        "opened 0/100060
w 2 ok 0/100060 0/100090
w 3 ok 0/100090 0/102000
w 4 ok 0/102018 0/102048
wal 0/102048
",
    ),
    // An image that ends 8 bytes before it.
    (
        "worker w
create 5/16384
change 5/16384@0=24,232,1
create 5/16388
",
        "opened 0/100060
w 2 ok 0/100060 0/100090
w 3 ok 0/100090 0/101FF8
w 4 ok 0/101FF8 0/102040
wal 0/102040
",
    ),
    // An image without a hole.
    (
        "worker w
create 5/16384
change 5/16384@0=8192,8192,7
create 5/16388
",
        "opened 0/100060
w 2 ok 0/100060 0/100090
w 3 ok 0/100090 0/1020E0
w 4 ok 0/1020E0 0/102110
wal 0/102110
",
    ),
    // Several items, and fragments at each edge.
    (
        "worker w
create 5/16384
create 5/16384_init
change 5/16384@0=8192,8192,7 5/16384@1=24,8192,1 5/16384_init@0=32,8160,65
change 5/16384@0+0:61 5/16384@0+0:62
change 5/16384@0+0:61,8191:62
change 5/16384@0+8191:6263
change 5/16384@0+65535:61
change 5/16384@1+12:2000
change 5/16384@1+12:1800,14:1700
change 5/16384@2=24,8192,1 5/16384@1+12:FFFF
change 5/16384@2+24:61
change 5/16384@3=24,8192,1 5/16384@2=24,8192,1
change 5/16384@2=24,8192,1 5/16384@3=24,8192,1 5/16384@4=24,8192,1 5/16384@1+24:aA
change 5/16384@0=24,8192,0 5/16384@1=24,8192,0 5/16384@2=24,8192,0 5/16384@3=24,8192,0 5/16384@4=24,8192,0 5/16384@5=24,8192,0 5/16384@6=24,8192,0 5/16384@7=24,8192,0 5/16384@8=24,8192,0 5/16384@9=24,8192,0 5/16384@10=24,8192,0 5/16384@11=24,8192,0 5/16384@12=24,8192,0 5/16384@13=24,8192,0 5/16384@14=24,8192,0 5/16384@15=24,8192,0
change 5/16384@0+24:61 5/16385@0+24:61 5/16384@0+8192:61
change 5/16384@0+24:61 5/16384@0+8192:61
change 5/16384@0+24:61 5/16384@1+24:61,8192:61
change 5/16384@9+24:61 5/16384@1+24:61,8192:61
change 5/16385@0=24,24,1
change 5/16385_init@0+24:61
change 5/16384@4+8191:61 5/16384_init@0+24:6162,8190:6364,26:65
",
        "opened 0/100060
w 2 ok 0/100060 0/100090
w 3 ok 0/100090 0/1000C0
w 4 ok 0/1000C0 0/102180
w 5 refused 14 SameBlock 1
w 6 ok 0/102180 0/1021B8
w 7 refused 6 BadFragment 0 0
w 8 refused 6 BadFragment 0 0
w 9 ok 0/1021B8 0/1021F0
w 10 refused 5 BadPage 0 6
w 11 refused 5 BadPage 1 6
w 12 refused 4 NoBlock 6
w 13 refused 3 PastEnd 6
w 14 ok 0/1021F0 0/102290
w 15 refused 7 BlockCount
w 16 refused 8 TwoRelations
w 17 refused 14 SameBlock 1
w 18 refused 6 BadFragment 1 1
w 19 refused 6 BadFragment 1 1
w 20 refused 1 NoFork 7
w 21 refused 1 NoFork 7
w 22 ok 0/102290 0/1022E0
wal 0/1022E0
",
    ),
];

/// Runs a script on a store of its own, and on another one with few frames.
fn runs(
    rt: &(impl Threads + Wait + Sync),
    alloc: Global,
    script: &str,
    printed: &str,
) -> Result<(), Wrong> {
    let mut site = MemSite::new(alloc, &[])?;
    run_anew(rt, alloc, &mut site, script, printed)?;
    let mut few = MemSite::new(alloc, &[])?;
    make_calls_in_few_frames(rt, alloc, &mut few, &calls_of(script, printed))
}

#[test]
fn each_line_is_answered_as_its_items_ask(rt: HostRuntime) -> Result<(), Wrong> {
    for (script, printed) in &ROWS {
        runs(&rt, rt.alloc(), script, printed)?;
    }
    Ok(())
}

/// The init fork that the last script makes and patches: its page's beginning and its end.
const PATCHED: (&[u8], &[u8]) = (
    b"\0\0\0\0\xe0\"\x10\0\0\0\0\0 \0\xe0\x1f\0 \x04 \0\0\0\0abeAAAAA",
    b"AAAAAAAAAAcd",
);

/// Its replay.
static REPLAY: [Call; 1] = [("replay p", "", Status::Done, "replayed 0/1022E0 2 6\n")];

/// The bytes of the init fork's file in the output.
fn replayed<S: Site>(
    rt: &(impl Threads + Wait + Sync),
    alloc: Global,
    site: &mut S,
) -> Result<Vec<u8>, Wrong>
    requires { AllHome (S.areas site.old) }
{
    make_calls(rt, alloc, site, &REPLAY)?;
    Ok(read_in(alloc, site, b"o/p", b"base/5/16384_init")?)
}

#[test]
fn patched_pages_are_replayed(rt: HostRuntime) -> Result<(), Wrong> {
    let mut site = MemSite::new(rt.alloc(), &[])?;
    let [_, _, _, _, (script, printed)] = ROWS;
    run_anew(&rt, rt.alloc(), &mut site, script, printed)?;
    let page = replayed(&rt, rt.alloc(), &mut site)?;
    assert!(rt; page.len() == 8192 && page.starts_with(PATCHED.0) && page.ends_with(PATCHED.1));
    Ok(())
}
