//! Scripts of up to eight workers, run over a site in memory by the program's top call: those whose
//! printed lines are the same in whatever order the workers' steps come, one whose places aren't, and
//! scripts that are refused. Lines and places are those of an independent implementation of the formats.

ghost use Rattle.vault.specs.Site.{AllHome};

use crate::calls::{Call, INIT, NONE, make_calls, run};
use lsn_core::NoMemory;
use memory_vault::MemSite;
use pgbackup_cli::Status;
use std::alloc::Global;
use std::sync::Wait;
use std::thread::Threads;
use test_areas::Wrong;
use vault::Site;

/// Of the workers of a run, one alone writes: the others have no lines, only read, write what isn't
/// there, or are refused by what their lines show. The last run is of one worker.
static ONE_WRITES: [Call; 9] = [
    INIT,
    ("run", "", Status::Done, "opened 0/100060\nwal 0/100060\n"),
    (
        "run",
        "worker a
# the second one
worker b

\tcreate 5/16384
grow 5/16384@0 4 24,8192,0
change 5/16384@0+24:61
full f1
worker c
",
        Status::Done,
        "opened 0/100060
b 5 ok 0/100060 0/100090
b 6 ok 4 0/100090 0/1001D0
b 7 ok 0/1001D0 0/100208
b 8 backup 0/100208 0/100288
wal 0/100288
",
    ),
    (
        "run",
        "worker a
change 5/1@0=24,8192,0 5/2@0=24,8192,0
worker b
full f1
worker c
change 5/16384@1+100:62
checkpoint
worker d
incr i1 f9
",
        Status::Done,
        "opened 0/100288
a 2 refused 8 TwoRelations
b 4 refused 41 AreaNotEmpty b/f1
c 6 ok 0/100288 0/1002D8
c 7 redo 0/1002D8
d 9 refused 20 NoManifest f9
wal 0/100330
",
    ),
    (
        "run",
        "worker a
flush 100
worker b
incr i1 f1
summarise
incr i2 i1
worker c
flush 100
",
        Status::Done,
        "opened 0/100330
a 2 wrote 0
b 4 backup 0/100330 0/1003B0
b 5 published 0
b 6 backup 0/1003B0 0/100430
c 8 wrote 0
wal 0/100430
",
    ),
    (
        "verify i2",
        "",
        Status::Done,
        "verified i2 incremental 0/1003B0 0/100430 2\n",
    ),
    (
        "restore r f1 i1 i2",
        "",
        Status::Done,
        "restored 0/100430 1 4\n",
    ),
    ("replay p", "", Status::Done, "replayed 0/100430 1 4\n"),
    (
        "run",
        "worker a\nchange 5/16384@2+100:63\nflush 1\nincr i3 f1\n",
        Status::Done,
        "opened 0/100430
a 2 ok 0/100430 0/100480
a 3 wrote 1
a 4 backup 0/100480 0/100500
wal 0/100500
",
    ),
];

/// Eight workers, of which none writes.
static NONE_WRITES: [Call; 2] = [
    INIT,
    (
        "run",
        "worker a
flush 8
worker b
summarise
worker c
change 5/1@0=24,8192,0 5/2@0=24,8192,0
worker d
change 5/1@0=24,8192,0 5/1@0=24,8192,1
worker e
change 5/1@0+8183:00112233445566778899
worker f
change 5/1@0=24,24,0 5/1@1=24,24,0 5/1@2=24,24,0 5/1@3=24,24,0 5/1@4=24,24,0
worker g
incr i1 f1
worker h
incr i2 f2
",
        Status::Done,
        "opened 0/100060
a 2 wrote 0
b 4 published 0
c 6 refused 8 TwoRelations
d 8 refused 14 SameBlock 1
e 10 refused 6 BadFragment 0 0
f 12 refused 7 BlockCount
g 14 refused 20 NoManifest f1
h 16 refused 20 NoManifest f2
wal 0/100060
",
    ),
];

/// Scripts that are refused, of which nothing is done, and words that are no command.
static REFUSED: [Call; 14] = [
    INIT,
    (
        "run",
        "create 5/16384\nworker a\n",
        Status::Usage,
        "refused 2 ScriptLine 1 NoWorker\n",
    ),
    (
        "run",
        "worker a\nworker b\nworker c\nworker d\nworker e\nworker f\nworker g\nworker h\nworker i\n",
        Status::Usage,
        "refused 2 ScriptLine 9 Many\n",
    ),
    (
        "run",
        "worker a\ncreate 5/1\nworker b\nworker c\nworker d\nworker e\nworker f\nworker g\nworker h\n\
full x\n# i\nworker i\nfull x\n",
        Status::Usage,
        "refused 2 ScriptLine 12 Many\n",
    ),
    (
        "run",
        "worker a\nworker b\nworker c\nworker d\nworker e\nworker f\nworker g\nworker h\nworker a\n",
        Status::Usage,
        "refused 2 ScriptLine 9 Twice\n",
    ),
    (
        "run",
        "worker a\ncreate 5/1\nworker a\n",
        Status::Usage,
        "refused 2 ScriptLine 3 Twice\n",
    ),
    (
        "run",
        "worker a\nfull x\nworker b\ncreate 5/1\nfull x\n",
        Status::Usage,
        "refused 2 ScriptLine 5 Twice\n",
    ),
    (
        "run",
        "worker a\nfull x\nworker b\nincr y x\n",
        Status::Usage,
        "refused 2 ScriptLine 4 Twice\n",
    ),
    (
        "run",
        "worker a\nincr y x\nworker b\nworker c\nfull x\n",
        Status::Usage,
        "refused 2 ScriptLine 5 Twice\n",
    ),
    (
        "run",
        "worker a\nincr y x\nworker b\nincr z y\n",
        Status::Usage,
        "refused 2 ScriptLine 4 Twice\n",
    ),
    ("run", "", Status::Done, "opened 0/100060\nwal 0/100060\n"),
    ("verify x", "", Status::Refused, "refused 20 NoManifest x\n"),
    ("", "", Status::Usage, "refused 1 Usage\n"),
    ("restore r", "", Status::Usage, "refused 1 Usage\n"),
];

/// Makes calls of the program in turn, over a new site.
fn make_anew(
    rt: &(impl Threads + Wait + Sync),
    alloc: Global,
    calls: &[Call],
) -> Result<(), Wrong> {
    let mut site = MemSite::new(alloc, &[])?;
    make_calls(rt, alloc, &mut site, calls)
}

#[test]
fn one_worker_of_several_writes(rt: HostRuntime) -> Result<(), Wrong> {
    make_anew(&rt, rt.alloc(), &ONE_WRITES)
}

#[test]
fn eight_workers_write_nothing(rt: HostRuntime) -> Result<(), Wrong> {
    make_anew(&rt, rt.alloc(), &NONE_WRITES)
}

#[test]
fn scripts_are_refused(rt: HostRuntime) -> Result<(), Wrong> {
    make_anew(&rt, rt.alloc(), &REFUSED)
}

/// Eight workers that write, each to a fork of its own.
const WRITERS: &str = "worker a
create 5/1
grow 5/1@0 20 24,8192,0
worker b
create 5/2
grow 5/2@0 20 24,8192,0
worker c
create 5/3
grow 5/3@0 20 24,8192,0
worker d
create 5/4
grow 5/4@0 20 24,8192,0
worker e
create 5/5
grow 5/5@0 20 24,8192,0
worker f
create 5/6
grow 5/6@0 20 24,8192,0
worker g
create 5/7
grow 5/7@0 20 24,8192,0
worker h
create 5/8
grow 5/8@0 20 24,8192,0
";

/// What they are answered but for the places.
const WRITTEN: &str = "opened
a 2 ok
a 3 ok 20
b 5 ok
b 6 ok 20
c 8 ok
c 9 ok 20
d 11 ok
d 12 ok 20
e 14 ok
e 15 ok 20
f 17 ok
f 18 ok 20
g 20 ok
g 21 ok 20
h 23 ok
h 24 ok 20
wal
";

/// Adds a line without its words for places.
fn add_line(text: &mut Vec<u8>, line: &[u8]) -> Result<(), NoMemory> {
    for word in line.split(|byte| *byte == b' ') {
        if !word.starts_with(b"0/") {
            text.extend_from_slice(word)?;
            text.push(b' ')?;
        }
    }
    text.pop();
    text.push(b'\n')?;
    Ok(())
}

/// Lines without their words for places.
fn without_places(alloc: Global, lines: &[u8]) -> Result<Vec<u8>, NoMemory> {
    let mut text = Vec::new(alloc);
    for line in lines.split(|byte| *byte == b'\n') {
        if !line.is_empty() {
            add_line(&mut text, line)?;
        }
    }
    Ok(text)
}

/// Whether a script is run, and its lines are answered so but for the places.
fn is_run<S: Site>(
    rt: &(impl Threads + Wait + Sync),
    alloc: Global,
    site: &mut S,
    script: &str,
    answers: &str,
) -> Result<bool, NoMemory>
    requires { AllHome (S.areas site.old) }
    ensures { AllHome (S.areas site.new) }
{
    let (status, printed) = run(rt, alloc, site, "run", script, NONE)?;
    let rest = without_places(alloc, &printed)?;
    Ok(status == Status::Done && rest.as_slice() == answers.as_bytes())
}

/// All that they wrote is there: the entries have the same lengths in each order.
static ALL_IS_THERE: [Call; 2] = [
    ("replay p", "", Status::Done, "replayed 0/1033F8 8 160\n"),
    ("run", "", Status::Done, "opened 0/1033F8\nwal 0/1033F8\n"),
];

#[test]
fn eight_workers_write(rt: HostRuntime) -> Result<(), Wrong> {
    let mut site = MemSite::new(rt.alloc(), &[])?;
    make_calls(&rt, rt.alloc(), &mut site, &[INIT])?;
    assert!(rt; is_run(&rt, rt.alloc(), &mut site, WRITERS, WRITTEN)?);
    make_calls(&rt, rt.alloc(), &mut site, &ALL_IS_THERE)
}
