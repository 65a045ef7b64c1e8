//! Chains of which a member was changed, its sums made again, or comes from another store: what
//! `verify`, `combine` and `restore` say of them. Lines and sums are those of an independent
//! implementation of the formats.

ghost use Rattle.std.specs.Prelude.{IfOk};
ghost use Rattle.vault.specs.Site.{AllHome};
ghost use Rattle.memory_vault.specs.MemorySite.{areas_of};

use crate::calls::{Call, INIT, make_calls, take_behind};
use crate::changes::change_all;
use crate::combine_tests::CHAIN;
use crate::outputs::are_same;
use memory_vault::{MemSite, MemVault};
use pgbackup_cli::Status;
use std::alloc::Global;
use std::sync::Wait;
use std::thread::Threads;
use test_areas::{Change, Wrong};

const FORK: &[u8] = b"base/5/16384";

const MANIFEST: &[u8] = b"backup_manifest";

/// The full backup's end is past the incremental one's start.
static LATE: [Change; 2] = [
    Change::Write(MANIFEST, 551, b"5A8"),
    Change::Write(
        MANIFEST,
        583,
        b"1a21e934ab27378734be2f91f4d5699e4c19b48b1a0ea0852159ddb1da18dcba",
    ),
];

static LATE_CALLS: [Call; 4] = [
    (
        "verify f1",
        "",
        Status::Done,
        "verified f1 full 0/1003B0 0/1005A8 2\n",
    ),
    (
        "combine c f1 i1",
        "",
        Status::Refused,
        "refused 35 Overlap i1 0/1005A0 0/1005A8\n",
    ),
    (
        "restore r f1 i1",
        "",
        Status::Refused,
        "refused 35 Overlap i1 0/1005A0 0/1005A8\n",
    ),
    (
        "combine c f1",
        "",
        Status::Done,
        "combined c 0/1003B0 0/1005A8 2\n",
    ),
];

/// The full backup's manifest without the row of its fork.
const BARE_MANIFEST: &[u8] = b"{ \"PostgreSQL-Backup-Manifest-Version\": 2,
\"System-Identifier\": 7,
\"Files\": [
{ \"Path\": \"backup_label\", \"Size\": 200, \"Last-Modified\": \"2023-11-14 22:13:20 GMT\", \
\"Checksum-Algorithm\": \"SHA256\", \"Checksum\": \
\"67c229648f8e61f45608cf991942190ffcf72fc04da937b9742d4ef0ea009838\" }
],
\"WAL-Ranges\": [
{ \"Timeline\": 1, \"Start-LSN\": \"0/1003B0\", \"End-LSN\": \"0/100430\" }
],
\"Manifest-Checksum\": \"a6ae72cecebc0bad9d1e10a611a681bdcf8df546c4fab36deacbdf0a6303c857\"}
";

/// The full backup has no file of the fork.
static BARE: [Change; 3] = [
    Change::Remove(FORK),
    Change::Remove(MANIFEST),
    Change::Write(MANIFEST, 0, BARE_MANIFEST),
];

static BARE_CALLS: [Call; 4] = [
    (
        "verify f1",
        "",
        Status::Done,
        "verified f1 full 0/1003B0 0/100430 1\n",
    ),
    (
        "combine c f1 i1",
        "",
        Status::Refused,
        "refused 36 NoPriorFile i1 base/5/INCREMENTAL.16384\n",
    ),
    (
        "restore r f1 i1",
        "",
        Status::Refused,
        "refused 36 NoPriorFile i1 base/5/INCREMENTAL.16384\n",
    ),
    (
        "combine c f1 i2",
        "",
        Status::Refused,
        "refused 32 WrongPrior i2 0/1005A0 0/1003B0\n",
    ),
];

/// Makes the chain, changes its full backup, and makes calls over it.
fn take_changed(
    rt: &(impl Threads + Wait + Sync),
    alloc: Global,
    changes: &[Change],
    calls: &[Call],
) -> Result<(), Wrong> {
    let mut site = MemSite::new(alloc, &[])?;
    make_calls(rt, alloc, &mut site, &CHAIN)?;
    change_all(&mut site, b"b/f1", changes)?;
    make_calls(rt, alloc, &mut site, calls)
}

#[test]
fn links_are_judged_behind_sums(rt: HostRuntime) -> Result<(), Wrong> {
    take_changed(&rt, rt.alloc(), &LATE, &LATE_CALLS)?;
    take_changed(&rt, rt.alloc(), &BARE, &BARE_CALLS)
}

/// The site of the chain, and in it an area that the chain doesn't use.
fn chain_beside(
    rt: &(impl Threads + Wait + Sync),
    alloc: Global,
    name: &[u8],
    area: MemVault,
) -> Result<MemSite, Wrong>
    ensures { IfOk result (λ site. AllHome (areas_of site)) }
{
    let mut site = MemSite::new(alloc, &[])?;
    site.set(name, area)?;
    make_calls(rt, alloc, &mut site, &CHAIN)?;
    Ok(site)
}

/// The store of the chain, but with another system identifier and another name of the first
/// incremental backup.
static OTHER_SYSTEM: [Call; 2] = [
    (
        "init --segment-mib 1 --system-id 8",
        "",
        Status::Done,
        "initialised 0/100060\n",
    ),
    (
        "run",
        "worker w
create 5/16384
grow 5/16384@0 10 24,8192,0
full f1
truncate 5/16384 2
grow 5/16384@2 4 24,8192,0
incr j1 f1
",
        Status::Done,
        "opened 0/100060
w 2 ok 0/100060 0/100090
w 3 ok 10 0/100090 0/1003B0
w 4 backup 0/1003B0 0/100430
w 5 ok 0/100430 0/100460
w 6 ok 4 0/100460 0/1005A0
w 7 backup 0/1005A0 0/100620
wal 0/100620
",
    ),
];

static OTHER_SYSTEM_CALLS: [Call; 5] = [
    (
        "verify j1",
        "",
        Status::Done,
        "verified j1 incremental 0/1005A0 0/100620 2\n",
    ),
    (
        "combine c f1 j1",
        "",
        Status::Refused,
        "refused 33 SystemDiffers j1 8 7\n",
    ),
    (
        "restore r f1 j1",
        "",
        Status::Refused,
        "refused 33 SystemDiffers j1 8 7\n",
    ),
    (
        "combine c f1 i1 j1",
        "",
        Status::Refused,
        "refused 33 SystemDiffers j1 8 7\n",
    ),
    (
        "combine c j1",
        "",
        Status::Refused,
        "refused 30 FirstIncremental j1\n",
    ),
];

#[test]
fn a_member_of_another_system_is_refused(rt: HostRuntime) -> Result<(), Wrong> {
    let member = take_behind(&rt, rt.alloc(), &OTHER_SYSTEM, b"b/j1")?;
    let mut site = chain_beside(&rt, rt.alloc(), b"b/j1", member)?;
    make_calls(&rt, rt.alloc(), &mut site, &OTHER_SYSTEM_CALLS)
}

/// A store with the chain's system identifier, in which one more entry stands before the
/// incremental backup.
static LONGER: [Call; 2] = [
    INIT,
    (
        "run",
        "worker w
create 5/16384
grow 5/16384@0 10 24,8192,0
full f1
truncate 5/16384 2
change 5/16384@0+24:61
grow 5/16384@2 4 24,8192,0
incr i1 f1
",
        Status::Done,
        "opened 0/100060
w 2 ok 0/100060 0/100090
w 3 ok 10 0/100090 0/1003B0
w 4 backup 0/1003B0 0/100430
w 5 ok 0/100430 0/100460
w 6 ok 0/100460 0/1004B0
w 7 ok 4 0/1004B0 0/1005F0
w 8 backup 0/1005F0 0/100670
wal 0/100670
",
    ),
];

/// The chain of both stores' backups is taken, but the store's WAL has no entry where the last one
/// starts.
static LONGER_CALLS: [Call; 4] = [
    (
        "verify x1",
        "",
        Status::Done,
        "verified x1 incremental 0/1005F0 0/100670 2\n",
    ),
    (
        "combine c f1 x1",
        "",
        Status::Done,
        "combined c 0/1005F0 0/100670 2\n",
    ),
    (
        "restore r f1 x1",
        "",
        Status::Refused,
        "refused 11 WalDamaged 0/1005F0 Length\n",
    ),
    (
        "restore r f1 x1 i2",
        "",
        Status::Refused,
        "refused 32 WrongPrior i2 0/1005A0 0/1005F0\n",
    ),
];

/// A store whose entries stand at the same places, with other bytes in the pages behind the full
/// backup.
static ALIKE: [Call; 2] = [
    INIT,
    (
        "run",
        "worker w
create 5/16384
grow 5/16384@0 10 24,8192,0
full f1
truncate 5/16384 2
grow 5/16384@2 4 25,8191,9
incr i1 f1
",
        Status::Done,
        "opened 0/100060
w 2 ok 0/100060 0/100090
w 3 ok 10 0/100090 0/1003B0
w 4 backup 0/1003B0 0/100430
w 5 ok 0/100430 0/100460
w 6 ok 4 0/100460 0/1005A0
w 7 backup 0/1005A0 0/100620
wal 0/100620
",
    ),
];

/// Nothing tells its backup from the chain's own.
static ALIKE_CALLS: [Call; 6] = [
    (
        "verify x1",
        "",
        Status::Done,
        "verified x1 incremental 0/1005A0 0/100620 2\n",
    ),
    (
        "combine c f1 x1",
        "",
        Status::Done,
        "combined c 0/1005A0 0/100620 2\n",
    ),
    (
        "restore r f1 x1",
        "",
        Status::Done,
        "restored 0/1006A0 1 6\n",
    ),
    (
        "restore s f1 x1 i2",
        "",
        Status::Done,
        "restored 0/1006A0 1 6\n",
    ),
    (
        "restore q f1 i1",
        "",
        Status::Done,
        "restored 0/1006A0 1 6\n",
    ),
    ("replay p", "", Status::Done, "replayed 0/1006A0 1 6\n"),
];

/// A backup of another store with the same system identifier is told only where its places differ.
#[test]
fn a_member_of_another_store_is_told_by_its_places(rt: HostRuntime) -> Result<(), Wrong> {
    let longer = take_behind(&rt, rt.alloc(), &LONGER, b"b/i1")?;
    let mut site = chain_beside(&rt, rt.alloc(), b"b/x1", longer)?;
    make_calls(&rt, rt.alloc(), &mut site, &LONGER_CALLS)?;
    let alike = take_behind(&rt, rt.alloc(), &ALIKE, b"b/i1")?;
    let mut site = chain_beside(&rt, rt.alloc(), b"b/x1", alike)?;
    make_calls(&rt, rt.alloc(), &mut site, &ALIKE_CALLS)?;
    assert!(rt; are_same(rt.alloc(), &mut site, b"o/p", b"o/q")?);
    assert!(rt; !are_same(rt.alloc(), &mut site, b"o/p", b"o/r")?);
    assert!(rt; are_same(rt.alloc(), &mut site, b"o/r", b"o/s")?);
    Ok(())
}
