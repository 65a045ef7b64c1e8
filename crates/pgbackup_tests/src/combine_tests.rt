//! The commands `combine` and `restore` over chains, over a site in memory: printed lines, the combined
//! directory, what a restore writes beside `replay`, and which chains are refused. Lines, places and
//! sums are those of an independent implementation of the formats.

use crate::calls::{Call, INIT, make_calls};
use crate::outputs::are_same;
use memory_vault::MemSite;
use pgbackup_cli::Status;
use test_areas::{SiteStep, Wrong, take_site_steps};

const FORK: &[u8] = b"base/5/16384";

const LABEL: &[u8] = b"backup_label";

const MANIFEST: &[u8] = b"backup_manifest";

/// A full backup and two incremental ones on it, the second where nothing changed.
pub(crate) static CHAIN: [Call; 2] = [
    INIT,
    (
        "run",
        "worker w
create 5/16384
grow 5/16384@0 10 24,8192,0
full f1
truncate 5/16384 2
grow 5/16384@2 4 24,8192,0
incr i1 f1
incr i2 i1
",
        Status::Done,
        "opened 0/100060
w 2 ok 0/100060 0/100090
w 3 ok 10 0/100090 0/1003B0
w 4 backup 0/1003B0 0/100430
w 5 ok 0/100430 0/100460
w 6 ok 4 0/100460 0/1005A0
w 7 backup 0/1005A0 0/100620
w 8 backup 0/100620 0/1006A0
wal 0/1006A0
",
    ),
];

/// Chains of a full backup and two incremental ones are combined and restored to the WAL's end and to
/// places near the last member's end.
static CALLS: [Call; 18] = [
    (
        "combine c f1 i1",
        "",
        Status::Done,
        "combined c 0/1005A0 0/100620 2\n",
    ),
    (
        "verify c",
        "",
        Status::Done,
        "verified c full 0/1005A0 0/100620 2\n",
    ),
    (
        "combine d c i2",
        "",
        Status::Done,
        "combined d 0/100620 0/1006A0 2\n",
    ),
    (
        "combine e f1",
        "",
        Status::Done,
        "combined e 0/1003B0 0/100430 2\n",
    ),
    (
        "combine c f1 i1",
        "",
        Status::Refused,
        "refused 41 AreaNotEmpty b/c\n",
    ),
    (
        "combine f1 f1 i1",
        "",
        Status::Refused,
        "refused 41 AreaNotEmpty b/f1\n",
    ),
    (
        "restore r f1 i1",
        "",
        Status::Done,
        "restored 0/1006A0 1 6\n",
    ),
    (
        "restore r3 f1 i1 i2",
        "",
        Status::Done,
        "restored 0/1006A0 1 6\n",
    ),
    ("restore s c", "", Status::Done, "restored 0/1006A0 1 6\n"),
    (
        "restore s2 c i2",
        "",
        Status::Done,
        "restored 0/1006A0 1 6\n",
    ),
    (
        "restore --target 0/10061F x f1 i1",
        "",
        Status::Refused,
        "refused 40 TargetEarly 0/10061F 0/100620\n",
    ),
    (
        "restore t --target 0/100620 f1 i1",
        "",
        Status::Done,
        "restored 0/100620 1 6\n",
    ),
    (
        "restore --target 0/1006A0 t2 f1 i1",
        "",
        Status::Done,
        "restored 0/1006A0 1 6\n",
    ),
    (
        "restore --target=0/1006A0 t3 f1 i1",
        "",
        Status::Done,
        "restored 0/1006A0 1 6\n",
    ),
    (
        "restore t4 f1 --target 0/1006A0 i1",
        "",
        Status::Done,
        "restored 0/1006A0 1 6\n",
    ),
    (
        "restore x f1 --target 0/1006A1 i1",
        "",
        Status::Refused,
        "refused 13 WalShort 0/1006A0 0/1006A1\n",
    ),
    (
        "restore r f1",
        "",
        Status::Refused,
        "refused 41 AreaNotEmpty o/r\n",
    ),
    ("replay p", "", Status::Done, "replayed 0/1006A0 1 6\n"),
];

/// The combined directory: the label without the lines of an incremental one, its manifest, and the
/// fork's blocks, of which the first two are the full backup's.
static COMBINED: [SiteStep; 4] = [
    SiteStep::Holds(
        b"b/c",
        LABEL,
        b"START WAL LOCATION: 0/1005A0 (file 000000010000000000000001)
CHECKPOINT LOCATION: 0/1005C0
BACKUP METHOD: streamed
BACKUP FROM: primary
START TIME: 2023-11-14 22:13:20 UTC
LABEL: i1
START TIMELINE: 1
",
    ),
    SiteStep::Holds(
        b"b/c",
        MANIFEST,
        b"{ \"PostgreSQL-Backup-Manifest-Version\": 2,
\"System-Identifier\": 7,
\"Files\": [
{ \"Path\": \"backup_label\", \"Size\": 200, \"Last-Modified\": \"2023-11-14 22:13:20 GMT\", \
\"Checksum-Algorithm\": \"SHA256\", \"Checksum\": \
\"11aaadc24c335521e7d4e75e9142bd9c1a83e398956dbc22c791c7d3992fe9be\" },
{ \"Path\": \"base/5/16384\", \"Size\": 49152, \"Last-Modified\": \"2023-11-14 22:13:20 GMT\", \
\"Checksum-Algorithm\": \"SHA256\", \"Checksum\": \
\"6a2e13ae8eca227dcb8591ef9741a0906b1052051fb517a07f1d00a17cfff438\" }
],
\"WAL-Ranges\": [
{ \"Timeline\": 1, \"Start-LSN\": \"0/1005A0\", \"End-LSN\": \"0/100620\" }
],
\"Manifest-Checksum\": \"9e0bbfb8ace8723145aa0852d2c272f3f7e153f03292ab2e4da3ebcd9b9ada13\"}
",
    ),
    SiteStep::Holds(b"b/c", b"base/5/INCREMENTAL.16384", b""),
    SiteStep::Holds(b"o/x", FORK, b""),
];

#[test]
fn a_chain_is_combined_and_restored(rt: HostRuntime) -> Result<(), Wrong> {
    let mut site = MemSite::new(rt.alloc(), &[])?;
    make_calls(&rt, rt.alloc(), &mut site, &CHAIN)?;
    make_calls(&rt, rt.alloc(), &mut site, &CALLS)?;
    assert!(rt; are_same(rt.alloc(), &mut site, b"o/p", b"o/r")?);
    assert!(rt; are_same(rt.alloc(), &mut site, b"o/p", b"o/r3")?);
    assert!(rt; are_same(rt.alloc(), &mut site, b"o/p", b"o/s2")?);
    assert!(rt; are_same(rt.alloc(), &mut site, b"o/p", b"o/t3")?);
    assert!(rt; are_same(rt.alloc(), &mut site, b"o/p", b"o/t4")?);
    take_site_steps(rt.alloc(), &mut site, &COMBINED)
}

/// Members out of order, left out, doubled, or none of a chain; and words that aren't taken.
static REFUSED: [Call; 11] = [
    (
        "combine c f1 i2 i1",
        "",
        Status::Refused,
        "refused 32 WrongPrior i2 0/1005A0 0/1003B0\n",
    ),
    (
        "combine c f1 f1",
        "",
        Status::Refused,
        "refused 31 LaterFull f1\n",
    ),
    (
        "combine c i1",
        "",
        Status::Refused,
        "refused 30 FirstIncremental i1\n",
    ),
    (
        "combine c f1 i1 i1",
        "",
        Status::Refused,
        "refused 32 WrongPrior i1 0/1003B0 0/1005A0\n",
    ),
    (
        "combine c f1 none",
        "",
        Status::Refused,
        "refused 20 NoManifest none\n",
    ),
    (
        "restore r f1 i2",
        "",
        Status::Refused,
        "refused 32 WrongPrior i2 0/1005A0 0/1003B0\n",
    ),
    (
        "restore r i1",
        "",
        Status::Refused,
        "refused 30 FirstIncremental i1\n",
    ),
    ("combine", "", Status::Usage, "refused 1 Usage\n"),
    ("combine c", "", Status::Usage, "refused 1 Usage\n"),
    ("combine C f1", "", Status::Usage, "refused 1 Usage\n"),
    ("combine c F1", "", Status::Usage, "refused 1 Usage\n"),
];

#[test]
fn chains_out_of_order_are_refused(rt: HostRuntime) -> Result<(), Wrong> {
    let mut site = MemSite::new(rt.alloc(), &[])?;
    make_calls(&rt, rt.alloc(), &mut site, &CHAIN)?;
    make_calls(&rt, rt.alloc(), &mut site, &REFUSED)
}
