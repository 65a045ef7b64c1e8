//! The command `verify` from the words to the printed line, over the directory of a backup in
//! memory. The directory, its changes and their sums are those of an independent implementation of
//! the formats.

ghost use Rattle.std.specs.Prelude.{IfOk};
ghost use Rattle.vault.specs.Site.{AllHome};
ghost use Rattle.memory_vault.specs.MemorySite.{areas_of};

use crate::calls::{Call, is_answered, make_calls};
use lsn_core::NoMemory;
use memory_vault::{MemSite, MemVault};
use pgbackup_cli::Status;
use std::alloc::Global;
use std::sync::Wait;
use std::thread::Threads;
use test_areas::{Change, Wrong, make_all};

const LABEL: &[u8] = b"backup_label";

const MANIFEST: &[u8] = b"backup_manifest";

const FORK: &[u8] = b"base/5/16384";

/// The label of a full backup `f1`.
pub(crate) const F1_LABEL: &[u8] = b"START WAL LOCATION: 0/1003B0 (file 000000010000000000000001)
CHECKPOINT LOCATION: 0/1003D0
BACKUP METHOD: streamed
BACKUP FROM: primary
START TIME: 2023-11-14 22:13:20 UTC
LABEL: f1
START TIMELINE: 1
";

/// Its manifest.
pub(crate) const F1_MANIFEST: &[u8] = b"{ \"PostgreSQL-Backup-Manifest-Version\": 2,
\"System-Identifier\": 7,
\"Files\": [
{ \"Path\": \"backup_label\", \"Size\": 200, \"Last-Modified\": \"2023-11-14 22:13:20 GMT\", \
\"Checksum-Algorithm\": \"SHA256\", \"Checksum\": \
\"67c229648f8e61f45608cf991942190ffcf72fc04da937b9742d4ef0ea009838\" },
{ \"Path\": \"base/5/16384\", \"Size\": 81920, \"Last-Modified\": \"2023-11-14 22:13:20 GMT\", \
\"Checksum-Algorithm\": \"SHA256\", \"Checksum\": \
\"bf94afaf36ca0898ef37004c61c67ee0edea74010eef3655b1030e41f3dbf214\" }
],
\"WAL-Ranges\": [
{ \"Timeline\": 1, \"Start-LSN\": \"0/1003B0\", \"End-LSN\": \"0/100430\" }
],
\"Manifest-Checksum\": \"95fe2d883e5dac53bbb8338896e8139cf01aa2b54520fd1fe1ed690cff39cf32\"}
";

/// The files of a full backup `f1` of ten pages: its label, its manifest, and the pages, each its
/// head and zeros.
static F1: [Change<'static>; 13] = [
    Change::Write(LABEL, 0, F1_LABEL),
    Change::Write(MANIFEST, 0, F1_MANIFEST),
    Change::Write(
        FORK,
        0,
        b"\0\0\0\0\xe0\0\x10\0\0\0\0\0\x18\0\0\x20\0\x20\x04\x20",
    ),
    Change::Write(
        FORK,
        8192,
        b"\0\0\0\0\x30\x01\x10\0\0\0\0\0\x18\0\0\x20\0\x20\x04\x20",
    ),
    Change::Write(
        FORK,
        16384,
        b"\0\0\0\0\x80\x01\x10\0\0\0\0\0\x18\0\0\x20\0\x20\x04\x20",
    ),
    Change::Write(
        FORK,
        24576,
        b"\0\0\0\0\xd0\x01\x10\0\0\0\0\0\x18\0\0\x20\0\x20\x04\x20",
    ),
    Change::Write(
        FORK,
        32768,
        b"\0\0\0\0\x20\x02\x10\0\0\0\0\0\x18\0\0\x20\0\x20\x04\x20",
    ),
    Change::Write(
        FORK,
        40960,
        b"\0\0\0\0\x70\x02\x10\0\0\0\0\0\x18\0\0\x20\0\x20\x04\x20",
    ),
    Change::Write(
        FORK,
        49152,
        b"\0\0\0\0\xc0\x02\x10\0\0\0\0\0\x18\0\0\x20\0\x20\x04\x20",
    ),
    Change::Write(
        FORK,
        57344,
        b"\0\0\0\0\x10\x03\x10\0\0\0\0\0\x18\0\0\x20\0\x20\x04\x20",
    ),
    Change::Write(
        FORK,
        65536,
        b"\0\0\0\0\x60\x03\x10\0\0\0\0\0\x18\0\0\x20\0\x20\x04\x20",
    ),
    Change::Write(
        FORK,
        73728,
        b"\0\0\0\0\xb0\x03\x10\0\0\0\0\0\x18\0\0\x20\0\x20\x04\x20",
    ),
    Change::Write(FORK, 81919, b"\0"),
];

/// The area of these files, changed.
fn directory_of(alloc: Global, changes: &[Change]) -> Result<MemVault, Wrong> {
    let mut area = MemVault::new(alloc, &[])?;
    make_all(&mut area, &F1)?;
    make_all(&mut area, changes)?;
    Ok(area)
}

/// A site with this area of the backup `f1`.
fn site_of(alloc: Global, area: MemVault) -> Result<MemSite, NoMemory>
    ensures { IfOk result (λ site. AllHome (areas_of site)) }
{
    let mut site = MemSite::new(alloc, &[])?;
    site.set(b"b/f1", area)?;
    Ok(site)
}

/// `verify f1` of the files so changed ends and prints so.
fn is_verified(
    rt: &(impl Threads + Wait + Sync),
    alloc: Global,
    changes: &[Change],
    wanted: Status,
    line: &str,
) -> Result<bool, Wrong> {
    let mut site = site_of(alloc, directory_of(alloc, changes)?)?;
    let call: Call = ("verify f1", "", wanted, line);
    Ok(is_answered(rt, alloc, &mut site, &call)?)
}

/// What is changed, and the line and the status that come of it.
type Case<'a> = (&'a [Change<'a>], Status, &'a str);

fn check(rt: &(impl Threads + Wait + Sync), alloc: Global, cases: &[Case]) -> Result<(), Wrong> {
    for (number, (changes, wanted, line)) in cases.iter().enumerate() {
        if !is_verified(rt, alloc, changes, *wanted, line)? {
            return Err(Wrong::Step(number));
        }
    }
    Ok(())
}

/// One damage each.
static DAMAGED: [Case<'static>; 8] = [
    (
        &[Change::Write(FORK, 100, b"\x01")],
        Status::Refused,
        "refused 26 FileSum f1 base/5/16384\n",
    ),
    (
        &[Change::Cut(FORK, 81919)],
        Status::Refused,
        "refused 25 FileSize f1 base/5/16384 81919 81920\n",
    ),
    (
        &[Change::Remove(FORK)],
        Status::Refused,
        "refused 23 FileMissing f1 base/5/16384\n",
    ),
    (
        &[Change::Write(b"base/5/9", 0, b"")],
        Status::Refused,
        "refused 24 FileExtra f1 base/5/9\n",
    ),
    (
        &[Change::Write(LABEL, 30, b"g")],
        Status::Refused,
        "refused 26 FileSum f1 backup_label\n",
    ),
    (
        &[Change::Write(MANIFEST, 114, b"1")],
        Status::Refused,
        "refused 21 ManifestDamaged f1 Sum\n",
    ),
    (
        &[Change::Cut(MANIFEST, 649)],
        Status::Refused,
        "refused 21 ManifestDamaged f1 Lines\n",
    ),
    (
        &[Change::Remove(MANIFEST)],
        Status::Refused,
        "refused 20 NoManifest f1\n",
    ),
];

/// Other contents, whose sums were made again.
static REMADE: [Case<'static>; 5] = [
    (
        &[
            Change::Write(LABEL, 128, b"standby"),
            Change::Write(
                MANIFEST,
                206,
                b"05ed2bc0cc3d730671546bbae240e189b9d29eac5e96e93b0730064218bd3d21",
            ),
            Change::Write(
                MANIFEST,
                583,
                b"3ea7113309f67b585e2170145080f135f308b2ae0d6b3014847f226c4aa1bf2d",
            ),
        ],
        Status::Refused,
        "refused 27 LabelDamaged f1 4\n",
    ),
    (
        &[
            Change::Write(MANIFEST, 530, b"8"),
            Change::Write(
                MANIFEST,
                583,
                b"a07b321af988e027e49ca58460b410f1cdb15b37e9602186ed6f740666005677",
            ),
        ],
        Status::Refused,
        "refused 27 LabelDamaged f1 1\n",
    ),
    (
        &[
            Change::Write(MANIFEST, 40, b"3"),
            Change::Write(
                MANIFEST,
                583,
                b"603f94db48c1b37c583f5fbda72080f474db98a491d155d870a107ee294c762e",
            ),
        ],
        Status::Refused,
        "refused 22 ManifestVersion f1 3\n",
    ),
    (
        &[
            Change::Write(MANIFEST, 506, b"2"),
            Change::Write(
                MANIFEST,
                583,
                b"41e16ce9dbc81221101ea8af22aecd8c939eb3f30f1cac8e6f43a3cbd2ff5c07",
            ),
        ],
        Status::Refused,
        "refused 34 TimelineDiffers f1 2\n",
    ),
    (
        &[
            Change::Cut(FORK, 81919),
            Change::Write(MANIFEST, 309, b"81919"),
            Change::Write(
                MANIFEST,
                405,
                b"ca42caa6e034e737cf4ff3551ee8fc7a6715066068acdfb87f3b29dc61045161",
            ),
            Change::Write(
                MANIFEST,
                583,
                b"7c212cd6d5a20d2953b62f6315ee0d6f62ff6bd86a8de3446b899882b07f5684",
            ),
        ],
        Status::Refused,
        "refused 28 FileDamaged f1 base/5/16384 PageLength\n",
    ),
];

/// Directories that are as listed: as it was, with a file of the WAL beside it, and with a label
/// that tells a prior.
static LISTED: [Case<'static>; 3] = [
    (&[], Status::Done, "verified f1 full 0/1003B0 0/100430 2\n"),
    (
        &[Change::Write(b"pg_wal/x", 0, b"x")],
        Status::Done,
        "verified f1 full 0/1003B0 0/100430 2\n",
    ),
    (
        &[
            Change::Write(
                LABEL,
                200,
                b"INCREMENTAL FROM LSN: 0/100060\nINCREMENTAL FROM TLI: 1\n",
            ),
            Change::Write(MANIFEST, 112, b"255"),
            Change::Write(
                MANIFEST,
                206,
                b"7ccd946f58db90ce414afd313ce463998ea2f563542596650b8edffb48f8e082",
            ),
            Change::Write(
                MANIFEST,
                583,
                b"574842354247dea92a3c9ab0810b0a3990fca846468eb587882b2b637e7c8d7b",
            ),
        ],
        Status::Done,
        "verified f1 incremental 0/1003B0 0/100430 2\n",
    ),
];

#[test]
fn a_backup_is_as_listed(rt: HostRuntime) -> Result<(), Wrong> {
    check(&rt, rt.alloc(), &LISTED)
}

#[test]
fn damage_of_a_backup_is_told(rt: HostRuntime) -> Result<(), Wrong> {
    check(&rt, rt.alloc(), &DAMAGED)
}

#[test]
fn contents_are_judged_behind_sums(rt: HostRuntime) -> Result<(), Wrong> {
    check(&rt, rt.alloc(), &REMADE)
}

/// A site in which the first call of the area of `f1` fails.
fn failing_site(alloc: Global) -> Result<MemSite, NoMemory>
    ensures { IfOk result (λ site. AllHome (areas_of site)) }
{
    site_of(alloc, MemVault::new(alloc, &[1])?)
}

/// Words that aren't taken, and a directory that can't be read.
static REFUSED: [Call<'static>; 5] = [
    ("verify", "", Status::Usage, "refused 1 Usage\n"),
    ("verify f1 f2", "", Status::Usage, "refused 1 Usage\n"),
    ("verify F1", "", Status::Usage, "refused 1 Usage\n"),
    (
        "verify f2",
        "",
        Status::Refused,
        "refused 20 NoManifest f2\n",
    ),
    (
        "verify f1",
        "",
        Status::Device,
        "refused 60 DeviceFault b/f1\n",
    ),
];

#[test]
fn verify_is_refused(rt: HostRuntime) -> Result<(), Wrong> {
    let mut site = failing_site(rt.alloc())?;
    make_calls(&rt, rt.alloc(), &mut site, &REFUSED)
}
