//! The command `restore` from the words to the printed line and the output's bytes, over a site in
//! memory. Lines, places and sums are those of an independent implementation of the formats.

ghost use Rattle.vault.specs.Site.{AllHome};

use crate::calls::{Call, INIT, NONE, make_calls, run};
use crate::outputs::are_same;
use crate::verify_tests::F1_LABEL;
use memory_vault::MemSite;
use pgbackup_cli::Status;
use std::alloc::Global;
use std::sync::Wait;
use std::thread::Threads;
use test_areas::{SiteStep, Wrong, take_site_steps};
use vault::Site;

const FORK: &[u8] = b"base/5/16384";

const BACKUP: Call<'static> = (
    "run",
    "worker w
create 5/16384
grow 5/16384@0 10 24,8192,0
full f1
",
    Status::Done,
    "opened 0/100060
w 2 ok 0/100060 0/100090
w 3 ok 10 0/100090 0/1003B0
w 4 backup 0/1003B0 0/100430
wal 0/100430
",
);

/// What a call of the program prints, which ends well.
fn done<S: Site>(
    rt: &(impl Threads + Wait + Sync),
    alloc: Global,
    site: &mut S,
    line: &str,
) -> Result<Vec<u8>, Wrong>
    requires { AllHome (S.areas site.old) }
    ensures { AllHome (S.areas site.new) }
{
    let (status, printed) = run(rt, alloc, site, line, "", NONE)?;
    if status == Status::Done {
        Ok(printed)
    } else {
        Err(Wrong::Step(printed.len()))
    }
}

/// Whether a restore into `o/r` comes to what the WAL's replay into `o/p` comes to: up to the same
/// end, so many forks and pages, and the same file.
pub(crate) fn is_replayed<S: Site>(
    rt: &(impl Threads + Wait + Sync),
    alloc: Global,
    site: &mut S,
    line: &str,
) -> Result<bool, Wrong>
    requires { AllHome (S.areas site.old) }
    ensures { AllHome (S.areas site.new) }
{
    let restored = done(rt, alloc, site, line)?;
    let replayed = done(rt, alloc, site, "replay p")?;
    let end = restored.strip_prefix(b"restored ".as_slice());
    let same = end.is_some() && end == replayed.strip_prefix(b"replayed ".as_slice());
    Ok(same && are_same(alloc, site, b"o/p", b"o/r")?)
}

/// A backup, restored to its end and refused before it, and the WAL replayed to the same place.
static CALLS: [Call; 8] = [
    INIT,
    BACKUP,
    (
        "restore --target 0/10042F r f1",
        "",
        Status::Refused,
        "refused 40 TargetEarly 0/10042F 0/100430\n",
    ),
    ("restore r f1", "", Status::Done, "restored 0/100430 1 10\n"),
    (
        "restore r f1",
        "",
        Status::Refused,
        "refused 41 AreaNotEmpty o/r\n",
    ),
    (
        "restore q f1 --target 0/100430",
        "",
        Status::Done,
        "restored 0/100430 1 10\n",
    ),
    (
        "restore t --target 0/100431 f1",
        "",
        Status::Refused,
        "refused 13 WalShort 0/100430 0/100431\n",
    ),
    ("replay p", "", Status::Done, "replayed 0/100430 1 10\n"),
];

/// What is refused left no file.
static LEFT: [SiteStep; 1] = [SiteStep::Holds(b"o/t", FORK, b"")];

#[test]
fn a_backup_is_restored(rt: HostRuntime) -> Result<(), Wrong> {
    let mut site = MemSite::new(rt.alloc(), &[])?;
    make_calls(&rt, rt.alloc(), &mut site, &CALLS)?;
    assert!(rt; are_same(rt.alloc(), &mut site, b"o/p", b"o/r")?);
    assert!(rt; are_same(rt.alloc(), &mut site, b"o/p", b"o/q")?);
    take_site_steps(rt.alloc(), &mut site, &LEFT)
}

/// Words that aren't taken, two backups that aren't there, one that isn't, and one that isn't covered
/// by the WAL.
static REFUSED: [Call; 9] = [
    ("restore", "", Status::Usage, "refused 1 Usage\n"),
    ("restore r", "", Status::Usage, "refused 1 Usage\n"),
    (
        "restore r f1 f2",
        "",
        Status::Refused,
        "refused 20 NoManifest f1\n",
    ),
    ("restore R f1", "", Status::Usage, "refused 1 Usage\n"),
    ("restore r F1", "", Status::Usage, "refused 1 Usage\n"),
    (
        "restore r f1 --target 0",
        "",
        Status::Usage,
        "refused 1 Usage\n",
    ),
    (
        "restore --target 0/1 --target 0/2 r f1",
        "",
        Status::Usage,
        "refused 1 Usage\n",
    ),
    (
        "restore r f9",
        "",
        Status::Refused,
        "refused 20 NoManifest f9\n",
    ),
    (
        "verify f1",
        "",
        Status::Refused,
        "refused 20 NoManifest f1\n",
    ),
];

#[test]
fn words_and_a_missing_backup_are_refused(rt: HostRuntime) -> Result<(), Wrong> {
    let mut site = MemSite::new(rt.alloc(), &[])?;
    make_calls(&rt, rt.alloc(), &mut site, &REFUSED)
}

/// A change of block 0 behind the backup, whose entry is an image.
static CHANGED: [Call; 3] = [
    INIT,
    BACKUP,
    (
        "run",
        "worker w\nchange 5/16384@0+100:61\n",
        Status::Done,
        "opened 0/100430\nw 2 ok 0/100430 0/100480\nwal 0/100480\n",
    ),
];

/// The manifest of the backup, with the sum of pages of which block 0 has the LSN F/0.
const NEWER_MANIFEST: &[u8] = b"{ \"PostgreSQL-Backup-Manifest-Version\": 2,
\"System-Identifier\": 7,
\"Files\": [
{ \"Path\": \"backup_label\", \"Size\": 200, \"Last-Modified\": \"2023-11-14 22:13:20 GMT\", \
\"Checksum-Algorithm\": \"SHA256\", \"Checksum\": \
\"67c229648f8e61f45608cf991942190ffcf72fc04da937b9742d4ef0ea009838\" },
{ \"Path\": \"base/5/16384\", \"Size\": 81920, \"Last-Modified\": \"2023-11-14 22:13:20 GMT\", \
\"Checksum-Algorithm\": \"SHA256\", \"Checksum\": \
\"37d499429c0c24ddbdc94a08762538e8c1267d3fecd3e21b8bb97f65c4ecf47a\" }
],
\"WAL-Ranges\": [
{ \"Timeline\": 1, \"Start-LSN\": \"0/1003B0\", \"End-LSN\": \"0/100430\" }
],
\"Manifest-Checksum\": \"af9c297addd1454788cea63af283e6dbd839b54cdfdc3bc91aa815b5ae3171c8\"}
";

/// Block 0 of the backup gets an LSN past all of the WAL, and the sums are made again.
static NEWER: [SiteStep; 3] = [
    SiteStep::Holds(b"b/f1", b"backup_label", F1_LABEL),
    SiteStep::Puts(b"b/f1", FORK, b"\x0f\0\0\0\0\0\0\0"),
    SiteStep::Puts(b"b/f1", b"backup_manifest", NEWER_MANIFEST),
];

static AGAIN: [Call; 4] = [
    (
        "verify f1",
        "",
        Status::Done,
        "verified f1 full 0/1003B0 0/100430 2\n",
    ),
    ("restore r f1", "", Status::Done, "restored 0/100480 1 10\n"),
    (
        "restore q f1 --target 0/10047F",
        "",
        Status::Done,
        "restored 0/100430 1 10\n",
    ),
    ("replay p", "", Status::Done, "replayed 0/100480 1 10\n"),
];

/// An image is redone whatever LSN the page has that was copied.
#[test]
fn an_image_passes_over_a_newer_page(rt: HostRuntime) -> Result<(), Wrong> {
    let mut site = MemSite::new(rt.alloc(), &[])?;
    make_calls(&rt, rt.alloc(), &mut site, &CHANGED)?;
    take_site_steps(rt.alloc(), &mut site, &NEWER)?;
    make_calls(&rt, rt.alloc(), &mut site, &AGAIN)?;
    assert!(rt; are_same(rt.alloc(), &mut site, b"o/p", b"o/r")?);
    assert!(rt; !are_same(rt.alloc(), &mut site, b"o/p", b"o/q")?);
    Ok(())
}
