//! Notes on the directory of a backup that isn't as its manifest lists it.

use crate::areas::area_note;
use crate::lines::note;
use chain_check::{ChainFault, FileWhy, LinkFault, ManifestWhy, Refusal};
use command_base::joined;
use lsn_core::{AreaFault, NoMemory, Text, lsn_text};
use std::alloc::Global;

const USE_ANOTHER: &[u8] = b"bring the file back from a copy of the backup, or use another backup";

fn manifest_text(why: ManifestWhy) -> &'static [u8] {
    match why {
        ManifestWhy::Lines => b"its last line is no checksum of the lines before it",
        ManifestWhy::Sum => b"its checksum isn't that of its lines",
        ManifestWhy::Json => b"it is no JSON text",
        ManifestWhy::Shape => b"its keys and values are not those of a manifest",
        ManifestWhy::SumKind => b"a file's checksum is none of SHA224, SHA256, SHA384 and SHA512",
    }
}

fn file_text(why: FileWhy) -> &'static [u8] {
    match why {
        FileWhy::Both => b"it is incremental, and its whole form is there too",
        FileWhy::Length => b"it is incremental, and its size isn't the one that its head gives",
        FileWhy::Magic => b"it is incremental, and doesn't begin as such a file",
        FileWhy::Range => b"it is incremental, and a number in its head is too great",
        FileWhy::Order => b"it is incremental, and the blocks in its head don't rise",
        FileWhy::PageLength => b"its size is no multiple of 8192 bytes",
    }
}

/// A backup, and what is told behind what is wrong with it.
#[derive(Clone, Copy)]
struct Judged<'a> {
    backup: &'a [u8],
    behind: &'a [u8],
}

/// A file of the backup, and what is wrong with it.
fn file_note(
    alloc: Global,
    of: &Judged,
    path: &[u8],
    wrong: &[u8],
    next: &[u8],
) -> Result<Text, NoMemory> {
    note(
        alloc,
        &[b"file ", of.backup, b"/", path, b" ", wrong, of.behind],
        next,
    )
}

/// Its manifest, and what is wrong with that.
fn manifest_note(alloc: Global, of: &Judged, wrong: &[u8]) -> Result<Text, NoMemory> {
    let wrong = joined(alloc, &[b"is refused: ", wrong])?;
    file_note(alloc, of, b"backup_manifest", wrong.as_bytes(), USE_ANOTHER)
}

/// The directory of this name isn't as its manifest lists it. How many listed files were checked
/// before the fault is told too, where that is known.
pub fn directory_note(alloc: Global, backup: &[u8], refusal: &Refusal) -> Result<Text, NoMemory> {
    match refusal.fault {
        ChainFault::Failed => area_note(alloc, backup, AreaFault::Failed),
        ChainFault::NoMemory => area_note(alloc, backup, AreaFault::NoMemory),
        _ => {
            let checked = refusal.checked;
            let behind = format!(in alloc; " (listed files checked before: {checked})")?;
            let of = Judged {
                backup,
                behind: behind.as_bytes(),
            };
            refused_note(alloc, &of, &refusal.fault)
        }
    }
}

/// The directory isn't as its manifest lists it.
fn refused_note(alloc: Global, of: &Judged, fault: &ChainFault) -> Result<Text, NoMemory> {
    match fault {
        ChainFault::NoManifest => note(
            alloc,
            &[
                b"backup ",
                of.backup,
                b" has no file backup_manifest",
                of.behind,
            ],
            b"it was not completed, or is no backup: take another one",
        ),
        ChainFault::ManifestDamaged(why) => manifest_note(alloc, of, manifest_text(*why)),
        ChainFault::ManifestVersion(_) | ChainFault::TimelineDiffers(_) => {
            number_note(alloc, of, fault)
        }
        _ => listed_note(alloc, of, fault),
    }
}

/// The manifest's version or timeline is another one.
fn number_note(alloc: Global, of: &Judged, fault: &ChainFault) -> Result<Text, NoMemory> {
    let wrong = match fault {
        ChainFault::ManifestVersion(version) => {
            format!(in alloc; "its version is {version}, and only 1 and 2 are read")?
        }
        ChainFault::TimelineDiffers(timeline) => {
            format!(in alloc; "its timeline is {timeline}, and only 1 is read")?
        }
        _ => return Err(NoMemory),
    };
    manifest_note(alloc, of, wrong.as_bytes())
}

/// A file isn't as it is listed.
fn listed_note(alloc: Global, of: &Judged, fault: &ChainFault) -> Result<Text, NoMemory> {
    match fault {
        ChainFault::FileMissing(path) => {
            let wrong = b"is missing, or is the label and not listed";
            file_note(alloc, of, path.as_bytes(), wrong, USE_ANOTHER)
        }
        ChainFault::FileSize(path, have, listed) => {
            let wrong = format!(in alloc; "has {have} bytes, and {listed} are listed")?;
            file_note(alloc, of, path.as_bytes(), wrong.as_bytes(), USE_ANOTHER)
        }
        ChainFault::FileSum(path) => {
            let wrong = b"has the listed size and another checksum than is listed";
            file_note(alloc, of, path.as_bytes(), wrong, USE_ANOTHER)
        }
        ChainFault::FileExtra(path) => {
            let next = b"take it out of the backup, if it doesn't belong there";
            file_note(alloc, of, path.as_bytes(), b"is not listed", next)
        }
        ChainFault::LabelDamaged(line) => {
            let wrong = format!(in alloc; "is refused at line {line}")?;
            file_note(alloc, of, b"backup_label", wrong.as_bytes(), USE_ANOTHER)
        }
        ChainFault::FileDamaged(path, why) => {
            let wrong = joined(alloc, &[b"is refused: ", file_text(*why)])?;
            file_note(alloc, of, path.as_bytes(), wrong.as_bytes(), USE_ANOTHER)
        }
        _ => Err(NoMemory),
    }
}

/// No manifest can list what a chain to this backup is combined to: its manifest isn't as it was
/// read.
pub fn unlisted_note(alloc: Global, backup: &[u8]) -> Result<Text, NoMemory> {
    let of = Judged {
        backup,
        behind: b"",
    };
    manifest_note(alloc, &of, manifest_text(ManifestWhy::Shape))
}

/// A backup of a chain, with what is wrong, and what to do next.
fn member_note(alloc: Global, backup: &[u8], wrong: &[u8], next: &[u8]) -> Result<Text, NoMemory> {
    note(alloc, &[b"backup ", backup, b" ", wrong], next)
}

/// The version of the backup's manifest, or a timeline of its label, is another one.
fn heads_note(alloc: Global, backup: &[u8], why: &LinkFault) -> Result<Text, NoMemory> {
    let told = match why {
        LinkFault::ManifestVersion(version) => format!(in alloc;
            "/backup_manifest is of version {version}, and a chain takes only 2"
        )?,
        LinkFault::TimelineDiffers(timeline) => format!(in alloc;
            "/backup_label tells timeline {timeline}, and only 1 is read"
        )?,
        _ => return Err(NoMemory),
    };
    note(
        alloc,
        &[b"file ", backup, told.as_bytes()],
        b"use another backup",
    )
}

/// The backup isn't of the same store as the one before, or starts elsewhere than it should.
fn numbers_note(alloc: Global, backup: &[u8], why: &LinkFault) -> Result<Text, NoMemory> {
    let wrong = match why {
        LinkFault::SystemDiffers(have, expected) => format!(in alloc;
            "is of the store {have}, and the backup before it of the store {expected}"
        )?.into_bytes(),
        LinkFault::WrongPrior(have, expected) => {
            let have = lsn_text(alloc, *have)?;
            let expected = lsn_text(alloc, *expected)?;
            let parts = [
                b"names a prior at ".as_slice(),
                have.as_bytes(),
                b", and the backup before it starts at ",
                expected.as_bytes(),
            ];
            joined(alloc, &parts)?.into_vec()
        }
        LinkFault::Overlap(start, end) => {
            let start = lsn_text(alloc, *start)?;
            let end = lsn_text(alloc, *end)?;
            let parts = [
                b"starts at ".as_slice(),
                start.as_bytes(),
                b", before the end of the backup before it at ",
                end.as_bytes(),
            ];
            joined(alloc, &parts)?.into_vec()
        }
        _ => return Err(NoMemory),
    };
    member_note(
        alloc,
        backup,
        &wrong,
        b"name the backups of one chain in their order",
    )
}

/// The file of this path is incremental, and the backup before doesn't have it.
fn incremental_note(alloc: Global, backup: &[u8], path: &[u8]) -> Result<Text, NoMemory> {
    note(
        alloc,
        &[
            b"file ",
            backup,
            b"/",
            path,
            b" is incremental, and the backup before it doesn't have the file",
        ],
        b"use another backup",
    )
}

/// The backup isn't taken as a member of a chain.
pub fn link_note(alloc: Global, backup: &[u8], why: &LinkFault) -> Result<Text, NoMemory> {
    match why {
        LinkFault::TooManyMembers => note(
            alloc,
            &[b"more than 64 backups are named"],
            b"take a full backup",
        ),
        LinkFault::ManifestVersion(_) | LinkFault::TimelineDiffers(_) => {
            heads_note(alloc, backup, why)
        }
        LinkFault::FirstIncremental => member_note(
            alloc,
            backup,
            b"is incremental: its label names a prior",
            b"name the backups of one chain in their order, a full one first",
        ),
        LinkFault::LaterFull => member_note(
            alloc,
            backup,
            b"is no incremental one: its label names no prior",
            b"name the backups of one chain in their order",
        ),
        LinkFault::SystemDiffers(_, _) | LinkFault::WrongPrior(_, _) | LinkFault::Overlap(_, _) =>
            numbers_note(alloc, backup, why),
        LinkFault::NoPriorFile(path) => incremental_note(alloc, backup, path.as_bytes()),
        LinkFault::NoMemory => Err(NoMemory),
    }
}
