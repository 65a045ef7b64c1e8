//! The texts of faults that are of a backup.

ghost use Rattle.std.specs.Prelude.{◌≡◌, IfOk};
ghost use Rattle.command_base.specs.Backups.{of_backup, with_number, lsns_text, with_lsns, overlap_text};
ghost use Rattle.command_base.specs.Backups.{systems_text, gap_text, manifest_text};

use crate::faults::joined;
use lsn_core::{Lsn, NoMemory, Text, lsn_text};
use manifest::ManifestFault;
use std::alloc::Global;

/// A fault by number and name, the backup, and what stands behind these.
pub fn of_backup(alloc: Global, fault: &[u8], name: &[u8], text: &[u8]) -> Result<Text, NoMemory>
    ensures { IfOk result (λ line. line ≡ of_backup fault.now name.now text.now) }
{
    joined(alloc, &[fault, b" ", name, b" ", text])
}

/// The same with a number behind.
pub fn with_number(alloc: Global, fault: &[u8], name: &[u8], number: u64) -> Result<Text, NoMemory>
    ensures { IfOk result (λ line. line ≡ with_number fault.now name.now number) }
{
    let number = format!(in alloc; "{number}")?;
    of_backup(alloc, fault, name, number.as_bytes())
}

/// Two places with a space between them.
pub fn lsns_text(alloc: Global, first: Lsn, second: Lsn) -> Result<Text, NoMemory>
    ensures { IfOk result (λ text. text ≡ lsns_text first second) }
{
    let first = lsn_text(alloc, first)?;
    let second = lsn_text(alloc, second)?;
    joined(alloc, &[first.as_bytes(), b" ", second.as_bytes()])
}

/// A fault by number and name, the backup, and two places.
pub fn with_lsns(
    alloc: Global,
    fault: &[u8],
    name: &[u8],
    first: Lsn,
    second: Lsn,
) -> Result<Text, NoMemory>
    ensures { IfOk result (λ line. line ≡ with_lsns fault.now name.now first second) }
{
    let lsns = lsns_text(alloc, first, second)?;
    of_backup(alloc, fault, name, lsns.as_bytes())
}

/// A backup starts at a place, and the one before it ends past that.
pub fn overlap_text(alloc: Global, name: &[u8], start: Lsn, end: Lsn) -> Result<Text, NoMemory>
    ensures { IfOk result (λ text. text ≡ overlap_text name.now start end) }
{
    with_lsns(alloc, b"35 Overlap", name, start, end)
}

/// A backup is of a store with the first system identifier, and the second is expected.
pub fn systems_text(alloc: Global, name: &[u8], have: u64, expected: u64) -> Result<Text, NoMemory>
    ensures { IfOk result (λ text. text ≡ systems_text name.now have expected) }
{
    let systems = format!(in alloc; "{have} {expected}")?;
    of_backup(alloc, b"33 SystemDiffers", name, systems.as_bytes())
}

/// No summary that is kept covers a place.
pub fn gap_text(alloc: Global, place: Lsn) -> Result<Text, NoMemory>
    ensures { IfOk result (λ text. text ≡ gap_text place) }
{
    let place = lsn_text(alloc, place)?;
    joined(alloc, &[b"50 SummaryGap ", place.as_bytes()])
}

/// The manifest of the backup of this name isn't taken.
pub fn manifest_text(alloc: Global, name: &[u8], why: ManifestFault) -> Result<Text, NoMemory>
    ensures { IfOk result (λ text. text ≡ manifest_text name.now why) }
{
    match why {
        ManifestFault::Lines => of_backup(alloc, b"21 ManifestDamaged", name, b"Lines"),
        ManifestFault::Sum => of_backup(alloc, b"21 ManifestDamaged", name, b"Sum"),
        ManifestFault::Json => of_backup(alloc, b"21 ManifestDamaged", name, b"Json"),
        ManifestFault::Version(v) => with_number(alloc, b"22 ManifestVersion", name, v),
        ManifestFault::Shape => of_backup(alloc, b"21 ManifestDamaged", name, b"Shape"),
        ManifestFault::SumKind => of_backup(alloc, b"21 ManifestDamaged", name, b"SumKind"),
        ManifestFault::TimelineIs(v) => with_number(alloc, b"34 TimelineDiffers", name, v),
        ManifestFault::NoMemory => joined(alloc, &[b"61 NoMemory"]),
    }
}
