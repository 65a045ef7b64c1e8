//! What the check of a backup's directory tells, as a line.

use chain_check::{ChainFault, FileWhy, ManifestWhy, Member, Refusal, check_dir};
use lsn_core::{NoMemory, Text};
use memory_vault::MemVault;
use std::alloc::Global;

/// A word, a path and numbers, with a space between them.
fn line_of(alloc: Global, word: &[u8], path: &[u8], numbers: &[u64]) -> Result<Vec<u8>, NoMemory> {
    let mut line = Vec::from_slice(alloc, word)?;
    if !path.is_empty() {
        line.push(b' ')?;
        line.extend_from_slice(path)?;
    }
    for number in numbers {
        line.extend_from_slice(format!(in alloc; " {number}")?.as_bytes())?;
    }
    Ok(line)
}

/// The word for why a manifest is damaged.
fn manifest_word(why: ManifestWhy) -> &'static [u8] {
    match why {
        ManifestWhy::Lines => b"ManifestDamaged Lines",
        ManifestWhy::Sum => b"ManifestDamaged Sum",
        ManifestWhy::Json => b"ManifestDamaged Json",
        ManifestWhy::Shape => b"ManifestDamaged Shape",
        ManifestWhy::SumKind => b"ManifestDamaged SumKind",
    }
}

/// The line of a damaged file.
fn damage_line(alloc: Global, path: &[u8], why: FileWhy) -> Result<Vec<u8>, NoMemory> {
    let mut line = line_of(alloc, b"FileDamaged", path, &[])?;
    line.extend_from_slice(match why {
        FileWhy::Both => b" Both",
        FileWhy::Length => b" Length",
        FileWhy::Magic => b" Magic",
        FileWhy::Range => b" Range",
        FileWhy::Order => b" Order",
        FileWhy::PageLength => b" PageLength",
    })?;
    Ok(line)
}

/// The line of a fault.
fn fault_line(alloc: Global, fault: &ChainFault) -> Result<Vec<u8>, NoMemory> {
    match fault {
        ChainFault::NoManifest => line_of(alloc, b"NoManifest", b"", &[]),
        ChainFault::ManifestDamaged(why) => line_of(alloc, manifest_word(*why), b"", &[]),
        ChainFault::ManifestVersion(v) => line_of(alloc, b"ManifestVersion", b"", &[*v]),
        ChainFault::TimelineDiffers(v) => line_of(alloc, b"TimelineDiffers", b"", &[*v]),
        ChainFault::FileMissing(path) => line_of(alloc, b"FileMissing", path.as_bytes(), &[]),
        ChainFault::FileSize(path, have, listed) => {
            line_of(alloc, b"FileSize", path.as_bytes(), &[*have, *listed])
        }
        ChainFault::FileSum(path) => line_of(alloc, b"FileSum", path.as_bytes(), &[]),
        ChainFault::FileExtra(path) => line_of(alloc, b"FileExtra", path.as_bytes(), &[]),
        ChainFault::LabelDamaged(line) => {
            line_of(alloc, b"LabelDamaged", b"", &[u64::from(*line)])
        }
        ChainFault::FileDamaged(path, why) => damage_line(alloc, path.as_bytes(), *why),
        ChainFault::Failed => line_of(alloc, b"Failed", b"", &[]),
        ChainFault::NoMemory => Err(NoMemory),
    }
}

/// The line of a refusal: its fault and, where the files decide it, how many were found as listed.
fn refusal_line(alloc: Global, refusal: &Refusal) -> Result<Vec<u8>, NoMemory> {
    let mut line = fault_line(alloc, &refusal.fault)?;
    if !matches!(refusal.fault, ChainFault::Failed) {
        let checked = refusal.checked;
        line.extend_from_slice(format!(in alloc; " after {checked}")?.as_bytes())?;
    }
    Ok(line)
}

/// The line of a member.
fn member_line(alloc: Global, member: &Member) -> Result<Vec<u8>, NoMemory> {
    let manifest = &member.manifest;
    let rows = manifest.files.len() as u64;
    let numbers = [manifest.start.0, manifest.end.0, rows];
    line_of(alloc, member.name.as_bytes(), b"", &numbers)
}

/// What the check of a directory tells.
pub(crate) fn told(alloc: Global, area: &mut MemVault) -> Result<Vec<u8>, NoMemory> {
    let name = Text::copied(alloc, b"f1")?;
    match check_dir(alloc, area, &name) {
        Ok(member) => member_line(alloc, &member),
        Err(refusal) => refusal_line(alloc, &refusal),
    }
}
