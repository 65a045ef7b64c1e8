//! The text and the status of the fault of a backup's directory.

ghost use Rattle.std.specs.Prelude.{◌≡◌, ◌∷◌, ◌++◌, IfOk};
ghost use Rattle.chain_commands.specs.Directory.{manifest_why_text, file_why_text, size_text, file_damaged_text};
ghost use Rattle.chain_commands.specs.Directory.{directory_text, directory_status};

use chain_check::{ChainFault, FileWhy, ManifestWhy};
use command_base::{Status, area_text, backup_name, joined, of_backup, with_number};
use lsn_core::{AreaFault, NoMemory, Text};
use std::alloc::Global;

fn manifest_why_text(why: ManifestWhy) -> &'static [u8]
    ensures { result.now ≡ manifest_why_text why }
{
    match why {
        ManifestWhy::Lines => b"Lines",
        ManifestWhy::Sum => b"Sum",
        ManifestWhy::Json => b"Json",
        ManifestWhy::Shape => b"Shape",
        ManifestWhy::SumKind => b"SumKind",
    }
}

fn file_why_text(why: FileWhy) -> &'static [u8]
    ensures { result.now ≡ file_why_text why }
{
    match why {
        FileWhy::Both => b"Both",
        FileWhy::Length => b"Length",
        FileWhy::Magic => b"Magic",
        FileWhy::Range => b"Range",
        FileWhy::Order => b"Order",
        FileWhy::PageLength => b"PageLength",
    }
}

/// A path, and what stands behind it.
fn spaced(alloc: Global, path: &[u8], text: &[u8]) -> Result<Text, NoMemory>
    ensures { IfOk result (λ line. line ≡ path.now ++ (32 ∷ text.now)) }
{
    joined(alloc, &[path, b" ", text])
}

/// A file has another size than is listed.
fn size_text(
    alloc: Global,
    name: &[u8],
    path: &[u8],
    have: u64,
    listed: u64,
) -> Result<Text, NoMemory>
    ensures { IfOk result (λ line. line ≡ size_text name.now path.now have listed) }
{
    let sizes = format!(in alloc; "{have} {listed}")?;
    let file = spaced(alloc, path, sizes.as_bytes())?;
    of_backup(alloc, b"25 FileSize", name, file.as_bytes())
}

/// The form of a file isn't taken.
fn file_damaged_text(
    alloc: Global,
    name: &[u8],
    path: &[u8],
    why: FileWhy,
) -> Result<Text, NoMemory>
    ensures { IfOk result (λ line. line ≡ file_damaged_text name.now path.now why) }
{
    let file = spaced(alloc, path, file_why_text(why))?;
    of_backup(alloc, b"28 FileDamaged", name, file.as_bytes())
}

/// The directory of the backup of this name isn't taken.
pub fn directory_text(alloc: Global, name: &[u8], fault: &ChainFault) -> Result<Text, NoMemory>
    ensures { IfOk result (λ text. text ≡ directory_text name.now fault.now) }
{
    match fault {
        ChainFault::NoManifest => joined(alloc, &[b"20 NoManifest ", name]),
        ChainFault::ManifestDamaged(why) => {
            of_backup(alloc, b"21 ManifestDamaged", name, manifest_why_text(*why))
        }
        ChainFault::ManifestVersion(v) => with_number(alloc, b"22 ManifestVersion", name, *v),
        ChainFault::TimelineDiffers(v) => with_number(alloc, b"34 TimelineDiffers", name, *v),
        ChainFault::FileMissing(path) => {
            of_backup(alloc, b"23 FileMissing", name, path.as_bytes())
        }
        ChainFault::FileSize(path, have, listed) => {
            size_text(alloc, name, path.as_bytes(), *have, *listed)
        }
        ChainFault::FileSum(path) => of_backup(alloc, b"26 FileSum", name, path.as_bytes()),
        ChainFault::FileExtra(path) => of_backup(alloc, b"24 FileExtra", name, path.as_bytes()),
        ChainFault::LabelDamaged(line) => {
            with_number(alloc, b"27 LabelDamaged", name, u64::from(*line))
        }
        ChainFault::FileDamaged(path, why) => {
            file_damaged_text(alloc, name, path.as_bytes(), *why)
        }
        ChainFault::Failed => {
            area_text(
                alloc,
                backup_name(alloc, name)?.as_bytes(),
                AreaFault::Failed,
            )
        }
        ChainFault::NoMemory => joined(alloc, &[b"61 NoMemory"]),
    }
}

/// The status of a directory that isn't taken.
pub fn directory_status(fault: &ChainFault) -> Status
    ensures { result ≡ directory_status fault.now }
{
    match fault {
        ChainFault::NoManifest
        | ChainFault::ManifestDamaged(_)
        | ChainFault::ManifestVersion(_)
        | ChainFault::TimelineDiffers(_)
        | ChainFault::FileMissing(_)
        | ChainFault::FileSize(_, _, _)
        | ChainFault::FileSum(_)
        | ChainFault::FileExtra(_)
        | ChainFault::LabelDamaged(_)
        | ChainFault::FileDamaged(_, _) => Status::Refused,
        ChainFault::Failed => Status::Device,
        ChainFault::NoMemory => Status::Memory,
    }
}
