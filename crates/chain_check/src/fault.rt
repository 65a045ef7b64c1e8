//! Why a directory isn't taken.

ghost use Rattle.std.specs.Prelude.{◌≡◌};
ghost use Rattle.chain_check.specs.declared.fault.ChainFault.TheVariants as chain;
ghost use Rattle.chain_check.specs.Refusals.{chain_fault_of, chain_fault_read};

use lsn_core::{AreaFault, NoMemory, Text};
use manifest::ManifestFault;
use std::alloc::AllocError;

/// Why the text of a manifest isn't taken, in the order in which it is judged.
#[derive(Clone, Copy, Debug, PartialEq, Eq)]
pub enum ManifestWhy {
    /// The last line is no sum, or no line stands before it.
    Lines,
    /// The sum isn't that of the lines before it.
    Sum,
    /// The text is no JSON.
    Json,
    /// The JSON value isn't that of a manifest.
    Shape,
    /// A row's kind of sum is unknown, or its sum has other digits than that kind.
    SumKind,
}

/// Why the form of the file of a fork's segment isn't taken. All but the last are judged of an
/// incremental file, in this order.
#[derive(Clone, Copy, Debug, PartialEq, Eq)]
pub enum FileWhy {
    /// It is incremental, and the segment's file is there in the plain form too.
    Both,
    /// It is incremental, and its size isn't the one that the count in its head gives.
    Length,
    /// It is incremental, and doesn't begin with the number of such files.
    Magic,
    /// It is incremental, and its truncation length is above 131,072 or a block at or above that.
    Range,
    /// It is incremental, and its blocks don't rise.
    Order,
    /// It is the plain file of a fork's segment, and its size is no multiple of 8192 bytes.
    PageLength,
}

/// The first fault of a backup's directory. All but the last two stand in the order in which they
/// are judged; `FileMissing`, `FileSize` and `FileSum` of one row are judged before those of the
/// next one, in byte order of the paths.
#[derive(Debug, Drop)]
pub enum ChainFault {
    /// There is no file `backup_manifest`.
    NoManifest,
    /// The manifest isn't of its grammar.
    ManifestDamaged(ManifestWhy),
    /// The manifest's version is this one, and neither 1 nor 2.
    ManifestVersion(u64),
    /// The timeline of the manifest is this one, and not 1.
    TimelineDiffers(u64),
    /// The file of this path is listed and isn't there, or it is the label and isn't listed.
    FileMissing(Text),
    /// The file of this path has so many bytes, and another number of them is listed.
    FileSize(Text, u64, u64),
    /// The file of this path has the listed size and another sum.
    FileSum(Text),
    /// The file of this path isn't listed, the first one in byte order.
    FileExtra(Text),
    /// This line of the label, from 1, is the first outside its grammar; or line 1 tells another
    /// start than the manifest.
    LabelDamaged(u32),
    /// The file of this path has a form that isn't taken, the first one in byte order.
    FileDamaged(Text, FileWhy),
    /// A call on the area failed, and its count of faults rose.
    Failed,
    /// Memory ran out.
    NoMemory,
}

impl From<NoMemory> for ChainFault {
    ghost from_gives = { λ _ e. e ≡ chain.NoMemory };

    fn from(_: NoMemory) -> Self {
        ChainFault::NoMemory
    }
}

impl From<AllocError> for ChainFault {
    ghost from_gives = { λ _ e. e ≡ chain.NoMemory };

    fn from(_: AllocError) -> Self {
        ChainFault::NoMemory
    }
}

impl From<AreaFault> for ChainFault {
    ghost from_gives = { λ fault e. e ≡ chain_fault_of fault };

    fn from(fault: AreaFault) -> Self {
        match fault {
            AreaFault::Failed => ChainFault::Failed,
            AreaFault::NoMemory => ChainFault::NoMemory,
        }
    }
}

impl From<ManifestFault> for ChainFault {
    ghost from_gives = { λ fault e. e ≡ chain_fault_read fault };

    fn from(fault: ManifestFault) -> Self {
        match fault {
            ManifestFault::Lines => ChainFault::ManifestDamaged(ManifestWhy::Lines),
            ManifestFault::Sum => ChainFault::ManifestDamaged(ManifestWhy::Sum),
            ManifestFault::Json => ChainFault::ManifestDamaged(ManifestWhy::Json),
            ManifestFault::Version(version) => ChainFault::ManifestVersion(version),
            ManifestFault::Shape => ChainFault::ManifestDamaged(ManifestWhy::Shape),
            ManifestFault::SumKind => ChainFault::ManifestDamaged(ManifestWhy::SumKind),
            ManifestFault::TimelineIs(timeline) => ChainFault::TimelineDiffers(timeline),
            ManifestFault::NoMemory => ChainFault::NoMemory,
        }
    }
}
