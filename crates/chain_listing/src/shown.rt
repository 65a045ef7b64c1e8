//! What a folder of backups shows: a backup, or why it is none.

ghost use Rattle.std.specs.Prelude.{◌≡◌, IfOk, not, ◌==◌};
ghost use Rattle.std.specs.List.{find};
ghost use Rattle.std.specs.Option.{option_map};
ghost use Rattle.chain_check.specs.Chain.{timelines_of};
ghost use Rattle.chain_listing.specs.declared.shown.FolderFault.TheVariants as fault;
ghost use Rattle.chain_listing.specs.Shown.{ManifestAnswer, LabelAnswer, HeadsAnswer, TextsAnswer};

use crate::backup::{Backup, backup_of, is_name};
use backup_label::{Label, LabelFault, read_label};
use lsn_core::{Lsn, NoMemory};
use manifest::{Manifest, ManifestFault, read_manifest};
use std::alloc::Global;

/// Why a folder is no backup that can be a member of a chain. All but the last stand in the order
/// in which they are judged.
#[derive(Clone, Copy, Debug, PartialEq, Eq)]
pub enum FolderFault {
    /// Its name is none that `pgbackup` takes.
    Name,
    /// There is no file `backup_manifest`.
    NoManifest,
    /// The manifest is refused.
    Manifest(ManifestFault),
    /// This line of the label, from 1, is the first outside its grammar; or line 1 tells another
    /// start than the manifest.
    Label(u32),
    /// The version of the manifest is this one, and not 2.
    Version(u32),
    /// A timeline of the label is this one, and not 1: that of the backup, or else of its prior.
    Timeline(u32),
    /// Memory ran out.
    NoMemory,
}

impl From<NoMemory> for FolderFault {
    ghost from_gives = { λ _ e. e ≡ fault.NoMemory };

    fn from(_: NoMemory) -> Self {
        FolderFault::NoMemory
    }
}

/// The manifest of a text, where there is one, or why there is none.
fn manifest_in(alloc: Global, text: Option<&[u8]>) -> Result<Manifest, FolderFault>
    ensures { ManifestAnswer (option_map (λ t. t.now) text.entry) result }
{
    let Some(text) = text else {
        return Err(FolderFault::NoManifest);
    };
    match read_manifest(alloc, text) {
        Ok(manifest) => Ok(manifest),
        Err(ManifestFault::NoMemory) => Err(FolderFault::NoMemory),
        Err(why) => Err(FolderFault::Manifest(why)),
    }
}

/// The label of a text that tells this start, or which of its lines is refused.
fn label_in(alloc: Global, text: &[u8], start: Lsn) -> Result<Label, FolderFault>
    ensures { LabelAnswer start.0 text.now result }
{
    match read_label(alloc, text) {
        Ok(label) if label.start == start => Ok(label),
        Ok(_) => Err(FolderFault::Label(1)),
        Err(LabelFault::Line(line)) => Err(FolderFault::Label(line)),
        Err(LabelFault::NoMemory) => Err(FolderFault::NoMemory),
    }
}

/// The first timeline of a label that isn't 1.
fn other_timeline(label: &Label) -> Option<u32>
    ensures { result ≡ find (λ t. not (t == 1)) (timelines_of label.now) }
{
    if label.timeline != 1 {
        return Some(label.timeline);
    }
    match label.prior {
        Some((_, timeline)) if timeline != 1 => Some(timeline),
        _ => None,
    }
}

/// The manifest, of version 2, and the label of two texts, which belong to one backup on timeline
/// 1.
fn heads_in(
    alloc: Global,
    manifest: Option<&[u8]>,
    label: &[u8],
) -> Result<(Manifest, Label), FolderFault>
    ensures { HeadsAnswer (option_map (λ t. t.now) manifest.entry) label.now result }
{
    let manifest = manifest_in(alloc, manifest)?;
    let label = label_in(alloc, label, manifest.start)?;
    if manifest.version != 2 {
        return Err(FolderFault::Version(manifest.version));
    }
    match other_timeline(&label) {
        Some(timeline) => Err(FolderFault::Timeline(timeline)),
        None => Ok((manifest, label)),
    }
}

/// The backup of a folder with these texts as manifest and label, or why it is none.
pub(crate) fn shown(
    alloc: Global,
    folder: &[u8],
    manifest: Option<&[u8]>,
    label: &[u8],
) -> Result<Backup, FolderFault>
    ensures { TextsAnswer
        folder.now (option_map (λ t. t.now) manifest.entry) label.now result }
{
    let (manifest, label) = heads_in(alloc, manifest, label)?;
    Ok(backup_of(alloc, folder, &manifest, &label)?)
}
