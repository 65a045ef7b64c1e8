//! The label of a backup.

ghost use Rattle.std.specs.Prelude.{◌≡◌, ◌^◌, ◌<◌, ◌≤◌, IfOk, IfSome, OnOk};
ghost use Rattle.std.specs.Option.{option_map};
ghost use Rattle.lsn_core.specs.Causes.{HasCause};
ghost use Rattle.lsn_core.specs.Names.{segment_number};
ghost use Rattle.lsn_core.specs.Sizes.{most_segments};
ghost use Rattle.backup_files.specs.Area.{Lacks};
ghost use Rattle.backup_files.specs.Directory.{label_name};
ghost use Rattle.backup_files.specs.Area.{SparesManifest};
ghost use Rattle.backup_sending.specs.Inside.{IsLabelOf, AddsLabel};

use backup_files::file_row;
use backup_label::{Label, time_text, write_label, written_labels_are_read};
use lsn_core::{AreaFault, Lsn, NoMemory, Settings, Text};
use manifest::FileRow;
use sha2::{Digest, Sha256};
use std::alloc::Global;
use store_locks::Redo;
use vault::Vault;

/// The name of the label's file.
const LABEL: &[u8] = b"backup_label";

/// A place on timeline 1, where there is one.
fn on_first(prior: Option<Lsn>) -> Option<(Lsn, u32)>
    ensures same { result ≡ option_map (λ at. (at, 1)) prior }
    ensures fits { IfSome prior (λ at. at.0 < 2 ^ 64) }
{
    match prior {
        Some(start) => Some((start, 1)),
        None => None,
    }
}

/// The text of the label of a backup, full or over a prior one that starts at a place.
fn label_text(
    alloc: Global,
    settings: Settings,
    redo: Redo,
    prior: Option<Lsn>,
    name: &Text,
    when: u64,
) -> Result<Vec<u8>, NoMemory>
    requires segment { segment_number redo.redo.0 settings.segment ≤ most_segments }
    requires when { when ≤ 253402207199 }
    ensures { IfOk result (λ text. IsLabelOf settings redo prior name.now when text.items) }
{
    // known: a label of one-line texts is read as it was written
    written_labels_are_read();
    let label = Label {
        start: redo.redo,
        checkpoint: redo.at,
        time: time_text(alloc, when, b"UTC")?,
        label: Text::copied(alloc, name.as_bytes())?,
        timeline: 1,
        prior: on_first(prior),
    };
    write_label(alloc, &label, settings.segment())
}

/// Writes the label, which isn't there, and lists it.
pub(crate) fn add_label<V: Vault>(
    alloc: Global,
    out: &mut V,
    settings: Settings,
    redo: Redo,
    prior: Option<Lsn>,
    name: &Text,
    when: u64,
    modified: &Text,
    rows: &mut Vec<FileRow>,
) -> Result<(), AreaFault>
    requires segment { segment_number redo.redo.0 settings.segment ≤ most_segments }
    requires when { when ≤ 253402207199 }
    requires missing { Lacks (V.files out.old) label_name }
    ensures added { OnOk result (AddsLabel settings redo prior name.now when modified.now
        (V.files out.old) (V.files out.new) rows.old.items rows.new.items) }
    ensures spares { SparesManifest V.Vault out.old out.new }
    ensures cause { HasCause (V.faults out.old) (V.faults out.new) result }
{
    let text = label_text(alloc, settings, redo, prior, name, when)?;
    out.write_at(LABEL, 0, &text)?;
    let path = Text::copied(alloc, LABEL)?;
    let sum = Sha256::digest(&text);
    rows.push(file_row(alloc, path, text.len() as u64, modified, &sum)?)?;
    Ok(())
}
