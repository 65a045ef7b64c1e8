//! The label of a merged backup.

ghost use Rattle.std.specs.Prelude.{◌≡◌, ◌≢◌, ◌<◌, length, IfOk, IfErr, IfSome};
ghost use Rattle.vault.specs.Area.{bytes_of};
ghost use Rattle.backup_files.specs.Directory.{manifest_name};
ghost use Rattle.backup_files.specs.Area.{Lacks, SparesManifest};
ghost use Rattle.chain_files.specs.Told.{told_at, AllOnlyRead, FailsAt};
ghost use Rattle.directory_files.specs.Faults.{WriteCause};
ghost use Rattle.directory_files.specs.Written.{IsMade};
ghost use Rattle.merge_laws.specs.Merged.{merged_label};

use chain_files::MemberFault;
use directory_files::{Growing, WriteFault, full_end, whole_at};
use lsn_core::NoMemory;
use std::alloc::Global;
use vault::{Held, Vault};

/// The newest member's label with the prior of the oldest one.
fn merged_label(alloc: Global, first: &[u8], newest: &[u8]) -> Result<Vec<u8>, NoMemory>
    ensures { IfOk result (λ text. text.items ≡ merged_label first.now newest.now) }
{
    let mut text = newest.split_at(full_end(newest)).0.to_vec(alloc)?;
    text.extend_from_slice(first.split_at(full_end(first)).1)?;
    Ok(text)
}

/// The text of the label of the merged backup: that of the newest member, whose area has the second
/// place, with the prior of the oldest one, whose area has the first.
fn label_text<V: Vault>(
    alloc: Global,
    areas: &mut [Held<V>],
    oldest: u32,
    newest: u32,
    path: &[u8],
) -> Result<Vec<u8>, MemberFault>
    requires oldest { oldest < length areas.old }
    requires newest { newest < length areas.old }
    ensures text { IfOk result (λ text. IfSome (told_at V.Vault areas.old oldest) (λ first.
        IfSome (told_at V.Vault areas.old newest) (λ last.
        text.items ≡ merged_label (bytes_of first path.now) (bytes_of last path.now)))) }
    ensures reads { AllOnlyRead V.Vault areas.old areas.new }
    ensures cause { IfErr result (FailsAt V.Vault areas.old areas.new) }
{
    let first = whole_at(alloc, areas, oldest, path)?;
    let last = whole_at(alloc, areas, newest, path)?;
    Ok(merged_label(alloc, &first, &last)?)
}

/// Writes the label of the merged backup: that of the newest member, whose area has the second
/// place, with the prior of the oldest one, whose area has the first.
pub(crate) fn write_label<V: Vault>(
    alloc: Global,
    areas: &mut [Held<V>],
    oldest: u32,
    newest: u32,
    path: &[u8],
    out: &mut V,
) -> Result<Growing, WriteFault>
    requires oldest { oldest < length areas.old }
    requires newest { newest < length areas.old }
    requires other { path.now ≢ manifest_name }
    requires missing { Lacks (V.files out.old) path.now }
    ensures made { IfOk result (IsMade (λ bytes. IfSome (told_at V.Vault areas.old oldest) (λ first.
        IfSome (told_at V.Vault areas.old newest) (λ last.
        bytes ≡ merged_label (bytes_of first path.now) (bytes_of last path.now))))
        path.now (V.files out.old) (V.files out.new)) }
    ensures reads { AllOnlyRead V.Vault areas.old areas.new }
    ensures spares { SparesManifest V.Vault out.old out.new }
    ensures cause { IfErr result (WriteCause V.Vault areas.old out.old areas.new out.new) }
{
    let text = label_text(alloc, areas, oldest, newest, path)?;
    let mut file = Growing::begin(out, path)?;
    file.add(out, path, &text)?;
    Ok(file)
}
