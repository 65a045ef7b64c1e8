//! The label of a combined backup.

ghost use Rattle.std.specs.Prelude.{◌≡◌, ◌≢◌, ◌<◌, length, IfOk, IfErr, IfSome};
ghost use Rattle.vault.specs.Area.{bytes_of};
ghost use Rattle.backup_files.specs.Directory.{manifest_name};
ghost use Rattle.backup_files.specs.Area.{Lacks, SparesManifest};
ghost use Rattle.chain_files.specs.Told.{told_at, AllOnlyRead};
ghost use Rattle.directory_files.specs.Faults.{WriteCause};
ghost use Rattle.directory_files.specs.Written.{IsMade};
ghost use Rattle.directory_files.specs.Labels.{first_lines};

use directory_files::{Growing, WriteFault, full_end, whole_at};
use std::alloc::Global;
use vault::{Held, Vault};

/// Writes the lines that each label has of the label in the area of this place.
pub(crate) fn copy_label<V: Vault>(
    alloc: Global,
    areas: &mut [Held<V>],
    place: u32,
    path: &[u8],
    out: &mut V,
) -> Result<Growing, WriteFault>
    requires place { place < length areas.old }
    requires other { path.now ≢ manifest_name }
    requires missing { Lacks (V.files out.old) path.now }
    ensures made { IfOk result (IsMade (λ bytes. IfSome (told_at V.Vault areas.old place) (λ m.
        bytes ≡ first_lines 7 (bytes_of m path.now)))
        path.now (V.files out.old) (V.files out.new)) }
    ensures reads { AllOnlyRead V.Vault areas.old areas.new }
    ensures spares { SparesManifest V.Vault out.old out.new }
    ensures cause { IfErr result (WriteCause V.Vault areas.old out.old areas.new out.new) }
{
    let text = whole_at(alloc, areas, place, path)?;
    let mut file = Growing::begin(out, path)?;
    file.add(out, path, &text[..full_end(&text)])?;
    Ok(file)
}
