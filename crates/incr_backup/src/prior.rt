//! The manifest of the prior backup.

ghost use Rattle.std.specs.Prelude.{◌≡◌, IfOk, IfErr, IfSome};
ghost use Rattle.lsn_core.specs.Causes.{HasCause};
ghost use Rattle.vault.specs.Frame.{OnlyReads};
ghost use Rattle.backup_files.specs.Directory.{manifest_name};
ghost use Rattle.incr_backup.specs.Prior.{IsOfStore, PriorAnswer};
ghost use Rattle.incr_backup.specs.IncrInside.{prior_fault, IsFile, TextAnswer, FileAnswer, PriorCause};

use backup_files::MANIFEST;
use lsn_core::AreaFault;
use manifest::{Manifest, ManifestFault, manifests_are_read_again, read_manifest};
use std::alloc::Global;
use store_faults::IncrFault;
use vault::{Vault, read_whole};

/// The fault of the prior backup's area.
fn prior_fault(fault: AreaFault) -> IncrFault
    ensures { result ≡ prior_fault fault }
{
    match fault {
        AreaFault::Failed => IncrFault::PriorFailed,
        AreaFault::NoMemory => IncrFault::NoMemory,
    }
}

/// The bytes of the manifest, where it is there.
fn manifest_bytes<V: Vault>(alloc: Global, prior: &mut V) -> Result<Option<Vec<u8>>, AreaFault>
    ensures bytes { IfOk result (λ found. IfSome (V.files prior.old) (λ m.
        IsFile m manifest_name found)) }
    ensures reads { OnlyReads V.Vault prior.old prior.new }
    ensures cause { HasCause (V.faults prior.old) (V.faults prior.new) result }
{
    if prior.size(MANIFEST)?.is_none() {
        return Ok(None);
    }
    let bytes = read_whole(alloc, prior, MANIFEST)?;
    Ok(Some(bytes))
}

/// The manifest of a text, or why it is refused.
fn manifest_in(alloc: Global, bytes: &[u8]) -> Result<Manifest, IncrFault>
    ensures answer { TextAnswer bytes.now result }
{
    match read_manifest(alloc, bytes) {
        Ok(manifest) => Ok(manifest),
        Err(fault) => Err(IncrFault::from(fault)),
    }
}

/// The manifest of a text of a store with this system identifier, or why it is refused: one of
/// version 1 tells none.
fn manifest_for(alloc: Global, bytes: &[u8], system: u64) -> Result<Manifest, IncrFault>
    ensures answer { FileAnswer bytes.now system result }
    ensures ours { IfOk result (IsOfStore system) }
{
    let manifest = manifest_in(alloc, bytes)?;
    // known: the version that tells none is 1
    manifests_are_read_again();
    let Some(have) = manifest.system else {
        return Err(IncrFault::ManifestRefused(ManifestFault::Version(1)));
    };
    if have != system {
        return Err(IncrFault::SystemDiffers(have, system));
    }
    Ok(manifest)
}

/// The manifest of the prior backup, where it is of version 2 and of a store with this system
/// identifier, or why it isn't taken. The area is only read.
pub(crate) fn read_prior<V: Vault>(
    alloc: Global,
    prior: &mut V,
    system: u64,
) -> Result<Manifest, IncrFault>
    ensures answer { IfSome (V.files prior.old) (λ m. PriorAnswer m system result) }
    ensures ours { IfOk result (IsOfStore system) }
    ensures reads { OnlyReads V.Vault prior.old prior.new }
    ensures cause { IfErr result (PriorCause (V.faults prior.old) (V.faults prior.new)) }
{
    match manifest_bytes(alloc, prior) {
        Ok(Some(bytes)) => manifest_for(alloc, &bytes, system),
        Ok(None) => Err(IncrFault::NoManifest),
        Err(fault) => Err(prior_fault(fault)),
    }
}
