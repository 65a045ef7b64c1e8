//! Writing the manifest of a backup.

ghost use Rattle.std.specs.Prelude.{◌≡◌, ◌≤◌, IfErr, OnOk};
ghost use Rattle.lsn_core.specs.Causes.{HasCause};
ghost use Rattle.vault.specs.Stops.{noted, synced, wrote};
ghost use Rattle.backup_files.specs.Directory.{manifest_name};
ghost use Rattle.backup_files.specs.Area.{Lacks, EndsSynced, LeavesText, with_file};
ghost use Rattle.backup_files.specs.Inside.{FailsToWrite, Withdraws};

use lsn_core::AreaFault;
use vault::Vault;

/// The name of the manifest's file.
pub const MANIFEST: &[u8] = b"backup_manifest";

/// Writes the manifest, which isn't there, and syncs.
fn write_synced<V: Vault>(out: &mut V, text: &[u8]) -> Result<(), AreaFault>
    requires { Lacks (V.files out.old) manifest_name }
    ensures written { OnOk result
        (V.files out.new ≡ with_file manifest_name text.now (V.files out.old)) }
    ensures synced { OnOk result (V.past out.new ≡ noted (synced (V.files out.new))
        (noted (wrote manifest_name 0 text.now) (V.past out.old))) }
    ensures failed { IfErr result (FailsToWrite V.Vault text.now out.old out.new) }
    ensures cause { HasCause (V.faults out.old) (V.faults out.new) result }
{
    out.write_at(MANIFEST, 0, text)?;
    out.sync()
}

/// Removes the manifest after a fault. Where that fails too, so that bytes of it may be left, the
/// answer is `Failed` only where the device failed both times.
fn withdraw<V: Vault>(out: &mut V, fault: AreaFault) -> AreaFault
    ensures withdrawn { Withdraws V.Vault fault out.old out.new result }
    ensures later { V.faults out.old ≤ V.faults out.new }
{
    match out.remove(MANIFEST) {
        Ok(()) => fault,
        Err(AreaFault::Failed) => fault,
        Err(AreaFault::NoMemory) => AreaFault::NoMemory,
    }
}

/// Syncs, and then writes the manifest, which isn't there, and syncs again. After a fault in
/// writing or syncing it is removed.
pub fn publish<V: Vault>(out: &mut V, text: &[u8]) -> Result<(), AreaFault>
    requires { Lacks (V.files out.old) manifest_name }
    ensures written { OnOk result
        (V.files out.new ≡ with_file manifest_name text.now (V.files out.old)) }
    ensures synced { OnOk result (EndsSynced V.Vault out.new) }
    ensures left { IfErr result (LeavesText V.Vault text.now out.old out.new) }
    ensures cause { HasCause (V.faults out.old) (V.faults out.new) result }
{
    out.sync()?;
    match write_synced(out, text) {
        Ok(()) => Ok(()),
        Err(fault) => Err(withdraw(out, fault)),
    }
}
