//! Looking whether an area can take a backup.

ghost use Rattle.std.specs.Prelude.{◌≡◌, ◌↔◌, [], true, false, IsTrue, IfOk};
ghost use Rattle.lsn_core.specs.Causes.{HasCause};
ghost use Rattle.vault.specs.Frame.{OnlyReads};
ghost use Rattle.backup_files.specs.Area.{HoldsNothing, HoldsSomething};

use lsn_core::{AreaFault, Text};
use std::alloc::Global;
use vault::Vault;

/// Whether there are no names.
fn has_none(names: &[Text]) -> bool
    ensures { IsTrue result ↔ (names.now ≡ []) }
{
    names.is_empty()
}

/// Whether an area holds no file.
pub fn is_empty<V: Vault>(alloc: Global, out: &mut V) -> Result<bool, AreaFault>
    ensures empty { IfOk result (λ empty. empty ≡ true → HoldsNothing (V.files out.old)) }
    ensures full { IfOk result (λ empty. empty ≡ false → HoldsSomething (V.files out.old)) }
    ensures reads { OnlyReads V.Vault out.old out.new }
    ensures cause { HasCause (V.faults out.old) (V.faults out.new) result }
{
    let names = out.names(alloc)?;
    Ok(has_none(&names))
}
