//! Whether an area holds a file, and an area emptied.

ghost use Rattle.std.specs.Prelude.{◌≡◌, ◌↔◌, [], IsTrue, IfOk, OnOk};
ghost use Rattle.std.specs.Option.{option_map};
ghost use Rattle.std.specs.FinMap.{empty};
ghost use Rattle.lsn_core.specs.Causes.{HasCause};
ghost use Rattle.command_base.specs.Areas.{TellsClear};

use lsn_core::{AreaFault, Text};
use std::alloc::Global;
use vault::Vault;

/// Whether an area holds no file.
pub fn is_clear<V: Vault>(alloc: Global, area: &mut V) -> Result<bool, AreaFault>
    ensures clear { IfOk result (TellsClear (V.files area.old)) }
    ensures same { V.files area.new ≡ V.files area.old }
    ensures quiet { V.past area.new ≡ V.past area.old }
    ensures cause { HasCause (V.faults area.old) (V.faults area.new) result }
{
    let names = area.names(alloc)?;
    Ok(has_none(&names))
}

fn has_none(names: &[Text]) -> bool
    ensures { IsTrue result ↔ (names.now ≡ []) }
{
    names.is_empty()
}

/// Removes all files of an area. After a fault some of them may be gone.
pub fn empty_area<V: Vault>(alloc: Global, area: &mut V) -> Result<(), AreaFault>
    ensures emptied { OnOk result (V.files area.new ≡ option_map (λ m. empty) (V.files area.old)) }
    ensures cause { HasCause (V.faults area.old) (V.faults area.new) result }
{
    let names = area.names(alloc)?;
    for name in &names {
        area.remove(name.as_bytes())?;
    }
    Ok(())
}
