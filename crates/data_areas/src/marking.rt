//! The mark of data areas that are rebuilt, and areas that are cleared.

ghost use Rattle.std.specs.Prelude.{◌≡◌, None, IfSome, OnOk};
ghost use Rattle.std.specs.Option.{option_map};
ghost use Rattle.std.specs.FinMap.{empty, get};
ghost use Rattle.lsn_core.specs.Causes.{HasCause};
ghost use Rattle.vault.specs.Frame.{Adds, ChangesOnly, LeavesNow, Has};
ghost use Rattle.data_areas.specs.Marking.{rebuilding_name, IsMark, IsMarking, IsOther, HasOnly, MarksStay};
ghost use Rattle.data_areas.specs.Moments.{GoesOn};
ghost use Rattle.data_areas.specs.Inside.{without_other};

use lsn_core::AreaFault;
use std::alloc::Global;
use vault::Vault;

/// Makes the empty file `rebuilding`, and makes that durable: from then on each stop leaves it,
/// until it is removed.
pub fn mark_rebuilding<V: Vault>(area: &mut V) -> Result<(), AreaFault>
    ensures there { OnOk result (IfSome (V.files area.new) (Has rebuilding_name)) }
    ensures marked { OnOk result
        (IfSome (V.files area.new) (λ m. LeavesNow (Has rebuilding_name) (V.past area.new))) }
    ensures changes { ChangesOnly V.Vault IsMark area.old area.new }
    ensures marking { Adds IsMarking (V.past area.old) (V.past area.new) }
    ensures cause { HasCause (V.faults area.old) (V.faults area.new) result }
{
    area.write_at(b"rebuilding", 0, b"")?;
    area.sync()
}

/// Removes every file but `rebuilding`. After a fault some of them may be gone.
pub fn clear_marked<V: Vault>(alloc: Global, area: &mut V) -> Result<(), AreaFault>
    ensures cleared { OnOk result (IfSome (V.files area.new) (HasOnly rebuilding_name)) }
    ensures changes { ChangesOnly V.Vault IsOther area.old area.new }
    ensures cause { HasCause (V.faults area.old) (V.faults area.new) result }
{
    let names = area.names(alloc)?;
    for name in &names {
        remove_other(area, name.as_bytes())?;
    }
    Ok(())
}

/// Removes every file, also one of the name `rebuilding`. After a fault some of them may be gone.
pub fn clear_area<V: Vault>(alloc: Global, area: &mut V) -> Result<(), AreaFault>
    ensures cleared { OnOk result (V.files area.new ≡ option_map (λ m. empty) (V.files area.old)) }
    ensures goes_on { GoesOn (V.past area.old) (V.past area.new) }
    ensures cause { HasCause (V.faults area.old) (V.faults area.new) result }
{
    let names = area.names(alloc)?;
    for name in &names {
        area.remove(name.as_bytes())?;
    }
    Ok(())
}

/// Removes a file, unless it is the mark.
fn remove_other<V: Vault>(area: &mut V, name: &[u8]) -> Result<(), AreaFault>
    ensures removed { OnOk result
        (V.files area.new ≡ option_map (without_other name.now) (V.files area.old)) }
    ensures changes { ChangesOnly V.Vault IsOther area.old area.new }
    ensures cause { HasCause (V.faults area.old) (V.faults area.new) result }
{
    if name == b"rebuilding".as_slice() {
        return Ok(());
    }
    area.remove(name)
}

/// Removes `rebuilding`, and makes that durable.
pub fn unmark_rebuilding<V: Vault>(area: &mut V) -> Result<(), AreaFault>
    ensures gone { OnOk result (IfSome (V.files area.new) (λ m. get m rebuilding_name ≡ None)) }
    ensures changes { ChangesOnly V.Vault IsMark area.old area.new }
    ensures settled { OnOk result
        (IfSome (V.files area.new) (λ m. LeavesNow (λ left. left ≡ m) (V.past area.new))) }
    ensures cause { HasCause (V.faults area.old) (V.faults area.new) result }
{
    area.remove(b"rebuilding")?;
    area.sync()
}

/// A law: while only other files of an area change, every stop leaves the mark.
pub fn rebuilding_stays()
    ensures { MarksStay }
{}
