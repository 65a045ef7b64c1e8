//! The archive of a WAL cut behind a place.

ghost use Rattle.std.specs.Prelude.{◌≡◌, ℕ, OnOk};
ghost use Rattle.lsn_core.specs.Causes.{HasCause};
ghost use Rattle.lsn_core.specs.Names.{segment_number};
ghost use Rattle.vault.specs.Area.{Related};
ghost use Rattle.vault.specs.Frame.{Adds, ChangesOnly, IsDurable};
ghost use Rattle.store_restart.specs.Trimmed.{IsArchiveFile, IsTrim, AreCutAt, KeepsFront};
ghost use Rattle.store_restart.specs.Trimming.{DropsLater, CutsOwn, Clears};

use lsn_core::{AreaFault, Lsn, SegSize, segment_name, segment_of};
use std::alloc::Global;
use vault::Vault;
use wal_archive::{is_segment, segment_in};

/// Removes the file of this name, where it is that of a segment behind this one.
fn remove_later<V: Vault>(
    wal: &mut V,
    name: &[u8],
    own: u64,
    size: SegSize,
) -> Result<(), AreaFault>
    ensures removed { OnOk result
        (DropsLater size own name.now (V.files wal.old) (V.files wal.new)) }
    ensures events { (end : ℕ) → own ≡ segment_number end size
        → Adds (IsTrim size end) (V.past wal.old) (V.past wal.new) }
    ensures changes { ChangesOnly V.Vault (IsArchiveFile size) wal.old wal.new }
    ensures cause { HasCause (V.faults wal.old) (V.faults wal.new) result }
{
    match segment_in(name, size) {
        Some(number) => {
            if number > own {
                return wal.remove(name);
            }
            Ok(())
        }
        None => Ok(()),
    }
}

/// Removes the files of the segments behind this one, the last one first.
fn remove_all_later<V: Vault>(
    alloc: Global,
    wal: &mut V,
    own: u64,
    size: SegSize,
) -> Result<(), AreaFault>
    ensures removed { OnOk result (Related (Clears size own) (V.files wal.old) (V.files wal.new)) }
    ensures events { (end : ℕ) → own ≡ segment_number end size
        → Adds (IsTrim size end) (V.past wal.old) (V.past wal.new) }
    ensures changes { ChangesOnly V.Vault (IsArchiveFile size) wal.old wal.new }
    ensures cause { HasCause (V.faults wal.old) (V.faults wal.new) result }
{
    let mut names = wal.names(alloc)?;
    while let Some(name) = names.pop() {
        remove_later(wal, name.as_bytes(), own, size)?;
    }
    Ok(())
}

/// Cuts the file of the segment that has a place to it.
fn cut_own<V: Vault>(alloc: Global, wal: &mut V, size: SegSize, end: Lsn) -> Result<(), AreaFault>
    ensures cut { OnOk result (CutsOwn size end.0 (V.files wal.old) (V.files wal.new)) }
    ensures events { Adds (IsTrim size end.0) (V.past wal.old) (V.past wal.new) }
    ensures changes { ChangesOnly V.Vault (IsArchiveFile size) wal.old wal.new }
    ensures cause { HasCause (V.faults wal.old) (V.faults wal.new) result }
{
    let own = segment_of(end, size);
    if !is_segment(own) {
        return Ok(());
    }
    let name = segment_name(alloc, own, size)?;
    wal.cut(name.as_bytes(), end.0 % size.bytes())
}

/// Cuts the archive of a WAL behind a place: removes the segment files behind that of the place,
/// the last one first, cuts the place's own to it, and syncs the area. What was held before the
/// place stays, also where a stop comes meanwhile; other files don't change.
pub fn trim<V: Vault>(alloc: Global, wal: &mut V, size: SegSize, end: Lsn) -> Result<(), AreaFault>
    ensures trimmed { OnOk result
        (Related (AreCutAt size end.0) (V.files wal.old) (V.files wal.new)) }
    ensures durable { OnOk result (IsDurable (V.files wal.new) (V.past wal.new)) }
    ensures keeps { KeepsFront size end.0 (V.past wal.old) (V.past wal.new) }
    ensures changes { ChangesOnly V.Vault (IsArchiveFile size) wal.old wal.new }
    ensures cause { HasCause (V.faults wal.old) (V.faults wal.new) result }
{
    // known: a segment has some MiB
    let _mib = size.mib();
    remove_all_later(alloc, wal, segment_of(end, size), size)?;
    cut_own(alloc, wal, size, end)?;
    wal.sync()
}
