//! Reading the records of a WAL that is open, from a place on.

ghost use Rattle.std.specs.Prelude.{◌≡◌, ◌≤◌, true, IfOk, IfErr};
ghost use Rattle.lsn_core.specs.declared.fault.StoreArea.TheVariants.{Wal};
ghost use Rattle.store_locks.specs.Open.{IsWalOf};
ghost use Rattle.store_locks.specs.Records.{IsPlaceOf, ArePartOf, HasRecords, AreSome};
ghost use Rattle.store_locks.specs.Inside.{AreaCause, KeepsWal, EndsAtDamage, written_end};

use crate::flush::flush_whole;
use journal::{Journal, OfStore};
use lsn_core::{Lsn, Settings, StoreArea, StoreFault};
use std::alloc::Global;
use vault::Vault;
use wal_pages::Layout;
use wal_reader::WalFault;
use wal_record::Record;
use wal_writer::Flushed;

/// Flushes the WAL up to its end, and reads the first records behind a place.
pub(crate) fn read_whole<J: OfStore, V: Vault>(
    alloc: Global,
    journal: &mut Journal<J, V>,
    mark: &mut Flushed,
    settings: &Settings,
    from: Lsn,
    most: u32,
) -> Result<Vec<Record>, StoreFault>
    requires wal { IsWalOf V.Vault settings.now (J.tells ≡ true) journal.old.wal mark.old.to.0 }
    requires place { J.tells ≡ true → IsPlaceOf journal.old.pen from.0 }
    ensures records { J.tells ≡ true → IfOk result
        (λ v. HasRecords settings.now journal.old.pen from.0 most v.items) }
    ensures some { IfOk result (λ v. AreSome settings.now.segment from.0 most v.items) }
    ensures wal { KeepsWal V.Vault journal.old journal.new }
    ensures marked { mark.new.to.0 ≤ journal.new.wal.tail.flushed }
    ensures cause { IfErr result (AreaCause Wal (V.faults journal.old.wal.area)
        (V.faults journal.new.wal.area)) }
{
    match flush_whole(alloc, journal, mark) {
        Ok(()) => read_behind(alloc, journal, settings, from, most),
        Err(fault) => Err(fault),
    }
}

/// What a reading of the WAL's area comes to: where it is damaged it is taken as ended, since over
/// an area that tells its files no reading of what is flushed meets damage.
fn ended_at_damage(
    alloc: Global,
    read: Result<Vec<Record>, WalFault>,
) -> Result<Vec<Record>, StoreFault>
    ensures { EndsAtDamage read result }
{
    match read {
        Ok(records) => Ok(records),
        Err(WalFault::Failed) => Err(StoreFault::Failed(StoreArea::Wal)),
        Err(WalFault::NoMemory) => Err(StoreFault::NoMemory),
        Err(WalFault::Damaged(_)) => Ok(Vec::new(alloc)),
        Err(WalFault::SettingsDamaged) => Ok(Vec::new(alloc)),
        Err(WalFault::Timeline(_)) => Ok(Vec::new(alloc)),
        Err(WalFault::NotInit) => Ok(Vec::new(alloc)),
    }
}

/// The first records behind a place of a WAL that is flushed up to its end. From that on there are
/// none.
fn read_behind<J: OfStore, V: Vault>(
    alloc: Global,
    journal: &mut Journal<J, V>,
    settings: &Settings,
    from: Lsn,
    most: u32,
) -> Result<Vec<Record>, StoreFault>
    requires flushed { journal.old.wal.tail.flushed ≡ written_end journal.old }
    requires wal { IsWalOf V.Vault settings.now (J.tells ≡ true) journal.old.wal 0 }
    requires place { J.tells ≡ true → IsPlaceOf journal.old.pen from.0 }
    ensures records { J.tells ≡ true → IfOk result (λ v. ArePartOf settings.now journal.new.pen
        (V.files journal.new.wal.area) from.0 most v.items) }
    ensures some { IfOk result (λ v. AreSome settings.now.segment from.0 most v.items) }
    ensures wal { KeepsWal V.Vault journal.old journal.new }
    ensures flushed { journal.new.wal.tail.flushed ≡ journal.old.wal.tail.flushed }
    ensures cause { IfErr result (AreaCause Wal (V.faults journal.old.wal.area)
        (V.faults journal.new.wal.area)) }
{
    journal.know();
    let tip = journal.tip();
    if tip.end <= from {
        return Ok(Vec::new(alloc));
    }
    let start = Layout::new(settings).start_after(from);
    let read = journal.read_flushed(alloc, settings, start, most);
    ended_at_damage(alloc, read)
}
