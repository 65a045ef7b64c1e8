//! The entries of a WAL read from a beginning on, up to a target.

ghost use Rattle.std.specs.Prelude.{◌≡◌, ◌≤◌, ◌↔◌, IsTrue, None};
ghost use Rattle.vault.specs.Frame.{OnlyReads};
ghost use Rattle.recovery.specs.Causes.{SettingsAnswer};
ghost use Rattle.recovery.specs.Onward.{cursor_from};
ghost use Rattle.recovery.specs.Reading.{Reads, ReadsThrough};
ghost use Rattle.recovery.specs.Inside.{IsAtTarget, StepsTo, EndAnswer};

use crate::fault::{RecoveryFault, fault_of};
use lsn_core::{Lsn, SegSize, Settings, WalTip};
use std::alloc::Global;
use vault::Vault;
use wal_reader::{WalCursor, read_settings};
use wal_record::Record;

/// Where a reading of the WAL begins.
#[derive(Clone, Copy, Debug, PartialEq, Eq)]
pub enum Beginning {
    /// With the WAL's first entry.
    FirstEntry,
    /// At this place, also where no entry starts there. The link of an entry there isn't tested.
    AtPlace(Lsn),
}

impl Beginning {
    /// The cursor with which a reading of the WAL of these settings begins.
    pub(crate) fn cursor(self, settings: &Settings) -> WalCursor
        ensures { result ≡ cursor_from settings.now self }
    {
        match self {
            Beginning::FirstEntry => WalCursor::first(settings),
            Beginning::AtPlace(from) => WalCursor::at(settings, from),
        }
    }
}

/// Whether no more is read of a WAL that was read up to a place.
fn is_reached(upto: Option<Lsn>, end: Lsn) -> bool
    ensures { IsTrue result ↔ IsAtTarget upto end.0 }
{
    match upto {
        Some(target) => target.0 <= end.0,
        None => false,
    }
}

/// The next entry of a WAL that is read up to a target; none once an end at or past it is reached.
pub fn next_to<V: Vault>(
    alloc: Global,
    wal: &mut V,
    cursor: &mut WalCursor,
    size: SegSize,
    upto: Option<Lsn>,
) -> Result<Option<Record>, RecoveryFault>
    ensures answer { StepsTo V.Vault size upto cursor.old cursor.new wal.old wal.new result }
    ensures reads { OnlyReads V.Vault wal.old wal.new }
{
    if is_reached(upto, cursor.tip().end) {
        return Ok(None);
    }
    match cursor.next(alloc, wal) {
        Ok(record) => Ok(record),
        Err(fault) => Err(fault_of(size, fault)),
    }
}

/// The tip of a WAL that was read up to a target or to its end, unless it ends before the target.
pub fn whole_to(upto: Option<Lsn>, tip: WalTip) -> Result<WalTip, RecoveryFault>
    ensures { EndAnswer upto tip result }
{
    if let Some(target) = upto {
        if tip.end.0 < target.0 {
            return Err(RecoveryFault::Short(tip.end, target));
        }
    }
    Ok(tip)
}

/// Reads the WAL of these settings from a beginning on up to the first end at or past the target,
/// or to its end where no target is given, and changes nothing: the tip behind all that was read.
/// It holds one entry of the WAL.
pub fn read_from<V: Vault>(
    alloc: Global,
    wal: &mut V,
    settings: &Settings,
    begin: Beginning,
    upto: Option<Lsn>,
) -> Result<WalTip, RecoveryFault>
    ensures answer { Reads V.Vault settings.now begin upto wal.old wal.new result }
    ensures reads { OnlyReads V.Vault wal.old wal.new }
{
    let size = settings.segment();
    let mut cursor = begin.cursor(settings);
    while let Some(_entry) = next_to(alloc, wal, &mut cursor, size, upto)? {}
    whole_to(upto, cursor.tip())
}

/// The same from the WAL's first entry on.
pub fn read_through<V: Vault>(
    alloc: Global,
    wal: &mut V,
    settings: &Settings,
    upto: Option<Lsn>,
) -> Result<WalTip, RecoveryFault>
    ensures answer { ReadsThrough V.Vault settings.now upto wal.old wal.new result }
    ensures reads { OnlyReads V.Vault wal.old wal.new }
{
    read_from(alloc, wal, settings, Beginning::FirstEntry, upto)
}

/// The settings of the WAL.
pub fn settings_of<V: Vault>(alloc: Global, wal: &mut V) -> Result<Settings, RecoveryFault>
    ensures answer { SettingsAnswer (V.files wal.old) (V.faults wal.old) (V.faults wal.new) result }
    ensures reads { OnlyReads V.Vault wal.old wal.new }
{
    match read_settings(alloc, wal) {
        Ok(settings) => Ok(settings),
        Err(fault) => Err(fault_of(SegSize::standard(), fault)),
    }
}
