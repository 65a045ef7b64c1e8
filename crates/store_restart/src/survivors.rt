//! The entries of a WAL that survived a stop.

ghost use Rattle.std.specs.Prelude.{◌≡◌, Err, IfOk, IfErr};
ghost use Rattle.vault.specs.Frame.{OnlyReads};
ghost use Rattle.wal_reader.specs.Causes.{CauseOf};
ghost use Rattle.store_restart.specs.Survivors.{named_by, is_torn};
ghost use Rattle.store_restart.specs.Survivors.{AreRead, survivor_causes};
ghost use Rattle.store_restart.specs.Inside.{survivor_of, StepsOn, named_after};
ghost use Rattle.store_restart.specs.Inside.{TellsStart, TellsPlace};

use lsn_core::{Lsn, Settings, WalTip};
use std::alloc::Global;
use vault::Vault;
use wal_archive::Damage;
use wal_reader::{WalCursor, WalFault};
use wal_record::{Kind, Record};

/// What is known of the survivors of a WAL: the tip behind the last one, and the redo point that
/// the last checkpoint among them names, where one of them starts there.
#[derive(Clone, Copy, Debug)]
pub struct Survivors {
    pub tip: WalTip,
    pub redo: Option<Lsn>,
}

/// The redo point that the last checkpoint of some entries names, and whether it was seen that one
/// of them starts there.
#[derive(Clone, Copy, Debug)]
struct Named {
    place: Option<Lsn>,
    seen: bool,
}

/// The redo point that an entry names, where it is a checkpoint.
fn named_by(kind: &Kind) -> Option<Lsn>
    ensures { result ≡ named_by kind.now }
{
    match kind {
        Kind::Shutdown(redo) => Some(*redo),
        Kind::Online(redo) => Some(*redo),
        _ => None,
    }
}

impl Named {
    /// The same with one more entry, behind which that is the latest redo point.
    fn with(self, entry: &Record, redo: Lsn) -> Named
        ensures { result ≡ named_after self entry.now redo.0 }
    {
        match named_by(&entry.kind) {
            Some(place) => Named {
                place: Some(place),
                seen: place.0 == entry.start.0 || place.0 == redo.0,
            },
            None => self,
        }
    }
}

/// Whether an archive that is damaged so may be one that a stop cut off: it is broken, or a segment
/// is missing. An entry that is whole and isn't taken doesn't come of a stop.
fn is_torn(damage: Damage) -> bool
    ensures { result ≡ is_torn damage }
{
    match damage {
        Damage::Missing(_) => true,
        Damage::Broken(_, _) => true,
        Damage::Unsupported(_, _, _) => false,
        Damage::Content(_, _) => false,
    }
}

/// What the fault of a step behind a tip is: none, where the archive is cut off there.
fn end_or(tip: WalTip, fault: WalFault) -> Result<Option<Record>, WalFault>
    ensures { result ≡ survivor_of tip (Err fault) }
{
    if let WalFault::Damaged(damage) = fault {
        if tip.count > 0 && is_torn(damage) {
            return Ok(None);
        }
    }
    Err(fault)
}

/// The next survivor; none where the archive ends, or is cut off behind the first entry.
fn next_survivor<V: Vault>(
    alloc: Global,
    wal: &mut V,
    cursor: &mut WalCursor,
) -> Result<Option<Record>, WalFault>
    ensures answer { StepsOn V.Vault cursor.old cursor.new wal.old wal.new result }
    ensures reads { OnlyReads V.Vault wal.old wal.new }
{
    let tip = cursor.tip();
    match cursor.next(alloc, wal) {
        Ok(entry) => Ok(entry),
        Err(fault) => end_or(tip, fault),
    }
}

/// Whether a survivor starts at a place.
fn starts_at<V: Vault>(
    alloc: Global,
    wal: &mut V,
    settings: &Settings,
    place: Lsn,
) -> Result<bool, WalFault>
    ensures there { IfOk result (TellsStart settings.now (V.files wal.old) place) }
    ensures refused { IfErr result (CauseOf (survivor_causes settings.now (V.files wal.old))
        (V.faults wal.old) (V.faults wal.new)) }
    ensures reads { OnlyReads V.Vault wal.old wal.new }
{
    // known: a segment has some MiB
    let _size = settings.segment();
    let mut cursor = WalCursor::first(settings);
    let mut there = false;
    while let Some(entry) = next_survivor(alloc, wal, &mut cursor)? {
        there = there || entry.start.0 == place.0;
    }
    Ok(there)
}

/// The place that the last checkpoint of the survivors names, where one of them starts there. Where
/// that wasn't seen, they are read once more.
fn started<V: Vault>(
    alloc: Global,
    wal: &mut V,
    settings: &Settings,
    named: Named,
) -> Result<Option<Lsn>, WalFault>
    ensures told { IfOk result (TellsPlace settings.now (V.files wal.old) named) }
    ensures refused { IfErr result (CauseOf (survivor_causes settings.now (V.files wal.old))
        (V.faults wal.old) (V.faults wal.new)) }
    ensures reads { OnlyReads V.Vault wal.old wal.new }
{
    let Some(place) = named.place else {
        return Ok(None);
    };
    if named.seen || starts_at(alloc, wal, settings, place)? {
        Ok(Some(place))
    } else {
        Ok(None)
    }
}

/// Reads the survivors of the WAL of these settings: the entries before the first end or damage of
/// its archive. Damage in the place of the first entry, and an entry that is whole and isn't taken,
/// are faults, since no stop leaves them.
pub fn read_survivors<V: Vault>(
    alloc: Global,
    wal: &mut V,
    settings: &Settings,
) -> Result<Survivors, WalFault>
    ensures found { IfOk result (AreRead settings.now (V.files wal.old)) }
    ensures refused { IfErr result (CauseOf (survivor_causes settings.now (V.files wal.old))
        (V.faults wal.old) (V.faults wal.new)) }
    ensures reads { OnlyReads V.Vault wal.old wal.new }
{
    // known: a segment has some MiB
    let _size = settings.segment();
    let mut cursor = WalCursor::first(settings);
    let mut named = Named {
        place: None,
        seen: false,
    };
    while let Some(entry) = next_survivor(alloc, wal, &mut cursor)? {
        named = named.with(&entry, cursor.tip().redo);
    }
    let tip = cursor.tip();
    let redo = started(alloc, wal, settings, named)?;
    Ok(Survivors { tip, redo })
}
