//! A piece of the archive.

ghost use Rattle.std.specs.Prelude.{◌≡◌, ◌∷◌, ◌++◌, [], OnOk};
ghost use Rattle.vault.specs.Frame.{OnlyReads};
ghost use Rattle.wal_reader.specs.wal_pieces.Piece.{is_reached, ReadsPiece};
ghost use Rattle.wal_reader.specs.wal_pieces.Inside.{StepsBefore};

use crate::{WalCursor, WalFault};
use lsn_core::{Lsn, NoMemory, Settings};
use std::alloc::Global;
use vault::Vault;
use wal_record::Record;

/// Whether no entry is looked for at this end.
fn is_reached(upto: Option<Lsn>, end: Lsn) -> bool
    ensures { result ≡ is_reached upto end.0 }
{
    match upto {
        Some(target) => target.0 <= end.0,
        None => false,
    }
}

/// The next entry that a cursor gives; none at the target or past it, where nothing is looked at.
fn next_before<V: Vault>(
    alloc: Global,
    area: &mut V,
    cursor: &mut WalCursor,
    upto: Option<Lsn>,
) -> Result<Option<Record>, WalFault>
    ensures answer { StepsBefore V.Vault upto cursor.old cursor.new area.old area.new result }
    ensures reads { OnlyReads V.Vault area.old area.new }
{
    if is_reached(upto, cursor.tip().end) {
        return Ok(None);
    }
    cursor.next(alloc, area)
}

/// Adds an entry to a piece.
fn add(entries: &mut Vec<Record>, entry: Record) -> Result<(), NoMemory>
    ensures { OnOk result (entries.new.items ≡ entries.old.items ++ entry ∷ []) }
{
    entries.push(entry)?;
    Ok(())
}

/// The first entries of the WAL of these settings from a place on, so many of them, as a cursor
/// gives them that is set there. Fewer exactly where the archive ends behind them, or where a
/// target is given and the last of them ends at the target or past it: nothing is looked at from
/// there on.
/// `Damaged` exactly where the archive is damaged behind fewer of them, with the place and why, as
/// the cursor has it; `SettingsDamaged`, `Timeline` and `NotInit` never come. It holds no more of
/// the WAL than what it answers.
pub fn read_piece<V: Vault>(
    alloc: Global,
    area: &mut V,
    settings: &Settings,
    from: Lsn,
    upto: Option<Lsn>,
    most: u32,
) -> Result<Vec<Record>, WalFault>
    ensures answer { ReadsPiece V.Vault settings.now from.0 upto most area.old area.new result }
    ensures reads { OnlyReads V.Vault area.old area.new }
{
    // known: a segment has a MiB at least
    let _size = settings.segment();
    let mut cursor = WalCursor::at(settings, from);
    let mut entries = Vec::new(alloc);
    while entries.len() < most as usize {
        match next_before(alloc, area, &mut cursor, upto) {
            Ok(Some(entry)) => add(&mut entries, entry)?,
            Ok(None) => return Ok(entries),
            Err(fault) => return Err(fault),
        }
    }
    Ok(entries)
}
