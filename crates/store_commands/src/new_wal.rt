//! The files of a new store: its settings, and a WAL of one entry.

ghost use Rattle.std.specs.Prelude.{◌≡◌, [], IfOk, IfSome, OnOk, OnErr};
ghost use Rattle.std.specs.FinMap.{empty};
ghost use Rattle.lsn_core.specs.Causes.{HasCause};
ghost use Rattle.vault.specs.Area.{bytes_of};
ghost use Rattle.vault.specs.Frame.{IsDurable};
ghost use Rattle.wal_record.specs.Tips.{first_tip};
ghost use Rattle.wal_writer.specs.Log.{log_at};
ghost use Rattle.store_commands.specs.Init.{segment_name, first_start, first_entry, HoldsPart};
ghost use Rattle.store_commands.specs.Inner.{HasRanges, with_settings, with_segment, with_both};
ghost use Rattle.store_commands.specs.Inner.{IsSettingsTorn, IsSegmentTorn};
ghost use Rattle.store_commands.specs.Inner.{IsFirstEntry, with_first, IsFirstTorn};

use lsn_core::{AreaFault, Lsn, NoMemory, SegSize, Settings, segment_name};
use std::alloc::Global;
use vault::Vault;
use wal_pages::Layout;
use wal_reader::settings_text;
use wal_record::{Kind, first_tip};
use wal_writer::{Prepared, WalState};

/// Syncs the area, and writes the file `settings`.
fn write_settings<V: Vault>(
    alloc: Global,
    wal: &mut V,
    settings: &Settings,
) -> Result<(), AreaFault>
    ensures written { OnOk result (V.files wal.new ≡ with_settings settings.now (V.files wal.old)) }
    ensures left { OnErr result (IsSettingsTorn settings.now (V.files wal.old) (V.files wal.new)) }
    ensures cause { HasCause (V.faults wal.old) (V.faults wal.new) result }
    ensures known { HasRanges settings.now }
{
    let text = settings_text(alloc, settings.segment(), settings.relseg())?;
    wal.sync()?;
    wal.write_at(b"settings", 0, text.as_bytes())
}

/// Where the first entry of a WAL starts, behind the head of the first page.
fn first_start(settings: &Settings) -> Lsn
    ensures { result ≡ first_start settings.now.segment }
{
    Layout::new(settings).start_after(Lsn(settings.segment().bytes()))
}

/// The first entry of a WAL with its bytes, for one with these settings that has no entry: a
/// shutdown checkpoint whose redo point is its own start.
fn first_entry<V: Vault>(
    alloc: Global,
    wal: &WalState<V>,
    settings: &Settings,
) -> Result<Prepared, NoMemory>
    requires { wal.now.tail ≡ log_at settings.now (first_tip settings.now.segment) }
    ensures { IfOk result (IsFirstEntry settings.now) }
{
    match wal.prepare(alloc, Kind::Shutdown(first_start(settings))) {
        Ok(entry) => Ok(entry),
        Err(_) => Err(NoMemory),
    }
}

/// Writes bytes at the start of the file of segment 1, and syncs the area.
fn write_first<V: Vault>(
    alloc: Global,
    area: &mut V,
    size: SegSize,
    bytes: &[u8],
) -> Result<(), AreaFault>
    ensures written { OnOk result
        (V.files area.new ≡ with_first size bytes.now (V.files area.old)) }
    ensures left { OnErr result (IsFirstTorn size bytes.now (V.files area.old) (V.files area.new)) }
    ensures durable { OnOk result (IsDurable (V.files area.new) (V.past area.new)) }
    ensures cause { HasCause (V.faults area.old) (V.faults area.new) result }
{
    let name = segment_name(alloc, 1, size)?;
    area.write_at(name.as_bytes(), 0, bytes)?;
    area.sync()
}

/// Writes the first entry of a WAL, where the file of segment 1 isn't there or is empty. The answer
/// is where that entry ends.
fn start_wal<V: Vault>(alloc: Global, area: V, settings: Settings) -> (V, Result<Lsn, AreaFault>)
    requires { IfSome (V.files area) (λ m. bytes_of m (segment_name settings) ≡ []) }
    ensures end { IfOk result.1 (λ end. end.0 ≡ (first_entry settings.segment).end.0) }
    ensures written { OnOk result.1 (V.files result.0 ≡ with_segment settings (V.files area)) }
    ensures left { OnErr result.1 (IsSegmentTorn settings (V.files area) (V.files result.0)) }
    ensures durable { OnOk result.1 (IsDurable (V.files result.0) (V.past result.0)) }
    ensures cause { HasCause (V.faults area) (V.faults result.0) result.1 }
{
    let wal = WalState::attach(alloc, area, settings, first_tip(settings.segment()));
    let prepared = first_entry(alloc, &wal, &settings);
    let mut area = wal.detach();
    let Ok(entry) = prepared else {
        return (area, Err(AreaFault::NoMemory));
    };
    let end = entry.record().end;
    match write_first(alloc, &mut area, settings.segment(), entry.bytes()) {
        Ok(()) => (area, Ok(end)),
        Err(fault) => (area, Err(fault)),
    }
}

/// Writes the settings and the first entry of a WAL into an area that holds no file. The answer is
/// where that entry ends.
pub fn write_wal<V: Vault>(
    alloc: Global,
    area: V,
    settings: Settings,
) -> (V, Result<Lsn, AreaFault>)
    requires { IfSome (V.files area) (λ m. m ≡ empty) }
    ensures end { IfOk result.1 (λ end. end.0 ≡ (first_entry settings.segment).end.0) }
    ensures written { OnOk result.1 (V.files result.0 ≡ with_both settings (V.files area)) }
    ensures left { OnErr result.1 (HoldsPart settings (V.files area) (V.files result.0)) }
    ensures durable { OnOk result.1 (IsDurable (V.files result.0) (V.past result.0)) }
    ensures cause { HasCause (V.faults area) (V.faults result.0) result.1 }
    ensures known { HasRanges settings }
{
    let mut area = area;
    if let Err(fault) = write_settings(alloc, &mut area, &settings) {
        return (area, Err(fault));
    }
    start_wal(alloc, area, settings)
}
