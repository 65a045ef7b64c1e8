//! The texts and statuses of faults that several commands have.

ghost use Rattle.std.specs.Prelude.{◌≡◌, map, IfOk};
ghost use Rattle.wal_archive.specs.declared.fault.Damage.TheVariants as damage;
ghost use Rattle.recovery.specs.declared.fault.RecoveryFault.TheVariants as wal;
ghost use Rattle.command_base.specs.Areas.{area_name};
ghost use Rattle.command_base.specs.Faults.{joined, refused_line, area_text, store_text, full_text, take_text};
ghost use Rattle.command_base.specs.Faults.{head_text, broken_text, content_text, placed, damage_text, wal_text};
ghost use Rattle.command_base.specs.Faults.{area_status, store_status, wal_status};

use crate::status::Status;
use lsn_core::{
    AreaFault, Lsn, MOST_SEGMENTS, NoMemory, SegSize, StoreArea, StoreFault, Text, lsn_text,
    segment_name,
};
use recovery::RecoveryFault;
use std::alloc::Global;
use vault::TakeFault;
use wal_archive::{Broken, Damage};
use wal_pages::HeadFault;
use wal_record::Why;

/// Texts behind each other.
pub fn joined(alloc: Global, texts: &[&[u8]]) -> Result<Text, NoMemory>
    ensures { IfOk result (λ text. text ≡ joined (map (λ part. part.now) texts.now)) }
{
    let mut bytes = Vec::new(alloc);
    for text in texts {
        bytes.extend_from_slice(text)?;
    }
    Ok(Text::from_vec(bytes))
}

/// The line of a refusal, by its number, name and arguments.
pub fn refused_line(alloc: Global, text: &[u8]) -> Result<Text, NoMemory>
    ensures { IfOk result (λ line. line ≡ refused_line text.now) }
{
    joined(alloc, &[b"refused ", text, b"\n"])
}

/// The device of an area of this name failed, or memory ran out.
pub fn area_text(alloc: Global, name: &[u8], fault: AreaFault) -> Result<Text, NoMemory>
    ensures { IfOk result (λ text. text ≡ area_text name.now fault) }
{
    match fault {
        AreaFault::Failed => joined(alloc, &[b"60 DeviceFault ", name]),
        AreaFault::NoMemory => joined(alloc, &[b"61 NoMemory"]),
    }
}

/// The name of an area of a store.
pub fn area_name(area: StoreArea) -> &'static [u8]
    ensures { result.now ≡ area_name area }
{
    match area {
        StoreArea::Wal => b"wal",
        StoreArea::Data(0) => b"data0",
        StoreArea::Data(1) => b"data1",
        StoreArea::Data(2) => b"data2",
        StoreArea::Data(_) => b"data3",
        StoreArea::Sums => b"sums",
    }
}

/// The device of this area of a store failed, or memory ran out.
pub fn store_text(alloc: Global, fault: StoreFault) -> Result<Text, NoMemory>
    ensures { IfOk result (λ text. text ≡ store_text fault) }
{
    match fault {
        StoreFault::Failed(area) => area_text(alloc, area_name(area), AreaFault::Failed),
        StoreFault::NoMemory => joined(alloc, &[b"61 NoMemory"]),
    }
}

/// An area of this name holds a file, and was to be empty.
pub fn full_text(alloc: Global, name: &[u8]) -> Result<Text, NoMemory>
    ensures { IfOk result (λ text. text ≡ full_text name.now) }
{
    joined(alloc, &[b"41 AreaNotEmpty ", name])
}

/// An area wasn't handed out.
pub fn take_text(alloc: Global, fault: &TakeFault) -> Result<Text, NoMemory>
    ensures { IfOk result (λ text. text ≡ take_text fault.now) }
{
    area_text(alloc, fault.area.as_bytes(), fault.why)
}

fn head_text(why: HeadFault) -> &'static [u8]
    ensures { result.now ≡ head_text why }
{
    match why {
        HeadFault::PageMagic => b"PageMagic",
        HeadFault::PageInfo => b"PageInfo",
        HeadFault::PageTimeline => b"PageTimeline",
        HeadFault::PageAddr => b"PageAddr",
        HeadFault::SysId => b"SysId",
        HeadFault::PageSizes => b"PageSizes",
        HeadFault::RemLen => b"RemLen",
    }
}

fn broken_text(why: Broken) -> &'static [u8]
    ensures { result.now ≡ broken_text why }
{
    match why {
        Broken::Head(why) => head_text(why),
        Broken::Length => b"Length",
        Broken::Prev => b"Prev",
        Broken::Crc => b"Crc",
        Broken::Header => b"Header",
        Broken::Torn => b"Torn",
        Broken::SegSize => b"SegSize",
        Broken::Place => b"Place",
    }
}

fn content_text(why: Why) -> &'static [u8]
    ensures { result.now ≡ content_text why }
{
    match why {
        Why::CommitBits => b"CommitBits",
        Why::Compressed => b"Compressed",
        Why::NotApplied => b"NotApplied",
        Why::Tablespace => b"Tablespace",
        Why::Fork => b"Fork",
        Why::Relation => b"Relation",
        Why::BlockRange => b"BlockRange",
        Why::ImagePage => b"ImagePage",
        Why::Fragments => b"Fragments",
        Why::Shape => b"Shape",
        Why::First => b"First",
    }
}

/// A name and a place, and what stands behind these.
fn placed(alloc: Global, name: &[u8], place: Lsn, text: &[u8]) -> Result<Text, NoMemory>
    ensures { IfOk result (λ line. line ≡ placed name.now place text.now) }
{
    let place = lsn_text(alloc, place)?;
    joined(alloc, &[name, place.as_bytes(), b" ", text])
}

/// A segment of an archive with segments of that size is missing. No archive has a number past the
/// last one.
fn missing_text(alloc: Global, size: SegSize, number: u64) -> Result<Text, NoMemory>
    ensures { IfOk result (λ text. text ≡ damage_text size (damage.Missing number)) }
{
    if number > MOST_SEGMENTS {
        return Err(NoMemory);
    }
    let name = segment_name(alloc, number, size)?;
    joined(alloc, &[b"10 WalMissing ", name.as_bytes()])
}

/// An entry is of a kind that isn't read.
fn unsupported_text(
    alloc: Global,
    size: SegSize,
    place: Lsn,
    manager: u8,
    info: u8,
) -> Result<Text, NoMemory>
    ensures { IfOk result (λ text.
        text ≡ damage_text size (damage.Unsupported place manager info)) }
{
    let kind = format!(in alloc; "{manager} {info}")?;
    placed(alloc, b"12 WalUnsupported ", place, kind.as_bytes())
}

/// An archive with segments of that size is damaged.
fn damage_text(alloc: Global, size: SegSize, damage: Damage) -> Result<Text, NoMemory>
    ensures { IfOk result (λ text. text ≡ damage_text size damage) }
{
    match damage {
        Damage::Missing(number) => missing_text(alloc, size, number),
        Damage::Broken(place, why) => placed(alloc, b"11 WalDamaged ", place, broken_text(why)),
        Damage::Unsupported(place, manager, info) => {
            unsupported_text(alloc, size, place, manager, info)
        }
        Damage::Content(place, why) => placed(alloc, b"14 WalContent ", place, content_text(why)),
    }
}

/// The WAL ends before the target.
fn short_text(alloc: Global, end: Lsn, target: Lsn) -> Result<Text, NoMemory>
    ensures { IfOk result (λ text. text ≡ wal_text (wal.Short end target)) }
{
    let target = lsn_text(alloc, target)?;
    placed(alloc, b"13 WalShort ", end, target.as_bytes())
}

/// The WAL can't be replayed.
pub fn wal_text(alloc: Global, fault: RecoveryFault) -> Result<Text, NoMemory>
    ensures { IfOk result (λ text. text ≡ wal_text fault) }
{
    match fault {
        RecoveryFault::Damaged(size, damage) => damage_text(alloc, size, damage),
        RecoveryFault::Short(end, target) => short_text(alloc, end, target),
        RecoveryFault::BadDelta(place) => placed(alloc, b"14 WalContent ", place, b"BadDelta"),
        RecoveryFault::SettingsDamaged => joined(alloc, &[b"15 SettingsDamaged"]),
        RecoveryFault::Timeline(name) => joined(alloc, &[b"16 WalTimeline ", name.as_bytes()]),
        RecoveryFault::NotInit => joined(alloc, &[b"43 NotInit"]),
        RecoveryFault::Failed => area_text(alloc, b"wal", AreaFault::Failed),
        RecoveryFault::NoMemory => area_text(alloc, b"wal", AreaFault::NoMemory),
    }
}

/// The status of a fault of an area.
pub fn area_status(fault: AreaFault) -> Status
    ensures { result ≡ area_status fault }
{
    match fault {
        AreaFault::Failed => Status::Device,
        AreaFault::NoMemory => Status::Memory,
    }
}

/// The status of a WAL that can't be replayed.
pub fn wal_status(fault: RecoveryFault) -> Status
    ensures { result ≡ wal_status fault }
{
    match fault {
        RecoveryFault::Damaged(_, _) => Status::Refused,
        RecoveryFault::Short(_, _) => Status::Refused,
        RecoveryFault::BadDelta(_) => Status::Refused,
        RecoveryFault::SettingsDamaged => Status::Refused,
        RecoveryFault::Timeline(_) => Status::Refused,
        RecoveryFault::NotInit => Status::Refused,
        RecoveryFault::Failed => Status::Device,
        RecoveryFault::NoMemory => Status::Memory,
    }
}

/// The status of a fault of an area of a store.
pub fn store_status(fault: StoreFault) -> Status
    ensures { result ≡ store_status fault }
{
    match fault {
        StoreFault::Failed(_) => Status::Device,
        StoreFault::NoMemory => Status::Memory,
    }
}
