//! The settings of a WAL: the file `settings`, and the system identifier in the first page.

ghost use Rattle.std.specs.Prelude.{◌≡◌, ◌^◌, ◌<◌, ◌≤◌, IfOk, IfSome, IfNone};
ghost use Rattle.vault.specs.Frame.{OnlyReads};
ghost use Rattle.lsn_core.specs.Causes.{HasCause};
ghost use Rattle.lsn_core.specs.Segment.{IsRelseg};
ghost use Rattle.lsn_core.specs.Sizes.{most_segments};
ghost use Rattle.wal_reader.specs.Settings.{settings_text, IsSettingsText, IsDamagedText};
ghost use Rattle.wal_reader.specs.Settings.{system_in, SettingsAnswer};
ghost use Rattle.wal_reader.specs.Inside.{line_of, HasNoLine, HasNoNumbers};
ghost use Rattle.wal_reader.specs.Inside.{TellsSettings, TellsSystem};

use crate::fault::WalFault;
use crate::front::{front, front_if_there};
use crate::names::{has_wal_name, least_segment, other_timeline};
use lsn_core::byte_words::{behind_prefix, cut_at, u64_in};
use lsn_core::text_numbers::decimal_in;
use lsn_core::{AreaFault, MOST_RELSEG, NoMemory, SegSize, Settings, Text, segment_name};
use std::alloc::Global;
use vault::Vault;

/// The name of the file of settings (profile).
const SETTINGS: &[u8] = b"settings";

/// The text of the file `settings` of a WAL with this segment size and so many blocks a segment of
/// a fork (profile): the lines `segment-mib M` and `blocks-per-segment N`.
pub fn settings_text(alloc: Global, segment: SegSize, relseg: u32) -> Result<Text, NoMemory>
    ensures { IfOk result (λ t. t ≡ settings_text segment relseg) }
{
    let mib = segment.mib();
    Ok(Text::from_vec(format!(in alloc;
        "segment-mib {mib}\nblocks-per-segment {relseg}\n"
    )?.into_bytes()))
}

/// The number of a line of a key and a number, and what stands behind the line.
fn number_line<'a>(bytes: &'a [u8], key: &[u8]) -> Option<(u64, &'a [u8])>
    ensures found { IfSome result (λ x. bytes.now ≡ line_of key.now x.0 x.1.now) }
    ensures small { IfSome result (λ x. x.0 < 2 ^ 64) }
    ensures none { IfNone result (HasNoLine bytes.now key.now) }
{
    let Some(line) = behind_prefix(bytes, key) else {
        return None;
    };
    let Some((text, tail)) = cut_at(b'\n', line) else {
        return None;
    };
    match decimal_in(text) {
        Some(number) => Some((number, tail)),
        None => None,
    }
}

/// The two numbers of the file, whatever they are.
fn two_numbers(bytes: &[u8]) -> Option<(u64, u64)>
    ensures found { IfSome result (λ x. bytes.now ≡ settings_text x.0 x.1) }
    ensures small { IfSome result (λ x. (x.0 < 2 ^ 64) × (x.1 < 2 ^ 64)) }
    ensures none { IfNone result (HasNoNumbers bytes.now) }
{
    let Some((mib, tail)) = number_line(bytes, b"segment-mib ") else {
        return None;
    };
    let Some((relseg, tail)) = number_line(tail, b"blocks-per-segment ") else {
        return None;
    };
    if tail.is_empty() {
        return Some((mib, relseg));
    }
    None
}

/// The settings that such numbers are.
fn in_range(mib: u64, relseg: u64) -> Option<(SegSize, u32)>
    ensures found { IfSome result (λ x. IsSettingsText (settings_text mib relseg) x.0 x.1) }
    ensures none { IfNone result (IsSettingsText (settings_text mib relseg) mib relseg → ⊥) }
{
    if mib > 1024 || relseg < 1 || relseg > u64::from(MOST_RELSEG) {
        return None;
    }
    match SegSize::new(mib as u32) {
        Some(segment) => Some((segment, relseg as u32)),
        None => None,
    }
}

/// The settings that stand in the file. None exactly where it is not of its grammar.
fn settings_in(bytes: &[u8]) -> Option<(SegSize, u32)>
    ensures found { IfSome result (λ x. IsSettingsText bytes.now x.0 x.1) }
    ensures none { IfNone result (IsDamagedText (Some bytes.now)) }
{
    match two_numbers(bytes) {
        Some((mib, relseg)) => in_range(mib, relseg),
        None => None,
    }
}

/// What the file tells: 16 MiB and 131072 blocks where it isn't there (PostgreSQL manual, initdb
/// --wal-segsize, configure --with-segsize), and none where it is damaged. It has 43 bytes at most,
/// so that its first 8192 are looked at.
fn told_settings<V: Vault>(alloc: Global, wal: &mut V) -> Result<Option<(SegSize, u32)>, AreaFault>
    ensures told { IfOk result (TellsSettings (V.files wal.old)) }
    ensures range { IfOk result (λ told. IfSome told (λ x. IsRelseg x.1)) }
    ensures reads { OnlyReads V.Vault wal.old wal.new }
    ensures cause { HasCause (V.faults wal.old) (V.faults wal.new) result }
{
    match front_if_there(alloc, wal, SETTINGS)? {
        Some(bytes) => Ok(settings_in(&bytes)),
        None => Ok(Some((SegSize::standard(), MOST_RELSEG))),
    }
}

/// The system identifier that stands in a page head; 0 where its first 32 bytes aren't held.
fn system_in(page: &[u8]) -> u64
    ensures { result ≡ system_in page.now }
{
    if page.len() < 32 {
        return 0;
    }
    u64_in(page, 24)
}

/// The system identifier in the first page of a segment; 0 where there is none.
fn system_at<V: Vault>(
    alloc: Global,
    wal: &mut V,
    size: SegSize,
    segment: Option<u64>,
) -> Result<u64, AreaFault>
    requires { IfSome segment (λ seg. seg ≤ most_segments) }
    ensures system { IfOk result (TellsSystem size (V.files wal.old) segment) }
    ensures reads { OnlyReads V.Vault wal.old wal.new }
    ensures cause { HasCause (V.faults wal.old) (V.faults wal.new) result }
{
    let Some(number) = segment else {
        return Ok(0);
    };
    let name = segment_name(alloc, number, size)?;
    let page = front(alloc, wal, name.as_bytes())?;
    Ok(system_in(&page))
}

/// The settings of a WAL, or why there are none, in this order. `NotInit` exactly where no name of
/// the area is 24 upper-case hexadecimal digits. `SettingsDamaged` exactly where the file
/// `settings` is there and not of its grammar: the lines `segment-mib M` and `blocks-per-segment
/// N`, each with a line end, M a power of two from 1 to 1024 and N from 1 to 131072, in decimal
/// without leading zeros (profile). Without that file M is 16 and N 131072. `Timeline` exactly
/// where a name is that of a segment file of a timeline other than 1, with the first such name in
/// byte order. The system identifier is that of the first page of the least segment that is there;
/// 0 where there is none, or where that page's first 32 bytes aren't held.
pub fn read_settings<V: Vault>(alloc: Global, wal: &mut V) -> Result<Settings, WalFault>
    ensures answer { SettingsAnswer (V.files wal.old) (V.faults wal.old) (V.faults wal.new) result }
    ensures reads { OnlyReads V.Vault wal.old wal.new }
{
    let names = wal.names(alloc)?;
    if !has_wal_name(&names) {
        return Err(WalFault::NotInit);
    }
    let Some(told) = told_settings(alloc, wal)? else {
        return Err(WalFault::SettingsDamaged);
    };
    if let Some(name) = other_timeline(&names, told.0) {
        return Err(WalFault::Timeline(name));
    }
    let system = system_at(alloc, wal, told.0, least_segment(&names, told.0))?;
    match Settings::new(told.0, told.1, system) {
        Some(settings) => Ok(settings),
        None => Err(WalFault::SettingsDamaged),
    }
}
