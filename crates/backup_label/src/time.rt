//! A moment as text.

ghost use Rattle.std.specs.Prelude.{◌≡◌, ◌<◌, ◌≤◌, ◌/◌, None, pos, IfOk};
ghost use Rattle.jiff.specs.Words.{epoch_day, time_text as jiff_time_text};
ghost use Rattle.backup_label.specs.Time.{clock_text, shown_text, IsTimeText};

use jiff::Timestamp;
use jiff::civil::{self, Date, Time};
use jiff::tz::Offset;
use lsn_core::{NoMemory, Text};
use std::alloc::Global;

/// The date of a moment.
fn date_of(when: u64) -> Date
    requires { when ≤ 253402207199 }
    ensures { epoch_day result ≡ pos (when / 86400) }
{
    let moment = Timestamp::from_second(when as i64).unwrap();
    Offset::UTC.to_datetime(moment).date()
}

/// What a clock shows at that second of a day.
fn clock_of(second: u64) -> Time
    requires { second < 86400 }
    ensures { jiff_time_text None result ≡ clock_text second }
{
    let (hour, minute) = (second / 3600, second / 60 % 60);
    civil::time(hour as i8, minute as i8, (second % 60) as i8, 0)
}

/// The date, the time of day and the zone.
fn shown(alloc: Global, date: Date, time: Time, zone: &[u8]) -> Result<Text, NoMemory>
    ensures { IfOk result (λ t. t ≡ shown_text date (jiff_time_text None time) zone.now) }
{
    let mut text = format!(in alloc; "{date} {time} ")?.into_bytes();
    text.extend_from_slice(zone)?;
    Ok(Text::from_vec(text))
}

/// A moment in seconds since 1970 UTC, at most the clock's bound (9999-12-30 21:59:59), as date,
/// time of day and the name of the zone: `2023-11-14 22:13:20 UTC` in a label, with GMT in a
/// manifest. The zone is a name alone, and shifts nothing.
pub fn time_text(alloc: Global, when: u64, zone: &[u8]) -> Result<Text, NoMemory>
    requires { when ≤ 253402207199 }
    ensures { IfOk result (IsTimeText when zone.now) }
{
    shown(alloc, date_of(when), clock_of(when % 86_400), zone)
}
