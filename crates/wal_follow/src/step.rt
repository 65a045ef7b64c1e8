//! What stands behind the entries of a stream that were read.

ghost use Rattle.std.specs.Prelude.{◌≡◌, IfOk, IfErr};
ghost use Rattle.vault.specs.Frame.{OnlyReads};
ghost use Rattle.wal_reader.specs.Cursor.{IsReached};
ghost use Rattle.wal_follow.specs.Steps.{GoesTo, ToldIn, RefusedIn, JudgesDamage};

use crate::fault::FollowFault;
use lsn_core::{Lsn, Settings, WalTip};
use std::alloc::Global;
use vault::Vault;
use wal_archive::{Broken, Damage};
use wal_reader::{WalCursor, WalFault};
use wal_record::Record;

/// What a follower finds behind the entries that it has read.
#[derive(Drop)]
pub(crate) enum Step {
    /// An entry, and the tip behind it.
    Entry(Record, WalTip),
    /// The archive ends there so far.
    Ended,
    /// An entry or a page's head that isn't whole yet begins there.
    Torn(Lsn),
}

/// What damage is to a follower: a step that waits, or a refusal.
fn torn_or(damage: Damage) -> Result<Step, FollowFault>
    ensures { JudgesDamage damage result }
{
    match damage {
        Damage::Broken(at, Broken::Torn) => Ok(Step::Torn(at)),
        other => Err(FollowFault::Damaged(other)),
    }
}

/// What stands behind a tip, over an area that may not tell its files.
pub(crate) fn step_behind<V: Vault>(
    alloc: Global,
    area: &mut V,
    settings: &Settings,
    tip: WalTip,
) -> Result<Step, FollowFault>
    requires { IsReached settings.now.segment tip }
    ensures found { IfOk result (ToldIn settings.now (V.files area.old) tip) }
    ensures on { IfOk result (GoesTo settings.now.segment tip) }
    ensures refused { IfErr result (RefusedIn settings.now (V.files area.old) tip) }
    ensures reads { OnlyReads V.Vault area.old area.new }
{
    let mut cursor = WalCursor::behind(settings, tip);
    match cursor.next(alloc, area) {
        Ok(Some(record)) => Ok(Step::Entry(record, cursor.tip())),
        Ok(None) => Ok(Step::Ended),
        Err(WalFault::Damaged(damage)) => torn_or(damage),
        Err(_) => Err(FollowFault::NoMemory),
    }
}
