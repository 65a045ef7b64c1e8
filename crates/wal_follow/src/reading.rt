//! The entries that stand behind a tip, read and applied until no whole one does.

ghost use Rattle.std.specs.Prelude.{◌≡◌, IfOk, IfErr, OnOk, OnErr};
ghost use Rattle.vault.specs.Frame.{OnlyReads};
ghost use Rattle.wal_reader.specs.Cursor.{IsReached};
ghost use Rattle.history.specs.Applied.{IsApplicable};
ghost use Rattle.history.specs.Apply.{apply as applied_to};
ghost use Rattle.history.specs.Whole.{entry_of};
ghost use Rattle.wal_follow.specs.Reading.{RefusesEntry, RefusedAt, TakesEntry, ReadsTo, RefusedBehind};

use crate::fault::FollowFault;
use crate::step::{Step, step_behind};
use history::{ApplyFault, PageMap, apply, entries_may_be_applied};
use lsn_core::{Settings, WalTip};
use std::alloc::Global;
use vault::Vault;
use wal_record::Record;

/// Applies an entry.
fn take(store: &mut PageMap, entry: &Record) -> Result<(), FollowFault>
    requires { IsApplicable entry.now.kind }
    ensures applied { OnOk result (applied_to store.old (entry_of entry.now) ≡ Some store.new) }
    ensures bad { IfErr result (RefusesEntry store.old entry.now) }
    ensures same { OnErr result (store.new ≡ store.old) }
{
    match apply(store, entry) {
        Ok(()) => Ok(()),
        Err(ApplyFault::BadDelta) => Err(FollowFault::BadDelta(entry.start)),
        Err(ApplyFault::NoMemory) => Err(FollowFault::NoMemory),
    }
}

/// Reads and applies the entry behind a tip; none where no whole one is there, and then whether the
/// archive ends.
fn take_next<V: Vault>(
    alloc: Global,
    area: &mut V,
    settings: &Settings,
    tip: &mut WalTip,
    store: &mut PageMap,
    ended: &mut bool,
) -> Result<Option<Record>, FollowFault>
    requires { IsReached settings.now.segment tip.old }
    ensures taken { IfOk result
        (TakesEntry settings.now (V.files area.old) tip.old tip.new store.old store.new ended.new) }
    ensures refused { IfErr result (RefusedAt settings.now (V.files area.old) tip.old store.old) }
    ensures reads { OnlyReads V.Vault area.old area.new }
{
    match step_behind(alloc, area, settings, *tip)? {
        Step::Entry(entry, next) => {
            // known: an entry that was read may be applied
            entries_may_be_applied();
            take(store, &entry)?;
            *tip = next;
            Ok(Some(entry))
        }
        Step::Ended => {
            *ended = true;
            Ok(None)
        }
        Step::Torn(_) => {
            *ended = false;
            Ok(None)
        }
    }
}

/// Reads and applies the entries behind a tip, until no whole one stands there; and then tells
/// whether the archive ends.
pub(crate) fn read_on<V: Vault>(
    alloc: Global,
    area: &mut V,
    settings: &Settings,
    tip: &mut WalTip,
    store: &mut PageMap,
    ended: &mut bool,
) -> Result<(), FollowFault>
    requires { IsReached settings.now.segment tip.old }
    ensures read { OnOk result
        (ReadsTo settings.now (V.files area.old) tip.old store.old tip.new store.new ended.new) }
    ensures refused { IfErr result
        (RefusedBehind settings.now (V.files area.old) tip.old store.old) }
    ensures reads { OnlyReads V.Vault area.old area.new }
{
    while let Some(_entry) = take_next(alloc, area, settings, tip, store, ended)? {}
    Ok(())
}
