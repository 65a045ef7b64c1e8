//! The WAL of a store as it is found: read, and replayed into data areas, with the history that it
//! tells.

ghost use Rattle.std.specs.Prelude.{◌≡◌, ◌<◌, ◌≤◌, ◌^◌, [], ◌∷◌, ◌++◌, IfOk, IfErr, OnOk, IsSome, length};
ghost use Rattle.std.specs.FinMap.{empty};
ghost use Rattle.vault.specs.Frame.{Adds, OnlyReads, IsDurable};
ghost use Rattle.history.specs.Whole.{entry_of};
ghost use Rattle.vault.specs.Boxed.{on_heap};
ghost use Rattle.data_areas.specs.Stored.{ShowsParts, KeepsAll};
ghost use Rattle.store_areas.specs.Begin.{BeginCause, MayComeFirst};
ghost use Rattle.store_areas.specs.Moments.{IsSync};
ghost use Rattle.store_areas.specs.Read.{IsFound};
ghost use Rattle.store_finding.specs.Filling.{IsChecked, ShowsHistory, IsUnreplayed};

use data_areas::StoreForks;
use journal::HistoryEntry;
use lsn_core::{Settings, WalTip};
use recovery::{Listener, RecoveryFault, ReplayFault, read_through, replay_heard, settings_of};
use std::alloc::Global;
use std::marker::Brand;
use timeline::{Names, Opened};
use vault::{BoxedArea, Vault};
use wal_record::Record;

/// The history of a WAL that is read, which grows by each entry.
#[derive(Drop)]
struct Finding {
    opened: Opened<HistoryEntry>,
}

impl Listener for Finding {
    ghost use Rattle.std.specs.Prelude.{Some};

    ghost heard = { λ f. Some f.opened.list };

    fn hear(&mut self, entry: &Record) {
        append_found(&mut self.opened, entry);
    }
}

/// Appends to the history the entry that a record of the WAL is.
fn append_found(opened: &mut Opened<HistoryEntry>, entry: &Record)
    requires { length opened.old.list < 2 ^ 50 }
    ensures list { opened.new.list ≡ opened.old.list ++ entry_of entry.now ∷ [] }
    ensures table { opened.new.table ≡ opened.old.table }
{
    tell_found::<Brand>(opened, entry);
}

/// The same. The call names the entry.
fn tell_found<N: Names<HistoryEntry>>(opened: &mut Opened<HistoryEntry>, _entry: &Record)
    requires named { N.next ≡ entry_of _entry.now ∷ [] }
    requires room { length opened.old.list < 2 ^ 50 }
    ensures list { opened.new.list ≡ opened.old.list ++ entry_of _entry.now ∷ [] }
    ensures table { opened.new.table ≡ opened.old.table }
{
    opened.append::<N>();
}

/// The WAL of a store that was replayed whole: its history, how many pages that makes, and where it
/// ends.
#[derive(Drop)]
pub(crate) struct Heard {
    pub opened: Opened<HistoryEntry>,
    pub pages: u64,
    pub tip: WalTip,
}

/// Reads the settings and the whole WAL of a store, which has an entry: of what replay refuses only
/// a bad delta may be left. What was found is made durable before it is read, so that new entries
/// follow none that a stop could take away.
pub(crate) fn check<V: Vault>(alloc: Global, wal: &mut V) -> Result<Settings, RecoveryFault>
    ensures checked { IfOk result (IsChecked (V.files wal.old)) }
    ensures refused { IfErr result
        (BeginCause (V.files wal.old) (V.faults wal.old) (V.faults wal.new)) }
    ensures first { IfErr result MayComeFirst }
    ensures same { V.files wal.new ≡ V.files wal.old }
    ensures synced { Adds IsSync (V.past wal.old) (V.past wal.new) }
    ensures durable { OnOk result (IsDurable (V.files wal.new) (V.past wal.new)) }
    ensures later { V.faults wal.old ≤ V.faults wal.new }
{
    let settings = settings_of(alloc, wal)?;
    wal.sync()?;
    let tip = read_through(alloc, wal, &settings, None)?;
    if tip.count == 0 {
        return Err(RecoveryFault::NotInit);
    }
    Ok(settings)
}

/// Replays the whole WAL of a store into data areas that show no pages.
pub(crate) fn replay<V: Vault>(
    alloc: Global,
    opened: Opened<HistoryEntry>,
    wal: &mut V,
    settings: &Settings,
    forks: &mut StoreForks<BoxedArea<V>>,
) -> Result<Heard, ReplayFault>
    requires none { opened.list ≡ [] }
    requires checked { IsChecked (V.files wal.old) settings.now }
    requires fresh { IsSome (V.files wal.old) → ShowsParts (on_heap V.Vault) forks.old empty }
    ensures found { IfOk result (λ heard.
        IsFound (V.files wal.old) settings.now heard.opened.list heard.pages heard.tip) }
    ensures shown { IfOk result (λ heard.
        ShowsHistory (on_heap V.Vault) (V.files wal.old) forks.new heard.opened.list) }
    ensures refused { IfErr result (IsUnreplayed (V.files wal.old) (V.faults wal.old)
        (V.faults wal.new) forks.old.faults.count forks.new.faults.count) }
    ensures reads { OnlyReads V.Vault wal.old wal.new }
    ensures kept { KeepsAll (on_heap V.Vault) forks.old forks.new }
{
    let mut finding = Finding { opened };
    let replayed = replay_heard(alloc, wal, settings, None, forks, &mut finding)?;
    if replayed.tip.count == 0 {
        return Err(ReplayFault::Wal(RecoveryFault::NotInit));
    }
    Ok(Heard {
        opened: finding.opened,
        pages: replayed.pages,
        tip: replayed.tip,
    })
}
