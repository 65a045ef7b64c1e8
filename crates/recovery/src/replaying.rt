//! Replay of a WAL, from its first entry or from a place on, into pages.

ghost use Rattle.std.specs.Prelude.{◌≡◌, ◌≤◌, ◌<◌, ◌^◌, ◌↔◌, IsTrue, [], ◌∷◌, length, None, IfSome, OnOk};
ghost use Rattle.lsn_core.specs.Causes.{HasCause};
ghost use Rattle.vault.specs.Frame.{OnlyReads};
ghost use Rattle.history.specs.Applied.{IsApplicable};
ghost use Rattle.recovery.specs.Causes.{Replays};
ghost use Rattle.recovery.specs.Replayed.{ReplaysInto, IsHeard, HearsReplay};
ghost use Rattle.recovery.specs.Recovered.{RecoversInto};
ghost use Rattle.recovery.specs.Inside.{IsTaken, Adds, Takes, FinishAnswer, RedoesFrom};

use crate::fault::{RecoveryFault, ReplayFault};
use crate::listener::{Deaf, Listener};
use crate::reading::{Beginning, next_to, whole_to};
use crate::redo::redo_entry;
use crate::tally::Tally;
use generic_redo::RedoFault;
use history::PageMap;
use lsn_core::{AreaFault, Lsn, Pages, Settings, WalTip};
use std::alloc::Global;
use vault::Vault;
use wal_record::Record;

/// What a replay came to: where the last entry ends that ends at the target or before it, or where
/// the WAL begins if there is none; how many forks and pages there are then; and the tip behind all
/// that was read.
#[derive(Clone, Copy)]
pub struct Replayed {
    pub end: Lsn,
    pub forks: u64,
    pub pages: u64,
    pub tip: WalTip,
}

/// A WAL that was read up to a target, or to its end: where the last entry ends that ends at the
/// target or before it, or where the WAL begins if there is none; the store that these entries make
/// from nothing; and the tip behind all that was read.
#[derive(Drop)]
pub struct ReadWal {
    pub end: Lsn,
    pub tip: WalTip,
    pub store: PageMap,
}

/// What was replayed so far: where the last of the entries ends, how many forks and pages there
/// are, and the start of the first entry that can't be redone.
#[derive(Clone, Copy)]
pub struct Progress {
    pub end: Lsn,
    pub tally: Tally,
    pub bad: Option<Lsn>,
}

/// Whether an entry that ends there is replayed.
fn is_taken(upto: Option<Lsn>, end: Lsn) -> bool
    ensures { IsTrue result ↔ IsTaken upto end.0 }
{
    match upto {
        Some(target) => end.0 <= target.0,
        None => true,
    }
}

impl Progress {
    /// Nothing yet, from this place on, and so many forks and pages.
    fn new(begin: Lsn, counted: Tally) -> Progress
        ensures { result ≡ record { end = begin; tally = counted; bad = None } }
    {
        Progress {
            end: begin,
            tally: counted,
            bad: None,
        }
    }

    /// Redoes an entry, unless one before it couldn't be redone.
    fn add<P: Pages>(&mut self, target: &mut P, entry: &Record) -> Result<(), AreaFault>
        requires applicable { IsApplicable entry.now.kind }
        requires end { 0 < entry.now.end.0 }
        ensures adds { OnOk result
            (Adds P.shows entry.now target.old target.new self.old self.new) }
        ensures kept { P.keeps target.old target.new }
        ensures cause { HasCause (P.faults target.old) (P.faults target.new) result }
    {
        self.end = entry.end;
        if self.bad.is_some() {
            return Ok(());
        }
        match redo_entry(target, entry, &mut self.tally) {
            Ok(()) => Ok(()),
            Err(RedoFault::BadDelta) => {
                self.bad = Some(entry.start);
                Ok(())
            }
            Err(RedoFault::Failed) => Err(AreaFault::Failed),
            Err(RedoFault::NoMemory) => Err(AreaFault::NoMemory),
        }
    }

    /// Tells an entry that was read, and replays it where it ends at the target or before it.
    fn take<P: Pages, L: Listener>(
        &mut self,
        target: &mut P,
        upto: Option<Lsn>,
        entry: &Record,
        listener: &mut L,
    ) -> Result<(), AreaFault>
        requires applicable { IsApplicable entry.now.kind }
        requires end { 0 < entry.now.end.0 }
        requires room { IfSome (L.heard listener.old) (λ es. length es < 2 ^ 50) }
        ensures takes { OnOk result
            (Takes P.shows upto entry.now target.old target.new self.old self.new) }
        ensures heard { IsHeard L.heard (entry.now ∷ []) listener.old listener.new }
        ensures kept { P.keeps target.old target.new }
        ensures cause { HasCause (P.faults target.old) (P.faults target.new) result }
    {
        listener.hear(entry);
        if is_taken(upto, entry.end) {
            return self.add(target, entry);
        }
        Ok(())
    }

    /// What was replayed of a WAL that was read up to a tip. The archive's end before the target
    /// comes before an entry that can't be redone.
    fn finish(self, upto: Option<Lsn>, tip: WalTip) -> Result<Replayed, RecoveryFault>
        ensures { FinishAnswer upto tip self result }
    {
        let tip = whole_to(upto, tip)?;
        if let Some(place) = self.bad {
            return Err(RecoveryFault::BadDelta(place));
        }
        let (end, forks, pages) = (self.end, self.tally.forks, self.tally.pages);
        Ok(Replayed {
            end,
            forks,
            pages,
            tip,
        })
    }
}

/// Reads the WAL of these settings from a beginning on up to the first end at or past the target,
/// or to its end where no target is given, and redoes over the pages the entries that end at the
/// target or before it. A listener is told each entry that is read, in order, before that is
/// redone.
fn redo_from<V: Vault, P: Pages, L: Listener>(
    alloc: Global,
    wal: &mut V,
    settings: &Settings,
    begin: Beginning,
    upto: Option<Lsn>,
    target: &mut P,
    counted: Tally,
    listener: &mut L,
) -> Result<Replayed, ReplayFault>
    requires none { IfSome (L.heard listener.old) (λ es. es ≡ []) }
    ensures answer { RedoesFrom V.Vault P.Pages L.Listener settings.now begin upto counted
        wal.old wal.new target.old target.new listener.old listener.new result }
    ensures reads { OnlyReads V.Vault wal.old wal.new }
    ensures kept { P.keeps target.old target.new }
    ensures later { P.faults target.old ≤ P.faults target.new }
{
    let size = settings.segment();
    let mut cursor = begin.cursor(settings);
    let first = cursor.tip();
    let mut progress = Progress::new(first.end, counted);
    while let Some(record) = next_to(alloc, wal, &mut cursor, size, upto)? {
        progress.take(target, upto, &record, listener)?;
    }
    let last = cursor.tip();
    Ok(progress.finish(upto, last)?)
}

/// Reads the WAL of these settings from a beginning on up to the first end at or past the target,
/// or to its end where no target is given, and redoes over the pages the entries that end at the
/// target or before it: an image is restored, a delta is done where the page's LSN is below the
/// entry's end. Of the store that the pages show so many forks and pages are counted, and what the
/// answer counts goes on from there. The whole of the WAL is read before it is told that an entry
/// can't be redone: a damaged archive, and one that ends before the target, come first; the pages
/// then have the entries before that one, and of it the blocks before the one that can't be redone.
/// It holds one entry of the WAL.
pub fn recover<V: Vault, P: Pages>(
    alloc: Global,
    wal: &mut V,
    settings: &Settings,
    begin: Beginning,
    upto: Option<Lsn>,
    target: &mut P,
    counted: Tally,
) -> Result<Replayed, ReplayFault>
    ensures answer { RecoversInto V.Vault P.Pages settings.now begin upto counted
        wal.old wal.new target.old target.new result }
    ensures reads { OnlyReads V.Vault wal.old wal.new }
    ensures kept { P.keeps target.old target.new }
    ensures later { P.faults target.old ≤ P.faults target.new }
{
    redo_from(
        alloc, wal, settings, begin, upto, target, counted, &mut Deaf,
    )
}

/// Replays the WAL of these settings from its first entry on, over pages that show a store: over
/// the empty one they show then what the WAL makes from nothing.
pub fn replay<V: Vault, P: Pages>(
    alloc: Global,
    wal: &mut V,
    settings: &Settings,
    upto: Option<Lsn>,
    target: &mut P,
) -> Result<Replayed, ReplayFault>
    ensures answer { ReplaysInto V.Vault P.Pages settings.now upto wal.old wal.new target.old
        target.new result }
    ensures reads { OnlyReads V.Vault wal.old wal.new }
    ensures kept { P.keeps target.old target.new }
    ensures later { P.faults target.old ≤ P.faults target.new }
{
    replay_heard(alloc, wal, settings, upto, target, &mut Deaf)
}

/// The same, with a listener that heard nothing yet, where it tells: it is told each entry that is
/// read, in order, before that is replayed, and also the one that ends past the target.
pub fn replay_heard<V: Vault, P: Pages, L: Listener>(
    alloc: Global,
    wal: &mut V,
    settings: &Settings,
    upto: Option<Lsn>,
    target: &mut P,
    listener: &mut L,
) -> Result<Replayed, ReplayFault>
    requires none { IfSome (L.heard listener.old) (λ es. es ≡ []) }
    ensures answer { HearsReplay V.Vault P.Pages L.Listener settings.now upto wal.old wal.new
        target.old target.new listener.old listener.new result }
    ensures reads { OnlyReads V.Vault wal.old wal.new }
    ensures kept { P.keeps target.old target.new }
    ensures later { P.faults target.old ≤ P.faults target.new }
{
    let begin = Beginning::FirstEntry;
    redo_from(
        alloc,
        wal,
        settings,
        begin,
        upto,
        target,
        Tally::none(),
        listener,
    )
}

/// The same into an empty store in memory, which is answered.
pub fn replay_in_memory<V: Vault>(
    alloc: Global,
    wal: &mut V,
    settings: &Settings,
    upto: Option<Lsn>,
) -> Result<ReadWal, RecoveryFault>
    ensures answer { Replays V.Vault settings.now upto wal.old wal.new result }
    ensures reads { OnlyReads V.Vault wal.old wal.new }
{
    let mut store = PageMap::new(alloc);
    match replay(alloc, wal, settings, upto, &mut store) {
        Ok(replayed) => Ok(ReadWal {
            end: replayed.end,
            tip: replayed.tip,
            store,
        }),
        Err(ReplayFault::Wal(fault)) => Err(fault),
        // a store in memory fails where memory runs out, and nowhere else
        Err(ReplayFault::Out(_)) => Err(RecoveryFault::NoMemory),
    }
}
