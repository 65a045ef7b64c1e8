//! A store that was found is begun at a name, and shared.

ghost use Rattle.std.specs.Prelude.{◌≡◌, true, IfOk, IfErr, IsSome, box_value, replicate};
ghost use Rattle.vault.specs.Frame.{IsDurable};
ghost use Rattle.wal_record.specs.Tips.{IsWithin};
ghost use Rattle.wal_writer.specs.Log.{IsLog, log_at};
ghost use Rattle.journal.specs.Lawful.{IsLawful};
ghost use Rattle.store_lifecycle.specs.Starts.{AreBack, AreNamed, AreStarts, fresh_passes};
ghost use Rattle.store_areas.specs.Begin.{IsStanding};
ghost use Rattle.store_locks.specs.Locked.{IsHeldPart, empty_shares};
ghost use Rattle.store_areas.specs.Read.{IsFound};
ghost use Rattle.store_lifecycle.specs.Begun.{AreBooks, IsStartedBy};

use crate::enlisting::{Books, Crew, enlist, open_ledgers};
use data_areas::Partitions;
use journal::{HistoryEntry, Journal};
use lsn_core::{Settings, WalTip};
use page_pool::Partition;
use shared_store::{Pass, Shares, Store, Undealt};
use std::alloc::Global;
use std::boxed::Box;
use std::sync::Mutex;
use std::sync::ledger::Book;
use store_areas::{Found, StoreAreas};
use store_ledgers::{AreaFaults, Blanks, EntryShare};
use store_locks::{Desk, HeldPart, OfCrew};
use timeline::{Note, Pen, Timeline};
use vault::{BoxedArea, Vault};
use wal_writer::{Flushed, WalState};

/// A store that was begun, a pass for each worker, in order, and the book of the faults of the area
/// of the summaries.
#[derive(Drop)]
pub struct Began<J: OfCrew, V: Vault> {
    pub store: Store<J, V>,
    pub crew: Vec<Pass<J>>,
    pub sums: Book<AreaFaults<J, 5>>,
}

/// The journal of a WAL that was found, and that it is flushed up to its end.
fn attach<J: OfCrew, V: Vault>(
    alloc: Global,
    area: V,
    settings: Settings,
    tip: WalTip,
    pen: Pen<HistoryEntry, J>,
    pages: u64,
) -> (Journal<J, V>, Flushed)
    requires found { IsFound (V.files area) settings pen pages tip }
    requires told { J.tells ≡ true → IsSome (V.files area) }
    requires durable { IsDurable (V.files area) (V.past area) }
    ensures area { result.0.wal.area ≡ area }
    ensures log { result.0.wal.tail ≡ log_at settings tip }
    ensures pen { result.0.pen ≡ pen }
    ensures mark { result.1.to.0 ≡ tip.end }
    ensures known { IsLog (log_at settings tip) }
{
    let wal = WalState::attach(alloc, area, settings, tip);
    let _tip = wal.tip();
    let mut journal = Journal::new(wal, pen, pages);
    let tip = journal.tip();
    let mark = journal.flush_to(alloc, tip.end).unwrap();
    (journal, mark)
}

/// The value under the lock of a partition.
fn hold<J: OfCrew, W: Vault, const Q: u32>(
    part: Partition<W, Q>,
    note: Note<HistoryEntry, J>,
    share: EntryShare<J>,
    faults: Book<AreaFaults<J, Q>>,
) -> HeldPart<J, W, Q>
    requires { IsHeldPart Q J.settings (J.tells ≡ true) J.found (J.starts Q) part note.list share
        faults.total }
    ensures { result.list ≡ note.list }
{
    HeldPart {
        part,
        note,
        share,
        faults,
    }
}

/// The areas of a store that was found, handed back.
fn back<V: Vault>(wal: V, parts: Partitions<V>) -> StoreAreas<V>
    ensures wal { result.wal ≡ wal }
    ensures data0 { (V.files result.data0 ≡ parts.part0.disk)
        × (V.past result.data0 ≡ parts.part0.past) × (V.faults result.data0 ≡ parts.part0.faults) }
    ensures data1 { (V.files result.data1 ≡ parts.part1.disk)
        × (V.past result.data1 ≡ parts.part1.past) × (V.faults result.data1 ≡ parts.part1.faults) }
    ensures data2 { (V.files result.data2 ≡ parts.part2.disk)
        × (V.past result.data2 ≡ parts.part2.past) × (V.faults result.data2 ≡ parts.part2.faults) }
    ensures data3 { (V.files result.data3 ≡ parts.part3.disk)
        × (V.past result.data3 ≡ parts.part3.past) × (V.faults result.data3 ≡ parts.part3.faults) }
{
    StoreAreas {
        wal,
        data0: Box::into_inner(parts.part0.into_area().area),
        data1: Box::into_inner(parts.part1.into_area().area),
        data2: Box::into_inner(parts.part2.into_area().area),
        data3: Box::into_inner(parts.part3.into_area().area),
    }
}

/// The store of these parts, each under its lock.
fn share<J: OfCrew, V: Vault>(
    line: Timeline<HistoryEntry, J>,
    pen: Pen<HistoryEntry, J>,
    alloc: Global,
    found: Rest<V>,
    books: Books<J>,
    crew: Crew<J>,
    shares: Shares<J>,
) -> Began<J, V>
    requires found { IsStartedBy V.Vault J.settings J.found J.wal J.starts pen found }
    requires told { J.tells ≡ true → IsSome (V.files (box_value found.area.area)) }
    requires books { AreBooks books.entries books.shares.share0 books.shares.share1
        books.shares.share2 books.shares.share3 books.made.total books.data0.total
        books.data1.total books.data2.total books.data3.total books.wal.total }
    requires counts { crew.counts.items ≡ replicate J.workers 0 }
    requires dealt { shares ≡ empty_shares 0 }
    ensures crew { result.crew ≡ crew.passes }
    ensures lawful { J.tells ≡ true → IsLawful J.settings.segment J.found }
    ensures sums { result.sums ≡ books.sums }
{
    let mut pen = pen;
    let Rest {
        settings,
        pages,
        tip,
        area,
        parts,
    } = found;
    let Books {
        entries,
        shares: held,
        made,
        data0,
        data1,
        data2,
        data3,
        wal,
        sums,
    } = books;
    let note0 = line.note(&mut pen);
    let note1 = line.note(&mut pen);
    let note2 = line.note(&mut pen);
    let note3 = line.note(&mut pen);
    let (journal, mark) = attach(alloc, area, settings, tip, pen, pages);
    let part0 = hold(parts.part0, note0, held.share0, data0);
    let part1 = hold(parts.part1, note1, held.share1, data1);
    let part2 = hold(parts.part2, note2, held.share2, data2);
    let part3 = hold(parts.part3, note3, held.share3, data3);
    let desk = Desk {
        journal,
        mark,
        counts: crew.counts,
        entries,
        made,
        faults: wal,
    };
    let store = Store {
        line,
        desk: Mutex::new(desk),
        part0: Mutex::new(part0),
        part1: Mutex::new(part1),
        part2: Mutex::new(part2),
        part3: Mutex::new(part3),
        settings,
        rest: Mutex::new(Undealt { shares }),
    };
    Began {
        store,
        crew: crew.passes,
        sums,
    }
}

/// What was found of a store, but for its history, with the area of its WAL on the heap.
#[derive(Drop)]
pub(crate) struct Rest<V: Vault> {
    pub settings: Settings,
    pub pages: u64,
    pub tip: WalTip,
    pub area: BoxedArea<V>,
    pub parts: Partitions<V>,
}

/// The area of a WAL that was found. It shows that where the WAL ends is within its room.
fn know_tip<V: Vault>(alloc: Global, wal: V, settings: Settings, tip: WalTip) -> V
    requires { IsWithin settings.segment tip }
    ensures area { result ≡ wal }
    ensures known { IsLog (log_at settings tip) }
{
    let state = WalState::attach(alloc, wal, settings, tip);
    let _tip = state.tip();
    state.detach()
}

/// Begins a store that was found, at the name that the call's proof picks, with so many workers. It
/// errs where there is no memory, and hands the areas back as they were found.
pub fn begin<J: OfCrew, V: Vault>(
    alloc: Global,
    found: Found<V>,
    blanks: Blanks,
    workers: u32,
) -> Result<Began<J, V>, StoreAreas<V>>
    requires names { (found.opened.table ≡ J.table) × (found.opened.list ≡ J.found)
        × (found.settings ≡ J.settings) }
    requires ledgers { AreNamed J.entries_named J.faults_named J.made_named J.passes blanks }
    requires crew { (workers ≡ J.workers) × (J.passes ≡ J.workers) }
    requires starts { AreStarts V.Vault J.starts J.wal found }
    requires stands { IsStanding V.Vault found }
    requires told { J.tells ≡ true → IsSome (V.files found.wal) }
    ensures crew { IfOk result (λ began. began.crew.items ≡ fresh_passes workers J.found) }
    ensures lawful { J.tells ≡ true → IsLawful J.settings.segment J.found }
    ensures sums { IfOk result (λ began. began.sums.total ≡ 0) }
    ensures back { IfErr result (AreBack V.Vault found) }
{
    let Found {
        opened,
        settings,
        pages,
        tip,
        wal,
        parts,
    } = found;
    let wal = know_tip(alloc, wal, settings, tip);
    let (books, mut pool) = open_ledgers(blanks);
    let (line, mut pen) = Timeline::new(opened);
    let crew = match enlist(alloc, &line, &mut pen, &mut pool, workers) {
        Ok(crew) => crew,
        Err(_) => return Err(back(wal, parts)),
    };
    let area = match Box::new(alloc, wal) {
        Ok(area) => BoxedArea { area },
        Err(refused) => return Err(back(refused.value, parts)),
    };
    let rest = Rest {
        settings,
        pages,
        tip,
        area,
        parts,
    };
    Ok(share(line, pen, alloc, rest, books, crew, pool))
}
