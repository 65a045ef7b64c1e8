//! The workers of a store that is begun, and the ledgers that they share.

ghost use Rattle.std.specs.Prelude.{◌≡◌, true, IfOk, OnOk, replicate};
ghost use Rattle.journal.specs.Lawful.{IsLawful};
ghost use Rattle.store_ledgers.specs.Counts.{count_at, none};
ghost use Rattle.store_locks.specs.Locked.{RunsOn, empty_shares};
ghost use Rattle.store_lifecycle.specs.Starts.{AreNamed, fresh_passes};

use journal::HistoryEntry;
use lsn_core::NoMemory;
use shared_store::{FaultShares, Pass, Shares};
use std::alloc::Global;
use std::sync::ledger::Book;
use store_ledgers::{AreaFaults, Blanks, EntryBooks, EntryShares, Made};
use store_locks::OfCrew;
use timeline::{Pen, Timeline};

/// The books of a store in which nothing is booked yet, and the shares of its partitions' entries.
#[derive(Drop)]
pub(crate) struct Books<J: OfCrew> {
    pub entries: EntryBooks<J>,
    pub shares: EntryShares<J>,
    pub made: Book<Made<J>>,
    pub data0: Book<AreaFaults<J, 0>>,
    pub data1: Book<AreaFaults<J, 1>>,
    pub data2: Book<AreaFaults<J, 2>>,
    pub data3: Book<AreaFaults<J, 3>>,
    pub wal: Book<AreaFaults<J, 4>>,
    pub sums: Book<AreaFaults<J, 5>>,
}

/// Opens the ledgers of a store.
pub(crate) fn open_ledgers<J: OfCrew>(blanks: Blanks) -> (Books<J>, Shares<J>)
    requires { AreNamed J.entries_named J.faults_named J.made_named J.passes blanks }
    ensures entries { result.0.entries ≡ none }
    ensures share0 { (count_at 0 result.0.shares.share0.parts ≡ 1)
        × (count_at 0 result.0.shares.share0.amounts ≡ 0) }
    ensures share1 { (count_at 1 result.0.shares.share1.parts ≡ 1)
        × (count_at 1 result.0.shares.share1.amounts ≡ 0) }
    ensures share2 { (count_at 2 result.0.shares.share2.parts ≡ 1)
        × (count_at 2 result.0.shares.share2.amounts ≡ 0) }
    ensures share3 { (count_at 3 result.0.shares.share3.parts ≡ 1)
        × (count_at 3 result.0.shares.share3.amounts ≡ 0) }
    ensures made { result.0.made.total ≡ 0 }
    ensures faults { (result.0.data0.total ≡ 0) × (result.0.data1.total ≡ 0)
        × (result.0.data2.total ≡ 0) × (result.0.data3.total ≡ 0)
        × (result.0.wal.total ≡ 0) × (result.0.sums.total ≡ 0) }
    ensures shares { result.1 ≡ empty_shares J.passes }
{
    let (entries, shares) = EntryBooks::open(
        blanks.entries0,
        blanks.entries1,
        blanks.entries2,
        blanks.entries3,
    );
    let (made, all_made) = blanks.made.open();
    let (data0, all_data0) = blanks.data0.open();
    let (data1, all_data1) = blanks.data1.open();
    let (data2, all_data2) = blanks.data2.open();
    let (data3, all_data3) = blanks.data3.open();
    let (wal, all_wal) = blanks.wal.open();
    let (sums, all_sums) = blanks.sums.open();
    let books = Books {
        entries,
        shares,
        made,
        data0,
        data1,
        data2,
        data3,
        wal,
        sums,
    };
    let others = FaultShares {
        data0: all_data0,
        data1: all_data1,
        data2: all_data2,
        data3: all_data3,
        sums: all_sums,
    };
    let pool = Shares {
        made: all_made,
        wal: all_wal,
        others,
    };
    (books, pool)
}

/// The passes of the workers, in order, and how many commands of each were accepted.
#[derive(Drop)]
pub(crate) struct Crew<J: OfCrew> {
    pub passes: Vec<Pass<J>>,
    pub counts: Vec<u64>,
}

/// So many workers, who have seen the whole history, and of whose commands none was accepted yet.
pub(crate) fn enlist<J: OfCrew>(
    alloc: Global,
    line: &Timeline<HistoryEntry, J>,
    pen: &mut Pen<HistoryEntry, J>,
    pool: &mut Shares<J>,
    workers: u32,
) -> Result<Crew<J>, NoMemory>
    requires crew { workers ≡ J.workers }
    requires pool { pool.old ≡ empty_shares workers }
    requires grown { RunsOn J.found pen.old }
    requires lawful { J.tells ≡ true → IsLawful J.settings.segment pen.old }
    ensures passes { IfOk result (λ crew. crew.passes.items ≡ fresh_passes workers pen.old) }
    ensures counts { IfOk result (λ crew. crew.counts.items ≡ replicate workers 0) }
    ensures same { pen.new ≡ pen.old }
    ensures dealt { OnOk result (pool.new ≡ empty_shares 0) }
{
    let mut passes = Vec::new(alloc);
    let mut counts = Vec::new(alloc);
    for worker in 0..workers {
        passes.push(pool.deal(worker, line.note(pen)))?;
        counts.push(0)?;
    }
    Ok(Crew { passes, counts })
}
