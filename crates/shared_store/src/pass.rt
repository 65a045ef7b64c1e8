//! What a worker owns of an open store.

ghost use Rattle.std.specs.Prelude.{◌≡◌, ◌<◌, ◌≤◌, true, length};
ghost use Rattle.journal.specs.Lawful.{IsLawful};
ghost use Rattle.store_locks.specs.Seen.{accepted_by, marks_by};
ghost use Rattle.store_locks.specs.Locked.{RunsOn};

use std::marker::Model;
use std::sync::ledger::Share;
use store_ledgers::AreaFaults;
use store_locks::{Knowing, OfCrew};

/// A worker's shares of the faults of the areas that have a lock of their own.
#[derive(Drop)]
pub struct FaultShares<J: OfCrew> {
    /// Its share of the faults of the first data area.
    pub data0: Share<AreaFaults<J, 0>>,
    /// Of the second.
    pub data1: Share<AreaFaults<J, 1>>,
    /// Of the third.
    pub data2: Share<AreaFaults<J, 2>>,
    /// Of the fourth.
    pub data3: Share<AreaFaults<J, 3>>,
    /// Of the area of the summaries.
    pub sums: Share<AreaFaults<J, 5>>,
}

/// What a worker owns of an open store: its number, how many of its commands were accepted, what it
/// has seen of the history, and how many faults of each area it was answered. `know` tells what
/// holds of it at any time. Contracts see a `Seen` of `specs/Seen.antt` of `store_locks`.
#[derive(Drop)]
pub struct Pass<J: OfCrew> {
    /// What it knows and has counted under the WAL's lock.
    pub own: Knowing<J>,
    /// Its shares of the faults of the other areas.
    pub shares: FaultShares<J>,
}

impl<J: OfCrew> Model for Pass<J> {
    ghost use Rattle.std.specs.Prelude.{◌≡◌};
    ghost use Rattle.store_locks.specs.Seen.{Seen};

    ghost Value = { Seen };

    ghost view = { λ p. record {
      worker = p.own.worker;
      accepted = p.own.accepted;
      marks = p.own.marks;
      list = p.own.list;
      faults = record {
        wal = p.own.wal;
        data0 = p.shares.data0.amount;
        data1 = p.shares.data1.amount;
        data2 = p.shares.data2.amount;
        data3 = p.shares.data3.amount;
        sums = p.shares.sums.amount;
      };
    } };

    ghost invariant = { λ p. (p.shares.data0.parts ≡ 1) × (p.shares.data1.parts ≡ 1)
        × (p.shares.data2.parts ≡ 1) × (p.shares.data3.parts ≡ 1) × (p.shares.sums.parts ≡ 1) };
}

impl<J: OfCrew> Pass<J> {
    /// The worker's number, below the number of workers.
    pub fn worker(&self) -> u32
        ensures number { result ≡ self.now.worker }
        ensures below { result < J.workers }
    {
        self.own.worker()
    }

    /// How many of its commands were accepted.
    pub fn accepted(&self) -> u64
        ensures { result ≡ self.now.accepted }
    {
        self.own.accepted()
    }

    /// What is known of it at any time: what it has seen begins with what was found, goes on by
    /// entries of this run, has its accepted commands and its marks, and is lawful where areas tell
    /// their files.
    pub fn know(&self)
        ensures worker { self.now.worker < J.workers }
        ensures accepted { self.now.accepted ≤ length (accepted_by self.now.worker self.now.list) }
        ensures marks { self.now.marks ≤ length (marks_by self.now.worker self.now.list) }
        ensures grown { RunsOn J.found self.now.list }
        ensures lawful { J.tells ≡ true → IsLawful J.settings.segment self.now.list }
    {
        self.own.know();
    }
}
