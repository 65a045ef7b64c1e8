//! The shares of an open store's ledgers that no worker has.

ghost use Rattle.std.specs.Prelude.{◌≡◌, ◌+◌, ◌-◌, ◌<◌, true};
ghost use Rattle.journal.specs.Lawful.{IsLawful};
ghost use Rattle.store_locks.specs.Seen.{both_booked, fresh_pass};
ghost use Rattle.store_locks.specs.Locked.{RunsOn, empty_shares};

use crate::pass::{FaultShares, Pass};
use journal::HistoryEntry;
use std::marker::Model;
use std::sync::ledger::Share;
use store_ledgers::{AreaFaults, Made};
use store_locks::{Knowing, OfCrew};
use timeline::Note;

/// Shares of the ledgers of several workers together: those that no worker has yet, or has no more.
/// Contracts see an `AllHeld` of `specs/Locked.antt` of `store_locks`.
#[derive(Drop)]
pub struct Shares<J: OfCrew> {
    /// Of the workers' entries.
    pub made: Share<Made<J>>,
    /// Of the faults of the WAL's area.
    pub wal: Share<AreaFaults<J, 4>>,
    /// Of the faults of the other areas.
    pub others: FaultShares<J>,
}

impl<J: OfCrew> Model for Shares<J> {
    ghost use Rattle.std.specs.Prelude.{◌≡◌};
    ghost use Rattle.store_locks.specs.Locked.{AllHeld};

    ghost Value = { AllHeld };

    ghost view = { λ s. record {
      parts = s.made.parts;
      made = s.made.amount;
      faults = record {
        wal = s.wal.amount;
        data0 = s.others.data0.amount;
        data1 = s.others.data1.amount;
        data2 = s.others.data2.amount;
        data3 = s.others.data3.amount;
        sums = s.others.sums.amount;
      };
    } };

    ghost invariant = { λ s. (s.wal.parts ≡ s.made.parts)
        × (s.others.data0.parts ≡ s.made.parts) × (s.others.data1.parts ≡ s.made.parts)
        × (s.others.data2.parts ≡ s.made.parts) × (s.others.data3.parts ≡ s.made.parts)
        × (s.others.sums.parts ≡ s.made.parts) };
}

impl<J: OfCrew> Shares<J> {
    /// The pass of a worker, who has seen what the note knows, with a part of each ledger.
    pub fn deal(&mut self, worker: u32, note: Note<HistoryEntry, J>) -> Pass<J>
        requires nothing { self.old ≡ empty_shares self.old.parts }
        requires some { 0 < self.old.parts }
        requires below { worker < J.workers }
        requires grown { RunsOn J.found note.list }
        requires lawful { J.tells ≡ true → IsLawful J.settings.segment note.list }
        ensures pass { result ≡ fresh_pass worker note.list }
        ensures left { self.new ≡ empty_shares (self.old.parts - 1) }
    {
        let made = self.made.split_off(1, 0);
        let wal = self.wal.split_off(1, 0);
        let shares = FaultShares {
            data0: self.others.data0.split_off(1, 0),
            data1: self.others.data1.split_off(1, 0),
            data2: self.others.data2.split_off(1, 0),
            data3: self.others.data3.split_off(1, 0),
            sums: self.others.sums.split_off(1, 0),
        };
        let own = Knowing::new(worker, note, made, wal);
        Pass { own, shares }
    }

    /// Takes in the shares of a worker.
    pub fn take_in(
        &mut self,
        made: Share<Made<J>>,
        wal: Share<AreaFaults<J, 4>>,
        others: FaultShares<J>,
    )
        requires made { made.parts ≡ 1 }
        requires wal { wal.parts ≡ 1 }
        requires others { (others.data0.parts ≡ 1) × (others.data1.parts ≡ 1)
            × (others.data2.parts ≡ 1) × (others.data3.parts ≡ 1) × (others.sums.parts ≡ 1) }
        ensures parts { self.new.parts ≡ self.old.parts + 1 }
        ensures made { self.new.made ≡ self.old.made + made.amount }
        ensures faults { self.new.faults ≡ both_booked self.old.faults (record {
          wal = wal.amount;
          data0 = others.data0.amount;
          data1 = others.data1.amount;
          data2 = others.data2.amount;
          data3 = others.data3.amount;
          sums = others.sums.amount;
        }) }
    {
        self.made.merge(made);
        self.wal.merge(wal);
        self.others.data0.merge(others.data0);
        self.others.data1.merge(others.data1);
        self.others.data2.merge(others.data2);
        self.others.data3.merge(others.data3);
        self.others.sums.merge(others.sums);
    }
}

/// What is left of the shares once each worker has its own: none of them has a part.
#[derive(Drop)]
pub struct Undealt<J: OfCrew> {
    /// These shares.
    pub shares: Shares<J>,
    ghost none: { shares ≡ empty_shares 0 },
}
