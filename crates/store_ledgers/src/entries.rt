//! How many entries of a run concern each partition.

ghost use Rattle.std.specs.Prelude.{◌≡◌, ◌<◌};
ghost use Rattle.store_ledgers.specs.Counts.{count_at, counted, one_at, none};

use crate::naming::{Entries, OfLedgers};
use std::marker::Model;
use std::sync::ledger::{Blank, Book, Share};

/// The books of the four partitions. Contracts see their totals.
#[derive(Drop)]
pub struct EntryBooks<J: OfLedgers> {
    part0: Book<Entries<J, 0>>,
    part1: Book<Entries<J, 1>>,
    part2: Book<Entries<J, 2>>,
    part3: Book<Entries<J, 3>>,
}

impl<J: OfLedgers> Model for EntryBooks<J> {
    ghost use Rattle.store_ledgers.specs.Counts.{Counts};

    ghost Value = { Counts };

    ghost view = { λ b. record {
      part0 = b.part0.total;
      part1 = b.part1.total;
      part2 = b.part2.total;
      part3 = b.part3.total;
    } };
}

/// Shares of these: all parts of one partition's ledger, or none. Contracts see a `Held`.
#[derive(Drop)]
pub struct EntryShare<J: OfLedgers> {
    part0: Share<Entries<J, 0>>,
    part1: Share<Entries<J, 1>>,
    part2: Share<Entries<J, 2>>,
    part3: Share<Entries<J, 3>>,
}

impl<J: OfLedgers> Model for EntryShare<J> {
    ghost use Rattle.store_ledgers.specs.Counts.{Held};

    ghost Value = { Held };

    ghost view = { λ s. record {
      parts = record {
        part0 = s.part0.parts;
        part1 = s.part1.parts;
        part2 = s.part2.parts;
        part3 = s.part3.parts;
      };
      amounts = record {
        part0 = s.part0.amount;
        part1 = s.part1.amount;
        part2 = s.part2.amount;
        part3 = s.part3.amount;
      };
    } };
}

/// The shares of the four partitions, one each.
#[derive(Drop)]
pub struct EntryShares<J: OfLedgers> {
    pub share0: EntryShare<J>,
    pub share1: EntryShare<J>,
    pub share2: EntryShare<J>,
    pub share3: EntryShare<J>,
}

impl<J: OfLedgers> EntryBooks<J> {
    /// The books of these ledgers, in which nothing is counted yet, and the partitions' shares.
    pub fn open(
        entries0: Blank,
        entries1: Blank,
        entries2: Blank,
        entries3: Blank,
    ) -> (EntryBooks<J>, EntryShares<J>)
        requires first { (entries0.name ≡ J.entries_named 0) × (entries0.parts ≡ 1) }
        requires second { (entries1.name ≡ J.entries_named 1) × (entries1.parts ≡ 1) }
        requires third { (entries2.name ≡ J.entries_named 2) × (entries2.parts ≡ 1) }
        requires fourth { (entries3.name ≡ J.entries_named 3) × (entries3.parts ≡ 1) }
        ensures books { result.0 ≡ none }
        ensures share0 { (count_at 0 result.1.share0.parts ≡ 1)
            × (count_at 0 result.1.share0.amounts ≡ 0) }
        ensures share1 { (count_at 1 result.1.share1.parts ≡ 1)
            × (count_at 1 result.1.share1.amounts ≡ 0) }
        ensures share2 { (count_at 2 result.1.share2.parts ≡ 1)
            × (count_at 2 result.1.share2.amounts ≡ 0) }
        ensures share3 { (count_at 3 result.1.share3.parts ≡ 1)
            × (count_at 3 result.1.share3.amounts ≡ 0) }
    {
        let (part0, mut own0) = entries0.open::<Entries<J, 0>>();
        let (part1, mut own1) = entries1.open::<Entries<J, 1>>();
        let (part2, mut own2) = entries2.open::<Entries<J, 2>>();
        let (part3, mut own3) = entries3.open::<Entries<J, 3>>();
        let share0 = EntryShare {
            part0: own0.split_off(1, 0),
            part1: own1.empty(),
            part2: own2.empty(),
            part3: own3.empty(),
        };
        let share1 = EntryShare {
            part0: own0.empty(),
            part1: own1.split_off(1, 0),
            part2: own2.empty(),
            part3: own3.empty(),
        };
        let share2 = EntryShare {
            part0: own0.empty(),
            part1: own1.empty(),
            part2: own2.split_off(1, 0),
            part3: own3.empty(),
        };
        let share3 = EntryShare {
            part0: own0.empty(),
            part1: own1.empty(),
            part2: own2.empty(),
            part3: own3.split_off(1, 0),
        };
        let books = EntryBooks {
            part0,
            part1,
            part2,
            part3,
        };
        let shares = EntryShares {
            share0,
            share1,
            share2,
            share3,
        };
        (books, shares)
    }

    /// The holder of a partition's share knows how many entries concern the partition.
    pub fn audit(&mut self, q: u32, share: &mut EntryShare<J>)
        requires number { q < 4 }
        requires whole { count_at q share.old.parts ≡ 1 }
        ensures is { count_at q share.old.amounts ≡ count_at q self.old }
        ensures books { self.new ≡ self.old }
        ensures share { share.new ≡ share.old }
    {
        match q {
            0 => self.part0.audit(&mut share.part0),
            1 => self.part1.audit(&mut share.part1),
            2 => self.part2.audit(&mut share.part2),
            _ => self.part3.audit(&mut share.part3),
        }
    }

    /// One more entry concerns a partition.
    pub fn add(&mut self, q: u32, share: &mut EntryShare<J>)
        requires number { q < 4 }
        requires whole { count_at q share.old.parts ≡ 1 }
        ensures books { self.new ≡ counted q self.old }
        ensures amounts { share.new.amounts ≡ counted q share.old.amounts }
        ensures parts { share.new.parts ≡ share.old.parts }
    {
        match q {
            0 => self.part0.add(&mut share.part0, 1),
            1 => self.part1.add(&mut share.part1, 1),
            2 => self.part2.add(&mut share.part2, 1),
            _ => self.part3.add(&mut share.part3, 1),
        }
    }
}
