//! The value under the lock of a partition.

ghost use Rattle.std.specs.Prelude.{◌≡◌, ◌+◌, ◌≤◌, max, true, Some, None, IfOk, OnOk, if◌then◌else◌};
ghost use Rattle.history.specs.partitions.Parts.{is_of};
ghost use Rattle.history.specs.fuzzy_copies.Taken.{IsBlockCopied};
ghost use Rattle.page_pool.specs.Facts.{history_end};
ghost use Rattle.page_pool.specs.Calls.{MayWriteNext, MayWriteAll};
ghost use Rattle.command_judging.specs.Refusals.{HasItems};
ghost use Rattle.page_pool.specs.Room.{blocks_of, HasFrames};
ghost use Rattle.page_pool.specs.Stops.{MayMakeRoom};
ghost use Rattle.store_locks.specs.Copied.{HasRedoPoint, ListsPart};
ghost use Rattle.store_locks.specs.Inside.{IsCleaned, fault_of};
ghost use Rattle.store_locks.specs.Locked.{failures, BooksData};

use crate::naming::OfCrew;
use history::Op;
use journal::HistoryEntry;
use lsn_core::{AreaFault, BlockId, ForkLen, Lsn, StoreArea, StoreFault};
use page_pool::{Cleaned, Partition, Turn};
use pg_page::zero_page;
use std::alloc::Global;
use std::marker::Model;
use std::sync::ledger::{Book, Ledger, Share};
use store_ledgers::{AreaFaults, EntryShare};
use timeline::Note;
use vault::Vault;
use wal_writer::Flushed;

/// A partition with a note of the beginning of the history that it follows, all shares of its
/// entries there, and the book of its area's faults. Contracts see a `Shown` of
/// `specs/Locked.antt`.
#[derive(Drop)]
pub struct HeldPart<J: OfCrew, W: Vault, const Q: u32> {
    /// The partition.
    pub part: Partition<W, Q>,
    /// The beginning of the history that it follows.
    pub note: Note<HistoryEntry, J>,
    /// All shares of its entries.
    pub share: EntryShare<J>,
    /// The book of the faults of its area.
    pub faults: Book<AreaFaults<J, Q>>,
}

impl<J: OfCrew, W: Vault, const Q: u32> Model for HeldPart<J, W, Q> {
    ghost use Rattle.std.specs.Prelude.{◌≡◌, true};
    ghost use Rattle.store_locks.specs.Locked.{IsHeldPart, Shown};
    ghost use Rattle.store_locks.specs.ShownCode.{shown_code};

    ghost Value = { Shown };

    ghost coded = { shown_code };

    ghost view = { λ p. record {
      list = p.note.list;
      part = p.part;
    } };

    ghost invariant = { λ p. IsHeldPart Q J.settings (J.tells ≡ true) J.found (J.starts Q) p.part
        p.note.list p.share p.faults.total };
}

impl<J: OfCrew, W: Vault, const Q: u32> HeldPart<J, W, Q> {
    /// Its point.
    pub fn redo_point(&self) -> Lsn
        ensures { result.0 ≡ self.now.part.point }
    {
        self.part.redo_point()
    }

    /// Writes what comes next, before which the WAL is flushed.
    pub fn write_one(
        &mut self,
        mark: &Flushed,
        share: &mut Share<AreaFaults<J, Q>>,
    ) -> Result<Turn, StoreFault>
        requires next { MayWriteNext self.old.part mark.now.to.0 }
        requires share { share.old.parts ≡ 1 }
        ensures turn { IfOk result (λ turn. turn.part ≡ Q) }
        ensures list { self.new.list ≡ self.old.list }
        ensures parts { share.new.parts ≡ 1 }
        ensures booked { BooksData Q share.old.amount share.new.amount result }
    {
        match self.part.write_one(mark) {
            Ok(turn) => Ok(turn),
            Err(fault) => Err(booked(&mut self.faults, share, StoreArea::Data(Q), fault)),
        }
    }

    /// Makes room for a command, before which the WAL is flushed past what is written for that.
    pub fn make_room(
        &mut self,
        alloc: Global,
        op: &Op,
        mark: &Flushed,
        share: &mut Share<AreaFaults<J, Q>>,
    ) -> Result<(), StoreFault>
        requires items { HasItems op.now }
        requires flushed { MayMakeRoom self.old.part (blocks_of op.now) mark.now.to.0 }
        requires share { share.old.parts ≡ 1 }
        ensures room { OnOk result (HasFrames self.new.part.framed (blocks_of op.now)) }
        ensures list { self.new.list ≡ self.old.list }
        ensures parts { share.new.parts ≡ 1 }
        ensures booked { BooksData Q share.old.amount share.new.amount result }
    {
        match self.part.make_room(alloc, op, mark) {
            Ok(()) => Ok(()),
            Err(fault) => Err(booked(&mut self.faults, share, StoreArea::Data(Q), fault)),
        }
    }

    /// Writes all that is to be written, before which the WAL is flushed, syncs the area, and
    /// raises the point to the redo point, past which the WAL is flushed too: no point is raised
    /// past what is flushed.
    pub fn clean_all(
        &mut self,
        redo: Lsn,
        mark: &Flushed,
        share: &mut Share<AreaFaults<J, Q>>,
    ) -> Result<Cleaned, StoreFault>
        requires all { MayWriteAll self.old.part mark.now.to.0 }
        requires flushed { redo.0 ≤ mark.now.to.0 }
        requires late { redo.0 ≤ history_end self.old.list }
        requires share { share.old.parts ≡ 1 }
        ensures cleaned { IfOk result (IsCleaned Q redo) }
        ensures raised { OnOk result (redo.0 ≤ self.new.part.point) }
        ensures point { self.new.part.point ≤ max self.old.part.point mark.now.to.0 }
        ensures list { self.new.list ≡ self.old.list }
        ensures parts { share.new.parts ≡ 1 }
        ensures booked { BooksData Q share.old.amount share.new.amount result }
    {
        match self.part.clean_all(redo, mark) {
            Ok(cleaned) => Ok(cleaned),
            Err(fault) => Err(booked(&mut self.faults, share, StoreArea::Data(Q), fault)),
        }
    }

    /// The forks of the area, whose point is at a redo point or past it.
    pub fn list_forks(
        &mut self,
        from: Lsn,
        share: &mut Share<AreaFaults<J, Q>>,
    ) -> Result<Vec<ForkLen>, StoreFault>
        requires redo { HasRedoPoint self.old.list from.0 }
        requires raised { J.tells ≡ true → from.0 ≤ self.old.part.point }
        requires share { share.old.parts ≡ 1 }
        ensures listed { J.tells ≡ true
            → IfOk result (λ list. ListsPart Q self.old.list from.0 list.items) }
        ensures list { self.new.list ≡ self.old.list }
        ensures parts { share.new.parts ≡ 1 }
        ensures booked { BooksData Q share.old.amount share.new.amount result }
    {
        match self.part.list_forks() {
            Ok(list) => Ok(list),
            Err(fault) => Err(booked(&mut self.faults, share, StoreArea::Data(Q), fault)),
        }
    }

    /// Reads a block of the area, whose point is at a redo point or past it.
    pub fn read_disk(
        &mut self,
        from: Lsn,
        at: &BlockId,
        share: &mut Share<AreaFaults<J, Q>>,
    ) -> Result<Option<[u8; 8192]>, StoreFault>
        requires redo { HasRedoPoint self.old.list from.0 }
        requires raised { J.tells ≡ true → from.0 ≤ self.old.part.point }
        requires ours { is_of Q at.now.fork ≡ true }
        requires share { share.old.parts ≡ 1 }
        ensures copied { J.tells ≡ true
            → IfOk result (IsBlockCopied self.old.list from.0 at.now.fork at.now.block) }
        ensures list { self.new.list ≡ self.old.list }
        ensures parts { share.new.parts ≡ 1 }
        ensures booked { BooksData Q share.old.amount share.new.amount result }
    {
        let mut page = zero_page();
        match self.part.read_disk(*at, &mut page) {
            Ok(there) => Ok(page_if(there, page)),
            Err(fault) => Err(booked(&mut self.faults, share, StoreArea::Data(Q), fault)),
        }
    }
}

/// The fault of an area, which is booked where the area failed.
fn booked<L: Ledger>(
    book: &mut Book<L>,
    share: &mut Share<L>,
    area: StoreArea,
    fault: AreaFault,
) -> StoreFault
    requires { share.old.parts ≡ 1 }
    ensures fault { result ≡ fault_of area fault }
    ensures total { book.new.total ≡ book.old.total + failures result }
    ensures amount { share.new.amount ≡ share.old.amount + failures result }
    ensures parts { share.new.parts ≡ 1 }
{
    match fault {
        AreaFault::Failed => {
            book.add(share, 1);
            StoreFault::Failed(area)
        }
        AreaFault::NoMemory => StoreFault::NoMemory,
    }
}

/// The page that was read, where it is there.
fn page_if(there: bool, page: [u8; 8192]) -> Option<[u8; 8192]>
    ensures { result ≡ if there then Some page else None }
{
    if there { Some(page) } else { None }
}
