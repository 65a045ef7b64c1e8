//! How far the WAL is flushed before room is made in a partition for a command.

ghost use Rattle.std.specs.Prelude.{◌≡◌, ◌+◌, ◌≤◌, true, OnOk, IfErr, IfSome};
ghost use Rattle.lsn_core.specs.declared.fault.StoreArea.TheVariants.{Wal};
ghost use Rattle.command_judging.specs.Refusals.{HasItems};
ghost use Rattle.page_pool.specs.Room.{blocks_of, room_end};
ghost use Rattle.page_pool.specs.Facts.{IsPartOf};
ghost use Rattle.store_locks.specs.Calls.{most_waiting};
ghost use Rattle.store_locks.specs.Inside.{AreaCause, KeepsWal, written_end};

use history::Op;
use journal::{Journal, OfStore};
use lsn_core::StoreFault;
use page_pool::Partition;
use std::alloc::Global;
use store_locks::{flush_past, flush_whole};
use vault::Vault;
use wal_writer::Flushed;

/// The most bytes of the WAL that wait to be flushed before a command (profile).
const MOST_WAITING: u64 = 4_194_304;

/// Flushes the WAL up to its end where more of it waits than may before a command, since what waits
/// is held in memory, or where something newer has to be written to make room for the command.
pub fn flush_before<J: OfStore, V: Vault, W: Vault, const Q: u32>(
    alloc: Global,
    journal: &mut Journal<J, V>,
    part: &Partition<W, Q>,
    mark: &mut Flushed,
    op: &Op,
) -> Result<(), StoreFault>
    requires items { HasItems op.now }
    requires part { IsPartOf Q part.now.relseg (J.tells ≡ true) journal.old.pen part.now }
    requires marked { mark.old.to.0 ≤ journal.old.wal.tail.flushed }
    ensures wal { KeepsWal V.Vault journal.old journal.new }
    ensures marked { mark.new.to.0 ≤ journal.new.wal.tail.flushed }
    ensures few { OnOk result (written_end journal.old ≤ mark.new.to.0 + most_waiting) }
    ensures reached { OnOk result
        (IfSome (room_end part.now.framed part.now.works (blocks_of op.now))
        (λ end. end ≤ mark.new.to.0)) }
    ensures cause { IfErr result (AreaCause Wal (V.faults journal.old.wal.area)
        (V.faults journal.new.wal.area)) }
{
    let tip = journal.tip();
    let newest = part.room_lsn(op);
    if tip.end.0 - mark.to().0 > MOST_WAITING {
        return flush_whole(alloc, journal, mark);
    }
    match newest {
        Some(to) => flush_past(alloc, journal, mark, to),
        None => Ok(()),
    }
}
