//! The WAL of an area, with the entries that aren't flushed yet.

ghost use Rattle.std.specs.Prelude.{◌≡◌, ◌<◌, ◌≤◌, IsOk, IfOk, OnOk, OnErr};
ghost use Rattle.lsn_core.specs.Causes.{HasCause};
ghost use Rattle.wal_record.specs.Spelling.{IsWritable};
ghost use Rattle.wal_record.specs.Tips.{IsWithin};
ghost use Rattle.wal_writer.specs.Log.{IsLog, IsReady, log_at, flush_end, touched_to};
ghost use Rattle.wal_writer.specs.Answers.{PrepareAnswer, AddAnswer, AppendAnswer};
ghost use Rattle.wal_writer.specs.Answers.{FlushesAt, Flushes, TearsAt, Tears, Keeps};
ghost use Rattle.wal_writer.specs.Answers.{FlushWritesAt, FlushWrites};

use crate::fault::AppendFault;
use crate::pieces::write_synced;
use crate::prepared::Prepared;
use crate::tail::Tail;
use lsn_core::{AreaFault, Lsn, NoMemory, Settings, WalTip};
use std::alloc::Global;
use vault::Vault;
use wal_record::{Kind, Record};

/// The WAL of an area: entries are appended in memory, and flushed into its segment files.
#[derive(Drop)]
pub struct WalState<V: Vault> {
    /// Its area, from which what is flushed can be read.
    pub area: V,
    tail: Tail,
}

/// A place before which the WAL is flushed. Only a flush makes one.
#[derive(Clone, Copy, Debug)]
pub struct Flushed {
    to: Lsn,
}

impl Flushed {
    /// The place.
    pub fn to(&self) -> Lsn
        ensures { result ≡ self.now.to }
    {
        self.to
    }
}

impl<V: Vault> WalState<V> {
    /// The WAL of an area with these settings whose archive ends with this tip, within the WAL's
    /// room. Nothing waits to be flushed.
    pub fn attach(alloc: Global, area: V, settings: Settings, tip: WalTip) -> WalState<V>
        requires { IsWithin settings.segment tip }
        ensures area { result.area ≡ area }
        ensures log { result.tail ≡ log_at settings tip }
    {
        WalState {
            area,
            tail: Tail::new(alloc, settings, tip),
        }
    }

    /// The area again. What isn't flushed is lost.
    pub fn detach(self) -> V
        ensures { result ≡ self.area }
    {
        self.area
    }

    /// The entry of a kind that comes next, with its bytes, which is to be added yet. `WalFull`
    /// exactly where it would end behind the last segment.
    pub fn prepare(&self, alloc: Global, kind: Kind) -> Result<Prepared, AppendFault>
        requires { IsWritable kind }
        ensures { PrepareAnswer kind self.now.tail result }
    {
        self.tail.prepare(alloc, kind)
    }

    /// Adds the entry that comes next in memory, as `prepare` gave it for the WAL as it stands.
    /// Want of memory changes nothing.
    pub fn add(&mut self, entry: Prepared) -> Result<Record, NoMemory>
        requires { IsReady self.old.tail entry }
        ensures answer { AddAnswer entry self.old.tail self.new.tail result }
        ensures area { self.new.area ≡ self.old.area }
    {
        self.tail.add(entry)
    }

    /// Appends an entry in memory: prepares and adds it. A refusal changes nothing.
    pub fn append(&mut self, alloc: Global, kind: Kind) -> Result<Record, AppendFault>
        requires { IsWritable kind }
        ensures answer { AppendAnswer kind self.old.tail self.new.tail result }
        ensures area { self.new.area ≡ self.old.area }
    {
        self.tail.append(alloc, kind)
    }

    /// Writes what stands before a place and isn't flushed yet, in pieces of at most 1 MiB, and
    /// syncs the area. Up to the flushed position nothing is to be done. After a fault the flushed
    /// position stands, and the next flush writes the same bytes again, at least up to where this
    /// one may have written, but nothing behind the WAL's end. Whatever it answers, and wherever it
    /// is stopped, the archive before the flushed position stays.
    pub fn flush_to(&mut self, alloc: Global, to: Lsn) -> Result<Flushed, AreaFault>
        requires { to.0 ≤ self.old.tail.tip.end }
        ensures idle { to.0 ≤ self.old.tail.flushed → self.new ≡ self.old }
        ensures succeeds { to.0 ≤ self.old.tail.flushed → IsOk result }
        ensures flushed { OnOk result (Flushes V.Vault to.0 self.old self.new) }
        ensures mark { IfOk result (λ mark. mark.to.0 ≡ self.new.tail.flushed) }
        ensures reached { IfOk result (λ mark. to.0 ≤ mark.to.0) }
        ensures stands { OnErr result
            (self.new.tail ≡ touched_to self.old.tail (flush_end self.old.tail to.0)) }
        ensures left { Tears V.Vault to.0 self.old self.new }
        ensures moments { Keeps V.Vault self.old self.new }
        ensures frame { FlushWrites V.Vault to.0 self.old self.new }
        ensures cause { HasCause (V.faults self.old.area) (V.faults self.new.area) result }
    {
        if self.tail.flushed() < to.0 {
            let at = self.tail.flush_end(to.0);
            self.flush_until(alloc, at)?;
        }
        Ok(Flushed {
            to: Lsn(self.tail.flushed()),
        })
    }

    /// Where all before it is flushed.
    pub fn flushed(&self) -> Lsn
        ensures flushed { result.0 ≡ self.now.tail.flushed }
        ensures known { IsLog self.now.tail }
    {
        Lsn(self.tail.flushed())
    }

    /// Where the last entry ends; before the first one, where segment 1 begins.
    pub fn end(&self) -> Lsn
        ensures end { result.0 ≡ self.now.tail.tip.end }
        ensures known { IsLog self.now.tail }
    {
        self.tail.tip().end
    }

    /// The end of the WAL, behind all that was appended.
    pub fn tip(&self) -> WalTip
        ensures tip { result ≡ self.now.tail.tip }
        ensures known { IsLog self.now.tail }
    {
        self.tail.tip()
    }

    /// Writes what stands before a place behind the flushed position, and syncs the area.
    fn flush_until(&mut self, alloc: Global, at: u64) -> Result<(), AreaFault>
        requires from { self.old.tail.flushed ≤ at }
        requires to { at ≤ self.old.tail.tip.end }
        ensures flushed { OnOk result (FlushesAt V.Vault at self.old self.new) }
        ensures stands { OnErr result (self.new.tail ≡ touched_to self.old.tail at) }
        ensures left { TearsAt V.Vault at self.old self.new }
        ensures frame { FlushWritesAt V.Vault at self.old self.new }
        ensures cause { HasCause (V.faults self.old.area) (V.faults self.new.area) result }
    {
        let size = self.tail.segment();
        let from = self.tail.flushed();
        let written = write_synced(alloc, &mut self.area, size, from, self.tail.until(at));
        match written {
            Ok(()) => self.tail.advance(at),
            Err(_) => self.tail.touch(at),
        }
        written
    }
}
