//! The end of the WAL in memory, and the bytes before it that aren't flushed yet.

ghost use Rattle.std.specs.Prelude.{◌≡◌, ◌-◌, ◌<◌, ◌≤◌, length, drop};
ghost use Rattle.wal_record.specs.Spelling.{IsWritable};
ghost use Rattle.wal_record.specs.Tips.{IsWithin};
ghost use Rattle.wal_writer.specs.Log.{Log, IsLog, IsReady, log_at, flush_end, to_flush, flushed_to, touched_to};
ghost use Rattle.wal_writer.specs.Answers.{PrepareAnswer, AddAnswer, AppendAnswer};

use crate::fault::AppendFault;
use crate::prepared::{Prepared, prepare};
use lsn_core::{NoMemory, SegSize, Settings, WalTip};
use std::alloc::Global;
use std::marker::Model;
use wal_pages::Layout;
use wal_record::{Kind, Record, tip_after};

/// The end of the WAL. Contracts see a `Log`.
#[derive(Drop)]
pub struct Tail {
    layout: Layout,
    flushed: u64,
    touched: u64,
    tip: WalTip,
    pending: Vec<u8>,
}

impl Model for Tail {
    ghost use Rattle.wal_writer.specs.Log.{Log, IsLog, log_of};

    ghost Value = { Log };

    ghost view = { λ t. log_of t.layout t.flushed t.touched t.tip t.pending.items };

    ghost invariant = { λ t. IsLog (log_of t.layout t.flushed t.touched t.tip t.pending.items) };
}

impl Tail {
    /// The end of an archive, with all of it flushed.
    pub fn new(alloc: Global, settings: Settings, tip: WalTip) -> Tail
        requires { IsWithin settings.segment tip }
        ensures { result ≡ log_at settings tip }
    {
        let end = tip.end.0;
        Tail {
            layout: Layout::new(&settings),
            flushed: end,
            touched: end,
            tip,
            pending: Vec::new(alloc),
        }
    }

    /// The size of a segment.
    pub fn segment(&self) -> SegSize
        ensures { result ≡ self.now.mib }
    {
        self.layout.settings().segment()
    }

    /// Where all before it is flushed.
    pub fn flushed(&self) -> u64
        ensures flushed { result ≡ self.now.flushed }
        ensures known { IsLog self.now }
    {
        self.flushed
    }

    /// The end of the WAL.
    pub fn tip(&self) -> WalTip
        ensures tip { result ≡ self.now.tip }
        ensures known { IsLog self.now }
    {
        self.tip
    }

    /// The entry of a kind that comes next.
    pub fn prepare(&self, alloc: Global, kind: Kind) -> Result<Prepared, AppendFault>
        requires { IsWritable kind }
        ensures { PrepareAnswer kind self.now result }
    {
        prepare(alloc, self.layout, self.tip, kind)
    }

    /// Adds the entry that comes next. Want of memory changes nothing.
    pub fn add(&mut self, entry: Prepared) -> Result<Record, NoMemory>
        requires { IsReady self.old entry }
        ensures { AddAnswer entry self.old self.new result }
    {
        self.pending.extend_from_slice(entry.bytes())?;
        self.tip = tip_after(self.tip, entry.record());
        Ok(entry.into_record())
    }

    /// Appends an entry. A refusal changes nothing.
    pub fn append(&mut self, alloc: Global, kind: Kind) -> Result<Record, AppendFault>
        requires { IsWritable kind }
        ensures { AppendAnswer kind self.old self.new result }
    {
        let entry = self.prepare(alloc, kind)?;
        Ok(self.add(entry)?)
    }

    /// How far a flush up to a place goes.
    pub fn flush_end(&self, to: u64) -> u64
        requires { to ≤ self.now.tip.end }
        ensures end { result ≡ flush_end self.now to }
        ensures least { to ≤ result }
        ensures most { result ≤ self.now.tip.end }
    {
        to.max(self.touched)
    }

    /// The bytes up to a place that aren't flushed yet.
    pub fn until(&self, at: u64) -> &[u8]
        requires from { self.now.flushed ≤ at }
        requires to { at ≤ self.now.tip.end }
        ensures bytes { result.now ≡ to_flush self.now at }
        ensures size { length result.now ≡ at - self.now.flushed }
    {
        &self.pending[..(at - self.flushed) as usize]
    }

    /// Everything up to a place is flushed now.
    pub fn advance(&mut self, at: u64)
        requires from { self.old.flushed ≤ at }
        requires to { at ≤ self.old.tip.end }
        ensures { self.new ≡ flushed_to self.old at }
    {
        drop_front(&mut self.pending, (at - self.flushed) as usize);
        self.flushed = at;
    }

    /// A flush up to a place failed.
    pub fn touch(&mut self, at: u64)
        requires { at ≤ self.old.tip.end }
        ensures { self.new ≡ touched_to self.old at }
    {
        self.touched = self.touched.max(at);
    }
}

/// Drops so many bytes from the front.
fn drop_front(bytes: &mut Vec<u8>, count: usize)
    requires { count ≤ length bytes.old.items }
    ensures { bytes.new.items ≡ drop count bytes.old.items }
{
    if count == bytes.len() {
        bytes.clear();
    } else {
        bytes.drain(..count);
    }
}
