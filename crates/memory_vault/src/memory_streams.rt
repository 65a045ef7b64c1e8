//! A source, a sink and a clock in memory.

ghost use Rattle.std.specs.Prelude.{◌≡◌, ◌≢◌, ◌+◌, ◌-◌, ◌^◌, ◌<◌, ◌≤◌, ℕ, [], ◌++◌, min, length, take, drop, Some, Ok, Err, IfOk, OnErr};
ghost use Rattle.lsn_core.specs.Causes.{HasCause};
ghost use Rattle.lsn_core.specs.declared.fault.AreaFault.TheVariants as area;
ghost use Rattle.vault.specs.Stream.{IsTaken, CountsStuck};
ghost use Rattle.memory_vault.specs.MemoryStreams.{new_stream, moved, IsStep};

use crate::fails::FailList;
use lsn_core::{AreaFault, NoMemory};
use std::alloc::Global;
use std::marker::Model;
use vault::{Clock, Sink, Source};

/// Bytes in memory to read. It is given the numbers of the reads that are to fail, counted from 1.
#[derive(Debug, Drop)]
pub struct MemSource {
    bytes: Vec<u8>,
    at: usize,
    fails: FailList,
}

impl Model for MemSource {
    ghost use Rattle.std.specs.Prelude.{◌≤◌, drop, vec_len};
    ghost use Rattle.memory_vault.specs.MemoryStreams.{MemoryStream, memory_stream_code, stream_seen};

    ghost Value = { MemoryStream };

    ghost coded = { memory_stream_code };

    ghost view = { λ s. stream_seen (drop s.at s.bytes.items) s.fails };

    ghost invariant = { λ s. s.at ≤ vec_len s.bytes };
}

impl MemSource {
    /// A source of these bytes, and the numbers of the reads that are to fail.
    pub fn new(alloc: Global, bytes: &[u8], fails: &[u64]) -> Result<MemSource, NoMemory>
        ensures { IfOk result (λ source. source ≡ new_stream bytes.now fails.now) }
    {
        Ok(MemSource {
            bytes: bytes.to_vec(alloc)?,
            at: 0,
            fails: FailList::new(alloc, fails)?,
        })
    }

    /// Reads from the bytes that are left, as many as there is room for.
    fn take(&mut self, into: &mut [u8]) -> u32
        ensures count { result ≡ moved (length self.old.bytes) (length into.old) }
        ensures bytes { into.new ≡ take result self.old.bytes ++ drop result into.old }
        ensures left { self.new ≡ record self.old { bytes = drop result self.old.bytes } }
    {
        let count = copy_front(&self.bytes[self.at..], into);
        self.at += count as usize;
        count
    }
}

/// Copies from the front, as many bytes as there is room for, and says how many.
fn copy_front(from: &[u8], into: &mut [u8]) -> u32
    ensures count { result ≡ moved (length from.now) (length into.old) }
    ensures bytes { into.new ≡ take result from.now ++ drop result into.old }
{
    let count = from.len().min(into.len()).min(u32::MAX as usize);
    into[..count].copy_from_slice(&from[..count]);
    count as u32
}

impl Source for MemSource {
    ghost left = { λ s. Some s.bytes };

    ghost faults = { λ s. s.faults };

    fn read(&mut self, into: &mut [u8]) -> Result<u32, AreaFault>
        requires { 0 < length into.old }
        ensures call { IsStep self.old self.new result }
        ensures memory { result ≢ Err area.NoMemory }
        ensures count { IfOk result (λ n. n ≡ moved (length self.old.bytes) (length into.old)) }
        ensures taken { IfOk result (λ count. IsTaken self.old.bytes into.old into.new count) }
        ensures left { IfOk result (λ count. self.new.bytes ≡ drop count self.old.bytes) }
        ensures same { OnErr result (self.new.bytes ≡ self.old.bytes) }
        ensures cause { HasCause self.old.faults self.new.faults result }
    {
        if self.fails.next() {
            return Err(AreaFault::Failed);
        }
        Ok(self.take(into))
    }
}

/// Takes bytes in memory. It is given the numbers of the writes that are to fail, counted from 1.
#[derive(Debug, Drop)]
pub struct MemSink {
    bytes: Vec<u8>,
    fails: FailList,
}

impl Model for MemSink {
    ghost use Rattle.memory_vault.specs.MemoryStreams.{MemoryStream, memory_stream_code, stream_seen};

    ghost Value = { MemoryStream };

    ghost coded = { memory_stream_code };

    ghost view = { λ s. stream_seen s.bytes.items s.fails };
}

impl MemSink {
    /// A sink that took nothing yet, and the numbers of the writes that are to fail.
    pub fn new(alloc: Global, fails: &[u64]) -> Result<MemSink, NoMemory>
        ensures { IfOk result (λ sink. sink ≡ new_stream [] fails.now) }
    {
        Ok(MemSink {
            bytes: Vec::new(alloc),
            fails: FailList::new(alloc, fails)?,
        })
    }

    /// All bytes that it took.
    pub fn bytes(&self) -> &[u8]
        ensures { result.now ≡ self.now.bytes }
    {
        &self.bytes
    }
}

impl Sink for MemSink {
    ghost bytes = { λ s. Some s.bytes };

    ghost faults = { λ s. s.faults };

    fn write(&mut self, piece: &[u8]) -> Result<u32, AreaFault>
        ensures call { IsStep self.old self.new result }
        ensures count { IfOk result (λ count. count ≡ min (length piece.now) (2 ^ 32 - 1)) }
        ensures gained { IfOk result (λ n. self.new.bytes ≡ self.old.bytes ++ take n piece.now) }
        ensures stuck { CountsStuck piece.now self.old.faults self.new.faults result }
        ensures same { OnErr result (self.new.bytes ≡ self.old.bytes) }
        ensures cause { HasCause self.old.faults self.new.faults result }
    {
        if self.fails.next() {
            return Err(AreaFault::Failed);
        }
        let count = piece.len().min(u32::MAX as usize);
        self.bytes.extend_from_slice(&piece[..count])?;
        Ok(count as u32)
    }
}

/// A clock that stands still.
#[derive(Clone, Copy, Debug)]
pub struct SetClock {
    moment: u64,
}

impl Model for SetClock {
    ghost use Rattle.std.specs.Prelude.{◌≤◌, ℕ};

    ghost Value = { ℕ };

    ghost view = { λ c. c.moment };

    ghost invariant = { λ c. c.moment ≤ 253402207199 };

    ghost inverse = { λ moment. record { moment = moment } };
}

impl SetClock {
    /// A clock that stands at this moment, in seconds since 1970 UTC.
    pub fn new(now: u64) -> SetClock
        requires { now ≤ 253402207199 }
        ensures { result ≡ now }
    {
        SetClock { moment: now }
    }
}

impl Clock for SetClock {
    ghost moment = { λ c. Some c };

    fn now(&mut self) -> u64
        ensures bound { result ≤ 253402207199 }
        ensures moment { result ≡ self.old }
        ensures same { self.new ≡ self.old }
    {
        self.moment
    }
}
