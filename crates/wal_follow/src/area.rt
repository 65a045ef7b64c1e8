//! The end of a stream, as an area that a reader of archives reads.

ghost use Rattle.std.specs.Prelude.{◌≡◌, ◌≤◌, ◌+◌, ◌-◌, ◌^◌, ℕ, length, map, take, drop, replicate, IfOk};
ghost use Rattle.std.specs.List.{range_with_len};
ghost use Rattle.lsn_core.specs.Names.{segment_name_bytes};
ghost use Rattle.stream_laws.specs.Streams.{segment_part};
ghost use Rattle.stream_laws.specs.Windows.{shown};
ghost use Rattle.wal_follow.specs.Window.{IsInRoom, run, span_segments, NamesPart, IsPartRead};

use lsn_core::byte_words::overwrite;
use lsn_core::{AreaFault, MOST_SEGMENTS, NoMemory, SegSize, Text, segment_name};
use std::alloc::Global;
use std::marker::Model;
use vault::Vault;
use wal_archive::segment_in;

/// The bytes of a stream from a place on, as an area: the segment files that the stream's bytes
/// fill in order, of which those before that place are zeros. It is only read: its other calls
/// answer want of memory, and do nothing. Contracts see a `Span`.
#[derive(Drop)]
pub(crate) struct WindowArea<'a> {
    size: SegSize,
    base: u64,
    bytes: &'a [u8],
    zeros: u64,
}

impl<'a> Model for WindowArea<'a> {
    ghost use Rattle.stream_laws.specs.Windows.{Span};
    ghost use Rattle.wal_follow.specs.Window.{IsInRoom};

    ghost Value = { Span };

    ghost view = { λ w. record {
      mib = w.size;
      base = w.base;
      bytes = w.bytes.now;
      zeros = w.zeros;
    } };

    ghost invariant = { λ w. IsInRoom w.size w.base w.bytes.now w.zeros };
}

/// The names of the first segments' files, so many, in order.
fn segment_names(alloc: Global, size: SegSize, count: u64) -> Result<Vec<Text>, NoMemory>
    requires { count ≤ 1048576 }
    ensures { IfOk result (λ names. names.items
        ≡ map (λ seg. segment_name_bytes seg size) (range_with_len 1 count)) }
{
    let mut names = Vec::new(alloc);
    for number in 1..count + 1 {
        names.push(segment_name(alloc, number, size)?)?;
    }
    Ok(names)
}

/// Makes all bytes of a buffer zero.
fn clear(into: &mut [u8])
    ensures { into.new ≡ replicate (length into.old) 0 }
{
    into.fill(0);
}

/// The bytes from one index to before another one.
fn part_of(bytes: &[u8], from: u64, to: u64) -> &[u8]
    requires order { from ≤ to }
    requires within { to ≤ length bytes.now }
    ensures { result.now ≡ take (to - from) (drop from bytes.now) }
{
    &bytes[from as usize..to as usize]
}

/// Copies, from an index on, so many zeros with these bytes behind them, and zeros behind these.
fn copy_run(lead: u64, bytes: &[u8], from: u64, into: &mut [u8])
    requires run { lead + length bytes.now ≤ 2 ^ 63 }
    requires into { from + length into.old ≤ 2 ^ 63 }
    ensures { (zeros : ℕ) → from + length into.old ≤ lead + (length bytes.now + zeros)
        → into.new ≡ take (length into.old) (drop from (run lead bytes.now zeros)) }
{
    let start = from.max(lead);
    let end = (lead + bytes.len() as u64).min(from + into.len() as u64);
    clear(into);
    if start < end {
        let piece = part_of(bytes, start - lead, end - lead);
        overwrite(into, (start - from) as usize, piece);
    }
}

impl<'a> WindowArea<'a> {
    /// The area of a window with these values.
    pub(crate) fn new(size: SegSize, base: u64, bytes: &'a [u8], zeros: u64) -> WindowArea<'a>
        requires { IsInRoom size base bytes.now zeros }
        ensures { result ≡ record { mib = size; base = base; bytes = bytes.now; zeros = zeros } }
    {
        WindowArea {
            size,
            base,
            bytes,
            zeros,
        }
    }

    /// How many bytes it shows.
    fn shown_size(&self) -> u64
        ensures { result ≡ length (shown self.now) }
    {
        self.base - self.size.bytes() + self.bytes.len() as u64 + self.zeros
    }

    /// How many segments have a file.
    fn segments(&self) -> u64
        ensures { result ≡ span_segments self.now }
    {
        let size = self.size.bytes();
        ((self.shown_size() + (size - 1)) / size).min(MOST_SEGMENTS)
    }

    /// The segment whose file has this name. None exactly where there is no such file.
    fn segment(&self, name: &[u8]) -> Option<u64>
        ensures { NamesPart self.now name.now result }
    {
        match segment_in(name, self.size) {
            Some(number) => {
                if number <= self.segments() {
                    return Some(number);
                }
                None
            }
            None => None,
        }
    }

    /// How many bytes the file of a segment has.
    fn held(&self, number: u64) -> u64
        requires least { 1 ≤ number }
        requires most { number ≤ span_segments self.now }
        ensures { result ≡ length (segment_part self.now.mib (shown self.now) number) }
    {
        let before = (number - 1) * self.size.bytes();
        self.size
            .bytes()
            .min(self.shown_size().saturating_sub(before))
    }

    /// Reads the file of a segment from a place on, and says how many bytes it read.
    fn read_part(&self, number: u64, at: u64, into: &mut [u8]) -> u32
        requires least { 1 ≤ number }
        requires most { number ≤ span_segments self.now }
        requires short { length into.old ≤ 2 ^ 20 }
        ensures { IsPartRead self.now number at into.old into.new result }
    {
        let count = self.held(number).saturating_sub(at).min(into.len() as u64);
        if count == 0 {
            return 0;
        }
        let from = (number - 1) * self.size.bytes() + at;
        let lead = self.base - self.size.bytes();
        copy_run(lead, self.bytes, from, &mut into[..count as usize]);
        count as u32
    }
}

impl<'a> Vault for WindowArea<'a> {
    ghost use Rattle.std.specs.Prelude.{Some, None, refl};
    ghost use Rattle.stream_laws.specs.Windows.{span_files};

    ghost files = { λ w. Some (span_files w) };

    ghost faults = { λ w. 0 };

    ghost past = { λ w. None };

    ghost tells_alike = { λ a b. refl };

    fn names(&mut self, alloc: Global) -> Result<Vec<Text>, AreaFault> {
        // known: a segment has 1 to 1024 MiB
        let _mib = self.size.mib();
        Ok(segment_names(alloc, self.size, self.segments())?)
    }

    fn size(&mut self, name: &[u8]) -> Result<Option<u64>, AreaFault> {
        match self.segment(name) {
            Some(number) => Ok(Some(self.held(number))),
            None => Ok(None),
        }
    }

    fn read_at(&mut self, name: &[u8], at: u64, into: &mut [u8]) -> Result<u32, AreaFault> {
        match self.segment(name) {
            Some(number) => Ok(self.read_part(number, at, into)),
            None => Ok(0),
        }
    }

    fn write_at(&mut self, _name: &[u8], _at: u64, _piece: &[u8]) -> Result<(), AreaFault> {
        Err(AreaFault::NoMemory)
    }

    fn cut(&mut self, _name: &[u8], _size: u64) -> Result<(), AreaFault> {
        Err(AreaFault::NoMemory)
    }

    fn remove(&mut self, _name: &[u8]) -> Result<(), AreaFault> {
        Err(AreaFault::NoMemory)
    }

    fn sync(&mut self) -> Result<(), AreaFault> {
        Err(AreaFault::NoMemory)
    }
}
