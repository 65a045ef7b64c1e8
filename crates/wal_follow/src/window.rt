//! The end of a stream that a follower holds.

ghost use Rattle.std.specs.Prelude.{◌≡◌, ◌≤◌, ◌+◌, ◌^◌, ◌++◌, length, take, drop, replicate, OnOk, OnErr};
ghost use Rattle.wal_record.specs.Tips.{wal_limit};
ghost use Rattle.stream_laws.specs.Windows.{span_top};
ghost use Rattle.wal_follow.specs.Window.{empty_span, IsLastNonzero, StaysAt, HoldsPiece, TakesPiece, DropsBefore};

use crate::area::WindowArea;
use lsn_core::{NoMemory, SegSize};
use std::alloc::Global;
use std::marker::Model;
use wal_record::wal_limit;

/// The bytes of a stream from a place on. Zeros at the stream's end are counted and not held.
/// Contracts see a `Span`.
#[derive(Drop)]
pub(crate) struct Window {
    size: SegSize,
    /// The place of the first byte that is held.
    base: u64,
    /// The bytes from there on, but for zeros at the stream's end.
    bytes: Vec<u8>,
    /// How many zeros stand behind these.
    zeros: u64,
}

impl Model for Window {
    ghost use Rattle.stream_laws.specs.Windows.{Span};
    ghost use Rattle.wal_follow.specs.Window.{IsInRoom};

    ghost Value = { Span };

    ghost view = { λ w. record {
      mib = w.size;
      base = w.base;
      bytes = w.bytes.items;
      zeros = w.zeros;
    } };

    ghost invariant = { λ w. IsInRoom w.size w.base w.bytes.items w.zeros };
}

/// How many bytes of a piece stand before the zeros at its end.
pub(crate) fn nonzero_end(piece: &[u8]) -> usize
    ensures { IsLastNonzero piece.now result }
{
    let mut end = piece.len();
    while end > 0 && piece[end - 1] == 0 {
        end -= 1;
    }
    end
}

/// Puts so many zeros behind bytes.
fn put_zeros(bytes: &mut Vec<u8>, count: u64) -> Result<(), NoMemory>
    requires { length bytes.old.items + count ≤ 2 ^ 63 }
    ensures put { OnOk result (bytes.new.items ≡ bytes.old.items ++ replicate count 0) }
    ensures same { OnErr result (bytes.new.items ≡ bytes.old.items) }
{
    bytes.resize(bytes.len() + count as usize, 0)?;
    Ok(())
}

/// Puts a piece behind bytes.
fn put_piece(bytes: &mut Vec<u8>, piece: &[u8]) -> Result<(), NoMemory>
    ensures put { OnOk result (bytes.new.items ≡ bytes.old.items ++ piece.now) }
    ensures same { OnErr result (bytes.new.items ≡ bytes.old.items) }
{
    bytes.extend_from_slice(piece)?;
    Ok(())
}

/// Drops so many bytes from the front.
fn drop_front(bytes: &mut Vec<u8>, count: usize)
    requires { count ≤ length bytes.old.items }
    ensures { bytes.new.items ≡ drop count bytes.old.items }
{
    bytes.drain(..count);
}

/// The first bytes of a piece, at most so many.
fn first_bytes(piece: &[u8], most: u64) -> &[u8]
    ensures { result.now ≡ take most piece.now }
{
    let count = most.min(piece.len() as u64) as usize;
    &piece[..count]
}

impl Window {
    /// The window of a stream that gave no byte yet.
    pub(crate) fn new(alloc: Global, size: SegSize) -> Window
        ensures { result ≡ empty_span size }
    {
        Window {
            size,
            base: size.bytes(),
            bytes: Vec::new(alloc),
            zeros: 0,
        }
    }

    /// The size of the stream's segments.
    pub(crate) fn size(&self) -> SegSize
        ensures { result ≡ self.now.mib }
    {
        self.size
    }

    /// Where the stream's bytes end, within the archive's room.
    pub(crate) fn top(&self) -> u64
        ensures top { result ≡ span_top self.now }
        ensures room { result ≤ wal_limit self.now.mib }
        ensures base { self.now.base ≤ result }
    {
        // known: the end of the archive's room is a u64
        let _limit = wal_limit(self.size);
        self.base + self.bytes.len() as u64 + self.zeros
    }

    /// Holds a piece, behind all zeros that were counted so far.
    fn hold(&mut self, piece: &[u8]) -> Result<(), NoMemory>
        requires { span_top self.old + length piece.now ≤ wal_limit self.old.mib }
        ensures held { OnOk result (HoldsPiece self.old piece.now self.new) }
        ensures stays { StaysAt self.old self.new }
    {
        if piece.is_empty() {
            return Ok(());
        }
        put_zeros(&mut self.bytes, self.zeros)?;
        self.zeros = 0;
        put_piece(&mut self.bytes, piece)?;
        Ok(())
    }

    /// Puts a piece behind the stream's bytes, as far as the archive has room.
    pub(crate) fn add(&mut self, piece: &[u8]) -> Result<(), NoMemory>
        ensures taken { OnOk result (TakesPiece self.old piece.now self.new) }
        ensures stays { StaysAt self.old self.new }
    {
        let piece = first_bytes(piece, wal_limit(self.size).0 - self.top());
        let end = nonzero_end(piece);
        self.hold(&piece[..end])?;
        self.zeros += (piece.len() - end) as u64;
        Ok(())
    }

    /// Forgets the bytes before a place, which is none behind their end.
    pub(crate) fn drop_before(&mut self, place: u64)
        requires from { self.old.base ≤ place }
        requires to { place ≤ span_top self.old }
        ensures { DropsBefore self.old place self.new }
    {
        let count = (place - self.base).min(self.bytes.len() as u64);
        drop_front(&mut self.bytes, count as usize);
        self.zeros -= place - self.base - count;
        self.base = place;
    }

    /// What it shows, as an area.
    pub(crate) fn area(&self) -> WindowArea<'_>
        ensures { result ≡ self.now }
    {
        WindowArea::new(self.size, self.base, &self.bytes, self.zeros)
    }
}
