//! Places in the WAL.

ghost use Rattle.std.specs.Prelude.{◌≡◌, ℕ, IfOk, IfSome, IfNone};
ghost use Rattle.lsn_core.specs.Names.{lsn_bytes, IsLsnText};

use crate::byte_words::cut_at;
use crate::fault::NoMemory;
use crate::text::Text;
use crate::text_numbers::hex_digits_in;
use std::alloc::Global;
use std::marker::Model;

/// A log sequence number: a byte position in the WAL (PostgreSQL manual, pg_lsn type).
#[derive(Clone, Copy, Debug, PartialEq, Eq, PartialOrd, Ord)]
pub struct Lsn(pub u64);

/// Where an entry of the WAL stands: its first byte, and the place where the next one may begin.
#[derive(Clone, Copy, Debug, PartialEq, Eq)]
pub struct Place {
    pub start: Lsn,
    pub end: Lsn,
}

/// The end of a WAL: where its last entry ends, where that starts (0 where there is none), the
/// latest redo point, and how many entries there are. Contracts see a `Tip`.
#[derive(Clone, Copy, Debug, PartialEq, Eq)]
pub struct WalTip {
    pub end: Lsn,
    pub prev: Lsn,
    pub redo: Lsn,
    pub count: u64,
}

impl Model for WalTip {
    ghost use Rattle.lsn_core.specs.Tip.{Tip, tip_with};

    ghost Value = { Tip };

    ghost view = { λ t. tip_with t.end.0 t.prev.0 t.redo.0 t.count };

    ghost inverse = { λ t. record {
      end = record { 0 = t.end };
      prev = record { 0 = t.prev };
      redo = record { 0 = t.redo };
      count = t.count;
    } };
}

/// The LSN as it is printed: two upper-case hexadecimal numbers, the high and the low 32 bits,
/// joined by a slash (PostgreSQL manual, pg_lsn type).
pub fn lsn_text(alloc: Global, at: Lsn) -> Result<Text, NoMemory>
    ensures { IfOk result (λ t. t ≡ lsn_bytes at.0) }
{
    let high = at.0 >> 32;
    let low = at.0 & 0xffff_ffff;
    Ok(Text::from_vec(format!(in alloc; "{high:X}/{low:X}")?.into_bytes()))
}

/// The LSN that a text writes: 1 to 8 hexadecimal digits in either case on each side of a slash,
/// leading zeros allowed (PostgreSQL manual, pg_lsn type). None exactly where the text is no such
/// one.
pub fn lsn_read(text: &[u8]) -> Option<Lsn>
    ensures found { IfSome result (λ at. IsLsnText text.now at.0) }
    ensures none { IfNone result ((at : ℕ) → IsLsnText text.now at → ⊥) }
{
    let (high, low) = cut_at(b'/', text)?;
    let high = u64::from(hex_digits_in(high)?);
    let low = u64::from(hex_digits_in(low)?);
    Some(Lsn(high * 4_294_967_296 + low))
}
