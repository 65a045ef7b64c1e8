//! A page with a good header.

ghost use Rattle.std.specs.Prelude.{◌≡◌, ◌+◌, ◌-◌, ◌<◌, ◌≤◌, ◌↔◌, length, replicate, box_value, IsTrue, IsSome, IfSome};
ghost use Rattle.lsn_core.specs.byte_words.Pieces.{overwritten};
ghost use Rattle.pg_page.specs.Header.{IsGood, lsn_of, lsn_field, hole_of, hole_zeroed, with_lsn, zero_page};

use lsn_core::byte_words::{overwrite, u16_in};
use std::boxed::Box;
use std::marker::Model;

/// A page of 8192 bytes with a good header, on the heap: a move of it moves no byte of the page.
/// Contracts see its bytes.
#[derive(Debug, Drop)]
pub struct Page {
    bytes: Box<[u8; 8192]>,
}

impl Model for Page {
    ghost use Rattle.std.specs.Prelude.{List, ℕ, box_value};

    ghost Value = { List ℕ };

    ghost use Rattle.pg_page.specs.Header.{IsGood};

    ghost view = { λ p. box_value p.bytes };

    ghost invariant = { λ p. IsGood (box_value p.bytes) };
}

impl Page {
    /// The page of these bytes. None exactly where the header isn't good.
    pub fn read(bytes: Box<[u8; 8192]>) -> Option<Page>
        ensures some { IsSome result ↔ IsGood (box_value bytes) }
        ensures value { IfSome result (λ page. page ≡ box_value bytes) }
    {
        if is_good(&bytes) {
            Some(Page { bytes })
        } else {
            None
        }
    }

    /// The page of bytes with a good header.
    pub fn from_good(bytes: Box<[u8; 8192]>) -> Page
        requires { IsGood (box_value bytes) }
        ensures { result ≡ box_value bytes }
    {
        Page { bytes }
    }

    /// The page's bytes.
    pub fn bytes(&self) -> &[u8; 8192]
        ensures bytes { result.now ≡ self.now }
        ensures good { IsGood self.now }
    {
        &self.bytes
    }

    /// The hole: from pd_lower to pd_upper. None exactly where that is empty.
    pub fn hole(&self) -> Option<(u16, u16)>
        ensures { result ≡ hole_of self.now }
    {
        let (lower, upper) = (u16_in(&*self.bytes, 12), u16_in(&*self.bytes, 14));
        if lower < upper {
            Some((lower, upper))
        } else {
            None
        }
    }

    /// The page's LSN, pd_lsn: the place in the WAL that the page's last change ended at.
    pub fn lsn(&self) -> u64
        ensures { result ≡ lsn_of self.now }
    {
        lsn_of(&self.bytes)
    }
}

/// Sets the LSN of a page, also of one whose header isn't good.
#[tactic(auto, unfolding(crate::specs::Header::with_lsn))]
pub fn set_lsn(page: &mut [u8; 8192], at: u64)
    ensures { page.new ≡ with_lsn at page.old }
{
    overwrite(page, 0, &lsn_field(at));
}

/// Writes zeros into the hole of a page.
#[tactic(auto, unfolding(crate::specs::Header::hole_zeroed))]
pub fn zero_hole(page: &mut [u8; 8192])
    requires { IsGood page.old }
    ensures { page.new ≡ hole_zeroed page.old }
{
    let lower = usize::from(u16_in(page, 12));
    let upper = usize::from(u16_in(page, 14));
    fill_between(page, lower, upper, 0);
}

/// The LSN of a page, also of one whose header isn't good.
pub fn lsn_of(page: &[u8; 8192]) -> u64
    ensures { result ≡ lsn_of page.now }
{
    let high = u32::from_le_bytes([page[0], page[1], page[2], page[3]]);
    let low = u32::from_le_bytes([page[4], page[5], page[6], page[7]]);
    u64::from(high) * 4_294_967_296 + u64::from(low)
}

/// A page of zeros, as an added block is. Its header isn't good.
#[tactic(auto, unfolding(crate::specs::Header::zero_page))]
pub fn zero_page() -> [u8; 8192]
    ensures { result ≡ zero_page }
{
    [0; 8192]
}

/// Whether the header is good: the version is 4 with 8192 bytes, and pd_lower, pd_upper and
/// pd_special stand in order behind the header.
pub(crate) fn is_good(page: &[u8; 8192]) -> bool
    ensures { IsTrue result ↔ IsGood page.now }
{
    let (lower, upper, special) = (u16_in(page, 12), u16_in(page, 14), u16_in(page, 16));
    u16_in(page, 18) == 8196 && 24 <= lower && lower <= upper && upper <= special && special <= 8192
}

/// The eight bytes of pd_lsn: the high half first.
#[tactic(auto, unfolding(crate::specs::Header::lsn_field))]
fn lsn_field(at: u64) -> [u8; 8]
    ensures { result ≡ lsn_field at }
{
    let high = (at >> 32) as u32;
    let low = (at & 0xffff_ffff) as u32;
    let [a, b, c, d] = high.to_le_bytes();
    let [e, f, g, h] = low.to_le_bytes();
    [a, b, c, d, e, f, g, h]
}

/// Writes a value into all bytes from one place to another.
pub(crate) fn fill_between(bytes: &mut [u8], from: usize, to: usize, value: u8)
    requires order { from ≤ to }
    requires within { to ≤ length bytes.old }
    ensures { bytes.new ≡ overwritten bytes.old from (replicate (to - from) value) }
{
    bytes[from..to].fill(value);
}
