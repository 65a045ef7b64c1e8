//! The tests of a page's head.

ghost use Rattle.std.specs.Prelude.{◌≡◌, ◌≤◌, true, length, IsTrue, if◌then◌else◌};
ghost use Rattle.wal_pages.specs.Places.{head_size};
ghost use Rattle.wal_pages.specs.Heads.{is_first_page, bit, info_fits, long_fault, size_fault, first_fault, head_fault};

use lsn_core::byte_words::{u16_in, u32_in, u64_in};
use lsn_core::{PAGE, PAGE_MAGIC, SegSize};

/// Why the head of a WAL page refuses, in the order of the tests.
#[derive(Clone, Copy, Debug, PartialEq, Eq)]
pub enum HeadFault {
    /// The page doesn't begin with the magic number.
    PageMagic,
    /// An unknown bit is set, or the bits of the long form or of the continuation are wrong.
    PageInfo,
    /// The timeline isn't 1.
    PageTimeline,
    /// The address isn't the page's place.
    PageAddr,
    /// The system identifier is another one.
    SysId,
    /// The segment size or the page size is another one.
    PageSizes,
    /// Another number of bytes is still to come.
    RemLen,
}

/// Whether a page is its segment's first one.
#[tactic(auto, unfolding(crate::specs::Heads::is_first_page, crate::specs::Places::head_size))]
pub fn is_first_page(size: SegSize, page: u64) -> bool
    ensures test { result ≡ is_first_page size page }
    ensures long { IsTrue result → 40 ≤ head_size size page }
    ensures short { 24 ≤ head_size size page }
{
    page % size.bytes() < PAGE
}

fn bit(told: bool) -> u16
    ensures { result ≡ bit told }
{
    if told { 1 } else { 0 }
}

fn info_fits(first: bool, rest: Option<u32>, info: u16) -> bool
    ensures { result ≡ info_fits first rest info }
{
    let form_fits = info < 8 && info / 2 % 2 == bit(first);
    match rest {
        None => form_fits,
        Some(size) => form_fits && info % 2 == bit(size != 0),
    }
}

fn long_fault(first: bool, size: SegSize, system: u64, bytes: &[u8]) -> Option<HeadFault>
    requires { IsTrue first → 40 ≤ length bytes.now }
    ensures { result ≡ long_fault first size system bytes.now }
{
    if !first {
        return None;
    }
    if u64_in(bytes, 24) != system {
        return Some(HeadFault::SysId);
    }
    if u64::from(u32_in(bytes, 32)) == size.bytes() && u64::from(u32_in(bytes, 36)) == PAGE {
        None
    } else {
        Some(HeadFault::PageSizes)
    }
}

fn size_fault(rest: Option<u32>, bytes: &[u8]) -> Option<HeadFault>
    requires { 24 ≤ length bytes.now }
    ensures { result ≡ size_fault rest bytes.now }
{
    match rest {
        None => None,
        Some(size) => {
            if u32_in(bytes, 16) == size {
                None
            } else {
                Some(HeadFault::RemLen)
            }
        }
    }
}

#[tactic(auto, unfolding(crate::specs::Heads::first_fault))]
fn first_fault(
    first: bool,
    size: SegSize,
    system: u64,
    page: u64,
    rest: Option<u32>,
    bytes: &[u8],
) -> Option<HeadFault>
    requires long { IsTrue first → 40 ≤ length bytes.now }
    requires short { 24 ≤ length bytes.now }
    ensures { result ≡ first_fault first size system page rest bytes.now }
{
    if u16_in(bytes, 0) != PAGE_MAGIC {
        return Some(HeadFault::PageMagic);
    }
    if !info_fits(first, rest, u16_in(bytes, 2)) {
        return Some(HeadFault::PageInfo);
    }
    if u32_in(bytes, 4) != 1 {
        return Some(HeadFault::PageTimeline);
    }
    if u64_in(bytes, 8) != page {
        return Some(HeadFault::PageAddr);
    }
    match long_fault(first, size, system, bytes) {
        Some(why) => Some(why),
        None => size_fault(rest, bytes),
    }
}

/// The first test that the bytes of a page's head don't pass, where so many bytes of an entry are
/// still to come; None for these leaves the continuation untested. Bytes behind the head aren't
/// looked at.
pub fn head_fault(
    size: SegSize,
    system: u64,
    page: u64,
    rest: Option<u32>,
    bytes: &[u8],
) -> Option<HeadFault>
    requires { head_size size page ≤ length bytes.now }
    ensures { result ≡ head_fault size system page rest bytes.now }
{
    let first = is_first_page(size, page);
    first_fault(first, size, system, page, rest, bytes)
}
