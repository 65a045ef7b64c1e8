//! Places of flat bytes, by their numbers.

ghost use Rattle.std.specs.Prelude.{◌≡◌, ◌+◌, ◌/◌, ◌^◌, ◌≤◌};
ghost use Rattle.wal_pages.specs.Places.{segment_flat, place, flat_before, head_size};

use lsn_core::{LONG_HEAD, PAGE, SHORT_HEAD, SegSize};

/// How many flat bytes a page has behind a short head.
const PAGE_FLAT: u64 = 8168;

/// How many bytes the long head has more.
const LONG_MORE: u64 = 16;

/// How many flat bytes a segment has.
fn segment_flat(size: SegSize) -> u64
    ensures flat { result ≡ segment_flat size }
    ensures least { 1045488 ≤ result }
    ensures most { result ≤ 1070596080 }
{
    size.bytes() / 1_048_576 * 1_045_504 - LONG_MORE
}

/// The place of a flat byte, by its number, which is at most 2^53.
#[tactic(auto, unfolding(crate::specs::Places::place), using(crate::proofs::Bounds::place_bound))]
pub fn place(size: SegSize, number: u64) -> u64
    requires { number ≤ 2 ^ 53 }
    ensures place { result ≡ place size number }
    ensures bound { result ≤ number + number / 128 + 41 }
{
    let flat = segment_flat(size);
    let behind = number % flat + LONG_MORE;
    number / flat * size.bytes() + (behind / PAGE_FLAT * PAGE + (SHORT_HEAD + behind % PAGE_FLAT))
}

/// How many flat bytes stand before a place, which is at most 2^53.
#[tactic(auto, unfolding(crate::specs::Places::flat_before), using(crate::proofs::Bounds::flat_bound))]
pub fn flat_before(size: SegSize, at: u64) -> u64
    requires { at ≤ 2 ^ 53 }
    ensures number { result ≡ flat_before size at }
    ensures bound { result ≤ at }
{
    let bytes = size.bytes();
    let offset = at % bytes;
    let on_page = (offset % PAGE).saturating_sub(SHORT_HEAD);
    let on_pages = (offset / PAGE * PAGE_FLAT + on_page).saturating_sub(LONG_MORE);
    at / bytes * segment_flat(size) + on_pages
}

/// How many bytes the head of a place's page has: 40 on a segment's first page, 24 on the others
/// (PostgreSQL manual, WAL Internals; profile).
#[tactic(auto, unfolding(crate::specs::Places::head_size))]
pub fn head_size(size: SegSize, at: u64) -> u64
    ensures head { result ≡ head_size size at }
    ensures least { 24 ≤ result }
    ensures most { result ≤ 40 }
{
    if at % size.bytes() < PAGE {
        LONG_HEAD
    } else {
        SHORT_HEAD
    }
}
