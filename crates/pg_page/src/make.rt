//! A page made from nothing.

ghost use Rattle.std.specs.Prelude.{◌≡◌, ◌<◌, ◌≤◌, ◌↔◌, IsSome, IfSome, IfOk};
ghost use Rattle.pg_page.specs.Header.{zero_page, made_page, made_fields};

use crate::page::{Page, fill_between, zero_page};
use lsn_core::byte_words::overwrite;
use std::alloc::{AllocError, Global};
use std::boxed::Box;

/// The page whose hole lies between these places: LSN, checksum, flags and prune xid 0, the
/// special space empty, the value in all bytes behind the header that are outside the hole
/// (profile). None exactly unless 24 <= lower <= upper <= 8192.
#[tactic(auto, using(crate::proofs::MadeLaws::made_good))]
pub fn make_page(
    alloc: Global,
    lower: u16,
    upper: u16,
    fill: u8,
) -> Result<Option<Page>, AllocError>
    ensures some { IfOk result (λ made. IsSome made
        ↔ (24 ≤ lower) × (lower ≤ upper) × (upper ≤ 8192)) }
    ensures value { IfOk result (λ made. IfSome made
        (λ page. page ≡ made_page lower upper fill)) }
{
    if lower < 24 || upper < lower || upper > 8192 {
        return Ok(None);
    }
    let mut bytes = Box::new(alloc, zero_page())?;
    write_made(&mut bytes, lower, upper, fill);
    Ok(Some(Page::from_good(bytes)))
}

/// Writes that page over zeros.
fn write_made(page: &mut [u8; 8192], lower: u16, upper: u16, fill: u8)
    requires zeros { page.old ≡ zero_page }
    requires least { 24 ≤ lower }
    requires order { lower ≤ upper }
    requires most { upper ≤ 8192 }
    ensures { page.new ≡ made_page lower upper fill }
{
    overwrite(page, 12, &made_fields(lower, upper));
    fill_between(page, 24, usize::from(lower), fill);
    fill_between(page, usize::from(upper), 8192, fill);
}

/// The bytes of pd_lower, pd_upper, pd_special and pd_pagesize_version.
#[tactic(auto, unfolding(crate::specs::Header::made_fields))]
fn made_fields(lower: u16, upper: u16) -> [u8; 8]
    ensures { result ≡ made_fields lower upper }
{
    let [a, b] = lower.to_le_bytes();
    let [c, d] = upper.to_le_bytes();
    [a, b, c, d, 0x00, 0x20, 0x04, 0x20]
}
