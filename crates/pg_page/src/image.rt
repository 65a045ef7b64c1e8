//! Pages and their images.

ghost use Rattle.std.specs.Prelude.{◌≡◌, ◌≤◌, length, box_value, IfOk};
ghost use Rattle.pg_page.specs.Header.{zero_page};
ghost use Rattle.pg_page.specs.Image.{restored};

use crate::page::zero_page;
use lsn_core::byte_words::overwrite;
use std::alloc::{AllocError, Global};
use std::boxed::Box;

/// The page of an image: zeros stand at the offset where bytes were left out.
pub fn restored_page(
    alloc: Global,
    offset: usize,
    image: &[u8],
) -> Result<Box<[u8; 8192]>, AllocError>
    requires within { offset ≤ length image.now }
    requires fits { length image.now ≤ 8192 }
    ensures { IfOk result (λ page. box_value page ≡ restored offset image.now) }
{
    let mut page = Box::new(alloc, zero_page())?;
    restore(&mut page, offset, image);
    Ok(page)
}

/// Writes the two parts of an image over zeros.
fn restore(page: &mut [u8; 8192], offset: usize, image: &[u8])
    requires zeros { page.old ≡ zero_page }
    requires within { offset ≤ length image.now }
    requires fits { length image.now ≤ 8192 }
    ensures { page.new ≡ restored offset image.now }
{
    let (front, back) = image.split_at(offset);
    overwrite(page, 0, front);
    overwrite(page, 8192 - back.len(), back);
}
