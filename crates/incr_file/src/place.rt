//! Where blocks begin in an incremental file.

ghost use Rattle.std.specs.Prelude.{◌≡◌};
ghost use Rattle.incr_file.specs.Reading.{HasPlaces, place_in};

use crate::head::HeadView;
use lsn_core::PAGE;

/// Where a block begins in an incremental file, in bytes. None exactly where the file doesn't list
/// it.
pub fn block_place(head: &HeadView, block: u32) -> Option<u64>
    requires { HasPlaces head.now }
    ensures { result ≡ place_in head.now block }
{
    match head.head.blocks.as_slice().binary_search(&block) {
        Ok(number) => Some(head.body + PAGE * number as u64),
        Err(_) => None,
    }
}
