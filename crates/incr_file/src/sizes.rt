//! The sizes of an incremental file and of its parts.

ghost use Rattle.std.specs.Prelude.{◌≡◌, ◌≤◌, length, min};
ghost use Rattle.incr_file.specs.Head.{body_place, file_size};
ghost use Rattle.incr_file.specs.Reading.{told_head_size};

use lsn_core::PAGE;
use lsn_core::byte_words::u32_in;

/// Where the first of so many listed blocks begins in an incremental file, in bytes: behind the
/// head, at a multiple of 8192; 12 where none is listed (profile).
#[tactic(auto, unfolding(crate::specs::Head::body_place))]
pub(crate) fn body_place(count: u32) -> u64
    ensures { result ≡ body_place count }
{
    if count == 0 {
        return 12;
    }
    (12 + 4 * u64::from(count)).div_ceil(PAGE) * PAGE
}

/// The size of an incremental file that lists so many blocks.
fn file_size(count: u32) -> u64
    ensures { result ≡ file_size count }
{
    body_place(count) + PAGE * u64::from(count)
}

/// How many bytes of an incremental file its head takes without the padding, by the file's first 12
/// bytes, where it has as many. None exactly where their count of blocks doesn't give the size
/// `file`, so that no count is trusted.
pub fn head_size(first: &[u8], file: u64) -> Option<u64>
    requires { min 12 file ≤ length first.now }
    ensures { result ≡ told_head_size first.now file }
{
    if file < 12 {
        return None;
    }
    let count = u32_in(first, 4);
    if file_size(count) == file {
        Some(12 + 4 * u64::from(count))
    } else {
        None
    }
}
