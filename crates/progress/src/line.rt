//! The text of a line.

ghost use Rattle.std.specs.Prelude.{◌≡◌, IfOk, string_bytes};
ghost use Rattle.progress.specs.Line.{mib, amounts, line};

use crate::moved::Moved;
use std::alloc::{AllocError, Global};

/// How many whole MiB are in so many bytes.
fn mib(bytes: u64) -> u64
    ensures { result ≡ mib bytes }
{
    bytes >> 20
}

/// What was moved, in words.
fn amounts(alloc: Global, moved: Moved) -> Result<String, AllocError>
    ensures { IfOk result (λ text. string_bytes text ≡ amounts moved) }
{
    let read = mib(moved.read);
    let written = mib(moved.written);
    format!(in alloc; "{read} MiB read, {written} MiB written")
}

/// The line that names the area at work, and tells what that area moved so far, and what all did.
pub(crate) fn line_of(
    alloc: Global,
    area: &str,
    own: Moved,
    all: Moved,
) -> Result<String, AllocError>
    ensures { IfOk result (λ text. string_bytes text ≡ line area.now own all) }
{
    let own = amounts(alloc, own)?;
    let all = amounts(alloc, all)?;
    format!(in alloc; "pgbackup: {area}: {own}; in all {all}")
}
