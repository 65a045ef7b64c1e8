//! The forks that paths name.

ghost use Rattle.std.specs.Prelude.{◌≡◌, ◌<◌, ◌^◌, ◌++◌, false, IfSome, IfNone};
ghost use Rattle.lsn_core.specs.text_numbers.Numbers.{IsFront, HasNoFront};
ghost use Rattle.lsn_core.specs.Names.{segment_suffix, file_prefix, file_tail, plain_name, file_name, fork_path_bytes, IsNamed, NamesNoFork};
ghost use Rattle.lsn_core.specs.PathParts.{IsNoSuffix, IsNoTail, IsNoPlainName, HasNoPrefix, IsNoFileName, in_database, IsInNoDatabase};

use crate::byte_words::behind_prefix;
use crate::ids::{ForkId, ForkKind, Rel};
use crate::text_numbers::{decimal_front, decimal_in};

/// The number below 2^32 at the front, and what stands behind it. None exactly where there is none.
fn number_front(text: &[u8]) -> Option<(u32, &[u8])>
    ensures found { IfSome result (λ x. IsFront text.now x.0 x.1.now) }
    ensures small { IfSome result (λ x. x.0 < 2 ^ 32) }
    ensures none { IfNone result (HasNoFront (2 ^ 32) text.now) }
{
    let (number, tail) = decimal_front(text)?;
    match u32::try_from(number) {
        Ok(number) => Some((number, tail)),
        Err(_) => None,
    }
}

/// The segment that the end of a path names: the first one where there is none.
fn suffix_in(text: &[u8]) -> Option<u32>
    ensures found { IfSome result (λ seg. text.now ≡ segment_suffix seg) }
    ensures none { IfNone result (IsNoSuffix text.now) }
{
    if text.is_empty() {
        return Some(0);
    }
    let number = decimal_in(behind_prefix(text, b".")?)?;
    if number == 0 || number >= 4_294_967_296 {
        return None;
    }
    Some(number as u32)
}

/// The kind of fork and the segment that stand behind a relation's number.
fn tail_in(text: &[u8]) -> Option<(ForkKind, u32)>
    ensures found { IfSome result (λ x. text.now ≡ file_tail x.0 x.1) }
    ensures none { IfNone result (IsNoTail text.now) }
{
    match behind_prefix(text, b"_init") {
        Some(suffix) => Some((ForkKind::Init, suffix_in(suffix)?)),
        None => Some((ForkKind::Main, suffix_in(text)?)),
    }
}

/// The relation's number, the kind of fork and the segment in a file's name without prefix.
fn plain_name_in(name: &[u8]) -> Option<(u32, ForkKind, u32)>
    ensures found { IfSome result (λ x. name.now ≡ plain_name x.0 x.1 x.2) }
    ensures none { IfNone result (IsNoPlainName name.now) }
{
    let (rel, tail) = number_front(name)?;
    let (kind, seg) = tail_in(tail)?;
    Some((rel, kind, seg))
}

/// Whether a file's name is that of an incremental file, and the name without that prefix.
fn without_prefix(name: &[u8]) -> (bool, &[u8])
    ensures parts { name.now ≡ file_prefix result.0 ++ result.1.now }
    ensures plain { result.0 ≡ false → HasNoPrefix name.now }
{
    match behind_prefix(name, b"INCREMENTAL.") {
        Some(plain) => (true, plain),
        None => (false, name),
    }
}

/// The same in any file's name, and whether the name is that of an incremental file.
fn file_name_in(name: &[u8]) -> Option<(bool, u32, ForkKind, u32)>
    ensures found { IfSome result (λ x. name.now ≡ file_name x.0 x.1 x.2 x.3) }
    ensures small { IfSome result (λ x. (x.1 < 2 ^ 32) × (x.3 < 2 ^ 32)) }
    ensures none { IfNone result (IsNoFileName name.now) }
{
    let (incr, plain) = without_prefix(name);
    let (rel, kind, seg) = plain_name_in(plain)?;
    Some((incr, rel, kind, seg))
}

/// The database whose folder a path leads to, and the name in it.
fn database_in(path: &[u8]) -> Option<(u32, &[u8])>
    ensures found { IfSome result (λ x. path.now ≡ in_database x.0 x.1.now) }
    ensures small { IfSome result (λ x. x.0 < 2 ^ 32) }
    ensures none { IfNone result (IsInNoDatabase path.now) }
{
    let (db, behind) = number_front(behind_prefix(path, b"base/")?)?;
    Some((db, behind_prefix(behind, b"/")?))
}

/// The fork, the segment and the form, incremental or plain, of the file that has this path
/// (PostgreSQL manual, Database File Layout; the incremental prefix: pg_combinebackup). None
/// exactly where no fork has this path: numbers stand in decimal without leading zeros, those of
/// the relation are 1 to 2^32 - 1, and a segment's suffix is 1 to 2^32 - 1.
pub fn path_fork(path: &[u8]) -> Option<(ForkId, u32, bool)>
    ensures found { IfSome result (λ x. path.now ≡ fork_path_bytes x.0 x.1 x.2) }
    ensures named { IfSome result (λ x. IsNamed x.0 x.1) }
    ensures none { IfNone result (NamesNoFork path.now) }
{
    let (db, name) = database_in(path)?;
    let (incr, rel, kind, seg) = file_name_in(name)?;
    let rel = Rel::new(db, rel)?;
    Some((ForkId { rel, kind }, seg, incr))
}
