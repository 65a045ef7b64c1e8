//! The paths of files that may be incremental.

ghost use Rattle.std.specs.Prelude.{◌≡◌, ◌++◌, ◌∷◌, true, false, IfOk, IfSome, IfNone};
ghost use Rattle.std.specs.List.{list_any};
ghost use Rattle.chain_files.specs.Paths.{file_path, is_relation_folder, is_slash, is_odd_name};
ghost use Rattle.chain_files.specs.Paths.{fork_folder, fork_name, IsRelationFile};
ghost use Rattle.chain_files.specs.Paths.{IsIncrementalPath, IsForkFile};
ghost use Rattle.lsn_core.specs.Names.{file_prefix, IsNamed};
ghost use Rattle.chain_files.specs.Inside.{ArePathsOf};

use lsn_core::byte_words::{behind, behind_prefix};
use lsn_core::{ForkId, NoMemory, Text, fork_path, path_fork};
use std::alloc::Global;

/// The front of the name of an incremental file.
const PREFIX: &[u8] = b"INCREMENTAL.";

/// The folder of the shared catalogs.
const GLOBAL: &[u8] = b"global";

/// Names that no file has.
const EMPTY: &[u8] = b"";

const DOT: &[u8] = b".";

const DOTS: &[u8] = b"..";

/// What stands before and behind the last slash. None exactly where there is none.
fn cut_last(path: &[u8]) -> Option<(&[u8], &[u8])>
    ensures parts { IfSome result (λ x. path.now ≡ x.0.now ++ (47 ∷ x.1.now)) }
    ensures last { IfSome result (λ x. list_any is_slash x.1.now ≡ false) }
    ensures none { IfNone result (list_any is_slash path.now ≡ false) }
{
    let mut left = path.len();
    while left > 0 {
        left -= 1;
        if path[left] == b'/' {
            return Some((&path[..left], behind(path, left + 1)));
        }
    }
    None
}

/// Whether files of a folder may be incremental.
fn is_relation_folder(folder: &[u8]) -> bool
    ensures { result ≡ is_relation_folder folder.now }
{
    folder == GLOBAL || folder.starts_with(b"base/") || folder.starts_with(b"pg_tblspc/")
}

/// Whether no file has such a name, or it is that of an incremental file itself.
fn is_odd_name(name: &[u8]) -> bool
    ensures { result ≡ is_odd_name name.now }
{
    name == EMPTY || name == DOT || name == DOTS || name.starts_with(PREFIX)
}

/// The folder and the plain name of the incremental file that has this path (PostgreSQL manual,
/// pg_combinebackup): its last component is `INCREMENTAL.` and that name, and its folder is
/// `global`, or lies below `base/` or `pg_tblspc/`. None exactly where the path is that of no such
/// file. A name that is empty, `.`, `..` or an incremental file's itself is none.
pub fn incremental(path: &[u8]) -> Option<(&[u8], &[u8])>
    ensures found { IfSome result (λ x. path.now ≡ file_path x.0.now x.1.now true) }
    ensures placed { IfSome result (λ x. IsRelationFile x.0.now x.1.now) }
    ensures none { IfNone result (IsIncrementalPath path.now → ⊥) }
{
    let (folder, last) = cut_last(path)?;
    let name = behind_prefix(last, PREFIX)?;
    if !is_relation_folder(folder) {
        return None;
    }
    if is_odd_name(name) {
        return None;
    }
    Some((folder, name))
}

/// Whether a path is that of a segment of a fork in the plain form.
pub fn is_fork_file(path: &[u8]) -> bool
    ensures is { result ≡ true → IsForkFile path.now }
    ensures none { result ≡ false → IsForkFile path.now → ⊥ }
{
    match path_fork(path) {
        Some((_, _, incr)) => !incr,
        None => false,
    }
}

/// The front of the name of a file.
fn prefix_of(incr: bool) -> &'static [u8]
    ensures { result.now ≡ file_prefix incr }
{
    if incr { PREFIX } else { b"" }
}

/// The path of a file of a folder, plain or incremental, by its plain name.
pub fn file_path(alloc: Global, folder: &[u8], name: &[u8], incr: bool) -> Result<Text, NoMemory>
    ensures { IfOk result (λ t. t ≡ file_path folder.now name.now incr) }
{
    let mut path = Vec::new(alloc);
    path.extend_from_slice(folder)?;
    path.push(b'/')?;
    path.extend_from_slice(prefix_of(incr))?;
    path.extend_from_slice(name)?;
    Ok(Text::from_vec(path))
}

/// The paths of a file in its two forms.
#[derive(Debug, Drop)]
pub(crate) struct FilePaths {
    pub(crate) plain: Text,
    pub(crate) incr: Text,
}

/// The paths of the file of a folder and a plain name.
pub(crate) fn paths_at(alloc: Global, folder: &[u8], name: &[u8]) -> Result<FilePaths, NoMemory>
    requires { IsRelationFile folder.now name.now }
    ensures { IfOk result (ArePathsOf folder.now name.now) }
{
    let plain = file_path(alloc, folder, name, false)?;
    let incr = file_path(alloc, folder, name, true)?;
    Ok(FilePaths { plain, incr })
}

/// A fork and a segment have a path.
fn is_named(fork: &ForkId, seg: u32)
    ensures { IsNamed fork.now seg }
{
    // known: the numbers of a relation fit, and aren't 0
    let _numbers = (fork.rel.db(), fork.rel.rel());
}

/// The paths of this segment file of a fork.
pub(crate) fn paths_of(alloc: Global, fork: &ForkId, seg: u32) -> Result<FilePaths, NoMemory>
    ensures { IfOk result (ArePathsOf (fork_folder fork.now) (fork_name fork.now seg)) }
{
    is_named(fork, seg);
    let plain = fork_path(alloc, *fork, seg, false)?;
    let incr = fork_path(alloc, *fork, seg, true)?;
    Ok(FilePaths { plain, incr })
}
